//! Callers that compare how many bits are set before and after a change. None has a proof file.

ghost use Rattle.std.specs.Prelude.{◌≡◌, ◌+◌, ◌-◌, ◌≤◌, length, IsTrue};
ghost use Rattle.bittle.specs.BitPatterns.{bit_set};
ghost use Rattle.bittle.specs.PlainSet.{size};
ghost use Rattle.bittle.specs.Rows.{row_set};
ghost use Rattle.bittle.specs.Searches.{NoneIn};
ghost use Rattle.bittle.specs.Values.{set_in, ShapeFits};

use bittle::{Bits, BitsMut, BitsOwned};
use bittle_ext::prelude::*;

/// Returns how many unset bits lie below an index of the set, by a count of set bits.
pub fn unset_below<B: Bits>(set: &B, index: u32) -> u32
    requires { ShapeFits B.Shape set.now }
    ensures { result ≤ index }
{
    index - set.rank(index)
}

/// Returns how many set bits lie below an index of the set, by a count of unset bits.
pub fn set_below<B: Bits>(set: &B, index: u32) -> u32
    requires { ShapeFits B.Shape set.now }
    ensures { result ≤ index }
{
    index - set.rank_zero(index)
}

/// Adds the members of another set, and returns how many are new.
pub fn added<A: BitsMut, B: Bits>(set: &mut A, other: &B) -> u32
    requires fits { ShapeFits A.Shape set.old }
    requires other_fits { ShapeFits B.Shape other.now }
    ensures { size (A.big set.old) + result ≡ size (A.big set.new) }
{
    let before = set.count_ones();
    set.union_with(other);
    set.count_ones() - before
}

/// Removes the odd members, and returns how many there were.
pub fn odd_taken_out<B: BitsMut>(set: &mut B) -> u32
    requires { ShapeFits B.Shape set.old }
    ensures { size (B.big set.new) + result ≡ size (B.big set.old) }
{
    let before = set.count_ones();
    set.retain(|index| index % 2 == 0);
    before - set.count_ones()
}

/// Returns how many members of the first set are in the second, and how many are not.
pub fn shares<A: Bits, B: Bits>(one: &A, other: &B) -> (u32, u32)
    requires one_fits { ShapeFits A.Shape one.now }
    requires other_fits { ShapeFits B.Shape other.now }
    ensures { result.0 + result.1 ≡ size (A.big one.now) }
{
    (one.count_common(other), one.count_alone(other))
}

/// Rotates a set, and returns how many bits are set, counted before.
pub fn count_rotated<B: BitsMut>(set: &mut B, by: u32) -> u32
    requires { ShapeFits B.Shape set.old }
    ensures { result ≡ size (set_in B.Shape B.Order.Endian set.new) }
{
    let count = set.count_ones();
    set.rotate_up(by);
    count
}

/// Flips every bit, and returns how many bits are then set, counted before.
pub fn count_flipped<B: BitsMut>(set: &mut B) -> u32
    requires { ShapeFits B.Shape set.old }
    ensures { result ≡ size (B.big set.new) }
{
    let count = set.count_zeros();
    set.complement_assign();
    count
}

/// Returns how many numbers of a list repeat an earlier one.
pub fn repeats<B: BitsOwned>(numbers: &[u32]) -> u32
    requires indexable { IsTrue B.indexable }
    requires few { length numbers.now ≤ 1000 }
    ensures { result ≤ length numbers.now }
{
    numbers.len() as u32 - B::from_indexes(numbers).count_ones()
}

/// Sets the bits of a range in which no bit is set. The number of set bits grows by the length of
/// the range.
pub fn fill_free(row: &mut [u64; 4], from: u32, to: u32)
    requires ordered { from ≤ to }
    requires within { to ≤ 256 }
    requires free { NoneIn (row_set 4 64 (bit_set 64) row.old) from to }
    ensures { size (row_set 4 64 (bit_set 64) row.new)
        ≡ size (row_set 4 64 (bit_set 64) row.old) + (to - from) }
{
    row.set_range(from, to);
}
