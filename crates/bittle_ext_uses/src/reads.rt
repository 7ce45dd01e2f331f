//! Calls that read sets: single words, arrays of words, and sets of any shape.

ghost use Rattle.std.specs.Prelude.{◌≡◌, ◌↔◌, ◌+◌, ◌/◌, ◌<◌, ◌≤◌, ℕ, true, IsTrue};
ghost use Rattle.std.specs.Prelude.{MatchBool, MatchOption, Option, Some, slice_get};
ghost use Rattle.bittle.specs.BitPatterns.{bit_set};
ghost use Rattle.bittle.specs.Orders.{read_in};
ghost use Rattle.bittle.specs.PlainSet.{ascending, complement, size};
ghost use Rattle.bittle.specs.Rows.{row_set};
ghost use Rattle.bittle.specs.Searches.{IsFirstIn, IsLastIn};
ghost use Rattle.bittle.specs.Values.{set_in, ShapeFits};
ghost use Rattle.bittle_ext.specs.RangeMembers.{HasSomeIn, HasAllIn};
ghost use Rattle.bittle_ext.specs.SetRelations.{IsSubset, AreDisjoint, Meet};
ghost use Rattle.bittle_ext.specs.Runs.{IsFirstRun};

use bittle::{Bits, Endian, LittleEndian, Set};
use bittle_ext::{BitsExt, BitsRelationExt, BitsViewExt};

/// Returns the entry of `row` at the greatest set bit, or 0 if no bit is set. Each index of a bit
/// is an index of `row`.
pub fn entry_at_greatest(mask: u16, row: &[u32; 16]) -> u32
    ensures { (found : Option ℕ) × IsLastIn (bit_set 16 mask) 0 16 found
        × MatchOption found (result ≡ 0) (λ index. slice_get row.now index ≡ Some result) }
{
    match mask.last_one() {
        Some(index) => row[index as usize],
        None => 0,
    }
}

/// Returns the greatest index of an unset bit, in little-endian order.
pub fn greatest_free_le(mask: u8) -> Option<u32>
    ensures { IsLastIn (complement (read_in true 8 (bit_set 8 mask))) 0 8 result }
{
    mask.in_order::<LittleEndian>().prev_zero(8)
}

/// Returns the last set bit before `index`, and the first set bit after `index`.
pub fn neighbours(mask: u64, index: u32) -> (Option<u32>, Option<u32>)
    requires { index < 64 }
    ensures before { IsLastIn (bit_set 64 mask) 0 index result.0 }
    ensures after { IsFirstIn (bit_set 64 mask) (index + 1) 64 result.1 }
{
    (mask.prev_one(index), mask.next_one(index + 1))
}

/// Returns the first set bit from index `from` on. The set is read in little-endian order.
pub fn next_of(set: &Set<u16, LittleEndian>, from: u32) -> Option<u32>
    ensures { IsFirstIn (read_in true 16 (bit_set 16 set.now.bits)) from 16 result }
{
    set.next_one(from)
}

/// Returns whether each day of a range is a working day.
pub fn works_through(days: u32, from: u32, to: u32) -> bool
    requires ordered { from ≤ to }
    requires within { to ≤ 32 }
    ensures { MatchBool result (HasAllIn (bit_set 32 days) from to)
        (HasSomeIn (complement (bit_set 32 days)) from to) }
{
    days.all_in_range(from, to)
}

/// Searches from page `from` on for the first run of `length` free pages, and returns where it
/// begins. The set may have any shape.
pub fn free_from<B: Bits>(pages: &B, from: u32, length: u32) -> Option<u32>
    requires { ShapeFits B.Shape pages.now }
    ensures { IsFirstRun (complement (set_in B.Shape B.Order.Endian pages.now)) from length result }
{
    pages.next_zero_run(from, length)
}

/// Returns the median set bit, or `None` if no bit is set.
pub fn middle<B: Bits, E: Endian>(set: &B) -> Option<u32>
    requires { ShapeFits B.Shape set.now }
    ensures { result ≡ slice_get (ascending (set_in B.Shape E.Endian set.now))
        (size (B.big set.now) / 2) }
{
    set.in_order::<E>().select(set.count_ones() / 2)
}

/// Returns whether a role grants what is wanted.
pub fn grants(role: u32, wanted: u32) -> bool
    ensures { IsTrue result ↔ IsSubset (bit_set 32 wanted) (bit_set 32 role) }
{
    role.is_superset(&wanted)
}

/// Returns whether each set bit of a byte is set in a long word.
pub fn is_within(small: u8, large: u128) -> bool
    ensures { IsTrue result ↔ IsSubset (bit_set 8 small) (bit_set 128 large) }
{
    small.is_subset(&large)
}

/// Returns whether two words have a set bit in common.
pub fn meet(one: u16, other: u16) -> bool
    ensures { IsTrue result ↔ Meet (bit_set 16 one) (bit_set 16 other) }
{
    one.intersects(&other)
}

/// Returns whether two words have no set bit in common. Both are read in little-endian order.
pub fn are_disjoint_le(one: u16, other: u32) -> bool
    ensures { IsTrue result ↔ AreDisjoint (read_in true 16 (bit_set 16 one))
        (read_in true 32 (bit_set 32 other)) }
{
    let view = one.in_order::<LittleEndian>();
    view.is_disjoint(&other.in_order::<LittleEndian>())
}

/// Returns the least set bit. The only bound of the type is the extension trait `BitsExt`.
pub fn least_of<B: BitsExt>(set: &B) -> Option<u32>
    requires { ShapeFits B.Shape set.now }
    ensures { let ours = set_in B.Shape B.Order.Endian set.now in
        IsFirstIn ours 0 ours.capacity result }
{
    set.first_one()
}

/// Returns the least set bit of a word, that of an array of words, and that of an array of bytes.
pub fn three_least(
    word: u64,
    row: &[u32; 4],
    slice: &[u8; 2],
) -> (Option<u32>, Option<u32>, Option<u32>)
    ensures word { IsFirstIn (bit_set 64 word) 0 64 result.0 }
    ensures row { IsFirstIn (row_set 4 32 (bit_set 32) row.now) 0 128 result.1 }
    ensures slice { IsFirstIn (row_set 2 8 (bit_set 8) slice.now) 0 16 result.2 }
{
    (least_of(&word), least_of(row), least_of(slice))
}
