//! Functions that change a set or make one, and then ask for what the call has made so. No function
//! names a lemma, and none has a proof file.

ghost use Rattle.std.specs.Prelude.{◌≡◌, ◌-◌, ◌<◌, ◌≤◌, not, true, false};
ghost use Rattle.bittle.specs.BitPatterns.{bit_set};
ghost use Rattle.bittle.specs.PlainSet.{contains, size, with_index, without_members};
ghost use Rattle.bittle.specs.Rows.{row_set};
ghost use Rattle.bittle.specs.Values.{set_in, ShapeFits};
ghost use Rattle.bittle_ext.specs.Changes.{with_index_toggled};

use bittle::{Bits, BitsMut, BitsOwned};
use bittle_ext::prelude::*;

/// Sets a bit, tests it, and returns `true`.
pub fn set_and_test(mut word: u64, index: u32) -> bool
    ensures { result ≡ true }
{
    word.set_bit(index);
    word.test_bit(index)
}

/// Clears a bit of a row, tests it, and returns `false`.
pub fn clear_and_test(mut row: [u32; 4], index: u32) -> bool
    ensures { result ≡ false }
{
    row.clear_bit(index);
    row.test_bit(index)
}

/// Inserts an index into a row, and tests it.
pub fn insert_and_test(mut row: [u32; 4], index: u32) -> bool
    ensures { result ≡ true }
{
    row.insert(index);
    row.test_bit(index)
}

/// Inserts an index into a set of any shape that has bits, and tests it.
pub fn insert_into_any<B: BitsMut>(set: &mut B, index: u32) -> bool
    requires fits { ShapeFits B.Shape set.old }
    requires has_bits { 0 < (B.big set.old).capacity }
    ensures told { result ≡ true }
    ensures set { set_in B.Shape B.Order.Endian set.new
        ≡ with_index (set_in B.Shape B.Order.Endian set.old) index }
{
    set.insert(index);
    set.test_bit(index)
}

/// Removes an index from a row, and tests it.
pub fn remove_and_test(mut row: [u32; 4], index: u32) -> bool
    ensures { result ≡ false }
{
    row.remove(index);
    row.test_bit(index)
}

/// Gives a bit a value, and reads the bit.
pub fn replace_and_test(mut row: [u32; 4], index: u32, value: bool) -> bool
    ensures { result ≡ value }
{
    row.replace(index, value);
    row.test_bit(index)
}

/// Flips a bit, and returns what it is then.
pub fn flip_and_test(lamps: &mut u32, lamp: u32) -> bool
    ensures told { result ≡ not (contains (bit_set 32 lamps.old) lamp) }
    ensures flipped { bit_set 32 lamps.new ≡ with_index_toggled (bit_set 32 lamps.old) lamp }
{
    lamps.toggle(lamp);
    lamps.test_bit(lamp)
}

/// Sets a bit if there is one at the index, and returns whether it is set.
pub fn book(seats: &mut [u32; 4], seat: u32) -> bool
    requires { seat < 128 }
    ensures told { result ≡ true }
    ensures booked { (row_set 4 32 (bit_set 32) seats.new).has seat ≡ true }
{
    seats.try_set_bit(seat) && seats.contains_index(seat)
}

/// Sets every bit, and counts the set bits.
pub fn count_all(mut row: [u32; 4]) -> u32
    ensures { result ≡ 128 }
{
    row.set_all();
    row.count_ones()
}

/// Returns whether the set bits and those of the complement are together as many as the capacity.
pub fn are_all_counted(row: [u32; 4]) -> bool
    ensures { result ≡ true }
{
    row.complement().count_ones() + row.count_ones() == 128
}

/// Copies a word into a longer row, and counts the set bits of the row.
pub fn copy_and_count(word: u64) -> u32
    ensures { result ≡ size (bit_set 64 word) }
{
    let mut row = [0u32; 4];
    row.copy_from(&word);
    row.count_ones()
}

/// Makes a row of a word, and counts the set bits of the row.
pub fn convert_and_count(word: u64) -> u32
    ensures { result ≡ size (bit_set 64 word) }
{
    <[u32; 2]>::from_set(&word).count_ones()
}

/// Sets a range of a copy, and returns whether it is set.
pub fn fill_and_test(word: u64) -> bool
    ensures { result ≡ true }
{
    word.with_range(3, 9).all_in_range(3, 9)
}

/// Clears a range of a copy, and returns whether a bit of the range is set.
pub fn drain_and_test(word: u64) -> bool
    ensures { result ≡ false }
{
    word.without_range(3, 9).any_in_range(3, 9)
}

/// Sets a bit of a copy, and tests it.
pub fn with_and_test(word: u64, index: u32) -> bool
    ensures { result ≡ true }
{
    word.with_bit(index).test_bit(index)
}

/// Clears a bit of a copy, and tests it.
pub fn without_and_test(word: u64, index: u32) -> bool
    ensures { result ≡ false }
{
    word.without_bit(index).test_bit(index)
}

/// Clears every bit, and counts the set bits.
pub fn clear_and_count(mut row: [u32; 4]) -> u32
    ensures { result ≡ 0 }
{
    row.clear_bits();
    row.count_ones()
}

/// Clears every bit of a set of any shape that fits, and returns whether no bit is set.
pub fn clear_any<B: BitsMut>(set: &mut B) -> bool
    requires { ShapeFits B.Shape set.old }
    ensures told { result ≡ true }
    ensures set { B.big set.new ≡ without_members (B.big set.old) }
{
    set.clear_bits();
    set.all_zeros()
}

/// Counts the set bits of the empty set and of the full set.
pub fn count_of_each() -> (u32, u32)
    ensures none { result.0 ≡ 0 }
    ensures all { result.1 ≡ 128 }
{
    (
        <[u32; 4]>::zeros().count_ones(),
        <[u32; 4]>::ones().count_ones(),
    )
}

/// Returns whether each bit of the full set is set.
pub fn is_full_set_full() -> bool
    ensures { result ≡ true }
{
    <[u32; 4]>::ones().all_ones()
}

/// Gives each bit of a range the value `true`, and returns whether each is set.
pub fn assign_and_test(mut row: [u32; 4], from: u32, to: u32) -> bool
    requires ordered { from ≤ to }
    requires within { to ≤ 128 }
    ensures { result ≡ true }
{
    row.assign_range(from, to, true);
    row.all_in_range(from, to)
}

/// Gives each bit of a range the value `false`, and returns whether one is set.
pub fn unassign_and_test(mut row: [u32; 4]) -> bool
    ensures { result ≡ false }
{
    row.assign_span(3..9, false);
    row.any_in_range(3, 9)
}

/// Sets a range of a copy, named by a Rust range, and returns whether each bit of it is set.
pub fn fill_span_and_test(word: u64) -> bool
    ensures { result ≡ true }
{
    word.with_span(3..9).all_in_range(3, 9)
}

/// Sets a range, and counts its set bits.
pub fn fill_and_count(mut row: [u32; 4], from: u32, to: u32) -> u32
    requires ordered { from ≤ to }
    requires within { to ≤ 128 }
    ensures { result ≡ to - from }
{
    row.set_range(from, to);
    row.count_ones_in_range(from, to)
}

/// Clears a range, and counts its set bits.
pub fn drain_and_count(mut row: [u32; 4], from: u32, to: u32) -> u32
    requires ordered { from ≤ to }
    requires within { to ≤ 128 }
    ensures { result ≡ 0 }
{
    row.clear_range(from, to);
    row.count_ones_in_range(from, to)
}

/// Takes a run of four unset bits, and returns whether each bit of the run is set then.
pub fn take_run_and_test(mut row: [u64; 4]) -> bool
    ensures { result ≡ true }
{
    match row.take_first_zero_run(4) {
        Some(from) => row.all_in_range(from, from + 4),
        None => true,
    }
}

/// Takes the first set bit out of a row, and returns whether it is still set.
pub fn pop_and_test(mut row: [u32; 4]) -> bool
    ensures { result ≡ false }
{
    match row.pop_first() {
        Some(index) => row.test_bit(index),
        None => false,
    }
}

/// Sets the first unset bit of a row, and returns whether it is set then.
pub fn take_and_test(mut row: [u32; 4]) -> bool
    ensures { result ≡ true }
{
    match row.take_first_zero() {
        Some(index) => row.test_bit(index),
        None => true,
    }
}
