//! Functions that hand what a call returned to the next call: the index that a search found to a
//! test or a change of this bit, or the set that an operation made to a test of two sets. Others
//! compare what two calls returned. No function names a lemma, and none has a proof file.

ghost use Rattle.std.specs.Prelude.{◌≡◌, ◌+◌, ◌*◌, ◌<◌, ◌≤◌, length, IfSome, MatchBool};
ghost use Rattle.std.specs.Prelude.{true, false};
ghost use Rattle.bittle.specs.PlainSet.{size};
ghost use Rattle.bittle.specs.Rows.{row_set};
ghost use Rattle.bittle.specs.BitPatterns.{bit_set};
ghost use Rattle.bittle.specs.Values.{set_in, ShapeFits};

use bittle::{Bits, BitsMut, BitsOwned, LittleEndian};
use bittle_ext::prelude::*;

/// Books the first free seat. Returns whether there was one.
pub fn book_first(seats: &mut [u32; 4]) -> bool
    ensures { MatchBool result
        (size (row_set 4 32 (bit_set 32) seats.new)
        ≡ size (row_set 4 32 (bit_set 32) seats.old) + 1)
        (size (row_set 4 32 (bit_set 32) seats.old) ≡ 128) }
{
    match seats.first_zero() {
        Some(seat) => seats.insert(seat),
        None => false,
    }
}

/// Inserts the first index that a set of any shape lacks. Returns whether there is one.
pub fn insert_first<B: BitsMut>(set: &mut B) -> bool
    requires { ShapeFits B.Shape set.old }
    ensures { MatchBool result
        (size (set_in B.Shape B.Order.Endian set.new)
        ≡ size (set_in B.Shape B.Order.Endian set.old) + 1)
        (size (set_in B.Shape B.Order.Endian set.old) ≡ (B.big set.old).capacity) }
{
    match set.first_zero() {
        Some(index) => set.insert(index),
        None => false,
    }
}

/// Inserts the first index from `from` on that a word lacks. `insert` says that it is new.
pub fn insert_next(mut word: u64, from: u32) -> bool
    ensures { result ≡ true }
{
    match word.next_zero(from) {
        Some(index) => word.insert(index),
        None => true,
    }
}

/// Inserts the first index of a range that a word lacks. `insert` says that it is new.
pub fn insert_within(mut word: u64) -> bool
    ensures { result ≡ true }
{
    match word.first_zero_in_span(10..) {
        Some(index) => word.insert(index),
        None => true,
    }
}

/// Removes the greatest index of a row. `remove` says that it was there.
pub fn remove_last(mut row: [u32; 4]) -> Option<bool>
    ensures { IfSome result (λ there. there ≡ true) }
{
    let index = row.last_one()?;
    Some(row.remove(index))
}

/// Tests the first set bit of a set of any shape.
pub fn test_first<B: Bits>(set: &B) -> bool
    requires { ShapeFits B.Shape set.now }
    ensures { result ≡ true }
{
    match set.first_one() {
        Some(index) => set.test_bit(index),
        None => true,
    }
}

/// Tests the first set bit of a slice of any length that fits.
pub fn test_first_of_slice(words: &[u64]) -> bool
    requires { length words.now * 64 < 4294967295 }
    ensures { result ≡ true }
{
    match words.first_one() {
        Some(index) => words.test_bit(index),
        None => true,
    }
}

/// Tests the first set bit of a word in little-endian order.
pub fn test_first_le(word: u64) -> bool
    ensures { result ≡ true }
{
    match word.in_order::<LittleEndian>().first_one() {
        Some(index) => word.test_bit_le(index),
        None => true,
    }
}

/// Tests an unset bit.
pub fn test_zero(row: &[u32; 4], from: u32) -> bool
    ensures { result ≡ false }
{
    match row.next_zero(from) {
        Some(index) => row.test_bit(index),
        None => false,
    }
}

/// Tests the set bit that has four set bits below it.
pub fn test_fifth(row: &[u32; 4]) -> Option<bool>
    ensures { IfSome result (λ told. told ≡ true) }
{
    let index = row.select(4)?;
    Some(row.test_bit(index))
}

/// Tests, in both sets, the first index that they have in common.
pub fn test_common(row: &[u32; 4], other: &[u32; 4]) -> bool
    ensures { result ≡ true }
{
    match row.first_common(other) {
        Some(index) => row.test_bit(index) && other.test_bit(index),
        None => true,
    }
}

/// Tests an index in a set if a subset has it.
pub fn test_in_greater(row: &[u32; 4], other: &[u32; 4], index: u32) -> bool
    requires { index < 128 }
    ensures { result ≡ true }
{
    if row.is_subset(other) && row.test_bit(index) {
        other.test_bit(index)
    } else {
        true
    }
}

/// Takes two free seats, and returns whether they differ.
pub fn take_two(mut seats: [u32; 4]) -> bool
    ensures { result ≡ true }
{
    match seats.take_first_zero() {
        Some(one) => match seats.take_first_zero() {
            Some(other) => one != other,
            None => true,
        },
        None => true,
    }
}

/// Counts the set bits of a run of unset bits.
pub fn count_in_run(map: &[u64; 4], pages: u32) -> u32
    ensures { result ≡ 0 }
{
    match map.first_zero_run(pages) {
        Some(first) => map.count_ones_in_range(first, first + pages),
        None => 0,
    }
}

/// Returns whether a run of unset bits, found in a range, has a set bit.
pub fn test_run(map: &[u64; 4]) -> bool
    ensures { result ≡ false }
{
    match map.first_zero_run_in_range(1, 200, 9) {
        Some(first) => map.any_in_range(first, first + 9),
        None => false,
    }
}

/// Counts the set bits and the unset bits of a range.
pub fn count_both(row: &[u32; 4], from: u32, to: u32) -> u32
    requires ordered { from ≤ to }
    requires within { to ≤ 128 }
    ensures { from + result ≡ to }
{
    row.count_ones_in_range(from, to) + row.count_zeros_in_range(from, to)
}

/// Counts the set bits and the unset bits below an index.
pub fn rank_both(row: &[u32; 4], index: u32) -> u32
    requires { index ≤ 128 }
    ensures { result ≡ index }
{
    row.rank(index) + row.rank_zero(index)
}

/// Flips a range, and returns whether a bit of it differs from what it was.
pub fn flip_and_compare(mut row: [u32; 4]) -> bool
    ensures { result ≡ true }
{
    let before = row.test_bit(4);
    row.toggle_range(3, 9);
    row.test_bit(4) != before
}

/// Flips a range that is written as in Rust, and returns whether a bit of it differs from what it
/// was.
pub fn flip_span_and_compare(mut row: [u32; 4]) -> bool
    ensures { result ≡ true }
{
    let before = row.test_bit(4);
    row.toggle_span(3..=8);
    row.test_bit(4) != before
}

/// Returns whether a copy with a range flipped differs from a word in a bit of the range.
pub fn is_flipped_in_copy(word: u64) -> bool
    ensures { result ≡ true }
{
    word.with_range_toggled(3, 9).test_bit(4) != word.test_bit(4)
}

/// Returns whether a copy with a range flipped, written as in Rust, differs from a word in a bit of
/// the range.
pub fn is_flipped_in_copy_of_span(word: u64) -> bool
    ensures { result ≡ true }
{
    word.with_span_toggled(3..).test_bit(4) != word.test_bit(4)
}

/// Returns whether a union has all members of both words.
pub fn is_union_greater(word: u64, other: u64) -> bool
    ensures { result ≡ true }
{
    word.is_subset(&word.union(other)) && other.is_subset(&word.union(other))
}

/// Returns whether a conjunction has no member that one of the two words lacks.
pub fn is_conjunction_lesser(word: u64, other: u64) -> bool
    ensures { result ≡ true }
{
    word.conjunction(other).is_subset(&word) && word.conjunction(other).is_subset(&other)
}

/// Returns whether a difference lies in the first word and outside the other.
pub fn is_difference_apart(word: u64, other: u64) -> bool
    ensures { result ≡ true }
{
    word.difference(other).is_subset(&word) && word.difference(other).is_disjoint(&other)
}

/// Returns whether a word and its complement have no member in common.
pub fn is_complement_apart(word: u64) -> bool
    ensures { result ≡ true }
{
    word.is_disjoint(&word.complement())
}

/// Counts the members of a union and of a conjunction, and compares the counts with that of one
/// set.
pub fn compare_counts(row: [u32; 4], other: [u32; 4]) -> bool
    ensures { result ≡ true }
{
    row.conjunction(other).count_ones() <= row.count_ones()
        && row.count_ones() <= row.union(other).count_ones()
}

/// Inserts an index, and returns whether the set has it. An index past the capacity is refused.
pub fn insert_and_ask(mut set: u32, index: u32) -> bool
    requires { index < 32 }
    ensures { result ≡ true }
{
    set.insert(index);
    set.contains_index(index)
}

/// Returns whether the last index before 20 that a word lacks is in it.
pub fn has_what_it_lacks(word: u32) -> bool
    ensures { result ≡ false }
{
    match word.prev_zero(20) {
        Some(index) => word.contains_index(index),
        None => false,
    }
}

/// Takes the least member out, and returns whether the set still has it.
pub fn pop_and_ask(mut word: u32) -> bool
    ensures { result ≡ false }
{
    match word.pop_first() {
        Some(index) => word.contains_index(index),
        None => false,
    }
}

/// Flips a bit, and returns whether the answer of `contains_index` changed.
pub fn flip_and_ask(mut word: u32) -> bool
    ensures { result ≡ true }
{
    let before = word.contains_index(7);
    word.toggle(7);
    word.contains_index(7) != before
}

/// Returns whether an unset bit, found by its rank, is set.
pub fn is_unset_bit_set(word: u32, rank: u32) -> bool
    ensures { result ≡ false }
{
    match word.select_zero(rank) {
        Some(index) => word.test_bit(index),
        None => false,
    }
}

/// Sets a free run of 4 bits, and returns whether the number of set bits grew by 4.
pub fn fill_and_count(mut map: [u64; 4]) -> bool
    ensures { result ≡ true }
{
    let before = map.count_ones();
    match map.first_zero_run(4) {
        Some(first) => {
            map.set_range(first, first + 4);
            map.count_ones() == before + 4
        }
        None => true,
    }
}

/// Clears a run of 4 set bits, and returns whether the number of set bits fell by 4.
pub fn clear_and_count(mut map: [u64; 4]) -> bool
    ensures { result ≡ true }
{
    let before = map.count_ones();
    match map.first_one_run(4) {
        Some(first) => {
            map.clear_range(first, first + 4);
            map.count_ones() + 4 == before
        }
        None => true,
    }
}

/// Returns whether the rank of the first set bit is 0.
pub fn rank_of_first(row: [u32; 4]) -> bool
    ensures { result ≡ true }
{
    match row.first_one() {
        Some(first) => row.rank(first) == 0,
        None => true,
    }
}

/// Returns whether a count of the rights that are asked for and not granted tells the same as
/// `is_subset`.
pub fn count_missing(asked: u32, granted: [u8; 8]) -> bool
    ensures { result ≡ true }
{
    if asked.count_alone(&granted) == 0 {
        asked.is_subset(&granted)
    } else {
        !asked.is_subset(&granted)
    }
}

/// Returns whether a count of the shared indexes tells the same as `is_disjoint`.
pub fn count_shared(one: u32, other: [u8; 8]) -> bool
    ensures { result ≡ true }
{
    if one.count_common(&other) == 0 {
        one.is_disjoint(&other)
    } else {
        one.intersects(&other)
    }
}

/// Returns whether two sets that differ in no index are subsets of each other.
pub fn count_changes(one: u32, other: [u8; 8]) -> bool
    ensures { result ≡ true }
{
    one.count_different(&other) != 0 || (one.is_subset(&other) && other.is_subset(&one))
}

/// Returns whether a row that has a set bit has a first one.
pub fn has_a_first(row: [u32; 4]) -> bool
    ensures { result ≡ true }
{
    row.all_zeros() || row.first_one().is_some()
}

/// Returns whether a row that has an unset bit has a last one.
pub fn has_a_last_unset(row: [u32; 4]) -> bool
    ensures { result ≡ true }
{
    row.all_ones() || row.last_zero().is_some()
}
