//! Ranges of a set, written as Rust ranges. A call that only reads has no condition on the ends of
//! a range.

ghost use Rattle.std.specs.Prelude.{◌≡◌, ◌+◌, ◌-◌, ◌<◌, ◌≤◌, true, IsTrue, MatchBool, ◌↔◌};
ghost use Rattle.std.specs.Prelude.{option_map, slice_index, unwrap_or, ℕ, Option};
ghost use Rattle.std.specs.Range.Bound.{start_index, end_index};
ghost use Rattle.bittle.specs.BitPatterns.{bit_set};
ghost use Rattle.bittle.specs.Orders.{read_in};
ghost use Rattle.bittle.specs.PlainSet.{complement, members_below, size};
ghost use Rattle.bittle.specs.PlainSet.{with_span, without_span, with_span_toggled};
ghost use Rattle.bittle.specs.Rows.{row_set};
ghost use Rattle.bittle.specs.Searches.{IsFirstIn, IsLastIn, NoneIn};
ghost use Rattle.bittle.specs.Values.{set_in, ShapeFits};
ghost use Rattle.bittle_ext.specs.Combined.{both_of};
ghost use Rattle.bittle_ext.specs.RangeMembers.{members_within, HasAllIn, HasSomeIn, LacksSomeIn};

use bittle::{Bits, BitsMut, Endian, LittleEndian, Set};
use bittle_ext::prelude::*;
use std::ops::RangeBounds;

/// Counts the set bits of a range, whose ends may be any numbers.
pub fn count_any(mask: u64, from: u32, to: u32) -> u32
    ensures count { result
        ≡ members_below (bit_set 64 mask) to - members_below (bit_set 64 mask) from }
    ensures at_most { result ≤ 64 }
{
    mask.count_ones_in_range(from, to)
}

/// Counts the unset bits up to and including `last`.
pub fn count_free_through(mask: u8, last: u32) -> u32
    ensures { let free = complement (bit_set 8 mask) in
        result ≡ members_below free (last + 1) - members_below free 0 }
{
    mask.count_zeros_in_span(..=last)
}

/// Returns the first set bit in a window of eight indexes from `start` on.
pub fn next_in_window(mask: u32, start: u32) -> Option<u32>
    requires { start < 1000 }
    ensures { IsFirstIn (bit_set 32 mask) start (start + 8) result }
{
    mask.first_one_in_span(start..start + 8)
}

/// Returns the last unset bit in the first half of a set. The set is read in little-endian order.
pub fn last_free_of_half(set: &Set<u16, LittleEndian>) -> Option<u32>
    ensures { IsLastIn (complement (read_in true 16 (bit_set 16 set.now.bits))) 0 8 result }
{
    set.last_zero_in_span(..8)
}

/// Returns the entry of a table at the first unset bit of a range, or 0 if there is none. The bit
/// lies below the capacity, whatever the range is.
pub fn entry_at_first_free(mask: u64, from: u32, to: u32, table: &[u32; 64]) -> u32
    ensures { (found : Option ℕ) × IsFirstIn (complement (bit_set 64 mask)) from to found
        × (result ≡ unwrap_or (option_map (λ i. slice_index table.now i) found) 0) }
{
    match mask.first_zero_in_range(from, to) {
        Some(index) => table[index as usize],
        None => 0,
    }
}

/// Returns whether each page from `from` on is taken.
pub fn all_taken_from(pages: &[u32; 8], from: u32) -> bool
    ensures { let taken = row_set 8 32 (bit_set 32) pages.now in
        MatchBool result (HasAllIn taken from 256) (LacksSomeIn taken from 256) }
{
    pages.all_in_span(from..)
}

/// Returns whether a role has each permission of a range. The range may go past the last permission
/// that exists.
pub fn grants_all(role: u32, from: u32, to: u32) -> bool
    ensures { MatchBool result (HasAllIn (bit_set 32 role) from to)
        (LacksSomeIn (bit_set 32 role) from to) }
{
    role.all_in_range(from, to)
}

/// Returns whether any of the first fourteen days is marked.
pub fn any_of_first(days: &[u64; 6]) -> bool
    ensures { let set = row_set 6 64 (bit_set 64) days.now in
        MatchBool result (HasSomeIn set 0 14) (NoneIn set 0 14) }
{
    days.any_in_span(..14)
}

/// Marks the entries of a table at the set bits of a range, whatever the range is.
pub fn mark(mask: u16, from: u32, to: u32, table: &mut [bool; 16]) {
    for index in mask.iter_ones_in_range(from, to) {
        table[index as usize] = true;
    }
}

/// Adds up the indexes of the unset bits from `from` on.
pub fn sum_of_free_from(mask: u32, from: u32) -> u32 {
    let mut sum = 0u32;
    for index in mask.iter_zeros_in_span(from..) {
        sum = sum.wrapping_add(index);
    }
    sum
}

/// Counts the bits up to and including `last` that are set in both words.
pub fn common_through(one: u64, other: u64, last: u32) -> u32
    ensures { result ≡ size (members_within (both_of (bit_set 64 one) (bit_set 64 other)) 0
        (last + 1)) }
{
    one.and(&other).within_span(..=last).count_ones()
}

/// Counts the items of an iterator over the set bits of any set, from index `from` on.
pub fn items_from<B: Bits>(set: &B, from: u32) -> usize
    requires { ShapeFits B.Shape set.now }
    ensures { let ours = set_in B.Shape B.Order.Endian set.now in
        result ≡ members_below ours ours.capacity - members_below ours from }
{
    set.iter_ones_in_span(from..).count()
}

/// Counts the set bits of any set in any range that the caller gives.
pub fn count_in<B: Bits, R: RangeBounds<u32>>(set: &B, range: R) -> u32
    requires fits { ShapeFits B.Shape set.now }
    requires known { R.has_bounds range }
    ensures { let ours = set_in B.Shape B.Order.Endian set.now in
        result ≡ members_below ours (end_index (R.end_bound range) ours.capacity)
        - members_below ours (start_index (R.start_bound range)) }
{
    set.count_ones_in_span(range)
}

/// Sets a range, clears all bits after it, and flips the first half of the word.
pub fn rearrange(mask: &mut u64)
    ensures { bit_set 64 mask.new ≡ with_span_toggled
        (without_span (with_span (bit_set 64 mask.old) 3 41) 41 64) 0 32 }
{
    mask.set_span(3..=40);
    mask.clear_span(41..);
    mask.toggle_span(..32);
}

/// Clears all bits of any set from index `from` on. The indexes follow the order `E`.
pub fn cut<B: BitsMut, E: Endian>(set: &mut B, from: u32)
    requires fits { ShapeFits B.Shape set.old }
    requires within { from ≤ (B.big set.old).capacity }
    ensures { set_in B.Shape E.Endian set.new ≡ without_span
        (set_in B.Shape E.Endian set.old) from (B.big set.old).capacity }
{
    set.in_order_mut::<E>().clear_span(from..);
}

/// Returns a mask in which the bits below an index are set.
pub fn low_mask(to: u32) -> u64
    requires { to ≤ 64 }
    ensures { bit_set 64 result ≡ with_span (bit_set 64 0) 0 to }
{
    0u64.with_span(..to)
}

/// Returns `word` with all bits from index `from` on cleared.
pub fn without_high(word: u32, from: u32) -> u32
    requires { from ≤ 32 }
    ensures { bit_set 32 result ≡ without_span (bit_set 32 word) from 32 }
{
    word.without_span(from..)
}

/// Counts the set bits from an index on. The check proves that the subtraction does not underflow.
pub fn count_not_below(mask: u32, index: u32) -> u32
    ensures { result ≡ size (bit_set 32 mask) - members_below (bit_set 32 mask) index }
{
    Bits::count_ones(&mask) - mask.rank(index)
}

/// Clears a range, and returns how many bits are set after that. It counts bits only before the
/// change.
pub fn clear_and_count(mask: &mut u64, from: u32, to: u32) -> u32
    requires ordered { from ≤ to }
    requires within { to ≤ 64 }
    ensures { result ≡ size (bit_set 64 mask.new) }
{
    let left = Bits::count_ones(mask) - mask.count_ones_in_range(from, to);
    mask.clear_range(from, to);
    left
}

/// Sets a range, and returns how many bits are set after that. It counts bits only before the
/// change.
pub fn fill_and_count(mask: &mut u64, from: u32, to: u32) -> u32
    requires ordered { from ≤ to }
    requires within { to ≤ 64 }
    ensures { result ≡ size (bit_set 64 mask.new) }
{
    let others = Bits::count_ones(mask) - mask.count_ones_in_range(from, to);
    mask.set_range(from, to);
    others + (to - from)
}

/// Returns whether each bit of a range is set.
#[tactic(auto, using(bittle_ext::proofs::RangeAnswers::exactly_if_all))]
pub fn are_all_set(board: &[u64; 4], from: u32, to: u32) -> bool
    requires { to ≤ 256 }
    ensures { IsTrue result ↔ HasAllIn (row_set 4 64 (bit_set 64) board.now) from to }
{
    board.all_in_range(from, to)
}

/// Returns whether some bit of a range is set.
#[tactic(auto, using(bittle_ext::proofs::RangeAnswers::exactly_if_any))]
pub fn is_any_set(mask: u64, from: u32, to: u32) -> bool
    ensures { IsTrue result ↔ HasSomeIn (bit_set 64 mask) from to }
{
    mask.any_in_range(from, to)
}
