//! Calls on two sets in a chain: the answer of one call is passed to the next, or indexes a table.
//!
//! The check proves that the second call is allowed, or that the index lies in the table, from the
//! contract of the first call alone.

ghost use Rattle.std.specs.Prelude.{◌≡◌, ◌+◌, ◌≤◌, ℕ, true, IfSome, MatchOption, Option};
ghost use Rattle.std.specs.Prelude.{option_map, slice_index, unwrap_or, IsSome, ◌↔◌};
ghost use Rattle.bittle.specs.BitPatterns.{bit_set};
ghost use Rattle.bittle.specs.Orders.{read_in};
ghost use Rattle.bittle.specs.PlainSet.{size, without_span};
ghost use Rattle.bittle.specs.Rows.{row_set};
ghost use Rattle.bittle.specs.Values.{set_in, ShapeFits};
ghost use Rattle.bittle_ext.specs.Combined.{both_of};
ghost use Rattle.bittle_ext.specs.SetRelations.{IsFirstAlone, IsFirstCommon, IsSubset};

use bittle::{Bits, BitsMut, LittleEndian, Set};
use bittle_ext::{BitsMutExt, BitsRelationExt, BitsViewExt};

/// Returns the entry of a table at the first bit that is set in both masks, or 0 if there is none.
pub fn entry_of_both(one: u64, other: &[u8; 8], table: &[u32; 64]) -> u32
    ensures { let ours = bit_set 64 one in
        let theirs = row_set 8 8 (bit_set 8) other.now in
        (found : Option ℕ) × IsFirstCommon ours theirs found
        × (result ≡ unwrap_or (option_map (λ i. slice_index table.now i) found) 0) }
{
    match one.first_common(other) {
        Some(index) => table[index as usize],
        None => 0,
    }
}

/// Returns the entry of a table at the first bit that is set in `one` and not in `other`, or 0 if
/// there is no such bit.
pub fn entry_of_one(one: u64, other: u16, table: &[u32; 64]) -> u32
    ensures { let ours = bit_set 64 one in
        let theirs = bit_set 16 other in
        (found : Option ℕ) × IsFirstAlone ours theirs found
        × (result ≡ unwrap_or (option_map (λ i. slice_index table.now i) found) 0) }
{
    match one.first_alone(&other) {
        Some(index) => table[index as usize],
        None => 0,
    }
}

/// Returns the first bit that is set in two words and in a row. The row is read in little-endian
/// order.
pub fn first_of_three(one: u64, other: u64, third: &Set<[u8; 8], LittleEndian>) -> Option<u32>
    ensures { IsFirstCommon (both_of (bit_set 64 one) (bit_set 64 other))
        (read_in true 8 (row_set 8 8 (bit_set 8) third.now.bits)) result }
{
    one.and(&other).first_common(third)
}

/// Clears the bits of `set` before the first bit that is set in both sets. If there is no such bit,
/// it changes nothing.
pub fn clear_before_common<A: BitsMut, B: Bits>(set: &mut A, other: &B)
    requires fits { ShapeFits A.Shape set.old }
    requires other_fits { ShapeFits B.Shape other.now }
    ensures { let before = set_in A.Shape A.Order.Endian set.old in
        let theirs = set_in B.Shape B.Order.Endian other.now in
        (first : Option ℕ) × IsFirstCommon before theirs first
        × MatchOption first (set.new ≡ set.old)
        (λ index. set_in A.Shape A.Order.Endian set.new ≡ without_span before 0 index) }
{
    if let Some(index) = set.first_common(other) {
        set.clear_range(0, index);
    }
}

/// Counts the set bits of `set` before the first one that is not set in `other`. If there is no
/// such bit, it counts all of them.
pub fn count_before_alone<A: Bits, B: Bits>(set: &A, other: &B) -> u32
    requires fits { ShapeFits A.Shape set.now }
    requires other_fits { ShapeFits B.Shape other.now }
    ensures { result ≤ (A.big set.now).capacity }
{
    match set.first_alone(other) {
        Some(index) => set.within(0, index).count_ones(),
        None => set.count_ones(),
    }
}

/// Returns three counts as bytes: the bits set in both masks, those set in the first alone, and
/// those in which the masks differ.
pub fn counts(one: u64, other: u64) -> (u8, u8, u8)
    ensures common { result.0 ≤ 64 }
    ensures alone { result.1 ≤ 64 }
    ensures different { result.2 ≤ 64 }
{
    (
        one.count_common(&other) as u8,
        one.count_alone(&other) as u8,
        one.count_different(&other) as u8,
    )
}

/// Returns how many of the six numbers of a ticket were drawn.
pub fn right_numbers(ticket: u64, drawn: u64) -> u32
    requires { size (bit_set 64 ticket) ≡ 6 }
    ensures { result ≤ 6 }
{
    ticket.count_common(&drawn)
}

/// Counts all bits of a row, set or unset, except those that are set in both the row and `other`.
pub fn others(row: &[u32; 2], other: &u8) -> u32
    ensures { result ≤ 64 }
{
    64 - row.count_common(other)
}

/// Returns how many bits are set in `whole` and not in `part`, or `None` if `part` has a bit that
/// is unset in `whole`.
pub fn count_missing(part: u64, whole: &[u64; 4]) -> Option<u32>
    ensures subset { IsSome result
        ↔ IsSubset (bit_set 64 part) (row_set 4 64 (bit_set 64) whole.now) }
    ensures missing { IfSome result (λ missing. missing + size (bit_set 64 part)
        ≡ size (row_set 4 64 (bit_set 64) whole.now)) }
{
    if !part.is_subset(whole) {
        return None;
    }
    Some(whole.count_ones() - Bits::count_ones(&part))
}
