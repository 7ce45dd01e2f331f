//! Calls in a chain: the answer of one call is passed to the next, or indexes a table. No caller
//! has a proof file.
//!
//! The check proves that the second call is allowed, or that the index lies in the table, from the
//! contract of the first call alone. A function with a loop has no clause of its own, since the
//! proof of a clause would need an invariant.

ghost use Rattle.std.specs.Prelude.{◌≡◌, ◌+◌, ◌<◌, ◌≤◌, ℕ, IfSome, MatchOption, Option};
ghost use Rattle.std.specs.Prelude.{option_map, slice_get, slice_index, unwrap_or};
ghost use Rattle.bittle.specs.BitPatterns.{bit_set};
ghost use Rattle.bittle.specs.PlainSet.{ascending, complement, members_below};
ghost use Rattle.bittle.specs.PlainSet.{with_index, with_span, with_span_toggled};
ghost use Rattle.bittle.specs.PlainSet.{without_index, without_span};
ghost use Rattle.bittle.specs.Rows.{row_set};
ghost use Rattle.bittle.specs.Searches.{IsFirstIn, IsLastIn};
ghost use Rattle.bittle.specs.Values.{set_in, ShapeFits};
ghost use Rattle.bittle_ext.specs.Runs.{IsFirstRun};

use bittle::{Bits, BitsMut};
use bittle_ext::{BitsExt, BitsMutExt, BitsRangeExt};

/// Returns the entry of a table at the last set bit below index `to`, or 0 if there is none.
pub fn entry_before(mask: u64, to: u32, table: &[u32; 64]) -> u32
    ensures { (found : Option ℕ) × IsLastIn (bit_set 64 mask) 0 to found
        × (result ≡ unwrap_or (option_map (λ i. slice_index table.now i) found) 0) }
{
    match mask.prev_one(to) {
        Some(index) => table[index as usize],
        None => 0,
    }
}

/// Returns the entry of a table at the last unset bit below index `to`, or 0 if there is none.
pub fn entry_before_free(mask: u64, to: u32, table: &[u32; 64]) -> u32
    ensures { (found : Option ℕ) × IsLastIn (complement (bit_set 64 mask)) 0 to found
        × (result ≡ unwrap_or (option_map (λ i. slice_index table.now i) found) 0) }
{
    match mask.prev_zero(to) {
        Some(index) => table[index as usize],
        None => 0,
    }
}

/// Returns the entry of a table at the set bit with rank `rank`, or 0 if there is none. The first
/// set bit has rank 0.
pub fn entry_of_rank(mask: &[u32; 4], rank: u32, table: &[u8; 128]) -> u8
    ensures { let found = slice_get (ascending (row_set 4 32 (bit_set 32) mask.now)) rank in
        result ≡ unwrap_or (option_map (λ i. slice_index table.now i) found) 0 }
{
    match mask.select(rank) {
        Some(index) => table[index as usize],
        None => 0,
    }
}

/// Marks the four entries of a table at the first run of four unset bits, if there is one.
pub fn mark_free_run(mask: u64, table: &mut [bool; 64]) {
    if let Some(start) = mask.first_zero_run(4) {
        for index in start..start + 4 {
            table[index as usize] = true;
        }
    }
}

/// Marks the entries of a table at each run of set bits.
pub fn mark_runs(mask: u16, table: &mut [bool; 16]) {
    for run in mask.iter_one_runs() {
        for index in run.start..run.end {
            table[index as usize] = true;
        }
    }
}

/// Clears the bits before the third set bit of any set.
pub fn clear_before_third<B: BitsMut>(set: &mut B)
    requires { ShapeFits B.Shape set.old }
    ensures { let before = set_in B.Shape B.Order.Endian set.old in
        MatchOption (slice_get (ascending before) 2) (set.new ≡ set.old)
        (λ index. set_in B.Shape B.Order.Endian set.new ≡ without_span before 0 index) }
{
    if let Some(index) = set.select(2) {
        set.clear_range(0, index);
    }
}

/// Sets the bits from 0 up to and including the last set bit below an index.
pub fn set_through<B: BitsMut>(set: &mut B, to: u32)
    requires { ShapeFits B.Shape set.old }
    ensures { let before = set_in B.Shape B.Order.Endian set.old in
        (last : Option ℕ) × IsLastIn before 0 to last × MatchOption last (set.new ≡ set.old)
        (λ index. set_in B.Shape B.Order.Endian set.new ≡ with_span before 0 (index + 1)) }
{
    if let Some(index) = set.prev_one(to) {
        set.set_range(0, index + 1);
    }
}

/// Flips the bits before the last unset bit below an index.
pub fn toggle_before_free<B: BitsMut>(set: &mut B, to: u32)
    requires { ShapeFits B.Shape set.old }
    ensures { let before = set_in B.Shape B.Order.Endian set.old in
        (last : Option ℕ) × IsLastIn (complement before) 0 to last
        × MatchOption last (set.new ≡ set.old)
        (λ index. set_in B.Shape B.Order.Endian set.new ≡ with_span_toggled before 0 index) }
{
    if let Some(index) = set.prev_zero(to) {
        set.toggle_range(0, index);
    }
}

/// Sets the first run of `length` unset bits, if there is one.
pub fn take_run<B: BitsMut>(set: &mut B, length: u32)
    requires { ShapeFits B.Shape set.old }
    ensures { let before = set_in B.Shape B.Order.Endian set.old in
        (first : Option ℕ) × IsFirstRun (complement before) 0 length first
        × MatchOption first (set.new ≡ set.old)
        (λ from. set_in B.Shape B.Order.Endian set.new ≡ with_span before from (from + length)) }
{
    if let Some(start) = set.first_zero_run(length) {
        set.set_range(start, start + length);
    }
}

/// Finds the last set bit below index `to`, and adds up the indexes of all unset bits after it.
pub fn sum_of_gap(mask: u32, to: u32) -> u32 {
    let mut sum = 0u32;
    if let Some(last) = mask.prev_one(to) {
        for index in mask.iter_zeros_in_range(last, 32) {
            sum = sum.wrapping_add(index);
        }
    }
    sum
}

/// Clears the last set bit, and returns the entry of a table at its index, or 0 if no bit is set.
pub fn pop_entry(mask: &mut u16, table: &[u32; 16]) -> u32
    ensures { (last : Option ℕ) × IsLastIn (bit_set 16 mask.old) 0 16 last
        × (result ≡ unwrap_or (option_map (λ i. slice_index table.now i) last) 0)
        × MatchOption last (mask.new ≡ mask.old)
        (λ index. bit_set 16 mask.new ≡ without_index (bit_set 16 mask.old) index) }
{
    match mask.pop_last() {
        Some(index) => table[index as usize],
        None => 0,
    }
}

/// Takes the first free slot, and marks it in a table.
pub fn take_and_mark(slots: &mut [u8; 4], table: &mut [bool; 32])
    ensures { let before = row_set 4 8 (bit_set 8) slots.old in
        (found : Option ℕ) × IsFirstIn (complement before) 0 32 found
        × MatchOption found (slots.new ≡ slots.old)
        (λ i. row_set 4 8 (bit_set 8) slots.new ≡ with_index before i) }
{
    if let Some(slot) = slots.take_first_zero() {
        table[slot as usize] = true;
    }
}

/// Takes the first run of three free slots, and gives back all of its slots but the first.
pub fn take_run_of_three<B: BitsMut>(slots: &mut B)
    requires { ShapeFits B.Shape slots.old }
{
    if let Some(start) = slots.take_first_zero_run(3) {
        slots.clear_range(start + 1, start + 3);
    }
}

/// Counts the set bits below an index, and returns the entry of a table whose index is that count.
pub fn entry_of_count(mask: u64, index: u32, table: &[u32; 65]) -> u32
    ensures { result ≡ slice_index table.now (members_below (bit_set 64 mask) index) }
{
    table[mask.rank(index) as usize]
}

/// Finds the next set bit from index `from` on, and returns the next unset bit after it. The run of
/// set bits ends there. Returns `None` if there is no such set bit, or no such unset bit.
pub fn end_of_next_run<B: Bits>(set: &B, from: u32) -> Option<u32>
    requires { ShapeFits B.Shape set.now }
    ensures { IfSome result (λ end. (from < end) × (end < (B.big set.now).capacity)) }
{
    let start = set.next_one(from)?;
    set.next_zero(start + 1)
}

/// Counts the unset bits between the last two set bits of any set.
pub fn count_last_gap<B: Bits>(set: &B) -> u32
    requires { ShapeFits B.Shape set.now }
    ensures { result ≤ (B.big set.now).capacity }
{
    match set.last_one() {
        Some(last) => match set.prev_one(last) {
            Some(before) => set.count_zeros_in_range(before, last),
            None => 0,
        },
        None => 0,
    }
}
