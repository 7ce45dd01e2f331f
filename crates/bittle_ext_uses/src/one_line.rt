//! Clauses whose proof needs one line: a lemma that the prover does not find by itself.

ghost use Rattle.std.specs.List.{All, list_any};
ghost use Rattle.std.specs.Prelude.{◌≡◌, ◌≢◌, ◌==◌, ◌+◌, ◌-◌, ◌<◌, ◌≤◌, ◌||◌, ℕ, true, false};
ghost use Rattle.std.specs.Prelude.{length, IfSome};
ghost use Rattle.bittle.specs.BitPatterns.{bit_set};
ghost use Rattle.bittle.specs.PlainSet.{complement, contains, size};
ghost use Rattle.bittle.specs.Rows.{row_set};
ghost use Rattle.bittle.specs.SetOperations.{difference_of, union_of};
ghost use Rattle.bittle_ext.specs.Combined.{either_of};
ghost use Rattle.bittle_ext.specs.Runs.{IsFirstRun};

use bittle::{BitsMut, BitsOwned};
use bittle_ext::prelude::*;

/// Clears a bit, and returns whether it was set. Each other bit is as before.
pub fn unmark(row: &mut [u64; 4], index: u32) -> bool
    requires { index < 256 }
    ensures { (k : ℕ) → k < 256 → k ≢ index
        → contains (row_set 4 64 (bit_set 64) row.new) k
        ≡ contains (row_set 4 64 (bit_set 64) row.old) k }
{
    row.remove(index)
}

/// Sets a bit that is unset, so that one more bit is set.
pub fn mark_new(row: &mut [u64; 4], index: u32)
    requires below { index < 256 }
    requires unset { contains (row_set 4 64 (bit_set 64) row.old) index ≡ false }
    ensures { size (row_set 4 64 (bit_set 64) row.new)
        ≡ size (row_set 4 64 (bit_set 64) row.old) + 1 }
{
    row.set_bit(index);
}

/// Sets the bits of a list. The number of set bits grows at most by the length of the list.
pub fn mark_all(row: &mut [u64; 4], indexes: &[u32])
    ensures { size (row_set 4 64 (bit_set 64) row.new)
        ≤ size (row_set 4 64 (bit_set 64) row.old) + length indexes.now }
{
    row.insert_all(indexes);
}

/// Returns the first hour that is not taken. Each hour before it is taken.
pub fn free_hour(taken: u32) -> Option<u32>
    ensures unset { IfSome result (λ hour. contains (bit_set 32 taken) hour ≡ false) }
    ensures before { IfSome result
        (λ hour. (k : ℕ) → k < hour → contains (bit_set 32 taken) k ≡ true) }
{
    let hour = taken.first_zero()?;
    Some(hour)
}

/// Returns the set of the letters of a word of text. Each letter is a number below 26.
pub fn letters(word: &[u32]) -> u32
    requires { All (λ letter. letter < 26) word.now }
    ensures { (k : ℕ) → (bit_set 32 result).has k ≡ list_any (λ letter. letter == k) word.now }
{
    u32::from_indexes(word)
}

/// Moves each bit up by `by` places.
pub fn move_up(row: &mut [u64; 4], by: u32)
    ensures { (k : ℕ) → by ≤ k → k < 256
        → contains (row_set 4 64 (bit_set 64) row.new) k
        ≡ contains (row_set 4 64 (bit_set 64) row.old) (k - by) }
{
    row.shift_up(by);
}

/// Sets in `row` each bit that is set in `other`. Each bit of `row` that was set stays set.
pub fn add(row: &mut [u64; 4], other: &[u64; 4])
    ensures { (k : ℕ) → contains (row_set 4 64 (bit_set 64) row.old) k ≡ true
        → contains (row_set 4 64 (bit_set 64) row.new) k ≡ true }
{
    row.union_assign(other);
}

/// Returns the seats that are free in at least one of two halls and not reserved. No reserved seat
/// is returned, and every other free seat is.
pub fn offered(one: u64, other: u64, reserved: u64) -> u64
    ensures set { bit_set 64 result ≡ difference_of (union_of (bit_set 64 one) (bit_set 64 other))
        (bit_set 64 reserved) }
    ensures reserved { (k : ℕ) → k < 64 → contains (bit_set 64 reserved) k ≡ true
        → contains (bit_set 64 result) k ≡ false }
    ensures free { (k : ℕ) → k < 64 → contains (bit_set 64 reserved) k ≡ false
        → (contains (bit_set 64 one) k || contains (bit_set 64 other) k) ≡ true
        → contains (bit_set 64 result) k ≡ true }
{
    one.union(other).difference(reserved)
}

/// Returns how many seats are taken before the first free one, or 64 if none is free.
pub fn taken_from_first(taken: u64) -> u32
    ensures taken { (k : ℕ) → k < result → contains (bit_set 64 taken) k ≡ true }
    ensures free { result < 64 → contains (bit_set 64 taken) result ≡ false }
{
    match taken.first_zero() {
        Some(seat) => seat,
        None => 64,
    }
}

/// Sets in `row` each bit that is set in `other`. A bit is set then exactly if it is set in one of
/// the two.
pub fn gather(row: &mut u64, other: u64)
    ensures { (k : ℕ) → k < 64 → contains (bit_set 64 row.new) k
        ≡ (contains (bit_set 64 row.old) k || contains (bit_set 64 other) k) }
{
    row.union_with(&other);
}

/// Copies the bits 8 to 12 to the bits 20 to 24.
pub fn copy_up(row: &mut [u64; 4])
    ensures { (i : ℕ) → i < 5 → contains (row_set 4 64 (bit_set 64) row.new) (20 + i)
        ≡ (row_set 4 64 (bit_set 64) row.old).has (8 + i) }
{
    row.copy_within(8, 13, 20);
}

/// Returns where a block of `length` free pages begins. No page of the block is taken.
pub fn free_block(taken: &[u64; 4], length: u32) -> Option<u32>
    ensures { IfSome result (λ first. (k : ℕ) → first ≤ k → k < first + length
        → contains (row_set 4 64 (bit_set 64) taken.now) k ≡ false) }
{
    let first = taken.first_zero_run(length)?;
    Some(first)
}

/// Returns where the first run of `length` numbers begins that are free in both maps.
pub fn free_in_both_maps(one: &[u64; 4], other: &[u64; 4], length: u32) -> Option<u32>
    ensures { IsFirstRun (complement (either_of (row_set 4 64 (bit_set 64) one.now)
        (row_set 4 64 (bit_set 64) other.now))) 0 length result }
{
    one.or(other).first_zero_run(length)
}

/// Returns the permissions of three roles together.
pub fn of_three_roles(one: u32, other: u32, third: u32) -> u32
    ensures { bit_set 32 result
        ≡ union_of (union_of (bit_set 32 one) (bit_set 32 other)) (bit_set 32 third) }
{
    one.union(other).union(third)
}
