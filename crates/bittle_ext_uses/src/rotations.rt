//! Sets whose bits are rotated and shifted.

ghost use Rattle.std.specs.Prelude.{◌≡◌, ◌+◌, ◌<◌, ℕ, false, IsTrue};
ghost use Rattle.bittle.specs.BitPatterns.{bit_set};
ghost use Rattle.bittle.specs.PlainSet.{contains};
ghost use Rattle.bittle.specs.Rows.{row_set};
ghost use Rattle.bittle.specs.Values.{set_in, ShapeFits};
ghost use Rattle.bittle_ext.specs.Rotations.{rotated_up, shifted_down, shifted_up};

use bittle::{Bits, Endian, Set};
use bittle_ext::{BitsOwnedExt, BitsShiftExt};

/// Returns a chess board with each piece one rank up. Pieces of the last rank leave the board.
pub fn one_rank_up(board: u64) -> u64
    ensures first_rank { (i : ℕ) → i < 8 → contains (bit_set 64 result) i ≡ false }
    ensures others { (i : ℕ) → i + 8 < 64 →
        contains (bit_set 64 result) (i + 8) ≡ contains (bit_set 64 board) i }
{
    board.shifted_up(8)
}

/// Returns a chess board with each piece one rank down. The clause is that of `shifted_down`.
pub fn one_rank_down(board: u64) -> u64
    ensures { bit_set 64 result ≡ shifted_down (bit_set 64 board) 8 }
{
    board.shifted_down(8)
}

/// Returns a ring of slots that is rotated down, so that slot `first` becomes slot 0.
pub fn counted_from(ring: u16, first: u32) -> u16
    ensures { (i : ℕ) → contains (bit_set 16 result) i ≡ contains (bit_set 16 ring) (i + first) }
{
    ring.rotated_down(first)
}

/// Rotates a set up, and then down by the same number of places. The result has the same bits set.
pub fn there_and_back<B: BitsOwnedExt>(ring: B, by: u32) -> B
    requires { IsTrue B.indexable }
    ensures { (i : ℕ) → contains (set_in B.Shape B.Order.Endian result) i
        ≡ contains (set_in B.Shape B.Order.Endian ring) i }
{
    ring.rotated_up(by).rotated_down(by)
}

/// Returns a day's schedule by the hour, as it reads in a zone `east` hours further east.
pub fn in_zone(hours: [u8; 3], east: u32) -> [u8; 3]
    ensures { (i : ℕ) → contains (row_set 3 8 (bit_set 8) result) (i + east)
        ≡ contains (row_set 3 8 (bit_set 8) hours) i }
{
    hours.rotated_up(east)
}

/// Rotates a set down by `by` places, and returns whether bit `index` is set after that.
pub fn is_set_after(ring: u8, by: u32, index: u32) -> bool
    ensures { result ≡ contains (bit_set 8 ring) (index + by) }
{
    ring.rotated_down(by).test_bit(index)
}

/// Returns a set of any shape that is rotated up by `by` places. The places follow the order `E`.
pub fn turn<B: BitsOwnedExt, E: Endian>(set: B, by: u32) -> B
    requires { IsTrue B.indexable }
    ensures set { set_in B.Shape E.Endian result ≡ rotated_up (set_in B.Shape E.Endian set) by }
    ensures moved { (i : ℕ) → contains (set_in B.Shape E.Endian result) (i + by)
        ≡ contains (set_in B.Shape E.Endian set) i }
{
    Set::<B, E>::new_in(set).rotated_up(by).into_bits()
}

/// Rotates a set of any shape up by `by` places, and changes the set itself. The set may be a slice
/// that a caller lends.
pub fn turn_in_place<B: BitsShiftExt>(ring: &mut B, by: u32)
    requires { ShapeFits B.Shape ring.old }
    ensures { (i : ℕ) → contains (set_in B.Shape B.Order.Endian ring.new) (i + by)
        ≡ contains (set_in B.Shape B.Order.Endian ring.old) i }
{
    ring.rotate_up(by);
}

/// Rotates a ring of slots in place, so that slot `first` becomes slot 0.
pub fn count_from(slots: &mut [u32; 4], first: u32)
    ensures { (i : ℕ) → contains (row_set 4 32 (bit_set 32) slots.new) i
        ≡ contains (row_set 4 32 (bit_set 32) slots.old) (i + first) }
{
    slots.rotate_down(first);
}

/// Returns a timetable of any length with its tasks delayed. Tasks that pass its end are dropped.
pub fn delayed<B: BitsOwnedExt>(tasks: B, hours: u32) -> B
    requires { IsTrue B.indexable }
    ensures { set_in B.Shape B.Order.Endian result
        ≡ shifted_up (set_in B.Shape B.Order.Endian tasks) hours }
{
    tasks.shifted_up(hours)
}
