//! Changes of single words.

ghost use Rattle.std.specs.Int.{w64, cast_unsigned};
ghost use Rattle.std.specs.Prelude.{◌≡◌, ◌≢◌, ◌<◌, ◌≤◌, ◌==◌, ◌%◌, ℕ, true, MatchOption, Option};
ghost use Rattle.bittle.specs.BitPatterns.{bit_set};
ghost use Rattle.bittle.specs.Orders.{read_in};
ghost use Rattle.bittle.specs.PlainSet.{contains, size, with_index, without_index};
ghost use Rattle.bittle.specs.PlainSet.{with_span, with_span_toggled, without_span};
ghost use Rattle.bittle.specs.Rows.{row_set};
ghost use Rattle.bittle.specs.Searches.{IsFirstIn, IsLastIn};
ghost use Rattle.bittle_ext.specs.Changes.{with_index_assigned, with_index_toggled, those_passing};

use bittle::{Bits, BitsMut, LittleEndian};
use bittle_ext::{BitsMutExt, BitsMutViewExt, BitsSpanMutExt};

/// Clears a bit, and returns whether it was set.
pub fn take_away(mask: &mut i64, index: u32) -> bool
    ensures was_set { result ≡ contains (bit_set 64 (cast_unsigned w64 mask.old)) index }
    ensures set { bit_set 64 (cast_unsigned w64 mask.new)
        ≡ without_index (bit_set 64 (cast_unsigned w64 mask.old)) index }
{
    mask.remove(index)
}

/// Gives bit `index` the value `value`, and returns whether the bit was set. The index follows the
/// little-endian order.
pub fn put(mask: &mut u8, index: u32, value: bool) -> bool
    ensures was { result ≡ contains (read_in true 8 (bit_set 8 mask.old)) index }
    ensures set { read_in true 8 (bit_set 8 mask.new)
        ≡ with_index_assigned (read_in true 8 (bit_set 8 mask.old)) index value }
{
    mask.in_order_mut::<LittleEndian>().replace(index, value)
}

/// Clears one bit and sets another one. Each other bit is as before.
#[tactic(auto, using(bittle_ext::proofs::CallerMembers::contains_other_after_clear, bittle_ext::proofs::CallerMembers::contains_other_after_set))]
pub fn move_mark(row: &mut [u64; 4], from: u32, to: u32)
    requires from { from < 256 }
    requires to { to < 256 }
    ensures { (k : ℕ) → k < 256 → k ≢ from → k ≢ to
        → contains (row_set 4 64 (bit_set 64) row.new) k
        ≡ contains (row_set 4 64 (bit_set 64) row.old) k }
{
    row.clear_bit(from);
    row.set_bit(to);
}

/// Clears the bits of a row below an index. Each other bit is as before.
#[tactic(auto, using(bittle_ext::proofs::CallerSpans::contains_outside_clear_span))]
pub fn clear_first(row: &mut [u64; 4], end: u32)
    requires { end ≤ 256 }
    ensures { (k : ℕ) → end ≤ k → k < 256
        → contains (row_set 4 64 (bit_set 64) row.new) k
        ≡ contains (row_set 4 64 (bit_set 64) row.old) k }
{
    row.clear_span(..end);
}

/// Sets a bit by `assign`.
pub fn set_by_value(mask: &mut u16, index: u32)
    ensures { bit_set 16 mask.new ≡ with_index (bit_set 16 mask.old) index }
{
    mask.assign(index, true);
}

/// Flips a bit twice.
pub fn flip_twice(mask: &mut u8, index: u32)
    ensures { bit_set 8 mask.new
        ≡ with_index_toggled (with_index_toggled (bit_set 8 mask.old) index) index }
{
    mask.toggle(index);
    mask.toggle(index);
}

/// Sets a range, clears a range inside it, and flips each bit of the word.
pub fn ranges(mask: &mut u64)
    ensures { bit_set 64 mask.new
        ≡ with_span_toggled (without_span (with_span (bit_set 64 mask.old) 3 40) 10 20) 0 64 }
{
    mask.set_range(3, 40);
    mask.assign_range(10, 20, false);
    mask.toggle_range(0, 64);
}

/// Clears each bit whose index is odd.
pub fn keep_even(mask: &mut u64)
    ensures { bit_set 64 mask.new ≡ those_passing (λ i. i % 2 == 0) (bit_set 64 mask.old) }
{
    mask.retain(|index| index % 2 == 0);
}

/// Clears the set bit with the greatest index in little-endian order, and returns that index, or
/// `None` if no bit is set.
pub fn take_greatest_le(mask: &mut u8) -> Option<u32>
    ensures greatest { IsLastIn (read_in true 8 (bit_set 8 mask.old)) 0 8 result }
{
    mask.in_order_mut::<LittleEndian>().pop_last()
}

/// Returns the word without its least and its greatest set bit. Neither `pop_first` nor `pop_last`
/// has a condition.
pub fn without_ends(mask: u64) -> u64
    ensures { (first : Option ℕ) × (last : Option ℕ) × (middle : ℕ)
        × IsFirstIn (bit_set 64 mask) 0 64 first
        × MatchOption first (middle ≡ mask)
        (λ index. bit_set 64 middle ≡ without_index (bit_set 64 mask) index)
        × IsLastIn (bit_set 64 middle) 0 64 last
        × MatchOption last (result ≡ middle)
        (λ index. bit_set 64 result ≡ without_index (bit_set 64 middle) index) }
{
    let mut rest = mask;
    rest.pop_first();
    rest.pop_last();
    rest
}

/// Sets a bit, and returns how many bits are set after that. It counts bits only before the change.
pub fn insert_and_count(mask: &mut u64, index: u32) -> u32
    ensures { result ≡ size (bit_set 64 mask.new) }
{
    let before = Bits::count_ones(mask);
    if mask.insert(index) {
        before + 1
    } else {
        before
    }
}
