//! An iterator over a slice of any length. The function tests whether the slice fits.

ghost use Rattle.std.specs.Prelude.{◌≡◌, ◌*◌, ◌<◌, ◌≤◌, length, reverse, slice_get, None};
ghost use Rattle.bittle.specs.Rows.{row_set};
ghost use Rattle.bittle.specs.BitPatterns.{bit_set};
ghost use Rattle.bittle.specs.PlainSet.{ascending};

use bittle::Bits;

/// Returns the greatest set bit of a slice of words. Returns `None` if no bit is set, or the slice
/// is too long.
pub fn greatest_of_slice(words: &[u64]) -> Option<u32>
    ensures fits { length words.now * 64 < 4294967295 → result ≡ slice_get (reverse (ascending
        (row_set (length words.now) 64 (bit_set 64) words.now))) 0 }
    ensures too_long { 4294967295 ≤ length words.now * 64 → result ≡ None }
{
    if words.bits_capacity() == u32::MAX {
        return None;
    }
    words.iter_ones().next_back()
}
