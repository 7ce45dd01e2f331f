//! Contracts that say what a lent slice, or any set, holds after a change.
//!
//! `take_least` finds the least unset bit as the first item of an iterator. `take_first_zero` of
//! `bittle_ext` finds and sets that bit in one call.

ghost use Rattle.std.specs.Prelude.{◌≡◌, ◌*◌, ◌<◌, length, MatchOption, slice_get};
ghost use Rattle.bittle.specs.BitPatterns.{bit_set};
ghost use Rattle.bittle.specs.PlainSet.{ascending, complement, with_index, without_index};
ghost use Rattle.bittle.specs.Rows.{row_set};
ghost use Rattle.bittle.specs.Values.{set_in, ShapeFits};

use bittle::{Bits, BitsMut, Endian, Set};

/// Sets the bit at `index` of a slice that fits (its capacity is below `u32::MAX`).
pub fn set_in_slice(words: &mut [u64], index: u32)
    requires { length words.old * 64 < 4294967295 }
    ensures { row_set (length words.new) 64 (bit_set 64) words.new
        ≡ with_index (row_set (length words.old) 64 (bit_set 64) words.old) index }
{
    let mut set = Set::from_mut(words);
    set.set_bit(index);
}

/// Clears a bit of a slice of any length.
pub fn clear_in_slice(words: &mut [u64], index: u32)
    ensures { row_set (length words.new) 64 (bit_set 64) words.new
        ≡ without_index (row_set (length words.old) 64 (bit_set 64) words.old) index }
{
    let mut held = (words,);
    let lent = &mut held;
    lent.0.clear_bit(index);
}

/// Sets the least unset bit of a slice, and returns its index. If each bit is set, it changes
/// nothing and returns `None`.
pub fn take_least(words: &mut [u64]) -> Option<u32>
    requires { length words.old * 64 < 4294967295 }
    ensures least { result ≡ slice_get (ascending (complement
        (row_set (length words.old) 64 (bit_set 64) words.old))) 0 }
    ensures taken { MatchOption result
        (words.new ≡ words.old)
        (λ index. row_set (length words.new) 64 (bit_set 64) words.new
        ≡ with_index (row_set (length words.old) 64 (bit_set 64) words.old) index) }
{
    let mut held = (words,);
    let lent = &mut held;
    let least = lent.0.iter_zeros().next();
    if let Some(index) = least {
        lent.0.set_bit(index);
    }
    least
}

/// Sets the bit at `index` of any set, in the bit order `E`.
pub fn set_in_any<B: BitsMut, E: Endian>(bits: &mut B, index: u32)
    requires { ShapeFits B.Shape bits.old }
    ensures { set_in B.Shape E.Endian bits.new
        ≡ with_index (set_in B.Shape E.Endian bits.old) index }
{
    bits.set_bit_in::<E>(index);
}
