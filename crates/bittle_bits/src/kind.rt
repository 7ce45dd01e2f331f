//! The two kinds of bits of a set: the set bits (`Ones`) and the unset bits (`Zeros`). Each
//! iterator and each search looks for bits of one kind.

ghost use Rattle.std.specs.Prelude.{◌≡◌, Bool, true, false};
ghost use Rattle.bittle_bits.specs.BitPatterns.{bit_set};
ghost use Rattle.bittle_bits.specs.Walk.{ones_or_zeros};

use crate::internal::sealed::Sealed;
use crate::word::Word;

/// A kind of bits of a set: [`Ones`] or [`Zeros`].
pub trait Kind: Drop {
    ghost ONES: { Bool };

    const ONES: bool;

    /// Seals the trait. A crate that depends only on `bittle` cannot name the constant's type, so
    /// it cannot implement the trait.
    #[doc(hidden)]
    const SEAL: Sealed;
}

/// The kind of the set bits.
#[derive(Drop)]
pub enum Ones {}

/// The kind of the unset bits below the capacity.
#[derive(Drop)]
pub enum Zeros {}

impl Kind for Ones {
    ghost ONES = { true };

    const ONES: bool = true;

    const SEAL: Sealed = Sealed {};
}

impl Kind for Zeros {
    ghost ONES = { false };

    const ONES: bool = false;

    const SEAL: Sealed = Sealed {};
}

/// Returns a word whose set bits are the bits of the kind `K` in `word`. For `Ones` it is `word`
/// itself, for `Zeros` it is `word` with each bit flipped.
#[doc(hidden)]
#[inline]
pub fn bits_of_kind<T: Word, K: Kind>(word: T) -> T
    ensures { bit_set T.width (T.pattern result)
        ≡ ones_or_zeros K.ONES (bit_set T.width (T.pattern word)) }
{
    if K::ONES { word } else { word.not() }
}
