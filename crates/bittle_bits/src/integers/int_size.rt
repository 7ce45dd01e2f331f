//! The words of the size of a pointer, which has 64 bits: `usize` and `isize`.

ghost use Rattle.std.specs.Prelude.{true, refl};
ghost use Rattle.std.specs.Int.{w64, cast_unsigned};
ghost use Rattle.std.proofs.Common.{lit<};
ghost use Rattle.bittle_bits.specs.BitPatterns.{bit_set};
ghost use Rattle.bittle_bits.specs.LawProofs.{unsigned_word, signed_word};

use crate::integer::Integer;
use crate::internal::sealed::Sealed;
use crate::shape::Shape;
use crate::word::Word;

impl Shape for usize {
    type LeafWord = usize;

    ghost width = { 64 };

    ghost indexable = { true };

    ghost big = { λ x. bit_set 64 x };

    ghost type_capacity = { 64 };

    const SEAL: Sealed = Sealed {};
}

impl Integer for usize {
    ghost is_word = { unsigned_word 64 (lit< tt) };
}

impl Word for usize {
    ghost width = { 64 };

    ghost pattern = { λ x. x };

    ghost whole_bytes = { (3, refl) };

    #[inline]
    fn width() -> u32 {
        usize::BITS
    }

    #[inline]
    fn one_at(place: u32) -> usize {
        1 << place
    }

    #[inline]
    fn to_bits(self) -> u128 {
        self as u128
    }

    #[inline]
    fn from_bits(value: u128) -> usize {
        value as usize
    }

    #[inline]
    fn trailing_zeros(self) -> u32 {
        self.trailing_zeros()
    }

    #[inline]
    fn leading_zeros(self) -> u32 {
        self.leading_zeros()
    }
}

impl Shape for isize {
    type LeafWord = isize;

    ghost width = { 64 };

    ghost indexable = { true };

    ghost big = { λ x. bit_set 64 (cast_unsigned w64 x) };

    ghost type_capacity = { 64 };

    const SEAL: Sealed = Sealed {};
}

impl Integer for isize {
    ghost is_word = { signed_word 64 (cast_unsigned w64) (lit< tt) };
}

impl Word for isize {
    ghost width = { 64 };

    ghost pattern = { cast_unsigned w64 };

    ghost whole_bytes = { (3, refl) };

    #[inline]
    fn width() -> u32 {
        isize::BITS
    }

    #[inline]
    fn one_at(place: u32) -> isize {
        1 << place
    }

    #[inline]
    fn to_bits(self) -> u128 {
        self.cast_unsigned() as u128
    }

    #[inline]
    fn from_bits(value: u128) -> isize {
        (value as usize).cast_signed()
    }

    #[inline]
    fn trailing_zeros(self) -> u32 {
        self.trailing_zeros()
    }

    #[inline]
    fn leading_zeros(self) -> u32 {
        self.leading_zeros()
    }
}
