//! The words of 16 bits: `u16` and `i16`.

ghost use Rattle.std.specs.Prelude.{true, refl};
ghost use Rattle.std.specs.Int.{w16, cast_unsigned};
ghost use Rattle.std.proofs.Common.{lit<};
ghost use Rattle.bittle_bits.specs.BitPatterns.{bit_set};
ghost use Rattle.bittle_bits.specs.LawProofs.{unsigned_word, signed_word};

use crate::integer::Integer;
use crate::internal::sealed::Sealed;
use crate::shape::Shape;
use crate::word::Word;

impl Shape for u16 {
    type LeafWord = u16;

    ghost width = { 16 };

    ghost indexable = { true };

    ghost big = { λ x. bit_set 16 x };

    ghost type_capacity = { 16 };

    const SEAL: Sealed = Sealed {};
}

impl Integer for u16 {
    ghost is_word = { unsigned_word 16 (lit< tt) };
}

impl Word for u16 {
    ghost width = { 16 };

    ghost pattern = { λ x. x };

    ghost whole_bytes = { (1, refl) };

    #[inline]
    fn width() -> u32 {
        u16::BITS
    }

    #[inline]
    fn one_at(place: u32) -> u16 {
        1 << place
    }

    #[inline]
    fn to_bits(self) -> u128 {
        self as u128
    }

    #[inline]
    fn from_bits(value: u128) -> u16 {
        value as u16
    }

    #[inline]
    fn trailing_zeros(self) -> u32 {
        self.trailing_zeros()
    }

    #[inline]
    fn leading_zeros(self) -> u32 {
        self.leading_zeros()
    }
}

impl Shape for i16 {
    type LeafWord = i16;

    ghost width = { 16 };

    ghost indexable = { true };

    ghost big = { λ x. bit_set 16 (cast_unsigned w16 x) };

    ghost type_capacity = { 16 };

    const SEAL: Sealed = Sealed {};
}

impl Integer for i16 {
    ghost is_word = { signed_word 16 (cast_unsigned w16) (lit< tt) };
}

impl Word for i16 {
    ghost width = { 16 };

    ghost pattern = { cast_unsigned w16 };

    ghost whole_bytes = { (1, refl) };

    #[inline]
    fn width() -> u32 {
        i16::BITS
    }

    #[inline]
    fn one_at(place: u32) -> i16 {
        1 << place
    }

    #[inline]
    fn to_bits(self) -> u128 {
        self.cast_unsigned() as u128
    }

    #[inline]
    fn from_bits(value: u128) -> i16 {
        (value as u16).cast_signed()
    }

    #[inline]
    fn trailing_zeros(self) -> u32 {
        self.trailing_zeros()
    }

    #[inline]
    fn leading_zeros(self) -> u32 {
        self.leading_zeros()
    }
}
