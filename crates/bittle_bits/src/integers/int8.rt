//! The words of 8 bits: `u8` and `i8`.

ghost use Rattle.std.specs.Prelude.{true, refl};
ghost use Rattle.std.specs.Int.{w8, cast_unsigned};
ghost use Rattle.std.proofs.Common.{lit<};
ghost use Rattle.bittle_bits.specs.BitPatterns.{bit_set};
ghost use Rattle.bittle_bits.specs.LawProofs.{unsigned_word, signed_word};

use crate::integer::Integer;
use crate::internal::sealed::Sealed;
use crate::shape::Shape;
use crate::word::Word;

impl Shape for u8 {
    type LeafWord = u8;

    ghost width = { 8 };

    ghost indexable = { true };

    ghost big = { λ x. bit_set 8 x };

    ghost type_capacity = { 8 };

    const SEAL: Sealed = Sealed {};
}

impl Integer for u8 {
    ghost is_word = { unsigned_word 8 (lit< tt) };
}

impl Word for u8 {
    ghost width = { 8 };

    ghost pattern = { λ x. x };

    ghost whole_bytes = { (0, refl) };

    #[inline]
    fn width() -> u32 {
        u8::BITS
    }

    #[inline]
    fn one_at(place: u32) -> u8 {
        1 << place
    }

    #[inline]
    fn to_bits(self) -> u128 {
        self as u128
    }

    #[inline]
    fn from_bits(value: u128) -> u8 {
        value as u8
    }

    #[inline]
    fn trailing_zeros(self) -> u32 {
        self.trailing_zeros()
    }

    #[inline]
    fn leading_zeros(self) -> u32 {
        self.leading_zeros()
    }
}

impl Shape for i8 {
    type LeafWord = i8;

    ghost width = { 8 };

    ghost indexable = { true };

    ghost big = { λ x. bit_set 8 (cast_unsigned w8 x) };

    ghost type_capacity = { 8 };

    const SEAL: Sealed = Sealed {};
}

impl Integer for i8 {
    ghost is_word = { signed_word 8 (cast_unsigned w8) (lit< tt) };
}

impl Word for i8 {
    ghost width = { 8 };

    ghost pattern = { cast_unsigned w8 };

    ghost whole_bytes = { (0, refl) };

    #[inline]
    fn width() -> u32 {
        i8::BITS
    }

    #[inline]
    fn one_at(place: u32) -> i8 {
        1 << place
    }

    #[inline]
    fn to_bits(self) -> u128 {
        self.cast_unsigned() as u128
    }

    #[inline]
    fn from_bits(value: u128) -> i8 {
        (value as u8).cast_signed()
    }

    #[inline]
    fn trailing_zeros(self) -> u32 {
        self.trailing_zeros()
    }

    #[inline]
    fn leading_zeros(self) -> u32 {
        self.leading_zeros()
    }
}
