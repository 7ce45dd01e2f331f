//! The words of 32 bits: `u32` and `i32`.

ghost use Rattle.std.specs.Prelude.{true, refl};
ghost use Rattle.std.specs.Int.{w32, cast_unsigned};
ghost use Rattle.std.proofs.Common.{lit<};
ghost use Rattle.bittle_bits.specs.BitPatterns.{bit_set};
ghost use Rattle.bittle_bits.specs.LawProofs.{unsigned_word, signed_word};

use crate::integer::Integer;
use crate::internal::sealed::Sealed;
use crate::shape::Shape;
use crate::word::Word;

impl Shape for u32 {
    type LeafWord = u32;

    ghost width = { 32 };

    ghost indexable = { true };

    ghost big = { λ x. bit_set 32 x };

    ghost type_capacity = { 32 };

    const SEAL: Sealed = Sealed {};
}

impl Integer for u32 {
    ghost is_word = { unsigned_word 32 (lit< tt) };
}

impl Word for u32 {
    ghost width = { 32 };

    ghost pattern = { λ x. x };

    ghost whole_bytes = { (2, refl) };

    #[inline]
    fn width() -> u32 {
        u32::BITS
    }

    #[inline]
    fn one_at(place: u32) -> u32 {
        1 << place
    }

    #[inline]
    fn to_bits(self) -> u128 {
        self as u128
    }

    #[inline]
    fn from_bits(value: u128) -> u32 {
        value as u32
    }

    #[inline]
    fn trailing_zeros(self) -> u32 {
        self.trailing_zeros()
    }

    #[inline]
    fn leading_zeros(self) -> u32 {
        self.leading_zeros()
    }
}

impl Shape for i32 {
    type LeafWord = i32;

    ghost width = { 32 };

    ghost indexable = { true };

    ghost big = { λ x. bit_set 32 (cast_unsigned w32 x) };

    ghost type_capacity = { 32 };

    const SEAL: Sealed = Sealed {};
}

impl Integer for i32 {
    ghost is_word = { signed_word 32 (cast_unsigned w32) (lit< tt) };
}

impl Word for i32 {
    ghost width = { 32 };

    ghost pattern = { cast_unsigned w32 };

    ghost whole_bytes = { (2, refl) };

    #[inline]
    fn width() -> u32 {
        i32::BITS
    }

    #[inline]
    fn one_at(place: u32) -> i32 {
        1 << place
    }

    #[inline]
    fn to_bits(self) -> u128 {
        self.cast_unsigned() as u128
    }

    #[inline]
    fn from_bits(value: u128) -> i32 {
        (value as u32).cast_signed()
    }

    #[inline]
    fn trailing_zeros(self) -> u32 {
        self.trailing_zeros()
    }

    #[inline]
    fn leading_zeros(self) -> u32 {
        self.leading_zeros()
    }
}
