//! The words of 128 bits: `u128` and `i128`.

ghost use Rattle.std.specs.Prelude.{true, refl};
ghost use Rattle.std.specs.Int.{w128, cast_unsigned};
ghost use Rattle.std.proofs.Common.{lit<};
ghost use Rattle.bittle_bits.specs.BitPatterns.{bit_set};
ghost use Rattle.bittle_bits.specs.LawProofs.{unsigned_word, signed_word};

use crate::integer::Integer;
use crate::internal::sealed::Sealed;
use crate::shape::Shape;
use crate::word::Word;

impl Shape for u128 {
    type LeafWord = u128;

    ghost width = { 128 };

    ghost indexable = { true };

    ghost big = { λ x. bit_set 128 x };

    ghost type_capacity = { 128 };

    const SEAL: Sealed = Sealed {};
}

impl Integer for u128 {
    ghost is_word = { unsigned_word 128 (lit< tt) };
}

impl Word for u128 {
    ghost width = { 128 };

    ghost pattern = { λ x. x };

    ghost whole_bytes = { (4, refl) };

    #[inline]
    fn width() -> u32 {
        u128::BITS
    }

    #[inline]
    fn one_at(place: u32) -> u128 {
        1 << place
    }

    #[inline]
    fn to_bits(self) -> u128 {
        self
    }

    #[inline]
    fn from_bits(value: u128) -> u128 {
        value
    }

    #[inline]
    fn trailing_zeros(self) -> u32 {
        self.trailing_zeros()
    }

    #[inline]
    fn leading_zeros(self) -> u32 {
        self.leading_zeros()
    }
}

impl Shape for i128 {
    type LeafWord = i128;

    ghost width = { 128 };

    ghost indexable = { true };

    ghost big = { λ x. bit_set 128 (cast_unsigned w128 x) };

    ghost type_capacity = { 128 };

    const SEAL: Sealed = Sealed {};
}

impl Integer for i128 {
    ghost is_word = { signed_word 128 (cast_unsigned w128) (lit< tt) };
}

impl Word for i128 {
    ghost width = { 128 };

    ghost pattern = { cast_unsigned w128 };

    ghost whole_bytes = { (4, refl) };

    #[inline]
    fn width() -> u32 {
        i128::BITS
    }

    #[inline]
    fn one_at(place: u32) -> i128 {
        1 << place
    }

    #[inline]
    fn to_bits(self) -> u128 {
        self.cast_unsigned()
    }

    #[inline]
    fn from_bits(value: u128) -> i128 {
        value.cast_signed()
    }

    #[inline]
    fn trailing_zeros(self) -> u32 {
        self.trailing_zeros()
    }

    #[inline]
    fn leading_zeros(self) -> u32 {
        self.leading_zeros()
    }
}
