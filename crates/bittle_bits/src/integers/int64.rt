//! The words of 64 bits: `u64` and `i64`.

ghost use Rattle.std.specs.Prelude.{true, refl};
ghost use Rattle.std.specs.Int.{w64, cast_unsigned};
ghost use Rattle.std.proofs.Common.{lit<};
ghost use Rattle.bittle_bits.specs.BitPatterns.{bit_set};
ghost use Rattle.bittle_bits.specs.LawProofs.{unsigned_word, signed_word};

use crate::integer::Integer;
use crate::internal::sealed::Sealed;
use crate::shape::Shape;
use crate::word::Word;

impl Shape for u64 {
    type LeafWord = u64;

    ghost width = { 64 };

    ghost indexable = { true };

    ghost big = { λ x. bit_set 64 x };

    ghost type_capacity = { 64 };

    const SEAL: Sealed = Sealed {};
}

impl Integer for u64 {
    ghost is_word = { unsigned_word 64 (lit< tt) };
}

impl Word for u64 {
    ghost width = { 64 };

    ghost pattern = { λ x. x };

    ghost whole_bytes = { (3, refl) };

    #[inline]
    fn width() -> u32 {
        u64::BITS
    }

    #[inline]
    fn one_at(place: u32) -> u64 {
        1 << place
    }

    #[inline]
    fn to_bits(self) -> u128 {
        self as u128
    }

    #[inline]
    fn from_bits(value: u128) -> u64 {
        value as u64
    }

    #[inline]
    fn trailing_zeros(self) -> u32 {
        self.trailing_zeros()
    }

    #[inline]
    fn leading_zeros(self) -> u32 {
        self.leading_zeros()
    }
}

impl Shape for i64 {
    type LeafWord = i64;

    ghost width = { 64 };

    ghost indexable = { true };

    ghost big = { λ x. bit_set 64 (cast_unsigned w64 x) };

    ghost type_capacity = { 64 };

    const SEAL: Sealed = Sealed {};
}

impl Integer for i64 {
    ghost is_word = { signed_word 64 (cast_unsigned w64) (lit< tt) };
}

impl Word for i64 {
    ghost width = { 64 };

    ghost pattern = { cast_unsigned w64 };

    ghost whole_bytes = { (3, refl) };

    #[inline]
    fn width() -> u32 {
        i64::BITS
    }

    #[inline]
    fn one_at(place: u32) -> i64 {
        1 << place
    }

    #[inline]
    fn to_bits(self) -> u128 {
        self.cast_unsigned() as u128
    }

    #[inline]
    fn from_bits(value: u128) -> i64 {
        (value as u64).cast_signed()
    }

    #[inline]
    fn trailing_zeros(self) -> u32 {
        self.trailing_zeros()
    }

    #[inline]
    fn leading_zeros(self) -> u32 {
        self.leading_zeros()
    }
}
