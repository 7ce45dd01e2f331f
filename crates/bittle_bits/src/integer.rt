//! Words as sets: the impls of the traits of sets, written once for all widths.

ghost use Rattle.std.specs.Prelude.{refl};
ghost use Rattle.std.proofs.Common.{sym};
ghost use Rattle.bittle_bits.specs.LawProofs.{IsWord, none_past_word, one_word_whole};
ghost use Rattle.bittle_bits.specs.LawProofs.{positive_width, word_capacity};

use crate::bits::Bits;
use crate::bits_mut::BitsMut;
use crate::bits_owned::BitsOwned;
use crate::endian::{DefaultEndian, Endian};
use crate::fixed_capacity::FixedCapacity;
use crate::one_word::{
    all_ones, all_zeros, assign_range, clear_bit, clear_bits, combine, count_ones, leaf_word, ones,
    set_bit, set_leaf_word, test_bit, zeros,
};
use crate::operation::{Operation, RangeOperation};
use crate::read_words::ReadWords;
use crate::shape::Shape;
use crate::word::Word;

/// A type whose values are words, each of which stands for the set of its bits.
pub trait Integer: Word + Eq + Shape<LeafWord = Self> {
    // A value of the type is a word, and stands for the set of its bits.
    ghost is_word: { IsWord Self.eq Self.indexable Self.type_capacity
        ⟦<Self as Shape>⟧.width ⟦<Self as Word>⟧.width Self.big Self.pattern Self.loan };
}

impl<W: Integer> ReadWords for W {
    ghost leaf_width = { sym W.is_word.same_width };

    ghost width_positive = { positive_width _ _ W.is_word.same_width W.width_positive };

    ghost whole_words = { λ v. one_word_whole _ _ _ W.is_word.same_width
        (word_capacity _ _ _ _ (W.is_word.big_is_pattern v) refl) };

    ghost none_past = { λ v. none_past_word _ _ _ (W.is_word.big_is_pattern v) };

    const IS_FIXED: bool = true;

    #[inline]
    fn capacity(&self) -> u32 {
        W::width()
    }

    #[inline]
    fn nth_leaf_word(&self, k: usize) -> W {
        leaf_word::<W>(*self, k)
    }
}

impl<W: Integer> Bits for W {
    type Order = DefaultEndian;

    #[inline]
    fn count_ones(&self) -> u32 {
        count_ones::<W>(*self)
    }

    #[inline]
    fn all_zeros(&self) -> bool {
        all_zeros::<W>(*self)
    }

    #[inline]
    fn all_ones(&self) -> bool {
        all_ones::<W>(*self)
    }

    #[inline]
    fn test_bit_in<E: Endian>(&self, index: u32) -> bool {
        test_bit::<W, E>(*self, index)
    }
}

impl<W: Integer> BitsMut for W {
    #[inline]
    fn set_bit_in<E: Endian>(&mut self, index: u32) {
        set_bit::<W, E>(self, index);
    }

    #[inline]
    fn clear_bit_in<E: Endian>(&mut self, index: u32) {
        clear_bit::<W, E>(self, index);
    }

    #[inline]
    fn clear_bits(&mut self) {
        clear_bits::<W>(self);
    }

    #[inline]
    fn assign_range_by_operation<E: Endian, O: RangeOperation>(&mut self, from: u32, to: u32) {
        assign_range::<W, E, O>(self, from, to);
    }

    #[inline]
    fn assign_by_operation<O: Operation>(&mut self, other: &W) {
        combine::<W, O>(self, *other);
    }

    #[inline]
    fn set_nth_leaf_word(&mut self, k: usize, word: W) {
        set_leaf_word::<W>(self, k, word);
    }
}

impl<W: Integer> FixedCapacity for W {
    ghost one_capacity = { λ v. word_capacity _ _ _ _ (W.is_word.big_is_pattern v) W.is_word.same_capacity };

    ghost type_whole_words = { one_word_whole _ _ _ W.is_word.same_width W.is_word.same_capacity };

    ghost type_fits = { λ _. W.is_word.fits.1 };

    #[inline]
    fn fixed_capacity() -> u32 {
        W::width()
    }
}

impl<W: Integer> BitsOwned for W {
    ghost eq_is_same = { W.is_word.same_pattern };

    #[inline]
    fn zeros() -> W {
        zeros::<W>()
    }

    #[inline]
    fn ones() -> W {
        ones::<W>()
    }
}
