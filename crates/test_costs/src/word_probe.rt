//! A set of one word. It counts the fetches of this word, and the other calls made to it.

ghost use Rattle.std.specs.Prelude.{◌≡◌, ◌<◌, true, refl};
ghost use Rattle.std.proofs.Common.{lit<};
ghost use Rattle.bittle_bits.specs.LawProofs.{bit_has-past, one_word, equal_words};
ghost use Rattle.bittle.specs.Shapes.{Fits};

use crate::asked::Asked;
use bittle::{Bits, BitsMut, BitsOwned, DefaultEndian, Endian};
use bittle_bits::extension::{FixedCapacity, Operation, RangeOperation, ReadWords, Sealed};
use bittle_bits::shape::Shape;

/// A set of one word. It counts the calls made to it, unless `asked` is `None`.
#[derive(Clone, Copy)]
#[derive_where(PartialEq, Eq)]
pub(crate) struct WordProbe<'a> {
    pub(crate) word: u64,
    #[derive_where(skip)]
    asked: Option<&'a Asked>,
}

impl<'a> WordProbe<'a> {
    /// Returns the set of this word. Calls to it are counted in `asked`.
    pub(crate) fn of(word: u64, asked: &'a Asked) -> WordProbe<'a> {
        WordProbe {
            word,
            asked: Some(asked),
        }
    }

    fn note_word(&self, k: usize) {
        if let Some(asked) = self.asked {
            asked.note_word(k);
        }
    }

    fn note_other(&self) {
        if let Some(asked) = self.asked {
            asked.note_other();
        }
    }
}

impl<'a> Shape for WordProbe<'a> {
    type LeafWord = u64;

    ghost width = { ⟦<u64 as Shape>⟧.width };

    ghost indexable = { true };

    ghost big = { λ p. ⟦<u64 as Shape>⟧.big p.word };

    ghost type_capacity = { 64 };

    const SEAL: Sealed = Sealed {};
}

impl<'a> ReadWords for WordProbe<'a> {
    ghost leaf_width = { refl };

    ghost width_positive = { lit< tt };

    ghost whole_words = { λ _. one_word 64 };

    ghost none_past = { λ p i h. bit_has-past 64 p.word i h };

    const IS_FIXED: bool = true;

    fn capacity(&self) -> u32 {
        self.word.bits_capacity()
    }

    fn nth_leaf_word(&self, k: usize) -> u64 {
        self.note_word(k);
        self.word.nth_leaf_word(k)
    }
}

impl<'a> Bits for WordProbe<'a> {
    type Order = DefaultEndian;

    fn count_ones(&self) -> u32 {
        self.note_other();
        Bits::count_ones(&self.word)
    }

    fn all_zeros(&self) -> bool {
        self.note_other();
        self.word.all_zeros()
    }

    fn all_ones(&self) -> bool {
        self.note_other();
        self.word.all_ones()
    }

    fn test_bit_in<E: Endian>(&self, index: u32) -> bool {
        self.note_other();
        self.word.test_bit_in::<E>(index)
    }
}

impl<'a> BitsMut for WordProbe<'a> {
    fn set_bit_in<E: Endian>(&mut self, index: u32) {
        self.note_other();
        self.word.set_bit_in::<E>(index);
    }

    fn clear_bit_in<E: Endian>(&mut self, index: u32) {
        self.note_other();
        self.word.clear_bit_in::<E>(index);
    }

    fn clear_bits(&mut self) {
        self.note_other();
        self.word.clear_bits();
    }

    fn assign_range_by_operation<E: Endian, O: RangeOperation>(&mut self, from: u32, to: u32) {
        self.note_other();
        self.word.assign_range_by_operation::<E, O>(from, to);
    }

    fn assign_by_operation<O: Operation>(&mut self, other: &WordProbe<'a>) {
        self.note_other();
        self.word.assign_by_operation::<O>(&other.word);
    }

    fn set_nth_leaf_word(&mut self, k: usize, word: u64) {
        self.note_other();
        self.word.set_nth_leaf_word(k, word);
    }
}

impl<'a> FixedCapacity for WordProbe<'a> {
    ghost one_capacity = { λ _. refl };

    ghost type_whole_words = { one_word 64 };

    ghost type_fits = { λ _. lit< tt };

    fn fixed_capacity() -> u32
        ensures value { Fits true 64 → result ≡ 64 }
        ensures fits { result < 4294967295 → Fits true 64 }
    {
        u64::bits()
    }
}

impl<'a> BitsOwned for WordProbe<'a> {
    ghost eq_is_same = { λ u v. equal_words 64 u.word v.word };

    fn zeros() -> WordProbe<'a> {
        WordProbe {
            word: u64::zeros(),
            asked: None,
        }
    }

    fn ones() -> WordProbe<'a> {
        WordProbe {
            word: u64::ones(),
            asked: None,
        }
    }
}
