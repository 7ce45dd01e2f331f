//! A set that counts the fetches of its words, and the other calls made to it.

ghost use Rattle.std.specs.Prelude.{◌≡◌, ◌*◌, ◌<◌, true, refl};
ghost use Rattle.std.proofs.Common.{lit<};
ghost use Rattle.bittle.specs.BitPatterns.{bit_set};
ghost use Rattle.bittle_bits.specs.RowLawProofs.{row_has-past, words_of, equal_rows};
ghost use Rattle.bittle_bits.specs.LawProofs.{bit_has-past, one_word, equal_words};
ghost use Rattle.bittle.specs.Rows.{row_set};
ghost use Rattle.bittle.specs.Shapes.{Fits};

use crate::asked::Asked;
use bittle::{Bits, BitsMut, BitsOwned, DefaultEndian, Endian};
use bittle_bits::extension::{FixedCapacity, Operation, RangeOperation, ReadWords, Sealed};
use bittle_bits::shape::Shape;

/// The bytes of a set with the members 0 and 31 (7 and 24 in the order `LittleEndian`).
pub(crate) const ONES: [u8; 4] = [1, 0, 0, 128];

/// The bytes of a set with all members but 0 and 31 (all but 7 and 24 in the order `LittleEndian`).
pub(crate) const ZEROS: [u8; 4] = [254, 255, 255, 127];

/// A set of four bytes. It counts the calls made to it, unless `asked` is `None`.
#[derive(Clone, Copy)]
#[derive_where(PartialEq, Eq)]
pub(crate) struct Probe<'a> {
    pub(crate) bytes: [u8; 4],
    #[derive_where(skip)]
    asked: Option<&'a Asked>,
}

impl<'a> Probe<'a> {
    /// Returns the set of these bytes. Calls to it are counted in `asked`.
    pub(crate) fn of(bytes: [u8; 4], asked: &'a Asked) -> Probe<'a> {
        Probe {
            bytes,
            asked: Some(asked),
        }
    }

    fn note_word(&self, k: usize) {
        if let Some(asked) = self.asked {
            asked.note_word(k);
        }
    }

    fn note_other(&self) {
        if let Some(asked) = self.asked {
            asked.note_other();
        }
    }
}

impl<'a> Shape for Probe<'a> {
    type LeafWord = u8;

    ghost width = { ⟦<[u8; 4] as Shape>⟧.width };

    ghost indexable = { true };

    ghost big = { λ p. ⟦<[u8; 4] as Shape>⟧.big p.bytes };

    ghost type_capacity = { 4 * 8 };

    const SEAL: Sealed = Sealed {};
}

impl<'a> ReadWords for Probe<'a> {
    ghost leaf_width = { refl };

    ghost width_positive = { lit< tt };

    ghost whole_words = { λ _. words_of 4 8 8 (one_word 8) };

    ghost none_past = { λ p i h. row_has-past 4 8 (λ x. (bit_set 8 x).has) p.bytes i h };

    const IS_FIXED: bool = true;

    fn capacity(&self) -> u32 {
        self.bytes.bits_capacity()
    }

    fn nth_leaf_word(&self, k: usize) -> u8 {
        self.note_word(k);
        self.bytes.nth_leaf_word(k)
    }
}

impl<'a> Bits for Probe<'a> {
    type Order = DefaultEndian;

    fn count_ones(&self) -> u32 {
        self.note_other();
        self.bytes.count_ones()
    }

    fn all_zeros(&self) -> bool {
        self.note_other();
        self.bytes.all_zeros()
    }

    fn all_ones(&self) -> bool {
        self.note_other();
        self.bytes.all_ones()
    }

    fn test_bit_in<E: Endian>(&self, index: u32) -> bool {
        self.note_other();
        self.bytes.test_bit_in::<E>(index)
    }
}

impl<'a> BitsMut for Probe<'a> {
    fn set_bit_in<E: Endian>(&mut self, index: u32) {
        self.note_other();
        self.bytes.set_bit_in::<E>(index);
    }

    fn clear_bit_in<E: Endian>(&mut self, index: u32) {
        self.note_other();
        self.bytes.clear_bit_in::<E>(index);
    }

    fn clear_bits(&mut self) {
        self.note_other();
        self.bytes.clear_bits();
    }

    fn assign_range_by_operation<E: Endian, O: RangeOperation>(&mut self, from: u32, to: u32) {
        self.note_other();
        self.bytes.assign_range_by_operation::<E, O>(from, to);
    }

    fn assign_by_operation<O: Operation>(&mut self, other: &Probe<'a>) {
        self.note_other();
        self.bytes.assign_by_operation::<O>(&other.bytes);
    }

    fn set_nth_leaf_word(&mut self, k: usize, word: u8) {
        self.note_other();
        self.bytes.set_nth_leaf_word(k, word);
    }
}

impl<'a> FixedCapacity for Probe<'a> {
    ghost one_capacity = { λ _. refl };

    ghost type_whole_words = { words_of 4 8 8 (one_word 8) };

    ghost type_fits = { λ _. lit< tt };

    fn fixed_capacity() -> u32
        ensures value { Fits true (4 * 8) → result ≡ 4 * 8 }
        ensures fits { result < 4294967295 → Fits true (4 * 8) }
    {
        <[u8; 4]>::bits()
    }
}

impl<'a> BitsOwned for Probe<'a> {
    ghost eq_is_same = { λ u v. equal_rows 4 8 (bit_set 8) (equal_words 8) u.bytes v.bytes };

    fn zeros() -> Probe<'a> {
        Probe {
            bytes: <[u8; 4]>::zeros(),
            asked: None,
        }
    }

    fn ones() -> Probe<'a> {
        Probe {
            bytes: <[u8; 4]>::ones(),
            asked: None,
        }
    }
}
