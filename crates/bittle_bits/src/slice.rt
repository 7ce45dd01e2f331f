//! Slices as sets. A `&[T]` can be read; a `&mut [T]` can be read and changed.

ghost use Rattle.std.specs.Prelude.{length, ◌∷◌, []};
ghost use Rattle.bittle_bits.specs.RowLawProofs.{row_has-past, words_of};
ghost use Rattle.bittle_bits.specs.Rows.{row_set};

use crate::bits::Bits;
use crate::bits_mut::BitsMut;
use crate::end::End;
use crate::endian::{DefaultEndian, Endian};
use crate::fixed_capacity::FixedCapacity;
use crate::internal::row;
use crate::internal::sealed::Sealed;
use crate::kind::{Kind, Ones, Zeros};
use crate::operation::{Operation, RangeOperation};
use crate::read_words::ReadWords;
use crate::shape::Shape;

impl<'a, T: Shape> Shape for &'a [T] {
    type LeafWord = T::LeafWord;

    ghost width = { T.width };

    ghost indexable = { T.indexable };

    ghost big = { λ v. row_set (length v.now) T.type_capacity T.big v.now };

    const SEAL: Sealed = Sealed {};
}

impl<'a, T: ReadWords + FixedCapacity> ReadWords for &'a [T] {
    ghost leaf_width = { T.leaf_width };

    ghost width_positive = { T.width_positive };

    ghost whole_words = { λ v. words_of (length v.now) _ _ T.type_whole_words };

    ghost none_past = { λ v i h. row_has-past (length v.now) T.type_capacity
        (λ x. (T.big x).has) v.now i h };

    #[inline]
    fn capacity(&self) -> u32 {
        row::bits_capacity::<T>(self.len())
    }

    #[inline]
    fn nth_leaf_word(&self, k: usize) -> T::LeafWord {
        row::leaf_word::<T>(self, k)
    }

    const MAY_PASS_OVER: bool = T::MAY_PASS_OVER;

    #[inline(always)]
    fn pass_over<K: Kind, N: End>(&self, low: usize, high: usize) -> usize {
        row::pass_over::<T, K, N>(self, low, high)
    }
}

impl<'a, T: Bits + FixedCapacity> Bits for &'a [T] {
    type Order = DefaultEndian;

    #[inline]
    fn count_ones(&self) -> u32 {
        row::count_ones::<T>(self)
    }

    #[inline]
    fn all_zeros(&self) -> bool {
        row::all_zeros::<T>(self, false)
    }

    #[inline]
    fn all_ones(&self) -> bool {
        row::all_ones::<T>(self, false)
    }

    #[inline]
    fn test_bit_in<E: Endian>(&self, index: u32) -> bool {
        row::test_bit::<T, E>(self, index, false)
    }
}

impl<'a, T: Shape> Shape for &'a mut [T] {
    type LeafWord = T::LeafWord;

    ghost width = { T.width };

    ghost indexable = { T.indexable };

    ghost big = { λ v. row_set (length v.now) T.type_capacity T.big v.now };

    ghost loan = { λ v. v.ghost_name ∷ [] };

    const SEAL: Sealed = Sealed {};
}

impl<'a, T: ReadWords + FixedCapacity> ReadWords for &'a mut [T] {
    ghost leaf_width = { T.leaf_width };

    ghost width_positive = { T.width_positive };

    ghost whole_words = { λ v. words_of (length v.now) _ _ T.type_whole_words };

    ghost none_past = { λ v i h. row_has-past (length v.now) T.type_capacity
        (λ x. (T.big x).has) v.now i h };

    #[inline]
    fn capacity(&self) -> u32 {
        row::bits_capacity::<T>(self.len())
    }

    #[inline]
    fn nth_leaf_word(&self, k: usize) -> T::LeafWord {
        row::leaf_word::<T>(self, k)
    }

    const MAY_PASS_OVER: bool = T::MAY_PASS_OVER;

    #[inline(always)]
    fn pass_over<K: Kind, N: End>(&self, low: usize, high: usize) -> usize {
        row::pass_over::<T, K, N>(self, low, high)
    }
}

impl<'a, T: Bits + FixedCapacity> Bits for &'a mut [T] {
    type Order = DefaultEndian;

    #[inline]
    fn count_ones(&self) -> u32 {
        row::count_ones::<T>(self)
    }

    #[inline]
    fn all_zeros(&self) -> bool {
        row::all_zeros::<T>(self, false)
    }

    #[inline]
    fn all_ones(&self) -> bool {
        row::all_ones::<T>(self, false)
    }

    #[inline]
    fn test_bit_in<E: Endian>(&self, index: u32) -> bool {
        row::test_bit::<T, E>(self, index, false)
    }
}

impl<'a, T: BitsMut + FixedCapacity + Copy> BitsMut for &'a mut [T] {
    #[inline]
    fn set_bit_in<E: Endian>(&mut self, index: u32) {
        row::put_bit::<T, E, Ones>(self, index, false);
    }

    #[inline]
    fn clear_bit_in<E: Endian>(&mut self, index: u32) {
        row::put_bit::<T, E, Zeros>(self, index, false);
    }

    #[inline]
    fn clear_bits(&mut self) {
        row::clear_bits::<T>(self);
    }

    #[inline]
    fn assign_range_by_operation<E: Endian, O: RangeOperation>(&mut self, from: u32, to: u32) {
        row::assign_range::<T, E, O>(self, from, to);
    }

    #[inline]
    fn assign_by_operation<O: Operation>(&mut self, other: &&'a mut [T]) {
        let others: &[T] = other;
        row::combine::<T, O>(self, others);
    }

    #[inline]
    fn set_nth_leaf_word(&mut self, k: usize, word: T::LeafWord) {
        row::set_leaf_word::<T>(self, k, word);
    }
}
