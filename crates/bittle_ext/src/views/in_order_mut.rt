//! A mutably borrowed set that is read and changed in a named order.

ghost use Rattle.std.specs.Prelude.{◌≡◌};

use bittle::{Bits, BitsMut, Endian, Shape};
use bittle_bits::extension::{End, Kind, Operation, RangeOperation, ReadWords, Sealed};
use std::marker::PhantomData;

/// A mutably borrowed set that is read and changed in the order `E`: a call that names no order
/// uses `E`.
#[derive(Drop)]
pub struct InOrderMut<'a, B: Shape, E: Endian> {
    set: &'a mut B,
    order: PhantomData<E>,
}

impl<'a, B: Shape, E: Endian> Shape for InOrderMut<'a, B, E> {
    type LeafWord = B::LeafWord;

    ghost use Rattle.std.specs.Prelude.{◌∷◌};

    ghost width = { B.width };

    ghost indexable = { B.indexable };

    ghost big = { λ v. B.big v.set.now };

    ghost loan = { λ v. v.set.ghost_name ∷ B.loan v.set.now };

    const SEAL: Sealed = Sealed {};
}

impl<'a, B: ReadWords, E: Endian> ReadWords for InOrderMut<'a, B, E> {
    ghost leaf_width = { B.leaf_width };

    ghost width_positive = { B.width_positive };

    ghost whole_words = { λ v. B.whole_words v.set.now };

    ghost none_past = { λ v. B.none_past v.set.now };

    const IS_FIXED: bool = B::IS_FIXED;

    #[inline]
    fn capacity(&self) -> u32 {
        self.set.capacity()
    }

    #[inline]
    fn nth_leaf_word(&self, k: usize) -> B::LeafWord {
        self.set.nth_leaf_word(k)
    }

    const MAY_PASS_OVER: bool = B::MAY_PASS_OVER;

    #[inline(always)]
    fn pass_over<K: Kind, N: End>(&self, low: usize, high: usize) -> usize {
        self.set.pass_over::<K, N>(low, high)
    }

    #[inline(always)]
    fn tells_groups<K: Kind>() -> bool {
        B::tells_groups::<K>()
    }

    #[inline(always)]
    fn groups_told<K: Kind>(&self, n: usize, level: u32) -> u64 {
        self.set.groups_told::<K>(n, level)
    }
}

impl<'a, B: Bits, U: Endian> Bits for InOrderMut<'a, B, U> {
    type Order = U;

    #[inline]
    fn count_ones(&self) -> u32 {
        self.set.count_ones()
    }

    #[inline]
    fn all_zeros(&self) -> bool {
        self.set.all_zeros()
    }

    #[inline]
    fn all_ones(&self) -> bool {
        self.set.all_ones()
    }

    #[inline]
    fn test_bit_in<E: Endian>(&self, index: u32) -> bool {
        self.set.test_bit_in::<E>(index)
    }
}

impl<'a, B: BitsMut, U: Endian> BitsMut for InOrderMut<'a, B, U> {
    #[inline]
    fn set_bit_in<E: Endian>(&mut self, index: u32) {
        self.set.set_bit_in::<E>(index);
    }

    #[inline]
    fn clear_bit_in<E: Endian>(&mut self, index: u32) {
        self.set.clear_bit_in::<E>(index);
    }

    #[inline]
    fn clear_bits(&mut self) {
        self.set.clear_bits();
    }

    #[inline]
    fn assign_range_by_operation<E: Endian, O: RangeOperation>(&mut self, from: u32, to: u32) {
        self.set.assign_range_by_operation::<E, O>(from, to);
    }

    #[inline]
    fn assign_by_operation<O: Operation>(&mut self, other: &InOrderMut<'a, B, U>) {
        self.set.assign_by_operation::<O>(&*other.set);
    }

    #[inline]
    fn set_nth_leaf_word(&mut self, k: usize, word: B::LeafWord) {
        self.set.set_nth_leaf_word(k, word);
    }
}

/// Views that mutably borrow a set, which may be any set that can be changed.
pub trait BitsMutViewExt: BitsMut {
    /// Returns a view that borrows the set mutably, and reads and changes it in the order `E`. A
    /// change of the view changes the set.
    ///
    /// The call can be made on any set. The view has the capacity of the set, and a call on the
    /// view costs what it costs on the set.
    ///
    /// ```
    /// let mut word = 0b1000_0000u8;
    /// word.in_order_mut::<LittleEndian>().insert(7);      // true: word is 0b1000_0001
    /// ```
    #[inline]
    final fn in_order_mut<E: Endian>(&mut self) -> InOrderMut<'_, Self, E>
    where
        Self: Sized,
        ensures same_set { result.set.ghost_name ≡ self.entry.ghost_name }
        ensures value { result.set.now ≡ self.old }
    {
        InOrderMut {
            set: self,
            order: PhantomData,
        }
    }
}

impl<B: BitsMut> BitsMutViewExt for B {}
