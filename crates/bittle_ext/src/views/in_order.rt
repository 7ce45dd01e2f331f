//! A borrowed set that is read in a named order.

ghost use Rattle.std.specs.Prelude.{◌≡◌, ⊤};

use bittle::{Bits, Endian, Shape};
use bittle_bits::extension::{End, Kind, ReadWords, Sealed};
use std::alloc::AllocError;
use std::marker::PhantomData;

/// A borrowed set that is read in the order `E`: a call that names no order uses `E`.
#[derive(Drop)]
pub struct InOrder<'a, B: Shape, E: Endian> {
    set: &'a B,
    order: PhantomData<E>,
}

impl<'a, B: Shape, E: Endian> InOrder<'a, B, E> {
    /// Borrows a set.
    #[inline]
    pub(crate) fn of(set: &'a B) -> InOrder<'a, B, E>
        ensures { result.set.now ≡ set.now }
    {
        InOrder {
            set,
            order: PhantomData,
        }
    }
}

impl<'a, B: Shape, E: Endian> Shape for InOrder<'a, B, E> {
    type LeafWord = B::LeafWord;

    ghost width = { B.width };

    ghost indexable = { B.indexable };

    ghost big = { λ v. B.big v.set.now };

    const SEAL: Sealed = Sealed {};
}

impl<'a, B: Shape, E: Endian> Clone for InOrder<'a, B, E> {
    ghost is_clone = { λ s r. r ≡ s };

    ghost is_infallible = { λ _. ⊤ };

    #[inline]
    fn clone(&self) -> Result<InOrder<'a, B, E>, AllocError> {
        Ok(*self)
    }
}

impl<'a, B: Shape, E: Endian> Copy for InOrder<'a, B, E> {}

impl<'a, B: ReadWords, E: Endian> ReadWords for InOrder<'a, B, E> {
    ghost leaf_width = { B.leaf_width };

    ghost width_positive = { B.width_positive };

    ghost whole_words = { λ v. B.whole_words v.set.now };

    ghost none_past = { λ v. B.none_past v.set.now };

    const IS_FIXED: bool = B::IS_FIXED;

    #[inline]
    fn capacity(&self) -> u32 {
        self.set.capacity()
    }

    #[inline]
    fn nth_leaf_word(&self, k: usize) -> B::LeafWord {
        self.set.nth_leaf_word(k)
    }

    const MAY_PASS_OVER: bool = B::MAY_PASS_OVER;

    #[inline(always)]
    fn pass_over<K: Kind, N: End>(&self, low: usize, high: usize) -> usize {
        self.set.pass_over::<K, N>(low, high)
    }

    #[inline(always)]
    fn tells_groups<K: Kind>() -> bool {
        B::tells_groups::<K>()
    }

    #[inline(always)]
    fn groups_told<K: Kind>(&self, n: usize, level: u32) -> u64 {
        self.set.groups_told::<K>(n, level)
    }
}

impl<'a, B: Bits, U: Endian> Bits for InOrder<'a, B, U> {
    type Order = U;

    #[inline]
    fn count_ones(&self) -> u32 {
        self.set.count_ones()
    }

    #[inline]
    fn all_zeros(&self) -> bool {
        self.set.all_zeros()
    }

    #[inline]
    fn all_ones(&self) -> bool {
        self.set.all_ones()
    }

    #[inline]
    fn test_bit_in<E: Endian>(&self, index: u32) -> bool {
        self.set.test_bit_in::<E>(index)
    }
}
