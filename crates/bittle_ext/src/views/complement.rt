//! Views of the unset bits of a set.

ghost use Rattle.std.specs.Prelude.{◌≡◌, true, ⊤};
ghost use Rattle.bittle_ext.specs.ViewLaws.{none_past_complement};
ghost use Rattle.bittle.specs.PlainSet.{complement};
ghost use Rattle.bittle.specs.Values.{set_in, ShapeFits};

use crate::views::by_words::test;
use bittle::{Bits, Endian, Shape};
use bittle_bits::extension::{End, Kind, Ones, ReadWords, Sealed, Zeros, word_of_kind};
use std::alloc::AllocError;

/// A view in which each bit is set exactly if it is unset in a borrowed set. It has the capacity
/// and the bit order of that set. Each word is computed when it is read.
#[derive(Drop)]
pub struct Complement<'a, B: Shape> {
    set: &'a B,
    pub ghost fits: { ShapeFits B.Shape set.now },
}

impl<'a, B: Shape> Shape for Complement<'a, B> {
    type LeafWord = B::LeafWord;

    ghost width = { B.width };

    ghost indexable = { true };

    ghost big = { λ v. complement (B.big v.set.now) };

    const SEAL: Sealed = Sealed {};
}

impl<'a, B: Shape> Clone for Complement<'a, B> {
    ghost is_clone = { λ s r. r ≡ s };

    ghost is_infallible = { λ _. ⊤ };

    #[inline]
    fn clone(&self) -> Result<Complement<'a, B>, AllocError> {
        Ok(*self)
    }
}

impl<'a, B: Shape> Copy for Complement<'a, B> {}

impl<'a, B: ReadWords> ReadWords for Complement<'a, B> {
    ghost leaf_width = { B.leaf_width };

    ghost width_positive = { B.width_positive };

    ghost whole_words = { λ v. B.whole_words v.set.now };

    ghost none_past = { λ v. none_past_complement (B.big v.set.now) };

    const IS_FIXED: bool = B::IS_FIXED;

    #[inline]
    fn capacity(&self) -> u32 {
        self.set.capacity()
    }

    #[inline(always)]
    fn nth_leaf_word(&self, k: usize) -> B::LeafWord {
        word_of_kind::<B, Zeros>(self.set, k)
    }

    const MAY_PASS_OVER: bool = B::MAY_PASS_OVER;

    #[inline(always)]
    fn pass_over<K: Kind, N: End>(&self, low: usize, high: usize) -> usize {
        if K::ONES {
            self.set.pass_over::<Zeros, N>(low, high)
        } else {
            self.set.pass_over::<Ones, N>(low, high)
        }
    }
}

impl<'a, B: Bits> Bits for Complement<'a, B> {
    type Order = B::Order;

    #[inline]
    fn count_ones(&self) -> u32 {
        self.set.count_zeros()
    }

    #[inline]
    fn all_zeros(&self) -> bool {
        self.set.all_ones()
    }

    #[inline]
    fn all_ones(&self) -> bool {
        self.set.all_zeros()
    }

    #[inline]
    fn test_bit_in<E: Endian>(&self, index: u32) -> bool {
        test::<Complement<'a, B>, E>(self, index)
    }
}

impl<'a, B: Bits> Complement<'a, B> {
    /// Returns a view of the unset bits of a set.
    #[inline]
    pub(crate) fn of(set: &'a B) -> Complement<'a, B>
        requires { ShapeFits B.Shape set.now }
        ensures value { result.set.now ≡ set.now }
        ensures capacity { (⟦<Complement<'a, B> as Shape>⟧.big result).capacity
            ≡ (B.big set.now).capacity }
        ensures set { set_in ⟦<Complement<'a, B> as Shape>⟧ B.Order.Endian result
            ≡ complement (set_in B.Shape B.Order.Endian set.now) }
        ensures fits { ShapeFits ⟦<Complement<'a, B> as Shape>⟧ result }
    {
        Complement { set }
    }
}
