//! A view of the edges of a set, at which its runs begin and end.

ghost use Rattle.std.specs.Prelude.{◌≡◌, true, ⊤};
ghost use Rattle.bittle_ext.specs.Edges.{edges};
ghost use Rattle.bittle_ext.specs.ViewLaws.{none_past_edges};
ghost use Rattle.bittle_ext.specs.Views.{read_back};
ghost use Rattle.bittle.specs.Values.{set_in, ShapeFits};

use crate::rotations::window_up_to;
use bittle::{Endian, Shape};
use bittle_bits::extension::{
    End, Kind, Operation, ReadWords, Sealed, SymmetricDifference, Word, word_of_kind,
};
use std::alloc::AllocError;
use std::marker::PhantomData;

/// A view of the edges of a borrowed set. An index is set in the view if just one of two bits is of
/// the kind `K`: the bit at this index, and the bit right before it. So the first edge begins a run
/// of bits of the kind `K`, the second edge is the first index after this run, the third begins the
/// next run, and so on. A run that reaches the capacity has no edge at its end. The view has the
/// capacity of the set, and both are read in the order `E`.
///
/// A word of the view is computed when it is read, from that word of the set and from the word
/// before it.
#[derive(Drop)]
pub struct Edges<'a, B: Shape, E: Endian, K: Kind> {
    set: &'a B,
    order: PhantomData<E>,
    kind: PhantomData<K>,
    pub ghost fits: { ShapeFits B.Shape set.now },
}

impl<'a, B: Shape, E: Endian, K: Kind> Shape for Edges<'a, B, E, K> {
    type LeafWord = B::LeafWord;

    ghost width = { B.width };

    ghost indexable = { true };

    ghost big = { λ v. read_back E.mirrored B.width
        (edges K.ONES (set_in B.Shape E.Endian v.set.now)) };

    const SEAL: Sealed = Sealed {};
}

impl<'a, B: Shape, E: Endian, K: Kind> Clone for Edges<'a, B, E, K> {
    ghost is_clone = { λ s r. r ≡ s };

    ghost is_infallible = { λ _. ⊤ };

    #[inline]
    fn clone(&self) -> Result<Edges<'a, B, E, K>, AllocError> {
        Ok(*self)
    }
}

impl<'a, B: Shape, E: Endian, K: Kind> Copy for Edges<'a, B, E, K> {}

impl<'a, B: ReadWords, E: Endian, K: Kind> ReadWords for Edges<'a, B, E, K> {
    ghost leaf_width = { B.leaf_width };

    ghost width_positive = { B.width_positive };

    ghost whole_words = { λ v. B.whole_words v.set.now };

    ghost none_past = { λ v. none_past_edges K.ONES E.mirrored B.width (B.big v.set.now)
        B.width_positive (B.whole_words v.set.now) (B.none_past v.set.now) };

    const IS_FIXED: bool = B::IS_FIXED;

    #[inline]
    fn capacity(&self) -> u32 {
        self.set.capacity()
    }

    #[inline(always)]
    fn nth_leaf_word(&self, k: usize) -> B::LeafWord {
        let word = word_of_kind::<B, K>(self.set, k);
        let before = if k == 0 {
            B::LeafWord::zero()
        } else {
            word_of_kind::<B, K>(self.set, k - 1)
        };
        let moved = window_up_to::<B::LeafWord, E>(before, word, 1);
        SymmetricDifference::on_words::<B::LeafWord>(word, moved)
    }

    const MAY_PASS_OVER: bool = B::MAY_PASS_OVER;

    // A word without a bit of the kind has an edge only if the word before it has such a bit.
    #[inline(always)]
    fn pass_over<L: Kind, N: End>(&self, low: usize, high: usize) -> usize {
        if !L::ONES {
            return if N::FRONT { low } else { high };
        }
        if N::FRONT {
            let before = low.saturating_sub(1);
            self.set.pass_over::<K, N>(before, high).max(low)
        } else {
            let end = self.set.pass_over::<K, N>(low, high);
            if end < high { end + 1 } else { high }
        }
    }
}

impl<'a, B: ReadWords, E: Endian, K: Kind> Edges<'a, B, E, K> {
    /// Returns a view of the edges of a set.
    #[inline]
    pub(crate) fn of(set: &'a B) -> Edges<'a, B, E, K>
        requires { ShapeFits B.Shape set.now }
        ensures set { set_in ⟦<Edges<'a, B, E, K> as Shape>⟧ E.Endian result
            ≡ edges K.ONES (set_in B.Shape E.Endian set.now) }
        ensures fits { ShapeFits ⟦<Edges<'a, B, E, K> as Shape>⟧ result }
    {
        Edges {
            set,
            order: PhantomData,
            kind: PhantomData,
        }
    }
}
