//! Views of a range of a set.

ghost use Rattle.std.specs.Prelude.{◌≡◌, ◌≤◌, true, ⊤};
ghost use Rattle.bittle_ext.specs.RangeMembers.{kind_within};
ghost use Rattle.bittle_ext.specs.ViewLaws.{none_past_within};
ghost use Rattle.bittle_ext.specs.Views.{read_back};
ghost use Rattle.bittle.specs.Values.{set_in, ShapeFits};

use crate::views::by_words::{is_full, test};
use bittle::{Bits, Endian, Shape};
use bittle_bits::extension::{
    Conjunction, End, Front, Kind, Ones, Operation, ReadWords, Sealed, Word, count_ones_in_range,
    end_in, range, word_of_kind, word_width,
};
use std::alloc::AllocError;
use std::marker::PhantomData;

/// A view of the set bits in a range of a borrowed set.
pub type Within<'a, B, E> = KindWithin<'a, B, E, Ones>;

/// A view in which exactly the bits of the kind `K` (set or unset) in a range of a borrowed set are
/// set. The view has the capacity of that set, and both are read in the order `E`. Each word is
/// computed when it is read. An iterator over the set bits of the view reads only the words of the
/// range. A search for a set bit may first read one word outside of the range; else it reads only
/// words of the range. A search for an unset bit also reads words outside of the range.
#[derive(Drop)]
pub struct KindWithin<'a, B: Shape, E: Endian, K: Kind> {
    set: &'a B,
    from: u32,
    to: u32,
    order: PhantomData<E>,
    kind: PhantomData<K>,
    pub ghost fits: { ShapeFits B.Shape set.now },
    pub ghost ordered: { from ≤ to },
    pub ghost inside: { to ≤ (B.big set.now).capacity },
}

impl<'a, B: Shape, E: Endian, K: Kind> Shape for KindWithin<'a, B, E, K> {
    type LeafWord = B::LeafWord;

    ghost width = { B.width };

    ghost indexable = { true };

    ghost big = { λ v. read_back E.mirrored B.width
        (kind_within K.ONES (set_in B.Shape E.Endian v.set.now) v.from v.to) };

    const SEAL: Sealed = Sealed {};
}

impl<'a, B: Shape, E: Endian, K: Kind> Clone for KindWithin<'a, B, E, K> {
    ghost is_clone = { λ s r. r ≡ s };

    ghost is_infallible = { λ _. ⊤ };

    #[inline]
    fn clone(&self) -> Result<KindWithin<'a, B, E, K>, AllocError> {
        Ok(*self)
    }
}

impl<'a, B: Shape, E: Endian, K: Kind> Copy for KindWithin<'a, B, E, K> {}

impl<'a, B: ReadWords, E: Endian, K: Kind> ReadWords for KindWithin<'a, B, E, K> {
    ghost leaf_width = { B.leaf_width };

    ghost width_positive = { B.width_positive };

    ghost whole_words = { λ v. B.whole_words v.set.now };

    ghost none_past = { λ v. none_past_within K.ONES E.mirrored B.width (B.big v.set.now) v.from
        v.to B.width_positive (B.whole_words v.set.now) (B.none_past v.set.now) };

    const IS_FIXED: bool = B::IS_FIXED;

    #[inline]
    fn capacity(&self) -> u32 {
        self.set.capacity()
    }

    // A word with no set bit needs no mask, nor does a word that lies wholly in the range.
    #[inline(always)]
    fn nth_leaf_word(&self, k: usize) -> B::LeafWord {
        let word = word_of_kind::<B, K>(self.set, k);
        if word.is_zero() {
            return word;
        }
        let width = word_width::<B>();
        let start = k as u32 * width;
        if self.from <= start && start + width <= self.to {
            return word;
        }
        let low = self.from.saturating_sub(start).min(width);
        let high = self.to.saturating_sub(start).min(width);
        Conjunction::on_words::<B::LeafWord>(range::<B::LeafWord, E>(low, high), word)
    }

    const MAY_PASS_OVER: bool = true;

    #[inline]
    fn pass_over<L: Kind, N: End>(&self, low: usize, high: usize) -> usize {
        if !L::ONES {
            return if N::FRONT { low } else { high };
        }
        let width = word_width::<B>();
        let first = (self.from / width) as usize;
        let end = self.to.div_ceil(width) as usize;
        if N::FRONT {
            let at = if low < first {
                first.min(high)
            } else if low < end {
                low
            } else {
                high
            };
            self.set.pass_over::<K, N>(at, high)
        } else {
            let at = if end < high {
                end.max(low)
            } else if first < high {
                high
            } else {
                low
            };
            self.set.pass_over::<K, N>(low, at)
        }
    }
}

impl<'a, B: ReadWords, U: Endian> Bits for Within<'a, B, U> {
    type Order = U;

    #[inline]
    fn count_ones(&self) -> u32 {
        count_ones_in_range::<B, U>(self.set, self.from, self.to)
    }

    #[inline]
    fn all_zeros(&self) -> bool {
        end_in::<B, U, Ones, Front>(self.set, self.from, self.to).is_none()
    }

    #[inline]
    fn all_ones(&self) -> bool {
        is_full::<Within<'a, B, U>>(self)
    }

    #[inline]
    fn test_bit_in<E: Endian>(&self, index: u32) -> bool {
        test::<Within<'a, B, U>, E>(self, index)
    }
}

impl<'a, B: ReadWords, E: Endian, K: Kind> KindWithin<'a, B, E, K> {
    /// Returns a view of the bits of the kind `K` in a range of a set.
    #[inline]
    pub(crate) fn of(set: &'a B, from: u32, to: u32) -> KindWithin<'a, B, E, K>
        requires fits { ShapeFits B.Shape set.now }
        requires ordered { from ≤ to }
        requires within { to ≤ (B.big set.now).capacity }
        ensures value { result.set.now ≡ set.now }
        ensures from { result.from ≡ from }
        ensures to { result.to ≡ to }
        ensures capacity { (⟦<KindWithin<'a, B, E, K> as Shape>⟧.big result).capacity
            ≡ (B.big set.now).capacity }
        ensures set { set_in ⟦<KindWithin<'a, B, E, K> as Shape>⟧ E.Endian result
            ≡ kind_within K.ONES (set_in B.Shape E.Endian set.now) from to }
        ensures fits { ShapeFits ⟦<KindWithin<'a, B, E, K> as Shape>⟧ result }
    {
        KindWithin {
            set,
            from,
            to,
            order: PhantomData,
            kind: PhantomData,
        }
    }
}
