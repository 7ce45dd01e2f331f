//! Iterators over the set bits of a set, and over its unset bits, from both ends.
//!
//! An iterator fetches each word at most once. It scans (searches) a word once for each item in the
//! word, and once more to find that no item is left in it.

ghost use Rattle.std.specs.Prelude.{◌≡◌, ⊤, Option, ℕ, None, IfSome};
ghost use Rattle.std.specs.Iterator.{item_count, UpTo};
ghost use Rattle.std.specs.Iterator.SizeHint.{IsWithinCount};
ghost use Rattle.bittle_bits.specs.PlainSet.{ascending};
ghost use Rattle.bittle_bits.specs.Values.{kind_in, ShapeFits, word_count};
ghost use Rattle.bittle_bits.specs.Walk.{Walk, AreBelow, IsFresh, ResumesAs, StepsFront, StepsBack};

use crate::end::{Back, Front};
use crate::endian::Endian;
use crate::internal::buffer::Count;
use crate::internal::cursor::{Cursor, begin, duplicate, step};
use crate::internal::source::{OwnedSource, Source};
use crate::kind::{Kind, Ones, Zeros};
use crate::read_words::ReadWords;
use crate::shape::Shape;
use std::alloc::AllocError;
use std::marker::{Model, PhantomData};

/// An iterator over the indexes of the set bits of a borrowed set, from the least to the greatest.
/// Indexes follow the bit order `E`.
///
/// ```
/// [8u8, 3].iter_ones();                               // yields 3, 8, 9
/// [8u8, 3].iter_ones().next_back();                   // Some(9)
/// ```
pub type IterOnes<'a, B, E> = Iter<'a, B, E, Ones>;

/// An iterator over the indexes of the unset bits of a borrowed set below its capacity, from the
/// least to the greatest. Indexes follow the bit order `E`.
///
/// ```
/// 0xF9u8.iter_zeros();                                // yields 1, 2
/// ```
pub type IterZeros<'a, B, E> = Iter<'a, B, E, Zeros>;

/// An iterator over the indexes of the set bits of an owned set, from the least to the greatest.
/// Indexes follow the bit order `E`.
///
/// ```
/// [8u8, 3].into_iter_ones();                          // yields 3, 8, 9
/// ```
pub type IntoIterOnes<B, E> = IntoIter<B, E, Ones>;

/// An iterator over the indexes of the unset bits of an owned set below its capacity, from the
/// least to the greatest. Indexes follow the bit order `E`.
///
/// ```
/// 0xF9u8.into_iter_zeros().rev();                     // yields 2, 1
/// ```
pub type IntoIterZeros<B, E> = IntoIter<B, E, Zeros>;

/// An iterator that counts its scans of words.
pub trait Counted: DoubleEndedIterator<Item = u32> {
    // What contracts see of the iterator.
    ghost walk: { Self → Walk };

    /// Returns how many scans the iterator has made.
    fn scans(&self) -> &Count
        ensures { result.now ≡ (walk self.now).scans };

    // The iterator can be stepped from either end at any time.
    ghost can_step: { (s : Self) → Self.can_next s × Self.can_next_back s };

    ghost steps_front: { (before : Self) (r : Option ℕ) (after : Self)
        → Self.next_gives before r after → StepsFront (walk before) r (walk after) };

    ghost steps_back: { (before : Self) (r : Option ℕ) (after : Self)
        → Self.next_back_gives before r after → StepsBack (walk before) r (walk after) };
}

/// An iterator over the indexes of the bits of the kind `K` of a borrowed set: its set bits or its
/// unset bits.
///
/// Each step yields the first or the last item that remains. Once no item remains, steps from both
/// ends return `None`. A clone yields the items that remained in the original when it was cloned.
pub struct Iter<'a, B: Shape, E: Endian, K: Kind> {
    source: Source<'a, B>,
    at: Cursor<B, E>,
    kind: PhantomData<K>,
}

// A derived drop would be written out, count by count, in each function that ends an iterator. The
// proof of such a function would take twice as long.
impl<'a, B: Shape, E: Endian, K: Kind> Drop for Iter<'a, B, E, K> {
    #[inline(always)]
    fn drop(self) {
        let Self {
            source: _,
            at: _,
            kind: _,
        } = self;
    }
}

impl<'a, B: Shape, E: Endian, K: Kind> Model for Iter<'a, B, E, K> {
    ghost use Rattle.bittle_bits.specs.Walk.{Walk};

    ghost Value = { Walk };

    ghost use Rattle.bittle_bits.specs.Values.{ShapeFits};
    ghost use Rattle.bittle_bits.specs.Cursor.{walk_at, IsCountedIn};

    ghost view = { λ w. walk_at B.Shape E.Endian K.Kind w.source.set.now w.at };

    ghost invariant = { λ w. ShapeFits B.Shape w.source.set.now
        × IsCountedIn B.Shape w.source.set.now w.at };
}

impl<'a, B: ReadWords, E: Endian, K: Kind> Iter<'a, B, E, K> {
    /// Begins an iterator over the whole set.
    #[inline]
    pub(crate) fn new(source: Source<'a, B>) -> Self
        requires { ShapeFits B.Shape source.set.now }
        ensures remaining { result.remaining
            ≡ ascending (kind_in B.Shape E.Endian K.Kind source.entry.set.now) }
        ensures fresh { IsFresh (word_count B.Shape source.entry.set.now) result }
        ensures below { AreBelow (B.big source.entry.set.now).capacity result.remaining }
    {
        let at = begin::<B, E, K>(&source);
        Iter {
            source,
            at,
            kind: PhantomData,
        }
    }
}

impl<'a, B: ReadWords, E: Endian, K: Kind> Iterator for Iter<'a, B, E, K> {
    type Item = u32;

    ghost next_gives = { StepsFront };

    ghost remaining = { item_count (λ w. w.remaining) };

    #[inline]
    fn next(&mut self) -> Option<u32> {
        step::<B, E, K, Front>(&self.source, &mut self.at)
    }

    #[inline]
    fn size_hint(&self) -> (usize, Option<usize>)
        ensures lower { IsWithinCount result.0 (item_count (λ w. w.remaining) self.now) }
        ensures upper { IfSome result.1 (UpTo (item_count (λ w. w.remaining) self.now)) }
        ensures nothing { result ≡ (0, None) }
    {
        (0, None)
    }
}

impl<'a, B: ReadWords, E: Endian, K: Kind> DoubleEndedIterator for Iter<'a, B, E, K> {
    ghost next_back_gives = { StepsBack };

    #[inline]
    fn next_back(&mut self) -> Option<u32> {
        step::<B, E, K, Back>(&self.source, &mut self.at)
    }
}

impl<'a, B: ReadWords, E: Endian, K: Kind> Clone for Iter<'a, B, E, K> {
    ghost is_clone = { ResumesAs };

    ghost is_infallible = { λ _. ⊤ };

    #[inline]
    fn clone(&self) -> Result<Iter<'a, B, E, K>, AllocError> {
        Ok(Iter {
            source: self.source.duplicate(),
            at: duplicate(&self.at),
            kind: PhantomData,
        })
    }
}

impl<'a, B: ReadWords, E: Endian, K: Kind> Counted for Iter<'a, B, E, K> {
    ghost walk = { λ w. w };

    ghost can_step = { λ _. (tt, tt) };

    ghost steps_front = { λ _ _ _ h. h };

    ghost steps_back = { λ _ _ _ h. h };

    #[inline]
    fn scans(&self) -> &Count {
        self.at.buffers.scans()
    }
}

/// An iterator over the indexes of the bits of the kind `K` of an owned set: its set bits or its
/// unset bits.
///
/// Each step yields the first or the last item that remains. Once no item remains, steps from both
/// ends return `None`. A clone yields the items that remained in the original when it was cloned.
pub struct IntoIter<B: Shape, E: Endian, K: Kind> {
    source: OwnedSource<B>,
    at: Cursor<B, E>,
    kind: PhantomData<K>,
}

// As the drop of `Iter`.
impl<B: Shape, E: Endian, K: Kind> Drop for IntoIter<B, E, K> {
    #[inline(always)]
    fn drop(self) {
        let Self {
            source: _,
            at: _,
            kind: _,
        } = self;
    }
}

impl<B: Shape, E: Endian, K: Kind> Model for IntoIter<B, E, K> {
    ghost use Rattle.bittle_bits.specs.Walk.{Walk};

    ghost Value = { Walk };

    ghost use Rattle.bittle_bits.specs.Values.{ShapeFits};
    ghost use Rattle.bittle_bits.specs.Cursor.{walk_at, IsCountedIn};

    ghost view = { λ w. walk_at B.Shape E.Endian K.Kind w.source.set w.at };

    ghost invariant = { λ w. ShapeFits B.Shape w.source.set
        × IsCountedIn B.Shape w.source.set w.at };
}

impl<B: ReadWords, E: Endian, K: Kind> IntoIter<B, E, K> {
    /// Begins an iterator over the whole set.
    #[doc(hidden)]
    #[inline]
    pub fn new(source: OwnedSource<B>) -> Self
        requires { ShapeFits B.Shape source.set }
        ensures remaining { result.remaining
            ≡ ascending (kind_in B.Shape E.Endian K.Kind source.set) }
        ensures fresh { IsFresh (word_count B.Shape source.set) result }
        ensures below { AreBelow (B.big source.set).capacity result.remaining }
    {
        let at = begin::<B, E, K>(&source.lend());
        IntoIter {
            source,
            at,
            kind: PhantomData,
        }
    }
}

impl<B: ReadWords, E: Endian, K: Kind> Iterator for IntoIter<B, E, K> {
    type Item = u32;

    ghost next_gives = { StepsFront };

    ghost remaining = { item_count (λ w. w.remaining) };

    #[inline]
    fn next(&mut self) -> Option<u32> {
        step::<B, E, K, Front>(&self.source.lend(), &mut self.at)
    }

    #[inline]
    fn size_hint(&self) -> (usize, Option<usize>)
        ensures lower { IsWithinCount result.0 (item_count (λ w. w.remaining) self.now) }
        ensures upper { IfSome result.1 (UpTo (item_count (λ w. w.remaining) self.now)) }
        ensures nothing { result ≡ (0, None) }
    {
        (0, None)
    }
}

impl<B: ReadWords, E: Endian, K: Kind> DoubleEndedIterator for IntoIter<B, E, K> {
    ghost next_back_gives = { StepsBack };

    #[inline]
    fn next_back(&mut self) -> Option<u32> {
        step::<B, E, K, Back>(&self.source.lend(), &mut self.at)
    }
}

impl<B: ReadWords + Copy, E: Endian, K: Kind> Clone for IntoIter<B, E, K> {
    ghost is_clone = { ResumesAs };

    ghost is_infallible = { λ _. ⊤ };

    #[inline]
    fn clone(&self) -> Result<IntoIter<B, E, K>, AllocError> {
        Ok(IntoIter {
            source: self.source.duplicate(),
            at: duplicate(&self.at),
            kind: PhantomData,
        })
    }
}

impl<B: ReadWords, E: Endian, K: Kind> Counted for IntoIter<B, E, K> {
    ghost walk = { λ w. w };

    ghost can_step = { λ _. (tt, tt) };

    ghost steps_front = { λ _ _ _ h. h };

    ghost steps_back = { λ _ _ _ h. h };

    #[inline]
    fn scans(&self) -> &Count {
        self.at.buffers.scans()
    }
}
