//! Iterators over the set bits or the unset bits of one word, from both ends.

ghost use Rattle.std.specs.Iterator.SizeHint.{IsWithinCount};
ghost use Rattle.std.specs.Iterator.{UpTo, YieldsFirst, YieldsLast, item_count};
ghost use Rattle.std.specs.Prelude.{◌≡◌, length, IfSome, ⊤, Some};
ghost use Rattle.bittle_bits.specs.BitPatterns.{bit_set};
ghost use Rattle.bittle_bits.specs.Orders.{read_in};
ghost use Rattle.bittle_bits.specs.PlainSet.{ascending};
ghost use Rattle.bittle_bits.specs.Walk.{ones_or_zeros, AreBelow, ListsInOrder, ListsInReverse};

use crate::end::{Back, Front};
use crate::endian::Endian;
use crate::kind::{Kind, Ones, Zeros, bits_of_kind};
use crate::one_word;
use crate::word::Word;
use std::alloc::AllocError;
use std::marker::{Model, PhantomData};

/// An iterator over the indexes of the set bits of one word, from the least to the greatest.
/// Indexes follow the bit order `E`.
///
/// ```
/// let mut ones = number::IterOnes::<u8, BigEndian>::new(0b1101);
/// (ones.next(), ones.next_back());                    // (Some(0), Some(3))
/// ```
pub type IterOnes<T, E> = Iter<T, E, Ones>;

/// An iterator over the indexes of the unset bits of one word, from the least to the greatest.
/// Indexes follow the bit order `E`.
///
/// ```
/// number::IterZeros::<u8, BigEndian>::new(0xF9);      // yields 1, 2
/// ```
pub type IterZeros<T, E> = Iter<T, E, Zeros>;

/// An iterator over the indexes of the bits of the kind `K` of one word: its set bits or its unset
/// bits. Once no item remains, steps from both ends return `None`.
#[derive(Drop)]
pub struct Iter<T: Word, E: Endian, K: Kind> {
    // A word whose set bits are at the indexes that remain to be yielded.
    remaining: T,
    order: PhantomData<E>,
    kind: PhantomData<K>,
}

impl<T: Word, E: Endian, K: Kind> Model for Iter<T, E, K> {
    ghost use Rattle.std.specs.Prelude.{ℕ, List};
    ghost use Rattle.bittle_bits.specs.BitPatterns.{bit_set};
    ghost use Rattle.bittle_bits.specs.Orders.{read_in};
    ghost use Rattle.bittle_bits.specs.PlainSet.{ascending};

    ghost Value = { List ℕ };

    ghost view = { λ w. ascending
        (read_in E.mirrored T.width (bit_set T.width (T.pattern w.remaining))) };
}

impl<T: Word, E: Endian, K: Kind> Iter<T, E, K> {
    /// Makes an iterator over the bits of the kind `K` of the word: its set bits or its unset bits.
    ///
    /// Always callable. A step costs O(1). The last two clauses say what runs of steps of any such
    /// iterator yield.
    ///
    /// ```
    /// number::IterOnes::<u8, LittleEndian>::new(0xD0);    // yields 0, 1, 3
    /// ```
    #[inline]
    pub fn new(word: T) -> Iter<T, E, K>
        ensures items { result
            ≡ ascending (ones_or_zeros K.ONES
            (read_in E.mirrored T.width (bit_set T.width (T.pattern word)))) }
        ensures below { AreBelow T.width result }
        ensures in_order { ListsInOrder }
        ensures in_reverse { ListsInReverse }
    {
        Iter {
            remaining: bits_of_kind::<T, K>(word),
            order: PhantomData,
            kind: PhantomData,
        }
    }

    /// Returns how many items remain. It costs O(1).
    ///
    /// ```
    /// number::IterOnes::<u8, LittleEndian>::new(0xD0).len();    // 3
    /// ```
    #[inline]
    pub fn len(&self) -> usize
        ensures { result ≡ length self.now }
    {
        one_word::count_ones::<T>(self.remaining) as usize
    }
}

impl<T: Word, E: Endian, K: Kind> Iterator for Iter<T, E, K> {
    type Item = u32;

    ghost next_gives = { YieldsFirst (λ items. items) };

    ghost remaining = { item_count (λ items. items) };

    #[inline]
    fn next(&mut self) -> Option<u32> {
        one_word::pop::<T, E, Front>(&mut self.remaining)
    }

    #[inline]
    fn size_hint(&self) -> (usize, Option<usize>)
        ensures lower { IsWithinCount result.0 (item_count (λ items. items) self.now) }
        ensures upper { IfSome result.1 (UpTo (item_count (λ items. items) self.now)) }
        ensures exact { result ≡ (length self.now, Some (length self.now)) }
    {
        let len = self.len();
        (len, Some(len))
    }
}

impl<T: Word, E: Endian, K: Kind> DoubleEndedIterator for Iter<T, E, K> {
    ghost next_back_gives = { YieldsLast (λ items. items) };

    #[inline]
    fn next_back(&mut self) -> Option<u32> {
        one_word::pop::<T, E, Back>(&mut self.remaining)
    }
}

impl<T: Word, E: Endian, K: Kind> Clone for Iter<T, E, K> {
    ghost is_clone = { λ source clone. clone ≡ source };

    ghost is_infallible = { λ _. ⊤ };

    #[inline]
    fn clone(&self) -> Result<Iter<T, E, K>, AllocError> {
        Ok(Iter {
            remaining: self.remaining,
            order: PhantomData,
            kind: PhantomData,
        })
    }
}
