//! The calls that read a set.

ghost use Rattle.std.specs.Prelude.{◌≡◌, ◌==◌, ℕ, ◌*◌, ◌-◌, ◌<◌, ◌≤◌, Bool, false, IsTrue};
ghost use Rattle.bittle_bits.specs.BitPatterns.{bit_set};
ghost use Rattle.bittle_bits.specs.Join.{AnswersItemsAtMembers, EndsAfterMembers};
ghost use Rattle.bittle_bits.specs.PlainSet.{contains, size, members_below, ascending, complement};
ghost use Rattle.bittle_bits.specs.Searches.{IsFirstIn, IsLastIn};
ghost use Rattle.bittle_bits.specs.Values.{set_in, set_mirrored, ShapeFits, word_count};
ghost use Rattle.bittle_bits.specs.Walk.{AreBelow, IsFresh};
ghost use Rattle.bittle_bits.specs.Words.{word_of};

use crate::end::{Back, Front};
use crate::endian::{BigEndian, DefaultEndian, Endian, LittleEndian};
use crate::internal::source::Source;
use crate::internal::{range_count, search};
use crate::join::JoinOnes;
use crate::kind::{Ones, Zeros};
use crate::read_words::ReadWords;
use crate::walk::{Iter, IterOnes, IterZeros};

/// A set of bits, each named by a `u32` index below the capacity.
///
/// The twelve integer types are sets. Arrays of sets that own their bits, nested to any depth, and
/// slices of such sets are sets too. An index at or past the capacity wraps: it means the index
/// modulo the capacity. With capacity 0 no bit is set, and no call changes anything.
///
/// A shape (an integer, an array, or a slice of some length) *fits* if its capacity is below
/// `u32::MAX`, and so is the capacity of each array type in it. `bits_capacity() < u32::MAX` checks
/// this. Calls that count, iterate, join or search require that the shape fits. A call on one index
/// requires less of a slice: only its element type has to fit, so the call works at any length.
pub trait Bits: Drop + ReadWords {
    /// The bit order of calls that name no order, except [`join_ones`](Bits::join_ones). For an
    /// integer, an array or a slice it is [`DefaultEndian`]. For a `Set` it is the order that the
    /// set remembers.
    type Order: Endian;

    /// Returns how many bits the set has, or `u32::MAX` if its shape does not fit.
    ///
    /// Always callable. It costs O(1).
    ///
    /// ```
    /// [0u16; 2].bits_capacity();                          // 32
    /// ```
    #[inline]
    final fn bits_capacity(&self) -> u32
        ensures value { ShapeFits Self.Shape self.now → result ≡ (Self.big self.now).capacity }
        ensures fits { result < 4294967295 → ShapeFits Self.Shape self.now }
    {
        self.capacity()
    }

    /// Returns how many bits are set. The number is the same in both orders.
    ///
    /// The shape has to fit (`bits_capacity() < u32::MAX`). The call goes word by word, not bit by
    /// bit. With capacity 0 it returns 0.
    ///
    /// ```
    /// [0b0001_0000u8, 0b0100_1000].count_ones();          // 3
    /// ```
    fn count_ones(&self) -> u32
        requires { ShapeFits Self.Shape self.now }
        ensures value { result ≡ size (Self.big self.now) }
        ensures in_own_order { result ≡ size (set_in Self.Shape Self.Order.Endian self.now) }
        ensures in_each_order { (mirrored : Bool) →
            result ≡ size (set_mirrored Self.Shape mirrored self.now) }
        ensures at_most { result ≤ (Self.big self.now).capacity };

    /// Returns how many bits are unset. The number is the same in both orders.
    ///
    /// The shape has to fit (`bits_capacity() < u32::MAX`). The call goes word by word, not bit by
    /// bit. With capacity 0 it returns 0.
    ///
    /// ```
    /// [0b0001_0000u8, 0b0100_1000].count_zeros();         // 13
    /// ```
    #[inline]
    final fn count_zeros(&self) -> u32
        requires { ShapeFits Self.Shape self.now }
        ensures value { result ≡ (Self.big self.now).capacity - size (Self.big self.now) }
        ensures in_own_order { result ≡ (Self.big self.now).capacity
            - size (set_in Self.Shape Self.Order.Endian self.now) }
        ensures in_each_order { (mirrored : Bool) → result
            ≡ (Self.big self.now).capacity - size (set_mirrored Self.Shape mirrored self.now) }
        ensures at_most { result ≤ (Self.big self.now).capacity }
    {
        self.bits_capacity() - self.count_ones()
    }

    /// Returns `true` if no bit is set. With capacity 0 it returns `true`.
    ///
    /// Always callable. It reads words, at most eight at a time, until one of them decides the
    /// result. But an array with a capacity of at most 1,024 bits is read as a whole or not at all.
    ///
    /// ```
    /// [0u8; 4].all_zeros();                               // true
    /// ```
    fn all_zeros(&self) -> bool
        ensures value { result ≡ (size (Self.big self.now) == 0) }
        ensures in_own_order { result
            ≡ (size (set_in Self.Shape Self.Order.Endian self.now) == 0) }
        ensures in_each_order { (mirrored : Bool) →
            result ≡ (size (set_mirrored Self.Shape mirrored self.now) == 0) };

    /// Returns `true` if each bit is set. With capacity 0 it returns `true`.
    ///
    /// Always callable. It reads words, at most eight at a time, until one of them decides the
    /// result. But an array with a capacity of at most 1,024 bits is read as a whole or not at all.
    ///
    /// ```
    /// [255u8; 4].all_ones();                              // true
    /// ```
    fn all_ones(&self) -> bool
        ensures value { result ≡ (size (Self.big self.now) == (Self.big self.now).capacity) }
        ensures in_own_order { result ≡ (size (set_in Self.Shape Self.Order.Endian self.now)
            == (Self.big self.now).capacity) }
        ensures in_each_order { (mirrored : Bool) → result
            ≡ (size (set_mirrored Self.Shape mirrored self.now) == (Self.big self.now).capacity) };

    /// Returns `true` if the bit at `index` is set. Indexes follow the bit order `E`. An index at
    /// or past the capacity wraps. With capacity 0 the call returns `false`.
    ///
    /// The type has to fit (`bits_capacity() < u32::MAX`). For a slice, only its element type has
    /// to fit. The call costs O(1).
    ///
    /// ```
    /// 0b1000_0000u8.test_bit_in::<LittleEndian>(0);       // true
    /// ```
    fn test_bit_in<E: Endian>(&self, index: u32) -> bool
        requires { IsTrue Self.indexable }
        ensures { result ≡ contains (set_in Self.Shape E.Endian self.now) index };

    /// Tests a bit in the bit order of the type (`Self::Order`), as
    /// [`test_bit_in`](Bits::test_bit_in) does.
    ///
    /// ```
    /// 0b0010u8.test_bit(1);                               // true
    /// 0b0010u8.test_bit(9);                               // true: 9 wraps to 1
    /// ```
    #[inline]
    #[tactic(auto, using(crate::proofs::PlainSets::contains_within))]
    final fn test_bit(&self, index: u32) -> bool
        requires { IsTrue Self.indexable }
        ensures value { result ≡ contains (set_in Self.Shape Self.Order.Endian self.now) index }
        ensures has { index < (Self.big self.now).capacity
            → result ≡ (set_in Self.Shape Self.Order.Endian self.now).has index }
    {
        self.test_bit_in::<Self::Order>(index)
    }

    /// Tests a bit in [`LittleEndian`] order, as [`test_bit_in`](Bits::test_bit_in) does.
    ///
    /// ```
    /// 0b1000_0000u8.test_bit_le(0);                       // true
    /// ```
    #[inline]
    #[tactic(auto, using(crate::proofs::PlainSets::contains_within))]
    final fn test_bit_le(&self, index: u32) -> bool
        requires { IsTrue Self.indexable }
        ensures value { result
            ≡ contains (set_in Self.Shape ⟦<LittleEndian as Endian>⟧ self.now) index }
        ensures has { index < (Self.big self.now).capacity
            → result ≡ (set_in Self.Shape ⟦<LittleEndian as Endian>⟧ self.now).has index }
    {
        self.test_bit_in::<LittleEndian>(index)
    }

    /// Tests a bit in [`BigEndian`] order, as [`test_bit_in`](Bits::test_bit_in) does.
    ///
    /// ```
    /// 0b1000_0000u8.test_bit_be(7);                       // true
    /// ```
    #[inline]
    #[tactic(auto, using(crate::proofs::PlainSets::contains_within))]
    final fn test_bit_be(&self, index: u32) -> bool
        requires { IsTrue Self.indexable }
        ensures value { result
            ≡ contains (set_in Self.Shape ⟦<BigEndian as Endian>⟧ self.now) index }
        ensures has { index < (Self.big self.now).capacity
            → result ≡ (set_in Self.Shape ⟦<BigEndian as Endian>⟧ self.now).has index }
    {
        self.test_bit_in::<BigEndian>(index)
    }

    /// Returns the least index in `from..to` whose bit is set, or `None` if no bit of the range is
    /// set. Indexes follow the bit order `E`.
    ///
    /// The shape has to fit (`bits_capacity() < u32::MAX`), and `from <= to <= capacity`: no index
    /// wraps. The call reads only words of the range, and stops when it has found a bit. With
    /// capacity 0 it returns `None`.
    ///
    /// ```
    /// [0x10u8, 0x01].first_one_in::<BigEndian>(5, 16);    // Some(8)
    /// ```
    #[inline]
    final fn first_one_in<E: Endian>(&self, from: u32, to: u32) -> Option<u32>
    where
        Self: Sized,
        requires fits { ShapeFits Self.Shape self.now }
        requires ordered { from ≤ to }
        requires within { to ≤ (Self.big self.now).capacity }
        ensures { IsFirstIn (set_in Self.Shape E.Endian self.now) from to result }
    {
        search::end_in::<Self, E, Ones, Front>(self, from, to)
    }

    /// Returns the least index in `from..to` whose bit is unset, or `None` if each bit of the range
    /// is set. Indexes follow the bit order `E`. All else is as with
    /// [`first_one_in`](Bits::first_one_in).
    ///
    /// ```
    /// [0x10u8, 0x01].first_zero_in::<BigEndian>(4, 16);   // Some(5)
    /// ```
    #[inline]
    final fn first_zero_in<E: Endian>(&self, from: u32, to: u32) -> Option<u32>
    where
        Self: Sized,
        requires fits { ShapeFits Self.Shape self.now }
        requires ordered { from ≤ to }
        requires within { to ≤ (Self.big self.now).capacity }
        ensures { IsFirstIn (complement (set_in Self.Shape E.Endian self.now)) from to result }
    {
        search::end_in::<Self, E, Zeros, Front>(self, from, to)
    }

    /// Returns the greatest index in `from..to` whose bit is set, or `None` if no bit of the range
    /// is set. Indexes follow the bit order `E`. The call reads the words of the range backward,
    /// from the last one. All else is as with [`first_one_in`](Bits::first_one_in).
    ///
    /// ```
    /// [0x10u8, 0x01].last_one_in::<BigEndian>(0, 8);      // Some(4)
    /// ```
    #[inline]
    final fn last_one_in<E: Endian>(&self, from: u32, to: u32) -> Option<u32>
    where
        Self: Sized,
        requires fits { ShapeFits Self.Shape self.now }
        requires ordered { from ≤ to }
        requires within { to ≤ (Self.big self.now).capacity }
        ensures { IsLastIn (set_in Self.Shape E.Endian self.now) from to result }
    {
        search::end_in::<Self, E, Ones, Back>(self, from, to)
    }

    /// Returns the greatest index in `from..to` whose bit is unset, or `None` if each bit of the
    /// range is set. Indexes follow the bit order `E`. All else is as with
    /// [`last_one_in`](Bits::last_one_in).
    ///
    /// ```
    /// [0x10u8, 0x01].last_zero_in::<BigEndian>(0, 9);     // Some(7)
    /// ```
    #[inline]
    final fn last_zero_in<E: Endian>(&self, from: u32, to: u32) -> Option<u32>
    where
        Self: Sized,
        requires fits { ShapeFits Self.Shape self.now }
        requires ordered { from ≤ to }
        requires within { to ≤ (Self.big self.now).capacity }
        ensures { IsLastIn (complement (set_in Self.Shape E.Endian self.now)) from to result }
    {
        search::end_in::<Self, E, Zeros, Back>(self, from, to)
    }

    /// Returns how many bits with an index in `from..to` are set. Indexes follow the bit order `E`.
    ///
    /// The shape has to fit (`bits_capacity() < u32::MAX`), and `from <= to <= capacity`: no index
    /// wraps. The call goes word by word, not bit by bit. With capacity 0 it returns 0.
    ///
    /// ```
    /// [0x90u8, 0x03].count_ones_in_range_in::<BigEndian>(5, 9);    // 2: bits 7 and 8
    /// ```
    #[inline]
    final fn count_ones_in_range_in<E: Endian>(&self, from: u32, to: u32) -> u32
    where
        Self: Sized,
        requires fits { ShapeFits Self.Shape self.now }
        requires ordered { from ≤ to }
        requires within { to ≤ (Self.big self.now).capacity }
        ensures value { let ours = set_in Self.Shape E.Endian self.now in
            result ≡ members_below ours to - members_below ours from }
        ensures at_most { result ≤ to - from }
    {
        range_count::count_ones::<Self, E>(self, from, to)
    }

    /// Returns an iterator over the indexes of the set bits, from the least to the greatest.
    /// Indexes follow the bit order `E`. The iterator can be stepped from both ends.
    ///
    /// The shape has to fit (`bits_capacity() < u32::MAX`). Each word is read at most once. With
    /// capacity 0 the iterator yields nothing.
    ///
    /// The iterator borrows the set. For a slice it borrows the slice reference: if you keep the
    /// iterator in a variable, keep the reference in one too.
    ///
    /// ```
    /// 0b1101_0000u8.iter_ones_in::<LittleEndian>();       // yields 0, 1, 3
    /// ```
    #[inline]
    final fn iter_ones_in<E: Endian>(&self) -> IterOnes<'_, Self, E>
    where
        Self: Sized,
        requires { ShapeFits Self.Shape self.now }
        ensures remaining { result.remaining ≡ ascending (set_in Self.Shape E.Endian self.now) }
        ensures fresh { IsFresh (word_count Self.Shape self.now) result }
        ensures below { AreBelow (Self.big self.now).capacity result.remaining }
    {
        Iter::new(Source::new(self))
    }

    /// Returns an iterator over the indexes of the unset bits below the capacity, from the least to
    /// the greatest. Indexes follow the bit order `E`. All else is as with
    /// [`iter_ones_in`](Bits::iter_ones_in).
    ///
    /// ```
    /// 0b1101_0000u8.iter_zeros_in::<LittleEndian>();      // yields 2, 4, 5, 6, 7
    /// ```
    #[inline]
    final fn iter_zeros_in<E: Endian>(&self) -> IterZeros<'_, Self, E>
    where
        Self: Sized,
        requires { ShapeFits Self.Shape self.now }
        ensures remaining { result.remaining
            ≡ ascending (complement (set_in Self.Shape E.Endian self.now)) }
        ensures fresh { IsFresh (word_count Self.Shape self.now) result }
        ensures below { AreBelow (Self.big self.now).capacity result.remaining }
    {
        Iter::new(Source::new(self))
    }

    /// Iterates over the set bits in the bit order of the type (`Self::Order`), as
    /// [`iter_ones_in`](Bits::iter_ones_in) does.
    ///
    /// ```
    /// [0u32, 1, 2, 3].iter_ones();                        // yields 32, 65, 96, 97
    /// [0u32, 1, 2, 3].iter_ones().rev();                  // yields 97, 96, 65, 32
    /// ```
    #[inline]
    final fn iter_ones(&self) -> IterOnes<'_, Self, Self::Order>
    where
        Self: Sized,
        requires { ShapeFits Self.Shape self.now }
        ensures remaining { result.remaining
            ≡ ascending (set_in Self.Shape Self.Order.Endian self.now) }
        ensures fresh { IsFresh (word_count Self.Shape self.now) result }
        ensures below { AreBelow (Self.big self.now).capacity result.remaining }
    {
        self.iter_ones_in::<Self::Order>()
    }

    /// Iterates over the set bits in [`LittleEndian`] order, as
    /// [`iter_ones_in`](Bits::iter_ones_in) does.
    ///
    /// ```
    /// 0b1101_0000u8.iter_ones_le();                       // yields 0, 1, 3
    /// ```
    #[inline]
    final fn iter_ones_le(&self) -> IterOnes<'_, Self, LittleEndian>
    where
        Self: Sized,
        requires { ShapeFits Self.Shape self.now }
        ensures remaining { result.remaining
            ≡ ascending (set_in Self.Shape ⟦<LittleEndian as Endian>⟧ self.now) }
        ensures fresh { IsFresh (word_count Self.Shape self.now) result }
        ensures below { AreBelow (Self.big self.now).capacity result.remaining }
    {
        self.iter_ones_in::<LittleEndian>()
    }

    /// Iterates over the set bits in [`BigEndian`] order, as [`iter_ones_in`](Bits::iter_ones_in)
    /// does.
    ///
    /// ```
    /// 0b1101_0000u8.iter_ones_be();                       // yields 4, 6, 7
    /// ```
    #[inline]
    final fn iter_ones_be(&self) -> IterOnes<'_, Self, BigEndian>
    where
        Self: Sized,
        requires { ShapeFits Self.Shape self.now }
        ensures remaining { result.remaining
            ≡ ascending (set_in Self.Shape ⟦<BigEndian as Endian>⟧ self.now) }
        ensures fresh { IsFresh (word_count Self.Shape self.now) result }
        ensures below { AreBelow (Self.big self.now).capacity result.remaining }
    {
        self.iter_ones_in::<BigEndian>()
    }

    /// Iterates over the unset bits in the bit order of the type (`Self::Order`), as
    /// [`iter_zeros_in`](Bits::iter_zeros_in) does.
    ///
    /// ```
    /// 0b1101u8.iter_zeros();                              // yields 1, 4, 5, 6, 7
    /// ```
    #[inline]
    final fn iter_zeros(&self) -> IterZeros<'_, Self, Self::Order>
    where
        Self: Sized,
        requires { ShapeFits Self.Shape self.now }
        ensures remaining { result.remaining
            ≡ ascending (complement (set_in Self.Shape Self.Order.Endian self.now)) }
        ensures fresh { IsFresh (word_count Self.Shape self.now) result }
        ensures below { AreBelow (Self.big self.now).capacity result.remaining }
    {
        self.iter_zeros_in::<Self::Order>()
    }

    /// Iterates over the unset bits in [`LittleEndian`] order, as
    /// [`iter_zeros_in`](Bits::iter_zeros_in) does.
    ///
    /// ```
    /// 0b1101_0000u8.iter_zeros_le();                      // yields 2, 4, 5, 6, 7
    /// ```
    #[inline]
    final fn iter_zeros_le(&self) -> IterZeros<'_, Self, LittleEndian>
    where
        Self: Sized,
        requires { ShapeFits Self.Shape self.now }
        ensures remaining { result.remaining
            ≡ ascending (complement (set_in Self.Shape ⟦<LittleEndian as Endian>⟧ self.now)) }
        ensures fresh { IsFresh (word_count Self.Shape self.now) result }
        ensures below { AreBelow (Self.big self.now).capacity result.remaining }
    {
        self.iter_zeros_in::<LittleEndian>()
    }

    /// Iterates over the unset bits in [`BigEndian`] order, as
    /// [`iter_zeros_in`](Bits::iter_zeros_in) does.
    ///
    /// ```
    /// 0b1101_0000u8.iter_zeros_be();                      // yields 0, 1, 2, 3, 5
    /// ```
    #[inline]
    final fn iter_zeros_be(&self) -> IterZeros<'_, Self, BigEndian>
    where
        Self: Sized,
        requires { ShapeFits Self.Shape self.now }
        ensures remaining { result.remaining
            ≡ ascending (complement (set_in Self.Shape ⟦<BigEndian as Endian>⟧ self.now)) }
        ensures fresh { IsFresh (word_count Self.Shape self.now) result }
        ensures below { AreBelow (Self.big self.now).capacity result.remaining }
    {
        self.iter_zeros_in::<BigEndian>()
    }

    /// Returns an iterator that yields an item of `iter` for each set bit: the item whose position,
    /// counted from 0, is the index of the bit. The least index comes first. The iterator ends at
    /// the first set bit for which `iter` has no item. Indexes follow the bit order `E`.
    ///
    /// The shape has to fit (`bits_capacity() < u32::MAX`). Each word is read at most once. No item
    /// of `iter` past the last of these positions is taken. With capacity 0 the iterator yields
    /// nothing.
    ///
    /// The comment on [`JoinOnes`] says which items the iterator takes from `iter`, and where it
    /// ends.
    ///
    /// ```
    /// 0b1010_0000u8.join_ones_in::<_, LittleEndian>([10, 20, 30]);    // yields 10, 30
    /// ```
    #[inline]
    final fn join_ones_in<I: IntoIterator, E: Endian>(
        &self,
        iter: I,
    ) -> JoinOnes<'_, Self, E, I::IntoIter>
    where
        Self: Sized,
        I::Item: Drop,
        requires { ShapeFits Self.Shape self.now }
        ensures members { result.mask.remaining ≡ ascending (set_in Self.Shape E.Endian self.now) }
        ensures below { AreBelow (Self.big self.now).capacity result.mask.remaining }
        ensures iter { I.into_iter_gives iter result.iter }
        ensures none_taken { result.taken ≡ 0 }
        ensures goes_on { result.ended ≡ false }
        ensures answers { AnswersItemsAtMembers I.IntoIter.next_gives result }
        ensures end { EndsAfterMembers I.IntoIter.next_gives result }
    {
        JoinOnes::new(self, iter.into_iter())
    }

    /// Iterates over the items of `iter` at the set bits, as [`join_ones_in`](Bits::join_ones_in)
    /// does. The indexes always follow the bit order [`DefaultEndian`], even if the order of the
    /// type is another.
    ///
    /// ```
    /// 0b0010_0101u8.join_ones([10, 20, 30]);              // yields 10, 30
    /// ```
    #[inline]
    final fn join_ones<I: IntoIterator>(
        &self,
        iter: I,
    ) -> JoinOnes<'_, Self, DefaultEndian, I::IntoIter>
    where
        Self: Sized,
        I::Item: Drop,
        requires { ShapeFits Self.Shape self.now }
        ensures members { result.mask.remaining
            ≡ ascending (set_in Self.Shape ⟦<BigEndian as Endian>⟧ self.now) }
        ensures below { AreBelow (Self.big self.now).capacity result.mask.remaining }
        ensures iter { I.into_iter_gives iter result.iter }
        ensures none_taken { result.taken ≡ 0 }
        ensures goes_on { result.ended ≡ false }
        ensures answers { AnswersItemsAtMembers I.IntoIter.next_gives result }
        ensures end { EndsAfterMembers I.IntoIter.next_gives result }
    {
        self.join_ones_in::<I, DefaultEndian>(iter)
    }

    /// Iterates over the items of `iter` at the set bits in [`LittleEndian`] order, as
    /// [`join_ones_in`](Bits::join_ones_in) does.
    ///
    /// ```
    /// 0b1010_0000u8.join_ones_le([10, 20, 30]);           // yields 10, 30
    /// ```
    #[inline]
    final fn join_ones_le<I: IntoIterator>(
        &self,
        iter: I,
    ) -> JoinOnes<'_, Self, LittleEndian, I::IntoIter>
    where
        Self: Sized,
        I::Item: Drop,
        requires { ShapeFits Self.Shape self.now }
        ensures members { result.mask.remaining
            ≡ ascending (set_in Self.Shape ⟦<LittleEndian as Endian>⟧ self.now) }
        ensures below { AreBelow (Self.big self.now).capacity result.mask.remaining }
        ensures iter { I.into_iter_gives iter result.iter }
        ensures none_taken { result.taken ≡ 0 }
        ensures goes_on { result.ended ≡ false }
        ensures answers { AnswersItemsAtMembers I.IntoIter.next_gives result }
        ensures end { EndsAfterMembers I.IntoIter.next_gives result }
    {
        self.join_ones_in::<I, LittleEndian>(iter)
    }

    /// Iterates over the items of `iter` at the set bits in [`BigEndian`] order, as
    /// [`join_ones_in`](Bits::join_ones_in) does.
    ///
    /// ```
    /// 0b0000_0101u8.join_ones_be([10, 20, 30]);           // yields 10, 30
    /// ```
    #[inline]
    final fn join_ones_be<I: IntoIterator>(
        &self,
        iter: I,
    ) -> JoinOnes<'_, Self, BigEndian, I::IntoIter>
    where
        Self: Sized,
        I::Item: Drop,
        requires { ShapeFits Self.Shape self.now }
        ensures members { result.mask.remaining
            ≡ ascending (set_in Self.Shape ⟦<BigEndian as Endian>⟧ self.now) }
        ensures below { AreBelow (Self.big self.now).capacity result.mask.remaining }
        ensures iter { I.into_iter_gives iter result.iter }
        ensures none_taken { result.taken ≡ 0 }
        ensures goes_on { result.ended ≡ false }
        ensures answers { AnswersItemsAtMembers I.IntoIter.next_gives result }
        ensures end { EndsAfterMembers I.IntoIter.next_gives result }
    {
        self.join_ones_in::<I, BigEndian>(iter)
    }
}
