//! The calls on sets that own their bits.

ghost use Rattle.std.specs.Prelude.{◌≡◌, ℕ, ◌*◌, ◌<◌, ◌≤◌, Bool, true, false, IsTrue};
ghost use Rattle.bittle_bits.specs.PlainSet.{empty_set, full_set, with_index, without_index};
ghost use Rattle.bittle_bits.specs.PlainSet.{ascending, complement, contains, size};
ghost use Rattle.bittle_bits.specs.Relations.{AreDisjoint, IsSubset};
ghost use Rattle.bittle_bits.specs.SetOperations.{union_of, conjunction_of, difference_of};
ghost use Rattle.bittle_bits.specs.SetOperations.{symmetric_difference_of};
ghost use Rattle.bittle_bits.specs.Shapes.{Fits};
ghost use Rattle.bittle_bits.specs.Values.{set_in, set_mirrored, ShapeFits, word_count};
ghost use Rattle.bittle_bits.specs.Walk.{AreBelow, IsFresh};

use crate::bits_mut::BitsMut;
use crate::endian::{BigEndian, Endian, LittleEndian};
use crate::fixed_capacity::FixedCapacity;
use crate::internal::source::OwnedSource;
use crate::walk::{IntoIter, IntoIterOnes, IntoIterZeros};

/// A set that owns its bits: copying the value copies the set. All values of the type have the same
/// capacity.
pub trait BitsOwned: Copy + Eq + BitsMut + FixedCapacity {
    /// Returns how many bits a set of the type has, or `u32::MAX` if the type does not fit.
    ///
    /// Always callable. It costs O(1).
    ///
    /// ```
    /// <[u32; 4]>::bits();                                 // 128
    /// ```
    #[inline]
    final fn bits() -> u32
        ensures value { Fits Self.indexable Self.type_capacity → result ≡ Self.type_capacity }
        ensures fits { result < 4294967295 → Fits Self.indexable Self.type_capacity }
    {
        Self::fixed_capacity()
    }

    /// Returns the set in which no bit is set. It is the same value in both orders.
    ///
    /// The type has to fit (`Self::bits() < u32::MAX`). Each word is written once.
    ///
    /// ```
    /// <[u8; 2]>::zeros();                                 // [0, 0]
    /// ```
    fn zeros() -> Self
        requires { IsTrue Self.indexable }
        ensures value { Self.big result ≡ empty_set Self.type_capacity }
        ensures in_own_order { set_in Self.Shape Self.Order.Endian result
            ≡ empty_set Self.type_capacity }
        ensures in_each_order { (mirrored : Bool) →
            set_mirrored Self.Shape mirrored result ≡ empty_set Self.type_capacity }
        ensures count { size (Self.big result) ≡ 0 };

    /// Returns the set in which each bit is set. It is the same value in both orders.
    ///
    /// The type has to fit (`Self::bits() < u32::MAX`). Each word is written once. With capacity 0
    /// the set is empty.
    ///
    /// ```
    /// <[u8; 2]>::ones();                                  // [255, 255]
    /// ```
    fn ones() -> Self
        requires { IsTrue Self.indexable }
        ensures value { Self.big result ≡ full_set Self.type_capacity }
        ensures in_own_order { set_in Self.Shape Self.Order.Endian result
            ≡ full_set Self.type_capacity }
        ensures in_each_order { (mirrored : Bool) →
            set_mirrored Self.Shape mirrored result ≡ full_set Self.type_capacity }
        ensures count { size (Self.big result) ≡ Self.type_capacity };

    /// Returns a copy of the set in which the bit at index `bit` is set. Indexes follow the bit
    /// order `E`.
    ///
    /// The type has to fit (`Self::bits() < u32::MAX`). An index at or past the capacity wraps.
    /// With capacity 0 the call returns the same set.
    ///
    /// ```
    /// 0u8.with_bit_in::<LittleEndian>(0);                 // 0b1000_0000
    /// ```
    #[inline]
    final fn with_bit_in<E: Endian>(self, bit: u32) -> Self
        requires { IsTrue Self.indexable }
        ensures { set_in Self.Shape E.Endian result
            ≡ with_index (set_in Self.Shape E.Endian self) bit }
    {
        let mut set = self;
        set.set_bit_in::<E>(bit);
        set
    }

    /// Returns a copy of the set in which one bit is set, as
    /// [`with_bit_in`](BitsOwned::with_bit_in) does, in the bit order of the type (`Self::Order`).
    ///
    /// ```
    /// 0u8.with_bit(9);                                    // 2: 9 wraps to 1
    /// ```
    #[inline]
    #[tactic(auto, using(crate::proofs::ChangedBits::contains_after_set))]
    final fn with_bit(self, bit: u32) -> Self
        requires { IsTrue Self.indexable }
        ensures set { set_in Self.Shape Self.Order.Endian result
            ≡ with_index (set_in Self.Shape Self.Order.Endian self) bit }
        ensures here { 0 < (Self.big self).capacity
            → contains (set_in Self.Shape Self.Order.Endian result) bit ≡ true }
    {
        self.with_bit_in::<Self::Order>(bit)
    }

    /// Returns a copy of the set in which one bit is set, as
    /// [`with_bit_in`](BitsOwned::with_bit_in) does, in [`LittleEndian`] order.
    ///
    /// ```
    /// 0u8.with_bit_le(1);                                 // 0b0100_0000
    /// ```
    #[inline]
    #[tactic(auto, using(crate::proofs::ChangedBits::contains_after_set))]
    final fn with_bit_le(self, bit: u32) -> Self
        requires { IsTrue Self.indexable }
        ensures set { set_in Self.Shape ⟦<LittleEndian as Endian>⟧ result
            ≡ with_index (set_in Self.Shape ⟦<LittleEndian as Endian>⟧ self) bit }
        ensures here { 0 < (Self.big self).capacity
            → contains (set_in Self.Shape ⟦<LittleEndian as Endian>⟧ result) bit ≡ true }
    {
        self.with_bit_in::<LittleEndian>(bit)
    }

    /// Returns a copy of the set in which one bit is set, as
    /// [`with_bit_in`](BitsOwned::with_bit_in) does, in [`BigEndian`] order.
    ///
    /// ```
    /// 0u8.with_bit_be(1);                                 // 0b0000_0010
    /// ```
    #[inline]
    #[tactic(auto, using(crate::proofs::ChangedBits::contains_after_set))]
    final fn with_bit_be(self, bit: u32) -> Self
        requires { IsTrue Self.indexable }
        ensures set { set_in Self.Shape ⟦<BigEndian as Endian>⟧ result
            ≡ with_index (set_in Self.Shape ⟦<BigEndian as Endian>⟧ self) bit }
        ensures here { 0 < (Self.big self).capacity
            → contains (set_in Self.Shape ⟦<BigEndian as Endian>⟧ result) bit ≡ true }
    {
        self.with_bit_in::<BigEndian>(bit)
    }

    /// Returns a copy of the set in which the bit at index `bit` is unset. Indexes follow the bit
    /// order `E`.
    ///
    /// The type has to fit (`Self::bits() < u32::MAX`). An index at or past the capacity wraps.
    /// With capacity 0 the call returns the same set.
    ///
    /// ```
    /// 255u8.without_bit_in::<LittleEndian>(0);            // 0b0111_1111
    /// ```
    #[inline]
    final fn without_bit_in<E: Endian>(self, bit: u32) -> Self
        requires { IsTrue Self.indexable }
        ensures { set_in Self.Shape E.Endian result
            ≡ without_index (set_in Self.Shape E.Endian self) bit }
    {
        let mut set = self;
        set.clear_bit_in::<E>(bit);
        set
    }

    /// Returns a copy of the set in which one bit is unset, as
    /// [`without_bit_in`](BitsOwned::without_bit_in) does, in the bit order of the type
    /// (`Self::Order`).
    ///
    /// ```
    /// 255u8.without_bit(2);                               // 0b1111_1011
    /// ```
    #[inline]
    #[tactic(auto, using(crate::proofs::ChangedBits::contains_after_clear))]
    final fn without_bit(self, bit: u32) -> Self
        requires { IsTrue Self.indexable }
        ensures set { set_in Self.Shape Self.Order.Endian result
            ≡ without_index (set_in Self.Shape Self.Order.Endian self) bit }
        ensures here { contains (set_in Self.Shape Self.Order.Endian result) bit ≡ false }
    {
        self.without_bit_in::<Self::Order>(bit)
    }

    /// Returns a copy of the set in which one bit is unset, as
    /// [`without_bit_in`](BitsOwned::without_bit_in) does, in [`LittleEndian`] order.
    ///
    /// ```
    /// 255u8.without_bit_le(2);                            // 0b1101_1111
    /// ```
    #[inline]
    #[tactic(auto, using(crate::proofs::ChangedBits::contains_after_clear))]
    final fn without_bit_le(self, bit: u32) -> Self
        requires { IsTrue Self.indexable }
        ensures set { set_in Self.Shape ⟦<LittleEndian as Endian>⟧ result
            ≡ without_index (set_in Self.Shape ⟦<LittleEndian as Endian>⟧ self) bit }
        ensures here { contains (set_in Self.Shape ⟦<LittleEndian as Endian>⟧ result) bit ≡ false }
    {
        self.without_bit_in::<LittleEndian>(bit)
    }

    /// Returns a copy of the set in which one bit is unset, as
    /// [`without_bit_in`](BitsOwned::without_bit_in) does, in [`BigEndian`] order.
    ///
    /// ```
    /// 255u8.without_bit_be(2);                            // 0b1111_1011
    /// ```
    #[inline]
    #[tactic(auto, using(crate::proofs::ChangedBits::contains_after_clear))]
    final fn without_bit_be(self, bit: u32) -> Self
        requires { IsTrue Self.indexable }
        ensures set { set_in Self.Shape ⟦<BigEndian as Endian>⟧ result
            ≡ without_index (set_in Self.Shape ⟦<BigEndian as Endian>⟧ self) bit }
        ensures here { contains (set_in Self.Shape ⟦<BigEndian as Endian>⟧ result) bit ≡ false }
    {
        self.without_bit_in::<BigEndian>(bit)
    }

    /// Returns the union of this set and `other`: the bits that are set in at least one of the two.
    ///
    /// Always callable. It does the same in both orders. Each word is read and written once. With
    /// capacity 0 it returns the same set.
    ///
    /// ```
    /// 0b0011u8.union(0b0101);                             // 0b0111
    /// ```
    #[inline]
    final fn union(self, other: Self) -> Self
        ensures in_each_order { (mirrored : Bool) → set_mirrored Self.Shape mirrored result
            ≡ union_of (set_mirrored Self.Shape mirrored self)
            (set_mirrored Self.Shape mirrored other) }
        ensures in_own_order { set_in Self.Shape Self.Order.Endian result
            ≡ union_of (set_in Self.Shape Self.Order.Endian self)
            (set_in Self.Shape Self.Order.Endian other) }
        ensures kept { IsSubset (set_in Self.Shape Self.Order.Endian self)
            (set_in Self.Shape Self.Order.Endian result) }
        ensures added { IsSubset (set_in Self.Shape Self.Order.Endian other)
            (set_in Self.Shape Self.Order.Endian result) }
        ensures at_least { size (set_in Self.Shape Self.Order.Endian self)
            ≤ size (set_in Self.Shape Self.Order.Endian result) }
    {
        let mut set = self;
        set.union_assign(&other);
        set
    }

    /// Returns the conjunction of this set and `other`: the bits that are set in both. All else is
    /// as with [`union`](BitsOwned::union).
    ///
    /// ```
    /// 0b0011u8.conjunction(0b0101);                       // 0b0001
    /// ```
    #[inline]
    final fn conjunction(self, other: Self) -> Self
        ensures in_each_order { (mirrored : Bool) → set_mirrored Self.Shape mirrored result
            ≡ conjunction_of (set_mirrored Self.Shape mirrored self)
            (set_mirrored Self.Shape mirrored other) }
        ensures in_own_order { set_in Self.Shape Self.Order.Endian result
            ≡ conjunction_of (set_in Self.Shape Self.Order.Endian self)
            (set_in Self.Shape Self.Order.Endian other) }
        ensures subset { IsSubset (set_in Self.Shape Self.Order.Endian result)
            (set_in Self.Shape Self.Order.Endian self) }
        ensures within { IsSubset (set_in Self.Shape Self.Order.Endian result)
            (set_in Self.Shape Self.Order.Endian other) }
        ensures at_most { size (set_in Self.Shape Self.Order.Endian result)
            ≤ size (set_in Self.Shape Self.Order.Endian self) }
    {
        let mut set = self;
        set.conjunction_assign(&other);
        set
    }

    /// Returns the difference of this set and `other`: the bits that are set in this set and unset
    /// in `other`. All else is as with [`union`](BitsOwned::union).
    ///
    /// ```
    /// 0b0011u8.difference(0b0101);                        // 0b0010
    /// ```
    #[inline]
    final fn difference(self, other: Self) -> Self
        ensures in_each_order { (mirrored : Bool) → set_mirrored Self.Shape mirrored result
            ≡ difference_of (set_mirrored Self.Shape mirrored self)
            (set_mirrored Self.Shape mirrored other) }
        ensures in_own_order { set_in Self.Shape Self.Order.Endian result
            ≡ difference_of (set_in Self.Shape Self.Order.Endian self)
            (set_in Self.Shape Self.Order.Endian other) }
        ensures subset { IsSubset (set_in Self.Shape Self.Order.Endian result)
            (set_in Self.Shape Self.Order.Endian self) }
        ensures apart { AreDisjoint (set_in Self.Shape Self.Order.Endian result)
            (set_in Self.Shape Self.Order.Endian other) }
        ensures at_most { size (set_in Self.Shape Self.Order.Endian result)
            ≤ size (set_in Self.Shape Self.Order.Endian self) }
    {
        let mut set = self;
        set.difference_assign(&other);
        set
    }

    /// Returns the symmetric difference of this set and `other`: the bits that are set in just one
    /// of the two. All else is as with [`union`](BitsOwned::union).
    ///
    /// ```
    /// 0b0011u8.symmetric_difference(0b0101);              // 0b0110
    /// ```
    #[inline]
    final fn symmetric_difference(self, other: Self) -> Self
        ensures in_each_order { (mirrored : Bool) → set_mirrored Self.Shape mirrored result
            ≡ symmetric_difference_of (set_mirrored Self.Shape mirrored self)
            (set_mirrored Self.Shape mirrored other) }
        ensures in_own_order { set_in Self.Shape Self.Order.Endian result
            ≡ symmetric_difference_of (set_in Self.Shape Self.Order.Endian self)
            (set_in Self.Shape Self.Order.Endian other) }
    {
        let mut set = self;
        set.symmetric_difference_assign(&other);
        set
    }

    /// Returns an iterator over the indexes of the set bits, from the least to the greatest.
    /// Indexes follow the bit order `E`. The iterator owns the set, and can be stepped from both
    /// ends.
    ///
    /// The type has to fit (`Self::bits() < u32::MAX`). Each word is read at most once. With
    /// capacity 0 the iterator yields nothing.
    ///
    /// ```
    /// 0b1101_0000u8.into_iter_ones_in::<LittleEndian>();  // yields 0, 1, 3
    /// ```
    #[inline]
    final fn into_iter_ones_in<E: Endian>(self) -> IntoIterOnes<Self, E>
    where
        Self: Sized,
        requires { IsTrue Self.indexable }
        ensures remaining { result.remaining ≡ ascending (set_in Self.Shape E.Endian self) }
        ensures fresh { IsFresh (word_count Self.Shape self) result }
        ensures below { AreBelow (Self.big self).capacity result.remaining }
    {
        IntoIter::new(OwnedSource::new(self))
    }

    /// Iterates over the set bits of an owned set in the bit order of the type (`Self::Order`), as
    /// [`into_iter_ones_in`](BitsOwned::into_iter_ones_in) does.
    ///
    /// ```
    /// [8u8, 1].into_iter_ones();                          // yields 3, 8
    /// ```
    #[inline]
    final fn into_iter_ones(self) -> IntoIterOnes<Self, Self::Order>
    where
        Self: Sized,
        requires { IsTrue Self.indexable }
        ensures remaining { result.remaining
            ≡ ascending (set_in Self.Shape Self.Order.Endian self) }
        ensures fresh { IsFresh (word_count Self.Shape self) result }
        ensures below { AreBelow (Self.big self).capacity result.remaining }
    {
        self.into_iter_ones_in::<Self::Order>()
    }

    /// Iterates over the set bits of an owned set in [`LittleEndian`] order, as
    /// [`into_iter_ones_in`](BitsOwned::into_iter_ones_in) does.
    ///
    /// ```
    /// [8u8, 1].into_iter_ones_le();                       // yields 4, 15
    /// ```
    #[inline]
    final fn into_iter_ones_le(self) -> IntoIterOnes<Self, LittleEndian>
    where
        Self: Sized,
        requires { IsTrue Self.indexable }
        ensures remaining { result.remaining
            ≡ ascending (set_in Self.Shape ⟦<LittleEndian as Endian>⟧ self) }
        ensures fresh { IsFresh (word_count Self.Shape self) result }
        ensures below { AreBelow (Self.big self).capacity result.remaining }
    {
        self.into_iter_ones_in::<LittleEndian>()
    }

    /// Iterates over the set bits of an owned set in [`BigEndian`] order, as
    /// [`into_iter_ones_in`](BitsOwned::into_iter_ones_in) does.
    ///
    /// ```
    /// [8u8, 1].into_iter_ones_be();                       // yields 3, 8
    /// ```
    #[inline]
    final fn into_iter_ones_be(self) -> IntoIterOnes<Self, BigEndian>
    where
        Self: Sized,
        requires { IsTrue Self.indexable }
        ensures remaining { result.remaining
            ≡ ascending (set_in Self.Shape ⟦<BigEndian as Endian>⟧ self) }
        ensures fresh { IsFresh (word_count Self.Shape self) result }
        ensures below { AreBelow (Self.big self).capacity result.remaining }
    {
        self.into_iter_ones_in::<BigEndian>()
    }

    /// Returns an iterator over the indexes of the unset bits below the capacity, from the least to
    /// the greatest. Indexes follow the bit order `E`. The iterator owns the set, and can be
    /// stepped from both ends.
    ///
    /// The type has to fit (`Self::bits() < u32::MAX`). Each word is read at most once. With
    /// capacity 0 it yields nothing.
    ///
    /// ```
    /// 0b1101_0000u8.into_iter_zeros_in::<LittleEndian>(); // yields 2, 4, 5, 6, 7
    /// ```
    #[inline]
    final fn into_iter_zeros_in<E: Endian>(self) -> IntoIterZeros<Self, E>
    where
        Self: Sized,
        requires { IsTrue Self.indexable }
        ensures remaining { result.remaining
            ≡ ascending (complement (set_in Self.Shape E.Endian self)) }
        ensures fresh { IsFresh (word_count Self.Shape self) result }
        ensures below { AreBelow (Self.big self).capacity result.remaining }
    {
        IntoIter::new(OwnedSource::new(self))
    }

    /// Iterates over the unset bits of an owned set in the bit order of the type (`Self::Order`),
    /// as [`into_iter_zeros_in`](BitsOwned::into_iter_zeros_in) does.
    ///
    /// ```
    /// 0xF9u8.into_iter_zeros();                           // yields 1, 2
    /// ```
    #[inline]
    final fn into_iter_zeros(self) -> IntoIterZeros<Self, Self::Order>
    where
        Self: Sized,
        requires { IsTrue Self.indexable }
        ensures remaining { result.remaining
            ≡ ascending (complement (set_in Self.Shape Self.Order.Endian self)) }
        ensures fresh { IsFresh (word_count Self.Shape self) result }
        ensures below { AreBelow (Self.big self).capacity result.remaining }
    {
        self.into_iter_zeros_in::<Self::Order>()
    }

    /// Iterates over the unset bits of an owned set in [`LittleEndian`] order, as
    /// [`into_iter_zeros_in`](BitsOwned::into_iter_zeros_in) does.
    ///
    /// ```
    /// 0xF9u8.into_iter_zeros_le();                        // yields 5, 6
    /// ```
    #[inline]
    final fn into_iter_zeros_le(self) -> IntoIterZeros<Self, LittleEndian>
    where
        Self: Sized,
        requires { IsTrue Self.indexable }
        ensures remaining { result.remaining
            ≡ ascending (complement (set_in Self.Shape ⟦<LittleEndian as Endian>⟧ self)) }
        ensures fresh { IsFresh (word_count Self.Shape self) result }
        ensures below { AreBelow (Self.big self).capacity result.remaining }
    {
        self.into_iter_zeros_in::<LittleEndian>()
    }

    /// Iterates over the unset bits of an owned set in [`BigEndian`] order, as
    /// [`into_iter_zeros_in`](BitsOwned::into_iter_zeros_in) does.
    ///
    /// ```
    /// 0xF9u8.into_iter_zeros_be();                        // yields 1, 2
    /// ```
    #[inline]
    final fn into_iter_zeros_be(self) -> IntoIterZeros<Self, BigEndian>
    where
        Self: Sized,
        requires { IsTrue Self.indexable }
        ensures remaining { result.remaining
            ≡ ascending (complement (set_in Self.Shape ⟦<BigEndian as Endian>⟧ self)) }
        ensures fresh { IsFresh (word_count Self.Shape self) result }
        ensures below { AreBelow (Self.big self).capacity result.remaining }
    {
        self.into_iter_zeros_in::<BigEndian>()
    }

    // Values that are equal by `==` stand for the same set.
    ghost eq_is_same: { (u v : Self) → IsTrue (Self.eq u v) → Self.big u ≡ Self.big v };
}
