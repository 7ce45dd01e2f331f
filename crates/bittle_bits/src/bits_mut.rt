//! The calls that change a set.

ghost use Rattle.std.specs.Prelude.{◌≡◌, ◌*◌, ◌<◌, ◌≤◌, Bool, true, false, IsTrue};
ghost use Rattle.bittle_bits.specs.BitPatterns.{bit_set};
ghost use Rattle.bittle_bits.specs.PlainSet.{contains, with_index, without_index};
ghost use Rattle.bittle_bits.specs.PlainSet.{with_span_changed};
ghost use Rattle.bittle_bits.specs.PlainSet.{with_span, without_span, with_span_toggled};
ghost use Rattle.bittle_bits.specs.PlainSet.{size, without_members};
ghost use Rattle.bittle_bits.specs.SetOperations.{combination_of, union_of, conjunction_of};
ghost use Rattle.bittle_bits.specs.SetOperations.{difference_of, symmetric_difference_of};
ghost use Rattle.bittle_bits.specs.Values.{set_in, set_mirrored, ShapeFits};
ghost use Rattle.bittle_bits.specs.Words.{ReplacesWord};

use crate::bits::Bits;
use crate::endian::{BigEndian, Endian, LittleEndian};
use crate::operation::{
    Conjunction, Difference, Operation, RangeOperation, SymmetricDifference, Union,
};

/// A set that can be changed. No change alters the capacity.
pub trait BitsMut: Bits {
    /// Sets the bit at `index`. Indexes follow the bit order `E`. No other bit changes.
    ///
    /// The type has to fit (`bits_capacity() < u32::MAX`). For a slice, only its element type has
    /// to fit. An index at or past the capacity wraps. With capacity 0 nothing changes. The call
    /// costs O(1).
    ///
    /// ```
    /// let mut word = 0u8;
    /// word.set_bit_in::<LittleEndian>(0);                 // word is 0b1000_0000
    /// ```
    fn set_bit_in<E: Endian>(&mut self, index: u32)
        requires { IsTrue Self.indexable }
        ensures set { set_in Self.Shape E.Endian self.new
            ≡ with_index (set_in Self.Shape E.Endian self.old) index }
        ensures stays { Self.loan self.old ≡ Self.loan self.new };

    /// Clears the bit at `index`, so that it is unset. Indexes follow the bit order `E`. No other
    /// bit changes.
    ///
    /// The type has to fit (`bits_capacity() < u32::MAX`). For a slice, only its element type has
    /// to fit. An index at or past the capacity wraps. With capacity 0 nothing changes. The call
    /// costs O(1).
    ///
    /// ```
    /// let mut word = 0b1000_0001u8;
    /// word.clear_bit_in::<LittleEndian>(0);               // word is 0b0000_0001
    /// ```
    fn clear_bit_in<E: Endian>(&mut self, index: u32)
        requires { IsTrue Self.indexable }
        ensures set { set_in Self.Shape E.Endian self.new
            ≡ without_index (set_in Self.Shape E.Endian self.old) index }
        ensures stays { Self.loan self.old ≡ Self.loan self.new };

    /// Clears every bit.
    ///
    /// Always callable. Each word is written once. With capacity 0 nothing changes.
    ///
    /// ```
    /// let mut row = [7u8, 9];
    /// row.clear_bits();                                   // row is [0, 0]
    /// ```
    fn clear_bits(&mut self)
        ensures set { Self.big self.new ≡ without_members (Self.big self.old) }
        ensures in_own_order { set_in Self.Shape Self.Order.Endian self.new
            ≡ without_members (set_in Self.Shape Self.Order.Endian self.old) }
        ensures in_each_order { (mirrored : Bool) → set_mirrored Self.Shape mirrored self.new
            ≡ without_members (set_mirrored Self.Shape mirrored self.old) }
        ensures count { size (Self.big self.new) ≡ 0 }
        ensures stays { Self.loan self.old ≡ Self.loan self.new };

    /// Changes each bit with an index in `from..to` by the operation `O`: `Union` sets these bits,
    /// `Difference` clears them, and `SymmetricDifference` flips them. Indexes follow the bit order
    /// `E`. No other bit changes.
    #[doc(hidden)]
    fn assign_range_by_operation<E: Endian, O: RangeOperation>(&mut self, from: u32, to: u32)
        requires fits { ShapeFits Self.Shape self.old }
        requires ordered { from ≤ to }
        requires within { to ≤ (Self.big self.old).capacity }
        ensures set { set_in Self.Shape E.Endian self.new
            ≡ with_span_changed (λ b. O.decide b true)
            (set_in Self.Shape E.Endian self.old) from to }
        ensures stays { Self.loan self.old ≡ Self.loan self.new };

    /// Changes the set to the result of the operation `O` on the set and `other`. With `Union` the
    /// call does what [`union_assign`](BitsMut::union_assign) does.
    #[doc(hidden)]
    fn assign_by_operation<O: Operation>(&mut self, other: &Self)
        ensures set { (mirrored : Bool) → set_mirrored Self.Shape mirrored self.new
            ≡ combination_of O.decide (set_mirrored Self.Shape mirrored self.old)
            (set_mirrored Self.Shape mirrored other.now) }
        ensures stays { Self.loan self.old ≡ Self.loan self.new };

    /// Replaces word `k` of the set by `word`. The first bit of word `k` has the index `k` times
    /// the word width.
    #[doc(hidden)]
    fn set_nth_leaf_word(&mut self, k: usize, word: Self::LeafWord)
        requires fits { ShapeFits Self.Shape self.old }
        requires within { k * Self.width < (Self.big self.old).capacity }
        ensures set { ReplacesWord Self.width (Self.big self.old) k
            (bit_set Self.width (Self.LeafWord.pattern word)) (Self.big self.new) }
        ensures stays { Self.loan self.old ≡ Self.loan self.new };

    /// Sets each bit with an index in `from..to`. Indexes follow the bit order `E`. No other bit
    /// changes.
    ///
    /// The shape has to fit (`bits_capacity() < u32::MAX`), and `from <= to <= capacity`: no index
    /// wraps. Only the words of the range are written, each by one mask. An empty range changes
    /// nothing. With capacity 0 only an empty range is allowed.
    ///
    /// ```
    /// let mut row = [0u8; 2];
    /// row.set_range_in::<BigEndian>(6, 11);               // row is [0xC0, 0x07]
    /// ```
    #[inline]
    final fn set_range_in<E: Endian>(&mut self, from: u32, to: u32)
        requires fits { ShapeFits Self.Shape self.old }
        requires ordered { from ≤ to }
        requires within { to ≤ (Self.big self.old).capacity }
        ensures set { set_in Self.Shape E.Endian self.new
            ≡ with_span (set_in Self.Shape E.Endian self.old) from to }
        ensures stays { Self.loan self.old ≡ Self.loan self.new }
    {
        self.assign_range_by_operation::<E, Union>(from, to);
    }

    /// Clears each bit with an index in `from..to`. Indexes follow the bit order `E`. All else is
    /// as with [`set_range_in`](BitsMut::set_range_in).
    ///
    /// ```
    /// let mut row = [0xFFu8; 2];
    /// row.clear_range_in::<LittleEndian>(6, 11);          // row is [0xFC, 0x1F]
    /// ```
    #[inline]
    final fn clear_range_in<E: Endian>(&mut self, from: u32, to: u32)
        requires fits { ShapeFits Self.Shape self.old }
        requires ordered { from ≤ to }
        requires within { to ≤ (Self.big self.old).capacity }
        ensures set { set_in Self.Shape E.Endian self.new
            ≡ without_span (set_in Self.Shape E.Endian self.old) from to }
        ensures stays { Self.loan self.old ≡ Self.loan self.new }
    {
        self.assign_range_by_operation::<E, Difference>(from, to);
    }

    /// Flips each bit with an index in `from..to`. Indexes follow the bit order `E`. All else is as
    /// with [`set_range_in`](BitsMut::set_range_in).
    ///
    /// ```
    /// let mut word = 0b0011_1100u8;
    /// word.toggle_range_in::<BigEndian>(0, 4);            // word is 0b0011_0011
    /// ```
    #[inline]
    final fn toggle_range_in<E: Endian>(&mut self, from: u32, to: u32)
        requires fits { ShapeFits Self.Shape self.old }
        requires ordered { from ≤ to }
        requires within { to ≤ (Self.big self.old).capacity }
        ensures set { set_in Self.Shape E.Endian self.new
            ≡ with_span_toggled (set_in Self.Shape E.Endian self.old) from to }
        ensures stays { Self.loan self.old ≡ Self.loan self.new }
    {
        self.assign_range_by_operation::<E, SymmetricDifference>(from, to);
    }

    /// Sets each bit that is set in `other`.
    ///
    /// Always callable. It does the same in both orders. Each word of the set is read and written
    /// once, and `other` is only read. Between two slices of unequal length, elements past the end
    /// of the shorter slice do not change. With capacity 0 nothing changes.
    ///
    /// ```
    /// let mut word = 0b0011u8;
    /// word.union_assign(&0b0101);                         // word is 0b0111
    /// ```
    #[inline]
    final fn union_assign(&mut self, other: &Self)
        ensures union { (mirrored : Bool) → set_mirrored Self.Shape mirrored self.new
            ≡ union_of (set_mirrored Self.Shape mirrored self.old)
            (set_mirrored Self.Shape mirrored other.now) }
        ensures in_own_order { set_in Self.Shape Self.Order.Endian self.new
            ≡ union_of (set_in Self.Shape Self.Order.Endian self.old)
            (set_in Self.Shape Self.Order.Endian other.now) }
        ensures stays { Self.loan self.old ≡ Self.loan self.new }
    {
        self.assign_by_operation::<Union>(other);
    }

    /// Clears each bit that is unset in `other`. All else is as with
    /// [`union_assign`](BitsMut::union_assign): elements past the end of a shorter `other` do not
    /// change.
    ///
    /// ```
    /// let mut word = 0b0011u8;
    /// word.conjunction_assign(&0b0101);                   // word is 0b0001
    /// ```
    #[inline]
    final fn conjunction_assign(&mut self, other: &Self)
        ensures conjunction { (mirrored : Bool) → set_mirrored Self.Shape mirrored self.new
            ≡ conjunction_of (set_mirrored Self.Shape mirrored self.old)
            (set_mirrored Self.Shape mirrored other.now) }
        ensures in_own_order { set_in Self.Shape Self.Order.Endian self.new
            ≡ conjunction_of (set_in Self.Shape Self.Order.Endian self.old)
            (set_in Self.Shape Self.Order.Endian other.now) }
        ensures stays { Self.loan self.old ≡ Self.loan self.new }
    {
        self.assign_by_operation::<Conjunction>(other);
    }

    /// Clears each bit that is set in `other`. All else is as with
    /// [`union_assign`](BitsMut::union_assign).
    ///
    /// ```
    /// let mut word = 0b0011u8;
    /// word.difference_assign(&0b0101);                    // word is 0b0010
    /// ```
    #[inline]
    final fn difference_assign(&mut self, other: &Self)
        ensures difference { (mirrored : Bool) → set_mirrored Self.Shape mirrored self.new
            ≡ difference_of (set_mirrored Self.Shape mirrored self.old)
            (set_mirrored Self.Shape mirrored other.now) }
        ensures in_own_order { set_in Self.Shape Self.Order.Endian self.new
            ≡ difference_of (set_in Self.Shape Self.Order.Endian self.old)
            (set_in Self.Shape Self.Order.Endian other.now) }
        ensures stays { Self.loan self.old ≡ Self.loan self.new }
    {
        self.assign_by_operation::<Difference>(other);
    }

    /// Flips each bit that is set in `other`. All else is as with
    /// [`union_assign`](BitsMut::union_assign).
    ///
    /// ```
    /// let mut word = 0b0011u8;
    /// word.symmetric_difference_assign(&0b0101);          // word is 0b0110
    /// ```
    #[inline]
    final fn symmetric_difference_assign(&mut self, other: &Self)
        ensures symmetric_difference { (mirrored : Bool) → set_mirrored Self.Shape mirrored self.new
            ≡ symmetric_difference_of (set_mirrored Self.Shape mirrored self.old)
            (set_mirrored Self.Shape mirrored other.now) }
        ensures in_own_order { set_in Self.Shape Self.Order.Endian self.new
            ≡ symmetric_difference_of (set_in Self.Shape Self.Order.Endian self.old)
            (set_in Self.Shape Self.Order.Endian other.now) }
        ensures stays { Self.loan self.old ≡ Self.loan self.new }
    {
        self.assign_by_operation::<SymmetricDifference>(other);
    }

    /// Sets a bit in the bit order of the type (`Self::Order`), as
    /// [`set_bit_in`](BitsMut::set_bit_in) does.
    ///
    /// ```
    /// let mut row = [0u16; 2];
    /// row.set_bit(31);                                    // row is [0, 0x8000]
    /// ```
    #[inline]
    #[tactic(auto, using(crate::proofs::ChangedBits::contains_after_set))]
    final fn set_bit(&mut self, index: u32)
        requires { IsTrue Self.indexable }
        ensures set { set_in Self.Shape Self.Order.Endian self.new
            ≡ with_index (set_in Self.Shape Self.Order.Endian self.old) index }
        ensures here { 0 < (Self.big self.old).capacity
            → contains (set_in Self.Shape Self.Order.Endian self.new) index ≡ true }
        ensures stays { Self.loan self.old ≡ Self.loan self.new }
    {
        self.set_bit_in::<Self::Order>(index);
    }

    /// Sets a bit in [`LittleEndian`] order, as [`set_bit_in`](BitsMut::set_bit_in) does.
    ///
    /// ```
    /// let mut row = [0u16; 2];
    /// row.set_bit_le(31);                                 // row is [0, 1]
    /// ```
    #[inline]
    #[tactic(auto, using(crate::proofs::ChangedBits::contains_after_set))]
    final fn set_bit_le(&mut self, index: u32)
        requires { IsTrue Self.indexable }
        ensures set { set_in Self.Shape ⟦<LittleEndian as Endian>⟧ self.new
            ≡ with_index (set_in Self.Shape ⟦<LittleEndian as Endian>⟧ self.old) index }
        ensures here { 0 < (Self.big self.old).capacity
            → contains (set_in Self.Shape ⟦<LittleEndian as Endian>⟧ self.new) index ≡ true }
        ensures stays { Self.loan self.old ≡ Self.loan self.new }
    {
        self.set_bit_in::<LittleEndian>(index);
    }

    /// Sets a bit in [`BigEndian`] order, as [`set_bit_in`](BitsMut::set_bit_in) does.
    ///
    /// ```
    /// let mut row = [0u16; 2];
    /// row.set_bit_be(32);                                 // row is [1, 0]: 32 wraps to 0
    /// ```
    #[inline]
    #[tactic(auto, using(crate::proofs::ChangedBits::contains_after_set))]
    final fn set_bit_be(&mut self, index: u32)
        requires { IsTrue Self.indexable }
        ensures set { set_in Self.Shape ⟦<BigEndian as Endian>⟧ self.new
            ≡ with_index (set_in Self.Shape ⟦<BigEndian as Endian>⟧ self.old) index }
        ensures here { 0 < (Self.big self.old).capacity
            → contains (set_in Self.Shape ⟦<BigEndian as Endian>⟧ self.new) index ≡ true }
        ensures stays { Self.loan self.old ≡ Self.loan self.new }
    {
        self.set_bit_in::<BigEndian>(index);
    }

    /// Clears a bit in the bit order of the type (`Self::Order`), as
    /// [`clear_bit_in`](BitsMut::clear_bit_in) does.
    ///
    /// ```
    /// let mut row = [0xFFFFu16; 2];
    /// row.clear_bit(31);                                  // row is [0xFFFF, 0x7FFF]
    /// ```
    #[inline]
    #[tactic(auto, using(crate::proofs::ChangedBits::contains_after_clear))]
    final fn clear_bit(&mut self, index: u32)
        requires { IsTrue Self.indexable }
        ensures set { set_in Self.Shape Self.Order.Endian self.new
            ≡ without_index (set_in Self.Shape Self.Order.Endian self.old) index }
        ensures here { contains (set_in Self.Shape Self.Order.Endian self.new) index ≡ false }
        ensures stays { Self.loan self.old ≡ Self.loan self.new }
    {
        self.clear_bit_in::<Self::Order>(index);
    }

    /// Clears a bit in [`LittleEndian`] order, as [`clear_bit_in`](BitsMut::clear_bit_in) does.
    ///
    /// ```
    /// let mut row = [0xFFFFu16; 2];
    /// row.clear_bit_le(31);                               // row is [0xFFFF, 0xFFFE]
    /// ```
    #[inline]
    #[tactic(auto, using(crate::proofs::ChangedBits::contains_after_clear))]
    final fn clear_bit_le(&mut self, index: u32)
        requires { IsTrue Self.indexable }
        ensures set { set_in Self.Shape ⟦<LittleEndian as Endian>⟧ self.new
            ≡ without_index (set_in Self.Shape ⟦<LittleEndian as Endian>⟧ self.old) index }
        ensures here { contains (set_in Self.Shape ⟦<LittleEndian as Endian>⟧ self.new)
            index ≡ false }
        ensures stays { Self.loan self.old ≡ Self.loan self.new }
    {
        self.clear_bit_in::<LittleEndian>(index);
    }

    /// Clears a bit in [`BigEndian`] order, as [`clear_bit_in`](BitsMut::clear_bit_in) does.
    ///
    /// ```
    /// let mut row = [0xFFFFu16; 2];
    /// row.clear_bit_be(31);                               // row is [0xFFFF, 0x7FFF]
    /// ```
    #[inline]
    #[tactic(auto, using(crate::proofs::ChangedBits::contains_after_clear))]
    final fn clear_bit_be(&mut self, index: u32)
        requires { IsTrue Self.indexable }
        ensures set { set_in Self.Shape ⟦<BigEndian as Endian>⟧ self.new
            ≡ without_index (set_in Self.Shape ⟦<BigEndian as Endian>⟧ self.old) index }
        ensures here { contains (set_in Self.Shape ⟦<BigEndian as Endian>⟧ self.new) index ≡ false }
        ensures stays { Self.loan self.old ≡ Self.loan self.new }
    {
        self.clear_bit_in::<BigEndian>(index);
    }
}
