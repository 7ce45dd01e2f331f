//! Everyday calls that make owned sets.

ghost use Rattle.std.specs.Prelude.{◌≡◌, ◌+◌, ◌-◌, ◌<◌, ◌≤◌, ℕ, Bool, false, not, length, List};
ghost use Rattle.std.specs.Prelude.{IsTrue};
ghost use Rattle.std.specs.Iterator.{Drains, IsFinite};
ghost use Rattle.std.specs.Iterator.Runs.{WholeRun};
ghost use Rattle.std.specs.List.{fold};
ghost use Rattle.std.specs.Range.Bound.{start_index, end_index};
ghost use Rattle.bittle_ext.specs.Rotations.{rotated_down, rotated_up, shifted_down, shifted_up};
ghost use Rattle.bittle.specs.PlainSet.{complement, contains, empty_set, members_below, size};
ghost use Rattle.bittle.specs.PlainSet.{with_index};
ghost use Rattle.bittle.specs.PlainSet.{with_span, without_span, with_span_toggled};
ghost use Rattle.bittle.specs.Searches.{NoneIn};
ghost use Rattle.bittle.specs.Values.{set_in, set_mirrored};
ghost use Rattle.bittle_ext.specs.RangeMembers.{HasAllIn};
ghost use Rattle.bittle_ext.specs.SetRelations.{AreDisjoint};

use crate::bits_mut_ext::BitsMutExt;
use crate::bits_span_mut_ext::BitsSpanMutExt;
use crate::rotations::{rotate_down, rotate_up};
use crate::shifts::{shift_down, shift_up};
use bittle::BitsOwned;
use std::ops::RangeBounds;

/// Sets made from one set, from a list of indexes or from an iterator. The type has to fit
/// (`Self::bits() < u32::MAX`). The bit order is that of the type; a `Set` can remember another
/// order, as in `Set::new_le(word).rotated_up(1)`.
pub trait BitsOwnedExt: BitsOwned {
    /// Returns this set with every bit flipped. The result is the same in both orders. With
    /// capacity 0 it is this set unchanged. Each word is read once.
    ///
    /// ```
    /// [0xFFu8, 0x0F].complement();                        // [0x00, 0xF0]
    /// ```
    #[inline]
    final fn complement(self) -> Self
        requires { IsTrue Self.indexable }
        ensures value { Self.big result ≡ complement (Self.big self) }
        ensures in_own_order { set_in Self.Shape Self.Order.Endian result
            ≡ complement (set_in Self.Shape Self.Order.Endian self) }
        ensures in_each_order { (mirrored : Bool) → set_mirrored Self.Shape mirrored result
            ≡ complement (set_mirrored Self.Shape mirrored self) }
        ensures count { size (Self.big result) + size (Self.big self) ≡ (Self.big self).capacity }
        ensures apart { AreDisjoint (set_in Self.Shape Self.Order.Endian self)
            (set_in Self.Shape Self.Order.Endian result) }
    {
        Self::ones().difference(self)
    }

    /// Returns a copy of this set in which every bit with an index in `from..to` is set. Indexes
    /// follow the bit order of the type. The call makes one mask per word of the range.
    ///
    /// It requires `from <= to <= capacity`: no index wraps. An empty range changes nothing; with
    /// capacity 0 only an empty range is allowed.
    ///
    /// ```
    /// [0u8; 2].with_range(6, 11);                         // [0xC0, 0x07]
    /// ```
    #[inline]
    final fn with_range(self, from: u32, to: u32) -> Self
        requires indexable { IsTrue Self.indexable }
        requires ordered { from ≤ to }
        requires within { to ≤ Self.type_capacity }
        ensures set { set_in Self.Shape Self.Order.Endian result
            ≡ with_span (set_in Self.Shape Self.Order.Endian self) from to }
        ensures count { let before = set_in Self.Shape Self.Order.Endian self in
            size (set_in Self.Shape Self.Order.Endian result)
            ≡ size before - (members_below before to - members_below before from) + (to - from) }
        ensures all { HasAllIn (set_in Self.Shape Self.Order.Endian result) from to }
    {
        let mut set = self;
        set.set_range_in::<Self::Order>(from, to);
        set
    }

    /// Returns a copy of this set in which every bit with an index in `from..to` is unset. Indexes
    /// follow the bit order of the type. The call makes one mask per word of the range.
    ///
    /// It requires `from <= to <= capacity`: no index wraps. An empty range changes nothing; with
    /// capacity 0 only an empty range is allowed.
    ///
    /// ```
    /// [0xFFu8; 2].without_range(6, 11);                   // [0x3F, 0xF8]
    /// ```
    #[inline]
    final fn without_range(self, from: u32, to: u32) -> Self
        requires indexable { IsTrue Self.indexable }
        requires ordered { from ≤ to }
        requires within { to ≤ Self.type_capacity }
        ensures set { set_in Self.Shape Self.Order.Endian result
            ≡ without_span (set_in Self.Shape Self.Order.Endian self) from to }
        ensures count { let before = set_in Self.Shape Self.Order.Endian self in
            size (set_in Self.Shape Self.Order.Endian result)
            ≡ size before - (members_below before to - members_below before from) }
        ensures none { NoneIn (set_in Self.Shape Self.Order.Endian result) from to }
    {
        let mut set = self;
        set.clear_range_in::<Self::Order>(from, to);
        set
    }

    /// Returns a copy of this set in which every bit with an index in `from..to` is flipped.
    /// Indexes follow the bit order of the type. The call makes one mask per word of the range.
    ///
    /// It requires `from <= to <= capacity`: no index wraps. An empty range changes nothing; with
    /// capacity 0 only an empty range is allowed.
    ///
    /// ```
    /// 0b0011_1100u8.with_range_toggled(0, 4);             // 0b0011_0011
    /// ```
    #[inline]
    final fn with_range_toggled(self, from: u32, to: u32) -> Self
        requires indexable { IsTrue Self.indexable }
        requires ordered { from ≤ to }
        requires within { to ≤ Self.type_capacity }
        ensures set { set_in Self.Shape Self.Order.Endian result
            ≡ with_span_toggled (set_in Self.Shape Self.Order.Endian self) from to }
        ensures flipped { (k : ℕ) → from ≤ k → k < to
            → contains (set_in Self.Shape Self.Order.Endian result) k
            ≡ not (contains (set_in Self.Shape Self.Order.Endian self) k) }
    {
        let mut set = self;
        set.toggle_range_in::<Self::Order>(from, to);
        set
    }

    /// Returns a copy of this set in which every bit of the range is set. The call makes one mask
    /// per word of the range. A range that names no end goes up to the capacity. The range must not
    /// run backwards, and has to end at or below the capacity: no index wraps. A range `a..=b` that
    /// was iterated over before is not allowed. Indexes follow the bit order of the type. An empty
    /// range changes nothing; with capacity 0 only an empty range is allowed.
    ///
    /// ```
    /// [0u8; 2].with_span(6..=10);                         // [0xC0, 0x07]
    /// ```
    #[inline]
    final fn with_span<R: RangeBounds<u32>>(self, range: R) -> Self
        requires indexable { IsTrue Self.indexable }
        requires known { R.has_bounds range }
        requires ordered { start_index (R.start_bound range)
            ≤ end_index (R.end_bound range) Self.type_capacity }
        requires within { end_index (R.end_bound range) Self.type_capacity ≤ Self.type_capacity }
        ensures set { let start = start_index (R.start_bound range) in
            let end = end_index (R.end_bound range) Self.type_capacity in
            set_in Self.Shape Self.Order.Endian result
            ≡ with_span (set_in Self.Shape Self.Order.Endian self) start end }
        ensures count { let before = set_in Self.Shape Self.Order.Endian self in
            let start = start_index (R.start_bound range) in
            let end = end_index (R.end_bound range) Self.type_capacity in
            size (set_in Self.Shape Self.Order.Endian result)
            ≡ size before - (members_below before end - members_below before start)
            + (end - start) }
        ensures all { HasAllIn (set_in Self.Shape Self.Order.Endian result)
            (start_index (R.start_bound range))
            (end_index (R.end_bound range) Self.type_capacity) }
    {
        let mut set = self;
        set.set_span(range);
        set
    }

    /// Returns a copy of this set in which every bit of the range is unset. The call makes one mask
    /// per word of the range. A range that names no end goes up to the capacity. The range must not
    /// run backwards, and has to end at or below the capacity: no index wraps. A range `a..=b` that
    /// was iterated over before is not allowed. Indexes follow the bit order of the type. An empty
    /// range changes nothing; with capacity 0 only an empty range is allowed.
    ///
    /// ```
    /// [0xFFu8; 2].without_span(..11);                     // [0x00, 0xF8]
    /// ```
    #[inline]
    final fn without_span<R: RangeBounds<u32>>(self, range: R) -> Self
        requires indexable { IsTrue Self.indexable }
        requires known { R.has_bounds range }
        requires ordered { start_index (R.start_bound range)
            ≤ end_index (R.end_bound range) Self.type_capacity }
        requires within { end_index (R.end_bound range) Self.type_capacity ≤ Self.type_capacity }
        ensures set { let start = start_index (R.start_bound range) in
            let end = end_index (R.end_bound range) Self.type_capacity in
            set_in Self.Shape Self.Order.Endian result
            ≡ without_span (set_in Self.Shape Self.Order.Endian self) start end }
        ensures count { let before = set_in Self.Shape Self.Order.Endian self in
            let start = start_index (R.start_bound range) in
            let end = end_index (R.end_bound range) Self.type_capacity in
            size (set_in Self.Shape Self.Order.Endian result)
            ≡ size before - (members_below before end - members_below before start) }
        ensures none { NoneIn (set_in Self.Shape Self.Order.Endian result)
            (start_index (R.start_bound range))
            (end_index (R.end_bound range) Self.type_capacity) }
    {
        let mut set = self;
        set.clear_span(range);
        set
    }

    /// Returns a copy of this set in which every bit of the range is flipped. The call makes one
    /// mask per word of the range. A range that names no end goes up to the capacity. The range
    /// must not run backwards, and has to end at or below the capacity: no index wraps. A range
    /// `a..=b` that was iterated over before is not allowed. Indexes follow the bit order of the
    /// type. An empty range changes nothing; with capacity 0 only an empty range is allowed.
    ///
    /// ```
    /// 0b0011_1100u8.with_span_toggled(4..);               // 0b1100_1100
    /// ```
    #[inline]
    final fn with_span_toggled<R: RangeBounds<u32>>(self, range: R) -> Self
        requires indexable { IsTrue Self.indexable }
        requires known { R.has_bounds range }
        requires ordered { start_index (R.start_bound range)
            ≤ end_index (R.end_bound range) Self.type_capacity }
        requires within { end_index (R.end_bound range) Self.type_capacity ≤ Self.type_capacity }
        ensures set { let start = start_index (R.start_bound range) in
            let end = end_index (R.end_bound range) Self.type_capacity in
            set_in Self.Shape Self.Order.Endian result
            ≡ with_span_toggled (set_in Self.Shape Self.Order.Endian self) start end }
        ensures flipped { let start = start_index (R.start_bound range) in
            let end = end_index (R.end_bound range) Self.type_capacity in
            (k : ℕ) → start ≤ k → k < end
            → contains (set_in Self.Shape Self.Order.Endian result) k
            ≡ not (contains (set_in Self.Shape Self.Order.Endian self) k) }
    {
        let mut set = self;
        set.toggle_span(range);
        set
    }

    /// Returns a copy of this set in which each bit is moved down by `by` indexes. A bit that would
    /// pass index 0 goes on at the last index. Indexes follow the bit order of the type.
    ///
    /// A `by` of the capacity or more wraps. With capacity 0 it returns the same set. Each word is
    /// read twice and written once.
    ///
    /// ```
    /// [0x12u8, 0].rotated_down(2);                        // [0x04, 0x80]
    /// ```
    #[inline]
    final fn rotated_down(self, by: u32) -> Self
        requires { IsTrue Self.indexable }
        ensures set { set_in Self.Shape Self.Order.Endian result
            ≡ rotated_down (set_in Self.Shape Self.Order.Endian self) by }
        ensures moved { (i : ℕ) → contains (set_in Self.Shape Self.Order.Endian result) i
            ≡ contains (set_in Self.Shape Self.Order.Endian self) (i + by) }
        ensures count { size (set_in Self.Shape Self.Order.Endian result)
            ≡ size (set_in Self.Shape Self.Order.Endian self) }
    {
        rotate_down::<Self, Self::Order>(&self, by)
    }

    /// Returns a copy of this set in which each bit is moved up by `by` indexes. A bit that would
    /// pass the last index goes on at index 0. Indexes follow the bit order of the type.
    ///
    /// A `by` of the capacity or more wraps. With capacity 0 it returns the same set. Each word is
    /// read twice and written once.
    ///
    /// ```
    /// [0u8, 0x48].rotated_up(2);                          // [0x01, 0x20]
    /// ```
    #[inline]
    final fn rotated_up(self, by: u32) -> Self
        requires { IsTrue Self.indexable }
        ensures set { set_in Self.Shape Self.Order.Endian result
            ≡ rotated_up (set_in Self.Shape Self.Order.Endian self) by }
        ensures moved { (i : ℕ) → contains (set_in Self.Shape Self.Order.Endian result) (i + by)
            ≡ contains (set_in Self.Shape Self.Order.Endian self) i }
        ensures count { size (set_in Self.Shape Self.Order.Endian result)
            ≡ size (set_in Self.Shape Self.Order.Endian self) }
    {
        rotate_up::<Self, Self::Order>(&self, by)
    }

    /// Returns a copy of this set in which each bit is moved down by `by` indexes. A bit that would
    /// pass index 0 is dropped. Indexes follow the bit order of the type.
    ///
    /// If `by` is the capacity or more, or the capacity is 0, the result is the empty set. Each
    /// word is read twice at most and written once.
    ///
    /// ```
    /// [0x12u8, 0x01].shifted_down(2);                     // [0x44, 0]
    /// ```
    #[inline]
    final fn shifted_down(self, by: u32) -> Self
        requires { IsTrue Self.indexable }
        ensures set { set_in Self.Shape Self.Order.Endian result
            ≡ shifted_down (set_in Self.Shape Self.Order.Endian self) by }
        ensures moved { (i : ℕ) → i + by < Self.type_capacity
            → contains (set_in Self.Shape Self.Order.Endian result) i
            ≡ contains (set_in Self.Shape Self.Order.Endian self) (i + by) }
        ensures at_most { size (set_in Self.Shape Self.Order.Endian result)
            ≤ size (set_in Self.Shape Self.Order.Endian self) }
        ensures emptied { (i : ℕ) → i < Self.type_capacity → Self.type_capacity ≤ i + by
            → contains (set_in Self.Shape Self.Order.Endian result) i ≡ false }
    {
        let mut set = self;
        shift_down::<Self, Self::Order>(&mut set, by);
        set
    }

    /// Returns a copy of this set in which each bit is moved up by `by` indexes. A bit that would
    /// reach the capacity is dropped. Indexes follow the bit order of the type.
    ///
    /// If `by` is the capacity or more, or the capacity is 0, the result is the empty set. Each
    /// word is read twice at most and written once.
    ///
    /// ```
    /// [0x48u8, 0x80].shifted_up(2);                       // [0x20, 0x01]
    /// ```
    #[inline]
    final fn shifted_up(self, by: u32) -> Self
        requires { IsTrue Self.indexable }
        ensures set { set_in Self.Shape Self.Order.Endian result
            ≡ shifted_up (set_in Self.Shape Self.Order.Endian self) by }
        ensures moved { (i : ℕ) → i + by < Self.type_capacity
            → contains (set_in Self.Shape Self.Order.Endian result) (i + by)
            ≡ contains (set_in Self.Shape Self.Order.Endian self) i }
        ensures at_most { size (set_in Self.Shape Self.Order.Endian result)
            ≤ size (set_in Self.Shape Self.Order.Endian self) }
        ensures emptied { (i : ℕ) → i < Self.type_capacity → i < by
            → contains (set_in Self.Shape Self.Order.Endian result) i ≡ false }
    {
        let mut set = self;
        shift_up::<Self, Self::Order>(&mut set, by);
        set
    }

    /// Returns the set in which exactly the bits at the listed indexes are set. Indexes follow the
    /// bit order of the type, and an index at or past the capacity wraps. With capacity 0 the set
    /// is empty. The call costs O(words), and O(1) for each index.
    ///
    /// ```
    /// <[u8; 2]>::from_indexes(&[0, 7, 9]);                // [0x81, 0x02]
    /// ```
    #[inline]
    final fn from_indexes(indexes: &[u32]) -> Self
        requires { IsTrue Self.indexable }
        ensures set { set_in Self.Shape Self.Order.Endian result
            ≡ fold with_index (empty_set Self.type_capacity) indexes.now }
        ensures at_most { size (set_in Self.Shape Self.Order.Endian result) ≤ length indexes.now }
    {
        let mut set = Self::zeros();
        set.insert_all(indexes);
        set
    }

    /// Returns the set in which exactly the bits at the indexes of `indexes` are set. `indexes` is
    /// an array, a `Vec`, a range or an iterator. Indexes follow the bit order of the type, and an
    /// index at or past the capacity wraps. With capacity 0 the set is empty.
    ///
    /// `next` of the iterator has to be callable, and the iterator has to end. The call costs
    /// O(words), and O(1) for each index.
    ///
    /// ```
    /// <[u8; 2]>::from_iter(6..11);                        // [0xC0, 0x07]
    /// ```
    #[inline]
    final fn from_iter<I: IntoIterator<Item = u32>>(indexes: I) -> Self
        requires indexable { IsTrue Self.indexable }
        requires can { (iter : I.IntoIter) → I.into_iter_gives indexes iter
            → I.IntoIter.can_next iter }
        requires finite { (iter : I.IntoIter) → I.into_iter_gives indexes iter
            → IsFinite (I.IntoIter.remaining iter) }
        ensures set { (iter : I.IntoIter) × I.into_iter_gives indexes iter × (items : List ℕ)
            × Drains I.IntoIter.next_gives iter items
            × (set_in Self.Shape Self.Order.Endian result
            ≡ fold with_index (empty_set Self.type_capacity) items) }
        ensures runs { (iter : I.IntoIter) × I.into_iter_gives indexes iter
            × WholeRun I.IntoIter.next_gives iter
            (λ run. set_in Self.Shape Self.Order.Endian result
            ≡ fold with_index (empty_set Self.type_capacity) run.items) }
    {
        let mut set = Self::zeros();
        set.extend(indexes);
        set
    }
}

impl<B: BitsOwned> BitsOwnedExt for B {}
