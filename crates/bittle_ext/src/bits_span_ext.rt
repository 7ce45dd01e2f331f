//! Reads of a range of a set, where the range is a Rust range: `2..7`, `2..=6`, `..7`, `50..`,
//! `..`.

ghost use Rattle.std.specs.Prelude.{◌≡◌, ◌+◌, ◌-◌, ◌<◌, ◌≤◌, true, false, IfSome, MatchBool};
ghost use Rattle.std.specs.Range.Bound.{start_index, end_index};
ghost use Rattle.bittle_ext.specs.RangeMembers.{members_within, HasSomeIn, HasAllIn, IsPartBelow};
ghost use Rattle.bittle_ext.specs.RangeMembers.{LacksSomeIn, ListsWithin};
ghost use Rattle.bittle.specs.PlainSet.{complement, contains, members_below, size};
ghost use Rattle.bittle.specs.Searches.{IsFirstIn, IsLastIn, NoneIn};
ghost use Rattle.bittle.specs.Values.{set_in, word_count, ShapeFits};
ghost use Rattle.bittle.specs.Walk.{AreBelow, IsFresh};

use crate::capacities::capacity_of;
use crate::range_iterators::{IterOnesInRange, IterZerosInRange, iter_within};
use crate::spans::{ends_of, part_of};
use crate::views::within::Within;
use bittle::{Bits, Shape};
use bittle_bits::extension::{Ones, Zeros};
use std::ops::RangeBounds;

/// Reads of a range of a set. A call that ends in `_in_range` takes two numbers; the call that ends
/// in `_in_span` takes a Rust range, such as `2..=6`.
///
/// The shape has to fit (`bits_capacity() < u32::MAX`). A range without an end ends at the
/// capacity. A range with an end past the capacity is cut there: from the capacity on no bit is set
/// and none is unset. `all_in_range` and `all_in_span` do not cut it: they return `false` for such
/// a range, unless it is empty. A range that runs backwards is empty. A range `a..=b` that was
/// iterated over before is not allowed. The bit order (big- or little-endian) is that of the type;
/// for another order, use the view that [`in_order`](crate::BitsViewExt::in_order) returns.
pub trait BitsSpanExt: Bits + Sized {
    /// Returns how many bits of the range are set. The call goes word by word, not bit by bit. With
    /// capacity 0 it returns 0.
    ///
    /// ```
    /// 0b0110_0010u8.count_ones_in_span(1..=5);            // 2: bits 1 and 5
    /// ```
    #[inline]
    final fn count_ones_in_span<R: RangeBounds<u32>>(&self, range: R) -> u32
        requires fits { ShapeFits Self.Shape self.now }
        requires known { R.has_bounds range }
        ensures value { let ours = set_in Self.Shape Self.Order.Endian self.now in
            let start = start_index (R.start_bound range) in
            let end = end_index (R.end_bound range) (Self.big self.now).capacity in
            result ≡ members_below ours end - members_below ours start }
        ensures at_most { let start = start_index (R.start_bound range) in
            let end = end_index (R.end_bound range) (Self.big self.now).capacity in
            result ≤ end - start }
        ensures at_most_capacity { result ≤ (Self.big self.now).capacity }
        ensures at_most_all { result ≤ size (set_in Self.Shape Self.Order.Endian self.now) }
        ensures all { let start = start_index (R.start_bound range) in
            let end = end_index (R.end_bound range) (Self.big self.now).capacity in
            HasAllIn (set_in Self.Shape Self.Order.Endian self.now) start end
            → result ≡ end - start }
        ensures none { let start = start_index (R.start_bound range) in
            let end = end_index (R.end_bound range) (Self.big self.now).capacity in
            NoneIn (set_in Self.Shape Self.Order.Endian self.now) start end → result ≡ 0 }
    {
        let (start, end) = part_of::<Self, Self::Order, R>(self, &range);
        self.count_ones_in_range_in::<Self::Order>(start, end)
    }

    /// Returns how many bits of the range are unset. The call goes word by word, not bit by bit.
    /// With capacity 0 it returns 0.
    ///
    /// ```
    /// 0b0110_0010u8.count_zeros_in_span(2..);             // 4: bits 2, 3, 4 and 7
    /// ```
    #[inline]
    final fn count_zeros_in_span<R: RangeBounds<u32>>(&self, range: R) -> u32
        requires fits { ShapeFits Self.Shape self.now }
        requires known { R.has_bounds range }
        ensures value { let others = complement (set_in Self.Shape Self.Order.Endian self.now) in
            let start = start_index (R.start_bound range) in
            let end = end_index (R.end_bound range) (Self.big self.now).capacity in
            result ≡ members_below others end - members_below others start }
        ensures at_most { let start = start_index (R.start_bound range) in
            let end = end_index (R.end_bound range) (Self.big self.now).capacity in
            result ≤ end - start }
        ensures at_most_capacity { result ≤ (Self.big self.now).capacity }
        ensures at_most_all { let others =
            complement (set_in Self.Shape Self.Order.Endian self.now) in
            result ≤ size others }
        ensures others { let ours = set_in Self.Shape Self.Order.Endian self.now in
            let start = start_index (R.start_bound range) in
            let end = end_index (R.end_bound range) (Self.big self.now).capacity in
            start ≤ end → end ≤ ours.capacity →
            result + (members_below ours end - members_below ours start) ≡ end - start }
    {
        let (start, end) = part_of::<Self, Self::Order, R>(self, &range);
        end - start - self.count_ones_in_range_in::<Self::Order>(start, end)
    }

    /// Returns the least index of a set bit in the range, or `None` if there is none. The words of
    /// the range are read from the first one on, up to the answer.
    ///
    /// ```
    /// 0b0110_0010u8.first_one_in_span(2..);               // Some(5)
    /// ```
    #[inline]
    #[tactic(auto, using(crate::proofs::RangesBelow::first_of_part, crate::proofs::FoundBits::set_at_first))]
    final fn first_one_in_span<R: RangeBounds<u32>>(&self, range: R) -> Option<u32>
        requires fits { ShapeFits Self.Shape self.now }
        requires known { R.has_bounds range }
        ensures first { let start = start_index (R.start_bound range) in
            let end = end_index (R.end_bound range) (Self.big self.now).capacity in
            IsFirstIn (set_in Self.Shape Self.Order.Endian self.now) start end result }
        ensures below { IfSome result (λ index. index < (Self.big self.now).capacity) }
        ensures found { IfSome result (λ index.
            contains (set_in Self.Shape Self.Order.Endian self.now) index ≡ true) }
    {
        let (start, end) = part_of::<Self, Self::Order, R>(self, &range);
        self.first_one_in::<Self::Order>(start, end)
    }

    /// Returns the least index of an unset bit in the range, or `None` if there is none. The words
    /// of the range are read from the first one on, up to the answer.
    ///
    /// ```
    /// 0b0110_0110u8.first_zero_in_span(1..=6);            // Some(3)
    /// ```
    #[inline]
    #[tactic(auto, using(crate::proofs::RangesBelow::first_of_part))]
    final fn first_zero_in_span<R: RangeBounds<u32>>(&self, range: R) -> Option<u32>
        requires fits { ShapeFits Self.Shape self.now }
        requires known { R.has_bounds range }
        ensures first { let start = start_index (R.start_bound range) in
            let end = end_index (R.end_bound range) (Self.big self.now).capacity in
            IsFirstIn (complement (set_in Self.Shape Self.Order.Endian self.now)) start end
            result }
        ensures below { IfSome result (λ index. index < (Self.big self.now).capacity) }
        ensures found { IfSome result (λ index.
            contains (set_in Self.Shape Self.Order.Endian self.now) index ≡ false) }
    {
        let (start, end) = part_of::<Self, Self::Order, R>(self, &range);
        self.first_zero_in::<Self::Order>(start, end)
    }

    /// Returns the greatest index of a set bit in the range, or `None` if there is none. The words
    /// of the range are read backward from the last one, down to the answer.
    ///
    /// ```
    /// 0b0110_0010u8.last_one_in_span(..5);                // Some(1)
    /// ```
    #[inline]
    #[tactic(auto, using(crate::proofs::RangesBelow::last_of_part, crate::proofs::FoundBits::set_at_last))]
    final fn last_one_in_span<R: RangeBounds<u32>>(&self, range: R) -> Option<u32>
        requires fits { ShapeFits Self.Shape self.now }
        requires known { R.has_bounds range }
        ensures last { let start = start_index (R.start_bound range) in
            let end = end_index (R.end_bound range) (Self.big self.now).capacity in
            IsLastIn (set_in Self.Shape Self.Order.Endian self.now) start end result }
        ensures below { IfSome result (λ index. index < (Self.big self.now).capacity) }
        ensures found { IfSome result (λ index.
            contains (set_in Self.Shape Self.Order.Endian self.now) index ≡ true) }
    {
        let (start, end) = part_of::<Self, Self::Order, R>(self, &range);
        self.last_one_in::<Self::Order>(start, end)
    }

    /// Returns the greatest index of an unset bit in the range, or `None` if there is none. The
    /// words of the range are read backward from the last one, down to the answer.
    ///
    /// ```
    /// 0b0110_0110u8.last_zero_in_span(..7);               // Some(4)
    /// ```
    #[inline]
    #[tactic(auto, using(crate::proofs::RangesBelow::last_of_part))]
    final fn last_zero_in_span<R: RangeBounds<u32>>(&self, range: R) -> Option<u32>
        requires fits { ShapeFits Self.Shape self.now }
        requires known { R.has_bounds range }
        ensures last { let start = start_index (R.start_bound range) in
            let end = end_index (R.end_bound range) (Self.big self.now).capacity in
            IsLastIn (complement (set_in Self.Shape Self.Order.Endian self.now)) start end
            result }
        ensures below { IfSome result (λ index. index < (Self.big self.now).capacity) }
        ensures found { IfSome result (λ index.
            contains (set_in Self.Shape Self.Order.Endian self.now) index ≡ false) }
    {
        let (start, end) = part_of::<Self, Self::Order, R>(self, &range);
        self.last_zero_in::<Self::Order>(start, end)
    }

    /// Returns `true` if a bit of the range is set, and `false` for an empty range. Words are read
    /// up to the first set bit.
    ///
    /// ```
    /// 0b0110_0000u8.any_in_span(..=4);                    // false
    /// ```
    #[inline]
    final fn any_in_span<R: RangeBounds<u32>>(&self, range: R) -> bool
        requires fits { ShapeFits Self.Shape self.now }
        requires known { R.has_bounds range }
        ensures { let ours = set_in Self.Shape Self.Order.Endian self.now in
            let start = start_index (R.start_bound range) in
            let end = end_index (R.end_bound range) (Self.big self.now).capacity in
            MatchBool result (HasSomeIn ours start end) (NoneIn ours start end) }
    {
        self.first_one_in_span(range).is_some()
    }

    /// Returns `true` if each bit of the range is set. If the range has an index at or past the
    /// capacity, where no bit is set, the call returns `false`. For an empty range it returns
    /// `true`. Words are read up to the first unset bit.
    ///
    /// ```
    /// 0b1110_0000u8.all_in_span(5..);                     // true
    /// 0b1110_0000u8.all_in_span(5..=8);                   // false: there is no bit 8
    /// ```
    #[inline]
    final fn all_in_span<R: RangeBounds<u32>>(&self, range: R) -> bool
        requires fits { ShapeFits Self.Shape self.now }
        requires known { R.has_bounds range }
        ensures value { let ours = set_in Self.Shape Self.Order.Endian self.now in
            let start = start_index (R.start_bound range) in
            let end = end_index (R.end_bound range) (Self.big self.now).capacity in
            MatchBool result (HasAllIn ours start end) (LacksSomeIn ours start end) }
        ensures unset { let ours = set_in Self.Shape Self.Order.Endian self.now in
            let start = start_index (R.start_bound range) in
            let end = end_index (R.end_bound range) (Self.big self.now).capacity in
            end ≤ (Self.big self.now).capacity →
            MatchBool result (HasAllIn ours start end) (HasSomeIn (complement ours) start end) }
    {
        let capacity = capacity_of::<Self, Self::Order>(self);
        let (from, to) = ends_of(&range, capacity);
        if from >= to {
            return true;
        }
        if to > capacity as u64 {
            return false;
        }
        self.first_zero_in::<Self::Order>(from as u32, to as u32)
            .is_none()
    }

    /// Returns a double-ended iterator over the indexes of the set bits in the range, in increasing
    /// order, as [`iter_ones_in_range`](crate::BitsRangeExt::iter_ones_in_range) does. Indexes
    /// follow the bit order of the type.
    ///
    /// ```
    /// 0b0110_0010u8.iter_ones_in_span(2..);               // yields 5, 6
    /// ```
    #[inline]
    final fn iter_ones_in_span<R: RangeBounds<u32>>(
        &self,
        range: R,
    ) -> IterOnesInRange<'_, Self, Self::Order>
        requires fits { ShapeFits Self.Shape self.now }
        requires known { R.has_bounds range }
        ensures items { let start = start_index (R.start_bound range) in
            let end = end_index (R.end_bound range) (Self.big self.now).capacity in
            ListsWithin (set_in Self.Shape Self.Order.Endian self.now) start end
            result.remaining }
        ensures fresh { IsFresh (word_count Self.Shape self.now) result }
        ensures below { AreBelow (Self.big self.now).capacity result.remaining }
    {
        let (start, end) = part_of::<Self, Self::Order, R>(self, &range);
        iter_within::<Self, Self::Order, Ones>(self, start, end)
    }

    /// Returns an iterator over the indexes of the unset bits in the range, as
    /// [`iter_zeros_in_range`](crate::BitsRangeExt::iter_zeros_in_range) does.
    ///
    /// ```
    /// 0b0110_0010u8.iter_zeros_in_span(..4);              // yields 0, 2, 3
    /// ```
    #[inline]
    final fn iter_zeros_in_span<R: RangeBounds<u32>>(
        &self,
        range: R,
    ) -> IterZerosInRange<'_, Self, Self::Order>
        requires fits { ShapeFits Self.Shape self.now }
        requires known { R.has_bounds range }
        ensures items { let start = start_index (R.start_bound range) in
            let end = end_index (R.end_bound range) (Self.big self.now).capacity in
            ListsWithin (complement (set_in Self.Shape Self.Order.Endian self.now)) start end
            result.remaining }
        ensures fresh { IsFresh (word_count Self.Shape self.now) result }
        ensures below { AreBelow (Self.big self.now).capacity result.remaining }
    {
        let (start, end) = part_of::<Self, Self::Order, R>(self, &range);
        iter_within::<Self, Self::Order, Zeros>(self, start, end)
    }

    /// Returns a view of the set bits of the range, as [`within`](crate::BitsViewExt::within) does.
    /// The view is a set with the capacity and the bit order of this set.
    ///
    /// ```
    /// 0b0110_0010u8.within_span(2..).count_ones();        // 2: bits 5 and 6
    /// ```
    #[inline]
    final fn within_span<'a, R: RangeBounds<u32>>(
        &'a self,
        range: R,
    ) -> Within<'a, Self, Self::Order>
        requires fits { ShapeFits Self.Shape self.now }
        requires known { R.has_bounds range }
        ensures value { result.set.now ≡ self.now }
        ensures part { let capacity = (Self.big self.now).capacity in
            IsPartBelow capacity (start_index (R.start_bound range))
            (end_index (R.end_bound range) capacity) result.from result.to }
        ensures capacity { (⟦<Within<'a, Self, Self::Order> as Shape>⟧.big result).capacity
            ≡ (Self.big self.now).capacity }
        ensures set { let start = start_index (R.start_bound range) in
            let end = end_index (R.end_bound range) (Self.big self.now).capacity in
            set_in ⟦<Within<'a, Self, Self::Order> as Shape>⟧ Self.Order.Endian result
            ≡ members_within (set_in Self.Shape Self.Order.Endian self.now) start end }
        ensures view_fits { ShapeFits ⟦<Within<'a, Self, Self::Order> as Shape>⟧ result }
    {
        let (start, end) = part_of::<Self, Self::Order, R>(self, &range);
        Within::of(self, start, end)
    }
}

impl<B: Bits> BitsSpanExt for B {}
