//! Changes of a range of a set, where the range is a Rust range: `2..7`, `2..=6`, `..7`, `50..`,
//! `..`.

ghost use Rattle.std.specs.Prelude.{◌≡◌, ◌+◌, ◌-◌, ◌<◌, ◌≤◌, ℕ, cond, not, MatchBool};
ghost use Rattle.std.specs.Range.Bound.{start_index, end_index};
ghost use Rattle.bittle_ext.specs.Changes.{with_span_assigned};
ghost use Rattle.bittle.specs.Searches.{NoneIn};
ghost use Rattle.bittle_ext.specs.RangeMembers.{HasAllIn};
ghost use Rattle.bittle.specs.PlainSet.{contains, members_below, size};
ghost use Rattle.bittle.specs.PlainSet.{with_span, without_span, with_span_toggled};
ghost use Rattle.bittle.specs.Values.{set_in, ShapeFits};

use crate::bits_mut_ext::BitsMutExt;
use crate::spans::ends_within;
use bittle::BitsMut;
use std::ops::RangeBounds;

/// Changes of a range of a set. A call that ends in `_range` takes two numbers; the call that ends
/// in `_span` takes a Rust range, such as `2..=6`.
///
/// The shape has to fit (`bits_capacity() < u32::MAX`). A range that names no end goes up to the
/// capacity. The range must not run backwards, and has to end at or below the capacity: no index
/// wraps. A range `a..=b` that was iterated over before is not allowed. Only the words of the range
/// are written. An empty range changes nothing; with capacity 0 only an empty range is allowed. The
/// bit order (big- or little-endian) is that of the type; for another order, use the view that
/// [`in_order_mut`](crate::BitsMutViewExt::in_order_mut) returns.
pub trait BitsSpanMutExt: BitsMut + Sized {
    /// Sets each bit of the range, with one mask per word.
    ///
    /// ```
    /// let mut row = [0u8; 2];
    /// row.set_span(6..=10);                               // row is [0xC0, 0x07]
    /// ```
    #[inline]
    final fn set_span<R: RangeBounds<u32>>(&mut self, range: R)
        requires fits { ShapeFits Self.Shape self.old }
        requires known { R.has_bounds range }
        requires ordered { start_index (R.start_bound range)
            ≤ end_index (R.end_bound range) (Self.big self.old).capacity }
        requires within { end_index (R.end_bound range) (Self.big self.old).capacity
            ≤ (Self.big self.old).capacity }
        ensures set { let start = start_index (R.start_bound range) in
            let end = end_index (R.end_bound range) (Self.big self.old).capacity in
            set_in Self.Shape Self.Order.Endian self.new
            ≡ with_span (set_in Self.Shape Self.Order.Endian self.old) start end }
        ensures count { let before = set_in Self.Shape Self.Order.Endian self.old in
            let start = start_index (R.start_bound range) in
            let end = end_index (R.end_bound range) (Self.big self.old).capacity in
            size (set_in Self.Shape Self.Order.Endian self.new)
            ≡ size before - (members_below before end - members_below before start)
            + (end - start) }
        ensures all { HasAllIn (set_in Self.Shape Self.Order.Endian self.new)
            (start_index (R.start_bound range))
            (end_index (R.end_bound range) (Self.big self.old).capacity) }
        ensures stays { Self.loan self.old ≡ Self.loan self.new }
    {
        let (from, to) = ends_within::<Self, R>(self, &range);
        self.set_range(from, to);
    }

    /// Clears each bit of the range, with one mask per word.
    ///
    /// ```
    /// let mut row = [0xFFu8; 2];
    /// row.clear_span(..11);                               // row is [0x00, 0xF8]
    /// ```
    #[inline]
    final fn clear_span<R: RangeBounds<u32>>(&mut self, range: R)
        requires fits { ShapeFits Self.Shape self.old }
        requires known { R.has_bounds range }
        requires ordered { start_index (R.start_bound range)
            ≤ end_index (R.end_bound range) (Self.big self.old).capacity }
        requires within { end_index (R.end_bound range) (Self.big self.old).capacity
            ≤ (Self.big self.old).capacity }
        ensures set { let start = start_index (R.start_bound range) in
            let end = end_index (R.end_bound range) (Self.big self.old).capacity in
            set_in Self.Shape Self.Order.Endian self.new
            ≡ without_span (set_in Self.Shape Self.Order.Endian self.old) start end }
        ensures count { let before = set_in Self.Shape Self.Order.Endian self.old in
            let start = start_index (R.start_bound range) in
            let end = end_index (R.end_bound range) (Self.big self.old).capacity in
            size (set_in Self.Shape Self.Order.Endian self.new)
            ≡ size before - (members_below before end - members_below before start) }
        ensures none { NoneIn (set_in Self.Shape Self.Order.Endian self.new)
            (start_index (R.start_bound range))
            (end_index (R.end_bound range) (Self.big self.old).capacity) }
        ensures stays { Self.loan self.old ≡ Self.loan self.new }
    {
        let (from, to) = ends_within::<Self, R>(self, &range);
        self.clear_range(from, to);
    }

    /// Flips each bit of the range, with one mask per word.
    ///
    /// ```
    /// let mut word = 0b0011_1100u8;
    /// word.toggle_span(4..);                              // word is 0b1100_1100
    /// ```
    #[inline]
    final fn toggle_span<R: RangeBounds<u32>>(&mut self, range: R)
        requires fits { ShapeFits Self.Shape self.old }
        requires known { R.has_bounds range }
        requires ordered { start_index (R.start_bound range)
            ≤ end_index (R.end_bound range) (Self.big self.old).capacity }
        requires within { end_index (R.end_bound range) (Self.big self.old).capacity
            ≤ (Self.big self.old).capacity }
        ensures set { let start = start_index (R.start_bound range) in
            let end = end_index (R.end_bound range) (Self.big self.old).capacity in
            set_in Self.Shape Self.Order.Endian self.new
            ≡ with_span_toggled (set_in Self.Shape Self.Order.Endian self.old) start end }
        ensures flipped { let start = start_index (R.start_bound range) in
            let end = end_index (R.end_bound range) (Self.big self.old).capacity in
            (k : ℕ) → start ≤ k → k < end
            → contains (set_in Self.Shape Self.Order.Endian self.new) k
            ≡ not (contains (set_in Self.Shape Self.Order.Endian self.old) k) }
        ensures stays { Self.loan self.old ≡ Self.loan self.new }
    {
        let (from, to) = ends_within::<Self, R>(self, &range);
        self.toggle_range(from, to);
    }

    /// Sets each bit of the range if `value` is `true`, else clears each bit of it, with one mask
    /// per word.
    ///
    /// ```
    /// let mut word = 0b1111_1111u8;
    /// word.assign_span(..=2, false);                      // word is 0b1111_1000
    /// ```
    #[inline]
    final fn assign_span<R: RangeBounds<u32>>(&mut self, range: R, value: bool)
        requires fits { ShapeFits Self.Shape self.old }
        requires known { R.has_bounds range }
        requires ordered { start_index (R.start_bound range)
            ≤ end_index (R.end_bound range) (Self.big self.old).capacity }
        requires within { end_index (R.end_bound range) (Self.big self.old).capacity
            ≤ (Self.big self.old).capacity }
        ensures set { let start = start_index (R.start_bound range) in
            let end = end_index (R.end_bound range) (Self.big self.old).capacity in
            set_in Self.Shape Self.Order.Endian self.new
            ≡ with_span_assigned (set_in Self.Shape Self.Order.Endian self.old) start end value }
        ensures count { let before = set_in Self.Shape Self.Order.Endian self.old in
            let start = start_index (R.start_bound range) in
            let end = end_index (R.end_bound range) (Self.big self.old).capacity in
            size (set_in Self.Shape Self.Order.Endian self.new)
            ≡ size before - (members_below before end - members_below before start)
            + cond value (end - start) 0 }
        ensures each { let start = start_index (R.start_bound range) in
            let end = end_index (R.end_bound range) (Self.big self.old).capacity in
            MatchBool value
            (HasAllIn (set_in Self.Shape Self.Order.Endian self.new) start end)
            (NoneIn (set_in Self.Shape Self.Order.Endian self.new) start end) }
        ensures stays { Self.loan self.old ≡ Self.loan self.new }
    {
        let (from, to) = ends_within::<Self, R>(self, &range);
        self.assign_range(from, to, value);
    }
}

impl<B: BitsMut> BitsSpanMutExt for B {}
