//! The two ends of a Rust range, such as `2..=6`.

ghost use Rattle.std.specs.Prelude.{◌≡◌, ◌<◌, ◌≤◌};
ghost use Rattle.std.specs.Range.Bound.{start_index, end_index};
ghost use Rattle.bittle_ext.specs.RangeMembers.{EndsAt, IsPartBelow};
ghost use Rattle.bittle.specs.PlainSet.{complement};
ghost use Rattle.bittle.specs.Values.{set_in, ShapeFits};

use crate::capacities::capacity_of;
use bittle::{Bits, Endian};
use std::ops::{Bound, RangeBounds};

/// Returns the first index of a range, and the index after its last one. A range that names no end
/// ends at `capacity`.
#[inline]
pub(crate) fn ends_of<R: RangeBounds<u32>>(range: &R, capacity: u32) -> (u64, u64)
    requires { R.has_bounds range.now }
    ensures start { result.0 ≡ start_index (R.start_bound range.now) }
    ensures end { result.1 ≡ end_index (R.end_bound range.now) capacity }
{
    let start = match range.start_bound() {
        Bound::Included(first) => *first as u64,
        Bound::Excluded(before) => *before as u64 + 1,
        Bound::Unbounded => 0,
    };
    let end = match range.end_bound() {
        Bound::Included(last) => *last as u64 + 1,
        Bound::Excluded(end) => *end as u64,
        Bound::Unbounded => capacity as u64,
    };
    (start, end)
}

/// Returns the two ends of the part of a range that lies below the capacity of a set. The part does
/// not run backwards. The contract adds that the set, read in the order `E`, has no set or unset
/// bit from the capacity on.
#[inline]
pub(crate) fn part_of<B: Bits, E: Endian, R: RangeBounds<u32>>(set: &B, range: &R) -> (u32, u32)
    requires fits { ShapeFits B.Shape set.now }
    requires known { R.has_bounds range.now }
    ensures part { let capacity = (B.big set.now).capacity in
        IsPartBelow capacity (start_index (R.start_bound range.now))
        (end_index (R.end_bound range.now) capacity) result.0 result.1 }
    ensures ends { EndsAt (set_in B.Shape E.Endian set.now) (B.big set.now).capacity }
    ensures others { EndsAt (complement (set_in B.Shape E.Endian set.now))
        (B.big set.now).capacity }
{
    let capacity = capacity_of::<B, E>(set);
    let (from, to) = ends_of(range, capacity);
    let end = to.min(capacity as u64);
    (from.min(end) as u32, end as u32)
}

/// Returns the two ends of a range, which must not run backwards and has to end at or below the
/// capacity of a set.
#[inline]
pub(crate) fn ends_within<B: Bits, R: RangeBounds<u32>>(set: &B, range: &R) -> (u32, u32)
    requires fits { ShapeFits B.Shape set.now }
    requires known { R.has_bounds range.now }
    requires ordered { start_index (R.start_bound range.now)
        ≤ end_index (R.end_bound range.now) (B.big set.now).capacity }
    requires within { end_index (R.end_bound range.now) (B.big set.now).capacity
        ≤ (B.big set.now).capacity }
    ensures start { result.0 ≡ start_index (R.start_bound range.now) }
    ensures end { result.1 ≡ end_index (R.end_bound range.now) (B.big set.now).capacity }
{
    let (from, to) = ends_of(range, set.bits_capacity());
    (from as u32, to as u32)
}
