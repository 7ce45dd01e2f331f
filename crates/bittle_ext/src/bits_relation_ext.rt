//! Relations of two sets.

ghost use Rattle.std.specs.Prelude.{ℕ, ◌+◌, ◌≡◌, ◌↔◌, IsTrue, ◌<◌, ◌≤◌, IfSome, max};
ghost use Rattle.bittle_ext.specs.Combined.{both_of, first_only_of, just_one_of};
ghost use Rattle.bittle_ext.specs.SetRelations.{IsSubset, AreDisjoint, Meet};
ghost use Rattle.bittle_ext.specs.SetRelations.{IsFirstAlone, IsFirstCommon};
ghost use Rattle.bittle.specs.PlainSet.{size};
ghost use Rattle.bittle.specs.Values.{set_in, ShapeFits};

use crate::capacities::capacity_of;
use crate::counts::count_common;
use crate::relations::first_below;
use crate::views::of_both::OfBoth;
use bittle::Bits;
use bittle_bits::extension::{Difference, Ones, SymmetricDifference, Zeros, are_alike};

/// Relations of two sets, which may be of different types. Both sets have to fit
/// (`bits_capacity() < u32::MAX`).
///
/// Each set is read in the bit order of its type; a view made by `in_order` has the order that it
/// names. If the words of both sets have the same width and order, the sets are compared word by
/// word. Else a relation searches the two sets in turn, each from where the search of the other
/// stopped, and a count tests each set bit of this set in `other`. The capacities may differ: bits
/// at or past the capacity of a set count as unset. With capacity 0 a set is empty.
///
/// ```
/// let view = 0x80u8.in_order::<LittleEndian>();
/// view.is_subset(&0x8000u16.in_order::<LittleEndian>()); // true: each has index 0
/// ```
pub trait BitsRelationExt: Bits + Sized {
    /// Returns the least index whose bit is set in both sets, or `None` if there is none. Each set
    /// is read in its own bit order. The search stops at the answer.
    ///
    /// ```
    /// 0b0110u8.first_common(&0x0104u16);                  // Some(2)
    /// ```
    #[inline]
    final fn first_common<B: Bits>(&self, other: &B) -> Option<u32>
        requires fits { ShapeFits Self.Shape self.now }
        requires other_fits { ShapeFits B.Shape other.now }
        ensures first { IsFirstCommon (set_in Self.Shape Self.Order.Endian self.now)
            (set_in B.Shape B.Order.Endian other.now) result }
        ensures below { IfSome result (λ index. index < (Self.big self.now).capacity) }
        ensures below_other { IfSome result (λ index. index < (B.big other.now).capacity) }
    {
        let end = capacity_of::<Self, Self::Order>(self).min(capacity_of::<B, B::Order>(other));
        first_below::<Self, B, Self::Order, B::Order, Ones>(self, other, end)
    }

    /// Returns the least index whose bit is set in this set and not in `other`, or `None` if there
    /// is none. Each set is read in its own bit order. The search stops at the answer.
    ///
    /// ```
    /// 0b0110u8.first_alone(&0x0102u16);                   // Some(2)
    /// ```
    #[inline]
    final fn first_alone<B: Bits>(&self, other: &B) -> Option<u32>
        requires fits { ShapeFits Self.Shape self.now }
        requires other_fits { ShapeFits B.Shape other.now }
        ensures first { IsFirstAlone (set_in Self.Shape Self.Order.Endian self.now)
            (set_in B.Shape B.Order.Endian other.now) result }
        ensures below { IfSome result (λ index. index < (Self.big self.now).capacity) }
    {
        let end = capacity_of::<Self, Self::Order>(self);
        let common = end.min(capacity_of::<B, B::Order>(other));
        let found = first_below::<Self, B, Self::Order, B::Order, Zeros>(self, other, common);
        if let Some(index) = found {
            return Some(index);
        }
        // `other` has no bit set at or past its capacity.
        self.first_one_in::<Self::Order>(common, end)
    }

    /// Returns `true` if each set bit of this set is also set in `other`. Each set is read in its
    /// own bit order. The search stops at the first set bit of this set that is not set in `other`.
    ///
    /// ```
    /// 0b0110u8.is_subset(&0x010Fu16);                     // true
    /// ```
    #[inline]
    final fn is_subset<B: Bits>(&self, other: &B) -> bool
        requires fits { ShapeFits Self.Shape self.now }
        requires other_fits { ShapeFits B.Shape other.now }
        ensures subset { let ours = set_in Self.Shape Self.Order.Endian self.now in
            let theirs = set_in B.Shape B.Order.Endian other.now in
            IsTrue result ↔ IsSubset ours theirs }
        ensures at_most { IsTrue result → size (set_in Self.Shape Self.Order.Endian self.now)
            ≤ size (set_in B.Shape B.Order.Endian other.now) }
    {
        self.first_alone(other).is_none()
    }

    /// Returns `true` if each set bit of `other` is also set in this set. Each set is read in its
    /// own bit order. The search stops at the first set bit of `other` that is not set in this set.
    ///
    /// ```
    /// 0b0110u8.is_superset(&0x0106u16);                   // false: index 8 is not in it
    /// ```
    #[inline]
    final fn is_superset<B: Bits>(&self, other: &B) -> bool
        requires fits { ShapeFits Self.Shape self.now }
        requires other_fits { ShapeFits B.Shape other.now }
        ensures superset { let ours = set_in Self.Shape Self.Order.Endian self.now in
            let theirs = set_in B.Shape B.Order.Endian other.now in
            IsTrue result ↔ IsSubset theirs ours }
        ensures at_least { IsTrue result → size (set_in B.Shape B.Order.Endian other.now)
            ≤ size (set_in Self.Shape Self.Order.Endian self.now) }
    {
        other.first_alone(self).is_none()
    }

    /// Returns `true` if there is no index whose bit is set in both sets. Each set is read in its
    /// own bit order. The search stops at the first such index.
    ///
    /// ```
    /// 0b0110u8.is_disjoint(&0b1001u64);                   // true
    /// ```
    #[inline]
    final fn is_disjoint<B: Bits>(&self, other: &B) -> bool
        requires fits { ShapeFits Self.Shape self.now }
        requires other_fits { ShapeFits B.Shape other.now }
        ensures { let ours = set_in Self.Shape Self.Order.Endian self.now in
            let theirs = set_in B.Shape B.Order.Endian other.now in
            IsTrue result ↔ AreDisjoint ours theirs }
    {
        self.first_common(other).is_none()
    }

    /// Returns `true` if there is an index whose bit is set in both sets. Each set is read in its
    /// own bit order. The search stops at the first such index.
    ///
    /// ```
    /// 0b0110u8.intersects(&0b1100u64);                    // true: index 2
    /// ```
    #[inline]
    final fn intersects<B: Bits>(&self, other: &B) -> bool
        requires fits { ShapeFits Self.Shape self.now }
        requires other_fits { ShapeFits B.Shape other.now }
        ensures { let ours = set_in Self.Shape Self.Order.Endian self.now in
            let theirs = set_in B.Shape B.Order.Endian other.now in
            IsTrue result ↔ Meet ours theirs }
    {
        self.first_common(other).is_some()
    }

    /// Counts the indexes whose bits are set in both sets. Each set is read in its own bit order.
    /// No third set is made. If the words of both sets have the same width and order, each word is
    /// read at most once. Else each set bit of this set is tested in `other`.
    ///
    /// ```
    /// 0b0110u8.count_common(&0x0107u16);                  // 2
    /// ```
    #[inline]
    final fn count_common<B: Bits>(&self, other: &B) -> u32
        requires fits { ShapeFits Self.Shape self.now }
        requires other_fits { ShapeFits B.Shape other.now }
        ensures value { let ours = set_in Self.Shape Self.Order.Endian self.now in
            let theirs = set_in B.Shape B.Order.Endian other.now in
            result ≡ size (both_of ours theirs) }
        ensures with_alone { let ours = set_in Self.Shape Self.Order.Endian self.now in
            let theirs = set_in B.Shape B.Order.Endian other.now in
            size (first_only_of ours theirs) + result ≡ size (Self.big self.now) }
        ensures none { let ours = set_in Self.Shape Self.Order.Endian self.now in
            let theirs = set_in B.Shape B.Order.Endian other.now in
            (result ≡ 0) ↔ AreDisjoint ours theirs }
        ensures at_most { result ≤ (Self.big self.now).capacity }
        ensures at_most_ours { result ≤ size (Self.big self.now) }
        ensures at_most_theirs { result ≤ size (B.big other.now) }
        ensures at_most_other { result ≤ (B.big other.now).capacity }
    {
        count_common::<Self, B, Self::Order, B::Order>(self, other)
    }

    /// Counts the indexes whose bits are set in this set and not in `other`. Each set is read in
    /// its own bit order. If the words of both sets have the same width and order, each word is
    /// read at most once. Else the call costs a count of this set and a
    /// [`count_common`](BitsRelationExt::count_common).
    ///
    /// ```
    /// 0b0110u8.count_alone(&0x0104u16);                   // 1: index 1
    /// ```
    #[inline]
    final fn count_alone<B: Bits>(&self, other: &B) -> u32
        requires fits { ShapeFits Self.Shape self.now }
        requires other_fits { ShapeFits B.Shape other.now }
        ensures value { let ours = set_in Self.Shape Self.Order.Endian self.now in
            let theirs = set_in B.Shape B.Order.Endian other.now in
            result ≡ size (first_only_of ours theirs) }
        ensures none { let ours = set_in Self.Shape Self.Order.Endian self.now in
            let theirs = set_in B.Shape B.Order.Endian other.now in
            (result ≡ 0) ↔ IsSubset ours theirs }
        ensures at_most { result ≤ (Self.big self.now).capacity }
        ensures at_most_ours { result ≤ size (Self.big self.now) }
    {
        if are_alike::<Self, B, Self::Order, B::Order>() {
            return OfBoth::<'_, Self, B, Self::Order, B::Order, Difference>::of_first(
                self, other,
            ).count_ones();
        }
        self.count_ones() - count_common::<Self, B, Self::Order, B::Order>(self, other)
    }

    /// Counts the indexes whose bits are set in exactly one of the two sets. Each set is read in
    /// its own bit order. If the words of both sets have the same width and order, each word is
    /// read at most once. Else the call costs a count of each set and a
    /// [`count_common`](BitsRelationExt::count_common).
    ///
    /// ```
    /// 0b0110u8.count_different(&0x0104u16);               // 2: indexes 1 and 8
    /// ```
    #[inline]
    final fn count_different<B: Bits>(&self, other: &B) -> u32
        requires fits { ShapeFits Self.Shape self.now }
        requires other_fits { ShapeFits B.Shape other.now }
        ensures value { let ours = set_in Self.Shape Self.Order.Endian self.now in
            let theirs = set_in B.Shape B.Order.Endian other.now in
            result ≡ size (just_one_of ours theirs) }
        ensures none { let ours = set_in Self.Shape Self.Order.Endian self.now in
            let theirs = set_in B.Shape B.Order.Endian other.now in
            (result ≡ 0) ↔ ((i : ℕ) → ours.has i ≡ theirs.has i) }
        ensures at_most { result ≤ max (Self.big self.now).capacity (B.big other.now).capacity }
    {
        if are_alike::<Self, B, Self::Order, B::Order>() {
            let view = OfBoth::<'_, Self, B, Self::Order, B::Order, SymmetricDifference>::of_alike(
                self, other,
            );
            return view.count_ones();
        }
        let common = count_common::<Self, B, Self::Order, B::Order>(self, other);
        (self.count_ones() - common) + (other.count_ones() - common)
    }
}

impl<B: Bits> BitsRelationExt for B {}
