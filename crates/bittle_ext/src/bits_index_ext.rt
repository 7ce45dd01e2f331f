//! Indexes that do not wrap: calls on one bit that refuse an index at or past the capacity.

ghost use Rattle.std.specs.Option.{is_some};
ghost use Rattle.std.specs.Prelude.{◌≡◌, ◌+◌, ◌<◌, ◌↔◌, cond, min, not, false, true};
ghost use Rattle.std.specs.Prelude.{IfSome, IsTrue, MatchOption};
ghost use Rattle.bittle.specs.PlainSet.{contains, size, with_index, without_index};
ghost use Rattle.bittle.specs.Values.{set_in, ShapeFits};

use crate::bits_mut_ext::BitsMutExt;
use bittle::{Bits, BitsMut};

/// Questions about one bit, by an index that does not wrap.
///
/// If an index is at or past the capacity, these calls return `false` or `None`, while `test_bit`
/// tests the bit that the index wraps to. Each call costs O(1). The type has to fit
/// (`bits_capacity() < u32::MAX`). For a slice, only its element type has to fit. If a slice has
/// `u32::MAX` bits or more, the index `u32::MAX` is refused too.
///
/// The bit order (big- or little-endian) is that of the type; for another order, use the view that
/// [`in_order`](crate::BitsViewExt::in_order) returns.
pub trait BitsIndexExt: Bits + Sized {
    /// Returns `true` if the bit at `index` is set. It returns `false` if the bit is unset, or if
    /// `index` is at or past the capacity, as every index is with capacity 0.
    ///
    /// ```
    /// 0b0110u8.contains_index(2);                         // true
    /// 0b0110u8.contains_index(10);                        // false, where test_bit(10) is true
    /// ```
    #[inline]
    #[tactic(auto, using(bittle::proofs::CallerSets::contains_within))]
    final fn contains_index(&self, index: u32) -> bool
        requires { IsTrue Self.indexable }
        ensures value { ShapeFits Self.Shape self.now
            → result ≡ (set_in Self.Shape Self.Order.Endian self.now).has index }
        ensures until_last { index < 4294967295
            → result ≡ (set_in Self.Shape Self.Order.Endian self.now).has index }
        ensures contains { index < 4294967295 → index < (Self.big self.now).capacity
            → result ≡ contains (set_in Self.Shape Self.Order.Endian self.now) index }
        ensures below { IsTrue result → index < min (Self.big self.now).capacity 4294967295 }
    {
        index < self.bits_capacity() && self.test_bit_in::<Self::Order>(index)
    }

    /// Returns whether the bit at `index` is set, or `None` if `index` is at or past the capacity,
    /// as every index is with capacity 0.
    ///
    /// ```
    /// 0b0110u8.get_bit(3);                                // Some(false)
    /// 0b0110u8.get_bit(8);                                // None
    /// ```
    #[inline]
    #[tactic(auto, using(bittle::proofs::CallerSets::contains_within))]
    final fn get_bit(&self, index: u32) -> Option<bool>
        requires { IsTrue Self.indexable }
        ensures within { IsTrue (is_some result)
            ↔ index < min (Self.big self.now).capacity 4294967295 }
        ensures value { IfSome result
            (λ bit. bit ≡ (set_in Self.Shape Self.Order.Endian self.now).has index) }
        ensures contains { IfSome result
            (λ bit. bit ≡ contains (set_in Self.Shape Self.Order.Endian self.now) index) }
    {
        if index < self.bits_capacity() {
            Some(self.test_bit_in::<Self::Order>(index))
        } else {
            None
        }
    }
}

/// Changes of one bit, by an index that does not wrap.
///
/// If an index is at or past the capacity, nothing changes, and the call returns `false` or `None`.
/// Each call costs O(1). The type has to fit (`bits_capacity() < u32::MAX`). For a slice, only its
/// element type has to fit. If a slice has `u32::MAX` bits or more, the index `u32::MAX` is refused
/// too.
///
/// The bit order (big- or little-endian) is that of the type; for another order, use the view that
/// [`in_order_mut`](crate::BitsMutViewExt::in_order_mut) returns.
pub trait BitsIndexMutExt: BitsMut + Sized {
    /// Sets the bit at `index` and returns `true`. If `index` is at or past the capacity, as every
    /// index is with capacity 0, it changes nothing and returns `false`.
    ///
    /// ```
    /// let mut word = 0b0001u8;
    /// word.try_set_bit(3);                                // true: word is 0b1001
    /// word.try_set_bit(65);                               // false: there is no bit 65
    /// ```
    #[inline]
    final fn try_set_bit(&mut self, index: u32) -> bool
        requires { IsTrue Self.indexable }
        ensures within { IsTrue result ↔ index < min (Self.big self.old).capacity 4294967295 }
        ensures set { let before = set_in Self.Shape Self.Order.Endian self.old in
            set_in Self.Shape Self.Order.Endian self.new
            ≡ cond result (with_index before index) before }
        ensures has { IsTrue result
            → (set_in Self.Shape Self.Order.Endian self.new).has index ≡ true }
        ensures stays { Self.loan self.old ≡ Self.loan self.new }
    {
        if index < self.bits_capacity() {
            self.set_bit_in::<Self::Order>(index);
            true
        } else {
            false
        }
    }

    /// Clears the bit at `index` and returns `true`. If `index` is at or past the capacity, as
    /// every index is with capacity 0, it changes nothing and returns `false`.
    ///
    /// ```
    /// let mut word = 0b1001u8;
    /// word.try_clear_bit(3);                              // true: word is 0b0001
    /// word.try_clear_bit(8);                              // false: there is no bit 8
    /// ```
    #[inline]
    final fn try_clear_bit(&mut self, index: u32) -> bool
        requires { IsTrue Self.indexable }
        ensures within { IsTrue result ↔ index < min (Self.big self.old).capacity 4294967295 }
        ensures set { let before = set_in Self.Shape Self.Order.Endian self.old in
            set_in Self.Shape Self.Order.Endian self.new
            ≡ cond result (without_index before index) before }
        ensures lacks { IsTrue result
            → (set_in Self.Shape Self.Order.Endian self.new).has index ≡ false }
        ensures stays { Self.loan self.old ≡ Self.loan self.new }
    {
        if index < self.bits_capacity() {
            self.clear_bit_in::<Self::Order>(index);
            true
        } else {
            false
        }
    }

    /// Sets the bit at `index` and returns whether it was unset. If `index` is at or past the
    /// capacity, as every index is with capacity 0, it changes nothing and returns `None`.
    ///
    /// ```
    /// let mut seen = 0b0001u8;
    /// seen.try_insert(3);                                 // Some(true): seen is 0b1001
    /// seen.try_insert(0);                                 // Some(false): it was set
    /// seen.try_insert(65);                                // None: there is no bit 65
    /// ```
    #[inline]
    #[tactic(auto, using(bittle::proofs::CallerSets::contains_within))]
    final fn try_insert(&mut self, index: u32) -> Option<bool>
        requires { IsTrue Self.indexable }
        ensures within { IsTrue (is_some result)
            ↔ index < min (Self.big self.old).capacity 4294967295 }
        ensures was_unset { IfSome result (λ unset.
            unset ≡ not ((set_in Self.Shape Self.Order.Endian self.old).has index)) }
        ensures has { IfSome result (λ _.
            (set_in Self.Shape Self.Order.Endian self.new).has index ≡ true) }
        ensures set { let before = set_in Self.Shape Self.Order.Endian self.old in
            set_in Self.Shape Self.Order.Endian self.new
            ≡ cond (is_some result) (with_index before index) before }
        ensures count { let before = size (set_in Self.Shape Self.Order.Endian self.old) in
            let after = size (set_in Self.Shape Self.Order.Endian self.new) in
            MatchOption result (after ≡ before) (λ unset. after ≡ before + cond unset 1 0) }
        ensures stays { Self.loan self.old ≡ Self.loan self.new }
    {
        if index < self.bits_capacity() {
            Some(self.insert(index))
        } else {
            None
        }
    }

    /// Clears the bit at `index` and returns whether it was set. If `index` is at or past the
    /// capacity, as every index is with capacity 0, it changes nothing and returns `None`.
    ///
    /// ```
    /// let mut seen = 0b1001u8;
    /// seen.try_remove(3);                                 // Some(true): seen is 0b0001
    /// seen.try_remove(3);                                 // Some(false): it was unset
    /// seen.try_remove(8);                                 // None: there is no bit 8
    /// ```
    #[inline]
    #[tactic(auto, using(bittle::proofs::CallerSets::contains_within))]
    final fn try_remove(&mut self, index: u32) -> Option<bool>
        requires { IsTrue Self.indexable }
        ensures within { IsTrue (is_some result)
            ↔ index < min (Self.big self.old).capacity 4294967295 }
        ensures was_set { IfSome result (λ set.
            set ≡ (set_in Self.Shape Self.Order.Endian self.old).has index) }
        ensures lacks { IfSome result (λ _.
            (set_in Self.Shape Self.Order.Endian self.new).has index ≡ false) }
        ensures set { let before = set_in Self.Shape Self.Order.Endian self.old in
            set_in Self.Shape Self.Order.Endian self.new
            ≡ cond (is_some result) (without_index before index) before }
        ensures count { let before = size (set_in Self.Shape Self.Order.Endian self.old) in
            let after = size (set_in Self.Shape Self.Order.Endian self.new) in
            MatchOption result (before ≡ after) (λ set. before ≡ after + cond set 1 0) }
        ensures stays { Self.loan self.old ≡ Self.loan self.new }
    {
        if index < self.bits_capacity() {
            Some(self.remove(index))
        } else {
            None
        }
    }
}

impl<B: Bits> BitsIndexExt for B {}

impl<B: BitsMut> BitsIndexMutExt for B {}
