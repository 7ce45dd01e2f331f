//! Everyday calls that change a set.

ghost use Rattle.std.specs.Prelude.{◌≡◌, ◌+◌, ◌-◌, ◌<◌, ◌≤◌, ℕ, Bool, List, cond, length, not};
ghost use Rattle.std.specs.Prelude.{IsTrue, true, false, IfSome, MatchBool, MatchOption};
ghost use Rattle.std.specs.Iterator.{Drains, IsFinite};
ghost use Rattle.std.specs.Iterator.Runs.{WholeRun};
ghost use Rattle.std.specs.List.{fold};
ghost use Rattle.bittle_ext.specs.SetRelations.{IsSubset};
ghost use Rattle.bittle_ext.specs.Runs.{IsFirstRun};
ghost use Rattle.bittle_ext.specs.Calls.{IsCallableBelow};
ghost use Rattle.bittle_ext.specs.Changes.{with_index_assigned, with_index_toggled};
ghost use Rattle.bittle_ext.specs.Changes.{with_span_assigned, Retains};
ghost use Rattle.bittle.specs.PlainSet.{contains, complement, members_below, size};
ghost use Rattle.bittle.specs.PlainSet.{with_index, without_index};
ghost use Rattle.bittle.specs.PlainSet.{with_span, without_span, with_span_toggled};
ghost use Rattle.bittle.specs.Searches.{IsFirstIn, IsLastIn, NoneIn};
ghost use Rattle.bittle_ext.specs.RangeMembers.{HasAllIn};
ghost use Rattle.bittle.specs.Values.{set_in, set_mirrored, ShapeFits};

use crate::bits_ext::BitsExt;
use crate::inserted::insert_each;
use crate::one_bit;
use crate::retained::retain;
use bittle::{BigEndian, BitsMut};
use bittle_bits::extension::{
    Difference, Ones, SymmetricDifference, Union, Zeros, first_from, last_of,
};

/// Everyday changes of any set that can be changed. No change alters the capacity. A call that
/// changes the bit at a given index costs O(1). A shape or type fits if its capacity, and that of
/// each array type within it, is below `u32::MAX`. The bit order (big- or little-endian) is that of
/// the type; for another order, use the view that
/// [`in_order_mut`](crate::BitsMutViewExt::in_order_mut) returns.
pub trait BitsMutExt: BitsMut + Sized {
    /// Sets the bit at `index`, and returns `true` if the bit was unset before. Indexes follow the
    /// bit order of the type, and an index at or past the capacity wraps. With capacity 0 nothing
    /// changes, and the call returns `true`.
    ///
    /// The type has to fit. For a slice, only its element type has to fit.
    ///
    /// ```
    /// let mut row = [0u16, 1];
    /// row.insert(16);                                     // false: it was set
    /// row.insert(33);                                     // true: 33 wraps to 1, row is [2, 1]
    /// ```
    #[inline]
    #[tactic(auto, using(bittle::proofs::CallerChanges::contains_after_set))]
    final fn insert(&mut self, index: u32) -> bool
        requires { IsTrue Self.indexable }
        ensures was_unset { result
            ≡ not (contains (set_in Self.Shape Self.Order.Endian self.old) index) }
        ensures set { set_in Self.Shape Self.Order.Endian self.new
            ≡ with_index (set_in Self.Shape Self.Order.Endian self.old) index }
        ensures here { 0 < (Self.big self.old).capacity
            → contains (set_in Self.Shape Self.Order.Endian self.new) index ≡ true }
        ensures count { 0 < (Self.big self.old).capacity
            → size (set_in Self.Shape Self.Order.Endian self.new)
            ≡ size (set_in Self.Shape Self.Order.Endian self.old) + cond result 1 0 }
        ensures stays { Self.loan self.old ≡ Self.loan self.new }
    {
        if one_bit::has_bits(self) {
            return !one_bit::combine_bit::<Self, Self::Order, Union>(self, index);
        }
        let was_unset = !self.test_bit_in::<Self::Order>(index);
        self.set_bit_in::<Self::Order>(index);
        was_unset
    }

    /// Clears the bit at `index`, and returns `true` if the bit was set before. Indexes follow the
    /// bit order of the type, and an index at or past the capacity wraps. With capacity 0 nothing
    /// changes, and the call returns `false`.
    ///
    /// The type has to fit. For a slice, only its element type has to fit.
    ///
    /// ```
    /// let mut row = [0u16, 1];
    /// row.remove(16);                                     // true: row is [0, 0]
    /// row.remove(16);                                     // false: it was unset
    /// ```
    #[inline]
    #[tactic(auto, using(bittle::proofs::CallerChanges::contains_after_clear))]
    final fn remove(&mut self, index: u32) -> bool
        requires { IsTrue Self.indexable }
        ensures was_set { result ≡ contains (set_in Self.Shape Self.Order.Endian self.old) index }
        ensures set { set_in Self.Shape Self.Order.Endian self.new
            ≡ without_index (set_in Self.Shape Self.Order.Endian self.old) index }
        ensures here { contains (set_in Self.Shape Self.Order.Endian self.new) index ≡ false }
        ensures count { 0 < (Self.big self.old).capacity
            → size (set_in Self.Shape Self.Order.Endian self.old)
            ≡ size (set_in Self.Shape Self.Order.Endian self.new) + cond result 1 0 }
        ensures stays { Self.loan self.old ≡ Self.loan self.new }
    {
        if one_bit::has_bits(self) {
            return one_bit::combine_bit::<Self, Self::Order, Difference>(self, index);
        }
        let was_set = self.test_bit_in::<Self::Order>(index);
        self.clear_bit_in::<Self::Order>(index);
        was_set
    }

    /// Sets the bit at `index` if `value` is `true`, else clears it. Indexes follow the bit order
    /// of the type, and an index at or past the capacity wraps. With capacity 0 nothing changes.
    ///
    /// The type has to fit. For a slice, only its element type has to fit.
    ///
    /// ```
    /// let mut word = 0b0001u8;
    /// word.assign(1, true);                               // word is 0b0011
    /// ```
    #[inline]
    #[tactic(auto, using(bittle::proofs::CallerChanges::contains_after_set, bittle::proofs::CallerChanges::contains_after_clear))]
    final fn assign(&mut self, index: u32, value: bool)
        requires { IsTrue Self.indexable }
        ensures set { set_in Self.Shape Self.Order.Endian self.new
            ≡ with_index_assigned (set_in Self.Shape Self.Order.Endian self.old) index value }
        ensures here { 0 < (Self.big self.old).capacity
            → contains (set_in Self.Shape Self.Order.Endian self.new) index ≡ value }
        ensures stays { Self.loan self.old ≡ Self.loan self.new }
    {
        if value {
            self.set_bit_in::<Self::Order>(index);
        } else {
            self.clear_bit_in::<Self::Order>(index);
        }
    }

    /// Sets the bit at `index` if `value` is `true`, else clears it. Returns `true` if the bit was
    /// set before. Indexes follow the bit order of the type, and an index at or past the capacity
    /// wraps. With capacity 0 nothing changes, and the call returns `false`.
    ///
    /// The type has to fit. For a slice, only its element type has to fit.
    ///
    /// ```
    /// let mut word = 0b0001u8;
    /// word.replace(0, false);                             // true: word is 0
    /// ```
    #[inline]
    final fn replace(&mut self, index: u32, value: bool) -> bool
        requires { IsTrue Self.indexable }
        ensures was_set { result ≡ contains (set_in Self.Shape Self.Order.Endian self.old) index }
        ensures set { set_in Self.Shape Self.Order.Endian self.new
            ≡ with_index_assigned (set_in Self.Shape Self.Order.Endian self.old) index value }
        ensures here { 0 < (Self.big self.old).capacity
            → contains (set_in Self.Shape Self.Order.Endian self.new) index ≡ value }
        ensures count { 0 < (Self.big self.old).capacity
            → size (set_in Self.Shape Self.Order.Endian self.new) + cond result 1 0
            ≡ size (set_in Self.Shape Self.Order.Endian self.old) + cond value 1 0 }
        ensures stays { Self.loan self.old ≡ Self.loan self.new }
    {
        if value {
            !self.insert(index)
        } else {
            self.remove(index)
        }
    }

    /// Flips the bit at `index`. Indexes follow the bit order of the type, and an index at or past
    /// the capacity wraps. With capacity 0 nothing changes.
    ///
    /// The type has to fit. For a slice, only its element type has to fit.
    ///
    /// ```
    /// let mut row = [0u8; 2];
    /// row.toggle(9);                                      // row is [0, 2]
    /// ```
    #[inline]
    #[tactic(auto, using(crate::proofs::CallerMembers::contains_after_toggle))]
    final fn toggle(&mut self, index: u32)
        requires { IsTrue Self.indexable }
        ensures set { set_in Self.Shape Self.Order.Endian self.new
            ≡ with_index_toggled (set_in Self.Shape Self.Order.Endian self.old) index }
        ensures here { let before = set_in Self.Shape Self.Order.Endian self.old in
            0 < before.capacity → contains (set_in Self.Shape Self.Order.Endian self.new) index
            ≡ not (contains before index) }
        ensures stays { Self.loan self.old ≡ Self.loan self.new }
    {
        if one_bit::has_bits(self) {
            one_bit::combine_bit::<Self, Self::Order, SymmetricDifference>(self, index);
        } else {
            let value = !self.test_bit_in::<Self::Order>(index);
            self.assign(index, value);
        }
    }

    /// Sets every bit with an index in `from..to` if `value` is `true`, else clears every such bit,
    /// with one mask per word. Indexes follow the bit order of the type.
    ///
    /// The shape has to fit (`bits_capacity() < u32::MAX`), and `from <= to <= capacity`: no index
    /// wraps. Only the words of the range are written. An empty range changes nothing; with
    /// capacity 0 only an empty range is allowed.
    ///
    /// ```
    /// let mut word = 0b1111_1111u8;
    /// word.assign_range(0, 3, false);                     // word is 0b1111_1000
    /// ```
    #[inline]
    final fn assign_range(&mut self, from: u32, to: u32, value: bool)
        requires fits { ShapeFits Self.Shape self.old }
        requires ordered { from ≤ to }
        requires within { to ≤ (Self.big self.old).capacity }
        ensures set { set_in Self.Shape Self.Order.Endian self.new
            ≡ with_span_assigned (set_in Self.Shape Self.Order.Endian self.old) from to value }
        ensures count { let before = set_in Self.Shape Self.Order.Endian self.old in
            size (set_in Self.Shape Self.Order.Endian self.new)
            ≡ size before - (members_below before to - members_below before from)
            + cond value (to - from) 0 }
        ensures each { MatchBool value
            (HasAllIn (set_in Self.Shape Self.Order.Endian self.new) from to)
            (NoneIn (set_in Self.Shape Self.Order.Endian self.new) from to) }
        ensures stays { Self.loan self.old ≡ Self.loan self.new }
    {
        if value {
            self.set_range(from, to);
        } else {
            self.clear_range(from, to);
        }
    }

    /// Flips every bit, with one mask per word. The set becomes its complement in both orders.
    ///
    /// The shape has to fit (`bits_capacity() < u32::MAX`). With capacity 0 nothing changes.
    ///
    /// ```
    /// let mut row = [0xFFu8, 0x0F];
    /// row.complement_assign();                            // row is [0x00, 0xF0]
    /// ```
    #[inline]
    final fn complement_assign(&mut self)
        requires { ShapeFits Self.Shape self.old }
        ensures set { Self.big self.new ≡ complement (Self.big self.old) }
        ensures in_own_order { set_in Self.Shape Self.Order.Endian self.new
            ≡ complement (set_in Self.Shape Self.Order.Endian self.old) }
        ensures in_each_order { (mirrored : Bool) → set_mirrored Self.Shape mirrored self.new
            ≡ complement (set_mirrored Self.Shape mirrored self.old) }
        ensures count { size (Self.big self.new) + size (Self.big self.old)
            ≡ (Self.big self.old).capacity }
        ensures stays { Self.loan self.old ≡ Self.loan self.new }
    {
        let capacity = self.bits_capacity();
        self.toggle_range_in::<BigEndian>(0, capacity);
    }

    /// Clears the set bit with the least index, and returns this index. Indexes follow the bit
    /// order of the type. If no bit is set, as with capacity 0, nothing changes, and the call
    /// returns `None`.
    ///
    /// The shape has to fit (`bits_capacity() < u32::MAX`). The words up to the answer are read,
    /// and the word of the answer once more.
    ///
    /// ```
    /// let mut row = [0x00u8, 0x81];
    /// row.pop_first();                                    // Some(8): row is [0x00, 0x80]
    /// ```
    #[inline]
    final fn pop_first(&mut self) -> Option<u32>
        requires { ShapeFits Self.Shape self.old }
        ensures least { let before = set_in Self.Shape Self.Order.Endian self.old in
            IsFirstIn before 0 before.capacity result }
        ensures set { MatchOption result (self.new ≡ self.old)
            (λ index. set_in Self.Shape Self.Order.Endian self.new
            ≡ without_index (set_in Self.Shape Self.Order.Endian self.old) index) }
        ensures fewer { MatchOption result
            (size (set_in Self.Shape Self.Order.Endian self.old) ≡ 0)
            (λ index. size (set_in Self.Shape Self.Order.Endian self.new) + 1
            ≡ size (set_in Self.Shape Self.Order.Endian self.old)) }
        ensures was_set { IfSome result (λ index.
            contains (set_in Self.Shape Self.Order.Endian self.old) index ≡ true) }
        ensures gone { IfSome result (λ index.
            contains (set_in Self.Shape Self.Order.Endian self.new) index ≡ false) }
        ensures stays { Self.loan self.old ≡ Self.loan self.new }
    {
        let first = first_from::<Self, Self::Order, Ones>(&*self, 0)?;
        one_bit::flip_first::<Self, Self::Order, Ones>(self, first);
        Some(first)
    }

    /// Clears the set bit with the greatest index, and returns this index. Indexes follow the bit
    /// order of the type. If no bit is set, as with capacity 0, nothing changes, and the call
    /// returns `None`.
    ///
    /// The shape has to fit (`bits_capacity() < u32::MAX`). The words are read backward from the
    /// last one, down to the answer, and the word of the answer once more.
    ///
    /// ```
    /// let mut row = [0x00u8, 0x81];
    /// row.pop_last();                                     // Some(15): row is [0x00, 0x01]
    /// ```
    #[inline]
    final fn pop_last(&mut self) -> Option<u32>
        requires { ShapeFits Self.Shape self.old }
        ensures greatest { let before = set_in Self.Shape Self.Order.Endian self.old in
            IsLastIn before 0 before.capacity result }
        ensures set { MatchOption result (self.new ≡ self.old)
            (λ index. set_in Self.Shape Self.Order.Endian self.new
            ≡ without_index (set_in Self.Shape Self.Order.Endian self.old) index) }
        ensures fewer { MatchOption result
            (size (set_in Self.Shape Self.Order.Endian self.old) ≡ 0)
            (λ index. size (set_in Self.Shape Self.Order.Endian self.new) + 1
            ≡ size (set_in Self.Shape Self.Order.Endian self.old)) }
        ensures was_set { IfSome result (λ index.
            contains (set_in Self.Shape Self.Order.Endian self.old) index ≡ true) }
        ensures gone { IfSome result (λ index.
            contains (set_in Self.Shape Self.Order.Endian self.new) index ≡ false) }
        ensures stays { Self.loan self.old ≡ Self.loan self.new }
    {
        let last = last_of::<Self, Self::Order, Ones>(&*self)?;
        one_bit::combine_within::<Self, Self::Order, Difference>(self, last);
        Some(last)
    }

    /// Sets the unset bit with the least index, and returns this index, as an allocator of slots
    /// does. Indexes follow the bit order of the type. If no bit is unset, as with capacity 0,
    /// nothing changes, and the call returns `None`.
    ///
    /// The shape has to fit (`bits_capacity() < u32::MAX`). The words up to the answer are read,
    /// and the word of the answer once more.
    ///
    /// ```
    /// let mut row = [0xFFu8, 0x0F];
    /// row.take_first_zero();                              // Some(12): row is [0xFF, 0x1F]
    /// ```
    #[inline]
    final fn take_first_zero(&mut self) -> Option<u32>
        requires { ShapeFits Self.Shape self.old }
        ensures least { let before = complement (set_in Self.Shape Self.Order.Endian self.old) in
            IsFirstIn before 0 before.capacity result }
        ensures set { MatchOption result (self.new ≡ self.old)
            (λ index. set_in Self.Shape Self.Order.Endian self.new
            ≡ with_index (set_in Self.Shape Self.Order.Endian self.old) index) }
        ensures more { MatchOption result
            (size (set_in Self.Shape Self.Order.Endian self.old) ≡ (Self.big self.old).capacity)
            (λ index. size (set_in Self.Shape Self.Order.Endian self.new)
            ≡ size (set_in Self.Shape Self.Order.Endian self.old) + 1) }
        ensures was_unset { IfSome result (λ index.
            contains (set_in Self.Shape Self.Order.Endian self.old) index ≡ false) }
        ensures taken { IfSome result (λ index.
            contains (set_in Self.Shape Self.Order.Endian self.new) index ≡ true) }
        ensures stays { Self.loan self.old ≡ Self.loan self.new }
    {
        let free = first_from::<Self, Self::Order, Zeros>(&*self, 0)?;
        one_bit::flip_first::<Self, Self::Order, Zeros>(self, free);
        Some(free)
    }

    /// Sets the bits of the first run of `length` unset bits, and returns the least index of the
    /// run, as an allocator of runs does. Indexes follow the bit order of the type. If there is no
    /// such run, nothing changes, and the call returns `None`. With `length` 0 nothing changes, and
    /// it returns `Some(0)`.
    ///
    /// The shape has to fit (`bits_capacity() < u32::MAX`). The search costs what
    /// [`next_zero_run`](crate::BitsExt::next_zero_run) costs.
    ///
    /// ```
    /// let mut word = 0b0100_1101u8;
    /// word.take_first_zero_run(2);                        // Some(4): word is 0b0111_1101
    /// ```
    #[inline]
    final fn take_first_zero_run(&mut self, length: u32) -> Option<u32>
        requires { ShapeFits Self.Shape self.old }
        ensures first { IsFirstRun (complement (set_in Self.Shape Self.Order.Endian self.old)) 0
            length result }
        ensures set { MatchOption result (self.new ≡ self.old)
            (λ from. set_in Self.Shape Self.Order.Endian self.new
            ≡ with_span (set_in Self.Shape Self.Order.Endian self.old) from (from + length)) }
        ensures more { MatchOption result (self.new ≡ self.old)
            (λ from. size (set_in Self.Shape Self.Order.Endian self.new)
            ≡ size (set_in Self.Shape Self.Order.Endian self.old) + length) }
        ensures was_free { IfSome result (λ from.
            NoneIn (set_in Self.Shape Self.Order.Endian self.old) from (from + length)) }
        ensures taken { IfSome result (λ from.
            HasAllIn (set_in Self.Shape Self.Order.Endian self.new) from (from + length)) }
        ensures stays { Self.loan self.old ≡ Self.loan self.new }
    {
        let from = self.first_zero_run(length)?;
        self.set_range_in::<Self::Order>(from, from + length);
        Some(from)
    }

    /// Calls `keep` once with the index of each set bit, from the least index to the greatest.
    /// Clears each bit for which `keep` returns `false`. Indexes follow the bit order of the type.
    /// With capacity 0 it makes no call, and nothing changes.
    ///
    /// The shape has to fit (`bits_capacity() < u32::MAX`), and `keep` has to be callable with each
    /// index below the capacity, and again after each such call. Words that the set knows to have
    /// no set bit, without reading them, are skipped. Each other word is read once, and is written
    /// once if one of its bits is cleared. Each set bit costs a call of `keep`.
    ///
    /// ```
    /// let mut row = [0x07u8, 0x81];
    /// row.retain(|index| index % 2 == 0);                 // row is [0x05, 0x01]
    /// ```
    #[inline]
    final fn retain<F: FnMut(u32) -> bool>(&mut self, keep: F)
        requires fits { ShapeFits Self.Shape self.old }
        requires callable { IsCallableBelow (Self.big self.old).capacity F.FnMut keep }
        ensures set { Retains F.step keep (set_in Self.Shape Self.Order.Endian self.old)
            (set_in Self.Shape Self.Order.Endian self.new) }
        ensures at_most { size (set_in Self.Shape Self.Order.Endian self.new)
            ≤ size (set_in Self.Shape Self.Order.Endian self.old) }
        ensures subset { IsSubset (set_in Self.Shape Self.Order.Endian self.new)
            (set_in Self.Shape Self.Order.Endian self.old) }
        ensures stays { Self.loan self.old ≡ Self.loan self.new }
    {
        retain::<Self, Self::Order, F>(self, keep);
    }

    /// Sets the bit at each index of the slice `indexes`. Indexes follow the bit order of the type,
    /// and an index at or past the capacity wraps. With capacity 0 nothing changes.
    ///
    /// The type has to fit. For a slice, only its element type has to fit. Each index costs
    /// O(1).
    ///
    /// ```
    /// let mut row = [0u8; 2];
    /// row.insert_all(&[0, 7, 9]);                         // row is [0x81, 0x02]
    /// ```
    #[inline]
    final fn insert_all(&mut self, indexes: &[u32])
        requires { IsTrue Self.indexable }
        ensures set { set_in Self.Shape Self.Order.Endian self.new
            ≡ fold with_index (set_in Self.Shape Self.Order.Endian self.old) indexes.now }
        ensures at_most { size (set_in Self.Shape Self.Order.Endian self.new)
            ≤ size (set_in Self.Shape Self.Order.Endian self.old) + length indexes.now }
        ensures at_least { size (set_in Self.Shape Self.Order.Endian self.old)
            ≤ size (set_in Self.Shape Self.Order.Endian self.new) }
        ensures stays { Self.loan self.old ≡ Self.loan self.new }
    {
        for index in indexes {
            self.set_bit_in::<Self::Order>(*index);
        }
    }

    /// Sets the bit at each index of `indexes`, which is an array, a `Vec`, a range or an iterator.
    /// Indexes follow the bit order of the type, and an index at or past the capacity wraps. With
    /// capacity 0 nothing changes.
    ///
    /// The type has to fit. For a slice, only its element type has to fit. `next` of the iterator
    /// has to be callable, and the iterator has to end. Each index costs O(1).
    ///
    /// ```
    /// let mut row = [0u8; 2];
    /// row.extend(0b0010_0001u8.iter_ones());              // row is [0x21, 0x00]
    /// row.extend([1, 8]);                                 // row is [0x23, 0x01]
    /// ```
    #[inline]
    final fn extend<I: IntoIterator<Item = u32>>(&mut self, indexes: I)
        requires indexable { IsTrue Self.indexable }
        requires can { (iter : I.IntoIter) → I.into_iter_gives indexes iter
            → I.IntoIter.can_next iter }
        requires finite { (iter : I.IntoIter) → I.into_iter_gives indexes iter
            → IsFinite (I.IntoIter.remaining iter) }
        ensures set { (iter : I.IntoIter) × I.into_iter_gives indexes iter × (items : List ℕ)
            × Drains I.IntoIter.next_gives iter items
            × (set_in Self.Shape Self.Order.Endian self.new
            ≡ fold with_index (set_in Self.Shape Self.Order.Endian self.old) items) }
        ensures runs { (iter : I.IntoIter) × I.into_iter_gives indexes iter
            × WholeRun I.IntoIter.next_gives iter
            (λ run. set_in Self.Shape Self.Order.Endian self.new
            ≡ fold with_index (set_in Self.Shape Self.Order.Endian self.old) run.items) }
        ensures at_least { size (set_in Self.Shape Self.Order.Endian self.old)
            ≤ size (set_in Self.Shape Self.Order.Endian self.new) }
        ensures stays { Self.loan self.old ≡ Self.loan self.new }
    {
        insert_each::<Self, Self::Order, I::IntoIter>(self, indexes.into_iter());
    }

    /// Sets the bits `from..to`. Indexes follow the bit order of the type. All else is as with
    /// [`set_range_in`](bittle::BitsMut::set_range_in).
    ///
    /// ```
    /// let mut row = [0u8; 2];
    /// row.set_range(6, 11);                               // row is [0xC0, 0x07]
    /// ```
    #[inline]
    final fn set_range(&mut self, from: u32, to: u32)
        requires fits { ShapeFits Self.Shape self.old }
        requires ordered { from ≤ to }
        requires within { to ≤ (Self.big self.old).capacity }
        ensures set { set_in Self.Shape Self.Order.Endian self.new
            ≡ with_span (set_in Self.Shape Self.Order.Endian self.old) from to }
        ensures count { let before = set_in Self.Shape Self.Order.Endian self.old in
            size (set_in Self.Shape Self.Order.Endian self.new)
            ≡ size before - (members_below before to - members_below before from) + (to - from) }
        ensures grows { let before = set_in Self.Shape Self.Order.Endian self.old in
            NoneIn before from to → size (set_in Self.Shape Self.Order.Endian self.new)
            ≡ size before + (to - from) }
        ensures all { HasAllIn (set_in Self.Shape Self.Order.Endian self.new) from to }
        ensures stays { Self.loan self.old ≡ Self.loan self.new }
    {
        self.set_range_in::<Self::Order>(from, to);
    }

    /// Clears the bits `from..to`. Indexes follow the bit order of the type. All else is as with
    /// [`clear_range_in`](bittle::BitsMut::clear_range_in).
    ///
    /// ```
    /// let mut row = [0xFFu8; 2];
    /// row.clear_range(6, 11);                             // row is [0x3F, 0xF8]
    /// ```
    #[inline]
    final fn clear_range(&mut self, from: u32, to: u32)
        requires fits { ShapeFits Self.Shape self.old }
        requires ordered { from ≤ to }
        requires within { to ≤ (Self.big self.old).capacity }
        ensures set { set_in Self.Shape Self.Order.Endian self.new
            ≡ without_span (set_in Self.Shape Self.Order.Endian self.old) from to }
        ensures count { let before = set_in Self.Shape Self.Order.Endian self.old in
            size (set_in Self.Shape Self.Order.Endian self.new)
            ≡ size before - (members_below before to - members_below before from) }
        ensures shrinks { let before = set_in Self.Shape Self.Order.Endian self.old in
            HasAllIn before from to → size (set_in Self.Shape Self.Order.Endian self.new)
            + (to - from) ≡ size before }
        ensures none { NoneIn (set_in Self.Shape Self.Order.Endian self.new) from to }
        ensures stays { Self.loan self.old ≡ Self.loan self.new }
    {
        self.clear_range_in::<Self::Order>(from, to);
    }

    /// Flips the bits `from..to`. Indexes follow the bit order of the type. All else is as with
    /// [`toggle_range_in`](bittle::BitsMut::toggle_range_in).
    ///
    /// ```
    /// let mut word = 0b0011_1100u8;
    /// word.toggle_range(0, 4);                            // word is 0b0011_0011
    /// ```
    #[inline]
    final fn toggle_range(&mut self, from: u32, to: u32)
        requires fits { ShapeFits Self.Shape self.old }
        requires ordered { from ≤ to }
        requires within { to ≤ (Self.big self.old).capacity }
        ensures set { set_in Self.Shape Self.Order.Endian self.new
            ≡ with_span_toggled (set_in Self.Shape Self.Order.Endian self.old) from to }
        ensures flipped { (k : ℕ) → from ≤ k → k < to
            → contains (set_in Self.Shape Self.Order.Endian self.new) k
            ≡ not (contains (set_in Self.Shape Self.Order.Endian self.old) k) }
        ensures stays { Self.loan self.old ≡ Self.loan self.new }
    {
        self.toggle_range_in::<Self::Order>(from, to);
    }
}

impl<B: BitsMut> BitsMutExt for B {}
