//! Equality and comparison of two sets. If both sets have words of the same width and are read in
//! the same bit order, they are compared by words, and their first difference decides.

ghost use Rattle.std.specs.Cmp.{partial_equiv_from_equiv, partial_order_from_agreeing_total};
ghost use Rattle.std.specs.Cmp.{on_equiv, on_total};
ghost use Rattle.std.specs.Cmp.Lexicographic.{nat_list_eq_equiv, nat_list_cmp_total, texts_ties};
ghost use Rattle.std.specs.Ordering.{MatchOrdering, on, as_partial_cmp};
ghost use Rattle.std.specs.Prelude.{◌≡◌, ◌↔◌, false, not, IsTrue, MatchBool, refl};
ghost use Rattle.bittle_bits.specs.PlainSet.{ascending};
ghost use Rattle.bittle_bits.specs.Values.{set_in, ShapeFits};
ghost use Rattle.bittle.specs.Comparison.{list_cmp, list_eq, AreCompared, AreSame, GoesOn, HasPast};
ghost use Rattle.bittle.specs.Comparison.{HasNonePast, TellsFirstDifferenceOf, Precedes};

use super::Set;
use bittle_bits::bits::Bits;
use bittle_bits::endian::Endian;
use bittle_bits::extension::{
    SymmetricDifference, are_alike, first_decided_below, first_decided_in_first_words, test_bit,
    word_width,
};
use std::cmp::Ordering;

// Returns the least index that is in just one of two sets, or `None` if they have the same members.
// `capacity` is that of the left set, and `other` that of the right set.
#[inline]
fn first_difference_by_words<A: Bits, B: Bits, E: Endian>(
    left: &A,
    right: &B,
    capacity: u32,
    other: u32,
) -> Option<u32>
    requires { AreCompared A.Shape B.Shape left.now right.now capacity other }
    ensures { TellsFirstDifferenceOf A.Shape B.Shape E.Endian left.now right.now result }
{
    let common = capacity.min(other);
    let difference = first_decided_below::<A, B, E, SymmetricDifference>(left, right, common);
    if difference.is_some() {
        return difference;
    }
    // Past the common words only the longer set can have members.
    if capacity < other {
        right.first_one_in::<E>(capacity, other)
    } else if other < capacity {
        left.first_one_in::<E>(other, capacity)
    } else {
        None
    }
}

// Does the same as `first_difference_by_words`, but is never inlined. So a caller of
// `first_difference` inlines only the comparison of the first words.
#[inline(never)]
fn first_difference_out_of_line<A: Bits, B: Bits, E: Endian>(
    left: &A,
    right: &B,
    capacity: u32,
    other: u32,
) -> Option<u32>
    requires { AreCompared A.Shape B.Shape left.now right.now capacity other }
    ensures { TellsFirstDifferenceOf A.Shape B.Shape E.Endian left.now right.now result }
{
    first_difference_by_words::<A, B, E>(left, right, capacity, other)
}

// Does the same as `first_difference_by_words`. If the number of words is no constant of the left
// type (a slice, or a set with a summary), it first compares only the first word of each set, since
// these two often decide. If they do not, they are read again with the other words.
#[inline]
fn first_difference<A: Bits, B: Bits, E: Endian>(
    left: &A,
    right: &B,
    capacity: u32,
    other: u32,
) -> Option<u32>
    requires { AreCompared A.Shape B.Shape left.now right.now capacity other }
    ensures { TellsFirstDifferenceOf A.Shape B.Shape E.Endian left.now right.now result }
{
    if A::IS_FIXED {
        return first_difference_by_words::<A, B, E>(left, right, capacity, other);
    }
    let common = capacity.min(other);
    let first = first_decided_in_first_words::<A, B, E, SymmetricDifference>(left, right, common);
    if first.is_some() {
        return first;
    }
    first_difference_out_of_line::<A, B, E>(left, right, capacity, other)
}

// Returns whether an index is a member. The index does not wrap.
#[inline]
fn has<B: Bits, E: Endian>(bits: &B, capacity: u32, index: u32) -> bool
    requires fits { ShapeFits B.Shape bits.now }
    requires capacity { capacity ≡ (B.big bits.now).capacity }
    ensures { result ≡ (set_in B.Shape E.Endian bits.now).has index }
{
    if capacity <= index {
        return false;
    }
    let width = word_width::<B>();
    // For a slice, a test of an index that may wrap divides by the length. This test does not.
    test_bit::<B::LeafWord, E>(bits.nth_leaf_word((index / width) as usize), index % width)
}

// Returns whether some member is greater than `index`, which is not a member itself. The search may
// begin at `index`, since this index is not a member.
#[inline]
fn has_past<B: Bits, E: Endian>(bits: &B, capacity: u32, index: u32) -> bool
    requires fits { ShapeFits B.Shape bits.now }
    requires capacity { capacity ≡ (B.big bits.now).capacity }
    requires lacks { (set_in B.Shape E.Endian bits.now).has index ≡ false }
    ensures { MatchBool result (HasPast (set_in B.Shape E.Endian bits.now) index)
        (HasNonePast (set_in B.Shape E.Endian bits.now) index) }
{
    index < capacity && bits.first_one_in::<E>(index, capacity).is_some()
}

// Returns whether the set without the member `index` has a member greater than `index`. This index
// is a member of just one of the two sets: of `left` if `is_left` is `true`, else of `right`.
#[inline]
fn other_goes_on<A: Bits, B: Bits, E: Endian>(
    left: &A,
    right: &B,
    capacity: u32,
    other: u32,
    index: u32,
    is_left: bool,
) -> bool
    requires compared { AreCompared A.Shape B.Shape left.now right.now capacity other }
    requires is_left { is_left ≡ (set_in A.Shape E.Endian left.now).has index }
    requires is_right { is_left ≡ not ((set_in B.Shape E.Endian right.now).has index) }
    ensures { GoesOn is_left (set_in A.Shape E.Endian left.now)
        (set_in B.Shape E.Endian right.now) index result }
{
    if is_left {
        has_past::<B, E>(right, other, index)
    } else {
        has_past::<A, E>(left, capacity, index)
    }
}

// Compares two sets by their words.
fn compare_words<A: Bits, B: Bits, E: Endian>(left: &A, right: &B) -> Ordering
    requires width { A.width ≡ B.width }
    requires left_fits { ShapeFits A.Shape left.now }
    requires right_fits { ShapeFits B.Shape right.now }
    ensures { let ours = set_in A.Shape E.Endian left.now in
        let theirs = set_in B.Shape E.Endian right.now in
        MatchOrdering result (Precedes ours theirs) (AreSame ours theirs) (Precedes theirs ours) }
{
    let capacity = left.bits_capacity();
    let other = right.bits_capacity();
    match first_difference::<A, B, E>(left, right, capacity, other) {
        None => Ordering::Equal,
        Some(index) => {
            let is_left = has::<A, E>(left, capacity, index);
            let goes_on = other_goes_on::<A, B, E>(left, right, capacity, other, index, is_left);
            // The sets differ at `index`. The set that has it as a member comes first exactly if
            // the other set has a greater member. The `if` compiles to no branch on the bits of the
            // words.
            if is_left == goes_on {
                Ordering::Less
            } else {
                Ordering::Greater
            }
        }
    }
}

// Compares two sets, each read in its own bit order. If their words have the same width and both
// are read in the same order, the words are compared. Otherwise both sets are iterated, up to their
// first difference.
#[inline]
fn compare<A: Bits, B: Bits, E: Endian, F: Endian>(left: &A, right: &B) -> Ordering
    requires left_fits { ShapeFits A.Shape left.now }
    requires right_fits { ShapeFits B.Shape right.now }
    ensures value { result
        ≡ list_cmp (ascending (set_in A.Shape E.Endian left.now))
        (ascending (set_in B.Shape F.Endian right.now)) }
    ensures decided { let ours = set_in A.Shape E.Endian left.now in
        let theirs = set_in B.Shape F.Endian right.now in
        MatchOrdering result (Precedes ours theirs) (AreSame ours theirs) (Precedes theirs ours) }
{
    if are_alike::<A, B, E, F>() {
        compare_words::<A, B, E>(left, right)
    } else {
        left.iter_ones_in::<E>().cmp(right.iter_ones_in::<F>())
    }
}

// Returns whether two sets, each read in its own bit order, have the same members.
#[inline]
fn are_equal<A: Bits, B: Bits, E: Endian, F: Endian>(left: &A, right: &B) -> bool
    requires left_fits { ShapeFits A.Shape left.now }
    requires right_fits { ShapeFits B.Shape right.now }
    ensures value { result
        ≡ list_eq (ascending (set_in A.Shape E.Endian left.now))
        (ascending (set_in B.Shape F.Endian right.now)) }
    ensures decided { IsTrue result
        ↔ AreSame (set_in A.Shape E.Endian left.now) (set_in B.Shape F.Endian right.now) }
{
    if are_alike::<A, B, E, F>() {
        let capacity = left.bits_capacity();
        let other = right.bits_capacity();
        first_difference::<A, B, E>(left, right, capacity, other).is_none()
    } else {
        compare::<A, B, E, F>(left, right).is_eq()
    }
}

impl<T: Bits, E: Endian> Set<T, E> {
    /// Compares this set with `other`, a set of any shape, by their increasing lists of members.
    ///
    /// The shape of `other` has to fit (`bits_capacity() < u32::MAX`). Each set is read in its own
    /// bit order: this set in `E`, and `other` in `U::Order`. The call compares words, or items of
    /// iterators, up to the first difference. It then searches the set that lacks this index for a
    /// greater member, up to the first one.
    ///
    /// ```
    /// Set::new(1u8).cmp_bits(&3u16);                      // Less
    /// ```
    pub fn cmp_bits<U: Bits>(&self, other: &U) -> Ordering
        requires { ShapeFits U.Shape other.now }
        ensures value { result
            ≡ list_cmp (ascending (set_in T.Shape E.Endian self.now.bits))
            (ascending (set_in U.Shape U.Order.Endian other.now)) }
        // The members of the two sets decide the result.
        ensures decided { let ours = set_in T.Shape E.Endian self.now.bits in
            let theirs = set_in U.Shape U.Order.Endian other.now in
            MatchOrdering result (Precedes ours theirs) (AreSame ours theirs)
            (Precedes theirs ours) }
    {
        compare::<T, U, E, U::Order>(&self.bits, other)
    }

    /// Returns `true` if this set and `other`, a set of any shape, have the same members.
    ///
    /// The shape of `other` has to fit (`bits_capacity() < u32::MAX`). Each set is read in its own
    /// bit order: this set in `E`, and `other` in `U::Order`. The call compares words, or items of
    /// iterators, up to the first difference.
    ///
    /// ```
    /// Set::new_le(0x80u8).eq_bits(&1u16);                 // true: each has the one index 0
    /// ```
    pub fn eq_bits<U: Bits>(&self, other: &U) -> bool
        requires { ShapeFits U.Shape other.now }
        ensures value { result
            ≡ list_eq (ascending (set_in T.Shape E.Endian self.now.bits))
            (ascending (set_in U.Shape U.Order.Endian other.now)) }
        // The members of the two sets decide the result.
        ensures decided { IsTrue result
            ↔ AreSame (set_in T.Shape E.Endian self.now.bits)
            (set_in U.Shape U.Order.Endian other.now) }
    {
        are_equal::<T, U, E, U::Order>(&self.bits, other)
    }
}

/// Two sets are equal if they have the same members.
impl<T: Bits, E: Endian> PartialEq for Set<T, E> {
    ghost eq = { on (λ s. ascending (set_in T.Shape E.Endian s.bits)) list_eq };

    ghost laws = { partial_equiv_from_equiv
        (on_equiv (λ s. ascending (set_in T.Shape E.Endian s.bits)) nat_list_eq_equiv) };

    fn eq(&self, other: &Set<T, E>) -> bool
        ensures value { result
            ≡ list_eq (ascending (set_in T.Shape E.Endian self.now.bits))
            (ascending (set_in T.Shape E.Endian other.now.bits)) }
        ensures decided { IsTrue result
            ↔ AreSame (set_in T.Shape E.Endian self.now.bits)
            (set_in T.Shape E.Endian other.now.bits) }
    {
        are_equal::<T, T, E, E>(&self.bits, &other.bits)
    }
}

impl<T: Bits, E: Endian> Eq for Set<T, E> {
    ghost laws = { on_equiv (λ s. ascending (set_in T.Shape E.Endian s.bits)) nat_list_eq_equiv };
}

impl<T: Bits, E: Endian> PartialOrd for Set<T, E> {
    ghost partial_cmp = { as_partial_cmp
        (on (λ s. ascending (set_in T.Shape E.Endian s.bits)) list_cmp) };

    ghost laws = { partial_order_from_agreeing_total
        (on (λ s. ascending (set_in T.Shape E.Endian s.bits)) list_cmp)
        (on_total (λ s. ascending (set_in T.Shape E.Endian s.bits)) nat_list_cmp_total)
        (λ a b. refl)
        (λ a b. texts_ties (ascending (set_in T.Shape E.Endian a.bits))
        (ascending (set_in T.Shape E.Endian b.bits))) };

    fn partial_cmp(&self, other: &Set<T, E>) -> Option<Ordering> {
        Some(self.cmp(other))
    }
}

/// Orders sets by the increasing lists of their members. The first items that differ decide, and a
/// list that is the start of a longer list comes first. This is not the order of the integers.
impl<T: Bits, E: Endian> Ord for Set<T, E> {
    ghost cmp = { on (λ s. ascending (set_in T.Shape E.Endian s.bits)) list_cmp };

    ghost total = { on_total (λ s. ascending (set_in T.Shape E.Endian s.bits)) nat_list_cmp_total };

    ghost matches_partial_cmp = { λ a b. refl };

    ghost matches_eq = { λ a b. texts_ties (ascending (set_in T.Shape E.Endian a.bits))
        (ascending (set_in T.Shape E.Endian b.bits)) };

    fn cmp(&self, other: &Set<T, E>) -> Ordering
        ensures value { result
            ≡ list_cmp (ascending (set_in T.Shape E.Endian self.now.bits))
            (ascending (set_in T.Shape E.Endian other.now.bits)) }
        ensures decided { let ours = set_in T.Shape E.Endian self.now.bits in
            let theirs = set_in T.Shape E.Endian other.now.bits in
            MatchOrdering result (Precedes ours theirs) (AreSame ours theirs)
            (Precedes theirs ours) }
    {
        compare::<T, T, E, E>(&self.bits, &other.bits)
    }
}
