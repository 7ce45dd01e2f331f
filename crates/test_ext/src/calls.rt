//! Generic functions that make calls on a set of any shape, and return what the calls return. Each
//! of these functions is proved once for all shapes. A call that a test makes itself is proved
//! again for the shape that the test uses.

ghost use Rattle.std.specs.Prelude.{◌<◌, max, IsTrue};
ghost use Rattle.bittle_ext.specs.Views.{rounded_up};
ghost use Rattle.bittle.specs.Values.{ShapeFits};

use crate::checks::same;
use bittle::prelude::*;
use bittle::{Bits, BitsMut, Endian};
use bittle_ext::prelude::*;
use std::ops::Range;
use std::process::Abort;

/// The value that says that an item is taken from the front.
pub(crate) const FRONT: bool = true;

/// The value that says that an item is taken from the back.
pub(crate) const BACK: bool = false;

/// Names the union of two sets, in a call that combines them.
pub(crate) const UNION: u32 = 0;

/// Names the intersection of two sets.
pub(crate) const COMMON: u32 = 1;

/// Names the difference of two sets: the members that only the first one has.
pub(crate) const ALONE: u32 = 2;

/// Names the symmetric difference of two sets.
pub(crate) const UNLIKE: u32 = 3;

/// Takes an item from the front or from the back of an iterator.
fn item<W: DoubleEndedIterator>(walk: &mut W, at_front: bool) -> Option<W::Item>
    requires front { (w : W) → W.can_next w }
    requires back { (w : W) → W.can_next_back w }
{
    if at_front {
        walk.next()
    } else {
        walk.next_back()
    }
}

/// Names the first set bit, in a call that takes a bit.
pub(crate) const FIRST: u32 = 0;

/// Names the last set bit.
pub(crate) const LAST: u32 = 1;

/// Names the first unset bit.
pub(crate) const UNSET: u32 = 2;

/// Names `insert`, in a call that changes one bit.
pub(crate) const INSERT: u32 = 0;

/// Names `remove`.
pub(crate) const REMOVE: u32 = 1;

/// Names `replace`.
pub(crate) const REPLACE: u32 = 2;

/// Names `toggle`.
pub(crate) const TOGGLE: u32 = 3;

/// Names `assign`.
pub(crate) const ASSIGN: u32 = 4;

/// Makes the call that `kind` names on the bit of an index. `value` is the new bit, in a call that
/// takes one. Returns what the call returns, or `false` if it returns nothing.
pub(crate) fn bit_changed<B: BitsMut>(kind: u32, set: &mut B, index: u32, value: bool) -> bool
    requires { IsTrue B.indexable }
{
    match kind {
        INSERT => set.insert(index),
        REMOVE => set.remove(index),
        REPLACE => set.replace(index, value),
        TOGGLE => {
            set.toggle(index);
            false
        }
        _ => {
            set.assign(index, value);
            false
        }
    }
}

/// Takes out the first or the last set bit, or sets the first unset bit, as `kind` names. Returns
/// the index of this bit.
pub(crate) fn bit_taken<B: BitsMut>(kind: u32, set: &mut B) -> Option<u32>
    requires { ShapeFits B.Shape set.old }
{
    match kind {
        FIRST => set.pop_first(),
        LAST => set.pop_last(),
        _ => set.take_first_zero(),
    }
}

/// Takes items from an iterator, one from each of `ends` in turn.
pub(crate) fn taken<W: DoubleEndedIterator<Item = u32>, const N: usize>(
    walk: &mut W,
    ends: [bool; N],
) -> [Option<u32>; N]
    requires front { (w : W) → W.can_next w }
    requires back { (w : W) → W.can_next_back w }
{
    let mut items = [None; N];
    for k in 0..N {
        items[k] = item(walk, ends[k]);
    }
    items
}

/// Takes runs from an iterator, one from each of `ends` in turn. Returns where each run begins and
/// where it ends.
pub(crate) fn runs_taken<W: DoubleEndedIterator<Item = Range<u32>>, const N: usize>(
    walk: &mut W,
    ends: [bool; N],
) -> [Option<(u32, u32)>; N]
    requires front { (w : W) → W.can_next w }
    requires back { (w : W) → W.can_next_back w }
{
    let mut runs = [None; N];
    for k in 0..N {
        runs[k] = match item(walk, ends[k]) {
            Some(run) => Some((run.start, run.end)),
            None => None,
        };
    }
    runs
}

/// Takes items from an iterator over the set bits of a range.
pub(crate) fn ones_in_range<B: Bits, const N: usize>(
    bits: &B,
    from: u32,
    to: u32,
    ends: [bool; N],
) -> [Option<u32>; N]
    requires { ShapeFits B.Shape bits.now }
{
    taken(&mut bits.iter_ones_in_range(from, to), ends)
}

/// Takes items from an iterator over the set bits of a range, in the order `E`.
pub(crate) fn ones_in_range_in<B: Bits, E: Endian, const N: usize>(
    bits: &B,
    from: u32,
    to: u32,
    ends: [bool; N],
) -> [Option<u32>; N]
    requires { ShapeFits B.Shape bits.now }
{
    ones_in_range(&bits.in_order::<E>(), from, to, ends)
}

/// Takes items from an iterator over the unset bits of a range, in the order `E`.
pub(crate) fn zeros_in_range_in<B: Bits, E: Endian, const N: usize>(
    bits: &B,
    from: u32,
    to: u32,
    ends: [bool; N],
) -> [Option<u32>; N]
    requires { ShapeFits B.Shape bits.now }
{
    zeros_in_range(&bits.in_order::<E>(), from, to, ends)
}

/// Takes items from an iterator over the unset bits of a range.
pub(crate) fn zeros_in_range<B: Bits, const N: usize>(
    bits: &B,
    from: u32,
    to: u32,
    ends: [bool; N],
) -> [Option<u32>; N]
    requires { ShapeFits B.Shape bits.now }
{
    taken(&mut bits.iter_zeros_in_range(from, to), ends)
}

/// Takes runs from an iterator over the runs of set bits.
pub(crate) fn one_runs<B: Bits, const N: usize>(
    bits: &B,
    ends: [bool; N],
) -> [Option<(u32, u32)>; N]
    requires { ShapeFits B.Shape bits.now }
{
    runs_taken(&mut bits.iter_one_runs(), ends)
}

/// Takes runs from an iterator over the runs of unset bits.
pub(crate) fn zero_runs<B: Bits, const N: usize>(
    bits: &B,
    ends: [bool; N],
) -> [Option<(u32, u32)>; N]
    requires { ShapeFits B.Shape bits.now }
{
    runs_taken(&mut bits.iter_zero_runs(), ends)
}

/// A question about a view. A function that makes a view takes the question as a parameter, so the
/// function is proved once and not again for each question.
pub(crate) trait Question {
    type Answer;

    /// Returns the answer for a view.
    fn ask<V: View>(&self, view: &V) -> Self::Answer
        requires fits { ShapeFits V.Shape view.now }
        requires indexable { IsTrue V.indexable };
}

/// A question: the items of an iterator over the set bits of a view, one from each end that the
/// array lists.
#[derive(Drop)]
pub(crate) struct Ones<const N: usize>(pub(crate) [bool; N]);

impl<const N: usize> Question for Ones<N> {
    type Answer = [Option<u32>; N];

    fn ask<V: View>(&self, view: &V) -> [Option<u32>; N] {
        taken(&mut (*view).into_ones(), self.0)
    }
}

/// Asks a question of the union of two sets.
pub(crate) fn ask_either<A: Bits, B: Bits, Q: Question>(
    question: &Q,
    one: &A,
    other: &B,
) -> Q::Answer
    requires one_fits { ShapeFits A.Shape one.now }
    requires other_fits { ShapeFits B.Shape other.now }
    requires rounded { rounded_up (max (A.big one.now).capacity (B.big other.now).capacity) A.width
        < 4294967295 }
{
    question.ask(&one.or_unlike(other))
}

/// Asks a question of the intersection of two sets.
pub(crate) fn ask_both<A: Bits, B: Bits, Q: Question>(question: &Q, one: &A, other: &B) -> Q::Answer
    requires one_fits { ShapeFits A.Shape one.now }
    requires other_fits { ShapeFits B.Shape other.now }
{
    question.ask(&one.and(other))
}

/// Asks a question of the difference of two sets: the members that only the first one has.
pub(crate) fn ask_alone<A: Bits, B: Bits, Q: Question>(
    question: &Q,
    one: &A,
    other: &B,
) -> Q::Answer
    requires one_fits { ShapeFits A.Shape one.now }
    requires other_fits { ShapeFits B.Shape other.now }
{
    question.ask(&one.minus(other))
}

/// Asks a question of the symmetric difference of two sets.
pub(crate) fn ask_just_one<A: Bits, B: Bits, Q: Question>(
    question: &Q,
    one: &A,
    other: &B,
) -> Q::Answer
    requires one_fits { ShapeFits A.Shape one.now }
    requires other_fits { ShapeFits B.Shape other.now }
    requires rounded { rounded_up (max (A.big one.now).capacity (B.big other.now).capacity) A.width
        < 4294967295 }
{
    question.ask(&one.xor_unlike(other))
}

/// Takes items from an iterator over two sets that are combined by one of the four operations.
pub(crate) fn combination<A: Bits, B: Bits, const N: usize>(
    kind: u32,
    one: &A,
    other: &B,
    ends: [bool; N],
) -> [Option<u32>; N]
    requires one_fits { ShapeFits A.Shape one.now }
    requires other_fits { ShapeFits B.Shape other.now }
    requires rounded { rounded_up (max (A.big one.now).capacity (B.big other.now).capacity) A.width
        < 4294967295 }
{
    let items = Ones(ends);
    match kind {
        UNION => ask_either(&items, one, other),
        COMMON => ask_both(&items, one, other),
        ALONE => ask_alone(&items, one, other),
        _ => ask_just_one(&items, one, other),
    }
}

/// Takes items from an iterator over the union of two sets, in the order `E`.
pub(crate) fn union_in<A: Bits, B: Bits, E: Endian, const N: usize>(
    one: &A,
    other: &B,
    ends: [bool; N],
) -> [Option<u32>; N]
    requires one_fits { ShapeFits A.Shape one.now }
    requires other_fits { ShapeFits B.Shape other.now }
    requires rounded { rounded_up (max (A.big one.now).capacity (B.big other.now).capacity) A.width
        < 4294967295 }
{
    ask_either(&Ones(ends), &one.in_order::<E>(), &other.in_order::<E>())
}

/// Checks the items that an iterator yields over two sets that are combined.
pub(crate) fn combines<A: Bits, B: Bits, const N: usize>(
    rt: &impl Abort,
    kind: u32,
    one: &A,
    other: &B,
    ends: [bool; N],
    expected: [Option<u32>; N],
)
    requires one_fits { ShapeFits A.Shape one.now }
    requires other_fits { ShapeFits B.Shape other.now }
    requires rounded { rounded_up (max (A.big one.now).capacity (B.big other.now).capacity) A.width
        < 4294967295 }
{
    same!(*rt; combination(kind, one, other, ends), expected);
}

/// Makes the set of these indexes, which are below the capacity. A `None` is left out.
pub(crate) fn set_of<B: BitsOwned, const N: usize>(items: [Option<u32>; N]) -> B
    requires { IsTrue B.indexable }
{
    let mut made = B::zeros();
    for k in 0..N {
        if let Some(index) = items[k] {
            made.set_bit(index);
        }
    }
    made
}

/// Returns the first and the last set bit, and the first and the last unset bit.
pub(crate) fn ends<B: Bits>(bits: &B) -> [Option<u32>; 4]
    requires { ShapeFits B.Shape bits.now }
{
    [
        bits.first_one(),
        bits.last_one(),
        bits.first_zero(),
        bits.last_zero(),
    ]
}

/// Counts the common members of two sets, the members that only the first set has, and the members
/// that just one of the two sets has.
pub(crate) fn counts<A: Bits, B: Bits>(one: &A, other: &B) -> [u32; 3]
    requires one_fits { ShapeFits A.Shape one.now }
    requires other_fits { ShapeFits B.Shape other.now }
{
    [
        one.count_common(other),
        one.count_alone(other),
        one.count_different(other),
    ]
}

/// Calls `counts` on two sets in the order `E`.
pub(crate) fn counts_in<A: Bits, B: Bits, E: Endian>(one: &A, other: &B) -> [u32; 3]
    requires one_fits { ShapeFits A.Shape one.now }
    requires other_fits { ShapeFits B.Shape other.now }
{
    counts(&one.in_order::<E>(), &other.in_order::<E>())
}

/// Returns for each index its rank: how many set bits lie below it.
pub(crate) fn ranks<B: Bits, const N: usize>(bits: &B, indexes: [u32; N]) -> [u32; N]
    requires { ShapeFits B.Shape bits.now }
{
    let mut answers = [0; N];
    for k in 0..N {
        answers[k] = bits.rank(indexes[k]);
    }
    answers
}

/// Returns for each rank the index of the set bit with this rank.
pub(crate) fn selected<B: Bits, const N: usize>(bits: &B, ranks: [u32; N]) -> [Option<u32>; N]
    requires { ShapeFits B.Shape bits.now }
{
    let mut answers = [None; N];
    for k in 0..N {
        answers[k] = bits.select(ranks[k]);
    }
    answers
}

/// Returns the ranks of these indexes, in the order `E`.
pub(crate) fn ranks_in<B: Bits, E: Endian, const N: usize>(bits: &B, indexes: [u32; N]) -> [u32; N]
    requires { ShapeFits B.Shape bits.now }
{
    ranks(&bits.in_order::<E>(), indexes)
}

/// Returns for each rank the index of the set bit with this rank, in the order `E`.
pub(crate) fn selected_in<B: Bits, E: Endian, const N: usize>(
    bits: &B,
    ranks: [u32; N],
) -> [Option<u32>; N]
    requires { ShapeFits B.Shape bits.now }
{
    selected(&bits.in_order::<E>(), ranks)
}

/// Returns whether one set is a subset of another set, a superset of it, disjoint from it, and
/// whether the two intersect. Then returns the first index in both sets, and the first index in the
/// first set alone.
pub(crate) fn stand<A: Bits, B: Bits>(one: &A, other: &B) -> ([bool; 4], [Option<u32>; 2])
    requires one_fits { ShapeFits A.Shape one.now }
    requires other_fits { ShapeFits B.Shape other.now }
{
    let relations = [
        one.is_subset(other),
        one.is_superset(other),
        one.is_disjoint(other),
        one.intersects(other),
    ];
    (relations, [one.first_common(other), one.first_alone(other)])
}

/// Inserts each of these indexes, and returns what each call returns.
pub(crate) fn inserted<B: BitsMut, const N: usize>(set: &mut B, indexes: [u32; N]) -> [bool; N]
    requires { IsTrue B.indexable }
{
    let mut answers = [false; N];
    for k in 0..N {
        answers[k] = set.insert(indexes[k]);
    }
    answers
}

/// Inserts the indexes that an iterator over another set yields.
pub(crate) fn extend_by_set<B: BitsMut, C: Bits>(set: &mut B, other: &C)
    requires indexable { IsTrue B.indexable }
    requires fits { ShapeFits C.Shape other.now }
{
    set.extend(other.iter_ones());
}

/// A change of a set of any shape. A function that makes a mutable view takes the change as a
/// parameter, so the function is proved once and not again for each change.
pub(crate) trait Change {
    type Answer;

    /// Changes the set, and returns what the calls return.
    fn change<B: BitsMut>(&self, set: &mut B) -> Self::Answer
        requires fits { ShapeFits B.Shape set.old }
        requires indexable { IsTrue B.indexable };
}

/// Changes a set through a view in the order `E`.
pub(crate) fn change_in<B: BitsMut, E: Endian, C: Change>(change: &C, set: &mut B) -> C::Answer
    requires fits { ShapeFits B.Shape set.old }
    requires indexable { IsTrue B.indexable }
{
    change.change(&mut set.in_order_mut::<E>())
}

/// Flips each bit.
pub(crate) fn flip<B: BitsMut>(set: &mut B)
    requires { ShapeFits B.Shape set.old }
{
    set.complement_assign();
}
