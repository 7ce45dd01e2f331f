//! Iterators over the maximal runs of set bits, and of unset bits.

ghost use Rattle.std.specs.Iterator.{YieldsFirst, YieldsLast, item_count};
ghost use Rattle.std.specs.Prelude.{◌≡◌, ◌<◌, ◌⊎◌, true, false, ⊤, IsTrue, MatchBool};
ghost use Rattle.bittle_ext.specs.Edges.{paired, Alternate, IsEven};
ghost use Rattle.bittle_ext.specs.Runs.{runs, AreRunsBelow, RunsInOrder, RunsInReverse};
ghost use Rattle.bittle.specs.PlainSet.{PlainSet};
ghost use Rattle.bittle.specs.Values.{kind_in, ShapeFits};

use crate::views::edges::Edges;
use bittle::{Bits, Endian, Shape};
use bittle_bits::extension::{Kind, Ones, OwnedSource, ReadWords, Zeros};
use bittle_bits::walk::{IntoIter, IntoIterOnes};
use std::alloc::AllocError;
use std::marker::Model;
use std::ops::Range;

/// An iterator over the maximal runs of set bits.
pub type IterOneRuns<'a, B, E> = IterRuns<'a, B, E, Ones>;

/// An iterator over the maximal runs of unset bits.
pub type IterZeroRuns<'a, B, E> = IterRuns<'a, B, E, Zeros>;

/// An iterator over the maximal runs of bits of the kind `K` (set or unset) in a borrowed set,
/// which is read in the order `E`. The runs are increasing, and steps are possible from both ends.
/// Once no run remains, steps from both ends return `None`.
///
/// The iterator takes the edges of the set, two for each run. A run that reaches the capacity has
/// one edge, at its start. Whether the last run is such a run is known only after a step from the
/// back.
#[derive(Drop)]
pub struct IterRuns<'a, B: Shape, E: Endian, K: Kind> {
    bits: &'a B,
    edges: IntoIterOnes<Edges<'a, B, E, K>, E>,
    to: u32,
    is_closed: bool,
}

impl<'a, B: Shape, E: Endian, K: Kind> Model for IterRuns<'a, B, E, K> {
    ghost use Rattle.std.specs.Prelude.{ℕ, List};
    ghost use Rattle.std.specs.declared.ops.Range.{Range};

    ghost Value = { List (Range ℕ) };

    ghost use Rattle.std.specs.Prelude.{◌≡◌, IsTrue};
    ghost use Rattle.bittle_ext.specs.Edges.{paired, Alternate, IsEven};
    ghost use Rattle.bittle.specs.Values.{kind_in, ShapeFits};

    ghost view = { λ i. paired i.to i.edges.remaining };

    ghost invariant = { λ i. ShapeFits B.Shape i.bits.now × (i.to ≡ (B.big i.bits.now).capacity)
        × Alternate (kind_in B.Shape E.Endian K.Kind i.bits.now) i.edges.remaining
        × (IsTrue i.is_closed → IsEven i.edges.remaining) };
}

impl<'a, B: Bits, E: Endian, K: Kind> IterRuns<'a, B, E, K> {
    /// Begins an iterator over the runs of a set.
    #[inline]
    pub(crate) fn new(bits: &'a B) -> Self
        requires { ShapeFits B.Shape bits.now }
        ensures items { result ≡ runs (kind_in B.Shape E.Endian K.Kind bits.now) }
        ensures below { AreRunsBelow (B.big bits.now).capacity result }
        ensures in_order { RunsInOrder }
        ensures in_reverse { RunsInReverse }
    {
        IterRuns {
            bits,
            edges: IntoIter::new(OwnedSource::new(Edges::of(bits))),
            to: bits.bits_capacity(),
            is_closed: false,
        }
    }
}

impl<'a, B: Bits, E: Endian, K: Kind> Iterator for IterRuns<'a, B, E, K> {
    type Item = Range<u32>;

    ghost next_gives = { YieldsFirst (λ items. items) };

    ghost remaining = { item_count (λ items. items) };

    #[inline]
    fn next(&mut self) -> Option<Range<u32>> {
        first_run::<B, E, K>(&mut self.edges, self.to)
    }
}

impl<'a, B: Bits, E: Endian, K: Kind> DoubleEndedIterator for IterRuns<'a, B, E, K> {
    ghost next_back_gives = { YieldsLast (λ items. items) };

    #[inline]
    fn next_back(&mut self) -> Option<Range<u32>> {
        last_run::<B, E, K>(self.bits, &mut self.edges, self.to, &mut self.is_closed)
    }
}

impl<'a, B: Bits, E: Endian, K: Kind> Clone for IterRuns<'a, B, E, K> {
    ghost is_clone = { λ source clone. clone ≡ source };

    ghost is_infallible = { λ _. ⊤ };

    #[inline]
    fn clone(&self) -> Result<IterRuns<'a, B, E, K>, AllocError> {
        Ok(IterRuns {
            bits: self.bits,
            edges: self.edges.clone()?,
            to: self.to,
            is_closed: self.is_closed,
        })
    }
}

/// Takes the edges of the first run, and returns this run. Returns `None` if no edge is left. A run
/// without an edge at its end reaches `to`.
#[inline]
fn first_run<B: ReadWords, E: Endian, K: Kind>(
    edges: &mut IntoIterOnes<Edges<'_, B, E, K>, E>,
    to: u32,
) -> Option<Range<u32>>
    ensures gave { YieldsFirst (λ e. paired to e.remaining) edges.old result edges.new }
    ensures alternate { (s : PlainSet) → Alternate s edges.old.remaining
        → Alternate s edges.new.remaining }
    ensures even { IsEven edges.old.remaining → IsEven edges.new.remaining }
{
    let Some(start) = edges.next() else {
        return None;
    };
    match edges.next() {
        Some(end) => Some(start..end),
        None => Some(start..to),
    }
}

/// Returns whether the bit at the index `last` is of the kind `K`. If `is_closed` is `true`,
/// returns `false`.
#[inline]
fn is_open<B: Bits, E: Endian, K: Kind>(bits: &B, last: u32, is_closed: bool) -> bool
    requires fits { ShapeFits B.Shape bits.now }
    requires within { last < (B.big bits.now).capacity }
    ensures { let ours = kind_in B.Shape E.Endian K.Kind bits.now in MatchBool result
        (ours.has last ≡ true) (IsTrue is_closed ⊎ (ours.has last ≡ false)) }
{
    !is_closed && bits.test_bit_in::<E>(last) == K::ONES
}

/// Takes the edges of the last run, and returns this run. Returns `None` if no edge is left.
/// `is_closed` tells whether it is known that the last run has an edge at its end. If this is not
/// known, the bit at the last edge tells it. A run without an edge at its end reaches `to`.
#[inline]
fn last_run<B: Bits, E: Endian, K: Kind>(
    bits: &B,
    edges: &mut IntoIterOnes<Edges<'_, B, E, K>, E>,
    to: u32,
    is_closed: &mut bool,
) -> Option<Range<u32>>
    requires fits { ShapeFits B.Shape bits.now }
    requires alternate { Alternate (kind_in B.Shape E.Endian K.Kind bits.now) edges.old.remaining }
    requires closed { IsTrue is_closed.old → IsEven edges.old.remaining }
    ensures gave { YieldsLast (λ e. paired to e.remaining) edges.old result edges.new }
    ensures alternate { Alternate (kind_in B.Shape E.Endian K.Kind bits.now) edges.new.remaining }
    ensures closed { IsTrue is_closed.new → IsEven edges.new.remaining }
{
    let Some(last) = edges.next_back() else {
        return None;
    };
    let is_open = is_open::<B, E, K>(bits, last, *is_closed);
    *is_closed = true;
    if is_open {
        return Some(last..to);
    }
    match edges.next_back() {
        Some(start) => Some(start..last),
        None => None,
    }
}
