//! Functions that step iterators over sets. They are generic in the type of the set, so a call of
//! one of them is proved in less time than a call of the iterator itself. For a call of the
//! iterator the prover states the whole contract of the iterator's type.

ghost use Rattle.std.specs.Iterator.{IsFinite};
ghost use Rattle.bittle.specs.Values.{ShapeFits};

use bittle::join::JoinOnes;
use bittle::{Bits, DefaultEndian, Endian};
use bittle_bits::extension::{Kind, ReadWords};
use bittle_bits::walk::{IntoIter, Iter};
use bittle_ext::run_iterators::IterRuns;
use std::ops::Range;

// Returns how many items an iterator yields.
fn count_items<W: Iterator + Drop>(walk: W) -> usize
where
    W::Item: Drop,
    requires can { W.can_next walk }
    requires ends { IsFinite (W.remaining walk) }
{
    let mut count = 0usize;
    for _ in walk {
        count = count.wrapping_add(1);
    }
    count
}

/// Returns how many items an iterator over a borrowed set yields.
pub(crate) fn count<B: ReadWords, E: Endian, K: Kind>(walk: Iter<'_, B, E, K>) -> usize {
    count_items(walk)
}

/// Returns how many items an iterator over a borrowed set yields from the back.
pub(crate) fn count_back<B: ReadWords, E: Endian, K: Kind>(walk: Iter<'_, B, E, K>) -> usize {
    count_items(walk.rev())
}

/// Returns how many items an iterator over an owned set, or over a range, yields.
pub(crate) fn count_owned<B: ReadWords + Drop, E: Endian, K: Kind>(
    walk: IntoIter<B, E, K>,
) -> usize {
    count_items(walk)
}

/// Returns how many items an iterator over an owned set, or over a range, yields from the back.
pub(crate) fn count_owned_back<B: ReadWords + Drop, E: Endian, K: Kind>(
    walk: IntoIter<B, E, K>,
) -> usize {
    count_items(walk.rev())
}

/// Returns how many runs an iterator over the runs of a set yields.
pub(crate) fn count_runs<B: Bits, E: Endian, K: Kind>(walk: IterRuns<'_, B, E, K>) -> usize {
    count_items(walk)
}

/// Returns how many runs an iterator over the runs of a set yields from the back.
pub(crate) fn count_runs_back<B: Bits, E: Endian, K: Kind>(walk: IterRuns<'_, B, E, K>) -> usize {
    count_items(walk.rev())
}

/// Returns the next item of an iterator over a borrowed set.
pub(crate) fn next<B: ReadWords, E: Endian, K: Kind>(walk: &mut Iter<'_, B, E, K>) -> Option<u32> {
    walk.next()
}

/// Returns the next item of a join (`join_ones`) with a range of numbers.
pub(crate) fn next_joined<B: Bits>(
    join: &mut JoinOnes<'_, B, DefaultEndian, Range<u32>>,
) -> Option<u32> {
    join.next()
}

/// Counts the set bits of a set with an iterator.
pub(crate) fn count_ones<B: Bits>(set: &B) -> usize
    requires { ShapeFits B.Shape set.now }
{
    count(set.iter_ones())
}

/// Counts the unset bits of a set with an iterator.
pub(crate) fn count_zeros<B: Bits>(set: &B) -> usize
    requires { ShapeFits B.Shape set.now }
{
    count(set.iter_zeros())
}
