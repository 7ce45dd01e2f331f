//! The iterators over the set bits of a range, and over its unset bits.

ghost use Rattle.std.specs.Prelude.{◌≤◌};
ghost use Rattle.bittle_ext.specs.RangeMembers.{ListsWithin};
ghost use Rattle.bittle.specs.Values.{kind_in, word_count, ShapeFits};
ghost use Rattle.bittle.specs.Walk.{AreBelow, IsFresh};

use crate::views::within::KindWithin;
use bittle::Endian;
use bittle_bits::extension::{Kind, Ones, OwnedSource, ReadWords, Zeros};
use bittle_bits::walk::{IntoIter, IntoIterOnes};

/// An iterator over the indexes of the set bits of a range.
pub type IterOnesInRange<'a, B, E> = IntoIterOnes<KindWithin<'a, B, E, Ones>, E>;

/// An iterator over the indexes of the unset bits of a range.
pub type IterZerosInRange<'a, B, E> = IntoIterOnes<KindWithin<'a, B, E, Zeros>, E>;

/// Returns an iterator over the indexes in `from..to` whose bits are of the kind `K` (set or
/// unset). It iterates over the set bits of a view in which exactly these bits are set.
#[inline]
pub(crate) fn iter_within<'a, B: ReadWords, E: Endian, K: Kind>(
    bits: &'a B,
    from: u32,
    to: u32,
) -> IntoIterOnes<KindWithin<'a, B, E, K>, E>
    requires fits { ShapeFits B.Shape bits.now }
    requires ordered { from ≤ to }
    requires within { to ≤ (B.big bits.now).capacity }
    ensures items { ListsWithin (kind_in B.Shape E.Endian K.Kind bits.now) from to
        result.remaining }
    ensures fresh { IsFresh (word_count B.Shape bits.now) result }
    ensures below { AreBelow (B.big bits.now).capacity result.remaining }
{
    IntoIter::new(OwnedSource::new(KindWithin::of(bits, from, to)))
}
