//! How many bits a set has.

ghost use Rattle.std.specs.Prelude.{◌≡◌};
ghost use Rattle.bittle_ext.specs.RangeMembers.{EndsAt};
ghost use Rattle.bittle.specs.PlainSet.{size};
ghost use Rattle.bittle.specs.Values.{set_in, ShapeFits};

use bittle::Endian;
use bittle_bits::extension::ReadWords;

/// Returns the capacity of a set. The contract adds two facts about the set that is read in the
/// order `E`: no bit at or past the capacity is set, and the number of set bits is the same as in
/// big-endian order.
#[inline]
pub(crate) fn capacity_of<B: ReadWords, E: Endian>(set: &B) -> u32
    requires { ShapeFits B.Shape set.now }
    ensures ends { EndsAt (set_in B.Shape E.Endian set.now) result }
    ensures as_many { size (B.big set.now) ≡ size (set_in B.Shape E.Endian set.now) }
{
    set.capacity()
}
