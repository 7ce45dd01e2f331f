//! Runs of unset bits.

ghost use Rattle.bittle.specs.PlainSet.{complement};
ghost use Rattle.bittle.specs.Values.{set_in, ShapeFits};
ghost use Rattle.bittle_ext.specs.Runs.{IsFirstRun};

use bittle::Bits;
use bittle_ext::BitsExt;

/// Returns the index at which the first run of `length` unset bits begins, or `None` if there is no
/// such run. The shape of the set has to fit (`bits_capacity() < u32::MAX`).
pub fn first_free_run<B: Bits>(set: &B, length: u32) -> Option<u32>
    requires { ShapeFits B.Shape set.now }
    ensures { IsFirstRun (complement (set_in B.Shape B.Order.Endian set.now)) 0 length result }
{
    set.first_zero_run(length)
}
