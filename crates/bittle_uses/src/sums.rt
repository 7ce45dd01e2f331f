//! The sum of the indexes of the set bits of any set.

ghost use Rattle.std.specs.Prelude.{◌≡◌, sum};
ghost use Rattle.bittle.specs.PlainSet.{ascending};
ghost use Rattle.bittle.specs.Values.{set_in, ShapeFits};

use bittle::Bits;

/// Returns the sum of the indexes of the set bits.
pub fn sum_of_members<B: Bits>(set: &B) -> u64
    requires { ShapeFits B.Shape set.now }
    ensures { result ≡ sum (ascending (set_in B.Shape B.Order.Endian set.now)) }
{
    let mut total = 0;
    for member in set.iter_ones() {
        total += u64::from(member);
    }
    total
}
