//! Two sets that are equal, since each number is in both or in neither.

ghost use Rattle.std.specs.Prelude.{◌≡◌};
ghost use Rattle.bittle.specs.BitPatterns.{bit_set};

use bittle::{Bits, BitsMut, BitsOwned};

/// Copies a set bit by bit, in a loop over all indexes. Write such a loop if there is more to do at
/// each index. Otherwise assign the value.
pub fn copied(from: u64) -> u64
    ensures { bit_set 64 result ≡ bit_set 64 from }
{
    let mut to = u64::zeros();
    for k in 0..64u32 {
        if from.test_bit(k) {
            to.set_bit(k);
        }
    }
    to
}
