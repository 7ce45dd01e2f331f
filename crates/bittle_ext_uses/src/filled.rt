//! A loop that fills a set, one member a turn. Its measure is how many members are missing.

ghost use Rattle.std.specs.Prelude.{◌≡◌, ◌+◌};
ghost use Rattle.bittle.specs.BitPatterns.{bit_set};
ghost use Rattle.bittle.specs.PlainSet.{complement, size};
ghost use Rattle.bittle.specs.Searches.{IsFirstIn, NoneIn};

use bittle::{BitsMut, BitsOwned};
use bittle_ext::prelude::*;

/// Fills all free seats one by one, the first one first, and returns how many seats were free.
pub fn fill(seats: &mut u64) -> u32
    ensures all { size (bit_set 64 seats.new) ≡ 64 }
    ensures count { size (bit_set 64 seats.new) ≡ size (bit_set 64 seats.old) + result }
{
    let mut filled = 0u32;
    while let Some(seat) = seats.first_zero() {
        seats.set_bit(seat);
        filled += 1;
    }
    filled
}
