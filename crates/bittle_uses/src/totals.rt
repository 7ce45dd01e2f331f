//! Loops that add up the items of an iterator: a `for`, and a `while let` over `next_back`.

ghost use Rattle.std.specs.Prelude.{◌≡◌, sum};
ghost use Rattle.bittle.specs.BitPatterns.{bit_set};
ghost use Rattle.bittle.specs.PlainSet.{ascending};

use bittle::Bits;

/// Returns the sum of the indexes of the set bits of a word.
pub fn sum(mask: u64) -> u64
    ensures { result ≡ sum (ascending (bit_set 64 mask)) }
{
    let mut total = 0u64;
    for index in mask.iter_ones() {
        total += index as u64;
    }
    total
}

/// Returns the sum of the indexes of the set bits of a word. It adds them from the greatest down.
pub fn sum_from_greatest(mask: u32) -> u64
    ensures { result ≡ sum (ascending (bit_set 32 mask)) }
{
    let mut total = 0u64;
    let mut walk = mask.iter_ones();
    while let Some(index) = walk.next_back() {
        total += index as u64;
    }
    total
}
