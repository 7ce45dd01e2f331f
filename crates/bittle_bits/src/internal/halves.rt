//! Work on words of 128 bits half by half. A processor holds each half in a register.

ghost use Rattle.std.specs.Prelude.{◌≡◌, ◌+◌, ◌*◌, ◌^◌, ◌<◌};
ghost use Rattle.bittle_bits.specs.SetOperations.{combination_of};
ghost use Rattle.bittle_bits.specs.WordSets.{bits_of};

use crate::operation::Operation;
use crate::word::Word;

/// Returns the halves of a word of 128 bits: first the half with the bits of lesser weight, then
/// the half with the bits of greater weight.
#[inline(always)]
pub fn halves<T: Word>(word: T) -> (u64, u64)
    requires { T.width ≡ 128 }
    ensures pattern { T.pattern word ≡ result.1 * 2 ^ 64 + result.0 }
    ensures range { (result.0 < 2 ^ 64) × (result.1 < 2 ^ 64) }
{
    let bits = word.to_bits();
    ((bits & u64::MAX as u128) as u64, (bits >> 64) as u64)
}

/// Returns the word of 128 bits that has these halves.
#[inline(always)]
pub fn joined<T: Word>(low: u64, high: u64) -> T
    requires { T.width ≡ 128 }
    ensures pattern { T.pattern result ≡ high * 2 ^ 64 + low }
    ensures range { low < 2 ^ 64 }
{
    T::from_bits(((high as u128) << 64) + low as u128)
}

/// Combines two words of 128 bits by the operation `O`, half by half.
#[inline]
pub fn on_halves<T: Word, O: Operation>(word: T, other: T) -> T
    requires { T.width ≡ 128 }
    ensures { bits_of T.Word result ≡ combination_of O.decide (bits_of T.Word word)
        (bits_of T.Word other) }
{
    let (low, high) = halves::<T>(word);
    let (other_low, other_high) = halves::<T>(other);
    let low = O::on_words::<u64>(low, other_low);
    joined::<T>(low, O::on_words::<u64>(high, other_high))
}
