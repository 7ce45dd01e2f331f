//! Words as numbers whose bit `i` is the bit at index `i`, in either order.

ghost use Rattle.std.specs.Prelude.{◌≡◌, ℕ, ◌+◌, ◌-◌, ◌*◌, ◌/◌, ◌%◌, ◌^◌, ◌<◌, ◌≤◌, bit_and};
ghost use Rattle.std.specs.Prelude.{bit_or};
ghost use Rattle.std.specs.Int.{bit_at};
ghost use Rattle.bittle.specs.BitPatterns.{bit_set};
ghost use Rattle.bittle.specs.Orders.{read_in};
ghost use Rattle.bittle.specs.PlainSet.{is_in_span};
ghost use Rattle.bittle_ext.specs.Numbers.{has_copied};

use crate::rotations::{all_bits, window, window_up_to};
use bittle::Endian;
use bittle_bits::extension::{Conjunction, Operation, SymmetricDifference, Word};

/// Returns a number in which the bits `i` and `i + by` have changed places, for each `i` whose bit
/// is set in the mask. No other bit of the result is set.
#[inline]
fn swapped(bits: u128, by: u32, mask: u128) -> u128
    requires { by < 128 }
    ensures { result ≡ bit_or (bit_and bits mask * 2 ^ by % 2 ^ 128)
        (bit_and (bits / 2 ^ by) mask) }
{
    (bits & mask) << by | bits >> by & mask
}

/// Returns `bits` with its 128 bits in reverse order. First neighbouring bits change places, then
/// neighbouring pairs of bits, and so on up to the two halves.
#[inline]
fn reversed(bits: u128) -> u128
    ensures { (i : ℕ) → i < 128 → bit_at result i ≡ bit_at bits (127 - i) }
{
    let pairs = swapped(bits, 1, 0x5555_5555_5555_5555_5555_5555_5555_5555);
    let fours = swapped(pairs, 2, 0x3333_3333_3333_3333_3333_3333_3333_3333);
    let bytes = swapped(fours, 4, 0x0F0F_0F0F_0F0F_0F0F_0F0F_0F0F_0F0F_0F0F);
    let of_16 = swapped(bytes, 8, 0x00FF_00FF_00FF_00FF_00FF_00FF_00FF_00FF);
    let of_32 = swapped(of_16, 16, 0x0000_FFFF_0000_FFFF_0000_FFFF_0000_FFFF);
    let of_64 = swapped(of_32, 32, 0x0000_0000_FFFF_FFFF_0000_0000_FFFF_FFFF);
    swapped(of_64, 64, 0x0000_0000_0000_0000_FFFF_FFFF_FFFF_FFFF)
}

/// Returns how many bits a word has: 128 at most.
#[inline]
pub fn width_of<W: Word>() -> u32
    ensures width { result ≡ W.width }
    ensures within { W.width ≤ 128 }
{
    // Called only for its contract: all bits of a word fit in a `u128`.
    let _ = all_bits::<W>();
    W::width()
}

/// Returns the bits of a word in the order `E`, as a number of the width of a word. In big-endian
/// order they are unchanged, and in little-endian order they are reversed.
#[inline]
fn ordered<W: Word, E: Endian>(bits: u128) -> u128
    requires { bits < 2 ^ W.width }
    ensures fits { result < 2 ^ W.width }
    ensures set { bit_set W.width result ≡ read_in E.mirrored W.width (bit_set W.width bits) }
{
    if E::is_mirrored() {
        reversed(bits) >> (128 - width_of::<W>())
    } else {
        bits
    }
}

/// Converts a word to a number. For each `i`, the number's bit of weight `2 ^ i` is the bit of the
/// word at index `i`, in the order `E`.
#[inline]
pub fn number_of<W: Word, E: Endian>(word: W) -> u128
    ensures fits { result < 2 ^ W.width }
    ensures set { bit_set W.width result
        ≡ read_in E.mirrored W.width (bit_set W.width (W.pattern word)) }
{
    ordered::<W, E>(word.to_bits())
}

/// Returns a word reversed if the order `E` is little-endian, and unchanged if it is big-endian. So
/// the bit at index `i` gets the weight `2 ^ i`, and the bit of weight `2 ^ i` gets the index `i`.
/// A second call undoes the first.
#[inline]
pub fn ordered_word<W: Word, E: Endian>(word: W) -> W
    ensures to_weights { bit_set W.width (W.pattern result)
        ≡ read_in E.mirrored W.width (bit_set W.width (W.pattern word)) }
    ensures to_indexes { read_in E.mirrored W.width (bit_set W.width (W.pattern result))
        ≡ bit_set W.width (W.pattern word) }
{
    W::from_bits(number_of::<W, E>(word))
}

/// Converts a number to a word. For each `i`, the bit of the word at index `i`, in the order `E`,
/// is the number's bit of weight `2 ^ i`.
#[inline]
pub fn word_of<W: Word, E: Endian>(number: u128) -> W
    requires { number < 2 ^ W.width }
    ensures { read_in E.mirrored W.width (bit_set W.width (W.pattern result))
        ≡ bit_set W.width number }
{
    W::from_bits(ordered::<W, E>(number))
}

/// Returns the lowest `count` bits of a number.
#[inline]
pub fn low_bits(number: u128, count: u32) -> u128
    requires some { 0 < count }
    requires within { count ≤ 128 }
    ensures { result ≡ number % 2 ^ count }
{
    number & u128::MAX >> (128 - count)
}

/// Returns the lowest `count` bits of a number, where `count` is at most the width of a word. The
/// remainder (`%`) changes no result. It lets the compiler shift a word instead of 128 bits.
#[inline]
pub fn low_bits_of<W: Word>(number: u128, count: u32) -> u128
    requires some { 0 < count }
    requires within { count ≤ W.width }
    ensures { result ≡ number % 2 ^ count }
{
    let width = width_of::<W>();
    number & all_bits::<W>() >> ((width - count) % width)
}

/// Returns the word in which just the first `count` bits are set, in the order `E`. They are cut
/// from a word in which every bit is set.
#[inline]
pub fn first_bits<W: Word, E: Endian>(count: u32) -> W
    requires some { 0 < count }
    requires within { count ≤ W.width }
    ensures { (i : ℕ) → i < W.width
        → (read_in E.mirrored W.width (bit_set W.width (W.pattern result))).has i
        ≡ is_in_span 0 count i }
{
    let unset = W::zero();
    window::<W, E>(unset.not(), unset, width_of::<W>() - count)
}

/// Returns the word in which just the `count` bits from the index `from` on are set, in the order
/// `E`. These are the first `count` bits, moved up by `from`.
#[inline]
fn bits_from<W: Word, E: Endian>(from: u32, count: u32) -> W
    requires some { 0 < count }
    requires within { from + count ≤ W.width }
    ensures { (i : ℕ) → i < W.width
        → (read_in E.mirrored W.width (bit_set W.width (W.pattern result))).has i
        ≡ is_in_span from (from + count) i }
{
    window_up_to::<W, E>(W::zero(), first_bits::<W, E>(count), from)
}

/// Returns `word` with its `count` bits from the index `from` on replaced by the first `count` bits
/// of `by`. Both words are read in the order `E`. If `count` is the width of the word, no mask is
/// made.
///
/// Inside the mask, the old bits are combined twice by an exclusive or, so they drop out. Outside
/// it, nothing is combined with them.
#[inline]
pub fn with_first_bits<W: Word, E: Endian>(word: W, from: u32, count: u32, by: W) -> W
    requires some { 0 < count }
    requires within { from + count ≤ W.width }
    ensures { (i : ℕ) → i < W.width
        → (read_in E.mirrored W.width (bit_set W.width (W.pattern result))).has i
        ≡ has_copied (read_in E.mirrored W.width (bit_set W.width (W.pattern word))) from count
        (read_in E.mirrored W.width (bit_set W.width (W.pattern by))) 0 i }
{
    if count == width_of::<W>() {
        return by;
    }
    let moved = window_up_to::<W, E>(W::zero(), by, from);
    let other = SymmetricDifference::on_words::<W>(word, moved);
    let change = Conjunction::on_words::<W>(other, bits_from::<W, E>(from, count));
    SymmetricDifference::on_words::<W>(word, change)
}
