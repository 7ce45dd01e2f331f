//! Counts and tests of all bits, and tests of one bit, for any set that is read word by word.

ghost use Rattle.std.specs.Prelude.{◌≡◌, ◌+◌, ◌*◌, ◌<◌, ◌≤◌, ◌==◌, Bool};
ghost use Rattle.bittle.specs.Searches.{PassesOver};
ghost use Rattle.bittle.specs.PlainSet.{contains, members_below, size};
ghost use Rattle.bittle.specs.Values.{set_in, set_mirrored, ShapeFits};

use bittle::{BigEndian, Endian};
use bittle_bits::extension::{
    End, Ones, ReadWords, Word, Zeros, first_in_words, test_bit, word_width,
};

/// Counts the set bits of word `k`.
#[inline(always)]
pub fn count_word<B: ReadWords, E: Endian>(bits: &B, k: u32) -> u32
    requires fits { ShapeFits B.Shape bits.now }
    requires word { k * B.width < (B.big bits.now).capacity }
    ensures { let ours = set_in B.Shape E.Endian bits.now in
        members_below ours (k * B.width) + result ≡ members_below ours ((k + 1) * B.width) }
{
    bits.nth_leaf_word(k as usize).count_ones()
}

/// Counts the set bits.
#[inline]
pub fn count<B: ReadWords>(bits: &B) -> u32
    requires { ShapeFits B.Shape bits.now }
    ensures value { result ≡ size (B.big bits.now) }
    ensures in_each_order { (mirrored : Bool) →
        result ≡ size (set_mirrored B.Shape mirrored bits.now) }
    ensures at_most { result ≤ (B.big bits.now).capacity }
{
    let mut count = 0;
    for k in 0..bits.capacity() / word_width::<B>() {
        count += count_word::<B, BigEndian>(bits, k);
    }
    count
}

/// Moves the end `N` of the words `low..high` past words that the set does not have, or knows to be
/// empty. Returns the new `low` if `N` is the front, else the new `high`. The words have the width
/// of the set's words.
#[inline]
pub fn passed<B: ReadWords, N: End>(bits: &B, low: usize, high: usize) -> usize
    requires fits { ShapeFits B.Shape bits.now }
    requires ordered { low ≤ high }
    ensures { PassesOver N.FRONT B.width (B.big bits.now) low high result }
{
    let words = (bits.capacity() / word_width::<B>()) as usize;
    let last = high.min(words);
    if last <= low {
        return if N::FRONT { high } else { low };
    }
    let end = bits.pass_over::<Ones, N>(low, last);
    if N::FRONT && end == last { high } else { end }
}

/// Returns whether no bit is set.
#[inline]
pub fn is_empty<B: ReadWords>(bits: &B) -> bool
    requires { ShapeFits B.Shape bits.now }
    ensures value { result ≡ (size (B.big bits.now) == 0) }
    ensures in_each_order { (mirrored : Bool) →
        result ≡ (size (set_mirrored B.Shape mirrored bits.now) == 0) }
{
    let words = bits.capacity() / word_width::<B>();
    first_in_words::<B, BigEndian, Ones>(bits, words).is_none()
}

/// Returns whether each bit is set.
#[inline]
pub fn is_full<B: ReadWords>(bits: &B) -> bool
    requires { ShapeFits B.Shape bits.now }
    ensures value { result ≡ (size (B.big bits.now) == (B.big bits.now).capacity) }
    ensures in_each_order { (mirrored : Bool) → result
        ≡ (size (set_mirrored B.Shape mirrored bits.now) == (B.big bits.now).capacity) }
{
    let words = bits.capacity() / word_width::<B>();
    first_in_words::<B, BigEndian, Zeros>(bits, words).is_none()
}

/// Returns whether the bit at `index` is set. An index at or past the capacity wraps. With capacity
/// 0 it returns `false`.
#[inline]
pub fn test<B: ReadWords, E: Endian>(bits: &B, index: u32) -> bool
    requires { ShapeFits B.Shape bits.now }
    ensures { result ≡ contains (set_in B.Shape E.Endian bits.now) index }
{
    let capacity = bits.capacity();
    if capacity == 0 {
        return false;
    }
    let at = index % capacity;
    let width = word_width::<B>();
    test_bit::<B::LeafWord, E>(bits.nth_leaf_word((at / width) as usize), at % width)
}
