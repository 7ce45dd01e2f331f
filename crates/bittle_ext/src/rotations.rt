//! Rotates owned sets, a word at a time, and computes the words that rotations and shifts write.

ghost use Rattle.std.specs.Prelude.{◌≡◌, ◌+◌, ◌-◌, ◌*◌, ◌%◌, ◌^◌, ◌<◌, IsTrue};
ghost use Rattle.bittle.specs.BitPatterns.{bit_set};
ghost use Rattle.bittle_ext.specs.Rotations.{rotated_down, rotated_up};
ghost use Rattle.bittle_ext.specs.Rotations.{IsDistance, IsWordAfter, IsWindow, IsWordFrom};
ghost use Rattle.bittle.specs.Orders.{read_in};
ghost use Rattle.bittle.specs.Values.{set_in, ShapeFits};

use crate::capacities::capacity_of;
use bittle::{Bits, BitsOwned, Endian};
use bittle_bits::extension::{Word, word_width};

/// Returns the mask of all bits of a word.
#[inline]
pub fn all_bits<W: Word>() -> u128
    ensures value { result ≡ 2 ^ W.width - 1 }
    ensures width { W.width < 129 }
{
    W::zero().not().to_bits()
}

/// Returns a word that is cut from two neighbouring words. Its lowest bits are the bits of `low`
/// from the weight `2 ^ by` on. Above them are the `by` lowest bits of `high`.
///
/// `high` is shifted by 1 and then by the rest, so `by` 0 needs no branch. The remainder (`%`)
/// changes no result. It tells the compiler that `by` is below the width, so that words are shifted
/// instead of 128 bits.
#[inline]
fn funnel_down<W: Word>(low: W, high: W, by: u32) -> W
    requires { by < W.width }
    ensures { IsWindow W.width by (bit_set W.width (W.pattern low))
        (bit_set W.width (W.pattern high)) (bit_set W.width (W.pattern result)) }
{
    let width = W::width();
    let by = by % width;
    let ones = all_bits::<W>();
    let upper = high.to_bits() << 1 << (width - 1 - by) & ones;
    W::from_bits(upper | low.to_bits() >> by)
}

/// Returns a word that is cut from two neighbouring words. Its lowest bits are the `by` bits of
/// greatest weight of `low`. Above them are the `width - by` lowest bits of `high`.
#[inline]
fn funnel_up<W: Word>(low: W, high: W, by: u32) -> W
    requires { by < W.width }
    ensures { IsWindow W.width (W.width - by) (bit_set W.width (W.pattern low))
        (bit_set W.width (W.pattern high)) (bit_set W.width (W.pattern result)) }
{
    let width = W::width();
    let by = by % width;
    let ones = all_bits::<W>();
    let lower = low.to_bits() >> 1 >> (width - 1 - by);
    W::from_bits(high.to_bits() << by & ones | lower)
}

/// Returns a word that is cut from two neighbouring words, which are read in the order `E`. It has
/// the bits of `first` from the index `from` on, and after them the first `from` bits of `second`.
#[inline]
pub fn window<W: Word, E: Endian>(first: W, second: W, from: u32) -> W
    requires { from < W.width }
    ensures { IsWindow W.width from
        (read_in E.mirrored W.width (bit_set W.width (W.pattern first)))
        (read_in E.mirrored W.width (bit_set W.width (W.pattern second)))
        (read_in E.mirrored W.width (bit_set W.width (W.pattern result))) }
{
    if E::is_mirrored() {
        funnel_up::<W>(second, first, from)
    } else {
        funnel_down::<W>(first, second, from)
    }
}

/// Returns a word that is cut from two neighbouring words, which are read in the order `E`. It has
/// the last `to` bits of `first`, and after them the bits of `second` below the index `width - to`.
#[inline]
pub fn window_up_to<W: Word, E: Endian>(first: W, second: W, to: u32) -> W
    requires { to < W.width }
    ensures { IsWindow W.width (W.width - to)
        (read_in E.mirrored W.width (bit_set W.width (W.pattern first)))
        (read_in E.mirrored W.width (bit_set W.width (W.pattern second)))
        (read_in E.mirrored W.width (bit_set W.width (W.pattern result))) }
{
    if E::is_mirrored() {
        funnel_down::<W>(second, first, to)
    } else {
        funnel_up::<W>(first, second, to)
    }
}

/// Returns how many words a set has, how many whole words a move by `by` bits skips, and how many
/// bits of `by` remain after these words.
#[inline]
pub fn distance<B: Bits>(set: &B, by: u32) -> (usize, usize, u32)
    requires fits { ShapeFits B.Shape set.now }
    requires within { by < (B.big set.now).capacity }
    ensures { IsDistance B.width (B.big set.now).capacity by result.0 result.1 result.2 }
{
    let width = word_width::<B>();
    let words = (set.bits_capacity() / width) as usize;
    (words, (by / width) as usize, by % width)
}

/// Returns a word that is cut from two words of a set, which is read in the order `E`. It has the
/// bits of word `at` from the index `from` on, and after them the first `from` bits of word `next`.
#[inline]
pub fn word_from<B: Bits, E: Endian>(set: &B, at: usize, next: usize, from: u32) -> B::LeafWord
    requires fits { ShapeFits B.Shape set.now }
    requires next { IsWordAfter B.width (B.big set.now).capacity at next }
    requires within { from < B.width }
    ensures { IsWordFrom B.width (set_in B.Shape E.Endian set.now) (at * B.width + from)
        (read_in E.mirrored B.width (bit_set B.width (B.LeafWord.pattern result))) }
{
    window::<B::LeafWord, E>(set.nth_leaf_word(at), set.nth_leaf_word(next), from)
}

/// Returns by how much each bit moves down where it should move up by `by`, and wrap.
#[inline]
pub fn opposite(capacity: u32, by: u32) -> u32
    requires some { 0 < capacity }
    ensures within { result < capacity }
    ensures wrapped { result ≡ (capacity - by % capacity) % capacity }
{
    let up = by % capacity;
    if up == 0 { 0 } else { capacity - up }
}

/// Returns the set with each set bit moved down by `by`, which is below the capacity. A bit that
/// passes index 0 goes on at the last index.
///
/// One loop reads the words of `set` up to the last one, and a second loop reads those from the
/// first one on. So neither loop tests whether an index wraps.
#[inline]
fn rotate_within<B: BitsOwned, E: Endian>(set: &B, by: u32) -> B
    requires fits { IsTrue B.indexable }
    requires within { by < (B.big set.now).capacity }
    ensures { set_in B.Shape E.Endian result ≡ rotated_down (set_in B.Shape E.Endian set.now) by }
{
    let mut result = *set;
    let (words, skipped, from) = distance::<B>(set, by);
    let left = words - skipped;
    for k in 0..left - 1 {
        let word = word_from::<B, E>(set, k + skipped, k + skipped + 1, from);
        result.set_nth_leaf_word(k, word);
    }
    result.set_nth_leaf_word(left - 1, word_from::<B, E>(set, words - 1, 0, from));
    for k in left..words {
        let word = word_from::<B, E>(set, k - left, k - left + 1, from);
        result.set_nth_leaf_word(k, word);
    }
    result
}

/// Returns the set with each set bit moved down by `by`. A bit that passes index 0 goes on at the
/// last index.
#[inline]
pub fn rotate_down<B: BitsOwned, E: Endian>(set: &B, by: u32) -> B
    requires { IsTrue B.indexable }
    ensures { set_in B.Shape E.Endian result ≡ rotated_down (set_in B.Shape E.Endian set.now) by }
{
    let capacity = capacity_of::<B, E>(set);
    if capacity == 0 {
        return *set;
    }
    rotate_within::<B, E>(set, by % capacity)
}

/// Returns the set with each set bit moved up by `by`. A bit that passes the last index goes on at
/// 0.
#[inline]
pub fn rotate_up<B: BitsOwned, E: Endian>(set: &B, by: u32) -> B
    requires { IsTrue B.indexable }
    ensures { set_in B.Shape E.Endian result ≡ rotated_up (set_in B.Shape E.Endian set.now) by }
{
    let capacity = capacity_of::<B, E>(set);
    if capacity == 0 {
        return *set;
    }
    rotate_within::<B, E>(set, opposite(capacity, by))
}
