//! Rotates all bits of a set in place. A rotation by few bits, in either direction, first computes
//! the one or two words that wrapped bits come to. A shift then moves the other bits. A longer
//! rotation first rotates whole words, by three reversals. The bits are few if they are fewer than
//! those of two words downward, and at most as many upward.

ghost use Rattle.std.specs.Prelude.{◌≡◌, ◌+◌, ◌*◌, ◌<◌, ◌≤◌};
ghost use Rattle.bittle_ext.specs.Rotations.{exchanged, HasWordsOf, mirrored_within};
ghost use Rattle.bittle_ext.specs.Rotations.{rotated_down, rotated_up};
ghost use Rattle.bittle.specs.Values.{set_in, ShapeFits};

use crate::capacities::capacity_of;
use crate::rotations::{distance, opposite, window, word_from};
use crate::shifts::{shift_down, shift_up};
use bittle::{BitsMut, Endian};

/// Exchanges two words.
#[inline]
fn swap_words<B: BitsMut, E: Endian>(set: &mut B, i: usize, j: usize)
    requires fits { ShapeFits B.Shape set.old }
    requires first { i * B.width < (B.big set.old).capacity }
    requires second { j * B.width < (B.big set.old).capacity }
    ensures words { HasWordsOf B.width (exchanged i j) (set_in B.Shape E.Endian set.old)
        (set_in B.Shape E.Endian set.new) }
    ensures stays { B.loan set.old ≡ B.loan set.new }
{
    let first = set.nth_leaf_word(i);
    let second = set.nth_leaf_word(j);
    set.set_nth_leaf_word(i, second);
    set.set_nth_leaf_word(j, first);
}

/// Reverses the order of the words `from..to`. The bits in each word keep their places.
#[inline(always)]
fn reverse_words<B: BitsMut, E: Endian>(set: &mut B, from: usize, to: usize)
    requires fits { ShapeFits B.Shape set.old }
    requires ordered { from ≤ to }
    requires within { to * B.width ≤ (B.big set.old).capacity }
    ensures words { HasWordsOf B.width (mirrored_within from to) (set_in B.Shape E.Endian set.old)
        (set_in B.Shape E.Endian set.new) }
    ensures stays { B.loan set.old ≡ B.loan set.new }
{
    for k in 0..(to - from) / 2 {
        swap_words::<B, E>(set, from + k, to - 1 - k);
    }
}

/// Moves each of the `words` words of a set down by `by` words. A word that would pass the first
/// place goes on at the last place.
#[inline(always)]
fn rotate_words<B: BitsMut, E: Endian>(set: &mut B, by: usize, words: usize)
    requires fits { ShapeFits B.Shape set.old }
    requires whole { words * B.width ≡ (B.big set.old).capacity }
    requires fewer { by < words }
    ensures set { set_in B.Shape E.Endian set.new
        ≡ rotated_down (set_in B.Shape E.Endian set.old) (by * B.width) }
    ensures stays { B.loan set.old ≡ B.loan set.new }
{
    if by == 0 {
        return;
    }
    reverse_words::<B, E>(set, 0, by);
    reverse_words::<B, E>(set, by, words);
    reverse_words::<B, E>(set, 0, words);
}

/// Moves each bit of a set of one word down by `by`, which is below the width of the word. A bit
/// that passes index 0 goes on at the last index.
#[inline(always)]
fn rotate_word<B: BitsMut, E: Endian>(set: &mut B, by: u32)
    requires fits { ShapeFits B.Shape set.old }
    requires part { by < B.width }
    requires one { (B.big set.old).capacity ≡ B.width }
    ensures set { set_in B.Shape E.Endian set.new
        ≡ rotated_down (set_in B.Shape E.Endian set.old) by }
    ensures stays { B.loan set.old ≡ B.loan set.new }
{
    let word = set.nth_leaf_word(0);
    set.set_nth_leaf_word(0, window::<B::LeafWord, E>(word, word, by));
}

/// Moves each bit down by `by`, which is less than the width of two words. A bit that passes index
/// 0 goes on at the last index.
///
/// In the result, one or two words at the end have bits that passed index 0. These words are
/// computed before the shift, and written after it.
#[inline(always)]
fn rotate_bits<B: BitsMut, E: Endian>(set: &mut B, by: u32)
    requires fits { ShapeFits B.Shape set.old }
    requires part { by < B.width + B.width }
    requires within { by < (B.big set.old).capacity }
    ensures set { set_in B.Shape E.Endian set.new
        ≡ rotated_down (set_in B.Shape E.Endian set.old) by }
    ensures stays { B.loan set.old ≡ B.loan set.new }
{
    if by == 0 {
        return;
    }
    let (words, skipped, from) = distance::<B>(set, by);
    let last = words - 1;
    let wrapped = word_from::<B, E>(set, last, 0, from);
    let end = if skipped == 0 {
        wrapped
    } else {
        word_from::<B, E>(set, 0, 1, from)
    };
    shift_down::<B, E>(set, by);
    set.set_nth_leaf_word(last, end);
    if skipped != 0 {
        set.set_nth_leaf_word(last - 1, wrapped);
    }
}

/// Rotates the bits down by `by`. For this each bit moves up by `capacity - by`, which is at most
/// the width of two words. A bit that passes the last index goes on at 0.
///
/// In the result, one or two words at the start have bits that passed the last index. These words
/// are computed before the shift, and written after it.
#[inline(always)]
fn rotate_bits_up<B: BitsMut, E: Endian>(set: &mut B, by: u32)
    requires fits { ShapeFits B.Shape set.old }
    requires part { (B.big set.old).capacity ≤ by + B.width + B.width }
    requires within { by < (B.big set.old).capacity }
    ensures set { set_in B.Shape E.Endian set.new
        ≡ rotated_down (set_in B.Shape E.Endian set.old) by }
    ensures stays { B.loan set.old ≡ B.loan set.new }
{
    let up = capacity_of::<B, E>(set) - by;
    let (words, skipped, from) = distance::<B>(set, by);
    let last = words - 1;
    let wrapped = word_from::<B, E>(set, last, 0, from);
    let start = if skipped == last {
        wrapped
    } else {
        word_from::<B, E>(set, skipped, last, from)
    };
    shift_up::<B, E>(set, up);
    set.set_nth_leaf_word(0, start);
    if skipped != last {
        set.set_nth_leaf_word(1, wrapped);
    }
}

/// Moves each bit down by `by`, which is below the capacity. A bit that passes index 0 goes on at
/// the last index.
#[inline(always)]
fn rotate_within<B: BitsMut, E: Endian>(set: &mut B, by: u32)
    requires fits { ShapeFits B.Shape set.old }
    requires within { by < (B.big set.old).capacity }
    ensures set { set_in B.Shape E.Endian set.new
        ≡ rotated_down (set_in B.Shape E.Endian set.old) by }
    ensures stays { B.loan set.old ≡ B.loan set.new }
{
    let (words, skipped, from) = distance::<B>(set, by);
    if words == 1 {
        rotate_word::<B, E>(set, by);
    } else if skipped < 2 {
        rotate_bits::<B, E>(set, by);
    } else if words - skipped <= 2 {
        rotate_bits_up::<B, E>(set, by);
    } else {
        rotate_words::<B, E>(set, skipped, words);
        rotate_bits::<B, E>(set, from);
    }
}

/// Moves each bit down by `by`. A bit that passes index 0 goes on at the last index.
#[inline(always)]
pub fn rotate_down<B: BitsMut, E: Endian>(set: &mut B, by: u32)
    requires { ShapeFits B.Shape set.old }
    ensures set { set_in B.Shape E.Endian set.new
        ≡ rotated_down (set_in B.Shape E.Endian set.old) by }
    ensures stays { B.loan set.old ≡ B.loan set.new }
{
    let capacity = capacity_of::<B, E>(set);
    if capacity > 0 {
        rotate_within::<B, E>(set, by % capacity);
    }
}

/// Moves each bit up by `by`. A bit that passes the last index goes on at 0.
#[inline(always)]
pub fn rotate_up<B: BitsMut, E: Endian>(set: &mut B, by: u32)
    requires { ShapeFits B.Shape set.old }
    ensures set { set_in B.Shape E.Endian set.new
        ≡ rotated_up (set_in B.Shape E.Endian set.old) by }
    ensures stays { B.loan set.old ≡ B.loan set.new }
{
    let capacity = capacity_of::<B, E>(set);
    if capacity > 0 {
        rotate_within::<B, E>(set, opposite(capacity, by));
    }
}
