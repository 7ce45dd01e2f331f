//! Moves all bits of a set in place, a word at a time. A move down begins at the first word, a move
//! up at the last one, so each word is read before it is overwritten.

ghost use Rattle.std.specs.Prelude.{◌≡◌};
ghost use Rattle.bittle_ext.specs.Rotations.{shifted_down, shifted_up};
ghost use Rattle.bittle.specs.Values.{set_in, ShapeFits};

use crate::capacities::capacity_of;
use crate::rotations::{distance, window, window_up_to};
use bittle::{BitsMut, Endian};
use bittle_bits::extension::Word;

/// Moves each set bit down by `by`. A bit that would pass index 0 is dropped.
#[inline]
pub fn shift_down<B: BitsMut, E: Endian>(set: &mut B, by: u32)
    requires { ShapeFits B.Shape set.old }
    ensures set { set_in B.Shape E.Endian set.new
        ≡ shifted_down (set_in B.Shape E.Endian set.old) by }
    ensures stays { B.loan set.old ≡ B.loan set.new }
{
    if by >= capacity_of::<B, E>(set) {
        set.clear_bits();
        return;
    }
    let none = <B::LeafWord as Word>::zero();
    let (words, skipped, from) = distance::<B>(set, by);
    let left = words - skipped;
    for k in 0..left - 1 {
        let first = set.nth_leaf_word(k + skipped);
        let second = set.nth_leaf_word(k + skipped + 1);
        set.set_nth_leaf_word(k, window::<B::LeafWord, E>(first, second, from));
    }
    let last = set.nth_leaf_word(words - 1);
    set.set_nth_leaf_word(left - 1, window::<B::LeafWord, E>(last, none, from));
    for k in left..words {
        set.set_nth_leaf_word(k, none);
    }
}

/// Moves each set bit up by `by`. A bit that would reach the capacity is dropped.
#[inline]
pub fn shift_up<B: BitsMut, E: Endian>(set: &mut B, by: u32)
    requires { ShapeFits B.Shape set.old }
    ensures set { set_in B.Shape E.Endian set.new
        ≡ shifted_up (set_in B.Shape E.Endian set.old) by }
    ensures stays { B.loan set.old ≡ B.loan set.new }
{
    if by >= capacity_of::<B, E>(set) {
        set.clear_bits();
        return;
    }
    let none = <B::LeafWord as Word>::zero();
    let (words, skipped, to) = distance::<B>(set, by);
    let mut k = words - 1;
    while skipped < k {
        let first = set.nth_leaf_word(k - skipped - 1);
        let second = set.nth_leaf_word(k - skipped);
        set.set_nth_leaf_word(k, window_up_to::<B::LeafWord, E>(first, second, to));
        k -= 1;
    }
    let first = set.nth_leaf_word(0);
    set.set_nth_leaf_word(skipped, window_up_to::<B::LeafWord, E>(none, first, to));
    while 0 < k {
        k -= 1;
        set.set_nth_leaf_word(k, none);
    }
}
