//! Keeps a set of 24 bits as an array of flags, which plain loops read. Tests that a set agrees
//! with its flags.

ghost use Rattle.bittle.specs.Values.{ShapeFits};

use crate::calls::searches;
use crate::checks::same;
use bittle::walk::Iter;
use bittle::{Bits, Endian};
use bittle_tiers::Kind;
use std::process::Abort;

// Returns the next pseudo-random number, below 2^24, and changes the state of the generator.
pub(crate) fn draw(state: &mut u32) -> u32 {
    *state = state.wrapping_mul(1_664_525).wrapping_add(1_013_904_223);
    *state >> 8
}

// Returns the index of the first flag in `from..to` that equals `wanted`, or `None`.
pub(crate) fn first_of(flags: &[bool; 24], from: u32, to: u32, wanted: bool) -> Option<u32> {
    for i in from as usize..(to as usize).min(24) {
        if flags[i] == wanted {
            return Some(i as u32);
        }
    }
    None
}

// Returns the index of the last flag in `from..to` that equals `wanted`, or `None`.
pub(crate) fn last_of(flags: &[bool; 24], from: u32, to: u32, wanted: bool) -> Option<u32> {
    let mut found = None;
    for i in from as usize..(to as usize).min(24) {
        if flags[i] == wanted {
            found = Some(i as u32);
        }
    }
    found
}

// Returns how many flags are set.
pub(crate) fn count(flags: &[bool; 24]) -> u32 {
    let mut count = 0u32;
    for i in 0..24usize {
        if flags[i] {
            count = count.saturating_add(1);
        }
    }
    count
}

// Tests the four searches in a random range.
pub(crate) fn ask_searches<B: Bits, E: Endian>(
    rt: &impl Abort,
    state: &mut u32,
    set: &B,
    flags: &[bool; 24],
)
    requires { ShapeFits B.Shape set.now }
{
    let (one, other) = (draw(state) % 25, draw(state) % 25);
    let (from, to) = (one.min(other), one.max(other));
    let expected = [
        first_of(flags, from, to, true),
        last_of(flags, from, to, true),
        first_of(flags, from, to, false),
        last_of(flags, from, to, false),
    ];
    same!(*rt; searches::<B, E>(set, from, to), expected);
}

// Tests the calls on all bits of a set, and `test_bit_in` at a random index, which may wrap.
pub(crate) fn ask_whole<B: Bits, E: Endian>(
    rt: &impl Abort,
    state: &mut u32,
    set: &B,
    flags: &[bool; 24],
)
    requires { ShapeFits B.Shape set.now }
{
    same!(*rt; set.count_ones(), count(flags));
    same!(*rt; set.all_zeros(), count(flags) == 0);
    same!(*rt; set.all_ones(), count(flags) == 24);
    let index = draw(state) % 50;
    same!(*rt; set.test_bit_in::<E>(index), flags[(index % 24) as usize]);
}

// Steps an iterator until no item is left, each time at random from the front or from the back.
// Tests each item.
pub(crate) fn ask_steps<B: Bits, E: Endian, K: Kind>(
    rt: &impl Abort,
    state: &mut u32,
    mut walk: Iter<'_, B, E, K>,
    flags: &[bool; 24],
) {
    let (mut low, mut high) = (0, 24);
    for _ in 0..26 {
        if draw(state) % 2 == 0 {
            let expected = first_of(flags, low, high, K::ONES);
            low = expected.map_or(high, |item| item.saturating_add(1));
            same!(*rt; walk.next(), expected);
        } else {
            let expected = last_of(flags, low, high, K::ONES);
            high = expected.unwrap_or(low);
            same!(*rt; walk.next_back(), expected);
        }
    }
}

// Makes all tests of this file on a set, in the order `E`.
pub(crate) fn ask<B: Bits, E: Endian>(rt: &impl Abort, state: &mut u32, set: &B, flags: &[bool; 24])
    requires { ShapeFits B.Shape set.now }
{
    ask_searches::<B, E>(rt, state, set, flags);
    ask_whole::<B, E>(rt, state, set, flags);
    ask_steps(rt, state, set.iter_ones_in::<E>(), flags);
    ask_steps(rt, state, set.iter_zeros_in::<E>(), flags);
}
