//! Tests random changes of sets of 24 bits against plain loops over 24 flags.

ghost use Rattle.std.specs.Prelude.{IsTrue};
ghost use Rattle.bittle.specs.Values.{ShapeFits};

use crate::calls::even;
use crate::flags::{ask, draw};
use bittle::{BigEndian, Bits, BitsMut, BitsOwned, Endian, LittleEndian, Shape};
use bittle_tiers::{Kind, Ones, Tiered, Zeros};
use std::process::Abort;

// Sets or clears a random bit of a set, and its flag. The index may wrap.
fn change_one<B: BitsMut, E: Endian>(state: &mut u32, set: &mut B, flags: &mut [bool; 24])
    requires { IsTrue B.indexable }
{
    let index = draw(state) % 50;
    let at = (index % 24) as usize;
    if draw(state) % 2 == 0 {
        set.set_bit_in::<E>(index);
        flags[at] = true;
    } else {
        set.clear_bit_in::<E>(index);
        flags[at] = false;
    }
}

// Sets, clears or toggles a random range of a set, and of its flags.
fn change_range<B: BitsMut, E: Endian>(state: &mut u32, set: &mut B, flags: &mut [bool; 24])
    requires { ShapeFits B.Shape set.old }
{
    let capacity = set.bits_capacity();
    let (one, other) = (draw(state) % 25, draw(state) % 25);
    let (from, to) = (one.min(other).min(capacity), one.max(other).min(capacity));
    let kind = draw(state) % 3;
    match kind {
        0 => set.set_range_in::<E>(from, to),
        1 => set.clear_range_in::<E>(from, to),
        _ => set.toggle_range_in::<E>(from, to),
    }
    for i in from as usize..to as usize {
        flags[i] = match kind {
            0 => true,
            1 => false,
            _ => !flags[i],
        };
    }
}

// Returns a random set, and its flags.
fn draw_set<B: BitsOwned, E: Endian>(state: &mut u32) -> (B, [bool; 24])
    requires { IsTrue B.indexable }
{
    let mut set = B::zeros();
    let mut flags = [false; 24];
    for _ in 0..draw(state) % 8 {
        let index = draw(state) % 24;
        set.set_bit_in::<E>(index);
        flags[index as usize] = true;
    }
    (set, flags)
}

// Combines a set with a random set by a random operation. Does the same with their flags.
fn combine<B: BitsOwned, E: Endian>(state: &mut u32, set: &mut B, flags: &mut [bool; 24])
    requires { IsTrue B.indexable }
{
    let (other, others) = draw_set::<B, E>(state);
    let kind = draw(state) % 4;
    match kind {
        0 => set.union_assign(&other),
        1 => set.conjunction_assign(&other),
        2 => set.difference_assign(&other),
        _ => set.symmetric_difference_assign(&other),
    }
    for i in 0..24usize {
        flags[i] = match kind {
            0 => flags[i] || others[i],
            1 => flags[i] && others[i],
            2 => flags[i] && !others[i],
            _ => flags[i] != others[i],
        };
    }
}

// Clears all bits of a set and of its flags, or sets them all, at random.
fn change_all<B: BitsOwned>(state: &mut u32, set: &mut B, flags: &mut [bool; 24])
    requires { IsTrue B.indexable }
{
    if draw(state) % 2 == 0 {
        set.clear_bits();
        *flags = [false; 24];
    } else {
        *set = B::ones();
        *flags = [true; 24];
    }
}

// Makes a random change of a set, and of its flags.
fn change<B: BitsOwned, E: Endian>(state: &mut u32, set: &mut B, flags: &mut [bool; 24])
    requires indexable { IsTrue B.indexable }
    requires fits { ShapeFits B.Shape set.old }
{
    match draw(state) % 8 {
        0 => change_all::<B>(state, set, flags),
        1 | 2 => change_range::<B, E>(state, set, flags),
        3 => combine::<B, E>(state, set, flags),
        _ => change_one::<B, E>(state, set, flags),
    }
}

// Makes 300 random changes of the full or the empty set of a type, and of its flags. After each
// change, tests that the set agrees with the flags. `seed` determines the changes.
fn agree_with_plain_loops<B: BitsOwned, E: Endian>(rt: &impl Abort, seed: u32, all: bool)
    requires { IsTrue B.indexable }
{
    let mut state = seed;
    let mut set = even::<B>(all);
    let mut flags = [all; 24];
    for _ in 0..300 {
        change::<B, E>(&mut state, &mut set, &mut flags);
        ask::<B, E>(rt, &mut state, &set, &flags);
    }
}

// Does the same as `agree_with_plain_loops` for a set with a summary.
fn agree_on_tier<B: BitsOwned, S: BitsOwned, K: Kind, E: Endian>(
    rt: &impl Abort,
    seed: u32,
    all: bool,
)
    requires { IsTrue ⟦<Tiered<B, S, K> as Shape>⟧.indexable }
{
    agree_with_plain_loops::<Tiered<B, S, K>, E>(rt, seed, all);
}

// Does the same as `agree_on_tier` for a map of three bytes with a summary of one byte.
fn agree_on_bytes<K: Kind, E: Endian>(rt: &impl Abort, seed: u32, all: bool) {
    agree_on_tier::<[u8; 3], u8, K, E>(rt, seed, all);
}

#[test]
fn a_summary_of_the_ones_agrees_in_little_endian_order(rt: HostRuntime) {
    agree_on_bytes::<Ones, LittleEndian>(&rt, 2, false);
}

#[test]
fn a_summary_of_the_zeros_agrees_in_little_endian_order(rt: HostRuntime) {
    agree_on_bytes::<Zeros, LittleEndian>(&rt, 4, true);
}

// The set has two summaries. The inner one shows which words have set bits, the outer one which
// words have unset bits.
#[test]
fn a_summary_for_either_kind_agrees_with_plain_loops(rt: HostRuntime) {
    agree_on_tier::<Tiered<[u8; 3], u8, Ones>, u8, Zeros, BigEndian>(&rt, 6, false);
}
