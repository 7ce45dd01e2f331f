//! Tests of iterators over the union, intersection, difference and symmetric difference of two sets
//! whose words differ in width or in bit order. The expected values are worked out by hand, or, for
//! random sets, by plain operators on two words of 64 bits.

ghost use Rattle.std.specs.Prelude.{◌<◌, max};
ghost use Rattle.bittle_ext.specs.Views.{rounded_up};
ghost use Rattle.bittle.specs.Values.{ShapeFits};

use crate::calls::{
    ALONE, BACK, COMMON, FRONT, UNION, UNLIKE, combination, combines, set_of, union_in,
};
use crate::checks::same;
use crate::random::draw;
use bittle::{Bits, LittleEndian, Set};
use bittle_ext::prelude::*;
use std::process::Abort;

#[test]
fn a_byte_and_a_wider_word(rt: HostRuntime) {
    // `byte` has the members 0 and 1, and `word` has 1, 2 and 8.
    let (byte, word) = (0b0011u8, 0x0106u16);
    let expected = [Some(0), Some(1), Some(2), Some(8), None];
    combines(&rt, UNION, &byte, &word, [FRONT; 5], expected);
    combines(&rt, COMMON, &byte, &word, [FRONT; 2], [Some(1), None]);
    combines(&rt, ALONE, &byte, &word, [BACK; 2], [Some(0), None]);
    combines(
        &rt,
        UNLIKE,
        &byte,
        &word,
        [FRONT; 4],
        [Some(0), Some(2), Some(8), None],
    );
}

#[test]
fn the_documented_examples_of_a_word_and_a_row_of_bytes(rt: HostRuntime) {
    // `word` has the member 31, and `row` has 24 and 32.
    let (word, row) = (0x8000_0000u32, [0u8, 0, 0, 1, 1]);
    let expected = [Some(24), Some(31), Some(32), None];
    combines(&rt, UNLIKE, &word, &row, [FRONT; 4], expected);
    // `high` has the member 32.
    let high = [0u8, 0, 0, 0, 1];
    let expected = [Some(31), Some(32), None];
    combines(&rt, UNION, &word, &high, [FRONT; 3], expected);
}

#[test]
fn a_byte_and_a_row_of_long_words_from_both_ends(rt: HostRuntime) {
    // `byte` has the members 0 and 7, and `row` has 1, 7, 8 and 64.
    let (byte, row) = (0x81u8, [0x0182u64, 1]);
    let turns = [FRONT, BACK, BACK, FRONT, FRONT, FRONT, BACK];
    let expected = [Some(0), Some(64), Some(8), Some(1), Some(7), None, None];
    combines(&rt, UNION, &byte, &row, turns, expected);
    let expected = [Some(64), Some(1), Some(8), None, None];
    combines(
        &rt,
        ALONE,
        &row,
        &byte,
        [BACK, FRONT, FRONT, FRONT, BACK],
        expected,
    );
}

#[test]
fn two_rows_each_in_its_own_order(rt: HostRuntime) {
    // `row` has the members 0, 15 and 33, and the little-endian `set` has 0, 33 and 63.
    let row = [0x8001u16, 0, 2];
    let set: Set<[u32; 2], LittleEndian> = Set::new_le([0x8000_0000, 0x4000_0001]);
    let expected = [Some(63), Some(0), Some(33), Some(15), None];
    combines(
        &rt,
        UNION,
        &row,
        &set,
        [BACK, FRONT, BACK, FRONT, FRONT],
        expected,
    );
    combines(
        &rt,
        COMMON,
        &set,
        &row,
        [FRONT, BACK, FRONT],
        [Some(0), Some(33), None],
    );
    combines(&rt, ALONE, &row, &set, [FRONT; 2], [Some(15), None]);
    combines(
        &rt,
        UNLIKE,
        &set,
        &row,
        [BACK; 3],
        [Some(63), Some(15), None],
    );
}

#[test]
fn two_widths_from_the_left(rt: HostRuntime) {
    // In little-endian order, `byte` has the members 0 and 1, and `row` has 1, 2 and 64.
    let (byte, row) = (
        0b1100_0000u8,
        [0x6000_0000_0000_0000u64, 0x8000_0000_0000_0000],
    );
    let turns = [FRONT, BACK, BACK, FRONT, FRONT];
    let either = union_in::<_, _, LittleEndian, 5>(&byte, &row, turns);
    same!(rt; either, [Some(0), Some(64), Some(2), Some(1), None]);
}

#[test]
fn a_capacity_of_no_whole_words_of_the_other(rt: HostRuntime) {
    // `word` has the member 63, and `bytes`, whose capacity is 72, has 8 and 71.
    let (word, bytes) = (0x8000_0000_0000_0000u64, [0u8, 1, 0, 0, 0, 0, 0, 0, 0x80]);
    let expected = [Some(71), Some(63), Some(8), None];
    combines(
        &rt,
        UNION,
        &word,
        &bytes,
        [BACK, BACK, BACK, FRONT],
        expected,
    );
    combines(&rt, COMMON, &bytes, &word, [FRONT, BACK], [None, None]);
}

#[test]
fn capacity_0(rt: HostRuntime) {
    let (none, wide): ([u8; 0], [u64; 0]) = ([], []);
    combines(&rt, UNION, &none, &wide, [FRONT], [None]);
    combines(&rt, UNION, &none, &0x8000u16, [FRONT], [Some(15)]);
    combines(&rt, UNLIKE, &0x8000u16, &none, [BACK], [Some(15)]);
    combines(&rt, ALONE, &wide, &0xFFu8, [BACK], [None]);
}

// Makes the set of the indexes that an iterator over a combination of two sets yields. The items of
// a union are taken from both ends in turn, and those of another combination from one end.
fn walked<A: Bits, B: Bits>(kind: u32, one: &A, other: &B) -> [u64; 2]
    requires one_fits { ShapeFits A.Shape one.now }
    requires other_fits { ShapeFits B.Shape other.now }
    requires rounded { rounded_up (max (A.big one.now).capacity (B.big other.now).capacity) A.width
        < 4294967295 }
{
    let mut turns = [if kind == ALONE { FRONT } else { BACK }; 129];
    if kind == UNION {
        for k in 0..65usize {
            turns[2 * k] = FRONT;
        }
    }
    set_of(combination(kind, one, other, turns))
}

// Makes the set that `walked` should make, by plain operators. Bit `i` of the two words of a set is
// bit `i % 64` of its word `i / 64`.
fn plain(kind: u32, ours: [u64; 2], theirs: [u64; 2]) -> [u64; 2] {
    let mut made = [0u64; 2];
    for k in 0..2usize {
        made[k] = match kind {
            UNION => ours[k] | theirs[k],
            COMMON => ours[k] & theirs[k],
            ALONE => ours[k] & !theirs[k],
            _ => ours[k] ^ theirs[k],
        };
    }
    made
}

// Draws a random word.
fn draw_word(state: &mut u32) -> u64 {
    u64::from(draw(state)) << 40 ^ u64::from(draw(state)) << 20 ^ u64::from(draw(state))
}

// Checks that `walked` and `plain` make the same set, both for `one` combined with `other` and for
// `other` combined with `one`. `ours` and `theirs` have the bits of `one` and of `other`.
fn agree<A: Bits, B: Bits>(
    rt: &impl Abort,
    kind: u32,
    one: &A,
    other: &B,
    ours: [u64; 2],
    theirs: [u64; 2],
)
    requires one_fits { ShapeFits A.Shape one.now }
    requires other_fits { ShapeFits B.Shape other.now }
    requires rounded { rounded_up (max (A.big one.now).capacity (B.big other.now).capacity) A.width
        < 4294967295 }
    requires turned { rounded_up (max (B.big other.now).capacity (A.big one.now).capacity) B.width
        < 4294967295 }
{
    same!(*rt; walked(kind, one, other), plain(kind, ours, theirs));
    same!(*rt; walked(kind, other, one), plain(kind, theirs, ours));
}

#[test]
fn drawn_unlike_sets_agree_with_plain_operators(rt: HostRuntime) {
    let mut state = 17;
    for turn in 0..1000u32 {
        let kind = turn % 4;
        let byte = (draw(&mut state) % 256) as u8;
        let row = [draw_word(&mut state), draw_word(&mut state)];
        agree(&rt, kind, &byte, &row, [u64::from(byte), 0], row);
        let (low, high) = (draw(&mut state), draw(&mut state));
        let set: Set<[u32; 2], LittleEndian> = Set::new_le([low, high]);
        // In little-endian order, bit 0 of a word is its highest bit.
        let left = u64::from(low.reverse_bits()) ^ u64::from(high.reverse_bits()) << 32;
        let one = (draw(&mut state) % 65536) as u16;
        let two = (draw(&mut state) % 65536) as u16;
        let three = (draw(&mut state) % 65536) as u16;
        let right = u64::from(one) ^ u64::from(two) << 16 ^ u64::from(three) << 32;
        agree(&rt, kind, &[one, two, three], &set, [right, 0], [left, 0]);
    }
}
