//! Tests of sets that are rotated and shifted. The expected values are worked out by hand, or by a
//! loop over the indexes.

ghost use Rattle.std.specs.Prelude.{◌<◌, IsTrue};

use crate::between::turned;
use crate::checks::{holds, same};
use bittle::prelude::*;
use bittle::{BigEndian, BitsOwned, Endian, LittleEndian, Set};
use bittle_ext::prelude::*;
use std::process::Abort;

// Returns the set rotated down, rotated up, shifted down and shifted up, each by its own distance.
fn moved_each_way<B: BitsOwned>(set: B, by: [u32; 4]) -> [B; 4]
    requires { IsTrue B.indexable }
{
    let mut sets = [set; 4];
    for way in 0..4usize {
        sets[way] = moved(way as u32, set, by[way]);
    }
    sets
}

// Calls `moved_each_way` on the set in the order `E`.
fn moved_each_way_in<B: BitsOwned, E: Endian>(set: B, by: [u32; 4]) -> [B; 4]
    requires { IsTrue B.indexable }
{
    let mut sets = [set; 4];
    for way in 0..4usize {
        sets[way] = moved_in::<B, E>(way as u32, set, by[way]);
    }
    sets
}

#[test]
fn a_word(rt: HostRuntime) {
    // Bits 1 and 4 are set.
    let word = 0b0001_0010u8;
    let words = moved_each_way(word, [2, 4, 2, 4]);
    same!(rt; words, [0b1000_0100, 0b0010_0001, 0b0000_0100, 0b0010_0000]);
    same!(rt; moved_each_way(word, [0; 4]), [word; 4]);
}

#[test]
fn a_word_from_the_left(rt: HostRuntime) {
    // In little-endian order, bits 1 and 4 are set.
    let words = moved_each_way_in::<_, LittleEndian>(0b0100_1000u8, [2, 4, 2, 4]);
    same!(rt; words, [0b0010_0001, 0b1000_0100, 0b0010_0000, 0b0000_0100]);
}

#[test]
fn distances_past_the_capacity(rt: HostRuntime) {
    // Bits 1 and 4 are set. A rotation by `u32::MAX` is a rotation by 7.
    let word = 0b0001_0010u8;
    same!(rt; moved_each_way(word, [8; 4]), [word, word, 0, 0]);
    let words = moved_each_way(word, [10, u32::MAX, u32::MAX, u32::MAX]);
    same!(rt; words, [0b1000_0100, 0b0000_1001, 0, 0]);
}

#[test]
fn words_of_other_types(rt: HostRuntime) {
    same!(rt; moved(1, i16::MIN, 1), 1);
    same!(rt; moved(2, -1i16, 1), i16::MAX);
}

#[test]
fn a_row(rt: HostRuntime) {
    // Bits 0, 7 and 23 are set.
    let row = [0x81u8, 0, 0x80];
    let rows = moved_each_way(row, [7, 1, 8, 9]);
    same!(rt; (rows[0], rows[1]), ([0x01, 0, 0x03], [0x03, 0x01, 0]));
    same!(rt; (rows[2], rows[3]), ([0, 0x80, 0], [0, 0x02, 0x01]));
    same!(rt; moved(0, row, 8), [0, 0x80, 0x81]);
}

#[test]
fn a_row_from_the_left(rt: HostRuntime) {
    // In little-endian order, bits 0, 7 and 16 are set.
    let rows = moved_each_way_in::<_, LittleEndian>([0x81u8, 0, 0x80], [1, 9, 7, 9]);
    same!(rt; (rows[0], rows[1]), ([0x02, 0x01, 0x01], [0x40, 0x40, 0x80]));
    same!(rt; (rows[2], rows[3]), ([0x80, 0x40, 0], [0, 0x40, 0x80]));
}

// Returns the index to which the call that `way` selects in `moved` moves the bit at `index`, or
// `None` if the bit is shifted out.
fn target(way: u32, index: u32, by: u32, capacity: u32) -> Option<u32>
    requires { index < capacity }
{
    let (from, far, all) = (index as u64, by as u64, capacity as u64);
    match way {
        0 | 4 => Some((from.wrapping_add(all).wrapping_sub(far % all) % all) as u32),
        1 | 5 => Some((from.wrapping_add(far) % all) as u32),
        2 => index.checked_sub(by),
        _ => if from.wrapping_add(far) < all {
            Some(index.wrapping_add(by))
        } else {
            None
        },
    }
}

// Makes the set that `moved_in` should return, by a loop over the indexes.
fn looped<B: BitsOwned, E: Endian>(way: u32, set: &B, by: u32) -> B
    requires { IsTrue B.indexable }
{
    let mut made = B::zeros();
    let capacity = B::bits();
    for index in 0..capacity {
        if set.test_bit_in::<E>(index) {
            if let Some(to) = target(way, index, by, capacity) {
                made.set_bit_in::<E>(to);
            }
        }
    }
    made
}

// Makes one call that moves all bits of the set by `by` indexes, and returns the set. `way` selects
// one of six calls. Indexes follow the bit order `E`.
fn moved_in<B: BitsOwned, E: Endian>(way: u32, set: B, by: u32) -> B
    requires { IsTrue B.indexable }
{
    moved(way, Set::<B, E>::new_in(set), by).into_bits()
}

// Returns `set` with its bits moved by `by` indexes, in the order of the type. `way` selects one of
// four calls, or, if it is 4 or 5, one of two rotations in place.
pub(crate) fn moved<B: BitsOwned>(way: u32, set: B, by: u32) -> B
    requires { IsTrue B.indexable }
{
    match way {
        0 => set.rotated_down(by),
        1 => set.rotated_up(by),
        2 => set.shifted_down(by),
        3 => set.shifted_up(by),
        _ => turned(way != 4, set, by),
    }
}

// Compares the six calls of `moved` with the loop of `looped`, for one distance.
fn agree_at<B: BitsOwned>(rt: &impl Abort, set: B, by: u32)
    requires { IsTrue B.indexable }
{
    for way in 0..6u32 {
        let left = moved_in::<B, LittleEndian>(way, set, by);
        crate::checks::ask(rt, "LE", left == looped::<B, LittleEndian>(way, &set, by));
        let right = moved_in::<B, BigEndian>(way, set, by);
        crate::checks::ask(rt, "BE", right == looped::<B, BigEndian>(way, &set, by));
        let own = moved(way, set, by);
        crate::checks::ask(rt, "own", own == looped::<B, B::Order>(way, &set, by));
    }
}

// Does the same as `agree_at` for distances near the width of a word and near the capacity.
fn agree<B: BitsOwned>(rt: &impl Abort, width: u32, set: B)
    requires { IsTrue B.indexable }
{
    let (word, all) = (width, B::bits());
    for by in [
        0,
        1,
        word.wrapping_sub(1),
        word,
        word.wrapping_add(1),
        all.wrapping_sub(1),
        all,
        all.wrapping_add(1),
        u32::MAX,
    ] {
        agree_at(rt, set, by);
    }
}

#[test]
fn words_agree_with_a_loop(rt: HostRuntime) {
    agree(&rt, 8, 0b1001_0110u8);
    agree(&rt, 128, 0x8001_0203_0405_0607_F8F9_FAFB_FCFD_FE01u128);
}

#[test]
fn rows_agree_with_a_loop(rt: HostRuntime) {
    agree(&rt, 8, [0xC5u8, 0x3A, 0x91]);
    agree(&rt, 64, [0x8000_0000_0000_0003u64, 0xF0F0_1234_5678_9ABD]);
}

#[test]
fn capacity_0(rt: HostRuntime) {
    let none: [u32; 0] = [];
    agree(&rt, 32, none);
    let moved_none = moved_each_way(none, [3, 3, 0, 3]);
    crate::checks::end_unless_equal(&rt, "no bits are moved", moved_none, [none; 4]);
    holds!(rt; moved(1, none, u32::MAX).all_zeros());
}
