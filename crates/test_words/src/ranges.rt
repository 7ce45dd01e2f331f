//! Ranges in the lists of the macros `set!`, `set_le!` and `set_be!`, and calls that set, clear,
//! flip or count the bits of a range.

ghost use Rattle.std.specs.Prelude.{◌≤◌};
ghost use Rattle.bittle.specs.Values.{ShapeFits};

use crate::checks::{holds, same};
use bittle::prelude::*;
use bittle::{BigEndian, Endian, LittleEndian, Set, macros, set, set_be, set_le};
use std::fmt::Debug;
use std::process::Abort;

#[test]
fn ranges_in_one_word(rt: HostRuntime) {
    let words: [(u8, u8); 6] = [
        (set![1..7], 0b0111_1110),
        (set![0..8], 255),
        (set![7..8], 128),
        (set_le![7..8], 1),
        (set_le![1..4], 0b0111_0000),
        (set![0..0], 0),
    ];
    for (word, want) in words {
        same!(rt; word, want);
    }
}

#[test]
fn ranges_in_signed_words(rt: HostRuntime) {
    let words: [(i8, i8); 4] = [
        (set![7..8], i8::MIN),
        (set![0..8], -1),
        (set_le![0..7], -2),
        (set_le![0..1], i8::MIN),
    ];
    for (word, want) in words {
        same!(rt; word, want);
    }
    let wide: i128 = set![127..128];
    same!(rt; wide, i128::MIN);
    let wide: i128 = set_le![0..127];
    same!(rt; wide, -2);
    let wide: u128 = set![64..128];
    same!(rt; wide, 0xFFFF_FFFF_FFFF_FFFF_0000_0000_0000_0000);
}

// A range inside the first word, one over the borders of words, and two of a whole word.
fn in_three_words() -> [[u8; 3]; 4] {
    [set![3..6], set![5..18], set![0..8], set![8..16]]
}

// A range over one border of words, two in the last word, and an empty one.
fn at_borders() -> [[u8; 3]; 4] {
    [set![7..9], set![16..24], set![23..=23], set![8..8]]
}

#[test]
fn ranges_in_three_words(rt: HostRuntime) {
    let expected = [[0x38, 0, 0], [0xE0, 0xFF, 0x03], [0xFF, 0, 0], [0, 0xFF, 0]];
    same!(rt; in_three_words(), expected);
    let expected = [[0x80, 1, 0], [0, 0, 0xFF], [0, 0, 0x80], [0, 0, 0]];
    same!(rt; at_borders(), expected);
}

// Little-endian ranges: inside the first word, over the borders of words, and of a whole word.
fn mirrored_in_three_words() -> [[u8; 3]; 3] {
    [set_le![3..6], set_le![5..18], set_le![8..16]]
}

// Little-endian ranges over a border of words and in the last word, and a big-endian range.
fn mirrored_at_borders() -> [[u8; 3]; 3] {
    [set_le![7..9], set_le![23..=23], set_be![5..18]]
}

#[test]
fn ranges_in_three_words_mirrored(rt: HostRuntime) {
    let expected = [[0x1C, 0, 0], [0x07, 0xFF, 0xC0], [0, 0xFF, 0]];
    same!(rt; mirrored_in_three_words(), expected);
    let expected = [[1, 0x80, 0], [0, 0, 1], [0xE0, 0xFF, 0x03]];
    same!(rt; mirrored_at_borders(), expected);
}

// Ranges that end past the capacity.
fn past_the_capacity() -> [[u8; 2]; 3] {
    [set![12..20], set![28..36], set_le![12..20]]
}

// A range of the last index and the index after it, which wraps to 0. A range that ends at the
// greatest `u32`.
fn past_the_last() -> [[u8; 2]; 2] {
    [set![15..=16], set![4294967290..=4294967295]]
}

// Two ranges that end past the capacity. The capacity is 24, which is no power of two.
fn past_three_words() -> [[u8; 3]; 2] {
    [set![20..28], set![4294967290..=4294967295]]
}

#[test]
fn ranges_that_wrap(rt: HostRuntime) {
    same!(rt; past_the_capacity(), [[0x0F, 0xF0], [0x0F, 0xF0], [0xF0, 0x0F]]);
    same!(rt; past_the_last(), [[1, 0x80], [0, 0xFC]]);
    same!(rt; past_three_words(), [[0x0F, 0, 0xF0], [0, 0xFC, 0]]);
}

// Ranges that have at least as many indexes as the set has bits.
fn all_indexes() -> [[u8; 2]; 4] {
    [set![5..50], set![5..21], set![0..16], set![0..=4294967295]]
}

// Ranges of 15 indexes, one fewer than the capacity.
fn all_but_one() -> [[u8; 2]; 3] {
    [set![5..20], set_le![5..20], set![1..16]]
}

#[test]
fn ranges_as_long_as_the_capacity(rt: HostRuntime) {
    same!(rt; all_indexes(), [[255, 255]; 4]);
    same!(rt; all_but_one(), [[0xEF, 0xFF], [0xF7, 0xFF], [0xFE, 0xFF]]);
}

// Two lists of ranges and indexes, and a list of one range.
fn beside_members() -> [[u8; 2]; 3] {
    [set![0, 9, 4..12], set![2..5, 3..12, 15], set![4..12]]
}

#[test]
fn ranges_beside_members(rt: HostRuntime) {
    let expected = [[0xF1, 0x0F], [0xFC, 0x8F], [0xF0, 0x0F]];
    same!(rt; beside_members(), expected);
}

#[test]
fn ranges_in_slices(rt: HostRuntime) {
    let mut bytes = [0u8; 4];
    let mut lent = &mut bytes[1..];
    macros::put_until_in::<&mut [u8], BigEndian>(&mut lent, 5, 18);
    same!(rt; bytes, [0, 0xE0, 0xFF, 0x03]);
    let mut bytes = [0u8; 4];
    let mut lent = &mut bytes[..3];
    macros::put_through_in::<&mut [u8], LittleEndian>(&mut lent, 20, 27);
    same!(rt; bytes, [0xF0, 0, 0x0F, 0]);
}

// Sets the bits `from..to` in one copy of a set, clears them in another and flips them in a third.
// Then checks the three copies.
fn changes<B: BitsOwned + Debug, E: Endian>(
    rt: &impl Abort,
    bits: B,
    from: u32,
    to: u32,
    want: [B; 3],
)
    requires fits { ShapeFits B.Shape bits }
    requires ordered { from ≤ to }
    requires within { to ≤ (B.big bits).capacity }
{
    let [mut set, mut cleared, mut flipped] = [bits; 3];
    set.set_range_in::<E>(from, to);
    cleared.clear_range_in::<E>(from, to);
    flipped.toggle_range_in::<E>(from, to);
    same!(*rt; [set, cleared, flipped], want);
}

#[test]
fn ranges_of_a_word_change(rt: HostRuntime) {
    let rows: [(u32, u32, [u8; 3]); 6] = [
        (0, 4, [0b0011_1111, 0b0011_0000, 0b0011_0011]),
        (3, 6, [0b0011_1100, 0b0000_0100, 0b0000_0100]),
        (6, 8, [0b1111_1100, 0b0011_1100, 0b1111_1100]),
        (0, 8, [0b1111_1111, 0b0000_0000, 0b1100_0011]),
        (5, 5, [0b0011_1100, 0b0011_1100, 0b0011_1100]),
        (8, 8, [0b0011_1100, 0b0011_1100, 0b0011_1100]),
    ];
    for (from, to, want) in rows {
        assert!(rt; from <= to && to <= 8);
        changes::<u8, BigEndian>(&rt, 0b0011_1100, from, to, want);
    }
}

#[test]
fn ranges_of_a_signed_word_change(rt: HostRuntime) {
    changes::<i8, BigEndian>(&rt, 0, 7, 8, [i8::MIN, 0, i8::MIN]);
    changes::<i8, LittleEndian>(&rt, -1, 1, 8, [-1, i8::MIN, i8::MIN]);
    changes::<i16, LittleEndian>(&rt, 1, 0, 1, [i16::MIN + 1, 1, i16::MIN + 1]);
    changes::<u128, BigEndian>(&rt, 1, 127, 128, [1 << 127 | 1, 1, 1 << 127 | 1]);
}

#[test]
fn ranges_of_rows_change(rt: HostRuntime) {
    let row = [0xF0u8, 0xF0, 0xF0];
    let want = [[0xF0, 0xFF, 0xF3], [0x30, 0x00, 0xF0], [0x30, 0x0F, 0xF3]];
    changes::<[u8; 3], BigEndian>(&rt, row, 6, 18, want);
    let want = [[0xF3, 0xFF, 0xF0], [0xF0, 0x00, 0x30], [0xF3, 0x0F, 0x30]];
    changes::<[u8; 3], LittleEndian>(&rt, row, 6, 18, want);
    let want = [[0xF0, 0xFF, 0xF0], [0xF0, 0x00, 0xF0], [0xF0, 0x0F, 0xF0]];
    changes::<[u8; 3], LittleEndian>(&rt, row, 8, 16, want);
}

#[test]
fn ranges_without_capacity_change_nothing(rt: HostRuntime) {
    changes::<[u8; 0], BigEndian>(&rt, [], 0, 0, [[]; 3]);
    changes::<[u8; 0], LittleEndian>(&rt, [], 0, 0, [[]; 3]);
}

#[test]
fn ranges_of_sets_and_slices_change(rt: HostRuntime) {
    let mut set = Set::new_le(0x0Fu8);
    set.toggle_range_in::<LittleEndian>(2, 6);
    same!(rt; set.into_bits(), 0x33);
    let mut bytes = [0xFFu8; 4];
    {
        let mut lent = &mut bytes[1..];
        lent.clear_range_in::<BigEndian>(5, 18);
    }
    same!(rt; bytes, [0xFF, 0x1F, 0x00, 0xFC]);
    {
        let mut lent = &mut bytes[..2];
        lent.toggle_range_in::<LittleEndian>(7, 16);
    }
    same!(rt; bytes, [0xFE, 0xE0, 0x00, 0xFC]);
}

// Returns whether each range has the wanted number of set bits, in the order `E`.
fn counts<B: Bits, E: Endian>(bits: &B, ranges: &[(u32, u32)], wanted: &[u32]) -> bool
    requires { ShapeFits B.Shape bits.now }
{
    let capacity = bits.bits_capacity();
    for at in 0..ranges.len().min(wanted.len()) {
        let (from, to) = ranges[at];
        if to < from || capacity < to {
            return false;
        }
        if bits.count_ones_in_range_in::<E>(from, to) != wanted[at] {
            return false;
        }
    }
    ranges.len() == wanted.len()
}

#[test]
fn ranges_of_a_word_are_counted(rt: HostRuntime) {
    let ranges = [
        (0, 8),
        (0, 1),
        (1, 3),
        (2, 5),
        (3, 8),
        (7, 8),
        (4, 4),
        (8, 8),
    ];
    // Set bits: 1, 2 and 7 in big-endian order; 0, 5 and 6 in little-endian order.
    let word = 0b1000_0110u8;
    holds!(rt; counts::<u8, BigEndian>(&word, &ranges, &[3, 0, 2, 1, 1, 1, 0, 0]));
    holds!(rt; counts::<u8, LittleEndian>(&word, &ranges, &[3, 1, 0, 0, 2, 0, 0, 0]));
}

#[test]
fn ranges_of_rows_are_counted(rt: HostRuntime) {
    let ranges = [
        (0, 24),
        (2, 19),
        (0, 8),
        (8, 16),
        (7, 9),
        (9, 15),
        (4, 20),
        (23, 24),
        (8, 8),
    ];
    // Set bits: 4 to 19 in big-endian order; 0 to 3, 8 to 15 and 20 to 23 in little-endian order.
    let row = [0xF0u8, 0xFF, 0x0F];
    holds!(rt; counts::<[u8; 3], BigEndian>(&row, &ranges, &[16, 15, 4, 8, 2, 6, 16, 0, 0]));
    holds!(rt; counts::<[u8; 3], LittleEndian>(&row, &ranges, &[16, 10, 4, 8, 1, 6, 8, 1, 0]));
}

#[test]
fn ranges_of_sets_and_slices_are_counted(rt: HostRuntime) {
    let set = Set::new_le(0b0000_0111u8);
    same!(rt; set.count_ones_in_range_in::<LittleEndian>(2, 7), 2);
    same!(rt; set.count_ones_in_range_in::<BigEndian>(2, 7), 1);
    let bytes = [0xFFu8, 0x1F, 0x00, 0xFC];
    let last = &bytes[1..];
    holds!(rt; counts::<&[u8], BigEndian>(&last, &[(0, 24), (3, 20), (5, 18)], &[11, 4, 0]));
    let none = &bytes[..0];
    holds!(rt; counts::<&[u8], LittleEndian>(&none, &[(0, 0)], &[0]));
}
