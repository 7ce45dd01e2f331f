//! The sets that the macros `set!`, `set_le!` and `set_be!` make of lists.

ghost use Rattle.std.specs.Prelude.{IsTrue};

use crate::checks::same;
use bittle::prelude::*;
use bittle::{LittleEndian, Set, set, set_be, set_le};
use std::process::Abort;

// Checks the words that lists make. Each row has the name of a list, the word that the list makes,
// and the wanted word.
fn each_is(rt: &impl Abort, lists: &[(&str, u8, u8)]) {
    for (list, word, want) in lists {
        same!(*rt; (*list, *word), (*list, *want));
    }
}

// One list of indexes in the order of the type, in little-endian and in big-endian order.
fn three_indexes() -> [u8; 3] {
    [set![0, 1, 3], set_le![0, 1, 3], set_be![0, 1, 3]]
}

#[test]
fn words_of_lists(rt: HostRuntime) {
    let index = 4;
    let [indexes, little, big] = three_indexes();
    let lists: [(&str, u8, u8); 5] = [
        ("no items", set![], 0),
        ("indexes", indexes, 0b0000_1011),
        ("indexes in little-endian order", little, 0b1101_0000),
        ("indexes in big-endian order", big, 0b0000_1011),
        ("an expression", set![index / 2, index + 1], 0b0010_0100),
    ];
    each_is(&rt, &lists);
}

// The list `0..=4, 6..` in the order of the type, in little-endian and in big-endian order.
fn two_ranges() -> [u8; 3] {
    [set![0..=4, 6..], set_le![0..=4, 6..], set_be![0..=4, 6..]]
}

// Empty ranges: two end before they start, and one ends where it starts.
fn reversed_ranges() -> u8 {
    set_le![5..=4, 255..=0, 3..3]
}

#[test]
fn words_of_ranges(rt: HostRuntime) {
    let [ranges, little, big] = two_ranges();
    let lists: [(&str, u8, u8); 6] = [
        ("ranges", ranges, 0b1101_1111),
        ("ranges in little-endian order", little, 0b1111_1011),
        ("ranges in big-endian order", big, 0b1101_1111),
        (
            "a wrapped index, a reversed range and a comma at the end",
            set![9, 5..2, 7,],
            0b1000_0010,
        ),
        ("reversed ranges", reversed_ranges(), 0),
        ("one index as a range", set![3..=3], 0b0000_1000),
    ];
    each_is(&rt, &lists);
}

// Ranges that end at the greatest `u32`, or one before it.
fn far_ranges() -> [u8; 3] {
    [
        set![0..=4294967295],
        set![0..4294967295],
        set![4294967290..=4294967295],
    ]
}

#[test]
fn words_of_ranges_past_the_capacity(rt: HostRuntime) {
    let [each, but_the_last, the_last] = far_ranges();
    let lists: [(&str, u8, u8); 6] = [
        ("each index", each, 255),
        ("each index but the last", but_the_last, 255),
        ("the last indexes", the_last, 0b1111_1100),
        ("from past the capacity", set![9..], 0),
        ("across the capacity", set![6..10], 195),
        (
            "across the capacity in little-endian order",
            set_le![6..10],
            195,
        ),
    ];
    each_is(&rt, &lists);
}

// Returns the set of 1 and 12 from a list.
fn listed<B: BitsOwned>() -> B
    requires { IsTrue B.indexable }
{
    set![1, 12]
}

// Two arrays, each made of a list.
fn listed_arrays() -> ([u16; 2], [u8; 2]) {
    (set![31, 7], set_le![7, 11])
}

// Makes an array of a list, and returns how many of its bits are set and how many are unset.
fn counts_of_three() -> (u32, u32) {
    let bytes: [u8; 2] = set![4, 11, 14];
    (bytes.count_ones(), bytes.count_zeros())
}

#[test]
fn other_types(rt: HostRuntime) {
    let signed: i8 = set_le![0];
    same!(rt; signed, i8::MIN);
    let listed = listed::<Set<u16, LittleEndian>>();
    same!(rt; listed.into_bits(), 0b0100_0000_0000_1000);
    same!(rt; listed_arrays(), ([128, 32768], [1, 16]));
    same!(rt; counts_of_three(), (3, 13));
}

// A list that mixes indexes with ranges of each kind, in the order of the type.
fn mixed(index: u32, slot: u32) -> [u32; 4] {
    set![120.., index, 34..=36, 66..68, slot]
}

// The list of `mixed` in big-endian order.
fn mixed_be(index: u32, slot: u32) -> [u32; 4] {
    set_be![120.., index, 34..=36, 66..68, slot]
}

// The list of `mixed` in little-endian order.
fn mixed_le(index: u32, slot: u32) -> [u32; 4] {
    set_le![120.., index, 34..=36, 66..68, slot]
}

#[test]
fn each_item_before_another(rt: HostRuntime) {
    let (index, slot) = (0, 97);
    same!(rt; mixed(index, slot), [1, 0b1_1100, 0b1100, 0xFF00_0002]);
    same!(rt; mixed_be(index, slot), [1, 0b1_1100, 0b1100, 0xFF00_0002]);
    let little = [0x8000_0000, 0x3800_0000, 0x3000_0000, 0x4000_00FF];
    same!(rt; mixed_le(index, slot), little);
}

#[test]
fn each_item_at_the_end(rt: HostRuntime) {
    let slot = 5;
    let word: u8 = set![6..7, 1..=2, slot];
    same!(rt; word, 0b0110_0110);
    let word: u8 = set_le![slot, 0..=1, 6..];
    same!(rt; word, 0b1100_0111);
    let word: u8 = set_be![7.., 2..4, slot, 0..=0];
    same!(rt; word, 0b1010_1101);
}

// The list `0..` in the order of the type, in little-endian and in big-endian order.
fn full() -> [[u32; 4]; 3] {
    [set![0..], set_le![0..], set_be![0..]]
}

// Ranges without an end that start past 0: in the order of the type, in little-endian and in
// big-endian order.
fn open() -> [[u32; 4]; 3] {
    [set![100..], set_le![100..], set_be![100.., 33..]]
}

#[test]
fn open_ranges_in_shapes_of_several_words(rt: HostRuntime) {
    same!(rt; full(), [[u32::MAX; 4]; 3]);
    let expected = [
        [0, 0, 0, 0xFFFF_FFF0],
        [0, 0, 0, 0x0FFF_FFFF],
        [0, 0xFFFF_FFFE, u32::MAX, u32::MAX],
    ];
    same!(rt; open(), expected);
}
