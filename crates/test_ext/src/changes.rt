//! Tests of calls that change a set, with expected values worked out by hand.

ghost use Rattle.std.specs.Prelude.{IsTrue};
ghost use Rattle.bittle.specs.Values.{ShapeFits};

use crate::calls::{
    ASSIGN, Change, FIRST, INSERT, LAST, REMOVE, REPLACE, TOGGLE, UNSET, bit_changed, bit_taken,
    change_in, extend_by_set, flip, inserted,
};
use crate::checks::same;
use bittle::prelude::*;
use bittle::{Endian, LittleEndian, Set};
use bittle_ext::prelude::*;

#[test]
fn one_bit_of_a_word(rt: HostRuntime) {
    let mut word = 0b0010_0010u8;
    same!(rt; bit_changed(INSERT, &mut word, 0, true), true);
    same!(rt; bit_changed(INSERT, &mut word, 8, true), false);
    same!(rt; word, 0b0010_0011);
    same!(rt; bit_changed(REMOVE, &mut word, 13, false), true);
    same!(rt; bit_changed(REMOVE, &mut word, 5, false), false);
    same!(rt; word, 0b0000_0011);
}

#[test]
fn a_bit_by_its_value(rt: HostRuntime) {
    let mut word = 0b0011u8;
    same!(rt; (bit_changed(REPLACE, &mut word, 1, false), word), (true, 0b0001));
    same!(rt; (bit_changed(REPLACE, &mut word, 9, true), word), (false, 0b0011));
    bit_changed(ASSIGN, &mut word, 8, false);
    same!(rt; word, 0b0010);
    bit_changed(ASSIGN, &mut word, 9, true);
    same!(rt; word, 0b0010);
    bit_changed(TOGGLE, &mut word, 7, true);
    bit_changed(TOGGLE, &mut word, 1, true);
    same!(rt; word, 0b1000_0000);
}

/// Inserts an index into a little-endian set. Returns what the call returns, with the changed set.
fn left_with<T: BitsOwned>(left: T, index: u32) -> ([bool; 1], T)
    requires { IsTrue T.indexable }
{
    let mut set = Set::new_le(left);
    (inserted(&mut set, [index]), set.into_bits())
}

#[test]
fn one_bit_of_longer_shapes(rt: HostRuntime) {
    same!(rt; left_with(0i16, 0), ([true], i16::MIN));
    let mut words = [0u64; 2];
    let mut lent = words.as_mut_slice();
    same!(rt; inserted(&mut lent, [65, 193]), [true, false]);
    same!(rt; words, [0, 2]);
}

#[test]
fn capacity_0_is_never_changed(rt: HostRuntime) {
    let mut none: [u8; 0] = [];
    same!(rt; bit_changed(INSERT, &mut none, 3, true), true);
    same!(rt; bit_changed(REMOVE, &mut none, 3, false), false);
    same!(rt; bit_changed(REPLACE, &mut none, 3, true), false);
    bit_changed(TOGGLE, &mut none, 0, true);
    List([1, 2]).change(&mut none);
    let mut none = after_range(SET, none, 0, 0);
    flip(&mut none);
    let ends = (bit_taken(FIRST, &mut none), bit_taken(LAST, &mut none));
    same!(rt; (ends, bit_taken(UNSET, &mut none)), ((None, None), None));
}

/// Names `set_range`, in a call that changes a range.
const SET: u32 = 0;

/// Names `clear_range`.
const CLEAR: u32 = 1;

/// Names `assign_range` with the value `true`. `TOGGLE` names `toggle_range`.
const FILL: u32 = 2;

/// Names `assign_range` with the value `false`.
const EMPTY: u32 = 4;

/// Returns the set after a change of the range `from..to`, which `kind` names, or unchanged if the
/// call does not allow the range.
fn after_range<B: BitsMut>(kind: u32, set: B, from: u32, to: u32) -> B
    requires { ShapeFits B.Shape set }
{
    let mut now = set;
    if from <= to && to <= now.bits_capacity() {
        match kind {
            SET => now.set_range(from, to),
            CLEAR => now.clear_range(from, to),
            TOGGLE => now.toggle_range(from, to),
            FILL => now.assign_range(from, to, true),
            _ => now.assign_range(from, to, false),
        }
    }
    now
}

#[test]
fn ranges_of_a_row(rt: HostRuntime) {
    let first = after_range(SET, [0u8; 3], 4, 20);
    let second = after_range(CLEAR, first, 6, 10);
    same!(rt; (first, second), ([0xF0, 0xFF, 0x0F], [0x30, 0xFC, 0x0F]));
    let third = after_range(TOGGLE, second, 0, 8);
    let fourth = after_range(FILL, third, 20, 24);
    same!(rt; (third, fourth), ([0xCF, 0xFC, 0x0F], [0xCF, 0xFC, 0xFF]));
    same!(rt; after_range(EMPTY, fourth, 1, 24), [0x01, 0, 0]);
}

#[test]
fn empty_and_whole_ranges(rt: HostRuntime) {
    let set = after_range(SET, 0b0101u8, 3, 3);
    let first = after_range(TOGGLE, after_range(CLEAR, set, 8, 8), 0, 0);
    let second = after_range(TOGGLE, first, 0, 8);
    let third = after_range(SET, second, 0, 8);
    same!(rt; (first, second, third), (0b0101, 0b1111_1010, 0xFF));
}

#[test]
fn every_bit_is_flipped(rt: HostRuntime) {
    let mut row = [0xCFu8, 0xFC, 0x0F];
    flip(&mut row);
    same!(rt; row, [0x30, 0x03, 0xF0]);
    let mut word = i32::MAX;
    flip(&mut word);
    same!(rt; word, i32::MIN);
    let mut set = Set::new_le(0xF0u8);
    flip(&mut set);
    same!(rt; set.into_bits(), 0x0F);
    let mut words = [0u64, 1];
    let mut lent = words.as_mut_slice();
    flip(&mut lent);
    same!(rt; words, [u64::MAX, u64::MAX - 1]);
}

/// A change that takes out the first set bit and then the last. The answer is their indexes.
#[derive(Drop)]
struct Ends;

impl Change for Ends {
    type Answer = [Option<u32>; 2];

    fn change<B: BitsMut>(&self, set: &mut B) -> [Option<u32>; 2] {
        [set.pop_first(), set.pop_last()]
    }
}

#[test]
fn ends_are_taken_out(rt: HostRuntime) {
    // Bits 0, 15 and 17 are set.
    let mut row = [0x8001u16, 2];
    same!(rt; (bit_taken(FIRST, &mut row), row), (Some(0), [0x8000, 2]));
    same!(rt; (bit_taken(LAST, &mut row), row), (Some(17), [0x8000, 0]));
    same!(rt; (bit_taken(FIRST, &mut row), row), (Some(15), [0, 0]));
    let none = (bit_taken(FIRST, &mut row), bit_taken(LAST, &mut row));
    same!(rt; none, (None, None));
    // In little-endian order, bits 3, 8 and 15 are set.
    let mut left = [0x10u8, 0x81];
    let ends = change_in::<_, LittleEndian, _>(&Ends, &mut left);
    same!(rt; (ends, left), ([Some(3), Some(15)], [0, 0x80]));
}

/// A change that sets the first unset bit. The answer is the index of this bit.
#[derive(Drop)]
struct Slot;

impl Change for Slot {
    type Answer = Option<u32>;

    fn change<B: BitsMut>(&self, set: &mut B) -> Option<u32> {
        bit_taken(UNSET, set)
    }
}

#[test]
fn free_slots_are_taken(rt: HostRuntime) {
    let mut row = [0xFFu8, 0x0F];
    same!(rt; (bit_taken(UNSET, &mut row), row), (Some(12), [0xFF, 0x1F]));
    let mut left = [0xFFu8, 0xC1];
    let slot = change_in::<_, LittleEndian, _>(&Slot, &mut left);
    same!(rt; (slot, left), (Some(10), [0xFF, 0xE1]));
    let mut full = 255u8;
    same!(rt; (bit_taken(UNSET, &mut full), full), (None, 255));
}

/// A change that inserts a list of indexes.
#[derive(Drop)]
struct List<const N: usize>([u32; N]);

impl<const N: usize> Change for List<N> {
    type Answer = ();

    fn change<B: BitsMut>(&self, set: &mut B) {
        set.insert_all(&self.0);
    }
}

/// A change that inserts the indexes that an iterator over the set bits of a byte yields.
#[derive(Drop)]
struct OnesOf(u8);

impl Change for OnesOf {
    type Answer = ();

    fn change<B: BitsMut>(&self, set: &mut B) {
        extend_by_set(set, &self.0);
    }
}

/// Inserts the indexes of a range, and then, in the order `E`, the indexes of the set bits of a
/// byte. Returns the set after each.
fn extended<B: BitsOwned, E: Endian>(mut row: B) -> [B; 2]
    requires { IsTrue B.indexable }
{
    row.extend(6..11);
    let first = row;
    change_in::<B, E, _>(&OnesOf(0b0101), &mut row);
    [first, row]
}

#[test]
fn lists_and_iterators_are_set(rt: HostRuntime) {
    let mut word = 0b0001_0000u8;
    List([0, 7, 9, 7]).change(&mut word);
    same!(rt; word, 0b1001_0011);
    change_in::<_, LittleEndian, _>(&List([2]), &mut word);
    same!(rt; word, 0b1011_0011);
    let [first, second] = extended::<_, LittleEndian>([0u8; 2]);
    same!(rt; (first, second), ([0xC0, 0x07], [0xE0, 0x07]));
}

/// A change that calls `keep` with the same three arguments.
#[derive(Drop)]
struct InRange(u32, u32, bool);

impl Change for InRange {
    type Answer = ();

    fn change<B: BitsMut>(&self, set: &mut B) {
        keep(set, self.0, self.1, self.2);
    }
}

/// Keeps the set bits of the range `from..to` whose index is even, or, if `odd` is `true`, all set
/// bits of the range. Clears all other bits.
fn keep<B: BitsMut>(set: &mut B, from: u32, to: u32, odd: bool)
    requires { ShapeFits B.Shape set.old }
{
    set.retain(|index| from <= index && index < to && (odd || index % 2 == 0));
}

#[test]
fn bits_that_are_kept(rt: HostRuntime) {
    let mut word = 0b1000_0110u8;
    change_in::<_, LittleEndian, _>(&InRange(0, 6, true), &mut word);
    same!(rt; word, 0b1000_0100);
    let mut row = [0x07u8, 0x81];
    keep(&mut row, 0, u32::MAX, false);
    same!(rt; row, [0x05, 0x01]);
    keep(&mut row, 21, u32::MAX, true);
    same!(rt; row, [0, 0]);
    let mut none: [u8; 0] = [];
    keep(&mut none, 0, 0, true);
    same!(rt; none, []);
}

#[test]
fn bits_of_a_lent_slice_that_are_kept(rt: HostRuntime) {
    let mut words = [0b11u64, 0b101];
    let mut set = Set::from_mut_le(words.as_mut_slice());
    keep(&mut set, 63, 127, true);
    same!(rt; words, [0b01, 0b100]);
}

/// A change that keeps those set bits for which a table of eight flags says so.
#[derive(Drop)]
struct ByTable([bool; 8]);

impl Change for ByTable {
    type Answer = ();

    fn change<B: BitsMut>(&self, set: &mut B) {
        let table = self.0;
        set.retain(|index| table[(index % 8) as usize]);
    }
}

#[test]
fn bits_that_a_table_keeps(rt: HostRuntime) {
    let table = [true, false, true, false, false, true, true, false];
    let mut word = 0b0110_1110u8;
    ByTable(table).change(&mut word);
    same!(rt; word, 0b0110_0100);
    let mut left = 0b0110_1110u8;
    change_in::<_, LittleEndian, _>(&ByTable(table), &mut left);
    same!(rt; left, 0b0010_0110);
}

/// Keeps every second set bit, beginning with the first. Returns a number whose digits, in the
/// given base, are the indexes that `retain` passes to the closure.
fn keep_each_second<B: BitsMut>(set: &mut B, base: u32) -> u32
    requires { ShapeFits B.Shape set.old }
{
    let mut asked = 0u32;
    let mut is_kept = false;
    set.retain(|index| {
        asked = asked.wrapping_mul(base).wrapping_add(index);
        is_kept = !is_kept;
        is_kept
    });
    asked
}

#[test]
fn each_second_bit_of_several_words(rt: HostRuntime) {
    let mut row = [0b1000_0110u8, 0, 0x81, 0];
    same!(rt; keep_each_second(&mut row, 100), 1_02_07_16_23);
    same!(rt; row, [0b1000_0010, 0, 0x80, 0]);
    let mut wide = [1u128 << 127 | 1, 1 << 64 | 1 << 63];
    same!(rt; keep_each_second(&mut wide, 1000), 127_191_192);
    same!(rt; wide, [1, 1 << 63]);
}

/// Calls `keep_each_second` with base 100. Returns the number, and the set afterwards.
fn each_second_kept<B: BitsMut>(set: B) -> (u32, B)
    requires { ShapeFits B.Shape set }
{
    let mut now = set;
    (keep_each_second(&mut now, 100), now)
}

/// Calls `each_second_kept` on a little-endian set. Returns the number, and the bits of the set
/// afterwards.
fn each_second_kept_in_left<T: BitsOwned>(left: T) -> (u32, T)
    requires { IsTrue T.indexable }
{
    let (asked, set) = each_second_kept(Set::new_le(left));
    (asked, set.into_bits())
}

#[test]
fn each_second_bit_of_several_words_from_the_left(rt: HostRuntime) {
    let row = each_second_kept_in_left([0b1000_0110u8, 0, 0x81, 0]);
    same!(rt; row, (5_06_16_23, [0b1000_0010, 0, 0x01, 0]));
    let signed = each_second_kept_in_left([-32767i16, 5]);
    same!(rt; signed, (15_29_31, [-32768, 4]));
}

#[test]
fn each_second_bit_of_none(rt: HostRuntime) {
    let mut none: [u64; 0] = [];
    same!(rt; keep_each_second(&mut none, 100), 0);
    let mut zero = [0u64; 3];
    same!(rt; (keep_each_second(&mut zero, 100), zero), (0, [0; 3]));
}
