//! Tests of calls that combine a set with a set of another shape, that fill, shift or rotate a set
//! in place, or that rank its unset bits. The expected values are worked out by hand, or, for
//! random sets, by plain loops over 24 flags.

ghost use Rattle.std.specs.Prelude.{IsTrue};
ghost use Rattle.bittle.specs.Values.{ShapeFits};

use crate::calls::{ALONE, COMMON, UNION, UNLIKE};
use crate::checks::{Compared, same};
use crate::random::{combined, draw, draw_row, flags_of};
use bittle::{Bits, BitsMut, BitsOwned, LittleEndian, Set};
use bittle_ext::prelude::*;
use std::process::Abort;

// Changes a set by one of four operations with another set. Returns what the call returns: whether
// the set changed.
fn change<A: BitsMut, B: Bits>(kind: u32, set: &mut A, other: &B) -> bool
    requires fits { ShapeFits A.Shape set.old }
    requires other_fits { ShapeFits B.Shape other.now }
{
    match kind {
        UNION => set.union_with(other),
        COMMON => set.intersect_with(other),
        ALONE => set.difference_with(other),
        _ => set.symmetric_difference_with(other),
    }
}

// Returns the set after an operation, and whether the call reports a change.
fn changed<A: BitsMut, B: Bits>(kind: u32, set: A, other: &B) -> (A, bool)
    requires fits { ShapeFits A.Shape set }
    requires other_fits { ShapeFits B.Shape other.now }
{
    let mut now = set;
    let told = change(kind, &mut now, other);
    (now, told)
}

// Checks the set after an operation, and whether the call reports a change.
fn changes<A: BitsMut + Compared, B: Bits>(
    rt: &impl Abort,
    kind: u32,
    set: A,
    other: &B,
    expected: (A, bool),
)
    requires fits { ShapeFits A.Shape set }
    requires other_fits { ShapeFits B.Shape other.now }
{
    same!(*rt; changed(kind, set, other), expected);
}

// Checks the union, intersection, difference and symmetric difference of a set with another set,
// each with whether the call reports a change.
fn changes_each_way<A: BitsMut + Copy + Compared, B: Bits>(
    rt: &impl Abort,
    set: A,
    other: &B,
    expected: [(A, bool); 4],
)
    requires fits { ShapeFits A.Shape set }
    requires other_fits { ShapeFits B.Shape other.now }
{
    for kind in 0..4u32 {
        changes(rt, kind, set, other, expected[kind as usize]);
    }
}

#[test]
fn a_byte_by_a_wider_word(rt: HostRuntime) {
    // `byte` has the members 0 and 1, and `word` has 1, 2 and 8.
    let (byte, word) = (0b0011u8, 0x0106u16);
    let expected = [
        (0b0111, true),
        (0b0010, true),
        (0b0001, true),
        (0b0101, true),
    ];
    changes_each_way(&rt, byte, &word, expected);
}

#[test]
fn what_changes_nothing_is_told(rt: HostRuntime) {
    // Bits 8 to 15 of the other sets are past the byte's capacity, so they change nothing.
    let byte = 0b0111u8;
    changes(&rt, UNION, byte, &0xFF06u16, (byte, false));
    changes(&rt, COMMON, byte, &0x000Fu16, (byte, false));
    changes(&rt, ALONE, byte, &0xFF08u16, (byte, false));
    changes(&rt, UNLIKE, byte, &0xFF00u16, (byte, false));
}

#[test]
fn the_last_word_alone_changes(rt: HostRuntime) {
    let row = [0xFFFFu16, 1, 1];
    changes(&rt, UNION, row, &[0u16, 1, 3], ([0xFFFF, 1, 3], true));
    changes(&rt, COMMON, row, &[0xFFFFu16, 1], ([0xFFFF, 1, 0], true));
}

#[test]
fn two_rows_each_in_its_own_order(rt: HostRuntime) {
    // `row` has the members 0, 15 and 33. In little-endian order, `left` has 0, 33 and 63.
    let row = [0x8001u16, 0, 2];
    let left = [0x8000_0000u32, 0x4000_0001];
    let expected = [
        (row, false),
        ([1, 0, 2], true),
        ([0x8000, 0, 0], true),
        ([0x8000, 0, 0], true),
    ];
    for kind in 0..4u32 {
        same!(rt; changed_by_left(kind, row, left), expected[kind as usize]);
    }
}

#[test]
fn capacity_0(rt: HostRuntime) {
    let none: [u64; 0] = [];
    changes(&rt, UNION, none, &0x0Fu8, (none, false));
    changes(&rt, UNLIKE, none, &none, (none, false));
    changes(&rt, UNION, 0x0Fu8, &none, (0x0F, false));
    changes(&rt, COMMON, 0x0Fu8, &none, (0, true));
    changes(&rt, COMMON, 0u8, &none, (0, false));
    changes(&rt, UNION, none, &0xFFu8, (none, false));
}

// Adds the members of `other` to a set through a little-endian view of the set.
fn add_from_left<A: BitsMut, B: Bits>(set: &mut A, other: &B) -> bool
    requires fits { ShapeFits A.Shape set.old }
    requires other_fits { ShapeFits B.Shape other.now }
{
    change(UNION, &mut set.in_order_mut::<LittleEndian>(), other)
}

// Adds the common members of `one` and `other` to a set through a little-endian view of the set.
fn add_common<A: BitsMut, B: Bits>(set: &mut A, one: &B, other: &B) -> bool
    requires fits { ShapeFits A.Shape set.old }
    requires one_fits { ShapeFits B.Shape one.now }
    requires other_fits { ShapeFits B.Shape other.now }
{
    add_from_left(set, &one.and(other))
}

#[test]
fn a_view_is_changed_by_a_view(rt: HostRuntime) {
    // The intersection has the members 1 and 2. In little-endian order, these are the bits 0x40 and
    // 0x20 of the byte.
    let mut byte = 0x01u8;
    same!(rt; add_common(&mut byte, &0x0106u16, &0x00FEu16), true);
    same!(rt; byte, 0x61);
}

// Adds the members of `one` to a set, and takes out the members of `other`.
fn add_and_take_out<A: BitsMut, B: Bits, C: Bits>(set: &mut A, one: &B, other: &C) -> [bool; 2]
    requires fits { ShapeFits A.Shape set.old }
    requires one_fits { ShapeFits B.Shape one.now }
    requires other_fits { ShapeFits C.Shape other.now }
{
    [set.union_with(one), set.difference_with(other)]
}

#[test]
fn a_lent_slice(rt: HostRuntime) {
    let mut row = [1u32, 0, 0x8000_0000];
    let mut lent = row.as_mut_slice();
    same!(rt; add_and_take_out(&mut lent, &[0u8, 0, 0, 0, 1], &[1u64, 0]), [true, true]);
    same!(rt; row, [0, 1, 0x8000_0000]);
}

// Returns the first 24 bits of two words as flags, in little-endian order.
fn flags_from_left(words: &[u16; 2]) -> [bool; 24] {
    let mut flags = [false; 24];
    for i in 0..24usize {
        flags[i] = words[i / 16] >> (15 - i % 16) & 1 == 1;
    }
    flags
}

// Returns the flags that an operation makes of the flags of two sets, and whether the flags of the
// first set changed.
fn expected(kind: u32, ours: &[bool; 24], theirs: &[bool; 24]) -> ([bool; 24], bool) {
    let mut flags = [false; 24];
    for i in 0..24usize {
        flags[i] = combined(kind, ours[i], theirs[i]);
    }
    (flags, flags != *ours)
}

#[test]
fn drawn_changes_by_like_words_agree_with_plain_loops(rt: HostRuntime) {
    let mut state = 19;
    for turn in 0..2000u32 {
        let kind = turn % 4;
        let (row, other) = (draw_row(&mut state), draw_row(&mut state));
        let (now, told) = changed(kind, row, &[other[0], other[1]]);
        let theirs = flags_of(&[other[0], other[1], 0]);
        same!(rt; (flags_of(&now), told), expected(kind, &flags_of(&row), &theirs));
    }
}

// Returns the set after an operation with a little-endian set.
fn changed_by_left<A: BitsOwned, T: BitsOwned>(kind: u32, set: A, left: T) -> (A, bool)
    requires indexable { IsTrue A.indexable }
    requires other_indexable { IsTrue T.indexable }
{
    changed(kind, set, &Set::new_le(left))
}

#[test]
fn drawn_changes_by_unlike_words_agree_with_plain_loops(rt: HostRuntime) {
    let mut state = 23;
    for turn in 0..2000u32 {
        let kind = turn % 4;
        let row = draw_row(&mut state);
        let one = (draw(&mut state) % 65536) as u16;
        let words = [one, (draw(&mut state) % 65536) as u16];
        let (now, told) = changed_by_left(kind, row, words);
        let theirs = flags_from_left(&words);
        same!(rt; (flags_of(&now), told), expected(kind, &flags_of(&row), &theirs));
    }
}

// Returns the set after `copy_from` copied another set to it.
fn copied<A: BitsMut, B: Bits>(set: A, other: &B) -> A
    requires fits { ShapeFits A.Shape set }
    requires other_fits { ShapeFits B.Shape other.now }
{
    let mut now = set;
    now.copy_from(other);
    now
}

// Returns the set after `copy_from` copied a little-endian set to it.
fn copied_from_left<A: BitsOwned, T: BitsOwned>(set: A, left: T) -> A
    requires indexable { IsTrue A.indexable }
    requires other_indexable { IsTrue T.indexable }
{
    copied(set, &Set::new_le(left))
}

// Checks a set after `copy_from` copied another set to it.
fn copies_to<A: BitsMut + Compared, B: Bits>(rt: &impl Abort, set: A, other: &B, expected: A)
    requires fits { ShapeFits A.Shape set }
    requires other_fits { ShapeFits B.Shape other.now }
{
    same!(*rt; copied(set, other), expected);
}

#[test]
fn copies(rt: HostRuntime) {
    // In little-endian order, `[0x41, 0x80]` has the members 1, 7 and 8.
    copies_to(&rt, [0xFFu8, 0xFF, 0xFF], &0x0107u16, [0x07, 0x01, 0]);
    copies_to(&rt, 0xFFu8, &[0x0106u16, 3], 0x06);
    same!(rt; copied_from_left(0xFFFFu16, [0x41u8, 0x80]), 0x0182);
    same!(rt; copied(Set::new_le(0xFFu8), &0x0101u16).into_bits(), 0x80);
    let none: [u8; 0] = [];
    copies_to(&rt, none, &7u8, none);
    copies_to(&rt, 7u8, &none, 0);
}

// Makes a set of the type `A` with those members of `other` that are below the new set's capacity.
fn made_of<A: BitsOwned, B: Bits>(other: &B) -> A
    requires indexable { IsTrue A.indexable }
    requires other_fits { ShapeFits B.Shape other.now }
{
    A::from_set(other)
}

#[test]
fn sets_of_other_types(rt: HostRuntime) {
    same!(rt; made_of::<[u8; 4], _>(&0x8005_0103u32), [0x03, 0x01, 0x05, 0x80]);
    same!(rt; made_of::<u16, _>(&[0x03u8, 0x01, 0x05]), 0x0103);
    same!(rt; made_of::<[u64; 0], _>(&0xFFu8), []);
    let left: Set<u8, LittleEndian> = made_of(&0b0000_0110u64);
    same!(rt; left.into_bits(), 0b0110_0000);
}

// Sets every bit of a set, and returns the set.
fn filled<B: BitsMut>(set: B) -> B
    requires { ShapeFits B.Shape set }
{
    let mut now = set;
    now.set_all();
    now
}

#[test]
fn every_bit_is_set(rt: HostRuntime) {
    same!(rt; filled([7u8, 9]), [0xFF, 0xFF]);
    same!(rt; filled(-8i16), -1);
    same!(rt; filled(Set::new_le(0u32)).into_bits(), u32::MAX);
    same!(rt; filled([0u8; 0]), []);
}

// Returns a set that was shifted in place: up if `up` is `true`, else down.
fn shifted<B: BitsMut>(up: bool, set: B, by: u32) -> B
    requires { ShapeFits B.Shape set }
{
    let mut now = set;
    if up {
        now.shift_up(by);
    } else {
        now.shift_down(by);
    }
    now
}

// Checks a set that was shifted in place.
fn shifts<B: BitsMut + Compared>(rt: &impl Abort, up: bool, set: B, by: u32, expected: B)
    requires { ShapeFits B.Shape set }
{
    same!(*rt; shifted(up, set, by), expected);
}

#[test]
fn shifts_in_place(rt: HostRuntime) {
    // Bits 0, 7 and 23 are set.
    let row = [0x81u8, 0, 0x80];
    shifts(&rt, false, row, 8, [0, 0x80, 0]);
    shifts(&rt, false, row, 7, [0x01, 0, 0x01]);
    shifts(&rt, true, row, 9, [0, 0x02, 0x01]);
    shifts(&rt, true, row, 16, [0, 0, 0x81]);
    shifts(&rt, true, row, 0, row);
    shifts(&rt, false, row, 0, row);
    // The row is shifted by two words of 8 bits, and by one bit less than one, two and three words.
    shifts(&rt, false, row, 15, [0, 1, 0]);
    shifts(&rt, false, row, 16, [0x80, 0, 0]);
    shifts(&rt, true, row, 7, [0x80, 0x40, 0]);
    shifts(&rt, true, row, 15, [0, 0x80, 0x40]);
    shifts(&rt, false, row, 23, [1, 0, 0]);
    shifts(&rt, true, row, 23, [0, 0, 0x80]);
}

#[test]
fn shifts_in_place_of_one_word(rt: HostRuntime) {
    shifts(&rt, false, 0x80u8, 7, 1);
    shifts(&rt, true, 3u8, 7, 0x80);
    let wide = 0x8000_0000_0000_0000_0000_0000_0000_0001u128;
    shifts(&rt, false, wide, 127, 1);
    shifts(&rt, true, wide, 127, 1 << 127);
}

// Returns a little-endian set that was shifted in place: up if `up` is `true`, else down.
fn left_shifted<T: BitsOwned>(up: bool, left: T, by: u32) -> T
    requires { IsTrue T.indexable }
{
    shifted(up, Set::new_le(left), by).into_bits()
}

#[test]
fn shifts_in_place_from_the_left(rt: HostRuntime) {
    // In little-endian order, bits 0, 7 and 16 are set.
    let row = [0x81u8, 0, 0x80];
    same!(rt; left_shifted(true, row, 9), [0, 0x40, 0x80]);
    same!(rt; left_shifted(false, row, 7), [0x80, 0x40, 0]);
}

#[test]
fn shifts_in_place_past_all(rt: HostRuntime) {
    let row = [0x81u16, 1];
    shifts(&rt, true, row, 32, [0; 2]);
    shifts(&rt, false, row, 32, [0; 2]);
    shifts(&rt, true, row, u32::MAX, [0; 2]);
    shifts(&rt, false, row, u32::MAX, [0; 2]);
    shifts(&rt, true, [0u8; 0], 1, []);
    shifts(&rt, false, [0u8; 0], 0, []);
}

// Shifts a set in place, first up and then down.
fn shift_up_and_down<B: BitsMut>(set: &mut B, up: u32, down: u32)
    requires { ShapeFits B.Shape set.old }
{
    set.shift_up(up);
    set.shift_down(down);
}

#[test]
fn a_lent_slice_is_shifted(rt: HostRuntime) {
    let mut row = [0x8000_0001u32, 0, 6];
    let mut lent = row.as_mut_slice();
    shift_up_and_down(&mut lent, 1, 33);
    same!(rt; row, [0, 6, 0]);
}

#[test]
fn drawn_shifts_in_place_agree_with_plain_loops(rt: HostRuntime) {
    let mut state = 29;
    for turn in 0..2000u32 {
        let (row, up, by) = (draw_row(&mut state), turn % 2 == 0, draw(&mut state) % 30);
        let (flags, by_size) = (flags_of(&row), by as usize);
        let mut expected = [false; 24];
        for i in 0..24usize {
            expected[i] = if up {
                by_size <= i && flags[i - by_size]
            } else {
                i + by_size < 24 && flags[i + by_size]
            };
        }
        same!(rt; flags_of(&shifted(up, row, by)), expected);
    }
}

// Returns a set that was rotated in place: up if `up` is `true`, else down.
pub(crate) fn turned<B: BitsMut>(up: bool, set: B, by: u32) -> B
    requires { ShapeFits B.Shape set }
{
    let mut now = set;
    if up {
        now.rotate_up(by);
    } else {
        now.rotate_down(by);
    }
    now
}

// Checks a set that was rotated in place.
fn turns<B: BitsMut + Compared>(rt: &impl Abort, up: bool, set: B, by: u32, expected: B)
    requires { ShapeFits B.Shape set }
{
    same!(*rt; turned(up, set, by), expected);
}

#[test]
fn rotations_in_place(rt: HostRuntime) {
    // Bits 0, 7 and 23 are set.
    let row = [0x81u8, 0, 0x80];
    turns(&rt, false, row, 8, [0, 0x80, 0x81]);
    turns(&rt, false, row, 7, [0x01, 0, 0x03]);
    turns(&rt, true, row, 9, [0, 0x03, 0x01]);
    turns(&rt, true, row, 16, [0, 0x80, 0x81]);
    turns(&rt, true, row, 0, row);
    turns(&rt, false, row, 24, row);
    // The capacity is 24, so a distance of 33 wraps to 9, and `u32::MAX` wraps to 15.
    turns(&rt, true, row, 33, [0, 3, 1]);
    turns(&rt, true, row, u32::MAX, [0, 0xC0, 0x40]);
}

#[test]
fn rotations_in_place_of_one_word_and_of_none(rt: HostRuntime) {
    let wide = 0x8000_0000_0000_0000_0000_0000_0000_0001u128;
    turns(&rt, false, wide, 127, 3);
    turns(&rt, true, 0x81u8, 1, 0x03);
    turns(&rt, true, [0u8; 0], 1, []);
    turns(&rt, false, [0u8; 0], 0, []);
}

// Rotates a set up in place.
fn turn_up<B: BitsMut>(set: &mut B, by: u32)
    requires { ShapeFits B.Shape set.old }
{
    set.rotate_up(by);
}

#[test]
fn a_lent_slice_is_rotated(rt: HostRuntime) {
    // Bits 0, 31, 65 and 66 of 96 are set. A rotation by 33 moves bits 65 and 66 to 2 and 3.
    let mut row = [0x8000_0001u32, 0, 6];
    let mut lent = row.as_mut_slice();
    turn_up(&mut lent, 33);
    same!(rt; row, [0xC, 2, 1]);
}

#[test]
fn drawn_rotations_in_place_agree_with_plain_loops(rt: HostRuntime) {
    let mut state = 31;
    for turn in 0..2000u32 {
        let (row, up, by) = (draw_row(&mut state), turn % 2 == 0, draw(&mut state) % 60);
        let (flags, far) = (flags_of(&row), (by % 24) as usize);
        let mut expected = [false; 24];
        for i in 0..24usize {
            let from = if up { i + 24 - far } else { i + far };
            expected[i] = flags[from % 24];
        }
        same!(rt; flags_of(&turned(up, row, by)), expected);
    }
}

// For each rank, returns the index of the unset bit that has this many unset bits below it.
fn selected_zeros<B: Bits, const N: usize>(set: &B, ranks: [u32; N]) -> [Option<u32>; N]
    requires { ShapeFits B.Shape set.now }
{
    let mut answers = [None; N];
    for k in 0..N {
        answers[k] = set.select_zero(ranks[k]);
    }
    answers
}

// Returns for each index how many bits below it are unset.
fn zero_ranks<B: Bits, const N: usize>(set: &B, indexes: [u32; N]) -> [u32; N]
    requires { ShapeFits B.Shape set.now }
{
    let mut answers = [0; N];
    for k in 0..N {
        answers[k] = set.rank_zero(indexes[k]);
    }
    answers
}

// Returns the index of the unset bit with the rank `rank`, and how many bits below `index` are
// unset.
fn zeros<B: Bits>(set: &B, rank: u32, index: u32) -> ([Option<u32>; 1], [u32; 1])
    requires { ShapeFits B.Shape set.now }
{
    (selected_zeros(set, [rank]), zero_ranks(set, [index]))
}

// Calls `zeros` on a little-endian set.
fn zeros_of_left<T: BitsOwned>(left: T, rank: u32, index: u32) -> ([Option<u32>; 1], [u32; 1])
    requires { IsTrue T.indexable }
{
    zeros(&Set::new_le(left), rank, index)
}

#[test]
fn unset_bits_by_rank(rt: HostRuntime) {
    // All bits but 1 and 5 are unset. In little-endian order, all bits but 2 and 6 are unset.
    let word = 0b0010_0010u8;
    same!(rt; selected_zeros(&word, [0, 1, 5, 6]), [Some(0), Some(2), Some(7), None]);
    same!(rt; zero_ranks(&word, [5, 100]), [4, 6]);
    same!(rt; zeros_of_left([0xFFu8, 0b0010_0010], 2, 12), ([Some(11)], [3]));
    let none = [0u64; 0];
    same!(rt; (selected_zeros(&none, [0]), zero_ranks(&none, [3])), ([None], [0]));
}
