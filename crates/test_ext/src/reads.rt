//! Tests of calls that read a set. The expected values are worked out by hand, or, for random sets,
//! by plain loops.

ghost use Rattle.bittle.specs.Values.{ShapeFits};

use crate::calls::{counts, counts_in, ends, ranks, ranks_in, selected, selected_in, stand};
use crate::checks::same;
use bittle::prelude::*;
use bittle::{Endian, LittleEndian, Set};
use bittle_ext::prelude::*;
use std::process::Abort;

#[test]
fn ends_of_a_word(rt: HostRuntime) {
    same!(rt; ends(&0b0010_0010u8), [Some(1), Some(5), Some(0), Some(7)]);
    same!(rt; ends(&0u8), [None, None, Some(0), Some(7)]);
    same!(rt; ends(&255u8), [Some(0), Some(7), None, None]);
    same!(rt; ends(&-1i8), [Some(0), Some(7), None, None]);
    same!(rt; ends(&i128::MIN), [Some(127), Some(127), Some(0), Some(126)]);
}

#[test]
fn ends_of_longer_shapes(rt: HostRuntime) {
    let row: [u16; 3] = [0, 0x0180, 0];
    same!(rt; ends(&row), [Some(23), Some(24), Some(0), Some(47)]);
    let nested: [[u8; 2]; 2] = [[255, 255], [255, 127]];
    same!(rt; ends(&nested), [Some(0), Some(30), Some(31), Some(31)]);
    let set = Set::new_le(0b0010_0010u8);
    same!(rt; ends(&set), [Some(2), Some(6), Some(0), Some(7)]);
    let none: [u8; 0] = [];
    same!(rt; ends(&none), [None; 4]);
}

/// Returns the first set bit at or after `index` and the last set bit before `index`. Then returns
/// the first unset bit at or after `index` and the last unset bit before `index`.
fn neighbours<B: Bits>(set: &B, index: u32) -> [Option<u32>; 4]
    requires { ShapeFits B.Shape set.now }
{
    [
        set.next_one(index),
        set.prev_one(index),
        set.next_zero(index),
        set.prev_zero(index),
    ]
}

#[test]
fn neighbours_in_a_word(rt: HostRuntime) {
    let word = 0b0010_0010u8;
    same!(rt; neighbours(&word, 1), [Some(1), None, Some(2), Some(0)]);
    same!(rt; neighbours(&word, 2), [Some(5), Some(1), Some(2), Some(0)]);
    same!(rt; neighbours(&word, 5), [Some(5), Some(1), Some(6), Some(4)]);
    same!(rt; neighbours(&word, 6), [None, Some(5), Some(6), Some(4)]);
    same!(rt; neighbours(&word, u32::MAX), [None, Some(5), None, Some(7)]);
}

#[test]
fn neighbours_from_the_left(rt: HostRuntime) {
    // In little-endian order, bits 2 and 6 are set.
    let view = 0b0010_0010u8.in_order::<LittleEndian>();
    same!(rt; neighbours(&view, 3), [Some(6), Some(2), Some(3), Some(1)]);
    same!(rt; neighbours(&view, 6), [Some(6), Some(2), Some(7), Some(5)]);
}

#[test]
fn neighbours_in_no_word(rt: HostRuntime) {
    let none: [u32; 0] = [];
    same!(rt; neighbours(&none, 0), [None; 4]);
    same!(rt; neighbours(&none, 7), [None; 4]);
}

#[test]
fn ranks_and_selection(rt: HostRuntime) {
    let row: [u64; 3] = [u64::MAX, 0, 0b1011];
    same!(rt; ranks(&row, [0, 63, 64, 128, 130, 9999]), [0, 63, 64, 64, 66, 67]);
    same!(rt; selected(&row, [0, 63, 64]), [Some(0), Some(63), Some(128)]);
    same!(rt; selected(&row, [65, 66]), [Some(129), Some(131)]);
    same!(rt; selected(&row, [67, u32::MAX]), [None, None]);
    let none: [u8; 0] = [];
    same!(rt; (ranks(&none, [3]), selected(&none, [0])), ([0], [None]));
}

#[test]
fn ranks_from_the_left(rt: HostRuntime) {
    // In little-endian order, bits 0, 1, 7 and 15 are set.
    let row: [u8; 2] = [0b1100_0001, 0b0000_0001];
    same!(rt; ranks_in::<_, LittleEndian, 2>(&row, [7, 15]), [2, 3]);
    let bits = selected_in::<_, LittleEndian, 3>(&row, [2, 3, 4]);
    same!(rt; bits, [Some(7), Some(15), None]);
    let least = selected_in::<_, LittleEndian, 1>(&i8::MIN, [0]);
    same!(rt; (least, selected(&i8::MIN, [0])), ([Some(0)], [Some(7)]));
}

/// Counts the set bits and the unset bits of a range.
fn counted<B: Bits>(set: &B, from: u32, to: u32) -> (u32, u32)
    requires { ShapeFits B.Shape set.now }
{
    (
        set.count_ones_in_range(from, to),
        set.count_zeros_in_range(from, to),
    )
}

/// Calls `counted` on a set in the order `E`.
fn counted_in<B: Bits, E: Endian>(set: &B, from: u32, to: u32) -> (u32, u32)
    requires { ShapeFits B.Shape set.now }
{
    counted(&set.in_order::<E>(), from, to)
}

#[test]
fn counts_of_ranges(rt: HostRuntime) {
    // Bits 12 to 19 are set.
    let row: [u16; 2] = [0xF000, 0x000F];
    same!(rt; counted(&row, 12, 20), (8, 0));
    same!(rt; counted(&row, 13, 18), (5, 0));
    same!(rt; counted(&row, 0, 32), (8, 24));
    same!(rt; counted(&row, 10, 14), (2, 2));
    same!(rt; (counted(&row, 7, 7), counted(&row, 32, 32)), ((0, 0), (0, 0)));
    same!(rt; counted_in::<_, LittleEndian>(&row, 0, 4), (4, 0));
}

/// Returns where the first run of `length` set bits begins, and where the first run of `length`
/// unset bits begins.
fn first_runs<B: Bits>(set: &B, length: u32) -> [Option<u32>; 2]
    requires { ShapeFits B.Shape set.now }
{
    [set.first_one_run(length), set.first_zero_run(length)]
}

#[test]
fn first_runs_of_a_word(rt: HostRuntime) {
    // Bits 1 to 3, 5, 6, 8, 9, 11 and 12 are unset.
    let pages = 0b1110_0100_1001_0001u16;
    same!(rt; first_runs(&pages, 0), [Some(0), Some(0)]);
    same!(rt; first_runs(&pages, 1), [Some(0), Some(1)]);
    same!(rt; first_runs(&pages, 3), [Some(13), Some(1)]);
    same!(rt; first_runs(&pages, 4), [None, None]);
}

/// Returns the bits of `N` bytes as flags, by a loop over the bits. The flags past the bytes are
/// `false`.
fn plain<const N: usize>(words: &[u8; N]) -> [bool; 64] {
    let mut bits = [false; 64];
    for k in 0..64usize {
        if k / 8 < N && words[k / 8] >> (k % 8) & 1 == 1 {
            bits[k] = true;
        }
    }
    bits
}

/// Returns the next pseudo-random number.
fn step(state: u64) -> u64 {
    state
        .wrapping_mul(6364136223846793005)
        .wrapping_add(1442695040888963407)
}

/// Counts the set bits below `end` one by one.
fn plain_rank(bits: &[bool; 64], end: u32) -> u32 {
    let mut count = 0u32;
    for k in 0..64usize {
        if (k as u32) < end && bits[k] {
            count = count.saturating_add(1);
        }
    }
    count
}

/// Tests the bits one by one, and returns the first index at or after `from` whose bit is `value`.
fn plain_next(bits: &[bool; 64], from: u32, value: bool) -> Option<u32> {
    for k in 0..64usize {
        if from <= k as u32 && bits[k] == value {
            return Some(k as u32);
        }
    }
    None
}

/// Tests the bits one by one, and returns the last index below `to` whose bit is `value`.
fn plain_prev(bits: &[bool; 64], to: u32, value: bool) -> Option<u32> {
    let mut found = None;
    for k in 0..64usize {
        if (k as u32) < to && bits[k] == value {
            found = Some(k as u32);
        }
    }
    found
}

/// Checks that the calls on a set of 64 bits return what `plain_next`, `plain_prev` and
/// `plain_rank` return for the bits of the set.
fn read_as_plain<B: Bits>(rt: &impl Abort, set: &B, bits: &[bool; 64], from: u32)
    requires { ShapeFits B.Shape set.now }
{
    let around = [
        plain_next(bits, from, true),
        plain_prev(bits, from, true),
        plain_next(bits, from, false),
        plain_prev(bits, from, false),
    ];
    same!(*rt; neighbours(set, from), around);
    same!(*rt; set.rank(from), plain_rank(bits, from));
    if let Some(index) = around[0] {
        same!(*rt; set.select(plain_rank(bits, index)), Some(index));
    }
}

#[test]
fn random_rows_are_read_as_plain_arrays(rt: HostRuntime) {
    let mut state = 1u64;
    for round in 0..2000u32 {
        state = step(state);
        let dense = state >> 8;
        state = step(state);
        let word = if round % 3 == 0 {
            dense
        } else {
            dense & (state >> 4) | dense << 40
        };
        let row = word.to_le_bytes();
        let bits = plain(&row);
        state = step(state);
        let from = (state >> 33) as u32 % 70;
        read_as_plain(&rt, &row, &bits, from);
        read_as_plain(&rt, &word, &bits, from);
    }
}

#[test]
fn relations_of_two_shapes(rt: HostRuntime) {
    let row: [u8; 8] = [0b0110, 0, 0, 0, 0, 0, 0, 1];
    // The members of `row` are 1, 2 and 56. Each line says whether the first set is a subset of the
    // second, is a superset of it, is disjoint from it, and intersects it. Then come the first
    // common member, and the first member that only the first set has.
    same!(rt; stand(&0b0110u64, &row), ([true, false, false, true], [Some(1), None]));
    same!(rt; stand(&0b0111u64, &row), ([false, false, false, true], [Some(1), Some(0)]));
    same!(rt; stand(&0b1001u64, &row), ([false, false, true, false], [None, Some(0)]));
    same!(rt; stand(&row, &6u8), ([false, true, false, true], [Some(1), Some(56)]));
    same!(rt; stand(&row, &0b1100u16), ([false, false, false, true], [Some(2), Some(1)]));
    same!(rt; stand(&6u8, &row), ([true, false, false, true], [Some(1), None]));
    same!(rt; stand(&0b1110u32, &row), ([false, false, false, true], [Some(1), Some(3)]));
}

#[test]
fn relations_of_like_words(rt: HostRuntime) {
    let long: [u32; 3] = [1, 0, 1];
    let short: [u32; 2] = [1, 0];
    // Each line says whether the first set is a subset of the second, is a superset of it, is
    // disjoint from it, and intersects it. Then come the first common member, and the first member
    // that only the first set has.
    same!(rt; stand(&short, &long), ([true, false, false, true], [Some(0), None]));
    same!(rt; stand(&long, &short), ([false, true, false, true], [Some(0), Some(64)]));
    let other: [u32; 1] = [2];
    same!(rt; stand(&long, &other), ([false, false, true, false], [None, Some(0)]));
}

#[test]
fn relations_in_two_orders(rt: HostRuntime) {
    // In little-endian order, `first` has the member 0, and `second` has the members 1 and 7.
    let (first, second) = (Set::new_le(0x80u8), Set::new_le(0x41u8));
    same!(rt; stand(&first, &1u16), ([true, true, false, true], [Some(0), None]));
    same!(rt; stand(&1u16, &first), ([true, true, false, true], [Some(0), None]));
    same!(rt; stand(&second, &0xFFu8), ([true, false, false, true], [Some(1), None]));
    same!(rt; stand(&second, &0x02u8), ([false, true, false, true], [Some(1), Some(7)]));
}

#[test]
fn relations_of_no_capacity(rt: HostRuntime) {
    let none: [u8; 0] = [];
    let within = ([true, false, true, false], [None, None]);
    same!(rt; (stand(&none, &5u8), stand(&none, &5u32)), (within, within));
    let around = ([false, true, true, false], [None, Some(0)]);
    same!(rt; (stand(&5u8, &none), stand(&5u32, &none)), (around, around));
    same!(rt; stand(&none, &none), ([true, true, true, false], [None, None]));
}

/// Returns the first common member of two sets, and the first member that only the first set has.
/// Finds them by a loop over all indexes.
fn plain_firsts(ours: &[bool; 64], theirs: &[bool; 64]) -> [Option<u32>; 2] {
    let mut common = None;
    let mut alone = None;
    for k in (0..64usize).rev() {
        if ours[k] && theirs[k] {
            common = Some(k as u32);
        }
        if ours[k] && !theirs[k] {
            alone = Some(k as u32);
        }
    }
    [common, alone]
}

/// Checks what `stand` returns for two sets. `expected` is what `plain_firsts` returns for them.
fn stand_as_plain<A: Bits, B: Bits>(rt: &impl Abort, one: &A, other: &B, expected: [Option<u32>; 2])
    requires one_fits { ShapeFits A.Shape one.now }
    requires other_fits { ShapeFits B.Shape other.now }
{
    let [common, alone] = expected;
    let ([is_subset, _, is_disjoint, intersects], firsts) = stand(one, other);
    let relations = [alone.is_none(), common.is_none(), common.is_some()];
    same!(*rt; ([is_subset, is_disjoint, intersects], firsts), (relations, expected));
}

#[test]
fn random_rows_stand_as_plain_arrays_do(rt: HostRuntime) {
    let mut state = 7u64;
    for round in 0..1000u32 {
        state = step(state);
        let first = state & (state >> 13) & (state << 7);
        state = step(state);
        let second = if round % 4 == 0 {
            first | state
        } else {
            state & (state >> 11)
        };
        let row = second.to_le_bytes();
        let ours = plain(&first.to_le_bytes());
        let theirs = plain(&row);
        let expected = plain_firsts(&ours, &theirs);
        stand_as_plain(&rt, &first, &second, expected);
        stand_as_plain(&rt, &first, &row, expected);
    }
}

#[test]
fn counts_of_two_sets(rt: HostRuntime) {
    let row: [u8; 8] = [0b0110, 0, 0, 0, 0, 0, 0, 1];
    same!(rt; counts(&row, &0b1100u16), [1, 2, 3]);
    same!(rt; counts(&0b1100u16, &row), [1, 1, 3]);
    let long: [u32; 3] = [3, 0, 1];
    let short: [u32; 2] = [6, 8];
    same!(rt; counts(&long, &short), [1, 2, 4]);
    same!(rt; counts(&short, &long), [1, 2, 4]);
}

#[test]
fn counts_in_each_order(rt: HostRuntime) {
    // In little-endian order, 0x81 has the members 0 and 7, 0x8000 has 0, and 0x8001 has 0 and 15.
    same!(rt; counts_in::<u8, u16, LittleEndian>(&0x81, &0x8000), [1, 1, 1]);
    same!(rt; counts_in::<u8, u16, LittleEndian>(&0x81, &0x8001), [1, 1, 2]);
    same!(rt; counts(&Set::new_le(0xC0u8), &3u8), [2, 0, 0]);
    let none: [u8; 0] = [];
    same!(rt; counts(&none, &7u8), [0, 0, 3]);
}
