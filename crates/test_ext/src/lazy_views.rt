//! Tests of views, such as the intersection that `one.and(other)` returns. The expected values are
//! worked out by hand.

ghost use Rattle.std.specs.Prelude.{IsTrue};
ghost use Rattle.bittle.specs.Values.{ShapeFits};

use crate::calls::{
    BACK, FRONT, Ones, Question, ask_alone, ask_both, ask_either, ask_just_one, taken,
};
use crate::checks::same;
use bittle::{Bits, BitsOwned, LittleEndian, Set, Shape};
use bittle_ext::prelude::*;

// The answer to `Reading`: the capacity, how many bits are set, and the first and the last set bit.
type Read = (u32, u32, [Option<u32>; 2]);

// A question: the capacity of a view, how many of its bits are set, and the first and the last set
// bit.
#[derive(Drop)]
struct Reading;

impl Question for Reading {
    type Answer = Read;

    fn ask<V: View>(&self, view: &V) -> Read {
        let ends = [view.first_one(), view.last_one()];
        (view.bits_capacity(), view.count_ones(), ends)
    }
}

// A question: the first set bit and the first unset bit of a view.
#[derive(Drop)]
struct Firsts;

impl Question for Firsts {
    type Answer = [Option<u32>; 2];

    fn ask<V: View>(&self, view: &V) -> [Option<u32>; 2] {
        [view.first_one(), view.first_zero()]
    }
}

// A question: whether all bits of a view are unset, and whether all are set.
#[derive(Drop)]
struct Whole;

impl Question for Whole {
    type Answer = (bool, bool);

    fn ask<V: View>(&self, view: &V) -> (bool, bool) {
        (view.all_zeros(), view.all_ones())
    }
}

// A question: whether each of two bits of a view is set.
#[derive(Drop)]
struct Tested([u32; 2]);

impl Question for Tested {
    type Answer = [bool; 2];

    fn ask<V: View>(&self, view: &V) -> [bool; 2] {
        [view.test_bit(self.0[0]), view.test_bit(self.0[1])]
    }
}

// Asks a question of the complement of a set.
fn ask_unset<B: Bits, Q: Question>(question: &Q, set: &B) -> Q::Answer
    requires { ShapeFits B.Shape set.now }
{
    question.ask(&set.complement_view())
}

// Asks a question of the view of a range of a set.
fn ask_within<B: Bits, Q: Question>(question: &Q, set: &B, from: u32, to: u32) -> Q::Answer
    requires { ShapeFits B.Shape set.now }
{
    question.ask(&set.within(from, to))
}

// Reads the intersection of two sets, and the members that only the first one has.
fn read_both_and_alone<A: Bits, B: Bits>(one: &A, other: &B) -> [Read; 2]
    requires one_fits { ShapeFits A.Shape one.now }
    requires other_fits { ShapeFits B.Shape other.now }
{
    [
        ask_both(&Reading, one, other),
        ask_alone(&Reading, one, other),
    ]
}

#[test]
fn a_byte_and_a_wider_word(rt: HostRuntime) {
    // `byte` has the members 0 and 1, and `word` has 1, 2 and 8.
    let (byte, word) = (0b0011u8, 0x0106u16);
    let [both, alone] = read_both_and_alone(&byte, &word);
    same!(rt; (both, alone), ((8, 1, [Some(1), Some(1)]), (8, 1, [Some(0), Some(0)])));
    let [both, alone] = read_both_and_alone(&word, &byte);
    same!(rt; (both, alone), ((16, 1, [Some(1), Some(1)]), (16, 2, [Some(2), Some(8)])));
    same!(rt; ask_either(&Reading, &byte, &word), (16, 4, [Some(0), Some(8)]));
    same!(rt; ask_just_one(&Reading, &word, &byte), (16, 3, [Some(0), Some(8)]));
}

#[test]
fn a_capacity_that_is_rounded_up(rt: HostRuntime) {
    // `word` has the member 31, and `bytes`, whose capacity is 40, has 24, 31 and 32.
    let (word, bytes) = (0x8000_0000u32, [0u8, 0, 0, 0x81, 1]);
    same!(rt; ask_either(&Reading, &word, &bytes), (64, 3, [Some(24), Some(32)]));
    same!(rt; ask_either(&Tested([40, 96]), &word, &bytes), [false, true]);
    same!(rt; ask_just_one(&Reading, &word, &bytes), (64, 2, [Some(24), Some(32)]));
}

// Asks a question of the union of two sets that have the same word type.
fn ask_either_like<A: Bits, B: Bits + Shape<LeafWord = A::LeafWord>, Q: Question>(
    question: &Q,
    one: &A,
    other: &B,
) -> Q::Answer
    requires one_fits { ShapeFits A.Shape one.now }
    requires other_fits { ShapeFits B.Shape other.now }
{
    question.ask(&one.or(other))
}

// Asks a question of the symmetric difference of two sets that have the same word type.
fn ask_just_one_like<A: Bits, B: Bits + Shape<LeafWord = A::LeafWord>, Q: Question>(
    question: &Q,
    one: &A,
    other: &B,
) -> Q::Answer
    requires one_fits { ShapeFits A.Shape one.now }
    requires other_fits { ShapeFits B.Shape other.now }
{
    question.ask(&one.xor(other))
}

// Reads the union and the symmetric difference of two sets that have the same word type.
fn read_like<A: Bits, B: Bits + Shape<LeafWord = A::LeafWord>>(one: &A, other: &B) -> [Read; 2]
    requires one_fits { ShapeFits A.Shape one.now }
    requires other_fits { ShapeFits B.Shape other.now }
{
    [
        ask_either_like(&Reading, one, other),
        ask_just_one_like(&Reading, one, other),
    ]
}

#[test]
fn like_words_in_unlike_orders(rt: HostRuntime) {
    // `byte` has the members 0 and 1, and the little-endian `set` has 1 and 7.
    let (byte, set): (u8, Set<u8, LittleEndian>) = (0b0011, Set::new_le(0b0100_0001));
    let [either, one] = read_like(&byte, &set);
    same!(rt; (either, one), ((8, 3, [Some(0), Some(7)]), (8, 2, [Some(0), Some(7)])));
    same!(rt; ask_either_like(&Ones([BACK]), &set, &byte), [Some(7)]);
}

// Asks a question of an empty view: the intersection of a set with itself, minus the set.
fn ask_common_alone<B: Bits, Q: Question>(question: &Q, row: &B) -> Q::Answer
    requires { ShapeFits B.Shape row.now }
{
    ask_alone(question, &row.and(row), row)
}

#[test]
fn rows_of_unlike_lengths(rt: HostRuntime) {
    // `byte` has the members 1 and 2, and `row` has 0, 2 and 8.
    let (byte, row) = (0b0110u8, [0b0101u8, 1]);
    let [either, one] = read_like(&byte, &row);
    same!(rt; (either, one), ((16, 4, [Some(0), Some(8)]), (16, 3, [Some(0), Some(8)])));
    let [_, one] = read_like(&row, &byte);
    same!(rt; one, (16, 3, [Some(0), Some(8)]));
    same!(rt; ask_just_one_like(&Firsts, &row, &byte), [Some(0), Some(2)]);
    same!(rt; ask_alone(&Whole, &row, &byte), (false, false));
    same!(rt; ask_common_alone(&Whole, &row), (true, false));
}

// Returns whether the difference of `full` and `row` is empty, and the first member of this
// difference. Then returns whether all bits of the intersection are set, and how many are set.
fn compared<B: Bits>(full: &B, row: &B) -> (bool, Option<u32>, bool, u32)
    requires full_fits { ShapeFits B.Shape full.now }
    requires row_fits { ShapeFits B.Shape row.now }
{
    let ((none, _), (_, all)) = (ask_alone(&Whole, full, row), ask_both(&Whole, full, row));
    let [(_, count, _), (_, _, ends)] = read_both_and_alone(full, row);
    (none, ends[0], all, count)
}

#[test]
fn many_words_at_once(rt: HostRuntime) {
    // `row` differs from `full` in just one byte. This byte is each of the eleven in turn: one of
    // the first four, then one of the next four, and then one of the last three.
    let full = [255u8; 11];
    for place in 0..11u32 {
        let mut row = [255u8; 11];
        row[place as usize] = 0xEF;
        same!(rt; compared(&full, &row), (false, Some(place * 8 + 4), false, 87));
    }
    same!(rt; compared(&full, &full), (true, None, true, 88));
}

// Counts the set bits of the complement of the complement of a set.
fn count_twice_unset<B: Bits>(set: &B) -> u32
    requires { ShapeFits B.Shape set.now }
{
    let (_, count, _) = ask_unset(&Reading, &set.complement_view());
    count
}

#[test]
fn a_complement(rt: HostRuntime) {
    // Bits 1 and 3 are unset.
    let word = 0b1111_0101u8;
    same!(rt; ask_unset(&Reading, &word), (8, 2, [Some(1), Some(3)]));
    same!(rt; count_twice_unset(&word), 6);
    same!(rt; ask_unset(&Tested([1, 2]), &word), [true, false]);
    same!(rt; ask_unset(&Whole, &0xFFu8), (true, false));
    same!(rt; ask_unset(&Whole, &0u8), (false, true));
}

// Makes a little-endian set. Counts the set bits of a range, and returns the first set bit of
// another range.
fn count_and_first_of_left<T: BitsOwned>(left: T) -> (u32, Option<u32>)
    requires { IsTrue T.indexable }
{
    let set = Set::new_le(left);
    let (_, count, _) = ask_within(&Reading, &set, 0, 8);
    let (_, _, ends) = ask_within(&Reading, &set, 1, 9);
    (count, ends[0])
}

#[test]
fn a_range(rt: HostRuntime) {
    // Bits 1, 5, 6 and 8 are set.
    let row = [0b0110_0010u8, 1];
    same!(rt; ask_within(&Reading, &row, 5, 8), (16, 2, [Some(5), Some(6)]));
    same!(rt; ask_within(&Reading, &row, 0, 16), (16, 4, [Some(1), Some(8)]));
    same!(rt; ask_within(&Reading, &row, 3, 3), (16, 0, [None, None]));
    same!(rt; ask_within(&Whole, &row, 2, 5), (true, false));
    same!(rt; ask_within(&Whole, &row, 1, 2), (false, false));
    same!(rt; ask_within(&Tested([6, 8]), &row, 5, 8), [true, false]);
    // In little-endian order, bits 0 and 8 are set.
    same!(rt; count_and_first_of_left([0x80u8, 0x80]), (1, Some(8)));
}

// Counts the set bits of a view below index 6, and returns where its first run of four set bits
// begins.
#[derive(Drop)]
struct BelowSixAndRun;

impl Question for BelowSixAndRun {
    type Answer = (u32, Option<u32>);

    fn ask<V: View>(&self, view: &V) -> (u32, Option<u32>) {
        (view.within(0, 6).count_ones(), view.first_one_run(4))
    }
}

// A question: the first set bit that an iterator over a view yields in little-endian order.
#[derive(Drop)]
struct FirstFromLeft;

impl Question for FirstFromLeft {
    type Answer = [Option<u32>; 1];

    fn ask<V: View>(&self, view: &V) -> [Option<u32>; 1] {
        taken(&mut Set::new_le(*view).iter_ones(), [FRONT])
    }
}

// Asks a question of a difference: the members of `one` in a range, minus those of `other`.
fn ask_alone_within<A: Bits, B: Bits, Q: Question>(
    question: &Q,
    one: &A,
    other: &B,
    from: u32,
    to: u32,
) -> Q::Answer
    requires one_fits { ShapeFits A.Shape one.now }
    requires other_fits { ShapeFits B.Shape other.now }
{
    ask_alone(question, &one.within(from, to), other)
}

#[test]
fn views_of_views(rt: HostRuntime) {
    // `one` has the members 1, 5, 6 and 9, and `other` has 5, 6 and 7.
    let (one, other) = (0x0262u16, 0xE0u8);
    same!(rt; ask_both(&BelowSixAndRun, &one, &other), (1, None));
    let (_, _, ends) = ask_alone_within(&Reading, &one, &other, 0, 9);
    same!(rt; ends[0], Some(1));
    same!(rt; ask_alone_within(&Whole, &one, &other, 5, 7), (true, false));
    same!(rt; ask_unset(&BelowSixAndRun, &one), (4, Some(10)));
    same!(rt; ask_both(&FirstFromLeft, &one, &other), [Some(9)]);
}

#[test]
fn capacity_0(rt: HostRuntime) {
    let none: [u64; 0] = [];
    let empty = (true, true);
    same!(rt; ask_both(&Reading, &none, &0xFFu8), (0, 0, [None, None]));
    same!(rt; ask_either_like(&Reading, &none, &none), (0, 0, [None, None]));
    same!(rt; (ask_unset(&Whole, &none), ask_within(&Whole, &none, 0, 0)), (empty, empty));
    same!(rt; ask_alone(&Tested([3, 0]), &none, &7u8), [false, false]);
    same!(rt; ask_just_one(&Tested([7, 0]), &none, &0x80u8), [true, false]);
}

#[test]
fn a_slice(rt: HostRuntime) {
    let words = [1u64, 0, 0, 0, 0, 1 << 63];
    let slice: &[u64] = &words[..5];
    same!(rt; ask_both(&Reading, &slice, &words), (320, 1, [Some(0), Some(0)]));
    same!(rt; ask_alone(&Reading, &words, &slice), (384, 1, [Some(383), Some(383)]));
    same!(rt; ask_unset(&Reading, &slice), (320, 319, [Some(1), Some(319)]));
}
