//! Tests of Rust ranges such as `2..=6`, and of ranges that reach past the capacity. The expected
//! values are worked out by hand, or, for random sets, by plain loops over 24 flags.

ghost use Rattle.std.specs.Prelude.{◌≤◌, IsTrue};
ghost use Rattle.bittle.specs.Values.{ShapeFits};

use crate::calls::{BACK, Change, FRONT, change_in, ones_in_range, taken};
use crate::checks::same;
use crate::random::draw;
use bittle::{Bits, BitsMut, BitsOwned, Endian, LittleEndian, Set};
use bittle_ext::prelude::*;
use std::ops::{Bound, RangeBounds};

// A word in which bits 1, 5 and 6 are set. In little-endian order, these are bits 6, 2 and 1.
const WORD: u8 = 0b0110_0010;

// Counts the set bits of a range of each form, such as `1..6` and `..=5`, and the unset bits of two
// ranges.
fn counted_in_each_form<B: Bits>(row: &B) -> ([u32; 7], [u32; 2])
    requires { ShapeFits B.Shape row.now }
{
    let after_one = (Bound::Excluded(1u32), Bound::Unbounded);
    let ones = [
        row.count_ones_in_span(1..6),
        row.count_ones_in_span(1..=6),
        row.count_ones_in_span(..5),
        row.count_ones_in_span(..=5),
        row.count_ones_in_span(2..),
        row.count_ones_in_span(..),
        row.count_ones_in_span(after_one),
    ];
    let zeros = [row.count_zeros_in_span(4..), row.count_zeros_in_span(..=2)];
    (ones, zeros)
}

#[test]
fn each_form_of_a_range_is_counted(rt: HostRuntime) {
    same!(rt; counted_in_each_form(&WORD), ([2, 3, 1, 2, 2, 3, 2], [2, 2]));
}

// Counts the set or the unset bits of four ranges that reach past a capacity of 8. Then searches
// five such ranges, and returns whether two more have a set bit.
fn read_past<B: Bits>(row: &B) -> ([u32; 4], [Option<u32>; 5], [bool; 2])
    requires { ShapeFits B.Shape row.now }
{
    let counts = [
        row.count_ones_in_range(6, 900),
        row.count_zeros_in_range(6, 900),
        row.count_ones_in_span(..=u32::MAX),
        row.count_zeros_in_span(8..),
    ];
    let ends = [
        row.first_one_in_range(2, 99),
        row.last_one_in_range(2, 99),
        row.first_zero_in_range(5, u32::MAX),
        row.last_zero_in_range(8, 99),
        row.first_one_in_range(8, 99),
    ];
    let any = [row.any_in_range(7, 99), row.any_in_range(6, 99)];
    (counts, ends, any)
}

#[test]
fn a_range_that_reaches_past_the_capacity_ends_there(rt: HostRuntime) {
    let ends = [Some(5), Some(6), Some(7), None, None];
    same!(rt; read_past(&WORD), ([1, 1, 3, 0], ends, [false, true]));
}

// Counts the bits of a backward range in three ways, and searches it in three ways. Then returns
// whether it has a set bit, whether all its bits are set, and whether all bits of another backward
// range are set.
fn read_backwards<B: Bits>(row: &B) -> ([u32; 3], [Option<u32>; 3], [bool; 3])
    requires { ShapeFits B.Shape row.now }
{
    let counts = [
        row.count_ones_in_range(7, 1),
        row.count_zeros_in_range(7, 1),
        row.within(7, 1).count_ones(),
    ];
    let [item] = ones_in_range(row, 7, 1, [FRONT]);
    let ends = [
        row.first_one_in_range(7, 1),
        row.last_zero_in_range(7, 1),
        item,
    ];
    let answers = [
        row.any_in_range(7, 1),
        row.all_in_range(7, 1),
        row.all_in_range(99, 90),
    ];
    (counts, ends, answers)
}

#[test]
fn a_range_that_runs_backwards_is_empty(rt: HostRuntime) {
    let answers = [false, true, true];
    same!(rt; read_backwards(&WORD), ([0, 0, 0], [None, None, None], answers));
}

// Returns for nine ranges of a set of capacity 8 whether all bits are set. The first three ranges
// end below, at and past the capacity. Of the next three, two end at the capacity, and the third
// ends past it. The last three are the whole set, an empty range at 9, and the index 8 alone.
fn all_of_each<B: Bits>(row: &B) -> ([bool; 3], [bool; 3], [bool; 3])
    requires { ShapeFits B.Shape row.now }
{
    let ranges = [
        row.all_in_range(5, 7),
        row.all_in_range(5, 8),
        row.all_in_range(5, 9),
    ];
    let spans = [
        row.all_in_span(5..),
        row.all_in_span(5..=7),
        row.all_in_span(5..=8),
    ];
    let others = [
        row.all_in_span(..),
        row.all_in_range(9, 9),
        row.all_in_range(8, 9),
    ];
    (ranges, spans, others)
}

#[test]
fn all_of_a_range_is_false_where_an_index_is_past_the_capacity(rt: HostRuntime) {
    let (to_seven, past) = ([true, false, false], [false, true, false]);
    same!(rt; all_of_each(&WORD), (to_seven, [false; 3], past));
    let (to_eight, all) = ([true, true, false], [true, true, false]);
    same!(rt; all_of_each(&0xE0u8), (to_eight, to_eight, past));
    same!(rt; all_of_each(&0xFFu8), (to_eight, to_eight, all));
}

// Returns the last set bit of a view of the range `2..`.
fn last_of_view<B: Bits>(row: &B) -> Option<u32>
    requires { ShapeFits B.Shape row.now }
{
    row.within_span(2..).last_one()
}

// Searches four ranges, and returns the last set bit of a view of the range `2..`. Then counts the
// set bits of a range, and returns whether another range has a set bit.
fn searched<B: Bits>(row: &B) -> ([Option<u32>; 5], u32, bool)
    requires { ShapeFits B.Shape row.now }
{
    let ends = [
        row.first_one_in_span(2..),
        row.last_one_in_span(..=5),
        row.first_zero_in_span(1..),
        row.last_zero_in_span(..6),
        last_of_view(row),
    ];
    (ends, row.count_ones_in_span(3..), row.any_in_span(3..6))
}

#[test]
fn searches_of_a_range_from_the_left(rt: HostRuntime) {
    let ends = [Some(2), Some(2), Some(3), Some(5), Some(6)];
    same!(rt; searched(&Set::new_le(WORD)), (ends, 1, false));
}

// Returns the set bits that an iterator over `2..700` yields. The range reaches past the capacity.
fn ones_past<B: Bits>(row: &B) -> [Option<u32>; 3]
    requires { ShapeFits B.Shape row.now }
{
    ones_in_range(row, 2, 700, [FRONT, BACK, FRONT])
}

// Takes items from an iterator over the unset bits of a range, one from each of `ends` in turn.
fn zeros_in_span<B: Bits, R: RangeBounds<u32>, const N: usize>(
    row: &B,
    range: R,
    ends: [bool; N],
) -> [Option<u32>; N]
    requires fits { ShapeFits B.Shape row.now }
    requires known { R.has_bounds range }
{
    taken(&mut row.iter_zeros_in_span(range), ends)
}

#[test]
fn iterators_over_a_range_past_the_capacity(rt: HostRuntime) {
    same!(rt; ones_past(&WORD), [Some(5), Some(6), None]);
    let view = WORD.in_order::<LittleEndian>();
    let zeros = zeros_in_span(&view, 4.., [FRONT, BACK, BACK]);
    same!(rt; zeros, [Some(4), Some(7), Some(5)]);
}

// A change that clears the first four bits of a set, if its capacity is at least 4.
#[derive(Drop)]
struct ClearFour;

impl Change for ClearFour {
    type Answer = ();

    fn change<B: BitsMut>(&self, set: &mut B) {
        if 4 <= set.bits_capacity() {
            set.clear_span(..4);
        }
    }
}

// Clears the first four bits of a set in the order `E`.
fn with_four_cleared<B: BitsOwned, E: Endian>(mut row: B) -> B
    requires { IsTrue B.indexable }
{
    change_in::<B, E, _>(&ClearFour, &mut row);
    row
}

// Returns a set after the change that `kind` picks, or unchanged if its capacity is below 16. Each
// change has a range of another form.
fn after_span<B: BitsMut>(kind: u32, set: B) -> B
    requires { ShapeFits B.Shape set }
{
    let mut now = set;
    if 16 <= now.bits_capacity() {
        match kind {
            0 => now.set_span(6..=10),
            1 => now.clear_span(..7),
            2 => now.toggle_span(9..),
            _ => now.assign_span(..=8, true),
        }
    }
    now
}

#[test]
fn ranges_are_changed(rt: HostRuntime) {
    let first = after_span(0, [0u8; 2]);
    let second = after_span(1, first);
    let third = after_span(2, second);
    same!(rt; (first, second, third), ([0xC0, 0x07], [0x80, 0x07], [0x80, 0xF9]));
    let fourth = after_span(3, third);
    let fifth = with_four_cleared::<_, LittleEndian>(fourth);
    same!(rt; (fourth, fifth), ([0xFF, 0xF9], [0x0F, 0xF9]));
}

// Returns `none` with the range `6..=10` set, and `all` with the range `..11` cleared.
fn with_and_without<B: BitsOwned>(none: B, all: B) -> [B; 2]
    requires indexable { IsTrue B.indexable }
    requires long { 16 ≤ B.type_capacity }
{
    [none.with_span(6..=10), all.without_span(..11)]
}

// Returns `some` with the range `4..` flipped, and `none` with the range `..3` set.
fn toggled_and_with<B: BitsOwned>(some: B, none: B) -> [B; 2]
    requires indexable { IsTrue B.indexable }
    requires long { 8 ≤ B.type_capacity }
{
    [some.with_span_toggled(4..), none.with_span(..3)]
}

#[test]
fn sets_are_made_of_ranges(rt: HostRuntime) {
    let [with, without] = with_and_without([0u8; 2], [0xFF; 2]);
    same!(rt; (with, without), ([0xC0, 0x07], [0x00, 0xF8]));
    same!(rt; toggled_and_with(0b0011_1100u8, 0), [0b1100_1100, 0b0000_0111]);
    let some = Set::new_le(0b0011_1100u8);
    let [toggled, with] = toggled_and_with(some, Set::new_le(0u8));
    same!(rt; (toggled.into_bits(), with.into_bits()), (0b0011_0011, 0b1110_0000));
}

// Counts bits in two ranges of a set of capacity 0, searches two ranges, and iterates over one.
// Then returns whether all bits of the set are set, whether any bit is set, and whether all bits of
// a range past the capacity are set.
fn read_nothing<B: Bits>(none: &B) -> ([u32; 2], [Option<u32>; 3], [bool; 3])
    requires { ShapeFits B.Shape none.now }
{
    let counts = [none.count_ones_in_range(0, 9), none.count_zeros_in_span(..)];
    let [item] = zeros_in_span(none, ..=5, [FRONT]);
    let items = [
        none.first_one_in_span(..),
        none.last_zero_in_span(3..),
        item,
    ];
    let answers = [
        none.all_in_span(..),
        none.any_in_span(..),
        none.all_in_range(0, 1),
    ];
    (counts, items, answers)
}

// Calls `set_span`, `toggle_span` and `with_span` on a set of capacity 0, and returns the result.
fn change_nothing<B: BitsOwned>(mut none: B) -> B
    requires { IsTrue B.indexable }
{
    none.set_span(..);
    none.toggle_span(0..0);
    none.with_span(..)
}

#[test]
fn ranges_of_no_bits(rt: HostRuntime) {
    let none: [u8; 0] = [];
    let answers = [true, false, false];
    same!(rt; read_nothing(&none), ([0, 0], [None, None, None], answers));
    same!(rt; change_nothing(none), []);
}

// The results of eight calls for a range: how many bits are set, how many are unset, the first and
// the last set bit, the first and the last unset bit, whether any bit is set, and whether all are.
type Answers = ((u32, u32), [Option<u32>; 4], (bool, bool));

// Makes each of the eight calls on a range of a set.
fn answers<B: Bits, R: RangeBounds<u32> + Copy>(row: &B, range: R) -> Answers
    requires fits { ShapeFits B.Shape row.now }
    requires known { R.has_bounds range }
{
    let counts = (
        row.count_ones_in_span(range),
        row.count_zeros_in_span(range),
    );
    let ones = (row.first_one_in_span(range), row.last_one_in_span(range));
    let zeros = (row.first_zero_in_span(range), row.last_zero_in_span(range));
    let ends = [ones.0, ones.1, zeros.0, zeros.1];
    (
        counts,
        ends,
        (row.any_in_span(range), row.all_in_span(range)),
    )
}

// Works out by a loop over the flags what `answers` should return for the range `from..to`.
fn expected(flags: &[bool; 24], from: u32, to: u32) -> Answers {
    let mut counts = (0u32, 0u32);
    let mut ends = [None; 4];
    for index in 0..24u32 {
        if from <= index && index < to {
            let at = if flags[index as usize] { 0 } else { 2usize };
            if ends[at].is_none() {
                ends[at] = Some(index);
            }
            ends[at + 1] = Some(index);
            if at == 0 {
                counts.0 = counts.0.wrapping_add(1);
            } else {
                counts.1 = counts.1.wrapping_add(1);
            }
        }
    }
    let all = from >= to || to <= 24 && counts.1 == 0;
    (counts, ends, (counts.0 > 0, all))
}

// Draws three random bytes, about half of them 255. Returns them and their bits as flags, in
// little-endian order if `left`, else in big-endian order.
fn draw_row(state: &mut u32, left: bool) -> ([u8; 3], [bool; 24]) {
    let mut row = [0u8; 3];
    let mut flags = [false; 24];
    for k in 0..3usize {
        let byte = (draw(state) % 512).min(255) as u8;
        row[k] = byte;
        for i in 0..8usize {
            let place = if left { 7 - i } else { i };
            flags[k * 8 + i] = byte >> place & 1 == 1;
        }
    }
    (row, flags)
}

#[test]
fn drawn_ranges_agree_with_plain_loops_over_flags(rt: HostRuntime) {
    let mut state = 23;
    for _ in 0..500 {
        let (row, flags) = draw_row(&mut state, false);
        let (from, to) = (draw(&mut state) % 30, draw(&mut state) % 30);
        let (start, end) = (Bound::Included(from), Bound::Excluded(to));
        same!(rt; answers(&row, (start, end)), expected(&flags, from, to));
        same!(rt; answers(&row, (start, Bound::Unbounded)), expected(&flags, from, 24));
    }
}

#[test]
fn drawn_ranges_from_the_left_agree_with_plain_loops_over_flags(rt: HostRuntime) {
    let mut state = 29;
    for _ in 0..500 {
        let (row, flags) = draw_row(&mut state, true);
        let set = Set::new_le(row);
        let to = draw(&mut state) % 30;
        let ends = (Bound::Unbounded, Bound::Included(to));
        same!(rt; answers(&set, ends), expected(&flags, 0, to.wrapping_add(1)));
    }
}
