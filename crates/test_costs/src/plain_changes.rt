//! Tests of what it costs to change a whole set or a range of it: how many words a call fetches,
//! and how many other calls it makes to the words.

ghost use Rattle.std.specs.Prelude.{◌≤◌, IsTrue};
ghost use Rattle.bittle.specs.Values.{ShapeFits};

use crate::asked::Asked;
use crate::probe_rows::{Measured, costs, measure_rows};
use bittle::{BigEndian, Bits, BitsMut, BitsOwned, Set};
use bittle_ext::{BitsCombineExt, BitsCopyExt, BitsOwnedExt, BitsShiftExt, BitsSpanMutExt};
use std::process::Abort;

// The calls that change the rows.
#[derive(Drop)]
enum Kind {
    Ranges,
    All,
    ByAnother,
    Moves,
    CopiedRange,
}

impl Measured for Kind {
    fn measure<B: BitsOwned>(
        self,
        rt: &impl Abort,
        mut few: B,
        _most: B,
        one: B,
        _none: B,
        _low: B,
        _lower: B,
        asked: &Asked,
    ) {
        match self {
            Kind::Ranges => change_ranges(rt, &mut few, asked),
            Kind::All => {
                let other = few;
                change_all(rt, &mut few, &other, asked);
            }
            Kind::ByAnother => {
                unite_and_intersect(rt, &mut few, &one, asked);
                take_away_and_copy(rt, &mut few, &one, asked);
            }
            Kind::Moves => {
                move_copies(rt, few, asked);
                move_copies_from_left(rt, few, asked);
                move_in_place(rt, &mut few, asked);
            }
            Kind::CopiedRange => copy_range(rt, &mut few, asked),
        }
    }
}

// Indexes 100 to 199 lie in words 1, 2 and 3.
fn change_ranges<B: BitsMut>(rt: &impl Abort, few: &mut B, asked: &Asked)
    requires fits { ShapeFits B.Shape few.old }
    requires long { 200 ≤ (B.big few.old).capacity }
{
    costs!(rt; asked, few.set_range_in::<BigEndian>(100, 200), (), 0, 3);
    costs!(rt; asked, few.toggle_range_in::<BigEndian>(100, 200), (), 0, 3);
    costs!(rt; asked, few.clear_range_in::<BigEndian>(100, 200), (), 0, 3);
    costs!(rt; asked, few.set_span(100..200), (), 0, 3);
    costs!(rt; asked, few.set_bit(100), (), 0, 1);
    costs!(rt; asked, few.clear_bit(100), (), 0, 1);
}

#[test]
fn a_change_of_a_range_in_an_order_asks_each_element_of_it_once(rt: HostRuntime) {
    measure_rows(&rt, Kind::Ranges);
}

// An operation on two sets of one type makes one call to each element of the first set.
fn change_all<B: BitsOwned>(rt: &impl Abort, few: &mut B, other: &B, asked: &Asked)
    requires { IsTrue B.indexable }
{
    costs!(rt; asked, few.union_assign(other), (), 0, 12);
    costs!(rt; asked, few.set_all(), (), 0, 12);
    costs!(rt; asked, few.clear_bits(), (), 0, 12);
}

#[test]
fn a_change_of_all_bits_asks_each_element_once(rt: HostRuntime) {
    measure_rows(&rt, Kind::All);
}

// Changes `few` to its union with another set, and then to its intersection with that set. Each
// call fetches each word of both sets, and writes each word of the first set.
fn unite_and_intersect<A: BitsMut, B: Bits>(rt: &impl Abort, few: &mut A, right: &B, asked: &Asked)
    requires few { ShapeFits A.Shape few.old }
    requires right { ShapeFits B.Shape right.now }
{
    costs!(rt; asked, few.union_with(right), false, 24, 12);
    costs!(rt; asked, few.intersect_with(right), true, 24, 12);
}

// Changes `few` to its difference with another set, and then to its symmetric difference with that
// set. Then copies that set to `few`. The calls read and write what the calls above do.
fn take_away_and_copy<A: BitsMut, B: Bits>(rt: &impl Abort, few: &mut A, right: &B, asked: &Asked)
    requires few { ShapeFits A.Shape few.old }
    requires right { ShapeFits B.Shape right.now }
{
    costs!(rt; asked, few.difference_with(right), true, 24, 12);
    costs!(rt; asked, few.symmetric_difference_with(right), true, 24, 12);
    costs!(rt; asked, few.copy_from(right), (), 24, 12);
}

#[test]
fn a_change_by_another_set_reads_each_word_of_both_once(rt: HostRuntime) {
    measure_rows(&rt, Kind::ByAnother);
}

// A shift by 65 makes ten words from two words each, and one from one word. One word becomes empty.
// A rotation makes each new word from two words.
fn move_copies<B: BitsOwned>(rt: &impl Abort, set: B, asked: &Asked)
    requires { IsTrue B.indexable }
{
    costs!(rt; asked, { let _ = set.shifted_up(65); }, (), 21, 12);
    costs!(rt; asked, { let _ = set.shifted_down(65); }, (), 21, 12);
    costs!(rt; asked, { let _ = set.rotated_up(65); }, (), 24, 12);
    costs!(rt; asked, { let _ = set.rotated_down(65); }, (), 24, 12);
}

// In the order `LittleEndian` a shift and a rotation cost the same as in the other order.
fn move_copies_from_left<B: BitsOwned>(rt: &impl Abort, few: B, asked: &Asked)
    requires { IsTrue B.indexable }
{
    move_copies(rt, Set::new_le(few), asked);
}

// Shifts cost what they cost in `move_copies`. `rotate_down` by 200 first exchanges 11 pairs of
// words, which rotates the row by three words. Then it makes the new last word from two words,
// shifts all bits down by 8, and writes the last word. `rotate_up` by 65 makes the first two words
// from two words each, shifts all bits up, and writes the first two words.
fn move_in_place<B: BitsMut>(rt: &impl Abort, few: &mut B, asked: &Asked)
    requires { ShapeFits B.Shape few.old }
{
    costs!(rt; asked, few.shift_up(65), (), 21, 12);
    costs!(rt; asked, few.shift_down(65), (), 21, 12);
    costs!(rt; asked, few.rotate_down(200), (), 47, 35);
    costs!(rt; asked, few.rotate_up(65), (), 25, 14);
}

#[test]
fn a_move_of_all_bits_reads_each_word_a_few_times(rt: HostRuntime) {
    measure_rows(&rt, Kind::Moves);
}

// Indexes 130 to 257 lie in words 2, 3 and 4. Each of these is fetched once and written once.
fn copy_range<B: BitsMut>(rt: &impl Abort, few: &mut B, asked: &Asked)
    requires fits { ShapeFits B.Shape few.old }
    requires long { 258 ≤ (B.big few.old).capacity }
{
    let plain = [0u64; 2];
    costs!(rt; asked, few.copy_range(&plain, 0, 128, 130), (), 3, 3);
}

#[test]
fn a_range_is_copied_to_each_of_its_words_once(rt: HostRuntime) {
    measure_rows(&rt, Kind::CopiedRange);
}
