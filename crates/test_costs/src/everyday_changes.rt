//! Tests of the costs of everyday calls that change a set. A change of one bit reaches one word. If
//! a call first searches for a bit, it fetches the words up to this bit.

ghost use Rattle.std.specs.Prelude.{◌≤◌, IsTrue};
ghost use Rattle.bittle.specs.Values.{ShapeFits};

use crate::asked::Asked;
use crate::probe_rows::{Changing, change_rows, costs};
use bittle::{BitsMut, LittleEndian};
use bittle_ext::{BitsIndexMutExt, BitsMutExt, BitsMutViewExt};
use std::process::Abort;

// Changes of one bit: those that report what the bit was, those that do not, and those that are
// refused, since there is no such bit. They are in one function, since each function pays anew for
// its types.
#[derive(Clone, Copy)]
enum OneBit {
    Told,
    Untold,
    Refused,
}

impl Changing for OneBit {
    fn change<B: BitsMut>(self, rt: &impl Abort, few: &mut B, _most: &mut B, asked: &Asked) {
        match self {
            OneBit::Told => {
                change_one_bit_from_left(rt, few, asked);
                costs!(rt; asked, few.insert(451), false, 1, 1);
                costs!(rt; asked, few.insert(0), true, 1, 1);
                costs!(rt; asked, few.remove(0), true, 1, 1);
                costs!(rt; asked, few.remove(0), false, 1, 1);
                costs!(rt; asked, few.try_insert(0), Some(true), 1, 1);
                costs!(rt; asked, few.try_remove(0), Some(true), 1, 1);
                costs!(rt; asked, few.replace(451, true), true, 1, 1);
                costs!(rt; asked, few.toggle(1), (), 1, 1);
            }
            OneBit::Untold => {
                costs!(rt; asked, few.assign(5, true), (), 0, 1);
                costs!(rt; asked, few.assign(5, false), (), 0, 1);
                costs!(rt; asked, few.try_set_bit(5), true, 0, 1);
                costs!(rt; asked, few.try_clear_bit(5), true, 0, 1);
            }
            OneBit::Refused => {
                costs!(rt; asked, few.try_set_bit(768), false, 0, 0);
                costs!(rt; asked, few.try_clear_bit(768), false, 0, 0);
                costs!(rt; asked, few.try_insert(768), None, 0, 0);
                costs!(rt; asked, few.try_remove(768), None, 0, 0);
            }
        }
    }
}

// The view is in a function of its own: the other changes of one bit are then proved in less time.
fn change_one_bit_from_left<B: BitsMut>(rt: &impl Abort, few: &mut B, asked: &Asked)
    requires { IsTrue B.indexable }
{
    costs!(rt; asked, few.in_order_mut::<LittleEndian>().insert(451), false, 1, 1);
}

#[test]
fn a_change_of_one_bit_that_reports_it_reads_one_word_and_writes_it(rt: HostRuntime) {
    change_rows(&rt, OneBit::Told);
}

#[test]
fn a_change_of_one_bit_that_reports_nothing_makes_one_call(rt: HostRuntime) {
    change_rows(&rt, OneBit::Untold);
}

#[test]
fn a_change_that_is_refused_asks_nothing(rt: HostRuntime) {
    change_rows(&rt, OneBit::Refused);
}

// Other changes of the rows.
#[derive(Clone, Copy)]
enum Kind {
    Ranges,
    Taken,
    Retained,
    Cleared,
    Lists,
}

impl Changing for Kind {
    fn change<B: BitsMut>(self, rt: &impl Abort, few: &mut B, most: &mut B, asked: &Asked) {
        match self {
            Kind::Ranges => change_ranges(rt, few, asked),
            Kind::Taken => {
                take_members(rt, few, asked);
                take_others(rt, most, asked);
            }
            Kind::Retained => retain_some(rt, few, asked),
            Kind::Cleared => retain_none(rt, few, asked),
            Kind::Lists => add_lists(rt, few, asked),
        }
    }
}

// Indexes 100 to 199 lie in words 1, 2 and 3.
fn change_ranges<B: BitsMut>(rt: &impl Abort, few: &mut B, asked: &Asked)
    requires fits { ShapeFits B.Shape few.old }
    requires long { 200 ≤ (B.big few.old).capacity }
{
    costs!(rt; asked, few.set_range(100, 200), (), 0, 3);
    costs!(rt; asked, few.toggle_range(100, 200), (), 0, 3);
    costs!(rt; asked, few.clear_range(100, 200), (), 0, 3);
    costs!(rt; asked, few.assign_range(100, 200, true), (), 0, 3);
    costs!(rt; asked, few.set_range(100, 100), (), 0, 0);
    costs!(rt; asked, few.complement_assign(), (), 0, 12);
}

#[test]
fn a_change_of_a_range_asks_each_element_of_it_once(rt: HostRuntime) {
    change_rows(&rt, Kind::Ranges);
}

fn take_members<B: BitsMut>(rt: &impl Abort, few: &mut B, asked: &Asked)
    requires { ShapeFits B.Shape few.old }
{
    costs!(rt; asked, few.pop_first(), Some(451), 9, 1);
    costs!(rt; asked, few.pop_last(), Some(508), 6, 1);
    costs!(rt; asked, few.pop_first(), None, 12, 0);
    costs!(rt; asked, few.pop_last(), None, 12, 0);
}

fn take_others<B: BitsMut>(rt: &impl Abort, most: &mut B, asked: &Asked)
    requires { ShapeFits B.Shape most.old }
{
    costs!(rt; asked, most.take_first_zero_run(1), Some(451), 8, 1);
    costs!(rt; asked, most.take_first_zero(), Some(508), 9, 1);
    costs!(rt; asked, most.take_first_zero(), None, 12, 0);
    costs!(rt; asked, most.take_first_zero_run(1), None, 12, 0);
}

#[test]
fn what_is_taken_is_searched_for_once_and_changed_once(rt: HostRuntime) {
    change_rows(&rt, Kind::Taken);
}

// Each word is fetched once. Word 7 is written once if `retain` clears one or both of its bits.
fn retain_some<B: BitsMut>(rt: &impl Abort, few: &mut B, asked: &Asked)
    requires { ShapeFits B.Shape few.old }
{
    costs!(rt; asked, few.retain(|_| true), (), 12, 0);
    costs!(rt; asked, few.retain(|index| index > 500), (), 12, 1);
}

fn retain_none<B: BitsMut>(rt: &impl Abort, few: &mut B, asked: &Asked)
    requires { ShapeFits B.Shape few.old }
{
    costs!(rt; asked, few.retain(|_| false), (), 12, 1);
    costs!(rt; asked, few.retain(|_| false), (), 12, 0);
}

#[test]
fn retain_reads_each_word_once_and_writes_those_that_change(rt: HostRuntime) {
    change_rows(&rt, Kind::Retained);
    change_rows(&rt, Kind::Cleared);
}

fn add_lists<B: BitsMut>(rt: &impl Abort, few: &mut B, asked: &Asked)
    requires { ShapeFits B.Shape few.old }
{
    costs!(rt; asked, few.insert_all(&[1, 65, 1]), (), 0, 3);
    costs!(rt; asked, few.extend([2u32, 66]), (), 0, 2);
}

#[test]
fn a_list_of_indexes_makes_one_call_for_each(rt: HostRuntime) {
    change_rows(&rt, Kind::Lists);
}
