//! Tests of what it costs to set a range by a macro, and to ask a row whether no bit is set: how
//! many calls are made to the elements of the row.

ghost use Rattle.std.specs.Prelude.{IsTrue};
ghost use Rattle.bittle.specs.Values.{ShapeFits};

use crate::asked::{Asked, counts};
use crate::checks::{holds, same};
use crate::probe::{ONES, Probe};
use crate::word_probe::WordProbe;
use bittle::{BigEndian, Bits, BitsMut, BitsOwned, Shape, macros};
use std::process::Abort;

// Sets the bits at the indexes `from..to`.
fn set_until<B: BitsMut>(set: &mut B, from: u32, to: u32)
    requires { ShapeFits B.Shape set.old }
{
    macros::put_until_in::<B, BigEndian>(set, from, to);
}

// Sets the bits at the indexes `from..=to`.
fn set_through<B: BitsMut>(set: &mut B, from: u32, to: u32)
    requires { ShapeFits B.Shape set.old }
{
    macros::put_through_in::<B, BigEndian>(set, from, to);
}

// Sets all bits but the first five of a row of nine elements of 32 bits. For `[T; 9]` the call is
// proved in less time than for `[Probe; 9]`.
fn set_most_of_row<T: BitsOwned>(mut row: [T; 9])
    requires { IsTrue ⟦<[T; 9] as Shape>⟧.indexable }
{
    set_until(&mut row, 5, 288);
}

#[test]
fn a_range_in_a_row_asks_each_element_once(rt: HostRuntime) {
    let asked = Asked::new();
    set_most_of_row([Probe::of(ONES, &asked); 9]);
    counts!(rt; asked, 0, 9);
}

#[test]
fn a_range_is_one_call_or_two(rt: HostRuntime) {
    let asked = Asked::new();
    let mut probe = Probe::of([0; 4], &asked);
    set_until(&mut probe, 5, 30);
    same!(rt; probe.bytes, [0xE0, 0xFF, 0xFF, 0x3F]);
    holds!(rt; asked.fetches() == 0 && asked.other() == 1);
    set_through(&mut probe, 31, 32);
    same!(rt; probe.bytes, [0xE1, 0xFF, 0xFF, 0xBF]);
    holds!(rt; asked.fetches() == 0 && asked.other() == 3);
}

// Calls `all_zeros` on a row. Tests that the result is `wanted`, that the words receive `other`
// calls, and that no word is fetched.
fn ask_words<T: BitsOwned, const N: usize>(
    rt: &impl Abort,
    row: [T; N],
    wanted: bool,
    asked: &Asked,
    other: u32,
) {
    same!(*rt; row.all_zeros(), wanted);
    counts!(*rt; asked, 0, other);
}

fn slice_has_none<T: BitsOwned>(words: &[T]) -> bool {
    words.all_zeros()
}

#[test]
fn the_first_word_of_a_long_array_is_tested_twice(rt: HostRuntime) {
    // No bit is set. The first word is tested by itself, and then all 20 words: 21 calls.
    let asked = Asked::new();
    let row = [WordProbe::of(0, &asked); 20];
    ask_words(&rt, row, true, &asked, 21);
}

#[test]
fn a_short_array_is_tested_whole(rt: HostRuntime) {
    let asked = Asked::new();
    let row = [WordProbe::of(1, &asked); 16];
    ask_words(&rt, row, false, &asked, 16);
    same!(rt; slice_has_none(&row), false);
    counts!(rt; asked, 0, 17);
}
