//! Tests that make thousands of random calls on a row of three bytes, and compare them with plain
//! loops over 24 flags.

ghost use Rattle.std.specs.Prelude.{◌<◌, ◌≤◌, max, IsTrue};
ghost use Rattle.bittle_ext.specs.Views.{rounded_up};
ghost use Rattle.bittle.specs.Values.{ShapeFits};

use crate::calls::{
    BACK, FRONT, INSERT, REMOVE, TOGGLE, bit_changed, bit_taken, combination, extend_by_set,
    one_runs, ones_in_range, set_of, zero_runs, zeros_in_range,
};
use crate::checked_indexes::tried;
use crate::checks::same;
use crate::rotations::moved;
use bittle::{Bits, BitsMut, BitsOwned};
use bittle_ext::prelude::*;
use std::process::Abort;

// Draws a pseudo-random number of 24 bits.
pub(crate) fn draw(state: &mut u32) -> u32 {
    *state = state.wrapping_mul(1_664_525).wrapping_add(1_013_904_223);
    *state >> 8
}

// Draws a random row.
pub(crate) fn draw_row(state: &mut u32) -> [u8; 3] {
    let one = (draw(state) % 256) as u8;
    let two = (draw(state) % 256) as u8;
    [one, two, (draw(state) % 256) as u8]
}

// Returns a flag for each bit of a row.
pub(crate) fn flags_of(row: &[u8; 3]) -> [bool; 24] {
    let mut flags = [false; 24];
    for i in 0..24usize {
        flags[i] = row[i / 8] >> (i % 8) & 1 == 1;
    }
    flags
}

// Changes one bit of the row and its flag, by the call that `kind` picks. Checks what the call
// returns.
fn change_one<B: BitsMut>(
    rt: &impl Abort,
    kind: u32,
    index: u32,
    row: &mut B,
    flags: &mut [bool; 24],
)
    requires { IsTrue B.indexable }
{
    let at = (index % 24) as usize;
    let before = flags[at];
    let told = bit_changed(kind, row, index, !before);
    // `insert` returns whether the bit was unset, and `toggle` returns nothing.
    let expected = match kind {
        INSERT => !before,
        TOGGLE => false,
        _ => before,
    };
    crate::checks::end_unless_equal(rt, "a changed bit", (kind, told), (kind, expected));
    flags[at] = match kind {
        INSERT => true,
        REMOVE => false,
        _ => !before,
    };
}

// Changes one bit of the row and its flag, by the call that `kind` picks. An index past the row
// changes nothing. Checks what the call returns, and first what the row says of the index.
fn change_checked<B: BitsMut>(
    rt: &impl Abort,
    kind: u32,
    index: u32,
    row: &mut B,
    flags: &mut [bool; 24],
)
    requires { IsTrue B.indexable }
{
    let before = flags.get(index as usize).copied();
    same!(*rt; (row.contains_index(index), row.get_bit(index)), (before == Some(true), before));
    let expected = match (kind, before) {
        (INSERT, Some(flag)) => Some(!flag),
        (INSERT, None) => None,
        (REMOVE, _) => before,
        _ => Some(before.is_some()),
    };
    same!(*rt; tried(kind, row, index), expected);
    if let Some(flag) = flags.get_mut(index as usize) {
        *flag = kind % 2 == 0;
    }
}

// Changes a range of the row and of the flags, by the call that `kind` picks.
fn change_range<B: BitsMut>(kind: u32, from: u32, to: u32, row: &mut B, flags: &mut [bool; 24])
    requires fits { ShapeFits B.Shape row.old }
    requires ordered { from ≤ to }
    requires within { to ≤ (B.big row.old).capacity }
    requires below { to ≤ 24 }
{
    match kind {
        0 => row.set_range(from, to),
        1 => row.clear_range(from, to),
        _ => row.toggle_range(from, to),
    }
    for i in from as usize..to as usize {
        flags[i] = match kind {
            0 => true,
            1 => false,
            _ => !flags[i],
        };
    }
}

// Clears the first set flag if `kind` is 0, and the last set flag if it is 1. Sets the first unset
// flag if `kind` is 2. Returns the index of the changed flag, or `None` if no flag is changed.
fn take_flag(kind: u32, flags: &mut [bool; 24]) -> Option<u32> {
    let mut found = None;
    for i in 0..24usize {
        let at = if kind == 1 { 23 - i } else { i };
        if found.is_none() && flags[at] == (kind != 2) {
            flags[at] = kind == 2;
            found = Some(at as u32);
        }
    }
    found
}

// Calls `take_flag` on the flags, makes the same change of the row, and checks that both changes
// return the same index.
fn take_one<B: BitsMut>(rt: &impl Abort, kind: u32, row: &mut B, flags: &mut [bool; 24])
    requires { ShapeFits B.Shape row.old }
{
    let found = take_flag(kind, flags);
    crate::checks::end_unless_equal(rt, "an end is taken", bit_taken(kind, row), found);
}

#[test]
fn drawn_changes_agree_with_plain_loops(rt: HostRuntime) {
    let mut state = 1;
    let mut row = [0u8; 3];
    let mut flags = [false; 24];
    for _ in 0..3000 {
        let (kind, index) = (draw(&mut state) % 4, draw(&mut state) % 50);
        change_one(&rt, kind, index, &mut row, &mut flags);
        let (kind, index) = (draw(&mut state) % 4, draw(&mut state) % 30);
        change_checked(&rt, kind, index, &mut row, &mut flags);
        let (one, other) = (draw(&mut state) % 25, draw(&mut state) % 25);
        change_range(kind, one.min(other), one.max(other), &mut row, &mut flags);
        take_one(&rt, kind % 3, &mut row, &mut flags);
        same!(rt; flags_of(&row), flags);
    }
}

// Combines two flags by the operation that `kind` picks: union, intersection, difference or
// symmetric difference.
pub(crate) fn combined(kind: u32, one: bool, other: bool) -> bool {
    match kind {
        0 => one || other,
        1 => one && other,
        2 => one && !other,
        _ => one != other,
    }
}

// Makes the set of the indexes that an iterator over a combination of `row` and `word` yields. The
// indexes are below the capacity of `A`.
fn walked<A: BitsOwned, B: Bits>(kind: u32, row: &A, word: &B) -> A
    requires indexable { IsTrue A.indexable }
    requires fits { ShapeFits B.Shape word.now }
    requires rounded { rounded_up (max (A.big row.now).capacity (B.big word.now).capacity) A.width
        < 4294967295 }
{
    if kind == 0 {
        let mut made = A::zeros();
        extend_by_set(&mut made, &row.or_unlike(word));
        made
    } else {
        set_of(combination(kind, row, word, [FRONT; 25]))
    }
}

#[test]
fn drawn_combinations_agree_with_plain_loops(rt: HostRuntime) {
    let mut state = 7;
    for _ in 0..2000 {
        let kind = draw(&mut state) % 4;
        let row = draw_row(&mut state);
        let word = (draw(&mut state) % 256) as u8;
        let (ours, theirs) = (flags_of(&row), flags_of(&[word, 0, 0]));
        let mut expected = [false; 24];
        for i in 0..24usize {
            expected[i] = combined(kind, ours[i], theirs[i]);
        }
        same!(rt; flags_of(&walked(kind, &row, &word)), expected);
    }
}

// Makes the set of the unset bits of a range, taken from both ends of an iterator in turn, or else
// of the set bits, taken from the back.
fn walked_range<B: BitsOwned>(zeros: bool, row: &B, from: u32, to: u32) -> B
    requires { IsTrue B.indexable }
{
    let mut turns = [BACK; 25];
    if zeros {
        for k in 0..13usize {
            turns[2 * k] = FRONT;
        }
        set_of(zeros_in_range(row, from, to, turns))
    } else {
        set_of(ones_in_range(row, from, to, turns))
    }
}

#[test]
fn drawn_ranges_agree_with_plain_loops(rt: HostRuntime) {
    let mut state = 11;
    for turn in 0..1000u32 {
        let row = draw_row(&mut state);
        let (one, other) = (draw(&mut state) % 25, draw(&mut state) % 25);
        let (from, to, zeros) = (one.min(other), one.max(other), turn % 2 == 0);
        let flags = flags_of(&row);
        let mut expected = [false; 24];
        for i in from as usize..to as usize {
            expected[i] = flags[i] != zeros;
        }
        same!(rt; flags_of(&walked_range(zeros, &row, from, to)), expected);
    }
}

// Sets the flag of an index. Ends the test if the index is not below 24.
fn mark(rt: &impl Abort, flags: &mut [bool; 24], index: u32) {
    if index < 24 {
        flags[index as usize] = true;
    } else {
        rt.panic("an index past the capacity")
    }
}

// Returns which bits are the first of a run, and which are the last. The runs are of unset bits if
// `zeros` is `true`, else of set bits.
fn walked_runs<B: Bits>(rt: &impl Abort, zeros: bool, row: &B) -> ([bool; 24], [bool; 24])
    requires { ShapeFits B.Shape row.now }
{
    let (mut firsts, mut lasts) = ([false; 24], [false; 24]);
    let runs = if zeros {
        zero_runs(row, [FRONT; 13])
    } else {
        one_runs(row, [BACK; 13])
    };
    for k in 0..13usize {
        if let Some((start, end)) = runs[k] {
            mark(rt, &mut firsts, start);
            mark(rt, &mut lasts, end.wrapping_sub(1));
        }
    }
    (firsts, lasts)
}

#[test]
fn drawn_runs_agree_with_plain_loops(rt: HostRuntime) {
    let mut state = 13;
    for turn in 0..1000u32 {
        let row = draw_row(&mut state);
        let (flags, zeros) = (flags_of(&row), turn % 2 == 0);
        let (mut firsts, mut lasts) = ([false; 24], [false; 24]);
        for i in 0..24usize {
            firsts[i] = flags[i] != zeros && (i == 0 || flags[i - 1] == zeros);
            lasts[i] = flags[i] != zeros && (i == 23 || flags[i + 1] == zeros);
        }
        let walked = walked_runs(&rt, zeros, &row);
        same!(rt; walked, (firsts, lasts));
    }
}

// Returns the flag that is at index `at` after all flags are moved by `by`. `kind` picks the way:
// rotated down, rotated up, shifted down or shifted up.
fn flag_after(kind: u32, flags: &[bool; 24], at: usize, by: usize) -> bool
    requires index { at < 24 }
    requires distance { by < 50 }
{
    match kind {
        0 => flags[(at + by) % 24],
        1 => flags[(at + 72 - by) % 24],
        2 => at + by < 24 && flags[at + by],
        _ => by <= at && flags[at - by],
    }
}

#[test]
fn drawn_rotations_agree_with_plain_loops(rt: HostRuntime) {
    let mut state = 17;
    for _ in 0..2000 {
        let row = draw_row(&mut state);
        let (kind, by) = (draw(&mut state) % 4, draw(&mut state) % 50);
        let flags = flags_of(&row);
        let mut expected = [false; 24];
        for i in 0..24usize {
            expected[i] = flag_after(kind, &flags, i, by as usize);
        }
        same!(rt; flags_of(&moved(kind, row, by)), expected);
    }
}
