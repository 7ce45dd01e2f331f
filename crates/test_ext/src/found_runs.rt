//! Tests of searches for runs of a given length. The expected values are worked out by hand, or by
//! a plain loop.

ghost use Rattle.std.specs.Prelude.{IsTrue};
ghost use Rattle.bittle.specs.Values.{ShapeFits};

use crate::checks::same;
use crate::random::draw;
use bittle::prelude::*;
use bittle::{BitsOwned, LittleEndian};
use bittle_ext::prelude::*;
use std::process::Abort;

/// Searches from index `from` on. For each length, returns the index at which the first run of that
/// many unset bits begins, or `None` if there is no such run.
fn zero_runs<B: Bits, const N: usize>(set: &B, from: u32, lengths: [u32; N]) -> [Option<u32>; N]
    requires { ShapeFits B.Shape set.now }
{
    let mut found = [None; N];
    for k in 0..N {
        found[k] = set.next_zero_run(from, lengths[k]);
    }
    found
}

/// Searches from index `from` on. For each length, returns the index at which the first run of that
/// many set bits begins, or `None` if there is no such run.
fn one_runs<B: Bits, const N: usize>(set: &B, from: u32, lengths: [u32; N]) -> [Option<u32>; N]
    requires { ShapeFits B.Shape set.now }
{
    let mut found = [None; N];
    for k in 0..N {
        found[k] = set.next_one_run(from, lengths[k]);
    }
    found
}

#[test]
fn runs_about_as_long_as_a_word(rt: HostRuntime) {
    // Bits 7 to 16 are unset. In little-endian order, these are bits 0, 8 to 15, and 23.
    let row: [u8; 3] = [0b0111_1111, 0, 0b1111_1110];
    let lengths = [0, 1, 7, 8, 9, 10, 11];
    let seven = Some(7);
    let all = [Some(0), seven, seven, seven, seven, seven, None];
    same!(rt; zero_runs(&row, 0, lengths), all);
    let left = row.in_order::<LittleEndian>();
    let all = [Some(0), Some(0), Some(8), Some(8), None, None, None];
    same!(rt; zero_runs(&left, 0, lengths), all);
    let slice: &[u8] = &row;
    same!(rt; zero_runs(&slice, 9, [7, 8, 9]), [Some(9), Some(9), None]);
    same!(rt; zero_runs(&slice, 10, [7, 8]), [Some(10), None]);
    same!(rt; one_runs(&slice, 3, [4, 5, 7, 8]), [Some(3), Some(17), Some(17), None]);
}

#[test]
fn runs_from_the_middle_of_a_word(rt: HostRuntime) {
    let word = 0b0011_1100u8;
    same!(rt; one_runs(&word, 3, [1, 3, 4]), [Some(3), Some(3), None]);
    same!(rt; zero_runs(&word, 1, [1, 2, 3]), [Some(1), Some(6), None]);
    same!(rt; zero_runs(&word, 8, [0, 1]), [Some(8), None]);
    same!(rt; one_runs(&word, 9, [0, 1]), [None, None]);
    same!(rt; zero_runs(&(1u128 << 100 | 1), 60, [27, 40, 41]), [Some(60), Some(60), None]);
    same!(rt; one_runs(&-4i8, 0, [6, 7]), [Some(2), None]);
    let none: [u16; 0] = [];
    same!(rt; zero_runs(&none, 0, [0, 1]), [Some(0), None]);
    same!(rt; one_runs(&none, 1, [0, 1]), [None, None]);
}

#[test]
fn runs_of_four_words_and_of_more(rt: HostRuntime) {
    // Bits 8 to 14, and 16 to 48, are unset.
    let row: [u8; 8] = [255, 128, 0, 0, 0, 0, 254, 255];
    let sixteen = Some(16);
    let lengths = [7, 8, 32, 33, 34];
    same!(rt; zero_runs(&row, 0, lengths), [Some(8), sixteen, sixteen, sixteen, None]);
    same!(rt; zero_runs(&row, 17, lengths), [Some(17), Some(17), Some(17), None, None]);
    same!(rt; one_runs(&row, 0, [8, 9, 15, 16]), [Some(0), Some(49), Some(49), None]);
}

/// Searches in the range `from..to`. Returns where the first run of `length` set bits begins, and
/// where the first run of `length` unset bits begins.
fn runs_within<B: Bits>(set: &B, from: u32, to: u32, length: u32) -> [Option<u32>; 2]
    requires { ShapeFits B.Shape set.now }
{
    [
        set.first_one_run_in_range(from, to, length),
        set.first_zero_run_in_range(from, to, length),
    ]
}

/// Checks what `runs_within` returns. Each case is a range, from the first number on and below the
/// second, then a length, and what is expected.
fn runs_within_are<B: Bits, const N: usize>(
    rt: &impl Abort,
    set: &B,
    cases: [(u32, u32, u32, [Option<u32>; 2]); N],
)
    requires { ShapeFits B.Shape set.now }
{
    for k in 0..N {
        let (from, to, length, expected) = cases[k];
        let found = runs_within(set, from, to, length);
        same!(*rt; (from, to, length, found), (from, to, length, expected));
    }
}

#[test]
fn runs_within_a_range(rt: HostRuntime) {
    // Bits 7 to 16 are unset. In little-endian order, these are bits 0, 8 to 15, and 23.
    let row: [u8; 3] = [0b0111_1111, 0, 0b1111_1110];
    let cases = [
        (3, 12, 4, [Some(3), Some(7)]),
        (3, 10, 4, [Some(3), None]),
        (5, 6, 2, [None, None]),
    ];
    runs_within_are(&rt, &row, cases);
    let from_left = [(1, 12, 3, [Some(1), Some(8)]), (1, 10, 3, [Some(1), None])];
    runs_within_are(&rt, &row.in_order::<LittleEndian>(), from_left);
}

#[test]
fn runs_that_end_with_a_range_or_go_past_its_end(rt: HostRuntime) {
    // Bits 7 to 16 are unset.
    let row: [u8; 3] = [0b0111_1111, 0, 0b1111_1110];
    let cases = [
        (3, 11, 4, [Some(3), Some(7)]),
        (3, 7, 4, [Some(3), None]),
        (3, 6, 4, [None, None]),
        (0, 16, 9, [None, Some(7)]),
        (0, 15, 9, [None, None]),
    ];
    runs_within_are(&rt, &row, cases);
    // Bits 8 to 14, and 16 to 48, are unset.
    let row: [u8; 8] = [255, 128, 0, 0, 0, 0, 254, 255];
    let cases = [
        (0, 49, 33, [None, Some(16)]),
        (0, 48, 33, [None, None]),
        (40, 49, 9, [None, Some(40)]),
        (41, 64, 15, [Some(49), None]),
        (41, 63, 15, [None, None]),
    ];
    runs_within_are(&rt, &row, cases);
}

#[test]
fn runs_within_a_range_past_the_capacity_or_backwards(rt: HostRuntime) {
    let row: [u8; 3] = [0b0111_1111, 0, 0b1111_1110];
    let cases = [
        (20, 40, 4, [Some(20), None]),
        (20, 40, 5, [None, None]),
        (9, 3, 1, [None, None]),
        (9, 3, 0, [Some(9), Some(9)]),
        (24, 30, 0, [Some(24), Some(24)]),
        (25, 30, 0, [None, None]),
    ];
    runs_within_are(&rt, &row, cases);
    let none: [u16; 0] = [];
    runs_within_are(
        &rt,
        &none,
        [(0, 9, 0, [Some(0), Some(0)]), (0, 9, 1, [None, None])],
    );
}

/// Sets the first run of `length` unset bits. Returns where the run begins, and the changed set.
fn taken<B: BitsOwned>(mut set: B, length: u32) -> (Option<u32>, B)
    requires { IsTrue B.indexable }
{
    (set.take_first_zero_run(length), set)
}

#[test]
fn a_run_across_words_is_taken(rt: HostRuntime) {
    let row: [u8; 3] = [0b0111_1111, 0, 0b1111_1110];
    same!(rt; taken(row, 9), (Some(7), [255, 255, 0b1111_1110]));
    same!(rt; taken(row, 0), (Some(0), row));
    same!(rt; taken(row, 11), (None, row));
}

/// Returns the bits of eight bytes as flags, by a loop over the bits. The order is little-endian if
/// `from_left` is `true`, else big-endian.
fn flags(row: &[u8; 8], from_left: bool) -> [bool; 64] {
    let mut flags = [false; 64];
    for k in 0..64usize {
        let place = if from_left { 7 - k % 8 } else { k % 8 };
        flags[k] = row[k / 8] >> place & 1 == 1;
    }
    flags
}

/// Searches from index `from` on, by a loop over the flags. Returns where the first run of `length`
/// flags that equal `value` begins.
fn plain_run(flags: &[bool; 64], value: bool, from: u32, length: u32) -> Option<u32> {
    if length == 0 {
        return if from <= 64 { Some(from) } else { None };
    }
    let mut run = 0u32;
    for k in 0..64usize {
        if from <= k as u32 {
            run = if flags[k] == value {
                run.saturating_add(1)
            } else {
                0
            };
            if run == length {
                return Some((k as u32).saturating_add(1).saturating_sub(length));
            }
        }
    }
    None
}

/// The lengths of the runs that the tests of random rows search for.
const LENGTHS: [u32; 11] = [0, 1, 2, 3, 5, 7, 8, 9, 16, 32, 33];

/// Returns the flags, with every flag outside the range `from..to` replaced by the opposite of
/// `value`, so that no run of `value` is found there.
fn part_of(flags: &[bool; 64], value: bool, from: u32, to: u32) -> [bool; 64] {
    let mut part = *flags;
    for k in 0..64usize {
        if (k as u32) < from || to <= k as u32 {
            part[k] = !value;
        }
    }
    part
}

/// Compares the runs in a range of a set of 64 bits with those that `plain_run` finds.
fn runs_within_as_plain<B: Bits>(rt: &impl Abort, set: &B, flags: &[bool; 64], from: u32, to: u32)
    requires { ShapeFits B.Shape set.now }
{
    let ones = part_of(flags, true, from, to);
    let zeros = part_of(flags, false, from, to);
    for k in 0..11usize {
        let length = LENGTHS[k];
        let plain = [
            plain_run(&ones, true, from, length),
            plain_run(&zeros, false, from, length),
        ];
        same!(*rt; runs_within(set, from, to, length), plain);
    }
}

/// Compares the runs in a set of 64 bits, at or after index `from`, with those that `plain_run`
/// finds.
fn runs_as_plain<B: Bits>(rt: &impl Abort, set: &B, flags: &[bool; 64], from: u32)
    requires { ShapeFits B.Shape set.now }
{
    let ones = one_runs(set, from, LENGTHS);
    let zeros = zero_runs(set, from, LENGTHS);
    for k in 0..11usize {
        same!(*rt; ones[k], plain_run(flags, true, from, LENGTHS[k]));
        same!(*rt; zeros[k], plain_run(flags, false, from, LENGTHS[k]));
    }
}

/// Makes the comparisons of `runs_as_plain` and of `runs_within_as_plain`.
fn all_runs_as_plain<B: Bits>(rt: &impl Abort, set: &B, flags: &[bool; 64], from: u32, to: u32)
    requires { ShapeFits B.Shape set.now }
{
    runs_as_plain(rt, set, flags, from);
    runs_within_as_plain(rt, set, flags, from, to);
}

/// Calls `all_runs_as_plain` on a set in little-endian order.
fn left_runs_as_plain<B: Bits>(rt: &impl Abort, set: &B, flags: &[bool; 64], from: u32, to: u32)
    requires { ShapeFits B.Shape set.now }
{
    all_runs_as_plain(rt, &set.in_order::<LittleEndian>(), flags, from, to);
}

#[test]
fn drawn_rows_have_the_runs_of_plain_arrays(rt: HostRuntime) {
    let mut state = 1u32;
    for round in 0..300u32 {
        // From index 0 on, the value of the bits changes at up to three random indexes. In every
        // second round, two single bits are flipped too.
        let mut word = 0u64;
        for _ in 0..3u32 {
            word ^= u64::MAX << (draw(&mut state) % 64);
        }
        if round % 2 == 0 {
            word ^= 1 << (draw(&mut state) % 64);
            word ^= 1 << (draw(&mut state) % 64);
        }
        let from = draw(&mut state) % 66;
        let row = word.to_le_bytes();
        let to = draw(&mut state) % 80;
        all_runs_as_plain(&rt, &row, &flags(&row, false), from, to);
        left_runs_as_plain(&rt, &row, &flags(&row, true), from, to);
        runs_as_plain(&rt, &word, &flags(&row, false), from);
    }
}
