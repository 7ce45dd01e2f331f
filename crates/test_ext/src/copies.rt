//! Tests of ranges of bits that are copied. The expected values are worked out by hand, or by a
//! loop that tests and sets one bit after another, or, for random rows, by a loop over 24 flags.

ghost use Rattle.std.specs.Prelude.{IsTrue};
ghost use Rattle.bittle.specs.Values.{ShapeFits};

use crate::checks::{Compared, same};
use crate::random::{draw, draw_row, flags_of};
use bittle::prelude::*;
use bittle::{BigEndian, BitsOwned, Endian, LittleEndian, Set};
use bittle_ext::prelude::*;
use std::process::Abort;

// Returns the set after the range `from..to` of another set is copied to index `at`, or unchanged
// if `copy_range` does not allow that.
fn pasted<A: BitsMut, B: Bits>(set: A, other: &B, from: u32, to: u32, at: u32) -> A
    requires fits { ShapeFits A.Shape set }
    requires other_fits { ShapeFits B.Shape other.now }
{
    let mut now = set;
    let capacity = now.bits_capacity();
    if from <= to && at <= capacity && to - from <= capacity - at {
        now.copy_range(other, from, to, at);
    }
    now
}

// Returns the set after its range `from..to` is copied to index `at`, or unchanged if `copy_within`
// does not allow that.
fn moved<A: BitsMut>(set: A, from: u32, to: u32, at: u32) -> A
    requires { ShapeFits A.Shape set }
{
    let mut now = set;
    let capacity = now.bits_capacity();
    if from <= to && at <= capacity && to - from <= capacity - at {
        now.copy_within(from, to, at);
    }
    now
}

// Calls `pasted` on a set in the order `E`.
fn pasted_in<A: BitsOwned, E: Endian, B: Bits>(set: A, other: &B, from: u32, to: u32, at: u32) -> A
    requires indexable { IsTrue A.indexable }
    requires other_fits { ShapeFits B.Shape other.now }
{
    pasted(Set::<A, E>::new_in(set), other, from, to, at).into_bits()
}

// Calls `pasted` on a set in the order `E`, with another set in the order `F`.
fn pasted_in_both<A: BitsOwned, E: Endian, B: BitsOwned, F: Endian>(
    set: A,
    other: B,
    from: u32,
    to: u32,
    at: u32,
) -> A
    requires indexable { IsTrue A.indexable }
    requires other_indexable { IsTrue B.indexable }
{
    pasted_in::<A, E, _>(set, &Set::<B, F>::new_in(other), from, to, at)
}

// Calls `moved` on a set in the order `E`.
fn moved_in<A: BitsOwned, E: Endian>(set: A, from: u32, to: u32, at: u32) -> A
    requires { IsTrue A.indexable }
{
    moved(Set::<A, E>::new_in(set), from, to, at).into_bits()
}

// Checks the set after the range `from..to` of another set is copied to index `at`.
fn pastes<A: BitsMut + Compared, B: Bits>(
    rt: &impl Abort,
    set: A,
    other: &B,
    from: u32,
    to: u32,
    at: u32,
    expected: A,
)
    requires fits { ShapeFits A.Shape set }
    requires other_fits { ShapeFits B.Shape other.now }
{
    same!(*rt; pasted(set, other, from, to, at), expected);
}

#[test]
fn words_of_other_widths(rt: HostRuntime) {
    // Bits 4 to 11 of the word are 1010_0101.
    let word = 0x0A50u16;
    pastes(&rt, [0xFFu8; 2], &word, 4, 12, 6, [0x7F, 0xE9]);
    pastes(&rt, 0u64, &[0x12u8, 0x34, 0x56], 4, 20, 1, 0x6341 << 1);
    pastes(&rt, u128::MAX, &0u8, 0, 8, 120, u128::MAX >> 8);
    pastes(&rt, -1i8, &word, 7, 7, 3, -1);
}

#[test]
fn past_the_end_of_the_other_set(rt: HostRuntime) {
    // Bits 6 and 7 of the other set are set. Its capacity is 8, so it has no bits from 8 on.
    pastes(&rt, [0xFFu8; 2], &0xFFu8, 6, 12, 2, [0x0F, 0xFF]);
    pastes(&rt, 0xFFu8, &0xFFu8, u32::MAX - 4, u32::MAX, 1, 0b1110_0001);
}

#[test]
fn other_orders(rt: HostRuntime) {
    // In little-endian order, bits 0 and 3 are set.
    let left = 0b1001_0000u8;
    pastes(&rt, 0u8, &Set::new_le(left), 0, 8, 0, 0b0000_1001);
    let rows = pasted_in_both::<_, LittleEndian, _, LittleEndian>([0u16; 2], left, 0, 4, 14);
    same!(rt; rows, [2, 0x4000]);
    let word = pasted_in::<_, LittleEndian, _>(0u8, &0b0000_0011u8, 1, 3, 4);
    same!(rt; word, 0b0000_1000);
}

// Checks the set after its range `from..to` is copied to index `at`.
fn moves<A: BitsMut + Compared>(rt: &impl Abort, set: A, from: u32, to: u32, at: u32, expected: A)
    requires { ShapeFits A.Shape set }
{
    same!(*rt; moved(set, from, to, at), expected);
}

#[test]
fn ranges_that_overlap(rt: HostRuntime) {
    moves(&rt, [0x35u8, 0x00], 0, 8, 4, [0x55, 0x03]);
    moves(&rt, [0x53u8, 0x04], 4, 12, 0, [0x45, 0x04]);
    moves(&rt, [0x81u8, 0x7E, 0x18], 0, 16, 8, [0x81, 0x81, 0x7E]);
    moves(&rt, [0x81u8, 0x7E, 0x18], 8, 24, 0, [0x7E, 0x18, 0x18]);
    same!(rt; moved_in::<_, LittleEndian>([0x80u8, 0x01], 0, 15, 1), [0xC0, 0]);
}

// Returns the set after the range `from..to` of another set is copied to index `at`, bit by bit.
fn by_bits<A: BitsOwned, B: Bits, E: Endian, F: Endian>(
    set: &A,
    other: &B,
    from: u32,
    to: u32,
    at: u32,
) -> A
    requires indexable { IsTrue A.indexable }
    requires other_fits { ShapeFits B.Shape other.now }
{
    let mut made = *set;
    for index in from..to {
        let place = at.saturating_add(index - from);
        if index < other.bits_capacity() && other.test_bit_in::<F>(index) {
            made.set_bit_in::<E>(place);
        } else {
            made.clear_bit_in::<E>(place);
        }
    }
    made
}

// Compares `copy_range` and `copy_within` with the loop of `by_bits`, for one range.
fn agree_at<A: BitsOwned, B: BitsOwned, E: Endian, F: Endian>(
    rt: &impl Abort,
    set: A,
    other: B,
    from: u32,
    to: u32,
    at: u32,
)
    requires indexable { IsTrue A.indexable }
    requires other_indexable { IsTrue B.indexable }
{
    let all = A::bits();
    if from <= to && at <= all && to - from <= all - at {
        let made = pasted_in_both::<A, E, B, F>(set, other, from, to, at);
        let looped = by_bits::<A, B, E, F>(&set, &other, from, to, at);
        crate::checks::ask(rt, "from another set", made == looped);
        let within = moved_in::<A, E>(set, from, to, at);
        let looped = by_bits::<A, A, E, E>(&set, &set, from, to, at);
        crate::checks::ask(rt, "within the set", within == looped);
    }
}

// Does the same as `agree_at` for ranges near the ends of words and of the set, in each pair of bit
// orders.
fn agree<A: BitsOwned, B: BitsOwned>(rt: &impl Abort, width: u32, set: A, other: B)
    requires indexable { IsTrue A.indexable }
    requires other_indexable { IsTrue B.indexable }
{
    for from in [0, 1, width.wrapping_sub(1), width] {
        for to in [
            from,
            from.wrapping_add(7),
            from.wrapping_add(width),
            A::bits(),
        ] {
            for at in [0, 1, 3, width, A::bits().wrapping_sub(7)] {
                agree_at::<A, B, BigEndian, BigEndian>(rt, set, other, from, to, at);
                agree_at::<A, B, LittleEndian, LittleEndian>(rt, set, other, from, to, at);
                agree_at::<A, B, BigEndian, LittleEndian>(rt, set, other, from, to, at);
                agree_at::<A, B, LittleEndian, BigEndian>(rt, set, other, from, to, at);
            }
        }
    }
}

#[test]
fn words_agree_with_a_loop(rt: HostRuntime) {
    agree(&rt, 8, 0b1001_0110u8, -0x5A93i16);
}

#[test]
fn rows_agree_with_a_loop(rt: HostRuntime) {
    agree(&rt, 8, [0xC5u8, 0x3A, 0x91], [0x8000_0003u32, 0xF0F0_1235]);
    agree(
        &rt,
        64,
        [0x8000_0000_0000_0003u64, 0xF0F0_1234_5678_9ABD],
        [0x53u8, 0xA6, 0x19],
    );
}

#[test]
fn capacity_0(rt: HostRuntime) {
    let none: [u32; 0] = [];
    pastes(&rt, 0xFFu8, &none, 0, 3, 2, 0b1110_0011);
    pastes(&rt, none, &1u8, 4, 4, 0, none);
    moves(&rt, none, 9, 9, 0, none);
}

// Returns our flags after the range `from..to` of their flags is copied to index `at`.
fn with_flags_copied(
    ours: &[bool; 24],
    theirs: &[bool; 24],
    from: u32,
    to: u32,
    at: u32,
) -> [bool; 24] {
    let mut flags = *ours;
    for source in 0..24u32 {
        let place = at.saturating_add(source).saturating_sub(from);
        if from <= source && source < to && place < 24 {
            flags[place as usize] = theirs[source as usize];
        }
    }
    flags
}

#[test]
fn drawn_copies_agree_with_plain_loops(rt: HostRuntime) {
    let mut state = 23;
    for _ in 0..1000 {
        let (row, other) = (draw_row(&mut state), draw_row(&mut state));
        let (from, at) = (draw(&mut state) % 25, draw(&mut state) % 25);
        let count = draw(&mut state) % (25 - from.max(at));
        let (ours, theirs) = (flags_of(&row), flags_of(&other));
        let to = from.saturating_add(count);
        let copied = with_flags_copied(&ours, &theirs, from, to, at);
        same!(rt; flags_of(&pasted(row, &other, from, to, at)), copied);
        let within = with_flags_copied(&ours, &ours, from, to, at);
        same!(rt; flags_of(&moved(row, from, to, at)), within);
    }
}
