//! Tests of ranges of bits that are read and written as numbers. The expected values are worked out
//! by hand, by a loop that tests or sets one bit after another, or, for random rows, by a loop over
//! 24 flags.

ghost use Rattle.std.specs.Prelude.{IsTrue};
ghost use Rattle.bittle.specs.Values.{ShapeFits};

use crate::calls::{Change, change_in};
use crate::checks::{Compared, holds, same};
use crate::random::{draw, draw_row, flags_of};
use bittle::prelude::*;
use bittle::{BigEndian, BitsOwned, Endian, LittleEndian, Set};
use bittle_ext::prelude::*;
use std::process::Abort;

// Reads `count` bits of a set, from index `first` on, as a number. If `count` is greater than 64,
// reads only the first 64 of these bits.
fn loaded<B: Bits>(set: &B, first: u32, count: u32) -> u64
    requires { ShapeFits B.Shape set.now }
{
    set.load(first, count.min(64))
}

// Returns the set with a number stored in a range, or unchanged if `store` does not allow the
// range.
fn stored<B: BitsMut>(set: B, first: u32, count: u32, value: u64) -> B
    requires { ShapeFits B.Shape set }
{
    let mut now = set;
    let capacity = now.bits_capacity();
    if count <= 64 && first <= capacity && count <= capacity - first {
        now.store(first, count, value);
    }
    now
}

// Reads a range of a set as a number, in the order `E`.
fn loaded_in<B: BitsOwned, E: Endian>(bits: B, first: u32, count: u32) -> u64
    requires { IsTrue B.indexable }
{
    loaded(&Set::<B, E>::new_in(bits), first, count)
}

// Returns the set with a number stored in a range, in the order `E`.
fn stored_in<B: BitsOwned, E: Endian>(bits: B, first: u32, count: u32, value: u64) -> B
    requires { IsTrue B.indexable }
{
    stored(Set::<B, E>::new_in(bits), first, count, value).into_bits()
}

// Checks the numbers that are read from some ranges. Each case is the first index of a range, how
// many bits it has, and the number.
fn loads<B: Bits, const N: usize>(rt: &impl Abort, set: &B, cases: [(u32, u32, u64); N])
    requires { ShapeFits B.Shape set.now }
{
    for k in 0..N {
        let (first, count, number) = cases[k];
        same!(*rt; (first, count, loaded(set, first, count)), (first, count, number));
    }
}

#[test]
fn a_row(rt: HostRuntime) {
    // The row has the bits of 0x1234, the lowest byte first.
    let cases = [
        (0, 16, 0x1234),
        (0, 8, 0x34),
        (4, 8, 0x23),
        (2, 3, 0b101),
        (5, 0, 0),
        (12, 64, 1),
        (16, 8, 0),
        (u32::MAX, 64, 0),
    ];
    loads(&rt, &[0x34u8, 0x12], cases);
}

// Checks the set after a number is stored in a range.
fn stores<B: BitsMut + Compared>(
    rt: &impl Abort,
    set: B,
    first: u32,
    count: u32,
    value: u64,
    expected: B,
)
    requires { ShapeFits B.Shape set }
{
    same!(*rt; stored(set, first, count, value), expected);
}

#[test]
fn a_row_that_is_written(rt: HostRuntime) {
    stores(&rt, [0u8, 0], 4, 8, 0x123, [0x30, 0x02]);
    stores(&rt, [0xFFu8, 0xFF], 6, 4, 0b0110, [0xBF, 0xFD]);
    stores(&rt, [0xFFu8, 0xFF], 3, 0, 9, [0xFF, 0xFF]);
    stores(&rt, [0u8; 2], 0, 16, u64::MAX, [0xFF, 0xFF]);
}

#[test]
fn a_row_from_the_left(rt: HostRuntime) {
    // In little-endian order, bits 1, 2 and 11 are set.
    let row = [0b0110_0000u8, 0b0001_0000];
    same!(rt; loaded_in::<_, LittleEndian>(row, 0, 4), 0b0110);
    same!(rt; loaded_in::<_, LittleEndian>(row, 1, 16), 0b100_0000_0011);
    let stored = stored_in::<_, LittleEndian>(row, 6, 4, 0b1101);
    same!(rt; stored, [0b0110_0010, 0b1101_0000]);
}

#[test]
fn words(rt: HostRuntime) {
    loads(&rt, &i8::MIN, [(6, 2, 0b10)]);
    loads(&rt, &-1i64, [(1, 64, u64::MAX / 2)]);
    loads(
        &rt,
        &0x1_2345_6789_ABCD_EF01u128,
        [(4, 64, 0x1234_5678_9ABC_DEF0)],
    );
    stores(&rt, 0u128, 60, 8, 0xA5, 0xA5 << 60);
    stores(&rt, -1i32, 28, 4, 0, 0x0FFF_FFFF);
}

// Reads a range as a number, bit by bit.
fn by_bits<B: Bits, E: Endian>(set: &B, first: u32, count: u32) -> u64
    requires { ShapeFits B.Shape set.now }
{
    let capacity = set.bits_capacity();
    let mut number = 0u64;
    for i in 0..count.min(64) {
        let index = first.saturating_add(i);
        if index < capacity && set.test_bit_in::<E>(index) {
            number |= 1 << i;
        }
    }
    number
}

// Returns the set with a number stored in a range, bit by bit.
fn put_by_bits<B: BitsOwned, E: Endian>(set: &B, first: u32, count: u32, value: u64) -> B
    requires { IsTrue B.indexable }
{
    let mut made = *set;
    for i in 0..count.min(64) {
        let index = first.saturating_add(i);
        if value >> i & 1 == 1 {
            made.set_bit_in::<E>(index);
        } else {
            made.clear_bit_in::<E>(index);
        }
    }
    made
}

// Compares `load` with `by_bits`, and `store` with `put_by_bits`, for one range and one order.
fn agree_at<B: BitsOwned, E: Endian>(rt: &impl Abort, set: B, first: u32, count: u32)
    requires { IsTrue B.indexable }
{
    let number = loaded_in::<B, E>(set, first, count);
    crate::checks::end_unless_equal(rt, "load", number, by_bits::<B, E>(&set, first, count));
    if first <= B::bits() && count <= B::bits() - first {
        let value = 0xC5A3_9F71_0E68_D24B;
        let made = stored_in::<B, E>(set, first, count, value);
        crate::checks::ask(
            rt,
            "store",
            made == put_by_bits::<B, E>(&set, first, count, value),
        );
        let back = loaded_in::<B, E>(made, first, count);
        let low = if count < 64 {
            value & !(u64::MAX << count)
        } else {
            value
        };
        crate::checks::end_unless_equal(rt, "what is stored", back, low);
    }
}

// Does the same as `agree_at` for ranges near the ends of words and of the set, in both orders.
fn agree<B: BitsOwned>(rt: &impl Abort, width: u32, set: B)
    requires { IsTrue B.indexable }
{
    let all = B::bits();
    for first in [
        0,
        1,
        width.wrapping_sub(1),
        width,
        all.wrapping_sub(9),
        all,
        u32::MAX,
    ] {
        for count in [0, 1, 8, 9, 33, 64] {
            agree_at::<B, BigEndian>(rt, set, first, count);
            agree_at::<B, LittleEndian>(rt, set, first, count);
        }
    }
}

#[test]
fn words_agree_with_a_loop(rt: HostRuntime) {
    agree(&rt, 8, 0b1001_0110u8);
    agree(&rt, 128, 0x8001_0203_0405_0607_F8F9_FAFB_FCFD_FE01u128);
}

#[test]
fn rows_agree_with_a_loop(rt: HostRuntime) {
    agree(
        &rt,
        8,
        [0xC5u8, 0x3A, 0x91, 0x07, 0xE8, 0x55, 0x0F, 0xA1, 0x77],
    );
    agree(&rt, 64, [0x8000_0000_0000_0003u64, 0xF0F0_1234_5678_9ABD]);
}

// Writes a number to bits 4 to 11 of a set, if it has them. The answer is the number that is then
// read from the first 64 bits.
#[derive(Drop)]
struct StoreEight(u64);

impl Change for StoreEight {
    type Answer = u64;

    fn change<B: BitsMut>(&self, set: &mut B) -> u64 {
        if 12 <= set.bits_capacity() {
            set.store(4, 8, self.0);
        }
        set.load(0, 64)
    }
}

#[test]
fn slices_and_views(rt: HostRuntime) {
    let mut words = [0u8; 4];
    let mut lent = Set::from_mut(words.as_mut_slice());
    let read = change_in::<_, LittleEndian, _>(&StoreEight(0b1000_0011), &mut lent);
    same!(rt; read, 0b1000_0011_0000);
    same!(rt; words, [0b0000_1100, 0b0001_0000, 0, 0]);
    loads(
        &rt,
        &words.in_order::<LittleEndian>(),
        [(0, 64, 0b1000_0011_0000)],
    );
    let part = Set::from_ref(&words[..2]);
    loads(&rt, &part, [(2, 2, 0b11), (10, 64, 0b100)]);
}

#[test]
fn capacity_0(rt: HostRuntime) {
    let none: [u32; 0] = [];
    agree(&rt, 32, none);
    loads(&rt, &none, [(0, 64, 0), (u32::MAX, 1, 0)]);
    holds!(rt; stored(none, 0, 0, u64::MAX).all_zeros());
}

#[test]
fn drawn_numbers_agree_with_plain_loops(rt: HostRuntime) {
    let mut state = 19;
    for _ in 0..1000 {
        let (row, value) = (draw_row(&mut state), draw(&mut state) as u64);
        let first = draw(&mut state) % 25;
        let count = draw(&mut state) % (25 - first);
        let mut flags = flags_of(&row);
        let mut number = 0u64;
        for i in 0..count.min(24) {
            if first + i < 24 {
                let at = (first + i) as usize;
                number |= (flags[at] as u64) << i;
                flags[at] = value >> i & 1 == 1;
            }
        }
        same!(rt; loaded(&row, first, count), number);
        same!(rt; flags_of(&stored(row, first, count, value)), flags);
    }
}
