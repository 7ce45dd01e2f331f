//! Calls on every value of `u8` and `i8`, compared with plain arithmetic.

ghost use Rattle.std.specs.Prelude.{◌<◌, IsTrue};
ghost use Rattle.bittle.specs.Values.{ShapeFits};

use crate::checks::same;
use bittle::number::{IterOnes, IterZeros};
use bittle::prelude::*;
use bittle::{BigEndian, Endian, LittleEndian};
use bittle_bits::extension::Word;
use std::process::Abort;

// The number of set bits in each of the numbers 0 to 15.
const ONES_OF_HALF: [u8; 16] = [0, 1, 1, 2, 1, 2, 2, 3, 1, 2, 2, 3, 2, 3, 3, 4];

#[test]
fn every_byte(rt: HostRuntime) {
    for byte in 0..=u8::MAX {
        let signed = byte.cast_signed();
        counts(&rt, byte, signed);
        walks::<u8, BigEndian>(&rt, byte, byte);
        walks::<i8, BigEndian>(&rt, signed, byte);
        walks::<u8, LittleEndian>(&rt, byte, byte.reverse_bits());
        walks::<i8, LittleEndian>(&rt, signed, byte.reverse_bits());
        for index in 0..8 {
            at_digit(&rt, byte, signed, index);
        }
    }
}

// Checks the counts of a byte, and of the `i8` with the same bits.
fn counts(rt: &impl Abort, byte: u8, signed: i8) {
    let high = ONES_OF_HALF[(byte / 16) as usize];
    let low = ONES_OF_HALF[(byte % 16) as usize];
    let ones = u32::from(high) + u32::from(low);
    let expected = (ones, 8u32.wrapping_sub(ones), byte == 0, byte == 255);
    same!(*rt; counts_of(&byte), expected);
    same!(*rt; counts_of(&signed), expected);
}

// Returns how many bits are set, how many are unset, whether all are unset, whether all are set.
fn counts_of<B: Bits>(bits: &B) -> (u32, u32, bool, bool)
    requires { ShapeFits B.Shape bits.now }
{
    (
        bits.count_ones(),
        bits.count_zeros(),
        bits.all_zeros(),
        bits.all_ones(),
    )
}

// Checks the calls on one bit of a byte, and of the `i8` with the same bits, in both orders.
fn at_digit(rt: &impl Abort, byte: u8, signed: i8, index: u32)
    requires { index < 8 }
{
    let weight = 1u8 << index;
    let digit = byte / weight % 2 == 1;
    let with = if digit {
        byte
    } else {
        byte.wrapping_add(weight)
    };
    let without = if digit {
        byte.wrapping_sub(weight)
    } else {
        byte
    };
    let signed_two = (with.cast_signed(), without.cast_signed());
    at_index::<u8, BigEndian>(rt, byte, index, digit, (with, without));
    at_index::<i8, BigEndian>(rt, signed, index, digit, signed_two);
    at_index::<u8, LittleEndian>(rt, byte, 7 - index, digit, (with, without));
    at_index::<i8, LittleEndian>(rt, signed, 7 - index, digit, signed_two);
}

// Checks the calls on one index, and on greater indexes that wrap to it.
fn at_index<T: BitsOwned, E: Endian>(
    rt: &impl Abort,
    word: T,
    index: u32,
    digit: bool,
    changed: (T, T),
)
    requires indexable { IsTrue T.indexable }
    requires within { index < 8 }
{
    same!(*rt; [word.test_bit_in::<E>(index), word.test_bit_in::<E>(index + 8)], [digit; 2]);
    let mut with = word;
    with.set_bit_in::<E>(index);
    let mut without = word;
    without.clear_bit_in::<E>(index + 16);
    same!(*rt; [with == changed.0, without == changed.1], [true; 2]);
}

// Checks the searches and the iterators of a word. In the order `E`, the word has the same indexes
// set as the byte `members` has in big-endian order.
fn walks<T: Word, E: Endian>(rt: &impl Abort, word: T, members: u8) {
    searches::<T, E>(rt, word, members);
    walks_from_the_front(rt, IterOnes::<T, E>::new(word), members);
    walks_from_the_front(rt, IterZeros::<T, E>::new(word), !members);
    walks_from_the_back(rt, IterOnes::<T, E>::new(word), members);
    walks_from_the_back(rt, IterZeros::<T, E>::new(word), !members);
}

fn searches<T: Word, E: Endian>(rt: &impl Abort, word: T, members: u8) {
    same!(*rt; searches_of_zeros::<T, E>(word), zeros_at_the_ends(members));
    same!(*rt; searches_of_ones::<T, E>(word), ones_at_the_ends(members));
}

fn searches_of_zeros<T: Word, E: Endian>(word: T) -> (u32, u32) {
    (E::zeros(word), E::zeros_rev(word))
}

fn searches_of_ones<T: Word, E: Endian>(word: T) -> (u32, u32) {
    (E::ones(word), E::ones_rev(word))
}

// Returns how many bits are below the least set bit, and how many are above the greatest set bit.
fn zeros_at_the_ends(members: u8) -> (u32, u32) {
    (members.trailing_zeros(), members.leading_zeros())
}

// Returns how many bits are below the least unset bit, and how many are above the greatest unset
// bit.
fn ones_at_the_ends(members: u8) -> (u32, u32) {
    (members.trailing_ones(), members.leading_ones())
}

// Takes the next item from the front of an iterator.
fn front<W: Iterator<Item = u32>>(walk: &mut W) -> Option<u32>
    requires { (w : W) → W.can_next w }
{
    walk.next()
}

// Takes the next item from the back of an iterator.
fn back<W: DoubleEndedIterator<Item = u32>>(walk: &mut W) -> Option<u32>
    requires { (w : W) → W.can_next_back w }
{
    walk.next_back()
}

// Checks that an iterator yields the indexes of a byte's set bits in increasing order.
fn walks_from_the_front<W: Iterator<Item = u32>>(rt: &impl Abort, mut walk: W, members: u8)
    requires { (w : W) → W.can_next w }
{
    for index in 0..8 {
        if (members >> index) % 2 == 1 {
            same!(*rt; front(&mut walk), Some(index));
        }
    }
    same!(*rt; front(&mut walk), None);
}

// Checks that the steps from the back of an iterator yield the indexes of a byte's set bits in
// decreasing order.
fn walks_from_the_back<W: DoubleEndedIterator<Item = u32>>(
    rt: &impl Abort,
    mut walk: W,
    members: u8,
)
    requires { (w : W) → W.can_next_back w }
{
    for index in (0..8).rev() {
        if (members >> index) % 2 == 1 {
            same!(*rt; back(&mut walk), Some(index));
        }
    }
    same!(*rt; back(&mut walk), None);
}
