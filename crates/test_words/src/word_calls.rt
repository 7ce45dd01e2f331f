//! Calls on words: searches, iterators, and words of every width with extreme values.

ghost use Rattle.std.specs.Prelude.{◌<◌};
ghost use Rattle.bittle.specs.Values.{ShapeFits};

use crate::checks::{holds, same};
use bittle::number::{IterOnes, IterZeros};
use bittle::{BigEndian, Bits, Endian, LittleEndian};
use bittle_bits::extension::Word;
use std::process::Abort;

#[test]
fn searches_of_one_word(rt: HostRuntime) {
    same!(rt; LittleEndian::mask::<u8>(9), 0x40);
    same!(rt; LittleEndian::place::<u8>(9), 6);
    same!(rt; BigEndian::place::<i16>(17), 1);
    same!(rt; LittleEndian::mask::<i16>(0), -32768);
    same!(rt; BigEndian::zeros_rev(0x10u8), 3);
    same!(rt; LittleEndian::zeros_rev(0x10u8), 4);
    same!(rt; BigEndian::zeros(0u8), 8);
}

#[test]
fn steps_of_walks(rt: HostRuntime) {
    let mut members = IterOnes::<i8, LittleEndian>::new(-2);
    same!(rt; members.len(), 7);
    same!(rt; members.next_back(), Some(6));
    same!(rt; members.next(), Some(0));
    same!(rt; members.len(), 5);

    let mut none = IterZeros::<i16, BigEndian>::new(-1);
    same!(rt; none.next(), None);
    same!(rt; none.next_back(), None);
    same!(rt; none.size_hint(), (0, Some(0)));

    let mut members = IterOnes::<u8, LittleEndian>::new(0xD0);
    same!(rt; members.len(), 3);
    same!(rt; members.next_back(), Some(3));
    same!(rt; members.size_hint(), (2, Some(2)));

    same!(rt; IterZeros::<u8, BigEndian>::new(17).len(), 6);
}

#[test]
fn clones_go_on_from_their_source(rt: HostRuntime) {
    let mut source = IterOnes::<u16, BigEndian>::new(0x8421);
    source.next();
    let mut clone = source.clone().unwrap();
    same!(rt; source.next_back(), Some(15));
    same!(rt; source.len(), 2);
    same!(rt; clone.next(), Some(5));
    same!(rt; clone.next_back(), Some(15));

    let mut source = IterZeros::<u16, LittleEndian>::new(0xFFF0);
    source.next();
    holds!(rt; source.clone().unwrap().eq([13, 14, 15]));
}

#[test]
fn every_type_at_its_borders(rt: HostRuntime) {
    at_borders(&rt, 8, 0u8, u8::MAX, 0x80, 1);
    at_borders(&rt, 8, 0i8, -1, i8::MIN, 1);
    at_borders(&rt, 16, 0u16, u16::MAX, 0x8000, 1);
    at_borders(&rt, 16, 0i16, -1, i16::MIN, 1);
    at_borders(&rt, 32, 0u32, u32::MAX, 0x8000_0000, 1);
    at_borders(&rt, 32, 0i32, -1, i32::MIN, 1);
    at_borders(&rt, 64, 0u64, u64::MAX, 0x8000_0000_0000_0000, 1);
    at_borders(&rt, 64, 0i64, -1, i64::MIN, 1);
    at_borders(
        &rt,
        128,
        0u128,
        u128::MAX,
        0x8000_0000_0000_0000_0000_0000_0000_0000,
        1,
    );
    at_borders(&rt, 128, 0i128, -1, i128::MIN, 1);
    at_borders(&rt, 64, 0usize, usize::MAX, 0x8000_0000_0000_0000, 1);
    at_borders(&rt, 64, 0isize, -1, isize::MIN, 1);
}

// Checks four words: `none` has no set bit, `all` has every bit set, `top` has only the leftmost
// bit set (in a signed type this is the least value), and `least` has only the rightmost bit set.
fn at_borders<T: Word + Bits>(rt: &impl Abort, width: u32, none: T, all: T, top: T, least: T)
    requires positive { 0 < width }
    requires none_fits { ShapeFits T.Shape none }
    requires all_fits { ShapeFits T.Shape all }
{
    counts(rt, width, none, all);
    walks_alone::<T, BigEndian>(rt, all, 0, width);
    walks_alone::<T, LittleEndian>(rt, all, 0, width);
    walks_alone::<T, BigEndian>(rt, none, 0, 0);
    walks_alone::<T, BigEndian>(rt, top, width - 1, width);
    walks_alone::<T, LittleEndian>(rt, top, 0, 1);
    walks_alone::<T, BigEndian>(rt, least, 0, 1);
    walks_alone::<T, LittleEndian>(rt, least, width - 1, width);
}

// Checks the counts of a word without set bits, and of a word with all bits set.
fn counts<T: Bits>(rt: &impl Abort, width: u32, none: T, all: T)
    requires none_fits { ShapeFits T.Shape none }
    requires all_fits { ShapeFits T.Shape all }
{
    holds!(*rt; Bits::count_ones(&none) == 0 && Bits::count_ones(&all) == width);
    holds!(*rt; none.all_zeros() && !none.all_ones() && all.all_ones() && !all.all_zeros());
}

// Checks that the set bits of a word are `from..to`. An iterator over set bits yields them from the
// front. An iterator over the unset bits of the complement yields them from the back.
fn walks_alone<T: Word, E: Endian>(rt: &impl Abort, word: T, from: u32, to: u32) {
    ones_alone::<T, E>(rt, word, from, to);
    zeros_alone::<T, E>(rt, word.not(), from, to);
}

fn ones_alone<T: Word, E: Endian>(rt: &impl Abort, word: T, from: u32, to: u32) {
    let mut ones = IterOnes::<T, E>::new(word);
    for index in from..to {
        same!(*rt; ones.next(), Some(index));
    }
    same!(*rt; ones.next(), None);
}

fn zeros_alone<T: Word, E: Endian>(rt: &impl Abort, word: T, from: u32, to: u32) {
    let mut zeros = IterZeros::<T, E>::new(word);
    for index in (from..to).rev() {
        same!(*rt; zeros.next_back(), Some(index));
    }
    same!(*rt; zeros.next_back(), None);
}
