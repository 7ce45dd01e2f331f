//! Tests that a search in a range fetches the words from one bound up to the found bit, each once.

ghost use Rattle.std.specs.Prelude.{◌≤◌};

use crate::asked::Asked;
use crate::checks::same;
use crate::probe::Probe;
use bittle::{BigEndian, Bits, Endian, LittleEndian};
use std::process::Abort;

// What is searched for in a range.
#[derive(Drop)]
enum Search {
    FirstOne,
    LastOne,
    FirstZero,
    LastZero,
}

// Searches a range of the set of these bytes. Tests what is found, and which words are fetched,
// each once. Bit `k` of `words` is set if word `k` should be fetched.
fn find<E: Endian>(
    rt: &impl Abort,
    kind: Search,
    bytes: [u8; 4],
    from: u32,
    to: u32,
    wanted: Option<u32>,
    words: u64,
)
    requires ordered { from ≤ to }
    requires within { to ≤ 32 }
{
    let asked = Asked::new();
    let set = Probe::of(bytes, &asked);
    let found = match kind {
        Search::FirstOne => set.first_one_in::<E>(from, to),
        Search::LastOne => set.last_one_in::<E>(from, to),
        Search::FirstZero => set.first_zero_in::<E>(from, to),
        Search::LastZero => set.last_zero_in::<E>(from, to),
    };
    same!(*rt; found, wanted);
    same!(*rt; asked.words_once(), Some(words));
}

// The bytes of a set with the members 4, 8 and 31 (3, 15 and 24 in the order `LittleEndian`).
const FEW: [u8; 4] = [0x10, 0x01, 0, 0x80];

// The bytes of a set with all members but those of `FEW`, in either bit order.
const MOST: [u8; 4] = [0xEF, 0xFE, 0xFF, 0x7F];

#[test]
fn searches_of_the_first_one_fetch_up_to_it(rt: HostRuntime) {
    find::<BigEndian>(&rt, Search::FirstOne, FEW, 5, 32, Some(8), 0b0011);
    find::<BigEndian>(&rt, Search::FirstOne, FEW, 9, 24, None, 0b0110);
    find::<LittleEndian>(&rt, Search::FirstOne, FEW, 4, 32, Some(15), 0b0011);
    find::<LittleEndian>(&rt, Search::FirstOne, FEW, 4, 4, None, 0);
}

#[test]
fn searches_of_the_last_one_fetch_down_to_it(rt: HostRuntime) {
    find::<BigEndian>(&rt, Search::LastOne, FEW, 0, 31, Some(8), 0b1110);
    find::<BigEndian>(&rt, Search::LastOne, FEW, 9, 24, None, 0b0110);
    find::<LittleEndian>(&rt, Search::LastOne, FEW, 0, 24, Some(15), 0b0110);
    find::<LittleEndian>(&rt, Search::LastOne, FEW, 15, 15, None, 0);
}

#[test]
fn searches_of_the_first_zero_fetch_up_to_it(rt: HostRuntime) {
    find::<BigEndian>(&rt, Search::FirstZero, MOST, 5, 32, Some(8), 0b0011);
    find::<BigEndian>(&rt, Search::FirstZero, MOST, 9, 24, None, 0b0110);
    find::<LittleEndian>(&rt, Search::FirstZero, MOST, 4, 32, Some(15), 0b0011);
    find::<LittleEndian>(&rt, Search::FirstZero, MOST, 4, 4, None, 0);
}

#[test]
fn searches_of_the_last_zero_fetch_down_to_it(rt: HostRuntime) {
    find::<BigEndian>(&rt, Search::LastZero, MOST, 0, 31, Some(8), 0b1110);
    find::<BigEndian>(&rt, Search::LastZero, MOST, 9, 24, None, 0b0110);
    find::<LittleEndian>(&rt, Search::LastZero, MOST, 0, 24, Some(15), 0b0110);
    find::<LittleEndian>(&rt, Search::LastZero, MOST, 15, 15, None, 0);
}
