//! The examples of README's guide. Each line of the guide's listings is here or in the program of
//! `bittle_guide`.

use crate::checks::{holds, same};
use bittle::{BigEndian, Bits, BitsMut, BitsOwned, LittleEndian, Set};
use std::test::Fail;

#[test]
fn words(rt: HostRuntime) {
    let mut word = 0b0010_0010u8; // bits 1 and 5 are set
    word.set_bit(0); // 0b0010_0011
    same!(rt; word, 0b0010_0011);
    word.clear_bit(9); // 9 wraps to 1: 0b0010_0001
    same!(rt; word, 0b0010_0001);
    word.test_bit(5); // true
    holds!(rt; word.test_bit(5));
    word.test_bit_le(2); // true: index 2 from the left is bit 5
    holds!(rt; word.test_bit_le(2));
}

#[test]
fn arrays(rt: HostRuntime) {
    let mut row = [0u16; 2]; // capacity 32
    row.set_bit(31); // [0, 0x8000]
    same!(rt; row, [0, 0x8000]);
    row.count_ones(); // 1
    same!(rt; row.count_ones(), 1);

    let mut nested = [[0u8; 2]; 2];
    nested.set_bit_le(17); // [[0, 0], [0x40, 0]]
    same!(rt; nested, [[0, 0], [0x40, 0]]);

    <[u32; 4]>::bits(); // 128
    same!(rt; <[u32; 4]>::bits(), 128);
    Bits::count_zeros(&u8::ones()); // 0: an integer has a method of the name too
    same!(rt; Bits::count_zeros(&u8::ones()), 0);
}

fn take(mut words: &mut [u64], slot: u32) {
    words.set_bit(slot); // a slice that is passed in is declared `mut`
}

#[test]
fn slices(rt: HostRuntime) -> Result<(), Fail> {
    let mut words = [0u32; 4];
    let mut lent = words.as_mut_slice();
    lent.set_bit(65); // words is [0, 0, 2, 0]
    same!(rt; words, [0, 0, 2, 0]);

    let alloc = rt.alloc();
    let mut pages: Vec<u64> = Vec::new(alloc);
    pages.push(0)?;
    let mut lent = pages.as_mut_slice();
    lent.set_bit(3); // pages is [8]
    same!(rt; pages.as_slice(), [8].as_slice());
    take(pages.as_mut_slice(), 0);
    same!(rt; pages.as_slice(), [9].as_slice());
    Ok(())
}

#[test]
fn lists(rt: HostRuntime) {
    let mask: u8 = bittle::set![0, 2..=3, 6..]; // 0b1100_1101
    same!(rt; mask, 0b1100_1101);
    let left: u8 = bittle::set_le![0, 1, 3]; // 0b1101_0000
    same!(rt; left, 0b1101_0000);
    let few: u128 = bittle::set![31, 67];
    few.conjunction(bittle::set![31, 62]); // the set of 31
    same!(rt; few.conjunction(bittle::set![31, 62]), bittle::set![31]);
}

fn four_members() -> [u32; 4] {
    let row: [u32; 4] = bittle::set![4, 67, 71, 127];
    row
}

fn mixed_members(row: &[u32; 4]) -> u32 {
    let mut mixed = 0;
    for index in row.iter_ones() {
        mixed ^= index; // 4, 67, 71, 127
    }
    mixed
}

// Takes the first item, the last item, and then the last of those that remain.
fn three_steps(row: &[u32; 4]) -> [Option<u32>; 3] {
    let mut walk = row.iter_ones();
    let (first, last) = (walk.next(), walk.next_back());
    [first, last, walk.rev().next()]
}

#[test]
fn walks(rt: HostRuntime) -> Result<(), Fail> {
    let row = four_members();
    same!(rt; mixed_members(&row), 4 ^ 67 ^ 71 ^ 127);
    let found: Vec<u32> = row.iter_ones().collect(rt.alloc())?;
    same!(rt; found.as_slice(), [4, 67, 71, 127].as_slice());
    same!(rt; three_steps(&row), [Some(4), Some(127), Some(71)]);
    Ok(())
}

#[test]
fn walks_from_both_ends(rt: HostRuntime) {
    let row = four_members();
    let mut walk = row.iter_ones();
    walk.next(); // Some(4)
    walk.next_back(); // Some(127)
    same!(rt; walk.next_back(), Some(71));
    same!(rt; walk.next(), Some(67));
    same!(rt; walk.next_back(), None);
}

#[test]
fn searches(rt: HostRuntime) {
    let row = four_members();
    0b1101u8.iter_zeros().next(); // Some(1)
    same!(rt; 0b1101u8.iter_zeros().next(), Some(1));
    row.first_one_in::<BigEndian>(5, 128); // Some(67)
    same!(rt; row.first_one_in::<BigEndian>(5, 128), Some(67));
}

#[test]
fn wrapped(rt: HostRuntime) -> Result<(), Fail> {
    let set = Set::new_le(0b1101_0000u8);
    set.test_bit(3); // true
    holds!(rt; set.test_bit(3));
    println!(rt; "{set:?}")?; // {0, 1, 3}
    same!(rt; format!(in rt.alloc(); "{set:?}")?.as_str(), "{0, 1, 3}");
    set.eq_bits(&Set::new(0b1011u16)); // true: each side is read in its own order
    holds!(rt; set.eq_bits(&Set::new(0b1011u16)));
    let both = Set::<u8, LittleEndian>::new_in(0x80) | set;
    same!(rt; both.into_bits(), 0b1101_0000);
    Ok(())
}

#[test]
fn joins(rt: HostRuntime) {
    let mask: u8 = bittle::set![0, 2, 5];
    mask.join_ones([10, 20, 30]); // yields 10, 30
    holds!(rt; mask.join_ones([10, 20, 30]).eq([10, 30]));
}
