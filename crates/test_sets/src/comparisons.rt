//! Equality, order and hash of sets, compared with values worked out by hand.

use crate::checks::{holds, same};
use bittle::prelude::*;
use bittle::{Set, set};
use std::cmp::Ordering;
use std::hash::{Hash, Hasher};
use std::marker::Model;
use std::process::Abort;

#[test]
fn shapes_compare_by_their_members(rt: HostRuntime) {
    let low = Set::new(0b1_1111_1111u16);
    same!(rt; low.cmp_bits(&0b1_0001_0000u32), Ordering::Less);
    same!(rt; Set::new(1u8).cmp_bits(&3u8), Ordering::Less);
    same!(rt; Set::new(0b0110u8).cmp_bits(&0b0101u16), Ordering::Greater);
    same!(rt; Set::new([0u8; 0]).cmp_bits(&1u8), Ordering::Less);
    holds!(rt; Set::new(0b1_0001_0000u32).eq_bits(&[0x10u8, 0x01]));
    holds!(rt; !Set::new(0b1_0001_0000u32).eq_bits(&[0x10u8, 0x03]));
}

#[test]
fn a_word_compares_with_a_slice(rt: HostRuntime) {
    let mut words = [0u32; 4];
    let mut slice = words.as_mut_slice();
    slice.set_bit(111);
    let word: Set<u128> = set![111];
    holds!(rt; word.eq_bits(&Set::from_ref(&words)));
    same!(rt; word.cmp_bits(&Set::from_ref(&words)), Ordering::Equal);
}

#[test]
fn each_side_is_compared_in_its_own_order(rt: HostRuntime) {
    // One set is {0}, the other is {15}.
    holds!(rt; !Set::new_le(0x80u8).eq_bits(&Set::new(0x8000u16)));
    holds!(rt; !Set::new(0x8000u16).eq_bits(&Set::new_le(0x80u8)));
    // One set is {0}, the other is {7}.
    holds!(rt; !Set::new_le(0x80u8).eq_bits(&0x80u8));
    same!(rt; Set::new_le(0x80u8).cmp_bits(&0x80u8), Ordering::Less);
    same!(rt;
        Set::new(0x80u8).cmp_bits(&Set::new_le(0x80u8)),
        Ordering::Greater
    );
    // Both sets are {0}.
    holds!(rt; Set::new_le(0x80u8).eq_bits(&Set::new(1u16)));
    holds!(rt; Set::new(1u16).eq_bits(&Set::new_le(0x80u8)));
}

// Sets from the least to the greatest: {}, {0}, {0, 1}, {0, 2}, {1}, {1, 2, 3}, {1, 3}, {7}.
const INCREASING: [u8; 8] = [0, 1, 0b11, 0b101, 0b10, 0b1110, 0b1010, 0x80];

#[test]
fn sets_are_ordered_by_their_members(rt: HostRuntime) {
    for (i, a) in INCREASING.iter().enumerate() {
        for (j, b) in INCREASING.iter().enumerate() {
            let (left, right) = (Set::new(*a), Set::new(*b));
            same!(rt; (i, j, left.cmp(&right)), (i, j, i.cmp(&j)));
            same!(rt; (i, j, left == right), (i, j, i == j));
        }
    }
}

#[test]
fn sets_are_compared_in_their_order(rt: HostRuntime) {
    holds!(rt; Set::new_le(0x80u8) < Set::new_le(0x40));
    holds!(rt; Set::new(0x80u8) > Set::new(0x40));
    holds!(rt; Set::from_ref(&[1u8]) == Set::from_ref(&[1u8, 0]));
}

// A hasher that keeps the first four numbers that are written to it.
#[derive(Drop)]
struct Fed {
    numbers: [u32; 4],
    len: usize,
}

impl Model for Fed {
    ghost use Rattle.std.specs.Prelude.{◌≤◌};

    ghost Value = { Unit {0} };

    ghost view = { λ fed. tt };

    ghost invariant = { λ fed. fed.len ≤ 4 };
}

impl Hasher for Fed {
    ghost write = { λ fed bytes. fed };

    ghost finish = { λ fed. 0 };

    fn finish(&self) -> u64 {
        0
    }

    fn write(&mut self, _bytes: &[u8]) {}

    fn write_u32(&mut self, number: u32) {
        if self.len < 4 {
            self.numbers[self.len] = number;
            self.len += 1;
        }
    }
}

// Checks which numbers `hash` writes to a hasher for a value, and how many they are.
fn feeds<T: Hash>(rt: &impl Abort, value: &T, want: [u32; 4], count: usize) {
    let mut hasher = Fed {
        numbers: [0; 4],
        len: 0,
    };
    value.hash(&mut hasher);
    let Fed { numbers, len } = hasher;
    same!(*rt; (numbers, len), (want, count));
}

#[test]
fn a_hasher_is_fed_the_members_and_their_count(rt: HostRuntime) {
    feeds(&rt, &Set::new(0b1001u8), [0, 3, 2, 0], 3);
    feeds(&rt, &Set::new_le(0b1001u8), [4, 7, 2, 0], 3);
    feeds(&rt, &Set::new([0u8; 0]), [0, 0, 0, 0], 1);
    feeds(&rt, &Set::from_ref(&[1u8]), [0, 1, 0, 0], 2);
    feeds(&rt, &Set::from_ref(&[1u8, 0]), [0, 1, 0, 0], 2);
}
