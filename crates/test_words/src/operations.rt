//! Operations on two sets, and sets with one bit changed, compared with values worked out by hand.

use crate::checks::same;
use bittle::prelude::*;
use bittle::{LittleEndian, set};
use std::fmt::Debug;
use std::process::Abort;

// The operations that change a set, with another set as argument.
#[derive(Clone, Copy)]
enum Change {
    Union,
    Conjunction,
    Difference,
    SymmetricDifference,
}

// Applies an operation to a set, with `other` as argument.
fn alter<B: BitsMut>(set: &mut B, by: Change, other: &B) {
    match by {
        Change::Union => set.union_assign(other),
        Change::Conjunction => set.conjunction_assign(other),
        Change::Difference => set.difference_assign(other),
        Change::SymmetricDifference => set.symmetric_difference_assign(other),
    }
}

// Applies an operation to a slice, with another slice as argument.
fn change_slice<'a>(mut set: &'a mut [u8], by: Change, other: &'a mut [u8]) {
    alter(&mut set, by, &other);
}

#[test]
fn conjunction_and_difference_change_the_common_beginning_alone(rt: HostRuntime) {
    let mut long = [255u8, 255];
    let mut short = [15u8];
    change_slice(&mut long, Change::Conjunction, &mut short);
    same!(rt; long, [15, 255]);

    let mut long = [0x0Fu8, 0xFF];
    let mut short = [0x05u8];
    change_slice(&mut long, Change::Difference, &mut short);
    same!(rt; long, [0x0A, 0xFF]);
}

#[test]
fn unions_change_the_common_beginning_alone(rt: HostRuntime) {
    let mut short = [1u8];
    let mut long = [2u8, 4];
    change_slice(&mut short, Change::Union, &mut long);
    same!(rt; short, [3]);
    same!(rt; long, [2, 4]);

    let mut short = [0xF0u8, 0x01];
    let mut long = [0xFFu8, 0x01, 0x01];
    change_slice(&mut short, Change::SymmetricDifference, &mut long);
    same!(rt; short, [0x0F, 0x00]);
}

// Checks what the operations make of two sets: the union, the conjunction, the difference in both
// directions, and the symmetric difference.
fn operations_of<B: BitsOwned + Debug>(rt: &impl Abort, one: B, other: B, expected: [B; 5]) {
    let made = [
        one.union(other),
        one.conjunction(other),
        one.difference(other),
        other.difference(one),
        one.symmetric_difference(other),
    ];
    same!(*rt; made, expected);
}

#[test]
fn operations_on_words(rt: HostRuntime) {
    let (a, b): (u128, u128) = (set![31, 67], set![31, 62]);
    let expected = [
        1 << 67 | 1 << 62 | 1 << 31,
        1 << 31,
        1 << 67,
        1 << 62,
        1 << 67 | 1 << 62,
    ];
    operations_of(&rt, a, b, expected);
}

#[test]
fn operations_on_signed_words(rt: HostRuntime) {
    operations_of(&rt, -128i8, -127, [-127, -128, 0, 1, 1]);
}

#[test]
fn words_with_and_without_an_index(rt: HostRuntime) {
    same!(rt; u8::ones().without_bit_le(2), 223);
    same!(rt; 0u8.with_bit(9), 2);
    same!(rt; u8::ones().without_bit_be(2), 251);
    same!(rt; u8::ones().without_bit(10), 251);
    same!(rt; u8::ones().without_bit_in::<LittleEndian>(2), 223);
    same!(rt; 0u8.with_bit_in::<LittleEndian>(2), 32);
    same!(rt; 0i8.with_bit_le(0), i8::MIN);
    same!(rt; 0i128.with_bit_le(u32::MAX), 1);
}
