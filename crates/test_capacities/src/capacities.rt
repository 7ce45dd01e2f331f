//! Arrays and slices: which element an index reaches, how an index wraps, and large capacities.

use crate::checks::same;
use bittle::prelude::*;

#[test]
fn an_index_goes_to_one_element(rt: HostRuntime) {
    let mut bytes = [0u8; 2];
    bytes.set_bit_le(8);
    same!(rt; bytes, [0, 128]);

    let mut words = [0u32; 4];
    let mut slice = words.as_mut_slice();
    for index in [32, 65, 96, 97] {
        slice.set_bit(index);
    }
    same!(rt; words, [0, 1, 2, 3]);
}

#[test]
fn the_greatest_index_wraps(rt: HostRuntime) {
    let mut bytes = [0u8; 3];
    bytes.set_bit(u32::MAX);
    same!(rt; bytes, [0, 128, 0]);
    bytes = [0; 3];
    bytes.set_bit_le(u32::MAX);
    same!(rt; bytes, [0, 1, 0]);

    let mut bytes = [0u8; 7];
    bytes.set_bit(u32::MAX);
    same!(rt; bytes, [0, 0, 0, 128, 0, 0, 0]);
    bytes = [0; 7];
    bytes.set_bit_le(u32::MAX);
    same!(rt; bytes, [0, 0, 0, 1, 0, 0, 0]);

    let mut arrays = [[0u8; 3]; 2];
    arrays.set_bit(u32::MAX);
    same!(rt; arrays, [[0, 128, 0], [0, 0, 0]]);

    let mut word = 0i128;
    word.set_bit_le(u32::MAX);
    same!(rt; word, 1);
}

#[test]
fn capacities(rt: HostRuntime) {
    same!(rt; <[u8; 536_870_911]>::bits(), 4_294_967_288);
    same!(rt; <[u8; 536_870_912]>::bits(), u32::MAX);
    same!(rt; <[[u8; 536_870_912]; 0]>::bits(), u32::MAX);
    same!(rt; <[[[u8; 536_870_912]; 0]; 3]>::bits(), u32::MAX);
    same!(rt; <[u8; 4_294_967_297]>::bits(), u32::MAX);
    same!(rt; <[[u8; 0]; 5_000_000_000]>::bits(), 0);
    let none: &[[u8; 536_870_912]] = &[];
    same!(rt; none.bits_capacity(), u32::MAX);
    same!(rt; [[0u8; 2]; 3].bits_capacity(), 48);
}
