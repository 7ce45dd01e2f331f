//! Iterators over arrays, compared with items worked out by hand.

use crate::checks::holds;
use bittle::LittleEndian;
use bittle::prelude::*;

#[test]
fn walks_of_a_full_array_without_two_indexes(rt: HostRuntime) {
    let without = <[u8; 2]>::ones().without_bit_be(2).without_bit_be(10);
    holds!(rt; without.into_iter_zeros_be().eq([2, 10]));
    holds!(rt; without.into_iter_zeros_in::<LittleEndian>().eq([5, 13]));
}

#[test]
fn walks_of_nested_arrays(rt: HostRuntime) {
    holds!(rt; [[16u8, 0, 0, 0], [0, 0, 1, 0]].iter_ones().eq([4, 48]));
}
