//! Tests of iterators over a range of a set, with expected values worked out by hand.

ghost use Rattle.std.specs.Prelude.{IsTrue};
ghost use Rattle.bittle.specs.Values.{ShapeFits};

use crate::calls::{
    BACK, FRONT, ones_in_range, ones_in_range_in, taken, zeros_in_range, zeros_in_range_in,
};
use crate::checks::same;
use bittle::{Bits, BitsOwned, LittleEndian, Set};
use bittle_ext::prelude::*;
use std::alloc::AllocError;

#[test]
fn the_ones_of_a_range_of_a_word(rt: HostRuntime) {
    // Bits 1, 5 and 6 are set.
    let word = 0b0110_0010u8;
    let inner = ones_in_range(&word, 1, 6, [FRONT, FRONT, FRONT, BACK]);
    same!(rt; inner, [Some(1), Some(5), None, None]);
    let all = ones_in_range(&word, 0, 8, [BACK, BACK, BACK, BACK, FRONT, BACK]);
    same!(rt; all, [Some(6), Some(5), Some(1), None, None, None]);
}

#[test]
fn the_zeros_of_a_range_of_a_word(rt: HostRuntime) {
    // Bits 0, 2, 3, 4 and 7 are unset.
    let inner = zeros_in_range(&0b0110_0010u8, 1, 4, [BACK, FRONT, FRONT, BACK]);
    same!(rt; inner, [Some(3), Some(2), None, None]);
}

#[test]
fn a_range_of_a_word_from_the_left(rt: HostRuntime) {
    // In little-endian order, bits 1, 2 and 6 are set, and bits 0, 3, 4, 5 and 7 are unset.
    let word = 0b0110_0010u8;
    let ones = ones_in_range_in::<_, LittleEndian, 3>(&word, 2, 8, [FRONT; 3]);
    same!(rt; ones, [Some(2), Some(6), None]);
    let zeros = zeros_in_range_in::<_, LittleEndian, 3>(&word, 1, 5, [FRONT; 3]);
    same!(rt; zeros, [Some(3), Some(4), None]);
}

/// Returns the first set bit of a set in `8..24` and its last unset bit in `7..24`.
fn ends_of_ranges<B: Bits>(set: &B) -> ([Option<u32>; 1], [Option<u32>; 1])
    requires { ShapeFits B.Shape set.now }
{
    let first = ones_in_range(set, 8, 24, [FRONT]);
    (first, zeros_in_range(set, 7, 24, [BACK]))
}

/// Calls `ends_of_ranges` on a little-endian set.
fn ends_of_ranges_from_left<T: BitsOwned>(bits: T) -> ([Option<u32>; 1], [Option<u32>; 1])
    requires { IsTrue T.indexable }
{
    ends_of_ranges(&Set::new_le(bits))
}

#[test]
fn a_range_of_a_slice_and_of_a_set(rt: HostRuntime) {
    // Bits 0, 7 and 8 are set.
    let bytes = [0x81u8, 0x01, 0];
    let row: &[u8] = &bytes[..];
    same!(rt; ones_in_range(&row, 1, 24, [FRONT; 3]), [Some(7), Some(8), None]);
    // In little-endian order, bits 0, 7 and 15 are set.
    same!(rt; ends_of_ranges_from_left(bytes), ([Some(15)], [Some(23)]));
}

/// Takes an item from an iterator, and clones the iterator. Returns that item, and then what the
/// iterator and its clone yield. If the iterator cannot be cloned, these items are `None`.
fn source_and_clone<W: DoubleEndedIterator<Item = u32> + Clone>(
    walk: &mut W,
) -> ([Option<u32>; 1], [[Option<u32>; 3]; 2])
    requires front { (w : W) → W.can_next w }
    requires back { (w : W) → W.can_next_back w }
{
    let first = taken(walk, [FRONT]);
    let clone: Result<W, AllocError> = walk.clone();
    let Ok(mut clone) = clone else {
        return (first, [[None; 3]; 2]);
    };
    let source = taken(walk, [BACK, FRONT, FRONT]);
    (first, [source, taken(&mut clone, [FRONT, BACK, FRONT])])
}

/// Calls `source_and_clone` on an iterator over the set bits below 7.
fn ones_of_source_and_clone<B: Bits>(bits: &B) -> ([Option<u32>; 1], [[Option<u32>; 3]; 2])
    requires { ShapeFits B.Shape bits.now }
{
    source_and_clone(&mut bits.iter_ones_in_range(0, 7))
}

#[test]
fn a_clone_goes_on_from_its_source(rt: HostRuntime) {
    // Bits 1, 5 and 6 are set.
    let word = 0b0110_0010u8;
    let (first, [source, clone]) = ones_of_source_and_clone(&word);
    same!(rt; (first, source), ([Some(1)], [Some(6), Some(5), None]));
    same!(rt; clone, [Some(5), Some(6), None]);
}

#[test]
fn ranges_with_no_items(rt: HostRuntime) {
    let none: [u8; 0] = [];
    same!(rt; ones_in_range(&none, 0, 0, [FRONT]), [None]);
    same!(rt; zeros_in_range(&none, 0, 0, [FRONT]), [None]);
    same!(rt; ones_in_range(&0xFFu8, 3, 3, [FRONT]), [None]);
    same!(rt; ones_in_range(&0xFFu8, 8, 8, [BACK]), [None]);
    same!(rt; zeros_in_range(&0xFFu8, 0, 8, [BACK]), [None]);
}
