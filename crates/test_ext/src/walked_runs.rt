//! Tests of iterators over the maximal runs of a set, with expected values worked out by hand.

ghost use Rattle.bittle.specs.Values.{ShapeFits};

use crate::calls::{BACK, FRONT, one_runs, runs_taken, zero_runs};
use crate::checks::same;
use bittle::{Bits, LittleEndian};
use bittle_ext::prelude::*;
use std::alloc::AllocError;
use std::ops::Range;

#[test]
fn the_runs_of_a_word(rt: HostRuntime) {
    // Bits 1, 5 and 6 are set, and all others are unset.
    let word = 0b0110_0010u8;
    let ones = one_runs(&word, [FRONT, FRONT, FRONT, FRONT, BACK]);
    same!(rt; ones, [Some((1, 2)), Some((5, 7)), None, None, None]);
    let zeros = zero_runs(&word, [FRONT, BACK, FRONT, BACK, FRONT]);
    same!(rt; zeros, [Some((0, 1)), Some((7, 8)), Some((2, 5)), None, None]);
    // In little-endian order, bits 1, 2 and 6 are set, and all others are unset.
    let view = word.in_order::<LittleEndian>();
    let left = one_runs(&view, [BACK, BACK, BACK, FRONT]);
    same!(rt; left, [Some((6, 7)), Some((1, 3)), None, None]);
    let left = zero_runs(&view, [FRONT; 3]);
    same!(rt; left, [Some((0, 1)), Some((3, 6)), Some((7, 8))]);
}

#[test]
fn runs_of_a_slice(rt: HostRuntime) {
    // Bits 7 and 8 are set.
    let bytes = [0x80u8, 0x01];
    let row: &[u8] = &bytes[..];
    same!(rt; one_runs(&row, [FRONT, BACK]), [Some((7, 9)), None]);
}

#[test]
fn one_run_or_none(rt: HostRuntime) {
    let none: [u8; 0] = [];
    same!(rt; (one_runs(&none, [FRONT]), zero_runs(&none, [BACK])), ([None], [None]));
    let all = [Some((0, 16))];
    same!(rt; (one_runs(&0xFFFFu16, [FRONT]), zero_runs(&0xFFFFu16, [BACK])), (all, [None]));
    same!(rt; (one_runs(&0u16, [FRONT]), zero_runs(&0u16, [BACK])), ([None], all));
}

// Returns the runs that an iterator yields from its front. Then returns those that its clone yields
// once from the back and twice from the front. If the iterator cannot be cloned, all are `None`.
fn runs_and_of_a_clone<W: DoubleEndedIterator<Item = Range<u32>> + Clone>(
    walk: &mut W,
) -> [[Option<(u32, u32)>; 3]; 2]
    requires front { (w : W) → W.can_next w }
    requires back { (w : W) → W.can_next_back w }
{
    let clone: Result<W, AllocError> = walk.clone();
    let Ok(mut clone) = clone else {
        return [[None; 3]; 2];
    };
    let runs = runs_taken(walk, [FRONT; 3]);
    [runs, runs_taken(&mut clone, [BACK, FRONT, FRONT])]
}

// Calls `runs_and_of_a_clone` on an iterator over the runs of set bits.
fn one_runs_and_of_a_clone<B: Bits>(bits: &B) -> [[Option<(u32, u32)>; 3]; 2]
    requires { ShapeFits B.Shape bits.now }
{
    runs_and_of_a_clone(&mut bits.iter_one_runs())
}

#[test]
fn a_clone_goes_on_from_its_source(rt: HostRuntime) {
    // Bits 1, 5 and 6 are set.
    let [runs, of_clone] = one_runs_and_of_a_clone(&0b0110_0010u8);
    same!(rt; runs, [Some((1, 2)), Some((5, 7)), None]);
    same!(rt; of_clone, [Some((5, 7)), Some((1, 2)), None]);
}
