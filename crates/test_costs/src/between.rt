//! Tests what it costs to change a whole set by a set in the other bit order, and to shift a set by
//! more than its capacity.

ghost use Rattle.bittle.specs.Values.{ShapeFits};

use crate::asked::{Asked, counts};
use crate::checks::same;
use crate::probe::{ONES, Probe};
use bittle::{Bits, BitsMut, LittleEndian};
use bittle_ext::prelude::*;
use std::process::Abort;

// Adds the members that another set has in the order `LittleEndian`, and tests that this changes
// the set.
fn add_from_left<A: BitsMut, B: Bits>(rt: &impl Abort, set: &mut A, other: &B)
    requires fits { ShapeFits A.Shape set.old }
    requires other_fits { ShapeFits B.Shape other.now }
{
    same!(*rt; set.union_with(&other.in_order::<LittleEndian>()), true);
}

#[test]
fn a_word_in_the_other_order_is_fetched_once_too(rt: HostRuntime) {
    // The members of the set are 0 and 31. In the order `LittleEndian` the members of the other set
    // are 7 and 24.
    let (ours, theirs) = (Asked::new(), Asked::new());
    let mut set = Probe::of(ONES, &ours);
    add_from_left(&rt, &mut set, &Probe::of(ONES, &theirs));
    same!(rt; set.bytes, [0x81, 0, 0, 0x81]);
    counts!(rt; ours, 4, 4);
    counts!(rt; theirs, 4, 0);
}

// Shifts a set of 32 bits up by 40, and then down by 40.
fn shift_past_all<B: BitsMut>(set: &mut B)
    requires { ShapeFits B.Shape set.old }
{
    set.shift_up(40);
    set.shift_down(40);
}

#[test]
fn a_shift_in_place_past_all_fetches_nothing(rt: HostRuntime) {
    let asked = Asked::new();
    let mut set = Probe::of(ONES, &asked);
    shift_past_all(&mut set);
    same!(rt; set.bytes, [0; 4]);
    counts!(rt; asked, 0, 2);
}
