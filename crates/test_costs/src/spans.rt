//! Tests that a call on a range fetches no word past the capacity, and each other word of the range
//! at most once.

ghost use Rattle.bittle.specs.Values.{ShapeFits};

use crate::asked::{Asked, counts};
use crate::checks::same;
use crate::probe::{ONES, Probe};
use crate::walked::count_owned;
use bittle::Bits;
use bittle_ext::prelude::*;
use std::process::Abort;

// Reads a set of 32 bits in four words, with the members 0 and 31. Tests what the calls return, and
// how many words they have fetched so far.
fn ask<B: Bits>(rt: &impl Abort, set: &B, asked: &Asked)
    requires { ShapeFits B.Shape set.now }
{
    same!(*rt; set.count_ones_in_span(16..900), 1);
    same!(*rt; set.count_zeros_in_range(40, 900), 0);
    same!(*rt; asked.fetches(), 2);
    same!(*rt; set.first_one_in_span(..), Some(0));
    same!(*rt; set.last_one_in_range(8, 99), Some(31));
    same!(*rt; asked.fetches(), 4);
    same!(*rt; set.all_in_range(0, 33), false);
    same!(*rt; set.all_in_span(40..=39), true);
    same!(*rt; asked.fetches(), 4);
    same!(*rt; count_owned(set.iter_ones_in_span(16..)), 1);
    counts!(*rt; asked, 6, 0);
}

#[test]
fn a_call_on_a_range_past_the_capacity_fetches_the_words_below_it_once(rt: HostRuntime) {
    let asked = Asked::new();
    ask(&rt, &Probe::of(ONES, &asked), &asked);
}
