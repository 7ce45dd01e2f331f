//! Tests what the everyday calls on two sets cost. If the words of both sets have the same width
//! and bit order, four words of each set are compared at a time. If one of the four decides the
//! result, they are fetched again up to that word. Other sets are searched in turn, and each search
//! begins at the bit that was found in the other set.
//!
//! The calls of several tests are in one function, since each function pays anew for its types.

ghost use Rattle.bittle.specs.Values.{ShapeFits};

use crate::asked::{Asked, counts};
use crate::checks::same;
use crate::probe::{ONES, Probe};
use crate::probe_rows::{Reading, costs, read_rows};
use bittle::{Bits, LittleEndian};
use bittle_ext::{BitsRelationExt, BitsViewExt};
use std::process::Abort;

// The pair of sets whose relations are asked for.
#[derive(Clone, Copy)]
enum Pair {
    Meet,
    Agree,
    FirstWord,
}

impl Reading for Pair {
    fn read<B: Bits>(
        self,
        rt: &impl Abort,
        few: &B,
        _most: &B,
        _one: &B,
        none: &B,
        low: &B,
        lower: &B,
        asked: &Asked,
    ) {
        match self {
            // Word 7 decides. From each set eight words are fetched, and the last four of them
            // again.
            Pair::Meet => {
                let (left, right) = (few, few);
                costs!(rt; asked, left.first_common(right), Some(451), 24, 0);
                costs!(rt; asked, left.intersects(right), true, 24, 0);
                costs!(rt; asked, left.is_disjoint(right), false, 24, 0);
                costs!(rt; asked, left.first_alone(none), Some(451), 24, 0);
                costs!(rt; asked, left.is_subset(none), false, 24, 0);
                costs!(rt; asked, none.is_superset(left), false, 24, 0);
            }
            Pair::Agree => {
                let (left, right) = (few, few);
                costs!(rt; asked, left.first_alone(right), None, 24, 0);
                costs!(rt; asked, left.is_subset(right), true, 24, 0);
                costs!(rt; asked, left.is_superset(right), true, 24, 0);
                costs!(rt; asked, left.first_common(none), None, 24, 0);
                costs!(rt; asked, left.intersects(none), false, 24, 0);
                costs!(rt; asked, left.is_disjoint(none), true, 24, 0);
            }
            Pair::FirstWord => {
                let (left, right) = (low, lower);
                costs!(rt; asked, left.first_common(right), Some(0), 10, 0);
                costs!(rt; asked, right.first_alone(left), Some(1), 10, 0);
                costs!(rt; asked, right.is_subset(left), false, 10, 0);
                costs!(rt; asked, left.is_superset(right), false, 10, 0);
                costs!(rt; asked, left.intersects(right), true, 10, 0);
                costs!(rt; asked, left.is_disjoint(right), false, 10, 0);
            }
        }
    }
}

#[test]
fn relations_of_like_words_fetch_both_up_to_the_four_words_that_decide(rt: HostRuntime) {
    read_rows(&rt, Pair::Meet);
}

#[test]
fn relations_of_like_words_that_nothing_decides_fetch_both_once(rt: HostRuntime) {
    read_rows(&rt, Pair::Agree);
}

#[test]
fn relations_that_the_first_word_decides_fetch_four_words_of_both_and_it_again(rt: HostRuntime) {
    read_rows(&rt, Pair::FirstWord);
}

// Other calls on a pair of sets: they count, or read the sets in two orders.
#[derive(Clone, Copy)]
enum Other {
    Counted,
    TwoOrders,
}

impl Reading for Other {
    fn read<B: Bits>(
        self,
        rt: &impl Abort,
        few: &B,
        _most: &B,
        one: &B,
        _none: &B,
        _low: &B,
        _lower: &B,
        asked: &Asked,
    ) {
        match self {
            // The bits are counted in each word that an operation makes of two words. So
            // `count_ones` of an element is not called.
            Other::Counted => {
                let (left, right) = (few, one);
                costs!(rt; asked, left.count_common(right), 1, 24, 0);
                costs!(rt; asked, left.count_alone(right), 1, 24, 0);
                costs!(rt; asked, left.count_different(right), 1, 24, 0);
            }
            // In the order `LittleEndian` the members are 451 and 508 too, since the order swaps
            // bits 3 and 60 of a word. The first search fetches eight words. The second search
            // begins at 451 and fetches one.
            Other::TwoOrders => {
                let (left, right) = (few, few);
                let view = right.in_order::<LittleEndian>();
                costs!(rt; asked, left.first_common(&view), Some(451), 9, 0);
                costs!(rt; asked, left.intersects(&view), true, 9, 0);
            }
        }
    }
}

#[test]
fn counts_of_like_words_fetch_both_once(rt: HostRuntime) {
    read_rows(&rt, Other::Counted);
}

#[test]
fn relations_in_two_orders_search_from_item_to_item(rt: HostRuntime) {
    read_rows(&rt, Other::TwoOrders);
}

// Returns how many members two sets have in common.
fn count_common<A: Bits, B: Bits>(left: &A, right: &B) -> u32
    requires left { ShapeFits A.Shape left.now }
    requires right { ShapeFits B.Shape right.now }
{
    left.count_common(right)
}

#[test]
fn a_count_of_common_members_fetches_no_word_past_a_shorter_first_set(rt: HostRuntime) {
    // The first set has four words and the members 0 and 31. The second set has eight words and the
    // members 0, 31, 32 and 63.
    let (ours, theirs) = (Asked::new(), Asked::new());
    let row = [Probe::of(ONES, &theirs); 2];
    same!(rt; count_common(&Probe::of(ONES, &ours), &row), 2);
    counts!(rt; ours, 4, 0);
    counts!(rt; theirs, 4, 0);
}
