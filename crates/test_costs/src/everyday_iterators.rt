//! Tests how many words of a set are fetched by iterators over ranges and over runs, and by views
//! of the set.

ghost use Rattle.bittle.specs.Values.{ShapeFits};

use crate::asked::Asked;
use crate::probe_rows::{Reading, costs, read_rows};
use crate::walked::{
    count, count_back, count_owned, count_owned_back, count_runs, count_runs_back,
};
use bittle::{Bits, LittleEndian, Shape};
use bittle_ext::{BitsExt, BitsRangeExt, BitsViewExt};
use std::process::Abort;

// The iterators or views that read the rows.
#[derive(Clone, Copy)]
enum Walk {
    Ranges,
    Runs,
    OneSet,
    RangeViews,
    TwoSets,
}

impl Reading for Walk {
    fn read<B: Bits>(
        self,
        rt: &impl Abort,
        few: &B,
        most: &B,
        one: &B,
        none: &B,
        _low: &B,
        _lower: &B,
        asked: &Asked,
    ) {
        match self {
            Walk::Ranges => {
                iterate_over_ones_of_ranges(rt, few, asked);
                iterate_over_zeros_of_ranges(rt, most, asked);
            }
            Walk::Runs => iterate_over_runs(rt, few, most, asked),
            Walk::OneSet => {
                view_in_order(rt, few, asked);
                view_complement(rt, few, asked);
            }
            Walk::RangeViews => view_ranges(rt, few, asked),
            Walk::TwoSets => {
                view_conjunction(rt, few, one, none, asked);
                view_difference(rt, few, one, asked);
                view_union(rt, few, one, asked);
                view_symmetric_difference(rt, few, one, asked);
            }
        }
    }
}

// An iterator over an array fetches one word when it is made, even if its range is empty.
fn iterate_over_ones_of_ranges<B: Bits>(rt: &impl Abort, few: &B, asked: &Asked)
    requires { ShapeFits B.Shape few.now }
{
    costs!(rt; asked, count_owned(few.iter_ones_in_range(130, 500)), 1, 6, 0);
    costs!(rt; asked, count_owned_back(few.iter_ones_in_range(130, 500)), 1, 6, 0);
    costs!(rt; asked, count_owned(few.iter_ones_in_range(130, 130)), 0, 1, 0);
}

// Iterates over the unset bits of a range, from either end.
fn iterate_over_zeros_of_ranges<B: Bits>(rt: &impl Abort, most: &B, asked: &Asked)
    requires { ShapeFits B.Shape most.now }
{
    costs!(rt; asked, count_owned(most.iter_zeros_in_range(130, 500)), 1, 6, 0);
    costs!(rt; asked, count_owned_back(most.iter_zeros_in_range(130, 500)), 1, 6, 0);
}

#[test]
fn an_iterator_over_a_range_fetches_each_word_of_it_once(rt: HostRuntime) {
    read_rows(&rt, Walk::Ranges);
}

// Each of the iterators fetches 23 words. It fetches each of the twelve for the edges in that word,
// and each but the last once more, for those in the word after it. From the back it also tests one
// bit, to learn whether the last run reaches the end of the set.
fn iterate_over_runs<B: Bits>(rt: &impl Abort, few: &B, most: &B, asked: &Asked)
    requires few { ShapeFits B.Shape few.now }
    requires most { ShapeFits B.Shape most.now }
{
    costs!(rt; asked, count_runs(few.iter_one_runs()), 2, 23, 0);
    costs!(rt; asked, count_runs_back(few.iter_one_runs()), 2, 23, 1);
    costs!(rt; asked, count_runs(most.iter_zero_runs()), 2, 23, 0);
}

#[test]
fn an_iterator_over_runs_fetches_no_word_three_times(rt: HostRuntime) {
    read_rows(&rt, Walk::Runs);
}

// Reads a view of a set in the order `LittleEndian`.
fn view_in_order<B: Bits>(rt: &impl Abort, few: &B, asked: &Asked)
    requires { ShapeFits B.Shape few.now }
{
    costs!(rt; asked, few.in_order::<LittleEndian>().first_one(), Some(451), 8, 0);
    costs!(rt; asked, few.in_order::<LittleEndian>().count_ones(), 2, 0, 12);
}

// Reads a view of the complement of a set.
fn view_complement<B: Bits>(rt: &impl Abort, few: &B, asked: &Asked)
    requires { ShapeFits B.Shape few.now }
{
    ask_complement(rt, &few.complement_view(), asked);
}

// Reads a view in which only the bits 451 and 508 are unset. For any view the calls are proved in
// less time than for that of `view_complement`.
fn ask_complement<V: Bits>(rt: &impl Abort, view: &V, asked: &Asked)
    requires { ShapeFits V.Shape view.now }
{
    costs!(rt; asked, view.first_zero(), Some(451), 8, 0);
    costs!(rt; asked, view.count_ones(), 766, 0, 12);
    costs!(rt; asked, count(view.iter_zeros()), 2, 12, 0);
}

#[test]
fn a_view_asks_what_a_call_on_its_set_asks(rt: HostRuntime) {
    read_rows(&rt, Walk::OneSet);
}

fn view_ranges<B: Bits>(rt: &impl Abort, few: &B, asked: &Asked)
    requires { ShapeFits B.Shape few.now }
{
    ask_range(rt, &few.within(130, 500), asked);
    ask_empty_range(rt, &few.within(130, 451), asked);
}

// Reads a view of the bits 130 to 499, of which only 451 is set. A search may fetch one word
// outside of the range: word 0 or the last word. The paths of traits tell `scripts/costs` that the
// counts are those of a view.
fn ask_range<V: Bits>(rt: &impl Abort, view: &V, asked: &Asked)
    requires { ShapeFits V.Shape view.now }
{
    costs!(rt; asked, Bits::count_ones(view), 1, 6, 0);
    costs!(rt; asked, Bits::all_zeros(view), false, 6, 0);
    costs!(rt; asked, count(Bits::iter_ones(view)), 1, 6, 0);
    costs!(rt; asked, BitsExt::first_one(view), Some(451), 7, 0);
    costs!(rt; asked, Bits::test_bit(view, 451), true, 1, 0);
}

// Reads a view of the bits 130 to 450, none of which is set. A search stops at the end of the
// range.
fn ask_empty_range<V: Bits>(rt: &impl Abort, view: &V, asked: &Asked)
    requires { ShapeFits V.Shape view.now }
{
    costs!(rt; asked, Bits::all_zeros(view), true, 6, 0);
    costs!(rt; asked, BitsExt::next_one(view, 130), None, 6, 0);
    costs!(rt; asked, BitsExt::last_one(view), None, 7, 0);
}

#[test]
fn a_view_of_a_range_fetches_the_words_of_the_range(rt: HostRuntime) {
    read_rows(&rt, Walk::RangeViews);
}

// Reads views of the intersection of a set with a second set, and with an empty set.
fn view_conjunction<A: Bits, B: Bits>(rt: &impl Abort, left: &A, right: &B, none: &B, asked: &Asked)
    requires left { ShapeFits A.Shape left.now }
    requires right { ShapeFits B.Shape right.now }
    requires none { ShapeFits B.Shape none.now }
{
    costs!(rt; asked, left.and(right).count_ones(), 1, 24, 0);
    costs!(rt; asked, left.and(none).all_zeros(), true, 24, 0);
}

// Reads a view of the members that only the first of two sets has.
fn view_difference<A: Bits, B: Bits>(rt: &impl Abort, left: &A, right: &B, asked: &Asked)
    requires left { ShapeFits A.Shape left.now }
    requires right { ShapeFits B.Shape right.now }
{
    costs!(rt; asked, count(left.minus(right).iter_ones()), 1, 24, 0);
}

// Reads a view of the union of two sets.
fn view_union<A: Bits, B: Bits + Shape<LeafWord = A::LeafWord>>(
    rt: &impl Abort,
    left: &A,
    right: &B,
    asked: &Asked,
)
    requires left { ShapeFits A.Shape left.now }
    requires right { ShapeFits B.Shape right.now }
{
    costs!(rt; asked, count_back(left.or(right).iter_ones()), 2, 24, 0);
}

// Reads a view of the members that just one of two sets has.
fn view_symmetric_difference<A: Bits, B: Bits + Shape<LeafWord = A::LeafWord>>(
    rt: &impl Abort,
    left: &A,
    right: &B,
    asked: &Asked,
)
    requires left { ShapeFits A.Shape left.now }
    requires right { ShapeFits B.Shape right.now }
{
    ask_difference(rt, &left.xor(right), asked);
}

// Reads a view in which only bit 508 is set.
fn ask_difference<V: Bits>(rt: &impl Abort, view: &V, asked: &Asked)
    requires { ShapeFits V.Shape view.now }
{
    costs!(rt; asked, BitsExt::first_one(view), Some(508), 16, 0);
    costs!(rt; asked, Bits::test_bit(view, 508), true, 2, 0);
}

#[test]
fn a_view_of_two_sets_of_like_words_fetches_each_word_of_both_once(rt: HostRuntime) {
    read_rows(&rt, Walk::TwoSets);
}
