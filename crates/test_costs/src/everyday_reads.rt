//! Tests of the costs of everyday calls that read one set. Most calls fetch each word once, from
//! the word where they begin up to the word that decides the result.
//!
//! The calls of several tests are in one function, since each function pays anew for its types.

use crate::asked::Asked;
use crate::probe_rows::{Reading, costs, read_rows};
use crate::walked::count_owned;
use bittle::Bits;
use bittle_ext::{BitsExt, BitsIndexExt, BitsRankExt, BitsSpanExt};
use std::process::Abort;

// Calls that find bits, or ask for one.
#[derive(Clone, Copy)]
enum Position {
    Ends,
    Neighbours,
    Select,
    OneBit,
}

impl Reading for Position {
    fn read<B: Bits>(
        self,
        rt: &impl Abort,
        few: &B,
        most: &B,
        _one: &B,
        _none: &B,
        low: &B,
        _lower: &B,
        asked: &Asked,
    ) {
        match self {
            Position::Ends => {
                costs!(rt; asked, few.first_one(), Some(451), 8, 0);
                costs!(rt; asked, few.last_one(), Some(508), 5, 0);
                costs!(rt; asked, most.first_zero(), Some(451), 8, 0);
                costs!(rt; asked, most.last_zero(), Some(508), 5, 0);
            }
            Position::Neighbours => {
                costs!(rt; asked, few.next_one(320), Some(451), 3, 0);
                costs!(rt; asked, few.next_one(768), None, 0, 0);
                costs!(rt; asked, few.prev_one(640), Some(508), 3, 0);
                costs!(rt; asked, most.next_zero(320), Some(451), 3, 0);
                costs!(rt; asked, most.next_zero(768), None, 0, 0);
                costs!(rt; asked, most.prev_zero(640), Some(508), 3, 0);
            }
            Position::Select => {
                costs!(rt; asked, few.select(1), Some(508), 9, 0);
                costs!(rt; asked, few.select(2), None, 12, 0);
                costs!(rt; asked, few.select_zero(451), Some(452), 9, 0);
                costs!(rt; asked, low.select(0), Some(0), 2, 0);
            }
            Position::OneBit => {
                costs!(rt; asked, few.contains_index(451), true, 0, 1);
                costs!(rt; asked, few.contains_index(768), false, 0, 0);
                costs!(rt; asked, few.get_bit(452), Some(false), 0, 1);
                costs!(rt; asked, few.get_bit(768), None, 0, 0);
            }
        }
    }
}

#[test]
fn ends_fetch_the_words_up_to_the_answer(rt: HostRuntime) {
    read_rows(&rt, Position::Ends);
}

#[test]
fn neighbours_fetch_the_words_up_to_the_answer(rt: HostRuntime) {
    read_rows(&rt, Position::Neighbours);
}

#[test]
fn select_fetches_up_to_its_word_and_then_that_word_again(rt: HostRuntime) {
    read_rows(&rt, Position::Select);
}

#[test]
fn an_index_that_does_not_wrap_asks_for_one_bit_or_nothing(rt: HostRuntime) {
    read_rows(&rt, Position::OneBit);
}

// Calls on a range.
#[derive(Clone, Copy)]
enum Range {
    Counts,
    Spans,
    AnyAndAll,
}

impl Reading for Range {
    fn read<B: Bits>(
        self,
        rt: &impl Abort,
        few: &B,
        most: &B,
        _one: &B,
        _none: &B,
        _low: &B,
        _lower: &B,
        asked: &Asked,
    ) {
        match self {
            Range::Counts => {
                costs!(rt; asked, few.rank(385), 0, 7, 0);
                costs!(rt; asked, few.rank(0), 0, 0, 0);
                costs!(rt; asked, few.rank_zero(385), 385, 7, 0);
                costs!(rt; asked, few.count_ones_in_range(130, 500), 1, 6, 0);
                costs!(rt; asked, few.count_zeros_in_range(130, 500), 369, 6, 0);
                costs!(rt; asked, few.count_zeros_in_range(130, 130), 0, 0, 0);
            }
            Range::Spans => {
                costs!(rt; asked, few.count_ones_in_span(130..500), 1, 6, 0);
                costs!(rt; asked, count_owned(few.iter_ones_in_span(130..500)), 1, 6, 0);
                costs!(rt; asked, few.first_one_in_span(130..768), Some(451), 6, 0);
                costs!(rt; asked, few.last_one_in_range(0, 640), Some(508), 3, 0);
                costs!(rt; asked, few.any_in_span(130..768), true, 6, 0);
                costs!(rt; asked, few.all_in_span(130..768), false, 1, 0);
            }
            Range::AnyAndAll => {
                costs!(rt; asked, few.any_in_range(130, 768), true, 6, 0);
                costs!(rt; asked, few.any_in_range(130, 451), false, 6, 0);
                costs!(rt; asked, most.all_in_range(130, 768), false, 6, 0);
                costs!(rt; asked, most.all_in_range(130, 451), true, 6, 0);
            }
        }
    }
}

#[test]
fn counts_of_a_range_fetch_its_words_once(rt: HostRuntime) {
    read_rows(&rt, Range::Counts);
}

#[test]
fn a_range_as_rust_writes_it_costs_what_its_two_numbers_cost(rt: HostRuntime) {
    read_rows(&rt, Range::Spans);
}

#[test]
fn questions_about_a_range_fetch_up_to_the_answer(rt: HostRuntime) {
    read_rows(&rt, Range::AnyAndAll);
}

// Searches for runs: for short runs of set bits and then of unset bits, and for longer runs.
#[derive(Clone, Copy)]
enum Run {
    Short,
    Longer,
}

impl Reading for Run {
    fn read<B: Bits>(
        self,
        rt: &impl Abort,
        few: &B,
        most: &B,
        _one: &B,
        _none: &B,
        _low: &B,
        _lower: &B,
        asked: &Asked,
    ) {
        match self {
            // No call fetches a word twice. A search from index 0 fetches eight words up to bit
            // 451, or all twelve words if no run has the wanted length.
            Run::Short => {
                costs!(rt; asked, few.first_one_run(1), Some(451), 8, 0);
                costs!(rt; asked, few.first_one_run(2), None, 12, 0);
                costs!(rt; asked, few.next_one_run(452, 1), Some(508), 1, 0);
                costs!(rt; asked, few.next_one_run(769, 1), None, 0, 0);
                // The bits 100 to 451 lie in words 1 to 7.
                costs!(rt; asked, few.first_one_run_in_range(100, 700, 1), Some(451), 7, 0);
                costs!(rt; asked, few.first_one_run_in_range(452, 508, 1), None, 1, 0);
                // The run of unset bits from 509 on begins with the last three bits of word 7. Its
                // first 57 bits end in word 8, and its first 256 bits end in word 11.
                costs!(rt; asked, most.first_zero_run(1), Some(451), 8, 0);
                costs!(rt; asked, most.first_zero_run(2), None, 12, 0);
                costs!(rt; asked, most.next_zero_run(452, 1), Some(508), 1, 0);
                costs!(rt; asked, most.next_zero_run(453, 0), Some(453), 0, 0);
                costs!(rt; asked, few.next_zero_run(452, 56), Some(452), 1, 0);
                costs!(rt; asked, few.next_zero_run(452, 57), Some(509), 2, 0);
                costs!(rt; asked, few.next_zero_run(452, 256), Some(509), 5, 0);
                costs!(rt; asked, most.first_zero_run_in_range(100, 700, 1), Some(451), 7, 0);
            }
            // A search from the front finds where a run may begin. Then a search from the back
            // finds whether a bit of the other kind breaks the run.
            Run::Longer => {
                // Eight words are fetched up to bit 451. Then a search from the back fetches word
                // 11, and a search from the front fetches word 11 again.
                costs!(rt; asked, few.first_one_run(257), None, 10, 0);
                // Word 0 is fetched from the front, and words 4 to 0 from the back.
                costs!(rt; asked, few.first_zero_run(257), Some(0), 6, 0);
                // From 452 on, word 7 is fetched from the front, and words 11 to 7 from the back.
                // Bit 508 breaks the run. From 509 on, the same words are fetched again.
                costs!(rt; asked, few.next_zero_run(452, 257), Some(509), 12, 0);
                // Word 4 is fetched from the front, words 8 and 7 from the back, and word 7 from
                // the front. The rest of the range is then too short.
                costs!(rt; asked, few.first_zero_run_in_range(300, 600, 257), None, 4, 0);
            }
        }
    }
}

#[test]
fn runs_of_up_to_four_words_fetch_each_word_once(rt: HostRuntime) {
    read_rows(&rt, Run::Short);
}

#[test]
fn longer_runs_fetch_twice_for_each_shorter_run(rt: HostRuntime) {
    read_rows(&rt, Run::Longer);
}
