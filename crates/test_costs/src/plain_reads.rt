//! Tests of the costs of basic calls that read a set. Counts and iterators read each word once.
//! Searches and tests of all bits read the words up to those that decide the result.

ghost use Rattle.std.specs.Prelude.{◌≤◌, IsTrue};
ghost use Rattle.bittle.specs.Values.{ShapeFits};

use crate::asked::Asked;
use crate::probe_rows::{Measured, costs, measure_rows};
use crate::walked::{count, count_owned, count_owned_back, next_joined};
use crate::word_probe::WordProbe;
use bittle::join::JoinOnes;
use bittle::{BigEndian, Bits, BitsOwned, DefaultEndian, LittleEndian, Set};
use bittle_ext::BitsRangeExt;
use bittle_ext::run_iterators::IterOneRuns;
use std::cmp::Ordering;
use std::hash::{DefaultHasher, Hash};
use std::ops::Range;
use std::process::Abort;

// The calls that read the rows.
#[derive(Drop)]
enum Question {
    Counts,
    Searches,
    Iterators,
    Comparisons,
}

impl Measured for Question {
    fn measure<B: BitsOwned>(
        self,
        rt: &impl Abort,
        few: B,
        most: B,
        _one: B,
        _none: B,
        low: B,
        _lower: B,
        asked: &Asked,
    ) {
        match self {
            Question::Counts => count_all(rt, &few, asked),
            Question::Searches => search(rt, &few, &most, asked),
            Question::Iterators => {
                iterate(rt, &few, asked);
                iterate_owned(rt, few, asked);
                join(rt, &few, asked);
                name_type(&few);
            }
            Question::Comparisons => compare(rt, few, few, low, asked),
        }
    }
}

fn count_all<B: Bits>(rt: &impl Abort, few: &B, asked: &Asked)
    requires { ShapeFits B.Shape few.now }
{
    costs!(rt; asked, few.count_ones(), 2, 0, 12);
    costs!(rt; asked, few.count_zeros(), 766, 0, 12);
    costs!(rt; asked, few.test_bit(451), true, 0, 1);
    costs!(rt; asked, few.bits_capacity(), 768, 0, 0);
}

#[test]
fn a_count_asks_each_word_once_and_a_test_one(rt: HostRuntime) {
    measure_rows(&rt, Question::Counts);
}

// Word 9 decides. The first word is tested by itself, and then words 0 to 7 and words 8 to 15.
fn question_all<B: Bits>(rt: &impl Abort, long: &B, long_most: &B, asked: &Asked) {
    costs!(rt; asked, long.all_zeros(), false, 0, 17);
    costs!(rt; asked, long_most.all_ones(), false, 0, 17);
}

// Returns a row of 24 words. Word 9 is `word`, and each other word is `rest`.
fn long_row_of(rest: u64, word: u64, asked: &Asked) -> [WordProbe<'_>; 24] {
    let mut row = [WordProbe::of(rest, asked); 24];
    row[9] = WordProbe::of(word, asked);
    row
}

// Does the same as `question_all` for rows of any element type. For `[T; 24]` the calls are proved
// in less time than for `[WordProbe; 24]`.
fn question_any_rows<T: BitsOwned>(
    rt: &impl Abort,
    long: &[T; 24],
    long_most: &[T; 24],
    asked: &Asked,
) {
    question_all(rt, long, long_most, asked);
}

#[test]
fn a_question_about_all_bits_asks_up_to_the_eight_words_that_decide(rt: HostRuntime) {
    let asked = Asked::new();
    let (long, long_most) = (long_row_of(0, 1, &asked), long_row_of(!0, 1, &asked));
    question_any_rows(&rt, &long, &long_most, &asked);
}

fn search<B: Bits>(rt: &impl Abort, few: &B, most: &B, asked: &Asked)
    requires few { ShapeFits B.Shape few.now }
    requires most { ShapeFits B.Shape most.now }
    requires few_long { 768 ≤ (B.big few.now).capacity }
    requires most_long { 768 ≤ (B.big most.now).capacity }
{
    costs!(rt; asked, few.first_one_in::<BigEndian>(320, 768), Some(451), 3, 0);
    costs!(rt; asked, few.last_one_in::<BigEndian>(0, 640), Some(508), 3, 0);
    costs!(rt; asked, most.first_zero_in::<BigEndian>(320, 768), Some(451), 3, 0);
    costs!(rt; asked, most.last_zero_in::<BigEndian>(0, 640), Some(508), 3, 0);
    costs!(rt; asked, few.count_ones_in_range_in::<BigEndian>(130, 500), 1, 6, 0);
    costs!(rt; asked, few.count_ones_in_range_in::<LittleEndian>(130, 500), 1, 6, 0);
}

#[test]
fn searches_fetch_the_words_up_to_the_answer(rt: HostRuntime) {
    measure_rows(&rt, Question::Searches);
}

// Counts the items of iterators over a borrowed set.
fn iterate<B: Bits>(rt: &impl Abort, few: &B, asked: &Asked)
    requires { ShapeFits B.Shape few.now }
{
    costs!(rt; asked, count(few.iter_ones()), 2, 12, 0);
    costs!(rt; asked, count(few.iter_zeros()), 766, 12, 0);
}

// Counts the items of iterators over an owned set.
fn iterate_owned<B: BitsOwned>(rt: &impl Abort, few: B, asked: &Asked)
    requires { IsTrue B.indexable }
{
    costs!(rt; asked, count_owned(few.into_iter_ones()), 2, 12, 0);
    costs!(rt; asked, count_owned_back(few.into_iter_zeros()), 766, 12, 0);
}

// Joins the members of a set with the numbers 0 to 767, and steps the join to its end.
fn join<B: Bits>(rt: &impl Abort, few: &B, asked: &Asked)
    requires { ShapeFits B.Shape few.now }
{
    costs!(rt; asked, third_of(few.join_ones(0u32..768)), None, 12, 0);
}

// Returns the third item of a join.
fn third_of<B: Bits>(mut join: JoinOnes<'_, B, DefaultEndian, Range<u32>>) -> Option<u32> {
    let _ = next_joined(&mut join);
    let _ = next_joined(&mut join);
    next_joined(&mut join)
}

// Names the type of an iterator over runs by its public path in the crate `bittle_ext`.
fn name_type<B: Bits>(few: &B)
    requires { ShapeFits B.Shape few.now }
{
    let _runs: IterOneRuns<'_, B, B::Order> = few.iter_one_runs();
}

#[test]
fn an_iterator_fetches_each_word_once(rt: HostRuntime) {
    measure_rows(&rt, Question::Iterators);
}

// The set `low` differs from the other two in the first word. Four words of each set are fetched
// for one test. Then the first word of each is fetched again to find the index of the difference.
fn compare<B: Bits>(rt: &impl Abort, left: B, right: B, low: B, asked: &Asked)
    requires left { ShapeFits B.Shape left }
    requires right { ShapeFits B.Shape right }
    requires low { ShapeFits B.Shape low }
{
    let set = Set::new(left);
    costs!(rt; asked, set.eq_bits(&right), true, 24, 0);
    costs!(rt; asked, set.eq_bits(&low), false, 10, 0);
    // Index 0 decides, since only `low` has it. From the left set the word of index 0 is fetched
    // again, and then the eight words up to the first member.
    costs!(rt; asked, set.cmp_bits(&low), Ordering::Greater, 19, 0);
    costs!(rt; asked, set.hash(&mut DefaultHasher::new()), (), 12, 0);
}

#[test]
fn a_comparison_fetches_both_up_to_the_words_that_decide(rt: HostRuntime) {
    measure_rows(&rt, Question::Comparisons);
}
