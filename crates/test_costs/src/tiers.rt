//! Tests how many words a set with a summary fetches from its map, which is the set that it wraps.
//! The summary shows which words have a bit of one kind: either set or unset. Most of the other
//! words are skipped.

ghost use Rattle.std.specs.Prelude.{IsTrue};
ghost use Rattle.bittle.specs.Values.{ShapeFits};

use crate::asked::{Asked, counts};
use crate::checks::{holds, same};
use crate::probe::{ONES, Probe, ZEROS};
use crate::walked::{count_ones, count_zeros};
use bit_pages::Pages;
use bittle::{BigEndian, Bits, BitsOwned, LittleEndian, Set, Shape};
use bittle_ext::{BitsExt, BitsRangeExt, BitsRelationExt, BitsViewExt};
use bittle_tiers::{Ones, Tiered, Zeros};
use std::process::Abort;

// Takes page 0 and page 31. Then no page is free. When the allocator was made, one call counted the
// taken pages.
fn take_two<B: BitsOwned>(rt: &impl Abort, mut pages: Pages<B>, asked: &Asked) {
    let made = asked.fetches();

    // Page 0 is free. The search fetches the first word, and the update of the summary fetches it
    // again.
    same!(*rt; pages.take(), Some(0));
    counts!(*rt; asked since made, 2, 2);

    // Now only page 31 is free. The search fetches the first and the last word, and skips the two
    // between. The update of the summary fetches the last word again.
    same!(*rt; pages.take(), Some(31));
    counts!(*rt; asked since made, 5, 3);

    // Now no page is free. The allocator knows this from its count of taken pages.
    same!(*rt; pages.take(), None);
    counts!(*rt; asked since made, 5, 3);
}

// Takes pages of a map of four words. Its summary shows which words have an unset bit.
fn take_two_of_map<B: BitsOwned>(rt: &impl Abort, map: B, asked: &Asked)
    requires { IsTrue ⟦<Tiered<B, u8, Zeros> as Shape>⟧.indexable }
{
    let map = Tiered::<B, u8, Zeros>::new(map);
    // Each of the four words was fetched once to make the summary.
    counts!(*rt; asked, 4, 0);
    take_two(rt, Pages::with_taken(map), asked);
}

#[test]
fn full_words_are_passed_over(rt: HostRuntime) {
    let asked = Asked::new();
    take_two_of_map(&rt, Probe::of(ZEROS, &asked), &asked);
}

// The calls that are made on one or two sets with a summary.
#[derive(Drop)]
enum Question {
    Iterators,
    Searches,
    ChangeOfBit,
    TwoSets,
    Common(usize),
    Relations,
    Views,
    Runs,
    RunWalks,
}

// Makes the calls of a question, and tests what they return. The members of `one` are 0 and 31.
fn ask<B: BitsOwned>(rt: &impl Abort, question: Question, one: B, other: B, asked: &Asked)
    requires { IsTrue B.indexable }
{
    match question {
        Question::Iterators => same!(*rt; count_of_set(one), (2, 2)),
        Question::Searches => search_both_ends(rt, &one, asked),
        Question::ChangeOfBit => change_bit(rt, one, asked),
        Question::TwoSets => same!(*rt; count_both_and_alone(&one, &other), (0, 2)),
        Question::Common(wanted) => same!(*rt; count_ones(&one.and(&other)), wanted),
        Question::Relations => same!(*rt; relate(&one, &other), (false, false)),
        Question::Views => count_in_views(rt, &one),
        Question::Runs => look_for_runs(rt, &one),
        Question::RunWalks => same!(*rt; count_runs(&one), (2, 2)),
    }
}

// Makes two sets with summaries, and then makes the calls of a question on them. `wanted` is how
// many words these calls should fetch from the first map and from the second map, and how many
// other calls they should make to the first map. The second map should get no other call.
fn ask_tiers<B: BitsOwned, S: BitsOwned>(
    rt: &impl Abort,
    question: Question,
    one: B,
    ours: &Asked,
    other: B,
    theirs: &Asked,
    wanted: (u32, u32, u32),
)
    requires { IsTrue ⟦<Tiered<B, S, Ones> as Shape>⟧.indexable }
{
    let one = Tiered::<B, S, Ones>::new(one);
    let other = Tiered::<B, S, Ones>::new(other);
    let (of_ours, of_theirs) = (ours.fetches(), theirs.fetches());
    ask(rt, question, one, other, ours);
    counts!(*rt; ours since of_ours, wanted.0, wanted.2);
    counts!(*rt; theirs since of_theirs, wanted.1, 0);
}

// Does the same as `ask_tiers` for the maps of `ONES` and of `bytes`.
fn ask_ones(rt: &impl Abort, question: Question, bytes: [u8; 4], wanted: (u32, u32, u32)) {
    let (ours, theirs) = (Asked::new(), Asked::new());
    let (one, other) = (Probe::of(ONES, &ours), Probe::of(bytes, &theirs));
    ask_tiers::<Probe, u8>(rt, question, one, &ours, other, &theirs, wanted);
}

// Counts the set bits with two iterators: one stepped from the front, and one from the back.
fn count_from_both_ends<B: Bits>(set: &B) -> (usize, usize)
    requires { ShapeFits B.Shape set.now }
{
    (set.iter_ones().count(), set.iter_ones().rev().count())
}

// Does the same as `count_from_both_ends` for a `Set`.
fn count_of_set<B: BitsOwned>(bits: B) -> (usize, usize)
    requires { IsTrue B.indexable }
{
    count_from_both_ends(&Set::new(bits))
}

#[test]
fn an_iterator_passes_over_words_without_a_bit(rt: HostRuntime) {
    // Only the first and the last of four words have a set bit. The iterator from the front skips
    // word 2, and the iterator from the back skips word 1.
    ask_ones(&rt, Question::Iterators, [0; 4], (6, 0, 0));
}

// Searches for the first set bit from index 1 on, and for the last set bit below index 30. Then
// tests whether any bit is set, which fetches no word.
fn search_both_ends<B: Bits>(rt: &impl Abort, set: &B, asked: &Asked)
    requires { ShapeFits B.Shape set.now }
{
    let made = asked.fetches();
    let capacity = set.bits_capacity();
    same!(*rt; set.first_one_in::<BigEndian>(1.min(capacity), capacity), Some(31));
    same!(*rt; set.last_one_in::<BigEndian>(0, 30.min(capacity)), Some(0));
    counts!(*rt; asked since made, 4, 0);
    holds!(*rt; !set.all_zeros());
}

#[test]
fn a_search_reads_its_first_word_and_that_of_its_answer(rt: HostRuntime) {
    ask_ones(&rt, Question::Searches, [0; 4], (4, 0, 0));
}

// Sets a bit and clears it.
fn change_bit<B: BitsOwned>(rt: &impl Abort, mut set: B, asked: &Asked)
    requires { IsTrue B.indexable }
{
    let made = asked.fetches();

    // After a bit is set, its word has a set bit. So the summary is updated without a fetch.
    set.set_bit(9);
    counts!(*rt; asked since made, 0, 1);
    set.clear_bit(9);
}

#[test]
fn a_change_of_a_bit_is_a_call_and_at_most_a_word(rt: HostRuntime) {
    ask_ones(&rt, Question::ChangeOfBit, [0; 4], (1, 0, 2));
}

// Does the same as `count_from_both_ends` for a row of any two sets. For `[B; 2]` the calls are
// proved in less time than for the row of the test.
fn count_of_row<B: BitsOwned>(row: [B; 2]) -> (usize, usize)
    requires { IsTrue ⟦<[B; 2] as Shape>⟧.indexable }
{
    count_from_both_ends(&row)
}

// Does the same as `count_of_row` for two sets with summaries.
fn count_of_tiers<B: BitsOwned>(row: [Tiered<B, u8, Ones>; 2]) -> (usize, usize)
    requires { IsTrue ⟦<[Tiered<B, u8, Ones>; 2] as Shape>⟧.indexable }
{
    count_of_row(row)
}

#[test]
fn a_row_asks_its_elements(rt: HostRuntime) {
    let asked = Asked::new();
    let row = [
        Tiered::<Probe, u8, Ones>::new(Probe::of([0; 4], &asked)),
        Tiered::<Probe, u8, Ones>::new(Probe::of(ONES, &asked)),
    ];
    let made = asked.fetches();

    // Each iterator skips the four words of the first element, and one word of the second.
    same!(rt; count_of_tiers(row), (2, 2));
    counts!(rt; asked since made, 6, 0);
}

// Uses iterators to count the common members of two sets, and the members that only the first has.
fn count_both_and_alone<A: Bits, B: Bits>(left: &A, right: &B) -> (usize, usize)
    requires left { ShapeFits A.Shape left.now }
    requires right { ShapeFits B.Shape right.now }
{
    (count_ones(&left.and(right)), count_ones(&left.minus(right)))
}

#[test]
fn a_view_of_two_sets_passes_over_what_either_tells(rt: HostRuntime) {
    // Only word 2 of the second set has a set bit. So for the common members only word 2 of both
    // sets is fetched. For the members that only the first set has, words 0 and 3 of both sets are
    // fetched, and one word between them.
    ask_ones(&rt, Question::TwoSets, [0, 0, 4, 0], (4, 4, 0));
}

// Returns whether two sets have a common member, and whether the second has each member of the
// first.
fn relate<A: Bits, B: Bits>(left: &A, right: &B) -> (bool, bool)
    requires left { ShapeFits A.Shape left.now }
    requires right { ShapeFits B.Shape right.now }
{
    (left.intersects(right), left.is_subset(right))
}

#[test]
fn a_relation_passes_over_what_either_tells(rt: HostRuntime) {
    // The words 0 and 3 of the first set have a set bit, and word 2 of the second. Each call
    // fetches word 0 of both sets. For a common member that is all: no other word has a set bit in
    // both. For a member that only the first set has, word 0 decides.
    ask_ones(&rt, Question::Relations, [0, 0, 4, 0], (2, 2, 0));
}

// Uses an iterator to count the common members of the sets with the bytes `ONES` and `bytes`. The
// summary of each set has 64 bits. Tests the count, and how many words are fetched from each map.
fn ask_common(rt: &impl Abort, bytes: [u8; 4], common: usize, fetched: u32) {
    let (ours, theirs) = (Asked::new(), Asked::new());
    let (one, other) = (Probe::of(ONES, &ours), Probe::of(bytes, &theirs));
    let (question, wanted) = (Question::Common(common), (fetched, fetched, 0));
    ask_tiers::<Probe, u64>(rt, question, one, &ours, other, &theirs, wanted);
}

#[test]
fn a_conjunction_reads_words_that_both_summaries_have(rt: HostRuntime) {
    // Only the last word has a set bit in both sets. Only this word is fetched.
    ask_common(&rt, [0, 4, 0, 128], 1, 1);
    // The first word has a set bit in both sets too. Then the next and the last word are fetched.
    ask_common(&rt, [1, 4, 0, 128], 2, 3);
    // No word has a set bit in both sets.
    ask_common(&rt, [0, 4, 1, 0], 0, 0);
    // The first word has a set bit in both sets, but no common member.
    ask_common(&rt, [2, 0, 4, 0], 0, 1);
}

// Counts the items of iterators over three views of a set: the set bits from index 8 on, the unset
// bits of the complement, and the set bits in the order `LittleEndian`.
fn count_in_views<B: Bits>(rt: &impl Abort, set: &B)
    requires { ShapeFits B.Shape set.now }
{
    let capacity = set.bits_capacity();
    same!(*rt; count_ones(&set.within(8.min(capacity), capacity)), 1);
    same!(*rt; count_zeros(&set.complement_view()), 2);
    same!(*rt; count_ones(&set.in_order::<LittleEndian>()), 2);
}

#[test]
fn views_of_one_set_pass_over_what_it_tells(rt: HostRuntime) {
    // For the view from index 8 on, only the last word is fetched. For each other view the first
    // word, the one after it, and the last word are fetched.
    ask_ones(&rt, Question::Views, [0; 4], (7, 0, 0));
}

// Searches for a run of two set bits, and for a run of one set bit from index 1 on.
fn look_for_runs<B: Bits>(rt: &impl Abort, set: &B)
    requires { ShapeFits B.Shape set.now }
{
    same!(*rt; set.first_one_run(2), None);
    same!(*rt; set.next_one_run(1, 1), Some(31));
}

#[test]
fn a_run_is_looked_for_past_words_without_a_bit(rt: HostRuntime) {
    // Each call fetches the first and the last of the four words.
    ask_ones(&rt, Question::Runs, [0; 4], (4, 0, 0));
}

// Counts the runs of set bits with two iterators: one stepped from the front, and one from the
// back.
fn count_runs<B: Bits>(set: &B) -> (usize, usize)
    requires { ShapeFits B.Shape set.now }
{
    (
        set.iter_one_runs().count(),
        set.iter_one_runs().rev().count(),
    )
}

#[test]
fn an_iterator_over_runs_passes_over_words_without_a_bit(rt: HostRuntime) {
    // The first word is fetched once for its own edges. Words 1 and 3 are each fetched with the
    // word before. The iterator from the front skips word 2. The one from the back also reads word
    // 2 with the word before, since word 1 might end with a set bit. It tests one bit.
    ask_ones(&rt, Question::RunWalks, [0; 4], (12, 0, 1));
}
