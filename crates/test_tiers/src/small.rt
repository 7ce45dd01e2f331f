//! Tests sets of 24 bits with a summary: they are wrapped, compared, changed, searched and
//! printed.

ghost use Rattle.std.specs.Prelude.{IsTrue};
ghost use Rattle.bittle.specs.Values.{ShapeFits};

use crate::calls::{
    ends_of_ones, even, first_runs, has, searches, whole, with, with_range, without,
};
use crate::checks::same;
use bittle::{BigEndian, Bits, BitsOwned, LittleEndian, Set, Shape};
use bittle_tiers::{Kind, Ones, Tiered, Zeros};
use std::alloc::{AllocError, Global};
use std::fmt::Debug;
use std::process::Abort;
use std::test::Fail;

// The choice of the tests that `ask_set` makes.
#[derive(Drop)]
enum Question {
    Ends,
    Equality,
    Ranges,
    Runs,
    Operations,
    PastTheCapacity,
}

// Makes the tests of a question on two sets. For `Ranges` and `PastTheCapacity`, returns the set
// that the tests make, else the first set.
fn ask_set<B: BitsOwned>(rt: &impl Abort, question: Question, set: B, other: B) -> B
    requires { IsTrue B.indexable }
{
    match question {
        Question::Ends => same!(*rt; ends_of_ones(&set), [Some(8), Some(8)]),
        Question::Equality => ask_equality(rt, set, other),
        Question::Ranges => return after_ranges(rt),
        Question::Runs => {
            ask_for_runs_of_ones(rt, &set);
            ask_for_runs_of_zeros(rt, &other);
        }
        Question::Operations => ask_operations(rt, set, other),
        Question::PastTheCapacity => return with_two_past(rt),
    }
    set
}

// Does the same as `ask_set` for the sets with a summary that `new` makes of two maps. Returns the
// map of the set that `ask_set` returns: once as `map` lends it, and once as `into_map` returns it.
fn ask_tier<B: BitsOwned, S: BitsOwned, K: Kind>(
    rt: &impl Abort,
    question: Question,
    map: B,
    other: B,
) -> (B, B)
    requires { IsTrue ⟦<Tiered<B, S, K> as Shape>⟧.indexable }
{
    let (set, other) = (Tiered::<B, S, K>::new(map), Tiered::new(other));
    let set = ask_set(rt, question, set, other);
    (*set.map(), set.into_map())
}

// Does the same as `ask_tier` for maps of three bytes with summaries of one byte. A question that
// makes its own sets does not use the maps.
fn ask<K: Kind>(rt: &impl Abort, question: Question, maps: [[u8; 3]; 2]) -> ([u8; 3], [u8; 3]) {
    ask_tier::<[u8; 3], u8, K>(rt, question, maps[0], maps[1])
}

#[test]
fn a_map_is_wrapped_and_unwrapped(rt: HostRuntime) {
    let (lent, unwrapped) = ask::<Ones>(&rt, Question::Ends, [[0, 1, 0]; 2]);
    same!(rt; lent[1], 1);
    same!(rt; unwrapped, [0, 1, 0]);
}

// Tests that the set with the only member 9 equals `nine` and differs from the empty set. Tests
// that this set without 9 equals the empty set, and that the full set equals `full`.
fn ask_equality<B: BitsOwned>(rt: &impl Abort, nine: B, full: B)
    requires { IsTrue B.indexable }
{
    let set = with::<B, BigEndian>(even(false), &[9]);
    let answers = [
        set == nine,
        set != even(false),
        without(set, &[9]) == even(false),
        even::<B>(true) == full,
    ];
    same!(*rt; answers, [true; 4]);
}

#[test]
fn sets_are_equal_by_their_maps(rt: HostRuntime) {
    // In the summary of the full set that `ones` returns, bits that stand for no word of the map
    // are set. In the summary that `new` makes of a full map, these bits are unset.
    ask::<Ones>(&rt, Question::Equality, [[0, 2, 0], [255; 3]]);
}

// Sets a range of an empty set, and tests what searches find. In a copy, clears the range except
// its last bit, and tests that only this bit is set. Toggles this bit in the order `LittleEndian`,
// and tests that the copy is then empty. Returns the first set, in which the whole range is set.
fn after_ranges<B: BitsOwned>(rt: &impl Abort) -> B
    requires { IsTrue B.indexable }
{
    let first = with_range::<B, BigEndian>(even(false), 0, 6, 18);
    let found = searches::<B, BigEndian>(&first, 0, 24);
    same!(*rt; found, [Some(6), Some(17), Some(0), Some(23)]);
    let second = with_range::<B, BigEndian>(first, 1, 6, 17);
    same!(*rt; ends_of_ones(&second), [Some(17), Some(17)]);
    // In the order `LittleEndian`, index 22 is bit 1 of the last byte, the only set bit.
    let third = with_range::<B, LittleEndian>(second, 2, 22, 23);
    same!(*rt; whole(&third), (0, true, false));
    first
}

#[test]
fn a_range_across_words(rt: HostRuntime) {
    let (_lent, unwrapped) = ask::<Ones>(&rt, Question::Ranges, [[0; 3]; 2]);
    same!(rt; unwrapped, [0xC0, 0xFF, 0x03]);
}

// Tests where the first runs begin in the set with the members 7, 16 and 17. The byte between 7 and
// 16 has no set bit, so a search for set bits can skip it, and no run of set bits crosses it.
fn ask_for_runs_of_ones<B: Bits>(rt: &impl Abort, set: &B)
    requires { ShapeFits B.Shape set.now }
{
    same!(*rt; first_runs(set, 1), [Some(7), Some(0)]);
    same!(*rt; first_runs(set, 2), [Some(16), Some(0)]);
    same!(*rt; first_runs(set, 3), [None, Some(0)]);
    same!(*rt; first_runs(set, 8), [None, Some(8)]);
}

// Tests where the first runs begin in the set of all numbers but 7, 16 and 17.
fn ask_for_runs_of_zeros<B: Bits>(rt: &impl Abort, set: &B)
    requires { ShapeFits B.Shape set.now }
{
    same!(*rt; first_runs(set, 2), [Some(0), Some(16)]);
    same!(*rt; first_runs(set, 3), [Some(0), None]);
    same!(*rt; first_runs(set, 8), [Some(8), None]);
}

#[test]
fn runs_about_a_word_that_is_passed_over(rt: HostRuntime) {
    let maps = [[0x80, 0, 0x03], [0x7F, 0xFF, 0xFC]];
    ask::<Ones>(&rt, Question::Runs, maps);
    ask::<Zeros>(&rt, Question::Runs, maps);
}

// Combines two sets by each of four operations. Tests the first and the last member of each result.
fn ask_operations<B: BitsOwned>(rt: &impl Abort, one: B, other: B)
    requires { IsTrue B.indexable }
{
    same!(*rt; ends_of_ones(&one.union(other)), [Some(0), Some(23)]);
    same!(*rt; ends_of_ones(&one.conjunction(other)), [Some(0), Some(0)]);
    same!(*rt; ends_of_ones(&one.difference(other)), [None, None]);
    same!(*rt; ends_of_ones(&one.symmetric_difference(other)), [Some(23), Some(23)]);
}

#[test]
fn operations_on_two_sets(rt: HostRuntime) {
    ask::<Ones>(&rt, Question::Operations, [[1, 0, 0], [1, 0, 128]]);
}

// Clears the only two members of a set: bit 9 by index 57, which wraps at the capacity of 24, and
// bit 8. Tests that the set is then empty.
fn ask_without_both<B: BitsOwned>(rt: &impl Abort, set: B)
    requires { IsTrue B.indexable }
{
    let set = without(set, &[48 + 9, 8]);
    same!(*rt; whole(&set), (0, true, false));
    same!(*rt; ends_of_ones(&set), [None, None]);
}

// Sets bits 9 and 8 of an empty set, by indexes that wrap at the capacity of 24. Returns this set.
fn with_two_past<B: BitsOwned>(rt: &impl Abort) -> B
    requires { IsTrue B.indexable }
{
    let set = with::<B, BigEndian>(even(false), &[24 + 9]);
    same!(*rt; has(&set, 9), true);
    same!(*rt; ends_of_ones(&set), [Some(9), Some(9)]);
    // 4,294,967,295 wraps to 15. In the order `LittleEndian` this is the bit that has index 8 in
    // the order `BigEndian`.
    let set = with::<B, LittleEndian>(set, &[u32::MAX]);
    ask_without_both(rt, set);
    set
}

#[test]
fn an_index_past_the_capacity_wraps(rt: HostRuntime) {
    let (_lent, unwrapped) = ask::<Ones>(&rt, Question::PastTheCapacity, [[0; 3]; 2]);
    same!(rt; unwrapped, [0, 3, 0]);
}

// Tests the debug text of a value, without and with the flag `#`.
fn reads<S: Debug>(
    rt: &impl Abort,
    alloc: Global,
    value: &S,
    text: &str,
) -> Result<(), AllocError> {
    same!(*rt; format!(in alloc; "{value:?}")?.as_str(), text);
    same!(*rt; format!(in alloc; "{value:#?}")?.as_str(), text);
    Ok(())
}

// Tests the debug text of a set with a summary, in the order of its map, and in the order
// `LittleEndian`.
fn tier_reads<B: BitsOwned, S: BitsOwned>(
    rt: &impl Abort,
    alloc: Global,
    map: B,
    text: &str,
    from_the_left: &str,
) -> Result<(), AllocError>
    requires { IsTrue ⟦<Tiered<B, S, Ones> as Shape>⟧.indexable }
{
    let set = Tiered::<B, S, Ones>::new(map);
    reads(rt, alloc, &set, text)?;
    reads(
        rt,
        alloc,
        &Set::<Tiered<B, S, Ones>, LittleEndian>::new_in(set),
        from_the_left,
    )
}

#[test]
fn the_text_lists_the_indexes(rt: HostRuntime) -> Result<(), Fail> {
    let map = [3, 0, 128];
    tier_reads::<[u8; 3], u8>(&rt, rt.alloc(), map, "{0, 1, 23}", "{6, 7, 16}")?;
    let map = Set::<[u8; 3], LittleEndian>::new_in(map);
    tier_reads::<_, u8>(&rt, rt.alloc(), map, "{6, 7, 16}", "{6, 7, 16}")?;
    Ok(())
}
