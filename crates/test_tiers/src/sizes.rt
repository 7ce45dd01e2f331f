//! Tests the capacities of types of sets with a summary: types of the usual sizes, types whose
//! shape does not fit, and types of capacity 0.

ghost use Rattle.std.specs.Prelude.{IsTrue};

use crate::calls::{
    bits, capacity, ends_of_ones, ends_of_zeros, even, has, searches, whole, with, with_range,
    without,
};
use crate::checks::same;
use bittle::{BigEndian, BitsOwned, LittleEndian, Shape};
use bittle_tiers::{Kind, Ones, Tiered, Tiered4K, Tiered64K, Tiered256K, Zeros};
use std::process::Abort;

// The results of calls on a set of a usual size.
#[derive(Drop)]
struct Answers {
    bits: u32,
    capacity: u32,
    whole: (u32, bool, bool),
    ones: [Option<u32>; 2],
    zeros: [Option<u32>; 2],
}

// Returns the capacity that the type of a set gives, the capacity that the set itself gives, what
// calls on all bits return, the first and the last set bit, and the first and the last unset bit.
fn answers_of<B: BitsOwned>(set: &B) -> Answers
    requires { IsTrue B.indexable }
{
    Answers {
        bits: bits::<B>(),
        capacity: capacity(set),
        whole: whole(set),
        ones: ends_of_ones(set),
        zeros: ends_of_zeros(set),
    }
}

// Does the same as `answers_of` for a set with a summary.
fn answers_of_tier<B: BitsOwned, S: BitsOwned, K: Kind>(set: &Tiered<B, S, K>) -> Answers
    requires { IsTrue ⟦<Tiered<B, S, K> as Shape>⟧.indexable }
{
    answers_of(set)
}

// Does the same as `answers_of` for a set whose summary has a summary. The summary of the summary
// is of the kind `Ones`, whatever `K` is, since a search looks for the set bits of a summary.
fn answers_of_two_tiers<B: BitsOwned, S: BitsOwned, T: BitsOwned, K: Kind>(
    set: &Tiered<B, Tiered<S, T, Ones>, K>,
) -> Answers
    requires { IsTrue ⟦<Tiered<B, Tiered<S, T, Ones>, K> as Shape>⟧.indexable }
{
    answers_of_tier(set)
}

// Tests that the answers are those of an empty set of capacity `numbers`.
fn ask_empty(rt: &impl Abort, answers: &Answers, numbers: u32) {
    same!(*rt; answers.bits, numbers);
    same!(*rt; answers.capacity, numbers);
    same!(*rt; answers.whole, (0, true, false));
}

#[test]
fn the_usual_sizes(rt: HostRuntime) {
    // The default value of each type is the empty set.
    ask_empty(&rt, &answers_of_tier(&Tiered4K::<Ones>::default()), 4096);
    let answers = answers_of_two_tiers::<[u64; 1024], [u64; 16], u64, Zeros>(&Tiered64K::default());
    ask_empty(&rt, &answers, 65_536);
    ask_empty(
        &rt,
        &answers_of_two_tiers(&Tiered256K::<Ones>::default()),
        262_144,
    );
    // A set of each type can be made of a map.
    let mut words = [0u64; 64];
    words[62] = 4;
    let answers = answers_of_tier(&Tiered4K::<Ones>::from(words));
    same!(rt; answers.ones, [Some(3970), Some(3970)]);
    let answers = answers_of_two_tiers(&Tiered64K::<Zeros>::from([u64::MAX; 1024]));
    same!(rt; answers.zeros, [None, None]);
    let answers = answers_of_two_tiers(&Tiered256K::<Ones>::from([1; 4096]));
    same!(rt; answers.ones, [Some(0), Some(262_080)]);
}

// Returns the capacity of the sets of a type, and that of an empty array of such sets.
fn sizes<T: BitsOwned>() -> (u32, u32) {
    let none: [T; 0] = [];
    (bits::<T>(), capacity(&none))
}

// Does the same as `sizes` for sets with a summary.
fn tier_sizes<B: BitsOwned, S: BitsOwned, K: Kind>() -> (u32, u32) {
    sizes::<Tiered<B, S, K>>()
}

// Does the same as `tier_sizes` for summaries that have a summary themselves.
fn two_tier_sizes<B: BitsOwned, S: BitsOwned, T: BitsOwned, K: Kind>() -> (u32, u32) {
    tier_sizes::<B, Tiered<S, T, Ones>, K>()
}

// The result of `sizes` for a type whose shape does not fit.
const NO_FIT: (u32, u32) = (u32::MAX, u32::MAX);

#[test]
fn a_summary_that_is_too_small_is_told(rt: HostRuntime) {
    // A summary of one byte has a bit for each of eight words, but none for a ninth word.
    same!(rt; tier_sizes::<[u64; 8], u8, Ones>(), (512, 0));
    same!(rt; tier_sizes::<[u64; 9], u8, Ones>(), NO_FIT);
    same!(rt; two_tier_sizes::<[u64; 9], u8, u8, Zeros>(), NO_FIT);
    // Here the summary of the summary is too small.
    same!(rt; two_tier_sizes::<[u64; 8], [u8; 9], u8, Zeros>(), NO_FIT);
}

#[test]
fn a_part_that_does_not_fit_is_told(rt: HostRuntime) {
    same!(rt; tier_sizes::<[u64; 67_108_864], [u64; 1_048_576], Ones>(), NO_FIT);
    same!(rt; tier_sizes::<u8, [u64; 67_108_864], Ones>(), NO_FIT);
}

// Tries to set bit 5 of a set of capacity 0. Returns the capacity, whether bit 5 is set, what calls
// on all bits return, the first and the last set bit, and the first and the last unset bit.
fn asked_of_none<B: BitsOwned>() -> (u32, bool, (u32, bool, bool), [[Option<u32>; 2]; 2])
    requires { IsTrue B.indexable }
{
    let set = with::<B, BigEndian>(even(false), &[5]);
    let ends = [ends_of_ones(&set), ends_of_zeros(&set)];
    (capacity(&set), has(&set, 5), whole(&set), ends)
}

#[test]
fn a_set_without_numbers(rt: HostRuntime) {
    let (capacity, has_five, all, ends) = asked_of_none::<Tiered<[u64; 0], u8, Ones>>();
    same!(rt; (capacity, has_five, all), (0, false, (0, true, true)));
    same!(rt; ends, [[None; 2]; 2]);
}

// Tries to clear bit 1 of a set of capacity 0, and toggles an empty range. Returns what calls on
// all bits return, the first and the last unset bit, and what searches find.
fn changed_without_any<B: BitsOwned>() -> ((u32, bool, bool), [Option<u32>; 2], [Option<u32>; 4])
    requires { IsTrue B.indexable }
{
    let set = without(even::<B>(true), &[1]);
    let set = with_range::<B, LittleEndian>(set, 2, 0, 0);
    let found = searches::<B, LittleEndian>(&set, 0, 0);
    (whole(&set), ends_of_zeros(&set), found)
}

#[test]
fn neither_the_map_nor_the_summary_has_numbers(rt: HostRuntime) {
    let (all, ends, found) = changed_without_any::<Tiered<[u8; 0], [u8; 0], Zeros>>();
    same!(rt; all, (0, true, true));
    same!(rt; ends, [None; 2]);
    same!(rt; found, [None; 4]);
}
