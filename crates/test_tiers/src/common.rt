//! Tests the common members of two random sets against a list that a plain loop makes.

ghost use Rattle.std.specs.Prelude.{IsTrue};
ghost use Rattle.bittle.specs.Values.{ShapeFits};

use crate::checks::same;
use crate::flags::draw;
use bittle::walk::Iter;
use bittle::{Bits, BitsMut, BitsOwned, Endian, Shape};
use bittle_ext::BitsViewExt;
use bittle_tiers::{Kind, Ones, Tiered};
use std::process::Abort;

// The common members of two sets, in increasing order. Their number is `many`.
#[derive(Drop)]
struct Common {
    items: [u32; 40],
    many: u32,
}

impl Common {
    // Appends a number, which should be greater than those in the list. A full list stays as it is.
    fn add(&mut self, item: u32) {
        if let Some(place) = self.items.get_mut(self.many as usize) {
            *place = item;
            self.many = self.many.saturating_add(1);
        }
    }

    // Returns the number at a place of the list, or `None` past its end.
    fn at(&self, place: u32) -> Option<u32> {
        if place < self.many {
            self.items.get(place as usize).copied()
        } else {
            None
        }
    }
}

// Returns a random distance to the next number: 1 to 7, exactly 64 (one word), 1 to 4,096 (64
// words), or 1 to `most`.
fn draw_gap(state: &mut u32, most: u32) -> u32 {
    let kind = draw(state) % 4;
    let any = draw(state);
    match kind {
        0 => 1 + any % 7,
        1 => 64,
        2 => 1 + any % 4096,
        _ => 1 + any % most.max(1),
    }
}

// Adds random numbers to two empty sets, each number to one of the sets or to both. Returns the
// common members.
fn draw_both<A: BitsMut, B: BitsMut, E: Endian, F: Endian>(
    state: &mut u32,
    one: &mut A,
    other: &mut B,
    numbers: u32,
) -> Common
    requires one { IsTrue A.indexable }
    requires other { IsTrue B.indexable }
{
    let mut common = Common {
        items: [0; 40],
        many: 0,
    };
    let mut number = draw(state) % 70;
    for _ in 0..40u32 {
        if number >= numbers {
            break;
        }
        let kind = draw(state) % 3;
        if kind != 0 {
            one.set_bit_in::<E>(number);
        }
        if kind != 1 {
            other.set_bit_in::<F>(number);
        }
        if kind == 2 {
            common.add(number);
        }
        number = number.saturating_add(draw_gap(state, numbers / 8));
    }
    common
}

// Steps an iterator until no item is left, each time at random from the front or from the back.
// Tests that the iterator yields the numbers of the list.
fn ask_steps<B: Bits, E: Endian, K: Kind>(
    rt: &impl Abort,
    state: &mut u32,
    mut walk: Iter<'_, B, E, K>,
    members: &Common,
) {
    let (mut low, mut high) = (0, members.many);
    for _ in 0..42u32 {
        if draw(state) % 2 == 0 {
            let expected = if low < high { members.at(low) } else { None };
            low = low.saturating_add(1).min(high);
            same!(*rt; walk.next(), expected);
        } else {
            let expected = if low < high {
                members.at(high.saturating_sub(1))
            } else {
                None
            };
            high = high.saturating_sub(1).max(low);
            same!(*rt; walk.next_back(), expected);
        }
    }
}

// Tests that the members of a set are the numbers of the list.
fn ask_members<B: Bits>(rt: &impl Abort, state: &mut u32, set: &B, members: &Common)
    requires { ShapeFits B.Shape set.now }
{
    ask_steps(rt, state, set.iter_ones(), members);
    same!(*rt; set.iter_ones().count(), members.many as usize);
}

// Tests that the common members of two sets are the numbers of the list.
fn ask_common<A: Bits, B: Bits>(
    rt: &impl Abort,
    state: &mut u32,
    one: &A,
    other: &B,
    common: &Common,
)
    requires one { ShapeFits A.Shape one.now }
    requires other { ShapeFits B.Shape other.now }
{
    ask_members(rt, state, &one.and(other), common);
}

// Makes `pairs` pairs of sets, which are random but determined by `seed`. Tests the common members
// of each pair.
fn agree_on_common<A: BitsOwned, B: BitsOwned>(rt: &impl Abort, seed: u32, pairs: u32)
    requires one { IsTrue A.indexable }
    requires other { IsTrue B.indexable }
{
    let mut state = seed;
    for _ in 0..pairs {
        let (mut one, mut other) = (A::zeros(), B::zeros());
        let numbers = A::bits().min(B::bits());
        let common = draw_both::<A, B, A::Order, B::Order>(
            &mut state, &mut one, &mut other, numbers,
        );
        ask_common(rt, &mut state, &one, &other, &common);
    }
}

// Does the same as `agree_on_common` for any set and a set with a summary. The prover needs less
// time for this generic type than for a usual size such as `Tiered4K`.
fn agree_on_any_and_tier<A: BitsOwned, B: BitsOwned, T: BitsOwned>(
    rt: &impl Abort,
    seed: u32,
    pairs: u32,
)
    requires one { IsTrue A.indexable }
    requires other { IsTrue ⟦<Tiered<B, T, Ones> as Shape>⟧.indexable }
{
    agree_on_common::<A, Tiered<B, T, Ones>>(rt, seed, pairs);
}

// Does the same as `agree_on_common` for two sets with summaries, which are of the same type.
fn agree_on_same_tiers<B: BitsOwned, S: BitsOwned>(rt: &impl Abort, seed: u32, pairs: u32)
    requires { IsTrue ⟦<Tiered<B, S, Ones> as Shape>⟧.indexable }
{
    agree_on_any_and_tier::<Tiered<B, S, Ones>, B, S>(rt, seed, pairs);
}

// Does the same as `agree_on_same_tiers` for summaries that have summaries themselves.
fn agree_on_two_tiers<B: BitsOwned, S: BitsOwned, T: BitsOwned>(
    rt: &impl Abort,
    seed: u32,
    pairs: u32,
)
    requires { IsTrue ⟦<Tiered<B, Tiered<S, T, Ones>, Ones> as Shape>⟧.indexable }
{
    agree_on_same_tiers::<B, Tiered<S, T, Ones>>(rt, seed, pairs);
}

// The types in the next two tests are the parts of `Tiered4K` and of `Tiered64K`.

#[test]
fn of_one_group_of_words(rt: HostRuntime) {
    agree_on_same_tiers::<[u64; 64], u64>(&rt, 1, 20);
}

#[test]
fn of_two_levels_of_groups(rt: HostRuntime) {
    agree_on_two_tiers::<[u64; 1024], [u64; 16], u64>(&rt, 2, 20);
}

// Only a set whose summary has words of 64 bits knows which groups of its own words are empty. Here
// the first set does not know this, because it has no summary.
#[test]
fn of_a_set_that_tells_of_no_group(rt: HostRuntime) {
    agree_on_any_and_tier::<[u64; 64], [u64; 64], u64>(&rt, 9, 10);
}

// Counts the members of a set from the front and from the back. Returns the greater count.
fn count_from_both_ends<B: Bits>(set: &B) -> usize
    requires { ShapeFits B.Shape set.now }
{
    let front = set.iter_ones().count();
    front.max(set.iter_ones().rev().count())
}

// Counts the common members of two sets.
fn count_common<B: Bits>(one: &B, other: &B) -> usize
    requires one { ShapeFits B.Shape one.now }
    requires other { ShapeFits B.Shape other.now }
{
    count_from_both_ends(&one.and(other))
}

// Counts the common members of the full set and itself, and those of the full set and `part`.
fn count_with_full<B: BitsOwned>(part: B) -> [usize; 2]
    requires { IsTrue B.indexable }
{
    let all = B::ones();
    [count_common(&all, &all), count_common(&all, &part)]
}

// Does the same as `count_with_full` for the set with a summary that `new` makes of `map`.
fn count_map_with_full<B: BitsOwned, S: BitsOwned>(map: B) -> [usize; 2]
    requires { IsTrue ⟦<Tiered<B, S, Ones> as Shape>⟧.indexable }
{
    count_with_full(Tiered::<B, S, Ones>::new(map))
}

// In the summary of the full set that `ones` returns, the bits that stand for no word of the map
// are set too.
#[test]
fn of_full_sets(rt: HostRuntime) {
    let counts = count_map_with_full::<[u64; 5], u64>([0, 2, 0, 0, 1]);
    same!(rt; counts, [320, 2]);
}
