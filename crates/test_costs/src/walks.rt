//! Tests that iterators and joins fetch each word of their set at most once.

ghost use Rattle.std.specs.Prelude.{◌*◌, length, IsTrue};
ghost use Rattle.bittle.specs.Shapes.{Fits};
ghost use Rattle.bittle.specs.Values.{ShapeFits};

use crate::asked::Asked;
use crate::checks::{holds, same};
use crate::probe::{ONES, Probe, ZEROS};
use crate::walked::{next, next_joined};
use bittle::replay::{Step, replay_walk};
use bittle::{BigEndian, Bits, BitsOwned, Endian, Shape};
use bittle_bits::extension::{Kind, ReadWords};
use bittle_bits::walk::{IntoIter, Iter};
use std::alloc::AllocError;
use std::ops::Range;
use std::process::Abort;

// A step, the item that it should yield, and how many words at most may have been fetched after it.
type Stepped = (Step, Option<u32>, u32);

// Returns whether a step of a walk yields the expected item. Returns `false` also if more words
// than allowed have been fetched, or if a call other than a fetch was made.
fn answers<W: DoubleEndedIterator<Item = u32>>(
    walk: &mut W,
    asked: &Asked,
    stepped: Stepped,
) -> bool
    requires front { (w : W) → W.can_next w }
    requires back { (w : W) → W.can_next_back w }
{
    let (step, item, words) = stepped;
    let found = match step {
        Step::Front => walk.next(),
        Step::Back => walk.next_back(),
    };
    found == item && asked.is_at_most(words)
}

// Returns whether each of four steps of a walk passes `answers`.
fn answers_each<W: DoubleEndedIterator<Item = u32> + Drop>(
    mut walk: W,
    asked: &Asked,
    steps: [Stepped; 4],
) -> bool
    requires front { (w : W) → W.can_next w }
    requires back { (w : W) → W.can_next_back w }
{
    let [first, second, third, fourth] = steps;
    answers(&mut walk, asked, first)
        && answers(&mut walk, asked, second)
        && answers(&mut walk, asked, third)
        && answers(&mut walk, asked, fourth)
}

// Clones a walk after its first step, and steps both to the end. Returns whether cloning fetches no
// word, and whether both then fetch each of the three words that are left once.
fn clones_frugally<W: DoubleEndedIterator<Item = u32> + Clone + Drop>(
    mut walk: W,
    asked: &Asked,
) -> bool
    requires front { (w : W) → W.can_next w }
    requires back { (w : W) → W.can_next_back w }
{
    let mut good = answers(&mut walk, asked, (Step::Front, Some(0), 1));
    let other: Result<W, AllocError> = walk.clone();
    let Ok(mut other) = other else {
        return false;
    };
    good &= asked.is_at_most(1);
    good &= answers(&mut other, asked, (Step::Back, Some(31), 2));
    good &= answers(&mut other, asked, (Step::Front, None, 4));
    good &= answers(&mut other, asked, (Step::Back, None, 4));
    good &= answers(&mut walk, asked, (Step::Front, Some(31), 7));
    good &= answers(&mut walk, asked, (Step::Back, None, 7));
    good && answers(&mut walk, asked, (Step::Front, None, 7))
}

// Returns whether a clone of an iterator that was not stepped yet yields item 0, with at most one
// word fetched in all. An iterator over an array fetches this word at its start.
fn clones_for_nothing<W: Iterator<Item = u32> + Clone + Drop>(walk: W, asked: &Asked) -> bool
    requires front { (w : W) → W.can_next w }
{
    let cloned: Result<W, AllocError> = walk.clone();
    let Ok(mut other) = cloned else {
        return false;
    };
    asked.is_at_most(1) && other.next() == Some(0) && asked.is_at_most(1)
}

// What is tested of a walk: four steps, a clone after the first step, or a clone before it.
#[derive(Clone, Copy)]
enum Test {
    Steps([Stepped; 4]),
    LateClone,
    Clone,
}

// Returns whether a walk passes a test.
fn passes<W: DoubleEndedIterator<Item = u32> + Clone + Drop>(
    walk: W,
    asked: &Asked,
    test: Test,
) -> bool
    requires front { (w : W) → W.can_next w }
    requires back { (w : W) → W.can_next_back w }
{
    match test {
        Test::Steps(steps) => answers_each(walk, asked, steps),
        Test::LateClone => clones_frugally(walk, asked),
        Test::Clone => clones_for_nothing(walk, asked),
    }
}

// Returns whether an iterator over a borrowed set passes a test.
fn borrowed_passes<B: ReadWords, E: Endian, K: Kind>(
    walk: Iter<'_, B, E, K>,
    asked: &Asked,
    test: Test,
) -> bool {
    passes(walk, asked, test)
}

// Returns whether an iterator over an owned set passes a test.
fn owned_passes<B: ReadWords + Copy, E: Endian, K: Kind>(
    walk: IntoIter<B, E, K>,
    asked: &Asked,
    test: Test,
) -> bool {
    passes(walk, asked, test)
}

// The walks over a set. Each has the name of the call that returns it.
#[derive(Clone, Copy)]
enum Form {
    IterOnes,
    IterOnesBe,
    IterOnesLe,
    IterZerosBe,
    IterZerosLe,
    IntoIterOnes,
    IntoIterOnesBe,
    IntoIterOnesLe,
    IntoIterZerosBe,
    IntoIterZerosLe,
}

// Returns whether the walk that `form` names passes a test on a set.
fn walk_passes<B: BitsOwned>(form: Form, set: B, asked: &Asked, test: Test) -> bool
    requires { IsTrue B.indexable }
{
    match form {
        Form::IterOnes => borrowed_passes(set.iter_ones(), asked, test),
        Form::IterOnesBe => borrowed_passes(set.iter_ones_be(), asked, test),
        Form::IterOnesLe => borrowed_passes(set.iter_ones_le(), asked, test),
        Form::IterZerosBe => borrowed_passes(set.iter_zeros_be(), asked, test),
        Form::IterZerosLe => borrowed_passes(set.iter_zeros_le(), asked, test),
        Form::IntoIterOnes => owned_passes(set.into_iter_ones(), asked, test),
        Form::IntoIterOnesBe => owned_passes(set.into_iter_ones_be(), asked, test),
        Form::IntoIterOnesLe => owned_passes(set.into_iter_ones_le(), asked, test),
        Form::IntoIterZerosBe => owned_passes(set.into_iter_zeros_be(), asked, test),
        Form::IntoIterZerosLe => owned_passes(set.into_iter_zeros_le(), asked, test),
    }
}

// Returns whether the walk that `form` names passes a test on these four bytes.
fn walk_of_bytes_passes(form: Form, bytes: [u8; 4], test: Test) -> bool {
    let asked = Asked::new();
    walk_passes(form, Probe::of(bytes, &asked), &asked, test)
}

// Returns four lists of steps of a walk over four words. The walk has one item in the first word
// and one in the last. The lists differ in the ends (front or back) that the steps are made from.
fn each_way(first: u32, last: u32) -> [[Stepped; 4]; 4] {
    let (first, last) = (Some(first), Some(last));
    [
        [
            (Step::Front, first, 1),
            (Step::Back, last, 2),
            (Step::Front, None, 4),
            (Step::Front, None, 4),
        ],
        [
            (Step::Back, last, 2),
            (Step::Front, first, 2),
            (Step::Back, None, 4),
            (Step::Back, None, 4),
        ],
        [
            (Step::Front, first, 1),
            (Step::Front, last, 4),
            (Step::Front, None, 4),
            (Step::Back, None, 4),
        ],
        [
            (Step::Back, last, 2),
            (Step::Back, first, 4),
            (Step::Back, None, 4),
            (Step::Front, None, 4),
        ],
    ]
}

// Tests all four lists of steps on the walk that `form` names, over these bytes. The items of the
// walk are `first` and `last`.
fn step_each_way(rt: &impl Abort, form: Form, bytes: [u8; 4], first: u32, last: u32) {
    for steps in each_way(first, last) {
        holds!(*rt; walk_of_bytes_passes(form, bytes, Test::Steps(steps)));
    }
}

#[test]
fn walks_of_ones_fetch_each_word_once(rt: HostRuntime) {
    step_each_way(&rt, Form::IterOnesBe, ONES, 0, 31);
    step_each_way(&rt, Form::IterOnesLe, ONES, 7, 24);
}

#[test]
fn owned_walks_of_ones_fetch_each_word_once(rt: HostRuntime) {
    step_each_way(&rt, Form::IntoIterOnesBe, ONES, 0, 31);
    step_each_way(&rt, Form::IntoIterOnesLe, ONES, 7, 24);
}

#[test]
fn walks_of_zeros_fetch_each_word_once(rt: HostRuntime) {
    step_each_way(&rt, Form::IterZerosBe, ZEROS, 0, 31);
    step_each_way(&rt, Form::IterZerosLe, ZEROS, 7, 24);
}

#[test]
fn owned_walks_of_zeros_fetch_each_word_once(rt: HostRuntime) {
    step_each_way(&rt, Form::IntoIterZerosBe, ZEROS, 0, 31);
    step_each_way(&rt, Form::IntoIterZerosLe, ZEROS, 7, 24);
}

#[test]
fn clones_fetch_what_their_source_has_left(rt: HostRuntime) {
    holds!(rt; walk_of_bytes_passes(Form::IterOnesBe, ONES, Test::LateClone));
    holds!(rt; walk_of_bytes_passes(Form::IterZerosBe, ZEROS, Test::LateClone));
    holds!(rt; walk_of_bytes_passes(Form::IntoIterOnesBe, ONES, Test::LateClone));
    holds!(rt; walk_of_bytes_passes(Form::IntoIterZerosBe, ZEROS, Test::LateClone));
}

// Returns whether the walk that `form` names passes a test on a row of any element type.
fn walk_of_row_passes<T: BitsOwned>(form: Form, row: [T; 3], asked: &Asked, test: Test) -> bool
    requires { IsTrue ⟦<[T; 3] as Shape>⟧.indexable }
{
    walk_passes(form, row, asked, test)
}

// Returns whether the walk that `form` names passes a test on twelve words. They are a row of three
// elements, each with the members 0 and 31.
fn walk_of_twelve_passes(form: Form, test: Test) -> bool {
    let asked = Asked::new();
    walk_of_row_passes(form, [Probe::of(ONES, &asked); 3], &asked, test)
}

#[test]
fn a_clone_of_an_iterator_over_twelve_words_asks_nothing(rt: HostRuntime) {
    holds!(rt; walk_of_twelve_passes(Form::IterOnes, Test::Clone));
    holds!(rt; walk_of_twelve_passes(Form::IntoIterOnes, Test::Clone));
}

// Tests each step of a join: its item, and that no more words than allowed are fetched by then.
fn join<B: BitsOwned>(
    rt: &impl Abort,
    mask: B,
    numbers: Range<u32>,
    asked: &Asked,
    steps: [(Option<u32>, u32); 4],
)
    requires { IsTrue B.indexable }
{
    let mut join = mask.join_ones(numbers);
    for (item, words) in steps {
        same!(*rt; next_joined(&mut join), item);
        holds!(*rt; asked.is_at_most(words));
    }
}

// Does the same as `join` with the set of these bytes as the mask.
fn join_bytes(
    rt: &impl Abort,
    bytes: [u8; 4],
    numbers: Range<u32>,
    steps: [(Option<u32>, u32); 4],
) {
    let asked = Asked::new();
    join(rt, Probe::of(bytes, &asked), numbers, &asked, steps);
}

#[test]
fn joins_fetch_each_word_of_their_mask_once(rt: HostRuntime) {
    let steps = [(Some(100), 1), (Some(131), 4), (None, 4), (None, 4)];
    join_bytes(&rt, ONES, 100..140, steps);
}

#[test]
fn joins_fetch_nothing_after_the_end_of_their_iterator(rt: HostRuntime) {
    let steps = [(Some(100), 1), (None, 1), (None, 1), (None, 1)];
    join_bytes(&rt, [3, 0, 0, 128], 100..101, steps);
}

#[test]
fn runs_of_steps_fetch_each_word_once(rt: HostRuntime) {
    let steps = [Step::Front, Step::Back, Step::Back, Step::Front];
    for ones in [true, false] {
        let asked = Asked::new();
        let probe = Probe::of(ONES, &asked);
        let mut answers = [None; 4];
        let _ = replay_walk::<Probe, BigEndian>(&probe, ones, &steps, &mut answers);
        holds!(rt; asked.is_at_most(4));
    }
}

// Returns whether an iterator over a set fetches no word at its start, and one word for its first
// item, 0.
fn starts_for_nothing<B: Bits>(set: &B, asked: &Asked) -> bool
    requires { ShapeFits B.Shape set.now }
{
    let mut walk = set.iter_ones_be();
    asked.is_at_most(0) && next(&mut walk) == Some(0) && asked.is_at_most(1)
}

fn slice_starts_for_nothing<T: BitsOwned>(row: &[T], asked: &Asked) -> bool
    requires { Fits T.indexable (length row.now * T.type_capacity) }
{
    starts_for_nothing(&row, asked)
}

#[test]
fn an_iterator_over_a_slice_fetches_nothing_at_its_start(rt: HostRuntime) {
    let asked = Asked::new();
    let row = [Probe::of(ONES, &asked); 3];
    holds!(rt; slice_starts_for_nothing(&row, &asked));
}
