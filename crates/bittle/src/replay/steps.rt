//! The main theorem on iterators, which is the contract of [`replay_walk`]. The steps of an
//! iterator take the items of an increasing list from its two ends, and scan few words.

ghost use Rattle.std.specs.Prelude.{◌≡◌, ℕ, ◌+◌, ◌≤◌, ◌∷◌, ◌++◌, [], List, length, slice_index};
ghost use Rattle.bittle_bits.specs.PlainSet.{ascending};
ghost use Rattle.bittle_bits.specs.Walk.{ones_or_zeros, count_after, IsScanBounded};
ghost use Rattle.bittle_bits.specs.Values.{set_in, ShapeFits, word_count};
ghost use Rattle.bittle.specs.ListEnds.{answer_of, items_left_by, answers_of, AreScanBounded};
ghost use Rattle.bittle.specs.ListEnds.{KeepsAll};

use bittle_bits::bits::Bits;
use bittle_bits::endian::Endian;
use bittle_bits::extension::{Count, Counted};
use std::marker::Model;
use std::mem::replace;
use std::snapshot::Snapshot;

/// The end of an iterator from which a step takes an item.
#[derive(Clone, Copy, Debug, PartialEq, Eq)]
pub enum Step {
    /// The front: the step takes the first item that remains.
    Front,
    /// The back: the step takes the last item that remains.
    Back,
}

// A list of counts. Each part is a snapshot, which only contracts can read.
#[derive(Drop)]
enum CountList {
    Empty,
    And(Snapshot<CountList>, Snapshot<Count>),
}

/// A list with one number for each step of an iterator: how many scans of words the iterator has
/// made up to that step. Only contracts see the list, and it takes no memory.
#[derive(Drop)]
pub struct Scans {
    trail: Snapshot<CountList>,
}

/// The name of [`Scans`] before 0.7.0-rattle.3.
pub type Looks = Scans;

impl Model for Scans {
    ghost use Rattle.std.specs.Prelude.{ℕ, List};

    ghost Value = { List ℕ };

    ghost use Rattle.bittle.specs.Scans.{numbers_of};

    ghost view = { λ c. numbers_of c.trail.value };
}

impl Scans {
    /// Returns an empty list of counts.
    fn new() -> Scans
        ensures { result ≡ [] }
    {
        Scans {
            trail: Snapshot::of(&CountList::Empty),
        }
    }

    /// Adds the count that an iterator has reached to the end of the list.
    fn push(&mut self, count: &Count)
        ensures { self.new ≡ self.old ++ count.now ∷ [] }
    {
        let Scans { trail } = replace(self, Scans::new());
        self.trail = Snapshot::of(&CountList::And(trail, Snapshot::of(count)));
    }
}

const _: () = prove!(size_of::<Scans>() == 0);

// Makes one step of an iterator.
#[inline]
fn take_step<W: Counted>(walk: &mut W, step: Step) -> Option<u32>
    ensures answer { result ≡ answer_of step (W.walk walk.old).remaining }
    ensures remaining { (W.walk walk.new).remaining
        ≡ items_left_by step (W.walk walk.old).remaining }
    ensures items { (W.walk walk.new).items ≡ count_after (W.walk walk.old).items result }
    ensures scans { (W.walk walk.old).scans ≤ (W.walk walk.new).scans }
    ensures words { (W.walk walk.new).words ≡ (W.walk walk.old).words }
    ensures bounded { IsScanBounded (W.walk walk.new) }
{
    match step {
        Step::Front => walk.next(),
        Step::Back => walk.next_back(),
    }
}

// Makes the steps with an iterator that has yielded nothing yet. The last number in the result is
// the iterator's own count of scans.
fn run<W: Counted>(walk: &mut W, steps: &[Step], answers: &mut [Option<u32>]) -> Scans
    requires places { length answers.old ≡ length steps.now }
    requires fresh { (W.walk walk.old).items ≡ 0 }
    ensures answers { answers.new ≡ answers_of steps.now (W.walk walk.old).remaining }
    ensures scans { AreScanBounded result answers.new (W.walk walk.old).words }
    ensures own { (k : ℕ) → length steps.now ≡ k + 1
        → slice_index result k ≡ (W.walk walk.new).scans }
{
    let mut scans = Scans::new();
    for (k, step) in steps.iter().enumerate() {
        answers[k] = take_step(walk, *step);
        scans.push(walk.scans());
    }
    scans
}

// Makes the steps with an iterator that has yielded nothing yet, and drops the iterator.
fn run_whole<W: Counted + Drop>(walk: W, steps: &[Step], answers: &mut [Option<u32>]) -> Scans
    requires places { length answers.old ≡ length steps.now }
    requires fresh { (W.walk walk).items ≡ 0 }
    ensures answers { answers.new ≡ answers_of steps.now (W.walk walk).remaining }
    ensures scans { AreScanBounded result answers.new (W.walk walk).words }
{
    let mut walk = walk;
    run(&mut walk, steps, answers)
}

/// Makes the `steps` with one iterator over `bits` in the order `E`. What each step returns is
/// written to `answers`. The iterator yields the indexes of the set bits if `ones` is `true`, and
/// else those of the unset bits.
///
/// The items are an increasing list. A step returns the first or the last item that remains, or
/// `None` once no item remains. In contracts, the result is a list with one number for each step:
/// how many scans of words were made up to that step.
///
/// The shape has to fit (`bits_capacity() < u32::MAX`), and `answers` has to be as long as `steps`.
/// Each word is fetched at most once.
///
/// ```
/// let mut answers = [None; 3];
/// let steps = [Step::Front, Step::Back, Step::Front];
/// let _scans = replay_walk::<_, BigEndian>(&0b1101u8, true, &steps, &mut answers);
/// answers;                                            // [Some(0), Some(3), Some(2)]
/// ```
pub fn replay_walk<B: Bits, E: Endian>(
    bits: &B,
    ones: bool,
    steps: &[Step],
    answers: &mut [Option<u32>],
) -> Scans
    requires fits { ShapeFits B.Shape bits.now }
    requires places { length answers.old ≡ length steps.now }
    ensures answers { answers.new
        ≡ answers_of steps.now (ascending (ones_or_zeros ones (set_in B.Shape E.Endian bits.now))) }
    ensures scans { AreScanBounded result answers.new (word_count B.Shape bits.now) }
{
    if ones {
        run_whole(bits.iter_ones_in::<E>(), steps, answers)
    } else {
        run_whole(bits.iter_zeros_in::<E>(), steps, answers)
    }
}

/// States that no item is lost: after any steps, the items from the front, what remains, and the
/// items from the back in reverse are the whole list.
#[doc(hidden)]
pub fn ends_keep_all()
    ensures { (steps : List Step) (xs : List ℕ) → KeepsAll steps xs }
{}
