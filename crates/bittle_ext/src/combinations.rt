//! Changes a set in place by another set, a word at a time. The other set may have words of any
//! width and order.

ghost use Rattle.std.specs.Prelude.{◌≡◌, ◌≤◌, true};
ghost use Rattle.bittle_ext.specs.Between.{Combines};
ghost use Rattle.bittle.specs.Values.{set_in, ShapeFits};

use crate::capacities::capacity_of;
use crate::other_words::{Part, Reach, Whole, other_word};
use bittle::{Bits, BitsMut, Endian};
use bittle_bits::extension::{Operation, Word, are_alike, word_width};

/// The operation whose result has exactly the set bits of the second set.
pub enum Replacement {}

impl Operation for Replacement {
    ghost decide = { λ _ theirs. theirs };

    #[inline]
    fn on_words<T: Word>(_: T, other: T) -> T {
        other
    }
}

// Combines `set` with `other` by the operation `O`, below the capacity of `set`, and returns
// whether `set` changed. `R` says whether `other` is known to have at least as many words as `set`.
#[inline(always)]
fn combine_words<A: BitsMut, B: Bits, E: Endian, F: Endian, O: Operation, R: Reach>(
    set: &mut A,
    other: &B,
) -> bool
    requires fits { ShapeFits A.Shape set.old }
    requires other_fits { ShapeFits B.Shape other.now }
    requires reach { R.ALL ≡ true → (A.width ≡ B.width)
        × ((A.big set.old).capacity ≤ (B.big other.now).capacity) }
    ensures combined { Combines O.decide (set_in A.Shape E.Endian set.old)
        (set_in B.Shape F.Endian other.now) (set_in A.Shape E.Endian set.new) result }
    ensures stays { A.loan set.old ≡ A.loan set.new }
{
    let words = (capacity_of::<A, E>(set) / word_width::<A>()) as usize;
    let mut changed = false;
    for k in 0..words {
        let ours = set.nth_leaf_word(k);
        let theirs = other_word::<A, B, E, F, R>(other, k);
        let word = O::on_words::<A::LeafWord>(ours, theirs);
        changed |= !word.xor(ours).is_zero();
        set.set_nth_leaf_word(k, word);
    }
    changed
}

/// Combines `set` with `other` by the operation `O`, below the capacity of `set`, and returns
/// whether `set` changed.
///
/// If the words of both sets have the same width and order, and `other` is at least as long as
/// `set`, the loop makes no test for the end of `other`. The compiler then combines several words
/// at a time.
#[inline]
pub fn combine_with<A: BitsMut, B: Bits, E: Endian, F: Endian, O: Operation>(
    set: &mut A,
    other: &B,
) -> bool
    requires fits { ShapeFits A.Shape set.old }
    requires other_fits { ShapeFits B.Shape other.now }
    ensures combined { Combines O.decide (set_in A.Shape E.Endian set.old)
        (set_in B.Shape F.Endian other.now) (set_in A.Shape E.Endian set.new) result }
    ensures stays { A.loan set.old ≡ A.loan set.new }
{
    if are_alike::<A, B, E, F>() && set.bits_capacity() <= other.bits_capacity() {
        combine_words::<A, B, E, F, O, Whole>(set, other)
    } else {
        combine_words::<A, B, E, F, O, Part>(set, other)
    }
}
