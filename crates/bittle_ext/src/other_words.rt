//! Reads a set in words of the width and the order of another set's words.

ghost use Rattle.std.specs.Prelude.{◌≡◌, ◌*◌, ◌<◌, Bool, true, false};
ghost use Rattle.bittle.specs.BitPatterns.{bit_set};
ghost use Rattle.bittle.specs.Words.{word_of};
ghost use Rattle.bittle.specs.Orders.{read_in};
ghost use Rattle.bittle.specs.Values.{set_in, ShapeFits};

use crate::copies::number_from;
use crate::numbers::{width_of, word_of};
use bittle::Endian;
use bittle_bits::extension::{ReadWords, Word, are_alike, word_width};

/// A marker that says whether every word that is read from a set is known to exist. If so, a loop
/// over the words makes no test for the end of the set.
pub trait Reach {
    ghost ALL: { Bool };

    const ALL: bool;
}

/// The marker for sets in which every word that is read is known to exist.
pub enum Whole {}

/// The marker for sets in which words that are read may be missing. A missing word is read as an
/// empty one.
pub enum Part {}

impl Reach for Whole {
    ghost ALL = { true };

    const ALL: bool = true;
}

impl Reach for Part {
    ghost ALL = { false };

    const ALL: bool = false;
}

/// Returns word `k` of a set, or an empty word if the set has no word `k`.
#[inline(always)]
pub fn word_or_empty<S: ReadWords, R: Reach>(set: &S, k: usize) -> S::LeafWord
    requires fits { ShapeFits S.Shape set.now }
    requires reach { R.ALL ≡ true → k * S.width < (S.big set.now).capacity }
    ensures { bit_set S.width (S.LeafWord.pattern result) ≡ word_of S.width (S.big set.now) k }
{
    if R::ALL {
        return set.nth_leaf_word(k);
    }
    if k < (set.capacity() / word_width::<S>()) as usize {
        set.nth_leaf_word(k)
    } else {
        <S::LeafWord as Word>::zero()
    }
}

/// Returns word `k` of a set that is read in the order `F`. The result is a word of the type `W` in
/// the order `E`, and `k` counts words of the type `W`. The words of the set are read whole, and
/// not bit by bit.
fn unlike_word<W: Word, B: ReadWords, E: Endian, F: Endian>(set: &B, k: u32) -> W
    requires fits { ShapeFits B.Shape set.now }
    requires within { k * W.width < 4294967296 }
    ensures { read_in E.mirrored W.width (bit_set W.width (W.pattern result))
        ≡ word_of W.width (set_in B.Shape F.Endian set.now) k }
{
    let width = width_of::<W>();
    word_of::<W, E>(number_from::<B, F>(set, k * width, width))
}

/// Returns word `k` of a set that is read in the order `F`. The result is a word of the type of
/// `A`'s words, in the order `E`, and `k` counts words of that width. Bits of the result at or past
/// the capacity of the set are unset.
#[inline(always)]
pub fn other_word<A: ReadWords, B: ReadWords, E: Endian, F: Endian, R: Reach>(
    set: &B,
    k: usize,
) -> A::LeafWord
    requires fits { ShapeFits B.Shape set.now }
    requires within { k * A.width < 4294967296 }
    requires reach { R.ALL ≡ true → k * B.width < (B.big set.now).capacity }
    ensures { read_in E.mirrored A.width (bit_set A.width (A.LeafWord.pattern result))
        ≡ word_of A.width (set_in B.Shape F.Endian set.now) k }
{
    if are_alike::<A, B, E, F>() {
        <A::LeafWord as Word>::from_bits(word_or_empty::<B, R>(set, k).to_bits())
    } else {
        unlike_word::<A::LeafWord, B, E, F>(set, k as u32)
    }
}
