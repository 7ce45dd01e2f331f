//! Runs of a few words at most, found word by word: each word is read once.

ghost use Rattle.std.specs.Prelude.{◌*◌, ◌<◌, ◌≤◌};
ghost use Rattle.bittle_ext.specs.Runs.{cut_off, IsFirstRun};
ghost use Rattle.bittle.specs.PlainSet.{complement, IsGreatestMember};
ghost use Rattle.bittle.specs.Values.{kind_in, word_in, ShapeFits};

use crate::rotations::window;
use bittle::{Bits, Endian};
use bittle_bits::extension::{Front, Kind, Word, word_of_kind, word_width};

/// Returns the least index of a word where a run of `length` set bits begins, or `None` if there is
/// no such run.
///
/// If runs of `known` set bits begin at `i` and at `i + more`, where `more <= known`, a run of
/// `known + more` begins at `i`. So `known` doubles with each step, except the last one.
#[inline]
fn first_in_word<W: Word, E: Endian>(word: W, length: u32) -> Option<u32>
    requires some { 0 < length }
    requires within { length < W.width }
    ensures { IsFirstRun (word_in W.Word E.Endian word) 0 length result }
{
    let mut begin = word;
    let mut known = 1;
    while known < length && !begin.is_zero() {
        // The remainder (`%`) changes no result; it tells the compiler that the shift is within the
        // word.
        let more = known.min(length - known) % W::width();
        begin = begin.and(window::<W, E>(begin, W::zero(), more));
        known += more;
    }
    let index = E::zeros::<W>(begin);
    if index == W::width() {
        return None;
    }
    Some(index)
}

/// Returns how many bits at the end of a word are set. The test for an empty word changes no
/// result. It makes the compiler use branches in the loop below, so that no step waits for the step
/// before.
#[inline(always)]
fn set_at_end<W: Word, E: Endian>(word: W) -> u32
    ensures { IsGreatestMember (complement (word_in W.Word E.Endian word)) result }
{
    if word.is_zero() {
        return 0;
    }
    E::ones_rev::<W>(word)
}

/// Returns the least index at or above `from` where a run of `length` bits of the kind `K` (set or
/// unset) begins, or `None` if there is no such run. The run must lie in the first `words` words.
///
/// Of the words that it has read, the loop remembers only the number `open`: how many bits right
/// before the current word are of the kind `K` and may begin a run that can still be found.
#[inline]
pub fn next_short_run<B: Bits, E: Endian, K: Kind>(
    bits: &B,
    from: u32,
    words: u32,
    length: u32,
) -> Option<u32>
    requires fits { ShapeFits B.Shape bits.now }
    requires some { 0 < length }
    requires ordered { from < words * B.width }
    requires within { words * B.width ≤ (B.big bits.now).capacity }
    ensures { IsFirstRun (cut_off (words * B.width) (kind_in B.Shape E.Endian K.Kind bits.now)) from
        length result }
{
    let width = word_width::<B>();
    let mut k = from / width;
    let mut open = 0u32;
    let since = E::from_index::<B::LeafWord>(from % width);
    let mut word = word_of_kind::<B, K>(bits, k as usize).and(since);
    loop {
        let lead = E::ones::<B::LeafWord>(word);
        if length <= open + lead {
            return Some(k * width - open);
        }
        if length < width {
            if let Some(index) = first_in_word::<B::LeafWord, E>(word, length) {
                return Some(k * width + index);
            }
        }
        open = if lead == width {
            open + width
        } else {
            set_at_end::<B::LeafWord, E>(word)
        };
        let after = k + 1;
        let next = bits.pass_over::<K, Front>(after as usize, words as usize) as u32;
        if next == words {
            return None;
        }
        if next != after {
            open = 0;
        }
        k = next;
        word = word_of_kind::<B, K>(bits, k as usize);
    }
}
