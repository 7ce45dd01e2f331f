//! Searches whole words for the first bit of a kind: the first set bit or the first unset bit. If
//! the type of the set may know words without such a bit, the search goes word by word and skips
//! those words. Else it reads four words at a time.

ghost use Rattle.std.specs.Prelude.{◌+◌, ◌*◌, ◌≤◌, ◌↔◌, IsTrue};
ghost use Rattle.bittle_bits.specs.Searches.{IsFirstIn, NoneIn};
ghost use Rattle.bittle_bits.specs.Values.{kind_in, ShapeFits};

use crate::end::Front;
use crate::endian::Endian;
use crate::internal::search::end_in_words;
use crate::internal::source::{pass_over, word_of_kind};
use crate::kind::Kind;
use crate::read_words::{ReadWords, word_width};
use crate::word::Word;

// Returns the least index of a bit of the kind `K` in the words `from..to`, or `None` if they have
// no such bit.
#[inline]
fn first_among<B: ReadWords, E: Endian, K: Kind>(bits: &B, from: u32, to: u32) -> Option<u32>
    requires fits { ShapeFits B.Shape bits.now }
    requires within { to * B.width ≤ (B.big bits.now).capacity }
    ensures { IsFirstIn (kind_in B.Shape E.Endian K.Kind bits.now) (from * B.width)
        (to * B.width) result }
{
    let width = word_width::<B>();
    for k in from..to {
        let word = word_of_kind::<B, K>(bits, k as usize);
        if !word.is_zero() {
            return Some(k * width + E::zeros::<B::LeafWord>(word));
        }
    }
    None
}

// Returns whether the four words from `from` on have no bit of the kind `K`. One test serves all
// four words.
#[inline]
fn are_four_empty<B: ReadWords, E: Endian, K: Kind>(bits: &B, from: u32) -> bool
    requires fits { ShapeFits B.Shape bits.now }
    requires within { (from + 4) * B.width ≤ (B.big bits.now).capacity }
    ensures { IsTrue result ↔ NoneIn (kind_in B.Shape E.Endian K.Kind bits.now) (from * B.width)
        ((from + 4) * B.width) }
{
    let from = from as usize;
    let first = word_of_kind::<B, K>(bits, from);
    let second = word_of_kind::<B, K>(bits, from + 1);
    let third = word_of_kind::<B, K>(bits, from + 2);
    let fourth = word_of_kind::<B, K>(bits, from + 3);
    first.or(second).or(third.or(fourth)).is_zero()
}

// Returns the least index of a bit of the kind `K` in the words `from..to`, or `None` if they have
// no such bit. It searches four words at a time. If one of the four has such a bit, it reads these
// words again, one by one, up to that word.
#[inline(always)]
fn first_by_fours<B: ReadWords, E: Endian, K: Kind>(bits: &B, from: u32, to: u32) -> Option<u32>
    requires fits { ShapeFits B.Shape bits.now }
    requires ordered { from ≤ to }
    requires within { to * B.width ≤ (B.big bits.now).capacity }
    ensures { IsFirstIn (kind_in B.Shape E.Endian K.Kind bits.now) (from * B.width)
        (to * B.width) result }
{
    let fours = (to - from) / 4;
    for four in 0..fours {
        let at = from + four * 4;
        if !are_four_empty::<B, E, K>(bits, at) {
            if let Some(index) = first_among::<B, E, K>(bits, at, at + 4) {
                return Some(index);
            }
        }
    }
    first_among::<B, E, K>(bits, from + fours * 4, to)
}

/// Returns the least index of a bit of the kind `K` in the first `words` words, or `None` if they
/// have no such bit. It skips words of which the set knows that they have no such bit. If the type
/// of the set may know such words, the others are read one by one, else four at a time.
#[inline]
pub fn first_in_words<B: ReadWords, E: Endian, K: Kind>(bits: &B, words: u32) -> Option<u32>
    requires fits { ShapeFits B.Shape bits.now }
    requires within { words * B.width ≤ (B.big bits.now).capacity }
    ensures { IsFirstIn (kind_in B.Shape E.Endian K.Kind bits.now) 0 (words * B.width) result }
{
    let low = pass_over::<B, K, Front>(bits, 0, words as usize) as u32;
    if B::MAY_PASS_OVER && low < words {
        return end_in_words::<B, E, K, Front>(bits, low, words - 1, 0);
    }
    first_by_fours::<B, E, K>(bits, low, words)
}
