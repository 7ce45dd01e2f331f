//! Finds a set bit by its rank, which is the number of set bits below it. Counts of whole words
//! find the word of the bit, and halving finds its index in that word.

ghost use Rattle.std.specs.Prelude.{◌≡◌, ◌+◌, ◌*◌, ◌/◌, ◌^◌, ◌<◌, true, MatchOption};
ghost use Rattle.bittle_ext.specs.Ranks.{HasNoRank, IsInWord};
ghost use Rattle.bittle.specs.PlainSet.{members_below};
ghost use Rattle.bittle.specs.Values.{set_in, ShapeFits};

use crate::numbers::{low_bits_of, ordered_word, width_of};
use crate::views::by_words::count_word;
use bittle::{Bits, Endian};
use bittle_bits::extension::{Word, word_width};

/// Finds the set bit with the rank `rank`. Returns the number of its word, and how many bits of
/// that word are set below this bit. Returns `None` if no set bit has this rank.
#[inline]
pub fn word_of_rank<B: Bits, E: Endian>(bits: &B, rank: u32) -> Option<(u32, u32)>
    requires { ShapeFits B.Shape bits.now }
    ensures { let ours = set_in B.Shape E.Endian bits.now in
        MatchOption result (HasNoRank ours rank) (λ at. IsInWord ours B.width rank at.0 at.1) }
{
    let width = word_width::<B>();
    let mut rest = rank;
    for k in 0..bits.bits_capacity() / width {
        let count = count_word::<B, E>(bits, k);
        if rest < count {
            return Some((k, rest));
        }
        rest -= count;
    }
    None
}

/// Returns a word with its bits moved down by `by`. The remainder (`%`) changes no result. It lets
/// the compiler shift a word instead of 128 bits.
#[inline]
fn shifted<W: Word>(word: W, by: u32) -> W
    requires { by < W.width }
    ensures { W.pattern result ≡ W.pattern word / 2 ^ by }
{
    W::from_bits(word.to_bits() >> (by % width_of::<W>()))
}

/// Returns the index, within word `k`, of the set bit that has exactly `rest` set bits of that word
/// below it.
///
/// The word is shifted down past each half that does not have the bit. So every half begins at
/// index 0, and its mask is a constant.
#[inline]
pub fn index_of_rank<B: Bits, E: Endian>(bits: &B, k: u32, rest: u32) -> u32
    requires fits { ShapeFits B.Shape bits.now }
    requires word { k * B.width < (B.big bits.now).capacity }
    requires has_it { let ours = set_in B.Shape E.Endian bits.now in
        members_below ours (k * B.width) + rest < members_below ours ((k + 1) * B.width) }
    ensures within { result < B.width }
    ensures found { let ours = set_in B.Shape E.Endian bits.now in
        let index = k * B.width + result in (ours.has index ≡ true)
        × (members_below ours index ≡ members_below ours (k * B.width) + rest) }
{
    let width = width_of::<B::LeafWord>();
    let mut word = ordered_word::<B::LeafWord, E>(bits.nth_leaf_word(k as usize));
    let mut left = rest;
    let mut at = 0;
    let mut span = width;
    while span > 1 {
        let half = span / 2;
        span -= half;
        let below = low_bits_of::<B::LeafWord>(word.to_bits(), half).count_ones();
        if below <= left {
            left -= below;
            at += half;
            word = shifted(word, half);
        }
    }
    at
}
