//! How many bits of a range are set, counted word by word.

ghost use Rattle.std.specs.Prelude.{◌≡◌, ◌+◌, ◌*◌, ◌<◌, ◌≤◌};
ghost use Rattle.bittle_bits.specs.PlainSet.{members_below};
ghost use Rattle.bittle_bits.specs.Values.{set_in, ShapeFits};

use crate::endian::Endian;
use crate::internal::ends::ends;
use crate::one_word::range;
use crate::read_words::{ReadWords, word_width};
use crate::word::Word;

// Counts the set bits of word `k` whose index within the word is in `from..to`. Indexes follow the
// bit order `E`.
#[inline]
fn count_in_word<B: ReadWords, E: Endian>(bits: &B, k: u32, from: u32, to: u32) -> u32
    requires fits { ShapeFits B.Shape bits.now }
    requires word { k * B.width < (B.big bits.now).capacity }
    requires ordered { from ≤ to }
    requires within { to ≤ B.LeafWord.width }
    ensures { let ours = set_in B.Shape E.Endian bits.now in
        members_below ours (k * B.width + from) + result
        ≡ members_below ours (k * B.width + to) }
{
    let word = bits.nth_leaf_word(k as usize);
    word.and(range::<B::LeafWord, E>(from, to)).count_ones()
}

/// Counts the set bits with an index in `from..to`. Indexes follow the bit order `E`. In the first
/// and in the last word, a mask keeps the bits of the range; each word between these two is counted
/// whole.
#[inline]
pub fn count_ones<B: ReadWords, E: Endian>(bits: &B, from: u32, to: u32) -> u32
    requires fits { ShapeFits B.Shape bits.now }
    requires ordered { from ≤ to }
    requires within { to ≤ (B.big bits.now).capacity }
    ensures { let ours = set_in B.Shape E.Endian bits.now in
        members_below ours from + result ≡ members_below ours to }
{
    if from == to {
        return 0;
    }
    let width = word_width::<B>();
    let (first, begin, last, top) = ends(width, from, to);
    if first == last {
        return count_in_word::<B, E>(bits, first, begin, top + 1);
    }
    let mut count = count_in_word::<B, E>(bits, first, begin, width);
    for k in first + 1..last {
        count += count_in_word::<B, E>(bits, k, 0, width);
    }
    count + count_in_word::<B, E>(bits, last, 0, top + 1)
}
