//! Keeps the set bits for which a closure returns `true`, word by word.

ghost use Rattle.std.specs.Prelude.{◌≡◌, ◌*◌, ◌<◌};
ghost use Rattle.bittle_ext.specs.Calls.{IsCallableBelow};
ghost use Rattle.bittle_ext.specs.Changes.{Retains};
ghost use Rattle.bittle.specs.BitPatterns.{bit_set};
ghost use Rattle.bittle.specs.Values.{set_in, ShapeFits};
ghost use Rattle.bittle.specs.Words.{ReplacesWord, word_of};

use crate::numbers::ordered_word;
use bittle::{BigEndian, Bits, BitsMut, Endian};
use bittle_bits::extension::{
    Front, Ones, Operation, ReadWords, SymmetricDifference, Union, Word, pop, word_width,
};

/// Replaces word `k` of a set by `by`. The old word is `word`. If both words are the same, nothing
/// is written.
#[inline]
fn change_word<B: BitsMut>(bits: &mut B, k: usize, word: B::LeafWord, by: B::LeafWord)
    requires fits { ShapeFits B.Shape bits.old }
    requires within { k * B.width < (B.big bits.old).capacity }
    requires is_word { bit_set B.width (B.LeafWord.pattern word)
        ≡ word_of B.width (B.big bits.old) k }
    ensures set { ReplacesWord B.width (B.big bits.old) k
        (bit_set B.width (B.LeafWord.pattern by)) (B.big bits.new) }
    ensures stays { B.loan bits.old ≡ B.loan bits.new }
{
    if by.to_bits() != word.to_bits() {
        bits.set_nth_leaf_word(k, by);
    }
}

/// Calls `keep` once with the index of each set bit, from the least index to the greatest, and
/// clears each bit for which `keep` returns `false`. Words that the set knows to have no set bit,
/// without reading them, are skipped. Each other word is read once, and is written once if one of
/// its bits is cleared.
///
/// A little-endian word is reversed before its bits are taken out, and the bits that stay are
/// reversed back. So in both orders the next bit is the one of least weight, and one subtraction
/// takes it out. The difference between the word before and after is that bit, so no mask is made
/// from its index.
#[inline]
pub fn retain<B: BitsMut, E: Endian, F: FnMut(u32) -> bool>(bits: &mut B, mut keep: F)
    requires fits { ShapeFits B.Shape bits.old }
    requires callable { IsCallableBelow (B.big bits.old).capacity F.FnMut keep }
    ensures set { Retains F.step keep (set_in B.Shape E.Endian bits.old)
        (set_in B.Shape E.Endian bits.new) }
    ensures stays { B.loan bits.old ≡ B.loan bits.new }
{
    let width = word_width::<B>();
    let words = (bits.bits_capacity() / width) as usize;
    let mut k = bits.pass_over::<Ones, Front>(0, words);
    while k < words {
        let word = bits.nth_leaf_word(k);
        if word.is_zero() {
            k = bits.pass_over::<Ones, Front>(k + 1, words);
            continue;
        }
        let start = k as u32 * width;
        let mut rest = ordered_word::<B::LeafWord, E>(word);
        let mut kept = <B::LeafWord as Word>::zero();
        let mut before = rest;
        while let Some(index) = pop::<B::LeafWord, BigEndian, Front>(&mut rest) {
            if keep(start + index) {
                let bit = SymmetricDifference::on_words::<B::LeafWord>(before, rest);
                kept = Union::on_words::<B::LeafWord>(kept, bit);
            }
            before = rest;
        }
        change_word(bits, k, word, ordered_word::<B::LeafWord, E>(kept));
        k = bits.pass_over::<Ones, Front>(k + 1, words);
    }
}
