//! Functions that count the set bits of a word by Rust's own method, and say what the count tells of
//! the word's set. Each names the lemma `std_count_ones`, and none has a proof file.

ghost use Rattle.std.specs.Prelude.{◌≡◌, ◌+◌, true};
ghost use Rattle.bittle.specs.BitPatterns.{bit_set};
ghost use Rattle.bittle.specs.PlainSet.{size};

use bittle_ext::prelude::*;

/// Counts the set bits of a word.
#[tactic(auto, using(bittle_lemmas::proofs::StdCounts::std_count_ones))]
pub fn population(word: u64) -> u32
    ensures { result ≡ size (bit_set 64 word) }
{
    word.count_ones()
}

/// Counts the set bits of two words, such as the stones of two players.
#[tactic(auto, using(bittle_lemmas::proofs::StdCounts::std_count_ones))]
pub fn stones(mine: u32, theirs: u32) -> u32
    ensures { result ≡ size (bit_set 32 mine) + size (bit_set 32 theirs) }
{
    mine.count_ones() + theirs.count_ones()
}

/// Returns whether the set bits of a word and those of its complement are as many as its bits.
#[tactic(auto, using(bittle_lemmas::proofs::StdCounts::std_count_ones))]
pub fn are_all_bits_counted(word: u64) -> bool
    ensures { result ≡ true }
{
    word.complement().count_ones() + word.count_ones() == 64
}
