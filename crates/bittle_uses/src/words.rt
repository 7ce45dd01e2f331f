//! Iterators over one word. Some have adapters, and one is stepped from the back.

ghost use Rattle.std.specs.Int.{w8, cast_unsigned};
ghost use Rattle.std.specs.Prelude.{◌≡◌, ◌/◌, length, map, count_by, nat_lt, true, false};
ghost use Rattle.std.specs.Prelude.{MatchOption, [], ◌∷◌, ◌++◌, ℕ, List};
ghost use Rattle.bittle.specs.BitPatterns.{bit_set};
ghost use Rattle.bittle.specs.Orders.{read_in};
ghost use Rattle.bittle.specs.PlainSet.{ascending, complement};

use bittle::number::{IterOnes, IterZeros};
use bittle::{BigEndian, LittleEndian};

/// Counts the set bits of a word of 32 bits.
pub fn how_many(word: u32) -> usize
    ensures { result ≡ length (ascending (read_in true 32 (bit_set 32 word))) }
{
    IterOnes::<u32, LittleEndian>::new(word).count()
}

/// Counts the unset bits of a word of 64 bits that lie below a bound.
pub fn how_many_lacking(word: u64, bound: u32) -> usize
    ensures { result ≡ count_by (λ i. nat_lt i bound)
        (ascending (complement (read_in false 64 (bit_set 64 word)))) }
{
    IterZeros::<u64, BigEndian>::new(word)
        .filter(|i| *i < bound)
        .count()
}

/// Halves the index of each set bit of a byte, rounded down. Counts the halves that are above
/// `bound`.
pub fn halves_above(word: i8, bound: u32) -> usize
    ensures { result ≡ count_by (λ i. nat_lt bound i)
        (map (λ i. i / 2) (ascending (read_in false 8 (bit_set 8 (cast_unsigned w8 word))))) }
{
    IterOnes::<i8, BigEndian>::new(word)
        .map(|i| i / 2)
        .filter(|i| bound < *i)
        .count()
}

/// Returns the greatest unset bit of a word of 16 bits in little-endian order, or `None` if each
/// bit is set.
pub fn greatest_lacking(word: u16) -> Option<u32>
    ensures { MatchOption result (ascending (complement (read_in true 16 (bit_set 16 word))) ≡ [])
        (λ i. (rest : List ℕ)
        × (ascending (complement (read_in true 16 (bit_set 16 word))) ≡ rest ++ i ∷ [])) }
{
    IterZeros::<u16, LittleEndian>::new(word).rev().next()
}
