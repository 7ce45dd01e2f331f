//! Code in the form that a caller would write at first. The check refuses two such forms: a
//! `return` in a `for` loop that indexes a row, and a closure that indexes a row in a method of an
//! iterator. In place of these two, the shortest form that the check accepts is here.

ghost use Rattle.std.specs.Prelude.{◌*◌, ◌<◌, false, length, slice_index_or};
ghost use Rattle.bittle.specs.BitPatterns.{bit_set};
ghost use Rattle.bittle.specs.Rows.{row_set};
ghost use Rattle.bittle.specs.Searches.{IsFirstIn};
ghost use Rattle.bittle_ext.specs.Changes.{those_passing};

use bittle::Bits;
use bittle_ext::prelude::*;

/// A set over words that a caller lends.
#[derive(Drop)]
pub struct Lent<'a> {
    words: &'a mut [u64],
}

impl<'a> Lent<'a> {
    /// Clears the least set bit, and returns its index, or `None` if no bit is set.
    pub fn take_least(&mut self) -> Option<u32>
        requires { length self.old.words.now * 64 < 4294967295 }
        ensures { IsFirstIn (row_set (length self.old.words.now) 64 (bit_set 64) self.old.words.now)
            0 (length self.old.words.now * 64) result }
    {
        self.words.pop_first()
    }
}

/// Returns the first set bit that a row marks, by a loop that visits all set bits.
pub fn first_marked(mask: u64, row: &[bool; 64]) -> Option<u32> {
    let mut found = None;
    for index in mask.iter_ones() {
        if found.is_none() && row[index as usize] {
            found = Some(index);
        }
    }
    found
}

/// Returns the first set bit that a row marks. It keeps only the marked bits, in a copy.
#[tactic(auto, using(bittle_lemmas::proofs::FoundNumbers::first_in_same))]
pub fn first_of_marked(mask: u64, row: &[bool; 64]) -> Option<u32>
    ensures { IsFirstIn (those_passing (λ i. slice_index_or row.now i false) (bit_set 64 mask)) 0 64
        result }
{
    let mut marked = mask;
    marked.retain(|index| row[index as usize]);
    marked.first_one()
}

/// Adds up the entries of a row at the set bits. It clears these bits in a copy, one by one.
pub fn sum_by_pops(mask: u64, row: &[u32; 64]) -> u32 {
    let mut rest = mask;
    let mut sum = 0u32;
    for _ in 0u32..64 {
        let Some(index) = rest.pop_first() else {
            break;
        };
        sum = sum.wrapping_add(row[index as usize]);
    }
    sum
}
