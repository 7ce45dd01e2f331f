//! Loops that clear the set bits one by one. The proof of each loop is one line, which gives its
//! measure: the number of set bits. Each turn of the loop lowers that number by one.

ghost use Rattle.std.specs.Prelude.{◌≡◌, length};
ghost use Rattle.bittle.specs.BitPatterns.{bit_set};
ghost use Rattle.bittle.specs.PlainSet.{size};
ghost use Rattle.bittle.specs.Rows.{row_set};

use bittle::Set;
use bittle_ext::prelude::*;

/// Adds up the entries of a row at the set bits of a word.
pub fn sum_of_entries(mask: u64, row: &[u32; 64]) -> u32 {
    let mut work = mask;
    let mut sum = 0u32;
    while let Some(index) = work.pop_first() {
        sum = sum.wrapping_add(row[index as usize]);
    }
    sum
}

/// Takes the set bits out of four words, from the greatest down to the least, and returns the one
/// that it took out last.
pub fn last_taken_out(mut work: [u64; 4]) -> Option<u32> {
    let mut last = None;
    while let Some(index) = work.pop_last() {
        last = Some(index);
    }
    last
}

/// Tasks that are still to be done: the set bits of words that a caller lends.
#[derive(Drop)]
pub struct Work<'a> {
    tasks: Set<&'a mut [u64]>,
}

impl<'a> Work<'a> {
    /// Adds up the costs of all tasks, and takes all of them out. A task past the end of `cost`
    /// costs 0.
    pub fn finish(&mut self, cost: &[u32]) -> u64
        ensures { let after = self.new.tasks.bits.now in
            size (row_set (length after) 64 (bit_set 64) after) ≡ 0 }
    {
        let mut total = 0u64;
        while let Some(task) = self.tasks.pop_first() {
            let it = cost.get(task as usize).copied().unwrap_or(0);
            total = total.saturating_add(it as u64);
        }
        total
    }
}
