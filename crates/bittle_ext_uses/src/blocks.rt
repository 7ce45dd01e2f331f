//! A set that always includes another set, while both grow: all bad blocks of a memory are among
//! its used blocks.

ghost use Rattle.std.specs.Prelude.{◌≡◌, ◌+◌, ◌<◌, ◌≤◌, true, IfSome};
ghost use Rattle.bittle.specs.BitPatterns.{bit_set};
ghost use Rattle.bittle.specs.PlainSet.{complement, with_index, with_span};
ghost use Rattle.bittle.specs.Rows.{row_set};
ghost use Rattle.bittle_ext.specs.ReservedSpans.{includes};
ghost use Rattle.bittle_ext.specs.Runs.{IsFirstRun};

use bittle::BitsMut;
use bittle_ext::prelude::*;

/// A memory of 1,024 blocks. A bad block counts as used.
#[derive(Drop)]
pub struct Blocks {
    used: [u64; 16],
    bad: [u64; 16],
    pub ghost kept: { includes (row_set 16 64 (bit_set 64) used)
        (row_set 16 64 (bit_set 64) bad) ≡ true },
}

impl Blocks {
    /// Returns a memory of which only the bad blocks are used.
    #[tactic(auto, using(bittle_ext::proofs::IncludedSets::includes_itself))]
    pub fn new(bad: [u64; 16]) -> Blocks
        ensures used { result.used ≡ bad }
        ensures bad { result.bad ≡ bad }
    {
        Blocks { used: bad, bad }
    }

    /// Marks a block as bad and as used. A number past the last block changes nothing.
    #[tactic(auto, using(bittle_lemmas::proofs::IncludedPairs::includes_after_both))]
    pub fn mark_bad(&mut self, block: u32)
        ensures past { 1024 ≤ block → self.new.bad ≡ self.old.bad }
        ensures past_used { 1024 ≤ block → self.new.used ≡ self.old.used }
        ensures bad { block < 1024
            → row_set 16 64 (bit_set 64) self.new.bad
            ≡ with_index (row_set 16 64 (bit_set 64) self.old.bad) block }
        ensures used { block < 1024
            → row_set 16 64 (bit_set 64) self.new.used
            ≡ with_index (row_set 16 64 (bit_set 64) self.old.used) block }
    {
        if block < 1024 {
            self.used.set_bit(block);
            self.bad.set_bit(block);
        }
    }

    /// Takes the first run of `length` free blocks, and returns where it begins. Returns `None` if
    /// there is none.
    #[tactic(auto, using(bittle_ext::proofs::IncludedSets::includes_after_set_span))]
    pub fn take_run(&mut self, length: u32) -> Option<u32>
        ensures first { IsFirstRun (complement (row_set 16 64 (bit_set 64) self.old.used)) 0 length
            result }
        ensures used { IfSome result (λ first. row_set 16 64 (bit_set 64) self.new.used
            ≡ with_span (row_set 16 64 (bit_set 64) self.old.used) first (first + length)) }
        ensures bad { self.new.bad ≡ self.old.bad }
        ensures below { IfSome result (λ first. first + length ≤ 1024) }
    {
        let first = self.used.first_zero_run(length)?;
        self.used.set_range(first, first + length);
        Some(first)
    }
}
