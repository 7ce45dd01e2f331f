//! Hands out runs of neighbouring pages of a pool, and takes them back.
//!
//! What is proved: pages that are handed out were free before, and they and no others become taken.
//! Only pages that are taken are given back. So no page is handed out again before it was given
//! back.
#![tactic(auto)]

ghost use Rattle.std.specs.Prelude.{◌≡◌, ◌+◌, ◌≤◌, MatchBool, MatchOption};
ghost use Rattle.bittle.specs.BitPatterns.{bit_set};
ghost use Rattle.bittle.specs.PlainSet.{complement, with_span, without_span};
ghost use Rattle.bittle.specs.Rows.{row_set};
ghost use Rattle.bittle_ext.specs.RangeMembers.{HasAllIn, LacksSomeIn};
ghost use Rattle.bittle_ext.specs.Runs.{IsFirstRun};

use bittle::BitsMut;
use bittle_ext::prelude::*;
use std::io;

/// How many pages a pool has.
const PAGES: u32 = 128;

/// A pool of pages. A page is taken if its bit is set.
#[derive(Drop)]
struct Pool {
    taken: [u64; 2],
}

impl Pool {
    /// Takes the first run of `pages` free pages, and returns its first page. If there is no such
    /// run, nothing changes, and it returns `None`.
    fn allocate(&mut self, pages: u32) -> Option<u32>
        ensures free { IsFirstRun (complement (row_set 2 64 (bit_set 64) self.old.taken)) 0
            pages result }
        ensures taken { MatchOption result (self.new.taken ≡ self.old.taken) (λ first.
            row_set 2 64 (bit_set 64) self.new.taken
            ≡ with_span (row_set 2 64 (bit_set 64) self.old.taken) first (first + pages)) }
    {
        let first = self.taken.first_zero_run(pages)?;
        self.taken.set_range(first, first + pages);
        Some(first)
    }

    /// Gives back the `pages` pages from `first` on, and returns `true`. If they end past the pool,
    /// or one of them is not taken, nothing changes, and it returns `false`.
    fn release(&mut self, first: u32, pages: u32) -> bool
        ensures { let before = row_set 2 64 (bit_set 64) self.old.taken in
            MatchBool result
            ((first + pages ≤ 128) × HasAllIn before first (first + pages)
            × (row_set 2 64 (bit_set 64) self.new.taken
            ≡ without_span before first (first + pages)))
            ((self.new.taken ≡ self.old.taken)
            × (first + pages ≤ 128 → LacksSomeIn before first (first + pages))) }
    {
        if first > PAGES || pages > PAGES - first {
            return false;
        }
        if !self.taken.all_in_range(first, first + pages) {
            return false;
        }
        self.taken.clear_range(first, first + pages);
        true
    }
}

fn main(rt: HostRuntime) -> io::Result<()> {
    let mut pool = Pool { taken: [0; 2] };
    for pages in [60, 10, 58, 1] {
        match pool.allocate(pages) {
            Some(first) => println!(rt; "{pages} pages from {first} on")?,
            None => println!(rt; "no {pages} free pages in a row")?,
        }
    }
    for (first, pages) in [(60, 10), (59, 2), (128, 1)] {
        let released = pool.release(first, pages);
        println!(rt; "release of {pages} pages from {first} on: {released}")?;
    }
    for pages in [11, 4, 6] {
        match pool.allocate(pages) {
            Some(first) => println!(rt; "{pages} pages from {first} on")?,
            None => println!(rt; "no {pages} free pages in a row")?,
        }
    }
    Ok(())
}
