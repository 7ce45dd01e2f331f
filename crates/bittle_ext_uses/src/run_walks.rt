//! Iterators over the maximal runs of a set.

ghost use Rattle.std.specs.Iterator.{YieldsFirst, YieldsLast};
ghost use Rattle.std.specs.List.{All};
ghost use Rattle.std.specs.Prelude.{◌≡◌, ◌-◌, ◌≤◌, ℕ, List, fold, length, max};
ghost use Rattle.std.specs.declared.ops.Range.{Range};
ghost use Rattle.bittle.specs.BitPatterns.{bit_set};
ghost use Rattle.bittle.specs.PlainSet.{complement};
ghost use Rattle.bittle.specs.Values.{set_in, ShapeFits};
ghost use Rattle.bittle_ext.specs.Runs.{runs};

use bittle::{Bits, Endian};
use bittle_ext::{BitsMutExt, BitsRangeExt, BitsViewExt};
use std::ops::Range;

/// Returns the first and the last run of unset bits of any set. If there is just one run, the
/// second result is `None`.
pub fn free_runs<B: Bits, E: Endian>(set: &B) -> (Option<Range<u32>>, Option<Range<u32>>)
    requires { ShapeFits B.Shape set.now }
    ensures { (rest : List (Range ℕ)) × (left : List (Range ℕ))
        × YieldsFirst (λ items. items) (runs (complement (set_in B.Shape E.Endian set.now)))
        result.0 rest
        × YieldsLast (λ items. items) rest result.1 left }
{
    let view = set.in_order::<E>();
    let mut walk = view.iter_zero_runs();
    (walk.next(), walk.next_back())
}

/// Counts the runs of set bits twice. The first count uses up a clone of the iterator.
pub fn counted_twice(mask: u32) -> (usize, usize)
    ensures first { result.0 ≡ length (runs (bit_set 32 mask)) }
    ensures second { result.1 ≡ length (runs (bit_set 32 mask)) }
{
    let walk = mask.iter_one_runs();
    let count = match walk.clone() {
        Ok(again) => again.count(),
        Err(_) => 0,
    };
    (count, walk.count())
}

/// Returns how long the longest run of set bits is. The check proves that a run ends past its
/// start.
pub fn longest(mask: u64) -> u32
    ensures { result
        ≡ fold (λ most run. max most (run.end - run.start)) 0 (runs (bit_set 64 mask)) }
{
    let mut longest = 0;
    for run in mask.iter_one_runs() {
        longest = longest.max(run.end - run.start);
    }
    longest
}

/// Returns the length of the longest run of set bits. No run is longer.
pub fn bound(mask: u64) -> u32
    ensures { All (λ run. run.end - run.start ≤ result) (runs (bit_set 64 mask)) }
{
    let mut longest = 0;
    for run in mask.iter_one_runs() {
        longest = longest.max(run.end - run.start);
    }
    longest
}

/// Sets in `row` all bits that are set in `mask`, one run after another. The check proves that no
/// run ends past the capacity.
pub fn set_runs(mask: u16, row: &mut [u8; 2]) {
    for run in mask.iter_one_runs() {
        row.set_range(run.start, run.end);
    }
}

/// Returns the entry of a table at the start of the last run, or 0 if there is no run. The check
/// proves that each start is an index of the table.
pub fn last_start(mask: u16, table: &[u32; 16]) -> u32 {
    let mut last = 0;
    for run in mask.iter_one_runs() {
        last = table[run.start as usize];
    }
    last
}
