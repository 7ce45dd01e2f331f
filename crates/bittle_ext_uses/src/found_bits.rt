//! What a search, or a test of a range, says about single bits. The functions `first_open_bay` and
//! `first_missing` are proved by the lemma that their attribute names. Each other function has a
//! short proof file.

ghost use Rattle.std.specs.Prelude.{◌≡◌, ◌↔◌, ◌+◌, ◌<◌, ◌≤◌, ◌||◌, ℕ, true, false, IfSome, IsTrue};
ghost use Rattle.std.specs.Prelude.{MatchOption};
ghost use Rattle.bittle.specs.BitPatterns.{bit_set};
ghost use Rattle.bittle.specs.PlainSet.{complement, contains};
ghost use Rattle.bittle.specs.Rows.{row_set};
ghost use Rattle.bittle.specs.Searches.{IsFirstIn};
ghost use Rattle.bittle.specs.SetOperations.{first_alone, union_of};
ghost use Rattle.bittle_ext.specs.Combined.{either_of};
ghost use Rattle.bittle_ext.specs.RangeMembers.{members_within};
ghost use Rattle.bittle_ext.specs.Runs.{IsFirstRun};
ghost use Rattle.bittle_ext.specs.SetRelations.{AreDisjoint, IsFirstAlone};
ghost use Rattle.bittle_ext.specs.Views.{decided_of_first};

use bittle::BitsOwned;
use bittle_ext::prelude::*;

/// Returns the first of 200 bays that is neither taken nor closed.
#[tactic(auto, using(bittle_lemmas::proofs::FoundNumbers::first_unset_in_same))]
pub fn first_open_bay(taken: &[u64; 4], closed: &[u64; 4]) -> Option<u32>
    ensures { IsFirstIn (complement (either_of (row_set 4 64 (bit_set 64) taken.now)
        (row_set 4 64 (bit_set 64) closed.now))) 0 200 result }
{
    taken.or(closed).first_zero_in_range(0, 200)
}

/// Returns the first of 24 hours that is free for both people. In each hour before it, one of them
/// is busy.
#[tactic(auto, using(bittle_lemmas::proofs::FoundNumbers::first_unset_in_same))]
pub fn free_for_both(one: u32, other: u32) -> Option<u32>
    ensures free { IsFirstIn (complement (either_of (bit_set 32 one) (bit_set 32 other))) 0 24
        result }
    ensures before { IfSome result (λ hour. (k : ℕ) → k < hour
        → (contains (bit_set 32 one) k || contains (bit_set 32 other) k) ≡ true) }
{
    let hour = one.or(&other).first_zero_in_range(0, 24)?;
    Some(hour)
}

/// Returns the first of 200 bays that is wide and not taken.
pub fn first_wide_bay(wide: &[u64; 4], taken: &[u64; 4]) -> Option<u32>
    ensures { IsFirstIn (decided_of_first first_alone (row_set 4 64 (bit_set 64) wide.now)
        (row_set 4 64 (bit_set 64) taken.now)) 0 200 result }
{
    wide.minus(taken).first_one_in_range(0, 200)
}

/// Returns the first bit that is set in `wanted` and unset in `owned`.
#[tactic(auto, using(bittle::proofs::CallerSets::contains_within))]
pub fn first_missing(wanted: u64, owned: u64) -> Option<u32>
    ensures first { IsFirstAlone (bit_set 64 wanted) (bit_set 64 owned) result }
    ensures wanted { IfSome result (λ k. contains (bit_set 64 wanted) k ≡ true) }
    ensures missing { IfSome result (λ k. contains (bit_set 64 owned) k ≡ false) }
{
    let found = wanted.first_alone(&owned)?;
    Some(found)
}

/// Returns whether a person was there on each day of the range `from..to`, in a month of 31 days.
pub fn was_there_all(days: u32, from: u32, to: u32) -> bool
    requires { to ≤ 31 }
    ensures { IsTrue result ↔ ((k : ℕ) → from ≤ k → k < to → contains (bit_set 32 days) k ≡ true) }
{
    days.all_in_range(from, to)
}

/// Returns the first day from day `from` on that a person was absent, in a month of 31 days.
pub fn first_absence(days: u32, from: u32) -> Option<u32>
    ensures unset { IfSome result (λ day. contains (bit_set 32 days) day ≡ false) }
    ensures before { IfSome result
        (λ day. (k : ℕ) → from ≤ k → k < day → contains (bit_set 32 days) k ≡ true) }
    ensures none { MatchOption result
        ((k : ℕ) → from ≤ k → k < 31 → contains (bit_set 32 days) k ≡ true) (λ day. day < 31) }
{
    let day = days.first_zero_in_range(from, 31)?;
    Some(day)
}

/// Returns the start of the first run of `length` free numbers, among the numbers 1 to 4,094.
pub fn free_run(taken: &[u64; 64], length: u32) -> Option<u32>
    ensures run { IsFirstRun (members_within (complement (row_set 64 64 (bit_set 64) taken.now)) 1
        4095) 1 length result }
    ensures within { IfSome result (λ first. (1 ≤ first) × (first + length ≤ 4095)) }
    ensures free { IfSome result (λ first. (k : ℕ) → first ≤ k → k < first + length
        → contains (row_set 64 64 (bit_set 64) taken.now) k ≡ false) }
{
    let first = taken.first_zero_run_in_range(1, 4095, length)?;
    Some(first)
}

/// Returns the squares that are neither occupied nor attacked.
pub fn safe_squares(occupied: u64, attacked: u64) -> u64
    ensures set { bit_set 64 result
        ≡ complement (union_of (bit_set 64 occupied) (bit_set 64 attacked)) }
    ensures free { AreDisjoint (bit_set 64 result) (bit_set 64 occupied) }
    ensures safe { AreDisjoint (bit_set 64 result) (bit_set 64 attacked) }
{
    occupied.union(attacked).complement()
}
