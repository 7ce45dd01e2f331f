//! The clauses of the first table of `docs/PROVING.md`, in its order: for each call on a word, a
//! function that states them. No function names a lemma, and none has a proof file.

ghost use Rattle.std.specs.List.{fold};
ghost use Rattle.std.specs.Prelude.{◌≡◌, ◌↔◌, ◌+◌, ◌-◌, ◌<◌, ◌≤◌, ◌==◌, true, false, IsTrue};
ghost use Rattle.std.specs.Prelude.{IfSome, MatchBool, MatchOption, slice_get};
ghost use Rattle.bittle.specs.BitPatterns.{bit_set};
ghost use Rattle.bittle.specs.PlainSet.{ascending, complement, contains, empty_set};
ghost use Rattle.bittle.specs.PlainSet.{members_below, size, with_index};
ghost use Rattle.bittle.specs.Searches.{IsFirstIn, IsLastIn, NoneIn};
ghost use Rattle.bittle_ext.specs.Between.{Differ};
ghost use Rattle.bittle_ext.specs.Combined.{both_of, first_only_of};
ghost use Rattle.bittle_ext.specs.RangeMembers.{HasAllIn, HasSomeIn, LacksSomeIn};
ghost use Rattle.bittle_ext.specs.Runs.{IsFirstRun};
ghost use Rattle.bittle_ext.specs.SetRelations.{AreDisjoint, IsSubset};

use bittle::{Bits, BitsOwned};
use bittle_ext::prelude::*;

/// Returns whether the bit at `i` is set. An index past the capacity wraps.
pub fn test(set: u64, i: u32) -> bool
    ensures value { result ≡ contains (bit_set 64 set) i }
    ensures exactly { IsTrue result ↔ contains (bit_set 64 set) i ≡ true }
{
    set.test_bit(i)
}

/// Returns whether the bit at `i`, an index below the capacity, is set.
pub fn test_below(set: u64, i: u32) -> bool
    requires { i < 64 }
    ensures { result ≡ (bit_set 64 set).has i }
{
    set.test_bit(i)
}

/// Returns whether no bit is set.
pub fn none_set(set: u64) -> bool
    ensures { result ≡ (size (bit_set 64 set) == 0) }
{
    set.all_zeros()
}

/// Returns whether each bit is set.
pub fn each_set(set: u64) -> bool
    ensures { result ≡ (size (bit_set 64 set) == 64) }
{
    set.all_ones()
}

/// Returns how many bits are set.
pub fn count_set(set: u64) -> u32
    ensures { result ≡ size (bit_set 64 set) }
{
    Bits::count_ones(&set)
}

/// Returns how many bits with an index below `i` are set, and how many are unset.
pub fn ranks(set: u64, i: u32) -> (u32, u32)
    ensures set { result.0 ≡ members_below (bit_set 64 set) i }
    ensures unset { result.1 ≡ members_below (complement (bit_set 64 set)) i }
{
    (set.rank(i), set.rank_zero(i))
}

/// Returns how many bits are unset.
pub fn count_unset(set: u64) -> u32
    ensures { result ≡ 64 - size (bit_set 64 set) }
{
    Bits::count_zeros(&set)
}

/// Returns how many bits are unset, as the size of the complement.
pub fn count_complement(set: u64) -> u32
    ensures { result ≡ size (complement (bit_set 64 set)) }
{
    set.rank_zero(64)
}

/// Returns how many bits are unset, so that all bits add up.
pub fn count_rest(set: u64) -> u32
    ensures { result + size (bit_set 64 set) ≡ 64 }
{
    64 - Bits::count_ones(&set)
}

/// Returns whether `i` is a member. No index past the capacity is.
pub fn contains_number(set: u64, i: u32) -> bool
    ensures { result ≡ (bit_set 64 set).has i }
{
    set.contains_index(i)
}

/// Returns whether `i`, which is below the capacity, is a member.
pub fn contains_number_below(set: u64, i: u32) -> bool
    requires { i < 64 }
    ensures { result ≡ contains (bit_set 64 set) i }
{
    set.contains_index(i)
}

/// Returns how many members two words have in common, and how many the first one has alone.
pub fn count_two(set: u64, other: u64) -> (u32, u32)
    ensures common { result.0 ≡ size (both_of (bit_set 64 set) (bit_set 64 other)) }
    ensures alone { result.1 ≡ size (first_only_of (bit_set 64 set) (bit_set 64 other)) }
{
    (set.count_common(&other), set.count_alone(&other))
}

/// Counts the members that two words have in common. There is none if the words are disjoint.
pub fn count_in_both(set: u64, other: u64) -> u32
    ensures { (result ≡ 0) ↔ AreDisjoint (bit_set 64 set) (bit_set 64 other) }
{
    set.count_common(&other)
}

/// Counts the members that one word has alone. There is none if this word is a subset.
pub fn count_in_first(set: u64, other: u64) -> u32
    ensures { (result ≡ 0) ↔ IsSubset (bit_set 64 set) (bit_set 64 other) }
{
    set.count_alone(&other)
}

/// Returns the least member from `from` on.
pub fn next_member(set: u64, from: u32) -> Option<u32>
    ensures has { MatchOption result (NoneIn (bit_set 64 set) from 64)
        (λ i. (bit_set 64 set).has i ≡ true) }
    ensures contains { IfSome result (λ i. contains (bit_set 64 set) i ≡ true) }
{
    set.next_one(from)
}

/// Returns member number `k`, counted from 0.
pub fn member_of_rank(set: u64, k: u32) -> Option<u32>
    ensures { result ≡ slice_get (ascending (bit_set 64 set)) k }
{
    set.select(k)
}

/// Returns the least index of an unset bit.
pub fn first_unset(set: u64) -> Option<u32>
    ensures least { IsFirstIn (complement (bit_set 64 set)) 0 64 result }
    ensures found { MatchOption result (size (bit_set 64 set) ≡ 64)
        (λ i. contains (bit_set 64 set) i ≡ false) }
{
    set.first_zero()
}

/// Returns the greatest index of a set bit.
pub fn last_set(set: u64) -> Option<u32>
    ensures { IsLastIn (bit_set 64 set) 0 64 result }
{
    set.last_one()
}

/// Returns where the first run of `n` unset bits begins.
pub fn first_unset_run(set: u64, n: u32) -> Option<u32>
    ensures { IsFirstRun (complement (bit_set 64 set)) 0 n result }
{
    set.first_zero_run(n)
}

/// Returns whether a bit of the range is set.
pub fn any_in(set: u64, from: u32, to: u32) -> bool
    requires ordered { from ≤ to }
    requires within { to ≤ 64 }
    ensures { MatchBool result (HasSomeIn (bit_set 64 set) from to)
        (NoneIn (bit_set 64 set) from to) }
{
    set.any_in_range(from, to)
}

/// Returns whether each bit of the range is set.
pub fn all_in(set: u64, from: u32, to: u32) -> bool
    requires ordered { from ≤ to }
    requires within { to ≤ 64 }
    ensures { MatchBool result (HasAllIn (bit_set 64 set) from to)
        (LacksSomeIn (bit_set 64 set) from to) }
{
    set.all_in_range(from, to)
}

/// Returns whether each member of `set` is a member of `other`.
pub fn is_part(set: u64, other: u64) -> bool
    ensures { IsTrue result ↔ IsSubset (bit_set 64 set) (bit_set 64 other) }
{
    set.is_subset(&other)
}

/// Adds the members of `other`, and returns whether the set changed.
pub fn unite(set: &mut u64, other: u64) -> bool
    ensures kept { IsSubset (bit_set 64 set.old) (bit_set 64 set.new) }
    ensures added { IsSubset (bit_set 64 other) (bit_set 64 set.new) }
    ensures changed { IsTrue result ↔ Differ (bit_set 64 set.old) (bit_set 64 set.new) }
{
    set.union_with(&other)
}

/// Keeps the members that `other` has too, and returns whether the set changed.
pub fn intersect(set: &mut u64, other: u64) -> bool
    ensures subset { IsSubset (bit_set 64 set.new) (bit_set 64 set.old) }
    ensures within { IsSubset (bit_set 64 set.new) (bit_set 64 other) }
    ensures changed { IsTrue result ↔ Differ (bit_set 64 set.old) (bit_set 64 set.new) }
{
    set.intersect_with(&other)
}

/// Takes the members of `other` out, and returns whether the set changed.
pub fn subtract(set: &mut u64, other: u64) -> bool
    ensures subset { IsSubset (bit_set 64 set.new) (bit_set 64 set.old) }
    ensures apart { AreDisjoint (bit_set 64 set.new) (bit_set 64 other) }
    ensures changed { IsTrue result ↔ Differ (bit_set 64 set.old) (bit_set 64 set.new) }
{
    set.difference_with(&other)
}

/// Flips the members of `other`, and returns whether the set changed.
pub fn flip(set: &mut u64, other: u64) -> bool
    ensures { IsTrue result ↔ Differ (bit_set 64 set.old) (bit_set 64 set.new) }
{
    set.symmetric_difference_with(&other)
}

/// Returns the union.
pub fn united(set: u64, other: u64) -> u64
    ensures kept { IsSubset (bit_set 64 set) (bit_set 64 result) }
    ensures added { IsSubset (bit_set 64 other) (bit_set 64 result) }
{
    set.union(other)
}

/// Returns the conjunction.
pub fn common(set: u64, other: u64) -> u64
    ensures subset { IsSubset (bit_set 64 result) (bit_set 64 set) }
    ensures within { IsSubset (bit_set 64 result) (bit_set 64 other) }
{
    set.conjunction(other)
}

/// Returns the difference.
pub fn without(set: u64, other: u64) -> u64
    ensures subset { IsSubset (bit_set 64 result) (bit_set 64 set) }
    ensures apart { AreDisjoint (bit_set 64 result) (bit_set 64 other) }
{
    set.difference(other)
}

/// Returns the complement.
pub fn flipped(set: u64) -> u64
    ensures { AreDisjoint (bit_set 64 set) (bit_set 64 result) }
{
    set.complement()
}

/// Returns the set of the numbers of a list. A number past the capacity wraps.
pub fn listed(numbers: &[u32]) -> u64
    ensures { bit_set 64 result ≡ fold with_index (empty_set 64) numbers.now }
{
    u64::from_indexes(numbers)
}

/// Adds the numbers of a list. A number past the capacity wraps.
pub fn add_listed(set: &mut u64, numbers: &[u32])
    ensures { bit_set 64 set.new ≡ fold with_index (bit_set 64 set.old) numbers.now }
{
    set.insert_all(numbers);
}
