//! Calls on sparse sets: some read a set, some read a view of two sets, some change a set.

ghost use Rattle.std.specs.Prelude.{◌≡◌, not, length};
ghost use Rattle.bittle.specs.BitPatterns.{bit_set};
ghost use Rattle.bittle.specs.PlainSet.{ascending, contains, with_index};
ghost use Rattle.bittle.specs.Rows.{row_set};
ghost use Rattle.bittle.specs.Searches.{IsFirstIn};
ghost use Rattle.bittle_ext.specs.Combined.{both_of};

use bittle_ext::prelude::*;
use bittle_tiers::prelude::*;

/// Counts the numbers that are members of both sparse sets, by an iterator.
pub fn items_of_both(left: &Tiered4K<Ones>, right: &Tiered4K<Ones>) -> usize
    ensures { result ≡ length (ascending (both_of
        (row_set 64 64 (bit_set 64) left.now.map) (row_set 64 64 (bit_set 64) right.now.map))) }
{
    left.and(right).iter_ones().count()
}

/// Sets to `true` each entry of `table` whose index is a member of both sparse sets. The other
/// entries stay the same.
pub fn mark_common(left: &Tiered4K<Ones>, right: &Tiered4K<Ones>, table: &mut [bool; 4096]) {
    for number in left.and(right).iter_ones() {
        table[number as usize] = true;
    }
}

/// Adds a number, and returns whether the set lacked it before.
pub fn note(set: &mut Tiered4K<Ones>, number: u32) -> bool
    ensures told { result ≡ not (contains (row_set 64 64 (bit_set 64) set.old.map) number) }
    ensures set { row_set 64 64 (bit_set 64) set.new.map
        ≡ with_index (row_set 64 64 (bit_set 64) set.old.map) number }
{
    set.insert(number)
}

/// Returns the least member of the set that is at least `from`, or `None` if there is none.
pub fn next(set: &Tiered256K<Ones>, from: u32) -> Option<u32>
    ensures { IsFirstIn (row_set 4096 64 (bit_set 64) set.now.map) from 262144 result }
{
    set.next_one(from)
}
