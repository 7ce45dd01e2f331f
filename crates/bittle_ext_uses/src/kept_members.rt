//! Which members a set keeps, gains or loses in a call, and how many it has then: each function
//! needs one clause that a call promises besides the whole new set.

ghost use Rattle.std.specs.Prelude.{◌≡◌, ◌<◌, ◌≤◌, ◌+◌, ℕ, IfSome, IsSome, false, true};
ghost use Rattle.bittle.specs.BitPatterns.{bit_set};
ghost use Rattle.bittle.specs.PlainSet.{contains, size};
ghost use Rattle.bittle.specs.Rows.{row_set};
ghost use Rattle.bittle.specs.Searches.{NoneIn};
ghost use Rattle.bittle_ext.specs.RangeMembers.{HasAllIn};
ghost use Rattle.bittle_ext.specs.SetRelations.{AreDisjoint, IsSubset};

use bittle::prelude::*;
use bittle_ext::prelude::*;

/// Adds what was seen now to what was seen before. Returns whether anything is new.
pub fn see(seen: &mut u64, now: u64) -> bool
    ensures kept { IsSubset (bit_set 64 seen.old) (bit_set 64 seen.new) }
    ensures added { IsSubset (bit_set 64 now) (bit_set 64 seen.new) }
{
    seen.union_with(&now)
}

/// Keeps the permissions of a mask that are allowed. Returns whether the mask changed.
pub fn restrict(mask: &mut u64, allowed: u64) -> bool
    ensures within { IsSubset (bit_set 64 mask.new) (bit_set 64 allowed) }
    ensures subset { IsSubset (bit_set 64 mask.new) (bit_set 64 mask.old) }
{
    mask.intersect_with(&allowed)
}

/// Takes permissions out of a mask.
pub fn revoke(mask: &mut u64, gone: u64)
    ensures { AreDisjoint (bit_set 64 mask.new) (bit_set 64 gone) }
{
    mask.difference_with(&gone);
}

/// Returns the lowest 16 bits of a word.
pub fn low_half(wide: u64) -> u16
    ensures { (k : ℕ) → k < 16 → contains (bit_set 16 result) k ≡ (bit_set 64 wide).has k }
{
    u16::from_set(&wide)
}

/// Keeps the tasks that cost at most `limit`.
pub fn keep_cheap(tasks: &mut u64, costs: &[u32; 64], limit: u32)
    ensures { IsSubset (bit_set 64 tasks.new) (bit_set 64 tasks.old) }
{
    tasks.retain(|task| costs[task as usize] <= limit);
}

/// Reserves the lowest `n` pages of a map.
pub fn reserve_low(map: &mut [u64; 2], n: u32)
    requires { n ≤ 128 }
    ensures { HasAllIn (row_set 2 64 (bit_set 64) map.new) 0 n }
{
    map.set_span(..n);
}

/// Frees a block of pages.
pub fn free_block(map: &mut [u64; 4], first: u32, many: u32)
    requires { first + many ≤ 256 }
    ensures { NoneIn (row_set 4 64 (bit_set 64) map.new) first (first + many) }
{
    map.clear_span(first..first + many);
}

/// Returns the median of a set of values, or `None` if the set is empty.
pub fn median(values: u64) -> Option<u32>
    ensures { IfSome result (λ i. (bit_set 64 values).has i ≡ true) }
{
    let middle = values.select(Bits::count_ones(&values) / 2)?;
    Some(middle)
}

/// Returns the free seat in the middle: as many free seats lie below it as above it, or one more.
/// Returns `None` if no seat is free.
#[tactic(auto, using(bittle_ext::proofs::CallerMembers::unset_where_found, bittle_ext::proofs::CallerMembers::size_unset))]
pub fn middle_free(taken: u64) -> Option<u32>
    ensures free { IfSome result (λ seat. contains (bit_set 64 taken) seat ≡ false) }
    ensures below { IfSome result (λ seat. seat < 64) }
    ensures some { size (bit_set 64 taken) < 64 → IsSome result }
{
    let middle = taken.select_zero(Bits::count_zeros(&taken) / 2)?;
    Some(middle)
}

/// Returns where a sparse array keeps the entry of a key, or `None` if it has no such entry.
pub fn dense_index(present: u64, key: u32) -> Option<u32>
    ensures { IfSome result (λ i. i < size (bit_set 64 present)) }
{
    if present.contains_index(key) {
        Some(present.rank(key))
    } else {
        None
    }
}

/// Drops the `n` oldest samples. There are no more samples than before.
pub fn drop_samples(samples: &mut [u64; 4], n: u32)
    ensures { size (row_set 4 64 (bit_set 64) samples.new)
        ≤ size (row_set 4 64 (bit_set 64) samples.old) }
{
    samples.shift_down(n);
}

/// Adds the numbers of a list. There are no fewer members than before.
pub fn add_all(set: &mut [u64; 4], numbers: &[u8])
    ensures { size (row_set 4 64 (bit_set 64) set.old)
        ≤ size (row_set 4 64 (bit_set 64) set.new) }
{
    set.extend(numbers.iter().map(|x| *x as u32));
}

/// Returns how many of the first `n` slots are free.
pub fn free_among(taken: &[u64; 2], n: u32) -> u32
    ensures { result ≤ n }
{
    taken.complement_view().within(0, n).count_ones()
}

/// Returns how many wanted files are missing.
pub fn missing(have: &[u64; 4], want: &[u64; 4]) -> u32
    ensures { result ≤ size (row_set 4 64 (bit_set 64) want.now) }
{
    want.minus(have).count_ones()
}

/// Books a seat. Returns whether it was free, or `None` if there is no such seat.
pub fn book(seats: &mut [u64; 4], seat: u32) -> Option<bool>
    ensures { IfSome result (λ _. (row_set 4 64 (bit_set 64) seats.new).has seat ≡ true) }
{
    let free = seats.try_insert(seat)?;
    Some(free)
}

/// Gives a seat back. Returns whether it was booked, or `None` if there is no such seat.
pub fn unbook(seats: &mut [u64; 4], seat: u32) -> Option<bool>
    ensures { IfSome result (λ _. (row_set 4 64 (bit_set 64) seats.new).has seat ≡ false) }
{
    let booked = seats.try_remove(seat)?;
    Some(booked)
}

/// Records a hit or a miss as the latest of 32 steps.
pub fn record_step(history: &mut u32, hit: bool)
    ensures { contains (bit_set 32 history.new) 0 ≡ hit }
{
    history.shift_up(1);
    history.assign(0, hit);
}
