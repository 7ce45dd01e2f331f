//! Iterators over a range of a set.

ghost use Rattle.std.specs.Iterator.{YieldsLast};
ghost use Rattle.std.specs.Prelude.{◌≡◌, ◌-◌, ◌≤◌, ℕ, List, [], ◌∷◌, ◌++◌, Option, None};
ghost use Rattle.std.specs.Prelude.{MatchOption};
ghost use Rattle.std.specs.Prelude.{option_map, slice_index, unwrap_or};
ghost use Rattle.std.specs.List.{fold};
ghost use Rattle.bittle.specs.BitPatterns.{bit_set};
ghost use Rattle.bittle.specs.PlainSet.{ascending, complement, empty_set};
ghost use Rattle.bittle.specs.PlainSet.{members_below, with_index};
ghost use Rattle.bittle.specs.Values.{set_in, ShapeFits};
ghost use Rattle.bittle_ext.specs.RangeMembers.{members_within};

use bittle::{Bits, Endian};
use bittle_ext::range_iterators::IterZerosInRange;
use bittle_ext::{BitsExt, BitsOwnedExt, BitsRangeExt, BitsViewExt};

/// Counts the unset bits of a range in two ways. The two counts are equal, for any set and any
/// order.
pub fn count_twice<B: Bits, E: Endian>(set: &B, from: u32, to: u32) -> (usize, u32)
    requires fits { ShapeFits B.Shape set.now }
    requires ordered { from ≤ to }
    requires within { to ≤ (B.big set.now).capacity }
    ensures { result.0 ≡ result.1 }
{
    let view = set.in_order::<E>();
    let walked = view.iter_zeros_in_range(from, to).count();
    (walked, view.count_zeros_in_range(from, to))
}

/// Returns the entry of a table at the last set bit of a range, or 0 if there is none.
pub fn last_entry(mask: u64, from: u32, to: u32, table: &[u32; 64]) -> u32
    requires ordered { from ≤ to }
    requires within { to ≤ 64 }
    ensures { (last : Option ℕ) × (rest : List ℕ)
        × YieldsLast (λ items. items)
        (ascending (members_within (bit_set 64 mask) from to)) last rest
        × (result ≡ unwrap_or (option_map (λ i. slice_index table.now i) last) 0) }
{
    match mask.iter_ones_in_range(from, to).next_back() {
        Some(index) => table[index as usize],
        None => 0,
    }
}

/// Returns the entry of `window` for the last unset bit of the range `16..32`, or 0 if there is
/// none. Entry 0 of the window is for index 16.
pub fn last_in_window(mask: u64, window: &[u32; 16]) -> u32
    ensures { (last : Option ℕ) × (rest : List ℕ)
        × YieldsLast (λ items. items)
        (ascending (members_within (complement (bit_set 64 mask)) 16 32)) last rest
        × (result ≡ unwrap_or (option_map (λ i. slice_index window.now (i - 16)) last) 0) }
{
    match mask.iter_zeros_in_range(16, 32).next_back() {
        Some(index) => window[index as usize - 16],
        None => 0,
    }
}

/// For each unset bit of the range `16..32`, sets its entry of `window` to `true`. The function has
/// no clause of its own. The check proves that each item of the iterator has an entry in `window`.
pub fn mark_free(mask: u64, window: &mut [bool; 16]) {
    for index in mask.iter_zeros_in_range(16, 32) {
        window[index as usize - 16] = true;
    }
}

/// Returns how many bits of a range are set, and a word with just these bits set. The count uses up
/// a clone of the iterator, so the iterator itself stays as it was.
pub fn counted(mask: u16, from: u32, to: u32) -> (usize, u16)
    requires ordered { from ≤ to }
    requires within { to ≤ 16 }
    ensures count { result.0
        ≡ members_below (bit_set 16 mask) to - members_below (bit_set 16 mask) from }
    ensures word { bit_set 16 result.1 ≡ fold with_index (empty_set 16)
        (ascending (members_within (bit_set 16 mask) from to)) }
{
    let walk = mask.iter_ones_in_range(from, to);
    let count = match walk.clone() {
        Ok(again) => again.count(),
        Err(_) => 0,
    };
    (count, u16::from_iter(walk))
}

/// Returns the first and the last unset bit in a range of any set. If there is just one such bit,
/// the second result is `None`.
pub fn free_ends<B: Bits, E: Endian>(set: &B, from: u32, to: u32) -> (Option<u32>, Option<u32>)
    requires fits { ShapeFits B.Shape set.now }
    requires ordered { from ≤ to }
    requires within { to ≤ (B.big set.now).capacity }
    ensures { let free = ascending (members_within (complement (set_in B.Shape E.Endian set.now))
        from to) in
        MatchOption result.0 ((free ≡ []) × (result.1 ≡ None))
        (λ first. MatchOption result.1 (free ≡ first ∷ [])
        (λ last. (between : List ℕ) × (free ≡ first ∷ (between ++ last ∷ [])))) }
{
    let view = set.in_order::<E>();
    let mut walk = view.iter_zeros_in_range(from, to);
    (walk.next(), walk.next_back())
}

/// Returns an iterator over the unset bits in a range of any set. The iterator borrows nothing but
/// the set.
pub fn iter_free<'a, B: Bits>(set: &'a B, from: u32, to: u32) -> IterZerosInRange<'a, B, B::Order>
    requires fits { ShapeFits B.Shape set.now }
    requires ordered { from ≤ to }
    requires within { to ≤ (B.big set.now).capacity }
    ensures { result.remaining ≡ ascending
        (members_within (complement (set_in B.Shape B.Order.Endian set.now)) from to) }
{
    set.iter_zeros_in_range(from, to)
}
