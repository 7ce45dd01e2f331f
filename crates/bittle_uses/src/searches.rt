//! Tests and searches of all set bits of a set.
//!
//! Most functions here call a method of an iterator. `last` calls a search of `bittle_ext`, which
//! reads word by word.

ghost use Rattle.std.specs.List.{list_any, list_all, reduce, zip};
ghost use Rattle.std.specs.Prelude.{◌≡◌, ◌↔◌, ◌<◌, ℕ, true, IfOk, IsTrue, max, nat_lt, nat_le};
ghost use Rattle.bittle.specs.PlainSet.{ascending};
ghost use Rattle.bittle.specs.Searches.{IsLastIn};
ghost use Rattle.bittle.specs.Values.{set_in, ShapeFits};

use bittle::Bits;
use bittle_ext::BitsExt;
use std::alloc::{AllocError, Global};

/// Returns whether a bit above a bound is set.
pub fn has_any_above<B: Bits>(set: &B, bound: u32) -> bool
    requires { ShapeFits B.Shape set.now }
    ensures { result
        ≡ list_any (λ i. nat_lt bound i) (ascending (set_in B.Shape B.Order.Endian set.now)) }
{
    set.iter_ones().any(|member| bound < member)
}

/// Returns the greatest set bit, or `None` if no bit is set.
pub fn greatest<B: Bits>(set: &B) -> Option<u32>
    requires { ShapeFits B.Shape set.now }
    ensures { result ≡ reduce max (ascending (set_in B.Shape B.Order.Endian set.now)) }
{
    set.iter_ones().max()
}

/// Returns the greatest set bit, or `None` if no bit is set. It searches from the last word back.
pub fn last<B: Bits>(set: &B) -> Option<u32>
    requires { ShapeFits B.Shape set.now }
    ensures { let members = set_in B.Shape B.Order.Endian set.now in
        IsLastIn members 0 members.capacity result }
{
    set.last_one()
}

/// Returns whether each bit is set.
pub fn has_all<B: Bits>(set: &B) -> bool
    ensures { let members = set_in B.Shape B.Order.Endian set.now in
        IsTrue result ↔ ((k : ℕ) → k < members.capacity → members.has k ≡ true) }
{
    set.all_ones()
}

/// Returns a vector of the indexes of the set bits, in increasing order.
pub fn list_members<B: Bits>(alloc: Global, set: &B) -> Result<Vec<u32>, AllocError>
    requires { ShapeFits B.Shape set.now }
    ensures { IfOk result
        (λ list. list.items ≡ ascending (set_in B.Shape B.Order.Endian set.now)) }
{
    set.iter_ones().collect(alloc)
}

/// Pairs the least set bit of `first` with the least of `second`, the next one with the next one,
/// and so on, until one of the sets has no more. Returns whether in each pair the index from
/// `first` is at most the index from `second`.
pub fn is_pairwise_below<A: Bits, B: Bits>(first: &A, second: &B) -> bool
    requires first_fits { ShapeFits A.Shape first.now }
    requires second_fits { ShapeFits B.Shape second.now }
    ensures { result ≡ list_all (λ pair. nat_le pair.0 pair.1)
        (zip (ascending (set_in A.Shape A.Order.Endian first.now))
        (ascending (set_in B.Shape B.Order.Endian second.now))) }
{
    first
        .iter_ones()
        .zip(second.iter_ones())
        .all(|(one, other)| one <= other)
}
