//! Relations of two sets of the same type: whether one is a subset of the other, whether they are
//! disjoint, and whether the same bits are set in both.
//!
//! Each function combines the two sets, and tests whether the result is empty. So it accepts every
//! capacity, while `is_subset` and `is_disjoint` of `bittle_ext` require a shape that fits.

ghost use Rattle.std.specs.Prelude.{◌↔◌, IsTrue};
ghost use Rattle.bittle.specs.Comparison.{AreSame};
ghost use Rattle.bittle_ext.specs.SetRelations.{IsSubset, AreDisjoint};

use bittle::{Bits, BitsOwned};

/// Returns whether each bit that is set in the first is set in the second.
pub fn is_subset<B: BitsOwned>(first: B, second: B) -> bool
    ensures { IsTrue result ↔ IsSubset (B.big first) (B.big second) }
{
    first.difference(second).all_zeros()
}

/// Returns whether no bit is set in both.
pub fn is_disjoint<B: BitsOwned>(first: B, second: B) -> bool
    ensures { IsTrue result ↔ AreDisjoint (B.big first) (B.big second) }
{
    first.conjunction(second).all_zeros()
}

/// Returns whether the same bits are set in both. It combines the sets only if `==` returns
/// `false`.
pub fn have_same_members<B: BitsOwned>(first: B, second: B) -> bool
    ensures { IsTrue result ↔ AreSame (B.big first) (B.big second) }
{
    first == second || first.symmetric_difference(second).all_zeros()
}
