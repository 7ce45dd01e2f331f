//! Roles, which are sets of permissions: combined, compared, and kept in order in a caller's table.

ghost use Rattle.std.specs.List.Sorted.{IsPermutation, IsSorted};
ghost use Rattle.std.specs.List.{All, HoldsAt};
ghost use Rattle.std.specs.Prelude.{◌≡◌, ◌↔◌, Bool, IsTrue, MatchOption};
ghost use Rattle.bittle.specs.BitPatterns.{bit_set};
ghost use Rattle.bittle.specs.Comparison.{AreSame};
ghost use Rattle.bittle.specs.Orders.{read_in};
ghost use Rattle.bittle.specs.PlainSet.{complement};
ghost use Rattle.bittle.specs.SetOperations.{union_of};
ghost use Rattle.bittle_ext.specs.SetRelations.{IsSubset};

use bittle::{BitsOwned, Set};
use bittle_ext::BitsRelationExt;

/// Returns the permissions that at least one of two roles grants. The clause holds for roles read
/// in either order.
pub fn together(one: Set<u32>, other: Set<u32>) -> Set<u32>
    ensures { (mirrored : Bool) → read_in mirrored 32 (bit_set 32 result.bits)
        ≡ union_of (read_in mirrored 32 (bit_set 32 one.bits))
        (read_in mirrored 32 (bit_set 32 other.bits)) }
{
    one | other
}

/// Returns the permissions that at least one of two roles grants. The clause names `other` before
/// `one`.
#[tactic(auto, using(bittle_laws::proofs::CallerAlgebra::union_either_way))]
pub fn merged(one: u32, other: u32) -> u32
    ensures { bit_set 32 result ≡ union_of (bit_set 32 other) (bit_set 32 one) }
{
    one.union(other)
}

/// Returns the permissions that a role does not have.
pub fn withheld(role: Set<u32>) -> Set<u32>
    ensures { (mirrored : Bool) → read_in mirrored 32 (bit_set 32 result.bits)
        ≡ complement (read_in mirrored 32 (bit_set 32 role.bits)) }
{
    !role
}

/// Returns whether a role grants all that is asked.
pub fn allows(role: Set<u32>, asked: Set<u32>) -> bool
    ensures { IsTrue result
        ↔ IsSubset (bit_set 32 asked.bits) (bit_set 32 role.bits) }
{
    asked.is_subset(&role)
}

/// Sorts a table of roles.
pub fn sort(roles: &mut [Set<u32>])
    ensures same_roles { IsPermutation roles.old roles.new }
    ensures sorted { IsSorted ⟦<Set<u32> as Ord>⟧.cmp roles.new }
{
    roles.sort_unstable();
}

/// Searches a sorted table of roles. Returns the index of a role that grants exactly what `wanted`
/// grants, or `None` if no role does.
pub fn find(roles: &[Set<u32>], wanted: Set<u32>) -> Option<usize>
    requires { IsSorted ⟦<Set<u32> as Ord>⟧.cmp roles.now }
    ensures { let asked = bit_set 32 wanted.bits in
        MatchOption result
        (All (λ role. AreSame (bit_set 32 role.bits) asked → ⊥) roles.now)
        (λ place. HoldsAt (λ role. AreSame (bit_set 32 role.bits) asked) roles.now place) }
{
    roles.binary_search(&wanted).ok()
}
