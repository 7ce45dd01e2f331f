//! Callers of roles.

ghost use Rattle.std.specs.Prelude.{◌≡◌, ◌<◌, [], ◌∷◌, if◌then◌else◌, IfOk, IfSome, IsOk, IsTrue};
ghost use Rattle.std.specs.Prelude.{true};
ghost use Rattle.bittle.specs.BitPatterns.{bit_set};
ghost use Rattle.bittle.specs.Values.{set_in};
ghost use Rattle.bit_histories.specs.Histories.{IsHistory};
ghost use Rattle.bit_roles.specs.Roles.{Allows, roles_of, answer_to, roles_after};

use bit_roles::{Answer, Refused, Request, Roles};
use bittle::{Bits, BitsOwned};

/// Grants `permission` to `role`, and returns whether it is granted afterwards. The result is
/// always `true`, also if the grant is refused.
pub fn grant_and_ask<B: BitsOwned, const N: usize>(
    roles: &mut Roles<B, N>,
    role: u32,
    permission: u32,
) -> bool
    ensures { result ≡ true }
{
    match roles.grant(role, permission) {
        Ok(()) => roles.is_granted(role, permission),
        Err(Refused) => true,
    }
}

/// Gives a role a parent, and returns whether the role has that parent afterwards. The result is
/// always `true`, also if the request is refused.
pub fn inherit_and_ask<B: BitsOwned, const N: usize>(
    roles: &mut Roles<B, N>,
    role: u32,
    parent: u32,
) -> bool
    ensures { result ≡ true }
{
    match roles.inherit(role, parent) {
        Ok(()) => roles.parent(role) == Some(parent),
        Err(Refused) => true,
    }
}

/// Grants a permission to a role, and returns whether another role was granted `other_permission`
/// exactly if it was before. The result is always `true`, also if both roles are the same.
pub fn grant_and_ask_another<B: BitsOwned, const N: usize>(
    roles: &mut Roles<B, N>,
    role: u32,
    permission: u32,
    other: u32,
    other_permission: u32,
) -> bool
    ensures { result ≡ true }
{
    let before = roles.is_granted(other, other_permission);
    let _done = roles.grant(role, permission);
    other == role || roles.is_granted(other, other_permission) == before
}

/// Grants a permission to a role, and returns whether the role was granted `other` exactly if it
/// was before. The result is always `true`, also if both permissions are the same.
pub fn grant_and_ask_another_permission<B: BitsOwned, const N: usize>(
    roles: &mut Roles<B, N>,
    role: u32,
    permission: u32,
    other: u32,
) -> bool
    ensures { result ≡ true }
{
    let before = roles.is_granted(role, other);
    let _done = roles.grant(role, permission);
    other == permission || roles.is_granted(role, other) == before
}

/// Grants a permission to a role, and returns whether `other` has the parent that it had before.
/// The result is always `true`.
pub fn grant_and_ask_parent<B: BitsOwned, const N: usize>(
    roles: &mut Roles<B, N>,
    role: u32,
    permission: u32,
    other: u32,
) -> bool
    ensures { result ≡ true }
{
    let before = roles.parent(other);
    let _done = roles.grant(role, permission);
    roles.parent(other) == before
}

/// Gives a role a parent, and returns whether `other` has the parent that it had before. The result
/// is always `true`, also if both roles are the same.
pub fn inherit_and_ask_another<B: BitsOwned, const N: usize>(
    roles: &mut Roles<B, N>,
    role: u32,
    parent: u32,
    other: u32,
) -> bool
    ensures { result ≡ true }
{
    let before = roles.parent(other);
    let _done = roles.inherit(role, parent);
    other == role || roles.parent(other) == before
}

/// Gives a role a parent, and returns whether `other` was granted a permission exactly if it was
/// before. The result is always `true`.
pub fn inherit_and_ask_grant<B: BitsOwned, const N: usize>(
    roles: &mut Roles<B, N>,
    role: u32,
    parent: u32,
    other: u32,
    permission: u32,
) -> bool
    ensures { result ≡ true }
{
    let before = roles.is_granted(other, permission);
    let _done = roles.inherit(role, parent);
    roles.is_granted(other, permission) == before
}

/// Grants a permission to a role, and returns whether the role allows it afterwards. The result is
/// always `true`, also if the grant is refused.
pub fn grant_and_ask_allowed<B: BitsOwned, const N: usize>(
    roles: &mut Roles<B, N>,
    role: u32,
    permission: u32,
) -> bool
    ensures { result ≡ true }
{
    match roles.grant(role, permission) {
        Ok(()) => roles.allows(role, permission),
        Err(Refused) => true,
    }
}

/// Grants a permission to a role, and returns whether `other` still allows a permission that it
/// allowed before. The result is always `true`, also if `other` did not allow it.
pub fn grant_and_ask_still_allowed<B: BitsOwned, const N: usize>(
    roles: &mut Roles<B, N>,
    role: u32,
    permission: u32,
    other: u32,
    allowed: u32,
) -> bool
    ensures { result ≡ true }
{
    let before = roles.allows(other, allowed);
    let _done = roles.grant(role, permission);
    !before || roles.allows(other, allowed)
}

/// Grants a permission to a role, and returns whether `other` allowed another permission before if
/// it allows it afterwards. The result is always `true`: a grant gives only its own permission.
pub fn grant_and_ask_gained<B: BitsOwned, const N: usize>(
    roles: &mut Roles<B, N>,
    role: u32,
    permission: u32,
    other: u32,
    allowed: u32,
) -> bool
    ensures { result ≡ true }
{
    let before = roles.allows(other, allowed);
    let _done = roles.grant(role, permission);
    if allowed != permission && roles.allows(other, allowed) {
        before
    } else {
        true
    }
}

/// Gives a role a parent, and returns whether the role allows a permission that the parent allowed.
/// The result is always `true`, also if the parent did not allow it, or the request is refused.
pub fn inherit_and_ask_allowed<B: BitsOwned, const N: usize>(
    roles: &mut Roles<B, N>,
    role: u32,
    parent: u32,
    permission: u32,
) -> bool
    ensures { result ≡ true }
{
    let before = roles.allows(parent, permission);
    match roles.inherit(role, parent) {
        Ok(()) => !before || roles.allows(role, permission),
        Err(Refused) => true,
    }
}

/// Returns whether a role without a parent that was not granted a permission does not allow it. The
/// result is always `true`, also for a role that has a parent or was granted the permission.
pub fn denies_what_is_not_granted<B: BitsOwned, const N: usize>(
    roles: &Roles<B, N>,
    role: u32,
    permission: u32,
) -> bool
    ensures { result ≡ true }
{
    roles.is_granted(role, permission)
        || roles.parent(role).is_some()
        || !roles.allows(role, permission)
}

/// Takes a permission back from a role, and returns whether the role does not allow it afterwards,
/// or has a parent. The result is always `true`, also if the call is refused.
pub fn revoke_and_ask_allowed<B: BitsOwned, const N: usize>(
    roles: &mut Roles<B, N>,
    role: u32,
    permission: u32,
) -> bool
    ensures { result ≡ true }
{
    match roles.revoke(role, permission) {
        Ok(()) => roles.parent(role).is_some() || !roles.allows(role, permission),
        Err(Refused) => true,
    }
}

/// Takes a permission back from a role, and returns whether `other` still allows another permission
/// that it allowed before. The result is always `true`, also if both permissions are the same.
pub fn revoke_and_ask_still_allowed<B: BitsOwned, const N: usize>(
    roles: &mut Roles<B, N>,
    role: u32,
    permission: u32,
    other: u32,
    allowed: u32,
) -> bool
    ensures { result ≡ true }
{
    let before = roles.allows(other, allowed);
    let _done = roles.revoke(role, permission);
    if before && allowed != permission {
        roles.allows(other, allowed)
    } else {
        true
    }
}

/// Takes a permission back from a role, and returns whether `other` allowed before what it allows
/// afterwards. The result is always `true`: no role gains a permission.
pub fn revoke_and_ask_gained<B: BitsOwned, const N: usize>(
    roles: &mut Roles<B, N>,
    role: u32,
    permission: u32,
    other: u32,
    allowed: u32,
) -> bool
    ensures { result ≡ true }
{
    let before = roles.allows(other, allowed);
    let _done = roles.revoke(role, permission);
    before || !roles.allows(other, allowed)
}

/// Takes the parent of a role away, and returns whether the role then allows a permission exactly
/// if the permission was granted to it. The result is always `true`, also if the call is refused.
pub fn clear_parent_and_ask_allowed<B: BitsOwned, const N: usize>(
    roles: &mut Roles<B, N>,
    role: u32,
    permission: u32,
) -> bool
    ensures { result ≡ true }
{
    match roles.clear_parent(role) {
        Ok(()) => roles.allows(role, permission) == roles.is_granted(role, permission),
        Err(Refused) => true,
    }
}

/// Takes the parent of a role away, and returns whether `other` has the parent that it had before.
/// The result is always `true`, also if both roles are the same.
pub fn clear_parent_and_ask_another<B: BitsOwned, const N: usize>(
    roles: &mut Roles<B, N>,
    role: u32,
    other: u32,
) -> bool
    ensures { result ≡ true }
{
    let before = roles.parent(other);
    let _done = roles.clear_parent(role);
    other == role || roles.parent(other) == before
}

/// Grants a permission to a role and gives the role a parent, then takes both away, and returns
/// whether each was done. The clause says that the four calls, with what they return, are a history
/// of calls: they lead from the roles before to the roles afterwards.
pub fn give_and_take_away<B: BitsOwned, const N: usize>(
    roles: &mut Roles<B, N>,
    role: u32,
    permission: u32,
    parent: u32,
) -> (bool, bool, bool, bool)
    ensures { IsHistory answer_to roles_after
        (roles_of N B.type_capacity (set_in B.Shape B.Order.Endian)
        roles.old.granted roles.old.parents)
        ((Request.Grant role permission, if result.0 then Answer.Done else Answer.Refused)
        ∷ (Request.Inherit role parent, if result.1 then Answer.Done else Answer.Refused)
        ∷ (Request.Revoke role permission, if result.2 then Answer.Done else Answer.Refused)
        ∷ (Request.ClearParent role, if result.3 then Answer.Done else Answer.Refused)
        ∷ []) (roles_of N B.type_capacity (set_in B.Shape B.Order.Endian)
        roles.new.granted roles.new.parents) }
{
    let granted = roles.grant(role, permission).is_ok();
    let inherited = roles.inherit(role, parent).is_ok();
    let revoked = roles.revoke(role, permission).is_ok();
    let cleared = roles.clear_parent(role).is_ok();
    (granted, inherited, revoked, cleared)
}

/// Gives a role a parent, and returns whether the role still allows a permission that it was
/// granted itself. The result is always `true`.
pub fn inherit_and_ask_own<B: BitsOwned, const N: usize>(
    roles: &mut Roles<B, N>,
    role: u32,
    parent: u32,
    permission: u32,
) -> bool
    ensures { result ≡ true }
{
    let own = roles.is_granted(role, permission);
    match roles.inherit(role, parent) {
        Ok(()) => !own || roles.allows(role, permission),
        Err(Refused) => true,
    }
}

/// Gives `heir` the parent `role`, and `role` the parent `parent`. Returns whether `heir` then
/// allows a permission that `parent` allowed. The result is always `true`, also if a request is
/// refused.
pub fn inherit_twice<B: BitsOwned, const N: usize>(
    roles: &mut Roles<B, N>,
    heir: u32,
    role: u32,
    parent: u32,
    permission: u32,
) -> bool
    ensures { result ≡ true }
{
    if roles.inherit(heir, role).is_err() {
        return true;
    }
    let allowed = roles.allows(parent, permission);
    match roles.inherit(role, parent) {
        Ok(()) => !allowed || roles.allows(heir, permission),
        Err(Refused) => true,
    }
}

/// Asks that a role inherit from itself. Returns `true`, since the request is refused.
pub fn inherit_from_itself<B: BitsOwned, const N: usize>(roles: &mut Roles<B, N>, role: u32) -> bool
    ensures { result ≡ true }
{
    roles.inherit(role, role).is_err()
}

/// Returns whether a permission is in the set that is lent for a role exactly if it was granted to
/// the role. The result is always `true`, also if there is no such role or permission.
pub fn lent_as_granted(roles: &Roles<u64, 8>, role: u32, permission: u32) -> bool
    ensures { result ≡ true }
{
    match roles.granted(role) {
        Some(set) => {
            permission >= 64 || set.test_bit(permission) == roles.is_granted(role, permission)
        }
        None => true,
    }
}

/// Returns the name of a role's parent from a table with a name for each role. Returns `None` if
/// the role has no parent. The check proves that a parent is an index of the table.
pub fn parent_in_table(roles: &Roles<u64, 8>, names: &[u32; 8], role: u32) -> Option<u32>
    ensures { IfSome result (λ _. role < 8) }
{
    let parent = roles.parent(role)?;
    Some(names[parent as usize])
}

/// Returns the entry of a table for a role that allows a permission, or `None` if the role does not
/// allow it. The check proves that such a role is an index of the table.
pub fn entry_if_allowed(
    roles: &Roles<u64, 8>,
    entries: &[u32; 8],
    role: u32,
    permission: u32,
) -> Option<u32>
    ensures { IfSome result (λ _. permission < 64) }
{
    if roles.allows(role, permission) {
        Some(entries[role as usize])
    } else {
        None
    }
}

/// Grants two permissions to a role. It succeeds if there are such a role and such permissions.
pub fn grant_two(
    roles: &mut Roles<u32, 4>,
    role: u32,
    first: u32,
    second: u32,
) -> Result<(), Refused>
    ensures first { IsOk result → Allows (roles_of 4 32 (bit_set 32) roles.new.granted
        roles.new.parents) role first }
    ensures second { IsOk result → Allows (roles_of 4 32 (bit_set 32) roles.new.granted
        roles.new.parents) role second }
    ensures a_role { IsOk result → role < 4 }
    ensures parents { roles.new.parents ≡ roles.old.parents }
    ensures done { role < 4 → first < 32 → second < 32 → IsOk result }
{
    roles.grant(role, first)?;
    roles.grant(role, second)
}

/// Gives a role a parent that allows a permission, and returns whether it did. Then the role allows
/// the permission too. It succeeds if there is such a role, and if the parent has a lesser number
/// and allows the permission.
pub fn adopt<const N: usize>(
    roles: &mut Roles<u64, N>,
    role: u32,
    parent: u32,
    permission: u32,
) -> bool
    ensures allows { IsTrue result → Allows (roles_of N 64 (bit_set 64) roles.new.granted
        roles.new.parents) role permission }
    ensures lesser { IsTrue result → parent < role }
    ensures done { Allows (roles_of N 64 (bit_set 64) roles.old.granted roles.old.parents) parent
        permission → parent < role → role < N → IsTrue result }
{
    if !roles.allows(parent, permission) {
        return false;
    }
    roles.inherit(role, parent).is_ok()
}

/// Returns guests (role 0), users (1) and admins (2). A guest may do 0, a user also 1, and an admin
/// also 2. The result is always `Ok`.
pub fn three_levels() -> Result<Roles<u32, 3>, Refused>
    ensures done { IsOk result }
    ensures guest { IfOk result (λ roles. Allows (roles_of 3 32 (bit_set 32) roles.granted
        roles.parents) 0 0) }
    ensures user { IfOk result (λ roles. Allows (roles_of 3 32 (bit_set 32) roles.granted
        roles.parents) 1 0) }
    ensures user_too { IfOk result (λ roles. Allows (roles_of 3 32 (bit_set 32) roles.granted
        roles.parents) 1 1) }
    ensures admin { IfOk result (λ roles. Allows (roles_of 3 32 (bit_set 32) roles.granted
        roles.parents) 2 0) }
    ensures admin_too { IfOk result (λ roles. Allows (roles_of 3 32 (bit_set 32) roles.granted
        roles.parents) 2 2) }
{
    let mut roles = Roles::<u32, 3>::new();
    roles.inherit(1, 0)?;
    roles.inherit(2, 1)?;
    roles.grant(0, 0)?;
    roles.grant(1, 1)?;
    roles.grant(2, 2)?;
    Ok(roles)
}
