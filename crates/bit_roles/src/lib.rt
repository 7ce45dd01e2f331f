//! Roles with permissions. A role inherits the permissions of its parent.
//!
//! A role is a number below `N`, and a permission is a number below the capacity of the set. A role
//! allows the permissions that it was granted and those that its parent allows. A permission that
//! was taken back counts as not granted. A parent has a lesser number than its role, so no chain of
//! parents leads back to the role at which it began.
//!
//! ```rust
//! use bit_roles::Roles;
//!
//! let mut roles = Roles::<u32, 4>::new();
//! roles.grant(0, 7);                // Ok(())
//! roles.inherit(3, 0);              // Ok(()): role 3 allows what role 0 allows
//! roles.allows(3, 7);               // true
//! roles.allows(2, 7);               // false
//! roles.inherit(0, 3);              // Err(Refused): 3 is not below 0
//! roles.clear_parent(3);            // Ok(()): role 3 no longer allows 7
//! roles.revoke(0, 7);               // Ok(()): role 0 no longer allows 7
//! ```
#![tactic(auto)]

ghost use Rattle.std.specs.Prelude.{◌≡◌, ◌≢◌, ℕ, ◌<◌, ◌↔◌, ◌⊎◌, length};
ghost use Rattle.std.specs.Prelude.{true, false, Some, None, IfSome, IsSome, IsOk};
ghost use Rattle.std.specs.Prelude.{is_ok, if◌then◌else◌, option_copied, slice_get};
ghost use Rattle.std.specs.Prelude.{IsTrue};
ghost use Rattle.bittle.specs.PlainSet.{contains};
ghost use Rattle.bittle.specs.Shapes.{Fits};
ghost use Rattle.bittle.specs.Values.{set_in};
ghost use Rattle.bit_roles.specs.Roles.{roles_of, bare_roles, LeadsTo, Allows, HasLesserParents};
ghost use Rattle.bit_roles.specs.Roles.{answer_to, roles_after, request_answers, final_roles};

#[doc(hidden)]
pub mod role_laws;

use bittle::BitsOwned;
use std::error::Error;
use std::fmt;

/// A request to roles.
#[derive(Clone, Copy, Debug, PartialEq, Eq)]
pub enum Request {
    /// Grants a permission to a role. The first number is the role, the second the permission.
    Grant(u32, u32),
    /// Takes back a permission that was granted to the role itself. The first number is the role,
    /// the second the permission.
    Revoke(u32, u32),
    /// Gives a parent to a role. The first number is the role, the second the parent.
    Inherit(u32, u32),
    /// Takes the parent of a role away. The number is the role.
    ClearParent(u32),
}

/// The answer to a request.
#[derive(Clone, Copy, Debug, PartialEq, Eq)]
pub enum Answer {
    /// The request took effect.
    Done,
    /// Nothing changed: there is no such role or permission, or the parent is not less than the
    /// role.
    Refused,
}

/// The error of a call that names a role or a permission that does not exist, or a parent that is
/// not less than its role.
#[derive(Clone, Copy, Debug, PartialEq, Eq)]
pub struct Refused;

impl fmt::Display for Refused {
    ghost use Rattle.std.specs.Prelude.{Some, codes};

    ghost output = { λ _. Some
        (codes "no such role or permission, or the parent is not less than the role") };

    fn fmt<W: fmt::Write>(&self, f: &mut fmt::Formatter<W>) -> fmt::Result {
        f.write_str("no such role or permission, or the parent is not less than the role")
    }
}

impl Error for Refused {}

/// `N` roles. Each has a set of the permissions that it was granted and that were not taken back,
/// and a parent or none.
///
/// The type guarantees that `B` fits, and that each parent has a lesser number than its role.
#[derive(Drop)]
pub struct Roles<B: BitsOwned, const N: usize> {
    granted: [B; N],
    parents: [Option<u32>; N],
    pub ghost fits: { Fits B.indexable B.type_capacity },
    pub ghost lesser: { HasLesserParents
        (roles_of N B.type_capacity (set_in B.Shape B.Order.Endian) granted parents) },
}

impl<B: BitsOwned, const N: usize> Roles<B, N> {
    /// Returns roles without permissions and parents. The type has to fit: `B::bits() < u32::MAX`
    /// checks this. With capacity 0 there is no permission.
    pub fn new() -> Roles<B, N>
        requires { IsTrue B.indexable }
        ensures roles { roles_of N B.type_capacity (set_in B.Shape B.Order.Endian)
            result.granted result.parents ≡ bare_roles N B.type_capacity }
        ensures none { (role permission : ℕ) → (roles_of N B.type_capacity
            (set_in B.Shape B.Order.Endian) result.granted result.parents).granted role permission
            ≡ false }
        ensures orphans { (role : ℕ) → (roles_of N B.type_capacity
            (set_in B.Shape B.Order.Endian) result.granted result.parents).parent role ≡ None }
    {
        Roles {
            granted: [B::zeros(); N],
            parents: [None; N],
        }
    }

    /// Grants a permission to a role. A permission that was granted before stays granted. The role
    /// and those that inherit from it allow the permission afterwards. No other role allows more
    /// than before, and none allows less. If there is no such role or permission, the call changes
    /// nothing and returns `Err`. It costs O(1).
    ///
    /// In a `Roles::<u64, 4>`, `grant(3, 63)` returns `Ok(())`; `grant(4, 0)` and `grant(0, 64)`
    /// return `Err(Refused)`.
    pub fn grant(&mut self, role: u32, permission: u32) -> Result<(), Refused>
        ensures done { IsOk result ↔ ((role < N) × (permission < B.type_capacity)) }
        ensures granted { let after = roles_of N B.type_capacity (set_in B.Shape B.Order.Endian)
            self.new.granted self.new.parents in
            IsOk result → after.granted role permission ≡ true }
        ensures other_roles { let before = roles_of N B.type_capacity
            (set_in B.Shape B.Order.Endian) self.old.granted self.old.parents in
            let after = roles_of N B.type_capacity (set_in B.Shape B.Order.Endian)
            self.new.granted self.new.parents in (other more : ℕ) → other ≢ role
            → after.granted other more ≡ before.granted other more }
        ensures other_permissions { let before = roles_of N B.type_capacity
            (set_in B.Shape B.Order.Endian) self.old.granted self.old.parents in
            let after = roles_of N B.type_capacity (set_in B.Shape B.Order.Endian)
            self.new.granted self.new.parents in (other more : ℕ) → more ≢ permission
            → after.granted other more ≡ before.granted other more }
        ensures allows { let after = roles_of N B.type_capacity (set_in B.Shape B.Order.Endian)
            self.new.granted self.new.parents in IsOk result → Allows after role permission }
        ensures heirs { let before = roles_of N B.type_capacity
            (set_in B.Shape B.Order.Endian) self.old.granted self.old.parents in
            let after = roles_of N B.type_capacity (set_in B.Shape B.Order.Endian)
            self.new.granted self.new.parents in (other : ℕ) → IsOk result
            → LeadsTo before other role → Allows after other permission }
        ensures still_allows { let before = roles_of N B.type_capacity
            (set_in B.Shape B.Order.Endian) self.old.granted self.old.parents in
            let after = roles_of N B.type_capacity (set_in B.Shape B.Order.Endian)
            self.new.granted self.new.parents in (other allowed : ℕ)
            → Allows before other allowed → Allows after other allowed }
        ensures others_gain_nothing { let before = roles_of N B.type_capacity
            (set_in B.Shape B.Order.Endian) self.old.granted self.old.parents in
            let after = roles_of N B.type_capacity (set_in B.Shape B.Order.Endian)
            self.new.granted self.new.parents in (other allowed : ℕ)
            → ((allowed ≡ permission) × LeadsTo before other role → ⊥)
            → Allows after other allowed → Allows before other allowed }
        ensures parents { self.new.parents ≡ self.old.parents }
        ensures answer { (if is_ok result then Answer.Done else Answer.Refused)
            ≡ answer_to (roles_of N B.type_capacity (set_in B.Shape B.Order.Endian)
            self.old.granted self.old.parents) (Request.Grant role permission) }
        ensures roles { roles_of N B.type_capacity (set_in B.Shape B.Order.Endian)
            self.new.granted self.new.parents
            ≡ roles_after (roles_of N B.type_capacity (set_in B.Shape B.Order.Endian)
            self.old.granted self.old.parents) (Request.Grant role permission) }
    {
        if role as usize >= N || permission >= B::bits() {
            return Err(Refused);
        }
        self.granted[role as usize].set_bit(permission);
        Ok(())
    }

    /// Takes back a permission that was granted to the role itself. A permission that was not
    /// granted stays so. The role still allows the permission if its parent does. Each role keeps
    /// every other permission, and none allows more than before. If there is no such role or
    /// permission, the call changes nothing and returns `Err`. It costs O(1).
    ///
    /// After `grant(0, 5)`, `grant(2, 5)` and `inherit(2, 0)`, `revoke(2, 5)` returns `Ok(())`, and
    /// role 2 still allows permission 5.
    pub fn revoke(&mut self, role: u32, permission: u32) -> Result<(), Refused>
        ensures done { IsOk result ↔ ((role < N) × (permission < B.type_capacity)) }
        ensures revoked { let after = roles_of N B.type_capacity (set_in B.Shape B.Order.Endian)
            self.new.granted self.new.parents in
            IsOk result → after.granted role permission ≡ false }
        ensures other_roles { let before = roles_of N B.type_capacity
            (set_in B.Shape B.Order.Endian) self.old.granted self.old.parents in
            let after = roles_of N B.type_capacity (set_in B.Shape B.Order.Endian)
            self.new.granted self.new.parents in (other more : ℕ) → other ≢ role
            → after.granted other more ≡ before.granted other more }
        ensures other_permissions { let before = roles_of N B.type_capacity
            (set_in B.Shape B.Order.Endian) self.old.granted self.old.parents in
            let after = roles_of N B.type_capacity (set_in B.Shape B.Order.Endian)
            self.new.granted self.new.parents in (other more : ℕ) → more ≢ permission
            → after.granted other more ≡ before.granted other more }
        ensures allows { let before = roles_of N B.type_capacity
            (set_in B.Shape B.Order.Endian) self.old.granted self.old.parents in
            let after = roles_of N B.type_capacity (set_in B.Shape B.Order.Endian)
            self.new.granted self.new.parents in IsOk result → Allows after role permission
            ↔ ((parent : ℕ) × (before.parent role ≡ Some parent)
            × Allows before parent permission) }
        ensures still_allows { let before = roles_of N B.type_capacity
            (set_in B.Shape B.Order.Endian) self.old.granted self.old.parents in
            let after = roles_of N B.type_capacity (set_in B.Shape B.Order.Endian)
            self.new.granted self.new.parents in (other allowed : ℕ) → allowed ≢ permission
            → Allows before other allowed → Allows after other allowed }
        ensures others_allow { let before = roles_of N B.type_capacity
            (set_in B.Shape B.Order.Endian) self.old.granted self.old.parents in
            let after = roles_of N B.type_capacity (set_in B.Shape B.Order.Endian)
            self.new.granted self.new.parents in (other allowed : ℕ)
            → (LeadsTo before other role → ⊥)
            → Allows after other allowed ↔ Allows before other allowed }
        ensures none_gains { let before = roles_of N B.type_capacity
            (set_in B.Shape B.Order.Endian) self.old.granted self.old.parents in
            let after = roles_of N B.type_capacity (set_in B.Shape B.Order.Endian)
            self.new.granted self.new.parents in (other allowed : ℕ)
            → Allows after other allowed → Allows before other allowed }
        ensures parents { self.new.parents ≡ self.old.parents }
        ensures answer { (if is_ok result then Answer.Done else Answer.Refused)
            ≡ answer_to (roles_of N B.type_capacity (set_in B.Shape B.Order.Endian)
            self.old.granted self.old.parents) (Request.Revoke role permission) }
        ensures roles { roles_of N B.type_capacity (set_in B.Shape B.Order.Endian)
            self.new.granted self.new.parents
            ≡ roles_after (roles_of N B.type_capacity (set_in B.Shape B.Order.Endian)
            self.old.granted self.old.parents) (Request.Revoke role permission) }
    {
        if permission >= B::bits() || role as usize >= N {
            return Err(Refused);
        }
        self.granted[role as usize].clear_bit(permission);
        Ok(())
    }

    /// Gives a role a parent, in place of any parent that it had. Afterwards the role allows what
    /// it was granted and what the new parent allows; it loses what only the old parent allowed. If
    /// there is no such role, or `parent` is not less than `role`, the call changes nothing and
    /// returns `Err`. It costs O(1).
    ///
    /// `inherit(2, 0)` returns `Ok(())`; `inherit(0, 2)` and `inherit(2, 2)` return `Err(Refused)`.
    pub fn inherit(&mut self, role: u32, parent: u32) -> Result<(), Refused>
        ensures done { IsOk result ↔ ((role < N) × (parent < role)) }
        ensures parent { let after = roles_of N B.type_capacity (set_in B.Shape B.Order.Endian)
            self.new.granted self.new.parents in IsOk result → after.parent role ≡ Some parent }
        ensures leads { let after = roles_of N B.type_capacity (set_in B.Shape B.Order.Endian)
            self.new.granted self.new.parents in IsOk result → LeadsTo after role parent }
        ensures leads_on { let before = roles_of N B.type_capacity
            (set_in B.Shape B.Order.Endian) self.old.granted self.old.parents in
            let after = roles_of N B.type_capacity (set_in B.Shape B.Order.Endian)
            self.new.granted self.new.parents in (other : ℕ) → IsOk result
            → LeadsTo before parent other → LeadsTo after role other }
        ensures lesser_still_lead { let before = roles_of N B.type_capacity
            (set_in B.Shape B.Order.Endian) self.old.granted self.old.parents in
            let after = roles_of N B.type_capacity (set_in B.Shape B.Order.Endian)
            self.new.granted self.new.parents in (other to : ℕ) → other < role
            → LeadsTo before other to → LeadsTo after other to }
        ensures others { let before = roles_of N B.type_capacity
            (set_in B.Shape B.Order.Endian) self.old.granted self.old.parents in
            let after = roles_of N B.type_capacity (set_in B.Shape B.Order.Endian)
            self.new.granted self.new.parents in (other : ℕ) → other ≢ role
            → after.parent other ≡ before.parent other }
        ensures allows { let before = roles_of N B.type_capacity
            (set_in B.Shape B.Order.Endian) self.old.granted self.old.parents in
            let after = roles_of N B.type_capacity (set_in B.Shape B.Order.Endian)
            self.new.granted self.new.parents in (allowed : ℕ) → IsOk result
            → Allows before parent allowed → Allows after role allowed }
        ensures allows_own { let before = roles_of N B.type_capacity
            (set_in B.Shape B.Order.Endian) self.old.granted self.old.parents in
            let after = roles_of N B.type_capacity (set_in B.Shape B.Order.Endian)
            self.new.granted self.new.parents in (allowed : ℕ) → IsOk result
            → before.granted role allowed ≡ true → Allows after role allowed }
        ensures heirs { let before = roles_of N B.type_capacity
            (set_in B.Shape B.Order.Endian) self.old.granted self.old.parents in
            let after = roles_of N B.type_capacity (set_in B.Shape B.Order.Endian)
            self.new.granted self.new.parents in (other allowed : ℕ) → IsOk result
            → LeadsTo before other role → Allows before parent allowed
            → Allows after other allowed }
        ensures allows_only { let before = roles_of N B.type_capacity
            (set_in B.Shape B.Order.Endian) self.old.granted self.old.parents in
            let after = roles_of N B.type_capacity (set_in B.Shape B.Order.Endian)
            self.new.granted self.new.parents in (allowed : ℕ) → IsOk result
            → Allows after role allowed
            → (before.granted role allowed ≡ true) ⊎ Allows before parent allowed }
        ensures others_allow { let before = roles_of N B.type_capacity
            (set_in B.Shape B.Order.Endian) self.old.granted self.old.parents in
            let after = roles_of N B.type_capacity (set_in B.Shape B.Order.Endian)
            self.new.granted self.new.parents in (other allowed : ℕ)
            → (LeadsTo before other role → ⊥)
            → Allows after other allowed ↔ Allows before other allowed }
        ensures granted { self.new.granted ≡ self.old.granted }
        ensures refused { is_ok result ≡ false → self.new.parents ≡ self.old.parents }
        ensures answer { (if is_ok result then Answer.Done else Answer.Refused)
            ≡ answer_to (roles_of N B.type_capacity (set_in B.Shape B.Order.Endian)
            self.old.granted self.old.parents) (Request.Inherit role parent) }
        ensures roles { roles_of N B.type_capacity (set_in B.Shape B.Order.Endian)
            self.new.granted self.new.parents
            ≡ roles_after (roles_of N B.type_capacity (set_in B.Shape B.Order.Endian)
            self.old.granted self.old.parents) (Request.Inherit role parent) }
    {
        if role as usize >= N || parent >= role {
            return Err(Refused);
        }
        self.parents[role as usize] = Some(parent);
        Ok(())
    }

    /// Takes the parent of a role away. A role without a parent stays so. Afterwards the role
    /// allows just what it was granted, and no role allows more than before. If there is no such
    /// role, the call changes nothing and returns `Err`. It costs O(1).
    ///
    /// After `inherit(2, 0)`, `parent(2)` returns `Some(0)`; after `clear_parent(2)` it returns
    /// `None`.
    pub fn clear_parent(&mut self, role: u32) -> Result<(), Refused>
        ensures done { IsOk result ↔ role < N }
        ensures parent { let after = roles_of N B.type_capacity (set_in B.Shape B.Order.Endian)
            self.new.granted self.new.parents in IsOk result → after.parent role ≡ None }
        ensures others { let before = roles_of N B.type_capacity
            (set_in B.Shape B.Order.Endian) self.old.granted self.old.parents in
            let after = roles_of N B.type_capacity (set_in B.Shape B.Order.Endian)
            self.new.granted self.new.parents in (other : ℕ) → other ≢ role
            → after.parent other ≡ before.parent other }
        ensures allows { let before = roles_of N B.type_capacity
            (set_in B.Shape B.Order.Endian) self.old.granted self.old.parents in
            let after = roles_of N B.type_capacity (set_in B.Shape B.Order.Endian)
            self.new.granted self.new.parents in (allowed : ℕ) → IsOk result
            → Allows after role allowed ↔ (before.granted role allowed ≡ true) }
        ensures others_allow { let before = roles_of N B.type_capacity
            (set_in B.Shape B.Order.Endian) self.old.granted self.old.parents in
            let after = roles_of N B.type_capacity (set_in B.Shape B.Order.Endian)
            self.new.granted self.new.parents in (other allowed : ℕ)
            → (LeadsTo before other role → ⊥)
            → Allows after other allowed ↔ Allows before other allowed }
        ensures none_gains { let before = roles_of N B.type_capacity
            (set_in B.Shape B.Order.Endian) self.old.granted self.old.parents in
            let after = roles_of N B.type_capacity (set_in B.Shape B.Order.Endian)
            self.new.granted self.new.parents in (other allowed : ℕ)
            → Allows after other allowed → Allows before other allowed }
        ensures granted { self.new.granted ≡ self.old.granted }
        ensures answer { (if is_ok result then Answer.Done else Answer.Refused)
            ≡ answer_to (roles_of N B.type_capacity (set_in B.Shape B.Order.Endian)
            self.old.granted self.old.parents) (Request.ClearParent role) }
        ensures roles { roles_of N B.type_capacity (set_in B.Shape B.Order.Endian)
            self.new.granted self.new.parents
            ≡ roles_after (roles_of N B.type_capacity (set_in B.Shape B.Order.Endian)
            self.old.granted self.old.parents) (Request.ClearParent role) }
    {
        if role as usize >= N {
            return Err(Refused);
        }
        self.parents[role as usize] = None;
        Ok(())
    }

    /// Returns whether a permission was granted to the role itself, and not taken back since. It
    /// returns `false` if there is no such role or permission. It costs O(1).
    pub fn is_granted(&self, role: u32, permission: u32) -> bool
        ensures value { let roles = roles_of N B.type_capacity (set_in B.Shape B.Order.Endian)
            self.now.granted self.now.parents in result ≡ roles.granted role permission }
        ensures a_role { IsTrue result → role < N }
        ensures a_permission { IsTrue result → permission < B.type_capacity }
    {
        match self.granted.get(role as usize) {
            Some(set) => permission < B::bits() && set.test_bit(permission),
            None => false,
        }
    }

    /// Lends the set of the permissions that were granted to a role itself, or returns `None` if
    /// there is no such role. The indexes follow the bit order of `B`. It costs O(1).
    pub fn granted(&self, role: u32) -> Option<&B>
        ensures set { option_copied result ≡ slice_get self.now.granted role }
        ensures a_role { IsSome result ↔ role < N }
        ensures capacity { IfSome result (λ set. (B.big set.now).capacity ≡ B.type_capacity) }
        ensures permissions { let roles = roles_of N B.type_capacity
            (set_in B.Shape B.Order.Endian) self.now.granted self.now.parents in
            IfSome result (λ set. (permission : ℕ) → permission < B.type_capacity
            → contains (set_in B.Shape B.Order.Endian set.now) permission
            ≡ roles.granted role permission) }
    {
        let set = self.granted.get(role as usize)?;
        Some(set)
    }

    /// Returns the parent of a role, or `None` if it has none or there is no such role. It costs
    /// O(1).
    pub fn parent(&self, role: u32) -> Option<u32>
        ensures value { let roles = roles_of N B.type_capacity (set_in B.Shape B.Order.Endian)
            self.now.granted self.now.parents in result ≡ roles.parent role }
        ensures lesser { IfSome result (λ parent. parent < role) }
        ensures a_role { IfSome result (λ _. role < N) }
    {
        match self.parents.get(role as usize) {
            Some(parent) => *parent,
            None => None,
        }
    }

    /// Returns whether a role allows a permission: whether the permission was granted to the role
    /// itself, or to a role that its chain of parents leads to. The call tests one bit for each
    /// role of the chain, up to the first that was granted the permission. It returns `false` if
    /// there is no such role or permission.
    pub fn allows(&self, role: u32, permission: u32) -> bool
        ensures value { IsTrue result ↔ Allows (roles_of N B.type_capacity
            (set_in B.Shape B.Order.Endian) self.now.granted self.now.parents) role permission }
        ensures denies { let roles = roles_of N B.type_capacity (set_in B.Shape B.Order.Endian)
            self.now.granted self.now.parents in roles.granted role permission ≡ false
            → roles.parent role ≡ None → result ≡ false }
        ensures own { let roles = roles_of N B.type_capacity (set_in B.Shape B.Order.Endian)
            self.now.granted self.now.parents in
            roles.granted role permission ≡ true → IsTrue result }
        ensures a_role { IsTrue result → role < N }
        ensures a_permission { IsTrue result → permission < B.type_capacity }
    {
        let mut at = role;
        while !self.is_granted(at, permission) {
            match self.parent(at) {
                Some(parent) => at = parent,
                None => return false,
            }
        }
        true
    }

    // Answers one request.
    fn answer(&mut self, request: Request) -> Answer
        ensures answer { result ≡ answer_to (roles_of N B.type_capacity
            (set_in B.Shape B.Order.Endian) self.old.granted self.old.parents) request }
        ensures roles { roles_of N B.type_capacity (set_in B.Shape B.Order.Endian)
            self.new.granted self.new.parents
            ≡ roles_after (roles_of N B.type_capacity (set_in B.Shape B.Order.Endian)
            self.old.granted self.old.parents) request }
    {
        let done = match request {
            Request::Grant(role, permission) => self.grant(role, permission),
            Request::Revoke(role, permission) => self.revoke(role, permission),
            Request::Inherit(role, parent) => self.inherit(role, parent),
            Request::ClearParent(role) => self.clear_parent(role),
        };
        match done {
            Ok(()) => Answer::Done,
            Err(Refused) => Answer::Refused,
        }
    }

    /// Serves the requests in their order, and writes an answer to each. `answers` has to be as
    /// long as `requests`.
    pub fn serve(&mut self, requests: &[Request], answers: &mut [Answer])
        requires { length answers.old ≡ length requests.now }
        ensures answers { answers.new ≡ request_answers (roles_of N B.type_capacity
            (set_in B.Shape B.Order.Endian) self.old.granted self.old.parents) requests.now }
        ensures roles { roles_of N B.type_capacity (set_in B.Shape B.Order.Endian)
            self.new.granted self.new.parents
            ≡ final_roles (roles_of N B.type_capacity (set_in B.Shape B.Order.Endian)
            self.old.granted self.old.parents) requests.now }
    {
        for i in 0..requests.len() {
            answers[i] = self.answer(requests[i]);
        }
    }
}
