//! Prints what each role allows, where a role may inherit from another role.
//!
//! A permission is an index below 32. A role is a number, and its parent has a smaller one. What is
//! proved is what `bit_roles` promises: a role allows a permission exactly if a chain of parents
//! leads to a role that was granted the permission and kept it. A grant gives its permission to its
//! role and to those that inherit from it, to no other role, and takes nothing away. If a role
//! loses a permission, each other permission stays, and no role gains one.
#![tactic(auto)]

use bit_roles::{Refused, Roles};
use std::io;

/// The names of the permissions, each at its index.
const NAMES: [&str; 4] = ["read", "write", "publish", "remove"];

/// Returns four roles: a guest reads, a writer is a guest that writes, an editor is a guest that
/// publishes, an owner is a writer that publishes and removes.
fn build() -> Result<Roles<u32, 4>, Refused> {
    let mut roles = Roles::<u32, 4>::new();
    for (role, permission) in [(0, 0), (1, 1), (2, 2), (3, 2), (3, 3)] {
        roles.grant(role, permission)?;
    }
    for (role, parent) in [(1, 0), (2, 0), (3, 1)] {
        roles.inherit(role, parent)?;
    }
    Ok(roles)
}

/// Returns whether `other` allows each permission that `role` allows.
fn does_no_more(roles: &Roles<u32, 4>, role: u32, other: u32) -> bool {
    (0u32..4).all(|permission| !roles.allows(role, permission) || roles.allows(other, permission))
}

fn main(rt: HostRuntime) -> io::Result<()> {
    let Ok(mut roles) = build() else {
        return Ok(());
    };
    for (role, name) in (0u32..4).zip(["guest", "writer", "editor", "owner"]) {
        println!(rt; "{name}:")?;
        for (permission, name) in (0u32..4).zip(NAMES) {
            if roles.allows(role, permission) {
                println!(rt; "  {name}")?;
            }
        }
    }
    println!(rt;
        "a guest does no more than a writer: {}",
        does_no_more(&roles, 0, 1)
    )?;
    println!(rt;
        "a writer does no more than an editor: {}",
        does_no_more(&roles, 1, 2)
    )?;
    let is_refused = roles.inherit(0, 3).is_err();
    println!(rt; "a guest that inherits from an owner is refused: {is_refused}")?;
    let is_done = roles.revoke(1, 1).is_ok();
    println!(rt; "a writer loses the permission to write: {is_done}")?;
    println!(rt;
        "an owner, who inherited it, still writes: {}",
        roles.allows(3, 1)
    )
}
