//! Roles that inherit permissions from a parent.

use crate::checks::{holds, same};
use crate::drawn::draw;
use bit_roles::{Answer, Refused, Request, Roles};
use bittle::{BitsOwned, LittleEndian, Set};
use std::test::Fail;

// Requests. Some name a role or a permission that does not exist, or a parent that is not less than
// the role.
const REQUESTS: [Request; 8] = [
    Request::Grant(0, 7),
    Request::Inherit(2, 0),
    Request::Grant(2, 1),
    Request::Inherit(0, 2),
    Request::Inherit(1, 1),
    Request::Grant(4, 0),
    Request::Grant(0, 200),
    Request::Inherit(4, 0),
];

// Serves the requests with four roles. Returns the answers, and whether each of the roles allows
// permissions 7 and 1.
fn serve<B: BitsOwned>(roles: &mut Roles<B, 4>) -> ([Answer; 8], [(bool, bool); 4]) {
    let mut answers = [Answer::Done; 8];
    roles.serve(&REQUESTS, &mut answers);
    let mut allowed = [(false, false); 4];
    for role in 0..4u32 {
        allowed[role as usize] = (roles.allows(role, 7), roles.allows(role, 1));
    }
    (answers, allowed)
}

// Returns what `serve` has to return if there are at least 8 and at most 200 permissions.
fn expected() -> ([Answer; 8], [(bool, bool); 4]) {
    let mut answers = [Answer::Refused; 8];
    answers[0] = Answer::Done;
    answers[1] = Answer::Done;
    answers[2] = Answer::Done;
    (
        answers,
        [(true, false), (false, false), (true, true), (false, false)],
    )
}

#[test]
fn permissions_in_an_integer(rt: HostRuntime) {
    let mut roles = Roles::<u8, 4>::new();
    same!(rt; serve::<u8>(&mut roles), expected());
}

#[test]
fn permissions_in_the_other_order(rt: HostRuntime) {
    let mut roles = Roles::<Set<u16, LittleEndian>, 4>::new();
    let mut answers = [Answer::Done; 8];
    roles.serve(&REQUESTS, &mut answers);
    let (wanted, _allowed) = expected();
    same!(rt; answers, wanted);
    same!(rt; (roles.allows(0, 7), roles.allows(2, 7), roles.allows(2, 1)), (true, true, true));
    same!(rt; (roles.allows(0, 1), roles.allows(1, 7), roles.allows(3, 7)), (false, false, false));
    same!(rt; (roles.revoke(2, 1), roles.revoke(2, 16)), (Ok(()), Err(Refused)));
    same!(rt; (roles.allows(2, 1), roles.allows(2, 7)), (false, true));
}

#[test]
fn no_roles_and_no_permissions(rt: HostRuntime) {
    let mut none = Roles::<u8, 0>::new();
    same!(rt; (none.grant(0, 0), none.inherit(0, 0)), (Err(Refused), Err(Refused)));
    same!(rt; (none.revoke(0, 0), none.clear_parent(0)), (Err(Refused), Err(Refused)));
    holds!(rt; !none.allows(0, 0) && none.parent(0).is_none());
    let mut bare = Roles::<[u8; 0], 2>::new();
    same!(rt; (bare.grant(0, 0), bare.inherit(1, 0)), (Err(Refused), Ok(())));
    holds!(rt; !bare.allows(1, 0) && bare.parent(1) == Some(0));
    same!(rt; (bare.revoke(1, 0), bare.clear_parent(1)), (Err(Refused), Ok(())));
    holds!(rt; bare.parent(1).is_none());
}

#[test]
fn a_parent_in_place_of_another(rt: HostRuntime) -> Result<(), Fail> {
    let mut roles = Roles::<u8, 3>::new();
    same!(rt; (roles.grant(0, 3), roles.inherit(2, 0)), (Ok(()), Ok(())));
    holds!(rt; roles.allows(2, 3) && !roles.is_granted(2, 3));
    same!(rt; roles.inherit(2, 1), Ok(()));
    holds!(rt; !roles.allows(2, 3) && roles.allows(0, 3));
    same!(rt; (roles.granted(0).copied(), roles.granted(2).copied()), (Some(0b1000), Some(0)));
    holds!(rt; roles.granted(3).is_none());
    // There is no permission 11, and 11 does not wrap to 3.
    holds!(rt; !roles.allows(0, 11) && !roles.is_granted(0, 11));
    let text = format!(in rt.alloc(); "{Refused}")?;
    same!(rt; text.as_str(), "no such role or permission, or the parent is not less than the role");
    Ok(())
}

#[test]
fn a_permission_that_is_taken_back(rt: HostRuntime) {
    let mut roles = Roles::<u8, 3>::new();
    same!(rt; (roles.grant(0, 3), roles.grant(1, 3)), (Ok(()), Ok(())));
    same!(rt; (roles.grant(1, 5), roles.inherit(1, 0)), (Ok(()), Ok(())));
    same!(rt; roles.inherit(2, 1), Ok(()));
    // Role 1 still inherits permission 3 from role 0.
    same!(rt; (roles.revoke(1, 3), roles.granted(1).copied()), (Ok(()), Some(0b10_0000)));
    same!(rt; (roles.allows(0, 3), roles.allows(1, 3), roles.allows(2, 3)), (true, true, true));
    same!(rt; (roles.revoke(0, 3), roles.granted(0).copied()), (Ok(()), Some(0)));
    same!(rt; (roles.allows(0, 3), roles.allows(1, 3), roles.allows(2, 3)), (false, false, false));
    // A permission that was not granted to the role itself: nothing changes.
    same!(rt; (roles.revoke(0, 3), roles.revoke(2, 5)), (Ok(()), Ok(())));
    same!(rt; (roles.allows(2, 5), roles.is_granted(2, 5)), (true, false));
    // There is no role 3, and there are no permissions 8 and 13. 13 does not wrap to 5.
    same!(rt; (roles.revoke(3, 5), roles.revoke(1, 8)), (Err(Refused), Err(Refused)));
    same!(rt; (roles.revoke(1, 13), roles.granted(1).copied()), (Err(Refused), Some(0b10_0000)));
    same!(rt; (roles.parent(1), roles.parent(2)), (Some(0), Some(1)));
}

#[test]
fn a_parent_that_is_taken_away(rt: HostRuntime) {
    let mut roles = Roles::<u8, 3>::new();
    same!(rt; (roles.grant(0, 3), roles.grant(1, 5)), (Ok(()), Ok(())));
    same!(rt; (roles.inherit(1, 0), roles.inherit(2, 1)), (Ok(()), Ok(())));
    holds!(rt; roles.allows(1, 3) && roles.allows(2, 3));
    same!(rt; (roles.clear_parent(1), roles.parent(1), roles.parent(2)), (Ok(()), None, Some(1)));
    same!(rt; (roles.allows(0, 3), roles.allows(1, 3), roles.allows(2, 3)), (true, false, false));
    holds!(rt; roles.allows(1, 5) && roles.allows(2, 5));
    // Roles without a parent, and a role that does not exist.
    same!(rt; (roles.clear_parent(0), roles.clear_parent(1)), (Ok(()), Ok(())));
    same!(rt; (roles.clear_parent(3), roles.parent(2)), (Err(Refused), Some(1)));
}

#[test]
fn a_list_that_gives_and_takes_away(rt: HostRuntime) {
    let mut roles = Roles::<u8, 3>::new();
    let requests = [
        Request::Grant(0, 1),
        Request::Grant(0, 2),
        Request::Inherit(2, 0),
        Request::Revoke(0, 1),
        Request::Revoke(0, 9),
        Request::ClearParent(3),
        Request::Inherit(1, 0),
        Request::ClearParent(2),
    ];
    let mut answers = [Answer::Refused; 8];
    roles.serve(&requests, &mut answers);
    let mut wanted = [Answer::Done; 8];
    wanted[4] = Answer::Refused;
    wanted[5] = Answer::Refused;
    same!(rt; answers, wanted);
    same!(rt; (roles.granted(0).copied(), roles.parent(1)), (Some(0b100), Some(0)));
    same!(rt; (roles.allows(1, 2), roles.allows(2, 2), roles.parent(2)), (true, false, None));
    // What was taken can be given again.
    same!(rt; (roles.grant(0, 1), roles.inherit(2, 1)), (Ok(()), Ok(())));
    holds!(rt; roles.allows(2, 1) && roles.allows(2, 2));
}

#[test]
fn a_list_gives_the_last_parent_that_is_not_refused(rt: HostRuntime) {
    let mut roles = Roles::<u8, 5>::new();
    same!(rt; (roles.inherit(1, 0), roles.inherit(4, 3)), (Ok(()), Ok(())));
    let requests = [
        Request::Inherit(4, 1),
        Request::Inherit(3, 1),
        Request::Inherit(4, 2),
        Request::Inherit(4, 4),
        Request::Grant(4, 0),
    ];
    let mut answers = [Answer::Done; 5];
    roles.serve(&requests, &mut answers);
    same!(rt; (answers[2], answers[3]), (Answer::Done, Answer::Refused));
    same!(rt; (roles.parent(4), roles.parent(3)), (Some(2), Some(1)));
    same!(rt; (roles.parent(1), roles.parent(2), roles.parent(5)), (Some(0), None, None));
}

// Applies a request to plain tables of six roles and 32 permissions. Returns the expected answer.
fn ask_tables(
    request: Request,
    granted: &mut [[bool; 32]; 6],
    parents: &mut [Option<u32>; 6],
) -> Answer {
    match request {
        Request::Grant(role, permission) if role < 6 && permission < 32 => {
            granted[role as usize][permission as usize] = true;
            Answer::Done
        }
        Request::Revoke(role, permission) if role < 6 && permission < 32 => {
            granted[role as usize][permission as usize] = false;
            Answer::Done
        }
        Request::Inherit(role, parent) if role < 6 && parent < role => {
            parents[role as usize] = Some(parent);
            Answer::Done
        }
        Request::ClearParent(role) if role < 6 => {
            parents[role as usize] = None;
            Answer::Done
        }
        _ => Answer::Refused,
    }
}

// Returns what each role of the tables allows: what it was granted, and what its parent allows.
fn allowed_of(granted: &[[bool; 32]; 6], parents: &[Option<u32>; 6]) -> [[bool; 32]; 6] {
    let mut allowed = *granted;
    for role in 0..6usize {
        if let Some(parent) = parents[role] {
            for permission in 0..32usize {
                let inherited = (parent as usize) < role
                    && allowed[parent as usize % 6][permission];
                allowed[role][permission] = allowed[role][permission] || inherited;
            }
        }
    }
    allowed
}

// Returns which of 32 permissions each of six roles allows.
fn allowed_by<B: BitsOwned>(roles: &Roles<B, 6>) -> [[bool; 32]; 6] {
    let mut allowed = [[false; 32]; 6];
    for role in 0..6u32 {
        for permission in 0..32u32 {
            allowed[role as usize][permission as usize] = roles.allows(role, permission);
        }
    }
    allowed
}

// Draws a request. Some name a role or a permission that does not exist, or a parent that is not
// less than the role.
fn draw_request(state: &mut u32) -> Request {
    let (role, number) = (draw(state) % 7, draw(state));
    match number % 4 {
        0 => Request::Grant(role, number / 4 % 34),
        1 => Request::Revoke(role, number / 4 % 34),
        2 => Request::Inherit(role, number / 4 % 7),
        _ => Request::ClearParent(role),
    }
}

// Returns whether roles answer drawn requests as plain tables do, and allow the same permissions
// after each request.
fn are_as_tables<B: BitsOwned>(roles: &mut Roles<B, 6>) -> bool {
    let mut state = 5;
    let (mut granted, mut parents) = ([[false; 32]; 6], [None; 6]);
    let mut is_same = true;
    for _ in 0..1000 {
        let request = draw_request(&mut state);
        let mut answers = [Answer::Done];
        roles.serve(&[request], &mut answers);
        let expected = ask_tables(request, &mut granted, &mut parents);
        is_same = answers[0] == expected && is_same;
        is_same = allowed_by(roles) == allowed_of(&granted, &parents) && is_same;
    }
    is_same
}

#[test]
fn drawn_requests_agree_with_plain_tables(rt: HostRuntime) {
    let mut roles = Roles::<[u8; 4], 6>::new();
    holds!(rt; are_as_tables::<[u8; 4]>(&mut roles));
}
