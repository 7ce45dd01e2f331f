//! The main theorems of roles: what holds of every list of requests. Each function does nothing:
//! its contract is the law. The laws speak of the machine in `specs/Roles.antt`. The contract of
//! `serve` states that `serve` answers as this machine does, and leaves the machine's last state.
//! The laws also speak of `Allows`, which the contract of `allows` uses.

ghost use Rattle.bit_histories.specs.Histories.{AnswersAreOfTheirStates, CallsAnswerAsLists};
ghost use Rattle.bit_roles.specs.Roles.{answer_to, roles_after, request_answers, final_roles};
ghost use Rattle.bit_roles.specs.RoleLaws.{DoneExactlyIfPossible, RefusedChangesNothing};
ghost use Rattle.bit_roles.specs.RoleLaws.{AllowsOwnAndParents};
ghost use Rattle.bit_roles.specs.RoleLaws.{NumbersStay, NothingIsAllowedAtFirst};
ghost use Rattle.bit_roles.specs.RoleLaws.{GrantsGiveJustTheirPermission};
ghost use Rattle.bit_roles.specs.RoleLaws.{InheritsWhatTheParentAllowed};
ghost use Rattle.bit_roles.specs.RoleLaws.{InheritsReplaceWhatWasInherited};
ghost use Rattle.bit_roles.specs.RoleLaws.{InheritsChangeOnlyWhatIsInherited};
ghost use Rattle.bit_roles.specs.RoleLaws.{InheritingChangesOnlyDescendants};
ghost use Rattle.bit_roles.specs.RoleLaws.{GrantsAreThoseKept, GrantingTakesNothingAway};
ghost use Rattle.bit_roles.specs.RoleLaws.{RevokesTakeJustTheirPermission};
ghost use Rattle.bit_roles.specs.RoleLaws.{ClearingAParentTakesWhatWasInherited};
ghost use Rattle.bit_roles.specs.RoleLaws.{ParentsAreThoseLastGiven, ParentsStayIfNoneIsGiven};
ghost use Rattle.bit_roles.specs.RoleLaws.{ParentsStayLesser, NoChainComesBack};

/// States that a request is answered by `Done` exactly if it is possible: there is its role, and a
/// `Grant` or `Revoke` names a permission that exists, an `Inherit` a parent that is less than the
/// role.
pub fn done_exactly_if_possible()
    ensures { DoneExactlyIfPossible }
{}

/// States that a request which is answered by `Refused` changes nothing.
pub fn refused_changes_nothing()
    ensures { RefusedChangesNothing }
{}

/// States that requests keep how many roles and permissions there are.
pub fn numbers_stay()
    ensures { NumbersStay }
{}

/// States that in every list, answer `i` is the answer to request `i` in the state that the earlier
/// requests leave. So what holds of one answer in any state holds of each answer of the list.
pub fn answers_are_of_their_states()
    ensures { AnswersAreOfTheirStates answer_to roles_after request_answers final_roles }
{}

/// States that a role allows just the permissions that it was granted and those that its parent
/// allows.
pub fn allows_own_and_parents()
    ensures { AllowsOwnAndParents }
{}

/// States that after a list of requests a role has a permission exactly if it was granted and kept:
/// granted before the list and not taken back, or granted by a request and not taken back since.
pub fn grants_are_those_kept()
    ensures { GrantsAreThoseKept }
{}

/// States that a role which allows a permission still allows it after any grant.
pub fn granting_takes_nothing_away()
    ensures { GrantingTakesNothingAway }
{}

/// States that roles without permissions and parents allow nothing.
pub fn nothing_is_allowed_at_first()
    ensures { NothingIsAllowedAtFirst }
{}

/// States what each role allows after a `Grant` that is done: what it allowed before, and the
/// permission of the grant if the role is that of the grant or a chain of parents leads to it.
pub fn grants_give_just_their_permission()
    ensures { GrantsGiveJustTheirPermission }
{}

/// States what each role allows after a `Revoke` that is done: what it or a role of its chain of
/// parents still holds. Only the role of the `Revoke` itself lost the permission.
pub fn revokes_take_just_their_permission()
    ensures { RevokesTakeJustTheirPermission }
{}

/// States what a role allows after an `Inherit` for it that is done, if each parent has a lesser
/// number than its role: what the role was granted, and what its new parent allowed before.
pub fn inherits_what_the_parent_allowed()
    ensures { InheritsWhatTheParentAllowed }
{}

/// States what each role allows after an `Inherit` that is done, if each parent has a lesser number
/// than its role. A role allows what its chain of parents was granted up to the role that inherits.
/// If the chain leads to that role, the role also allows what the new parent allowed before.
pub fn inherits_replace_what_was_inherited()
    ensures { InheritsReplaceWhatWasInherited }
{}

/// States that an `Inherit` gives roles only what the new parent allowed before, and takes from
/// them only what the role that inherits allowed before. It changes only roles whose chain of
/// parents leads to the role that inherits. The law supposes that each parent has a lesser number
/// than its role.
pub fn inherits_change_only_what_is_inherited()
    ensures { InheritsChangeOnlyWhatIsInherited }
{}

/// States that an `Inherit` changes only what its role allows, and what the roles allow from which
/// a chain of parents leads to it.
pub fn inheriting_changes_only_descendants()
    ensures { InheritingChangesOnlyDescendants }
{}

/// States what each role allows after a `ClearParent` that is done: what it allowed before by a
/// chain of parents that does not go past the role that lost its parent.
pub fn clearing_a_parent_takes_what_was_inherited()
    ensures { ClearingAParentTakesWhatWasInherited }
{}

/// States that after a list of requests a role has the parent that the list gave it last: that of
/// the last `Inherit` for the role which was answered by `Done`. If the last such request is a
/// `ClearParent`, the role has no parent.
pub fn parents_are_those_last_given()
    ensures { ParentsAreThoseLastGiven }
{}

/// States that a role has the parent that it had before a list of requests if the list neither
/// gives it a parent nor takes its parent away.
pub fn parents_stay_if_none_is_given()
    ensures { ParentsStayIfNoneIsGiven }
{}

/// States that if each parent has a lesser number than its role, this stays so after any requests.
pub fn parents_stay_lesser()
    ensures { ParentsStayLesser }
{}

/// States that if each parent has a lesser number than its role, no chain of parents leads back to
/// the role at which it began.
pub fn no_chain_comes_back()
    ensures { NoChainComesBack }
{}

/// States that calls of `grant`, `revoke`, `inherit` and `clear_parent` in any sequence are a
/// history exactly if they answer as the machine does on the list of their requests, and leave its
/// last state. The clauses of each call say what it answers and which roles it leaves, so such
/// calls are a history. So each law of lists of requests holds for them too.
pub fn calls_answer_as_lists()
    ensures { CallsAnswerAsLists answer_to roles_after request_answers final_roles }
{}
