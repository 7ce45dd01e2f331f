//! The main theorems of entities: what holds of every list of events. Each function does nothing:
//! its contract is the law. The laws speak of the machine in `specs/Entities.antt`. The contract of
//! `serve` states that `serve` answers as this machine does, and leaves the machine's last state.
//! The laws also speak of `matching`, the set that the call `matching` returns.

ghost use Rattle.bit_histories.specs.Histories.{AnswersAreOfTheirStates, CallsAnswerAsLists};
ghost use Rattle.bit_entities.specs.Entities.{answer_to, world_after, event_answers, final_world};
ghost use Rattle.bit_entities.specs.EntityLaws.{WorldsStayWorlds, DeadHaveNothing, SpawnedAreNew};
ghost use Rattle.bit_entities.specs.EntityLaws.{SpawnedExactlyIfLeast, FullExactlyIfAllAreAlive};
ghost use Rattle.bit_entities.specs.EntityLaws.{DoneExactlyIfPossible, RefusedChangesNothing};
ghost use Rattle.bit_entities.specs.EntityLaws.{OthersAreUnchanged, OtherComponentsStay, SizesStay};
ghost use Rattle.bit_entities.specs.EntityLaws.{SpawnedAreRemovedBetween};
ghost use Rattle.bit_entities.specs.EntityLaws.{LivingAreRemovedFirst, LivingAreThoseKept};
ghost use Rattle.bit_entities.specs.EntityLaws.{LivingAreCounted};
ghost use Rattle.bit_entities.specs.EntityLaws.{ComponentsAreThoseKept, QueriesVisitEachOnce};

/// States that a world stays as `IsWorld` says after any list of events. So if no dead entity has a
/// component, this stays so.
pub fn worlds_stay_worlds()
    ensures { WorldsStayWorlds }
{}

/// States that in a world that began as a new world, no dead entity ever has a component.
pub fn dead_have_nothing()
    ensures { DeadHaveNothing }
{}

/// States that an event spawns an entity exactly if the event is a spawn, and the entity is the
/// least number that is not alive.
pub fn spawned_exactly_if_least()
    ensures { SpawnedExactlyIfLeast }
{}

/// States that a spawned entity is the least number that was not alive. It has no component,
/// whatever it had in a former life.
pub fn spawned_are_new()
    ensures { SpawnedAreNew }
{}

/// States that a spawn is answered by `Full` exactly if each number is alive.
pub fn full_exactly_if_all_are_alive()
    ensures { FullExactlyIfAllAreAlive }
{}

/// States that a removal, and an event that takes all components, is answered by `Done` exactly if
/// the entity is alive. One component is given or taken, and the event is answered by `Done`,
/// exactly if the entity is alive and there is such a component. Else the answer is `Refused`.
pub fn done_exactly_if_possible()
    ensures { DoneExactlyIfPossible }
{}

/// States that an event that is answered by `Refused` or `Full` changes nothing.
pub fn refused_changes_nothing()
    ensures { RefusedChangesNothing }
{}

/// States that an event changes no entity but the one that it names or spawns: the others live on
/// or stay dead, and keep their components.
pub fn others_are_unchanged()
    ensures { OthersAreUnchanged }
{}

/// States that an event that gives or takes one component changes no other component of any entity,
/// and that it ends and begins no life.
pub fn other_components_stay()
    ensures { OtherComponentsStay }
{}

/// States that no list of events changes how many numbers and how many components there are.
pub fn sizes_stay()
    ensures { SizesStay }
{}

/// States that after a list of events as many entities are alive as before, plus those that the
/// list spawned, without those that it removed.
pub fn living_are_counted()
    ensures { LivingAreCounted }
{}

/// States that in every list, answer `i` is the answer to event `i` in the world that the earlier
/// events leave, and that there are as many answers as events. So what holds of one answer in any
/// world holds of each answer of the list.
pub fn answers_are_of_their_worlds()
    ensures { AnswersAreOfTheirStates answer_to world_after event_answers final_world }
{}

/// States that a list of events spawns an entity that was alive before the list only after the list
/// removed this entity: a `Remove` was answered `Done`.
pub fn living_are_removed_first()
    ensures { LivingAreRemovedFirst }
{}

/// States that a number which is spawned again was removed since it was last spawned.
pub fn spawned_are_removed_between()
    ensures { SpawnedAreRemovedBetween }
{}

/// States that an entity is alive after a list of events exactly if it was alive before and the
/// list does not remove it, or the list spawns it and does not remove it afterwards.
pub fn living_are_those_kept()
    ensures { LivingAreThoseKept }
{}

/// States that an entity has a component after a list of events exactly if it had the component
/// before and the list does not take it away, or the list gives it and does not take it away
/// afterwards. An event takes a component away if it removes the entity, or takes this component or
/// all components from it.
pub fn components_are_those_kept()
    ensures { ComponentsAreThoseKept }
{}

/// States that a loop that begins with the least entity of a query, and goes on with the least one
/// past each, visits just the living entities that have the components, each once and in increasing
/// order.
pub fn queries_visit_each_once()
    ensures { QueriesVisitEachOnce }
{}

/// States that calls of `spawn`, `remove`, `attach`, `detach` and `detach_all` in any sequence are
/// a history exactly if they answer as the machine does on the list of their events, and leave its
/// last state. The clauses of each call say what it answers and which world it leaves, so such
/// calls are a history. So each law of lists of events holds for them too.
pub fn calls_answer_as_lists()
    ensures { CallsAnswerAsLists answer_to world_after event_answers final_world }
{}
