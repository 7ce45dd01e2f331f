//! Callers of entities with components.

ghost use Rattle.std.specs.Prelude.{◌≡◌, ◌≢◌, ◌<◌, ◌≤◌, ℕ, length, false, true, [], ◌∷◌, IfSome};
ghost use Rattle.std.specs.Prelude.{MatchOption, if◌then◌else◌};
ghost use Rattle.bit_histories.specs.Histories.{IsHistory};
ghost use Rattle.bit_entities.specs.Entities.{spawned_or_full};
ghost use Rattle.std.specs.Int.{int_wrapping_add, w32};
ghost use Rattle.std.specs.Prelude.{Some, ℤ};
ghost use Rattle.std.specs.Prelude.{option_map, slice_get, slice_index, Option};
ghost use Rattle.bittle.specs.BitPatterns.{bit_set};
ghost use Rattle.bittle.specs.Rows.{row_set};
ghost use Rattle.bittle.specs.Searches.{IsFirstIn};
ghost use Rattle.bit_entities.specs.Entities.{bare_world, empty_world, event_answers, matching};
ghost use Rattle.bit_entities.specs.Entities.{world_of, answer_to, world_after};
ghost use Rattle.bittle.specs.PlainSet.{ascending, size};
ghost use Rattle.bittle.specs.Values.{set_in};

use bit_entities::{Answer, Event, World};
use bittle::walk::IntoIterOnes;
use bittle::{Bits, BitsOwned};
use bittle_tiers::{Ones, Tiered4K, Zeros};

/// The number that names the component `place`. An entity has this component if it has a place.
pub const PLACE: u32 = 0;

/// The number that names the component `speed`. An entity has this component if it has a speed.
pub const SPEED: u32 = 1;

/// Moves each entity that has a place and a speed once: adds its speed to its place by
/// `wrapping_add`. Returns how many entities moved. All other entities stay. The check proves that
/// each entity that moves is an index of both tables.
pub fn step<B: BitsOwned, const N: usize>(
    world: &World<B, N>,
    places: &mut [i32],
    speeds: &[i32],
) -> u32
    requires places { B.type_capacity ≤ length places.old }
    requires speeds { B.type_capacity ≤ length speeds.now }
    ensures moved { result ≡ size (matching (world_of N (set_in B.Shape B.Order.Endian)
        world.now.alive world.now.components) (0 ∷ 1 ∷ [])) }
    ensures at_most { result ≤ B.type_capacity }
    ensures same_length { length places.new ≡ length places.old }
    ensures others { let all = world_of N (set_in B.Shape B.Order.Endian) world.now.alive
        world.now.components in
        (other : ℕ) → (matching all (0 ∷ 1 ∷ [])).has other ≡ false
        → slice_get places.new other ≡ slice_get places.old other }
    ensures once { let all = world_of N (set_in B.Shape B.Order.Endian) world.now.alive
        world.now.components in
        (entity : ℕ) (place speed : ℤ) → (matching all (0 ∷ 1 ∷ [])).has entity ≡ true
        → slice_get places.old entity ≡ Some place → slice_get speeds.now entity ≡ Some speed
        → slice_get places.new entity ≡ Some (int_wrapping_add w32 place speed) }
{
    let movers = world.matching(&[PLACE, SPEED]);
    for entity in movers.iter_ones() {
        let entity = entity as usize;
        places[entity] = places[entity].wrapping_add(speeds[entity]);
    }
    movers.count_ones()
}

/// Moves an entity if it has a place and a speed. Others stay where they are. A number at or past
/// the capacity is no entity, and may be past the end of both tables.
pub fn step_one<B: BitsOwned, const N: usize>(
    world: &World<B, N>,
    places: &mut [i32],
    speeds: &[i32],
    entity: u32,
)
    requires places { B.type_capacity ≤ length places.old }
    requires speeds { B.type_capacity ≤ length speeds.now }
    ensures others { (other : ℕ) → other ≢ entity
        → slice_get places.new other ≡ slice_get places.old other }
    ensures stays { let all = world_of N (set_in B.Shape B.Order.Endian) world.now.alive
        world.now.components in
        all.has entity 0 ≡ false → places.new ≡ places.old }
{
    let index = entity as usize;
    if world.has(entity, PLACE) && world.has(entity, SPEED) {
        places[index] = places[index].wrapping_add(speeds[index]);
    }
}

/// Does what [`step`] does, in a world of 4,096 entities of which few move. Each mask has a summary
/// of its words. Returns how many entities moved.
pub fn step_few(
    world: &World<Tiered4K<Ones>, 2>,
    places: &mut [i32; 4096],
    speeds: &[i32; 4096],
) -> u32
    ensures { result ≤ 4096 }
{
    step::<Tiered4K<Ones>, 2>(world, places, speeds)
}

/// Does what [`step`] does, in a world of 256 entities, whose masks have four words each. Returns
/// how many entities moved.
pub fn step_256(world: &World<[u64; 4], 3>, places: &mut [i32; 256], speeds: &[i32; 256]) -> u32
    ensures { result ≡ size (matching (world_of 3 (row_set 4 64 (bit_set 64)) world.now.alive
        world.now.components) (0 ∷ 1 ∷ [])) }
{
    let movers = world.matching(&[PLACE, SPEED]);
    for entity in movers.iter_ones() {
        let entity = entity as usize;
        places[entity] = places[entity].wrapping_add(speeds[entity]);
    }
    how_many_move::<[u64; 4], 3>(world)
}

/// Returns an iterator over the entities that have a place and a speed. The iterator owns the mask
/// of these entities, so the world may change while the iterator is in use.
pub fn movers<B: BitsOwned, const N: usize>(world: &World<B, N>) -> IntoIterOnes<B, B::Order>
    ensures { result.remaining ≡ ascending (matching (world_of N (set_in B.Shape B.Order.Endian)
        world.now.alive world.now.components) (0 ∷ 1 ∷ [])) }
{
    world.matching(&[PLACE, SPEED]).into_iter_ones()
}

/// Returns how many entities have a place and a speed.
pub fn how_many_move<B: BitsOwned, const N: usize>(world: &World<B, N>) -> u32
    ensures { result ≡ size (matching (world_of N (set_in B.Shape B.Order.Endian) world.now.alive
        world.now.components) (0 ∷ 1 ∷ [])) }
{
    world.matching(&[PLACE, SPEED]).count_ones()
}

/// Returns how many entities have a place.
pub fn how_many_placed<B: BitsOwned, const N: usize>(world: &World<B, N>) -> u32
    ensures { result ≡ size (matching (world_of N (set_in B.Shape B.Order.Endian) world.now.alive
        world.now.components) (0 ∷ [])) }
{
    world.matching(&[PLACE]).count_ones()
}

/// Spawns an entity, gives it a place, and returns whether it has a place afterwards. The result is
/// always `true`, also if no number is free.
pub fn spawn_placed<B: BitsOwned>(world: &mut World<B, 2>) -> bool
    ensures { result ≡ true }
{
    match world.spawn() {
        Some(entity) => world.attach(entity, PLACE) && world.has(entity, PLACE),
        None => true,
    }
}

/// Spawns an entity if fewer entities are alive than the capacity allows, and returns whether one
/// was spawned. The result is always `true`, also if no number is free.
pub fn spawn_if_room<B: BitsOwned, const N: usize>(world: &mut World<B, N>) -> bool
    ensures { result ≡ true }
{
    if world.len() < world.capacity() {
        world.spawn().is_some()
    } else {
        true
    }
}

/// Spawns two entities, and returns them. They differ. Returns `None` if fewer than two numbers are
/// free.
pub fn spawn_two<B: BitsOwned, const N: usize>(world: &mut World<B, N>) -> Option<(u32, u32)>
    ensures { IfSome result (λ both. both.0 ≢ both.1) }
{
    let first = world.spawn()?;
    let second = world.spawn()?;
    Some((first, second))
}

/// Removes `entity`, and returns whether it is still alive or still has `component`. The result is
/// always `false`.
pub fn remove_and_ask<B: BitsOwned, const N: usize>(
    world: &mut World<B, N>,
    entity: u32,
    component: u32,
) -> bool
    ensures { result ≡ false }
{
    world.remove(entity);
    world.is_alive(entity) || world.has(entity, component)
}

/// Spawns an entity, and gives `entity` a place. Returns what the calls return. The clause says
/// that the two calls, with what they return, are a history of calls: each law of lists of events
/// holds of them.
pub fn spawn_and_give<B: BitsOwned>(world: &mut World<B, 2>, entity: u32) -> (Option<u32>, bool)
    ensures { IsHistory answer_to world_after
        (world_of 2 (set_in B.Shape B.Order.Endian) world.old.alive
        world.old.components) ((Event.Spawn, spawned_or_full result.0)
        ∷ (Event.Attach entity 0, if result.1 then Answer.Done else Answer.Refused) ∷ [])
        (world_of 2 (set_in B.Shape B.Order.Endian) world.new.alive world.new.components) }
{
    let spawned = world.spawn();
    let given = world.attach(entity, PLACE);
    (spawned, given)
}

/// Takes the place from `entity`, and then removes the entity. Returns what the calls return. The
/// clause says that the two calls are a history of calls, as that of [`spawn_and_give`].
pub fn take_and_remove<B: BitsOwned>(world: &mut World<B, 2>, entity: u32) -> (bool, bool)
    ensures { IsHistory answer_to world_after
        (world_of 2 (set_in B.Shape B.Order.Endian) world.old.alive
        world.old.components)
        ((Event.Detach entity 0, if result.0 then Answer.Done else Answer.Refused)
        ∷ (Event.Remove entity, if result.1 then Answer.Done else Answer.Refused) ∷ [])
        (world_of 2 (set_in B.Shape B.Order.Endian) world.new.alive world.new.components) }
{
    let taken = world.detach(entity, PLACE);
    let removed = world.remove(entity);
    (taken, removed)
}

/// Takes all components from `entity`. Returns what the call returns. The clause says that the call
/// is a history of one call, as that of [`spawn_and_give`].
pub fn take_all<B: BitsOwned>(world: &mut World<B, 2>, entity: u32) -> bool
    ensures { IsHistory answer_to world_after
        (world_of 2 (set_in B.Shape B.Order.Endian) world.old.alive
        world.old.components)
        ((Event.DetachAll entity, if result then Answer.Done else Answer.Refused) ∷ [])
        (world_of 2 (set_in B.Shape B.Order.Endian) world.new.alive world.new.components) }
{
    world.detach_all(entity)
}

/// Takes all components from `entity`. Returns whether it still has `component`, and how many
/// entities are alive before and afterwards: it has none, and as many are alive.
pub fn take_all_and_ask<B: BitsOwned, const N: usize>(
    world: &mut World<B, N>,
    entity: u32,
    component: u32,
) -> (bool, u32, u32)
    ensures none { result.0 ≡ false }
    ensures live { result.1 ≡ result.2 }
{
    let before = world.len();
    world.detach_all(entity);
    (world.has(entity, component), before, world.len())
}

/// Takes all components from `entity`, and returns whether `other` has `component` afterwards, and
/// whether it had the component before. Both are equal unless the two entities are one.
pub fn take_all_beside<B: BitsOwned, const N: usize>(
    world: &mut World<B, N>,
    entity: u32,
    other: u32,
    component: u32,
) -> (bool, bool)
    ensures { other ≢ entity → result.0 ≡ result.1 }
{
    let had = world.has(other, component);
    world.detach_all(entity);
    (world.has(other, component), had)
}

/// Forgets the place of an entity and takes all its components, unless it is not alive. The check
/// proves that the entity is an index of the table.
pub fn reset_placed<B: BitsOwned>(world: &mut World<B, 2>, places: &mut [i32], entity: u32)
    requires { B.type_capacity ≤ length places.old }
    ensures { length places.new ≡ length places.old }
{
    if world.detach_all(entity) {
        places[entity as usize] = 0;
    }
}

/// Spawns an entity and removes it. Returns how many entities are alive before and afterwards: as
/// many, also if no number is free.
pub fn spawn_and_remove<B: BitsOwned, const N: usize>(world: &mut World<B, N>) -> (u32, u32)
    ensures { result.0 ≡ result.1 }
{
    let before = world.len();
    match world.spawn() {
        Some(entity) => {
            world.remove(entity);
            (before, world.len())
        }
        None => (before, world.len()),
    }
}

/// Gives an entity the place `place`, and returns `true`; returns `false` if the entity is not
/// alive. The check proves that the entity is an index of the table.
pub fn put<B: BitsOwned>(
    world: &mut World<B, 2>,
    places: &mut [i32],
    entity: u32,
    place: i32,
) -> bool
    requires { B.type_capacity ≤ length places.old }
    ensures { length places.new ≡ length places.old }
{
    if !world.attach(entity, PLACE) {
        return false;
    }
    places[entity as usize] = place;
    true
}

/// Removes an entity and forgets its place, unless it is not alive. The check proves that the
/// entity is an index of the table.
pub fn remove_placed<B: BitsOwned>(world: &mut World<B, 2>, places: &mut [i32], entity: u32)
    requires { B.type_capacity ≤ length places.old }
    ensures { length places.new ≡ length places.old }
{
    if world.remove(entity) {
        places[entity as usize] = 0;
    }
}

/// Returns the name of a component if the entity has this component. The table `names` has a name
/// for each component. The check proves that the component is an index of the table.
pub fn name_if_had<B: BitsOwned>(
    world: &World<B, 3>,
    names: &[u32; 3],
    entity: u32,
    component: u32,
) -> Option<u32> {
    if world.has(entity, component) {
        Some(names[component as usize])
    } else {
        None
    }
}

/// Returns whether an entity has a component and is not alive. The result is always `false`.
pub fn has_dead<B: BitsOwned, const N: usize>(
    world: &World<B, N>,
    entity: u32,
    component: u32,
) -> bool
    ensures { result ≡ false }
{
    world.has(entity, component) && !world.is_alive(entity)
}

/// Makes a world of a mask, and returns the mask that the world lends: the same.
pub fn lent_back(alive: u64) -> u64
    ensures { result ≡ alive }
{
    let world = World::<u64, 2>::with_alive(alive);
    *world.alive()
}

/// Spawns an entity, and returns whether `other`, which was alive before, still is. The result is
/// always `true`, also if `other` was not alive before.
pub fn spawn_beside<B: BitsOwned, const N: usize>(world: &mut World<B, N>, other: u32) -> bool
    ensures { result ≡ true }
{
    if !world.is_alive(other) {
        return true;
    }
    let _entity = world.spawn();
    world.is_alive(other)
}

/// Removes `entity`, and returns whether `other` has `component` afterwards, and whether it had the
/// component before. Both are equal unless the two entities are one.
pub fn remove_beside<B: BitsOwned, const N: usize>(
    world: &mut World<B, N>,
    entity: u32,
    other: u32,
    component: u32,
) -> (bool, bool)
    ensures { other ≢ entity → result.0 ≡ result.1 }
{
    let had = world.has(other, component);
    world.remove(entity);
    (world.has(other, component), had)
}

/// Gives `entity` a speed and takes its place away. Returns whether `other` has a place afterwards,
/// and whether it had a place before. Both are equal unless the two entities are one.
pub fn change_beside<B: BitsOwned, const N: usize>(
    world: &mut World<B, N>,
    entity: u32,
    other: u32,
) -> (bool, bool)
    ensures { other ≢ entity → result.0 ≡ result.1 }
{
    let had = world.has(other, PLACE);
    world.attach(entity, SPEED);
    world.detach(entity, PLACE);
    (world.has(other, PLACE), had)
}

/// Takes the speed from `entity`, and returns whether it has a place afterwards, and whether it had
/// a place before. Both are equal.
pub fn stop<B: BitsOwned, const N: usize>(world: &mut World<B, N>, entity: u32) -> (bool, bool)
    ensures { result.0 ≡ result.1 }
{
    let had = world.has(entity, PLACE);
    world.detach(entity, SPEED);
    (world.has(entity, PLACE), had)
}

/// Returns how many numbers are free for new entities. The check proves that the difference is not
/// below 0.
pub fn free_numbers<B: BitsOwned, const N: usize>(world: &World<B, N>) -> u32
    ensures { result ≤ B.type_capacity }
{
    world.capacity() - world.len()
}

/// Counts the living entities by the set that the world lends.
pub fn how_many_live<B: BitsOwned, const N: usize>(world: &World<B, N>) -> u32
    ensures { result ≡ size (set_in B.Shape B.Order.Endian world.now.alive) }
{
    world.alive().count_ones()
}

/// Writes `true` to the entry of each living entity in `table`.
pub fn mark_living<B: BitsOwned, const N: usize>(world: &World<B, N>, table: &mut [bool])
    requires { B.type_capacity ≤ length table.old }
    ensures { length table.new ≡ length table.old }
{
    for entity in world.alive().iter_ones() {
        table[entity as usize] = true;
    }
}

/// Returns whether a world is empty in which an entity is alive. The result is always `false`.
pub fn is_empty_with<B: BitsOwned, const N: usize>(world: &World<B, N>, entity: u32) -> bool
    ensures { result ≡ false }
{
    world.is_empty() && world.is_alive(entity)
}

/// Counts the entities that have a component by the mask that the world lends. Returns `None` if
/// there is no such component.
pub fn how_many_have<B: BitsOwned, const N: usize>(
    world: &World<B, N>,
    component: u32,
) -> Option<u32>
    ensures { let all = world_of N (set_in B.Shape B.Order.Endian) world.now.alive
        world.now.components in
        MatchOption result (N ≤ component) (λ many. many ≡ size (matching all (component ∷ []))) }
{
    let mask = world.having(component)?;
    Some(mask.count_ones())
}

/// Removes an entity from a world in which no entity is alive, and returns whether it was alive.
/// The result is always `false`, also if the world is not empty: then nothing is removed.
pub fn remove_from_none<B: BitsOwned, const N: usize>(world: &mut World<B, N>, entity: u32) -> bool
    ensures { result ≡ false }
{
    world.is_empty() && world.len() > 0 && world.remove(entity)
}

/// Returns the name of the first entity that has a speed, or `None` if no entity has one. The table
/// `names` has a name for each entity.
pub fn first_moving(world: &World<[u64; 4], 3>, names: &[u32; 256]) -> Option<u32>
    ensures { (found : Option ℕ)
        × IsFirstIn (matching (world_of 3 (row_set 4 64 (bit_set 64)) world.now.alive
        world.now.components) (1 ∷ [])) 0 256 found
        × (result ≡ option_map (λ entity. slice_index names.now entity) found) }
{
    let entity = world.first_with(&[SPEED], 0)?;
    Some(names[entity as usize])
}

/// Serves events in a world of 64 entity numbers. No entity is alive at first.
pub fn serve(events: &[Event], answers: &mut [Answer])
    requires { length answers.old ≡ length events.now }
    ensures { answers.new ≡ event_answers (empty_world 64 2) events.now }
{
    let mut world = World::<u64, 2>::new();
    world.serve(events, answers);
}

/// Serves events in a world of any shape. No entity is alive at first.
fn serve_first<B: BitsOwned, const N: usize>(
    world: &mut World<B, N>,
    events: &[Event],
    answers: &mut [Answer],
)
    requires new { world_of N (set_in B.Shape B.Order.Endian) world.old.alive world.old.components
        ≡ empty_world B.type_capacity N }
    requires answers { length answers.old ≡ length events.now }
    ensures { answers.new ≡ event_answers (empty_world B.type_capacity N) events.now }
{
    world.serve(events, answers);
}

/// Serves events in a world of 4,096 entity numbers. No entity is alive at first. Each mask has a
/// summary of the words that have an unset bit, so a spawn finds a free number in a few steps.
pub fn serve_tiered(events: &[Event], answers: &mut [Answer])
    requires { length answers.old ≡ length events.now }
    ensures { answers.new ≡ event_answers (empty_world 4096 2) events.now }
{
    let mut world = World::<Tiered4K<Zeros>, 2>::new();
    serve_first::<Tiered4K<Zeros>, 2>(&mut world, events, answers);
}

/// Serves events in a world of 64 entity numbers. The set bits of `alive` are the entities that are
/// alive at first.
pub fn serve_beside(alive: u64, events: &[Event], answers: &mut [Answer])
    requires { length answers.old ≡ length events.now }
    ensures { answers.new ≡ event_answers (bare_world (bit_set 64 alive) 2) events.now }
{
    let mut world = World::<u64, 2>::with_alive(alive);
    world.serve(events, answers);
}
