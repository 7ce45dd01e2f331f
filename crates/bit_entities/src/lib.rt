//! Entities with components. Each component has a mask: the set of the entities that have the
//! component.
//!
//! An entity is a number below the capacity of the masks, and a component is a number below `N`. An
//! entity is alive from its spawn, or from the start by `with_alive`, to its removal. Only a living
//! one has components: a number that is spawned again has no component of its former life.
//!
//! ```rust
//! use bit_entities::World;
//!
//! const PLACE: u32 = 0;
//! const SPEED: u32 = 1;
//!
//! let mut world = World::<u64, 2>::new();
//! world.spawn();                              // Some(0)
//! world.spawn();                              // Some(1)
//! world.attach(1, PLACE);                     // true
//! world.attach(1, SPEED);                     // true
//! world.attach(7, PLACE);                     // false: 7 is not alive
//! world.matching(&[PLACE, SPEED]);            // 0b10: entity 1
//! world.remove(1);                            // true
//! world.spawn();                              // Some(1), which has no component
//! world.len();                                // 2: entities 0 and 1
//! ```
#![tactic(auto)]

ghost use Rattle.std.specs.Option.{is_some};
ghost use Rattle.std.specs.Prelude.{◌≡◌, ◌≢◌, ◌<◌, ◌≤◌, ◌+◌, ℕ, length, true, false, IfSome};
ghost use Rattle.std.specs.Prelude.{IsSome, IsTrue, slice_index_or};
ghost use Rattle.std.specs.Prelude.{MatchOption, Some, ◌==◌, cond, if◌then◌else◌};
ghost use Rattle.bittle.specs.PlainSet.{complement, size};
ghost use Rattle.bittle.specs.Searches.{IsFirstIn};
ghost use Rattle.bittle.specs.Shapes.{Fits};
ghost use Rattle.bittle.specs.Values.{set_in, ShapeFits};
ghost use Rattle.bit_entities.specs.Entities.{IsWorld, world_of, bare_world, empty_world};
ghost use Rattle.bit_entities.specs.Entities.{may_have, least_dead};
ghost use Rattle.bit_entities.specs.Entities.{answer_to, world_after, event_answers, final_world};

#[doc(hidden)]
pub mod entity_laws;
mod queries;

use bittle::BitsOwned;

/// An event that a world serves.
#[derive(Clone, Copy, Debug, PartialEq, Eq)]
pub enum Event {
    /// Asks for a new entity: answered by [`Answer::Spawned`] or [`Answer::Full`].
    Spawn,
    /// Removes an entity with its components: answered by [`Answer::Done`] or [`Answer::Refused`].
    Remove(u32),
    /// Gives a component to an entity. The first number is the entity, the second the component.
    /// The event is answered by [`Answer::Done`] or [`Answer::Refused`].
    Attach(u32, u32),
    /// Takes a component from an entity. The first number is the entity, the second the component.
    /// The event is answered by [`Answer::Done`] or [`Answer::Refused`].
    Detach(u32, u32),
    /// Takes each component from an entity, which stays alive: answered by [`Answer::Done`] or
    /// [`Answer::Refused`].
    DetachAll(u32),
}

/// The answer to an event.
#[derive(Clone, Copy, Debug, PartialEq, Eq)]
pub enum Answer {
    /// The new entity. It is alive, and has no component.
    Spawned(u32),
    /// Nothing changed: each number is alive.
    Full,
    /// The event took effect.
    Done,
    /// Nothing changed: the entity is not alive, or there is no such component.
    Refused,
}

/// The entities that are alive, and for each of `N` components the entities that have it.
///
/// The type guarantees that its masks fit, and that no dead entity has a component.
#[derive(Drop)]
pub struct World<B: BitsOwned, const N: usize> {
    alive: B,
    components: [B; N],
    pub ghost fits: { Fits B.indexable B.type_capacity },
    pub ghost sound: { IsWorld
        (world_of N (set_in B.Shape B.Order.Endian) alive components) },
}

impl<B: BitsOwned, const N: usize> World<B, N> {
    /// Returns a world in which no entity is alive. The type has to fit: `B::bits() < u32::MAX`
    /// checks this. With capacity 0 there is no entity.
    pub fn new() -> World<B, N>
        requires { IsTrue B.indexable }
        ensures world { world_of N (set_in B.Shape B.Order.Endian) result.alive result.components
            ≡ empty_world B.type_capacity N }
        ensures count { size (set_in B.Shape B.Order.Endian result.alive) ≡ 0 }
    {
        World::with_alive(B::zeros())
    }

    /// Returns a world in which an entity is alive if its bit is set in the mask `alive`, and no
    /// entity has a component. The indexes follow the bit order of `B`. The type has to fit, as for
    /// [`new`](World::new). The call writes this mask and the masks of the `N` components once.
    /// With capacity 0 there is no entity.
    ///
    /// `World::<u64, 2>::with_alive(0b1011)` has the entities 0, 1 and 3.
    pub fn with_alive(alive: B) -> World<B, N>
        requires { IsTrue B.indexable }
        ensures world { world_of N (set_in B.Shape B.Order.Endian) result.alive result.components
            ≡ bare_world (set_in B.Shape B.Order.Endian alive) N }
        ensures alive { result.alive ≡ alive }
    {
        World {
            alive,
            components: [B::zeros(); N],
        }
    }

    /// Returns whether an entity is alive. A number at or past the capacity is not alive. It costs
    /// O(1).
    pub fn is_alive(&self, entity: u32) -> bool
        ensures value { let world = world_of N (set_in B.Shape B.Order.Endian) self.now.alive
            self.now.components in result ≡ world.alive.has entity }
        ensures below { IsTrue result → entity < B.type_capacity }
    {
        entity < B::bits() && self.alive.test_bit(entity)
    }

    /// Returns the set of the living entities. Iterate over it by `iter_ones`. The set is lent, so
    /// the world cannot change meanwhile; `matching(&[])` returns a copy.
    pub fn alive(&self) -> &B
        ensures alive { result.now ≡ self.now.alive }
        ensures fits { ShapeFits B.Shape result.now }
        ensures capacity { (B.big result.now).capacity ≡ B.type_capacity }
    {
        &self.alive
    }

    /// Returns how many entities are alive. It counts the set bits of each word of
    /// [`alive`](World::alive).
    pub fn len(&self) -> u32
        ensures value { result ≡ size (set_in B.Shape B.Order.Endian self.now.alive) }
        ensures at_most { result ≤ B.type_capacity }
    {
        self.alive.count_ones()
    }

    /// Returns whether no entity is alive: whether [`alive`](World::alive) has no set bit. It costs
    /// what `all_zeros` of this set costs.
    pub fn is_empty(&self) -> bool
        ensures count { result ≡ (size (set_in B.Shape B.Order.Endian self.now.alive) == 0) }
        ensures none { let world = world_of N (set_in B.Shape B.Order.Endian) self.now.alive
            self.now.components in IsTrue result → (entity : ℕ) → world.alive.has entity ≡ false }
    {
        self.alive.all_zeros()
    }

    /// Returns how many entities can be alive at once: the capacity of `B`.
    pub fn capacity(&self) -> u32
        ensures { result ≡ B.type_capacity }
    {
        B::bits()
    }

    /// Returns whether an entity has a component: `false` if the entity is not alive, or if there
    /// is no such component. It costs O(1).
    pub fn has(&self, entity: u32, component: u32) -> bool
        ensures value { let world = world_of N (set_in B.Shape B.Order.Endian) self.now.alive
            self.now.components in result ≡ world.has entity component }
        ensures below { IsTrue result → entity < B.type_capacity }
        ensures there { IsTrue result → component < N }
        ensures lives { let world = world_of N (set_in B.Shape B.Order.Endian) self.now.alive
            self.now.components in IsTrue result → world.alive.has entity ≡ true }
    {
        match self.components.get(component as usize) {
            Some(mask) => entity < B::bits() && mask.test_bit(entity),
            None => false,
        }
    }

    /// Spawns an entity without components, and returns its number: the least that is not alive. If
    /// all numbers are alive, the call changes nothing and returns `None`. The call reads the words
    /// of one mask up to the one with the bit of this number.
    pub fn spawn(&mut self) -> Option<u32>
        ensures entity { result ≡ least_dead (world_of N (set_in B.Shape B.Order.Endian)
            self.old.alive self.old.components) }
        ensures least { IsFirstIn (complement (set_in B.Shape B.Order.Endian self.old.alive)) 0
            B.type_capacity result }
        ensures room { let living = size (set_in B.Shape B.Order.Endian self.old.alive) in
            MatchOption result (living ≡ B.type_capacity) (λ _. living < B.type_capacity) }
        ensures succeeds { size (set_in B.Shape B.Order.Endian self.old.alive) < B.type_capacity
            → IsSome result }
        ensures least_dead { let before = set_in B.Shape B.Order.Endian self.old.alive in
            (other : ℕ) → other < B.type_capacity → before.has other ≡ false
            → MatchOption result ⊥ (λ entity. entity ≤ other) }
        ensures below { IfSome result (λ entity. entity < B.type_capacity) }
        ensures was_dead { let before = world_of N (set_in B.Shape B.Order.Endian) self.old.alive
            self.old.components in IfSome result (λ entity. before.alive.has entity ≡ false) }
        ensures lives { let after = world_of N (set_in B.Shape B.Order.Endian) self.new.alive
            self.new.components in IfSome result (λ entity. after.alive.has entity ≡ true) }
        ensures bare { let after = world_of N (set_in B.Shape B.Order.Endian) self.new.alive
            self.new.components in
            IfSome result (λ entity. (component : ℕ) → after.has entity component ≡ false) }
        ensures others { (other : ℕ) → result ≢ Some other
            → (set_in B.Shape B.Order.Endian self.new.alive).has other
            ≡ (set_in B.Shape B.Order.Endian self.old.alive).has other }
        ensures components { self.new.components ≡ self.old.components }
        ensures count { size (set_in B.Shape B.Order.Endian self.new.alive)
            ≡ size (set_in B.Shape B.Order.Endian self.old.alive) + cond (is_some result) 1 0 }
        ensures world { world_of N (set_in B.Shape B.Order.Endian) self.new.alive
            self.new.components ≡ world_after (world_of N (set_in B.Shape B.Order.Endian)
            self.old.alive self.old.components) Event.Spawn }
    {
        let entity = self.alive.first_zero_in::<B::Order>(0, B::bits())?;
        self.alive.set_bit(entity);
        Some(entity)
    }

    /// Removes an entity and its components, and returns `true`. If the entity is not alive, the
    /// call changes nothing and returns `false`. The call clears one bit of each mask. To take the
    /// components alone, call [`detach_all`](World::detach_all).
    pub fn remove(&mut self, entity: u32) -> bool
        ensures done { let before = world_of N (set_in B.Shape B.Order.Endian) self.old.alive
            self.old.components in result ≡ before.alive.has entity }
        ensures gone { let after = world_of N (set_in B.Shape B.Order.Endian) self.new.alive
            self.new.components in after.alive.has entity ≡ false }
        ensures bare { let after = world_of N (set_in B.Shape B.Order.Endian) self.new.alive
            self.new.components in (component : ℕ) → after.has entity component ≡ false }
        ensures below { IsTrue result → entity < B.type_capacity }
        ensures count { size (set_in B.Shape B.Order.Endian self.old.alive)
            ≡ size (set_in B.Shape B.Order.Endian self.new.alive) + cond result 1 0 }
        ensures room { IsTrue result
            → size (set_in B.Shape B.Order.Endian self.new.alive) < B.type_capacity }
        ensures others { (other : ℕ) → other ≢ entity
            → (set_in B.Shape B.Order.Endian self.new.alive).has other
            ≡ (set_in B.Shape B.Order.Endian self.old.alive).has other }
        ensures components { let before = world_of N (set_in B.Shape B.Order.Endian) self.old.alive
            self.old.components in
            let after = world_of N (set_in B.Shape B.Order.Endian) self.new.alive
            self.new.components in
            (other component : ℕ) → other ≢ entity
            → after.has other component ≡ before.has other component }
        ensures world { world_of N (set_in B.Shape B.Order.Endian) self.new.alive
            self.new.components ≡ world_after (world_of N (set_in B.Shape B.Order.Endian)
            self.old.alive self.old.components) (Event.Remove entity) }
    {
        if !self.detach_all(entity) {
            return false;
        }
        self.alive.clear_bit(entity);
        true
    }

    // Returns whether the entity is alive, and there is such a component.
    fn may_have(&self, entity: u32, component: u32) -> bool
        ensures value { result ≡ may_have (world_of N (set_in B.Shape B.Order.Endian) self.now.alive
            self.now.components) entity component }
        ensures below { IsTrue result → entity < B.type_capacity }
        ensures there { IsTrue result → component < N }
    {
        (component as usize) < N && self.is_alive(entity)
    }

    /// Gives an entity a component, and returns `true`, even if the entity had the component
    /// before. If the entity is not alive, or there is no such component, the call changes nothing
    /// and returns `false`. It costs O(1).
    ///
    /// In a `World::<u64, 2>` in which entity 3 is alive and 4 is not, `attach(3, 1)` returns
    /// `true`; `attach(4, 1)` and `attach(3, 2)` return `false`.
    pub fn attach(&mut self, entity: u32, component: u32) -> bool
        ensures done { result ≡ may_have (world_of N (set_in B.Shape B.Order.Endian)
            self.old.alive self.old.components) entity component }
        ensures below { IsTrue result → entity < B.type_capacity }
        ensures there { IsTrue result → component < N }
        ensures has { let after = world_of N (set_in B.Shape B.Order.Endian) self.new.alive
            self.new.components in result ≡ true → after.has entity component ≡ true }
        ensures living { self.new.alive ≡ self.old.alive }
        ensures others { let before = world_of N (set_in B.Shape B.Order.Endian) self.old.alive
            self.old.components in
            let after = world_of N (set_in B.Shape B.Order.Endian) self.new.alive
            self.new.components in
            (other another : ℕ) → other ≢ entity
            → after.has other another ≡ before.has other another }
        ensures components { let before = world_of N (set_in B.Shape B.Order.Endian) self.old.alive
            self.old.components in
            let after = world_of N (set_in B.Shape B.Order.Endian) self.new.alive
            self.new.components in
            (other another : ℕ) → another ≢ component
            → after.has other another ≡ before.has other another }
        ensures world { world_of N (set_in B.Shape B.Order.Endian) self.new.alive
            self.new.components ≡ world_after (world_of N (set_in B.Shape B.Order.Endian)
            self.old.alive self.old.components) (Event.Attach entity component) }
    {
        if !self.may_have(entity, component) {
            return false;
        }
        self.components[component as usize].set_bit(entity);
        true
    }

    /// Takes a component from an entity, and returns `true`, even if the entity lacked the
    /// component. If the entity is not alive, or there is no such component, the call changes
    /// nothing and returns `false`. It costs O(1).
    ///
    /// After `detach(3, 1)` returns `true`, `has(3, 1)` is `false` and `is_alive(3)` is `true`.
    pub fn detach(&mut self, entity: u32, component: u32) -> bool
        ensures done { result ≡ may_have (world_of N (set_in B.Shape B.Order.Endian)
            self.old.alive self.old.components) entity component }
        ensures below { IsTrue result → entity < B.type_capacity }
        ensures there { IsTrue result → component < N }
        ensures lacks { let after = world_of N (set_in B.Shape B.Order.Endian) self.new.alive
            self.new.components in after.has entity component ≡ false }
        ensures living { self.new.alive ≡ self.old.alive }
        ensures others { let before = world_of N (set_in B.Shape B.Order.Endian) self.old.alive
            self.old.components in
            let after = world_of N (set_in B.Shape B.Order.Endian) self.new.alive
            self.new.components in
            (other another : ℕ) → other ≢ entity
            → after.has other another ≡ before.has other another }
        ensures components { let before = world_of N (set_in B.Shape B.Order.Endian) self.old.alive
            self.old.components in
            let after = world_of N (set_in B.Shape B.Order.Endian) self.new.alive
            self.new.components in
            (other another : ℕ) → another ≢ component
            → after.has other another ≡ before.has other another }
        ensures world { world_of N (set_in B.Shape B.Order.Endian) self.new.alive
            self.new.components ≡ world_after (world_of N (set_in B.Shape B.Order.Endian)
            self.old.alive self.old.components) (Event.Detach entity component) }
    {
        if !self.may_have(entity, component) {
            return false;
        }
        self.components[component as usize].clear_bit(entity);
        true
    }

    /// Takes each component from an entity, which stays alive, and returns `true`. If the entity is
    /// not alive, the call changes nothing and returns `false`. The call clears one bit of the mask
    /// of each component.
    ///
    /// After `detach_all(3)` returns `true`, `has(3, 0)` is `false` and `is_alive(3)` is `true`.
    pub fn detach_all(&mut self, entity: u32) -> bool
        ensures done { let before = world_of N (set_in B.Shape B.Order.Endian) self.old.alive
            self.old.components in result ≡ before.alive.has entity }
        ensures below { IsTrue result → entity < B.type_capacity }
        ensures bare { let after = world_of N (set_in B.Shape B.Order.Endian) self.new.alive
            self.new.components in (component : ℕ) → after.has entity component ≡ false }
        ensures living { self.new.alive ≡ self.old.alive }
        ensures others { let before = world_of N (set_in B.Shape B.Order.Endian) self.old.alive
            self.old.components in
            let after = world_of N (set_in B.Shape B.Order.Endian) self.new.alive
            self.new.components in
            (other component : ℕ) → other ≢ entity
            → after.has other component ≡ before.has other component }
        ensures world { world_of N (set_in B.Shape B.Order.Endian) self.new.alive
            self.new.components ≡ world_after (world_of N (set_in B.Shape B.Order.Endian)
            self.old.alive self.old.components) (Event.DetachAll entity) }
    {
        if !self.is_alive(entity) {
            return false;
        }
        for component in 0..N {
            self.components[component].clear_bit(entity);
        }
        true
    }

    // Answers one event.
    fn answer(&mut self, event: Event) -> Answer
        ensures answer { result ≡ answer_to (world_of N (set_in B.Shape B.Order.Endian)
            self.old.alive self.old.components) event }
        ensures world { world_of N (set_in B.Shape B.Order.Endian) self.new.alive
            self.new.components ≡ world_after (world_of N (set_in B.Shape B.Order.Endian)
            self.old.alive self.old.components) event }
    {
        match event {
            Event::Spawn => match self.spawn() {
                Some(entity) => Answer::Spawned(entity),
                None => Answer::Full,
            },
            Event::Remove(entity) => done_or_refused(self.remove(entity)),
            Event::Attach(entity, component) => done_or_refused(self.attach(entity, component)),
            Event::Detach(entity, component) => done_or_refused(self.detach(entity, component)),
            Event::DetachAll(entity) => done_or_refused(self.detach_all(entity)),
        }
    }

    /// Serves the events in their order, and writes an answer to each. `answers` has to be as long
    /// as `events`. Each entity that is spawned is below the capacity.
    pub fn serve(&mut self, events: &[Event], answers: &mut [Answer])
        requires { length answers.old ≡ length events.now }
        ensures answers { answers.new ≡ event_answers (world_of N (set_in B.Shape B.Order.Endian)
            self.old.alive self.old.components) events.now }
        ensures below { (i entity : ℕ) (d : Answer) → i < length answers.new
            → slice_index_or answers.new i d ≡ Answer.Spawned entity → entity < B.type_capacity }
        ensures world { world_of N (set_in B.Shape B.Order.Endian) self.new.alive
            self.new.components ≡ final_world (world_of N (set_in B.Shape B.Order.Endian)
            self.old.alive self.old.components) events.now }
    {
        for i in 0..events.len() {
            answers[i] = self.answer(events[i]);
        }
    }
}

// Returns `Done` if the event took effect, else `Refused`.
fn done_or_refused(done: bool) -> Answer
    ensures { result ≡ if done then Answer.Done else Answer.Refused }
{
    if done { Answer::Done } else { Answer::Refused }
}
