//! Tests what the calls of ready queues and of worlds cost. The probe is the set that the caller
//! gives: the ready tasks, or the living entities.

ghost use Rattle.std.specs.Prelude.{◌≤◌, IsTrue};

use crate::asked::Asked;
use crate::probe_rows::{Measured, TWO, costs, measure_rows, row_of};
use bit_entities::World;
use bit_queue::{PriorityQueue, RoundRobin};
use bittle::BitsOwned;
use std::process::Abort;

#[derive(Drop)]
struct ByUrgency;

impl Measured for ByUrgency {
    fn measure<B: BitsOwned>(
        self,
        rt: &impl Abort,
        few: B,
        _most: B,
        _one: B,
        none: B,
        _low: B,
        _lower: B,
        asked: &Asked,
    ) {
        costs!(rt; asked, PriorityQueue::with_ready(none).len(), 0, 0, 12);
        let mut queue = PriorityQueue::with_ready(few);
        costs!(rt; asked, queue.tasks(), 768, 0, 0);
        costs!(rt; asked, queue.len(), 2, 0, 12);
        costs!(rt; asked, queue.is_ready(451), true, 0, 1);
        costs!(rt; asked, queue.is_ready(768), false, 0, 0);
        costs!(rt; asked, queue.wake(300).is_ok(), true, 0, 1);
        costs!(rt; asked, queue.wake(768).is_ok(), false, 0, 0);
        costs!(rt; asked, queue.wake(7).is_ok(), true, 0, 1);
        costs!(rt; asked, queue.remove(7), true, 0, 2);
        costs!(rt; asked, queue.remove(7), false, 0, 1);
        costs!(rt; asked, queue.remove(768), false, 0, 0);
        costs!(rt; asked, queue.peek(), Some(300), 5, 0);
        costs!(rt; asked, queue.next(), Some(300), 5, 1);
        costs!(rt; asked, queue.next(), Some(451), 8, 1);
        costs!(rt; asked, queue.next(), Some(508), 8, 1);
        costs!(rt; asked, queue.next(), None, 12, 0);
    }
}

#[test]
fn an_urgent_task_is_found_in_the_words_up_to_it(rt: HostRuntime) {
    measure_rows(&rt, ByUrgency);
}

#[derive(Drop)]
struct InTurn;

impl Measured for InTurn {
    fn measure<B: BitsOwned>(
        self,
        rt: &impl Abort,
        few: B,
        _most: B,
        _one: B,
        _none: B,
        _low: B,
        _lower: B,
        asked: &Asked,
    ) {
        let mut queue = RoundRobin::with_ready(few);
        costs!(rt; asked, queue.tasks(), 768, 0, 0);
        costs!(rt; asked, queue.len(), 2, 0, 12);
        costs!(rt; asked, queue.is_ready(451), true, 0, 1);
        costs!(rt; asked, queue.next(), Some(451), 8, 1);
        costs!(rt; asked, queue.wake(3).is_ok(), true, 0, 1);
        costs!(rt; asked, queue.wake(768).is_ok(), false, 0, 0);
        costs!(rt; asked, queue.next(), Some(508), 1, 1);
        costs!(rt; asked, queue.peek(), Some(3), 6, 0);
        costs!(rt; asked, queue.wake(9).is_ok(), true, 0, 1);
        costs!(rt; asked, queue.remove(9), true, 0, 2);
        costs!(rt; asked, queue.remove(768), false, 0, 0);
        costs!(rt; asked, queue.next(), Some(3), 6, 1);
        costs!(rt; asked, queue.next(), None, 13, 0);
    }
}

#[test]
fn the_next_task_in_turn_is_found_in_the_words_from_the_turn(rt: HostRuntime) {
    measure_rows(&rt, InTurn);
}

// Makes calls on a world in which all of 768 entities are alive, except 451 and 508.
fn change_most<B: BitsOwned>(rt: &impl Abort, world: &mut World<B, 2>, asked: &Asked) {
    costs!(rt; asked, world.capacity(), 768, 0, 0);
    costs!(rt; asked, world.len(), 766, 0, 12);
    costs!(rt; asked, world.is_alive(451), false, 0, 1);
    costs!(rt; asked, world.spawn(), Some(451), 8, 1);
    costs!(rt; asked, world.attach(451, 1), true, 0, 1);
    costs!(rt; asked, world.has(451, 1), true, 0, 0);
    costs!(rt; asked, world.detach(451, 2), false, 0, 0);
    costs!(rt; asked, world.detach_all(451), true, 0, 1);
    costs!(rt; asked, world.remove(451), true, 0, 2);
    costs!(rt; asked, world.remove(451), false, 0, 1);
}

// Makes calls on a world in which just the entities 451 and 508 are alive.
fn search_few<B: BitsOwned>(rt: &impl Abort, world: &World<B, 2>, asked: &Asked) {
    costs!(rt; asked, world.first_with(&[], 0), Some(451), 8, 0);
    costs!(rt; asked, world.first_with(&[], 452), Some(508), 1, 0);
    costs!(rt; asked, world.first_with(&[], 509), None, 5, 0);
}

#[test]
fn an_entity_is_found_in_the_words_up_to_it(rt: HostRuntime) {
    let asked = Asked::new();
    let mut most = World::with_alive(row_of(!0, !TWO, &asked));
    change_most(&rt, &mut most, &asked);
    let few = World::with_alive(row_of(0, TWO, &asked));
    search_few(&rt, &few, &asked);
}
