//! Entities that get and lose components.

use crate::checks::{holds, same};
use crate::drawn::draw;
use bit_entities::{Answer, Event, World};
use bittle::{Bits, BitsOwned, LittleEndian, Set};

// Events. Some name an entity that is not alive, or a component that does not exist. In a `u8`
// there is no entity 9, and index 9 would wrap to 1.
const EVENTS: [Event; 16] = [
    Event::Spawn,
    Event::Spawn,
    Event::Attach(1, 0),
    Event::Attach(2, 0),
    Event::Attach(9, 0),
    Event::Attach(1, 2),
    Event::Attach(0, 1),
    Event::Remove(1),
    Event::Remove(1),
    Event::Spawn,
    Event::Detach(0, 0),
    Event::Remove(9),
    Event::Detach(9, 1),
    Event::DetachAll(1),
    Event::DetachAll(2),
    Event::DetachAll(9),
];

// Returns the expected answers to the events.
fn expected() -> [Answer; 16] {
    let mut answers = [Answer::Refused; 16];
    answers[0] = Answer::Spawned(0);
    answers[1] = Answer::Spawned(1);
    answers[2] = Answer::Done;
    answers[6] = Answer::Done;
    answers[7] = Answer::Done;
    answers[9] = Answer::Spawned(1);
    answers[10] = Answer::Done;
    answers[13] = Answer::Done;
    answers
}

// Serves the events, and returns the answers.
fn serve<B: BitsOwned>(world: &mut World<B, 2>) -> [Answer; 16] {
    let mut answers = [Answer::Full; 16];
    world.serve(&EVENTS, &mut answers);
    answers
}

// Returns how many entities are alive, how many have component 0, how many have component 1, and
// how many have components 1 and 2 (there is no component 2). Also returns the first entity of each
// of these four kinds.
fn asked<B: BitsOwned>(world: &World<B, 2>) -> ([u32; 4], [Option<u32>; 4]) {
    let (alive, zero, one, two) = (
        world.matching(&[]),
        world.matching(&[0]),
        world.matching(&[1]),
        world.matching(&[1, 2]),
    );
    (
        [
            alive.count_ones(),
            zero.count_ones(),
            one.count_ones(),
            two.count_ones(),
        ],
        [
            world.first_with(&[], 0),
            world.first_with(&[0], 0),
            world.first_with(&[1], 0),
            world.first_with(&[1, 2], 0),
        ],
    )
}

#[test]
fn entities_in_an_integer(rt: HostRuntime) {
    let mut world = World::<u8, 2>::new();
    same!(rt; serve::<u8>(&mut world), expected());
    same!(rt; asked::<u8>(&world), ([2, 0, 1, 0], [Some(0), None, Some(0), None]));
}

// The example at the top of the crate `bit_entities`.
#[test]
fn the_example(rt: HostRuntime) {
    let mut world = World::<u64, 2>::new();
    same!(rt; (world.spawn(), world.spawn()), (Some(0), Some(1)));
    same!(rt; (world.attach(1, 0), world.attach(1, 1), world.attach(7, 0)), (true, true, false));
    same!(rt; world.matching(&[0, 1]), 0b10);
    same!(rt; (world.remove(1), world.spawn()), (true, Some(1)));
    holds!(rt; !world.has(1, 0) && !world.has(1, 1));
    same!(rt; world.len(), 2);
}

#[test]
fn an_entity_without_components_lives_on(rt: HostRuntime) {
    let mut world = World::<u8, 3>::with_alive(0b0011_0001);
    holds!(rt; world.attach(4, 0) && world.attach(4, 2) && world.attach(5, 2));
    holds!(rt; world.detach_all(4) && world.detach_all(0));
    same!(rt; (world.matching(&[0]), world.matching(&[2])), (0, 0b0010_0000));
    holds!(rt; world.is_alive(4) && !world.has(4, 0) && !world.has(4, 2) && world.has(5, 2));
    holds!(rt; !world.detach_all(1) && !world.detach_all(8) && !world.detach_all(12));
    same!(rt; (world.len(), world.matching(&[])), (3, 0b0011_0001));
    let mut bare = World::<u8, 0>::with_alive(1);
    same!(rt; (bare.detach_all(0), bare.detach_all(1), bare.is_alive(0)), (true, false, true));
    let mut none = World::<[u8; 0], 1>::new();
    same!(rt; none.detach_all(0), false);
}

// Spawns `often` times, and returns what the last spawn returns.
fn spawn_often<B: BitsOwned, const N: usize>(world: &mut World<B, N>, often: u32) -> Option<u32> {
    let mut last = None;
    for _ in 0..often {
        last = world.spawn();
    }
    last
}

#[test]
fn a_full_world(rt: HostRuntime) {
    let mut world = World::<u8, 1>::new();
    same!(rt; spawn_often::<u8, 1>(&mut world, 8), Some(7));
    same!(rt; world.spawn(), None);
    holds!(rt; world.attach(3, 0) && world.attach(5, 0) && world.remove(3));
    same!(rt; world.matching(&[0]), 0b0010_0000);
    same!(rt; world.spawn(), Some(3));
    holds!(rt; !world.has(3, 0) && world.detach(3, 0) && !world.attach(8, 0));
    same!(rt; world.matching(&[]), 255);
    holds!(rt; world.remove(6));
    same!(rt; (world.len(), world.capacity(), *world.alive()), (7, 8, 0b1011_1111));
}

#[test]
fn no_entities_and_no_components(rt: HostRuntime) {
    let mut none = World::<[u8; 0], 1>::new();
    same!(rt; none.spawn(), None);
    holds!(rt; !none.is_alive(0) && !none.attach(0, 0) && !none.remove(0));
    same!(rt; (none.first_with(&[], 0), none.first_with(&[0], 7)), (None, None));
    let mut bare = World::<u8, 0>::new();
    same!(rt; bare.spawn(), Some(0));
    holds!(rt; !bare.attach(0, 0) && !bare.has(0, 0) && bare.is_alive(0));
    same!(rt; (bare.matching(&[]), bare.matching(&[0])), (1, 0));
}

// If `is` is `true`, gives a component to an entity in plain tables of 32 entities, else takes it
// away. Returns the expected answer.
fn change_tables(
    alive: &[bool; 32],
    has: &mut [[bool; 3]; 32],
    entity: u32,
    component: u32,
    is: bool,
) -> Answer {
    if entity < 32 && component < 3 && alive[entity as usize] {
        has[entity as usize][component as usize] = is;
        Answer::Done
    } else {
        Answer::Refused
    }
}

// Applies an event to the plain tables, and returns the expected answer.
fn ask_tables(event: Event, alive: &mut [bool; 32], has: &mut [[bool; 3]; 32]) -> Answer {
    match event {
        Event::Spawn => {
            for entity in 0..32usize {
                if !alive[entity] {
                    alive[entity] = true;
                    return Answer::Spawned(entity as u32);
                }
            }
            Answer::Full
        }
        Event::Remove(entity) => {
            if entity < 32 && alive[entity as usize] {
                alive[entity as usize] = false;
                has[entity as usize] = [false; 3];
                Answer::Done
            } else {
                Answer::Refused
            }
        }
        Event::Attach(entity, component) => change_tables(alive, has, entity, component, true),
        Event::Detach(entity, component) => change_tables(alive, has, entity, component, false),
        Event::DetachAll(entity) => {
            if entity < 32 && alive[entity as usize] {
                has[entity as usize] = [false; 3];
                Answer::Done
            } else {
                Answer::Refused
            }
        }
    }
}

// Returns which entities of the tables are alive and have both components.
fn matches_of(alive: &[bool; 32], has: &[[bool; 3]; 32], one: u32, other: u32) -> [bool; 32] {
    let mut matches = [false; 32];
    for entity in 0..32usize {
        let both = one < 3
            && other < 3
            && { has[entity][one as usize % 3] && has[entity][other as usize % 3] };
        matches[entity] = alive[entity] && both;
    }
    matches
}

// Finds the entities that have the required components, by calls of `first_with` one after another.
// Returns which ones were found, and whether they are exactly those of `matching`, each found once.
fn visited<B: BitsOwned>(world: &World<B, 3>, required: &[u32]) -> ([bool; 32], bool) {
    let mut seen = [false; 32];
    let mut from = 0;
    let mut count = 0u32;
    for _ in 0..33 {
        let Some(entity) = world.first_with(required, from) else {
            break;
        };
        seen[entity as usize % 32] = true;
        count = count.saturating_add(1);
        from = entity.saturating_add(1);
    }
    let mut is_same = count == world.matching(required).count_ones();
    for entity in world.matching(required).iter_ones() {
        is_same = is_same && seen[entity as usize % 32];
    }
    (seen, is_same)
}

// Draws an event. A third of the events are spawns. Some name an entity that is not alive, or a
// component that does not exist.
fn draw_event(state: &mut u32) -> Event {
    let (kind, entity, component) = (draw(state) % 12, draw(state) % 34, draw(state) % 4);
    match kind {
        0..=3 => Event::Spawn,
        4 | 5 => Event::Remove(entity),
        6 => Event::Detach(entity, component),
        7 => Event::DetachAll(entity),
        _ => Event::Attach(entity, component),
    }
}

// Returns whether a world answers drawn events as plain tables do, and whether queries find the
// same entities after each event.
fn are_as_tables<B: BitsOwned>(world: &mut World<B, 3>, seed: u32, many: u32) -> bool {
    let mut state = seed;
    let (mut alive, mut has) = ([false; 32], [[false; 3]; 32]);
    let mut is_same = true;
    for _ in 0..many {
        let event = draw_event(&mut state);
        let mut answers = [Answer::Done];
        world.serve(&[event], &mut answers);
        is_same = answers[0] == ask_tables(event, &mut alive, &mut has) && is_same;
        let (one, other) = (draw(&mut state) % 4, draw(&mut state) % 4);
        let wanted = matches_of(&alive, &has, one, other);
        is_same = visited(world, &[one, other]) == (wanted, true) && is_same;
    }
    is_same
}

#[test]
fn drawn_events_agree_with_plain_tables(rt: HostRuntime) {
    let mut world = World::<[u8; 4], 3>::new();
    holds!(rt; are_as_tables::<[u8; 4]>(&mut world, 7, 300));
}

#[test]
fn drawn_events_in_the_other_order(rt: HostRuntime) {
    let mut world = World::<Set<u32, LittleEndian>, 3>::new();
    holds!(rt; are_as_tables::<Set<u32, LittleEndian>>(&mut world, 11, 300));
}

// In a `u8` there is no entity 9. If index 9 wrapped, it would name entity 1, which is alive. In
// little-endian order entity 0 is the leftmost bit.
#[test]
fn a_world_of_those_of_a_mask(rt: HostRuntime) {
    let mut world = World::<u8, 2>::with_alive(0b1000_1011);
    same!(rt; world.matching(&[]), 0b1000_1011);
    same!(rt; (world.matching(&[0]), world.matching(&[1])), (0, 0));
    holds!(rt; world.is_alive(3) && world.is_alive(7) && !world.is_alive(2) && !world.is_alive(9));
    same!(rt; (world.spawn(), world.spawn(), world.spawn()), (Some(2), Some(4), Some(5)));
    holds!(rt; world.attach(7, 1) && world.has(7, 1) && world.remove(7) && !world.has(7, 1));
    let other = World::<Set<u8, LittleEndian>, 1>::with_alive(Set::new_le(0b1000_0000));
    holds!(rt; other.is_alive(0) && !other.is_alive(7));
    same!(rt; World::<[u8; 0], 1>::with_alive([]).spawn(), None);
}

// Returns a copy of the mask that the world lends.
fn lent(world: &World<u8, 2>, component: u32) -> Option<u8> {
    let mask = world.having(component)?;
    Some(*mask)
}

#[test]
fn a_lent_mask_and_an_empty_world(rt: HostRuntime) {
    let mut world = World::<u8, 2>::new();
    holds!(rt; world.is_empty());
    same!(rt; (world.spawn(), world.spawn()), (Some(0), Some(1)));
    holds!(rt; !world.is_empty() && world.attach(1, 1));
    same!(rt; (lent(&world, 0), lent(&world, 1), lent(&world, 2)), (Some(0), Some(0b10), None));
    holds!(rt; world.remove(0) && !world.is_empty() && world.remove(1) && world.is_empty());
}
