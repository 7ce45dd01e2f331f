//! Moves the entities of a world with room for 65,536 entities.
//!
//! An entity is an index below 65,536. Each component has a mask of the entities that have it.
//! Nearly all entities are alive, so each mask has a summary of its unset bits: a spawn finds a
//! free number in a few steps. What is proved is what `bit_entities` promises. A new entity was not
//! alive, and has no component. A removed entity has no component. A number past the world is no
//! entity. A query for components yields each entity that has them exactly once.
#![tactic(auto)]

ghost use Rattle.std.specs.Prelude.{◌≡◌, ◌∷◌, [], ◌<◌, ◌≤◌, length, IsTrue};
ghost use Rattle.bittle.specs.PlainSet.{size};
ghost use Rattle.bittle.specs.Values.{ShapeFits, set_in};
ghost use Rattle.bit_entities.specs.Entities.{matching, world_of};

use bit_entities::World;
use bittle_ext::prelude::*;
use bittle_tiers::prelude::*;
use std::io;

/// The number that names the component `place`. An entity has this component if it has a place.
const PLACE: u32 = 0;

/// The number that names the component `speed`. An entity has this component if it has a speed.
const SPEED: u32 = 1;

/// The number that names the component `awake`. An entity has this component if it is awake.
const AWAKE: u32 = 2;

/// A mask of the entities that are alive, or that have a component.
type Mask = Tiered64K<Zeros>;

/// Spawns an entity with the place `place`, and with the speed `speed` unless that is 0. Returns
/// the entity. If all entities are alive, it changes nothing and returns `None`.
fn place<B: BitsOwned>(
    world: &mut World<B, 3>,
    places: &mut [i32],
    speeds: &mut [i32],
    place: i32,
    speed: i32,
) -> Option<u32>
    requires places { B.type_capacity ≤ length places.old }
    requires speeds { B.type_capacity ≤ length speeds.old }
    ensures places { length places.new ≡ length places.old }
    ensures speeds { length speeds.new ≡ length speeds.old }
{
    let entity = world.spawn()?;
    places[entity as usize] = place;
    speeds[entity as usize] = speed;
    world.attach(entity, PLACE);
    if speed != 0 {
        world.attach(entity, SPEED);
    }
    Some(entity)
}

/// Adds an entity's speed to its place, by `wrapping_add`.
fn move_one(places: &mut [i32], speeds: &[i32], entity: u32)
    requires place { entity < length places.old }
    requires speed { entity < length speeds.now }
    ensures places { length places.new ≡ length places.old }
{
    let entity = entity as usize;
    places[entity] = places[entity].wrapping_add(speeds[entity]);
}

/// Moves each entity of `movers`.
fn move_each<B: Bits>(movers: &B, places: &mut [i32], speeds: &[i32])
    requires fits { ShapeFits B.Shape movers.now }
    requires places { (B.Shape.big movers.now).capacity ≤ length places.old }
    requires speeds { (B.Shape.big movers.now).capacity ≤ length speeds.now }
    ensures places { length places.new ≡ length places.old }
{
    for entity in movers.iter_ones() {
        move_one(places, speeds, entity);
    }
}

/// Moves each entity that has a place and a speed and is awake. Returns how many entities moved.
fn step<B: BitsOwned>(world: &World<B, 3>, places: &mut [i32], speeds: &[i32]) -> u32
    requires places { B.type_capacity ≤ length places.old }
    requires speeds { B.type_capacity ≤ length speeds.now }
    ensures count { result ≡ size (matching (world_of 3 (set_in B.Shape B.Order.Endian)
        world.now.alive world.now.components) (0 ∷ 1 ∷ 2 ∷ [])) }
    ensures places { length places.new ≡ length places.old }
{
    let movers = world.matching(&[PLACE, SPEED, AWAKE]);
    move_each(&movers, places, speeds);
    movers.count_ones()
}

/// Prints each entity of `placed` with its place.
fn print_each<B: Bits>(rt: &HostRuntime, placed: &B, places: &[i32]) -> io::Result<()>
    requires { ShapeFits B.Shape placed.now }
{
    for (entity, place) in placed.join_ones(places.iter().enumerate()) {
        println!(rt; "entity {entity} at {place}")?;
    }
    Ok(())
}

/// Prints each entity that has a place, with its place.
fn print_places<B: BitsOwned>(
    rt: &HostRuntime,
    world: &World<B, 3>,
    places: &[i32],
) -> io::Result<()> {
    print_each(rt, &world.matching(&[PLACE]), places)
}

/// Makes `many` entities, or fewer if no more numbers are free, and prints each.
fn print_new<B: BitsOwned>(rt: &HostRuntime, world: &mut World<B, 3>, many: u32) -> io::Result<()> {
    for _ in 0..many {
        if let Some(entity) = world.spawn() {
            println!(rt; "entity {entity} is new")?;
        }
    }
    Ok(())
}

/// Prints each entity of `sleepers`.
fn print_would_move<B: Bits>(rt: &HostRuntime, sleepers: &B) -> io::Result<()>
    requires { ShapeFits B.Shape sleepers.now }
{
    for entity in sleepers.iter_ones() {
        println!(rt; "entity {entity} would move, and sleeps")?;
    }
    Ok(())
}

/// Prints the entities that have a speed and are not awake.
fn print_sleepers<B: BitsOwned>(rt: &HostRuntime, world: &World<B, 3>) -> io::Result<()> {
    let moving = world.matching(&[SPEED]);
    let awake = world.matching(&[AWAKE]);
    print_would_move(rt, &moving.minus(&awake))
}

/// Makes four entities with places, of which all but the last are awake.
fn populate<B: BitsOwned>(world: &mut World<B, 3>, places: &mut [i32], speeds: &mut [i32])
    requires places { B.type_capacity ≤ length places.old }
    requires speeds { B.type_capacity ≤ length speeds.old }
    ensures places { length places.new ≡ length places.old }
    ensures speeds { length speeds.new ≡ length speeds.old }
{
    for (at, speed) in [(10, 1), (20, 0), (30, -5)] {
        if let Some(entity) = place(world, places, speeds, at, speed) {
            world.attach(entity, AWAKE);
        }
    }
    let _sleeper = place(world, places, speeds, 40, 7);
}

/// Makes some entities, lets them move twice, and prints how many move and where they are.
fn move_twice<B: BitsOwned>(
    rt: &HostRuntime,
    world: &mut World<B, 3>,
    places: &mut [i32],
    speeds: &mut [i32],
) -> io::Result<()>
    requires places { B.type_capacity ≤ length places.old }
    requires speeds { B.type_capacity ≤ length speeds.old }
{
    populate(world, places, speeds);
    step(world, places, speeds);
    let many = step(world, places, speeds);
    println!(rt; "{many} entities move")?;
    print_places(rt, world, places)
}

/// Removes two entities, makes three and prints them. Then prints the entities that have a speed
/// and are not awake, and whether a number past the world is refused.
fn turn_over<B: BitsOwned>(rt: &HostRuntime, world: &mut World<B, 3>) -> io::Result<()> {
    world.remove(60_001);
    world.remove(4_000);
    print_new(rt, world, 3)?;
    print_sleepers(rt, world)?;
    let is_refused = !world.attach(65_536, SPEED);
    println!(rt; "entity 65536 is refused: {is_refused}")
}

/// Moves some entities of the world, and then replaces some.
fn live<B: BitsOwned>(
    rt: &HostRuntime,
    world: &mut World<B, 3>,
    places: &mut [i32],
    speeds: &mut [i32],
) -> io::Result<()>
    requires places { B.type_capacity ≤ length places.old }
    requires speeds { B.type_capacity ≤ length speeds.old }
{
    move_twice(rt, world, places, speeds)?;
    turn_over(rt, world)
}

/// Returns a mask in which the first 60,000 entities are alive.
fn first_alive<B: BitsOwned>() -> B
    requires fits { IsTrue B.indexable }
    requires room { 60000 ≤ B.type_capacity }
{
    let mut alive = B::zeros();
    alive.set_range(0, 60_000);
    alive
}

/// Returns a world in which the first 60,000 entities are alive. No entity has a component.
fn begin<B: BitsOwned>() -> World<B, 3>
    requires fits { IsTrue B.indexable }
    requires room { 60000 ≤ B.type_capacity }
{
    World::with_alive(first_alive::<B>())
}

fn main(rt: HostRuntime) -> io::Result<()> {
    let mut world = begin::<Mask>();
    let mut places = [0; 65536];
    let mut speeds = [0; 65536];
    live(&rt, &mut world, &mut places, &mut speeds)
}
