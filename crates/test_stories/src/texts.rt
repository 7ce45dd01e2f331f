//! The texts of the events, requests, answers and errors of queues, roles and entities, and of a
//! key. Also texts that are cut off.

use crate::checks::{holds, same};
use bit_queue::{Event, NoTask};
use bit_roles::{Refused, Request};
use bit_slots::{Slot, Slots};
use std::alloc::{AllocError, Global};
use std::fmt;
use std::fmt::{Debug, Display, Write};
use std::process::Abort;
use std::test::Fail;

// Checks the debug text of a value.
fn reads<T: Debug>(
    rt: &impl Abort,
    alloc: Global,
    value: &T,
    text: &str,
) -> Result<(), AllocError> {
    same!(*rt; format!(in alloc; "{value:?}")?.as_str(), text);
    Ok(())
}

#[test]
fn events_are_named_with_their_task(rt: HostRuntime) -> Result<(), Fail> {
    reads(&rt, rt.alloc(), &Event::Wake(300), "Wake(300)")?;
    reads(&rt, rt.alloc(), &Event::Remove(7), "Remove(7)")?;
    reads(&rt, rt.alloc(), &Event::Next, "Next")?;
    Ok(())
}

#[test]
fn answers_of_a_queue_are_named_with_their_task(rt: HostRuntime) -> Result<(), Fail> {
    reads(&rt, rt.alloc(), &bit_queue::Answer::Woken, "Woken")?;
    reads(&rt, rt.alloc(), &bit_queue::Answer::NoTask, "NoTask")?;
    reads(&rt, rt.alloc(), &bit_queue::Answer::Removed, "Removed")?;
    reads(&rt, rt.alloc(), &bit_queue::Answer::NotReady, "NotReady")?;
    reads(
        &rt,
        rt.alloc(),
        &bit_queue::Answer::Runs(1_000_000),
        "Runs(1000000)",
    )?;
    reads(&rt, rt.alloc(), &bit_queue::Answer::Idle, "Idle")?;
    Ok(())
}

#[test]
fn requests_are_named_with_their_role(rt: HostRuntime) -> Result<(), Fail> {
    reads(&rt, rt.alloc(), &Request::Grant(3, 17), "Grant(3, 17)")?;
    reads(&rt, rt.alloc(), &Request::Revoke(3, 17), "Revoke(3, 17)")?;
    reads(&rt, rt.alloc(), &Request::Inherit(3, 0), "Inherit(3, 0)")?;
    reads(&rt, rt.alloc(), &Request::ClearParent(3), "ClearParent(3)")?;
    Ok(())
}

#[test]
fn answers_of_roles_and_errors_are_named(rt: HostRuntime) -> Result<(), Fail> {
    reads(&rt, rt.alloc(), &bit_roles::Answer::Done, "Done")?;
    reads(&rt, rt.alloc(), &bit_roles::Answer::Refused, "Refused")?;
    reads(&rt, rt.alloc(), &NoTask, "NoTask")?;
    reads(&rt, rt.alloc(), &Refused, "Refused")?;
    Ok(())
}

#[test]
fn a_key_is_named_with_its_slot_and_generation(rt: HostRuntime) -> Result<(), Fail> {
    let mut row = [Slot::Retired, Slot::Free(70)];
    let mut slots = Slots::<u64, u8>::over(row.as_mut_slice());
    let key = slots.insert(10).expect(&rt, "slot 1 is free");
    reads(&rt, rt.alloc(), &key, "Key { slot: 1, generation: 70 }")?;
    Ok(())
}

#[test]
fn events_of_entities_are_named_with_their_numbers(rt: HostRuntime) -> Result<(), Fail> {
    reads(&rt, rt.alloc(), &bit_entities::Event::Spawn, "Spawn")?;
    reads(
        &rt,
        rt.alloc(),
        &bit_entities::Event::Remove(4_000),
        "Remove(4000)",
    )?;
    reads(
        &rt,
        rt.alloc(),
        &bit_entities::Event::Attach(7, 1),
        "Attach(7, 1)",
    )?;
    reads(
        &rt,
        rt.alloc(),
        &bit_entities::Event::Detach(0, 12),
        "Detach(0, 12)",
    )?;
    reads(
        &rt,
        rt.alloc(),
        &bit_entities::Event::DetachAll(31),
        "DetachAll(31)",
    )?;
    Ok(())
}

#[test]
fn answers_of_entities_are_named(rt: HostRuntime) -> Result<(), Fail> {
    reads(
        &rt,
        rt.alloc(),
        &bit_entities::Answer::Spawned(63),
        "Spawned(63)",
    )?;
    reads(&rt, rt.alloc(), &bit_entities::Answer::Full, "Full")?;
    reads(&rt, rt.alloc(), &bit_entities::Answer::Done, "Done")?;
    reads(&rt, rt.alloc(), &bit_entities::Answer::Refused, "Refused")?;
    Ok(())
}

// A writer that takes `left` pieces of text, and then fails.
#[derive(Drop)]
struct Short {
    left: u32,
}

impl Write for Short {
    fn write_str(&mut self, _text: &str) -> fmt::Result {
        if self.left == 0 {
            return Err(fmt::Error);
        }
        self.left -= 1;
        Ok(())
    }
}

// Checks that the text of an error is one piece: writing it fails if the writer takes none, and
// succeeds if the writer takes one.
fn is_one_piece<T: Display>(rt: &impl Abort, error: &T) {
    let mut none = Short { left: 0 };
    holds!(*rt; write!(none, "{error}").is_err());
    let mut one = Short { left: 1 };
    holds!(*rt; write!(one, "{error}").is_ok());
    same!(*rt; one.left, 0);
}

#[test]
fn an_error_that_was_cut_off_is_an_error(rt: HostRuntime) {
    is_one_piece(&rt, &NoTask);
    is_one_piece(&rt, &Refused);
}
