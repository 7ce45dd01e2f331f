//! Keys of slots: which keys find a value after values were inserted, changed and removed.

use crate::checks::{holds, same};
use bit_slots::{Key, Slot, Slots};
use bittle::Bits;

// Returns the slot and the generation of a key.
fn parts(key: Key) -> (u32, u32) {
    (key.slot(), key.generation())
}

#[test]
fn a_removed_key_finds_nothing(rt: HostRuntime) {
    let mut row = [Slot::new(), Slot::new()];
    let mut slots = Slots::<u64, u8>::over(row.as_mut_slice());
    let first = slots.insert(10).expect(&rt, "slot 0 is free");
    let second = slots.insert(20).expect(&rt, "slot 1 is free");
    same!(rt; (parts(first), parts(second)), ((0, 0), (1, 0)));
    same!(rt; slots.insert(30), Err(30));
    same!(rt; slots.remove(first), Some(10));
    same!(rt; slots.remove(first), None);
    let third = slots.insert(40).expect(&rt, "slot 0 is free again");
    same!(rt; parts(third), (0, 1));
    same!(rt; slots.get(first).copied(), None);
    holds!(rt; !slots.contains(first));
    holds!(rt; first != third && first == first);
}

#[test]
fn a_key_of_another_table(rt: HostRuntime) {
    let mut other_row = [Slot::new(), Slot::Free(1), Slot::new()];
    let mut others = Slots::<u64, u8>::over(other_row.as_mut_slice());
    let first = others.insert(1).expect(&rt, "slot 0 is free");
    let newer = others.insert(2).expect(&rt, "slot 1 is free");
    let past = others.insert(3).expect(&rt, "slot 2 is free");
    same!(rt; (parts(first), parts(newer), parts(past)), ((0, 0), (1, 1), (2, 0)));

    let mut row = [Slot::new(), Slot::new()];
    let mut slots = Slots::<u64, u8>::over(row.as_mut_slice());
    same!(rt; slots.replace(first, 5), Err(5));
    holds!(rt; !slots.update(first, |value| *value = 1));
    same!(rt; slots.insert(10), Ok(first));
    same!(rt; slots.insert(20).is_ok(), true);
    same!(rt; (slots.replace(newer, 6), slots.replace(past, 6)), (Err(6), Err(6)));
    holds!(rt; !slots.update(newer, |value| *value = 6));
    holds!(rt; !slots.update(past, |value| *value = 6));
    same!(rt; (slots.remove(newer), slots.remove(past)), (None, None));
    same!(rt; slots.remove(first), Some(10));
    same!(rt; slots.len(), 1);
}

#[test]
fn a_value_is_replaced_under_its_key(rt: HostRuntime) {
    let mut row = [Slot::new(), Slot::new()];
    let mut slots = Slots::<u64, u8>::over(row.as_mut_slice());
    let key = slots.insert(10).expect(&rt, "slot 0 is free");
    same!(rt; slots.replace(key, 5), Ok(10));
    same!(rt; slots.get(key).copied(), Some(5));
    same!(rt; slots.remove(key), Some(5));
    same!(rt; slots.replace(key, 6), Err(6));
}

#[test]
fn a_value_is_changed_under_its_key(rt: HostRuntime) {
    let mut row = [Slot::new(), Slot::new()];
    let mut slots = Slots::<u64, u8>::over(row.as_mut_slice());
    let key = slots.insert(10).expect(&rt, "slot 0 is free");
    holds!(rt; slots.update(key, |value| *value = *value / 3));
    same!(rt; slots.get(key).copied(), Some(3));
    let second = slots.insert(20).expect(&rt, "slot 1 is free");
    holds!(rt; slots.update(key, |value| *value = 5));
    same!(rt; slots.remove(key), Some(5));
    holds!(rt; !slots.update(key, |value| *value = 6));
    same!(rt; slots.get(second).copied(), Some(20));
    same!(rt; slots.len(), 1);
}

#[test]
fn a_slot_retires_after_its_last_generation(rt: HostRuntime) {
    let mut row = [Slot::Free(4_294_967_294), Slot::Retired];
    let mut slots = Slots::<u64, u8>::over(row.as_mut_slice());
    let before = slots.insert(1).expect(&rt, "slot 0 is free");
    same!(rt; parts(before), (0, 4_294_967_294));
    same!(rt; slots.remove(before), Some(1));
    let last = slots.insert(2).expect(&rt, "slot 0 has a generation left");
    same!(rt; parts(last), (0, 4_294_967_295));
    same!(rt; slots.remove(last), Some(2));
    same!(rt; slots.insert(3), Err(3));
    holds!(rt; !slots.contains(last) && !slots.contains(before));
    same!(rt; slots.len(), 0);
    holds!(rt; slots.is_empty());
}

#[test]
fn slots_are_walked_in_order(rt: HostRuntime) {
    let mut row = [
        Slot::Live(3, 30),
        Slot::Free(9),
        Slot::Retired,
        Slot::Live(0, 33),
    ];
    let slots = Slots::<u64, u8>::over(row.as_mut_slice());
    let order: [u32; 2] = [0, 3];
    holds!(rt; slots.live().iter_ones().eq(order.iter().copied()));
    same!(rt; slots.key_at(0).map(parts), Some((0, 3)));
    same!(rt; slots.key_at(1), None);
    same!(rt; slots.key_at(2), None);
    same!(rt; slots.key_at(3).map(parts), Some((3, 0)));
    same!(rt; slots.key_at(4), None);
    same!(rt; (slots.len(), slots.capacity()), (2, 4));
    holds!(rt; !slots.is_empty());
    let mut walk = slots.iter();
    same!(rt; walk.next().map(|entry| (parts(entry.0), *entry.1)), Some(((0, 3), 30)));
    same!(rt; walk.next().map(|entry| (parts(entry.0), *entry.1)), Some(((3, 0), 33)));
    same!(rt; walk.next(), None);
    same!(rt; walk.next(), None);
}
