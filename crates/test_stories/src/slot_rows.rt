//! Rows of slots that a caller lends.

use crate::checks::{holds, same};
use bit_slots::{Slot, Slots};
use bittle::{LittleEndian, Set};

// A value that can be moved, but not copied.
#[derive(Drop, Debug, PartialEq)]
struct Name {
    number: u64,
}

#[test]
fn a_row_of_no_slots(rt: HostRuntime) {
    let mut other_row = [Slot::new()];
    let mut others = Slots::<u64, u8>::over(other_row.as_mut_slice());
    let key = others.insert(7).expect(&rt, "slot 0 is free");
    let mut row: [Slot<u64>; 0] = [];
    let mut slots = Slots::<u64, [u8; 0]>::over(row.as_mut_slice());
    same!(rt; slots.insert(1), Err(1));
    same!(rt; slots.remove(key), None);
    same!(rt; (slots.len(), slots.capacity()), (0, 0));
    holds!(rt; slots.is_empty());
    holds!(rt; !slots.contains(key) && !slots.update(key, |value| *value = 2));
    same!(rt; slots.iter().next(), None);
}

#[test]
fn a_row_that_is_lent_again(rt: HostRuntime) {
    let mut row = [Slot::new(), Slot::new(), Slot::new()];
    let mut slots = Slots::<u64, Set<u8, LittleEndian>>::over(row.as_mut_slice());
    let first = slots.insert(7).expect(&rt, "slot 0 is free");
    let second = slots.insert(8).expect(&rt, "slot 1 is free");
    same!(rt; slots.remove(first), Some(7));
    let mut again = Slots::<u64, [u8; 1]>::over(row.as_mut_slice());
    same!(rt; again.get(second).copied(), Some(8));
    let third = again.insert(9).expect(&rt, "slot 0 is free again");
    same!(rt; (third.slot(), third.generation()), (0, 1));
    same!(rt; again.len(), 2);
}

#[test]
fn values_that_are_moved(rt: HostRuntime) {
    let mut row = [Slot::new(), Slot::new()];
    let mut slots = Slots::<Name, u8>::over(row.as_mut_slice());
    let inserted = slots.insert(Name { number: 4 });
    let key = inserted.expect(&rt, "slot 0 is free");
    same!(rt; slots.get(key), Some(&Name { number: 4 }));
    holds!(rt; slots.update(key, |name| *name = Name { number: 6 }));
    same!(rt; slots.remove(key), Some(Name { number: 6 }));
    same!(rt; slots.get(key), None);
}
