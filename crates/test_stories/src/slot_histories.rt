//! Drawn (pseudo-random) calls on slots, compared with a list. The list has every key that `insert`
//! returned, the value of the key, and whether the key is still in use.

ghost use Rattle.std.specs.Prelude.{◌≤◌};
ghost use Rattle.bittle.specs.Shapes.{Fits};

use crate::checks::holds;
use bit_slots::{Key, Slot, Slots};
use bittle::{BitsOwned, LittleEndian, Set};

// The list: the key that `insert` returned at each step, its value, and whether it is still in use.
#[derive(Drop)]
struct Given {
    keys: [Option<Key>; 48],
    values: [u64; 48],
    there: [bool; 48],
}

// Returns how many of the keys are still in use.
fn count(given: &Given) -> u32 {
    let mut count = 0u32;
    for step in 0..48 {
        if given.there[step] {
            count = count.wrapping_add(1);
        }
    }
    count
}

// Returns the value that a key finds. Without a key, returns `None`.
fn found<B: BitsOwned>(slots: &Slots<u64, B>, key: Option<Key>) -> Option<u64> {
    slots.get(key?).copied()
}

// Returns whether each key finds what the list says, and `len`, `is_empty` and `iter` agree with
// the list.
fn agrees<B: BitsOwned>(slots: &Slots<u64, B>, given: &Given) -> bool {
    for step in 0..48 {
        let expected = if given.there[step] {
            Some(given.values[step])
        } else {
            None
        };
        if found(slots, given.keys[step]) != expected {
            return false;
        }
    }
    let count = count(given);
    slots.len() == count && slots.is_empty() == (count == 0) && walks(slots, given)
}

// Returns whether `iter` yields exactly the keys that are still in use, each with its value, and
// whether the slots of these keys ascend.
fn walks<B: BitsOwned>(slots: &Slots<u64, B>, given: &Given) -> bool {
    let mut next = 0u32;
    let mut yielded = 0u32;
    for (key, value) in slots.iter() {
        let mut is_there = false;
        for step in 0..48 {
            if given.keys[step] == Some(key) && given.values[step] == *value {
                is_there = given.there[step];
            }
        }
        if !is_there || key.slot() < next {
            return false;
        }
        next = key.slot().saturating_add(1);
        yielded = yielded.saturating_add(1);
    }
    yielded == count(given)
}

// Returns the slot and the generation of the next key, as the list predicts them: the least slot
// that no key in use names, and how many keys of that slot there were. Returns `None` if all five
// slots are in use.
fn next_key(given: &Given) -> Option<(u32, u32)> {
    for slot in 0..5u32 {
        let mut is_used = false;
        let mut generation = 0u32;
        for step in 0..48 {
            if let Some(key) = given.keys[step] {
                if key.slot() == slot {
                    is_used = is_used || given.there[step];
                    generation = generation.wrapping_add(1);
                }
            }
        }
        if !is_used {
            return Some((slot, generation));
        }
    }
    None
}

// Inserts a value. If `insert` returns a key, returns whether the key is new, and has the slot and
// the generation that the list predicts. Else returns whether the value came back and all five
// slots are in use.
fn put<B: BitsOwned>(
    slots: &mut Slots<u64, B>,
    given: &mut Given,
    step: usize,
    value: u64,
) -> bool {
    let next = next_key(given);
    match slots.insert(value) {
        Ok(key) => {
            let is_new = !given.keys.contains(&Some(key));
            let is_next = next == Some((key.slot(), key.generation()));
            if step < 48 {
                given.keys[step] = Some(key);
                given.values[step] = value;
                given.there[step] = true;
            }
            is_new && is_next
        }
        Err(back) => back == value && next == None && count(given) == 5,
    }
}

// Removes the key of step `step`, if there is one. Returns whether the list predicts the result.
fn cut<B: BitsOwned>(slots: &mut Slots<u64, B>, given: &mut Given, step: usize) -> bool {
    if 48 <= step {
        return true;
    }
    let expected = if given.there[step] {
        Some(given.values[step])
    } else {
        None
    };
    given.there[step] = false;
    match given.keys[step] {
        Some(key) => slots.remove(key) == expected,
        None => true,
    }
}

// Adds 7 to the value at the key of step `step`, if there is one. Returns whether the list predicts
// the result.
fn change<B: BitsOwned>(slots: &mut Slots<u64, B>, given: &mut Given, step: usize) -> bool {
    if 48 <= step {
        return true;
    }
    if given.there[step] {
        given.values[step] = given.values[step].wrapping_add(7);
    }
    match given.keys[step] {
        Some(key) => {
            slots.update(key, |value| *value = value.wrapping_add(7)) == given.there[step]
        }
        None => true,
    }
}

// Returns whether 48 drawn calls on five slots return what the list predicts.
fn drawn<B: BitsOwned>(seed: u64) -> bool
    requires fits { Fits B.indexable B.type_capacity }
    requires enough { 5 ≤ B.type_capacity }
{
    let mut given = Given {
        keys: [None; 48],
        values: [0; 48],
        there: [false; 48],
    };
    let mut row = [
        Slot::new(),
        Slot::new(),
        Slot::new(),
        Slot::new(),
        Slot::new(),
    ];
    let mut slots = Slots::<u64, B>::over(row.as_mut_slice());
    let mut state = seed;
    let mut right = true;
    for step in 0..48usize {
        state = state
            .wrapping_mul(6_364_136_223_846_793_005)
            .wrapping_add(1_442_695_040_888_963_407);
        let drawn = ((state >> 40) % 48) as usize;
        let answer = match (state >> 33) % 7 {
            0..=3 => put(&mut slots, &mut given, step, state),
            4..=5 => cut(&mut slots, &mut given, drawn),
            _ => change(&mut slots, &mut given, drawn),
        };
        right = right && answer && agrees(&slots, &given);
    }
    right
}

#[test]
fn of_a_word(rt: HostRuntime) {
    holds!(rt; drawn::<u8>(1) && drawn::<u8>(2) && drawn::<u8>(3));
}

#[test]
fn of_the_other_order(rt: HostRuntime) {
    holds!(rt; drawn::<Set<u16, LittleEndian>>(6) && drawn::<Set<u16, LittleEndian>>(7));
}
