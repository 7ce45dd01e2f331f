//! Callers of slots with generations: what a key finds. No function has a proof file.

ghost use Rattle.std.specs.Prelude.{◌≡◌, ◌<◌, None, IfSome, false, true, length};
ghost use Rattle.bit_slots.specs.Entries.{entries};

use bit_slots::{Key, Slots};
use bittle::BitsOwned;

/// Inserts a value, and returns whether its key finds a value. The result is always `true`, also if
/// `insert` fails.
pub fn insert_and_ask<V: Drop, B: BitsOwned>(slots: &mut Slots<V, B>, value: V) -> bool
    ensures { result ≡ true }
{
    match slots.insert(value) {
        Ok(key) => slots.contains(key),
        Err(_) => true,
    }
}

/// Inserts two values, and returns whether the key of the first still finds a value. The result is
/// always `true`, also if `insert` fails.
pub fn insert_beside<V: Drop, B: BitsOwned>(slots: &mut Slots<V, B>, first: V, second: V) -> bool
    ensures { result ≡ true }
{
    let Ok(key) = slots.insert(first) else {
        return true;
    };
    let _key = slots.insert(second);
    slots.contains(key)
}

/// Removes the value of `key`, and returns whether `other` finds a value exactly if it did before.
/// The result is always `true`, also if both keys are the same.
pub fn remove_beside<V: Drop, B: BitsOwned>(slots: &mut Slots<V, B>, key: Key, other: Key) -> bool
    ensures { result ≡ true }
{
    if key == other {
        return true;
    }
    let was_there = slots.contains(other);
    let _value = slots.remove(key);
    slots.contains(other) == was_there
}

/// Removes the value of `key` and inserts a value. Returns whether `insert` returns a key, if
/// `remove` returned a value. The result is always `true`. The key's generation is not the last.
pub fn remove_and_insert<V: Drop, B: BitsOwned>(slots: &mut Slots<V, B>, key: Key, value: V) -> bool
    requires { key.generation < 4294967295 }
    ensures { result ≡ true }
{
    match slots.remove(key) {
        Some(_) => slots.insert(value).is_ok(),
        None => true,
    }
}

/// Replaces the value of `key`, and returns whether `replace` returns what `get` says. The result
/// is always `true`.
pub fn replace_and_ask<B: BitsOwned>(slots: &mut Slots<u64, B>, key: Key, value: u64) -> bool
    ensures { result ≡ true }
{
    let before = slots.get(key).copied();
    match slots.replace(key, value) {
        Ok(old) => before == Some(old) && slots.get(key).copied() == Some(value),
        Err(back) => before == None && back == value && !slots.contains(key),
    }
}

/// Returns whether no slot holds a value and `key` still finds one. The result is always `false`.
pub fn is_empty_and_ask<V: Drop, B: BitsOwned>(slots: &Slots<V, B>, key: Key) -> bool
    ensures { result ≡ false }
{
    slots.is_empty() && slots.contains(key)
}

/// Removes the value of `key`, and returns whether the key still finds a value. The result is
/// always `false`.
pub fn remove_and_ask<V: Drop, B: BitsOwned>(slots: &mut Slots<V, B>, key: Key) -> bool
    ensures { result ≡ false }
{
    let _value = slots.remove(key);
    slots.contains(key)
}

/// Removes the value of `key` twice, and returns what the second call returns. The result is always
/// `None`.
pub fn remove_twice<V: Drop, B: BitsOwned>(slots: &mut Slots<V, B>, key: Key) -> Option<V>
    ensures { result ≡ None }
{
    let _value = slots.remove(key);
    slots.remove(key)
}

/// Sets the value of `key` by `update`, and returns the value that the key finds afterwards, or
/// `None` if it finds none.
pub fn set_and_ask<B: BitsOwned>(slots: &mut Slots<u64, B>, key: Key, value: u64) -> Option<u64>
    ensures { IfSome result (λ held. held ≡ value) }
{
    slots.update(key, |held| *held = value);
    slots.get(key).copied()
}

/// Adds one to the count of `key`, unless the count is `u64::MAX`. Returns whether `update` and
/// `contains` agree on whether the key finds a value. The result is always `true`.
pub fn count_and_ask<B: BitsOwned>(slots: &mut Slots<u64, B>, key: Key) -> bool
    ensures { result ≡ true }
{
    let is_there = slots.contains(key);
    slots.update(key, |count| *count = count.saturating_add(1)) == is_there
}

/// Counts the keys that find a value, by an iterator.
pub fn how_many<V: Drop, B: BitsOwned>(slots: &Slots<V, B>) -> usize
    ensures { result ≡ length (entries slots.now.row.now) }
{
    slots.iter().count()
}

/// Returns the slot of a key, or `None` if the key finds no value.
pub fn slot_of<V: Drop, B: BitsOwned>(slots: &Slots<V, B>, key: Key) -> Option<u32>
    ensures { IfSome result (λ slot. slot ≡ key.slot) }
{
    if slots.contains(key) {
        Some(key.slot())
    } else {
        None
    }
}
