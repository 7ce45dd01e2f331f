//! Callers of slots with generations: iterators over the values, tables beside the slots, and
//! counts.

ghost use Rattle.std.specs.Prelude.{◌≡◌, ◌≢◌, ◌+◌, ◌<◌, ◌≤◌, ℕ, false, length, map, slice_get, sum};
ghost use Rattle.std.specs.Prelude.{List, [], ◌∷◌, if◌then◌else◌};
ghost use Rattle.std.specs.Prelude.{true, is_some, option_map, IfOk, IfSome, MatchOption, None};
ghost use Rattle.std.specs.Prelude.{Some};
ghost use Rattle.bit_slots.specs.Entries.{entries};
ghost use Rattle.bit_slots.specs.KeyLaws.{Call, IsHistory, Inserts, Removes, Replaces, Refuses};
ghost use Rattle.bit_slots.specs.Keys.{found, stages, Stages};
ghost use Rattle.bit_slots.specs.SlotSets.{is_free, is_slot, live_count};
ghost use Rattle.bit_slots.specs.declared.Key.{Key};

use bit_slots::{Key, Slot, Slots, key_laws};
use bittle::{Bits, BitsOwned};

/// Returns a key that finds the value `wanted`, or `None` if no key finds it.
pub fn key_of<B: BitsOwned>(slots: &Slots<u64, B>, wanted: u64) -> Option<Key>
    ensures { IfSome result (λ key.
        found (stages slots.now.row.now key.slot key.generation) ≡ Some wanted) }
{
    for (key, value) in slots.iter() {
        if *value == wanted {
            return Some(key);
        }
    }
    None
}

/// Searches for a key of the value `wanted`, and returns the value that this key finds, which is
/// `wanted`. Returns `None` if no key finds that value.
pub fn find_and_get<B: BitsOwned>(slots: &Slots<u64, B>, wanted: u64) -> Option<u64>
    ensures { IfSome result (λ value. value ≡ wanted) }
{
    let (key, _) = slots.iter().find(|entry| *entry.1 == wanted)?;
    slots.get(key).copied()
}

/// Returns the sum of the values.
pub fn total<B: BitsOwned>(slots: &Slots<u32, B>) -> u64
    ensures { result ≡ sum (map (λ entry. entry.1) (entries slots.now.row.now)) }
{
    let mut total = 0u64;
    for (_, value) in slots.iter() {
        total += *value as u64;
    }
    total
}

/// Copies each value to the entry of `table` at the index of its slot. The table has an entry for
/// each slot.
pub fn copy_values<B: BitsOwned>(slots: &Slots<u64, B>, table: &mut [u64])
    requires { length slots.now.row.now ≤ length table.old }
    ensures { length table.new ≡ length table.old }
{
    for (key, value) in slots.iter() {
        table[key.slot() as usize] = *value;
    }
}

/// Returns whether `key` finds a value. If it does, the call counts one more use in the entry of
/// `uses` at the index of the key's slot, unless that entry is `u64::MAX`.
pub fn count_use<V: Drop, B: BitsOwned>(slots: &Slots<V, B>, uses: &mut [u64], key: Key) -> bool
    requires { length slots.now.row.now ≤ length uses.old }
    ensures others { (other : ℕ) → other ≢ key.slot
        → slice_get uses.new other ≡ slice_get uses.old other }
    ensures stays { result ≡ false → uses.new ≡ uses.old }
{
    let is_there = slots.contains(key);
    if is_there {
        let slot = key.slot() as usize;
        uses[slot] = uses[slot].saturating_add(1);
    }
    is_there
}

/// Inserts a value, and counts one more use in the entry of `uses` at the index of its slot, unless
/// that entry is `u64::MAX`. Returns the entry, or the value in `Err` if no slot is free. The table
/// has an entry for each slot.
pub fn insert_used<V: Drop, B: BitsOwned>(
    slots: &mut Slots<V, B>,
    uses: &mut [u64],
    value: V,
) -> Result<u64, V>
    requires { length slots.old.row.now ≤ length uses.old }
    ensures { length uses.new ≡ length uses.old }
{
    let slot = slots.insert(value)?.slot() as usize;
    uses[slot] = uses[slot].saturating_add(1);
    Ok(uses[slot])
}

/// Returns the sum of the uses of the slots that hold a value, but at most `u64::MAX`. The table
/// has an entry for each slot. The loop reads the set of these slots, and no slot.
pub fn uses_of_live<V: Drop, B: BitsOwned>(slots: &Slots<V, B>, uses: &[u64]) -> u64
    requires { length slots.now.row.now ≤ length uses.now }
{
    let mut total = 0u64;
    for slot in slots.live().iter_ones() {
        total = total.saturating_add(uses[slot as usize]);
    }
    total
}

/// Inserts a value, and returns how many values there are then: one more than before. Returns the
/// value in `Err` if no slot is free.
pub fn insert_and_count<V: Drop, B: BitsOwned>(slots: &mut Slots<V, B>, value: V) -> Result<u32, V>
    ensures { IfOk result (λ count.
        count ≡ live_count B.type_capacity slots.old.row.now + 1) }
{
    slots.insert(value)?;
    Ok(slots.len())
}

/// Inserts a value, takes it out again, and returns whether there are as many values as before. The
/// result is always `true`, also if `insert` fails.
pub fn insert_and_remove<V: Drop, B: BitsOwned>(slots: &mut Slots<V, B>, value: V) -> bool
    ensures { result ≡ true }
{
    let before = slots.len();
    match slots.insert(value) {
        Ok(key) => match slots.remove(key) {
            Some(_) => slots.len() == before,
            None => false,
        },
        Err(_) => slots.len() == before,
    }
}

/// Inserts a value into a table of one new slot, and returns whether it got a key. The result is
/// always `true`.
pub fn insert_into_new(value: u64) -> bool
    ensures { result ≡ true }
{
    let mut row = [Slot::new()];
    Slots::<u64, u64>::over(&mut row).insert(value).is_ok()
}

/// Inserts a value three times into a table of two new slots, and returns whether each call gave a
/// key. The first two calls always do, and the third never does.
pub fn insert_thrice(value: u64) -> (bool, bool, bool)
    ensures { result ≡ (true, true, false) }
{
    let mut row = [Slot::new(), Slot::new()];
    let mut slots = Slots::<u64, u64>::over(&mut row);
    let Ok(_) = slots.insert(value) else {
        return (false, false, false);
    };
    let Ok(_) = slots.insert(value) else {
        return (true, false, false);
    };
    (true, true, slots.insert(value).is_ok())
}

/// Puts a value into the least free slot of `row`, and returns its key, or `None` if no slot is
/// free. The lender of `row` sees the value: its key finds it in a table that is made over `row`
/// later.
pub fn fill_lent(row: &mut [Slot<u64>], value: u64) -> Option<Key>
    requires { length row.old ≤ 64 }
    ensures { IfSome result (λ key.
        found (stages row.new key.slot key.generation) ≡ Some value) }
{
    let mut slots = Slots::<u64, u64>::over(row);
    slots.insert(value).ok()
}

/// Inserts a value and then replaces it by another. Returns the key, or the value in `Err` if no
/// slot is free. The clause says that the two calls, with what they return, are a history of calls:
/// each law of `bit_slots::key_laws` holds of them.
pub fn insert_and_replace<V: Drop, B: BitsOwned>(
    slots: &mut Slots<V, B>,
    first: V,
    second: V,
) -> Result<Key, V>
    ensures { IfOk result (λ key. IsHistory (stages slots.old.row.now)
        (Inserts first key ∷ Replaces key second ∷ []) (stages slots.new.row.now)) }
{
    let key = slots.insert(first)?;
    slots.replace(key, second)?;
    Ok(key)
}

/// Removes `key`, sets the value of `other` to 0, and returns whether `other` finds a value. The
/// clause says that the two calls are a history of calls, as that of [`insert_and_replace`].
pub fn remove_and_update<B: BitsOwned>(slots: &mut Slots<u64, B>, key: Key, other: Key) -> bool
    ensures { IsHistory (stages slots.old.row.now)
        (Removes key ∷ (if result then Replaces other 0 else Refuses) ∷ [])
        (stages slots.new.row.now) }
{
    slots.remove(key);
    if slots.update(other, |value| *value = 0) {
        return true;
    }
    false
}

/// Removes `key`, inserts a value, and returns whether `key` finds a value then. The result is
/// `Some(false)`: a removed key is not given again. Returns `None` if `key` finds no value to
/// remove, or no slot is free.
pub fn remove_and_insert<V: Drop, B: BitsOwned>(
    slots: &mut Slots<V, B>,
    key: Key,
    value: V,
) -> Option<bool>
    ensures { IfSome result (λ is_found. is_found ≡ false) }
{
    slots.remove(key)?;
    slots.insert(value).ok()?;
    Some(slots.contains(key))
}

/// Removes `key`, inserts a value, and returns the value's key, or `None` as
/// [`remove_and_insert`]. If the value gets the slot of `key`, its generation is greater.
pub fn insert_after<V: Drop, B: BitsOwned>(
    slots: &mut Slots<V, B>,
    key: Key,
    value: V,
) -> Option<Key>
    ensures { IfSome result (λ next. next.slot ≡ key.slot → key.generation < next.generation) }
{
    slots.remove(key)?;
    slots.insert(value).ok()
}

/// States that in any sequence of calls, a key that was given and then removed is not given again,
/// and finds nothing after the calls.
pub fn removed_keys_are_not_used_again()
    ensures { (before after : Stages ℕ) (calls : List (Call ℕ)) → IsHistory before calls after
        → (key : Key) (value other : ℕ) (i j k : ℕ) → i < j → j < k
        → slice_get calls i ≡ Some (Inserts value key) → slice_get calls j ≡ Some (Removes key)
        → (slice_get calls k ≡ Some (Inserts other key) → ⊥)
        × (found (after key.slot key.generation) ≡ None) }
{
    key_laws::keys_are_given_once::<u64>();
    key_laws::given_then_removed_keys_find_nothing::<u64>();
}

/// Returns how many slots hold no value. The difference is never negative.
pub fn slots_without_value<V: Drop, B: BitsOwned>(slots: &Slots<V, B>) -> u32
    ensures { result + live_count B.type_capacity slots.now.row.now
        ≡ length slots.now.row.now }
{
    slots.capacity() - slots.len()
}

/// Makes a table over two new slots, and returns how many values it has: none.
pub fn new_len() -> u32
    ensures { result ≡ 0 }
{
    let mut row = [Slot::<u32>::new(), Slot::new()];
    Slots::<u32, u8>::over(row.as_mut_slice()).len()
}

/// Counts the values by iterating over them, and returns whether the count is that of `len`. The
/// result is always `true`.
pub fn count_as_len<V: Drop, B: BitsOwned>(slots: &Slots<V, B>) -> bool
    ensures { result ≡ true }
{
    slots.iter().count() == slots.len() as usize
}

/// Inserts a value and returns its key, or `None` if no slot is free. `rest` is how many slots hold
/// no value, before the call and after it.
pub fn insert_counted<V: Drop, B: BitsOwned>(
    slots: &mut Slots<V, B>,
    rest: &mut u32,
    value: V,
) -> Option<Key>
    requires { rest.old + live_count B.type_capacity slots.old.row.now
        ≡ length slots.old.row.now }
    ensures rest { rest.new + live_count B.type_capacity slots.new.row.now
        ≡ length slots.new.row.now }
    ensures key { MatchOption result
        ((slot : ℕ) → slot < length slots.old.row.now
        → is_slot is_free slots.old.row.now slot ≡ false)
        (λ key. found (stages slots.new.row.now key.slot key.generation) ≡ Some value) }
{
    let key = slots.insert(value).ok()?;
    *rest -= 1;
    Some(key)
}

/// Values under keys, and how often each slot was used. There are at most 64 slots.
#[derive(Drop)]
pub struct Counted<'a, B: BitsOwned> {
    slots: Slots<'a, u64, B>,
    uses: [u32; 64],
    pub ghost covers: { length slots.row.now ≤ 64 },
}

impl<'a, B: BitsOwned> Counted<'a, B> {
    /// Inserts a value and returns its key, or `None` if no slot is free.
    pub fn insert(&mut self, value: u64) -> Option<Key>
        ensures { IfSome result (λ key.
            found (stages self.new.slots.row.now key.slot key.generation) ≡ Some value) }
    {
        let Ok(key) = self.slots.insert(value) else {
            return None;
        };
        let slot = key.slot() as usize;
        self.uses[slot] = self.uses[slot].saturating_add(1);
        Some(key)
    }

    /// Takes out the value of a key. Returns the value and how often its slot was used, or `None`
    /// if the key finds no value.
    pub fn remove(&mut self, key: Key) -> Option<(u64, u32)>
        ensures value { option_map (λ it. it.0) result
            ≡ found (stages self.old.slots.row.now key.slot key.generation) }
        ensures gone { found (stages self.new.slots.row.now key.slot key.generation) ≡ None }
    {
        let value = self.slots.remove(key)?;
        Some((value, self.uses[key.slot() as usize]))
    }

    /// Replaces the value of a key, and returns how often its slot was used, or `None` if the key
    /// finds no value.
    pub fn replace(&mut self, key: Key, value: u64) -> Option<u32>
        ensures { found (stages self.new.slots.row.now key.slot key.generation)
            ≡ option_map (λ _. value) result }
    {
        match self.slots.replace(key, value) {
            Ok(_) => Some(self.uses[key.slot() as usize]),
            Err(_) => None,
        }
    }

    /// Adds one to the value of a key, unless the value is `u64::MAX`. Returns how often the key's
    /// slot was used, or `None` if the key finds no value.
    pub fn step(&mut self, key: Key) -> Option<u32>
        ensures { is_some result
            ≡ is_some (found (stages self.new.slots.row.now key.slot key.generation)) }
    {
        if self
            .slots
            .update(key, |value| *value = value.saturating_add(1))
        {
            Some(self.uses[key.slot() as usize])
        } else {
            None
        }
    }

    /// Returns the key of the value in a slot, and how often the slot was used, or `None` if the
    /// slot holds no value.
    pub fn at(&self, slot: u32) -> Option<(Key, u32)>
        ensures { IfSome result (λ it. it.0.slot ≡ slot) }
    {
        let key = self.slots.key_at(slot)?;
        Some((key, self.uses[slot as usize]))
    }
}
