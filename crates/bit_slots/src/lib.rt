//! Slots with generations: each value that is put in has a key. A key whose value was taken out
//! finds nothing from then on.
//!
//! A key names a slot and a generation of it. When a value is taken out, its slot goes on to the
//! next generation, so the next value in that slot has another key. A slot whose generations are
//! used up is retired. So no two values that are put in get the same key. The caller owns the row
//! of slots, and no memory is allocated.
//!
//! ```rust
//! let mut row = [Slot::new(), Slot::new()];
//! let mut slots = Slots::<u64, u8>::over(row.as_mut_slice());
//! let first = slots.insert(10);       // Ok(key): slot 0, generation 0
//! let second = slots.insert(20);      // Ok(key): slot 1, generation 0
//! slots.insert(30);                   // Err(30): both are taken
//! ```
#![tactic(auto)]

ghost use Rattle.std.specs.Borrow.{MutBor};
ghost use Rattle.std.specs.Fn.{FnOnceReturnsAtMut};
ghost use Rattle.std.specs.List.{All};
ghost use Rattle.std.specs.Option.{is_some};
ghost use Rattle.std.specs.Prelude.{◌≡◌, ◌≢◌, ◌==◌, ◌+◌, ◌<◌, ◌≤◌, ℕ, suc, false, true, length};
ghost use Rattle.std.specs.Prelude.{cond, nat_lt, option_copied, slice_get, IfErr, IfOk, IfSome};
ghost use Rattle.std.specs.Prelude.{IsTrue};
ghost use Rattle.std.specs.Prelude.{MatchOption, MatchResult, None, Ok, Some};
ghost use Rattle.bittle.specs.PlainSet.{ascending, size};
ghost use Rattle.bittle.specs.Shapes.{Fits};
ghost use Rattle.bittle.specs.Values.{set_in};
ghost use Rattle.bit_slots.specs.Entries.{entries, HasEntry, IsEntry};
ghost use Rattle.bit_slots.specs.Keys.{stages, found, IsInserted, IsRemoved, IsReplaced, HasKey};
ghost use Rattle.bit_slots.specs.Keys.{IsUpdated, Spent, Unused};
ghost use Rattle.bit_slots.specs.SlotSets.{is_free, is_live, is_slot, live_count, HasSlots};
ghost use Rattle.bit_slots.specs.SlotSets.{AreSameSlots, IsEmptied, IsTaken};

mod entries;
#[doc(hidden)]
pub mod key_laws;
mod row;
mod slot;

use bittle::{BitsOwned, Shape};
pub use entries::Iter;
use row::{free_slots, live_slots};
pub use slot::Slot;

/// The key of a value: a slot, and a generation of it. Only a table of slots makes keys.
#[derive(Clone, Copy, Debug, PartialEq, Eq)]
pub struct Key {
    slot: u32,
    generation: u32,
}

impl Key {
    /// Returns the number of the slot in its row.
    pub fn slot(self) -> u32
        ensures { result ≡ self.slot }
    {
        self.slot
    }

    /// Returns the key's generation. It is 0 for the first value of a slot that began as
    /// [`Slot::new`], and each removal of a value adds 1 for the slot's next value.
    pub fn generation(self) -> u32
        ensures { result ≡ self.generation }
    {
        self.generation
    }
}

/// A table of values over a row of slots that the caller lends. Changes are made in the lent row.
/// The table also has two sets: of the free slots, and of the slots that hold a value. Both sets
/// are read in the bit order of `B`.
///
/// No call changes how many slots there are. If a call returns a key, or finds the value of a key,
/// then the number of the key's slot is a valid index of any array that is as long as the row. So
/// `uses[slots.insert(value)?.slot() as usize]` is in bounds.
#[derive(Drop)]
pub struct Slots<'a, V: Drop, B: BitsOwned> {
    row: &'a mut [Slot<V>],
    free: B,
    live: B,
    pub ghost fits: { Fits B.indexable B.type_capacity },
    pub ghost covers: { length row.now ≤ B.type_capacity },
    pub ghost marks_free: { HasSlots is_free (set_in B.Shape B.Order.Endian free) row.now },
    pub ghost marks_live: { HasSlots is_live (set_in B.Shape B.Order.Endian live) row.now },
}

impl<'a, V: Drop, B: BitsOwned> Slots<'a, V, B> {
    /// Returns the table over the slots of `row`, which may hold values already. The row has to
    /// have at most `B::bits()` slots, and `B` has to fit: `B::bits() < u32::MAX` checks this. The
    /// call reads each slot twice. A table over a row of no slots gives no key.
    pub fn over(row: &'a mut [Slot<V>]) -> Slots<'a, V, B>
        requires fits { IsTrue B.indexable }
        requires covers { length row.old ≤ B.type_capacity }
        ensures row { result.row.now ≡ row.old }
        ensures count { live_count B.type_capacity row.old ≡ length (entries row.old) }
        ensures same_row { result.row.ghost_name ≡ row.entry.ghost_name }
    {
        let free = free_slots::<V, B>(row);
        let live = live_slots::<V, B>(row);
        Slots { row, free, live }
    }

    /// Puts a value into the free slot with the least number, and returns the value's key. If no
    /// slot is free, the call changes nothing and returns the value in `Err`. The call searches the
    /// set of the free slots up to that slot.
    pub fn insert(&mut self, value: V) -> Result<Key, V>
        ensures stages { IsInserted (stages self.old.row.now) value result
            (stages self.new.row.now) }
        ensures holds { IfOk result (λ key.
            found (stages self.new.row.now key.slot key.generation) ≡ Some value) }
        ensures least { IfOk result (λ key. (slot : ℕ) → slot < key.slot
            → is_slot is_free self.old.row.now slot ≡ false) }
        ensures full { IfErr result (λ _. (slot : ℕ) → slot < length self.old.row.now
            → is_slot is_free self.old.row.now slot ≡ false) }
        ensures others { (other : Key) → result ≢ Ok other
            → found (stages self.new.row.now other.slot other.generation)
            ≡ found (stages self.old.row.now other.slot other.generation) }
        ensures free { IfOk result (λ key.
            is_slot is_free self.old.row.now key.slot ≡ true) }
        ensures slots { MatchResult result
            (λ key. IsTaken self.old.row.now key.slot self.new.row.now)
            (λ _. AreSameSlots self.old.row.now self.new.row.now) }
        ensures generation { IfOk result (λ key. (k : ℕ)
            → stages self.old.row.now key.slot k
            ≡ cond (nat_lt k key.generation) Spent Unused) }
        ensures within { IfOk result (λ key. key.slot < length self.old.row.now) }
        ensures count { let before = live_count B.type_capacity self.old.row.now in
            let after = live_count B.type_capacity self.new.row.now in
            MatchResult result (λ _. after ≡ before + 1) (λ _. after ≡ before) }
        ensures had_room { IfOk result (λ _.
            live_count B.type_capacity self.old.row.now < length self.old.row.now) }
        ensures same_capacity { length self.new.row.now ≡ length self.old.row.now }
        ensures same_row { self.new.row.ghost_name ≡ self.old.row.ghost_name }
    {
        let Some(slot) = self.free.first_one_in::<B::Order>(0, B::bits()) else {
            return Err(value);
        };
        let key = row::fill(self.row, slot, value);
        self.free.clear_bit(slot);
        self.live.set_bit(slot);
        Ok(key)
    }

    /// Takes out the value of a key and returns it. From then on the key finds nothing. The slot is
    /// free again, unless the key's generation is `u32::MAX`. If the key finds no value, the call
    /// changes nothing and returns `None`. It costs O(1).
    ///
    /// If `insert(5)` returns `Ok(key)`, `remove(key)` returns `Some(5)` once and then `None`.
    pub fn remove(&mut self, key: Key) -> Option<V>
        ensures found { result ≡ found (stages self.old.row.now key.slot key.generation) }
        ensures stages { IsRemoved (stages self.old.row.now) key
            (stages self.new.row.now) }
        ensures gone { found (stages self.new.row.now key.slot key.generation) ≡ None }
        ensures others { (other : Key) → other ≢ key
            → found (stages self.new.row.now other.slot other.generation)
            ≡ found (stages self.old.row.now other.slot other.generation) }
        ensures free { IfSome result (λ _. is_slot is_free self.new.row.now key.slot
            ≡ nat_lt key.generation 4294967295) }
        ensures slots { MatchOption result
            (AreSameSlots self.old.row.now self.new.row.now)
            (λ _. IsEmptied self.old.row.now key.slot (nat_lt key.generation 4294967295)
            self.new.row.now) }
        ensures within { IfSome result (λ _. key.slot < length self.old.row.now) }
        ensures count { let before = live_count B.type_capacity self.old.row.now in
            let after = live_count B.type_capacity self.new.row.now in
            MatchOption result (after ≡ before) (λ _. after + 1 ≡ before) }
        ensures same_capacity { length self.new.row.now ≡ length self.old.row.now }
        ensures same_row { self.new.row.ghost_name ≡ self.old.row.ghost_name }
    {
        let (value, is_free) = row::empty(self.row, key)?;
        self.live.clear_bit(key.slot);
        if !is_free {
            return Some(value);
        }
        self.free.set_bit(key.slot);
        Some(value)
    }

    /// Replaces the value of a key, and returns the old value. The key stays valid. If the key
    /// finds no value, the call changes nothing and returns the new value in `Err`. It costs O(1).
    ///
    /// If `insert(5)` returns `Ok(key)`, `replace(key, 8)` returns `Ok(5)`, and `remove(key)` then
    /// returns `Some(8)`.
    pub fn replace(&mut self, key: Key, value: V) -> Result<V, V>
        ensures stages { IsReplaced (stages self.old.row.now) key value result
            (stages self.new.row.now) }
        ensures found { MatchResult result
            (λ old. found (stages self.old.row.now key.slot key.generation) ≡ Some old)
            (λ _. found (stages self.old.row.now key.slot key.generation) ≡ None) }
        ensures holds { MatchResult result
            (λ _. found (stages self.new.row.now key.slot key.generation) ≡ Some value)
            (λ _. found (stages self.new.row.now key.slot key.generation) ≡ None) }
        ensures back { IfErr result (λ back. back ≡ value) }
        ensures others { (other : Key) → other ≢ key
            → found (stages self.new.row.now other.slot other.generation)
            ≡ found (stages self.old.row.now other.slot other.generation) }
        ensures slots { AreSameSlots self.old.row.now self.new.row.now }
        ensures within { IfOk result (λ _. key.slot < length self.old.row.now) }
        ensures count { live_count B.type_capacity self.new.row.now
            ≡ live_count B.type_capacity self.old.row.now }
        ensures same_capacity { length self.new.row.now ≡ length self.old.row.now }
        ensures same_row { self.new.row.ghost_name ≡ self.old.row.ghost_name }
    {
        row::replace(self.row, key, value)
    }

    /// Calls `change` on the value of a key, and returns `true`. The function may change the value,
    /// and the key stays valid. If the key finds no value, nothing is called or changed, and the
    /// result is `false`. `slots.update(key, |count| *count = 0)` sets a count to 0. The call costs
    /// O(1), plus what `change` costs.
    pub fn update<F: FnOnce(&mut V)>(&mut self, key: Key, change: F) -> bool
        requires { (value : MutBor V)
            → found (stages self.old.row.now key.slot key.generation) ≡ Some value.now
            → F.pre change value }
        ensures found { result
            ≡ is_some (found (stages self.old.row.now key.slot key.generation)) }
        ensures stays { is_some (found (stages self.new.row.now key.slot key.generation))
            ≡ is_some (found (stages self.old.row.now key.slot key.generation)) }
        ensures value { (value : V)
            → found (stages self.new.row.now key.slot key.generation) ≡ Some value
            → (old : V)
            × (found (stages self.old.row.now key.slot key.generation) ≡ Some old)
            × FnOnceReturnsAtMut F.FnOnce change old tt value }
        ensures stages { IsUpdated (λ old new. FnOnceReturnsAtMut F.FnOnce change old tt new)
            (stages self.old.row.now) key result (stages self.new.row.now) }
        ensures others { (other : Key) → other ≢ key
            → found (stages self.new.row.now other.slot other.generation)
            ≡ found (stages self.old.row.now other.slot other.generation) }
        ensures slots { AreSameSlots self.old.row.now self.new.row.now }
        ensures within { IsTrue result → key.slot < length self.old.row.now }
        ensures count { live_count B.type_capacity self.new.row.now
            ≡ live_count B.type_capacity self.old.row.now }
        ensures same_capacity { length self.new.row.now ≡ length self.old.row.now }
        ensures same_row { self.new.row.ghost_name ≡ self.old.row.ghost_name }
    {
        row::update(self.row, key, change)
    }

    /// Returns an iterator that yields each key that finds a value, together with that value, from
    /// the first slot to the last. It allocates no memory, and reads each slot once. If few slots
    /// hold a value, iterate over the set [`live`](Slots::live) instead, which is read by words.
    pub fn iter(&self) -> Iter<'_, V>
        ensures entries { result ≡ entries self.now.row.now }
        ensures found { All (λ entry. IsEntry self.now.row.now entry) result }
        ensures order { (i : ℕ) (first second : Key × V) → slice_get result i ≡ Some first
            → slice_get result (suc i) ≡ Some second → first.0.slot < second.0.slot }
        ensures all { (key : Key) (value : V)
            → found (stages self.now.row.now key.slot key.generation) ≡ Some value
            → HasEntry result (key, value) }
        ensures within { All (λ entry. entry.0.slot < length self.now.row.now) result }
        ensures at_most { length result ≤ length self.now.row.now }
        ensures count { length result ≡ live_count B.type_capacity self.now.row.now }
    {
        Iter {
            slots: self.row,
            slot: 0,
        }
    }

    /// Returns the value of a key, or `None` if the key finds no value. It costs O(1).
    pub fn get(&self, key: Key) -> Option<&V>
        ensures value { option_copied result
            ≡ found (stages self.now.row.now key.slot key.generation) }
        ensures within { IfSome result (λ _. key.slot < length self.now.row.now) }
    {
        row::get(self.row, key)
    }

    /// Returns whether the key finds a value. It costs O(1).
    pub fn contains(&self, key: Key) -> bool
        ensures found { result
            ≡ is_some (found (stages self.now.row.now key.slot key.generation)) }
        ensures within { IsTrue result → key.slot < length self.now.row.now }
    {
        self.get(key).is_some()
    }

    /// Returns how many slots there are, including the free slots.
    pub fn capacity(&self) -> u32
        ensures { result ≡ length self.now.row.now }
    {
        self.row.len() as u32
    }

    /// Returns how many slots hold a value: at most [`capacity`](Slots::capacity). The number grows
    /// by one if `insert` returns a key, and falls by one if `remove` returns a value. No other
    /// call changes it. The call counts the set bits of each word of [`live`](Slots::live).
    pub fn len(&self) -> u32
        ensures count { result ≡ live_count B.type_capacity self.now.row.now }
        ensures at_most { result ≤ length self.now.row.now }
    {
        self.live.count_ones()
    }

    /// Returns whether no slot holds a value. It costs what `all_zeros` of [`live`](Slots::live)
    /// costs.
    pub fn is_empty(&self) -> bool
        ensures count { result ≡ (live_count B.type_capacity self.now.row.now == 0) }
        ensures none { IsTrue result → (key : Key)
            → found (stages self.now.row.now key.slot key.generation) ≡ None }
    {
        self.live.all_zeros()
    }

    /// Returns the set of the slots that hold a value. Iterate over it by `iter_ones`, which yields
    /// numbers below [`capacity`](Slots::capacity).
    pub fn live(&self) -> &B
        ensures slots { HasSlots is_live (set_in B.Shape B.Order.Endian result.now)
            self.now.row.now }
        ensures within { All (λ slot. slot < length self.now.row.now)
            (ascending (set_in B.Shape B.Order.Endian result.now)) }
        ensures count { size (set_in B.Shape B.Order.Endian result.now)
            ≡ live_count B.type_capacity self.now.row.now }
    {
        &self.live
    }

    /// Returns the key of the value that a slot holds, or `None` if the slot holds no value or
    /// there is no such slot. It costs O(1).
    pub fn key_at(&self, slot: u32) -> Option<Key>
        ensures key { MatchOption result
            (is_slot is_live self.now.row.now slot ≡ false)
            (λ key. HasKey self.now.row.now slot key) }
        ensures within { IfSome result (λ key. key.slot < length self.now.row.now) }
    {
        row::key_at(self.row, slot)
    }
}
