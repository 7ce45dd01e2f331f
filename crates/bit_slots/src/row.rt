//! A row of slots that a caller lends.

ghost use Rattle.std.specs.Borrow.{MutBor};
ghost use Rattle.std.specs.Fn.{FnOnceReturnsAtMut};
ghost use Rattle.std.specs.Option.{is_some};
ghost use Rattle.std.specs.Prelude.{◌≡◌, ◌<◌, ◌≤◌, ℕ, nat_lt, false, None, Some, true, cond};
ghost use Rattle.std.specs.Prelude.{length};
ghost use Rattle.std.specs.Prelude.{option_copied, IfOk, IfSome, IsTrue, MatchBool, MatchOption};
ghost use Rattle.bit_slots.specs.Keys.{stages, found, IsKeyInserted, IsRemoved, IsReplaced};
ghost use Rattle.bit_slots.specs.Keys.{IsUpdated, HasKey, Spent, Unused};
ghost use Rattle.bit_slots.specs.SlotSets.{is_free, is_live, is_slot, HasSlots};
ghost use Rattle.bit_slots.specs.SlotSets.{IsEmptied, Joins, Leaves, Stays};
ghost use Rattle.bittle.specs.PlainSet.{with_index};
ghost use Rattle.bittle.specs.Shapes.{Fits};
ghost use Rattle.bittle.specs.Values.{set_in};

use crate::Key;
use crate::slot::Slot;
use bittle::{BitsOwned, Shape};

// Puts a value into a free slot, and returns the value's key.
pub(crate) fn fill<V: Drop>(row: &mut [Slot<V>], slot: u32, value: V) -> Key
    requires within { slot < length row.old }
    requires free { is_slot is_free row.old slot ≡ true }
    ensures slot { result.slot ≡ slot }
    ensures within { result.slot < length row.old }
    ensures stages { IsKeyInserted (stages row.old) value result (stages row.new) }
    ensures generation { (k : ℕ) → stages row.old slot k
        ≡ cond (nat_lt k result.generation) Spent Unused }
    ensures free { Leaves is_free row.old slot row.new }
    ensures live { Joins is_live row.old slot row.new }
    ensures same_length { length row.new ≡ length row.old }
{
    let generation = row[slot as usize].fill(value);
    Key { slot, generation }
}

// Takes out the value of a key. Returns the value, and whether its slot is free again: if not,
// the slot is retired. If the key finds no value, changes nothing and returns `None`.
pub(crate) fn empty<V: Drop>(row: &mut [Slot<V>], key: Key) -> Option<(V, bool)>
    ensures found { MatchOption result
        (found (stages row.old key.slot key.generation) ≡ None)
        (λ out. found (stages row.old key.slot key.generation) ≡ Some out.0) }
    ensures stages { IsRemoved (stages row.old) key (stages row.new) }
    ensures within { IfSome result (λ _. key.slot < length row.old) }
    ensures live { MatchOption result (row.new ≡ row.old)
        (λ _. Leaves is_live row.old key.slot row.new) }
    ensures free { IfSome result (λ out. MatchBool out.1
        (Joins is_free row.old key.slot row.new)
        (Stays is_free row.old row.new)) }
    ensures slots { IfSome result (λ _. IsEmptied row.old key.slot
        (nat_lt key.generation 4294967295) row.new) }
    ensures again { IfSome result (λ _. is_slot is_free row.new key.slot
        ≡ nat_lt key.generation 4294967295) }
    ensures same_length { length row.new ≡ length row.old }
{
    if row.len() <= key.slot as usize {
        return None;
    }
    let value = row[key.slot as usize].empty(key.generation)?;
    Some((value, row[key.slot as usize].is_free()))
}

// Replaces the value of a key and returns the old one. If the key finds no value, changes
// nothing and returns the new value in `Err`.
pub(crate) fn replace<V: Drop>(row: &mut [Slot<V>], key: Key, value: V) -> Result<V, V>
    ensures stages { IsReplaced (stages row.old) key value result (stages row.new) }
    ensures within { IfOk result (λ _. key.slot < length row.old) }
    ensures free { Stays is_free row.old row.new }
    ensures live { Stays is_live row.old row.new }
    ensures same_length { length row.new ≡ length row.old }
{
    if row.len() <= key.slot as usize {
        return Err(value);
    }
    row[key.slot as usize].replace(key.generation, value)
}

// Calls a function on the value of a key, and returns whether the key finds a value.
pub(crate) fn update<V: Drop, F: FnOnce(&mut V)>(row: &mut [Slot<V>], key: Key, change: F) -> bool
    requires { (value : MutBor V)
        → found (stages row.old key.slot key.generation) ≡ Some value.now
        → F.pre change value }
    ensures stages { IsUpdated (λ old new. FnOnceReturnsAtMut F.FnOnce change old tt new)
        (stages row.old) key result (stages row.new) }
    ensures within { IsTrue result → key.slot < length row.old }
    ensures free { Stays is_free row.old row.new }
    ensures live { Stays is_live row.old row.new }
    ensures same_length { length row.new ≡ length row.old }
{
    if row.len() <= key.slot as usize {
        return false;
    }
    row[key.slot as usize].update(key.generation, change)
}

// Returns the key of the value that a slot holds.
pub(crate) fn key_at<V: Drop>(row: &[Slot<V>], slot: u32) -> Option<Key>
    ensures key { MatchOption result
        (is_slot is_live row.now slot ≡ false)
        (λ key. HasKey row.now slot key) }
    ensures within { IfSome result (λ key. key.slot < length row.now) }
{
    match row.get(slot as usize)? {
        Slot::Live(generation, _) => Some(Key {
            slot,
            generation: *generation,
        }),
        _ => None,
    }
}

// Returns the value of a key.
pub(crate) fn get<V: Drop>(row: &[Slot<V>], key: Key) -> Option<&V>
    ensures value { option_copied result
        ≡ found (stages row.now key.slot key.generation) }
    ensures within { IfSome result (λ _. key.slot < length row.now) }
{
    let slot = row.get(key.slot as usize)?;
    slot.get(key.generation)
}

// Returns the set of the slots that are free. There are no more slots than a `B` has bits.
pub(crate) fn free_slots<V: Drop, B: BitsOwned>(row: &[Slot<V>]) -> B
    requires fits { Fits B.indexable B.type_capacity }
    requires covers { length row.now ≤ B.type_capacity }
    ensures { HasSlots is_free (set_in B.Shape B.Order.Endian result) row.now }
{
    let mut set = B::zeros();
    for slot in 0..row.len() {
        set = assigned(set, slot as u32, row[slot].is_free());
    }
    set
}

// Returns the set of the slots that hold a value.
pub(crate) fn live_slots<V: Drop, B: BitsOwned>(row: &[Slot<V>]) -> B
    requires fits { Fits B.indexable B.type_capacity }
    requires covers { length row.now ≤ B.type_capacity }
    ensures { HasSlots is_live (set_in B.Shape B.Order.Endian result) row.now }
{
    let mut set = B::zeros();
    for slot in 0..row.len() {
        set = assigned(set, slot as u32, row[slot].is_live());
    }
    set
}

// Returns `set` with `number` as a member if `is_member` is `true`, and else `set` as it is.
fn assigned<B: BitsOwned>(set: B, number: u32, is_member: bool) -> B
    requires { IsTrue B.indexable }
    ensures { set_in B.Shape B.Order.Endian result
        ≡ cond is_member (with_index (set_in B.Shape B.Order.Endian set) number)
        (set_in B.Shape B.Order.Endian set) }
{
    if is_member { set.with_bit(number) } else { set }
}
