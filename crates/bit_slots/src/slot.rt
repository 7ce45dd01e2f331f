//! One slot.

ghost use Rattle.std.specs.Option.{is_some};
ghost use Rattle.std.specs.Borrow.{MutBor};
ghost use Rattle.std.specs.Fn.{FnOnceReturnsAtMut};
ghost use Rattle.std.specs.Prelude.{◌≡◌, ℕ, cond, nat_lt, false, true, option_copied};
ghost use Rattle.std.specs.Prelude.{IfSome, IsTrue, Some};
ghost use Rattle.bit_slots.specs.Keys.{Spent, Unused, stage_of, found, removed, IsExchanged};
ghost use Rattle.bit_slots.specs.Keys.{IsFilled};
ghost use Rattle.bit_slots.specs.Keys.{IsUpdatedIn};
ghost use Rattle.bit_slots.specs.SlotSets.{is_free, is_live};

use std::mem;

/// A slot of a row.
#[derive(Drop)]
pub enum Slot<V> {
    /// The slot is free, and the next value gets this generation.
    Free(u32),
    /// The slot holds a value of this generation.
    Live(u32, V),
    /// The generations of the slot are used up.
    Retired,
}

impl<V: Drop> Slot<V> {
    /// Returns a slot that is free and was never used.
    pub fn new() -> Slot<V>
        ensures unused { (generation : ℕ) → stage_of result generation ≡ Unused }
        ensures free { is_free result ≡ true }
        ensures live { is_live result ≡ false }
        ensures value { result ≡ Slot.Free 0 }
    {
        Slot::Free(0)
    }

    // Returns whether the slot is free.
    pub(crate) fn is_free(&self) -> bool
        ensures { result ≡ is_free self.now }
    {
        matches!(self, Slot::Free(_))
    }

    // Returns whether the slot holds a value.
    pub(crate) fn is_live(&self) -> bool
        ensures { result ≡ is_live self.now }
    {
        matches!(self, Slot::Live(_, _))
    }

    // Puts a value into a free slot, and returns the generation that the slot is in.
    pub(crate) fn fill(&mut self, value: V) -> u32
        requires { is_free self.old ≡ true }
        ensures stages { IsFilled self.old value result self.new }
        ensures generation { (k : ℕ)
            → stage_of self.old k ≡ cond (nat_lt k result) Spent Unused }
        ensures live { is_live self.new ≡ true }
        ensures free { is_free self.new ≡ false }
    {
        let generation = match self {
            Slot::Free(generation) => *generation,
            _ => 0,
        };
        *self = Slot::Live(generation, value);
        generation
    }

    // Takes out the value of a generation and returns it. The slot goes on to the next generation,
    // or is retired after the last one. If the slot holds no value of that generation, the call
    // changes nothing and returns `None`.
    pub(crate) fn empty(&mut self, generation: u32) -> Option<V>
        ensures found { result ≡ found (stage_of self.old generation) }
        ensures stages { (k : ℕ)
            → stage_of self.new k ≡ removed generation k (stage_of self.old k) }
        ensures was_live { IfSome result (λ _. is_free self.old ≡ false) }
        ensures live { IfSome result (λ _. is_live self.new ≡ false) }
        ensures free { IfSome result (λ _. is_free self.new ≡ nat_lt generation 4294967295) }
        ensures kept { is_some result ≡ false → self.new ≡ self.old }
    {
        match self {
            Slot::Live(current, _) if *current == generation => {}
            _ => return None,
        }
        let next = match generation.checked_add(1) {
            Some(next) => Slot::Free(next),
            None => Slot::Retired,
        };
        match mem::replace(self, next) {
            Slot::Live(_, value) => Some(value),
            _ => None,
        }
    }

    // Replaces the value of a generation and returns the old one. If the slot holds no value of
    // that generation, changes nothing and returns the new value in `Err`.
    pub(crate) fn replace(&mut self, generation: u32, value: V) -> Result<V, V>
        ensures { IsExchanged self.old generation value result self.new }
    {
        match self {
            Slot::Live(current, held) if *current == generation => Ok(mem::replace(held, value)),
            _ => Err(value),
        }
    }

    // If the slot holds a value whose generation is `generation`, calls `change` on it. Returns
    // whether it did.
    pub(crate) fn update<F: FnOnce(&mut V)>(&mut self, generation: u32, change: F) -> bool
        requires { (value : MutBor V) → found (stage_of self.old generation) ≡ Some value.now
            → F.pre change value }
        ensures { IsUpdatedIn (λ old new. FnOnceReturnsAtMut F.FnOnce change old tt new) self.old
            generation result self.new }
    {
        match self {
            Slot::Live(current, value) if *current == generation => {
                change(value);
                true
            }
            _ => false,
        }
    }

    // Returns the value of a generation.
    pub(crate) fn get(&self, generation: u32) -> Option<&V>
        ensures { option_copied result ≡ found (stage_of self.now generation) }
    {
        match self {
            Slot::Live(current, value) if *current == generation => Some(value),
            _ => None,
        }
    }
}
