//! A table of slots over words that a caller lends. A slot is taken if its bit is set.

ghost use Rattle.std.specs.Prelude.{◌≡◌, ◌*◌, ◌<◌, length, MatchOption};
ghost use Rattle.bittle.specs.BitPatterns.{bit_set};
ghost use Rattle.bittle.specs.PlainSet.{complement, contains, with_index, without_index};
ghost use Rattle.bittle.specs.Rows.{row_set};
ghost use Rattle.bittle.specs.Searches.{IsFirstIn};

use bittle::{Bits, BitsMut};
use bittle_ext::BitsExt;

/// A table of slots. All changes are made in the lent words.
#[derive(Drop)]
pub struct Slots<'a> {
    words: &'a mut [u64],
}

impl<'a> Slots<'a> {
    /// Returns a table of slots over `words`.
    pub fn over(words: &'a mut [u64]) -> Slots<'a>
        ensures same_words { result.words.ghost_name ≡ words.entry.ghost_name }
        ensures value { result.words.now ≡ words.old }
    {
        Slots { words }
    }

    /// Returns whether the slot is taken.
    pub fn is_taken(&self, slot: u32) -> bool
        requires { slot < length self.now.words.now * 64 }
        ensures { let words = self.now.words.now in
            result ≡ contains (row_set (length words) 64 (bit_set 64) words) slot }
    {
        self.words.test_bit(slot)
    }

    /// Takes the least free slot. If all slots are taken, it changes nothing and returns `None`.
    pub fn take(&mut self) -> Option<u32>
        requires { length self.old.words.now * 64 < 4294967295 }
        ensures least { let words = self.old.words.now in
            IsFirstIn (complement (row_set (length words) 64 (bit_set 64) words))
            0 (length words * 64) result }
        ensures table { let before = self.old.words.now in let after = self.new.words.now in
            MatchOption result
            (after ≡ before)
            (λ slot. row_set (length after) 64 (bit_set 64) after
            ≡ with_index (row_set (length before) 64 (bit_set 64) before) slot) }
        ensures same_words { self.new.words.ghost_name ≡ self.old.words.ghost_name }
    {
        let slot = self.words.first_zero()?;
        self.words.set_bit(slot);
        Some(slot)
    }

    /// Gives a slot back.
    pub fn give_back(&mut self, slot: u32)
        requires { slot < length self.old.words.now * 64 }
        ensures table { let before = self.old.words.now in let after = self.new.words.now in
            row_set (length after) 64 (bit_set 64) after
            ≡ without_index (row_set (length before) 64 (bit_set 64) before) slot }
        ensures same_words { self.new.words.ghost_name ≡ self.old.words.ghost_name }
    {
        self.words.clear_bit(slot);
    }
}

/// Gives a slot back to the table over a caller's words.
pub fn give_back_to(words: &mut [u64], slot: u32)
    requires { slot < length words.old * 64 }
    ensures { row_set (length words.new) 64 (bit_set 64) words.new
        ≡ without_index (row_set (length words.old) 64 (bit_set 64) words.old) slot }
{
    let mut slots = Slots::over(words);
    slots.give_back(slot);
}
