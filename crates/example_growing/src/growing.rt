//! A set over a `Vec` of words. During each call, a slice of these words is the set.

ghost use Rattle.std.specs.Prelude.{◌/◌, ◌<◌, IsTrue, length};

use bittle::Bits;
use bittle_ext::prelude::*;
use std::alloc::{AllocError, Global};

/// A set of numbers that grows.
#[derive(Drop)]
pub(crate) struct Growing {
    pub(crate) words: Vec<u64>,
}

impl Growing {
    /// Returns the empty set, which has no words yet.
    pub(crate) fn new(alloc: Global) -> Growing {
        Growing {
            words: Vec::new(alloc),
        }
    }

    /// Adds a number, and returns whether it was no member before. If the number lies past the
    /// words, words with no bit set are added first. If there is no memory for these words, nothing
    /// changes, and the call returns the error.
    pub(crate) fn insert(&mut self, number: u32) -> Result<bool, AllocError> {
        let wanted = number as usize / 64 + 1;
        if self.words.len() < wanted {
            self.words.resize(wanted, 0)?;
        }
        let mut set = self.words.as_mut_slice();
        Ok(set.insert(number))
    }

    /// Takes a number out, and returns whether it was a member.
    pub(crate) fn remove(&mut self, number: u32) -> bool {
        if !self.contains(number) {
            return false;
        }
        let mut set = self.words.as_mut_slice();
        set.remove(number)
    }

    /// Returns whether a number is a member. A number past the words is no member: it does not
    /// wrap.
    pub(crate) fn contains(&self, number: u32) -> bool
        ensures { IsTrue result → number / 64 < length self.now.words.items }
    {
        let set = self.words.as_slice();
        (number as usize) / 64 < set.len() && set.test_bit(number)
    }

    /// Returns the least number from `from` on that is no member. A number past the words is no
    /// member. If the words have `u32::MAX` bits or more, it returns `from`.
    pub(crate) fn next_free(&self, from: u32) -> u32 {
        let set = self.words.as_slice();
        if set.bits_capacity() == u32::MAX {
            return from;
        }
        match set.next_zero(from) {
            Some(number) => number,
            None => from.max(set.bits_capacity()),
        }
    }

    /// Returns how many members there are, or `u32::MAX` if the words have that many bits or more.
    pub(crate) fn count(&self) -> u32 {
        let set = self.words.as_slice();
        if set.bits_capacity() == u32::MAX {
            return u32::MAX;
        }
        Bits::count_ones(&set)
    }
}
