//! Counts of the calls that reach a set: fetches, which are reads of one word by `nth_leaf_word`,
//! and other calls.

use crate::checks::end_unless_equal;
use std::cell::Cell;
use std::process::Abort;

/// Ends the test unless `$fetched` words were fetched and `$other` other calls were made. With
/// `since $before`, the first `$before` fetches do not count.
macro_rules! counts {
    ($rt:expr; $asked:ident, $fetched:expr, $other:expr) => {
        $asked.counts(&$rt, 0, $fetched, $other)
    };
    ($rt:expr; $asked:ident since $before:expr, $fetched:expr, $other:expr) => {
        $asked.counts(&$rt, $before, $fetched, $other)
    };
}

pub(crate) use counts;

/// The numbers of fetches of words and of other calls. Calls of `capacity` do not count. The type
/// also notes which words were fetched.
#[derive(Drop)]
pub(crate) struct Asked {
    // Bit `k % 64` is set if word `k` was fetched.
    words: Cell<u64>,
    fetches: Cell<u32>,
    other: Cell<u32>,
}

impl Asked {
    /// Returns counts that are all 0.
    pub(crate) fn new() -> Asked {
        Asked {
            words: Cell::new(0),
            fetches: Cell::new(0),
            other: Cell::new(0),
        }
    }

    /// Sets all counts to 0.
    pub(crate) fn restart(&self) {
        self.words.set(0);
        self.fetches.set(0);
        self.other.set(0);
    }

    /// Counts a fetch of word `k`.
    pub(crate) fn note_word(&self, k: usize) {
        self.words
            .set(self.words.get() | 1u64.wrapping_shl((k % 64) as u32));
        self.fetches.set(self.fetches.get().wrapping_add(1));
    }

    /// Counts a call that is not a fetch.
    pub(crate) fn note_other(&self) {
        self.other.set(self.other.get().wrapping_add(1));
    }

    /// Returns how many fetches there were. A word that was fetched twice counts twice.
    pub(crate) fn fetches(&self) -> u32 {
        self.fetches.get()
    }

    /// Returns how many fetches there were after the first `before` ones.
    pub(crate) fn fetched_since(&self, before: u32) -> u32 {
        self.fetches.get().wrapping_sub(before)
    }

    /// Returns how many other calls there were.
    pub(crate) fn other(&self) -> u32 {
        self.other.get()
    }

    /// Ends the test unless there were `fetches` fetches after the first `before` ones, and `other`
    /// other calls. It shows both pairs of numbers.
    pub(crate) fn counts(&self, rt: &impl Abort, before: u32, fetches: u32, other: u32) {
        let found = (self.fetched_since(before), self.other());
        end_unless_equal(rt, "fetches and other calls", found, (fetches, other));
    }

    /// Returns whether there were at most `words` fetches, and no other calls.
    pub(crate) fn is_at_most(&self, words: u32) -> bool {
        self.fetches.get() <= words && self.other.get() == 0
    }

    /// Returns which words were fetched: bit `k` of the result is set if word `k` was fetched.
    /// Returns `None` if a word was fetched twice, or if a call other than a fetch was made.
    pub(crate) fn words_once(&self) -> Option<u64> {
        let words = self.words.get();
        if self.is_at_most(words.count_ones()) {
            Some(words)
        } else {
            None
        }
    }
}
