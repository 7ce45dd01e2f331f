//! Bytes that wait to be written.
ghost use Rattle.std.specs.Prelude.{◌<◌, ◌≡◌, ◌∷◌, ◌++◌, [], true, false, length};

use std::marker::Model;

/// How many bytes may wait.
const MOST_WAITING: usize = 4096;

/// A buffer of bytes that wait to be written.
#[derive(Drop)]
pub struct Waiting {
    bytes: [u8; MOST_WAITING],
    len: usize,
}

impl Model for Waiting {
    ghost use Rattle.std.specs.Prelude.{List, ℕ, ◌≤◌, take};
    ghost use Rattle.bittle_script.specs.declared.waiting.TheConstants.{MOST_WAITING};

    ghost Value = { List ℕ };

    ghost view = { λ w. take w.len w.bytes };

    ghost invariant = { λ w. w.len ≤ MOST_WAITING };
}

impl Waiting {
    /// Returns a buffer in which no bytes wait.
    pub fn new() -> Self
        ensures { result ≡ [] }
    {
        Waiting {
            bytes: [0; MOST_WAITING],
            len: 0,
        }
    }

    /// Returns how many bytes wait.
    pub fn len(&self) -> usize
        ensures { result ≡ length self.now }
    {
        self.len
    }

    /// Returns whether the buffer is full.
    pub fn is_full(&self) -> bool
        ensures full { result ≡ true → length self.now ≡ MOST_WAITING }
        ensures room { result ≡ false → length self.now < MOST_WAITING }
    {
        self.len == MOST_WAITING
    }

    /// Adds a byte at the end. The buffer must not be full.
    pub fn push(&mut self, byte: u8)
        requires { length self.old < MOST_WAITING }
        ensures { self.new ≡ self.old ++ byte ∷ [] }
    {
        self.bytes[self.len] = byte;
        self.len += 1;
    }

    /// Returns the bytes that wait.
    pub fn as_slice(&self) -> &[u8]
        ensures { result.now ≡ self.now }
    {
        &self.bytes[..self.len]
    }

    /// Removes the bytes.
    pub fn clear(&mut self)
        ensures { self.new ≡ [] }
    {
        self.len = 0;
    }
}
