//! Writes to the output in few calls, and counts the calls that were interrupted.
ghost use Rattle.std.specs.Prelude.{◌<◌, ◌≤◌, ◌≡◌, ◌↔◌, IsErr, OnOk, ◌+◌, ◌∷◌, ◌++◌, []};
ghost use Rattle.std.specs.Fmt.{decimal};
ghost use Rattle.std.specs.IoError.{error_kind};
ghost use Rattle.bittle_script.specs.Beginnings.{Writes};
ghost use Rattle.bittle_script.specs.declared.writing.TheConstants.{FATAL_INTERRUPTION};

use crate::reading::is_interrupted;
use crate::waiting::Waiting;
use std::io::{Error, ErrorKind, Write};

/// The number of the interrupted write at which a run fails.
const FATAL_INTERRUPTION: u32 = 8192;

/// The error of a run whose output failed. After it nothing more is written. Only this module makes
/// a value of this type.
#[derive(Debug, Drop)]
pub struct WriteFailed(());

/// The output of a run. Bytes wait in a buffer. They are written when the buffer is full and one
/// more byte is added, or when the output is flushed.
#[derive(Drop)]
pub struct Output<'a, W> {
    writer: &'a mut W,
    interrupted: u32,
    waiting: Waiting,
    ghost goes_on: { interrupted < FATAL_INTERRUPTION },
}

impl<'a, W: Write> Output<'a, W> {
    ghost use Rattle.bittle_script.specs.Outputs.{Puts};

    /// Returns an output that writes to `writer`. No write was interrupted yet, and no bytes wait.
    pub fn new(writer: &'a mut W) -> Self
        ensures same_writer { result.writer.ghost_name ≡ writer.entry.ghost_name }
        ensures contents { result.writer.now ≡ writer.old }
        ensures empty { result.waiting ≡ [] }
        ensures uninterrupted { result.interrupted ≡ 0 }
    {
        Output {
            writer,
            interrupted: 0,
            waiting: Waiting::new(),
        }
    }

    /// Adds `bytes` after the bytes that wait. Whenever the buffer is full and one more byte is to
    /// be added, the bytes that wait are written first. If a write fails, only a beginning of all
    /// these bytes was written.
    pub fn put(&mut self, bytes: &[u8]) -> Result<(), WriteFailed>
        ensures same_writer { self.new.writer.ghost_name ≡ self.old.writer.ghost_name }
        ensures puts { Puts W.contents self.old self.new result bytes.now }
        ensures interrupted { self.old.interrupted ≤ self.new.interrupted }
    {
        for byte in bytes {
            self.put_byte(*byte)?;
        }
        Ok(())
    }

    /// Adds `number` in decimal digits after the bytes that wait.
    pub fn put_number(&mut self, number: u32) -> Result<(), WriteFailed>
        ensures same_writer { self.new.writer.ghost_name ≡ self.old.writer.ghost_name }
        ensures puts { Puts W.contents self.old self.new result (decimal number) }
        ensures interrupted { self.old.interrupted ≤ self.new.interrupted }
    {
        if number >= 10 {
            self.put_number(number / 10)?;
        }
        self.put_byte(b'0' + (number % 10) as u8)
    }

    /// Adds the bytes `before`, and then `number` in decimal digits, after the bytes that wait.
    pub fn put_after(&mut self, before: &[u8], number: u32) -> Result<(), WriteFailed>
        ensures same_writer { self.new.writer.ghost_name ≡ self.old.writer.ghost_name }
        ensures puts { Puts W.contents self.old self.new result (before.now ++ decimal number) }
        ensures interrupted { self.old.interrupted ≤ self.new.interrupted }
    {
        self.put(before)?;
        self.put_number(number)
    }

    /// Writes the bytes that wait, and flushes the writer.
    pub fn flush(&mut self) -> Result<(), WriteFailed>
        ensures same_writer { self.new.writer.ghost_name ≡ self.old.writer.ghost_name }
        ensures bytes { Writes (W.contents self.old.writer.now)
            (W.contents self.new.writer.now) result self.old.waiting }
        ensures empty { OnOk result (self.new.waiting ≡ []) }
        ensures interrupted { self.old.interrupted ≤ self.new.interrupted }
    {
        self.send()?;
        self.writer.flush().map_err(|_| WriteFailed(()))
    }

    // Adds `byte` after the bytes that wait. If the buffer is full, its bytes are written first.
    fn put_byte(&mut self, byte: u8) -> Result<(), WriteFailed>
        ensures same_writer { self.new.writer.ghost_name ≡ self.old.writer.ghost_name }
        ensures puts { Puts W.contents self.old self.new result (byte ∷ []) }
        ensures interrupted { self.old.interrupted ≤ self.new.interrupted }
    {
        if self.waiting.is_full() {
            self.send()?;
        }
        self.waiting.push(byte);
        Ok(())
    }

    // Writes the bytes that wait. If this succeeds, no bytes wait afterwards.
    fn send(&mut self) -> Result<(), WriteFailed>
        ensures same_writer { self.new.writer.ghost_name ≡ self.old.writer.ghost_name }
        ensures bytes { Writes (W.contents self.old.writer.now)
            (W.contents self.new.writer.now) result self.old.waiting }
        ensures empty { OnOk result (self.new.waiting ≡ []) }
        ensures interrupted { self.old.interrupted ≤ self.new.interrupted }
    {
        let mut sent = 0;
        while sent < self.waiting.len() {
            match self.writer.write(&self.waiting.as_slice()[sent..]) {
                Ok(0) => return Err(WriteFailed(())),
                Ok(count) => sent += count,
                Err(error) => self.note_failure(&error)?,
            }
        }
        self.waiting.clear();
        Ok(())
    }

    // Counts a write that was interrupted. Returns `Err` if this is interruption number
    // `FATAL_INTERRUPTION`, and at any other error.
    fn note_failure(&mut self, error: &Error) -> Result<(), WriteFailed>
        ensures same_writer { self.new.writer ≡ self.old.writer }
        ensures same_bytes { self.new.waiting ≡ self.old.waiting }
        ensures again { OnOk result (error_kind error.now ≡ ErrorKind.Interrupted) }
        ensures more { OnOk result (self.new.interrupted ≡ self.old.interrupted + 1) }
        ensures interrupted { self.old.interrupted ≤ self.new.interrupted }
        ensures last { error_kind error.now ≡ ErrorKind.Interrupted
            → (IsErr result ↔ (self.old.interrupted + 1 ≡ FATAL_INTERRUPTION)) }
    {
        if !is_interrupted(error) || self.interrupted + 1 == FATAL_INTERRUPTION {
            return Err(WriteFailed(()));
        }
        self.interrupted += 1;
        Ok(())
    }
}
