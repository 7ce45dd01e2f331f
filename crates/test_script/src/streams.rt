//! A reader and two writers that are interrupted, or fail, where a test says so.
ghost use Rattle.std.specs.Prelude.{◌≤◌, length};

use bittle_script::run;
use std::cmp::min;
use std::io;
use std::io::{Error, ErrorKind, Read, Write};

/// A reader of given bytes. The first reads are interrupted, and so are some reads after `sound`
/// bytes. At the end of the bytes a read returns 0 bytes, or fails.
#[derive(Drop)]
pub struct Source<'a> {
    bytes: &'a [u8],
    given: usize,
    /// How many reads are interrupted before the first byte.
    pub interruptions: u32,
    /// How many bytes are returned before reads are interrupted again.
    pub sound: usize,
    /// How many reads are interrupted after `sound` bytes.
    pub later_interruptions: u32,
    /// The most bytes that one read returns.
    pub most: usize,
    /// The error of each read at the end of the bytes. With `None`, a read there returns 0 bytes.
    pub end: Option<ErrorKind>,
    /// How many reads were made.
    pub calls: u32,
}

impl<'a> Source<'a> {
    pub fn new(bytes: &'a [u8]) -> Self {
        Source {
            bytes,
            given: 0,
            interruptions: 0,
            sound: 0,
            later_interruptions: 0,
            most: usize::MAX,
            end: None,
            calls: 0,
        }
    }
}

impl Read for Source<'_> {
    fn read(&mut self, buf: &mut [u8]) -> io::Result<usize> {
        self.calls = self.calls.saturating_add(1);
        if self.interruptions > 0 {
            self.interruptions -= 1;
            return Err(Error::from(ErrorKind::Interrupted));
        }
        if self.given >= self.sound && self.later_interruptions > 0 {
            self.later_interruptions -= 1;
            return Err(Error::from(ErrorKind::Interrupted));
        }
        if self.bytes.is_empty() {
            if let Some(kind) = self.end {
                return Err(Error::from(kind));
            }
        }
        let room = min(self.most, buf.len());
        let count = self.bytes.read(&mut buf[..room])?;
        self.given = self.given.saturating_add(count);
        Ok(count)
    }
}

/// The number of bytes that a `Sink` has room for.
const ROOM: usize = 5000;

/// A writer that keeps the bytes. The first writes are interrupted, and so are some writes after
/// `sound` bytes. After that, the writes succeed, or they fail with `write_fault`.
#[derive(Drop)]
pub struct Sink {
    bytes: [u8; ROOM],
    taken: usize,
    /// How many writes are interrupted before the first byte.
    pub interruptions: u32,
    /// How many bytes are taken before writes are interrupted again.
    pub sound: usize,
    /// How many writes are interrupted after `sound` bytes.
    pub later_interruptions: u32,
    /// Whether every second write is interrupted, the first one included.
    pub stutters: bool,
    /// The most bytes that one write takes.
    pub most: usize,
    /// The error of each write after `sound` bytes and the later interruptions, or `None`.
    pub write_fault: Option<ErrorKind>,
    /// The error of each flush, or `None`.
    pub flush_fault: Option<ErrorKind>,
    /// How many writes were made.
    pub writes: u32,
    /// How many flushes were made.
    pub flushes: u32,
    /// Whether the last call was a flush.
    pub is_flushed: bool,
}

impl Sink {
    pub fn new() -> Self {
        Sink {
            bytes: [0; ROOM],
            taken: 0,
            interruptions: 0,
            sound: 0,
            later_interruptions: 0,
            stutters: false,
            most: usize::MAX,
            write_fault: None,
            flush_fault: None,
            writes: 0,
            flushes: 0,
            is_flushed: false,
        }
    }

    /// Returns the bytes that were taken.
    pub fn text(&self) -> &[u8] {
        &self.bytes[..min(self.taken, ROOM)]
    }

    fn take(&mut self, buf: &[u8]) -> usize
        ensures { result ≤ length buf.now }
    {
        let start = min(self.taken, ROOM);
        let count = min(min(self.most, buf.len()), ROOM - start);
        self.bytes[start..start + count].copy_from_slice(&buf[..count]);
        self.taken = start + count;
        count
    }
}

impl Write for Sink {
    fn write(&mut self, buf: &[u8]) -> io::Result<usize> {
        self.writes = self.writes.saturating_add(1);
        self.is_flushed = false;
        if self.stutters && self.writes % 2 == 1 {
            return Err(Error::from(ErrorKind::Interrupted));
        }
        if self.interruptions > 0 {
            self.interruptions -= 1;
            return Err(Error::from(ErrorKind::Interrupted));
        }
        if self.taken < self.sound {
            return Ok(self.take(buf));
        }
        if self.later_interruptions > 0 {
            self.later_interruptions -= 1;
            return Err(Error::from(ErrorKind::Interrupted));
        }
        match self.write_fault {
            Some(kind) => Err(Error::from(kind)),
            None => Ok(self.take(buf)),
        }
    }

    fn flush(&mut self) -> io::Result<()> {
        self.flushes = self.flushes.saturating_add(1);
        self.is_flushed = true;
        match self.flush_fault {
            Some(kind) => Err(Error::from(kind)),
            None => Ok(()),
        }
    }
}

/// A writer that takes all bytes, and counts the bytes and the writes.
#[derive(Drop)]
pub struct Tally {
    /// How many writes were made.
    pub writes: u32,
    /// How many bytes were taken.
    pub bytes: usize,
    /// Whether every second write is interrupted, the first one included.
    pub stutters: bool,
}

impl Tally {
    pub fn new() -> Self {
        Tally {
            writes: 0,
            bytes: 0,
            stutters: false,
        }
    }
}

impl Write for Tally {
    fn write(&mut self, buf: &[u8]) -> io::Result<usize> {
        self.writes = self.writes.saturating_add(1);
        if self.stutters && self.writes % 2 == 1 {
            return Err(Error::from(ErrorKind::Interrupted));
        }
        self.bytes = self.bytes.saturating_add(buf.len());
        Ok(buf.len())
    }

    fn flush(&mut self) -> io::Result<()> {
        Ok(())
    }
}

/// Runs the program, and returns its status.
pub fn status_of(input: &mut Source<'_>, output: &mut Sink) -> u8 {
    run(input, output).code()
}

/// Runs a script whose output goes to `output`, and returns the status of the program.
pub fn status_into(script: &[u8], output: &mut Sink) -> u8 {
    run(&mut Source::new(script), output).code()
}

/// Runs a script, and returns the status and the `Sink` that took the output.
pub fn ran(script: &[u8]) -> (u8, Sink) {
    let mut output = Sink::new();
    let status = run(&mut Source::new(script), &mut output);
    (status.code(), output)
}
