//! Reads the whole input into one array.
ghost use Rattle.std.specs.Prelude.{◌≤◌, ◌<◌, ◌≡◌, take, length, IfOk, IfSome, IsTrue, ◌↔◌};
ghost use Rattle.std.specs.IoError.{error_kind};

use std::io::{Error, ErrorKind, Read};

/// The most bytes that an input may have.
pub const MOST_BYTES: usize = 4096;

/// The size of the array that the input is read into: one byte more than an input may have, so that
/// a longer input is noticed.
pub const INPUT_ROOM: usize = MOST_BYTES + 1;

/// The most calls of `read` in a run.
const MOST_READS: u32 = 8192;

/// Why the input is refused.
#[derive(Clone, Copy)]
pub enum Refusal {
    /// The input has more than 4,096 bytes.
    TooLong,
    /// A read failed, or 8,192 reads did not reach the end of the input.
    ReadFailed,
}

impl Refusal {
    ghost use Rattle.bittle_script.specs.Refusals.{message_of};

    /// Returns the line that is printed for this refusal.
    pub fn message(&self) -> &'static [u8]
        ensures { result.now ≡ message_of self.now }
    {
        match self {
            Refusal::TooLong => b"input too long\n",
            Refusal::ReadFailed => b"read failed\n",
        }
    }
}

/// Reads the whole input into the start of `bytes`, and returns how many bytes the input has.
/// Returns a refusal if the input is too long, or if it cannot be read to its end.
pub fn read_all<R: Read>(input: &mut R, bytes: &mut [u8; INPUT_ROOM]) -> Result<usize, Refusal>
    ensures fits { IfOk result (λ len. len ≤ MOST_BYTES) }
    ensures all { IfOk result
        (λ len. IfSome (R.remaining input.old) (λ text. take len bytes.new ≡ text)) }
    ensures longer { result ≡ Err Refusal.TooLong
        → IfSome (R.remaining input.old) (λ text. MOST_BYTES < length text) }
{
    let mut filled = 0;
    for _ in 0..MOST_READS {
        match input.read(&mut bytes[filled..]) {
            Ok(0) => return Ok(filled),
            Ok(count) if filled + count > MOST_BYTES => return Err(Refusal::TooLong),
            Ok(count) => filled += count,
            Err(error) => {
                if !is_interrupted(&error) {
                    return Err(Refusal::ReadFailed);
                }
            }
        }
    }
    Err(Refusal::ReadFailed)
}

/// Returns whether `error` says that a signal interrupted a read or a write, which may then be
/// tried again.
pub fn is_interrupted(error: &Error) -> bool
    ensures { IsTrue result ↔ (error_kind error.now ≡ ErrorKind.Interrupted) }
{
    error.kind() == ErrorKind::Interrupted
}
