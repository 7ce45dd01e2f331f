//! What the program does if a read, a write or a flush fails, with each kind of error.

use crate::checks::same;
use crate::streams::{Sink, Source, ran, status_into, status_of};
use std::cmp::min;
use std::io::ErrorKind;
use std::process::Abort;

/// A script that prints `PRINTED`.
const SCRIPT: &[u8] = b"be u8\nset 0\ntest 8\nclear 8\ntest 0\n";

const PRINTED: &[u8] = b"true\nfalse\n";

/// Each kind of error except `Interrupted`.
const KINDS: [ErrorKind; 41] = [
    ErrorKind::NotFound,
    ErrorKind::PermissionDenied,
    ErrorKind::ConnectionRefused,
    ErrorKind::ConnectionReset,
    ErrorKind::HostUnreachable,
    ErrorKind::NetworkUnreachable,
    ErrorKind::ConnectionAborted,
    ErrorKind::NotConnected,
    ErrorKind::AddrInUse,
    ErrorKind::AddrNotAvailable,
    ErrorKind::NetworkDown,
    ErrorKind::BrokenPipe,
    ErrorKind::AlreadyExists,
    ErrorKind::WouldBlock,
    ErrorKind::NotADirectory,
    ErrorKind::IsADirectory,
    ErrorKind::DirectoryNotEmpty,
    ErrorKind::ReadOnlyFilesystem,
    ErrorKind::FilesystemLoop,
    ErrorKind::StaleNetworkFileHandle,
    ErrorKind::InvalidInput,
    ErrorKind::InvalidData,
    ErrorKind::TimedOut,
    ErrorKind::WriteZero,
    ErrorKind::StorageFull,
    ErrorKind::NotSeekable,
    ErrorKind::QuotaExceeded,
    ErrorKind::FileTooLarge,
    ErrorKind::ResourceBusy,
    ErrorKind::ExecutableFileBusy,
    ErrorKind::Deadlock,
    ErrorKind::CrossesDevices,
    ErrorKind::TooManyLinks,
    ErrorKind::InvalidFilename,
    ErrorKind::ArgumentListTooLong,
    ErrorKind::Unsupported,
    ErrorKind::UnexpectedEof,
    ErrorKind::OutOfMemory,
    ErrorKind::InProgress,
    ErrorKind::Other,
    ErrorKind::Uncategorized,
];

#[test]
fn a_read_that_fails_is_not_made_again(rt: HostRuntime) {
    for kind in KINDS {
        let mut input = Source::new(SCRIPT);
        input.end = Some(kind);
        let mut output = Sink::new();
        same!(rt; status_of(&mut input, &mut output), 2);
        same!(rt; output.text(), b"read failed\n".as_slice());
        same!(rt; input.calls, 2);
    }
}

#[test]
fn a_write_that_fails_is_not_made_again(rt: HostRuntime) {
    for kind in KINDS {
        let mut output = Sink::new();
        output.write_fault = Some(kind);
        same!(rt; status_into(SCRIPT, &mut output), 1);
        same!(rt; output.text(), b"".as_slice());
        same!(rt; (output.writes, output.flushes), (1, 0));
    }
}

#[test]
fn a_flush_that_fails_is_not_made_again(rt: HostRuntime) {
    for kind in KINDS {
        for interruptions in [0, 1] {
            let mut output = Sink::new();
            output.interruptions = interruptions;
            output.flush_fault = Some(kind);
            same!(rt; status_into(SCRIPT, &mut output), 1);
            same!(rt; output.text(), PRINTED);
            same!(rt; (output.writes, output.flushes), (1 + interruptions, 1));
        }
    }
}

#[test]
fn a_flush_that_is_interrupted_after_a_write_was_fails(rt: HostRuntime) {
    let mut output = Sink::new();
    output.interruptions = 1;
    output.flush_fault = Some(ErrorKind::Interrupted);
    same!(rt; status_into(SCRIPT, &mut output), 1);
    same!(rt; output.text(), PRINTED);
    same!(rt; (output.writes, output.flushes), (2, 1));
}

#[test]
fn reads_that_are_interrupted_after_some_bytes_are_made_again(rt: HostRuntime) {
    // The script has 34 bytes. Three reads are interrupted, and the last read finds the end.
    for (most, sound, calls) in [
        (100, 34, 5),
        (4, 4, 13),
        (1, 1, 38),
        (1, 33, 38),
        (6, 30, 10),
    ] {
        let mut input = Source::new(SCRIPT);
        input.most = most;
        input.sound = sound;
        input.later_interruptions = 3;
        let mut output = Sink::new();
        same!(rt; status_of(&mut input, &mut output), 0);
        same!(rt; output.text(), PRINTED);
        same!(rt; input.calls, calls);
    }
}

#[test]
fn writes_that_are_each_interrupted_are_made_again(rt: HostRuntime) {
    // Eleven bytes are written. The first write of each piece is interrupted, the second succeeds.
    for (most, writes) in [(100, 2), (11, 2), (10, 4), (3, 8), (1, 22)] {
        let mut output = Sink::new();
        output.most = most;
        output.stutters = true;
        same!(rt; status_into(SCRIPT, &mut output), 0);
        same!(rt; output.text(), PRINTED);
        same!(rt; output.writes, writes);
    }
}

/// Runs a script that the program refuses, and checks what it prints. The first write is
/// interrupted, or the first five writes are, or the first write of each piece is.
fn refuses_when_interrupted(rt: &impl Abort, input: &[u8], printed: &[u8]) {
    for (interruptions, stutters) in [(1, false), (5, false), (0, true)] {
        for most in [100, 7, 1] {
            let mut output = Sink::new();
            output.most = most;
            output.interruptions = interruptions;
            output.stutters = stutters;
            same!(*rt; status_into(input, &mut output), 2);
            same!(*rt; output.text(), printed);
        }
    }
}

#[test]
fn a_refusal_is_written_whole_after_interruptions(rt: HostRuntime) {
    refuses_when_interrupted(&rt, b"", b"line 1: not understood\n");
    refuses_when_interrupted(&rt, &[b'\n'; 4097], b"input too long\n");
}

#[test]
fn a_failed_read_is_told_after_interruptions(rt: HostRuntime) {
    for interruptions in [1, 5] {
        let mut input = Source::new(b"be u8\n");
        input.end = Some(ErrorKind::TimedOut);
        let mut output = Sink::new();
        output.interruptions = interruptions;
        same!(rt; status_of(&mut input, &mut output), 2);
        same!(rt; output.text(), b"read failed\n".as_slice());
        same!(rt; output.writes, 1 + interruptions);
    }
}

/// Runs a script of `len` bytes (12 or more): a header, a line `test 0`, and empty lines.
fn reads_length(rt: &impl Abort, len: usize) {
    let mut text = [b'\n'; 4096];
    text[..13].copy_from_slice(b"be u8\ntest 0\n");
    let (status, output) = ran(&text[..min(len, 4096)]);
    same!(*rt; (len, status, output.text()), (len, 0, b"false\n".as_slice()));
}

#[test]
fn reads_texts_of_each_class_of_length(rt: HostRuntime) {
    for len in [12, 13, 63, 255, 256, 511, 512, 1012, 1013, 1023, 1024, 1025] {
        reads_length(&rt, len);
    }
    for len in [2047, 2048, 2049, 3071, 3072, 4094, 4095, 4096] {
        reads_length(&rt, len);
    }
    for step in 0..110 {
        reads_length(&rt, 14 + 37 * step);
    }
}
