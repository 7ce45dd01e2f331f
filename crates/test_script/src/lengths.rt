//! Scripts of many lengths up to the limit of 4,096 bytes, and outputs of many lengths up to 8,192
//! bytes. An output of more than 4,096 bytes is written in two pieces.

use crate::checks::same;
use crate::streams::{Sink, Source, Tally, status_of};
use bittle_script::run;
use std::cmp::min;
use std::process::Abort;

/// The most bytes that a `Script` holds: a few more than the 4,096 that the program accepts.
const ROOM: usize = 4100;

/// The bytes of a script, of which the first `length` are used.
#[derive(Drop)]
struct Script {
    bytes: [u8; ROOM],
    length: usize,
}

impl Script {
    fn new() -> Self {
        Script {
            bytes: [0; ROOM],
            length: 0,
        }
    }

    /// Appends a text, as far as there is room.
    fn put(&mut self, text: &[u8]) {
        let start = min(self.length, ROOM);
        let count = min(text.len(), ROOM - start);
        self.bytes[start..start + count].copy_from_slice(&text[..count]);
        self.length = start + count;
    }

    fn text(&self) -> &[u8] {
        &self.bytes[..min(self.length, ROOM)]
    }
}

/// Returns a script of `length` bytes, or of 12 bytes if `length` is less: the first line, empty
/// lines, and one line `count`, which prints 0.
fn script_of(length: usize) -> Script {
    let mut script = Script::new();
    script.put(b"be u8\n");
    for _ in 12..length {
        script.put(b"\n");
    }
    script.put(b"count\n");
    script
}

/// Runs scripts of 12 to 4,096 bytes: the shortest ones, the longest ones, and between them those
/// whose length has the remainder `first` if it is divided by 89. The first `interruptions` reads
/// are interrupted. Each other read returns at most `most` bytes.
fn read_lengths(rt: &impl Abort, first: usize, most: usize, interruptions: u32) {
    for length in 12..=4096 {
        if length < 40 || length > 4084 || length % 89 == first {
            let script = script_of(length);
            let mut input = Source::new(script.text());
            input.most = most;
            input.interruptions = interruptions;
            let mut output = Sink::new();
            let status = status_of(&mut input, &mut output);
            same!(*rt; (length, status, output.text()), (length, 0, b"0\n".as_slice()));
        }
    }
}

#[test]
fn scripts_of_many_lengths_are_read_at_once(rt: HostRuntime) {
    read_lengths(&rt, 1, usize::MAX, 0);
}

#[test]
fn scripts_of_many_lengths_are_read_at_once_after_an_interruption(rt: HostRuntime) {
    read_lengths(&rt, 24, usize::MAX, 1);
}

#[test]
fn scripts_of_many_lengths_are_read_in_pieces(rt: HostRuntime) {
    read_lengths(&rt, 42, 64, 0);
}

#[test]
fn scripts_of_many_lengths_are_read_in_small_pieces_after_interruptions(rt: HostRuntime) {
    read_lengths(&rt, 71, 7, 2);
}

/// Returns a text of 4,096 bytes whose first line the program refuses.
fn refused_text() -> Script {
    let mut text = Script::new();
    text.put(b"?");
    for _ in 1..4096 {
        text.put(b"\n");
    }
    text
}

/// Runs the program on the first `length` bytes of a text. Each read returns at most `most` bytes.
/// Checks that the program refuses the first line.
fn reads_and_refuses(rt: &impl Abort, text: &[u8], length: usize, most: usize) {
    let mut input = Source::new(&text[..min(length, text.len())]);
    input.most = most;
    let mut output = Sink::new();
    same!(*rt; (length, most, status_of(&mut input, &mut output)), (length, most, 2));
    same!(*rt; output.text(), b"line 1: not understood\n".as_slice());
}

#[test]
fn a_text_of_each_length_is_read_at_once(rt: HostRuntime) {
    let text = refused_text();
    for length in 1..=4096 {
        reads_and_refuses(&rt, text.text(), length, usize::MAX);
    }
}

#[test]
fn a_text_is_read_in_pieces_of_each_length(rt: HostRuntime) {
    // If `most` is 2,048 or more, two reads are enough: one of `most` bytes, and one of the rest.
    let text = refused_text();
    for most in 1..=4096 {
        reads_and_refuses(&rt, text.text(), 4096, most);
    }
}

#[test]
fn a_script_that_is_longer_is_refused_in_each_way(rt: HostRuntime) {
    for length in [4097, 4098, 4099] {
        for most in [usize::MAX, 4096, 64, 7] {
            let script = script_of(length);
            let mut input = Source::new(script.text());
            input.most = most;
            let mut output = Sink::new();
            same!(rt; (length, status_of(&mut input, &mut output)), (length, 2));
            same!(rt; output.text(), b"input too long\n".as_slice());
        }
    }
}

#[test]
fn each_beginning_of_a_script_is_answered(rt: HostRuntime) {
    // The first line, `be u8`, is complete from 5 bytes on, and the line `count` from 11 bytes on.
    let script = script_of(12);
    for length in 0..=12 {
        let text = script.text();
        let (status, printed) = match length {
            0..=4 => (2, b"line 1: not understood\n".as_slice()),
            5 | 6 => (0, b"".as_slice()),
            7..=10 => (2, b"line 2: not understood\n".as_slice()),
            _ => (0, b"0\n".as_slice()),
        };
        let mut output = Sink::new();
        let ended = status_of(
            &mut Source::new(&text[..min(length, text.len())]),
            &mut output,
        );
        same!(rt; (length, ended, output.text()), (length, status, printed));
    }
}

/// Returns a script that prints `length` bytes (4 or more). Each `ones` prints the members of a
/// full byte, which takes 16 bytes. Each `count` prints 2 bytes. If `length` is odd, one `test`
/// prints 5 bytes.
fn script_that_prints(length: usize) -> Script {
    let mut script = Script::new();
    script.put(b"be u8\nset 0\nset 1\nset 2\nset 3\nset 4\nset 5\nset 6\nset 7\n");
    let mut left = length;
    if left % 2 == 1 {
        script.put(b"test 0\n");
        left = left.saturating_sub(5);
    }
    for _ in 0..left % 16 / 2 {
        script.put(b"count\n");
    }
    for _ in 0..left / 16 {
        script.put(b"ones\n");
    }
    script
}

/// Checks outputs of 4 to 8,192 bytes: the shortest ones, those that about fill one or two pieces
/// of 4,096 bytes, and between them those whose length has the remainder `first` if it is divided
/// by 101. If `stutters` is `true`, the first write of each piece is interrupted.
fn print_lengths(rt: &impl Abort, first: usize, stutters: bool) {
    for length in 4..=8192 {
        let is_near = length < 60 || length > 4085 && length < 4105 || length > 8180;
        if is_near || length % 101 == first {
            let script = script_that_prints(length);
            let mut output = Tally::new();
            output.stutters = stutters;
            let status = run(&mut Source::new(script.text()), &mut output).code();
            let pieces = if length <= 4096 { 1 } else { 2 };
            let writes = if stutters { pieces * 2 } else { pieces };
            same!(*rt; (status, output.bytes, output.writes), (0, length, writes));
        }
    }
}

#[test]
fn answers_of_many_lengths_are_written_in_pieces(rt: HostRuntime) {
    print_lengths(&rt, 3, false);
}

#[test]
fn answers_of_many_other_lengths_are_written_in_pieces(rt: HostRuntime) {
    print_lengths(&rt, 50, false);
}

#[test]
fn answers_of_many_lengths_are_written_after_interruptions(rt: HostRuntime) {
    print_lengths(&rt, 77, true);
}
