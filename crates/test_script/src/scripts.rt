//! What scripts print, and what the program does if reads or writes fail.

use crate::checks::{holds, same};
use crate::streams::{Sink, Source, ran, status_into, status_of};
use std::alloc::{AllocError, Global};
use std::io::ErrorKind;
use std::test::Fail;

/// A script that prints `PRINTED`.
const SCRIPT: &[u8] = b"be u8\nset 0\ntest 8\nclear 8\ntest 0\n";

const PRINTED: &[u8] = b"true\nfalse\n";

#[test]
fn answers_scripts(rt: HostRuntime) {
    let rows: [(&[u8], &[u8]); 13] = [
        (SCRIPT, PRINTED),
        (b"le u8\nset 4294967295\ntest 7\n", b"true\n"),
        (b"be u8\ncount\n", b"0\n"),
        (b"le u16x2\nset 31\nset 0\ncount\ntest 32\n", b"2\ntrue\n"),
        (b"be u8x2x2\nset 17\ntest 49\ncount\n", b"true\n1\n"),
        (b"be i32\nset 31\ntest 63\ncount\n", b"true\n1\n"),
        (
            b"le u16x2\nset 31\nset 0\ncount\nones\ntest 32\n",
            b"2\n0 31\ntrue\n",
        ),
        (b"le u8x2x2\nset 4294967295\nones\n", b"31\n"),
        (b"be i32\nones\n", b"\n"),
        (b"be u8\nset 0\ntest 0", b"true\n"),
        (b"be u8\r\nset 000\r\n\r\ntest 0\r\n", b"true\n"),
        (b"be u8\r\ntest 0\r", b"false\n"),
        (b"be u8\n\r", b""),
    ];
    for (input, printed) in rows {
        let (status, output) = ran(input);
        same!(rt; (input, status, output.text()), (input, 0, printed));
    }
}

#[test]
fn refuses_the_first_bad_line(rt: HostRuntime) {
    let rows: [(&[u8], &[u8]); 18] = [
        (b"", b"line 1: not understood\n"),
        (b"\nbe u8\n", b"line 1: not understood\n"),
        (b"be  u8\n", b"line 1: not understood\n"),
        (b"be u8 \n", b"line 1: not understood\n"),
        (b"BE u8\n", b"line 1: not understood\n"),
        (b"be u9\n", b"line 1: not understood\n"),
        (b"be u8\r\r\n", b"line 1: not understood\n"),
        (b"be u8\nset 4294967296\n", b"line 2: not understood\n"),
        (b"be u8\nse", b"line 2: not understood\n"),
        (b"be u8\nset +1\n", b"line 2: not understood\n"),
        (b"be u8\nset  1\n", b"line 2: not understood\n"),
        (b"be u8\nset \n", b"line 2: not understood\n"),
        (b"be u8\ncount 1\n", b"line 2: not understood\n"),
        (b"be u8\nones 1\n", b"line 2: not understood\n"),
        (
            b"be u8x4\nset 32\nones\nsat 1\nones\n",
            b"0\nline 4: not understood\n",
        ),
        (b"be u8\nSET 1\n", b"line 2: not understood\n"),
        (b"be u8\n\n\nset 1 \n", b"line 4: not understood\n"),
        (
            b"be u8\ntest 0\nsat 1\ntest 0\n",
            b"false\nline 3: not understood\n",
        ),
    ];
    for (input, printed) in rows {
        let (status, output) = ran(input);
        same!(rt; (input, status, output.text()), (input, 2, printed));
    }
}

#[test]
fn knows_each_set_type_in_both_orders(rt: HostRuntime) -> Result<(), Fail> {
    let rows: [&[u8]; 5] = [
        b"u8\nset 0\ntest 8\ntest 7\ncount\n",
        b"u8x4\nset 0\ntest 32\ntest 31\ncount\n",
        b"u8x2x2\nset 0\ntest 32\ntest 31\ncount\n",
        b"u16x2\nset 0\ntest 32\ntest 31\ncount\n",
        b"i32\nset 0\ntest 32\ntest 31\ncount\n",
    ];
    for rest in rows {
        for order in [b"be ", b"le "] {
            let mut input = Vec::from_slice(rt.alloc(), order)?;
            input.extend_from_slice(rest)?;
            let (status, output) = ran(input.as_slice());
            same!(rt; (status, output.text()), (0, b"true\nfalse\n1\n".as_slice()));
        }
    }
    Ok(())
}

/// Returns a script: the header `be u8`, `empty_lines` empty lines, and a last line.
fn spaced(alloc: Global, empty_lines: u32, last: &str) -> Result<Vec<u8>, AllocError> {
    let mut text = Vec::from_slice(alloc, b"be u8\n")?;
    for _ in 0..empty_lines {
        text.push(b'\n')?;
    }
    text.extend_from_slice(last.as_bytes())?;
    Ok(text)
}

#[test]
fn reads_at_most_4096_bytes(rt: HostRuntime) -> Result<(), Fail> {
    for (empty_lines, status, printed) in [(4090, 0, ""), (4091, 2, "input too long\n")] {
        let text = spaced(rt.alloc(), empty_lines, "")?;
        let (ended, output) = ran(text.as_slice());
        same!(rt; (ended, output.text()), (status, printed.as_bytes()));
    }
    Ok(())
}

#[test]
fn reads_texts_of_every_length(rt: HostRuntime) -> Result<(), Fail> {
    // The texts have 100, 1,000, 1,005, 1,006, 1,011, 4,096 and 4,096 bytes.
    for (empty_lines, last, status, printed) in [
        (87, "test 0\n", 0, "false\n"),
        (987, "test 0\n", 0, "false\n"),
        (997, "se", 2, "line 999: not understood\n"),
        (998, "se", 2, "line 1000: not understood\n"),
        (999, "test 0", 0, "false\n"),
        (4083, "test 0\n", 0, "false\n"),
        (4089, "s", 2, "line 4091: not understood\n"),
    ] {
        let text = spaced(rt.alloc(), empty_lines, last)?;
        let (ended, output) = ran(text.as_slice());
        same!(rt; (ended, output.text()), (status, printed.as_bytes()));
    }
    Ok(())
}

#[test]
fn makes_at_most_8192_reads(rt: HostRuntime) -> Result<(), Fail> {
    // In the four rows, the 8,192nd read returns no byte (the end), byte 4,096, byte 4,097 and
    // byte 4,096.
    for (empty_lines, interruptions, status, printed) in [
        (4090, 4095, 0, ""),
        (4090, 4096, 2, "read failed\n"),
        (4091, 4095, 2, "input too long\n"),
        (4091, 4096, 2, "read failed\n"),
    ] {
        let text = spaced(rt.alloc(), empty_lines, "")?;
        let mut input = Source::new(text.as_slice());
        input.interruptions = interruptions;
        input.most = 1;
        let mut output = Sink::new();
        let ended = status_of(&mut input, &mut output);
        same!(rt; (ended, output.text()), (status, printed.as_bytes()));
        same!(rt; input.calls, 8192);
    }
    Ok(())
}

#[test]
fn gives_up_on_bad_readers(rt: HostRuntime) {
    let mut torn = Source::new(b"be u8\n");
    torn.end = Some(ErrorKind::ConnectionReset);
    let mut output = Sink::new();
    same!(rt; status_of(&mut torn, &mut output), 2);
    same!(rt; output.text(), b"read failed\n".as_slice());
    // The second read fails, and is not repeated.
    same!(rt; torn.calls, 2);

    let mut interrupted = Source::new(b"be u8\n");
    interrupted.interruptions = u32::MAX;
    output = Sink::new();
    same!(rt; status_of(&mut interrupted, &mut output), 2);
    same!(rt; output.text(), b"read failed\n".as_slice());
    same!(rt; interrupted.calls, 8192);
}

#[test]
fn writes_all_to_slow_writers(rt: HostRuntime) {
    for (most, interruptions, writes) in [
        (100, 0, 1),
        (1, 0, 11),
        (100, 8191, 8192),
        (1, 8191, 8202),
    ] {
        let mut output = Sink::new();
        output.most = most;
        output.interruptions = interruptions;
        same!(rt; status_into(SCRIPT, &mut output), 0);
        same!(rt; output.text(), PRINTED);
        same!(rt; output.writes, writes);
        same!(rt; (output.flushes, output.is_flushed), (1, true));
    }
}

#[test]
fn writes_4096_bytes_at_once(rt: HostRuntime) -> Result<(), Fail> {
    // Each `ones` prints a line of 16 bytes.
    for (lines, writes, len) in [(0, 0, 0), (256, 1, 4096), (257, 2, 4112)] {
        let script = b"be u8\nset 0\nset 1\nset 2\nset 3\nset 4\nset 5\nset 6\nset 7\n";
        let mut text = Vec::from_slice(rt.alloc(), script)?;
        for _ in 0..lines {
            text.extend_from_slice(b"ones\n")?;
        }
        let (status, output) = ran(text.as_slice());
        same!(rt; (status, output.writes, output.text().len()), (0, writes, len));
        holds!(rt; output.text().is_empty() || output.text().ends_with(b"0 1 2 3 4 5 6 7\n"));
    }
    Ok(())
}

#[test]
fn gives_up_on_bad_writers(rt: HostRuntime) {
    let broken = Some(ErrorKind::BrokenPipe);
    let interrupted = Some(ErrorKind::Interrupted);
    for (most, interruptions, write_fault, flush_fault, printed, writes, flushes) in [
        (100, 0, broken, None, b"".as_slice(), 1, 0),
        (0, 0, None, None, b"".as_slice(), 1, 0),
        (100, 8192, None, None, b"".as_slice(), 8192, 0),
        (100, u32::MAX, None, None, b"".as_slice(), 8192, 0),
        (100, 0, None, broken, PRINTED, 1, 1),
        (100, 0, None, interrupted, PRINTED, 1, 1),
    ] {
        let mut output = Sink::new();
        output.most = most;
        output.interruptions = interruptions;
        output.write_fault = write_fault;
        output.flush_fault = flush_fault;
        same!(rt; status_into(SCRIPT, &mut output), 1);
        same!(rt; output.text(), printed);
        same!(rt; (output.writes, output.flushes), (writes, flushes));
    }
}

#[test]
fn gives_up_on_a_write_that_fails_midway(rt: HostRuntime) {
    // The first write takes two bytes, or five (the first line). The second write fails.
    for (most, sound, printed) in [(2, 2, b"tr".as_slice()), (5, 5, b"true\n".as_slice())] {
        let mut output = Sink::new();
        output.most = most;
        output.sound = sound;
        output.write_fault = Some(ErrorKind::BrokenPipe);
        same!(rt; status_into(SCRIPT, &mut output), 1);
        same!(rt; output.text(), printed);
        same!(rt; (output.writes, output.flushes), (2, 0));
    }
}

#[test]
fn counts_interrupted_writes_of_the_whole_run(rt: HostRuntime) {
    // 4,096 writes are interrupted before the first six bytes are taken, and 4,095 or 4,096 writes
    // before the other bytes are.
    for (later, status, printed) in [(4095, 0, PRINTED), (4096, 1, b"true\nf".as_slice())] {
        let mut output = Sink::new();
        output.most = 6;
        output.interruptions = 4096;
        output.sound = 6;
        output.later_interruptions = later;
        same!(rt; status_into(SCRIPT, &mut output), status);
        same!(rt; output.text(), printed);
        same!(rt; output.writes, 8193);
    }
}

#[test]
fn writes_long_texts_after_an_interruption(rt: HostRuntime) {
    for most in [12, 3, 1] {
        let mut output = Sink::new();
        output.most = most;
        output.interruptions = 1;
        output.sound = 9;
        output.later_interruptions = 1;
        same!(rt; status_into(b"be u8\nse", &mut output), 2);
        same!(rt; output.text(), b"line 2: not understood\n".as_slice());
    }
}

#[test]
fn flushes_once_where_it_refuses(rt: HostRuntime) {
    let rows: [&[u8]; 2] = [b"be u8\nse", b""];
    for input in rows {
        let (status, output) = ran(input);
        same!(rt; (status, output.flushes, output.is_flushed), (2, 1, true));
    }
}
