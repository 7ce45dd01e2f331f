//! Sets whose bits are set one after another, of each type and in both orders: what `count` and
//! `ones` print.

use crate::checks::same;
use crate::streams::{Source, Tally, ran};
use bittle_script::run;
use std::alloc::Global;
use std::process::Abort;
use std::test::Fail;

/// The lines of a script that set bits 0 to 31.
const SETS: &[u8] = b"set 0\nset 1\nset 2\nset 3\nset 4\nset 5\nset 6\nset 7\n\
    set 8\nset 9\nset 10\nset 11\nset 12\nset 13\nset 14\nset 15\n\
    set 16\nset 17\nset 18\nset 19\nset 20\nset 21\nset 22\nset 23\n\
    set 24\nset 25\nset 26\nset 27\nset 28\nset 29\nset 30\nset 31\n";

/// The lines of a script that set bits 0 to 31, with a line `count` after each of them.
const FILLS: &[u8] = b"set 0\ncount\nset 1\ncount\nset 2\ncount\nset 3\ncount\n\
    set 4\ncount\nset 5\ncount\nset 6\ncount\nset 7\ncount\n\
    set 8\ncount\nset 9\ncount\nset 10\ncount\nset 11\ncount\n\
    set 12\ncount\nset 13\ncount\nset 14\ncount\nset 15\ncount\n\
    set 16\ncount\nset 17\ncount\nset 18\ncount\nset 19\ncount\n\
    set 20\ncount\nset 21\ncount\nset 22\ncount\nset 23\ncount\n\
    set 24\ncount\nset 25\ncount\nset 26\ncount\nset 27\ncount\n\
    set 28\ncount\nset 29\ncount\nset 30\ncount\nset 31\ncount\n";

/// The text that `ones` prints for a full set of 32 bits.
const MEMBERS: &[u8] = b"0 1 2 3 4 5 6 7 8 9 10 11 12 13 14 15 16 17 18 19 20 21 22 23 \
    24 25 26 27 28 29 30 31\n";

/// The text that the lines `count` of `FILLS` print for a set of 32 bits.
const COUNTS: &[u8] = b"1\n2\n3\n4\n5\n6\n7\n8\n9\n10\n11\n12\n13\n14\n15\n16\n\
    17\n18\n19\n20\n21\n22\n23\n24\n25\n26\n27\n28\n29\n30\n31\n32\n";

/// Runs a script of a header, the lines of `FILLS` and a line `ones`, and checks what it prints.
fn fills(
    rt: &impl Abort,
    alloc: Global,
    header: &[u8],
    counts: &[u8],
    members: &[u8],
) -> Result<(), Fail> {
    let mut script = Vec::from_slice(alloc, header)?;
    script.extend_from_slice(FILLS)?;
    script.extend_from_slice(b"ones\n")?;
    let mut printed = Vec::from_slice(alloc, counts)?;
    printed.extend_from_slice(members)?;
    let (status, output) = ran(script.as_slice());
    same!(*rt; (status, output.text()), (0, printed.as_slice()));
    Ok(())
}

#[test]
fn sets_of_32_are_filled(rt: HostRuntime) -> Result<(), Fail> {
    let headers: [&[u8]; 8] = [
        b"be u8x4\n",
        b"le u8x4\n",
        b"be u8x2x2\n",
        b"le u8x2x2\n",
        b"be u16x2\n",
        b"le u16x2\n",
        b"be i32\n",
        b"le i32\n",
    ];
    for header in headers {
        fills(&rt, rt.alloc(), header, COUNTS, MEMBERS)?;
    }
    Ok(())
}

#[test]
fn sets_of_8_are_filled(rt: HostRuntime) -> Result<(), Fail> {
    // From 8 on, each index wraps to a bit that is set already.
    let counts = b"1\n2\n3\n4\n5\n6\n7\n8\n\
        8\n8\n8\n8\n8\n8\n8\n8\n8\n8\n8\n8\n8\n8\n8\n8\n8\n8\n8\n8\n8\n8\n8\n8\n";
    for header in [b"be u8\n", b"le u8\n"] {
        fills(&rt, rt.alloc(), header, counts, b"0 1 2 3 4 5 6 7\n")?;
    }
    Ok(())
}

#[test]
fn writes_long_answers_in_17_pieces(rt: HostRuntime) -> Result<(), Fail> {
    // The script has 10 + 214 + 774 * 5 = 4,094 bytes. Each of the 774 `ones` prints 86 bytes.
    let mut script = Vec::from_slice(rt.alloc(), b"be u8x2x2\n")?;
    script.extend_from_slice(SETS)?;
    for _ in 0..774 {
        script.extend_from_slice(b"ones\n")?;
    }
    let mut output = Tally::new();
    let status = run(&mut Source::new(script.as_slice()), &mut output);
    same!(rt; (status.code(), output.writes, output.bytes), (0, 17, 66_564));
    Ok(())
}
