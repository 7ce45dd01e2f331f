//! The debug text of sets.

use crate::checks::{holds, same};
use bittle::{Set, set};
use std::alloc::{AllocError, Global};
use std::fmt;
use std::fmt::{Debug, Write};
use std::process::Abort;
use std::test::Fail;

// Checks the debug text of a value.
fn reads<S: Debug>(
    rt: &impl Abort,
    alloc: Global,
    value: &S,
    text: &str,
) -> Result<(), AllocError> {
    same!(*rt; format!(in alloc; "{value:?}")?.as_str(), text);
    Ok(())
}

#[test]
fn the_text_of_a_set_is_one_line(rt: HostRuntime) -> Result<(), Fail> {
    let set = Set::new(0x4002u16);
    same!(rt; format!(in rt.alloc(); "{set:?}")?.as_str(), "{1, 14}");
    same!(rt; format!(in rt.alloc(); "{set:#?}")?.as_str(), "{1, 14}");
    same!(rt; format!(in rt.alloc(); "{set:12?}")?.as_str(), "{1, 14}");
    same!(rt; format!(in rt.alloc(); "{set:>+08?}")?.as_str(), "{1, 14}");
    let set = Set::new_le(0b0000_1001u8);
    same!(rt; format!(in rt.alloc(); "{set:?}")?.as_str(), "{4, 7}");
    Ok(())
}

#[test]
fn a_text_names_members_of_each_length(rt: HostRuntime) -> Result<(), Fail> {
    let set: Set<[u64; 160]> = set![7, 42, 200, 201, 999, 1_000, 1_234, 9_999, 10_000];
    let text = "{7, 42, 200, 201, 999, 1000, 1234, 9999, 10000}";
    reads(&rt, rt.alloc(), &set, text)?;
    Ok(())
}

#[test]
fn a_text_names_members_of_six_digits(rt: HostRuntime) -> Result<(), Fail> {
    let set: Set<[u64; 1_600]> = set![9, 12_345, 99_999, 100_000, 102_399];
    let text = "{9, 12345, 99999, 100000, 102399}";
    reads(&rt, rt.alloc(), &set, text)?;
    Ok(())
}

#[test]
fn the_text_of_a_full_set(rt: HostRuntime) -> Result<(), Fail> {
    let mut expected = format!(in rt.alloc(); "{{0")?;
    for index in 1..1_024u32 {
        write!(expected, ", {index}")?;
    }
    write!(expected, "}}")?;
    let set: Set<[u64; 16]> = set![0..];
    same!(rt;
        format!(in rt.alloc(); "{set:?}")?.as_str(),
        expected.as_str()
    );
    Ok(())
}

// A writer that takes `left` pieces of text, and then fails.
#[derive(Drop)]
struct Short {
    left: u32,
}

impl Write for Short {
    fn write_str(&mut self, _text: &str) -> fmt::Result {
        if self.left == 0 {
            return Err(fmt::Error);
        }
        self.left -= 1;
        Ok(())
    }
}

// Checks that the debug text of a value has `pieces` pieces: writing it fails if the writer takes
// fewer, and succeeds if the writer takes that many.
fn is_cut_off<S: Debug>(rt: &impl Abort, value: &S, pieces: u32) {
    for left in 0..pieces {
        let mut short = Short { left };
        same!(*rt; (left, write!(short, "{value:?}").is_err()), (left, true));
    }
    let mut whole = Short { left: pieces };
    holds!(*rt; write!(whole, "{value:?}").is_ok());
    same!(*rt; whole.left, 0);
}

#[test]
fn a_text_that_was_cut_off_is_an_error(rt: HostRuntime) {
    // Five pieces: two braces, two indexes, and the comma between them.
    let set: Set<u16> = set![1, 14];
    is_cut_off(&rt, &set, 5);

    // Two pieces: the braces.
    let set: Set<u16> = set![];
    is_cut_off(&rt, &set, 2);
}
