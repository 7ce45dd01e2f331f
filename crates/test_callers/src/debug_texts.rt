//! The texts of the allocator's requests, answers and error, and texts that are cut off.

use crate::checks::{holds, same};
use bit_pages::{Answer, NotTaken, Request};
use std::alloc::{AllocError, Global};
use std::fmt;
use std::fmt::{Debug, Write};
use std::process::Abort;
use std::test::Fail;

// Checks the debug text of a value.
fn reads<T: Debug>(
    rt: &impl Abort,
    alloc: Global,
    value: &T,
    text: &str,
) -> Result<(), AllocError> {
    same!(*rt; format!(in alloc; "{value:?}")?.as_str(), text);
    Ok(())
}

#[test]
fn requests_are_named_with_their_page(rt: HostRuntime) -> Result<(), Fail> {
    reads(&rt, rt.alloc(), &Request::Take, "Take")?;
    reads(&rt, rt.alloc(), &Request::TakeAt(7), "TakeAt(7)")?;
    reads(&rt, rt.alloc(), &Request::GiveBack(12), "GiveBack(12)")?;
    reads(&rt, rt.alloc(), &Request::TakeRun(3), "TakeRun(3)")?;
    reads(
        &rt,
        rt.alloc(),
        &Request::TakeRunAt(2, 3),
        "TakeRunAt(2, 3)",
    )?;
    reads(
        &rt,
        rt.alloc(),
        &Request::GiveBackRun(4, 2),
        "GiveBackRun(4, 2)",
    )?;
    Ok(())
}

#[test]
fn answers_are_named_with_their_page(rt: HostRuntime) -> Result<(), Fail> {
    reads(&rt, rt.alloc(), &Answer::Page(1_000_000), "Page(1000000)")?;
    reads(&rt, rt.alloc(), &Answer::Full, "Full")?;
    reads(&rt, rt.alloc(), &Answer::NotFree, "NotFree")?;
    reads(&rt, rt.alloc(), &Answer::Given, "Given")?;
    reads(&rt, rt.alloc(), &Answer::NotTaken, "NotTaken")?;
    reads(&rt, rt.alloc(), &Answer::Run(12), "Run(12)")?;
    reads(&rt, rt.alloc(), &Answer::NoRun, "NoRun")?;
    Ok(())
}

#[test]
fn the_error_of_a_page_that_is_not_taken_is_named(rt: HostRuntime) -> Result<(), Fail> {
    reads(&rt, rt.alloc(), &NotTaken, "NotTaken")?;
    same!(rt; format!(in rt.alloc(); "{NotTaken}")?.as_str(), "the page is not taken");
    Ok(())
}

// A writer that takes `left` pieces of text, and then fails.
#[derive(Drop)]
struct Short {
    left: u32,
}

impl Write for Short {
    fn write_str(&mut self, _text: &str) -> fmt::Result {
        if self.left == 0 {
            return Err(fmt::Error);
        }
        self.left -= 1;
        Ok(())
    }
}

#[test]
fn a_text_that_was_cut_off_is_an_error(rt: HostRuntime) {
    let mut short = Short { left: 0 };
    holds!(rt; write!(short, "{:?}", NotTaken).is_err());
    let mut short = Short { left: 1 };
    holds!(rt; write!(short, "{:?}", Answer::Page(7)).is_err());
    let mut short = Short { left: 0 };
    holds!(rt; write!(short, "{NotTaken}").is_err());
    let mut whole = Short { left: 1 };
    holds!(rt; write!(whole, "{NotTaken}").is_ok());
}
