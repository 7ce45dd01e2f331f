//! Hands out pages of 4 KiB from a gibibyte of memory. Nearly all of its pages are taken.
//!
//! A page is taken if its bit is set. A summary shows which words of the map have a free page. What
//! is proved: which three pages are free at first. The contract of `Pages` says the rest: a page
//! that is handed out was free, no lesser page was free unless the page was chosen, and all are
//! taken if the answer is `Full`.
#![tactic(auto)]

ghost use Rattle.std.specs.Prelude.{◌≡◌, IsTrue};
ghost use Rattle.bittle.specs.BitPatterns.{bit_set};
ghost use Rattle.bittle.specs.PlainSet.{full_set, without_span};
ghost use Rattle.bittle.specs.Rows.{row_set};

use bit_pages::{Answer, Pages, Request};
use bittle::{BigEndian, BitsOwned};
use bittle_tiers::prelude::*;
use std::io;

/// A map of 262,144 pages. A page is taken if its bit is set.
type Map = Tiered256K<Zeros>;

/// Returns a map in which the pages 199,998 to 200,000 are free, and all others are taken.
fn map_with_three_free() -> Map
    ensures { row_set 4096 64 (bit_set 64) result.map
        ≡ without_span (full_set 262144) 199998 200001 }
{
    let mut map = Map::ones();
    map.clear_range_in::<BigEndian>(199_998, 200_001);
    map
}

/// Lets an allocator serve `requests`, and returns the answers. At first the pages whose bits are
/// set in `map` are taken.
fn serve<B: BitsOwned>(map: B, requests: &[Request; 16]) -> [Answer; 16]
    requires { IsTrue B.indexable }
{
    let mut answers = [Answer::Full; 16];
    Pages::with_taken(map).serve(requests, &mut answers);
    answers
}

/// Prints a request with its answer.
fn print(rt: &HostRuntime, request: Request, answer: Answer) -> io::Result<()> {
    match request {
        Request::Take => print!(rt; "take a page: ")?,
        Request::TakeAt(page) => print!(rt; "take page {page}: ")?,
        Request::GiveBack(page) => print!(rt; "give page {page} back: ")?,
        Request::TakeRun(length) => print!(rt; "take a run of {length} pages: ")?,
        Request::TakeRunAt(first, length) => {
            print!(rt; "take the {length} pages from {first} on: ")?
        }
        Request::GiveBackRun(first, length) => {
            print!(rt; "give a run of {length} pages from {first} on back: ")?
        }
    }
    match answer {
        Answer::Page(page) => println!(rt; "page {page}"),
        Answer::Full => println!(rt; "all are taken"),
        Answer::NotFree => println!(rt; "it is not free"),
        Answer::Given => println!(rt; "it is free"),
        Answer::NotTaken => println!(rt; "it was not taken"),
        Answer::Run(first) => println!(rt; "the pages from {first} on"),
        Answer::NoRun => println!(rt; "none is free"),
    }
}

fn main(rt: HostRuntime) -> io::Result<()> {
    let requests = [
        Request::Take,
        Request::Take,
        Request::GiveBack(131_071),
        Request::GiveBack(131_071),
        Request::Take,
        Request::Take,
        Request::Take,
        Request::GiveBack(262_143),
        Request::GiveBack(262_144),
        Request::TakeRun(2),
        Request::GiveBackRun(131_070, 3),
        Request::TakeRun(2),
        Request::TakeAt(131_072),
        Request::TakeAt(131_072),
        Request::GiveBackRun(131_070, 2),
        Request::TakeRunAt(131_070, 2),
    ];
    let answers = serve(map_with_three_free(), &requests);
    for i in 0..16usize {
        print(&rt, requests[i], answers[i])?;
    }
    Ok(())
}
