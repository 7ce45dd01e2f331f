//! Runs of pages, compared with values worked out by hand. Drawn (pseudo-random) calls are compared
//! with an array of flags, one for each page.

ghost use Rattle.std.specs.Prelude.{◌≡◌};
ghost use Rattle.bittle.specs.Shapes.{Fits};

use crate::checks::{holds, same};
use bit_pages::{Answer, NotTaken, Pages, Request};
use bittle::{BitsOwned, LittleEndian, Set};

#[test]
fn runs_of_eight_pages(rt: HostRuntime) {
    let mut pages = Pages::with_taken(0b0100_1001u8);
    same!(rt; pages.take_run(3), None);
    same!(rt; pages.take_run(2), Some(1));
    same!(rt; pages.take_run(2), Some(4));
    same!(rt; pages.taken(), 7);
    same!(rt; pages.give_back_run(1, 5), Ok(()));
    same!(rt; pages.give_back_run(0, 2), Err(NotTaken));
    same!(rt; pages.taken(), 2);
    same!(rt; pages.into_map(), 0b0100_0001);
}

#[test]
fn chosen_pages(rt: HostRuntime) {
    let mut pages = Pages::with_taken(0b0000_0001u8);
    same!(rt; (pages.take_at(5), pages.take_at(5), pages.take_at(0)), (true, false, false));
    same!(rt; (pages.take_at(8), pages.take_at(13), pages.taken()), (false, false, 2));
    same!(rt; (pages.take(), pages.give_back(5), pages.take_at(5)), (Some(1), Ok(()), true));
    same!(rt; (*pages.map(), pages.into_map()), (0b0010_0011, 0b0010_0011));
    let mut none = Pages::<[u8; 0]>::new();
    same!(rt; none.take_at(0), false);
}

#[test]
fn chosen_runs(rt: HostRuntime) {
    let mut pages = Pages::with_taken(0b0000_0001u8);
    same!(rt; (pages.is_run_free(5, 3), pages.is_run_free(0, 2)), (true, false));
    same!(rt; (pages.take_run_at(5, 3), pages.take_run_at(5, 3)), (true, false));
    same!(rt; (pages.take_run_at(4, 2), pages.take_run_at(1, 3), pages.taken()), (false, true, 7));
    same!(rt; (pages.take(), pages.give_back_run(5, 2)), (Some(4), Ok(())));
    same!(rt; (pages.is_run_free(5, 2), pages.is_run_free(4, 2)), (true, false));
    same!(rt; (pages.take_run_at(6, 2), pages.take_run_at(6, 1)), (false, true));
    same!(rt; (pages.taken(), pages.into_map()), (7, 0b1101_1111));
}

#[test]
fn chosen_runs_past_the_last_page(rt: HostRuntime) {
    let mut pages = Pages::<u8>::new();
    same!(rt; (pages.take_run_at(7, 2), pages.take_run_at(8, 1)), (false, false));
    same!(rt; (pages.is_run_free(1, 4_294_967_295), pages.is_run_free(0, 9)), (false, false));
    same!(rt; (pages.take_run_at(4_294_967_295, 1), pages.taken()), (false, 0));
    same!(rt; (pages.take_run_at(8, 0), pages.take_run_at(9, 0)), (true, false));
    same!(rt; (pages.is_run_free(8, 0), pages.is_run_free(9, 0)), (true, false));
    same!(rt; (pages.take_run_at(0, 8), pages.take_run_at(3, 0), pages.taken()), (true, true, 8));
    let mut none = Pages::<[u8; 0]>::new();
    same!(rt; (none.take_run_at(0, 0), none.take_run_at(0, 1)), (true, false));
}

#[test]
fn requests_of_pages_and_runs(rt: HostRuntime) {
    let mut pages = Pages::with_taken(0b0100_1001u8);
    let mut answers = [Answer::Full; 16];
    let requests = [
        Request::TakeRun(3),
        Request::TakeRun(2),
        Request::TakeAt(7),
        Request::TakeAt(7),
        Request::TakeAt(8),
        Request::GiveBack(7),
        Request::Take,
        Request::GiveBackRun(1, 2),
        Request::GiveBackRun(0, 2),
        Request::TakeRun(0),
        Request::GiveBackRun(8, 0),
        Request::GiveBackRun(9, 0),
        Request::GiveBackRun(4_294_967_295, 2),
        Request::TakeRunAt(1, 3),
        Request::TakeRunAt(1, 2),
        Request::TakeRunAt(7, 2),
    ];
    pages.serve(&requests, &mut answers);
    let expected = [
        Answer::NoRun,
        Answer::Run(1),
        Answer::Page(7),
        Answer::NotFree,
        Answer::NotFree,
        Answer::Given,
        Answer::Page(4),
        Answer::Given,
        Answer::NotTaken,
        Answer::Run(0),
        Answer::Given,
        Answer::NotTaken,
        Answer::NotTaken,
        Answer::NotFree,
        Answer::Run(1),
        Answer::NotFree,
    ];
    same!(rt; answers, expected);
    same!(rt; pages.taken(), 6);
    same!(rt; pages.into_map(), 0b0101_1111);
}

#[test]
fn runs_of_no_pages(rt: HostRuntime) {
    let mut pages = Pages::with_taken(0xFFu8);
    same!(rt; (pages.take_run(0), pages.take_run(1)), (Some(0), None));
    same!(rt; (pages.give_back_run(8, 0), pages.give_back_run(9, 0)), (Ok(()), Err(NotTaken)));
    let mut none = Pages::<[u8; 0]>::new();
    same!(rt; (none.take_run(0), none.take_run(1)), (Some(0), None));
    same!(rt; (none.give_back_run(0, 0), none.give_back_run(0, 1)), (Ok(()), Err(NotTaken)));
}

#[test]
fn runs_past_the_last_page(rt: HostRuntime) {
    let mut pages = Pages::with_taken(0xFFu8);
    same!(rt; pages.give_back_run(7, 2), Err(NotTaken));
    same!(rt; pages.give_back_run(1, 4_294_967_295), Err(NotTaken));
    same!(rt; pages.give_back_run(4_294_967_295, 1), Err(NotTaken));
    holds!(rt; pages.is_run_taken(0, 8) && !pages.is_run_taken(8, 1));
    same!(rt; pages.taken(), 8);
}

// Returns whether the pages `first..first + length` all exist and have the flag `value`.
fn all_are(taken: &[bool; 16], first: u32, length: u32, value: bool) -> bool {
    for page in first..first.saturating_add(length) {
        match taken.get(page as usize) {
            Some(is_taken) if *is_taken == value => {}
            _ => return false,
        }
    }
    true
}

// Returns the first of sixteen pages where a run of `length` free pages begins.
fn first_free(taken: &[bool; 16], length: u32) -> Option<u32> {
    for first in 0..16 {
        if all_are(taken, first, length, false) {
            return Some(first);
        }
    }
    None
}

// Writes a flag to each of the pages `first..first + length` that exist.
fn assign(taken: &mut [bool; 16], first: u32, length: u32, value: bool) {
    for page in first..first.saturating_add(length) {
        if page < 16 {
            taken[page as usize] = value;
        }
    }
}

// Returns whether the allocator and the flags agree on which pages are taken, and on their number.
fn agrees<B: BitsOwned>(pages: &Pages<B>, taken: &[bool; 16]) -> bool {
    let mut count = 0u32;
    for page in 0..16u32 {
        if pages.is_taken(page) != taken[page as usize] {
            return false;
        }
        if taken[page as usize] {
            count = count.wrapping_add(1);
        }
    }
    pages.taken() == count
}

// Applies a request to the flags, and returns the expected answer.
fn answer(taken: &mut [bool; 16], request: Request) -> Answer {
    match request {
        Request::Take => match first_free(taken, 1) {
            Some(page) => {
                assign(taken, page, 1, true);
                Answer::Page(page)
            }
            None => Answer::Full,
        },
        Request::TakeAt(page) => {
            if !all_are(taken, page, 1, false) {
                return Answer::NotFree;
            }
            assign(taken, page, 1, true);
            Answer::Page(page)
        }
        Request::TakeRun(length) => match first_free(taken, length) {
            Some(first) => {
                assign(taken, first, length, true);
                Answer::Run(first)
            }
            None => Answer::NoRun,
        },
        Request::TakeRunAt(first, length) => {
            if 16 < first.saturating_add(length) || !all_are(taken, first, length, false) {
                return Answer::NotFree;
            }
            assign(taken, first, length, true);
            Answer::Run(first)
        }
        Request::GiveBack(page) => give_back(taken, page, 1),
        Request::GiveBackRun(first, length) => give_back(taken, first, length),
    }
}

// Frees the pages `first..first + length` in the flags if all of them exist and are taken.
fn give_back(taken: &mut [bool; 16], first: u32, length: u32) -> Answer {
    if 16 < first.saturating_add(length) || !all_are(taken, first, length, true) {
        return Answer::NotTaken;
    }
    assign(taken, first, length, false);
    Answer::Given
}

// Returns whether 40 drawn requests on sixteen pages are answered as the flags say.
fn drawn_requests<B: BitsOwned>(seed: u64) -> bool
    requires fits { Fits B.indexable B.type_capacity }
    requires sixteen { B.type_capacity ≡ 16 }
{
    let mut requests = [Request::Take; 40];
    let mut expected = [Answer::Full; 40];
    let mut taken = [false; 16];
    let mut state = seed;
    for i in 0..40usize {
        state = state
            .wrapping_mul(6_364_136_223_846_793_005)
            .wrapping_add(1_442_695_040_888_963_407);
        let length = ((state >> 40) % 6) as u32;
        let first = ((state >> 48) % 18) as u32;
        requests[i] = match (state >> 33) % 8 {
            0..=1 => Request::Take,
            2 => Request::GiveBack(first),
            3..=4 => Request::TakeRun(length),
            5 => Request::TakeAt(first),
            6 => Request::TakeRunAt(first, length % 4),
            _ => Request::GiveBackRun(first, length % 3),
        };
        expected[i] = answer(&mut taken, requests[i]);
    }
    let mut pages = Pages::<B>::new();
    let mut answers = [Answer::Given; 40];
    pages.serve(&requests, &mut answers);
    answers == expected && agrees(&pages, &taken)
}

#[test]
fn drawn_requests_of_pages_and_runs(rt: HostRuntime) {
    holds!(rt; drawn_requests::<u16>(5) && drawn_requests::<u16>(8));
    holds!(rt; drawn_requests::<Set<[u8; 2], LittleEndian>>(10));
}
