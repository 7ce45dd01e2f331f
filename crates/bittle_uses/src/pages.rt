//! Callers of an allocator of pages. What one call promises is what the next call requires. No
//! caller has a proof file.

ghost use Rattle.std.specs.Prelude.{◌≡◌, ◌≢◌, ◌+◌, ◌-◌, ◌<◌, ◌≤◌, IfSome, IsSome, IsTrue};
ghost use Rattle.std.specs.Prelude.{MatchOption};
ghost use Rattle.std.specs.Prelude.{Some, false, length, true};
ghost use Rattle.std.specs.Prelude.{if◌then◌else◌, map, slice_set, [], ◌∷◌, List};
ghost use Rattle.bit_histories.specs.Histories.{IsCall, IsHistory, total};
ghost use Rattle.bit_pages.specs.PageLaws.{is_refused, pages_back, pages_handed_out};
ghost use Rattle.bit_pages.specs.Pages.{answer_to, state_after, is_run_free, is_run_taken};
ghost use Rattle.bit_pages.specs.Pages.{is_taken, least_free};
ghost use Rattle.bit_pages.specs.Pages.{page_or_full, run_or_none};
ghost use Rattle.bittle.specs.BitPatterns.{bit_set};
ghost use Rattle.bittle.specs.Rows.{row_set};
ghost use Rattle.bittle.specs.Values.{set_in};
ghost use Rattle.bittle.specs.PlainSet.{PlainSet, empty_set, size};

use bit_pages::{Answer, Pages, Request, page_laws};
use bittle::{Bits, BitsOwned};

/// Returns an allocator in which no page is taken, or `None` if the type has too many bits.
pub fn new_pool<B: BitsOwned>() -> Option<Pages<B>>
    ensures { IfSome result
        (λ pages. set_in B.Shape B.Order.Endian pages.map ≡ empty_set B.type_capacity) }
{
    if B::bits() == u32::MAX {
        return None;
    }
    Some(Pages::new())
}

/// Takes the first page of a new allocator. The type has to fit, as `Pages::new` requires.
pub fn first_page<B: BitsOwned>() -> Option<u32>
    requires { IsTrue B.indexable }
    ensures page { result ≡ least_free (empty_set B.type_capacity) }
    ensures below { IfSome result (λ page. page < B.type_capacity) }
{
    let mut pages = Pages::<B>::new();
    pages.take()
}

/// Takes two pages, and returns them. They differ. Returns `None` if fewer than two are free.
pub fn take_two<B: BitsOwned>(pages: &mut Pages<B>) -> Option<(u32, u32)>
    ensures { IfSome result (λ both. both.0 ≢ both.1) }
{
    let first = pages.take()?;
    let second = pages.take()?;
    Some((first, second))
}

/// Takes a page, gives it back, and returns whether the allocator accepts the page. The result is
/// always `true`, also if no page is free.
pub fn borrow_page<B: BitsOwned>(pages: &mut Pages<B>) -> bool
    ensures { result ≡ true }
{
    match pages.take() {
        Some(page) => pages.give_back(page).is_ok(),
        None => true,
    }
}

/// Gives a page back, and returns whether it was taken. If it was not, no page changes.
pub fn give_back_or_keep<B: BitsOwned>(pages: &mut Pages<B>, page: u32) -> bool
    ensures { result ≡ false → set_in B.Shape B.Order.Endian pages.new.map
        ≡ set_in B.Shape B.Order.Endian pages.old.map }
{
    pages.give_back(page).is_ok()
}

/// Takes a page, and returns whether it is taken afterwards. The result is always `true`, also if
/// no page is free.
pub fn take_and_ask<B: BitsOwned>(pages: &mut Pages<B>) -> bool
    ensures { result ≡ true }
{
    match pages.take() {
        Some(page) => pages.is_taken(page),
        None => true,
    }
}

/// Takes a page, and returns whether the page `other`, which was taken before, still is. The result
/// is always `true`, also if `other` was not taken before.
pub fn take_and_ask_another<B: BitsOwned>(pages: &mut Pages<B>, other: u32) -> bool
    ensures { result ≡ true }
{
    if !pages.is_taken(other) {
        return true;
    }
    let _page = pages.take();
    pages.is_taken(other)
}

/// Takes a page unless the counts say that all pages are taken. Returns `true`: if the counts
/// differ, `take` finds a page.
pub fn take_if_not_full<B: BitsOwned>(pages: &mut Pages<B>) -> bool
    ensures { result ≡ true }
{
    if pages.taken() == pages.pages() {
        return true;
    }
    pages.take().is_some()
}

/// Takes the pages `one` and `other`, and returns whether `one` is taken afterwards. The result is
/// always `true` if `one` is a page and `other` is another number.
pub fn reserve_both<B: BitsOwned>(pages: &mut Pages<B>, one: u32, other: u32) -> bool
    ensures { one < B.type_capacity → one ≢ other → result ≡ true }
{
    pages.take_at(one);
    pages.take_at(other);
    pages.is_taken(one)
}

/// Takes the page `one`, and then the least free page. Returns whether these are two pages. The
/// result is `true` also if `one` or every page was taken before.
pub fn reserve_and_take<B: BitsOwned>(pages: &mut Pages<B>, one: u32) -> bool
    ensures { result ≡ true }
{
    if !pages.take_at(one) {
        return true;
    }
    match pages.take() {
        Some(page) => page != one,
        None => true,
    }
}

/// Takes the page `one`, and returns how many pages are taken afterwards, or `None` if `one` is not
/// a free page.
pub fn reserve_and_count<B: BitsOwned>(pages: &mut Pages<B>, one: u32) -> Option<u32>
    ensures { IfSome result (λ count.
        count ≡ size (set_in B.Shape B.Order.Endian pages.old.map) + 1) }
{
    if !pages.take_at(one) {
        return None;
    }
    Some(pages.taken())
}

/// Writes `owner` to the entry of a page in `owners`, if the page is taken.
pub fn own(pages: &Pages<u8>, owners: &mut [u32; 8], page: u32, owner: u32)
    ensures { owners.new ≡ if is_taken (bit_set 8 pages.now.map) page
        then slice_set owners.old page owner else owners.old }
{
    if pages.is_taken(page) {
        owners[page as usize] = owner;
    }
}

/// Frees a page, and writes 0 to its entry in `owners`, if the page is taken.
pub fn disown(pages: &mut Pages<u8>, owners: &mut [u32; 8], page: u32)
    ensures { owners.new ≡ if is_taken (bit_set 8 pages.old.map) page
        then slice_set owners.old page 0 else owners.old }
{
    if pages.give_back(page).is_ok() {
        owners[page as usize] = 0;
    }
}

/// Writes `length` to the entry of the first page of a run in `lengths`, if each page of the run is
/// taken. A run of length 0 may begin right after the last page.
pub fn note_run(pages: &Pages<u8>, lengths: &mut [u32; 9], first: u32, length: u32)
    ensures { lengths.new ≡ if is_run_taken (bit_set 8 pages.now.map) first length
        then slice_set lengths.old first length else lengths.old }
{
    if pages.is_run_taken(first, length) {
        lengths[first as usize] = length;
    }
}

/// Takes a page, writes `owner` to its entry of `owners`, and returns the page. Returns `None` if
/// no page is free.
pub fn take_for(pages: &mut Pages<u8>, owners: &mut [u32; 8], owner: u32) -> Option<u32>
    ensures page { result ≡ least_free (bit_set 8 pages.old.map) }
    ensures owners { MatchOption result (owners.new ≡ owners.old)
        (λ page. owners.new ≡ slice_set owners.old page owner) }
{
    let page = pages.take()?;
    owners[page as usize] = owner;
    Some(page)
}

/// Writes `owner` to the entry of each taken page in `owners`. Then it takes a page and returns it,
/// or `None` if no page is free.
pub fn own_all(pages: &mut Pages<u8>, owners: &mut [u32; 8], owner: u32) -> Option<u32>
    ensures { result ≡ least_free (bit_set 8 pages.old.map) }
{
    for page in pages.map().iter_ones() {
        owners[page as usize] = owner;
    }
    pages.take()
}

/// Frees a page of any allocator, and writes 0 to its entry in `owners`, if the page is taken.
pub fn disown_any<B: BitsOwned>(pages: &mut Pages<B>, owners: &mut [u32], page: u32)
    requires { B.type_capacity ≤ length owners.old }
    ensures { length owners.new ≡ length owners.old }
{
    if pages.give_back(page).is_ok() {
        owners[page as usize] = 0;
    }
}

/// Writes `owner` to the entry of each taken page of any allocator in `owners`.
pub fn own_any<B: BitsOwned>(pages: &Pages<B>, owners: &mut [u32], owner: u32)
    requires { B.type_capacity ≤ length owners.old }
    ensures { length owners.new ≡ length owners.old }
{
    for page in pages.map().iter_ones() {
        owners[page as usize] = owner;
    }
}

/// Takes a page and returns it, or `None` if no page is free. `free` is how many pages are free,
/// before the call and after it.
pub fn take_counted<B: BitsOwned>(pages: &mut Pages<B>, free: &mut u32) -> Option<u32>
    requires { free.old + size (set_in B.Shape B.Order.Endian pages.old.map) ≡ B.type_capacity }
    ensures { free.new + size (set_in B.Shape B.Order.Endian pages.new.map) ≡ B.type_capacity }
{
    let page = pages.take()?;
    *free -= 1;
    Some(page)
}

/// Makes an allocator of `map`, and returns its map, which is `map` again.
pub fn there_and_back<B: BitsOwned>(map: B) -> B
    requires { IsTrue B.indexable }
    ensures { result ≡ map }
{
    Pages::with_taken(map).into_map()
}

/// Counts the free pages as 8 minus the taken ones.
pub fn count_free(pages: &Pages<u8>) -> u32
    ensures { result ≡ 8 - size (bit_set 8 pages.now.map) }
{
    8 - pages.taken()
}

/// Counts the pages of a map that are taken.
pub fn count_of_map<B: BitsOwned>(map: B) -> u32
    requires { IsTrue B.indexable }
    ensures { result ≡ size (set_in B.Shape B.Order.Endian map) }
{
    Pages::with_taken(map).taken()
}

/// Counts the taken pages of a new allocator. The result is always 0.
pub fn count_of_new<B: BitsOwned>() -> u32
    requires { IsTrue B.indexable }
    ensures { result ≡ 0 }
{
    Pages::<B>::new().taken()
}

/// Returns whether the free pages and the taken pages are all pages. The result is always `true`.
pub fn counts_add_up<B: BitsOwned>(pages: &Pages<B>) -> bool
    ensures { result ≡ true }
{
    pages.free() + pages.taken() == pages.pages()
}

/// Returns whether a page of both allocators is taken in both or in neither. If the allocators
/// have the same pages taken, the result is `true`.
pub fn same_page<B: BitsOwned, C: BitsOwned>(one: &Pages<B>, other: &Pages<C>, page: u32) -> bool
    ensures { page < B.type_capacity → page < C.type_capacity → result ≡ true }
{
    !one.same_pages(other) || one.is_taken(page) == other.is_taken(page)
}

/// Takes a page, and returns how many pages are taken afterwards, or `None` if no page is free.
pub fn take_and_count<B: BitsOwned>(pages: &mut Pages<B>) -> Option<u32>
    ensures { IfSome result (λ count.
        count ≡ size (set_in B.Shape B.Order.Endian pages.old.map) + 1) }
{
    let _page = pages.take()?;
    Some(pages.taken())
}

/// Takes a run of pages, gives it back, and returns whether the allocator accepts the run. The
/// result is always `true`, also if no such run is free.
pub fn borrow_run<B: BitsOwned>(pages: &mut Pages<B>, length: u32) -> bool
    ensures { result ≡ true }
{
    match pages.take_run(length) {
        Some(first) => pages.give_back_run(first, length).is_ok(),
        None => true,
    }
}

/// Takes a run of pages, and returns whether the page `other`, which was taken before, still is.
/// The result is always `true`, also if `other` was not taken before.
pub fn take_run_and_ask_another<B: BitsOwned>(pages: &mut Pages<B>, length: u32, other: u32) -> bool
    ensures { result ≡ true }
{
    if !pages.is_taken(other) {
        return true;
    }
    let _first = pages.take_run(length);
    pages.is_taken(other)
}

/// Takes two runs of pages, and returns whether each page of the first run is still taken. The
/// result is always `true`, also if no such runs are free.
pub fn take_two_runs<B: BitsOwned>(pages: &mut Pages<B>, length: u32, other: u32) -> bool
    ensures { result ≡ true }
{
    let Some(first) = pages.take_run(length) else {
        return true;
    };
    let _second = pages.take_run(other);
    pages.is_run_taken(first, length)
}

/// Takes a run of pages that is chosen, gives it back, and returns whether the allocator accepts
/// the run. The result is always `true`, also if the run was not free.
pub fn borrow_chosen_run<B: BitsOwned>(pages: &mut Pages<B>, first: u32, length: u32) -> bool
    ensures { result ≡ true }
{
    !pages.take_run_at(first, length) || pages.give_back_run(first, length).is_ok()
}

/// Takes two runs of pages that are chosen. Returns whether the second is refused or each page of
/// the first is taken afterwards. The result is always `true`, also if the first run was not free.
pub fn reserve_two_runs<B: BitsOwned>(
    pages: &mut Pages<B>,
    first: u32,
    other: u32,
    length: u32,
) -> bool
    ensures { result ≡ true }
{
    if !pages.is_run_free(first, length) {
        return true;
    }
    pages.take_run_at(first, length);
    let second = pages.take_run_at(other, length);
    !second || pages.is_run_taken(first, length)
}

/// Takes the run of `length` pages from `first` on, and returns how many pages are taken
/// afterwards. Returns `None` if the run is not free.
pub fn reserve_run_and_count<B: BitsOwned>(
    pages: &mut Pages<B>,
    first: u32,
    length: u32,
) -> Option<u32>
    ensures { IfSome result (λ count.
        count ≡ size (set_in B.Shape B.Order.Endian pages.old.map) + length) }
{
    if !pages.take_run_at(first, length) {
        return None;
    }
    Some(pages.taken())
}

/// Takes the run of `length` pages from `first` on, and writes `owner` to the entry of each of
/// these pages in `owners`. Returns whether the run was free.
pub fn reserve_run_for(
    pages: &mut Pages<u8>,
    owners: &mut [u32; 8],
    first: u32,
    length: u32,
    owner: u32,
) -> bool
    ensures { result ≡ is_run_free (bit_set 8 pages.old.map) first length }
{
    if !pages.take_run_at(first, length) {
        return false;
    }
    for page in first..first + length {
        owners[page as usize] = owner;
    }
    true
}

/// Gives back a run of pages, and returns whether the page `other`, which was taken before, still
/// is. The result is `true` if `other` is no page of the run.
pub fn give_run_and_ask_another<B: BitsOwned>(
    pages: &mut Pages<B>,
    first: u32,
    length: u32,
    other: u32,
) -> bool
    ensures below { other < first → result ≡ true }
    ensures past { first + length ≤ other → result ≡ true }
{
    if !pages.is_taken(other) {
        return true;
    }
    let _given = pages.give_back_run(first, length);
    pages.is_taken(other)
}

/// Takes a run of length 0. Returns the answer, which is always 0, and how many pages are taken
/// afterwards: as many as before.
pub fn take_no_pages<B: BitsOwned>(pages: &mut Pages<B>) -> (Option<u32>, u32)
    ensures answer { result.0 ≡ Some 0 }
    ensures count { result.1 ≡ size (set_in B.Shape B.Order.Endian pages.old.map) }
{
    let first = pages.take_run(0);
    (first, pages.taken())
}

/// Gives back a run of length 0. Returns whether the call returns `Ok` exactly if `first` is at
/// most the number of pages, which is always so.
pub fn give_no_pages<B: BitsOwned>(pages: &mut Pages<B>, first: u32) -> bool
    ensures { result ≡ true }
{
    pages.give_back_run(first, 0).is_ok() == (first <= pages.pages())
}

/// Asks for more pages than there are, and gives back a run that ends past the last page. Returns
/// whether one of the calls took effect. The result is always `false`.
pub fn pass_the_end<B: BitsOwned>(pages: &mut Pages<B>, first: u32, length: u32) -> bool
    requires { B.type_capacity < length }
    ensures { result ≡ false }
{
    pages.take_run(length).is_some() || pages.give_back_run(first, length).is_ok()
}

/// Takes a page and then a run of `length` pages, and returns how many pages are taken afterwards.
/// Returns `None` if no page or no such run is free.
pub fn take_page_and_run<B: BitsOwned>(pages: &mut Pages<B>, length: u32) -> Option<u32>
    ensures { IfSome result (λ count.
        count ≡ size (set_in B.Shape B.Order.Endian pages.old.map) + 1 + length) }
{
    let _page = pages.take()?;
    let _first = pages.take_run(length)?;
    Some(pages.taken())
}

/// Takes two pages, gives the first back, takes a third, and returns the second and the third. They
/// differ, and two more pages are taken afterwards than before. Returns `None` if fewer than two
/// pages are free before.
pub fn turn_over<B: BitsOwned>(pages: &mut Pages<B>) -> Option<(u32, u32)>
    ensures differ { IfSome result (λ both. both.0 ≢ both.1) }
    ensures count { IfSome result (λ both. size (set_in B.Shape B.Order.Endian pages.new.map)
        ≡ size (set_in B.Shape B.Order.Endian pages.old.map) + 2) }
{
    let first = pages.take()?;
    let second = pages.take()?;
    let _given = pages.give_back(first);
    let third = pages.take()?;
    Some((second, third))
}

/// Serves requests for pages and for runs of pages. By a law on lists of requests, the requests and
/// their answers tell how many more pages are taken afterwards than before.
pub fn serve_and_count<B: BitsOwned>(
    pages: &mut Pages<B>,
    requests: &[Request],
    answers: &mut [Answer],
)
    requires { length answers.old ≡ length requests.now }
    ensures { size (set_in B.Shape B.Order.Endian pages.new.map)
        + total pages_back requests.now answers.new
        ≡ size (set_in B.Shape B.Order.Endian pages.old.map)
        + total pages_handed_out requests.now answers.new }
{
    page_laws::pages_are_counted();
    pages.serve(requests, answers);
}

/// Serves requests, and writes `owner` to the entry of the page that answer `i` names, if it names
/// one.
pub fn serve_and_own(
    pages: &mut Pages<u8>,
    requests: &[Request],
    answers: &mut [Answer],
    i: usize,
    owners: &mut [u32; 8],
    owner: u32,
)
    requires as_long { length answers.old ≡ length requests.now }
    requires i { i < length requests.now }
{
    pages.serve(requests, answers);
    if let Answer::Page(page) = answers[i] {
        owners[page as usize] = owner;
    }
}

/// Serves requests, and returns the number after the last page of the run that answer `i` names, or
/// 0 if it names no run. The sum does not overflow.
pub fn serve_and_end(
    pages: &mut Pages<u8>,
    requests: &[Request],
    answers: &mut [Answer],
    i: usize,
) -> u32
    requires as_long { length answers.old ≡ length requests.now }
    requires i { i < length requests.now }
    ensures { result ≤ 8 }
{
    pages.serve(requests, answers);
    let length = match requests[i] {
        Request::TakeRun(length) => length,
        Request::TakeRunAt(_, length) => length,
        _ => return 0,
    };
    let Answer::Run(first) = answers[i] else {
        return 0;
    };
    first + length
}

/// Takes a page and a run of pages. The clause says that the two calls, with what they return, are
/// a history of calls: they lead from the taken pages before to the taken pages afterwards.
pub fn take_both<B: BitsOwned>(pages: &mut Pages<B>, length: u32) -> (Option<u32>, Option<u32>)
    ensures { IsHistory answer_to state_after (set_in B.Shape B.Order.Endian pages.old.map)
        ((Request.Take, page_or_full result.0) ∷ (Request.TakeRun length, run_or_none result.1)
        ∷ []) (set_in B.Shape B.Order.Endian pages.new.map) }
{
    let page = pages.take();
    let first = pages.take_run(length);
    (page, first)
}

/// Takes the page `page`, and returns whether it was free. The clause says that the call, with what
/// it returns, is a history of one call.
pub fn take_chosen<B: BitsOwned>(pages: &mut Pages<B>, page: u32) -> bool
    ensures { IsHistory answer_to state_after (set_in B.Shape B.Order.Endian pages.old.map)
        ((Request.TakeAt page, if result then Answer.Page page else Answer.NotFree) ∷ [])
        (set_in B.Shape B.Order.Endian pages.new.map) }
{
    pages.take_at(page)
}

/// Takes the run of `length` pages from `first` on, and returns whether it was free. The clause
/// says that the call, with what it returns, is a history of one call.
pub fn take_chosen_run<B: BitsOwned>(pages: &mut Pages<B>, first: u32, length: u32) -> bool
    ensures { IsHistory answer_to state_after (set_in B.Shape B.Order.Endian pages.old.map)
        ((Request.TakeRunAt first length, if result then Answer.Run first else Answer.NotFree)
        ∷ []) (set_in B.Shape B.Order.Endian pages.new.map) }
{
    pages.take_run_at(first, length)
}

/// Gives back a page, and takes the least free page if it was taken. Returns whether this page was
/// found: the result is always `true`, also if nothing was given back.
pub fn give_back_and_take<B: BitsOwned>(pages: &mut Pages<B>, page: u32) -> bool
    ensures { result ≡ true }
{
    match pages.give_back(page) {
        Ok(()) => pages.take().is_some(),
        Err(_) => true,
    }
}

/// Gives back a page, whether it was taken or not, and takes the least free page. If `page` is a
/// page, a page is found.
pub fn recycle<B: BitsOwned>(pages: &mut Pages<B>, page: u32) -> Option<u32>
    ensures { page < B.type_capacity → IsSome result }
{
    let _given = pages.give_back(page);
    pages.take()
}

/// Returns a new allocator in which page 0 is taken, and no other.
pub fn with_first_taken() -> Pages<[u64; 4]>
    ensures taken { is_taken (row_set 4 64 (bit_set 64) result.map) 0 ≡ true }
    ensures count { size (row_set 4 64 (bit_set 64) result.map) ≤ 1 }
{
    let mut pages = Pages::<[u64; 4]>::new();
    pages.take_at(0);
    pages
}

/// Gives back a page and then a run of pages, and returns whether each was taken. The clause says
/// that the two calls, with what they return, are a history of calls, as that of [`take_both`].
pub fn give_both_back<B: BitsOwned>(
    pages: &mut Pages<B>,
    page: u32,
    first: u32,
    length: u32,
) -> (bool, bool)
    ensures { IsHistory answer_to state_after (set_in B.Shape B.Order.Endian pages.old.map)
        ((Request.GiveBack page, if result.0 then Answer.Given else Answer.NotTaken)
        ∷ (Request.GiveBackRun first length, if result.1 then Answer.Given else Answer.NotTaken)
        ∷ []) (set_in B.Shape B.Order.Endian pages.new.map) }
{
    let page = pages.give_back(page).is_ok();
    let run = pages.give_back_run(first, length).is_ok();
    (page, run)
}

/// States that a call that is answered by `Full`, `NotFree`, `NoRun` or `NotTaken` changes nothing,
/// and that no sequence of calls changes how many pages there are.
pub fn calls_keep_pages()
    ensures refused { (before after : PlainSet) (request : Request) (answer : Answer)
        → IsCall answer_to state_after before request answer after
        → is_refused answer ≡ true → after ≡ before }
    ensures number { (before after : PlainSet) (calls : List (Request × Answer))
        → IsHistory answer_to state_after before calls after → after.capacity ≡ before.capacity }
{
    page_laws::calls_answer_as_lists();
    page_laws::unchanged_exactly_if_refused();
    page_laws::pages_stay();
}

/// States that the requests and the answers of any sequence of calls tell how many more pages are
/// taken after it than before it.
pub fn calls_are_counted()
    ensures { (before after : PlainSet) (calls : List (Request × Answer))
        → IsHistory answer_to state_after before calls after
        → size after + total pages_back (map (λ call. call.0) calls) (map (λ call. call.1) calls)
        ≡ size before + total pages_handed_out (map (λ call. call.0) calls)
        (map (λ call. call.1) calls) }
{
    page_laws::calls_answer_as_lists();
    page_laws::pages_are_counted();
}
