//! Lists of requests to the page allocator, and the answer to each.

ghost use Rattle.bittle.specs.Shapes.{Fits};

use crate::checks::{holds, same};
use bit_pages::{Answer, NotTaken, Pages, Request};
use bittle::{BitsOwned, LittleEndian, Set};

// Serves requests, some of which give back a page that is not taken. Returns the answers, and how
// many pages are taken at the end.
fn serve_some<B: BitsOwned>() -> ([Answer; 7], u32)
    requires { Fits B.indexable B.type_capacity }
{
    let mut pages = Pages::<B>::new();
    let mut answers = [Answer::Full; 7];
    let requests = [
        Request::Take,
        Request::Take,
        Request::GiveBack(0),
        Request::GiveBack(0),
        Request::GiveBack(9),
        Request::Take,
        Request::Take,
    ];
    pages.serve(&requests, &mut answers);
    (answers, pages.taken())
}

// Returns what `serve_some` has to return for each type with at least three pages.
fn answers_to_some() -> ([Answer; 7], u32) {
    let answers = [
        Answer::Page(0),
        Answer::Page(1),
        Answer::Given,
        Answer::NotTaken,
        Answer::NotTaken,
        Answer::Page(0),
        Answer::Page(2),
    ];
    (answers, 3)
}

#[test]
fn pages_of_an_integer(rt: HostRuntime) {
    same!(rt; serve_some::<u8>(), answers_to_some());
}

#[test]
fn pages_of_a_set_of_the_other_order(rt: HostRuntime) {
    same!(rt; serve_some::<Set<u8, LittleEndian>>(), answers_to_some());
}

#[test]
fn no_pages_at_all(rt: HostRuntime) {
    let mut pages = Pages::<[u8; 0]>::new();
    let mut answers = [Answer::Given; 2];
    pages.serve(&[Request::Take, Request::GiveBack(0)], &mut answers);
    same!(rt; answers, [Answer::Full, Answer::NotTaken]);
    same!(rt; (pages.pages(), pages.taken(), pages.free()), (0, 0, 0));
    holds!(rt; !pages.is_taken(0));
}

// Takes two pages, and gives the first one back. Returns how many pages there are, how many of them
// are taken and how many are free. Also returns whether page 0, page 1 and the number past the last
// page count as taken.
fn ask_of_two<B: BitsOwned>() -> ([u32; 3], [bool; 3])
    requires { Fits B.indexable B.type_capacity }
{
    let mut pages = Pages::<B>::new();
    let _first = pages.take();
    let _second = pages.take();
    let _back = pages.give_back(0);
    let counts = [pages.pages(), pages.taken(), pages.free()];
    let end = pages.pages();
    (
        counts,
        [pages.is_taken(0), pages.is_taken(1), pages.is_taken(end)],
    )
}

#[test]
fn counts_and_questions(rt: HostRuntime) {
    same!(rt; ask_of_two::<u8>(), ([8, 1, 7], [false, true, false]));
    same!(rt; ask_of_two::<Set<[u8; 3], LittleEndian>>(), ([24, 1, 23], [false, true, false]));
}

#[test]
fn a_map_given_and_taken_back(rt: HostRuntime) {
    let mut pages = Pages::with_taken(0b0000_1011u8);
    same!(rt; pages.taken(), 3);
    same!(rt; pages.take(), Some(2));
    same!(rt; pages.take(), Some(4));
    same!(rt; pages.into_map(), 0b0001_1111);
}

// Requests nine pages, gives page 3 back, and requests one more page.
fn serve_past_the_last<B: BitsOwned>() -> ([Answer; 11], u32)
    requires { Fits B.indexable B.type_capacity }
{
    let mut pages = Pages::<B>::new();
    let mut answers = [Answer::Given; 11];
    let mut requests = [Request::Take; 11];
    requests[9] = Request::GiveBack(3);
    pages.serve(&requests, &mut answers);
    (answers, pages.taken())
}

// Returns what `serve_past_the_last` has to return for a type with eight pages.
fn answers_of_eight() -> ([Answer; 11], u32) {
    let answers = [
        Answer::Page(0),
        Answer::Page(1),
        Answer::Page(2),
        Answer::Page(3),
        Answer::Page(4),
        Answer::Page(5),
        Answer::Page(6),
        Answer::Page(7),
        Answer::Full,
        Answer::Given,
        Answer::Page(3),
    ];
    (answers, 8)
}

#[test]
fn all_pages_taken(rt: HostRuntime) {
    same!(rt; serve_past_the_last::<u8>(), answers_of_eight());
    same!(rt; serve_past_the_last::<Set<i8, LittleEndian>>(), answers_of_eight());
}

// Returns an allocator after two pages were taken and page 0 was given back.
fn with_page_1<B: BitsOwned>() -> Pages<B>
    requires { Fits B.indexable B.type_capacity }
{
    let mut pages = Pages::<B>::new();
    let mut answers = [Answer::Full; 3];
    let requests = [Request::Take, Request::Take, Request::GiveBack(0)];
    pages.serve(&requests, &mut answers);
    pages
}

// Makes two allocators in which page 1 is taken. Returns whether the same pages are taken in both,
// and whether this still holds after one more page of the first is taken.
fn same_and_not<B: BitsOwned, C: BitsOwned>() -> (bool, bool)
    requires first { Fits B.indexable B.type_capacity }
    requires second { Fits C.indexable C.type_capacity }
{
    let (mut first, second) = (with_page_1::<B>(), with_page_1::<C>());
    let same = first.same_pages(&second);
    first.take();
    (same, first.same_pages(&second))
}

#[test]
fn the_same_pages_in_two_orders(rt: HostRuntime) {
    let answers = same_and_not::<u16, Set<[u8; 2], LittleEndian>>();
    same!(rt; answers, (true, false));
}

#[test]
fn the_same_pages_of_fewer_and_more(rt: HostRuntime) {
    let mut few = Pages::<u8>::new();
    let mut many = Pages::<[u8; 4]>::new();
    holds!(rt; few.same_pages(&many));
    for page in 0..8 {
        same!(rt; (few.take(), many.take()), (Some(page), Some(page)));
    }
    holds!(rt; few.same_pages(&many) && many.same_pages(&few));
    same!(rt; (few.take(), many.take()), (None, Some(8)));
    holds!(rt; !few.same_pages(&many));
}

#[test]
fn what_is_not_taken(rt: HostRuntime) {
    let mut pages = Pages::<u8>::new();
    same!(rt; pages.give_back(0), Err(NotTaken));
    same!(rt; pages.take(), Some(0));

    // There is no page 8, and 8 does not wrap to page 0.
    same!(rt; pages.give_back(8), Err(NotTaken));
    same!(rt; pages.taken(), 1);
    same!(rt; pages.give_back(0), Ok(()));
    same!(rt; pages.taken(), 0);
}
