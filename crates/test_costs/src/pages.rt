//! Tests the calls that an allocator makes to its map. To take a page, it searches for a free page
//! and makes one call. To give a page back, it makes two calls: one tests whether the page is
//! taken, and one frees it.

ghost use Rattle.std.specs.Prelude.{◌*◌};
ghost use Rattle.bittle.specs.Shapes.{Fits};

use crate::asked::{Asked, counts};
use crate::checks::{holds, same};
use crate::probe::{ONES, Probe};
use crate::probe_rows::{TWO, costs, row_of};
use bit_pages::{Answer, Pages, Request};
use bittle::{BitsOwned, Shape};
use std::process::Abort;

// What is done with an allocator of 32 pages.
#[derive(Drop)]
enum Use {
    Count,
    Serve,
    Compare,
}

// Makes the calls of `kind` on an allocator with the map `map`. Only a comparison uses `other`.
fn use_pages<B: BitsOwned>(rt: &impl Abort, kind: Use, map: B, other: B)
    requires { Fits B.indexable B.type_capacity }
{
    let pages = Pages::with_taken(map);
    match kind {
        Use::Count => count(rt, pages),
        Use::Serve => serve_three(rt, pages),
        Use::Compare => holds!(*rt; pages.same_pages(&Pages::with_taken(other))),
    }
}

// Does the same as `use_pages` with two maps of `ONES`. Tests for each map how many words are
// fetched, and how many other calls are made.
fn use_ones(rt: &impl Abort, kind: Use, of_ours: (u32, u32), of_theirs: (u32, u32)) {
    let (ours, theirs) = (Asked::new(), Asked::new());
    use_pages(rt, kind, Probe::of(ONES, &ours), Probe::of(ONES, &theirs));
    counts!(*rt; ours, of_ours.0, of_ours.1);
    counts!(*rt; theirs, of_theirs.0, of_theirs.1);
}

// Tests how many pages there are, how many of them are taken, and how many are free.
fn count<B: BitsOwned>(rt: &impl Abort, pages: Pages<B>) {
    same!(*rt; pages.pages(), 32);
    same!(*rt; pages.taken(), 2);
    same!(*rt; pages.free(), 30);
}

#[test]
fn a_map_is_counted_once(rt: HostRuntime) {
    use_ones(&rt, Use::Count, (0, 1), (0, 0));
}

// Serves three requests: give page 0 back, take a page, and give back page 9, which is not taken.
fn serve_three<B: BitsOwned>(rt: &impl Abort, mut pages: Pages<B>) {
    let mut answers = [Answer::Full; 3];
    pages.serve(
        &[Request::GiveBack(0), Request::Take, Request::GiveBack(9)],
        &mut answers,
    );
    holds!(*rt; answers == [Answer::Given, Answer::Page(0), Answer::NotTaken]);
}

#[test]
fn a_run_of_requests_asks_what_each_asks(rt: HostRuntime) {
    use_ones(&rt, Use::Serve, (1, 5), (0, 0));
}

#[test]
fn two_allocators_are_compared_word_by_word(rt: HostRuntime) {
    use_ones(&rt, Use::Compare, (4, 1), (4, 1));
}

// Takes pages 451 and 508, the only free ones of 768 pages. Then gives back pages 100 to 199, which
// lie in words 1 to 3, and takes them again; a second time this is refused at the first word. Then
// gives back page 451. Then page 451 is not taken, and there is no page 768.
fn change_many<B: BitsOwned>(rt: &impl Abort, most: B, asked: &Asked)
    requires { Fits B.indexable B.type_capacity }
{
    costs!(rt; asked, { let _ = Pages::with_taken(most); }, (), 0, 12);
    let mut pages = Pages::with_taken(most);
    asked.restart();
    costs!(rt; asked, pages.take(), Some(451), 8, 1);
    costs!(rt; asked, pages.take_run(1), Some(508), 8, 1);
    costs!(rt; asked, pages.take(), None, 0, 0);
    costs!(rt; asked, pages.is_run_taken(100, 100), true, 3, 0);
    costs!(rt; asked, pages.give_back_run(100, 100).is_ok(), true, 3, 3);
    costs!(rt; asked, pages.is_run_free(100, 100), true, 3, 0);
    costs!(rt; asked, pages.take_run_at(100, 100), true, 3, 3);
    holds!(*rt; !pages.take_run_at(100, 100) && !pages.is_run_free(100, 100));
    counts!(*rt; asked, 2, 0);
    asked.restart();
    costs!(rt; asked, pages.give_back(451).is_ok(), true, 0, 2);
    costs!(rt; asked, pages.is_taken(451), false, 0, 1);
    costs!(rt; asked, pages.give_back(451).is_err(), true, 0, 1);
    costs!(rt; asked, pages.give_back(768).is_err(), true, 0, 0);
}

// Does the same as `change_many` for a row of any element type. For `[T; 12]` the calls are proved
// in less time than for `[WordProbe; 12]`.
fn change_many_of_any_row<T: BitsOwned>(rt: &impl Abort, most: [T; 12], asked: &Asked)
    requires { Fits ⟦<[T; 12] as Shape>⟧.indexable (12 * T.type_capacity) }
{
    change_many(rt, most, asked);
}

#[test]
fn a_run_of_pages_is_tested_and_changed_word_by_word(rt: HostRuntime) {
    let asked = Asked::new();
    change_many_of_any_row(&rt, row_of(!0, !TWO, &asked), &asked);
}
