//! An allocator of pages over any owned set.
#![tactic(auto)]

ghost use Rattle.std.specs.Option.{is_some};
ghost use Rattle.std.specs.Prelude.{◌≡◌, ◌≢◌, ℕ, ◌+◌, ◌-◌, ◌<◌, ◌≤◌, ◌↔◌, cond, length, true};
ghost use Rattle.std.specs.Prelude.{false, slice_index_or};
ghost use Rattle.std.specs.Prelude.{IfSome, IsSome, IsTrue, IsOk, MatchOption, Some, is_ok};
ghost use Rattle.bittle.specs.Comparison.{AreSame};
ghost use Rattle.bittle.specs.PlainSet.{complement, empty_set, is_in_span, size, with_span};
ghost use Rattle.bittle.specs.PlainSet.{without_span};
ghost use Rattle.bittle.specs.Searches.{NoneIn};
ghost use Rattle.bittle.specs.Shapes.{Fits};
ghost use Rattle.bittle.specs.Values.{set_in};
ghost use Rattle.bit_pages.specs.PageLaws.{IsLeastFree};
ghost use Rattle.bit_pages.specs.Pages.{is_taken, is_free_page, least_free, with_page, answer_to};
ghost use Rattle.bit_pages.specs.Pages.{state_after};
ghost use Rattle.bit_pages.specs.Pages.{first_free_run, is_run_free, is_run_taken};
ghost use Rattle.bit_pages.specs.Pages.{request_answers, final_state};
ghost use Rattle.bittle_ext.specs.Runs.{IsFirstRun, IsRun};

#[doc(hidden)]
pub mod page_laws;

use bittle::{Bits, BitsOwned, Set, Shape};
use bittle_ext::{BitsExt, BitsMutExt};
use std::error::Error;
use std::fmt;

/// A request to an allocator.
#[derive(Clone, Copy, Debug, PartialEq, Eq)]
pub enum Request {
    /// Asks for a page: answered by [`Answer::Page`] or [`Answer::Full`].
    Take,
    /// Asks for a page that you choose: answered by [`Answer::Page`] or [`Answer::NotFree`].
    TakeAt(u32),
    /// Gives a page back: answered by [`Answer::Given`] or [`Answer::NotTaken`].
    GiveBack(u32),
    /// Asks for a run of neighbouring pages, by its length: answered by [`Answer::Run`] or
    /// [`Answer::NoRun`].
    TakeRun(u32),
    /// Asks for a run of pages that you choose, by its first page and its length: answered by
    /// [`Answer::Run`] or [`Answer::NotFree`].
    TakeRunAt(u32, u32),
    /// Gives a run of pages back, by its first page and its length: answered by [`Answer::Given`]
    /// or [`Answer::NotTaken`].
    GiveBackRun(u32, u32),
}

/// The answer to a request.
#[derive(Clone, Copy, Debug, PartialEq, Eq)]
pub enum Answer {
    /// The page that was taken.
    Page(u32),
    /// All pages are taken.
    Full,
    /// The page that was asked for, or one page of the run, is taken or does not exist, or the run
    /// ends past the last page.
    NotFree,
    /// The page, or the run of pages, is free again.
    Given,
    /// The page, or one page of the run, was not taken, or the run ends past the last page.
    NotTaken,
    /// The least page of the run that was taken.
    Run(u32),
    /// No run of the length that was asked for is free.
    NoRun,
}

/// The error of a call that gives back a page that is not taken, alone or in a run of pages.
#[derive(Clone, Copy, Debug, PartialEq, Eq)]
pub struct NotTaken;

impl fmt::Display for NotTaken {
    ghost use Rattle.std.specs.Prelude.{Some, codes};

    ghost output = { λ _. Some (codes "the page is not taken") };

    fn fmt<W: fmt::Write>(&self, f: &mut fmt::Formatter<W>) -> fmt::Result {
        f.write_str("the page is not taken")
    }
}

impl Error for NotTaken {}

/// An allocator of pages. The pages are the numbers below the capacity of `B`.
///
/// The type guarantees that `B` fits: `B::bits()` is below `u32::MAX`. It also keeps a count of the
/// pages that are taken, and guarantees that this count is right.
#[derive(Drop)]
pub struct Pages<B: BitsOwned> {
    // A page is taken if its bit is set. The indexes follow the bit order of `B`.
    map: B,
    count: u32,
    pub ghost fits: { Fits B.indexable B.type_capacity },
    pub ghost counted: { count ≡ size (set_in B.Shape B.Order.Endian map) },
}

impl<B: BitsOwned> Pages<B> {
    /// Returns an allocator in which no page is taken. The type has to fit: `B::bits() < u32::MAX`
    /// checks this. With capacity 0 there is no page.
    pub fn new() -> Pages<B>
        requires { IsTrue B.indexable }
        ensures pages { set_in B.Shape B.Order.Endian result.map ≡ empty_set B.type_capacity }
        ensures count { size (set_in B.Shape B.Order.Endian result.map) ≡ 0 }
    {
        Pages::with_taken(B::zeros())
    }

    /// Returns an allocator in which a page is taken if its bit is set in `map`. The indexes follow
    /// the bit order of `B`. The type has to fit, as for [`new`](Pages::new). The call counts the
    /// set bits, which costs O(words).
    pub fn with_taken(map: B) -> Pages<B>
        requires { IsTrue B.indexable }
        ensures set { set_in B.Shape B.Order.Endian result.map
            ≡ set_in B.Shape B.Order.Endian map }
        ensures map { result.map ≡ map }
    {
        Pages {
            map,
            count: map.count_ones(),
        }
    }

    /// Lends the map of the pages that are taken. A loop over its set bits visits these pages.
    pub fn map(&self) -> &B
        ensures map { result.now ≡ self.now.map }
        ensures capacity { (B.big result.now).capacity ≡ B.type_capacity }
    {
        &self.map
    }

    /// Returns the map of the pages that are taken.
    pub fn into_map(self) -> B
        ensures { result ≡ self.map }
    {
        self.map
    }

    /// Takes the least page that is free and returns it. If all pages are taken, the call changes
    /// nothing and returns `None`; with capacity 0 this is always so. The call reads the map up to
    /// the page, or nothing if all pages are taken.
    ///
    /// With `Pages::with_taken(0b1011u8)`, `take()` returns `Some(2)`, and then `Some(4)`.
    pub fn take(&mut self) -> Option<u32>
        ensures page { result ≡ least_free (set_in B.Shape B.Order.Endian self.old.map) }
        ensures found { let before = set_in B.Shape B.Order.Endian self.old.map in
            MatchOption result (size before ≡ B.type_capacity) (IsLeastFree before) }
        ensures succeeds { size (set_in B.Shape B.Order.Endian self.old.map) < B.type_capacity
            → IsSome result }
        ensures had_room { IfSome result
            (λ _. size (set_in B.Shape B.Order.Endian self.old.map) < B.type_capacity) }
        ensures below { IfSome result (λ page. page < B.type_capacity) }
        ensures was_free { IfSome result
            (λ page. is_taken (set_in B.Shape B.Order.Endian self.old.map) page ≡ false) }
        ensures taken { IfSome result
            (λ page. is_taken (set_in B.Shape B.Order.Endian self.new.map) page ≡ true) }
        ensures count { size (set_in B.Shape B.Order.Endian self.new.map)
            ≡ size (set_in B.Shape B.Order.Endian self.old.map) + cond (is_some result) 1 0 }
        ensures others { (page : ℕ) → result ≢ Some page
            → is_taken (set_in B.Shape B.Order.Endian self.new.map) page
            ≡ is_taken (set_in B.Shape B.Order.Endian self.old.map) page }
        ensures pages { set_in B.Shape B.Order.Endian self.new.map
            ≡ state_after (set_in B.Shape B.Order.Endian self.old.map) Request.Take }
    {
        let pages = B::bits();
        if self.count == pages {
            return None;
        }
        let page = self.map.first_zero_in::<B::Order>(0, pages)?;
        self.map.set_bit(page);
        self.count += 1;
        Some(page)
    }

    /// Takes a page that you choose, and returns `true`. If the page is taken, the call changes
    /// nothing and returns `false`. A number past the last page is no page, and does not wrap: the
    /// call changes nothing and returns `false`. It costs O(1).
    ///
    /// After `Pages::<u8>::new()`, `take_at(5)` returns `true` once and then `false`; `take_at(8)`
    /// returns `false`.
    pub fn take_at(&mut self, page: u32) -> bool
        ensures free { let before = set_in B.Shape B.Order.Endian self.old.map in
            IsTrue result ↔ ((page < B.type_capacity) × (is_taken before page ≡ false)) }
        ensures had_room { IsTrue result
            → size (set_in B.Shape B.Order.Endian self.old.map) < B.type_capacity }
        ensures below { IsTrue result → page < B.type_capacity }
        ensures taken { page < B.type_capacity
            → is_taken (set_in B.Shape B.Order.Endian self.new.map) page ≡ true }
        ensures count { size (set_in B.Shape B.Order.Endian self.new.map)
            ≡ size (set_in B.Shape B.Order.Endian self.old.map) + cond result 1 0 }
        ensures others { (other : ℕ) → other ≢ page
            → is_taken (set_in B.Shape B.Order.Endian self.new.map) other
            ≡ is_taken (set_in B.Shape B.Order.Endian self.old.map) other }
        ensures pages { let before = set_in B.Shape B.Order.Endian self.old.map in
            set_in B.Shape B.Order.Endian self.new.map
            ≡ cond result (with_page before page) before }
        ensures whole { result
            ≡ is_free_page (set_in B.Shape B.Order.Endian self.old.map) page }
        ensures state { set_in B.Shape B.Order.Endian self.new.map
            ≡ state_after (set_in B.Shape B.Order.Endian self.old.map) (Request.TakeAt page) }
    {
        if page >= B::bits() || self.is_taken(page) {
            return false;
        }
        self.map.set_bit(page);
        self.count += 1;
        true
    }

    /// Makes a page free again. If the page is not taken, the call changes nothing and returns
    /// `Err`. A number past the last page is no page, and does not wrap. It costs O(1).
    ///
    /// After `take()` returns `Some(0)`, `give_back(0)` returns `Ok(())` once and then
    /// `Err(NotTaken)`.
    pub fn give_back(&mut self, page: u32) -> Result<(), NotTaken>
        ensures taken { IsOk result
            ↔ IsTrue (is_taken (set_in B.Shape B.Order.Endian self.old.map) page) }
        ensures below { IsOk result → page < B.type_capacity }
        ensures free { is_taken (set_in B.Shape B.Order.Endian self.new.map) page ≡ false }
        ensures count { size (set_in B.Shape B.Order.Endian self.old.map)
            ≡ size (set_in B.Shape B.Order.Endian self.new.map) + cond (is_ok result) 1 0 }
        ensures others { (other : ℕ) → other ≢ page
            → is_taken (set_in B.Shape B.Order.Endian self.new.map) other
            ≡ is_taken (set_in B.Shape B.Order.Endian self.old.map) other }
        ensures pages { set_in B.Shape B.Order.Endian self.new.map
            ≡ state_after (set_in B.Shape B.Order.Endian self.old.map) (Request.GiveBack page) }
        ensures whole { is_ok result
            ≡ is_taken (set_in B.Shape B.Order.Endian self.old.map) page }
        ensures room { IsOk result
            → size (set_in B.Shape B.Order.Endian self.new.map) < B.type_capacity }
        ensures leaves_room { page < B.type_capacity
            → size (set_in B.Shape B.Order.Endian self.new.map) < B.type_capacity }
    {
        if !self.is_taken(page) {
            return Err(NotTaken);
        }
        self.map.clear_bit(page);
        self.count -= 1;
        Ok(())
    }

    /// Takes the first run of `length` neighbouring free pages, and returns the least of them. If
    /// there is no such run, the call changes nothing and returns `None`. With `length` 0 it takes
    /// nothing and returns 0, even if all pages are taken or the capacity is 0.
    ///
    /// If `length` is at most the width of four words, the call reads each word once, up to the end
    /// of the run. If `length` is greater, each free run that is too short costs two searches of
    /// words.
    ///
    /// With `Pages::with_taken(0b0100_1001u8)`, `take_run(2)` returns `Some(1)` and then `Some(4)`;
    /// `take_run(3)` returns `None`.
    pub fn take_run(&mut self, length: u32) -> Option<u32>
        ensures run { IsFirstRun (complement (set_in B.Shape B.Order.Endian self.old.map)) 0 length
            result }
        ensures had_room { IfSome result
            (λ _. size (set_in B.Shape B.Order.Endian self.old.map) + length ≤ B.type_capacity) }
        ensures within { IfSome result (λ first. first + length ≤ B.type_capacity) }
        ensures were_free { IfSome result (λ first.
            NoneIn (set_in B.Shape B.Order.Endian self.old.map) first (first + length)) }
        ensures taken { IfSome result
            (λ first. IsRun (set_in B.Shape B.Order.Endian self.new.map) length first) }
        ensures count { size (set_in B.Shape B.Order.Endian self.new.map)
            ≡ size (set_in B.Shape B.Order.Endian self.old.map) + cond (is_some result) length 0 }
        ensures others { (page : ℕ)
            → IfSome result (λ first. is_in_span first (first + length) page ≡ false)
            → is_taken (set_in B.Shape B.Order.Endian self.new.map) page
            ≡ is_taken (set_in B.Shape B.Order.Endian self.old.map) page }
        ensures pages { let before = set_in B.Shape B.Order.Endian self.old.map in
            let after = set_in B.Shape B.Order.Endian self.new.map in
            MatchOption result
            (after ≡ before)
            (λ first. after ≡ with_span before first (first + length)) }
        ensures first { result
            ≡ first_free_run (set_in B.Shape B.Order.Endian self.old.map) length }
        ensures state { set_in B.Shape B.Order.Endian self.new.map
            ≡ state_after (set_in B.Shape B.Order.Endian self.old.map) (Request.TakeRun length) }
    {
        let first = self.map.take_first_zero_run(length)?;
        self.count += length;
        Some(first)
    }

    /// Takes the `length` pages from `first` on, and returns `true`. If one of these numbers is not
    /// a free page, the call changes nothing and returns `false`. A number past the last page is no
    /// page, and does not wrap. With `length` 0 nothing is taken, and the call returns `true`
    /// exactly if `first` is at most the number of pages.
    ///
    /// The words of the run are read up to the first page that is taken. If there is none, they are
    /// written.
    ///
    /// After `Pages::<u8>::new()`, `take_run_at(5, 3)` returns `true` once and then `false`;
    /// `take_run_at(5, 4)` returns `false`.
    pub fn take_run_at(&mut self, first: u32, length: u32) -> bool
        ensures free { IsTrue result
            ↔ IsRun (complement (set_in B.Shape B.Order.Endian self.old.map)) length first }
        ensures had_room { IsTrue result
            → size (set_in B.Shape B.Order.Endian self.old.map) + length ≤ B.type_capacity }
        ensures within { IsTrue result → first + length ≤ B.type_capacity }
        ensures taken { IsTrue result
            → IsRun (set_in B.Shape B.Order.Endian self.new.map) length first }
        ensures count { size (set_in B.Shape B.Order.Endian self.new.map)
            ≡ size (set_in B.Shape B.Order.Endian self.old.map) + cond result length 0 }
        ensures others { (page : ℕ) → is_in_span first (first + length) page ≡ false
            → is_taken (set_in B.Shape B.Order.Endian self.new.map) page
            ≡ is_taken (set_in B.Shape B.Order.Endian self.old.map) page }
        ensures pages { let before = set_in B.Shape B.Order.Endian self.old.map in
            set_in B.Shape B.Order.Endian self.new.map
            ≡ cond result (with_span before first (first + length)) before }
        ensures whole { result
            ≡ is_run_free (set_in B.Shape B.Order.Endian self.old.map) first length }
        ensures state { set_in B.Shape B.Order.Endian self.new.map
            ≡ state_after (set_in B.Shape B.Order.Endian self.old.map)
            (Request.TakeRunAt first length) }
    {
        if !self.is_run_free(first, length) {
            return false;
        }
        let end = first + length;
        self.map.set_range(first, end);
        self.count += end - first;
        true
    }

    /// Frees the `length` pages from `first` on. If one of these numbers is not a taken page, the
    /// call changes nothing and returns `Err`. A number past the last page is no page, and does not
    /// wrap. With `length` 0 nothing is freed, and the call returns `Err` exactly if `first` is
    /// greater than the number of pages.
    ///
    /// The words of the run are read up to the first page that is free. If there is none, they are
    /// written.
    pub fn give_back_run(&mut self, first: u32, length: u32) -> Result<(), NotTaken>
        ensures taken { IsOk result
            ↔ IsRun (set_in B.Shape B.Order.Endian self.old.map) length first }
        ensures within { IsOk result → first + length ≤ B.type_capacity }
        ensures free { IsOk result
            → NoneIn (set_in B.Shape B.Order.Endian self.new.map) first (first + length) }
        ensures count { size (set_in B.Shape B.Order.Endian self.old.map)
            ≡ size (set_in B.Shape B.Order.Endian self.new.map) + cond (is_ok result) length 0 }
        ensures others { (page : ℕ) → is_in_span first (first + length) page ≡ false
            → is_taken (set_in B.Shape B.Order.Endian self.new.map) page
            ≡ is_taken (set_in B.Shape B.Order.Endian self.old.map) page }
        ensures pages { let before = set_in B.Shape B.Order.Endian self.old.map in
            set_in B.Shape B.Order.Endian self.new.map
            ≡ cond (is_ok result) (without_span before first (first + length)) before }
        ensures whole { is_ok result
            ≡ is_run_taken (set_in B.Shape B.Order.Endian self.old.map) first length }
        ensures state { set_in B.Shape B.Order.Endian self.new.map
            ≡ state_after (set_in B.Shape B.Order.Endian self.old.map)
            (Request.GiveBackRun first length) }
        ensures room { IsOk result
            → size (set_in B.Shape B.Order.Endian self.new.map) + length ≤ B.type_capacity }
    {
        if !self.is_run_taken(first, length) {
            return Err(NotTaken);
        }
        self.map.clear_range(first, first + length);
        self.count -= length;
        Ok(())
    }

    /// Returns whether each of the `length` numbers from `first` on is a page that is taken. With
    /// `length` 0 it returns `true` exactly if `first` is at most the number of pages. The words of
    /// the run are read up to the first page that is free.
    pub fn is_run_taken(&self, first: u32, length: u32) -> bool
        ensures taken { IsTrue result
            ↔ IsRun (set_in B.Shape B.Order.Endian self.now.map) length first }
        ensures within { IsTrue result → first + length ≤ B.type_capacity }
        ensures whole { result
            ≡ is_run_taken (set_in B.Shape B.Order.Endian self.now.map) first length }
    {
        let Some(end) = first.checked_add(length) else {
            return false;
        };
        end <= B::bits() && self.map.all_in_range(first, end)
    }

    /// Returns whether each of the `length` numbers from `first` on is a page that is free. With
    /// `length` 0 it returns `true` exactly if `first` is at most the number of pages. The words of
    /// the run are read up to the first page that is taken.
    ///
    /// With `Pages::with_taken(0b0001_0000u8)`, `is_run_free(5, 3)` is `true`; `is_run_free(4, 2)`
    /// and `is_run_free(6, 3)` are `false`.
    pub fn is_run_free(&self, first: u32, length: u32) -> bool
        ensures free { IsTrue result
            ↔ IsRun (complement (set_in B.Shape B.Order.Endian self.now.map)) length first }
        ensures within { IsTrue result → first + length ≤ B.type_capacity }
        ensures whole { result
            ≡ is_run_free (set_in B.Shape B.Order.Endian self.now.map) first length }
    {
        let Some(end) = first.checked_add(length) else {
            return false;
        };
        end <= B::bits() && !self.map.any_in_range(first, end)
    }

    /// Returns whether the number is a page, and taken. A number past the last page is no page. It
    /// costs O(1).
    // In the map, a number past the last page would wrap to a page.
    pub fn is_taken(&self, page: u32) -> bool
        ensures value { result ≡ is_taken (set_in B.Shape B.Order.Endian self.now.map) page }
        ensures below { IsTrue result → page < B.type_capacity }
    {
        page < B::bits() && self.map.test_bit(page)
    }

    /// Returns how many pages there are.
    pub fn pages(&self) -> u32
        ensures { result ≡ B.type_capacity }
    {
        B::bits()
    }

    /// Returns how many pages are taken. It costs O(1).
    pub fn taken(&self) -> u32
        ensures value { result ≡ size (set_in B.Shape B.Order.Endian self.now.map) }
        ensures at_most { result ≤ B.type_capacity }
    {
        self.count
    }

    /// Returns how many pages are free. It costs O(1).
    pub fn free(&self) -> u32
        ensures value { result
            ≡ B.type_capacity - size (set_in B.Shape B.Order.Endian self.now.map) }
        ensures at_most { result ≤ B.type_capacity }
    {
        B::bits() - self.count
    }

    /// Returns whether both allocators have the same pages taken. One may have more pages than the
    /// other. The call copies the map of this allocator, and compares the maps.
    pub fn same_pages<C: BitsOwned>(&self, other: &Pages<C>) -> bool
        ensures { IsTrue result ↔ AreSame
            (set_in B.Shape B.Order.Endian self.now.map)
            (set_in C.Shape C.Order.Endian other.now.map) }
    {
        Set::<B, B::Order>::new_in(self.map).eq_bits(&other.map)
    }

    // Answers one request.
    fn answer(&mut self, request: Request) -> Answer
        ensures answer { result ≡ answer_to (set_in B.Shape B.Order.Endian self.old.map) request }
        ensures pages { set_in B.Shape B.Order.Endian self.new.map
            ≡ state_after (set_in B.Shape B.Order.Endian self.old.map) request }
    {
        match request {
            Request::Take => match self.take() {
                Some(page) => Answer::Page(page),
                None => Answer::Full,
            },
            Request::TakeAt(page) => {
                if self.take_at(page) {
                    Answer::Page(page)
                } else {
                    Answer::NotFree
                }
            }
            Request::GiveBack(page) => match self.give_back(page) {
                Ok(()) => Answer::Given,
                Err(NotTaken) => Answer::NotTaken,
            },
            Request::TakeRun(length) => match self.take_run(length) {
                Some(first) => Answer::Run(first),
                None => Answer::NoRun,
            },
            Request::TakeRunAt(first, length) => {
                if self.take_run_at(first, length) {
                    Answer::Run(first)
                } else {
                    Answer::NotFree
                }
            }
            Request::GiveBackRun(first, length) => match self.give_back_run(first, length) {
                Ok(()) => Answer::Given,
                Err(NotTaken) => Answer::NotTaken,
            },
        }
    }

    /// Serves the requests in their order, and writes an answer to each. `answers` has to be as
    /// long as `requests`. Each page that is answered is below the number of pages, and each run
    /// that is answered ends at or below it.
    pub fn serve(&mut self, requests: &[Request], answers: &mut [Answer])
        requires { length answers.old ≡ length requests.now }
        ensures answers { answers.new
            ≡ request_answers (set_in B.Shape B.Order.Endian self.old.map) requests.now }
        ensures below { (i page : ℕ) (d : Answer) → i < length answers.new
            → slice_index_or answers.new i d ≡ Answer.Page page → page < B.type_capacity }
        ensures within { (i first n : ℕ) (d : Request) (e : Answer)
            → i < length answers.new
            → slice_index_or requests.now i d ≡ Request.TakeRun n
            → slice_index_or answers.new i e ≡ Answer.Run first
            → first + n ≤ B.type_capacity }
        ensures within_at { (i at first n : ℕ) (d : Request) (e : Answer)
            → i < length answers.new
            → slice_index_or requests.now i d ≡ Request.TakeRunAt at n
            → slice_index_or answers.new i e ≡ Answer.Run first
            → first + n ≤ B.type_capacity }
        ensures pages { set_in B.Shape B.Order.Endian self.new.map
            ≡ final_state (set_in B.Shape B.Order.Endian self.old.map) requests.now }
    {
        for i in 0..requests.len() {
            answers[i] = self.answer(requests[i]);
        }
    }
}
