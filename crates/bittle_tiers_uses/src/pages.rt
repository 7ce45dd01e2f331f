//! Allocators over maps with a summary of their free pages.

ghost use Rattle.std.specs.Prelude.{◌≡◌, length, IsTrue};
ghost use Rattle.bit_pages.specs.Pages.{request_answers};
ghost use Rattle.bittle.specs.BitPatterns.{bit_set};
ghost use Rattle.bittle.specs.PlainSet.{empty_set, full_set, size, without_index};
ghost use Rattle.bittle.specs.Rows.{row_set};

use bit_pages::{Answer, Pages, Request};
use bittle::BitsOwned;
use bittle_tiers::prelude::*;

/// Lets an allocator of 4,096 pages serve `requests`. One word shows which words of the map have a
/// free page.
pub fn serve(requests: &[Request], answers: &mut [Answer])
    requires { length answers.old ≡ length requests.now }
    ensures { answers.new ≡ request_answers (empty_set 4096) requests.now }
{
    let mut pages = Pages::<Tiered4K<Zeros>>::new();
    pages.serve(requests, answers);
}

/// Lets an allocator serve `requests`. All its pages are free at first. Its map may be any set that
/// fits, with a summary or without one.
pub fn serve_any<B: BitsOwned>(requests: &[Request], answers: &mut [Answer])
    requires fits { IsTrue B.indexable }
    requires room { length answers.old ≡ length requests.now }
    ensures { answers.new ≡ request_answers (empty_set B.type_capacity) requests.now }
{
    let mut pages = Pages::<B>::new();
    pages.serve(requests, answers);
}

/// Lets an allocator of 262,144 pages serve `requests`. Its map has a summary, and the summary has
/// a summary itself.
pub fn serve_large(requests: &[Request], answers: &mut [Answer])
    requires { length answers.old ≡ length requests.now }
    ensures { answers.new ≡ request_answers (empty_set 262144) requests.now }
{
    serve_any::<Tiered256K<Zeros>>(requests, answers);
}

/// Lets an allocator serve `requests`. Its map has two summaries: one of its set bits, and one of
/// its unset bits. A map with one summary may get a second one.
pub fn serve_either(requests: &[Request], answers: &mut [Answer])
    requires { length answers.old ≡ length requests.now }
    ensures { answers.new ≡ request_answers (empty_set 4096) requests.now }
{
    serve_any::<Tiered<Tiered4K<Ones>, u64, Zeros>>(requests, answers);
}

/// Counts the taken pages of a new map of 4,096 pages. There are none.
pub fn taken_at_first() -> u32
    ensures { result ≡ 0 }
{
    Tiered4K::<Zeros>::default().count_ones()
}

/// Counts the taken pages of a map that is given as words.
pub fn taken(words: [u64; 64]) -> u32
    ensures { result ≡ size (row_set 64 64 (bit_set 64) words) }
{
    Tiered4K::<Zeros>::new(words).count_ones()
}

/// Returns a map in which all pages but `page` are taken. An allocator with this map hands out
/// `page`. A `page` of 4,096 or more wraps.
pub fn all_but(page: u32) -> Tiered4K<Zeros>
    ensures { row_set 64 64 (bit_set 64) result.map ≡ without_index (full_set 4096) page }
{
    let mut map = Tiered4K::<Zeros>::ones();
    map.clear_bit(page);
    map
}
