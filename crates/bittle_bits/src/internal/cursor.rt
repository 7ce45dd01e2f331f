//! The position of an iterator, and its steps. The same code serves iterators over set bits and
//! over unset bits, of borrowed and of owned sets.

ghost use Rattle.std.specs.Prelude.{◌≡◌, ◌≢◌, ℕ, ◌+◌, ◌-◌, ◌<◌, cond, [], None, MatchBool};
ghost use Rattle.bittle_bits.specs.Buffers.{buffer_of, items_in};
ghost use Rattle.bittle_bits.specs.PlainSet.{PlainSet};
ghost use Rattle.bittle_bits.specs.Ends.{YieldsFrom};
ghost use Rattle.bittle_bits.specs.Cursor.{walk_at, walk_of, Begins, IsCounted, IsCountedIn};
ghost use Rattle.bittle_bits.specs.Values.{ShapeFits};
ghost use Rattle.bittle_bits.specs.Walk.{AreBelow, ResumesAs, Seeks, Steps};

use crate::end::{Back, End, Front};
use crate::endian::Endian;
use crate::internal::buffer::{Buffers, Count};
use crate::internal::source::Source;
use crate::kind::Kind;
use crate::read_words::ReadWords;
use crate::shape::Shape;

/// The buffered words of an iterator, and the range `low..high` of the words between them, which
/// are not fetched yet.
#[derive(Drop)]
pub struct Cursor<B: Shape, E: Endian> {
    pub buffers: Buffers<B::LeafWord, E>,
    pub low: usize,
    pub high: usize,
    pub items: Count,
    pub passed: Count,
}

/// Begins an iterator. The call leaves out words at both ends if the set knows that they have no
/// item.
///
/// For a type of fixed length, the call loads the first of the remaining words into the head. For a
/// slice it loads no word. So if an iterator over a slice is stepped from one end alone, the
/// compiler drops the buffer of the other end.
#[inline]
pub fn begin<B: ReadWords, E: Endian, K: Kind>(source: &Source<'_, B>) -> Cursor<B, E>
    requires { ShapeFits B.Shape source.now.set.now }
    ensures starts { Begins B.Shape E.Endian K.Kind source.now.set.now result }
    ensures below { AreBelow (B.big source.now.set.now).capacity
        (walk_at B.Shape E.Endian K.Kind source.now.set.now result).remaining }
{
    let words = source.words() as usize;
    let mut passed = Count::new();
    let low = source.pass_over::<K, Front>(0, words, &mut passed);
    let high = source.pass_over::<K, Back>(low, words, &mut passed);
    let mut at = Cursor {
        buffers: Buffers::none(words),
        low,
        high,
        items: Count::new(),
        passed,
    };
    if !B::IS_FIXED || low == high {
        return at;
    }
    at.buffers.load::<B, K, Front>(source, low);
    at.low = low + 1;
    at
}

/// Returns the position of a clone, which is the same. The clone's counts of scans, items and
/// fetches are 0. The words that were fetched before count as passed over.
#[inline]
pub fn duplicate<B: ReadWords, E: Endian>(at: &Cursor<B, E>) -> Cursor<B, E>
    ensures resumes { (s : PlainSet) (words w : ℕ) → IsCounted words at.now
        → ResumesAs (walk_of s words w at.now) (walk_of s words w result) }
    ensures same { result
        ≡ record {
          buffers = record {
            head = at.now.buffers.head;
            tail = at.now.buffers.tail;
            scans = 0;
            fetches = 0;
          };
          low = at.now.low;
          high = at.now.high;
          items = 0;
          passed = at.now.passed + at.now.buffers.fetches;
        } }
{
    Cursor {
        buffers: at.buffers.duplicate(),
        low: at.low,
        high: at.high,
        items: Count::new(),
        passed: at.passed.with(at.buffers.fetches()),
    }
}

// Takes the word at the end `N` of `low..high`, the words between the buffered ones. It returns the
// number of this word.
#[inline(always)]
fn take_word<B: Shape, E: Endian, N: End>(at: &mut Cursor<B, E>) -> usize
    requires { at.old.low < at.old.high }
    ensures number { result ≡ cond N.FRONT at.old.low (at.old.high - 1) }
    ensures taken { at.new
        ≡ record {
          buffers = at.old.buffers;
          low = cond N.FRONT (at.old.low + 1) at.old.low;
          high = cond N.FRONT at.old.high (at.old.high - 1);
          items = at.old.items;
          passed = at.old.passed;
        } }
{
    if N::FRONT {
        at.low += 1;
        at.low - 1
    } else {
        at.high -= 1;
        at.high
    }
}

// Moves the end `N` of `low..high` to `on`. The words of `low..high` are those between the buffered
// ones.
#[inline(always)]
fn move_end<B: Shape, E: Endian, N: End>(at: &mut Cursor<B, E>, on: usize)
    ensures { at.new
        ≡ record {
          buffers = at.old.buffers;
          low = cond N.FRONT on at.old.low;
          high = cond N.FRONT at.old.high on;
          items = at.old.items;
          passed = at.old.passed;
        } }
{
    if N::FRONT {
        at.low = on;
    } else {
        at.high = on;
    }
}

// Passes over words at the end `N` of `low..high`, the words between the buffered ones. The set
// knows that the words passed over have no item, and none of them is fetched.
#[inline(always)]
#[tactic(auto, unfolding(crate::specs::Cursor::items_left_in))]
fn pass_over<B: ReadWords, E: Endian, K: Kind, N: End>(
    source: &Source<'_, B>,
    at: &mut Cursor<B, E>,
)
    requires fits { ShapeFits B.Shape source.now.set.now }
    requires counted { IsCountedIn B.Shape source.now.set.now at.old }
    ensures sought { let walk = walk_at B.Shape E.Endian K.Kind source.now.set.now in
        Seeks (walk at.old) (walk at.new) }
    ensures counted { IsCountedIn B.Shape source.now.set.now at.new }
    ensures buffers { at.new.buffers ≡ at.old.buffers }
{
    let on = source.pass_over::<K, N>(at.low, at.high, &mut at.passed);
    move_end::<B, E, N>(at, on);
}

// Fills the buffer at the end `N` if the buffer has no item. The call takes words from `low..high`,
// drops words without an item, and loads the first word with an item. It returns whether the buffer
// has an item afterwards. If it returns `false`, no word is left in `low..high`.
//
// It calls `pass_over` only after it has fetched a word without an item. A call before each fetch
// would cost an iterator over a dense set one call per word.
#[inline(always)]
#[tactic(auto, unfolding(crate::specs::Cursor::items_left_in))]
fn seek<B: ReadWords, E: Endian, K: Kind, N: End>(
    source: &Source<'_, B>,
    at: &mut Cursor<B, E>,
) -> bool
    requires fits { ShapeFits B.Shape source.now.set.now }
    requires counted { IsCountedIn B.Shape source.now.set.now at.old }
    ensures sought { let walk = walk_at B.Shape E.Endian K.Kind source.now.set.now in
        Seeks (walk at.old) (walk at.new) }
    ensures counted { IsCountedIn B.Shape source.now.set.now at.new }
    ensures told { MatchBool result (items_in (buffer_of N.FRONT at.new.buffers) ≢ [])
        ((buffer_of N.FRONT at.new.buffers ≡ None) × (at.new.low ≡ at.new.high)) }
{
    if !at.buffers.is_exhausted::<N>() {
        return true;
    }
    loop {
        if at.low == at.high {
            return false;
        }
        let k = take_word::<B, E, N>(at);
        if at.buffers.refill::<B, K, N>(source, k) {
            return true;
        }
        pass_over::<B, E, K, N>(source, at);
    }
}

/// Takes the first or the last of the items that remain: the one at the end `N`. It returns `None`
/// if no item remains.
#[inline(always)]
#[tactic(auto, unfolding(crate::specs::Cursor::items_left_in))]
pub fn step<B: ReadWords, E: Endian, K: Kind, N: End>(
    source: &Source<'_, B>,
    at: &mut Cursor<B, E>,
) -> Option<u32>
    requires fits { ShapeFits B.Shape source.now.set.now }
    requires counted { IsCountedIn B.Shape source.now.set.now at.old }
    ensures steps { let walk = walk_at B.Shape E.Endian K.Kind source.now.set.now in
        Steps (YieldsFrom N.FRONT (λ w. w.remaining)) (walk at.old) result (walk at.new) }
    ensures counted { IsCountedIn B.Shape source.now.set.now at.new }
{
    if seek::<B, E, K, N>(source, at) {
        let found = at.buffers.scan::<N>(true);
        if found.is_some() {
            at.items.raise();
        }
        return found;
    }
    // No word is left in `low..high`, so the buffer at the other end has all items that remain.
    let found = at.buffers.scan_across::<N>();
    if found.is_some() {
        at.items.raise();
    }
    found
}
