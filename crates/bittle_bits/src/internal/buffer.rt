//! The buffered words of an iterator. The iterator reads its set only through them. Each fetch of a
//! word, and each scan of a buffered word, is counted. A buffered word is exhausted if it has no
//! item left.

ghost use Rattle.std.specs.Prelude.{◌≡◌, ℕ, ◌+◌, ◌-◌, ◌*◌, ◌<◌, not, cond, false, Some, None};
ghost use Rattle.std.specs.Prelude.{IfSome};
ghost use Rattle.bittle_bits.specs.BitPatterns.{bit_set};
ghost use Rattle.bittle_bits.specs.Buffers.{bits_left, edge_from_first, buffer_count, buffer_of};
ghost use Rattle.bittle_bits.specs.Buffers.{items_held, members_in_word, word_items, HoldsSound};
ghost use Rattle.bittle_bits.specs.Buffers.{Refills, ScansFrom, TellsExhausted};
ghost use Rattle.bittle_bits.specs.Ends.{YieldsPlace};
ghost use Rattle.bittle_bits.specs.Orders.{place, read_in};
ghost use Rattle.bittle_bits.specs.PlainSet.{ascending, full_set};
ghost use Rattle.bittle_bits.specs.Values.{ShapeFits};

use crate::end::{Back, End, Front};
use crate::endian::Endian;
use crate::internal::source::Source;
use crate::kind::Kind;
use crate::one_word;
use crate::read_words::ReadWords;
use crate::word::Word;
use std::marker::{Model, PhantomData};
use std::snapshot::Snapshot;

// A sum of numbers. It holds only snapshots, which take no bytes.
#[derive(Drop)]
enum Sum {
    Of(Snapshot<usize>),
    And(Snapshot<Snapshot<Sum>>, Snapshot<Snapshot<Sum>>),
}

/// A count that only contracts see. It takes no bytes.
#[derive(Drop)]
pub struct Count {
    sum: Snapshot<Sum>,
}

impl Model for Count {
    ghost use Rattle.std.specs.Prelude.{ℕ};

    ghost Value = { ℕ };

    ghost use Rattle.bittle_bits.specs.Count.{sum_of};

    ghost view = { λ c. sum_of c.sum.value };
}

impl Count {
    // Returns a count with the value `number`.
    #[inline(always)]
    fn of(number: usize) -> Count
        ensures { result ≡ number }
    {
        Count {
            sum: Snapshot::of(&Sum::Of(Snapshot::of(&number))),
        }
    }

    /// Returns a count with the value 0.
    pub fn new() -> Count
        ensures { result ≡ 0 }
    {
        Count::of(0)
    }

    /// Returns the sum of two counts.
    #[inline(always)]
    pub fn with(&self, other: &Count) -> Count
        ensures { result ≡ self.now + other.now }
    {
        Count {
            sum: Snapshot::of(&Sum::And(Snapshot::of(&self.sum), Snapshot::of(&other.sum))),
        }
    }

    /// Adds `number` to the count.
    #[inline(always)]
    pub fn add(&mut self, number: usize)
        ensures { self.new ≡ self.old + number }
    {
        *self = self.with(&Count::of(number));
    }

    /// Adds 1 to the count.
    pub fn raise(&mut self)
        ensures { self.new ≡ self.old + 1 }
    {
        self.add(1);
    }
}

const _: () = prove!(size_of::<Count>() == 0);

// A buffer for one word of a set. Its items are the bits that are set in both `word` and `mask`. A
// step may take its item by a new mask, and leave `word` as it is; the next step combines the two.
// `edge` is the index in the set of the word's bit of least weight. From `edge`, the indexes of the
// other bits go up in big-endian order, and down in little-endian order. If no word is loaded, or
// if the word is exhausted, no bit is set in both. So a step tests only these bits; `is_loaded` is
// used only to count scans.
//
// The word stands before the mask. In the other order the compiler makes the mask from a copy of
// the word, with one instruction more.
#[derive(Clone, Copy)]
struct BufferedWord<W: Copy> {
    word: W,
    mask: W,
    edge: u32,
    is_loaded: bool,
}

// Returns how many bits `words` words have: the product of `words` and the width, computed as a
// rotation. With a multiplication, the compiler would update the product in each turn of a loop
// over words, but the product is needed only after the loop.
#[inline(always)]
fn bit_count<W: Word>(words: usize) -> u32
    requires { words * W.width < 4294967296 }
    ensures { result ≡ words * W.width }
{
    words.rotate_left(W::width().trailing_zeros()) as u32
}

// Returns a buffered word for the end `N` with no word loaded. No bit of its word is set, so its
// mask decides nothing. Where a step takes the bit of least weight, the mask is made of a number
// that is no constant: with a constant, the compiler would clear and test by two instructions in
// each step. Where a step takes the bit of greatest weight, each bit of the mask is set, as in a
// loaded word. So the mask is the same in each step, and the compiler drops it.
#[inline(always)]
#[tactic(auto, unfolding(crate::specs::Buffers::buffered_items))]
fn unloaded<W: Word, E: Endian, N: End>(words: usize) -> BufferedWord<W>
    ensures items { items_held W.Word E.Endian result ≡ None }
    ensures sound { HoldsSound W.Word E.Endian result }
{
    let ones = one_word::ones::<W>();
    BufferedWord {
        word: W::zero(),
        mask: if E::is_mirrored() == N::FRONT {
            ones
        } else {
            W::from_bits(words as u128 & ones.to_bits())
        },
        edge: 0,
        is_loaded: false,
    }
}

// Returns word `k` of a set as a buffered word for the end `N`. At the front, the index of the
// word's first bit is computed from `k + 1`, since this number is at hand: it is the new value of
// the cursor's `low`.
#[inline(always)]
fn buffered<W: Word, E: Endian, N: End>(word: W, k: usize) -> BufferedWord<W>
    requires { k * W.width + W.width < 4294967296 }
    ensures items { items_held W.Word E.Endian result
        ≡ Some (word_items W.Word E.Endian word k) }
    ensures sound { HoldsSound W.Word E.Endian result }
{
    let first = if N::FRONT {
        bit_count::<W>(k + 1) - W::width()
    } else {
        bit_count::<W>(k)
    };
    BufferedWord {
        word,
        mask: one_word::ones::<W>(),
        edge: if E::is_mirrored() {
            first + (W::width() - 1)
        } else {
            first
        },
        is_loaded: true,
    }
}

// Clears the bits of a buffered word that are not set in its mask, and sets each bit of the mask.
// The items stay as they are.
#[inline(always)]
fn settle<W: Word>(buffered: &mut BufferedWord<W>)
    ensures word { bit_set W.width (W.pattern buffered.new.word)
        ≡ bits_left W.width W.pattern buffered.old }
    ensures mask { bit_set W.width (W.pattern buffered.new.mask) ≡ full_set W.width }
    ensures edge { buffered.new.edge ≡ buffered.old.edge }
    ensures is_loaded { buffered.new.is_loaded ≡ buffered.old.is_loaded }
{
    buffered.word = buffered.word.and(buffered.mask);
    buffered.mask = one_word::ones::<W>();
}

// Drops a buffered word that has no item. If the word was loaded, the test that found no item
// counts as its last scan.
#[inline(always)]
fn unload<W: Copy>(buffered: &mut BufferedWord<W>, scans: &mut Count)
    ensures dropped { buffered.new ≡ record {
      word = buffered.old.word;
      mask = buffered.old.mask;
      edge = buffered.old.edge;
      is_loaded = false;
    } }
    ensures scans { scans.new ≡ scans.old + cond buffered.old.is_loaded 1 0 }
{
    if buffered.is_loaded {
        scans.raise();
        buffered.is_loaded = false;
    }
}

// Returns the index that the bit at place `at` of a buffered word has in the set. `edge` is the
// index of the word's bit of least weight.
#[inline(always)]
fn index_at<W: Word, E: Endian>(edge: u32, at: u32) -> u32
    requires edge { (first : ℕ) × (edge ≡ first + edge_from_first E.mirrored W.width)
        × (first + W.width < 4294967296) }
    requires within { at < W.width }
    ensures { result
        ≡ edge - edge_from_first E.mirrored W.width + place E.mirrored W.width at }
{
    if E::is_mirrored() {
        edge - at
    } else {
        edge + at
    }
}

// Returns whether a buffered word has no item. A loaded word without an item is dropped, and this
// test counts as its last scan.
#[inline(always)]
fn is_exhausted<W: Word, E: Endian>(buffered: &mut BufferedWord<W>, scans: &mut Count) -> bool
    requires { HoldsSound W.Word E.Endian buffered.old }
    ensures told { TellsExhausted result (items_held W.Word E.Endian buffered.old)
        (items_held W.Word E.Endian buffered.new) }
    ensures scans { scans.new ≡ scans.old + cond result
        (buffer_count (items_held W.Word E.Endian buffered.old)) 0 }
    ensures sound { HoldsSound W.Word E.Endian buffered.new }
{
    let left = buffered.word.and(buffered.mask);
    if !one_word::all_zeros::<W>(left) {
        // Only now, so that a step of an iterator in memory stores its mask once.
        settle(buffered);
        return false;
    }
    unload(buffered, scans);
    true
}

// Takes the item at the end `N` from a buffered word, and returns the place of its bit. It returns
// `None` if the word has no item. If `lazily` is `true`, and the item is the set bit of least
// weight in a word of at most 64 bits, the call leaves this bit to the next call. That call has to
// test the word, and one instruction both clears the bit and tests what is left.
#[inline(always)]
fn pop<W: Word, E: Endian, N: End>(buffered: &mut BufferedWord<W>, lazily: bool) -> Option<u32>
    ensures found { YieldsPlace N.FRONT (place E.mirrored W.width) (λ bits. ascending
        (read_in E.mirrored W.width bits)) (bits_left W.width W.pattern buffered.old) result
        (bits_left W.width W.pattern buffered.new) }
    ensures within { IfSome result (λ at. at < W.width) }
    ensures edge { buffered.new.edge ≡ buffered.old.edge }
    ensures is_loaded { buffered.new.is_loaded ≡ buffered.old.is_loaded }
{
    settle(buffered);
    let is_whole = W::width() < 128;
    if !lazily || !is_whole || E::is_mirrored() == N::FRONT || buffered.word.is_zero() {
        return one_word::pop_place::<W, E, N>(&mut buffered.word);
    }
    buffered.mask = W::from_bits(buffered.word.to_bits() - 1);
    Some(one_word::from_end::<W, E, N>(buffered.word))
}

// Scans a buffered word, and takes its item at the end `N`, `lazily` or not. If it has no item, a
// loaded word is dropped, and the call returns `None`.
#[inline(always)]
fn scan<W: Word, E: Endian, N: End>(
    buffered: &mut BufferedWord<W>,
    lazily: bool,
    scans: &mut Count,
) -> Option<u32>
    requires { HoldsSound W.Word E.Endian buffered.old }
    ensures found { ScansFrom N.FRONT (items_held W.Word E.Endian buffered.old)
        result (items_held W.Word E.Endian buffered.new) }
    ensures scans { scans.new
        ≡ scans.old + buffer_count (items_held W.Word E.Endian buffered.old) }
    ensures sound { HoldsSound W.Word E.Endian buffered.new }
{
    let Some(at) = pop::<W, E, N>(buffered, lazily) else {
        unload(buffered, scans);
        return None;
    };
    scans.raise();
    Some(index_at::<W, E>(buffered.edge, at))
}

/// The two buffered words of an iterator: its head and its tail. An iterator over unset bits holds
/// them with each bit flipped.
///
/// A scan is a call that searches a loaded word. The call yields an item, or it finds that the word
/// is exhausted.
#[derive(Drop)]
pub struct Buffers<W: Word, E: Endian> {
    head: BufferedWord<W>,
    tail: BufferedWord<W>,
    scans: Count,
    fetches: Count,
    order: PhantomData<E>,
}

impl<W: Word, E: Endian> Model for Buffers<W, E> {
    ghost use Rattle.bittle_bits.specs.Buffers.{BufferPair, items_held, HoldsSound};

    ghost Value = { BufferPair };

    ghost view = { λ c. record {
      head = items_held W.Word E.Endian c.head;
      tail = items_held W.Word E.Endian c.tail;
      scans = c.scans;
      fetches = c.fetches;
    } };

    ghost invariant = { λ c. HoldsSound W.Word E.Endian c.head
        × HoldsSound W.Word E.Endian c.tail };
}

impl<W: Word, E: Endian> Buffers<W, E> {
    /// Makes two buffers with no word loaded. The counts of scans and of fetches are 0. The number
    /// of the set's words, `words`, decides nothing; it is a number for the mask of `unloaded`.
    #[inline(always)]
    pub fn none(words: usize) -> Buffers<W, E>
        ensures { result ≡ record { head = None; tail = None; scans = 0; fetches = 0 } }
    {
        Buffers {
            head: unloaded::<W, E, Front>(words),
            tail: unloaded::<W, E, Back>(words),
            scans: Count::new(),
            fetches: Count::new(),
            order: PhantomData,
        }
    }

    /// Returns a copy of the two buffered words. The counts of scans and of fetches of the copy are
    /// 0.
    #[inline(always)]
    pub fn duplicate(&self) -> Buffers<W, E>
        ensures { result
            ≡ record { head = self.now.head; tail = self.now.tail; scans = 0; fetches = 0 } }
    {
        Buffers {
            head: self.head,
            tail: self.tail,
            scans: Count::new(),
            fetches: Count::new(),
            order: PhantomData,
        }
    }

    /// Returns how many scans were made.
    #[inline(always)]
    pub fn scans(&self) -> &Count
        ensures { result.now ≡ self.now.scans }
    {
        &self.scans
    }

    /// Returns how many words were fetched.
    #[inline(always)]
    pub fn fetches(&self) -> &Count
        ensures { result.now ≡ self.now.fetches }
    {
        &self.fetches
    }

    // Puts word `k` of a set into the buffer at the end `N`.
    #[inline(always)]
    fn put<N: End>(&mut self, word: W, k: usize)
        requires { k * W.width + W.width < 4294967296 }
        ensures { let loaded = Some (word_items W.Word E.Endian word k) in
            self.new ≡ record {
              head = cond N.FRONT loaded self.old.head;
              tail = cond N.FRONT self.old.tail loaded;
              scans = self.old.scans;
              fetches = self.old.fetches;
            } }
    {
        if N::FRONT {
            self.head = buffered::<W, E, N>(word, k);
        } else {
            self.tail = buffered::<W, E, N>(word, k);
        }
    }

    // Fetches word `k` of the set. The set bits of the returned word are this word's bits of the
    // kind `K`.
    #[inline(always)]
    fn fetch<B: ReadWords<LeafWord = W>, K: Kind>(&mut self, source: &Source<'_, B>, k: usize) -> W
        requires fits { ShapeFits B.Shape source.now.set.now }
        requires within { k * B.width < (B.big source.now.set.now).capacity }
        ensures items { word_items W.Word E.Endian result k
            ≡ members_in_word B.Shape E.Endian K.Kind source.now.set.now k }
        ensures reach { k * W.width + W.width < 4294967296 }
        ensures counted { self.new ≡ record {
          head = self.old.head;
          tail = self.old.tail;
          scans = self.old.scans;
          fetches = self.old.fetches + 1;
        } }
    {
        source.fetch::<K>(k, &mut self.fetches)
    }

    /// Fetches word `k` of the set, and loads it at the end `N`. The set bits of the loaded word
    /// are the bits of the kind `K` of word `k`.
    #[inline(always)]
    pub fn load<B: ReadWords<LeafWord = W>, K: Kind, N: End>(
        &mut self,
        source: &Source<'_, B>,
        k: usize,
    )
        requires fits { ShapeFits B.Shape source.now.set.now }
        requires within { k * B.width < (B.big source.now.set.now).capacity }
        ensures { let loaded =
            Some (members_in_word B.Shape E.Endian K.Kind source.now.set.now k) in
            self.new ≡ record {
              head = cond N.FRONT loaded self.old.head;
              tail = cond N.FRONT self.old.tail loaded;
              scans = self.old.scans;
              fetches = self.old.fetches + 1;
            } }
    {
        let word = self.fetch::<B, K>(source, k);
        self.put::<N>(word, k);
    }

    /// Fetches word `k` of the set, and returns whether it has an item (a bit of the kind `K`). If
    /// it has one, the word is loaded at the end `N`, as by `load`; the caller has found no word
    /// loaded there. If it has none, the word is not loaded, and this test counts as its only scan.
    #[inline(always)]
    pub fn refill<B: ReadWords<LeafWord = W>, K: Kind, N: End>(
        &mut self,
        source: &Source<'_, B>,
        k: usize,
    ) -> bool
        requires fits { ShapeFits B.Shape source.now.set.now }
        requires within { k * B.width < (B.big source.now.set.now).capacity }
        ensures { Refills N.FRONT
            (members_in_word B.Shape E.Endian K.Kind source.now.set.now k) result
            self.old self.new }
    {
        let word = self.fetch::<B, K>(source, k);
        if one_word::all_zeros::<W>(word) {
            self.scans.raise();
            return false;
        }
        self.put::<N>(word, k);
        true
    }

    // Exchanges the head and the tail.
    #[inline(always)]
    fn exchange(&mut self)
        ensures { self.new ≡ record {
          head = self.old.tail;
          tail = self.old.head;
          scans = self.old.scans;
          fetches = self.old.fetches;
        } }
    {
        // It swaps field by field. A swap of whole structs would send their padding through memory.
        let BufferedWord {
            word,
            mask,
            edge,
            is_loaded,
        } = self.head;
        self.head.word = self.tail.word;
        self.head.mask = self.tail.mask;
        self.head.edge = self.tail.edge;
        self.head.is_loaded = self.tail.is_loaded;
        self.tail.word = word;
        self.tail.mask = mask;
        self.tail.edge = edge;
        self.tail.is_loaded = is_loaded;
    }

    /// Returns whether the word at the end `N` has no item. At the front this word is the head, at
    /// the back it is the tail. A loaded word without an item is dropped, and this test counts as
    /// its last scan.
    #[inline(always)]
    pub fn is_exhausted<N: End>(&mut self) -> bool
        ensures told { TellsExhausted result (buffer_of N.FRONT self.old)
            (buffer_of N.FRONT self.new) }
        ensures scans { self.new.scans
            ≡ self.old.scans + cond result (buffer_count (buffer_of N.FRONT self.old)) 0 }
        ensures other { buffer_of (not N.FRONT) self.new ≡ buffer_of (not N.FRONT) self.old }
        ensures fetches { self.new.fetches ≡ self.old.fetches }
    {
        if N::FRONT {
            is_exhausted::<W, E>(&mut self.head, &mut self.scans)
        } else {
            is_exhausted::<W, E>(&mut self.tail, &mut self.scans)
        }
    }

    /// Scans the word at the end `N`, and takes its item at that end. At the front this word is the
    /// head, at the back it is the tail. If it has no item, a loaded word is dropped, and the call
    /// returns `None`. If `lazily` is `true`, the call may leave it to the next one to clear the
    /// item's bit.
    #[inline(always)]
    pub fn scan<N: End>(&mut self, lazily: bool) -> Option<u32>
        ensures found { ScansFrom N.FRONT (buffer_of N.FRONT self.old) result
            (buffer_of N.FRONT self.new) }
        ensures scans { self.new.scans
            ≡ self.old.scans + buffer_count (buffer_of N.FRONT self.old) }
        ensures other { buffer_of (not N.FRONT) self.new ≡ buffer_of (not N.FRONT) self.old }
        ensures fetches { self.new.fetches ≡ self.old.fetches }
    {
        if N::FRONT {
            scan::<W, E, N>(&mut self.head, lazily, &mut self.scans)
        } else {
            scan::<W, E, N>(&mut self.tail, lazily, &mut self.scans)
        }
    }

    /// Scans the word that is buffered at the end opposite to `N`, and takes from it the item that
    /// is nearest to `N`. The call exchanges head and tail before the scan and after it. Both
    /// exchanges together compile to nothing.
    #[inline(always)]
    pub fn scan_across<N: End>(&mut self) -> Option<u32>
        ensures found { ScansFrom N.FRONT (buffer_of (not N.FRONT) self.old) result
            (buffer_of (not N.FRONT) self.new) }
        ensures scans { self.new.scans
            ≡ self.old.scans + buffer_count (buffer_of (not N.FRONT) self.old) }
        ensures other { buffer_of N.FRONT self.new ≡ buffer_of N.FRONT self.old }
        ensures fetches { self.new.fetches ≡ self.old.fetches }
    {
        self.exchange();
        // Lazily, the compiler would search the word before it tests whether the word has an item.
        // That was slower for a set of one word.
        let found = self.scan::<N>(false);
        self.exchange();
        found
    }
}
