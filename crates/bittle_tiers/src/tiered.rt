//! A set with a summary of its words.

ghost use Rattle.std.specs.Cmp.{partial_equiv_from_equiv, on_equiv};
ghost use Rattle.std.specs.Ordering.{on};
ghost use Rattle.std.specs.Prelude.{◌≡◌, IsTrue, Some, ⊤};
ghost use Rattle.bittle.specs.DebugText.{set_text};
ghost use Rattle.bittle.specs.Rows.{with_bit};
ghost use Rattle.bittle.specs.Values.{set_in};
ghost use Rattle.bittle_tiers.specs.Tiers.{can_summarize, Summarizes};
ghost use Rattle.bittle_tiers.specs.TierLaws.{map_indexable};

use crate::upkeep;
use bittle::set::debug::write_all;
use bittle_bits::bits::Bits;
use bittle_bits::bits_mut::BitsMut;
use bittle_bits::bits_owned::BitsOwned;
use bittle_bits::endian::Endian;
use bittle_bits::extension::{
    End, FixedCapacity, Kind, Ones, Operation, RangeOperation, ReadWords, Sealed, Zeros, word_width,
};
use bittle_bits::shape::Shape;
use std::alloc::AllocError;
use std::fmt;
use std::marker::PhantomData;

/// A map, which is a set, with a summary of its words. The summary is a set itself: number `k` is a
/// member exactly if word `k` of the map has a bit of the kind `K` (a set bit for [`Ones`], an
/// unset bit for [`Zeros`]). A `Tiered` stands for the same set as its map, so each call has the
/// same effect and the same result as on the map.
///
/// With [`Ones`] it is for sparse sets: an iterator over the set bits, or a search for one, reads
/// the words that have a set bit. Before each of these it reads at most one word without a set bit.
/// With [`Zeros`] it is for allocators: a search finds the least free page of a nearly full map.
/// With either kind, a change of one bit also writes one bit of the summary.
///
/// The summary may have a summary itself. Use the kind [`Ones`] for that second summary, since a
/// search looks for the set bits of the first one.
///
/// The summary needs one bit for each word of the map. If it has too few bits, the type does not
/// fit: `bits()` returns `u32::MAX`, and no call makes a value.
///
/// The types of the usual sizes, `Tiered4K`, `Tiered64K` and `Tiered256K`, also have `from(map)`
/// and `default()`.
///
/// ```
/// let mut taken = Tiered::<[u64; 64], u64, Zeros>::ones();
/// taken.clear_bit(4000);
/// taken.iter_zeros().next();                          // Some(4000)
/// Tiered::<[u64; 64], u32, Zeros>::bits();            // u32::MAX: 64 words, but only 32 bits
/// ```
#[derive(Drop)]
pub struct Tiered<B: Shape, S: Shape, K: Kind> {
    map: B,
    summary: S,
    kind: PhantomData<K>,
    pub ghost fits: { IsTrue
        (can_summarize B.indexable S.indexable B.type_capacity S.type_capacity B.width) },
    pub ghost tells: { Summarizes K.ONES B.width (B.big map) (S.big summary) },
}

impl<B: Shape, S: Shape, K: Kind> Shape for Tiered<B, S, K> {
    type LeafWord = B::LeafWord;

    ghost width = { B.width };

    ghost indexable = { can_summarize B.indexable S.indexable B.type_capacity S.type_capacity
        B.width };

    ghost big = { λ t. B.big t.map };

    ghost type_capacity = { B.type_capacity };

    const SEAL: Sealed = Sealed {};
}

impl<B: BitsOwned, S: BitsOwned, K: Kind> Tiered<B, S, K> {
    /// Makes the summary of `map`, and returns the two together.
    ///
    /// The shape has to fit: `bits()` is below `u32::MAX`. The call reads each word of the map.
    ///
    /// ```
    /// Tiered::<[u64; 2], u8, Ones>::new([0, 1]).iter_ones();          // yields 64
    /// ```
    pub fn new(map: B) -> Tiered<B, S, K>
        requires { IsTrue ⟦<Tiered<B, S, K> as Shape>⟧.indexable }
        ensures { result.map ≡ map }
    {
        let mut summary = S::zeros();
        upkeep::rebuild::<B, S, K>(&map, &mut summary);
        Tiered {
            map,
            summary,
            kind: PhantomData,
        }
    }

    /// Returns the map.
    ///
    /// Always callable. The call costs O(1).
    ///
    /// ```
    /// Tiered::<[u64; 2], u8, Ones>::new([0, 1]).map()[1];             // 1
    /// ```
    #[inline]
    pub fn map(&self) -> &B
        ensures { result.now ≡ self.now.map }
    {
        &self.map
    }

    /// Returns the map without its summary.
    ///
    /// Always callable. The call costs O(1), plus the time to move the map.
    ///
    /// ```
    /// Tiered::<[u64; 2], u8, Ones>::new([0, 1]).into_map();           // [0, 1]
    /// ```
    #[inline]
    pub fn into_map(self) -> B
        ensures { result ≡ self.map }
    {
        self.map
    }
}

impl<B: Shape + Copy, S: Shape + Copy, K: Kind> Clone for Tiered<B, S, K> {
    ghost is_clone = { λ s r. r ≡ s };

    ghost is_infallible = { λ _. ⊤ };

    #[inline]
    fn clone(&self) -> Result<Tiered<B, S, K>, AllocError> {
        Ok(Tiered {
            map: self.map,
            summary: self.summary,
            kind: PhantomData,
        })
    }
}

impl<B: Shape + Copy, S: Shape + Copy, K: Kind> Copy for Tiered<B, S, K> {}

impl<B: Shape + Eq, S: Shape, K: Kind> PartialEq for Tiered<B, S, K> {
    ghost eq = { on (λ t. t.map) B.eq };

    ghost laws = { partial_equiv_from_equiv (on_equiv (λ t. t.map) B.Eq.laws) };

    #[inline]
    fn eq(&self, other: &Tiered<B, S, K>) -> bool {
        self.map == other.map
    }
}

impl<B: Shape + Eq, S: Shape, K: Kind> Eq for Tiered<B, S, K> {
    ghost laws = { on_equiv (λ t. t.map) B.Eq.laws };
}

/// Prints the indexes of the set bits in the map's own bit order, in increasing order between
/// braces, as `{1, 14}`. Format flags have no effect.
impl<B: Bits + FixedCapacity, S: ReadWords + FixedCapacity, K: Kind> fmt::Debug
    for Tiered<B, S, K> {
    ghost debug_output = { λ t. Some (set_text (set_in B.Shape B.Order.Endian t.map)) };

    fn fmt<W: fmt::Write>(&self, f: &mut fmt::Formatter<W>) -> fmt::Result {
        write_all(self.iter_ones(), f)
    }
}

impl<B: ReadWords + FixedCapacity, S: FixedCapacity, K: Kind> FixedCapacity for Tiered<B, S, K> {
    ghost one_capacity = { λ t. B.one_capacity t.map };

    ghost type_whole_words = { B.type_whole_words };

    ghost type_fits = { λ h. B.type_fits (map_indexable B.indexable S.indexable B.type_capacity
        S.type_capacity B.width h) };

    fn fixed_capacity() -> u32 {
        let bits = B::fixed_capacity();
        let summary = S::fixed_capacity();
        if bits == u32::MAX || summary == u32::MAX || summary < bits / word_width::<B>() {
            return u32::MAX;
        }
        bits
    }
}

impl<B: ReadWords + FixedCapacity, S: ReadWords + FixedCapacity, K: Kind> ReadWords
    for Tiered<B, S, K> {
    ghost leaf_width = { B.leaf_width };

    ghost width_positive = { B.width_positive };

    ghost whole_words = { λ t. B.whole_words t.map };

    ghost none_past = { λ t. B.none_past t.map };

    const MAY_PASS_OVER: bool = true;

    #[inline]
    fn capacity(&self) -> u32 {
        self.map.capacity()
    }

    #[inline]
    fn nth_leaf_word(&self, k: usize) -> B::LeafWord {
        self.map.nth_leaf_word(k)
    }

    #[inline]
    fn pass_over<L: Kind, N: End>(&self, low: usize, high: usize) -> usize {
        if L::ONES == K::ONES {
            upkeep::pass_over::<B, S, K, N>(&self.map, &self.summary, low, high)
        } else {
            self.map.pass_over::<L, N>(low, high)
        }
    }

    #[inline(always)]
    fn tells_groups<L: Kind>() -> bool {
        if K::ONES == L::ONES {
            word_width::<S>() == 64
        } else {
            B::tells_groups::<L>()
        }
    }

    #[inline(always)]
    fn groups_told<L: Kind>(&self, n: usize, level: u32) -> u64 {
        if K::ONES == L::ONES {
            upkeep::groups_told::<B, S, K>(&self.map, &self.summary, n, level)
        } else {
            self.map.groups_told::<L>(n, level)
        }
    }
}

impl<B: Bits + FixedCapacity, S: ReadWords + FixedCapacity, K: Kind> Bits for Tiered<B, S, K> {
    type Order = B::Order;

    #[inline]
    fn count_ones(&self) -> u32 {
        self.map.count_ones()
    }

    #[inline]
    fn all_zeros(&self) -> bool {
        if K::ONES {
            upkeep::all_words_have_none::<B, S, K>(&self.map, &self.summary)
        } else {
            self.map.all_zeros()
        }
    }

    #[inline]
    fn all_ones(&self) -> bool {
        if K::ONES {
            self.map.all_ones()
        } else {
            upkeep::all_words_have_none::<B, S, K>(&self.map, &self.summary)
        }
    }

    #[inline]
    fn test_bit_in<E: Endian>(&self, index: u32) -> bool {
        self.map.test_bit_in::<E>(index)
    }
}

// Sets the bit of `map` at `index` if `V` is `Ones`, and else clears it. An index at or past the
// capacity wraps.
#[inline]
fn put_in_map<B: BitsMut, E: Endian, V: Kind>(map: &mut B, index: u32)
    requires { IsTrue B.indexable }
    ensures { set_in B.Shape E.Endian map.new
        ≡ with_bit V.ONES (set_in B.Shape E.Endian map.old) index }
{
    if V::ONES {
        map.set_bit_in::<E>(index);
    } else {
        map.clear_bit_in::<E>(index);
    }
}

// Sets the bit at `index` if `V` is `Ones`, and else clears it. An index at or past the capacity
// wraps. Then updates the summary for the word of that bit.
#[inline]
fn put_and_refresh<B: BitsMut + FixedCapacity, S: BitsOwned, K: Kind, E: Endian, V: Kind>(
    tiered: &mut Tiered<B, S, K>,
    index: u32,
)
    ensures { set_in B.Shape E.Endian tiered.new.map
        ≡ with_bit V.ONES (set_in B.Shape E.Endian tiered.old.map) index }
{
    put_in_map::<B, E, V>(&mut tiered.map, index);
    let bits = B::fixed_capacity();
    if bits != 0 {
        let at = index % bits;
        let k = (at / word_width::<B>()) as usize;
        upkeep::refresh::<B, S, K>(&tiered.map, &mut tiered.summary, k, V::ONES == K::ONES);
    }
}

impl<B: BitsMut + FixedCapacity, S: BitsOwned, K: Kind> BitsMut for Tiered<B, S, K> {
    #[inline]
    fn set_bit_in<E: Endian>(&mut self, index: u32) {
        put_and_refresh::<B, S, K, E, Ones>(self, index);
    }

    #[inline]
    fn clear_bit_in<E: Endian>(&mut self, index: u32) {
        put_and_refresh::<B, S, K, E, Zeros>(self, index);
    }

    fn clear_bits(&mut self) {
        self.map.clear_bits();
        self.summary = upkeep::uniform::<S>(!K::ONES);
    }

    fn assign_range_by_operation<E: Endian, O: RangeOperation>(&mut self, from: u32, to: u32) {
        if from == to {
            return;
        }
        let width = word_width::<B>();
        self.map.assign_range_by_operation::<E, O>(from, to);
        upkeep::refresh_range::<B, S, K>(
            &self.map,
            &mut self.summary,
            (from / width) as usize,
            ((to - 1) / width) as usize + 1,
        );
    }

    fn assign_by_operation<O: Operation>(&mut self, other: &Tiered<B, S, K>) {
        self.map.assign_by_operation::<O>(&other.map);
        upkeep::rebuild::<B, S, K>(&self.map, &mut self.summary);
    }

    #[inline]
    fn set_nth_leaf_word(&mut self, k: usize, word: B::LeafWord) {
        self.map.set_nth_leaf_word(k, word);
        upkeep::refresh::<B, S, K>(&self.map, &mut self.summary, k, false);
    }
}

impl<B: BitsOwned, S: BitsOwned, K: Kind> BitsOwned for Tiered<B, S, K> {
    ghost eq_is_same = { λ s t. B.eq_is_same s.map t.map };

    fn zeros() -> Tiered<B, S, K> {
        Tiered {
            map: B::zeros(),
            summary: upkeep::uniform::<S>(!K::ONES),
            kind: PhantomData,
        }
    }

    fn ones() -> Tiered<B, S, K> {
        Tiered {
            map: B::ones(),
            summary: upkeep::uniform::<S>(K::ONES),
            kind: PhantomData,
        }
    }
}
