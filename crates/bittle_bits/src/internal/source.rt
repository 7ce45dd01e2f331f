//! What an iterator or a search reads: the set bits or the unset bits of a set, word by word. Each
//! word that an iterator fetches is counted. To pass over words is to skip them without fetching
//! them.

ghost use Rattle.std.specs.Prelude.{◌≡◌, ◌+◌, ◌-◌, ◌*◌, ◌<◌, ◌≤◌, cond, Bool};
ghost use Rattle.bittle_bits.specs.BitPatterns.{bit_set};
ghost use Rattle.bittle_bits.specs.Searches.{PassesOver};
ghost use Rattle.bittle_bits.specs.Values.{set_mirrored, ShapeFits, word_count};
ghost use Rattle.bittle_bits.specs.Walk.{ones_or_zeros};
ghost use Rattle.bittle_bits.specs.Words.{word_of};

use crate::end::End;
use crate::internal::buffer::Count;
use crate::kind::{Kind, bits_of_kind};
use crate::read_words::{ReadWords, word_width};
use crate::shape::Shape;

/// Returns word `k` of a set, with each bit flipped if `K` is `Zeros`. So the set bits of the
/// result are the bits of the kind `K`.
#[inline(always)]
pub fn word_of_kind<B: ReadWords, K: Kind>(bits: &B, k: usize) -> B::LeafWord
    requires fits { ShapeFits B.Shape bits.now }
    requires within { k * B.width < (B.big bits.now).capacity }
    ensures { bit_set B.width (B.LeafWord.pattern result)
        ≡ word_of B.width (ones_or_zeros K.ONES (B.big bits.now)) k }
{
    bits_of_kind::<B::LeafWord, K>(bits.nth_leaf_word(k))
}

/// Passes over words at the end `N` of `low..high`. The set knows that the words passed over have
/// no bit of the kind `K`, in either order. The call returns the new `low` if `N` is the front, and
/// the new `high` if `N` is the back.
#[inline(always)]
pub fn pass_over<B: ReadWords, K: Kind, N: End>(bits: &B, low: usize, high: usize) -> usize
    requires fits { ShapeFits B.Shape bits.now }
    requires ordered { low ≤ high }
    requires within { high * B.width ≤ (B.big bits.now).capacity }
    ensures value { PassesOver N.FRONT B.width (ones_or_zeros K.ONES (B.big bits.now)) low high
        result }
    ensures in_each_order { (mirrored : Bool) → PassesOver N.FRONT B.width
        (ones_or_zeros K.ONES (set_mirrored B.Shape mirrored bits.now)) low high result }
{
    bits.pass_over::<K, N>(low, high)
}

/// A set that an iterator borrows. The iterator learns only three things of the set: how many words
/// the set has, each word that the iterator fetches, and which words it may pass over.
#[derive(Drop)]
pub struct Source<'a, B: Shape> {
    set: &'a B,
}

impl<'a, B: ReadWords> Source<'a, B> {
    /// Borrows the words of a set.
    #[inline]
    pub fn new(set: &'a B) -> Source<'a, B>
        ensures { result.set.now ≡ set.now }
    {
        Source { set }
    }

    /// Borrows the words of the same set once more.
    #[inline]
    pub fn duplicate(&self) -> Source<'a, B>
        ensures { result.set ≡ self.now.set }
    {
        Source { set: self.set }
    }

    /// Returns how many words the set has.
    #[inline]
    pub fn words(&self) -> u32
        requires { ShapeFits B.Shape self.now.set.now }
        ensures { result ≡ word_count B.Shape self.now.set.now }
    {
        self.set.capacity() / word_width::<B>()
    }

    /// Fetches word `k`, and adds 1 to `fetches`. Returns the word if `K` is `Ones`, and its
    /// complement if `K` is `Zeros`.
    #[inline(always)]
    pub fn fetch<K: Kind>(&self, k: usize, fetches: &mut Count) -> B::LeafWord
        requires fits { ShapeFits B.Shape self.now.set.now }
        requires within { k * B.width < (B.big self.now.set.now).capacity }
        ensures word { bit_set B.width (B.LeafWord.pattern result)
            ≡ word_of B.width (ones_or_zeros K.ONES (B.big self.now.set.now)) k }
        ensures fetches { fetches.new ≡ fetches.old + 1 }
    {
        fetches.raise();
        word_of_kind::<B, K>(self.set, k)
    }

    /// Passes over words at the end `N` of `low..high`. The set knows that the words passed over
    /// have no bit of the kind `K`, in either order. The call adds their number to `passed`, and
    /// fetches none of them. It returns the new `low` if `N` is the front, and the new `high` if
    /// `N` is the back.
    #[inline(always)]
    pub fn pass_over<K: Kind, N: End>(&self, low: usize, high: usize, passed: &mut Count) -> usize
        requires fits { ShapeFits B.Shape self.now.set.now }
        requires ordered { low ≤ high }
        requires within { high * B.width ≤ (B.big self.now.set.now).capacity }
        ensures value { PassesOver N.FRONT B.width (ones_or_zeros K.ONES (B.big self.now.set.now))
            low high result }
        ensures in_each_order { (mirrored : Bool) → PassesOver N.FRONT B.width
            (ones_or_zeros K.ONES (set_mirrored B.Shape mirrored self.now.set.now)) low high
            result }
        ensures passed { passed.new ≡ passed.old + cond N.FRONT (result - low) (high - result) }
    {
        let on = pass_over::<B, K, N>(self.set, low, high);
        passed.add(if N::FRONT { on - low } else { high - on });
        on
    }
}

/// A set that an iterator owns. Its words can be read, and nothing can change it.
#[derive(Drop)]
pub struct OwnedSource<B: Shape> {
    set: B,
}

impl<B: ReadWords> OwnedSource<B> {
    /// Makes a source that owns `set`.
    #[inline]
    pub fn new(set: B) -> OwnedSource<B>
        ensures { result.set ≡ set }
    {
        OwnedSource { set }
    }

    /// Lends the words of the set.
    #[inline]
    pub fn lend(&self) -> Source<'_, B>
        ensures { result.set.now ≡ self.now.set }
    {
        Source { set: &self.set }
    }

    /// Returns a copy of the set.
    #[inline]
    pub fn duplicate(&self) -> OwnedSource<B>
    where
        B: Copy,
        ensures { result.set ≡ self.now.set }
    {
        OwnedSource { set: self.set }
    }
}
