//! Reading a set word by word: all that a search, a count or an iterator needs. The kind `K` names
//! the set bits or the unset bits. To pass over words is to skip them without reading them.

ghost use Rattle.std.specs.Prelude.{◌≡◌, ℕ, ◌*◌, ◌^◌, ◌<◌, ◌≤◌, ◌↔◌, false, IsTrue};
ghost use Rattle.bittle_bits.specs.BitPatterns.{bit_set};
ghost use Rattle.bittle_bits.specs.Searches.{PassesOver, TellsGroups};
ghost use Rattle.bittle_bits.specs.Values.{ShapeFits};
ghost use Rattle.bittle_bits.specs.Walk.{ones_or_zeros};
ghost use Rattle.bittle_bits.specs.Words.{word_of};

use crate::end::End;
use crate::endian::Endian;
use crate::kind::Kind;
use crate::shape::Shape;
use crate::word::Word;

/// A set that is read word by word.
///
/// Searches, counts and iterators read sets through this trait. So each of them is written once,
/// for all shapes and for all views of sets.
pub trait ReadWords: Drop + Shape {
    /// Says whether all values of the type have the same number of words. It may be `false` even
    /// then.
    ///
    /// It affects speed only, so it has no contract. It decides how an iterator begins, and whether
    /// a comparison of two sets begins with their first words alone.
    #[doc(hidden)]
    const IS_FIXED: bool = false;

    /// Says whether `pass_over` of a value of the type may skip words.
    ///
    /// It affects speed only, so it has no contract. It decides whether an array, a slice or a view
    /// of two sets calls `pass_over` of its parts, and whether a search of whole words reads them
    /// one by one or four at a time.
    #[doc(hidden)]
    const MAY_PASS_OVER: bool = false;

    /// Returns how many bits the set has, or `u32::MAX` if its shape does not fit.
    ///
    /// Always callable.
    #[doc(hidden)]
    fn capacity(&self) -> u32
        ensures value { ShapeFits Self.Shape self.now → result ≡ (Self.big self.now).capacity }
        ensures fits { result < 4294967295 → ShapeFits Self.Shape self.now };

    /// Returns word `k` of the set. The first bit of this word has the index `k` times the word
    /// width.
    #[doc(hidden)]
    fn nth_leaf_word(&self, k: usize) -> Self::LeafWord
        requires fits { ShapeFits Self.Shape self.now }
        requires within { k * Self.width < (Self.big self.now).capacity }
        ensures { bit_set Self.width (Self.LeafWord.pattern result)
            ≡ word_of Self.width (Self.big self.now) k };

    /// Skips words without a bit of the kind `K`, at the end `N` of the words `low..high`. If `N`
    /// is the front, the call returns the number of the first word that it does not skip, or `high`
    /// if it skips all. If `N` is the back, it returns one more than the number of the last word
    /// that it does not skip, or `low` if it skips all.
    ///
    /// It affects speed only. A set may skip words if it knows, without reading them, that they
    /// have no bit of this kind. Most shapes skip no word. In a type whose values skip words,
    /// `MAY_PASS_OVER` is `true`.
    #[doc(hidden)]
    #[inline(always)]
    fn pass_over<K: Kind, N: End>(&self, low: usize, high: usize) -> usize
        requires fits { ShapeFits Self.Shape self.now }
        requires ordered { low ≤ high }
        requires within { high * Self.width ≤ (Self.big self.now).capacity }
        ensures { PassesOver N.FRONT Self.width (ones_or_zeros K.ONES (Self.big self.now)) low high
            result }
    {
        if N::FRONT { low } else { high }
    }

    /// Returns `true` only if `groups_told` of a value of the type may leave a bit unset.
    ///
    /// It affects speed only, so it has no contract. It decides whether a view of two sets combines
    /// the results of `groups_told` of both sets, or calls `pass_over` of each set.
    #[doc(hidden)]
    #[inline(always)]
    fn tells_groups<K: Kind>() -> bool {
        false
    }

    /// Returns one bit for each of 64 groups, from group `64 * n` on. A group is `64 ^ level`
    /// words. Bit `i` of the result is unset only if group `64 * n + i` has no bit of the kind `K`.
    /// A group past the last word has no bit.
    ///
    /// It affects speed only. Most shapes set all 64 bits. A type that returns `true` from
    /// `tells_groups` leaves such bits unset.
    #[doc(hidden)]
    #[inline(always)]
    #[tactic(auto, using(crate::proofs::WordGroups::none_told))]
    fn groups_told<K: Kind>(&self, n: usize, level: u32) -> u64
        requires { ShapeFits Self.Shape self.now }
        ensures { TellsGroups (64 ^ level) Self.width (ones_or_zeros K.ONES (Self.big self.now)) n
            result }
    {
        u64::MAX
    }

    // The type `LeafWord` has as many bits as a word of the set.
    ghost leaf_width: { Self.LeafWord.width ≡ Self.width };

    // A word has at least one bit.
    ghost width_positive: { 0 < Self.width };

    // The capacity is a whole number of words.
    ghost whole_words: { (v : Self) → (words : ℕ) × ((Self.big v).capacity ≡ words * Self.width) };

    // No number from the capacity on is a member.
    ghost none_past: { (v : Self) (i : ℕ) → (Self.big v).capacity ≤ i → (Self.big v).has i
        ≡ false };
}

/// Returns how many bits each word of a set has.
#[doc(hidden)]
#[inline(always)]
pub fn word_width<B: ReadWords>() -> u32
    ensures { result ≡ B.width }
{
    <B::LeafWord as Word>::width()
}

/// Returns whether the words of `A` and of `B` have the same width, and the orders `E` and `F` are
/// the same.
#[doc(hidden)]
#[inline]
pub fn are_alike<A: ReadWords, B: ReadWords, E: Endian, F: Endian>() -> bool
    ensures { IsTrue result ↔ (A.width ≡ B.width) × (E.mirrored ≡ F.mirrored) }
{
    word_width::<A>() == word_width::<B>() && E::is_mirrored() == F::is_mirrored()
}
