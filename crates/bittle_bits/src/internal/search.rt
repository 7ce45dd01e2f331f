//! Searches a range, word by word, for the first or the last bit of a kind: a set bit or an unset
//! bit.

ghost use Rattle.std.specs.Prelude.{◌≡◌, ◌+◌, ◌*◌, ◌<◌, ◌≤◌, cond, Bool, ℕ};
ghost use Rattle.bittle_bits.specs.Ends.{is_ahead, IsEndIn};
ghost use Rattle.bittle_bits.specs.Searches.{IsFirstIn, IsLastIn, IsNextWord};
ghost use Rattle.bittle_bits.specs.Values.{kind_in, set_mirrored, word_in, ShapeFits};
ghost use Rattle.bittle_bits.specs.Walk.{ones_or_zeros};

use crate::end::{Back, End, Front, at_end};
use crate::endian::Endian;
use crate::internal::ends::ends;
use crate::internal::source::{pass_over, word_of_kind};
use crate::kind::Kind;
use crate::one_word::from_end;
use crate::read_words::{ReadWords, word_width};
use crate::word::Word;

// Returns the word in which just these bits are set: bit `at`, and each bit of greater index if `N`
// is the front, or each bit of lesser index if `N` is the back.
#[inline]
fn ahead<T: Word, E: Endian, N: End>(at: u32) -> T
    requires { at < T.width }
    ensures { (i : ℕ) → i < T.width → (word_in T.Word E.Endian result).has i ≡ is_ahead N.FRONT at
        (at + 1) i }
{
    let since = E::from_index::<T>(at);
    if N::FRONT {
        return since;
    }
    since.not().or(E::mask::<T>(at))
}

// Returns the number of the next word after word `k` among the words from `first` to `last`. The
// words come in increasing order if `N` is the front, and in decreasing order if `N` is the back.
// The call skips words that the set knows to have no bit of the kind `K`, and returns `None` if no
// word is left. The test whether `k` is the last word comes first. So if a set skips no words, the
// compiled code makes no other test.
#[inline(always)]
fn next_word<B: ReadWords, K: Kind, N: End>(bits: &B, first: u32, last: u32, k: u32) -> Option<u32>
    requires fits { ShapeFits B.Shape bits.now }
    requires first { first ≤ k }
    requires last { k ≤ last }
    requires within { last * B.width < (B.big bits.now).capacity }
    ensures { (mirrored : Bool) → IsNextWord N.FRONT B.width
        (ones_or_zeros K.ONES (set_mirrored B.Shape mirrored bits.now)) first last k result }
{
    if k == at_end::<N>(last, first) {
        return None;
    }
    if N::FRONT {
        let end = last as usize + 1;
        let next = pass_over::<B, K, N>(bits, k as usize + 1, end);
        if next == end {
            return None;
        }
        Some(next as u32)
    } else {
        let end = pass_over::<B, K, N>(bits, first as usize, k as usize);
        if end == first as usize {
            return None;
        }
        Some((end - 1) as u32)
    }
}

/// Searches the words from `first` to `last` for a bit of the kind `K`. If `N` is the front, it
/// returns the least index of such a bit from the index `at` of word `first` on. If `N` is the
/// back, it returns the greatest one up to the index `at` of word `last`. No index is compared with
/// the far end of the range, since this is the end of a word.
#[inline]
pub fn end_in_words<B: ReadWords, E: Endian, K: Kind, N: End>(
    bits: &B,
    first: u32,
    last: u32,
    at: u32,
) -> Option<u32>
    requires fits { ShapeFits B.Shape bits.now }
    requires ordered { first ≤ last }
    requires within { last * B.width < (B.big bits.now).capacity }
    requires index { at < B.width }
    ensures { IsEndIn N.FRONT (kind_in B.Shape E.Endian K.Kind bits.now)
        (cond N.FRONT (first * B.width + at) (first * B.width))
        (cond N.FRONT (last * B.width + B.width) (last * B.width + at + 1)) result }
{
    let width = word_width::<B>();
    let mask = ahead::<B::LeafWord, E, N>(at);
    let mut k = at_end::<N>(first, last);
    let mut word = word_of_kind::<B, K>(bits, k as usize).and(mask);
    loop {
        let away = from_end::<B::LeafWord, E, N>(word);
        if away != width {
            let found = k * width + at_end::<N>(away, width - 1 - away);
            return Some(found);
        }
        let Some(next) = next_word::<B, K, N>(bits, first, last, k) else {
            return None;
        };
        k = next;
        word = word_of_kind::<B, K>(bits, k as usize);
    }
}

/// Returns an index in `from..to` whose bit is of the kind `K`: the least such index if `N` is the
/// front, the greatest if `N` is the back, and `None` if there is no such index.
#[inline]
pub fn end_in<B: ReadWords, E: Endian, K: Kind, N: End>(bits: &B, from: u32, to: u32) -> Option<u32>
    requires fits { ShapeFits B.Shape bits.now }
    requires ordered { from ≤ to }
    requires within { to ≤ (B.big bits.now).capacity }
    ensures { IsEndIn N.FRONT (kind_in B.Shape E.Endian K.Kind bits.now) from to
        result }
{
    if from == to {
        return None;
    }
    let (first, begin, last, top) = ends(word_width::<B>(), from, to);
    let found = end_in_words::<B, E, K, N>(bits, first, last, at_end::<N>(begin, top))?;
    if at_end::<N>(found, from) <= at_end::<N>(to - 1, found) {
        Some(found)
    } else {
        None
    }
}

/// Returns the least index from `from` on whose bit is of the kind `K`, or `None` if there is no
/// such index.
#[inline]
pub fn first_from<B: ReadWords, E: Endian, K: Kind>(bits: &B, from: u32) -> Option<u32>
    requires { ShapeFits B.Shape bits.now }
    ensures { IsFirstIn (kind_in B.Shape E.Endian K.Kind bits.now) from
        (B.big bits.now).capacity result }
{
    let capacity = bits.capacity();
    if capacity <= from {
        return None;
    }
    let (first, begin, last, _) = ends(word_width::<B>(), from, capacity);
    end_in_words::<B, E, K, Front>(bits, first, last, begin)
}

/// Returns the greatest index whose bit is of the kind `K`, or `None` if there is no such bit.
#[inline]
pub fn last_of<B: ReadWords, E: Endian, K: Kind>(bits: &B) -> Option<u32>
    requires { ShapeFits B.Shape bits.now }
    ensures { IsLastIn (kind_in B.Shape E.Endian K.Kind bits.now) 0 (B.big bits.now).capacity
        result }
{
    let width = word_width::<B>();
    let words = bits.capacity() / width;
    if words == 0 {
        return None;
    }
    end_in_words::<B, E, K, Back>(bits, 0, words - 1, width - 1)
}
