//! The calls on a word, and the steps of its iterators, written once for all widths. A member is
//! the index of a set bit. The member at the end `N` is the least one if `N` is the front, and the
//! greatest one if `N` is the back.

ghost use Rattle.std.specs.Prelude.{◌≡◌, ◌==◌, Bool, ◌+◌, ◌*◌, ◌-◌, ◌<◌, ◌≤◌, true, IfSome};
ghost use Rattle.bittle_bits.specs.Ends.{IsEndMember, YieldsFrom, YieldsPlace};
ghost use Rattle.bittle_bits.specs.Orders.{place};
ghost use Rattle.bittle_bits.specs.PlainSet.{contains, with_index, with_span_changed};
ghost use Rattle.bittle_bits.specs.PlainSet.{without_index, empty_set, without_members, full_set};
ghost use Rattle.bittle_bits.specs.PlainSet.{span_set, size, ascending};
ghost use Rattle.bittle_bits.specs.SetOperations.{combination_of};
ghost use Rattle.bittle_bits.specs.Words.{ReplacesWord, word_of};
ghost use Rattle.bittle_bits.specs.Values.{word_in};
ghost use Rattle.bittle_bits.specs.WordSets.{bits_of, word_mirrored};

use crate::end::End;
use crate::endian::Endian;
use crate::internal::halves::{halves, joined, on_halves};
use crate::operation::{Operation, RangeOperation};
use crate::word::Word;

/// Returns whether the bit at `index` is set. An index at or past the width of the word wraps.
#[inline]
pub fn test_bit<T: Word, E: Endian>(word: T, index: u32) -> bool
    ensures { result ≡ contains (word_in T.Word E.Endian word) index }
{
    !word.and(T::one_at(E::place::<T>(index))).is_zero()
}

/// Sets the bit at `index`. An index at or past the width of the word wraps.
#[inline]
pub fn set_bit<T: Word, E: Endian>(word: &mut T, index: u32)
    ensures { word_in T.Word E.Endian word.new ≡ with_index
        (word_in T.Word E.Endian word.old) index }
{
    *word = word.or(E::mask::<T>(index));
}

/// Clears the bit at `index`. An index at or past the width of the word wraps.
#[inline]
pub fn clear_bit<T: Word, E: Endian>(word: &mut T, index: u32)
    ensures { word_in T.Word E.Endian word.new ≡ without_index
        (word_in T.Word E.Endian word.old) index }
{
    *word = word.and(E::mask::<T>(index).not());
}

/// Returns the word in which just the bits with an index in `from..to` are set. These are the bits
/// from `from` on, without the bits from `to` on.
#[inline]
pub fn range<T: Word, E: Endian>(from: u32, to: u32) -> T
    requires ordered { from ≤ to }
    requires within { to ≤ T.width }
    ensures { word_in T.Word E.Endian result ≡ span_set T.width from to }
{
    if from == to {
        return T::zero();
    }
    let since = E::from_index::<T>(from);
    if to == T::width() {
        return since;
    }
    since.and(E::from_index::<T>(to).not())
}

/// Changes each bit with an index in `from..to` by the operation `O`: `Union` sets these bits,
/// `Difference` clears them, and `SymmetricDifference` flips them.
#[inline]
pub fn assign_range<T: Word, E: Endian, O: RangeOperation>(word: &mut T, from: u32, to: u32)
    requires ordered { from ≤ to }
    requires within { to ≤ T.width }
    ensures { word_in T.Word E.Endian word.new ≡ with_span_changed (λ b. O.decide b true)
        (word_in T.Word E.Endian word.old) from to }
{
    *word = O::on_words::<T>(*word, range::<T, E>(from, to));
}

/// Clears every bit.
#[inline]
pub fn clear_bits<T: Word>(word: &mut T)
    ensures { bits_of T.Word word.new ≡ without_members (bits_of T.Word word.old) }
{
    *word = T::zero();
}

/// Changes each bit of `word` to the result of the operation `O` on this bit and the same bit of
/// `other`. Words of 128 bits are combined half by half.
#[inline(always)]
pub fn combine<T: Word, O: Operation>(word: &mut T, other: T)
    ensures { (mirrored : Bool) → word_mirrored T.Word mirrored word.new ≡ combination_of O.decide
        (word_mirrored T.Word mirrored word.old) (word_mirrored T.Word mirrored other) }
{
    *word = if T::width() == 128 {
        on_halves::<T, O>(*word, other)
    } else {
        O::on_words::<T>(*word, other)
    };
}

/// Counts the set bits.
#[inline]
pub fn count_ones<T: Word>(word: T) -> u32
    ensures value { result ≡ size (bits_of T.Word word) }
    ensures in_each_order { (mirrored : Bool) → result ≡ size (word_mirrored T.Word mirrored word) }
    ensures at_most { result ≤ T.width }
{
    word.count_ones()
}

/// Returns whether no bit is set.
#[inline]
pub fn all_zeros<T: Word>(word: T) -> bool
    ensures value { result ≡ (size (bits_of T.Word word) == 0) }
    ensures in_each_order { (mirrored : Bool) → result ≡ (size
        (word_mirrored T.Word mirrored word) == 0) }
{
    word.is_zero()
}

/// Returns whether every bit is set.
#[inline]
pub fn all_ones<T: Word>(word: T) -> bool
    ensures value { result ≡ (size (bits_of T.Word word) == T.width) }
    ensures in_each_order { (mirrored : Bool) → result ≡ (size
        (word_mirrored T.Word mirrored word) == T.width) }
{
    word.not().is_zero()
}

/// Returns the word with no bit set.
#[inline]
pub fn zeros<T: Word>() -> T
    ensures value { bits_of T.Word result ≡ empty_set T.width }
    ensures in_each_order { (mirrored : Bool) → word_mirrored T.Word mirrored result
        ≡ empty_set T.width }
{
    T::zero()
}

/// Returns the word with every bit set.
#[inline]
pub fn ones<T: Word>() -> T
    ensures value { bits_of T.Word result ≡ full_set T.width }
    ensures in_each_order { (mirrored : Bool) → word_mirrored T.Word mirrored result
        ≡ full_set T.width }
{
    T::zero().not()
}

// Returns how far the member at the end `N` lies from that end, or the width if no bit is set.
#[inline(always)]
pub fn from_end<T: Word, E: Endian, N: End>(word: T) -> u32
    ensures member { IsEndMember N.FRONT (word_in T.Word E.Endian word) result }
    ensures within { result ≤ T.width }
{
    if N::FRONT {
        E::zeros::<T>(word)
    } else {
        E::zeros_rev::<T>(word)
    }
}

// Clears the bit of the member at the end `N`, and returns the place of this bit, which has the
// weight `2 ^ place`. It returns `None` if no bit is set. If the bit is the set bit of least
// weight, `word & (word - 1)` clears it. Then the processor can begin the next step before it knows
// the place.
#[inline(always)]
fn pop_from_whole<T: Word, E: Endian, N: End>(word: &mut T) -> Option<u32>
    ensures found { YieldsPlace N.FRONT (place E.mirrored T.width) (λ w. ascending
        (word_in T.Word E.Endian w)) word.old result word.new }
    ensures within { IfSome result (λ at. at < T.width) }
{
    if word.is_zero() {
        return None;
    }
    let away = from_end::<T, E, N>(*word);
    if E::is_mirrored() == N::FRONT {
        let place = T::width() - 1 - away;
        *word = word.and(T::one_at(place).not());
        Some(place)
    } else {
        *word = word.and(T::from_bits(word.to_bits() - 1));
        Some(away)
    }
}

// Does what `pop_from_whole` does, on a word of 128 bits. It works on the half that the member lies
// in. One instruction searches a half, and one changes it; for the whole word, about ten are
// needed.
#[inline(always)]
fn pop_from_half<T: Word, E: Endian, N: End>(word: &mut T) -> Option<u32>
    requires { T.width ≡ 128 }
    ensures found { YieldsPlace N.FRONT (place E.mirrored T.width) (λ w. ascending
        (word_in T.Word E.Endian w)) word.old result word.new }
    ensures within { IfSome result (λ at. at < T.width) }
{
    let (low, high) = halves::<T>(*word);
    let is_high = if E::is_mirrored() == N::FRONT {
        high != 0
    } else {
        low == 0
    };
    if is_high {
        let mut half = high;
        let place = pop_from_whole::<u64, E, N>(&mut half)?;
        *word = joined::<T>(low, half);
        Some(64 + place)
    } else {
        let mut half = low;
        let place = pop_from_whole::<u64, E, N>(&mut half)?;
        *word = joined::<T>(half, high);
        Some(place)
    }
}

/// Clears the bit of the member at the end `N`, and returns the place of this bit, which has the
/// weight `2 ^ place`. It returns `None` if no bit is set.
#[inline(always)]
pub fn pop_place<T: Word, E: Endian, N: End>(word: &mut T) -> Option<u32>
    ensures found { YieldsPlace N.FRONT (place E.mirrored T.width) (λ w. ascending
        (word_in T.Word E.Endian w)) word.old result word.new }
    ensures within { IfSome result (λ at. at < T.width) }
{
    if T::width() == 128 {
        pop_from_half::<T, E, N>(word)
    } else {
        pop_from_whole::<T, E, N>(word)
    }
}

/// Clears the bit of the member at the end `N`, and returns the index of this bit. It returns
/// `None` if no bit is set.
#[inline(always)]
pub fn pop<T: Word, E: Endian, N: End>(word: &mut T) -> Option<u32>
    ensures found { YieldsFrom N.FRONT (λ w. ascending
        (word_in T.Word E.Endian w)) word.old result word.new }
    ensures below { IfSome result (λ index. index < T.width) }
{
    let place = pop_place::<T, E, N>(word)?;
    Some(if E::is_mirrored() {
        T::width() - 1 - place
    } else {
        place
    })
}

/// Returns word `k` of a set that is one word: `k` is 0, and the result is the word itself.
#[inline]
pub fn leaf_word<T: Word>(word: T, k: usize) -> T
    requires { k * T.width < T.width }
    ensures { bits_of T.Word result ≡ word_of T.width (bits_of T.Word word) k }
{
    let _ = k;
    word
}

/// Replaces word `k` of a set that is one word: `k` is 0, and `by` replaces the whole word.
#[inline]
pub fn set_leaf_word<T: Word>(word: &mut T, k: usize, by: T)
    requires { k * T.width < T.width }
    ensures { ReplacesWord T.width (bits_of T.Word word.old) k (bits_of T.Word by)
        (bits_of T.Word word.new) }
{
    let _ = k;
    *word = by;
}
