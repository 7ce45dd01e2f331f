//! Reads and writes ranges of a set as numbers, and copies ranges, a word at a time.

ghost use Rattle.std.specs.Prelude.{◌≡◌, ◌+◌, ◌%◌, ◌^◌, ◌<◌, ◌≤◌, ℕ};
ghost use Rattle.bittle.specs.BitPatterns.{bit_set};
ghost use Rattle.bittle.specs.Orders.{read_in};
ghost use Rattle.bittle.specs.Values.{set_in, ShapeFits};
ghost use Rattle.bittle_ext.specs.Numbers.{HasBitsOf, with_copied};

use crate::capacities::capacity_of;
use crate::numbers::{
    first_bits, low_bits, low_bits_of, number_of, width_of, with_first_bits, word_of,
};
use crate::rotations::{all_bits, window};
use bittle::{Bits, BitsMut, Endian};
use bittle_bits::extension::{Conjunction, Operation, ReadWords, Word, are_alike};

/// Returns how many bits each word of a set has: 128 at most.
#[inline]
pub fn width_of_words<B: ReadWords>() -> u32
    ensures width { result ≡ B.width }
    ensures within { B.width ≤ 128 }
{
    width_of::<B::LeafWord>()
}

/// Returns a word whose first `count` bits are the bits of the set at `count` indexes from `first`
/// on, which lie in one word or in two. The other bits of the result may be set or unset.
#[inline]
fn word_near<B: ReadWords, E: Endian>(set: &B, first: u32, count: u32) -> B::LeafWord
    requires fits { ShapeFits B.Shape set.now }
    requires some { 0 < count }
    requires within { count ≤ B.width }
    requires ends { first + count ≤ (B.big set.now).capacity }
    ensures { (i : ℕ) → i < count
        → (read_in E.mirrored B.width (bit_set B.width (B.LeafWord.pattern result))).has i
        ≡ (set_in B.Shape E.Endian set.now).has (first + i) }
{
    let width = width_of_words::<B>();
    let k = (first / width) as usize;
    let from = first % width;
    let word = set.nth_leaf_word(k);
    if count <= width - from {
        return window::<B::LeafWord, E>(word, <B::LeafWord as Word>::zero(), from);
    }
    window::<B::LeafWord, E>(word, set.nth_leaf_word(k + 1), from)
}

/// Returns, as a number, the bits at `count` indexes from `first` on. They lie in one word or in
/// two.
#[inline]
fn number_near<B: ReadWords, E: Endian>(set: &B, first: u32, count: u32) -> u128
    requires fits { ShapeFits B.Shape set.now }
    requires some { 0 < count }
    requires within { count ≤ B.width }
    requires ends { first + count ≤ (B.big set.now).capacity }
    ensures below { result < 2 ^ count }
    ensures bits { HasBitsOf (set_in B.Shape E.Endian set.now) first count result }
{
    let word = word_near::<B, E>(set, first, count);
    low_bits_of::<B::LeafWord>(number_of::<B::LeafWord, E>(word), count)
}

/// Returns, as a number, the bits at `count` indexes from `first` on. Bits at or past the capacity
/// count as unset.
#[inline]
pub fn number_from<B: ReadWords, E: Endian>(set: &B, first: u32, count: u32) -> u128
    requires fits { ShapeFits B.Shape set.now }
    requires within { count ≤ 128 }
    ensures below { result < 2 ^ count }
    ensures bits { HasBitsOf (set_in B.Shape E.Endian set.now) first count result }
{
    let width = width_of_words::<B>();
    let end = count.min(capacity_of::<B, E>(set).saturating_sub(first));
    if 0 < end && end <= width {
        return number_near::<B, E>(set, first, end);
    }
    let mut number = 0;
    let mut done = 0;
    while done < end {
        let index = first + done;
        let from = index % width;
        let more = (width - from).min(end - done);
        let word = set.nth_leaf_word((index / width) as usize);
        let bits = low_bits(number_of::<B::LeafWord, E>(word) >> from, more);
        number = bits << done | number;
        done += more;
    }
    number
}

/// Returns a word whose first `count` bits are the bits of the set at `count` indexes from `first`
/// on. Bits at or past the capacity count as unset. The other bits of the result may be set or
/// unset.
#[inline]
fn word_at<B: Bits, E: Endian>(set: &B, first: u32, count: u32) -> B::LeafWord
    requires fits { ShapeFits B.Shape set.now }
    requires within { count ≤ B.width }
    ensures { (i : ℕ) → i < count
        → (read_in E.mirrored B.width (bit_set B.width (B.LeafWord.pattern result))).has i
        ≡ (set_in B.Shape E.Endian set.now).has (first + i) }
{
    let end = count.min(capacity_of::<B, E>(set).saturating_sub(first));
    if end == 0 {
        return <B::LeafWord as Word>::zero();
    }
    let word = word_near::<B, E>(set, first, end);
    if end == count {
        return word;
    }
    Conjunction::on_words::<B::LeafWord>(word, first_bits::<B::LeafWord, E>(end))
}

/// Returns a word of the type of `A`'s words, in the order `E`. Its first `count` bits are the bits
/// of `other`, which is read in the order `F`, at `count` indexes from `first` on. Bits at or past
/// the capacity of `other` count as unset. The other bits of the result may be set or unset.
///
/// If the words of `A` and of `other` are alike, no bits are reversed.
#[inline]
fn word_for<A: Bits, B: Bits, E: Endian, F: Endian>(
    other: &B,
    first: u32,
    count: u32,
) -> A::LeafWord
    requires fits { ShapeFits B.Shape other.now }
    requires within { count ≤ A.width }
    requires small { count ≤ 128 }
    ensures { (i : ℕ) → i < count
        → (read_in E.mirrored A.width (bit_set A.width (A.LeafWord.pattern result))).has i
        ≡ (set_in B.Shape F.Endian other.now).has (first + i) }
{
    if are_alike::<A, B, E, F>() {
        let word = word_at::<B, F>(other, first, count);
        return <A::LeafWord as Word>::from_bits(word.to_bits());
    }
    word_of::<A::LeafWord, E>(number_from::<B, F>(other, first, count))
}

/// Writes the first `count` bits of a word to `count` indexes of one word of the set, from `first`
/// on.
#[inline]
fn put_word<A: BitsMut, E: Endian>(set: &mut A, first: u32, count: u32, word: A::LeafWord)
    requires fits { ShapeFits A.Shape set.old }
    requires some { 0 < count }
    requires word { first % A.width + count ≤ A.width }
    requires within { first + count ≤ (A.big set.old).capacity }
    ensures set { set_in A.Shape E.Endian set.new ≡ with_copied (set_in A.Shape E.Endian set.old)
        first count (read_in E.mirrored A.width (bit_set A.width (A.LeafWord.pattern word))) 0 }
    ensures stays { A.loan set.old ≡ A.loan set.new }
{
    let width = width_of_words::<A>();
    let k = (first / width) as usize;
    let old = set.nth_leaf_word(k);
    set.set_nth_leaf_word(
        k,
        with_first_bits::<A::LeafWord, E>(old, first % width, count, word),
    );
}

/// Returns, as a number, as many bits of `value` from bit `first` on as a word has.
#[inline]
fn value_from<W: Word>(value: u64, first: u32) -> u128
    requires within { first < 64 }
    ensures below { result < 2 ^ W.width }
    ensures bits { (count : ℕ) → count ≤ W.width → first + count ≤ 64
        → HasBitsOf (bit_set 64 value) first count result }
{
    (value >> first) as u128 & all_bits::<W>()
}

/// Writes the lowest `count` bits of a number to `count` indexes of the set, from `first` on.
#[inline]
pub fn put_value<A: BitsMut, E: Endian>(set: &mut A, first: u32, count: u32, value: u64)
    requires fits { ShapeFits A.Shape set.old }
    requires number { count ≤ 64 }
    requires within { first + count ≤ (A.big set.old).capacity }
    ensures set { set_in A.Shape E.Endian set.new ≡ with_copied (set_in A.Shape E.Endian set.old)
        first count (bit_set 64 value) 0 }
    ensures stays { A.loan set.old ≡ A.loan set.new }
{
    let width = width_of_words::<A>();
    let mut done = 0;
    while done < count {
        let at = first + done;
        let more = (width - at % width).min(count - done);
        let word = word_of::<A::LeafWord, E>(value_from::<A::LeafWord>(value, done));
        put_word::<A, E>(set, at, more, word);
        done += more;
    }
}

/// Copies `count` bits of `other`, from index `from` on, to the indexes of `set` from `at` on. Bits
/// of `other` at or past its capacity count as unset.
#[inline]
pub fn copy_range<A: BitsMut, B: Bits, E: Endian, F: Endian>(
    set: &mut A,
    at: u32,
    other: &B,
    from: u32,
    count: u32,
)
    requires fits { ShapeFits A.Shape set.old }
    requires other_fits { ShapeFits B.Shape other.now }
    requires within { at + count ≤ (A.big set.old).capacity }
    ensures set { set_in A.Shape E.Endian set.new ≡ with_copied (set_in A.Shape E.Endian set.old)
        at count (set_in B.Shape F.Endian other.now) from }
    ensures stays { A.loan set.old ≡ A.loan set.new }
{
    let width = width_of_words::<A>();
    let mut done = 0;
    while done < count {
        let index = at + done;
        let more = (width - index % width).min(count - done);
        let word = word_for::<A, B, E, F>(other, from.saturating_add(done), more);
        put_word::<A, E>(set, index, more, word);
        done += more;
    }
}

/// Copies `count` bits, from index `from` on, to the indexes from `at` on, where `at <= from`. The
/// least indexes are copied first.
#[inline]
fn copy_down<A: BitsMut, E: Endian>(set: &mut A, at: u32, from: u32, count: u32)
    requires fits { ShapeFits A.Shape set.old }
    requires down { at ≤ from }
    requires within { at + count ≤ (A.big set.old).capacity }
    ensures set { set_in A.Shape E.Endian set.new ≡ with_copied (set_in A.Shape E.Endian set.old)
        at count (set_in A.Shape E.Endian set.old) from }
    ensures stays { A.loan set.old ≡ A.loan set.new }
{
    let width = width_of_words::<A>();
    let mut done = 0;
    while done < count {
        let index = at + done;
        let more = (width - index % width).min(count - done);
        let word = word_at::<A, E>(set, from.saturating_add(done), more);
        put_word::<A, E>(set, index, more, word);
        done += more;
    }
}

/// Copies `count` bits, from index `from` on, to the indexes from `at` on, where `from < at`. The
/// greatest indexes are copied first.
#[inline]
fn copy_up<A: BitsMut, E: Endian>(set: &mut A, at: u32, from: u32, count: u32)
    requires fits { ShapeFits A.Shape set.old }
    requires up { from < at }
    requires within { at + count ≤ (A.big set.old).capacity }
    ensures set { set_in A.Shape E.Endian set.new ≡ with_copied (set_in A.Shape E.Endian set.old)
        at count (set_in A.Shape E.Endian set.old) from }
    ensures stays { A.loan set.old ≡ A.loan set.new }
{
    let width = width_of_words::<A>();
    let mut rest = count;
    while 0 < rest {
        let less = ((at + rest - 1) % width + 1).min(rest);
        rest -= less;
        let word = word_at::<A, E>(set, from + rest, less);
        put_word::<A, E>(set, at + rest, less, word);
    }
}

/// Copies `count` bits, from index `from` on, to the indexes from `at` on, as if all were read
/// before any is written. A bit that is read at or past the capacity counts as unset.
#[inline]
pub fn copy_within<A: BitsMut, E: Endian>(set: &mut A, at: u32, from: u32, count: u32)
    requires fits { ShapeFits A.Shape set.old }
    requires within { at + count ≤ (A.big set.old).capacity }
    ensures set { set_in A.Shape E.Endian set.new ≡ with_copied (set_in A.Shape E.Endian set.old)
        at count (set_in A.Shape E.Endian set.old) from }
    ensures stays { A.loan set.old ≡ A.loan set.new }
{
    if at <= from {
        copy_down::<A, E>(set, at, from, count);
    } else {
        copy_up::<A, E>(set, at, from, count);
    }
}
