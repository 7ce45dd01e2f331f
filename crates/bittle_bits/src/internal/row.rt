//! The calls on a row: the elements of an array or of a slice. The kind `K` names the set bits or
//! the unset bits. To pass over words is to skip them without reading them.

ghost use Rattle.std.specs.Prelude.{◌≡◌, ◌+◌, ◌==◌, ◌*◌, ◌%◌, ◌<◌, ◌≤◌, ℕ, Bool, true, false, cond};
ghost use Rattle.std.specs.Prelude.{get_or, length, set, IsTrue, List, MatchOption};
ghost use Rattle.bittle_bits.specs.Orders.{read_in};
ghost use Rattle.bittle_bits.specs.Pieces.{LiesAt};
ghost use Rattle.bittle_bits.specs.PlainSet.{contains, with_span_changed, without_members, size};
ghost use Rattle.bittle_bits.specs.Rows.{row_set, with_bit, GoesTo, IsCombinedBelow};
ghost use Rattle.bittle_bits.specs.Searches.{PassesOver};
ghost use Rattle.bittle_bits.specs.SetOperations.{combination_of};
ghost use Rattle.bittle_bits.specs.Shapes.{Fits};
ghost use Rattle.bittle_bits.specs.BitPatterns.{bit_set};
ghost use Rattle.bittle_bits.specs.Words.{ReplacesWord, word_of};
ghost use Rattle.bittle_bits.specs.Values.{row_of, row_mirrored, row_in};
ghost use Rattle.bittle_bits.specs.Walk.{ones_or_zeros};

use crate::bits::Bits;
use crate::bits_mut::BitsMut;
use crate::end::{End, words_at_end};
use crate::endian::Endian;
use crate::fixed_capacity::FixedCapacity;
use crate::internal::ends::ends;
use crate::kind::{Kind, Ones, Zeros};
use crate::operation::{Operation, RangeOperation};
use crate::read_words::{ReadWords, word_width};

/// Returns the capacity of a row of `len` elements, or `u32::MAX` if the row does not fit. The
/// comment on `Bits` says when it fits.
#[inline]
pub fn bits_capacity<T: FixedCapacity>(len: usize) -> u32
    ensures value { Fits T.indexable (len * T.type_capacity) → result ≡ len * T.type_capacity }
    ensures fits { result < 4294967295 → Fits T.indexable (len * T.type_capacity) }
{
    let each = T::fixed_capacity();
    if each == u32::MAX {
        return u32::MAX;
    }
    if each == 0 {
        return 0;
    }
    if len > (u32::MAX / each) as usize {
        return u32::MAX;
    }
    len as u32 * each
}

/// Returns whether an array of `len` elements is short, which means that its capacity is at most
/// 1,024 bits. The result affects speed only, so this function has no contract.
#[inline]
pub fn is_short<T: FixedCapacity>(len: usize) -> bool {
    bits_capacity::<T>(len) <= 1024
}

// Returns where an index wraps to in a row of `len` elements, or `None` if the index is below the
// capacity. If the row does not fit, its capacity is past every index.
#[inline]
fn wrapped<T: ReadWords + FixedCapacity>(len: usize, index: u32) -> Option<u32>
    requires indexable { IsTrue T.indexable }
    requires some { 0 < len * T.type_capacity }
    ensures { let end = len * T.type_capacity in MatchOption result
        ((index ≡ index % end) × (index < end)) (λ at. (at ≡ index % end) × (at < end)) }
{
    let capacity = bits_capacity::<T>(len);
    if index < capacity || capacity == u32::MAX {
        None
    } else {
        Some(index % capacity)
    }
}

// Returns the number of the element that the bit at `index` lies in, and the bit's index within
// this element. An index at or past the capacity wraps. With capacity 0 the call returns `None`. If
// the elements are those of an array, so that their number is a constant, a division by this number
// costs less than a test whether the index is past the capacity.
#[inline]
fn locate<T: ReadWords + FixedCapacity>(
    len: usize,
    index: u32,
    is_array: bool,
) -> Option<(usize, u32)>
    requires { IsTrue T.indexable }
    ensures { MatchOption result (len * T.type_capacity
        ≡ 0) (λ at. GoesTo len T.type_capacity index at.0 at.1) }
{
    let each = T::fixed_capacity();
    if each == 0 || len == 0 {
        return None;
    }
    if is_array {
        return Some(((index / each) as usize % len, index % each));
    }
    let within = wrapped::<T>(len, index).unwrap_or(index);
    Some(((within / each) as usize, within % each))
}

/// Returns whether the bit at `index` of an array (if `is_array` is `true`) or of a slice is set.
/// An index at or past the capacity wraps. With capacity 0 the call returns `false`.
#[inline]
pub fn test_bit<T: Bits + FixedCapacity, E: Endian>(
    elements: &[T],
    index: u32,
    is_array: bool,
) -> bool
    requires { IsTrue T.indexable }
    ensures { result ≡ contains (row_in T.Shape E.Endian elements.now) index }
{
    match locate::<T>(elements.len(), index, is_array) {
        Some((element, at)) => elements[element].test_bit_in::<E>(at),
        None => false,
    }
}

// Changes the bit at `at` of an element: sets it if `K` is `Ones`, and clears it if `K` is `Zeros`.
#[inline]
fn put_in_element<T: BitsMut + FixedCapacity, E: Endian, K: Kind>(element: &mut T, at: u32)
    requires { IsTrue T.indexable }
    ensures { read_in E.mirrored T.width (T.big element.new)
        ≡ with_bit K.ONES (read_in E.mirrored T.width (T.big element.old)) at }
{
    if K::ONES {
        element.set_bit_in::<E>(at);
    } else {
        element.clear_bit_in::<E>(at);
    }
}

// Returns the number of the element that the bit at `index` lies in, and a copy of this element in
// which this bit is changed.
#[inline]
fn changed_element<T: BitsMut + FixedCapacity + Copy, E: Endian, K: Kind>(
    elements: &[T],
    index: u32,
) -> (usize, T)
    requires indexable { IsTrue T.indexable }
    requires filled { 0 < length elements.now }
    requires some { 0 < T.type_capacity }
    requires within { index < length elements.now * T.type_capacity }
    ensures element { result.0 < length elements.now }
    ensures changed { (i : ℕ) → index ≡ i % (length elements.now * T.type_capacity)
        → row_in T.Shape E.Endian (set elements.now result.0 result.1)
        ≡ with_bit K.ONES (row_in T.Shape E.Endian elements.now) i }
{
    let each = T::fixed_capacity();
    let element = (index / each) as usize;
    let mut changed = elements[element];
    put_in_element::<T, E, K>(&mut changed, index % each);
    (element, changed)
}

/// Changes the bit at `index` of an array (if `is_array` is `true`) or of a slice: sets it if `K`
/// is `Ones`, and clears it if `K` is `Zeros`. An index at or past the capacity wraps. With
/// capacity 0 nothing changes.
///
/// In a slice of words, an index that wraps and one that does not have a branch each, which changes
/// a copy of the word. The copy is stored after both. So the compiler changes the bit in a
/// register, by one instruction, and not in memory. The branch of the index that wraps stands
/// first, because the compiler then adds no jump to the other branch. In little-endian order it
/// finds no such instruction, and changes the word in memory.
#[inline]
pub fn put_bit<T: BitsMut + FixedCapacity + Copy, E: Endian, K: Kind>(
    elements: &mut [T],
    index: u32,
    is_array: bool,
)
    requires { IsTrue T.indexable }
    ensures { row_in T.Shape E.Endian elements.new ≡ with_bit K.ONES
        (row_in T.Shape E.Endian elements.old) index }
{
    if is_array || E::is_mirrored() || T::fixed_capacity() != word_width::<T>() {
        if let Some((element, at)) = locate::<T>(elements.len(), index, is_array) {
            put_in_element::<T, E, K>(&mut elements[element], at);
        }
    } else if elements.len() != 0 {
        let (element, changed) = match wrapped::<T>(elements.len(), index) {
            Some(within) => changed_element::<T, E, K>(elements, within),
            None => changed_element::<T, E, K>(elements, index),
        };
        elements[element] = changed;
    }
}

/// Clears every bit.
pub fn clear_bits<T: BitsMut + FixedCapacity>(elements: &mut [T])
    ensures { row_of T.Shape elements.new ≡ without_members (row_of T.Shape elements.old) }
{
    for element in elements.iter_mut() {
        element.clear_bits();
    }
}

// Changes each bit of element `at` whose index within the element is in `from..to`, by the
// operation `O`.
#[inline]
fn assign_in_element<T: BitsMut + FixedCapacity, E: Endian, O: RangeOperation>(
    elements: &mut [T],
    at: u32,
    from: u32,
    to: u32,
)
    requires element { at < length elements.old }
    requires ordered { from ≤ to }
    requires within { to ≤ T.type_capacity }
    requires fits { IsTrue T.indexable }
    ensures set { read_in E.mirrored T.width (row_set
        (length elements.old) T.type_capacity T.big elements.new) ≡ with_span_changed
        (λ b. O.decide b true) (row_in T.Shape E.Endian elements.old) (at * T.type_capacity + from)
        (at * T.type_capacity + to) }
    ensures length { length elements.new ≡ length elements.old }
{
    elements[at as usize].assign_range_by_operation::<E, O>(from, to);
}

// Returns five numbers. The first is how many bits an element has. The next two are the element
// that the first index of `from..to` lies in, and the index within this element. The last two are
// the same for the last index of `from..to`.
#[inline]
fn element_ends<T: ReadWords + FixedCapacity>(
    len: usize,
    from: u32,
    to: u32,
) -> (u32, u32, u32, u32, u32)
    requires fits { IsTrue T.indexable }
    requires ordered { from < to }
    requires within { to ≤ len * T.type_capacity }
    ensures each { result.0 ≡ T.type_capacity }
    ensures at { LiesAt T.type_capacity from to result.1 result.2 result.3 result.4 }
    ensures last { result.3 < len }
{
    let each = T::fixed_capacity();
    let (first, begin, last, top) = ends(each, from, to);
    (each, first, begin, last, top)
}

/// Changes each bit with an index in `from..to` by the operation `O`: `Union` sets these bits,
/// `Difference` clears them, and `SymmetricDifference` flips them. Each element between the first
/// and the last one of the range is changed as a whole. If the elements are words, the same mask
/// changes each of these.
pub fn assign_range<T: BitsMut + FixedCapacity, E: Endian, O: RangeOperation>(
    elements: &mut [T],
    from: u32,
    to: u32,
)
    requires fits { Fits T.indexable (length elements.old * T.type_capacity) }
    requires ordered { from ≤ to }
    requires within { to ≤ length elements.old * T.type_capacity }
    ensures { row_in T.Shape E.Endian elements.new ≡ with_span_changed (λ b. O.decide b true)
        (row_in T.Shape E.Endian elements.old) from to }
{
    if from == to {
        return;
    }
    let (each, first, begin, last, top) = element_ends::<T>(elements.len(), from, to);
    if first == last {
        assign_in_element::<T, E, O>(elements, first, begin, top + 1);
        return;
    }
    assign_in_element::<T, E, O>(elements, first, begin, each);
    for at in first + 1..last {
        assign_in_element::<T, E, O>(elements, at, 0, each);
    }
    assign_in_element::<T, E, O>(elements, last, 0, top + 1);
}

// Combines element `at` of the row with `other`. Suppose that the row is `xs` with the elements
// below `at` combined with those of `ys`, and that `other` is element `at` of `ys`. Then the
// elements below `at + 1` are combined afterwards.
#[inline]
fn combine_element<T: BitsMut, O: Operation>(elements: &mut [T], at: usize, other: &T)
    requires { at < length elements.old }
    ensures one_more { (xs ys : List T) → at < length ys → get_or ys at other.now ≡ other.now
        → IsCombinedBelow O.decide T.big xs ys elements.old at
        → IsCombinedBelow O.decide T.big xs ys elements.new (at + 1) }
    ensures length { length elements.new ≡ length elements.old }
{
    elements[at].assign_by_operation::<O>(other);
}

// Combines four elements, from `from` on, with the elements of `others` at the same places. It
// reads all four of `others` before it changes an element. So the compiled code needs no test
// whether the two rows overlap.
#[inline]
fn combine_four<T: BitsMut + Copy, O: Operation>(elements: &mut [T], others: &[T], from: usize)
    requires elements { from + 4 ≤ length elements.old }
    requires others { from + 4 ≤ length others.now }
    ensures four_more { (xs : List T)
        → IsCombinedBelow O.decide T.big xs others.now elements.old from
        → IsCombinedBelow O.decide T.big xs others.now elements.new (from + 4) }
    ensures length { length elements.new ≡ length elements.old }
{
    let first = others[from];
    let second = others[from + 1];
    let third = others[from + 2];
    let fourth = others[from + 3];
    combine_element::<T, O>(elements, from, &first);
    combine_element::<T, O>(elements, from + 1, &second);
    combine_element::<T, O>(elements, from + 2, &third);
    combine_element::<T, O>(elements, from + 3, &fourth);
}

// Combines the first `common` elements with those of `others`, four at a time.
#[inline]
fn combine_by_fours<T: BitsMut + Copy, O: Operation>(
    elements: &mut [T],
    others: &[T],
    common: usize,
)
    requires elements { common ≤ length elements.old }
    requires others { common ≤ length others.now }
    ensures { IsCombinedBelow O.decide T.big elements.old others.now elements.new common }
{
    for four in 0..common / 4 {
        combine_four::<T, O>(elements, others, four * 4);
    }
    let done = common / 4 * 4;
    for rest in 0..common % 4 {
        combine_element::<T, O>(elements, done + rest, &others[done + rest]);
    }
}

// Combines the first `common` elements with those of `others`, one by one.
#[inline]
fn combine_each<T: BitsMut, O: Operation>(elements: &mut [T], others: &[T], common: usize)
    requires elements { common ≤ length elements.old }
    requires others { common ≤ length others.now }
    ensures { IsCombinedBelow O.decide T.big elements.old others.now elements.new common }
{
    for at in 0..common {
        combine_element::<T, O>(elements, at, &others[at]);
    }
}

/// Combines each element with the element of `others` at the same place, if there is one. Elements
/// that are one word of at least 32 bits are combined four at a time.
#[inline(always)]
pub fn combine<T: BitsMut + FixedCapacity + Copy, O: Operation>(elements: &mut [T], others: &[T])
    ensures { (mirrored : Bool) → row_mirrored T.Shape mirrored elements.new
        ≡ combination_of O.decide (row_mirrored T.Shape mirrored elements.old)
        (row_mirrored T.Shape mirrored others.now) }
{
    let common = elements.len().min(others.len());
    let width = word_width::<T>();
    if T::fixed_capacity() == width && 32 <= width {
        combine_by_fours::<T, O>(elements, others, common);
    } else {
        combine_each::<T, O>(elements, others, common);
    }
}

/// Counts the set bits.
pub fn count_ones<T: Bits + FixedCapacity>(elements: &[T]) -> u32
    requires { Fits T.indexable (length elements.now * T.type_capacity) }
    ensures value { result ≡ size (row_of T.Shape elements.now) }
    ensures in_each_order { (mirrored : Bool) → result ≡ size
        (row_mirrored T.Shape mirrored elements.now) }
    ensures at_most { result ≤ length elements.now * T.type_capacity }
{
    let mut total = 0;
    for element in elements {
        total += element.count_ones();
    }
    total
}

/// Returns whether an element has no bit of the kind `K`.
#[inline]
fn has_none<T: Bits + FixedCapacity, K: Kind>(element: &T) -> bool
    ensures { result ≡ (size (T.big element.now) == cond K.ONES 0 T.type_capacity) }
{
    if K::ONES {
        element.all_zeros()
    } else {
        element.all_ones()
    }
}

// Returns whether none of the elements `from..to` has a bit of the kind `K`. It tests all of these
// elements, so the compiler can process several at once.
#[inline]
fn part_is_without<T: Bits + FixedCapacity, K: Kind>(elements: &[T], from: usize, to: usize) -> bool
    requires ordered { from ≤ to }
    requires within { to ≤ length elements.now }
    ensures all_without { result ≡ true → (k : ℕ) (d : T) → from ≤ k → k < to
        → size (T.big (get_or elements.now k d)) ≡ cond K.ONES 0 T.type_capacity }
    ensures one_with { result ≡ false → (size (row_of T.Shape elements.now) == cond K.ONES 0
        (length elements.now * T.type_capacity)) ≡ false }
{
    let mut without = true;
    for at in from..to {
        without = without & has_none::<T, K>(&elements[at]);
    }
    without
}

// Returns whether no element has a bit of the kind `K`. The caller knows that the elements before
// `from` have no such bit. The call tests the other elements one by one, until one has such a bit.
#[inline]
fn rest_is_without<T: Bits + FixedCapacity, K: Kind>(elements: &[T], from: usize) -> bool
    requires within { from ≤ length elements.now }
    requires without { (k : ℕ) (d : T) → k < from
        → size (T.big (get_or elements.now k d)) ≡ cond K.ONES 0 T.type_capacity }
    ensures { result ≡ (size (row_of T.Shape elements.now) == cond K.ONES 0
        (length elements.now * T.type_capacity)) }
{
    for at in from..elements.len() {
        if !has_none::<T, K>(&elements[at]) {
            return false;
        }
    }
    true
}

// Returns whether no element has a bit of the kind `K`. It tests the first element by itself, since
// this one often decides. If each element is one word, and there are at least eight, it then tests
// eight at a time, the first one again among them, and the rest one by one. It tests larger
// elements one by one, since seven of eight tests might be wasted.
fn is_without_by_turns<T: Bits + FixedCapacity, K: Kind>(elements: &[T]) -> bool
    ensures { result ≡ (size (row_of T.Shape elements.now) == cond K.ONES 0
        (length elements.now * T.type_capacity)) }
{
    if elements.len() == 0 {
        return true;
    }
    if !has_none::<T, K>(&elements[0]) {
        return false;
    }
    if elements.len() < 8 || T::fixed_capacity() != word_width::<T>() {
        return rest_is_without::<T, K>(elements, 1);
    }
    for eight in 0..elements.len() / 8 {
        if !part_is_without::<T, K>(elements, eight * 8, eight * 8 + 8) {
            return false;
        }
    }
    rest_is_without::<T, K>(elements, elements.len() / 8 * 8)
}

// Returns whether no element has a bit of the kind `K`. It tests all elements, and is called for
// short arrays only.
#[inline]
fn is_without_at_once<T: Bits + FixedCapacity, K: Kind>(elements: &[T]) -> bool
    ensures { result ≡ (size (row_of T.Shape elements.now) == cond K.ONES 0
        (length elements.now * T.type_capacity)) }
{
    part_is_without::<T, K>(elements, 0, elements.len())
}

/// Returns whether no element has a bit of the kind `K`. It tests all elements if `at_once` is
/// `true`.
#[inline]
fn is_without<T: Bits + FixedCapacity, K: Kind>(elements: &[T], at_once: bool) -> bool
    ensures value { result ≡ (size (row_of T.Shape elements.now) == cond K.ONES 0
        (length elements.now * T.type_capacity)) }
    ensures in_each_order { (mirrored : Bool) → result ≡ (size
        (row_mirrored T.Shape mirrored elements.now) == cond K.ONES 0
        (length elements.now * T.type_capacity)) }
{
    if at_once {
        return is_without_at_once::<T, K>(elements);
    }
    is_without_by_turns::<T, K>(elements)
}

/// Returns whether no bit is set. The call tests all elements if `at_once` is `true`.
#[inline]
pub fn all_zeros<T: Bits + FixedCapacity>(elements: &[T], at_once: bool) -> bool
    ensures value { result ≡ (size (row_of T.Shape elements.now) == 0) }
    ensures in_each_order { (mirrored : Bool) → result ≡ (size
        (row_mirrored T.Shape mirrored elements.now) == 0) }
{
    is_without::<T, Ones>(elements, at_once)
}

/// Returns whether every bit is set. The call tests all elements if `at_once` is `true`.
#[inline]
pub fn all_ones<T: Bits + FixedCapacity>(elements: &[T], at_once: bool) -> bool
    ensures value { result ≡ (size
        (row_of T.Shape elements.now) == length elements.now * T.type_capacity) }
    ensures in_each_order { (mirrored : Bool) → result ≡ (size
        (row_mirrored T.Shape mirrored elements.now) == length elements.now * T.type_capacity) }
{
    is_without::<T, Zeros>(elements, at_once)
}

/// Returns the element that word `k` of a row lies in, and the number of that word in the element.
#[inline]
fn locate_word<T: ReadWords + FixedCapacity>(len: usize, k: usize) -> (usize, usize)
    requires fits { Fits T.indexable (len * T.type_capacity) }
    requires within { k * T.width < len * T.type_capacity }
    ensures { GoesTo len T.type_capacity (k * T.width) result.0 (result.1 * T.width) }
{
    let each = (T::fixed_capacity() / word_width::<T>()) as usize;
    (k / each, k % each)
}

/// Returns word `k` of the row, which lies in one element.
#[inline]
pub fn leaf_word<T: ReadWords + FixedCapacity>(elements: &[T], k: usize) -> T::LeafWord
    requires fits { Fits T.indexable (length elements.now * T.type_capacity) }
    requires within { k * T.width < length elements.now * T.type_capacity }
    ensures { bit_set T.width (T.LeafWord.pattern result) ≡ word_of T.width
        (row_of T.Shape elements.now) k }
{
    let (element, at) = locate_word::<T>(elements.len(), k);
    elements[element].nth_leaf_word(at)
}

/// Replaces word `k` of the row, which lies in one element.
#[inline]
pub fn set_leaf_word<T: BitsMut + FixedCapacity>(elements: &mut [T], k: usize, word: T::LeafWord)
    requires fits { Fits T.indexable (length elements.old * T.type_capacity) }
    requires within { k * T.width < length elements.old * T.type_capacity }
    ensures { ReplacesWord T.width (row_of T.Shape elements.old) k (bit_set T.width
        (T.LeafWord.pattern word)) (row_of T.Shape elements.new) }
{
    let (element, at) = locate_word::<T>(elements.len(), k);
    elements[element].set_nth_leaf_word(at, word);
}

// Passes over words at the end `N` of `low..high`, in the one element that lies at that end. The
// element knows that the words passed over have no bit of the kind `K`. The call returns the new
// `low` if `N` is the front, and the new `high` if `N` is the back. It also returns whether it
// passed over all words of `low..high` that lie in the element. This answer affects speed only, so
// no clause states it. The range `low..high` must not be empty.
#[inline]
fn pass_over_in_element<T: ReadWords + FixedCapacity, K: Kind, N: End>(
    elements: &[T],
    low: usize,
    high: usize,
) -> (usize, bool)
    requires fits { Fits T.indexable (length elements.now * T.type_capacity) }
    requires some { low < high }
    requires within { high * T.width ≤ length elements.now * T.type_capacity }
    ensures { PassesOver N.FRONT T.width (ones_or_zeros K.ONES (row_of T.Shape elements.now)) low
        high result.0 }
{
    let each = (T::fixed_capacity() / word_width::<T>()) as usize;
    let word = words_at_end::<N>(low, high - 1);
    let (element, at) = locate_word::<T>(elements.len(), word);
    let start = word - at;
    let from = low.max(start) - start;
    let to = (high - start).min(each);
    let on = elements[element].pass_over::<K, N>(from, to);
    (start + on, on == words_at_end::<N>(to, from))
}

// Passes over words at the end `N` of `low..high`, one element after another. The elements know
// that the words passed over have no bit of the kind `K`. The call returns the new `low` if `N` is
// the front, and the new `high` if `N` is the back.
fn pass_over_elements<T: ReadWords + FixedCapacity, K: Kind, N: End>(
    elements: &[T],
    low: usize,
    high: usize,
) -> usize
    requires fits { Fits T.indexable (length elements.now * T.type_capacity) }
    requires ordered { low ≤ high }
    requires within { high * T.width ≤ length elements.now * T.type_capacity }
    ensures { PassesOver N.FRONT T.width (ones_or_zeros K.ONES (row_of T.Shape elements.now)) low
        high result }
{
    let mut at = words_at_end::<N>(low, high);
    loop {
        let from = words_at_end::<N>(at, low);
        let to = words_at_end::<N>(high, at);
        if from == to {
            return at;
        }
        let (on, is_whole) = pass_over_in_element::<T, K, N>(elements, from, to);
        if on == at || !is_whole {
            return on;
        }
        at = on;
    }
}

/// Passes over words at the end `N` of `low..high`. The elements know that the words passed over
/// have no bit of the kind `K`. The call returns the new `low` if `N` is the front, and the new
/// `high` if `N` is the back.
///
/// It calls `pass_over` of elements only if their type may pass over words.
#[inline(always)]
pub fn pass_over<T: ReadWords + FixedCapacity, K: Kind, N: End>(
    elements: &[T],
    low: usize,
    high: usize,
) -> usize
    requires fits { Fits T.indexable (length elements.now * T.type_capacity) }
    requires ordered { low ≤ high }
    requires within { high * T.width ≤ length elements.now * T.type_capacity }
    ensures { PassesOver N.FRONT T.width (ones_or_zeros K.ONES (row_of T.Shape elements.now)) low
        high result }
{
    if !T::MAY_PASS_OVER {
        return words_at_end::<N>(low, high);
    }
    pass_over_elements::<T, K, N>(elements, low, high)
}
