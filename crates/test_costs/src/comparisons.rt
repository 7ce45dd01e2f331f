//! Tests how many words comparisons fetch. If two sets are equal, a comparison fetches each word
//! once, but the first word of a slice twice. If two sets differ, a test of equality fetches no
//! word past the group of four words in which the first difference lies.

ghost use Rattle.std.specs.Prelude.{◌*◌, length, IsTrue};
ghost use Rattle.bittle.specs.Shapes.{Fits};
ghost use Rattle.bittle.specs.Values.{ShapeFits};

use crate::asked::{Asked, counts};
use crate::checks::holds;
use crate::probe::{ONES, Probe};
use crate::word_probe::WordProbe;
use bittle::{Bits, BitsOwned, Set, Shape};
use std::cmp::Ordering;

// How two sets compare: whether they are equal, or how they are ordered.
#[derive(Drop)]
enum Relation {
    Equal,
    Unequal,
    Ordered(Ordering),
}

// Returns whether two sets are in the given relation.
fn are<A: Bits, B: Bits>(relation: Relation, one: A, other: &B) -> bool
    requires one { ShapeFits A.Shape one }
    requires other { ShapeFits B.Shape other.now }
{
    let set = Set::new(one);
    match relation {
        Relation::Equal => set.eq_bits(other),
        Relation::Unequal => !set.eq_bits(other),
        Relation::Ordered(order) => set.cmp_bits(other) == order,
    }
}

// What an element is compared with: another element, a `Set` that wraps an element in either bit
// order, or three bytes.
#[derive(Drop)]
enum Second {
    Element,
    Set,
    SetFromLeft,
    ThreeBytes,
}

// Returns whether an element is in the given relation to what `second` names.
fn elements_are<T: BitsOwned>(relation: Relation, second: Second, one: T, other: T) -> bool
    requires { IsTrue T.indexable }
{
    match second {
        Second::Element => are(relation, one, &other),
        Second::Set => are(relation, one, &Set::new(other)),
        Second::SetFromLeft => are(relation, one, &Set::new_le(other)),
        Second::ThreeBytes => are(relation, one, &[1u8, 2, 0]),
    }
}

// Returns whether an element is in the given relation to a row.
fn element_and_row_are<T: BitsOwned>(relation: Relation, one: T, other: [T; 2]) -> bool
    requires element { IsTrue T.indexable }
    requires row { IsTrue ⟦<[T; 2] as Shape>⟧.indexable }
{
    are(relation, one, &other)
}

// Returns whether a row is in the given relation to an element.
fn row_and_element_are<T: BitsOwned>(relation: Relation, one: [T; 2], other: T) -> bool
    requires element { IsTrue T.indexable }
    requires row { IsTrue ⟦<[T; 2] as Shape>⟧.indexable }
{
    are(relation, one, &other)
}

// Returns whether two rows are in the given relation.
fn rows_are<T: BitsOwned>(relation: Relation, one: [T; 2], other: [T; 2]) -> bool
    requires { IsTrue ⟦<[T; 2] as Shape>⟧.indexable }
{
    are(relation, one, &other)
}

// What is compared: the first elements of two rows, the two rows, or an element and a row.
#[derive(Drop)]
enum Sides {
    Elements(Second),
    ElementAndRow,
    RowAndElement,
    Rows,
}

// Returns whether the sides that `sides` names are in the given relation.
fn sides_are<T: BitsOwned>(relation: Relation, sides: Sides, one: [T; 2], other: [T; 2]) -> bool
    requires element { IsTrue T.indexable }
    requires row { IsTrue ⟦<[T; 2] as Shape>⟧.indexable }
{
    let (left, right) = (one[0], other[0]);
    match sides {
        Sides::Elements(second) => elements_are(relation, second, left, right),
        Sides::ElementAndRow => element_and_row_are(relation, left, other),
        Sides::RowAndElement => row_and_element_are(relation, one, right),
        Sides::Rows => rows_are(relation, one, other),
    }
}

// Returns a row of two probes of these bytes. Calls to them are counted in `asked`.
fn pair<'a>(bytes: [[u8; 4]; 2], asked: &'a Asked) -> [Probe<'a>; 2] {
    [Probe::of(bytes[0], asked), Probe::of(bytes[1], asked)]
}

// Does the same as `sides_are` for two rows of probes of these bytes.
fn bytes_are<'a>(
    relation: Relation,
    sides: Sides,
    one: [[u8; 4]; 2],
    left: &'a Asked,
    other: [[u8; 4]; 2],
    right: &'a Asked,
) -> bool {
    sides_are(relation, sides, pair(one, left), pair(other, right))
}

#[test]
fn equality_fetches_each_word_once(rt: HostRuntime) {
    let (left, right) = (Asked::new(), Asked::new());
    let sides = Sides::Elements(Second::Set);
    holds!(rt; bytes_are(Relation::Equal, sides, [ONES; 2], &left, [ONES; 2], &right));
    holds!(rt; left.is_at_most(4) && right.is_at_most(4));

    // The two sides are read in different orders.
    let (left, right) = (Asked::new(), Asked::new());
    let (sides, other) = (Sides::Elements(Second::SetFromLeft), [[128, 0, 0, 1]; 2]);
    holds!(rt; bytes_are(Relation::Equal, sides, [ONES; 2], &left, other, &right));
    holds!(rt; left.is_at_most(4) && right.is_at_most(4));
}

#[test]
fn words_after_the_last_four_are_compared_one_by_one(rt: HostRuntime) {
    let (left, right) = (Asked::new(), Asked::new());
    let sides = Sides::Elements(Second::ThreeBytes);
    holds!(rt; bytes_are(Relation::Unequal, sides, [ONES; 2], &left, [ONES; 2], &right));
    holds!(rt; left.is_at_most(2));
}

#[test]
fn comparisons_with_a_longer_side_fetch_each_word_once(rt: HostRuntime) {
    // The right side has no member in its second element.
    let (left, right) = (Asked::new(), Asked::new());
    let other = [ONES, [0; 4]];
    holds!(rt; bytes_are(Relation::Equal, Sides::ElementAndRow, [ONES; 2], &left, other, &right));
    holds!(rt; left.is_at_most(4) && right.is_at_most(8));
}

#[test]
fn a_difference_in_the_first_word_ends_a_comparison(rt: HostRuntime) {
    // The first four of eight words are fetched, and are compared in one test. Then the first of
    // them is fetched again to find the index of the difference.
    let (left, right) = (Asked::new(), Asked::new());
    let other = [[2, 0, 0, 128], ONES];
    holds!(rt; bytes_are(Relation::Unequal, Sides::Rows, [ONES; 2], &left, other, &right));
    counts!(rt; left, 5, 0);
    counts!(rt; right, 5, 0);
}

#[test]
fn wide_words_are_compared_by_words(rt: HostRuntime) {
    // The first words differ, so the second word of neither side is fetched.
    let (left, right) = (Asked::new(), Asked::new());
    let one = [WordProbe::of(1, &left); 2];
    let other = [WordProbe::of(2, &right), WordProbe::of(1, &right)];
    holds!(rt; sides_are(Relation::Unequal, Sides::Rows, one, other));
    counts!(rt; left, 1, 0);
    counts!(rt; right, 1, 0);
}

#[test]
fn comparisons_ask_this_side_for_an_index_of_the_other(rt: HostRuntime) {
    // Only the right set has the member 9. From each set four words are fetched for one test, and
    // two of them again to find index 9. From the left set word 1, in which index 9 lies, is then
    // fetched again. Then words 1 to 3 are fetched to search for a member past 9.
    let (left, right) = (Asked::new(), Asked::new());
    let (relation, other) = (Relation::Ordered(Ordering::Greater), [[1, 2, 0, 128]; 2]);
    let sides = Sides::Elements(Second::Element);
    holds!(rt; bytes_are(relation, sides, [ONES; 2], &left, other, &right));
    counts!(rt; left, 10, 0);
    counts!(rt; right, 6, 0);
}

#[test]
fn comparisons_with_a_shorter_side_fetch_each_word_once(rt: HostRuntime) {
    // The left side has no member in its second element.
    let (left, right) = (Asked::new(), Asked::new());
    let one = [ONES, [0; 4]];
    holds!(rt; bytes_are(Relation::Equal, Sides::RowAndElement, one, &left, [ONES; 2], &right));
    holds!(rt; left.is_at_most(8) && right.is_at_most(4));
}

fn slices_are_equal<T: BitsOwned>(one: &[T], other: &[T]) -> bool
    requires one { Fits T.indexable (length one.now * T.type_capacity) }
    requires other { Fits T.indexable (length other.now * T.type_capacity) }
{
    Set::from_ref(one) == Set::from_ref(other)
}

#[test]
fn the_first_word_of_a_slice_is_asked_before_all(rt: HostRuntime) {
    let (left, right) = (Asked::new(), Asked::new());
    let other = pair([[2, 0, 0, 128], ONES], &right);
    holds!(rt; !slices_are_equal(&pair([ONES; 2], &left), &other));
    counts!(rt; left, 1, 0);
    counts!(rt; right, 1, 0);
}
