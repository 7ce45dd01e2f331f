//! Rows of twelve words that count the calls made to them, and checks of what one call costs.
//!
//! The measured calls are written for any set, so each is proved once. The tests make them on the
//! rows of `measure_rows`, `read_rows` and `change_rows`. Most tests use `few`: its members 451 and
//! 508 lie in word 7.

ghost use Rattle.std.specs.Prelude.{◌*◌, ◌≤◌, length, IsTrue};
ghost use Rattle.bittle.specs.Shapes.{Fits};
ghost use Rattle.bittle.specs.Values.{ShapeFits};

use crate::asked::Asked;
use crate::checks::{Compared, same_values};
use crate::word_probe::WordProbe;
use bittle::{Bits, BitsMut, BitsOwned, Shape};
use std::process::Abort;

/// Calls whose costs are measured.
pub(crate) trait Measured: Sized {
    /// Makes the calls. The set `few` has the members 451 and 508, `most` has all others, `one` has
    /// only 451, and `none` is empty. The set `low` has the members of `few`, and the first bit of
    /// each word but word 7. The set `lower` has the members of `few`, and the first two bits of
    /// each word but word 7.
    fn measure<B: BitsOwned>(
        self,
        rt: &impl Abort,
        few: B,
        most: B,
        one: B,
        none: B,
        low: B,
        lower: B,
        asked: &Asked,
    )
        requires indexable { IsTrue B.indexable }
        requires long { 768 ≤ B.type_capacity };
}

// Measures calls on rows of any element type. For `[T; 12]` the calls are proved in less time than
// for `[WordProbe; 12]`.
fn measure_any_rows<M: Measured, T: BitsOwned>(
    rt: &impl Abort,
    calls: M,
    few: [T; 12],
    most: [T; 12],
    one: [T; 12],
    none: [T; 12],
    low: [T; 12],
    lower: [T; 12],
    asked: &Asked,
)
    requires indexable { IsTrue ⟦<[T; 12] as Shape>⟧.indexable }
    requires long { 768 ≤ 12 * T.type_capacity }
{
    calls.measure(rt, few, most, one, none, low, lower, asked);
}

/// Measures calls on the six rows that [`measure`](Measured::measure) describes.
pub(crate) fn measure_rows<M: Measured>(rt: &impl Abort, calls: M) {
    let asked = Asked::new();
    measure_any_rows(
        rt,
        calls,
        row_of(0, TWO, &asked),
        row_of(!0, !TWO, &asked),
        row_of(0, 8, &asked),
        row_of(0, 0, &asked),
        row_of(1, TWO, &asked),
        row_of(3, TWO, &asked),
        &asked,
    );
}

/// Calls that read sets. Their costs are measured on arrays and on slices.
pub(crate) trait Reading: Copy {
    /// Makes the calls on the sets that [`measure`](Measured::measure) describes.
    fn read<B: Bits>(
        self,
        rt: &impl Abort,
        few: &B,
        most: &B,
        one: &B,
        none: &B,
        low: &B,
        lower: &B,
        asked: &Asked,
    )
        requires few { ShapeFits B.Shape few.now }
        requires most { ShapeFits B.Shape most.now }
        requires one { ShapeFits B.Shape one.now }
        requires none { ShapeFits B.Shape none.now }
        requires low { ShapeFits B.Shape low.now }
        requires lower { ShapeFits B.Shape lower.now };
}

// Makes the calls on arrays and on slices of them. For `[T; 12]` the calls are proved in less time
// than for `[WordProbe; 12]`.
fn read_any_rows<R: Reading, T: BitsOwned>(
    rt: &impl Abort,
    calls: R,
    few: &[T; 12],
    most: &[T; 12],
    one: &[T; 12],
    none: &[T; 12],
    low: &[T; 12],
    lower: &[T; 12],
    asked: &Asked,
)
    requires { IsTrue ⟦<[T; 12] as Shape>⟧.indexable }
{
    calls.read(rt, few, most, one, none, low, lower, asked);
    read_slices(rt, calls, few, most, one, none, low, lower, asked);
}

// Makes the calls on slices.
fn read_slices<'a, R: Reading, T: BitsOwned>(
    rt: &impl Abort,
    calls: R,
    few: &'a [T],
    most: &'a [T],
    one: &'a [T],
    none: &'a [T],
    low: &'a [T],
    lower: &'a [T],
    asked: &Asked,
)
    requires few { Fits T.indexable (length few.now * T.type_capacity) }
    requires most { Fits T.indexable (length most.now * T.type_capacity) }
    requires one { Fits T.indexable (length one.now * T.type_capacity) }
    requires none { Fits T.indexable (length none.now * T.type_capacity) }
    requires low { Fits T.indexable (length low.now * T.type_capacity) }
    requires lower { Fits T.indexable (length lower.now * T.type_capacity) }
{
    calls.read(rt, &few, &most, &one, &none, &low, &lower, asked);
}

/// Measures calls on the six rows that [`measure`](Measured::measure) describes: on the arrays, and
/// on slices of them.
pub(crate) fn read_rows<R: Reading>(rt: &impl Abort, calls: R) {
    let asked = Asked::new();
    let (few, most) = (row_of(0, TWO, &asked), row_of(!0, !TWO, &asked));
    let (one, none) = (row_of(0, 8, &asked), row_of(0, 0, &asked));
    let (low, lower) = (row_of(1, TWO, &asked), row_of(3, TWO, &asked));
    read_any_rows(rt, calls, &few, &most, &one, &none, &low, &lower, &asked);
}

/// Calls that change sets. Their costs are measured on arrays and on slices.
pub(crate) trait Changing: Copy {
    /// Makes the calls on `few` and `most`, which [`measure`](Measured::measure) describes.
    fn change<B: BitsMut>(self, rt: &impl Abort, few: &mut B, most: &mut B, asked: &Asked)
        requires few { ShapeFits B.Shape few.old }
        requires most { ShapeFits B.Shape most.old }
        requires long { 768 ≤ (B.big few.old).capacity };
}

// Makes the calls on arrays, and on slices of such arrays.
fn change_any_rows<C: Changing, T: BitsOwned>(
    rt: &impl Abort,
    calls: C,
    few: [T; 12],
    most: [T; 12],
    asked: &Asked,
)
    requires indexable { IsTrue ⟦<[T; 12] as Shape>⟧.indexable }
    requires long { 768 ≤ 12 * T.type_capacity }
{
    let (mut left, mut right) = (few, most);
    calls.change(rt, &mut left, &mut right, asked);
    let (mut left, mut right) = (few, most);
    let (mut left, mut right) = (left.as_mut_slice(), right.as_mut_slice());
    calls.change(rt, &mut left, &mut right, asked);
}

/// Measures calls on rows like `few` and `most` of [`measure`](Measured::measure): on arrays, and
/// on slices of such arrays.
pub(crate) fn change_rows<C: Changing>(rt: &impl Abort, calls: C) {
    let asked = Asked::new();
    change_any_rows(
        rt,
        calls,
        row_of(0, TWO, &asked),
        row_of(!0, !TWO, &asked),
        &asked,
    );
}

/// A row of twelve words. Each word has 64 bits, so the capacity of the row is 768.
pub(crate) type Row<'a> = [WordProbe<'a>; 12];

/// The word in which only bits 3 and 60 are set. In word 7 of a row these bits have the indexes 451
/// and 508.
pub(crate) const TWO: u64 = 0x1000_0000_0000_0008;

/// Returns a row in which word 7 is `word` and each other word is `rest`.
pub(crate) fn row_of(rest: u64, word: u64, asked: &Asked) -> Row<'_> {
    let mut row = [WordProbe::of(rest, asked); 12];
    row[7] = WordProbe::of(word, asked);
    row
}

/// Checks what a call returns, how many words it fetches, and how many other calls it makes to the
/// words. Calls of `capacity` do not count. Then sets the counts to 0. It has no text, because a
/// text takes almost half of the time to prove the check and the call.
macro_rules! costs {
    ($rt:expr; $asked:expr, $call:expr, $returned:expr, $fetched:expr, $other:expr) => {
        $crate::probe_rows::compare_costs($rt, $asked, $call, $returned, $fetched, $other);
    };
}

pub(crate) use costs;

/// Ends the test unless a call returned `wanted`, fetched `fetched` words and made `other` other
/// calls. Then sets the counts to 0. The statements are in a function because a call of it is
/// proved in half the time that they take.
pub(crate) fn compare_costs<T: Compared>(
    rt: &impl Abort,
    asked: &Asked,
    returned: T,
    wanted: T,
    fetched: u32,
    other: u32,
) {
    same_values(rt, returned, wanted);
    asked.counts(rt, 0, fetched, other);
    asked.restart();
}
