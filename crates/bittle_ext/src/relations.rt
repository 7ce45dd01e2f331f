//! The search behind the relations of two sets. If their words have the same width and order, it
//! goes word by word, and skips the words that a set with a summary knows to be empty. Else the two
//! sets are searched in turn, each from where the search of the other stopped.

ghost use Rattle.std.specs.Prelude.{◌≡◌, min, MatchOption};
ghost use Rattle.bittle_ext.specs.SetRelations.{first_and};
ghost use Rattle.bittle.specs.Decided.{NoneDecidedBelow, IsFirstDecided};
ghost use Rattle.bittle.specs.Values.{set_in, ShapeFits};

use crate::views::of_both::{FirstOperation, OfBoth};
use bittle::{Bits, Endian};
use bittle_bits::extension::{
    Conjunction, Difference, Front, Kind, Ones, are_alike, end_in, first_decided_below,
};

/// Combines two sets, whose words are alike, by the operation `O`, and returns the least index
/// below both capacities whose bit is set in the result, or `None` if there is none. `end` is the
/// lesser capacity. If a set may know words without a set bit, a view of the result is searched,
/// which skips those words.
#[inline]
fn first_alike<A: Bits, B: Bits, E: Endian, O: FirstOperation>(
    left: &A,
    right: &B,
    end: u32,
) -> Option<u32>
    requires width { A.width ≡ B.width }
    requires left_fits { ShapeFits A.Shape left.now }
    requires right_fits { ShapeFits B.Shape right.now }
    requires least { end ≡ min (A.big left.now).capacity (B.big right.now).capacity }
    ensures { let ours = set_in A.Shape E.Endian left.now in
        let theirs = set_in B.Shape E.Endian right.now in
        MatchOption result (NoneDecidedBelow O.decide ours theirs end)
        (IsFirstDecided O.decide ours theirs) }
{
    if A::MAY_PASS_OVER || B::MAY_PASS_OVER {
        let view = OfBoth::<'_, A, B, E, E, O>::of_first(left, right);
        return end_in::<OfBoth<'_, A, B, E, E, O>, E, Ones, Front>(&view, 0, end);
    }
    first_decided_below::<A, B, E, O>(left, right, end)
}

/// Returns the least index below both capacities whose bit is set in `left`, and whose bit in
/// `right` is of the kind `K` (set or unset). Returns `None` if there is none. `end` is the lesser
/// capacity.
#[inline]
pub fn first_below<A: Bits, B: Bits, E: Endian, F: Endian, K: Kind>(
    left: &A,
    right: &B,
    end: u32,
) -> Option<u32>
    requires left_fits { ShapeFits A.Shape left.now }
    requires right_fits { ShapeFits B.Shape right.now }
    requires least { end ≡ min (A.big left.now).capacity (B.big right.now).capacity }
    ensures { let ours = set_in A.Shape E.Endian left.now in
        let theirs = set_in B.Shape F.Endian right.now in
        MatchOption result (NoneDecidedBelow (first_and K.ONES) ours theirs end)
        (IsFirstDecided (first_and K.ONES) ours theirs) }
{
    if are_alike::<A, B, E, F>() {
        return if K::ONES {
            first_alike::<A, B, E, Conjunction>(left, right, end)
        } else {
            first_alike::<A, B, E, Difference>(left, right, end)
        };
    }
    let mut from = 0;
    while let Some(ours) = left.first_one_in::<E>(from, end) {
        let Some(theirs) = end_in::<B, F, K, Front>(right, ours, end) else {
            return None;
        };
        if theirs == ours {
            return Some(ours);
        }
        from = theirs;
    }
    None
}
