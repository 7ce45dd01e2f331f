//! Counts the indexes whose bits are set in both of two sets, without making a third set. If the
//! words of both sets have the same width and order, the set bits of a view of these indexes are
//! counted. Else each set bit of the first set is tested in the second.

ghost use Rattle.bittle_ext.specs.Combined.{CountsBoth};
ghost use Rattle.bittle.specs.PlainSet.{size};
ghost use Rattle.bittle.specs.Values.{set_in, ShapeFits};

use crate::capacities::capacity_of;
use crate::views::of_both::OfBoth;
use bittle::{Bits, Endian};
use bittle_bits::extension::{Conjunction, are_alike};

/// Counts the indexes whose bits are set in both sets.
#[inline]
pub fn count_common<A: Bits, B: Bits, E: Endian, F: Endian>(left: &A, right: &B) -> u32
    requires left_fits { ShapeFits A.Shape left.now }
    requires right_fits { ShapeFits B.Shape right.now }
    ensures { CountsBoth (set_in A.Shape E.Endian left.now) (set_in B.Shape F.Endian right.now)
        (size (A.big left.now)) (size (B.big right.now)) result }
{
    let common = capacity_of::<A, E>(left).min(capacity_of::<B, F>(right));
    if are_alike::<A, B, E, F>() {
        return OfBoth::<'_, A, B, E, F, Conjunction>::of_first(left, right).count_ones();
    }
    let mut count = 0;
    let mut from = 0;
    while let Some(index) = left.first_one_in::<E>(from, common) {
        if right.test_bit_in::<F>(index) {
            count += 1;
        }
        from = index + 1;
    }
    count
}
