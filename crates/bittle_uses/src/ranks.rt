//! Counts of the set bits that lie below an index, or that lie at an index or above it.
//!
//! One function counts in a loop, and one calls `position` of an iterator. `rank` and
//! `count_ones_in_range` of `bittle_ext` return such counts faster, since they count word by word.

ghost use Rattle.std.specs.Prelude.{◌≡◌, ◌==◌, nat_le, position, count_by};
ghost use Rattle.bittle.specs.PlainSet.{ascending};
ghost use Rattle.bittle.specs.Values.{set_in, ShapeFits};

use bittle::Bits;

/// Returns how many set bits lie at `bound` or above it. It steps an iterator from the greatest set
/// bit down.
pub fn how_many_from<B: Bits>(set: &B, bound: u32) -> u32
    requires { ShapeFits B.Shape set.now }
    ensures { result
        ≡ count_by (λ i. nat_le bound i) (ascending (set_in B.Shape B.Order.Endian set.now)) }
{
    let mut count = 0;
    let mut walk = set.iter_ones();
    while let Some(member) = walk.next_back() {
        if member >= bound {
            count += 1;
        }
    }
    count
}

/// Returns how many set bits lie below `index`, or `None` if the bit at `index` is unset.
pub fn rank_of<B: Bits>(set: &B, index: u32) -> Option<usize>
    requires { ShapeFits B.Shape set.now }
    ensures { result
        ≡ position (λ i. i == index) (ascending (set_in B.Shape B.Order.Endian set.now)) }
{
    set.iter_ones().position(|member| member == index)
}
