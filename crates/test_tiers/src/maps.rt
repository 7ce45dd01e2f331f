//! Tests a map of 262,144 pages, which has a summary, whose summary has a summary itself.

ghost use Rattle.std.specs.Prelude.{IsTrue};

use crate::calls::{ends_of_zeros, even, searches, with, with_range, without};
use crate::checks::same;
use bittle::{BigEndian, BitsOwned, Shape};
use bittle_tiers::{Ones, Tiered, Tiered4K, Zeros};

// Frees two pages of a full map, then takes the first of the two, then frees a range. Returns the
// first and the last free page after the first change, what searches between the two pages find at
// that time, and the first and the last free page after each of the two later changes.
fn find_last_pages<B: BitsOwned>() -> ([Option<u32>; 2], [Option<u32>; 4], [[Option<u32>; 2]; 2])
    requires { IsTrue B.indexable }
{
    let map = without(even::<B>(true), &[262_143, 100_000]);
    let free = ends_of_zeros(&map);
    let between = searches::<B, BigEndian>(&map, 100_001, 262_143);
    let map = with::<B, BigEndian>(map, &[100_000]);
    let last = ends_of_zeros(&map);
    let map = with_range::<B, BigEndian>(map, 1, 5, 70);
    (free, between, [last, ends_of_zeros(&map)])
}

// Does the same as `find_last_pages` for a map with a summary. The prover needs less time for this
// generic type than for a usual size such as `Tiered256K`.
fn find_last_pages_of_tier<B: BitsOwned, S: BitsOwned>() -> (
    [Option<u32>; 2],
    [Option<u32>; 4],
    [[Option<u32>; 2]; 2],
)
    requires { IsTrue ⟦<Tiered<B, S, Zeros> as Shape>⟧.indexable }
{
    find_last_pages::<Tiered<B, S, Zeros>>()
}

#[test]
fn two_tiers_find_the_last_page(rt: HostRuntime) {
    // The types are the parts of `Tiered256K`.
    let (free, between, ends) = find_last_pages_of_tier::<[u64; 4096], Tiered4K<Ones>>();
    same!(rt; free, [Some(100_000), Some(262_143)]);
    same!(rt; between, [Some(100_001), Some(262_142), None, None]);
    same!(rt; ends, [[Some(262_143), Some(262_143)], [Some(5), Some(262_143)]]);
}
