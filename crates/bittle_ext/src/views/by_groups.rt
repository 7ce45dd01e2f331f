//! Skips words in which two sets have no set bit in common. Each set says which groups of its words
//! may have a set bit. One test covers 64 words. If none of these may have a common bit, the next
//! test covers 64 groups of 64 words.

ghost use Rattle.std.specs.Prelude.{◌≡◌, ◌≢◌, ◌+◌, ◌%◌, ◌^◌, ◌<◌, ◌≤◌, false, cond, max, min};
ghost use Rattle.bittle_ext.specs.Combined.{both_of};
ghost use Rattle.bittle_ext.specs.Groups.{is_inside, MovesOver};
ghost use Rattle.bittle.specs.Searches.{PassesOver, TellsGroups};
ghost use Rattle.bittle.specs.Values.{set_in, ShapeFits};

use bittle::{BigEndian, Endian};
use bittle_bits::extension::{End, Ones, ReadWords, end_in, words_at_end};

/// Returns a number with one bit for each of 64 groups of words. Bit `i` stands for group
/// `64 * n + i`, and each group has `64 ^ level` words. The bit of a group is unset only if no bit
/// of the group is set in both sets. `groups_told` does this for one set.
#[inline(always)]
pub fn told_of_both<A: ReadWords, B: ReadWords, E: Endian, F: Endian>(
    left: &A,
    right: &B,
    n: usize,
    level: u32,
) -> u64
    requires left_fits { ShapeFits A.Shape left.now }
    requires right_fits { ShapeFits B.Shape right.now }
    requires width { A.width ≡ B.width }
    ensures { TellsGroups (64 ^ level) A.width
        (both_of (set_in A.Shape E.Endian left.now) (set_in B.Shape F.Endian right.now)) n result }
{
    left.groups_told::<Ones>(n, level) & right.groups_told::<Ones>(n, level)
}

// Moves the end `N` past groups of `64 ^ level` words in which one of the sets has no set bit, up
// to the next multiple of 64 groups. The sets tell which groups these are. It returns the new end,
// and whether it stopped at a group that may have a common bit.
#[inline(always)]
fn moved<A: ReadWords, B: ReadWords, E: Endian, F: Endian, N: End>(
    left: &A,
    right: &B,
    level: u32,
    at: usize,
) -> (usize, bool)
    requires left_fits { ShapeFits A.Shape left.now }
    requires right_fits { ShapeFits B.Shape right.now }
    requires width { A.width ≡ B.width }
    requires some { 0 < at + cond N.FRONT 1 0 }
    requires small { at < 4294967296 }
    ensures over { MovesOver N.FRONT (64 ^ level) A.width (both_of
        (set_in A.Shape E.Endian left.now) (set_in B.Shape F.Endian right.now)) at result.0 }
    ensures whole { result.1 ≡ false → (result.0 % 64 ≡ 0) × (result.0 ≢ at) }
    ensures near { result.0 ≤ at + 64 }
{
    let number = at - words_at_end::<N>(0, 1);
    let start = number / 64 * 64;
    let from = words_at_end::<N>(number % 64, 0);
    let to = words_at_end::<N>(64, number % 64 + 1);
    let told = told_of_both::<A, B, E, F>(left, right, number / 64, level);
    match end_in::<u64, BigEndian, Ones, N>(&told, from as u32, to as u32) {
        Some(place) => (start + place as usize + words_at_end::<N>(0, 1), true),
        None => (start + words_at_end::<N>(64, 0), false),
    }
}

// Returns whether the end `N` of `low..high` has not reached the other end after it moved to `at`.
#[inline(always)]
fn is_inside<N: End>(low: usize, high: usize, at: usize) -> bool
    ensures { result ≡ is_inside N.FRONT low high at }
{
    if N::FRONT { at < high } else { low < at }
}

// Returns the lesser of `at` and `high` if `N` is the front, else the greater of `at` and `low`.
#[inline(always)]
fn clamped<N: End>(low: usize, high: usize, at: usize) -> usize
    ensures { result ≡ cond N.FRONT (min at high) (max at low) }
{
    if N::FRONT { at.min(high) } else { at.max(low) }
}

/// Skips words at the end `N` of `low..high` in which the two sets have no set bit in common. The
/// sets tell this by groups of words. Returns the new `low` if `N` is the front, else the new
/// `high`.
#[inline(always)]
pub fn passed_by_groups<A: ReadWords, B: ReadWords, E: Endian, F: Endian, N: End>(
    left: &A,
    right: &B,
    low: usize,
    high: usize,
) -> usize
    requires left_fits { ShapeFits A.Shape left.now }
    requires right_fits { ShapeFits B.Shape right.now }
    requires width { A.width ≡ B.width }
    requires ordered { low ≤ high }
    requires small { high < 4294967296 }
    ensures { PassesOver N.FRONT A.width (both_of
        (set_in A.Shape E.Endian left.now) (set_in B.Shape F.Endian right.now)) low high result }
{
    let mut at = words_at_end::<N>(low, high);
    while is_inside::<N>(low, high, at) {
        let (on, may_have) = moved::<A, B, E, F, N>(left, right, 0, at);
        if may_have || !is_inside::<N>(low, high, on) {
            return clamped::<N>(low, high, on);
        }
        at = moved::<A, B, E, F, N>(left, right, 1, on / 64).0 * 64;
    }
    clamped::<N>(low, high, at)
}
