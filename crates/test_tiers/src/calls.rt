//! Generic functions that make calls on sets of any type. A test chooses the type.

ghost use Rattle.std.specs.Prelude.{IsTrue};
ghost use Rattle.bittle.specs.Values.{ShapeFits};

use bittle::walk::Iter;
use bittle::{Bits, BitsMut, BitsOwned, Endian};
use bittle_ext::BitsExt;
use bittle_tiers::Kind;

/// Returns the capacity of the sets of a type, or `u32::MAX` if its shape does not fit.
pub(crate) fn bits<B: BitsOwned>() -> u32 {
    B::bits()
}

/// Returns the capacity of a set, or `u32::MAX` if its shape does not fit.
pub(crate) fn capacity<B: Bits>(set: &B) -> u32 {
    set.bits_capacity()
}

/// Returns the full set of a type if `all` is `true`, and else the empty set.
pub(crate) fn even<B: BitsOwned>(all: bool) -> B
    requires { IsTrue B.indexable }
{
    if all { B::ones() } else { B::zeros() }
}

/// Returns the first item of an iterator.
pub(crate) fn first<B: Bits, E: Endian, K: Kind>(mut walk: Iter<'_, B, E, K>) -> Option<u32> {
    walk.next()
}

/// Returns the last item of an iterator.
pub(crate) fn last<B: Bits, E: Endian, K: Kind>(mut walk: Iter<'_, B, E, K>) -> Option<u32> {
    walk.next_back()
}

/// Returns the first and the last member.
pub(crate) fn ends_of_ones<B: Bits>(set: &B) -> [Option<u32>; 2]
    requires { ShapeFits B.Shape set.now }
{
    [first(set.iter_ones()), last(set.iter_ones())]
}

/// Returns the indexes of the first and the last unset bit.
pub(crate) fn ends_of_zeros<B: Bits>(set: &B) -> [Option<u32>; 2]
    requires { ShapeFits B.Shape set.now }
{
    [first(set.iter_zeros()), last(set.iter_zeros())]
}

/// Returns how many members a set has, whether it is empty, and whether it is full.
pub(crate) fn whole<B: Bits>(set: &B) -> (u32, bool, bool)
    requires { ShapeFits B.Shape set.now }
{
    (set.count_ones(), set.all_zeros(), set.all_ones())
}

/// Returns whether the bit at an index is set. The index wraps at the capacity.
pub(crate) fn has<B: Bits>(set: &B, index: u32) -> bool
    requires { IsTrue B.indexable }
{
    set.test_bit(index)
}

/// Sets the bits at `indexes` in the order `E`, and returns the changed set. The indexes wrap.
pub(crate) fn with<B: BitsOwned, E: Endian>(set: B, indexes: &[u32]) -> B
    requires { IsTrue B.indexable }
{
    let mut set = set;
    for index in indexes {
        set.set_bit_in::<E>(*index);
    }
    set
}

/// Clears the bits at `indexes`, and returns the changed set. The indexes wrap.
pub(crate) fn without<B: BitsOwned>(set: B, indexes: &[u32]) -> B
    requires { IsTrue B.indexable }
{
    let mut set = set;
    for index in indexes {
        set.clear_bit(*index);
    }
    set
}

/// Sets the bits in `from..to` if `kind` is 0, clears them if `kind` is 1, and else toggles them.
/// Returns the changed set. Indexes past the capacity are left out.
pub(crate) fn with_range<B: BitsMut, E: Endian>(set: B, kind: u32, from: u32, to: u32) -> B
    requires { ShapeFits B.Shape set }
{
    let mut set = set;
    let capacity = set.bits_capacity();
    let (from, to) = (from.min(to).min(capacity), to.min(capacity));
    match kind {
        0 => set.set_range_in::<E>(from, to),
        1 => set.clear_range_in::<E>(from, to),
        _ => set.toggle_range_in::<E>(from, to),
    }
    set
}

/// Returns the first and the last set bit in a range, and the first and the last unset bit. Indexes
/// past the capacity are left out.
pub(crate) fn searches<B: Bits, E: Endian>(set: &B, from: u32, to: u32) -> [Option<u32>; 4]
    requires { ShapeFits B.Shape set.now }
{
    let capacity = set.bits_capacity();
    let (from, to) = (from.min(to).min(capacity), to.min(capacity));
    [
        set.first_one_in::<E>(from, to),
        set.last_one_in::<E>(from, to),
        set.first_zero_in::<E>(from, to),
        set.last_zero_in::<E>(from, to),
    ]
}

/// Returns the index where the first run of `length` set bits begins, and the index where the first
/// run of `length` unset bits begins.
pub(crate) fn first_runs<B: Bits>(set: &B, length: u32) -> [Option<u32>; 2]
    requires { ShapeFits B.Shape set.now }
{
    [set.first_one_run(length), set.first_zero_run(length)]
}
