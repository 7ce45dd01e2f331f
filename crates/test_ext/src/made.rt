//! Tests of calls that make a set from another set, a list or an iterator, with expected values
//! worked out by hand.

ghost use Rattle.std.specs.Prelude.{◌≤◌, IsTrue};

use crate::checks::same;
use bittle::prelude::*;
use bittle::{LittleEndian, Set};
use bittle_ext::prelude::*;

/// Returns the complement of a set.
fn complement_of<B: BitsOwned>(set: B) -> B
    requires { IsTrue B.indexable }
{
    set.complement()
}

#[test]
fn complements(rt: HostRuntime) {
    same!(rt; complement_of([0xFFu8, 0x0F]), [0x00, 0xF0]);
    same!(rt; complement_of(1i8), -2);
    same!(rt; complement_of(Set::new_le(0xF0u8)).into_bits(), 0x0F);
    let none: [u8; 0] = [];
    same!(rt; complement_of(none), none);
}

/// Names `with_range`, in a call of `with_change`.
const SET: u32 = 0;

/// Names `without_range`.
const CLEAR: u32 = 1;

/// Names `with_range_toggled`.
const FLIP: u32 = 2;

/// Returns a set with the range `from..to` changed by the call that `kind` names.
fn with_change<B: BitsOwned>(kind: u32, set: B, from: u32, to: u32) -> B
    requires indexable { IsTrue B.indexable }
    requires ordered { from ≤ to }
    requires within { to ≤ B.type_capacity }
{
    match kind {
        SET => set.with_range(from, to),
        CLEAR => set.without_range(from, to),
        _ => set.with_range_toggled(from, to),
    }
}

#[test]
fn ranges(rt: HostRuntime) {
    same!(rt; with_change(SET, [0u8; 2], 6, 11), [0xC0, 0x07]);
    same!(rt; with_change(CLEAR, [0xFFu8; 2], 6, 11), [0x3F, 0xF8]);
    same!(rt; with_change(FLIP, 0b0011_1100u8, 0, 4), 0b0011_0011);
    same!(rt; with_change(SET, 0u8, 8, 8), 0);
    same!(rt; with_change(CLEAR, 0xFFu8, 0, 8), 0);
}

/// Calls `with_change` on a little-endian set.
fn left_with_change<T: BitsOwned>(kind: u32, left: T, from: u32, to: u32) -> T
    requires indexable { IsTrue T.indexable }
    requires ordered { from ≤ to }
    requires within { to ≤ T.type_capacity }
{
    with_change(kind, Set::new_le(left), from, to).into_bits()
}

#[test]
fn ranges_from_the_left(rt: HostRuntime) {
    same!(rt; left_with_change(SET, 0u8, 0, 3), 0b1110_0000);
    same!(rt; left_with_change(CLEAR, 0xFFu8, 0, 3), 0b0001_1111);
    same!(rt; left_with_change(FLIP, 0b1100_0000u8, 1, 4), 0b1011_0000);
}

/// Returns the set of three indexes, the set of an empty list, and the set of a range.
fn of_indexes<B: BitsOwned>() -> [B; 3]
    requires { IsTrue B.indexable }
{
    [
        B::from_indexes(&[0, 7, 9]),
        B::from_indexes(&[]),
        B::from_iter(5..9),
    ]
}

/// Returns the set of four indexes that are sixteen apart.
fn of_steps<B: BitsOwned>() -> B
    requires { IsTrue B.indexable }
{
    B::from_iter((0..64).step_by(16))
}

#[test]
fn indexes(rt: HostRuntime) {
    same!(rt; of_indexes::<u8>(), [0b1000_0011, 0, 0b1110_0001]);
    let [three, none, four] = of_indexes::<Set<u8, LittleEndian>>();
    same!(rt; (three.into_bits(), none.into_bits()), (0b1100_0001, 0));
    same!(rt; four.into_bits(), 0b1000_0111);
    let [three, none, four] = of_indexes::<[u8; 2]>();
    same!(rt; (three, none, four), ([0x81, 0x02], [0, 0], [0xE0, 0x01]));
    same!(rt; of_steps::<u64>(), 0x0001_0001_0001_0001);
}
