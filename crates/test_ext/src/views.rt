//! Tests of views that read or change a set in a named bit order, with expected values worked out
//! by hand.

ghost use Rattle.std.specs.Prelude.{IsTrue};
ghost use Rattle.bittle.specs.Values.{ShapeFits};

use crate::calls::{Change, change_in};
use crate::checks::same;
use bittle::prelude::*;
use bittle::{BigEndian, Bits, BitsMut, Endian, LittleEndian, Set};
use bittle_ext::prelude::*;

/// What `read` returns: the capacity, how many bits are set, whether bit 0 is set, and the first
/// and the last set bit.
type Read = (u32, u32, bool, [Option<u32>; 2]);

/// Reads a set, as a `Read`.
fn parts<B: Bits>(bits: &B) -> Read
    requires fits { ShapeFits B.Shape bits.now }
    requires indexable { IsTrue B.indexable }
{
    let ends = [bits.first_one(), bits.last_one()];
    (
        bits.bits_capacity(),
        bits.count_ones(),
        bits.test_bit(0),
        ends,
    )
}

/// Reads a set through a view in the order `E`.
fn read<B: Bits, E: Endian>(bits: &B) -> Read
    requires fits { ShapeFits B.Shape bits.now }
    requires indexable { IsTrue B.indexable }
{
    parts(&bits.in_order::<E>())
}

#[test]
fn a_word_is_read_in_each_order(rt: HostRuntime) {
    // Bits 0, 1 and 5 are set. In little-endian order, these are bits 7, 6 and 2.
    let word = 0b0010_0011u8;
    same!(rt; read::<_, BigEndian>(&word), (8, 3, true, [Some(0), Some(5)]));
    same!(rt; read::<_, LittleEndian>(&word), (8, 3, false, [Some(2), Some(7)]));
}

#[test]
fn a_row_and_its_slice_are_read_in_each_order(rt: HostRuntime) {
    // In big-endian order, bits 0, 7 and 9 are set; in little-endian order, bits 0, 7 and 14.
    let row = [0x81u8, 0x02];
    same!(rt; read::<_, BigEndian>(&row), (16, 3, true, [Some(0), Some(9)]));
    same!(rt; read::<_, LittleEndian>(&row), (16, 3, true, [Some(0), Some(14)]));
    let slice: &[u8] = &row[..];
    same!(rt; read::<_, BigEndian>(&slice), (16, 3, true, [Some(0), Some(9)]));
    same!(rt; read::<_, LittleEndian>(&slice), (16, 3, true, [Some(0), Some(14)]));
}

#[test]
fn a_set_is_read_in_the_order_of_the_view(rt: HostRuntime) {
    let set = Set::new_le(0b0010_0011u8);
    same!(rt; read::<_, BigEndian>(&set), (8, 3, true, [Some(0), Some(5)]));
    same!(rt; read::<_, LittleEndian>(&set), (8, 3, false, [Some(2), Some(7)]));
}

#[test]
fn a_view_of_a_view_has_the_order_that_is_named_last(rt: HostRuntime) {
    let left = 0b0010_0011u8.in_order::<LittleEndian>();
    same!(rt; read::<_, BigEndian>(&left), (8, 3, true, [Some(0), Some(5)]));
}

/// Returns whether all bits of a set are unset, and whether all are set.
fn whole<B: Bits>(bits: &B) -> (bool, bool)
    requires { ShapeFits B.Shape bits.now }
{
    (bits.all_zeros(), bits.all_ones())
}

#[test]
fn capacity_0_is_read(rt: HostRuntime) {
    let none: [u8; 0] = [];
    same!(rt; read::<_, LittleEndian>(&none), (0, 0, false, [None, None]));
    same!(rt; whole(&none.in_order::<LittleEndian>()), (true, true));
}

/// A change that flips bit 1, sets bit 0 and clears bit 3. The answer is what `insert` and `remove`
/// return, and how many bits are set afterwards.
#[derive(Drop)]
struct ThreeBits;

impl Change for ThreeBits {
    type Answer = ([bool; 2], u32);

    fn change<B: BitsMut>(&self, bits: &mut B) -> ([bool; 2], u32) {
        bits.toggle(1);
        let answers = [bits.insert(0), bits.remove(3)];
        (answers, bits.count_ones())
    }
}

/// Makes the changes of `ThreeBits` through a view in the order `E`.
fn changed<B: BitsMut, E: Endian>(bits: &mut B) -> ([bool; 2], u32)
    requires fits { ShapeFits B.Shape bits.old }
    requires indexable { IsTrue B.indexable }
{
    change_in::<B, E, _>(&ThreeBits, bits)
}

#[test]
fn a_word_is_changed_in_each_order(rt: HostRuntime) {
    // Bit 4 is set. In little-endian order, it is bit 3.
    let mut right = 0b0001_0000u8;
    same!(rt; (changed::<_, BigEndian>(&mut right), right), (([true, false], 3), 0b0001_0011));
    let mut left = 0b0001_0000u8;
    same!(rt; (changed::<_, LittleEndian>(&mut left), left), (([true, true], 2), 0b1100_0000));
}

#[test]
fn a_row_and_a_set_are_changed_in_the_order_of_the_view(rt: HostRuntime) {
    let mut row = [0x10u8, 0x01];
    same!(rt; changed::<_, LittleEndian>(&mut row), ([true, true], 3));
    same!(rt; row, [0xC0, 0x01]);
    let mut set = Set::new_le(0b0001_0000u8);
    same!(rt; changed::<_, BigEndian>(&mut set), ([true, false], 3));
    same!(rt; set.into_bits(), 0b0001_0011);
}

#[test]
fn the_words_of_a_lent_slice_hold_the_changes(rt: HostRuntime) {
    let mut words = [0x10u8, 0x01];
    let mut lent = words.as_mut_slice();
    same!(rt; changed::<_, LittleEndian>(&mut lent), ([true, true], 3));
    same!(rt; words, [0xC0, 0x01]);
    let mut others = [0x10u8, 0x01];
    let mut lent = others.as_mut_slice();
    same!(rt; changed::<_, BigEndian>(&mut lent), ([true, false], 4));
    same!(rt; others, [0x13, 0x01]);
}

#[test]
fn capacity_0_is_changed_by_nothing(rt: HostRuntime) {
    let mut none: [u8; 0] = [];
    same!(rt; changed::<_, LittleEndian>(&mut none), ([true, false], 0));
}

#[test]
fn two_views_are_combined(rt: HostRuntime) {
    let (mut one, mut other) = ([0b0011u8, 0], [0b0101u8, 1]);
    let mut view = one.in_order_mut::<LittleEndian>();
    view.union_assign(&other.in_order_mut::<LittleEndian>());
    same!(rt; one, [0b0111, 1]);
}
