//! Calls and operators of `Set`, compared with values worked out by hand.

ghost use Rattle.std.specs.Iterator.{IsFinite};
ghost use Rattle.std.specs.Prelude.{IsTrue};
ghost use Rattle.bittle.specs.Values.{ShapeFits};

use crate::checks::{holds, same};
use bittle::prelude::*;
use bittle::{BigEndian, Endian, LittleEndian, Set, set};
use std::process::Abort;
use std::test::Fail;

#[test]
fn a_set_uses_its_order_where_a_call_names_none(rt: HostRuntime) {
    let set = Set::new_le(0x80u8);
    holds!(rt; set.test_bit(0));
    holds!(rt; !set.test_bit_be(0));
    holds!(rt; set.test_bit_in::<BigEndian>(7));
    holds!(rt; set.test_bit_le(0));

    let mut set = Set::<i16, LittleEndian>::default();
    set.set_bit(0);
    same!(rt; set.into_bits(), -32768);
}

#[test]
fn a_set_of_a_set(rt: HostRuntime) {
    let inner = Set::new_le(0x80u8);
    let outer = Set::new(inner);
    holds!(rt; outer.test_bit(7));
    holds!(rt; inner.eq_bits(&Set::new(0x01u8)));
    holds!(rt; outer.eq_bits(&Set::new(0x80u8)));
}

#[test]
fn a_set_of_an_array(rt: HostRuntime) {
    let array = [0x01u8, 0x10];
    holds!(rt; Set::new(array).test_bit(12));
    holds!(rt; Set::new_le(array).test_bit(11));
    same!(rt;
        Set::<[u8; 2], LittleEndian>::new_in(array).into_bits(),
        array
    );
}

// Checks that each bit of `members` is set and that bit `index` is unset. Then sets bit `index`.
fn gains<B: BitsMut>(rt: &impl Abort, bits: &mut B, members: &[u32], index: u32)
    requires { IsTrue B.indexable }
{
    for member in members {
        same!(*rt; (*member, bits.test_bit(*member)), (*member, true));
    }
    same!(*rt; (index, bits.test_bit(index)), (index, false));
    bits.set_bit(index);
}

#[test]
fn an_array_of_sets_is_read_in_the_default_order(rt: HostRuntime) {
    let mut sets = [Set::new_le(0x80u8), Set::new_le(0x01)];
    gains(&rt, &mut sets, &[7, 8], 0);
    same!(rt; sets[0].into_bits(), 0x81);
    same!(rt; <[Set<u8, LittleEndian>; 2]>::bits(), 16);
}

// Returns whether an iterator yields exactly these items.
fn yields<W: Iterator<Item = u32>>(walk: W, items: &[u32]) -> bool
    requires can { W.can_next walk }
    requires finite { IsFinite (W.remaining walk) }
{
    walk.eq(items.iter().copied())
}

// Returns whether an iterator in the order of the type yields exactly these items.
fn walks<B: Bits>(bits: &B, items: &[u32]) -> bool
    requires { ShapeFits B.Shape bits.now }
{
    yields(bits.iter_ones(), items)
}

// Returns whether an iterator in little-endian order yields exactly these items.
fn walks_le<B: Bits>(bits: &B, items: &[u32]) -> bool
    requires { ShapeFits B.Shape bits.now }
{
    yields(bits.iter_ones_le(), items)
}

// Returns whether an iterator in the order of the type yields exactly `items`, and an iterator in
// little-endian order yields exactly `little`.
fn walks_each_way<B: Bits>(bits: &B, items: &[u32], little: &[u32]) -> bool
    requires { ShapeFits B.Shape bits.now }
{
    walks(bits, items) && walks_le(bits, little)
}

// Returns whether `into_iter` of the set and of a reference to it yield exactly these items.
fn iterates<T: BitsOwned, E: Endian>(set: Set<T, E>, items: &[u32]) -> bool {
    yields((&set).into_iter(), items) && yields(set.into_iter(), items)
}

#[test]
fn sets_are_walked_in_their_order(rt: HostRuntime) {
    holds!(rt; walks(&Set::new_le(0b1101_0000u8), &[0, 1, 3]));
    holds!(rt; walks(&Set::new_le(0b0000_1001u8), &[4, 7]));
    holds!(rt; walks_le(&Set::from_ref_le(&[0x01u8, 0x10]), &[7, 11]));
    holds!(rt; iterates(Set::new([8u8, 0]), &[3]));
    holds!(rt; iterates(Set::new_le([8u8, 0]), &[4]));

    // Inside an array, a set is read in the default (big-endian) order.
    let sets = [Set::new_le(0x80u8), Set::new_le(0x01)];
    holds!(rt; walks_each_way(&sets, &[7, 8], &[0, 15]));
}

#[test]
fn an_operator_changes_the_slice_that_was_lent(rt: HostRuntime) {
    let mut left = [1u8, 2];
    let mut right = [4u8];
    {
        let mut set = Set::from_mut(&mut left);
        set |= &Set::from_mut(&mut right);
    }
    same!(rt; left, [5, 2]);
    same!(rt; right, [4]);
}

// The sets {1, 65} and {65, 110}.
fn two_sets() -> (Set<[u32; 4]>, Set<[u32; 4]>) {
    (set![1, 65], set![65, 110])
}

// Returns what `|`, `&`, `^` and `-` make of two sets. Each side of an operator is a value or a
// reference, in all four ways.
fn forms<T: BitsOwned>(
    a: Set<T>,
    b: Set<T>,
) -> ([Set<T>; 4], [Set<T>; 4], [Set<T>; 4], [Set<T>; 4]) {
    (
        [a | b, a | &b, &a | b, &a | &b],
        [a & b, a & &b, &a & b, &a & &b],
        [a ^ b, a ^ &b, &a ^ b, &a ^ &b],
        [a - b, a - &b, &a - b, &a - &b],
    )
}

#[test]
fn operators_of_values_and_references(rt: HostRuntime) {
    let (a, b) = two_sets();
    let (unions, conjunctions, one_alone, differences) = forms(a, b);
    for set in unions {
        same!(rt; set.into_bits(), [2, 0, 2, 0x4000]);
    }
    for set in conjunctions {
        same!(rt; set.into_bits(), [0, 0, 2, 0]);
    }
    for set in one_alone {
        same!(rt; set.into_bits(), [2, 0, 0, 0x4000]);
    }
    for set in differences {
        same!(rt; set.into_bits(), [2, 0, 0, 0]);
    }
}

#[test]
fn complements_of_values_and_references(rt: HostRuntime) {
    let (a, _) = two_sets();
    let words = [0xffff_fffd, 0xffff_ffff, 0xffff_fffd, 0xffff_ffff];
    for complement in [!a, !&a] {
        holds!(rt; !complement == a);
        same!(rt; complement.into_bits(), words);
    }
    same!(rt; (!Set::new_le(0x80u8)).into_bits(), 0x7f);
    same!(rt; (!Set::new(-1i128)).into_bits(), 0);
    same!(rt; (!Set::new([0u64; 0])).into_bits(), [0u64; 0]);
}

#[test]
fn assigning_operators(rt: HostRuntime) {
    let (a, b) = two_sets();
    let mut set = a;
    set |= b;
    same!(rt; set.into_bits(), [2, 0, 2, 0x4000]);
    set &= a;
    same!(rt; set.into_bits(), [2, 0, 2, 0]);
    set ^= b;
    same!(rt; set.into_bits(), [2, 0, 0, 0x4000]);
    set -= b;
    same!(rt; set.into_bits(), [2, 0, 0, 0]);
}

#[test]
fn assigning_operators_with_references(rt: HostRuntime) {
    let (a, b) = two_sets();
    let mut set = a - b;
    set |= &b;
    same!(rt; set.into_bits(), [2, 0, 2, 0x4000]);
    set &= &b;
    same!(rt; set.into_bits(), [0, 0, 2, 0x4000]);
    set ^= &a;
    same!(rt; set.into_bits(), [2, 0, 0, 0x4000]);
    set -= &a;
    same!(rt; set.into_bits(), [0, 0, 0, 0x4000]);
}

#[test]
fn sets_of_integers_in_either_order(rt: HostRuntime) -> Result<(), Fail> {
    let set: Set<u32, LittleEndian> = 1u32.into();
    holds!(rt; set.test_bit(31));
    same!(rt; Set::<i8>::from(-1).count_ones(), 8);
    same!(rt; set.clone()?.into_bits(), 1);
    holds!(rt; Set::<u128>::default().all_zeros());
    Ok(())
}

// Takes the next item of an iterator.
fn next<W: Iterator>(walk: &mut W) -> Option<W::Item>
    requires { (w : W) → W.can_next w }
{
    walk.next()
}

// Checks what an iterator over references yields, step by step.
fn steps<'a, W: Iterator<Item = &'a u8>>(rt: &impl Abort, mut walk: W, expected: &[Option<u8>])
    requires { (w : W) → W.can_next w }
{
    for item in expected {
        same!(*rt; next(&mut walk).copied(), *item);
    }
}

// Checks what a join in the default order yields, step by step.
fn joins<B: Bits>(rt: &impl Abort, mask: &B, items: &[u8], expected: &[Option<u8>])
    requires { ShapeFits B.Shape mask.now }
{
    steps(rt, mask.join_ones(items.iter()), expected);
}

#[test]
fn a_join_reads_its_mask_in_the_default_order(rt: HostRuntime) {
    let set = Set::new_le(0b1101_0000u8);
    let expected = [Some(b'e'), Some(b'g'), Some(b'h'), None, None];
    joins(&rt, &set, b"abcdefgh", &expected);
}
