//! Shapes of capacity 0: every call returns, and no bit is ever set.

ghost use Rattle.std.specs.Prelude.{◌*◌, IsTrue, length};
ghost use Rattle.bittle.specs.Shapes.{Fits};
ghost use Rattle.bittle.specs.Values.{ShapeFits};

use crate::checks::{holds, same, same_flags};
use bittle::join::JoinOnes;
use bittle::prelude::*;
use bittle::walk::{IntoIter, Iter};
use bittle::{BigEndian, Endian, LittleEndian, Set, Shape, set, set_be, set_le};
use bittle_bits::extension::Kind;
use std::alloc::{AllocError, Global};
use std::cmp::Ordering;
use std::process::Abort;
use std::test::Fail;

const INDEXES: [u32; 6] = [0, 1, 7, 8, 127, u32::MAX];

// Checks that the capacity is 0, and then checks every call that reads.
fn reads<B: Bits>(rt: &impl Abort, bits: &B) {
    assert!(rt; bits.bits_capacity() == 0);
    reads_nothing(rt, bits);
}

// Checks what every reading call returns for a set that has no bits at all.
fn reads_nothing<B: Bits>(rt: &impl Abort, bits: &B)
    requires { ShapeFits B.Shape bits.now }
{
    same!(*rt; bits.count_ones(), 0);
    same!(*rt; bits.count_zeros(), 0);
    holds!(*rt; bits.all_zeros());
    holds!(*rt; bits.all_ones());
    tests_nothing(rt, bits);
    same_flags!(*rt; ones_are_over(bits), [true; 4]);
    same_flags!(*rt; zeros_are_over(bits), [true; 4]);
    same_flags!(*rt; joins_are_over(bits), [true; 3]);
    same!(*rt; bits.count_ones_in_range_in::<BigEndian>(0, 0), 0);
    same!(*rt; bits.count_ones_in_range_in::<LittleEndian>(0, 0), 0);
}

// Checks that the calls that test a bit return `false` for each index.
fn tests_nothing<B: Bits>(rt: &impl Abort, bits: &B)
    requires { IsTrue B.indexable }
{
    for index in INDEXES {
        same!(*rt; (index, tests_of(bits, index)), (index, [false; 5]));
    }
}

// Tests one bit by each of the five calls that test a bit.
fn tests_of<B: Bits>(bits: &B, index: u32) -> [bool; 5]
    requires { IsTrue B.indexable }
{
    [
        bits.test_bit(index),
        bits.test_bit_in::<BigEndian>(index),
        bits.test_bit_in::<LittleEndian>(index),
        bits.test_bit_le(index),
        bits.test_bit_be(index),
    ]
}

// Returns whether an iterator yields nothing from either end.
fn is_over<W: DoubleEndedIterator<Item = u32>>(mut walk: W) -> bool
    requires front { (w : W) → W.can_next w }
    requires back { (w : W) → W.can_next_back w }
{
    walk.next().is_none() && walk.next_back().is_none()
}

// Returns whether the reversed iterator yields nothing from either end.
fn is_over_turned<W: DoubleEndedIterator<Item = u32>>(walk: W) -> bool
    requires front { (w : W) → W.can_next w }
    requires back { (w : W) → W.can_next_back w }
{
    is_over(walk.rev())
}

fn no_items<B: Bits, E: Endian, K: Kind>(walk: Iter<'_, B, E, K>) -> bool {
    is_over(walk)
}

fn no_items_turned<B: Bits, E: Endian, K: Kind>(walk: Iter<'_, B, E, K>) -> bool {
    is_over_turned(walk)
}

fn no_owned_items<B: BitsOwned, E: Endian, K: Kind>(walk: IntoIter<B, E, K>) -> bool {
    is_over(walk)
}

fn no_owned_items_turned<B: BitsOwned, E: Endian, K: Kind>(walk: IntoIter<B, E, K>) -> bool {
    is_over_turned(walk)
}

// Returns, for each iterator over set bits, whether it yields nothing.
fn ones_are_over<B: Bits>(bits: &B) -> [bool; 4]
    requires { ShapeFits B.Shape bits.now }
{
    [
        no_items(bits.iter_ones()),
        no_items(bits.iter_ones_le()),
        no_items(bits.iter_ones_be()),
        no_items_turned(bits.iter_ones()),
    ]
}

// Returns, for each iterator over unset bits, whether it yields nothing.
fn zeros_are_over<B: Bits>(bits: &B) -> [bool; 4]
    requires { ShapeFits B.Shape bits.now }
{
    [
        no_items(bits.iter_zeros()),
        no_items(bits.iter_zeros_le()),
        no_items(bits.iter_zeros_be()),
        no_items_turned(bits.iter_zeros()),
    ]
}

const LETTERS: [&str; 3] = ["a", "b", "c"];

fn no_letters<B: Bits, E: Endian>(
    mut join: JoinOnes<'_, B, E, std::slice::Iter<'_, &str>>,
) -> bool {
    join.next().is_none()
}

// Returns, for each join, whether it yields nothing.
fn joins_are_over<B: Bits>(bits: &B) -> [bool; 3]
    requires { ShapeFits B.Shape bits.now }
{
    [
        no_letters(bits.join_ones(LETTERS.iter())),
        no_letters(bits.join_ones_le(LETTERS.iter())),
        no_letters(bits.join_ones_be(LETTERS.iter())),
    ]
}

// Makes every call that writes, and checks after each one that no bit is set.
fn writes<B: BitsMut>(rt: &impl Abort, bits: &mut B) {
    reads(rt, bits);
    for index in INDEXES {
        sets_nothing(rt, bits, index);
        clears_nothing(rt, bits, index);
    }
    bits.clear_bits();
    reads(rt, bits);
}

fn sets_nothing<B: BitsMut>(rt: &impl Abort, bits: &mut B, index: u32) {
    assert!(rt; bits.bits_capacity() == 0);
    bits.set_bit(index);
    reads(rt, bits);
    bits.set_bit_in::<BigEndian>(index);
    reads(rt, bits);
    bits.set_bit_in::<LittleEndian>(index);
    reads(rt, bits);
    bits.set_bit_le(index);
    reads(rt, bits);
    bits.set_bit_be(index);
    reads(rt, bits);
}

fn clears_nothing<B: BitsMut>(rt: &impl Abort, bits: &mut B, index: u32) {
    assert!(rt; bits.bits_capacity() == 0);
    bits.clear_bit(index);
    reads(rt, bits);
    bits.clear_bit_in::<BigEndian>(index);
    reads(rt, bits);
    bits.clear_bit_in::<LittleEndian>(index);
    reads(rt, bits);
    bits.clear_bit_le(index);
    reads(rt, bits);
    bits.clear_bit_be(index);
    reads(rt, bits);
}

fn assigns_nothing<B: BitsMut>(rt: &impl Abort, bits: &mut B, other: &B) {
    bits.union_assign(other);
    reads(rt, bits);
    bits.conjunction_assign(other);
    reads(rt, bits);
    bits.difference_assign(other);
    reads(rt, bits);
    bits.symmetric_difference_assign(other);
    reads(rt, bits);
}

// Checks every call on a type that owns its bits.
fn owned<B: BitsOwned>(rt: &impl Abort) {
    assert!(rt; B::bits() == 0);
    let (mut zeros, mut ones) = (B::zeros(), B::ones());
    writes(rt, &mut zeros);
    writes(rt, &mut ones);
    for index in INDEXES {
        makes_nothing_with(rt, zeros, index);
        makes_nothing_without(rt, ones, index);
    }
    assigns_nothing(rt, &mut zeros, &ones);
    reads(rt, &zeros.union(ones));
    reads(rt, &zeros.conjunction(ones));
    reads(rt, &zeros.difference(ones));
    reads(rt, &zeros.symmetric_difference(ones));
    yields_nothing(rt, zeros);
    yields_nothing(rt, ones);
}

fn makes_nothing_with<B: BitsOwned>(rt: &impl Abort, bits: B, index: u32)
    requires { IsTrue B.indexable }
{
    reads(rt, &bits.with_bit(index));
    reads(rt, &bits.with_bit_in::<BigEndian>(index));
    reads(rt, &bits.with_bit_in::<LittleEndian>(index));
    reads(rt, &bits.with_bit_le(index));
    reads(rt, &bits.with_bit_be(index));
}

fn makes_nothing_without<B: BitsOwned>(rt: &impl Abort, bits: B, index: u32)
    requires { IsTrue B.indexable }
{
    reads(rt, &bits.without_bit(index));
    reads(rt, &bits.without_bit_in::<BigEndian>(index));
    reads(rt, &bits.without_bit_in::<LittleEndian>(index));
    reads(rt, &bits.without_bit_le(index));
    reads(rt, &bits.without_bit_be(index));
}

// Checks that every iterator that owns its set yields nothing.
fn yields_nothing<B: BitsOwned>(rt: &impl Abort, bits: B)
    requires { ShapeFits B.Shape bits }
{
    same_flags!(*rt; owned_ones_are_over(bits), [true; 4]);
    same_flags!(*rt; owned_zeros_are_over(bits), [true; 4]);
}

// Returns, for each owning iterator over set bits, whether it yields nothing.
fn owned_ones_are_over<B: BitsOwned>(bits: B) -> [bool; 4]
    requires { ShapeFits B.Shape bits }
{
    [
        no_owned_items(bits.into_iter_ones()),
        no_owned_items(bits.into_iter_ones_le()),
        no_owned_items(bits.into_iter_ones_be()),
        no_owned_items_turned(bits.into_iter_ones()),
    ]
}

// Returns, for each owning iterator over unset bits, whether it yields nothing.
fn owned_zeros_are_over<B: BitsOwned>(bits: B) -> [bool; 4]
    requires { ShapeFits B.Shape bits }
{
    [
        no_owned_items(bits.into_iter_zeros()),
        no_owned_items(bits.into_iter_zeros_le()),
        no_owned_items(bits.into_iter_zeros_be()),
        no_owned_items_turned(bits.into_iter_zeros()),
    ]
}

// The next three functions list indexes and ranges of each kind, each by another macro.
fn listed_in_its_order<B: BitsOwned>() -> B
    requires { IsTrue B.indexable }
{
    set![0, 7, 100, 0..10, 0..=10, 0..]
}

fn listed_le<B: BitsOwned>() -> B
    requires { IsTrue B.indexable }
{
    set_le![0, 7, 100, 0..10, 0..=10, 0..]
}

fn listed_be<B: BitsOwned>() -> B
    requires { IsTrue B.indexable }
{
    set_be![0, 7, 100, 0..10, 0..=10, 0..]
}

// Checks the sets that the three macros make.
fn listed<B: BitsOwned>(rt: &impl Abort)
    requires { IsTrue B.indexable }
{
    reads(rt, &listed_in_its_order::<B>());
    reads(rt, &listed_le::<B>());
    reads(rt, &listed_be::<B>());
}

// The next two functions check every call on arrays of zero or four elements. Each adds one level
// of arrays, so that a type of several levels is proved in less time. The second takes an argument
// of the type, which shows that the type fits into memory.
fn owned_none<T: BitsOwned>(rt: &impl Abort) {
    owned::<[T; 0]>(rt);
}

fn owned_fours<T: BitsOwned>(rt: &impl Abort, _four: [T; 4]) {
    owned::<[T; 4]>(rt);
}

#[test]
fn arrays(rt: HostRuntime) {
    owned_none::<u8>(&rt);
    owned_fours::<[u8; 0]>(&rt, [[]; 4]);
}

// Checks the calls on a shared slice, the calls on a mutable one, and the operations with another
// slice.
fn slice<'a, T: BitsOwned>(rt: &impl Abort, mut slice: &'a mut [T], other: &'a mut [T]) {
    reads(rt, &&slice[..]);
    writes(rt, &mut slice);
    assigns_nothing(rt, &mut slice, &other);
}

#[test]
fn slices(rt: HostRuntime) {
    slice::<u8>(&rt, &mut [], &mut []);
    slice::<[u8; 0]>(&rt, &mut [[]; 4], &mut [[]; 4]);
    slice::<[u8; 0]>(&rt, &mut [[]; 4], &mut [[]; 3]);
}

// Checks every call on a `Set` of an owned type, in each order.
fn wrapped_owned<B: BitsOwned>(rt: &impl Abort) {
    owned::<Set<B>>(rt);
    owned::<Set<B, LittleEndian>>(rt);
}

fn reads_wrapped<B: Bits, E: Endian>(rt: &impl Abort, set: &Set<B, E>) {
    reads(rt, set);
}

fn writes_wrapped<B: BitsMut, E: Endian>(rt: &impl Abort, set: &mut Set<B, E>) {
    writes(rt, set);
}

// Checks the reading calls of a `Set` over a shared slice, in each order.
fn wrapped_shared<T: BitsOwned>(rt: &impl Abort, slice: &[T])
    requires { Fits T.indexable (length slice.now * T.type_capacity) }
{
    reads_wrapped(rt, &Set::from_ref(slice));
    reads_wrapped(rt, &Set::from_ref_le(slice));
}

fn wrapped_lent<T: BitsOwned>(rt: &impl Abort, slice: &mut [T])
    requires { Fits T.indexable (length slice.old * T.type_capacity) }
{
    writes_wrapped(rt, &mut Set::from_mut(slice));
    writes_wrapped(rt, &mut Set::from_mut_le(slice));
}

#[test]
fn wrapped(rt: HostRuntime) {
    wrapped_owned::<[u8; 0]>(&rt);

    let (mut bytes, mut arrays) = ([0u8; 0], [[0u8; 0]; 4]);
    wrapped_shared(&rt, &bytes);
    wrapped_lent(&rt, &mut bytes);
    wrapped_shared(&rt, &arrays);
    wrapped_lent(&rt, &mut arrays);
}

// Puts a set into a `Set`, and checks the debug text.
fn shows<B: Bits>(rt: &impl Abort, alloc: Global, bits: B, text: &str) -> Result<(), AllocError>
    requires { ShapeFits B.Shape bits }
{
    let set = Set::new(bits);
    same!(*rt; format!(in alloc; "{set:?}")?.as_str(), text);
    Ok(())
}

// Checks the sets that the three macros make, and the debug text of one of them.
fn lists_of<B: BitsOwned>(rt: &impl Abort, alloc: Global) -> Result<(), AllocError>
    requires { IsTrue B.indexable }
{
    listed::<B>(rt);
    shows(rt, alloc, listed_in_its_order::<B>(), "{}")
}

#[test]
fn lists(rt: HostRuntime) -> Result<(), Fail> {
    lists_of::<[u8; 0]>(&rt, rt.alloc())?;
    Ok(())
}

// Returns whether two sets are equal.
fn are_equal<A: BitsOwned, B: Bits>(one: A, other: &B) -> bool
    requires one_fits { ShapeFits A.Shape one }
    requires other_fits { ShapeFits B.Shape other.now }
{
    Set::new(one).eq_bits(other)
}

// Returns how two sets compare.
fn order_of<A: BitsOwned, B: Bits>(one: A, other: &B) -> Ordering
    requires one_fits { ShapeFits A.Shape one }
    requires other_fits { ShapeFits B.Shape other.now }
{
    Set::new(one).cmp_bits(other)
}

// Returns whether a set is equal to another set, which is wrapped in a `Set`.
fn equals_wrapped<A: BitsOwned, B: Bits>(one: A, other: &Set<B>) -> bool
    requires one_fits { ShapeFits A.Shape one }
    requires other_fits { ShapeFits B.Shape other.now.bits }
{
    are_equal(one, other)
}

fn equals_slice<A: BitsOwned, T: BitsOwned>(one: A, other: &[T]) -> bool
    requires one_fits { ShapeFits A.Shape one }
    requires other_fits { Fits T.indexable (length other.now * T.type_capacity) }
{
    equals_wrapped(one, &Set::from_ref(other))
}

fn equals_fours<A: BitsOwned, T: BitsOwned>(one: A, other: [T; 4]) -> bool
    requires one_fits { ShapeFits A.Shape one }
    requires other_fits { IsTrue ⟦<[T; 4] as Shape>⟧.indexable }
{
    equals_wrapped(one, &Set::new(other))
}

// Checks that `set` is less than the set {0}, and that the debug text of `set` is `{}`.
fn comes_first<B: BitsOwned>(rt: &impl Abort, alloc: Global, set: B) -> Result<(), AllocError>
    requires { ShapeFits B.Shape set }
{
    same!(*rt; order_of(set, &Set::new(1u8)), Ordering::Less);
    shows(rt, alloc, set, "{}")
}

#[test]
fn comparisons(rt: HostRuntime) -> Result<(), Fail> {
    let (narrow, nested) = ([0u8; 0], [[0u8; 0]; 4]);
    holds!(rt; equals_fours(narrow, nested));
    holds!(rt; are_equal(narrow, &[0u128; 0]));
    holds!(rt; equals_slice(narrow, &narrow));
    comes_first(&rt, rt.alloc(), narrow)?;
    comes_first(&rt, rt.alloc(), nested)?;
    Ok(())
}
