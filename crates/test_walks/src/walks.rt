//! Each call that returns an iterator, and searches in a range, compared with values worked out by
//! hand.

ghost use Rattle.bittle.specs.Values.{ShapeFits};

use crate::checks::{holds, same};
use bittle::prelude::*;
use bittle::{BigEndian, LittleEndian, set};
use std::alloc::AllocError;
use std::process::Abort;
use std::test::Fail;

// Returns whether the next step of an iterator, from the front or from the back, returns `item`.
fn answers<W: DoubleEndedIterator<Item = u32>>(
    walk: &mut W,
    at_front: bool,
    item: Option<u32>,
) -> bool
    requires front { (w : W) → W.can_next w }
    requires back { (w : W) → W.can_next_back w }
{
    if at_front {
        walk.next() == item
    } else {
        walk.next_back() == item
    }
}

// Returns whether an iterator yields these items from the front, a clone of it yields them from the
// back, and another clone yields them from both ends in turn. After that, each of the three has to
// return `None` twice at each end.
fn gives<W: DoubleEndedIterator<Item = u32> + Clone>(mut walk: W, items: &[u32]) -> bool
    requires front { (w : W) → W.can_next w }
    requires back { (w : W) → W.can_next_back w }
{
    let back: Result<W, AllocError> = walk.clone();
    let both: Result<W, AllocError> = walk.clone();
    let (Ok(mut back), Ok(mut both)) = (back, both) else {
        return false;
    };
    let mut good = true;
    let len = items.len();
    for i in 0..len {
        let at = if i % 2 == 0 { i / 2 } else { len - 1 - i / 2 };
        good &= answers(&mut walk, true, Some(items[i]));
        good &= answers(&mut back, false, Some(items[len - 1 - i]));
        good &= answers(&mut both, i % 2 == 0, Some(items[at]));
    }
    for _ in 0..2 {
        good &= answers(&mut walk, true, None) & answers(&mut walk, false, None);
        good &= answers(&mut back, false, None) & answers(&mut back, true, None);
        good &= answers(&mut both, true, None) & answers(&mut both, false, None);
    }
    good
}

// The expected indexes of the set bits and of the unset bits, in each order.
#[derive(Drop)]
struct Expected<'a> {
    ones_be: &'a [u32],
    ones_le: &'a [u32],
    zeros_be: &'a [u32],
    zeros_le: &'a [u32],
}

// Returns whether each of two iterators yields these items.
fn both_give<W: DoubleEndedIterator<Item = u32> + Clone>(one: W, other: W, items: &[u32]) -> bool
    requires front { (w : W) → W.can_next w }
    requires back { (w : W) → W.can_next_back w }
{
    gives(one, items) & gives(other, items)
}

// Returns whether each of three iterators yields these items.
fn all_give<W: DoubleEndedIterator<Item = u32> + Clone>(
    one: W,
    other: W,
    third: W,
    items: &[u32],
) -> bool
    requires front { (w : W) → W.can_next w }
    requires back { (w : W) → W.can_next_back w }
{
    gives(one, items) & gives(other, items) & gives(third, items)
}

// Returns whether every iterator that borrows the set yields the expected indexes.
fn borrowed<B: Bits<Order = BigEndian>>(bits: &B, expected: &Expected<'_>) -> bool
    requires { ShapeFits B.Shape bits.now }
{
    all_give(
        bits.iter_ones(),
        bits.iter_ones_in::<BigEndian>(),
        bits.iter_ones_be(),
        expected.ones_be,
    ) && both_give(
        bits.iter_ones_in::<LittleEndian>(),
        bits.iter_ones_le(),
        expected.ones_le,
    ) && all_give(
        bits.iter_zeros(),
        bits.iter_zeros_in::<BigEndian>(),
        bits.iter_zeros_be(),
        expected.zeros_be,
    ) && both_give(
        bits.iter_zeros_in::<LittleEndian>(),
        bits.iter_zeros_le(),
        expected.zeros_le,
    )
}

// Returns whether every iterator that owns the set yields the expected indexes.
fn owned<B: BitsOwned<Order = BigEndian>>(bits: B, expected: &Expected<'_>) -> bool
    requires { ShapeFits B.Shape bits }
{
    all_give(
        bits.into_iter_ones(),
        bits.into_iter_ones_in::<BigEndian>(),
        bits.into_iter_ones_be(),
        expected.ones_be,
    ) && both_give(
        bits.into_iter_ones_in::<LittleEndian>(),
        bits.into_iter_ones_le(),
        expected.ones_le,
    ) && all_give(
        bits.into_iter_zeros(),
        bits.into_iter_zeros_in::<BigEndian>(),
        bits.into_iter_zeros_be(),
        expected.zeros_be,
    ) && both_give(
        bits.into_iter_zeros_in::<LittleEndian>(),
        bits.into_iter_zeros_le(),
        expected.zeros_le,
    )
}

#[test]
fn each_form_at_a_word(rt: HostRuntime) {
    let expected = Expected {
        ones_be: &[4, 6, 7],
        ones_le: &[0, 1, 3],
        zeros_be: &[0, 1, 2, 3, 5],
        zeros_le: &[2, 4, 5, 6, 7],
    };
    holds!(rt; borrowed(&0b1101_0000u8, &expected));
    holds!(rt; owned(0b1101_0000u8, &expected));
}

#[test]
fn each_form_at_an_array_and_a_slice(rt: HostRuntime) {
    let expected = Expected {
        ones_be: &[3, 14, 16, 17, 18, 19, 20, 21, 22, 23],
        ones_le: &[4, 9, 16, 17, 18, 19, 20, 21, 22, 23],
        zeros_be: &[0, 1, 2, 4, 5, 6, 7, 8, 9, 10, 11, 12, 13, 15],
        zeros_le: &[0, 1, 2, 3, 5, 6, 7, 8, 10, 11, 12, 13, 14, 15],
    };
    let mut words = [8u8, 64, 255];
    holds!(rt; borrowed(&words, &expected));
    holds!(rt; owned(words, &expected));
    let shared: &[u8] = &words;
    holds!(rt; borrowed(&shared, &expected));
    let lent: &mut [u8] = &mut words;
    holds!(rt; borrowed(&lent, &expected));
}

// Returns whether `size_hint` is `(0, None)` both before and after an iterator's first step.
fn tells_nothing<W: DoubleEndedIterator<Item = u32>>(mut walk: W) -> bool
    requires front { (w : W) → W.can_next w }
{
    if walk.size_hint() != (0, None) {
        return false;
    }
    walk.next();
    walk.size_hint() == (0, None)
}

#[test]
fn walks_tell_not_how_many_items_are_left(rt: HostRuntime) {
    holds!(rt; tells_nothing(0b1101_0000u8.iter_ones()));
    holds!(rt; tells_nothing((-2i8).iter_zeros()));
}

#[test]
fn owned_walks_tell_not_how_many_items_are_left(rt: HostRuntime) {
    holds!(rt; tells_nothing(0b1101_0000u8.into_iter_ones()));
    holds!(rt; tells_nothing((-2i8).into_iter_zeros()));
}

// The end of an iterator from which a step takes its item.
#[derive(Clone, Copy)]
enum End {
    Front,
    Back,
}

// Takes a step of an iterator, and checks the item.
fn take<W: DoubleEndedIterator<Item = u32>>(
    rt: &impl Abort,
    walk: &mut W,
    end: End,
    item: Option<u32>,
)
    requires front { (w : W) → W.can_next w }
    requires back { (w : W) → W.can_next_back w }
{
    match end {
        End::Front => same!(*rt; walk.next(), item),
        End::Back => same!(*rt; walk.next_back(), item),
    }
}

// The iterator that takes a step: the first one, or its clone.
#[derive(Clone, Copy)]
enum Taker {
    Source,
    Clone,
}

// Checks the first steps of an iterator. Then clones it, and checks further steps of both.
fn go_on_apart<W: DoubleEndedIterator<Item = u32> + Clone>(
    rt: &impl Abort,
    mut walk: W,
    before: &[(End, Option<u32>)],
    after: &[(Taker, End, Option<u32>)],
) -> Result<(), AllocError>
    requires front { (w : W) → W.can_next w }
    requires back { (w : W) → W.can_next_back w }
{
    for (end, item) in before {
        take(rt, &mut walk, *end, *item);
    }
    let clone: Result<W, AllocError> = walk.clone();
    let mut clone = clone?;
    for (taker, end, item) in after {
        match taker {
            Taker::Source => take(rt, &mut walk, *end, *item),
            Taker::Clone => take(rt, &mut clone, *end, *item),
        }
    }
    Ok(())
}

fn four_members() -> [u32; 4] {
    set![4, 67, 71, 127]
}

#[test]
fn a_clone_taken_midway(rt: HostRuntime) -> Result<(), Fail> {
    let row = four_members();
    let before = [(End::Front, Some(4))];
    let after = [
        (Taker::Source, End::Back, Some(127)),
        (Taker::Source, End::Front, Some(67)),
        (Taker::Source, End::Front, Some(71)),
        (Taker::Source, End::Front, None),
        (Taker::Clone, End::Front, Some(67)),
        (Taker::Clone, End::Back, Some(127)),
        (Taker::Clone, End::Front, Some(71)),
        (Taker::Clone, End::Front, None),
    ];
    go_on_apart(&rt, row.iter_ones(), &before, &after)?;
    Ok(())
}

#[test]
fn a_clone_goes_on_apart(rt: HostRuntime) -> Result<(), Fail> {
    let bits = [0b1001_0010u8, 0, 0b0000_0101];
    let before = [(End::Front, Some(1)), (End::Back, Some(18))];
    let after = [
        (Taker::Source, End::Front, Some(4)),
        (Taker::Clone, End::Back, Some(16)),
        (Taker::Clone, End::Back, Some(7)),
        (Taker::Source, End::Back, Some(16)),
        (Taker::Clone, End::Back, Some(4)),
        (Taker::Clone, End::Front, None),
        (Taker::Source, End::Front, Some(7)),
        (Taker::Source, End::Front, None),
    ];
    go_on_apart(&rt, bits.iter_ones(), &before, &after)?;
    Ok(())
}

#[test]
fn searches_in_little_endian_order(rt: HostRuntime) {
    let bits = [0x10u8, 0x01];
    same!(rt; bits.first_one_in::<LittleEndian>(4, 16), Some(15));
    same!(rt; bits.last_one_in::<LittleEndian>(0, 15), Some(3));
    same!(rt; bits.first_zero_in::<LittleEndian>(3, 16), Some(4));
    same!(rt; bits.last_zero_in::<LittleEndian>(0, 4), Some(2));
}
