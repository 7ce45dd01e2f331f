//! Joins of a mask with an iterator, compared with values worked out by hand.

ghost use Rattle.std.specs.Prelude.{◌-◌};
ghost use Rattle.std.specs.Iterator.{at_most};
ghost use Rattle.bittle.specs.Values.{ShapeFits};

use crate::checks::same;
use bittle::prelude::*;
use bittle::{set, set_le};
use std::fmt::Debug;
use std::process::Abort;

/// An iterator that yields the number of each call, from 1 to 9. The second call returns `None`
/// instead.
#[derive(Drop)]
struct Stutter {
    asked: u32,
}

impl Iterator for Stutter {
    type Item = u32;

    ghost remaining = { λ s. at_most (9 - s.asked) };

    fn next(&mut self) -> Option<u32> {
        if self.asked >= 9 {
            return None;
        }
        self.asked += 1;
        if self.asked == 2 {
            None
        } else {
            Some(self.asked)
        }
    }
}

// Takes the next item of an iterator.
fn next<W: Iterator>(walk: &mut W) -> Option<W::Item>
    requires { (w : W) → W.can_next w }
{
    walk.next()
}

// Checks what an iterator over values yields, step by step.
fn steps<T: Copy + Debug + PartialEq, W: Iterator<Item = T>>(
    rt: &impl Abort,
    mut walk: W,
    expected: &[Option<T>],
)
    requires { (w : W) → W.can_next w }
{
    for item in expected {
        same!(*rt; next(&mut walk), *item);
    }
}

// Checks what an iterator over references yields, step by step.
fn steps_to<'a, T: Copy + Debug + PartialEq + 'a, W: Iterator<Item = &'a T>>(
    rt: &impl Abort,
    mut walk: W,
    expected: &[Option<T>],
)
    requires { (w : W) → W.can_next w }
{
    for item in expected {
        same!(*rt; next(&mut walk).copied(), *item);
    }
}

// Checks what `join_ones` yields from an iterator over values.
fn joins<T: Copy + Debug + PartialEq, B: Bits, I: IntoIterator<Item = T>>(
    rt: &impl Abort,
    mask: &B,
    iter: I,
    expected: &[Option<T>],
)
    requires fits { ShapeFits B.Shape mask.now }
    requires can { (w : I.IntoIter) → I.IntoIter.can_next w }
{
    steps(rt, mask.join_ones(iter), expected);
}

// Checks what `join_ones` yields from an iterator over references.
fn joins_to<'a, T: Copy + Debug + PartialEq + 'a, B: Bits, I: IntoIterator<Item = &'a T>>(
    rt: &impl Abort,
    mask: &B,
    iter: I,
    expected: &[Option<T>],
)
    requires fits { ShapeFits B.Shape mask.now }
    requires can { (w : I.IntoIter) → I.IntoIter.can_next w }
{
    steps_to(rt, mask.join_ones(iter), expected);
}

// Checks what a join in little-endian order and a join in big-endian order yield.
fn joins_each_way<T: Copy + Debug + PartialEq, B: Bits>(
    rt: &impl Abort,
    mask: &B,
    items: &[T],
    little: &[Option<T>],
    big: &[Option<T>],
)
    requires { ShapeFits B.Shape mask.now }
{
    steps_to(rt, mask.join_ones_le(items.iter()), little);
    steps_to(rt, mask.join_ones_be(items.iter()), big);
}

#[test]
fn reads_its_mask_in_the_order_that_is_named(rt: HostRuntime) {
    let letters = ['a', 'b', 'c', 'd', 'e', 'f', 'g', 'h'];
    let little = [Some('a'), Some('b'), Some('d'), None];
    let big = [Some('e'), Some('g'), Some('h'), None];
    joins_each_way(&rt, &0b1101_0000u8, &letters, &little, &big);
}

#[test]
fn joins_a_mask_of_a_wide_word(rt: HostRuntime) {
    let mut mask = 0u128;
    mask.set_bit(0);
    mask.set_bit(2);
    joins_to(&rt, &mask, &[10, 48, 101], &[Some(10), Some(101), None]);
}

#[test]
fn takes_nothing_past_the_greatest_member(rt: HostRuntime) {
    let items = [10u8, 48, 101, 7, 8];
    let mut iter = items.iter();
    let mask: u8 = set![0, 2];
    joins_to(&rt, &mask, &mut iter, &[Some(10), Some(101), None, None]);
    same!(rt; iter.as_slice(), [7, 8].as_slice());
}

#[test]
fn takes_nothing_where_there_are_no_members(rt: HostRuntime) {
    let items = [10u8, 20];
    let mut iter = items.iter();
    joins_to(&rt, &0u8, &mut iter, &[None]);
    same!(rt; iter.as_slice(), [10, 20].as_slice());
}

#[test]
fn takes_an_item_for_each_index_of_a_full_mask(rt: HostRuntime) {
    let mut iter = 0u32..200;
    {
        let mut join = u128::MAX.join_ones(&mut iter);
        for place in 0..128u32 {
            same!(rt; join.next(), Some(place));
        }
        same!(rt; join.next(), None);
    }
    same!(rt; iter.next(), Some(128));
}

#[test]
fn joins_an_iterator_whose_count_of_items_grows(rt: HostRuntime) {
    // The `size_hint` of flattened arrays counts the items of one array at a time.
    let pairs = [[1u32, 2, 3, 4], [5, 6, 7, 8]];
    let mask: u16 = set![0, 3, 6, 7, 10, 11];
    joins(
        &rt,
        &mask,
        pairs.into_iter().flatten().chain([9, 10, 11]),
        &[Some(1), Some(4), Some(7), Some(8), Some(11), None],
    );
}

#[test]
fn ends_with_its_iterator(rt: HostRuntime) {
    joins_to(&rt, &u8::MAX, [0u8; 0].iter(), &[None]);
    joins(
        &rt,
        &0xFFu8,
        ["a", "b"],
        &[Some("a"), Some("b"), None, None],
    );
}

#[test]
fn asks_no_more_after_the_end_of_its_iterator(rt: HostRuntime) {
    let mut stutter = Stutter { asked: 0 };
    joins(&rt, &u8::MAX, &mut stutter, &[Some(1), None, None, None]);
    same!(rt; stutter.asked, 2);
}

#[test]
fn asks_no_more_after_the_last_member(rt: HostRuntime) {
    let mut stutter = Stutter { asked: 2 };
    let mask: u8 = set_le![1, 3];
    steps(
        &rt,
        mask.join_ones_le(&mut stutter),
        &[Some(4), Some(6), None, None],
    );
    same!(rt; stutter.asked, 6);
}
