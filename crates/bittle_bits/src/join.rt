//! Joins. A join of an iterator with a set yields those items of the iterator whose positions are
//! members of the set.

ghost use Rattle.std.specs.Prelude.{◌≡◌, false, length, OnSome};
ghost use Rattle.std.specs.Iterator.{at_most, SkipsThenYields};
ghost use Rattle.bittle_bits.specs.Join.{join_steps, AnswersItemsAtMembers, EndsAfterMembers};
ghost use Rattle.bittle_bits.specs.PlainSet.{ascending};
ghost use Rattle.bittle_bits.specs.Values.{set_in, ShapeFits};
ghost use Rattle.bittle_bits.specs.Walk.{AreBelow};

use crate::bits::Bits;
use crate::endian::Endian;
use crate::shape::Shape;
use crate::walk::IterOnes;
use std::marker::Model;

/// A join: an iterator that yields the items of another iterator, `iter`, at the set bits of a
/// mask.
///
/// For each set bit in turn, from the least index to the greatest, the join steps `iter` to the
/// item whose position is that index, and yields this item. Positions are counted from the first
/// item of `iter`, which has position 0. The join takes no item past the greatest set bit.
///
/// The join returns `None` after the last set bit, or at the first set bit for which `iter` has no
/// item left. From then on the join steps neither its mask nor `iter`.
///
/// ```
/// let mask = 0b0101u8;
/// let mut join = mask.join_ones([10, 20, 30, 40]);
/// join.next();                                        // Some(10)
/// join.next();                                        // Some(30)
/// join.next();                                        // None
/// ```
#[derive(Drop)]
pub struct JoinOnes<'a, A: Shape, E: Endian, I> {
    mask: IterOnes<'a, A, E>,
    iter: I,
    taken: usize,
    ended: bool,
}

impl<'a, A: Shape, E: Endian, I> Model for JoinOnes<'a, A, E, I> {
    ghost use Rattle.bittle_bits.specs.Join.{Join, IsAscendingFrom};

    ghost Value = { Join I };

    ghost view = { λ j. record { mask = j.mask; iter = j.iter; taken = j.taken; ended = j.ended } };

    ghost invariant = { λ j. IsAscendingFrom j.taken j.mask.remaining };
}

impl<'a, A: Bits, E: Endian, I: Iterator> JoinOnes<'a, A, E, I>
where
    I::Item: Drop,
{
    /// Begins a join: it yields the items of `iter` whose positions are members of `set`.
    #[inline]
    pub(crate) fn new(set: &'a A, iter: I) -> Self
        requires { ShapeFits A.Shape set.now }
        ensures members { result.mask.remaining ≡ ascending (set_in A.Shape E.Endian set.now) }
        ensures below { AreBelow (A.big set.now).capacity result.mask.remaining }
        ensures iter { result.iter ≡ iter }
        ensures none_taken { result.taken ≡ 0 }
        ensures goes_on { result.ended ≡ false }
        ensures answers { AnswersItemsAtMembers I.next_gives result }
        ensures end { EndsAfterMembers I.next_gives result }
    {
        let mask = set.iter_ones_in::<E>();
        JoinOnes {
            mask,
            iter,
            taken: 0,
            ended: false,
        }
    }
}

/// Takes the next item, as `next` does. A loop calls this function instead of `next`, because the
/// checker proves that each loop ends. For a loop that calls `next`, the checker would require that
/// the iterator ends. For a loop that calls this function, it requires only a number that decreases
/// in each turn.
#[inline]
fn take<I: Iterator>(iter: &mut I) -> Option<I::Item>
    requires { I.can_next iter.old }
    ensures steps { I.next_gives iter.old result iter.new }
    ensures keeps { OnSome result (I.can_next iter.new) }
{
    iter.next()
}

/// Skips `count` items and takes the next one.
///
/// If `size_hint` says that more than `count + 1` items are left, a loop takes the items one by
/// one, and counts `left` down from `count`. If the iterator is over a slice, the compiler knows
/// how many items are left. So it drops the loop's test for the end of the items, and turns the
/// loop into one addition.
#[inline]
fn skip_to<I: Iterator>(iter: &mut I, count: usize) -> Option<I::Item>
where
    I::Item: Drop,
    requires { I.can_next iter.old }
    ensures ran { SkipsThenYields I.next_gives iter.old count result iter.new }
    ensures keeps { OnSome result (I.can_next iter.new) }
{
    let (least, _) = iter.size_hint();
    // The test compares `least - 1`, not `least`, since from this form the compiler sees that the
    // loop below ends before the items do.
    if least == 0 || least - 1 <= count {
        return iter.nth(count);
    }
    let mut left = count;
    loop {
        let item = take(iter)?;
        if left == 0 {
            return Some(item);
        }
        left -= 1;
    }
}

impl<A: Bits, E: Endian, I: Iterator> Iterator for JoinOnes<'_, A, E, I>
where
    I::Item: Drop,
{
    type Item = I::Item;

    ghost can_next = { λ s. s.ended ≡ false → I.can_next s.iter };

    ghost next_gives = { join_steps I.next_gives };

    ghost remaining = { λ s. at_most (length s.mask.remaining) };

    #[inline]
    fn next(&mut self) -> Option<I::Item> {
        if self.ended {
            return None;
        }
        let item = match self.mask.next() {
            Some(member) => {
                let skipped = member as usize - self.taken;
                self.taken = member as usize + 1;
                skip_to(&mut self.iter, skipped)
            }
            None => None,
        };
        self.ended = item.is_none();
        item
    }
}
