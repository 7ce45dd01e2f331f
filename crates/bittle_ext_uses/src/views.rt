//! Views of sets: calls on a view as on a set, and iterators that own a view.

ghost use Rattle.std.specs.Prelude.{◌≡◌, ◌↔◌, ◌==◌, ◌-◌, ◌≤◌, ◌<◌, ◌&&◌, max, length, IsTrue, true};
ghost use Rattle.std.specs.Prelude.{false, IfSome};
ghost use Rattle.bittle.specs.BitPatterns.{bit_set};
ghost use Rattle.bittle.specs.Comparison.{AreSame};
ghost use Rattle.bittle.specs.Orders.{read_in};
ghost use Rattle.bittle.specs.PlainSet.{ascending, complement, contains, members_below, size};
ghost use Rattle.bittle.specs.Rows.{row_set};
ghost use Rattle.bittle.specs.Searches.{IsFirstIn};
ghost use Rattle.bittle.specs.SetOperations.{first_alone};
ghost use Rattle.bittle.specs.Values.{set_in, ShapeFits};
ghost use Rattle.bittle_ext.specs.Combined.{both_of, either_of, first_only_of, just_one_of};
ghost use Rattle.bittle_ext.specs.RangeMembers.{members_within};
ghost use Rattle.bittle_ext.specs.Runs.{IsFirstRun};
ghost use Rattle.bittle_ext.specs.Views.{decided_of_first, rounded_up};

use bittle::walk::IntoIterOnes;
use bittle::{Bits, Endian, LittleEndian, Set, Shape};
use bittle_ext::views::of_both::AndView;
use bittle_ext::{BitsExt, BitsViewExt, View};

/// Counts the items of an iterator over the bits that are set in at least one of two words.
pub fn items_of_either(one: u64, other: u64) -> usize
    ensures { result ≡ length (ascending (either_of (bit_set 64 one) (bit_set 64 other))) }
{
    one.or(&other).iter_ones().count()
}

/// For each bit that is set in both words, sets the entry of `table` at its index to `true`.
pub fn mark_common(one: u64, other: u64, table: &mut [bool; 64]) {
    for index in one.and(&other).iter_ones() {
        table[index as usize] = true;
    }
}

/// Counts the items of an iterator over the bits that are set in both of any two sets.
pub fn items<A: Bits, B: Bits>(left: &A, right: &B) -> usize
    requires left_fits { ShapeFits A.Shape left.now }
    requires right_fits { ShapeFits B.Shape right.now }
    ensures { result ≡ length (ascending (both_of
        (set_in A.Shape A.Order.Endian left.now) (set_in B.Shape B.Order.Endian right.now))) }
{
    left.and(right).iter_ones().count()
}

/// Counts the items of an iterator over the bits that are set in both a byte and a row of longer
/// words. The row is read in little-endian order.
pub fn items_of_unlike(byte: u8, row: &Set<[u32; 2], LittleEndian>) -> usize
    ensures { result ≡ length (ascending (both_of (bit_set 8 byte)
        (read_in true 32 (row_set 2 32 (bit_set 32) row.now.bits)))) }
{
    byte.and(row).iter_ones().count()
}

/// Counts the bits that are set in the first set and not in the second.
pub fn count_first<A: Bits, B: Bits>(left: &A, right: &B) -> u32
    requires left_fits { ShapeFits A.Shape left.now }
    requires right_fits { ShapeFits B.Shape right.now }
    ensures { result ≡ size (decided_of_first first_alone
        (set_in A.Shape A.Order.Endian left.now) (set_in B.Shape B.Order.Endian right.now)) }
{
    left.minus(right).count_ones()
}

/// Counts the bits that are set in just one of two sets. The leaf words of both have the same type.
pub fn count_different<A: Bits, B: Bits + Shape<LeafWord = A::LeafWord>>(left: &A, right: &B) -> u32
    requires left_fits { ShapeFits A.Shape left.now }
    requires right_fits { ShapeFits B.Shape right.now }
    ensures { result ≡ size (just_one_of
        (set_in A.Shape A.Order.Endian left.now) (set_in B.Shape B.Order.Endian right.now)) }
{
    left.xor(right).count_ones()
}

/// Counts the items of an iterator over the bits that are set in at least one of any two sets. The
/// greater capacity, rounded up to whole words of the first set, has to be below `u32::MAX`.
pub fn items_of_any<A: Bits, B: Bits>(left: &A, right: &B) -> usize
    requires left_fits { ShapeFits A.Shape left.now }
    requires right_fits { ShapeFits B.Shape right.now }
    requires rounded { rounded_up (max (A.big left.now).capacity (B.big right.now).capacity) A.width
        < 4294967295 }
    ensures { result ≡ length (ascending (either_of
        (set_in A.Shape A.Order.Endian left.now) (set_in B.Shape B.Order.Endian right.now))) }
{
    left.or_unlike(right).iter_ones().count()
}

/// Counts the items of an iterator over the bits that are set in a byte, in a row of longer words,
/// or in both.
pub fn items_of_either_unlike(byte: u8, row: &[u32; 2]) -> usize
    ensures { result ≡ length (ascending (either_of (bit_set 8 byte)
        (row_set 2 32 (bit_set 32) row.now))) }
{
    byte.or_unlike(row).iter_ones().count()
}

/// Returns the first bit that is set in both words.
pub fn first_in_both(one: u64, other: u64) -> Option<u32>
    ensures { IsFirstIn (both_of (bit_set 64 one) (bit_set 64 other)) 0 64 result }
{
    one.and(&other).first_one()
}

/// Returns the first bit from index `from` on that is set in `row` and unset in `other`. The byte
/// `other` is read in little-endian order.
pub fn next_alone(row: &[u32; 2], other: &Set<u8, LittleEndian>, from: u32) -> Option<u32>
    ensures { IsFirstIn (decided_of_first first_alone (row_set 2 32 (bit_set 32) row.now)
        (read_in true 8 (bit_set 8 other.now.bits))) from 64 result }
{
    row.minus(other).next_one(from)
}

/// Counts the bits below `index` that are set in both words.
pub fn rank_of_both(one: u64, other: u64, index: u32) -> u32
    ensures { result ≡ members_below (both_of (bit_set 64 one) (bit_set 64 other)) index }
{
    one.and(&other).rank(index)
}

/// Returns the start of the first run of `length` numbers that are free in both maps.
#[tactic(auto, using(bittle_ext::proofs::RunFacts::first_run_of_same))]
pub fn free_in_both(one: u64, other: u64, length: u32) -> Option<u32>
    ensures { IsFirstRun (complement (either_of (bit_set 64 one) (bit_set 64 other))) 0 length
        result }
{
    one.or(&other).first_zero_run(length)
}

/// Returns the start of the first run of `lots` free lots, in a map whose first 200 bits are lots.
#[tactic(auto, using(bittle_ext::proofs::RunFacts::first_run_within_same))]
pub fn free_lots(taken: [u64; 4], lots: u32) -> Option<u32>
    ensures { IsFirstRun (members_within (complement (row_set 4 64 (bit_set 64) taken)) 0 200) 0
        lots result }
{
    let free = taken.complement_view();
    free.within(0, 200).first_one_run(lots)
}

/// Returns the start of the first run of `length` numbers that are in both maps.
#[tactic(auto, using(bittle_ext::proofs::RunFacts::first_set_run_of_same))]
pub fn run_in_both(one: u64, other: u64, length: u32) -> Option<u32>
    ensures { IsFirstRun (both_of (bit_set 64 one) (bit_set 64 other)) 0 length result }
{
    one.and(&other).first_one_run(length)
}

/// Counts the numbers below 200 that are free in a map.
pub fn free_in_part(taken: [u64; 4]) -> u32
    ensures { result ≡ size (members_within (complement (row_set 4 64 (bit_set 64) taken)) 0 200) }
{
    let free = taken.complement_view();
    free.within(0, 200).count_ones()
}

/// Returns whether bit `index` is set in both of two rows. An index at or past the capacity wraps.
pub fn is_in_both(one: &[u32; 4], other: &[u32; 4], index: u32) -> bool
    ensures { result ≡ contains (both_of (row_set 4 32 (bit_set 32) one.now)
        (row_set 4 32 (bit_set 32) other.now)) index }
{
    one.and(other).test_bit(index)
}

/// Counts the bits below 9 that are set in three words and unset in a fourth. The borrow checker
/// accepts no longer chain of views of two sets.
pub fn count_low_of_three(one: u64, other: u64, third: u64, without: u64) -> u32
    ensures { result ≡ size (members_within (first_only_of (both_of (both_of (bit_set 64 one)
        (bit_set 64 other)) (bit_set 64 third)) (bit_set 64 without)) 0 9) }
{
    one.and(&other)
        .and(&third)
        .minus(&without)
        .within(0, 9)
        .count_ones()
}

/// Returns whether each bit below 9 that is set in `one` is set in `other`.
pub fn covers_low(one: u64, other: u64) -> bool
    ensures { result ≡ (size (first_only_of (members_within (bit_set 64 one) 0 9)
        (bit_set 64 other)) == 0) }
{
    one.within(0, 9).minus(&other).all_zeros()
}

/// Counts the items of an iterator over the set bits in a range of any set.
pub fn items_in_range<B: Bits>(bits: &B, from: u32, to: u32) -> usize
    requires fits { ShapeFits B.Shape bits.now }
    requires ordered { from ≤ to }
    requires inside { to ≤ (B.big bits.now).capacity }
    ensures { result ≡ length (ascending (members_within
        (set_in B.Shape B.Order.Endian bits.now) from to)) }
{
    bits.within(from, to).iter_ones().count()
}

/// Returns the first unset bit of a word whose index is at least `from`.
pub fn next_of_unset(word: u64, from: u32) -> Option<u32>
    ensures { IsFirstIn (complement (bit_set 64 word)) from 64 result }
{
    word.complement_view().next_one(from)
}

/// Returns whether the bits set in `one` are just those that are set in both `other` and `third`.
pub fn is_conjunction(one: u64, other: u64, third: u64) -> bool
    ensures { IsTrue result ↔ AreSame (bit_set 64 one)
        (both_of (bit_set 64 other) (bit_set 64 third)) }
{
    Set::new(one).eq_bits(&other.and(&third))
}

/// Adds up the entries of `table` at the indexes of the bits that are set in both words.
pub fn sum_joined(one: u64, other: u64, table: &[u32; 64]) -> u64 {
    let mut total = 0u64;
    for entry in one.and(&other).join_ones(table.iter()) {
        total = total.wrapping_add(*entry as u64);
    }
    total
}

/// Adds up the indexes of the bits that are set in both of two slices.
pub fn sum_of_slices<'a>(left: &'a [u64], right: &'a [u64]) -> u64
    requires left_fits { ShapeFits ⟦<&'a [u64] as Shape>⟧ left }
    requires right_fits { ShapeFits ⟦<&'a [u64] as Shape>⟧ right }
{
    let mut total = 0u64;
    for index in left.and(&right).iter_ones() {
        total = total.wrapping_add(index as u64);
    }
    total
}

/// Returns an iterator over the bits that are set in both of any two sets. The iterator owns the
/// view of the two sets.
pub fn iter_both<'a, A: Bits, B: Bits>(
    left: &'a A,
    right: &'a B,
) -> IntoIterOnes<AndView<'a, A, B, A::Order, B::Order>, A::Order>
    requires left_fits { ShapeFits A.Shape left.now }
    requires right_fits { ShapeFits B.Shape right.now }
    ensures { result.remaining ≡ ascending (both_of
        (set_in A.Shape A.Order.Endian left.now) (set_in B.Shape B.Order.Endian right.now)) }
{
    left.and(right).into_ones()
}

/// Counts the items of an iterator over the bits that are set in both of two words. The view of the
/// two words is wrapped in a `Set` with little-endian order.
pub fn items_from_left(one: u64, other: u64) -> usize
    ensures { result ≡ length (ascending (read_in true 64
        (both_of (bit_set 64 one) (bit_set 64 other)))) }
{
    Set::new_le(one.and(&other)).iter_ones().count()
}

/// Returns the least number that is in neither set.
pub fn first_free(one: u64, other: u64) -> Option<u32>
    ensures { IsFirstIn (complement (either_of (bit_set 64 one) (bit_set 64 other))) 0 64 result }
{
    one.or(&other).first_zero()
}

/// Returns the least number that is in neither set. One clause says that the number is not in
/// `one`, and another clause that it is not in `other`.
#[tactic(auto, using(bittle_lemmas::proofs::FoundNumbers::unset_in_first, bittle_lemmas::proofs::FoundNumbers::unset_in_second))]
pub fn unset_in_both(one: u64, other: u64) -> Option<u32>
    ensures one { IfSome result (λ number. contains (bit_set 64 one) number ≡ false) }
    ensures other { IfSome result (λ number. contains (bit_set 64 other) number ≡ false) }
{
    let number = first_free(one, other)?;
    Some(number)
}
