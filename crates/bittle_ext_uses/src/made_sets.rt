//! Sets made of indexes, ranges and other sets.

ghost use Rattle.std.specs.List.{fold};
ghost use Rattle.std.specs.Prelude.{◌≡◌, ◌==◌, ◌%◌, filter, false, true};
ghost use Rattle.bittle.specs.BitPatterns.{bit_set};
ghost use Rattle.bittle.specs.Orders.{read_in};
ghost use Rattle.bittle.specs.PlainSet.{ascending, empty_set, with_index};
ghost use Rattle.bittle.specs.PlainSet.{without_span, with_span_toggled};

use bittle::{Bits, LittleEndian, Set};
use bittle_ext::{BitsMutExt, BitsOwnedExt};

/// Returns the set of three indexes.
pub fn three(a: u32, b: u32, c: u32) -> u64
    ensures { bit_set 64 result ≡ with_index (with_index (with_index (empty_set 64) a) b) c }
{
    u64::from_indexes(&[a, b, c])
}

/// Returns a word with the bits at the listed indexes set. Indexes follow the little-endian order.
pub fn all_of(indexes: &[u32]) -> u64
    ensures { read_in true 64 (bit_set 64 result)
        ≡ fold with_index (empty_set 64) indexes.now }
{
    Set::<u64, LittleEndian>::from_indexes(indexes).into_bits()
}

/// Returns a longer word with the set bits of a byte. It is made from the items of an iterator.
pub fn widened(mask: u8) -> u32
    ensures { bit_set 32 result
        ≡ fold with_index (empty_set 32) (ascending (bit_set 8 mask)) }
{
    u32::from_iter(mask.iter_ones())
}

/// Returns a word with just those set bits of `mask` whose index is a multiple of 4. It is made
/// from a chain of iterators.
pub fn each_fourth_of(mask: u64) -> u64
    ensures { bit_set 64 result ≡ fold with_index (empty_set 64)
        (filter (λ k. k % 4 == 0) (ascending (bit_set 64 mask))) }
{
    u64::from_iter(mask.iter_ones().filter(|index| *index % 4 == 0))
}

/// Returns the word with one range cleared and another range flipped.
pub fn changed(mask: u32) -> u32
    ensures { bit_set 32 result
        ≡ with_span_toggled (without_span (bit_set 32 mask) 4 9) 20 32 }
{
    mask.without_range(4, 9).with_range_toggled(20, 32)
}

/// Sets the bits of a word at the indexes of an array.
pub fn add_three(mask: &mut u64)
    ensures { bit_set 64 mask.new
        ≡ with_index (with_index (with_index (bit_set 64 mask.old) 3) 7) 9 }
{
    mask.extend([3u32, 7, 9]);
}

/// Returns the set of the indexes in an array.
pub fn of_array(indexes: [u32; 5]) -> u64
    ensures { bit_set 64 result ≡ fold with_index (empty_set 64) indexes }
{
    u64::from_iter(indexes)
}

/// Returns the set of the indexes in a `Vec` of the caller's.
pub fn of_vec(indexes: Vec<u32>) -> u64
    ensures { bit_set 64 result ≡ fold with_index (empty_set 64) indexes.items }
{
    u64::from_iter(indexes)
}

/// Returns a longer word with the members of a borrowed set. The set is read in little-endian
/// order.
pub fn of_set(set: &Set<u8, LittleEndian>) -> u64
    ensures { bit_set 64 result ≡ fold with_index (empty_set 64)
        (ascending (read_in true 8 (bit_set 8 set.now.bits))) }
{
    u64::from_iter(set)
}
