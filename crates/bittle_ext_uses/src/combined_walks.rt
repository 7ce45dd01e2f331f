//! Iterators over the combination of two sets. Some borrow a view, and some own one.

ghost use Rattle.std.specs.Iterator.{YieldsLast};
ghost use Rattle.std.specs.Prelude.{◌≡◌, ◌<◌, ℕ, List, [], ◌∷◌, ◌++◌, Option, None, MatchOption};
ghost use Rattle.std.specs.Prelude.{length, max, true};
ghost use Rattle.std.specs.Prelude.{option_map, slice_index, unwrap_or};
ghost use Rattle.std.specs.List.{fold};
ghost use Rattle.bittle.specs.BitPatterns.{bit_set};
ghost use Rattle.bittle.specs.Orders.{read_in};
ghost use Rattle.bittle.specs.PlainSet.{ascending, empty_set, with_index};
ghost use Rattle.bittle.specs.Rows.{row_set};
ghost use Rattle.bittle.specs.Values.{set_in, ShapeFits};
ghost use Rattle.bittle_ext.specs.Combined.{both_of, either_of, first_only_of, just_one_of};
ghost use Rattle.bittle_ext.specs.Views.{rounded_up};

use bittle::{Bits, Endian, LittleEndian, Set};
use bittle_ext::{BitsOwnedExt, BitsRelationExt, BitsViewExt, View};

/// Counts the bits that are set in at least one of two rows of unequal length. The rows are read in
/// little-endian order.
pub fn count_either(one: &[u32; 2], other: &[u32; 4]) -> usize
    ensures { result ≡ length (ascending (either_of
        (read_in true 32 (row_set 2 32 (bit_set 32) one.now))
        (read_in true 32 (row_set 4 32 (bit_set 32) other.now)))) }
{
    let view = one.in_order::<LittleEndian>();
    view.or(&other.in_order::<LittleEndian>())
        .iter_ones()
        .count()
}

/// Returns the bits that are set in the first word and not in the second.
pub fn alone(one: u16, other: u16) -> u16
    ensures { bit_set 16 result ≡ fold with_index (empty_set 16)
        (ascending (first_only_of (bit_set 16 one) (bit_set 16 other))) }
{
    u16::from_iter(one.minus(&other).iter_ones())
}

/// Counts the bits in which any two sets differ. Each set is read in its own order.
fn count_unlike<A: Bits, B: Bits>(one: &A, other: &B) -> usize
    requires one_fits { ShapeFits A.Shape one.now }
    requires other_fits { ShapeFits B.Shape other.now }
    requires rounded { rounded_up (max (A.big one.now).capacity (B.big other.now).capacity) A.width
        < 4294967295 }
    ensures { result ≡ length (ascending (just_one_of
        (set_in A.Shape A.Order.Endian one.now) (set_in B.Shape B.Order.Endian other.now))) }
{
    one.xor_unlike(other).iter_ones().count()
}

/// Counts the bits in which any two sets differ. Both sets are read in the order `E`.
pub fn count_different<A: Bits, B: Bits, E: Endian>(one: &A, other: &B) -> usize
    requires one_fits { ShapeFits A.Shape one.now }
    requires other_fits { ShapeFits B.Shape other.now }
    requires rounded { rounded_up (max (A.big one.now).capacity (B.big other.now).capacity) A.width
        < 4294967295 }
    ensures { result ≡ length (ascending (just_one_of
        (set_in A.Shape E.Endian one.now) (set_in B.Shape E.Endian other.now))) }
{
    count_unlike(&one.in_order::<E>(), &other.in_order::<E>())
}

/// Counts the bits that are set in a byte and not in a row of wider words. The row is read in
/// little-endian order.
pub fn count_alone(byte: u8, row: &Set<[u32; 2], LittleEndian>) -> usize
    ensures { result ≡ length (ascending (first_only_of (bit_set 8 byte)
        (read_in true 32 (row_set 2 32 (bit_set 32) row.now.bits)))) }
{
    byte.minus(row).iter_ones().count()
}

/// Returns the entry of a table at the last bit that is set in both of two masks, or 0 if there is
/// none.
pub fn last_entry(one: u64, other: u64, table: &[u32; 64]) -> u32
    ensures { (last : Option ℕ) × (rest : List ℕ)
        × YieldsLast (λ items. items)
        (ascending (both_of (bit_set 64 one) (bit_set 64 other))) last rest
        × (result ≡ unwrap_or (option_map (λ i. slice_index table.now i) last) 0) }
{
    match one.and(&other).iter_ones().next_back() {
        Some(index) => table[index as usize],
        None => 0,
    }
}

/// Returns how many bits are set in at least one of two words, and a word with just these bits set.
/// The count uses up a clone of the iterator, so the iterator itself stays as it was.
pub fn counted(one: u16, other: u16) -> (usize, u16)
    ensures count { result.0 ≡ length (ascending (either_of (bit_set 16 one) (bit_set 16 other))) }
    ensures word { bit_set 16 result.1 ≡ fold with_index (empty_set 16)
        (ascending (either_of (bit_set 16 one) (bit_set 16 other))) }
{
    let walk = one.or(&other).into_ones();
    let count = match walk.clone() {
        Ok(again) => again.count(),
        Err(_) => 0,
    };
    (count, u16::from_iter(walk))
}

/// Returns the first and the last bit that is set in at least one of two words. If there is just
/// one such bit, the second result is `None`. One iterator steps from both ends.
pub fn ends(one: u8, other: u8) -> (Option<u32>, Option<u32>)
    ensures { let items = ascending (either_of (bit_set 8 one) (bit_set 8 other)) in
        MatchOption result.0 ((items ≡ []) × (result.1 ≡ None))
        (λ a. MatchOption result.1 (items ≡ a ∷ [])
        (λ b. (between : List ℕ) × (items ≡ a ∷ (between ++ b ∷ [])))) }
{
    let mut walk = one.or(&other).into_ones();
    let first = walk.next();
    (first, walk.next_back())
}

/// Returns the entry of a table at the greatest index of a row that is read in little-endian order,
/// or 0 if there is none. The iterator is kept in a variable, and owns its view.
pub fn last_little(row: &[u8; 4], table: &[u32; 32]) -> u32 {
    let mut walk = row.in_order::<LittleEndian>().into_ones();
    match walk.next_back() {
        Some(index) => table[index as usize],
        None => 0,
    }
}

/// Returns the weight of the least index that a long row shares with a byte, or 0 if there is none.
/// The table has as many entries as the byte has bits.
pub fn shared_weight(row: &[u64; 4], byte: u8, weights: &[u32; 8]) -> u32 {
    match row.first_common(&byte) {
        Some(index) => weights[index as usize],
        None => 0,
    }
}

/// Returns the price of as many members as a long row shares with a byte.
pub fn shared_price(row: &[u64; 4], byte: u8, prices: &[u32; 9]) -> u32 {
    prices[row.count_common(&byte) as usize]
}

/// Returns the entry of `table` at the greatest bit that is set in both a byte and a longer word,
/// or 0 if there is none.
pub fn last_common_entry(few: u8, many: u64, table: &[u32; 8]) -> u32 {
    let mut last = 0;
    for index in few.and(&many).iter_ones() {
        last = table[index as usize];
    }
    last
}

/// Returns the entry of `table` at the greatest bit that is set in a byte and unset in a longer
/// word, or 0 if there is none.
pub fn last_entry_alone(few: u8, many: u64, table: &[u32; 8]) -> u32 {
    let mut last = 0;
    for index in few.minus(&many).iter_ones() {
        last = table[index as usize];
    }
    last
}
