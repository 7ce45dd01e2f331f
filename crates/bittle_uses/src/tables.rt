//! Rows with an entry for each index of a set. The functions use the entries at the set bits, or at
//! the unset bits. A function that finds no entry returns 0.

ghost use Rattle.std.specs.Prelude.{◌≡◌, ◌≤◌, Option, ℕ, length, option_map, slice_index};
ghost use Rattle.std.specs.Prelude.{unwrap_or};
ghost use Rattle.std.specs.List.{reduce, last_or, filter, fold, slice_index_or};
ghost use Rattle.std.specs.Int.Bits.{bit_xor};
ghost use Rattle.std.specs.Prelude.{max, slice_get, map, Some, true, false, take, drop, not, ◌==◌};
ghost use Rattle.std.specs.Prelude.{◌<◌, ◌||◌, ◌/◌, ◌%◌, []};
ghost use Rattle.bittle.specs.Orders.{read_in};
ghost use Rattle.bittle.specs.Rows.{row_set};
ghost use Rattle.bittle.specs.PlainSet.{ascending, complement};
ghost use Rattle.bittle.specs.BitPatterns.{bit_set};
ghost use Rattle.bittle.specs.Searches.{IsFirstIn};
ghost use Rattle.bittle.specs.Values.{set_in, ShapeFits};

use bittle::number::IterOnes;
use bittle::{BigEndian, Bits, BitsOwned, LittleEndian, Set};

/// Returns the entry at the greatest unset bit in little-endian order, or 0 if each bit is set.
pub fn entry_at_greatest_free(mask: u64, row: &[u32; 64]) -> u32
    ensures { Some result ≡ last_or (Some 0) (map (λ i. slice_index row.now i)
        (ascending (complement (read_in true 64 (bit_set 64 mask))))) }
{
    let mut last = 0;
    for index in mask.iter_zeros_le() {
        last = row[index as usize];
    }
    last
}

/// Returns the entry at the greatest set bit of an array that the iterator owns, or 0.
pub fn entry_at_greatest_of_owned(mask: [u16; 4], row: &[u32; 64]) -> u32
    ensures { Some result ≡ last_or (Some 0) (map (λ i. slice_index row.now i)
        (ascending (row_set 4 16 (bit_set 16) mask))) }
{
    let mut last = 0;
    for index in mask.into_iter_ones() {
        last = row[index as usize];
    }
    last
}

/// Returns the entry at the least set bit, or 0. It steps an iterator from the back.
pub fn entry_at_least(mask: u64, row: &[u32; 64]) -> u32
    ensures { result ≡ unwrap_or (option_map (λ i. slice_index row.now i)
        (slice_get (ascending (bit_set 64 mask)) 0)) 0 }
{
    let mut last = 0;
    for index in mask.iter_ones().rev() {
        last = row[index as usize];
    }
    last
}

/// Returns the entry at the greatest set bit of a `Set` in the bit order that it remembers, or 0.
pub fn entry_at_greatest_of_set(mask: Set<u64, LittleEndian>, row: &[u32; 64]) -> u32
    ensures { Some result ≡ last_or (Some 0) (map (λ i. slice_index row.now i)
        (ascending (read_in true 64 (bit_set 64 mask.bits)))) }
{
    let mut last = 0;
    for index in mask {
        last = row[index as usize];
    }
    last
}

/// Returns the entry at the greatest set bit of a borrowed `Set`, or 0.
pub fn entry_at_greatest_of_lent_set(mask: &Set<[u64; 4]>, row: &[u32; 256]) -> u32
    ensures { Some result ≡ last_or (Some 0) (map (λ i. slice_index row.now i)
        (ascending (row_set 4 64 (bit_set 64) mask.now.bits))) }
{
    let mut last = 0;
    for index in mask {
        last = row[index as usize];
    }
    last
}

/// Returns the entry at the greatest set bit of any set, or 0. The row has an entry for each index.
pub fn entry_at_greatest_of_any<B: BitsOwned>(mask: B, row: &[u32]) -> u32
    requires fits { ShapeFits B.Shape mask }
    requires long { (B.big mask).capacity ≤ length row.now }
    ensures { Some result ≡ last_or (Some 0) (map (λ i. slice_index row.now i)
        (ascending (set_in B.Shape B.Order.Endian mask))) }
{
    let mut last = 0;
    for index in mask.iter_ones() {
        last = row[index as usize];
    }
    last
}

/// Returns the entry at the greatest set bit, or 0. It uses the iterator over one word.
pub fn entry_at_greatest_of_word(mask: u64, row: &[u32; 64]) -> u32
    ensures { Some result ≡ last_or (Some 0) (map (λ i. slice_index row.now i)
        (ascending (bit_set 64 mask))) }
{
    let mut last = 0;
    for index in IterOnes::<u64, BigEndian>::new(mask) {
        last = row[index as usize];
    }
    last
}

/// For each set bit of `mask`, sets the entry of `row` at its index to `true`. The other entries
/// stay the same.
pub fn mark_members(mask: u64, row: &mut [bool; 64])
    ensures { (i : ℕ) → i < 64 → slice_index_or row.new i false
        ≡ (slice_index_or row.old i false || (bit_set 64 mask).has i) }
{
    for index in mask.iter_ones() {
        row[index as usize] = true;
    }
}

/// Makes a word of the set bits of `mask`, one by one. The result equals `mask`.
pub fn word_of_members(mask: u64) -> u64
    ensures { result ≡ mask }
{
    let mut word = 0;
    for index in mask.iter_ones() {
        word ^= 1u64 << index;
    }
    word
}

/// Returns the exclusive or of the entries of `cells` at the set bits of `board`. The board has
/// eight rows of eight cells.
pub fn combine_cells(board: u64, cells: &[[u8; 8]; 8]) -> u8
    ensures { result ≡ fold (λ all i. bit_xor all
        (slice_index (slice_index_or cells.now (i / 8) []) (i % 8))) 0
        (ascending (bit_set 64 board)) }
{
    let mut all = 0;
    for cell in board.iter_ones() {
        all ^= cells[cell as usize / 8][cell as usize % 8];
    }
    all
}

/// Returns the index of the greatest set bit of four words, cast to a byte, or 0 if no bit is set.
pub fn greatest_as_byte(mask: &[u64; 4]) -> u8
    ensures { Some result ≡ last_or (Some 0)
        (ascending (row_set 4 64 (bit_set 64) mask.now)) }
{
    let mut last = 0;
    for index in mask.iter_ones() {
        last = index as u8;
    }
    last
}

/// Returns the entry at the first item of an iterator over the set bits, or 0.
pub fn entry_at_first(mask: u64, row: &[u32; 64]) -> u32
    ensures { result ≡ unwrap_or (option_map (λ i. slice_index row.now i)
        (slice_get (ascending (bit_set 64 mask)) 0)) 0 }
{
    match mask.iter_ones().next() {
        Some(index) => row[index as usize],
        None => 0,
    }
}

/// Returns the entry at the least unset bit, or 0 if each bit is set.
pub fn entry_at_first_free(mask: u64, row: &[u32; 64]) -> u32
    ensures { result ≡ unwrap_or (option_map (λ i. slice_index row.now i)
        (slice_get (ascending (complement (bit_set 64 mask))) 0)) 0 }
{
    match mask.iter_zeros().next() {
        Some(index) => row[index as usize],
        None => 0,
    }
}

/// Returns the entry at the least set bit, or 0. It searches the range `0..64`.
pub fn entry_at_found(mask: u64, row: &[u32; 64]) -> u32
    ensures { (found : Option ℕ) × IsFirstIn (bit_set 64 mask) 0 64 found
        × (result ≡ unwrap_or (option_map (λ i. slice_index row.now i) found) 0) }
{
    match mask.first_one_in::<BigEndian>(0, 64) {
        Some(index) => row[index as usize],
        None => 0,
    }
}

/// Returns the entry at the greatest item of an iterator over the set bits, or 0.
pub fn entry_at_maximum(mask: u64, row: &[u32; 64]) -> u32
    ensures { result ≡ unwrap_or (option_map (λ i. slice_index row.now i)
        (reduce max (ascending (bit_set 64 mask)))) 0 }
{
    match mask.iter_ones().max() {
        Some(index) => row[index as usize],
        None => 0,
    }
}

/// Returns the entry at the greatest set bit, or 0. It steps an iterator by calls of `next`.
pub fn entry_at_last_step(mask: u64, row: &[u32; 64]) -> u32
    ensures { Some result ≡ last_or (Some 0) (map (λ i. slice_index row.now i)
        (ascending (bit_set 64 mask))) }
{
    let mut last = 0;
    let mut walk = mask.iter_ones();
    while let Some(index) = walk.next() {
        last = row[index as usize];
    }
    last
}

/// Leaves out bit 7 and the first of the other set bits. Of the set bits that remain, takes the
/// first three at most, and returns the entry at the last one taken, or 0.
pub fn entry_at_chosen(mask: u64, row: &[u32; 64]) -> u32
    ensures { Some result ≡ last_or (Some 0) (map (λ i. slice_index row.now i)
        (take 3 (drop 1 (filter (λ i. not (i == 7)) (ascending (bit_set 64 mask)))))) }
{
    let mut last = 0;
    for index in mask.iter_ones().filter(|index| *index != 7).skip(1).take(3) {
        last = row[index as usize];
    }
    last
}

/// Returns the entry at the greatest set bit, or 0. It steps a clone of an iterator.
pub fn entry_at_greatest_of_clone(mask: u64, row: &[u32; 64]) -> u32
    ensures { Some result ≡ last_or (Some 0) (map (λ i. slice_index row.now i)
        (ascending (bit_set 64 mask))) }
{
    let walk = mask.iter_ones();
    let mut last = 0;
    if let Ok(again) = walk.clone() {
        for index in again {
            last = row[index as usize];
        }
    }
    last
}
