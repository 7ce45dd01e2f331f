//! Counts of set bits or unset bits: some are added or subtracted, and some are cast to narrower
//! types. Also positions of items in an iterator.

ghost use Rattle.std.specs.Prelude.{◌≡◌, ◌==◌, ◌+◌, ◌-◌, true, length, position, Some, map};
ghost use Rattle.std.specs.Prelude.{slice_index};
ghost use Rattle.std.specs.List.{last_or, enumerate_from};
ghost use Rattle.std.specs.Int.Bits.{bit_xor};
ghost use Rattle.bittle.specs.BitPatterns.{bit_set};
ghost use Rattle.bittle.specs.Orders.{read_in};
ghost use Rattle.bittle.specs.PlainSet.{ascending, complement, size};
ghost use Rattle.bittle.specs.Rows.{row_set};
ghost use Rattle.bittle.specs.Values.{set_in, set_mirrored, ShapeFits};

use bittle::{Bits, BitsOwned, LittleEndian, Set};

/// Counts the set bits of a word by its iterator.
pub fn count_of_word(mask: u64) -> usize
    ensures { result ≡ length (ascending (bit_set 64 mask)) }
{
    mask.iter_ones().count()
}

/// Counts the set bits of four bytes by their iterator.
pub fn count_of_bytes(mask: [u8; 4]) -> usize
    ensures { result ≡ length (ascending (row_set 4 8 (bit_set 8) mask)) }
{
    mask.iter_ones().count()
}

/// Counts the unset bits of two bytes, by an iterator that owns them.
pub fn count_of_free(mask: [u8; 2]) -> usize
    ensures { result ≡ length (ascending (complement (row_set 2 8 (bit_set 8) mask))) }
{
    mask.into_iter_zeros_be().count()
}

/// Counts the set bits of a `Set` that remembers little-endian order, by its iterator.
pub fn count_of_set(set: Set<u16, LittleEndian>) -> usize
    ensures { result ≡ length (ascending (read_in true 16 (bit_set 16 set.bits))) }
{
    set.iter_ones().count()
}

/// Counts the set bits of a `Set`, by the iterator that `into_iter` returns.
pub fn count_of_iterated_set(set: Set<u64>) -> usize
    ensures { result ≡ length (ascending (bit_set 64 set.bits)) }
{
    set.into_iter().count()
}

/// Counts the set bits of any set by its iterator.
pub fn count_of_any<B: BitsOwned>(set: B) -> usize
    requires { ShapeFits B.Shape set }
    ensures { result ≡ length (ascending (set_in B.Shape B.Order.Endian set)) }
{
    set.iter_ones().count()
}

/// Counts the entries of `row` at the indexes of the set bits of `mask`, by an iterator.
pub fn count_of_joined(mask: u64, row: &[u32; 64]) -> usize
    ensures { result ≡ length (ascending (bit_set 64 mask)) }
{
    mask.join_ones(row.iter()).count()
}

/// Returns how many set bits lie below the bit `wanted`, or `None` if that bit is unset.
pub fn place_of_member(mask: u64, wanted: u32) -> Option<usize>
    ensures { result ≡ position (λ i. i == wanted) (ascending (bit_set 64 mask)) }
{
    mask.iter_ones().position(|index| index == wanted)
}

/// Returns how many set bits of any set lie below the bit `wanted`, or `None` if that bit is unset.
pub fn place_of_member_of_any<B: BitsOwned>(set: B, wanted: u32) -> Option<usize>
    requires { ShapeFits B.Shape set }
    ensures { result
        ≡ position (λ i. i == wanted) (ascending (set_in B.Shape B.Order.Endian set)) }
{
    set.iter_ones().position(|index| index == wanted)
}

/// Returns how many unset bits of any set have an index below `wanted`, in little-endian order.
/// Returns `None` if the bit at `wanted` is set, or if `wanted` is at or past the capacity.
pub fn place_of_free_of_any<B: BitsOwned>(set: B, wanted: u32) -> Option<usize>
    requires { ShapeFits B.Shape set }
    ensures { result ≡ position (λ i. i == wanted)
        (ascending (complement (set_mirrored B.Shape true set))) }
{
    set.into_iter_zeros_le().position(|index| index == wanted)
}

/// Returns the exclusive or of two entries of `row`: the entry at the index of the last set bit,
/// and the entry whose index is the number of set bits below that bit. Returns 0 if no bit is set.
pub fn entries_at_place_and_member(mask: u64, row: &[u32; 64]) -> u32
    ensures { Some result ≡ last_or (Some 0) (map
        (λ p. bit_xor (slice_index row.now p.0) (slice_index row.now p.1))
        (enumerate_from 0 (ascending (bit_set 64 mask)))) }
{
    let mut last = 0;
    for (place, index) in mask.iter_ones().enumerate() {
        last = row[place] ^ row[index as usize];
    }
    last
}

/// Returns how many set bits of any set lie below the last set bit, or 0 if no bit is set.
pub fn last_place_of_any<B: BitsOwned>(set: B) -> usize
    requires { ShapeFits B.Shape set }
    ensures { result ≡ length (ascending (set_in B.Shape B.Order.Endian set)) - 1 }
{
    let mut last = 0;
    for (place, _index) in set.iter_ones().enumerate() {
        last = place;
    }
    last
}

/// Returns the number of set bits of `one` plus the number of set bits of `other`.
pub fn count_of_both(one: u8, other: u8) -> u32
    ensures { result ≡ size (bit_set 8 one) + size (bit_set 8 other) }
{
    Bits::count_ones(&one) + Bits::count_ones(&other)
}

/// Returns the number of unset bits of `one` plus the number of unset bits of `other`.
pub fn free_of_both(one: u8, other: u8) -> u32
    ensures { result ≡ (8 - size (bit_set 8 one)) + (8 - size (bit_set 8 other)) }
{
    Bits::count_zeros(&one) + Bits::count_zeros(&other)
}

/// Returns the number of set bits of four words, cast to `u16`.
pub fn narrow_count(board: &[u64; 4]) -> u16
    ensures { result ≡ size (row_set 4 64 (bit_set 64) board.now) }
{
    board.count_ones() as u16
}

/// Returns the number of set bits of a `Set`, cast to `u8`.
pub fn narrow_count_of_set(set: Set<u64>) -> u8
    ensures { result ≡ size (bit_set 64 set.bits) }
{
    set.count_ones() as u8
}

/// Counts the unset bits of a word: 64 minus how many are set.
pub fn free_of_word(board: u64) -> u32
    ensures { result ≡ 64 - size (bit_set 64 board) }
{
    64 - Bits::count_ones(&board)
}

/// Returns the number of set bits of `one` plus the number of set bits of `other`. The two sets
/// have the same type.
pub fn count_of_any_both<B: BitsOwned>(one: B, other: B) -> u64
    requires one_fits { ShapeFits B.Shape one }
    requires other_fits { ShapeFits B.Shape other }
    ensures { result ≡ size (B.big one) + size (B.big other) }
{
    one.count_ones() as u64 + other.count_ones() as u64
}
