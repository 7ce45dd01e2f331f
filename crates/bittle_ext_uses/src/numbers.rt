//! Numbers that are stored in the bits of sets, and copies of ranges of bits.

ghost use Rattle.std.specs.Prelude.{◌≡◌, ◌+◌, ◌-◌, ◌*◌, ◌%◌, ◌<◌, ◌≤◌, ℕ, length, true};
ghost use Rattle.bittle.specs.BitPatterns.{bit_set};
ghost use Rattle.bittle.specs.Orders.{read_in};
ghost use Rattle.bittle.specs.PlainSet.{contains};
ghost use Rattle.bittle.specs.Rows.{row_set};
ghost use Rattle.bittle.specs.Values.{set_in, ShapeFits};
ghost use Rattle.bittle_ext.specs.Numbers.{number_in, with_copied};

use bittle::{Bits, BitsMut, LittleEndian, Set};
use bittle_ext::{BitsCopyExt, BitsNumberExt, BitsNumberMutExt, BitsViewExt};

/// Returns the number in field `index` of any set. Each field of the set has five bits.
pub fn field<B: Bits>(fields: &B, index: u32) -> u64
    requires fits { ShapeFits B.Shape fields.now }
    requires within { index < 100000 }
    ensures value { result ≡ number_in (set_in B.Shape B.Order.Endian fields.now) (index * 5) 5 }
    ensures small { result < 32 }
{
    fields.load(index * 5, 5)
}

/// Puts a number into field `index` of any set. Each field of the set has five bits. No other field
/// changes.
pub fn set_field<B: BitsMut>(fields: &mut B, index: u32, value: u64)
    requires fits { ShapeFits B.Shape fields.old }
    requires within { index * 5 + 5 ≤ (B.big fields.old).capacity }
    requires small { value < 32 }
    ensures put { number_in (set_in B.Shape B.Order.Endian fields.new) (index * 5) 5 ≡ value }
    ensures before { (i : ℕ) → i < index
        → number_in (set_in B.Shape B.Order.Endian fields.new) (i * 5) 5
        ≡ number_in (set_in B.Shape B.Order.Endian fields.old) (i * 5) 5 }
    ensures after { (i : ℕ) → index < i
        → number_in (set_in B.Shape B.Order.Endian fields.new) (i * 5) 5
        ≡ number_in (set_in B.Shape B.Order.Endian fields.old) (i * 5) 5 }
    ensures stays { B.loan fields.old ≡ B.loan fields.new }
{
    fields.store(index * 5, 5, value);
}

/// Stores the 16 lowest bits of a number in any set, loads them again, and returns them.
pub fn kept<B: BitsMut>(set: &mut B, first: u32, value: u64) -> u64
    requires fits { ShapeFits B.Shape set.old }
    requires within { first + 16 ≤ (B.big set.old).capacity }
    ensures { result ≡ value % 65536 }
{
    set.store(first, 16, value);
    set.load(first, 16)
}

/// Stores a number of 64 bits in a row.
pub fn keep_whole(row: &mut [u8; 12], value: u64)
    ensures { number_in (row_set 12 8 (bit_set 8) row.new) 20 64 ≡ value }
{
    row.store(20, 64, value);
}

/// Returns the number in the six leftmost bits of a word. The leftmost bit has the weight 1.
pub fn leftmost(word: u32) -> u64
    ensures { result ≡ number_in (read_in true 32 (bit_set 32 word)) 0 6 }
{
    word.in_order::<LittleEndian>().load(0, 6)
}

/// Copies twelve bits of a row into a word.
pub fn length_of(packet: &[u8; 8]) -> u16
    ensures { bit_set 16 result
        ≡ with_copied (bit_set 16 0) 0 12 (row_set 8 8 (bit_set 8) packet.now) 4 }
{
    let mut bits = 0u16;
    bits.copy_range(packet, 4, 16, 0);
    bits
}

/// Copies the 70 bits of `from` that begin at index `start` into a lent slice, to the indexes of
/// the slice that begin at 30.
pub fn paste<B: Bits>(words: &mut [u64], from: &B, start: u32)
    requires long { 2 ≤ length words.old }
    requires fits { length words.old * 64 < 4294967295 }
    requires from_fits { ShapeFits B.Shape from.now }
    requires small { start < 4294967000 }
    ensures { row_set (length words.new) 64 (bit_set 64) words.new
        ≡ with_copied (row_set (length words.old) 64 (bit_set 64) words.old) 30 70
        (set_in B.Shape B.Order.Endian from.now) start }
{
    let mut set = Set::from_mut(words);
    set.copy_range(from, start, start + 70, 30);
}

/// Copies a range of 16 bits from one set to another of any shape, and returns whether bit `index`
/// of the copy is set.
pub fn is_pasted<A: BitsMut, B: Bits>(set: &mut A, from: &B, index: u32) -> bool
    requires fits { ShapeFits A.Shape set.old }
    requires from_fits { ShapeFits B.Shape from.now }
    requires within { 20 ≤ (A.big set.old).capacity }
    requires index { index < 16 }
    ensures { result ≡ (set_in B.Shape B.Order.Endian from.now).has (8 + index) }
{
    set.copy_range(from, 8, 24, 4);
    set.test_bit(4 + index)
}

/// Moves the bits from index `at` on up by `count` places, to make room. Bits that would pass the
/// end are lost.
pub fn open_gap<B: BitsMut>(set: &mut B, at: u32, count: u32)
    requires fits { ShapeFits B.Shape set.old }
    requires within { at + count ≤ (B.big set.old).capacity }
    ensures moved { (i : ℕ) → i < (B.big set.old).capacity - count - at
        → contains (set_in B.Shape B.Order.Endian set.new) (at + count + i)
        ≡ (set_in B.Shape B.Order.Endian set.old).has (at + i) }
    ensures before { (i : ℕ) → i < at
        → contains (set_in B.Shape B.Order.Endian set.new) i
        ≡ contains (set_in B.Shape B.Order.Endian set.old) i }
{
    let end = set.bits_capacity() - count;
    set.copy_within(at, end, at + count);
}
