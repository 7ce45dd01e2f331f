//! Calls that copy a range of bits to another place.

ghost use Rattle.std.specs.Prelude.{◌≡◌, ◌+◌, ◌-◌, ◌<◌, ◌≤◌, ℕ};
ghost use Rattle.bittle.specs.PlainSet.{contains};
ghost use Rattle.bittle.specs.Values.{set_in, ShapeFits};
ghost use Rattle.bittle_ext.specs.Numbers.{with_copied};

use crate::copies;
use bittle::{Bits, BitsMut};

/// Copies of a range of bits, a word at a time. The range lies in another set, of any type and
/// order, or in the same set.
///
/// `from..to` are the indexes that are read, and `at` is the first index that is written. Each set
/// is read in the bit order of its type; a view made by `in_order` or `in_order_mut` has the order
/// that it names. A bit that is read at or past the capacity counts as unset. Each written bit lies
/// below the capacity of its set.
pub trait BitsCopyExt: BitsMut {
    /// Copies the bits `from..to` of `other` to the indexes of this set from `at` on. No other bit
    /// changes.
    ///
    /// Both sets have to fit (`bits_capacity() < u32::MAX`), `from <= to` has to hold, and the
    /// written range has to end at or below the capacity. With capacity 0 only an empty range is
    /// allowed, which changes nothing. Each word of the written range is read and written once. For
    /// each of these words, the call reads only those words of `other` that hold the new bits. They
    /// are at most two, or at most `n + 1` if the words of `other` are narrower and `n` of them
    /// fill one written word.
    ///
    /// ```
    /// let mut row = [0xFFu8; 2];
    /// row.copy_range(&0x0A50u16, 4, 12, 6);               // row is [0x7F, 0xE9]
    /// ```
    #[inline]
    final fn copy_range<B: Bits>(&mut self, other: &B, from: u32, to: u32, at: u32)
        requires fits { ShapeFits Self.Shape self.old }
        requires other_fits { ShapeFits B.Shape other.now }
        requires ordered { from ≤ to }
        requires within { at + (to - from) ≤ (Self.big self.old).capacity }
        ensures set { set_in Self.Shape Self.Order.Endian self.new
            ≡ with_copied (set_in Self.Shape Self.Order.Endian self.old) at (to - from)
            (set_in B.Shape B.Order.Endian other.now) from }
        ensures copied { (i : ℕ) → i < to - from
            → contains (set_in Self.Shape Self.Order.Endian self.new) (at + i)
            ≡ (set_in B.Shape B.Order.Endian other.now).has (from + i) }
        ensures before { (i : ℕ) → i < at
            → contains (set_in Self.Shape Self.Order.Endian self.new) i
            ≡ contains (set_in Self.Shape Self.Order.Endian self.old) i }
        ensures after { (i : ℕ) → at + (to - from) ≤ i → i < (Self.big self.old).capacity
            → contains (set_in Self.Shape Self.Order.Endian self.new) i
            ≡ contains (set_in Self.Shape Self.Order.Endian self.old) i }
        ensures stays { Self.loan self.old ≡ Self.loan self.new }
    {
        copies::copy_range::<Self, B, Self::Order, B::Order>(self, at, other, from, to - from);
    }

    /// Copies the bits `from..to` of this set to its indexes from `at` on. No other bit changes.
    /// The two ranges may overlap: each bit is read before it is overwritten.
    ///
    /// The shape has to fit (`bits_capacity() < u32::MAX`), `from <= to` has to hold, and the
    /// written range has to end at or below the capacity. With capacity 0 only an empty range is
    /// allowed, which changes nothing. Each word of the written range is read and written once. For
    /// each of these words, the call also reads the words that hold its new bits, which are at most
    /// two.
    ///
    /// ```
    /// let mut row = [0x35u8, 0x00];
    /// row.copy_within(0, 8, 4);                           // row is [0x55, 0x03]
    /// ```
    #[inline]
    final fn copy_within(&mut self, from: u32, to: u32, at: u32)
        requires fits { ShapeFits Self.Shape self.old }
        requires ordered { from ≤ to }
        requires within { at + (to - from) ≤ (Self.big self.old).capacity }
        ensures set { set_in Self.Shape Self.Order.Endian self.new
            ≡ with_copied (set_in Self.Shape Self.Order.Endian self.old) at (to - from)
            (set_in Self.Shape Self.Order.Endian self.old) from }
        ensures copied { (i : ℕ) → i < to - from
            → contains (set_in Self.Shape Self.Order.Endian self.new) (at + i)
            ≡ (set_in Self.Shape Self.Order.Endian self.old).has (from + i) }
        ensures before { (i : ℕ) → i < at
            → contains (set_in Self.Shape Self.Order.Endian self.new) i
            ≡ contains (set_in Self.Shape Self.Order.Endian self.old) i }
        ensures after { (i : ℕ) → at + (to - from) ≤ i → i < (Self.big self.old).capacity
            → contains (set_in Self.Shape Self.Order.Endian self.new) i
            ≡ contains (set_in Self.Shape Self.Order.Endian self.old) i }
        ensures stays { Self.loan self.old ≡ Self.loan self.new }
    {
        copies::copy_within::<Self, Self::Order>(self, at, from, to - from);
    }
}

impl<B: BitsMut> BitsCopyExt for B {}
