//! Ranges of bits that are read and written as numbers.

ghost use Rattle.std.specs.Prelude.{◌≡◌, ◌+◌, ◌%◌, ◌^◌, ◌<◌, ◌≤◌, ℕ};
ghost use Rattle.bittle.specs.BitPatterns.{bit_set};
ghost use Rattle.bittle.specs.Values.{set_in, ShapeFits};
ghost use Rattle.bittle_ext.specs.Numbers.{HasBitsOf, number_in, with_copied};

use crate::copies;
use bittle::{Bits, BitsMut};

/// Reading up to 64 neighbouring bits as a number, a word at a time.
///
/// Bit `i` of the number is the bit at index `first + i`. Indexes follow the bit order of the type.
/// So the bit at index `first` has the weight 1, in both orders. For another order, use the view
/// that [`in_order`](crate::BitsViewExt::in_order) returns.
pub trait BitsNumberExt: Bits {
    /// Returns, as a number, the bits at the `count` indexes from `first` on.
    ///
    /// The shape has to fit (`bits_capacity() < u32::MAX`), and `count` is at most 64. From the
    /// capacity on no bit is set, so with capacity 0 the number is 0. Only the words of the range
    /// are read, once each.
    ///
    /// ```
    /// let row = [0x34u8, 0x12];
    /// row.load(4, 8);                                     // 0x23
    /// row.load(12, 64);                                   // 0x1
    /// ```
    #[inline]
    final fn load(&self, first: u32, count: u32) -> u64
    where
        Self: Sized,
        requires fits { ShapeFits Self.Shape self.now }
        requires within { count ≤ 64 }
        ensures value { result ≡ number_in (set_in Self.Shape Self.Order.Endian self.now) first
            count }
        ensures bits { HasBitsOf (set_in Self.Shape Self.Order.Endian self.now) first count result }
        ensures below { result < 2 ^ count }
    {
        copies::number_from::<Self, Self::Order>(self, first, count) as u64
    }
}

impl<B: Bits> BitsNumberExt for B {}

/// Writing a number to up to 64 neighbouring bits, a word at a time.
///
/// The bit at index `first + i` takes the value of bit `i` of the number. Indexes follow the bit
/// order of the type. For another order, use the view that
/// [`in_order_mut`](crate::BitsMutViewExt::in_order_mut) returns.
pub trait BitsNumberMutExt: BitsMut {
    /// Writes the lowest `count` bits of a number to the `count` indexes from `first` on. The other
    /// bits of the number are ignored.
    ///
    /// The shape has to fit (`bits_capacity() < u32::MAX`), `count` is at most 64, and the range
    /// has to end at or below the capacity. With capacity 0 only an empty range is allowed, which
    /// changes nothing. Only the words of the range are read and written, once each.
    ///
    /// ```
    /// let mut row = [0u8; 2];
    /// row.store(4, 8, 0x123);                             // row is [0x30, 0x02]
    /// ```
    #[inline]
    final fn store(&mut self, first: u32, count: u32, value: u64)
        requires fits { ShapeFits Self.Shape self.old }
        requires within { count ≤ 64 }
        requires ends { first + count ≤ (Self.big self.old).capacity }
        ensures set { set_in Self.Shape Self.Order.Endian self.new
            ≡ with_copied (set_in Self.Shape Self.Order.Endian self.old) first count
            (bit_set 64 value) 0 }
        ensures value { number_in (set_in Self.Shape Self.Order.Endian self.new) first count
            ≡ value % 2 ^ count }
        ensures before { (at n : ℕ) → at + n ≤ first
            → number_in (set_in Self.Shape Self.Order.Endian self.new) at n
            ≡ number_in (set_in Self.Shape Self.Order.Endian self.old) at n }
        ensures after { (at n : ℕ) → first + count ≤ at
            → number_in (set_in Self.Shape Self.Order.Endian self.new) at n
            ≡ number_in (set_in Self.Shape Self.Order.Endian self.old) at n }
        ensures stays { Self.loan self.old ≡ Self.loan self.new }
    {
        copies::put_value::<Self, Self::Order>(self, first, count, value);
    }
}

impl<B: BitsMut> BitsNumberMutExt for B {}
