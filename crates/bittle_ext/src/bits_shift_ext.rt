//! Calls that move all bits of a set in place.

ghost use Rattle.std.specs.Prelude.{◌≡◌, ◌+◌, ◌<◌, ◌≤◌, ℕ, false};
ghost use Rattle.bittle_ext.specs.Rotations.{rotated_down, rotated_up, shifted_down, shifted_up};
ghost use Rattle.bittle.specs.PlainSet.{contains, size};
ghost use Rattle.bittle.specs.Values.{set_in, ShapeFits};

use crate::{in_place_rotations, shifts};
use bittle::BitsMut;

/// Moves of all bits of any set that can be changed, such as a mutably borrowed slice. No copy is
/// made. Indexes follow the bit order of the type.
///
/// An owned set also has [`shifted_up`](crate::BitsOwnedExt::shifted_up), `shifted_down`,
/// `rotated_up` and `rotated_down`, which return a new set.
pub trait BitsShiftExt: BitsMut {
    /// Moves each bit down by `by` indexes. A bit that would pass index 0 is dropped. Indexes
    /// follow the bit order of the type.
    ///
    /// The shape has to fit (`bits_capacity() < u32::MAX`). If `by` is the capacity or more, the
    /// set becomes empty; with capacity 0 nothing changes. Each word is read twice at most and
    /// written once.
    ///
    /// ```
    /// let mut row = [0x12u8, 0x01];
    /// row.shift_down(2);                                  // row is [0x44, 0]
    /// ```
    #[inline]
    final fn shift_down(&mut self, by: u32)
        requires { ShapeFits Self.Shape self.old }
        ensures set { set_in Self.Shape Self.Order.Endian self.new
            ≡ shifted_down (set_in Self.Shape Self.Order.Endian self.old) by }
        ensures moved { (i : ℕ) → i + by < (Self.big self.old).capacity
            → contains (set_in Self.Shape Self.Order.Endian self.new) i
            ≡ contains (set_in Self.Shape Self.Order.Endian self.old) (i + by) }
        ensures at_most { size (set_in Self.Shape Self.Order.Endian self.new)
            ≤ size (set_in Self.Shape Self.Order.Endian self.old) }
        ensures emptied { (i : ℕ) → i < (Self.big self.old).capacity
            → (Self.big self.old).capacity ≤ i + by
            → contains (set_in Self.Shape Self.Order.Endian self.new) i ≡ false }
        ensures stays { Self.loan self.old ≡ Self.loan self.new }
    {
        shifts::shift_down::<Self, Self::Order>(self, by);
    }

    /// Moves each bit up by `by` indexes. A bit that would reach the capacity is dropped. Indexes
    /// follow the bit order of the type.
    ///
    /// The shape has to fit (`bits_capacity() < u32::MAX`). If `by` is the capacity or more, the
    /// set becomes empty; with capacity 0 nothing changes. Each word is read twice at most and
    /// written once.
    ///
    /// ```
    /// let mut row = [0x48u8, 0x80];
    /// row.shift_up(2);                                    // row is [0x20, 0x01]
    /// ```
    #[inline]
    final fn shift_up(&mut self, by: u32)
        requires { ShapeFits Self.Shape self.old }
        ensures set { set_in Self.Shape Self.Order.Endian self.new
            ≡ shifted_up (set_in Self.Shape Self.Order.Endian self.old) by }
        ensures moved { (i : ℕ) → i + by < (Self.big self.old).capacity
            → contains (set_in Self.Shape Self.Order.Endian self.new) (i + by)
            ≡ contains (set_in Self.Shape Self.Order.Endian self.old) i }
        ensures at_most { size (set_in Self.Shape Self.Order.Endian self.new)
            ≤ size (set_in Self.Shape Self.Order.Endian self.old) }
        ensures emptied { (i : ℕ) → i < (Self.big self.old).capacity → i < by
            → contains (set_in Self.Shape Self.Order.Endian self.new) i ≡ false }
        ensures stays { Self.loan self.old ≡ Self.loan self.new }
    {
        shifts::shift_up::<Self, Self::Order>(self, by);
    }

    /// Moves each bit down by `by` indexes. A bit that would pass index 0 goes on at the last
    /// index. Indexes follow the bit order of the type.
    ///
    /// The shape has to fit (`bits_capacity() < u32::MAX`). A `by` of the capacity or more wraps;
    /// with capacity 0 nothing changes. Each word is read at most four times and written at most
    /// three times. The last word may be read and written once more.
    ///
    /// ```
    /// let mut row = [0x12u8, 0x01];
    /// row.rotate_down(2);                                 // row is [0x44, 0x80]
    /// ```
    #[inline(always)]
    final fn rotate_down(&mut self, by: u32)
        requires { ShapeFits Self.Shape self.old }
        ensures set { set_in Self.Shape Self.Order.Endian self.new
            ≡ rotated_down (set_in Self.Shape Self.Order.Endian self.old) by }
        ensures moved { (i : ℕ) → contains (set_in Self.Shape Self.Order.Endian self.new) i
            ≡ contains (set_in Self.Shape Self.Order.Endian self.old) (i + by) }
        ensures count { size (set_in Self.Shape Self.Order.Endian self.new)
            ≡ size (set_in Self.Shape Self.Order.Endian self.old) }
        ensures stays { Self.loan self.old ≡ Self.loan self.new }
    {
        in_place_rotations::rotate_down::<Self, Self::Order>(self, by);
    }

    /// Moves each bit up by `by` indexes. A bit that would pass the last index goes on at index 0.
    /// Indexes follow the bit order of the type.
    ///
    /// The shape has to fit (`bits_capacity() < u32::MAX`). A `by` of the capacity or more wraps;
    /// with capacity 0 nothing changes. Each word is read at most four times and written at most
    /// three times. The last word may be read and written once more.
    ///
    /// ```
    /// let mut row = [0x48u8, 0x80];
    /// row.rotate_up(2);                                   // row is [0x22, 0x01]
    /// ```
    #[inline(always)]
    final fn rotate_up(&mut self, by: u32)
        requires { ShapeFits Self.Shape self.old }
        ensures set { set_in Self.Shape Self.Order.Endian self.new
            ≡ rotated_up (set_in Self.Shape Self.Order.Endian self.old) by }
        ensures moved { (i : ℕ) → contains (set_in Self.Shape Self.Order.Endian self.new) (i + by)
            ≡ contains (set_in Self.Shape Self.Order.Endian self.old) i }
        ensures count { size (set_in Self.Shape Self.Order.Endian self.new)
            ≡ size (set_in Self.Shape Self.Order.Endian self.old) }
        ensures stays { Self.loan self.old ≡ Self.loan self.new }
    {
        in_place_rotations::rotate_up::<Self, Self::Order>(self, by);
    }
}

impl<B: BitsMut> BitsShiftExt for B {}
