//! Calls that change a set by another set, which may be of any type.

ghost use Rattle.std.specs.Prelude.{◌≡◌, ◌<◌, ◌≤◌, ℕ, Bool, ◌||◌, ◌&&◌, IsTrue};
ghost use Rattle.bittle_ext.specs.Between.{members_to, Combines};
ghost use Rattle.bittle.specs.PlainSet.{contains, full_set, size};
ghost use Rattle.bittle.specs.SetOperations.{first_alone, just_one};
ghost use Rattle.bittle.specs.Values.{set_in, set_mirrored, ShapeFits};
ghost use Rattle.bittle_ext.specs.SetRelations.{AreDisjoint, IsSubset};

use crate::combinations::{Replacement, combine_with};
use bittle::{BigEndian, Bits, BitsMut, BitsOwned};
use bittle_bits::extension::{Conjunction, Difference, SymmetricDifference, Union};

/// Changes of a set by another set, which may be of another type, such as a view. Both sets have to
/// fit (`bits_capacity() < u32::MAX`). The trait also has `from_set`, which makes a set, and
/// `set_all`, which sets every bit.
///
/// Each set is read in the bit order of its type; a view made by `in_order` or `in_order_mut` has
/// the order that it names. The capacity of the changed set stays the same. Bits of the other set
/// at or past that capacity are ignored. If the other set is shorter, its missing bits count as
/// unset. If the words of both sets have the same width and order, whole words are combined. Else
/// the words of the other set are converted, whole, to words of the same width and order.
///
/// `union_assign` and the other three `_assign` calls of [`BitsMut`](bittle::BitsMut) take a set of
/// the same type, mean the same in both orders, and return nothing. If two slices differ in length,
/// these calls do not change the bits past the end of the shorter slice.
///
/// ```
/// let mut row = [0b0110u8, 0];
/// row.union_with(&0x0104u16);                             // true: row is [0b0110, 0b0001]
/// row.union_with(&0x0104u16);                             // false
/// ```
pub trait BitsCombineExt: BitsMut {
    /// Sets every bit that is set in `other`, and returns `true` if this changed a bit. With
    /// capacity 0 nothing changes, and the call returns `false`.
    ///
    /// ```
    /// let mut word = 0b0011u8;
    /// word.union_with(&0x0105u16);                        // true: word is 0b0111
    /// ```
    #[inline]
    final fn union_with<B: Bits>(&mut self, other: &B) -> bool
        requires fits { ShapeFits Self.Shape self.old }
        requires other_fits { ShapeFits B.Shape other.now }
        ensures combined { Combines ◌||◌ (set_in Self.Shape Self.Order.Endian self.old)
            (set_in B.Shape B.Order.Endian other.now)
            (set_in Self.Shape Self.Order.Endian self.new) result }
        ensures grew { IsTrue result → size (set_in Self.Shape Self.Order.Endian self.old)
            < size (set_in Self.Shape Self.Order.Endian self.new) }
        ensures at_least { size (set_in Self.Shape Self.Order.Endian self.old)
            ≤ size (set_in Self.Shape Self.Order.Endian self.new) }
        ensures kept { IsSubset (set_in Self.Shape Self.Order.Endian self.old)
            (set_in Self.Shape Self.Order.Endian self.new) }
        ensures added { (B.big other.now).capacity ≤ (Self.big self.old).capacity
            → IsSubset (set_in B.Shape B.Order.Endian other.now)
            (set_in Self.Shape Self.Order.Endian self.new) }
        ensures stays { Self.loan self.old ≡ Self.loan self.new }
    {
        combine_with::<Self, B, Self::Order, B::Order, Union>(self, other)
    }

    /// Clears every bit that is unset in `other`, and every bit from the capacity of `other` on.
    /// Returns `true` if this changed a bit. With capacity 0 nothing changes, and the call returns
    /// `false`.
    ///
    /// ```
    /// let mut row = [0b0011u8, 1];
    /// row.intersect_with(&0b0101u8);                      // true: row is [0b0001, 0]
    /// ```
    #[inline]
    final fn intersect_with<B: Bits>(&mut self, other: &B) -> bool
        requires fits { ShapeFits Self.Shape self.old }
        requires other_fits { ShapeFits B.Shape other.now }
        ensures combined { Combines ◌&&◌ (set_in Self.Shape Self.Order.Endian self.old)
            (set_in B.Shape B.Order.Endian other.now)
            (set_in Self.Shape Self.Order.Endian self.new) result }
        ensures shrank { IsTrue result → size (set_in Self.Shape Self.Order.Endian self.new)
            < size (set_in Self.Shape Self.Order.Endian self.old) }
        ensures at_most { size (set_in Self.Shape Self.Order.Endian self.new)
            ≤ size (set_in Self.Shape Self.Order.Endian self.old) }
        ensures subset { IsSubset (set_in Self.Shape Self.Order.Endian self.new)
            (set_in Self.Shape Self.Order.Endian self.old) }
        ensures within { IsSubset (set_in Self.Shape Self.Order.Endian self.new)
            (set_in B.Shape B.Order.Endian other.now) }
        ensures stays { Self.loan self.old ≡ Self.loan self.new }
    {
        combine_with::<Self, B, Self::Order, B::Order, Conjunction>(self, other)
    }

    /// Clears every bit that is set in `other`, and returns `true` if this changed a bit. With
    /// capacity 0 nothing changes, and the call returns `false`.
    ///
    /// ```
    /// let mut word = 0b0011u8;
    /// word.difference_with(&0x0105u16);                   // true: word is 0b0010
    /// ```
    #[inline]
    final fn difference_with<B: Bits>(&mut self, other: &B) -> bool
        requires fits { ShapeFits Self.Shape self.old }
        requires other_fits { ShapeFits B.Shape other.now }
        ensures combined { Combines first_alone (set_in Self.Shape Self.Order.Endian self.old)
            (set_in B.Shape B.Order.Endian other.now)
            (set_in Self.Shape Self.Order.Endian self.new) result }
        ensures shrank { IsTrue result → size (set_in Self.Shape Self.Order.Endian self.new)
            < size (set_in Self.Shape Self.Order.Endian self.old) }
        ensures at_most { size (set_in Self.Shape Self.Order.Endian self.new)
            ≤ size (set_in Self.Shape Self.Order.Endian self.old) }
        ensures subset { IsSubset (set_in Self.Shape Self.Order.Endian self.new)
            (set_in Self.Shape Self.Order.Endian self.old) }
        ensures apart { AreDisjoint (set_in Self.Shape Self.Order.Endian self.new)
            (set_in B.Shape B.Order.Endian other.now) }
        ensures stays { Self.loan self.old ≡ Self.loan self.new }
    {
        combine_with::<Self, B, Self::Order, B::Order, Difference>(self, other)
    }

    /// Flips every bit that is set in `other`, and returns `true` if this changed a bit. With
    /// capacity 0 nothing changes, and the call returns `false`.
    ///
    /// ```
    /// let mut word = 0b0011u8;
    /// word.symmetric_difference_with(&0x0105u16);         // true: word is 0b0110
    /// ```
    #[inline]
    final fn symmetric_difference_with<B: Bits>(&mut self, other: &B) -> bool
        requires fits { ShapeFits Self.Shape self.old }
        requires other_fits { ShapeFits B.Shape other.now }
        ensures combined { Combines just_one (set_in Self.Shape Self.Order.Endian self.old)
            (set_in B.Shape B.Order.Endian other.now)
            (set_in Self.Shape Self.Order.Endian self.new) result }
        ensures stays { Self.loan self.old ≡ Self.loan self.new }
    {
        combine_with::<Self, B, Self::Order, B::Order, SymmetricDifference>(self, other)
    }

    /// Sets every bit that is set in `other`, and clears all other bits, also those from the
    /// capacity of `other` on. With capacity 0 nothing changes.
    ///
    /// ```
    /// let mut row = [0b0011u8, 1];
    /// row.copy_from(&0b0101u8);                           // row is [0b0101, 0]
    /// ```
    #[inline]
    final fn copy_from<B: Bits>(&mut self, other: &B)
        requires fits { ShapeFits Self.Shape self.old }
        requires other_fits { ShapeFits B.Shape other.now }
        ensures set { set_in Self.Shape Self.Order.Endian self.new
            ≡ members_to (Self.big self.old).capacity (set_in B.Shape B.Order.Endian other.now) }
        ensures each { (i : ℕ) → i < (Self.big self.old).capacity
            → contains (set_in Self.Shape Self.Order.Endian self.new) i
            ≡ (set_in B.Shape B.Order.Endian other.now).has i }
        ensures at_most { size (set_in Self.Shape Self.Order.Endian self.new)
            ≤ size (set_in B.Shape B.Order.Endian other.now) }
        ensures count { (B.big other.now).capacity ≤ (Self.big self.old).capacity
            → size (set_in Self.Shape Self.Order.Endian self.new)
            ≡ size (set_in B.Shape B.Order.Endian other.now) }
        ensures stays { Self.loan self.old ≡ Self.loan self.new }
    {
        combine_with::<Self, B, Self::Order, B::Order, Replacement>(self, other);
    }

    /// Copies the set bits of `other` into a new set, and returns it. Bits of `other` at or past
    /// the capacity of the type are left out. With capacity 0 the new set is empty.
    ///
    /// The type has to fit (`Self::bits() < u32::MAX`), and so does the other set.
    ///
    /// ```
    /// <[u8; 2]>::from_set(&0x8005_0103u32);               // [0x03, 0x01]
    /// ```
    #[inline]
    final fn from_set<B: Bits>(other: &B) -> Self
    where
        Self: BitsOwned,
        requires indexable { IsTrue Self.indexable }
        requires other_fits { ShapeFits B.Shape other.now }
        ensures set { set_in Self.Shape Self.Order.Endian result
            ≡ members_to Self.type_capacity (set_in B.Shape B.Order.Endian other.now) }
        ensures each { (i : ℕ) → i < Self.type_capacity
            → contains (set_in Self.Shape Self.Order.Endian result) i
            ≡ (set_in B.Shape B.Order.Endian other.now).has i }
        ensures at_most { size (set_in Self.Shape Self.Order.Endian result)
            ≤ size (set_in B.Shape B.Order.Endian other.now) }
        ensures count { (B.big other.now).capacity ≤ Self.type_capacity
            → size (set_in Self.Shape Self.Order.Endian result)
            ≡ size (set_in B.Shape B.Order.Endian other.now) }
    {
        let mut set = Self::zeros();
        set.copy_from(other);
        set
    }

    /// Sets every bit, with one mask per word. The set becomes the full set in both orders.
    ///
    /// The shape has to fit (`bits_capacity() < u32::MAX`). With capacity 0 nothing changes.
    ///
    /// ```
    /// let mut row = [7u8, 9];
    /// row.set_all();                                      // row is [0xFF, 0xFF]
    /// ```
    #[inline]
    final fn set_all(&mut self)
        requires { ShapeFits Self.Shape self.old }
        ensures set { Self.big self.new ≡ full_set (Self.big self.old).capacity }
        ensures in_own_order { set_in Self.Shape Self.Order.Endian self.new
            ≡ full_set (Self.big self.old).capacity }
        ensures in_each_order { (mirrored : Bool) → set_mirrored Self.Shape mirrored self.new
            ≡ full_set (Self.big self.old).capacity }
        ensures count { size (Self.big self.new) ≡ (Self.big self.old).capacity }
        ensures stays { Self.loan self.old ≡ Self.loan self.new }
    {
        let capacity = self.bits_capacity();
        self.set_range_in::<BigEndian>(0, capacity);
    }
}

impl<B: BitsMut> BitsCombineExt for B {}
