//! Views: a set in a named order, the result of an operation on two sets, a complement, and a range
//! of a set. Each view is a set itself, but stores no bits of its own.
//!
//! A view borrows its sets, and computes each of its words when that word is read. Every call of
//! `bittle` and of this crate that reads a set works on a view, even a call that makes a view.
//!
//! ```rust
//! 0b0011u8.in_order::<LittleEndian>().first_one();  // Some(6)
//! 0b0011u8.and(&0b0110u8).iter_ones();              // yields 1
//! 0b0011u8.minus(&0b0110u8).all_zeros();            // false: 0 is left
//! 0b0011u8.complement_view().within(0, 4).count_ones(); // 2: indexes 2 and 3
//! ```

ghost use Rattle.std.specs.Prelude.{◌≡◌, ◌<◌, ◌≤◌, ◌-◌, ◌/◌, ◌&&◌, ◌||◌, max};
ghost use Rattle.bittle_ext.specs.Combined.{both_of, either_of, first_only_of, just_one_of};
ghost use Rattle.bittle_ext.specs.RangeMembers.{members_within, IsPartBelow};
ghost use Rattle.bittle_ext.specs.Views.{decided_until, decided_of_first, rounded_up};
ghost use Rattle.bittle.specs.PlainSet.{ascending, complement, size};
ghost use Rattle.bittle.specs.SetOperations.{first_alone, just_one};
ghost use Rattle.bittle.specs.Values.{set_in, ShapeFits};
ghost use Rattle.bittle.specs.Walk.{AreBelow, IsFresh};

use crate::bits_span_ext::BitsSpanExt;
use crate::views::complement::Complement;
use crate::views::in_order::InOrder;
use crate::views::in_order_mut::InOrderMut;
use crate::views::of_both::{AndView, MinusView, OfBoth, OrView, ViewOperation, XorView};
use crate::views::within::Within;
use bittle::{Bits, BitsMut, Endian, Shape};
use bittle_bits::extension::{Conjunction, Difference, OwnedSource, SymmetricDifference, Union};
use bittle_bits::walk::{IntoIter, IntoIterOnes, IntoIterZeros};

mod by_groups;
pub(crate) mod by_words;
pub mod complement;
pub(crate) mod edges;
pub mod in_order;
pub mod in_order_mut;
pub mod of_both;
pub mod within;

/// Views of any set. A view borrows the set and is a set itself, so each call that reads a set can
/// be made on it. The view of `in_order` can be made of any set. Each other view requires that the
/// shapes of its sets fit (`bits_capacity() < u32::MAX`), and reads each set in the order of its
/// type.
pub trait BitsViewExt: Bits {
    /// Returns a view that borrows the set, and reads it in the order `E`.
    ///
    /// The call can be made on any set. The view has the capacity of the set, and a call on the
    /// view costs what it costs on the set. An iterator borrows the view: to keep the iterator in a
    /// variable, keep the view in one too.
    ///
    /// ```
    /// 0b0001_0010u8.in_order::<LittleEndian>().next_one(4); // Some(6)
    /// ```
    #[inline]
    final fn in_order<E: Endian>(&self) -> InOrder<'_, Self, E>
    where
        Self: Sized,
        ensures { result.set.now ≡ self.now }
    {
        InOrder::of(self)
    }

    /// Returns a view of the indexes whose bits are set in both sets. The view is a set with the
    /// capacity and the bit order of this set.
    ///
    /// The sets may be of different types, and both have to fit (`bits_capacity() < u32::MAX`).
    /// Each word is computed when it is read. If the words of the two sets differ in width or
    /// order, the words of `other` with bits of that word are converted. Bits of `other` at or past
    /// its capacity count as unset. With capacity 0 the view is the empty set.
    ///
    /// ```
    /// 0b0011u8.and(&0b0110u8).count_ones();               // 1
    /// 0b0011u8.and(&[0x0106u16]).iter_ones();             // yields 1
    /// ```
    #[inline]
    final fn and<'a, B: Bits>(&'a self, other: &'a B) -> AndView<'a, Self, B, Self::Order, B::Order>
    where
        Self: Sized,
        requires fits { ShapeFits Self.Shape self.now }
        requires other_fits { ShapeFits B.Shape other.now }
        ensures left { result.left.now ≡ self.now }
        ensures right { result.right.now ≡ other.now }
        ensures capacity { (⟦<AndView<'a, Self, B, Self::Order, B::Order> as Shape>⟧.big
            result).capacity ≡ (Self.big self.now).capacity }
        ensures set { set_in ⟦<AndView<'a, Self, B, Self::Order, B::Order> as Shape>⟧
            Self.Order.Endian result ≡ decided_of_first ◌&&◌
            (set_in Self.Shape Self.Order.Endian self.now)
            (set_in B.Shape B.Order.Endian other.now) }
        ensures items { ascending (set_in
            ⟦<AndView<'a, Self, B, Self::Order, B::Order> as Shape>⟧
            Self.Order.Endian result) ≡ ascending (both_of
            (set_in Self.Shape Self.Order.Endian self.now)
            (set_in B.Shape B.Order.Endian other.now)) }
        ensures at_most { size (set_in ⟦<AndView<'a, Self, B, Self::Order, B::Order> as Shape>⟧
            Self.Order.Endian result)
            ≤ size (set_in Self.Shape Self.Order.Endian self.now) }
        ensures view_fits { ShapeFits
            ⟦<AndView<'a, Self, B, Self::Order, B::Order> as Shape>⟧ result }
    {
        OfBoth::of_first(self, other)
    }

    /// Returns a view of the indexes whose bits are set in this set and not in `other`. All else is
    /// as with [`and`](BitsViewExt::and).
    ///
    /// ```
    /// 0b0011u8.minus(&0b0110u8).iter_ones();              // yields 0
    /// ```
    #[inline]
    final fn minus<'a, B: Bits>(
        &'a self,
        other: &'a B,
    ) -> MinusView<'a, Self, B, Self::Order, B::Order>
    where
        Self: Sized,
        requires fits { ShapeFits Self.Shape self.now }
        requires other_fits { ShapeFits B.Shape other.now }
        ensures left { result.left.now ≡ self.now }
        ensures right { result.right.now ≡ other.now }
        ensures capacity { (⟦<MinusView<'a, Self, B, Self::Order, B::Order> as Shape>⟧.big
            result).capacity ≡ (Self.big self.now).capacity }
        ensures set { set_in ⟦<MinusView<'a, Self, B, Self::Order, B::Order> as Shape>⟧
            Self.Order.Endian result ≡ decided_of_first first_alone
            (set_in Self.Shape Self.Order.Endian self.now)
            (set_in B.Shape B.Order.Endian other.now) }
        ensures items { ascending (set_in
            ⟦<MinusView<'a, Self, B, Self::Order, B::Order> as Shape>⟧
            Self.Order.Endian result) ≡ ascending (first_only_of
            (set_in Self.Shape Self.Order.Endian self.now)
            (set_in B.Shape B.Order.Endian other.now)) }
        ensures at_most { size (set_in ⟦<MinusView<'a, Self, B, Self::Order, B::Order> as Shape>⟧
            Self.Order.Endian result)
            ≤ size (set_in Self.Shape Self.Order.Endian self.now) }
        ensures view_fits { ShapeFits
            ⟦<MinusView<'a, Self, B, Self::Order, B::Order> as Shape>⟧ result }
    {
        OfBoth::of_first(self, other)
    }

    /// Returns a view of the indexes whose bits are set in at least one of two sets. The words of
    /// both sets have the same type. The view is a set with the greater of the two capacities, and
    /// with the bit order of this set.
    ///
    /// Both sets have to fit (`bits_capacity() < u32::MAX`). Each word is computed when it is read;
    /// if the orders differ, the word of `other` is reversed. If the word types differ, call
    /// [`or_unlike`](BitsViewExt::or_unlike). If both capacities are 0, the view is the empty set.
    ///
    /// ```
    /// 0b0011u8.or(&[0b0110u8, 1]).iter_ones();            // yields 0, 1, 2, 8
    /// ```
    #[inline]
    final fn or<'a, B: Bits + Shape<LeafWord = Self::LeafWord>>(
        &'a self,
        other: &'a B,
    ) -> OrView<'a, Self, B, Self::Order, B::Order>
    where
        Self: Sized,
        requires fits { ShapeFits Self.Shape self.now }
        requires other_fits { ShapeFits B.Shape other.now }
        ensures left { result.left.now ≡ self.now }
        ensures right { result.right.now ≡ other.now }
        ensures capacity { (⟦<OrView<'a, Self, B, Self::Order, B::Order> as Shape>⟧.big
            result).capacity ≡ max (Self.big self.now).capacity (B.big other.now).capacity }
        ensures set { set_in ⟦<OrView<'a, Self, B, Self::Order, B::Order> as Shape>⟧
            Self.Order.Endian result ≡ either_of
            (set_in Self.Shape Self.Order.Endian self.now)
            (set_in B.Shape B.Order.Endian other.now) }
        ensures items { ascending (set_in
            ⟦<OrView<'a, Self, B, Self::Order, B::Order> as Shape>⟧
            Self.Order.Endian result) ≡ ascending (either_of
            (set_in Self.Shape Self.Order.Endian self.now)
            (set_in B.Shape B.Order.Endian other.now)) }
        ensures at_least { size (set_in Self.Shape Self.Order.Endian self.now)
            ≤ size (set_in ⟦<OrView<'a, Self, B, Self::Order, B::Order> as Shape>⟧
            Self.Order.Endian result) }
        ensures view_fits { ShapeFits
            ⟦<OrView<'a, Self, B, Self::Order, B::Order> as Shape>⟧ result }
    {
        OfBoth::of_alike(self, other)
    }

    /// Returns a view of the indexes whose bits are set in exactly one of two sets. The words of
    /// both sets have the same type. All else is as with [`or`](BitsViewExt::or).
    ///
    /// ```
    /// 0b0011u8.xor(&[0b0110u8, 1]).iter_ones();           // yields 0, 2, 8
    /// ```
    #[inline]
    final fn xor<'a, B: Bits + Shape<LeafWord = Self::LeafWord>>(
        &'a self,
        other: &'a B,
    ) -> XorView<'a, Self, B, Self::Order, B::Order>
    where
        Self: Sized,
        requires fits { ShapeFits Self.Shape self.now }
        requires other_fits { ShapeFits B.Shape other.now }
        ensures left { result.left.now ≡ self.now }
        ensures right { result.right.now ≡ other.now }
        ensures capacity { (⟦<XorView<'a, Self, B, Self::Order, B::Order> as Shape>⟧.big
            result).capacity ≡ max (Self.big self.now).capacity (B.big other.now).capacity }
        ensures set { set_in
            ⟦<XorView<'a, Self, B, Self::Order, B::Order> as Shape>⟧
            Self.Order.Endian result ≡ just_one_of
            (set_in Self.Shape Self.Order.Endian self.now)
            (set_in B.Shape B.Order.Endian other.now) }
        ensures items { ascending (set_in
            ⟦<XorView<'a, Self, B, Self::Order, B::Order> as Shape>⟧
            Self.Order.Endian result) ≡ ascending (just_one_of
            (set_in Self.Shape Self.Order.Endian self.now)
            (set_in B.Shape B.Order.Endian other.now)) }
        ensures view_fits { ShapeFits
            ⟦<XorView<'a, Self, B, Self::Order, B::Order> as Shape>⟧ result }
    {
        OfBoth::of_alike(self, other)
    }

    /// Returns a view of the indexes whose bits are set in at least one of two sets. The words of
    /// the two sets may differ in type. The view is a set with the word type and the bit order of
    /// this set.
    ///
    /// Both sets have to fit (`bits_capacity() < u32::MAX`). The view's capacity is the greater of
    /// the two, rounded up to whole words of this set. The rounded capacity has to be below
    /// `u32::MAX` too. The rounding adds bits only if the words of this set are wider. Each word is
    /// computed when it is read. If the words differ in width or order, the words of `other` with
    /// bits of that word are converted. If both capacities are 0, the view is the empty set.
    ///
    /// ```
    /// 0x8000_0000u32.or_unlike(&[0u8, 0, 0, 0, 1]).iter_ones(); // yields 31, 32
    /// ```
    #[inline]
    final fn or_unlike<'a, B: Bits>(
        &'a self,
        other: &'a B,
    ) -> OrView<'a, Self, B, Self::Order, B::Order>
    where
        Self: Sized,
        requires fits { ShapeFits Self.Shape self.now }
        requires other_fits { ShapeFits B.Shape other.now }
        requires rounded { rounded_up (max (Self.big self.now).capacity (B.big other.now).capacity)
            Self.width < 4294967295 }
        ensures left { result.left.now ≡ self.now }
        ensures right { result.right.now ≡ other.now }
        ensures capacity { (⟦<OrView<'a, Self, B, Self::Order, B::Order> as Shape>⟧.big
            result).capacity ≡ rounded_up
            (max (Self.big self.now).capacity (B.big other.now).capacity) Self.width }
        ensures set { set_in ⟦<OrView<'a, Self, B, Self::Order, B::Order> as Shape>⟧
            Self.Order.Endian result ≡ decided_until ◌||◌
            (rounded_up (max (Self.big self.now).capacity (B.big other.now).capacity) Self.width)
            (set_in Self.Shape Self.Order.Endian self.now)
            (set_in B.Shape B.Order.Endian other.now) }
        ensures items { ascending (set_in
            ⟦<OrView<'a, Self, B, Self::Order, B::Order> as Shape>⟧
            Self.Order.Endian result) ≡ ascending (either_of
            (set_in Self.Shape Self.Order.Endian self.now)
            (set_in B.Shape B.Order.Endian other.now)) }
        ensures view_fits { ShapeFits
            ⟦<OrView<'a, Self, B, Self::Order, B::Order> as Shape>⟧ result }
    {
        OfBoth::of_unlike(self, other)
    }

    /// Returns a view of the indexes whose bits are set in exactly one of two sets. The words of
    /// the two sets may differ in type. All else is as with [`or_unlike`](BitsViewExt::or_unlike).
    ///
    /// ```
    /// 0x8000_0000u32.xor_unlike(&[0u8, 0, 0, 1, 1]).iter_ones(); // yields 24, 31, 32
    /// ```
    #[inline]
    final fn xor_unlike<'a, B: Bits>(
        &'a self,
        other: &'a B,
    ) -> XorView<'a, Self, B, Self::Order, B::Order>
    where
        Self: Sized,
        requires fits { ShapeFits Self.Shape self.now }
        requires other_fits { ShapeFits B.Shape other.now }
        requires rounded { rounded_up (max (Self.big self.now).capacity (B.big other.now).capacity)
            Self.width < 4294967295 }
        ensures left { result.left.now ≡ self.now }
        ensures right { result.right.now ≡ other.now }
        ensures capacity { (⟦<XorView<'a, Self, B, Self::Order, B::Order> as Shape>⟧.big
            result).capacity ≡ rounded_up
            (max (Self.big self.now).capacity (B.big other.now).capacity) Self.width }
        ensures set { set_in
            ⟦<XorView<'a, Self, B, Self::Order, B::Order> as Shape>⟧
            Self.Order.Endian result ≡ decided_until just_one
            (rounded_up (max (Self.big self.now).capacity (B.big other.now).capacity) Self.width)
            (set_in Self.Shape Self.Order.Endian self.now)
            (set_in B.Shape B.Order.Endian other.now) }
        ensures items { ascending (set_in
            ⟦<XorView<'a, Self, B, Self::Order, B::Order> as Shape>⟧
            Self.Order.Endian result) ≡ ascending (just_one_of
            (set_in Self.Shape Self.Order.Endian self.now)
            (set_in B.Shape B.Order.Endian other.now)) }
        ensures view_fits { ShapeFits
            ⟦<XorView<'a, Self, B, Self::Order, B::Order> as Shape>⟧ result }
    {
        OfBoth::of_unlike(self, other)
    }

    /// Returns a view in which each bit is set exactly if it is unset in this set. The view is a
    /// set with the capacity and the bit order of this set.
    ///
    /// The shape has to fit (`bits_capacity() < u32::MAX`). Each word is flipped when it is read.
    /// With capacity 0 the view is the empty set.
    ///
    /// ```
    /// 0b1111_0101u8.complement_view().iter_ones();        // yields 1, 3
    /// ```
    #[inline]
    final fn complement_view<'a>(&'a self) -> Complement<'a, Self>
    where
        Self: Sized,
        requires { ShapeFits Self.Shape self.now }
        ensures value { result.set.now ≡ self.now }
        ensures capacity { (⟦<Complement<'a, Self> as Shape>⟧.big result).capacity
            ≡ (Self.big self.now).capacity }
        ensures set { set_in ⟦<Complement<'a, Self> as Shape>⟧ Self.Order.Endian result
            ≡ complement (set_in Self.Shape Self.Order.Endian self.now) }
        ensures view_fits { ShapeFits ⟦<Complement<'a, Self> as Shape>⟧ result }
    {
        Complement::of(self)
    }

    /// Returns a view of the set bits of `from..to`. The view is a set with the capacity and the
    /// bit order of this set. Every bit outside the range is unset in the view.
    ///
    /// The shape has to fit (`bits_capacity() < u32::MAX`). Past the capacity no bit is set, and a
    /// range that runs backwards is empty. `count_ones`, `count_zeros` and `all_zeros` read only
    /// the words of the range. With capacity 0 the view is the empty set.
    ///
    /// ```
    /// 0b0110_0010u8.within(1, 6).iter_ones();             // yields 1, 5
    /// ```
    #[inline]
    final fn within<'a>(&'a self, from: u32, to: u32) -> Within<'a, Self, Self::Order>
    where
        Self: Sized,
        requires { ShapeFits Self.Shape self.now }
        ensures value { result.set.now ≡ self.now }
        ensures part { IsPartBelow (Self.big self.now).capacity from to result.from result.to }
        ensures capacity { (⟦<Within<'a, Self, Self::Order> as Shape>⟧.big result).capacity
            ≡ (Self.big self.now).capacity }
        ensures set { set_in ⟦<Within<'a, Self, Self::Order> as Shape>⟧ Self.Order.Endian result
            ≡ members_within (set_in Self.Shape Self.Order.Endian self.now) from to }
        ensures at_most { size (set_in ⟦<Within<'a, Self, Self::Order> as Shape>⟧
            Self.Order.Endian result)
            ≤ to - from }
        ensures view_fits { ShapeFits ⟦<Within<'a, Self, Self::Order> as Shape>⟧ result }
    {
        self.within_span(from..to)
    }
}

impl<A: Bits> BitsViewExt for A {}

/// A view that an iterator may own.
pub trait View: Bits + Copy {
    /// Returns a double-ended iterator over the indexes of the set bits, in increasing order.
    /// Indexes follow the bit order of the type. The iterator owns the view and borrows what the
    /// view borrows, so a function that makes a view may return the iterator. The view has to fit.
    /// A view that `in_order` returns fits if its set does; each other `View` of this crate always
    /// fits. With capacity 0 the iterator yields nothing.
    ///
    /// ```
    /// 0b0011u8.and(&0b0110u8).into_ones();                // yields 1
    /// ```
    #[inline]
    final fn into_ones(self) -> IntoIterOnes<Self, Self::Order>
    where
        Self: Sized,
        requires { ShapeFits Self.Shape self }
        ensures remaining { result.remaining
            ≡ ascending (set_in Self.Shape Self.Order.Endian self) }
        ensures fresh { IsFresh ((Self.big self).capacity / Self.width) result }
        ensures below { AreBelow (Self.big self).capacity result.remaining }
    {
        IntoIter::new(OwnedSource::new(self))
    }

    /// Returns an iterator over the indexes of the unset bits below the capacity. All else is as
    /// with [`into_ones`](View::into_ones).
    ///
    /// ```
    /// 0b1111_0011u8.or(&0b0110u8).into_zeros().rev();     // yields 3
    /// ```
    #[inline]
    final fn into_zeros(self) -> IntoIterZeros<Self, Self::Order>
    where
        Self: Sized,
        requires { ShapeFits Self.Shape self }
        ensures remaining { result.remaining
            ≡ ascending (complement (set_in Self.Shape Self.Order.Endian self)) }
        ensures fresh { IsFresh ((Self.big self).capacity / Self.width) result }
        ensures below { AreBelow (Self.big self).capacity result.remaining }
    {
        IntoIter::new(OwnedSource::new(self))
    }
}

impl<'a, A: Bits, B: Bits, E: Endian, F: Endian, O: ViewOperation> View
    for OfBoth<'a, A, B, E, F, O> {}

impl<'a, B: Bits> View for Complement<'a, B> {}

impl<'a, B: Bits, E: Endian> View for InOrder<'a, B, E> {}

impl<'a, B: Bits, E: Endian> View for Within<'a, B, E> {}

/// States which bit order each view has. A view of `in_order` or `in_order_mut` has the order that
/// it names, a view of two sets that of the first set, and each other view that of its set.
#[doc(hidden)]
pub fn views_have_their_order<
    'a,
    A: Bits + 'a,
    B: BitsMut + 'a,
    E: Endian,
    F: Endian,
    O: ViewOperation,
>()
    ensures read { ⟦<<InOrder<'a, B, E> as Bits>::Order as Endian>⟧.mirrored ≡ E.mirrored }
    ensures changed { ⟦<<InOrderMut<'a, B, E> as Bits>::Order as Endian>⟧.mirrored ≡ E.mirrored }
    ensures both { ⟦<<OfBoth<'a, A, B, E, F, O> as Bits>::Order as Endian>⟧.mirrored
        ≡ E.mirrored }
    ensures within { ⟦<<Within<'a, B, E> as Bits>::Order as Endian>⟧.mirrored ≡ E.mirrored }
    ensures complement { ⟦<<Complement<'a, B> as Bits>::Order as Endian>⟧.mirrored
        ≡ ⟦<<B as Bits>::Order as Endian>⟧.mirrored }
{}
