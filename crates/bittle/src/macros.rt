//! The macros that make the set of the indexes in a list, and the functions that add a range of
//! indexes.

ghost use Rattle.std.specs.Prelude.{◌≡◌, ◌+◌, IsTrue};
ghost use Rattle.bittle_bits.specs.Values.{set_in, ShapeFits};
ghost use Rattle.bittle.specs.Ranges.{with_wrapped_range, listed_set};

use bittle_bits::bits::Bits;
use bittle_bits::bits_mut::BitsMut;
use bittle_bits::bits_owned::BitsOwned;
use bittle_bits::endian::{BigEndian, Endian, LittleEndian};

/// Makes the set of the indexes in a list. They follow the bit order of the set's type.
///
/// The items of a list are indexes and ranges. An index is an expression of the type `u32`. A range
/// is `a..=b`, `a..b` or `a..`, and its bounds are literals; `a..` ends at the capacity. A range
/// that ends before it starts sets no bit.
///
/// The type of the set has to follow from the context, and has to fit (`bits() < u32::MAX`). Making
/// the empty set costs O(words). Each index then costs O(1), and each range costs one masked write
/// for each of its words, and one more if it wraps within a word. An index at or past the capacity
/// wraps. With capacity 0 the set is empty.
///
/// The macro cannot make a `const`. Write a function that returns the set instead.
///
/// ```
/// let mask: u8 = bittle::set![0, 2..=3, 6..];         // 0b1100_1101
/// let empty: [u16; 4] = bittle::set![];
/// ```
#[macro_export]
macro_rules! set {
    ($($list:tt)*) => {
        $crate::set_of_listed!(
            [$crate::BitsMut::set_bit] [$crate::macros::put_until] [$crate::macros::put_through]
            $($list)*
        )
    };
}

/// Makes the set of a list as [`set!`] does, but in [`LittleEndian`](crate::LittleEndian) order.
///
/// ```
/// let mask: u8 = bittle::set_le![0, 2..=3, 6..];      // 0b1011_0011
/// ```
#[macro_export]
macro_rules! set_le {
    ($($list:tt)*) => {
        $crate::set_of_listed!(
            [$crate::BitsMut::set_bit_le]
            [$crate::macros::put_until_in::<_, $crate::LittleEndian>]
            [$crate::macros::put_through_in::<_, $crate::LittleEndian>]
            $($list)*
        )
    };
}

/// Makes the set of a list as [`set!`] does, but in [`BigEndian`](crate::BigEndian) order.
///
/// ```
/// let mask: u8 = bittle::set_be![0, 2..=3, 6..];      // 0b1100_1101
/// ```
#[macro_export]
macro_rules! set_be {
    ($($list:tt)*) => {
        $crate::set_of_listed!(
            [$crate::BitsMut::set_bit_be]
            [$crate::macros::put_until_in::<_, $crate::BigEndian>]
            [$crate::macros::put_through_in::<_, $crate::BigEndian>]
            $($list)*
        )
    };
}

// Makes the set of a list. The arguments before the list name the calls for an index, for a range
// `a..b` and for a range `a..=b`.
#[doc(hidden)]
#[macro_export]
macro_rules! set_of_listed {
    ($index:tt $until:tt $through:tt $($list:tt)*) => {{
        let mut set = $crate::BitsOwned::zeros();
        $crate::put_listed!(set $index $until $through $($list)*);
        set
    }};
}

// Puts the items of a list into a set, one after another. A bare range is also an expression, so
// the rules for ranges come first.
#[doc(hidden)]
#[macro_export]
macro_rules! put_listed {
    ($set:ident $index:tt $until:tt $through:tt) => {};

    ($set:ident $index:tt $until:tt [$($through:tt)*] $from:literal ..= $to:literal
        $(, $($rest:tt)*)?) => {
        $($through)*(&mut $set, $from, $to);
        $crate::put_listed!($set $index $until [$($through)*] $($($rest)*)?);
    };

    ($set:ident $index:tt [$($until:tt)*] $through:tt $from:literal .. $to:literal
        $(, $($rest:tt)*)?) => {
        $($until)*(&mut $set, $from, $to);
        $crate::put_listed!($set $index [$($until)*] $through $($($rest)*)?);
    };

    ($set:ident $index:tt [$($until:tt)*] $through:tt $from:literal .. $(, $($rest:tt)*)?) => {
        let capacity = $crate::Bits::bits_capacity(&$set);
        $($until)*(&mut $set, $from, capacity);
        $crate::put_listed!($set $index [$($until)*] $through $($($rest)*)?);
    };

    ($set:ident [$($index:tt)*] $until:tt $through:tt $number:expr $(, $($rest:tt)*)?) => {
        $($index)*(&mut $set, $number);
        $crate::put_listed!($set [$($index)*] $until $through $($($rest)*)?);
    };
}

/// Sets the bits at the indexes `from..to`. The indexes follow the bit order of the type. An index
/// at or past the capacity wraps.
///
/// The shape has to fit (`bits_capacity() < u32::MAX`). A range that ends before it starts changes
/// nothing. With capacity 0 nothing changes.
#[inline]
pub fn put_until<B: BitsMut>(bits: &mut B, from: u32, to: u32)
    requires { ShapeFits B.Shape bits.old }
    ensures set { set_in B.Shape B.Order.Endian bits.new
        ≡ with_wrapped_range (set_in B.Shape B.Order.Endian bits.old) from to }
    ensures stays { B.loan bits.old ≡ B.loan bits.new }
{
    put_until_in::<B, B::Order>(bits, from, to);
}

/// Sets the bits as [`put_until`] does, but in the order `E`.
#[inline]
pub fn put_until_in<B: BitsMut, E: Endian>(bits: &mut B, from: u32, to: u32)
    requires { ShapeFits B.Shape bits.old }
    ensures set { set_in B.Shape E.Endian bits.new
        ≡ with_wrapped_range (set_in B.Shape E.Endian bits.old) from to }
    ensures stays { B.loan bits.old ≡ B.loan bits.new }
{
    if from < to {
        put_through_in::<B, E>(bits, from, to - 1);
    }
}

/// Sets the bits at the indexes `from..=to`. The indexes follow the bit order of the type. An index
/// at or past the capacity wraps.
///
/// The shape has to fit (`bits_capacity() < u32::MAX`). A range that ends before it starts changes
/// nothing. With capacity 0 nothing changes.
#[inline]
pub fn put_through<B: BitsMut>(bits: &mut B, from: u32, to: u32)
    requires { ShapeFits B.Shape bits.old }
    ensures set { set_in B.Shape B.Order.Endian bits.new
        ≡ with_wrapped_range (set_in B.Shape B.Order.Endian bits.old) from (to + 1) }
    ensures stays { B.loan bits.old ≡ B.loan bits.new }
{
    put_through_in::<B, B::Order>(bits, from, to);
}

/// Sets the bits as [`put_through`] does, but in the order `E`.
pub fn put_through_in<B: BitsMut, E: Endian>(bits: &mut B, from: u32, to: u32)
    requires { ShapeFits B.Shape bits.old }
    ensures set { set_in B.Shape E.Endian bits.new
        ≡ with_wrapped_range (set_in B.Shape E.Endian bits.old) from (to + 1) }
    ensures stays { B.loan bits.old ≡ B.loan bits.new }
{
    if to < from {
        return;
    }
    let capacity = bits.bits_capacity();
    if capacity == 0 {
        return;
    }
    // `capacity` consecutive indexes name every bit, so a longer range is cut to this length.
    let count = (to - from).min(capacity - 1) + 1;
    let start = from % capacity;
    let room = capacity - start;
    if count <= room {
        bits.set_range_in::<E>(start, start + count);
    } else {
        bits.set_range_in::<E>(start, capacity);
        bits.set_range_in::<E>(0, count - room);
    }
}

// Each of these functions uses one of the macros, on a list of two indexes and a range of each
// kind. The proved callers in the crate `bittle_uses` have lists in which these items are in
// another order.
fn listed<B: BitsOwned>(a: u32, b: u32) -> B
    requires { IsTrue B.indexable }
    ensures { set_in B.Shape B.Order.Endian result ≡ listed_set B.type_capacity a b }
{
    crate::set![a, b, 2..=3, 5..7, 14..]
}

fn listed_le<B: BitsOwned>(a: u32, b: u32) -> B
    requires { IsTrue B.indexable }
    ensures { set_in B.Shape ⟦<LittleEndian as Endian>⟧ result ≡ listed_set B.type_capacity a b }
{
    crate::set_le![a, b, 2..=3, 5..7, 14..]
}

fn listed_be<B: BitsOwned>(a: u32, b: u32) -> B
    requires { IsTrue B.indexable }
    ensures { set_in B.Shape ⟦<BigEndian as Endian>⟧ result ≡ listed_set B.type_capacity a b }
{
    crate::set_be![a, b, 2..=3, 5..7, 14..]
}
