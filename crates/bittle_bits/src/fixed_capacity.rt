//! Types whose values all have the same capacity: integers, arrays, and sets of these.

ghost use Rattle.std.specs.Prelude.{◌≡◌, ℕ, ◌*◌, ◌<◌, IsTrue};
ghost use Rattle.bittle_bits.specs.Shapes.{Fits};

use crate::shape::Shape;

/// A type whose values all have the same capacity.
///
/// An array needs this of its elements to find the element that an index lies in. The impls of
/// [`Bits`](crate::bits::Bits) and [`BitsMut`](crate::bits_mut::BitsMut) for arrays have this
/// bound and the bound of their own trait. With the one bound
/// [`BitsOwned`](crate::bits_owned::BitsOwned) for all of them, each level of nested arrays would
/// multiply the time of a proof by four.
pub trait FixedCapacity: Shape {
    /// Returns how many bits a set of the type has, or `u32::MAX` if the type does not fit.
    ///
    /// Always callable. It costs O(1).
    #[doc(hidden)]
    fn fixed_capacity() -> u32
        ensures value { Fits Self.indexable Self.type_capacity → result ≡ Self.type_capacity }
        ensures fits { result < 4294967295 → Fits Self.indexable Self.type_capacity };

    // Each value has this capacity.
    ghost one_capacity: { (v : Self) → (Self.big v).capacity ≡ Self.type_capacity };

    // The capacity is a whole number of words.
    ghost type_whole_words: { (words : ℕ) × (Self.type_capacity ≡ words * Self.width) };

    // If the type may be indexed, its capacity is below `u32::MAX`.
    ghost type_fits: { IsTrue Self.indexable → Self.type_capacity < 4294967295 };
}
