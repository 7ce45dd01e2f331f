//! The operator `!` of sets.

ghost use Rattle.std.specs.Prelude.{◌≡◌, Bool};
ghost use Rattle.bittle_bits.specs.PlainSet.{complement};
ghost use Rattle.bittle_bits.specs.Values.{set_mirrored, ShapeFits};

use crate::set::Set;
use bittle_bits::bits_owned::BitsOwned;
use bittle_bits::endian::Endian;
use std::ops::Not;

// Returns the set of the indexes below the capacity that are not members.
#[inline]
fn complement_of<T: BitsOwned, E: Endian>(bits: T) -> Set<T, E>
    requires { ShapeFits T.Shape bits }
    ensures { (mirrored : Bool) → set_mirrored T.Shape mirrored result.bits
        ≡ complement (set_mirrored T.Shape mirrored bits) }
{
    Set::new_in(T::ones().difference(bits))
}

/// `!` returns the set of the indexes below the capacity that are not members.
impl<T: BitsOwned, E: Endian> Not for Set<T, E> {
    type Output = Set<T, E>;

    ghost not_gives = { λ s r. (mirrored : Bool) → set_mirrored T.Shape mirrored r.bits
        ≡ complement (set_mirrored T.Shape mirrored s.bits) };

    #[inline]
    fn not(self) -> Set<T, E> {
        complement_of::<T, E>(self.bits)
    }
}

impl<'a, T: BitsOwned, E: Endian> Not for &'a Set<T, E> {
    type Output = Set<T, E>;

    ghost not_gives = { λ s r. (mirrored : Bool) → set_mirrored T.Shape mirrored r.bits
        ≡ complement (set_mirrored T.Shape mirrored s.now.bits) };

    #[inline]
    fn not(self) -> Set<T, E> {
        complement_of::<T, E>(self.bits)
    }
}
