//! The operators `-` and `-=` of sets.

ghost use Rattle.std.specs.Prelude.{◌≡◌};
ghost use Rattle.bittle_bits.specs.SetOperations.{difference_of};
ghost use Rattle.bittle.specs.SetOperators.{IsInBothOrders};

use super::{combine, combined};
use crate::set::Set;
use bittle_bits::bits_mut::BitsMut;
use bittle_bits::bits_owned::BitsOwned;
use bittle_bits::endian::Endian;
use bittle_bits::extension::Difference;
use std::ops::{Sub, SubAssign};

/// `-` returns the set of the members of the left set that the right set lacks.
impl<T: BitsOwned, E: Endian> Sub<Set<T, E>> for Set<T, E> {
    type Output = Set<T, E>;

    ghost sub_gives = { λ a b r. IsInBothOrders difference_of T.width (T.big a.bits) (T.big b.bits)
        (T.big r.bits) };

    #[inline]
    fn sub(self, rhs: Set<T, E>) -> Set<T, E> {
        Set::new_in(self.bits.difference(rhs.bits))
    }
}

impl<'b, T: BitsOwned, E: Endian> Sub<&'b Set<T, E>> for Set<T, E> {
    type Output = Set<T, E>;

    ghost sub_gives = { λ a b r. IsInBothOrders difference_of T.width (T.big a.bits)
        (T.big b.now.bits) (T.big r.bits) };

    #[inline]
    fn sub(self, rhs: &'b Set<T, E>) -> Set<T, E> {
        combined::<T, E, Difference>(self.bits, &rhs.bits)
    }
}

impl<'a, T: BitsOwned, E: Endian> Sub<Set<T, E>> for &'a Set<T, E> {
    type Output = Set<T, E>;

    ghost sub_gives = { λ a b r. IsInBothOrders difference_of T.width (T.big a.now.bits)
        (T.big b.bits) (T.big r.bits) };

    #[inline]
    fn sub(self, rhs: Set<T, E>) -> Set<T, E> {
        combined::<T, E, Difference>(self.bits, &rhs.bits)
    }
}

impl<'a, 'b, T: BitsOwned, E: Endian> Sub<&'b Set<T, E>> for &'a Set<T, E> {
    type Output = Set<T, E>;

    ghost sub_gives = { λ a b r. IsInBothOrders difference_of T.width (T.big a.now.bits)
        (T.big b.now.bits) (T.big r.bits) };

    #[inline]
    fn sub(self, rhs: &'b Set<T, E>) -> Set<T, E> {
        combined::<T, E, Difference>(self.bits, &rhs.bits)
    }
}

/// `-=` removes each member of the right set from the left set. If the sets wrap slices of unequal
/// length, bits at or past the lesser capacity do not change.
impl<T: BitsMut, E: Endian> SubAssign<Set<T, E>> for Set<T, E> {
    ghost sub_assign_gives = { λ a b r. IsInBothOrders difference_of T.width (T.big a.bits)
        (T.big b.bits) (T.big r.bits) × (T.loan a.bits ≡ T.loan r.bits) };

    #[inline]
    fn sub_assign(&mut self, rhs: Set<T, E>) {
        combine::<T, E, Difference>(self, &rhs.bits);
    }
}

impl<'b, T: BitsMut, E: Endian> SubAssign<&'b Set<T, E>> for Set<T, E> {
    ghost sub_assign_gives = { λ a b r. IsInBothOrders difference_of T.width (T.big a.bits)
        (T.big b.now.bits) (T.big r.bits) × (T.loan a.bits ≡ T.loan r.bits) };

    #[inline]
    fn sub_assign(&mut self, rhs: &'b Set<T, E>) {
        combine::<T, E, Difference>(self, &rhs.bits);
    }
}
