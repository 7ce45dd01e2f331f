//! The operators `^` and `^=` of sets.

ghost use Rattle.std.specs.Prelude.{◌≡◌};
ghost use Rattle.bittle_bits.specs.SetOperations.{symmetric_difference_of};
ghost use Rattle.bittle.specs.SetOperators.{IsInBothOrders};

use super::{combine, combined};
use crate::set::Set;
use bittle_bits::bits_mut::BitsMut;
use bittle_bits::bits_owned::BitsOwned;
use bittle_bits::endian::Endian;
use bittle_bits::extension::SymmetricDifference;
use std::ops::{BitXor, BitXorAssign};

/// `^` returns the set of the indexes that are members of just one of the two sets.
impl<T: BitsOwned, E: Endian> BitXor<Set<T, E>> for Set<T, E> {
    type Output = Set<T, E>;

    ghost bitxor_gives = { λ a b r. IsInBothOrders symmetric_difference_of T.width (T.big a.bits)
        (T.big b.bits) (T.big r.bits) };

    #[inline]
    fn bitxor(self, rhs: Set<T, E>) -> Set<T, E> {
        Set::new_in(self.bits.symmetric_difference(rhs.bits))
    }
}

impl<'b, T: BitsOwned, E: Endian> BitXor<&'b Set<T, E>> for Set<T, E> {
    type Output = Set<T, E>;

    ghost bitxor_gives = { λ a b r. IsInBothOrders symmetric_difference_of T.width (T.big a.bits)
        (T.big b.now.bits) (T.big r.bits) };

    #[inline]
    fn bitxor(self, rhs: &'b Set<T, E>) -> Set<T, E> {
        combined::<T, E, SymmetricDifference>(self.bits, &rhs.bits)
    }
}

impl<'a, T: BitsOwned, E: Endian> BitXor<Set<T, E>> for &'a Set<T, E> {
    type Output = Set<T, E>;

    ghost bitxor_gives = { λ a b r. IsInBothOrders symmetric_difference_of T.width
        (T.big a.now.bits) (T.big b.bits) (T.big r.bits) };

    #[inline]
    fn bitxor(self, rhs: Set<T, E>) -> Set<T, E> {
        combined::<T, E, SymmetricDifference>(self.bits, &rhs.bits)
    }
}

impl<'a, 'b, T: BitsOwned, E: Endian> BitXor<&'b Set<T, E>> for &'a Set<T, E> {
    type Output = Set<T, E>;

    ghost bitxor_gives = { λ a b r. IsInBothOrders symmetric_difference_of T.width
        (T.big a.now.bits) (T.big b.now.bits) (T.big r.bits) };

    #[inline]
    fn bitxor(self, rhs: &'b Set<T, E>) -> Set<T, E> {
        combined::<T, E, SymmetricDifference>(self.bits, &rhs.bits)
    }
}

/// `^=` adds each member of the right set to the left set, or removes it if the left set has this
/// member already. If the sets wrap slices of unequal length, bits at or past the lesser capacity
/// do not change.
impl<T: BitsMut, E: Endian> BitXorAssign<Set<T, E>> for Set<T, E> {
    ghost bitxor_assign_gives = { λ a b r. IsInBothOrders symmetric_difference_of T.width
        (T.big a.bits) (T.big b.bits) (T.big r.bits) × (T.loan a.bits ≡ T.loan r.bits) };

    #[inline]
    fn bitxor_assign(&mut self, rhs: Set<T, E>) {
        combine::<T, E, SymmetricDifference>(self, &rhs.bits);
    }
}

impl<'b, T: BitsMut, E: Endian> BitXorAssign<&'b Set<T, E>> for Set<T, E> {
    ghost bitxor_assign_gives = { λ a b r. IsInBothOrders symmetric_difference_of T.width
        (T.big a.bits) (T.big b.now.bits) (T.big r.bits) × (T.loan a.bits ≡ T.loan r.bits) };

    #[inline]
    fn bitxor_assign(&mut self, rhs: &'b Set<T, E>) {
        combine::<T, E, SymmetricDifference>(self, &rhs.bits);
    }
}
