//! The operators `&` and `&=` of sets.

ghost use Rattle.std.specs.Prelude.{◌≡◌};
ghost use Rattle.bittle_bits.specs.SetOperations.{conjunction_of};
ghost use Rattle.bittle.specs.SetOperators.{IsInBothOrders};

use super::{combine, combined};
use crate::set::Set;
use bittle_bits::bits_mut::BitsMut;
use bittle_bits::bits_owned::BitsOwned;
use bittle_bits::endian::Endian;
use bittle_bits::extension::Conjunction;
use std::ops::{BitAnd, BitAndAssign};

/// `&` returns the set of the indexes that are members of both the left and the right set.
impl<T: BitsOwned, E: Endian> BitAnd<Set<T, E>> for Set<T, E> {
    type Output = Set<T, E>;

    ghost bitand_gives = { λ a b r. IsInBothOrders conjunction_of T.width (T.big a.bits)
        (T.big b.bits) (T.big r.bits) };

    #[inline]
    fn bitand(self, rhs: Set<T, E>) -> Set<T, E> {
        Set::new_in(self.bits.conjunction(rhs.bits))
    }
}

impl<'b, T: BitsOwned, E: Endian> BitAnd<&'b Set<T, E>> for Set<T, E> {
    type Output = Set<T, E>;

    ghost bitand_gives = { λ a b r. IsInBothOrders conjunction_of T.width (T.big a.bits)
        (T.big b.now.bits) (T.big r.bits) };

    #[inline]
    fn bitand(self, rhs: &'b Set<T, E>) -> Set<T, E> {
        combined::<T, E, Conjunction>(self.bits, &rhs.bits)
    }
}

impl<'a, T: BitsOwned, E: Endian> BitAnd<Set<T, E>> for &'a Set<T, E> {
    type Output = Set<T, E>;

    ghost bitand_gives = { λ a b r. IsInBothOrders conjunction_of T.width (T.big a.now.bits)
        (T.big b.bits) (T.big r.bits) };

    #[inline]
    fn bitand(self, rhs: Set<T, E>) -> Set<T, E> {
        combined::<T, E, Conjunction>(self.bits, &rhs.bits)
    }
}

impl<'a, 'b, T: BitsOwned, E: Endian> BitAnd<&'b Set<T, E>> for &'a Set<T, E> {
    type Output = Set<T, E>;

    ghost bitand_gives = { λ a b r. IsInBothOrders conjunction_of T.width (T.big a.now.bits)
        (T.big b.now.bits) (T.big r.bits) };

    #[inline]
    fn bitand(self, rhs: &'b Set<T, E>) -> Set<T, E> {
        combined::<T, E, Conjunction>(self.bits, &rhs.bits)
    }
}

/// `&=` removes from the left set each member that the right set lacks. If the sets wrap slices of
/// unequal length, bits at or past the lesser capacity do not change.
impl<T: BitsMut, E: Endian> BitAndAssign<Set<T, E>> for Set<T, E> {
    ghost bitand_assign_gives = { λ a b r. IsInBothOrders conjunction_of T.width (T.big a.bits)
        (T.big b.bits) (T.big r.bits) × (T.loan a.bits ≡ T.loan r.bits) };

    #[inline]
    fn bitand_assign(&mut self, rhs: Set<T, E>) {
        combine::<T, E, Conjunction>(self, &rhs.bits);
    }
}

impl<'b, T: BitsMut, E: Endian> BitAndAssign<&'b Set<T, E>> for Set<T, E> {
    ghost bitand_assign_gives = { λ a b r. IsInBothOrders conjunction_of T.width (T.big a.bits)
        (T.big b.now.bits) (T.big r.bits) × (T.loan a.bits ≡ T.loan r.bits) };

    #[inline]
    fn bitand_assign(&mut self, rhs: &'b Set<T, E>) {
        combine::<T, E, Conjunction>(self, &rhs.bits);
    }
}
