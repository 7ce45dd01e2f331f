//! Iteration over the members of a set. The indexes follow the bit order that the set remembers.

ghost use Rattle.std.specs.Prelude.{◌≡◌};
ghost use Rattle.bittle_bits.specs.PlainSet.{ascending};
ghost use Rattle.bittle_bits.specs.Values.{set_in, word_count};
ghost use Rattle.bittle_bits.specs.Walk.{AreBelow, IsFresh};

use super::Set;
use bittle_bits::bits::Bits;
use bittle_bits::bits_owned::BitsOwned;
use bittle_bits::endian::Endian;
use bittle_bits::walk::{IntoIterOnes, IterOnes};

/// Iterates over the members in increasing order.
impl<T: BitsOwned, E: Endian> IntoIterator for Set<T, E> {
    type Item = u32;

    type IntoIter = IntoIterOnes<Set<T, E>, E>;

    ghost into_iter_gives = { λ s w. (w.remaining ≡ ascending (set_in T.Shape E.Endian s.bits))
        × IsFresh (word_count T.Shape s.bits) w × AreBelow (T.big s.bits).capacity w.remaining };

    #[inline]
    fn into_iter(self) -> IntoIterOnes<Set<T, E>, E> {
        self.into_iter_ones_in::<E>()
    }
}

/// Iterates over the members in increasing order.
impl<'a, T: Bits, E: Endian> IntoIterator for &'a Set<T, E> {
    type Item = u32;

    type IntoIter = IterOnes<'a, Set<T, E>, E>;

    ghost into_iter_gives = { λ s w. (w.remaining ≡ ascending (set_in T.Shape E.Endian s.now.bits))
        × IsFresh (word_count T.Shape s.now.bits) w
        × AreBelow (T.big s.now.bits).capacity w.remaining };

    #[inline]
    fn into_iter(self) -> IterOnes<'a, Set<T, E>, E> {
        self.iter_ones_in::<E>()
    }
}
