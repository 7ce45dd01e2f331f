//! `From` and `Default` for sets that wrap one integer.

ghost use Rattle.std.specs.Prelude.{◌≡◌, Bool};
ghost use Rattle.bittle_bits.specs.PlainSet.{empty_set, size};
ghost use Rattle.bittle_bits.specs.Values.{set_mirrored};

use super::Set;
use bittle_bits::bits_owned::BitsOwned;
use bittle_bits::endian::Endian;
use bittle_bits::extension::Integer;
use std::marker::PhantomData;

impl<T: Integer, E: Endian> From<T> for Set<T, E> {
    ghost from_gives = { λ word s. s.bits ≡ word };

    #[inline]
    fn from(word: T) -> Set<T, E> {
        Set::new_in(word)
    }
}

impl<T: Integer, E: Endian> Default for Set<T, E> {
    ghost is_default = { λ s. (T.big s.bits ≡ empty_set T.type_capacity)
        × ((mirrored : Bool) → set_mirrored T.Shape mirrored s.bits ≡ empty_set T.type_capacity)
        × (size (T.big s.bits) ≡ 0) };

    #[inline]
    fn default() -> Set<T, E> {
        Set {
            bits: T::zeros(),
            order: PhantomData,
        }
    }
}
