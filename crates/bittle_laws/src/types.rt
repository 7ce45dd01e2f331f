//! The bit order in which calls that name no order read each type. Each function does nothing, and
//! its contract is the law.

ghost use Rattle.std.specs.Prelude.{◌≡◌, false};

use bittle::{Bits, BitsOwned, Endian, Set};

/// States that each integer is read in big-endian order.
pub fn integers_are_big_endian()
    ensures of_u8 { ⟦<<u8 as Bits>::Order as Endian>⟧.mirrored ≡ false }
    ensures of_i8 { ⟦<<i8 as Bits>::Order as Endian>⟧.mirrored ≡ false }
    ensures of_u16 { ⟦<<u16 as Bits>::Order as Endian>⟧.mirrored ≡ false }
    ensures of_i16 { ⟦<<i16 as Bits>::Order as Endian>⟧.mirrored ≡ false }
    ensures of_u32 { ⟦<<u32 as Bits>::Order as Endian>⟧.mirrored ≡ false }
    ensures of_i32 { ⟦<<i32 as Bits>::Order as Endian>⟧.mirrored ≡ false }
    ensures of_u64 { ⟦<<u64 as Bits>::Order as Endian>⟧.mirrored ≡ false }
    ensures of_i64 { ⟦<<i64 as Bits>::Order as Endian>⟧.mirrored ≡ false }
    ensures of_u128 { ⟦<<u128 as Bits>::Order as Endian>⟧.mirrored ≡ false }
    ensures of_i128 { ⟦<<i128 as Bits>::Order as Endian>⟧.mirrored ≡ false }
    ensures of_usize { ⟦<<usize as Bits>::Order as Endian>⟧.mirrored ≡ false }
    ensures of_isize { ⟦<<isize as Bits>::Order as Endian>⟧.mirrored ≡ false }
{}

/// States that each array is read in big-endian order, whatever the order of its elements.
pub fn arrays_are_big_endian<T: BitsOwned, const N: usize>()
    ensures { ⟦<<[T; N] as Bits>::Order as Endian>⟧.mirrored ≡ false }
{}

/// States that each slice, shared or mutable, is read in big-endian order, whatever the order of
/// its elements.
pub fn slices_are_big_endian<'a, T: BitsOwned + 'a>()
    ensures shared { ⟦<<&'a [T] as Bits>::Order as Endian>⟧.mirrored ≡ false }
    ensures lent { ⟦<<&'a mut [T] as Bits>::Order as Endian>⟧.mirrored ≡ false }
{}

/// States that calls which name no order read a `Set` in the order that it remembers.
pub fn sets_remember_their_order<T: Bits, U: Endian>()
    ensures { ⟦<<Set<T, U> as Bits>::Order as Endian>⟧.mirrored ≡ U.mirrored }
{}
