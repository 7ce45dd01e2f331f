//! Sets that remember the order in which their bits are indexed.

ghost use Rattle.std.specs.Prelude.{◌≡◌, ◌*◌, ◌<◌, false, length, IsTrue};
ghost use Rattle.bittle_bits.specs.Shapes.{Fits};
ghost use Rattle.bittle_bits.specs.Values.{ShapeFits};
ghost use Rattle.bittle.specs.EqualityProof.{equal_sets};

use crate::DefaultEndian;
use bittle_bits::bits::Bits;
use bittle_bits::bits_mut::BitsMut;
use bittle_bits::bits_owned::BitsOwned;
use bittle_bits::endian::{Endian, LittleEndian};
use bittle_bits::extension::{
    End, FixedCapacity, Kind, Operation, RangeOperation, ReadWords, Sealed,
};
use bittle_bits::shape::Shape;
use std::alloc::AllocError;
use std::marker::PhantomData;

mod compare;
pub mod debug;
mod from_word;
mod hash;
mod iteration;
mod operators;

/// A set that remembers the order in which its bits are indexed.
///
/// Calls that name no order use the remembered order, except `join_ones`, which always uses
/// [`DefaultEndian`]. Iteration, comparison, hashing and debug text use the remembered order too.
///
/// The wrapped value always fits: its capacity, and that of every array type inside, is below
/// `u32::MAX`. So a call on the set has at most one condition: if it changes, counts or searches a
/// range, `from <= to <= capacity`. If a call takes another set of any shape, that set has to fit
/// too.
///
/// ```
/// let set = Set::new_le(0b1101_0000u8);
/// set.test_bit(3);                                    // true
/// set.iter_ones();                                    // yields 0, 1, 3
/// ```
///
/// The operators on two sets are `|` (union), `&` (conjunction), `^` (symmetric difference) and `-`
/// (difference). Their assigning forms, such as `|=`, change the left set. `!` returns the set of
/// the indexes below the capacity that are not members. For each integer type, `from` wraps an
/// integer in a set, and `default` makes the empty set.
///
/// ```
/// let one: Set<u8> = Set::from(0b0011);
/// let other = Set::new(0b0101);
/// one | other;                                        // the set of 0, 1, 2
/// one & other;                                        // the set of 0
/// one ^ other;                                        // the set of 1, 2
/// one - other;                                        // the set of 1
/// !one;                                               // the set of 2, 3, 4, 5, 6, 7
/// Set::<u8>::default().all_zeros();                   // true
/// ```
#[derive(Drop)]
pub struct Set<T: Shape, E: Endian = DefaultEndian> {
    bits: T,
    order: PhantomData<E>,
    pub ghost fits: { ShapeFits T.Shape bits },
}

/// States that a `Set` type that names no order has the big-endian order.
#[doc(hidden)]
pub fn default_order_is_big_endian<T: Bits>()
    ensures default { ⟦<DefaultEndian as Endian>⟧.mirrored ≡ false }
    ensures set { ⟦<<Set<T> as Bits>::Order as Endian>⟧.mirrored ≡ false }
{}

impl<T: Bits> Set<T> {
    /// Wraps `bits` in a set that indexes the bits in [`DefaultEndian`] order.
    ///
    /// The shape has to fit (`bits_capacity() < u32::MAX`). The call costs O(1), plus the time to
    /// move `bits`.
    ///
    /// ```
    /// Set::new(0b1101_0000u8).iter_ones();                // yields 4, 6, 7
    /// ```
    #[inline]
    pub fn new(bits: T) -> Set<T>
        requires { ShapeFits T.Shape bits }
        ensures { result.bits ≡ bits }
    {
        Set::<T>::new_in(bits)
    }
}

impl<T: Bits> Set<T, LittleEndian> {
    /// Wraps `bits` in a set that indexes the bits in [`LittleEndian`] order.
    ///
    /// The shape has to fit (`bits_capacity() < u32::MAX`). The call costs O(1), plus the time to
    /// move `bits`.
    ///
    /// ```
    /// Set::new_le(0b1101_0000u8).iter_ones();             // yields 0, 1, 3
    /// ```
    #[inline]
    pub fn new_le(bits: T) -> Set<T, LittleEndian>
        requires { ShapeFits T.Shape bits }
        ensures { result.bits ≡ bits }
    {
        Set::<T, LittleEndian>::new_in(bits)
    }
}

impl<T: Bits, E: Endian> Set<T, E> {
    /// Wraps `bits` in a set that indexes the bits in the order `E`.
    ///
    /// The shape has to fit (`bits_capacity() < u32::MAX`). The call costs O(1), plus the time to
    /// move `bits`.
    ///
    /// ```
    /// Set::<u8, LittleEndian>::new_in(0x80).iter_ones();  // yields 0
    /// ```
    #[inline]
    pub fn new_in(bits: T) -> Set<T, E>
        requires { ShapeFits T.Shape bits }
        ensures { result.bits ≡ bits }
    {
        Set {
            bits,
            order: PhantomData,
        }
    }

    /// Returns the wrapped value.
    ///
    /// Always callable. The call costs O(1), plus the time to move the value.
    ///
    /// ```
    /// Set::new_le(0x80u8).into_bits();                    // 0x80
    /// ```
    #[inline]
    pub fn into_bits(self) -> T
        ensures value { result ≡ self.bits }
        ensures fits { ShapeFits T.Shape result }
    {
        self.bits
    }
}

impl<'a, U: BitsOwned> Set<&'a [U]> {
    /// Wraps a slice in a set that indexes the bits in [`DefaultEndian`] order.
    ///
    /// The shape has to fit (`bits_capacity() < u32::MAX`). The call costs O(1).
    ///
    /// ```
    /// Set::from_ref(&[1u8, 16]).iter_ones();              // yields 0, 12
    /// ```
    #[inline]
    pub fn from_ref(bits: &'a [U]) -> Set<&'a [U]>
        requires { Fits U.indexable (length bits.now * U.type_capacity) }
        ensures { result.bits.now ≡ bits.now }
    {
        Set::<&'a [U]> {
            bits,
            order: PhantomData,
        }
    }
}

impl<'a, U: BitsOwned> Set<&'a [U], LittleEndian> {
    /// Wraps a slice in a set that indexes the bits in [`LittleEndian`] order.
    ///
    /// The shape has to fit (`bits_capacity() < u32::MAX`). The call costs O(1).
    ///
    /// ```
    /// Set::from_ref_le(&[1u8, 16]).iter_ones();           // yields 7, 11
    /// ```
    #[inline]
    pub fn from_ref_le(bits: &'a [U]) -> Set<&'a [U], LittleEndian>
        requires { Fits U.indexable (length bits.now * U.type_capacity) }
        ensures { result.bits.now ≡ bits.now }
    {
        Set::<&'a [U], LittleEndian> {
            bits,
            order: PhantomData,
        }
    }
}

impl<'a, U: BitsOwned> Set<&'a mut [U]> {
    /// Wraps a mutable slice in a set that indexes the bits in [`DefaultEndian`] order. Each change
    /// of the set changes the caller's slice.
    ///
    /// The shape has to fit (`bits_capacity() < u32::MAX`). The call costs O(1).
    ///
    /// ```
    /// let mut words = [0u8; 2];
    /// Set::from_mut(&mut words).set_bit(12);              // words is [0, 16]
    /// ```
    #[inline]
    pub fn from_mut(bits: &'a mut [U]) -> Set<&'a mut [U]>
        requires { Fits U.indexable (length bits.old * U.type_capacity) }
        ensures same_slice { result.bits.ghost_name ≡ bits.entry.ghost_name }
        ensures value { result.bits.now ≡ bits.old }
    {
        Set::<&'a mut [U]> {
            bits,
            order: PhantomData,
        }
    }
}

impl<'a, U: BitsOwned> Set<&'a mut [U], LittleEndian> {
    /// Wraps a mutable slice in a set that indexes the bits in [`LittleEndian`] order. Each change
    /// of the set changes the caller's slice.
    ///
    /// The shape has to fit (`bits_capacity() < u32::MAX`). The call costs O(1).
    ///
    /// ```
    /// let mut words = [0u8; 2];
    /// Set::from_mut_le(&mut words).set_bit(12);           // words is [0, 8]
    /// ```
    #[inline]
    pub fn from_mut_le(bits: &'a mut [U]) -> Set<&'a mut [U], LittleEndian>
        requires { Fits U.indexable (length bits.old * U.type_capacity) }
        ensures same_slice { result.bits.ghost_name ≡ bits.entry.ghost_name }
        ensures value { result.bits.now ≡ bits.old }
    {
        Set::<&'a mut [U], LittleEndian> {
            bits,
            order: PhantomData,
        }
    }
}

impl<T: Shape + Copy, E: Endian> Clone for Set<T, E> {
    ghost use Rattle.std.specs.Prelude.{⊤};

    ghost is_clone = { λ s r. r ≡ s };

    ghost is_infallible = { λ _. ⊤ };

    #[inline]
    fn clone(&self) -> Result<Set<T, E>, AllocError> {
        Ok(Set {
            bits: self.bits,
            order: PhantomData,
        })
    }
}

impl<T: Shape + Copy, E: Endian> Copy for Set<T, E> {}

impl<T: Shape, E: Endian> Shape for Set<T, E> {
    type LeafWord = T::LeafWord;

    ghost width = { T.width };

    ghost indexable = { T.indexable };

    ghost big = { λ s. T.big s.bits };

    ghost type_capacity = { T.type_capacity };

    ghost loan = { λ s. T.loan s.bits };

    const SEAL: Sealed = Sealed {};
}

impl<T: ReadWords, U: Endian> ReadWords for Set<T, U> {
    ghost leaf_width = { T.leaf_width };

    ghost width_positive = { T.width_positive };

    ghost whole_words = { λ s. T.whole_words s.bits };

    ghost none_past = { λ s. T.none_past s.bits };

    const IS_FIXED: bool = T::IS_FIXED;

    const MAY_PASS_OVER: bool = T::MAY_PASS_OVER;

    #[inline]
    fn capacity(&self) -> u32 {
        self.bits.capacity()
    }

    #[inline]
    fn nth_leaf_word(&self, k: usize) -> T::LeafWord {
        self.bits.nth_leaf_word(k)
    }

    #[inline(always)]
    fn pass_over<K: Kind, N: End>(&self, low: usize, high: usize) -> usize {
        self.bits.pass_over::<K, N>(low, high)
    }

    #[inline(always)]
    fn tells_groups<K: Kind>() -> bool {
        T::tells_groups::<K>()
    }

    #[inline(always)]
    fn groups_told<K: Kind>(&self, n: usize, level: u32) -> u64 {
        self.bits.groups_told::<K>(n, level)
    }
}

impl<T: Bits, U: Endian> Bits for Set<T, U> {
    type Order = U;

    #[inline]
    fn count_ones(&self) -> u32 {
        self.bits.count_ones()
    }

    #[inline]
    fn all_zeros(&self) -> bool {
        self.bits.all_zeros()
    }

    #[inline]
    fn all_ones(&self) -> bool {
        self.bits.all_ones()
    }

    #[inline]
    fn test_bit_in<E: Endian>(&self, index: u32) -> bool {
        self.bits.test_bit_in::<E>(index)
    }
}

impl<T: BitsMut, U: Endian> BitsMut for Set<T, U> {
    #[inline]
    fn set_bit_in<E: Endian>(&mut self, index: u32) {
        self.bits.set_bit_in::<E>(index);
    }

    #[inline]
    fn clear_bit_in<E: Endian>(&mut self, index: u32) {
        self.bits.clear_bit_in::<E>(index);
    }

    #[inline]
    fn clear_bits(&mut self) {
        self.bits.clear_bits();
    }

    #[inline]
    fn assign_range_by_operation<E: Endian, O: RangeOperation>(&mut self, from: u32, to: u32) {
        self.bits.assign_range_by_operation::<E, O>(from, to);
    }

    #[inline]
    fn assign_by_operation<O: Operation>(&mut self, other: &Set<T, U>) {
        operators::combine::<T, U, O>(self, &other.bits);
    }

    #[inline]
    fn set_nth_leaf_word(&mut self, k: usize, word: T::LeafWord) {
        self.bits.set_nth_leaf_word(k, word);
    }
}

impl<T: FixedCapacity, U: Endian> FixedCapacity for Set<T, U> {
    ghost one_capacity = { λ s. T.one_capacity s.bits };

    ghost type_whole_words = { T.type_whole_words };

    ghost type_fits = { T.type_fits };

    #[inline]
    fn fixed_capacity() -> u32 {
        T::fixed_capacity()
    }
}

impl<T: BitsOwned, U: Endian> BitsOwned for Set<T, U> {
    ghost eq_is_same = { λ s t.
        equal_sets U.mirrored T.width T.type_capacity T.width_positive T.type_whole_words
        (T.big s.bits) (T.big t.bits) (T.one_capacity s.bits) (T.one_capacity t.bits)
        (T.none_past s.bits) (T.none_past t.bits) };

    #[inline]
    fn zeros() -> Set<T, U> {
        Set {
            bits: T::zeros(),
            order: PhantomData,
        }
    }

    #[inline]
    fn ones() -> Set<T, U> {
        Set {
            bits: T::ones(),
            order: PhantomData,
        }
    }
}
