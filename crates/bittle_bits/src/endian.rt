//! The two orders in which the bits of a word are indexed.

ghost use Rattle.std.specs.Prelude.{◌≡◌, ◌%◌, ◌<◌, Bool, true, false};
ghost use Rattle.bittle_bits.specs.Orders as orders;
ghost use Rattle.bittle_bits.specs.PlainSet.{empty_set, full_set_from, with_index, complement};
ghost use Rattle.bittle_bits.specs.PlainSet.{IsLeastMember, IsGreatestMember};
ghost use Rattle.bittle_bits.specs.WordSets.{word_mirrored};

use crate::internal::sealed::Sealed;
use crate::word::Word;

/// An order in which the bits of each word are indexed: [`BigEndian`] or [`LittleEndian`].
///
/// Only the indexes within a word depend on the order. Word 0 comes first in both orders.
pub trait Endian: Drop {
    // Whether index 0 names the bit of greatest weight, as in little-endian order.
    ghost mirrored: { Bool };

    /// Seals the trait. A crate that depends only on `bittle` cannot name the constant's type, so
    /// it cannot implement the trait.
    #[doc(hidden)]
    const SEAL: Sealed;

    /// Returns `true` if index 0 names the bit of greatest weight, as in little-endian order.
    #[doc(hidden)]
    fn is_mirrored() -> bool
        ensures { result ≡ mirrored };

    /// Returns the place of the bit at `index`: this bit has the weight `2 ^ place`. An index at or
    /// past the width of the word wraps.
    ///
    /// ```
    /// LittleEndian::place::<u8>(9);                       // 6
    /// ```
    #[doc(hidden)]
    #[inline]
    final fn place<T: Word>(index: u32) -> u32
        ensures place { result ≡ orders.place mirrored T.width (index % T.width) }
        ensures within { result < T.width }
    {
        let place = index % T::width();
        if Self::is_mirrored() {
            T::width() - 1 - place
        } else {
            place
        }
    }

    /// Returns the word in which only the bit at `index` is set. An index at or past the width of
    /// the word wraps.
    ///
    /// ```
    /// LittleEndian::mask::<u8>(9);                        // 0b0100_0000
    /// ```
    #[doc(hidden)]
    #[inline]
    final fn mask<T: Word>(index: u32) -> T
        ensures { word_mirrored T.Word mirrored result ≡ with_index (empty_set T.width) index }
    {
        let place = index % T::width();
        if Self::is_mirrored() {
            T::one_below_top(place)
        } else {
            T::one_at(place)
        }
    }

    /// Returns the word in which just the bits at `index` and at every greater index are set.
    #[doc(hidden)]
    #[inline]
    final fn from_index<T: Word>(index: u32) -> T
        requires { index < T.width }
        ensures { word_mirrored T.Word mirrored result ≡ full_set_from T.width index }
    {
        if Self::is_mirrored() {
            let place = T::width() - 1 - index;
            T::low(place).or(T::one_at(place))
        } else {
            T::low(index).not()
        }
    }

    /// Returns the least index of a set bit, or the width if no bit is set.
    ///
    /// ```
    /// BigEndian::zeros(0b0001_0000u8);                    // 4
    /// ```
    #[doc(hidden)]
    #[inline]
    final fn zeros<T: Word>(value: T) -> u32
        ensures { IsLeastMember (word_mirrored T.Word mirrored value) result }
    {
        // The least index of a set bit is the number of unset bits on the side of index 0.
        if Self::is_mirrored() {
            // Index 0 is the leftmost bit.
            value.leading_zeros()
        } else {
            // Index 0 is the rightmost bit.
            value.trailing_zeros()
        }
    }

    /// Returns the least index of an unset bit, or the width if every bit is set.
    ///
    /// ```
    /// BigEndian::ones(0b0000_0111u8);                     // 3
    /// ```
    #[doc(hidden)]
    #[inline]
    final fn ones<T: Word>(value: T) -> u32
        ensures { IsLeastMember (complement (word_mirrored T.Word mirrored value)) result }
    {
        Self::zeros::<T>(value.not())
    }

    /// Returns how far the greatest index of a set bit lies below the last index, or the width if
    /// no bit is set.
    ///
    /// ```
    /// LittleEndian::zeros_rev(0b0001_0000u8);             // 4
    /// ```
    #[doc(hidden)]
    #[inline]
    final fn zeros_rev<T: Word>(value: T) -> u32
        ensures { IsGreatestMember (word_mirrored T.Word mirrored value) result }
    {
        if Self::is_mirrored() {
            // The last index is the rightmost bit.
            value.trailing_zeros()
        } else {
            // The last index is the leftmost bit.
            value.leading_zeros()
        }
    }

    /// Returns how far the greatest index of an unset bit lies below the last index, or the width
    /// if every bit is set.
    ///
    /// ```
    /// BigEndian::ones_rev(0b1110_0000u8);                 // 3
    /// ```
    #[doc(hidden)]
    #[inline]
    final fn ones_rev<T: Word>(value: T) -> u32
        ensures { IsGreatestMember (complement (word_mirrored T.Word mirrored value)) result }
    {
        Self::zeros_rev::<T>(value.not())
    }
}

/// The bit order in which index 0 names the bit of least weight, the rightmost bit of a written
/// number. It is the default order.
///
/// ```
/// 0b0010_0010u8.iter_ones_in::<BigEndian>();          // yields 1, 5
/// ```
#[derive(Drop)]
pub enum BigEndian {}

/// The bit order in which index 0 names the bit of greatest weight, the leftmost bit of a written
/// number. This library uses the name in this sense.
///
/// ```
/// 0b0010_0010u8.iter_ones_in::<LittleEndian>();       // yields 2, 6
/// ```
#[derive(Drop)]
pub enum LittleEndian {}

/// The default bit order, [`BigEndian`]. On an integer, an array or a slice, it is the order of
/// calls that name no order.
pub type DefaultEndian = BigEndian;

impl Endian for BigEndian {
    ghost mirrored = { false };

    const SEAL: Sealed = Sealed {};

    #[inline]
    fn is_mirrored() -> bool {
        false
    }
}

impl Endian for LittleEndian {
    ghost mirrored = { true };

    const SEAL: Sealed = Sealed {};

    #[inline]
    fn is_mirrored() -> bool {
        true
    }
}
