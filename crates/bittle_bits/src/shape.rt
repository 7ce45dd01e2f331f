//! The set that a value stands for, stated by ghost members, which only contracts see.
//!
//! A struct that is generic over sets has the bound `Shape`, not [`Bits`](crate::bits::Bits). For
//! an array the checker finds two impls of `Bits`: the impl for arrays, and the impl for every
//! `T: Integer`. It would have to decide which one applies. Each type has only one impl of `Shape`.

ghost use Rattle.std.specs.Prelude.{ℕ, Bool, List, []};
ghost use Rattle.bittle_bits.specs.PlainSet.{PlainSet};

use crate::internal::sealed::Sealed;
use crate::word::Word;

/// A type whose values stand for sets. Ghost members state the set of a value.
///
/// A struct that is generic over sets has this bound. The functions of such a struct need a bound
/// that has calls, such as [`Bits`](crate::bits::Bits). A crate that depends only on `bittle`
/// cannot implement this trait.
pub trait Shape: Drop {
    /// The integer type of the words of the set.
    #[doc(hidden)]
    type LeafWord: Word;

    // How many bits each word has.
    ghost width: { ℕ };

    // Whether calls on one index are allowed. They are allowed if the type fits or, for a slice, if
    // its element type fits. The comment on `Bits` says when a type fits.
    ghost indexable: { Bool };

    // The set that a value stands for, indexed in big-endian order.
    ghost big: { Self → PlainSet };

    // The capacity of each value, if the type owns its bits. For a slice type this number means
    // nothing.
    ghost type_capacity: { ℕ } = { 0 };

    // The list of the mutable borrows that a value holds, from the outermost to the innermost. A
    // `&mut [T]` is itself such a borrow. A change of the set leaves this list as it is. For an
    // owned value the list is empty.
    ghost loan: { Self → List ℕ } = { λ _. [] };

    /// Seals the trait. A crate that depends only on `bittle` cannot name the constant's type, so
    /// it cannot implement the trait.
    #[doc(hidden)]
    const SEAL: Sealed;
}
