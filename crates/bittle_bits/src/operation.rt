//! The four operations on two sets. Each shape has one function for all four.

ghost use Rattle.std.specs.Prelude.{◌≡◌, Bool, ◌||◌, ◌&&◌, true, false, refl};
ghost use Rattle.bittle_bits.specs.SetOperations.{combination_of, first_alone, just_one};
ghost use Rattle.bittle_bits.specs.WordSets.{bits_of};

use crate::word::Word;

/// An operation on two sets.
pub trait Operation {
    // Whether a number is a member of the result. The first argument tells whether the number is a
    // member of the first set, and the second argument whether it is a member of the second set.
    ghost decide: { Bool → Bool → Bool };

    /// Combines the bits of two words by the operation.
    fn on_words<T: Word>(word: T, other: T) -> T
        ensures { bits_of T.Word result ≡ combination_of decide (bits_of T.Word word)
            (bits_of T.Word other) };
}

/// An operation that changes, in the first set, only bits that are set in the second set. So if the
/// second set is a range of indexes, the operation changes only bits of this range.
pub trait RangeOperation: Operation {
    // A number that is not a member of the second set stays in the first set, or stays out of it.
    ghost keeps_others: { (b : Bool) → Self.decide b false ≡ b };
}

pub enum Union {}

pub enum Conjunction {}

pub enum Difference {}

pub enum SymmetricDifference {}

impl Operation for Union {
    ghost decide = { ◌||◌ };

    #[inline]
    fn on_words<T: Word>(word: T, other: T) -> T {
        word.or(other)
    }
}

impl Operation for Conjunction {
    ghost decide = { ◌&&◌ };

    #[inline]
    fn on_words<T: Word>(word: T, other: T) -> T {
        word.and(other)
    }
}

impl Operation for Difference {
    ghost decide = { first_alone };

    #[inline]
    fn on_words<T: Word>(word: T, other: T) -> T {
        word.and(other.not())
    }
}

impl Operation for SymmetricDifference {
    ghost decide = { just_one };

    #[inline]
    fn on_words<T: Word>(word: T, other: T) -> T {
        word.xor(other)
    }
}

impl RangeOperation for Union {
    ghost keeps_others = { elim [ true ↦ refl | false ↦ refl ] };
}

impl RangeOperation for Difference {
    ghost keeps_others = { elim [ true ↦ refl | false ↦ refl ] };
}

impl RangeOperation for SymmetricDifference {
    ghost keeps_others = { elim [ true ↦ refl | false ↦ refl ] };
}
