//! Arrays as sets.

ghost use Rattle.std.specs.Prelude.{◌≡◌, ◌*◌, ◌&&◌, Bool, nat_lt, refl};
ghost use Rattle.bittle_bits.specs.RowLawProofs.{row_has-past, words_of, second_is_below};
ghost use Rattle.bittle_bits.specs.RowLawProofs.{equal_rows};
ghost use Rattle.bittle_bits.specs.Orders.{read_in};
ghost use Rattle.bittle_bits.specs.Rows.{row_set};
ghost use Rattle.bittle_bits.specs.SetOperations.{combination_of};

use crate::bits::Bits;
use crate::bits_mut::BitsMut;
use crate::bits_owned::BitsOwned;
use crate::end::End;
use crate::endian::{DefaultEndian, Endian};
use crate::fixed_capacity::FixedCapacity;
use crate::internal::row;
use crate::internal::sealed::Sealed;
use crate::kind::{Kind, Ones, Zeros};
use crate::operation::{Operation, RangeOperation};
use crate::read_words::ReadWords;
use crate::shape::Shape;

impl<T: Shape, const N: usize> Shape for [T; N] {
    type LeafWord = T::LeafWord;

    ghost width = { T.width };

    ghost indexable = { T.indexable && nat_lt (N * T.type_capacity) 4294967295 };

    ghost big = { λ v. row_set N T.type_capacity T.big v };

    ghost type_capacity = { N * T.type_capacity };

    const SEAL: Sealed = Sealed {};
}

// Changes the array `elements` to the result of the operation `O` on `elements` and `others`. If
// the capacity of `others` is at most 1,024 bits, it is copied first. The copy cannot overlap
// `elements`, so the compiled code can process several words at once.
#[inline]
fn combine<T: BitsMut + FixedCapacity + Copy, O: Operation, const N: usize>(
    elements: &mut [T; N],
    others: &[T; N],
)
    ensures { (mirrored : Bool)
        → read_in mirrored T.width (row_set N T.type_capacity T.big elements.new)
        ≡ combination_of O.decide
        (read_in mirrored T.width (row_set N T.type_capacity T.big elements.old))
        (read_in mirrored T.width (row_set N T.type_capacity T.big others.now)) }
{
    if row::is_short::<T>(elements.len()) {
        let others = *others;
        row::combine::<T, O>(elements, &others);
    } else {
        row::combine::<T, O>(elements, others);
    }
}

impl<T: FixedCapacity, const N: usize> FixedCapacity for [T; N] {
    ghost one_capacity = { λ _. refl };

    ghost type_whole_words = { words_of N _ _ T.type_whole_words };

    ghost type_fits = { λ h. second_is_below T.indexable (N * T.type_capacity) 4294967295 h };

    #[inline]
    fn fixed_capacity() -> u32 {
        row::bits_capacity::<T>(N)
    }
}

impl<T: ReadWords + FixedCapacity, const N: usize> ReadWords for [T; N] {
    ghost leaf_width = { T.leaf_width };

    ghost width_positive = { T.width_positive };

    ghost whole_words = { λ _. words_of N _ _ T.type_whole_words };

    ghost none_past = { λ v i h. row_has-past N T.type_capacity (λ x. (T.big x).has) v i h };

    const IS_FIXED: bool = true;

    #[inline]
    fn capacity(&self) -> u32 {
        row::bits_capacity::<T>(self.len())
    }

    #[inline]
    fn nth_leaf_word(&self, k: usize) -> T::LeafWord {
        row::leaf_word::<T>(self, k)
    }

    const MAY_PASS_OVER: bool = T::MAY_PASS_OVER;

    #[inline(always)]
    fn pass_over<K: Kind, F: End>(&self, low: usize, high: usize) -> usize {
        row::pass_over::<T, K, F>(self, low, high)
    }

    // The checker does not prove the default in this impl.
    #[inline(always)]
    fn tells_groups<K: Kind>() -> bool {
        false
    }
}

impl<T: Bits + FixedCapacity, const N: usize> Bits for [T; N] {
    type Order = DefaultEndian;

    #[inline]
    fn count_ones(&self) -> u32 {
        row::count_ones::<T>(self)
    }

    #[inline]
    fn all_zeros(&self) -> bool {
        row::all_zeros::<T>(self, row::is_short::<T>(self.len()))
    }

    #[inline]
    fn all_ones(&self) -> bool {
        row::all_ones::<T>(self, row::is_short::<T>(self.len()))
    }

    #[inline]
    fn test_bit_in<E: Endian>(&self, index: u32) -> bool {
        row::test_bit::<T, E>(self, index, true)
    }
}

impl<T: BitsMut + FixedCapacity + Copy, const N: usize> BitsMut for [T; N] {
    #[inline]
    fn set_bit_in<E: Endian>(&mut self, index: u32) {
        row::put_bit::<T, E, Ones>(self, index, true);
    }

    #[inline]
    fn clear_bit_in<E: Endian>(&mut self, index: u32) {
        row::put_bit::<T, E, Zeros>(self, index, true);
    }

    #[inline]
    fn clear_bits(&mut self) {
        row::clear_bits::<T>(self);
    }

    #[inline]
    fn assign_range_by_operation<E: Endian, O: RangeOperation>(&mut self, from: u32, to: u32) {
        row::assign_range::<T, E, O>(self, from, to);
    }

    #[inline]
    fn assign_by_operation<O: Operation>(&mut self, other: &[T; N]) {
        combine::<T, O, N>(self, other);
    }

    #[inline]
    fn set_nth_leaf_word(&mut self, k: usize, word: T::LeafWord) {
        row::set_leaf_word::<T>(self, k, word);
    }
}

impl<T: BitsOwned, const N: usize> BitsOwned for [T; N] {
    ghost eq_is_same = { equal_rows N T.type_capacity T.big T.eq_is_same };

    #[inline]
    fn zeros() -> [T; N] {
        [T::zeros(); N]
    }

    #[inline]
    fn ones() -> [T; N] {
        [T::ones(); N]
    }
}
