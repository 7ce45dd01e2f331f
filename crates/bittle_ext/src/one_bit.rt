//! Changes one bit of a set in its word, without a branch on the bit.

ghost use Rattle.std.specs.Prelude.{◌≡◌, ◌<◌, not, true, IsTrue};
ghost use Rattle.bittle_ext.specs.Changes.{with_index_assigned};
ghost use Rattle.bittle.specs.PlainSet.{contains, IsLeastMember};
ghost use Rattle.bittle.specs.Values.{kind_in, set_in, ShapeFits};

use bittle::{Bits, BitsMut, Endian};
use bittle_bits::extension::{Front, Kind, RangeOperation, Word, bits_of_kind, pop, word_width};

/// Returns whether the shape of a set fits, and its capacity is not 0.
#[inline]
pub fn has_bits<B: Bits>(set: &B) -> bool
    ensures fits { IsTrue result → ShapeFits B.Shape set.now × (0 < (B.big set.now).capacity) }
    ensures has { ShapeFits B.Shape set.now → 0 < (B.big set.now).capacity → IsTrue result }
{
    let capacity = set.bits_capacity();
    0 < capacity && capacity < u32::MAX
}

/// Changes the bit at an index below the capacity by the operation `O`: `Union` sets it,
/// `Difference` clears it, and `SymmetricDifference` flips it. Returns whether the bit was set
/// before.
#[inline]
pub fn combine_within<B: BitsMut, E: Endian, O: RangeOperation>(set: &mut B, index: u32) -> bool
    requires fits { ShapeFits B.Shape set.old }
    requires within { index < (B.big set.old).capacity }
    ensures was_set { result ≡ contains (set_in B.Shape E.Endian set.old) index }
    ensures set { let before = set_in B.Shape E.Endian set.old in
        set_in B.Shape E.Endian set.new
        ≡ with_index_assigned before index (O.decide (contains before index) true) }
    ensures stays { B.loan set.old ≡ B.loan set.new }
{
    let k = (index / word_width::<B>()) as usize;
    let mask = E::mask::<B::LeafWord>(index);
    let word = set.nth_leaf_word(k);
    set.set_nth_leaf_word(k, O::on_words::<B::LeafWord>(word, mask));
    !word.and(mask).is_zero()
}

/// Flips the least bit of the kind `K`, which is the bit at `first`: it is cleared if `K` is
/// `Ones`, and set if `K` is `Zeros`. In big-endian order no mask is made from the index: there the
/// bit has the least weight of the bits of its kind in its word.
#[inline]
pub fn flip_first<B: BitsMut, E: Endian, K: Kind>(set: &mut B, first: u32)
    requires fits { ShapeFits B.Shape set.old }
    requires within { first < (B.big set.old).capacity }
    requires least { IsLeastMember (kind_in B.Shape E.Endian K.Kind set.old) first }
    ensures set { set_in B.Shape E.Endian set.new
        ≡ with_index_assigned (set_in B.Shape E.Endian set.old) first (not K.ONES) }
    ensures stays { B.loan set.old ≡ B.loan set.new }
{
    let k = (first / word_width::<B>()) as usize;
    let mut bits = bits_of_kind::<B::LeafWord, K>(set.nth_leaf_word(k));
    if let Some(_) = pop::<B::LeafWord, E, Front>(&mut bits) {
        set.set_nth_leaf_word(k, bits_of_kind::<B::LeafWord, K>(bits));
    }
}

/// Changes the bit at `index` by the operation `O`: `Union` sets it, `Difference` clears it, and
/// `SymmetricDifference` flips it. An index at or past the capacity wraps. Returns whether the bit
/// was set before.
#[inline]
pub fn combine_bit<B: BitsMut, E: Endian, O: RangeOperation>(set: &mut B, index: u32) -> bool
    requires fits { ShapeFits B.Shape set.old }
    requires some { 0 < (B.big set.old).capacity }
    ensures was_set { result ≡ contains (set_in B.Shape E.Endian set.old) index }
    ensures set { let before = set_in B.Shape E.Endian set.old in
        set_in B.Shape E.Endian set.new
        ≡ with_index_assigned before index (O.decide (contains before index) true) }
    ensures stays { B.loan set.old ≡ B.loan set.new }
{
    let capacity = set.bits_capacity();
    let index = if index < capacity {
        index
    } else {
        index % capacity
    };
    combine_within::<B, E, O>(set, index)
}
