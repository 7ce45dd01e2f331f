//! Sets the bits at the indexes that an iterator yields.

ghost use Rattle.std.specs.Prelude.{◌≡◌, ℕ, List, IsTrue};
ghost use Rattle.std.specs.Iterator.{Drains, IsFinite};
ghost use Rattle.std.specs.Iterator.Runs.{WholeRun};
ghost use Rattle.std.specs.List.{fold};
ghost use Rattle.bittle.specs.PlainSet.{with_index};
ghost use Rattle.bittle.specs.Values.{set_in};

use bittle::{BitsMut, Endian};

/// Sets the bit at each index that the iterator yields, in the order `E`. An index at or past the
/// capacity wraps.
#[inline]
pub(crate) fn insert_each<B: BitsMut, E: Endian, I: Iterator<Item = u32>>(set: &mut B, indexes: I)
    requires indexable { IsTrue B.indexable }
    requires can { I.can_next indexes }
    requires finite { IsFinite (I.remaining indexes) }
    ensures set { (items : List ℕ) × Drains I.next_gives indexes items
        × (set_in B.Shape E.Endian set.new
        ≡ fold with_index (set_in B.Shape E.Endian set.old) items) }
    ensures runs { WholeRun I.next_gives indexes
        (λ run. set_in B.Shape E.Endian set.new
        ≡ fold with_index (set_in B.Shape E.Endian set.old) run.items) }
    ensures stays { B.loan set.old ≡ B.loan set.new }
{
    let mut rest = indexes;
    while let Some(index) = rest.next() {
        set.set_bit_in::<E>(index);
    }
}
