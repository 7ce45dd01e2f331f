//! Changes of a slice through a `Set` that borrows it.

ghost use Rattle.std.specs.Prelude.{◌≡◌, ◌*◌, ◌<◌, length, IsTrue};
ghost use Rattle.bittle.specs.Orders.{read_in};
ghost use Rattle.bittle.specs.PlainSet.{with_index, without_index};
ghost use Rattle.bittle.specs.Rows.{row_set};
ghost use Rattle.bittle.specs.Shapes.{Fits};
ghost use Rattle.bittle.specs.Machine.{replies_of, final_set};
ghost use Rattle.bittle.specs.Values.{set_in};

use bittle::replay::{Call, Reply, replay};
use bittle::{BitsMut, BitsOwned, DefaultEndian, Endian, LittleEndian, Set};

/// Sets the bit at index `set`, and then clears the bit at index `clear`, through a `Set` in the
/// default order.
pub fn set_and_clear<U: BitsOwned>(slice: &mut [U], set: u32, clear: u32)
    requires { Fits U.indexable (length slice.old * U.type_capacity) }
    ensures { read_in ⟦<DefaultEndian as Endian>⟧.mirrored U.width
        (row_set (length slice.new) U.type_capacity U.big slice.new)
        ≡ without_index
        (with_index (read_in ⟦<DefaultEndian as Endian>⟧.mirrored U.width
        (row_set (length slice.old) U.type_capacity U.big slice.old)) set)
        clear }
{
    let mut wrapped = Set::from_mut(slice);
    set_then_clear(&mut wrapped, set, clear);
}

/// Sets the bit at index `set`, and then clears the bit at index `clear`, through a `Set` in
/// little-endian order.
pub fn set_and_clear_le<U: BitsOwned>(slice: &mut [U], set: u32, clear: u32)
    requires { Fits U.indexable (length slice.old * U.type_capacity) }
    ensures { read_in ⟦<LittleEndian as Endian>⟧.mirrored U.width
        (row_set (length slice.new) U.type_capacity U.big slice.new)
        ≡ without_index
        (with_index (read_in ⟦<LittleEndian as Endian>⟧.mirrored U.width
        (row_set (length slice.old) U.type_capacity U.big slice.old)) set)
        clear }
{
    let mut wrapped = Set::from_mut_le(slice);
    set_then_clear(&mut wrapped, set, clear);
}

// Sets the bit at index `set`, and then clears the bit at index `clear`, through a `Set` of any
// shape.
fn set_then_clear<T: BitsMut, E: Endian>(wrapped: &mut Set<T, E>, set: u32, clear: u32)
    ensures set { set_in T.Shape E.Endian wrapped.new.bits
        ≡ without_index (with_index (set_in T.Shape E.Endian wrapped.old.bits) set) clear }
    ensures stays { T.loan wrapped.old.bits ≡ T.loan wrapped.new.bits }
{
    wrapped.set_bit(set);
    wrapped.clear_bit(clear);
}

/// Makes `calls` on a slice, through a `Set` in the default order. The calls name the order `E`,
/// and the slice is read in that order.
pub fn replay_through<U: BitsOwned, E: Endian>(
    slice: &mut [U],
    calls: &[Call],
    replies: &mut [Reply],
)
    requires fits { Fits U.indexable (length slice.old * U.type_capacity) }
    requires room { length replies.old ≡ length calls.now }
    ensures replies { replies.new
        ≡ replies_of (read_in E.mirrored U.width
        (row_set (length slice.old) U.type_capacity U.big slice.old)) calls.now }
    ensures set { read_in E.mirrored U.width
        (row_set (length slice.new) U.type_capacity U.big slice.new)
        ≡ final_set (read_in E.mirrored U.width
        (row_set (length slice.old) U.type_capacity U.big slice.old)) calls.now }
{
    let mut wrapped = Set::from_mut(slice);
    replay::<Set<&mut [U]>, E>(&mut wrapped, calls, replies);
}
