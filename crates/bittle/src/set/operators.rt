//! The operators of sets, one file for each operation. Each operand is a value or a reference.

ghost use Rattle.std.specs.Prelude.{◌≡◌, Bool};
ghost use Rattle.bittle_bits.specs.SetOperations.{combination_of};
ghost use Rattle.bittle_bits.specs.Values.{set_mirrored, ShapeFits};

mod complement;
mod conjunction;
mod difference;
mod symmetric_difference;
mod union;

use super::Set;
use bittle_bits::bits_mut::BitsMut;
use bittle_bits::bits_owned::BitsOwned;
use bittle_bits::endian::Endian;
use bittle_bits::extension::Operation;

// Combines two values by an operation, and returns the result as a set.
#[inline]
fn combined<T: BitsOwned, E: Endian, O: Operation>(bits: T, other: &T) -> Set<T, E>
    requires { ShapeFits T.Shape bits }
    ensures { (mirrored : Bool) → set_mirrored T.Shape mirrored result.bits
        ≡ combination_of O.decide (set_mirrored T.Shape mirrored bits)
        (set_mirrored T.Shape mirrored other.now) }
{
    let mut set = bits;
    set.assign_by_operation::<O>(other);
    Set::new_in(set)
}

// Replaces `set` by the result of an operation on `set` and `other`.
#[inline]
pub(super) fn combine<T: BitsMut, E: Endian, O: Operation>(set: &mut Set<T, E>, other: &T)
    ensures set { (mirrored : Bool) → set_mirrored T.Shape mirrored set.new.bits
        ≡ combination_of O.decide (set_mirrored T.Shape mirrored set.old.bits)
        (set_mirrored T.Shape mirrored other.now) }
    ensures stays { T.loan set.old.bits ≡ T.loan set.new.bits }
{
    set.bits.assign_by_operation::<O>(other);
}
