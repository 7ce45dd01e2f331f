//! Entities and their components. Each kind of component has a mask. The set bits of the mask are
//! the entities that have a component of that kind.

ghost use Rattle.std.specs.Prelude.{◌≡◌, Bool, length, map, take, slice_index};
ghost use Rattle.bittle.specs.BitPatterns.{bit_set};
ghost use Rattle.bittle.specs.Orders.{read_in};
ghost use Rattle.bittle.specs.PlainSet.{ascending};
ghost use Rattle.bittle.specs.SetOperations.{conjunction_of};

use bittle::{Bits, BitsOwned};

/// Returns the mask of the entities that have components of both kinds, from the masks of the two
/// kinds. The clause holds for masks read in either order.
pub fn with_both(one: u64, other: u64) -> u64
    ensures { (mirrored : Bool) → read_in mirrored 64 (bit_set 64 result)
        ≡ conjunction_of (read_in mirrored 64 (bit_set 64 one))
        (read_in mirrored 64 (bit_set 64 other)) }
{
    one.conjunction(other)
}

/// Copies the component of each entity in `mask` to the start of `row`, in increasing order of the
/// entities. Returns how many components it copied.
pub fn pick(mask: u64, components: &[u32; 64], row: &mut [u32; 64]) -> usize
    ensures count { result ≡ length (ascending (bit_set 64 mask)) }
    ensures picked { take result row.new
        ≡ map (λ entity. slice_index components.now entity) (ascending (bit_set 64 mask)) }
{
    let mut count = 0;
    for component in mask.join_ones(components.iter()) {
        row[count] = *component;
        count += 1;
    }
    count
}
