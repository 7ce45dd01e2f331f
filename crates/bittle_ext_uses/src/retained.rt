//! Calls of `retain` with closures that index a table. The check proves that `retain` calls a
//! closure only with indexes below the capacity.

ghost use Rattle.std.specs.Prelude.{◌≡◌, ◌*◌, ◌≤◌, length, true, false, nat_lt};
ghost use Rattle.std.specs.Prelude.{slice_index, slice_index_or};
ghost use Rattle.bittle.specs.BitPatterns.{bit_set};
ghost use Rattle.bittle.specs.Orders.{read_in};
ghost use Rattle.bittle.specs.Rows.{row_set};
ghost use Rattle.bittle.specs.Values.{set_in, ShapeFits};
ghost use Rattle.bittle_ext.specs.Changes.{those_passing, Retains};
ghost use Rattle.bittle_ext.specs.Calls.{IsCallableBelow};

use bittle::{BitsMut, Set};
use bittle_ext::prelude::*;

/// Keeps the bits whose priority in a table is above a bound.
pub fn keep_urgent(ready: &mut [u32; 4], priority: &[u8; 128], bound: u8)
    ensures { row_set 4 32 (bit_set 32) ready.new
        ≡ those_passing (λ i. nat_lt bound (slice_index priority.now i))
        (row_set 4 32 (bit_set 32) ready.old) }
{
    ready.retain(|index| priority[index as usize] > bound);
}

/// Keeps the bits that a slice marks. The slice has an entry for each index.
pub fn keep_marked_by_slice(mask: &mut u16, table: &[bool])
    requires { 16 ≤ length table.now }
    ensures { bit_set 16 mask.new
        ≡ those_passing (λ i. slice_index_or table.now i false) (bit_set 16 mask.old) }
{
    mask.retain(|index| table[index as usize]);
}

/// Keeps the bits that a table marks, and returns how many set bits the closure was called for.
pub fn keep_and_count(mask: &mut u32, table: &[bool; 32]) -> u32 {
    let mut asked = 0u32;
    mask.retain(|index| {
        asked = asked.wrapping_add(1);
        table[index as usize]
    });
    asked
}

/// Keeps the bits that a table marks, and clears all others. The set is read in little-endian
/// order.
pub fn keep_marked_le(mask: &mut u8, table: &[bool; 8])
    ensures { read_in true 8 (bit_set 8 mask.new) ≡ those_passing
        (λ i. slice_index_or table.now i false) (read_in true 8 (bit_set 8 mask.old)) }
{
    mask.in_order_mut::<bittle::LittleEndian>()
        .retain(|index| table[index as usize]);
}

/// Keeps the bits for which a closure of the caller's returns `true`. This function requires of the
/// closure what `retain` requires of it.
pub fn keep_by<B: BitsMut, F: FnMut(u32) -> bool>(set: &mut B, keep: F)
    requires fits { ShapeFits B.Shape set.old }
    requires callable { IsCallableBelow (B.big set.old).capacity F.FnMut keep }
    ensures { Retains F.step keep (set_in B.Shape B.Order.Endian set.old)
        (set_in B.Shape B.Order.Endian set.new) }
{
    set.retain(keep);
}
