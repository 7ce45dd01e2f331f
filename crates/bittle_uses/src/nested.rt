//! An iterator over a nested array. It owns the array, and its function accepts a set of any shape.

ghost use Rattle.std.specs.List.{last_or};
ghost use Rattle.std.specs.Prelude.{◌≡◌, Some};
ghost use Rattle.bittle.specs.BitPatterns.{bit_set};
ghost use Rattle.bittle.specs.PlainSet.{ascending};
ghost use Rattle.bittle.specs.Rows.{row_set};
ghost use Rattle.bittle.specs.Values.{set_in, ShapeFits};

use bittle::BitsOwned;

/// Returns the greatest set bit of any set, or 0 if none is set. The iterator owns the set.
pub fn greatest_of_owned<B: BitsOwned>(set: B) -> u32
    requires { ShapeFits B.Shape set }
    ensures { Some result ≡ last_or (Some 0) (ascending (set_in B.Shape B.Order.Endian set)) }
{
    let mut last = 0;
    for index in set.into_iter_ones() {
        last = index;
    }
    last
}

/// Returns the greatest set bit of a table of four rows, or 0 if none is set.
pub fn greatest_of_table(table: [[u32; 4]; 4]) -> u32
    ensures { Some result ≡ last_or (Some 0)
        (ascending (row_set 4 128 (row_set 4 32 (bit_set 32)) table)) }
{
    greatest_of_owned(table)
}
