//! Changes of arrays.

ghost use Rattle.std.specs.Prelude.{◌≡◌, ◌*◌, ◌+◌, ◌≤◌};
ghost use Rattle.bittle.specs.BitPatterns.{bit_set};
ghost use Rattle.bittle.specs.PlainSet.{complement, with_span, without_span};
ghost use Rattle.bittle.specs.Rows.{row_set};

use bittle_ext::{BitsMutExt, BitsOwnedExt};

/// Frees a range of pages.
pub fn free(pages: &mut [u32; 8], from: u32, to: u32)
    requires ordered { from ≤ to }
    requires within { to ≤ 256 }
    ensures { row_set 8 32 (bit_set 32) pages.new
        ≡ without_span (row_set 8 32 (bit_set 32) pages.old) from to }
{
    pages.clear_range(from, to);
}

/// Flips each bit of a table.
pub fn flip(table: &mut [[u8; 2]; 2])
    ensures { row_set 2 16 (row_set 2 8 (bit_set 8)) table.new
        ≡ complement (row_set 2 16 (row_set 2 8 (bit_set 8)) table.old) }
{
    table.complement_assign();
}

/// Returns a board with a row of eight squares marked.
pub fn with_row(board: [u64; 2], row: u32) -> [u64; 2]
    requires { row ≤ 15 }
    ensures { row_set 2 64 (bit_set 64) result
        ≡ with_span (row_set 2 64 (bit_set 64) board) (row * 8) (row * 8 + 8) }
{
    board.with_range(row * 8, row * 8 + 8)
}
