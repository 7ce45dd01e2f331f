//! A board of eight rows with eight cells each. A cell is taken if its bit is set.

ghost use Rattle.std.specs.Prelude.{◌≡◌, IfOk, reverse};
ghost use Rattle.bittle.specs.BitPatterns.{bit_set};
ghost use Rattle.bittle.specs.PlainSet.{ascending, complement, empty_set};
ghost use Rattle.bittle.specs.Ranges.{with_wrapped_range};
ghost use Rattle.bittle_uses.specs.Board.{AreEnds};

use bittle::{Bits, set};
use std::alloc::{AllocError, Global};

/// Returns the board at the start: the first two rows and the last two are taken.
pub fn start() -> u64
    ensures { bit_set 64 result ≡ with_wrapped_range
        (with_wrapped_range (empty_set 64) 0 16) 48 64 }
{
    set![0..16, 48..]
}

/// Returns the first free cell, and the last of the other free cells. Each may be `None`.
pub fn outer_cells(board: u64) -> (Option<u32>, Option<u32>)
    ensures { AreEnds (ascending (complement (bit_set 64 board))) result.0 result.1 }
{
    let mut free = board.iter_zeros();
    let first = free.next();
    (first, free.next_back())
}

/// Returns the free cells in decreasing order.
pub fn cells_from_last(alloc: Global, board: u64) -> Result<Vec<u32>, AllocError>
    ensures { IfOk result
        (λ cells. cells.items ≡ reverse (ascending (complement (bit_set 64 board)))) }
{
    board.iter_zeros().rev().collect(alloc)
}
