//! A set that uses only some bits of its words: a board of 200 cells in 256 bits. A ghost field of
//! the type promises that no bit past the last cell is set. Only `join` and `size` have a proof
//! file.

ghost use Rattle.std.specs.Prelude.{◌≡◌, ◌<◌, ◌≤◌, min, true, false, IfSome};
ghost use Rattle.bittle.specs.BitPatterns.{bit_set};
ghost use Rattle.bittle.specs.PlainSet.{contains, empty_set, size, with_index, with_span};
ghost use Rattle.bittle.specs.PlainSet.{without_index, without_span};
ghost use Rattle.bittle.specs.Rows.{row_set};
ghost use Rattle.bittle.specs.SetOperations.{union_of};
ghost use Rattle.bittle_ext.specs.Numbers.{with_copied};
ghost use Rattle.bittle_ext.specs.ReservedSpans.{lacks_span};

use bittle::{Bits, BitsMut, BitsOwned};
use bittle_ext::prelude::*;

/// Twenty rows of ten cells. Cell `10 * y + x` stands in column `x` of row `y`.
#[derive(Drop)]
pub struct Field {
    cells: [u64; 4],
    pub ghost past: { lacks_span (row_set 4 64 (bit_set 64) cells) 200 256 ≡ true },
}

impl Field {
    /// Returns a field without full cells.
    #[tactic(auto, using(bittle_ext::proofs::UnsetSpans::lacks_span_of_empty))]
    pub fn new() -> Field
        ensures { row_set 4 64 (bit_set 64) result.cells ≡ empty_set 256 }
    {
        let cells = <[u64; 4]>::zeros();
        Field { cells }
    }

    /// Fills a cell. A number past the last cell changes nothing.
    #[tactic(auto, using(bittle_ext::proofs::UnsetSpans::lacks_span_after_set))]
    pub fn fill(&mut self, cell: u32)
        ensures fills { cell < 200 → row_set 4 64 (bit_set 64) self.new.cells
            ≡ with_index (row_set 4 64 (bit_set 64) self.old.cells) cell }
        ensures past { 200 ≤ cell → self.new.cells ≡ self.old.cells }
    {
        if cell < 200 {
            self.cells.set_bit(cell);
        }
    }

    /// Empties a cell. The number wraps at 256.
    #[tactic(auto, using(bittle_ext::proofs::UnsetSpans::lacks_span_after_clear))]
    pub fn empty(&mut self, cell: u32)
        ensures { row_set 4 64 (bit_set 64) self.new.cells
            ≡ without_index (row_set 4 64 (bit_set 64) self.old.cells) cell }
    {
        self.cells.clear_bit(cell);
    }

    /// Fills the first `cells` cells of the lowest row, or all ten if `cells` is greater than ten.
    #[tactic(auto, using(bittle_ext::proofs::UnsetSpans::lacks_span_after_set_span))]
    pub fn fill_first(&mut self, cells: u32)
        ensures { row_set 4 64 (bit_set 64) self.new.cells
            ≡ with_span (row_set 4 64 (bit_set 64) self.old.cells) 0 (min cells 10) }
    {
        self.cells.set_span(..cells.min(10));
    }

    /// Removes the lowest row. All other rows move down by one, and the highest row becomes empty.
    #[tactic(auto, using(bittle_ext::proofs::UnsetSpans::lacks_span_after_copy, bittle_ext::proofs::UnsetSpans::lacks_span_after_clear_span))]
    pub fn remove_row(&mut self)
        ensures { let before = row_set 4 64 (bit_set 64) self.old.cells in
            row_set 4 64 (bit_set 64) self.new.cells
            ≡ without_span (with_copied before 0 190 before 10) 190 200 }
    {
        self.cells.copy_within(10, 200, 0);
        self.cells.clear_span(190..200);
    }

    /// Fills each cell that is full in another field.
    pub fn join(&mut self, other: &Field)
        ensures { row_set 4 64 (bit_set 64) self.new.cells
            ≡ union_of (row_set 4 64 (bit_set 64) self.old.cells)
            (row_set 4 64 (bit_set 64) other.now.cells) }
    {
        self.cells.union_assign(&other.cells);
    }

    /// Returns the first full cell.
    pub fn first(&self) -> Option<u32>
        ensures { IfSome result (λ cell. cell < 200) }
    {
        self.cells.first_one_in_range(0, 200)
    }

    /// Counts the full cells.
    pub fn count(&self) -> u32
        ensures { result ≤ 200 }
    {
        self.cells.count_ones_in_range(0, 200)
    }

    /// Returns the number of full cells. A clause says that it is the size of the set.
    pub fn size(&self) -> u32
        ensures all { result ≡ size (row_set 4 64 (bit_set 64) self.now.cells) }
        ensures at_most { result ≤ 200 }
    {
        self.cells.count_ones()
    }

    /// Returns whether a cell is full. It returns `false` for the 56 numbers past the last cell.
    #[tactic(auto, using(bittle_ext::proofs::UnsetSpans::unset_in_span))]
    pub fn is_full(&self, cell: u32) -> bool
        ensures full { result ≡ contains (row_set 4 64 (bit_set 64) self.now.cells) cell }
        ensures past { 200 ≤ cell → cell < 256
            → contains (row_set 4 64 (bit_set 64) self.now.cells) cell ≡ false }
    {
        self.cells.test_bit(cell)
    }
}
