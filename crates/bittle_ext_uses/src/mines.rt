//! Two sets that never have a common member: the mines of a board, and the squares that are shown.
//! A ghost field of the type promises that. Only `new` and `sign` have a proof file.

ghost use Rattle.std.specs.Prelude.{◌≡◌, ◌&&◌, nat_lt, not, true, false};
ghost use Rattle.bittle.specs.BitPatterns.{bit_set};
ghost use Rattle.bittle.specs.PlainSet.{contains, empty_set, with_index, without_index};
ghost use Rattle.bittle_lemmas.specs.ExcludedSets.{excludes};

use bittle::{Bits, BitsMut, BitsOwned};
use bittle_ext::BitsMutExt;

/// A board of 64 squares. No square with a mine is shown.
#[derive(Drop)]
pub struct Board {
    mines: u64,
    shown: u64,
    pub ghost apart: { excludes (bit_set 64 shown) (bit_set 64 mines) ≡ true },
}

impl Board {
    /// Returns a board on which no square is shown.
    pub fn new(mines: u64) -> Board
        ensures mines { result.mines ≡ mines }
        ensures shown { bit_set 64 result.shown ≡ empty_set 64 }
    {
        let shown = u64::zeros();
        Board { mines, shown }
    }

    /// Shows a square, and returns `true`. Returns `false` and changes nothing if the square has a
    /// mine or its number is past the board.
    #[tactic(auto, using(bittle_lemmas::proofs::ExcludedSets::excludes_after_set))]
    pub fn show(&mut self, square: u32) -> bool
        ensures allowed { result
            ≡ (nat_lt square 64 && not (contains (bit_set 64 self.old.mines) square)) }
        ensures shown { result ≡ true
            → bit_set 64 self.new.shown ≡ with_index (bit_set 64 self.old.shown) square }
        ensures refused { result ≡ false → self.new.shown ≡ self.old.shown }
        ensures mines { self.new.mines ≡ self.old.mines }
    {
        if 64 <= square || self.mines.test_bit(square) {
            return false;
        }
        self.shown.set_bit(square);
        true
    }

    /// Hides a square.
    #[tactic(auto, using(bittle_lemmas::proofs::ExcludedSets::excludes_after_clear))]
    pub fn hide(&mut self, square: u32)
        ensures { bit_set 64 self.new.shown ≡ without_index (bit_set 64 self.old.shown) square }
    {
        self.shown.clear_bit(square);
    }

    /// Lays a mine, and returns `true`. Returns `false` and changes nothing if the square is shown
    /// or its number is past the board.
    #[tactic(auto, using(bittle_lemmas::proofs::ExcludedSets::excludes_after_other_set))]
    pub fn lay(&mut self, square: u32) -> bool
        ensures allowed { result
            ≡ (nat_lt square 64 && not (contains (bit_set 64 self.old.shown) square)) }
        ensures mined { result ≡ true
            → bit_set 64 self.new.mines ≡ with_index (bit_set 64 self.old.mines) square }
        ensures refused { result ≡ false → self.new.mines ≡ self.old.mines }
        ensures shown { self.new.shown ≡ self.old.shown }
    {
        if 64 <= square || self.shown.test_bit(square) {
            return false;
        }
        self.mines.set_bit(square);
        true
    }

    /// Removes the mine of a square, and returns whether there was one.
    #[tactic(auto, using(bittle_lemmas::proofs::ExcludedSets::excludes_after_other_clear))]
    pub fn disarm(&mut self, square: u32) -> bool
        ensures was { result ≡ contains (bit_set 64 self.old.mines) square }
        ensures mines { bit_set 64 self.new.mines
            ≡ without_index (bit_set 64 self.old.mines) square }
    {
        self.mines.remove(square)
    }

    /// Hides a square, and removes its mine.
    #[tactic(auto, using(bittle_lemmas::proofs::ExcludedSets::excludes_after_both_clear))]
    pub fn reset(&mut self, square: u32)
        ensures shown { bit_set 64 self.new.shown
            ≡ without_index (bit_set 64 self.old.shown) square }
        ensures mines { bit_set 64 self.new.mines
            ≡ without_index (bit_set 64 self.old.mines) square }
    {
        self.shown.clear_bit(square);
        self.mines.clear_bit(square);
    }

    /// Returns whether there is a mine at a square. A square that is shown has no mine.
    #[tactic(auto, using(bittle_lemmas::proofs::ExcludedSets::unset_if_excluding))]
    pub fn has_mine(&self, square: u32) -> bool
        ensures mine { result ≡ contains (bit_set 64 self.now.mines) square }
        ensures shown { contains (bit_set 64 self.now.shown) square ≡ true
            → contains (bit_set 64 self.now.mines) square ≡ false }
    {
        self.mines.test_bit(square)
    }

    /// Returns a sign for a square: 2 if it has a mine, 1 if it is shown, else 0.
    pub fn sign(&self, square: u32) -> u32
        ensures mine { contains (bit_set 64 self.now.mines) square ≡ true → result ≡ 2 }
        ensures shown { contains (bit_set 64 self.now.shown) square ≡ true → result ≡ 1 }
    {
        if self.shown.test_bit(square) {
            return 1;
        }
        if self.mines.test_bit(square) { 2 } else { 0 }
    }

    /// Returns whether a square is shown. A square with a mine is not shown.
    #[tactic(auto, using(bittle_lemmas::proofs::ExcludedSets::unset_if_excluded))]
    pub fn is_shown(&self, square: u32) -> bool
        ensures shown { result ≡ contains (bit_set 64 self.now.shown) square }
        ensures mine { contains (bit_set 64 self.now.mines) square ≡ true
            → contains (bit_set 64 self.now.shown) square ≡ false }
    {
        self.shown.test_bit(square)
    }
}
