//! A function that returns an enum of the caller's own. Its clause uses a definition by cases in
//! `specs/Shots.antt`, which says what each variant means.

ghost use Rattle.std.specs.Prelude.{◌≡◌};
ghost use Rattle.bittle.specs.BitPatterns.{bit_set};
ghost use Rattle.bittle.specs.PlainSet.{with_index};
ghost use Rattle.bittle_ext_uses.specs.Shots.{answers};

use bittle::Bits;
use bittle_ext::BitsMutExt;

/// The answer to a shot at a square.
#[derive(Drop)]
pub enum Shot {
    /// The square was fired at before.
    Repeated,
    /// No ship is there.
    Missed,
    /// A ship is there.
    Hit,
}

/// Fires at one of 64 squares, and returns what is there. A number past 63 wraps.
pub fn fire(ships: u64, fired: &mut u64, square: u32) -> Shot
    ensures answer { answers (bit_set 64 ships) (bit_set 64 fired.old) square result }
    ensures fired { bit_set 64 fired.new ≡ with_index (bit_set 64 fired.old) square }
{
    if !fired.insert(square) {
        Shot::Repeated
    } else if ships.test_bit(square) {
        Shot::Hit
    } else {
        Shot::Missed
    }
}
