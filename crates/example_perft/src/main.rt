//! Counts the games of tic-tac-toe by their number of moves, as perft counts those of chess.
//!
//! The stones of a player are a set of squares, which are numbered row by row from 0 to 8. A game
//! ends with three stones in a line, or when no square is free. What is proved: a move puts one
//! stone on a square that has none, and changes nothing else. So no square ever has a stone of both
//! players, and each move adds one stone.
#![tactic(auto)]

ghost use Rattle.std.specs.Prelude.{◌≡◌, ◌+◌, ◌||◌, true, false, IfSome, MatchOption};
ghost use Rattle.bittle.specs.BitPatterns.{bit_set};
ghost use Rattle.bittle.specs.PlainSet.{contains, with_index};
ghost use Rattle.example_perft.specs.Board.{AreApart, stones};

use bittle::{Bits, BitsOwned};
use std::io;

/// The squares of the board.
const BOARD: u16 = 0b111_111_111;

/// The lines of the board: three rows, three columns and two diagonals.
const LINES: [u16; 8] = [
    0b000_000_111,
    0b000_111_000,
    0b111_000_000,
    0b001_001_001,
    0b010_010_010,
    0b100_100_100,
    0b100_010_001,
    0b001_010_100,
];

/// The stones of the player who is to move, and the stones of the other player.
#[derive(Clone, Copy)]
struct Position {
    mine: u16,
    theirs: u16,
}

impl Position {
    /// Returns the squares of the board that have no stone.
    fn free(self) -> u16 {
        BOARD.difference(self.mine.union(self.theirs))
    }

    /// Returns whether a square has a stone.
    fn is_taken(self, square: u32) -> bool
        ensures { result
            ≡ (contains (bit_set 16 self.mine) square || contains (bit_set 16 self.theirs) square) }
    {
        self.mine.test_bit(square) || self.theirs.test_bit(square)
    }

    /// Returns the position after the player puts a stone on a square, or `None` if the square has
    /// a stone. The other player is then to move.
    fn play(self, square: u32) -> Option<Position>
        ensures stone { let taken = contains (bit_set 16 self.mine) square
            || contains (bit_set 16 self.theirs) square in
            MatchOption result (taken ≡ true) (λ next. (taken ≡ false)
            × (next.mine ≡ self.theirs)
            × (bit_set 16 next.theirs ≡ with_index (bit_set 16 self.mine) square)) }
        ensures one_more { IfSome result (λ next.
            stones (bit_set 16 next.mine) (bit_set 16 next.theirs)
            ≡ stones (bit_set 16 self.mine) (bit_set 16 self.theirs) + 1) }
        ensures apart { AreApart (bit_set 16 self.mine) (bit_set 16 self.theirs)
            → IfSome result (λ next. AreApart (bit_set 16 next.mine) (bit_set 16 next.theirs)) }
    {
        if self.is_taken(square) {
            return None;
        }
        Some(Position {
            mine: self.theirs,
            theirs: self.mine.with_bit(square),
        })
    }

    /// Returns whether the player who moved last has three stones in a line.
    fn is_won(self) -> bool {
        LINES
            .iter()
            .any(|line| line.difference(self.theirs).all_zeros())
    }
}

/// Counts the ways to go on from a position by exactly `moves` more moves.
fn count_games(position: Position, moves: u32) -> u64 {
    if moves == 0 {
        return 1;
    }
    if position.is_won() {
        return 0;
    }
    let mut games = 0u64;
    for square in position.free().iter_ones() {
        if let Some(next) = position.play(square) {
            games = games.saturating_add(count_games(next, moves - 1));
        }
    }
    games
}

fn main(rt: HostRuntime) -> io::Result<()> {
    let start = Position { mine: 0, theirs: 0 };
    for moves in 0..=6 {
        let games = count_games(start, moves);
        println!(rt; "{moves} moves: {games} games")?;
    }
    if let Some(next) = start.play(4) {
        let is_refused = next.play(4).is_none();
        println!(rt; "a second stone on square 4 is refused: {is_refused}")?;
    }
    Ok(())
}
