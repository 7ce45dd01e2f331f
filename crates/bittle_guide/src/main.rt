//! Marks squares of a board, and prints them.
#![tactic(auto)]

use bittle::{Bits, BitsMut, Set};
use std::io;

#[derive(Drop)]
struct Board {
    marked: u64,
}

fn main(rt: HostRuntime) -> io::Result<()> {
    let mut board = Board { marked: 0 };
    board.marked.set_bit(3);
    board.marked.set_bit(60);
    for square in board.marked.iter_ones() {
        println!(rt; "square {square}")?;
    }
    let set = Set::new(board.marked);
    println!(rt; "{set:?}")?;
    Ok(())
}
