//! Tests that only the words of a range are fetched if the range is loaded or stored as a number,
//! or copied. Tests also that a set is printed with one fetch of each word.

ghost use Rattle.std.specs.Prelude.{◌≤◌};
ghost use Rattle.bittle.specs.Values.{ShapeFits};

use crate::asked::{Asked, counts};
use crate::checks::{holds, same};
use crate::probe::{ONES, Probe, ZEROS};
use bittle::{Bits, BitsMut};
use bittle_ext::prelude::*;
use std::alloc::{AllocError, Global};
use std::process::Abort;
use std::test::Fail;

// What is made of a set: a number, a text that is not printed, or a text that is printed.
#[derive(Drop)]
enum Reading {
    Number,
    Text,
    PrintedText,
}

// Loads the bits 4 to 19 as a number, or makes the text of a set with the members 0 and 31.
fn read<B: Bits>(
    rt: &impl Abort,
    alloc: Global,
    reading: Reading,
    set: &B,
) -> Result<(), AllocError>
    requires { ShapeFits B.Shape set.now }
{
    match reading {
        Reading::Number => holds!(*rt; set.load(4, 16) == 0xFFFF),
        Reading::Text => {
            let _ = set.binary_text();
        }
        Reading::PrintedText => {
            let text = format!(in alloc; "{}", set.binary_text())?;
            holds!(*rt; text.as_str() == "10000000000000000000000000000001");
        }
    }
    Ok(())
}

// Reads the set of these bytes, and tests that this fetches `fetched` words.
fn read_bytes(
    rt: &impl Abort,
    alloc: Global,
    reading: Reading,
    bytes: [u8; 4],
    fetched: u32,
) -> Result<(), AllocError> {
    let asked = Asked::new();
    read(rt, alloc, reading, &Probe::of(bytes, &asked))?;
    counts!(*rt; asked, fetched, 0);
    Ok(())
}

#[test]
fn a_number_is_loaded_from_the_words_of_its_range(rt: HostRuntime) -> Result<(), Fail> {
    read_bytes(&rt, rt.alloc(), Reading::Number, ZEROS, 3)?;
    Ok(())
}

#[test]
fn a_text_that_is_not_printed_reads_nothing(rt: HostRuntime) -> Result<(), Fail> {
    read_bytes(&rt, rt.alloc(), Reading::Text, ONES, 0)?;
    Ok(())
}

#[test]
fn a_text_that_is_printed_fetches_each_word_once(rt: HostRuntime) -> Result<(), Fail> {
    read_bytes(&rt, rt.alloc(), Reading::PrintedText, ONES, 4)?;
    Ok(())
}

// What is written to the bits 4 to 19 of a set: a number, the first 16 bits of another set, or the
// first 16 bits of the set itself.
#[derive(Drop)]
enum Writing {
    Number,
    Copy,
    Move,
}

// Writes to the bits 4 to 19 of a set.
fn write<A: BitsMut, B: Bits>(writing: Writing, set: &mut A, other: &B)
    requires fits { ShapeFits A.Shape set.old }
    requires other_fits { ShapeFits B.Shape other.now }
    requires within { 20 ≤ (A.big set.old).capacity }
{
    match writing {
        Writing::Number => set.store(4, 16, 0xFACE),
        Writing::Copy => set.copy_range(other, 0, 16, 4),
        Writing::Move => set.copy_within(0, 16, 4),
    }
}

// Writes to the set with the bytes `bytes`. Tests the bytes after the write, how many words are
// fetched from this set and from the set with the bytes `ONES`, and that three words are written.
fn write_bytes(
    rt: &impl Abort,
    writing: Writing,
    bytes: [u8; 4],
    written: [u8; 4],
    of_ours: u32,
    of_theirs: u32,
) {
    let (ours, theirs) = (Asked::new(), Asked::new());
    let mut set = Probe::of(bytes, &ours);
    write(writing, &mut set, &Probe::of(ONES, &theirs));
    same!(*rt; set.bytes, written);
    counts!(*rt; ours, of_ours, 3);
    counts!(*rt; theirs, of_theirs, 0);
}

#[test]
fn a_number_is_stored_in_the_words_of_its_range(rt: HostRuntime) {
    write_bytes(&rt, Writing::Number, ONES, [0xE1, 0xAC, 0x0F, 0x80], 3, 0);
}

#[test]
fn a_range_is_copied_from_two_words_to_each_at_most(rt: HostRuntime) {
    // Three words are written. The first is made from word 0 of the other set, the second from
    // words 0 and 1, and the third from word 1.
    write_bytes(&rt, Writing::Copy, ZEROS, [0x1E, 0, 0xF0, 0x7F], 3, 4);
}

#[test]
fn a_range_is_copied_within_a_set_from_its_words(rt: HostRuntime) {
    // The bits that are copied take four fetches. Each of the three words that are written is
    // fetched too.
    write_bytes(&rt, Writing::Move, ONES, [0x11, 0, 0, 0x80], 7, 0);
}
