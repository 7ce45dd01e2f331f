//! Tests of the binary text of a set, written to a string and to a writer that fails.

ghost use Rattle.std.specs.Prelude.{IsTrue};
ghost use Rattle.bittle.specs.Values.{ShapeFits};

use crate::checks::{holds, same};
use bittle::prelude::*;
use bittle::{LittleEndian, Set, Shape};
use bittle_ext::prelude::*;
use std::alloc::{AllocError, Global};
use std::fmt;
use std::fmt::{Display, Write};
use std::process::Abort;
use std::test::Fail;

// Checks the text of a value, without and with flags of the format.
fn is_written<T: Display>(
    rt: &impl Abort,
    alloc: Global,
    value: &T,
    text: &str,
) -> Result<(), AllocError> {
    let made = format!(in alloc; "{}", value)?;
    crate::checks::end_unless_equal(rt, "the text of the set", made.as_str(), text);
    let flagged = format!(in alloc; "{:>+#080}", value)?;
    crate::checks::end_unless_equal(rt, "the text with flags", flagged.as_str(), text);
    Ok(())
}

// Checks the binary text of a set, without and with flags of the format.
fn reads<B: Bits>(rt: &impl Abort, alloc: Global, set: &B, text: &str) -> Result<(), AllocError>
    requires { ShapeFits B.Shape set.now }
{
    is_written(rt, alloc, &set.binary_text(), text)
}

// Checks the binary text of a little-endian set.
fn left_reads<T: BitsOwned>(
    rt: &impl Abort,
    alloc: Global,
    left: T,
    text: &str,
) -> Result<(), AllocError>
    requires { IsTrue T.indexable }
{
    reads(rt, alloc, &Set::new_le(left), text)
}

// Checks the binary text of a pair of sets. The prover needs less time for a generic `[T; 2]` than
// for `[[u8; 1]; 2]`.
fn pair_reads<T: BitsOwned>(
    rt: &impl Abort,
    alloc: Global,
    pair: [T; 2],
    text: &str,
) -> Result<(), AllocError>
    requires { IsTrue ⟦<[T; 2] as Shape>⟧.indexable }
{
    reads(rt, alloc, &pair, text)
}

#[test]
fn a_word_is_printed_as_its_number(rt: HostRuntime) -> Result<(), Fail> {
    reads(&rt, rt.alloc(), &0b0010_0110u8, "00100110")?;
    reads(&rt, rt.alloc(), &i16::MIN, "1000000000000000")?;
    Ok(())
}

#[test]
fn the_greatest_index_of_the_order_comes_first(rt: HostRuntime) -> Result<(), Fail> {
    // In little-endian order, the byte has the members 2, 5 and 6, and the row has 0 and 14.
    left_reads(&rt, rt.alloc(), 0b0010_0110u8, "01100100")?;
    left_reads(&rt, rt.alloc(), [0x80u8, 0x02], "0100000000000001")?;
    reads(
        &rt,
        rt.alloc(),
        &0b0000_0001u8.in_order::<LittleEndian>(),
        "10000000",
    )?;
    Ok(())
}

#[test]
fn rows_and_views(rt: HostRuntime) -> Result<(), Fail> {
    reads(&rt, rt.alloc(), &[0x05u8, 0x80], "1000000000000101")?;
    pair_reads(&rt, rt.alloc(), [[0x01u8], [0x0F]], "0000111100000001")?;
    reads(&rt, rt.alloc(), &0x0Fu8.minus(&0x05u8), "00001010")?;
    Ok(())
}

#[test]
fn capacity_0_is_the_empty_text(rt: HostRuntime) -> Result<(), Fail> {
    let none: [u32; 0] = [];
    reads(&rt, rt.alloc(), &none, "")?;
    Ok(())
}

// A writer that accepts `left` texts, and then fails.
#[derive(Drop)]
struct Short {
    left: u32,
}

impl Write for Short {
    fn write_str(&mut self, _text: &str) -> fmt::Result {
        if self.left == 0 {
            return Err(fmt::Error);
        }
        self.left -= 1;
        Ok(())
    }
}

// Checks that a set of `digits` bits is written without an error if the writer accepts `digits`
// texts, and with an error if it accepts fewer.
fn is_cut_off<B: Bits>(rt: &impl Abort, set: &B, digits: u32)
    requires { ShapeFits B.Shape set.now }
{
    for left in 0..digits {
        let mut short = Short { left };
        same!(*rt; (left, write!(short, "{}", set.binary_text()).is_err()), (left, true));
    }
    let mut whole = Short { left: digits };
    holds!(*rt; write!(whole, "{}", set.binary_text()).is_ok());
    same!(*rt; whole.left, 0);
}

#[test]
fn a_text_that_was_cut_off_is_an_error(rt: HostRuntime) {
    is_cut_off(&rt, &0b0110_0001u8, 8);
    is_cut_off(&rt, &Set::new_le([0x80u8, 0x02, 0xFF]), 24);
    let none: [u8; 0] = [];
    is_cut_off(&rt, &none, 0);
}
