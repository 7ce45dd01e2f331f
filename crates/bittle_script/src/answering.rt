//! The answers to a script.
ghost use Rattle.std.specs.Prelude.{◌≡◌, ◌≤◌, length, drop, OnSome, IsTrue};
ghost use Rattle.bittle.specs.PlainSet.{empty_set};
ghost use Rattle.bittle_script.specs.Answers.{line_answers, script_answers, header_in, line_of_bit};
ghost use Rattle.bittle_script.specs.Answers.{line_of_number, line_of_members, command_text};
ghost use Rattle.bittle_script.specs.Answers.{after_command, refusal_at};
ghost use Rattle.bittle_script.specs.GivenAnswers.{IsGiven};
ghost use Rattle.bittle_script.specs.Headers.{capacity_of};
ghost use Rattle.bittle_script.specs.Lines.{lines_left};
ghost use Rattle.bittle_script.specs.Outputs.{Puts};
ghost use Rattle.bittle_script.specs.declared.reading.TheConstants.{MOST_BYTES};
ghost use Rattle.bittle.specs.Values.{set_in};

use crate::command::Command;
use crate::header::{Header, Order, SetType};
use crate::lines::Lines;
use crate::writing::{Output, WriteFailed};
use bittle::{BigEndian, Bits, BitsMut, BitsOwned, Endian, LittleEndian};
use std::io::Write;

/// How a run ended, if its output did not fail.
#[derive(Clone, Copy)]
pub enum Outcome {
    /// Each line was understood.
    Answered = 0,
    /// The input, or one of its lines, was refused.
    Refused = 2,
}

impl Outcome {
    ghost use Rattle.bittle_script.specs.ProgramRuns.{status_of};

    /// Returns the status that the program ends with.
    pub fn status(self) -> u8
        ensures known { result ≡ status_of self }
        ensures bound { result ≤ 2 }
    {
        self as u8
    }
}

/// Writes the answers to the lines of the script `text`. At the first line that is not understood,
/// it writes a refusal of that line and stops. For an empty text it writes a refusal of line 1.
pub fn answer<W: Write>(text: &[u8], output: &mut Output<'_, W>) -> Result<Outcome, WriteFailed>
    requires { length text.now ≤ MOST_BYTES }
    ensures same_writer { output.new.writer.ghost_name ≡ output.old.writer.ghost_name }
    ensures answers { IsGiven W.contents output.old output.new result
        (script_answers text.now) }
{
    let mut lines = Lines::new(text);
    match take_header(&mut lines) {
        Some(header) => answer_in_order(header, lines, output),
        None => refuse(1, output),
    }
}

/// Takes the first line, and returns the header that it says. Returns `None` if there is no line,
/// or if the line is no header.
fn take_header(lines: &mut Lines<'_>) -> Option<Header>
    ensures header { result ≡ header_in (lines_left lines.old) }
    ensures rest { OnSome result (lines_left lines.new ≡ drop 1 (lines_left lines.old)) }
{
    Header::parse(lines.next()?.text)
}

/// Answers `lines`, the lines after the header. The header names the bit order and the type of the
/// set on which the commands work.
fn answer_in_order<W: Write>(
    header: Header,
    lines: Lines<'_>,
    output: &mut Output<'_, W>,
) -> Result<Outcome, WriteFailed>
    ensures same_writer { output.new.writer.ghost_name ≡ output.old.writer.ghost_name }
    ensures answers { IsGiven W.contents output.old output.new result
        (line_answers (empty_set (capacity_of header.set_type)) (lines_left lines.entry)) }
{
    match header.order {
        Order::Big => answer_type::<BigEndian, W>(header.set_type, lines, output),
        Order::Little => answer_type::<LittleEndian, W>(header.set_type, lines, output),
    }
}

/// Answers `lines`. The commands work on a set of the type `set_type`, in the bit order `E`.
fn answer_type<E: Endian, W: Write>(
    set_type: SetType,
    lines: Lines<'_>,
    output: &mut Output<'_, W>,
) -> Result<Outcome, WriteFailed>
    ensures same_writer { output.new.writer.ghost_name ≡ output.old.writer.ghost_name }
    ensures answers { IsGiven W.contents output.old output.new result
        (line_answers (empty_set (capacity_of set_type)) (lines_left lines.entry)) }
{
    match set_type {
        SetType::U8 => answer_lines::<u8, E, W>(lines, output),
        SetType::U8x4 => answer_lines::<[u8; 4], E, W>(lines, output),
        SetType::U8x2x2 => answer_lines::<[[u8; 2]; 2], E, W>(lines, output),
        SetType::U16x2 => answer_lines::<[u16; 2], E, W>(lines, output),
        SetType::I32 => answer_lines::<i32, E, W>(lines, output),
    }
}

/// Answers `lines`, and skips empty lines. The commands work on a set of type `B`, which begins
/// empty and is read in the bit order `E`.
fn answer_lines<B: BitsOwned, E: Endian, W: Write>(
    lines: Lines<'_>,
    output: &mut Output<'_, W>,
) -> Result<Outcome, WriteFailed>
    requires { IsTrue B.indexable }
    ensures same_writer { output.new.writer.ghost_name ≡ output.old.writer.ghost_name }
    ensures answers { IsGiven W.contents output.old output.new result
        (line_answers (empty_set B.type_capacity) (lines_left lines.entry)) }
{
    let mut bits = B::zeros();
    for line in lines {
        if line.text.is_empty() {
            continue;
        }
        let Some(command) = Command::parse(line.text) else {
            return refuse(line.number, output);
        };
        obey::<B, E, W>(command, &mut bits, output)?;
    }
    Ok(Outcome::Answered)
}

/// Carries out `command` on `bits`, and prints the answer if the command has one.
fn obey<B: BitsOwned, E: Endian, W: Write>(
    command: Command,
    bits: &mut B,
    output: &mut Output<'_, W>,
) -> Result<(), WriteFailed>
    requires { IsTrue B.indexable }
    ensures same_writer { output.new.writer.ghost_name ≡ output.old.writer.ghost_name }
    ensures set { set_in B.Shape E.Endian bits.new
        ≡ after_command (set_in B.Shape E.Endian bits.old) command }
    ensures prints { Puts W.contents output.old output.new result
        (command_text (set_in B.Shape E.Endian bits.old) command) }
{
    match command {
        Command::Set(index) => {
            bits.set_bit_in::<E>(index);
            Ok(())
        }
        Command::Clear(index) => {
            bits.clear_bit_in::<E>(index);
            Ok(())
        }
        Command::Test(index) => print_bit(bits.test_bit_in::<E>(index), output),
        Command::Count => print_number(bits.count_ones(), output),
        Command::Ones => print_members::<B, E, W>(bits, output),
    }
}

/// Prints a line that says whether a bit is set: `true` or `false`.
fn print_bit<W: Write>(is_set: bool, output: &mut Output<'_, W>) -> Result<(), WriteFailed>
    ensures same_writer { output.new.writer.ghost_name ≡ output.old.writer.ghost_name }
    ensures prints { Puts W.contents output.old output.new result
        (line_of_bit is_set) }
{
    if is_set {
        output.put(b"true\n")
    } else {
        output.put(b"false\n")
    }
}

/// Prints a number on a line.
fn print_number<W: Write>(number: u32, output: &mut Output<'_, W>) -> Result<(), WriteFailed>
    ensures same_writer { output.new.writer.ghost_name ≡ output.old.writer.ghost_name }
    ensures prints { Puts W.contents output.old output.new result
        (line_of_number number) }
{
    output.put_number(number)?;
    output.put(b"\n")
}

/// Prints a line with the indexes of the set bits in increasing order, separated by one space. The
/// line is empty if no bit is set.
fn print_members<B: BitsOwned, E: Endian, W: Write>(
    bits: &B,
    output: &mut Output<'_, W>,
) -> Result<(), WriteFailed>
    requires { IsTrue B.indexable }
    ensures same_writer { output.new.writer.ghost_name ≡ output.old.writer.ghost_name }
    ensures prints { Puts W.contents output.old output.new result
        (line_of_members (set_in B.Shape E.Endian bits.now)) }
{
    let mut space: &[u8] = b"";
    for member in bits.iter_ones_in::<E>() {
        output.put_after(space, member)?;
        space = b" ";
    }
    output.put(b"\n")
}

/// Prints that line `number` is not understood, and returns `Refused`.
fn refuse<W: Write>(number: u32, output: &mut Output<'_, W>) -> Result<Outcome, WriteFailed>
    ensures same_writer { output.new.writer.ghost_name ≡ output.old.writer.ghost_name }
    ensures refused { IsGiven W.contents output.old output.new result
        (refusal_at number) }
{
    output.put_after(b"line ", number)?;
    output.put(b": not understood\n")?;
    Ok(Outcome::Refused)
}
