//! Runs scripts. The lines of a script change and test a small set, and the answers are written.
#![tactic(auto)]

mod answering;
mod command;
mod header;
mod lines;
mod reading;
mod waiting;
mod writing;

ghost use Rattle.std.specs.Prelude.{◌≡◌, ◌≤◌, [], OnOk};
ghost use Rattle.std.specs.Process.{exit_status};
ghost use Rattle.bittle_script.specs.GivenAnswers.{IsAnswered};
ghost use Rattle.bittle_script.specs.ProgramRuns.{IsRun};

use answering::Outcome;
use std::io::{Eprint, Read, Write};
use std::marker::Model;
use std::process::{ExitCode, Termination};
use writing::{Output, WriteFailed};

/// The status of a run whose output failed.
const OUTPUT_FAILED: u8 = 1;

/// Reads a script, writes the answers to it, and returns the status that the program ends with. The
/// status is 0 if each line was understood, 2 if the input or one of its lines was refused, and 1
/// if the output failed. An empty input is refused at line 1.
pub fn run<R: Read, W: Write>(input: &mut R, output: &mut W) -> RunStatus
    ensures status { result ≤ 2 }
    ensures answered { IsRun (R.remaining input.old) (W.contents output.old)
        (W.contents output.new) result }
{
    let mut output = Output::new(output);
    RunStatus(match answer_and_flush(input, &mut output) {
        Ok(outcome) => outcome.status(),
        Err(_) => OUTPUT_FAILED,
    })
}

/// The status that a program ends with. Only [`run`] makes one. So a `main` that returns a
/// `RunStatus` ends with the status of a run.
#[derive(Drop)]
pub struct RunStatus(u8);

impl Model for RunStatus {
    ghost use Rattle.std.specs.Prelude.{ℕ};

    ghost Value = { ℕ };

    ghost view = { λ status. status.0 };
}

impl RunStatus {
    /// Returns the status as a number.
    pub fn code(&self) -> u8
        ensures { result ≡ self.now }
    {
        self.0
    }
}

impl Termination for RunStatus {
    fn report<R: Eprint>(self, _rt: &R) -> ExitCode
        ensures { exit_status result ≡ self }
    {
        ExitCode::from(self.code())
    }
}

/// Answers the input, and flushes the output.
fn answer_and_flush<R: Read, W: Write>(
    input: &mut R,
    output: &mut Output<'_, W>,
) -> Result<Outcome, WriteFailed>
    ensures same_writer { output.new.writer.ghost_name ≡ output.old.writer.ghost_name }
    ensures answered { IsAnswered (R.remaining input.old) W.contents output.old output.new result }
    ensures empty { OnOk result (output.new.waiting ≡ []) }
{
    let outcome = answer_input(input, output)?;
    output.flush()?;
    Ok(outcome)
}

/// Reads the whole input, and answers it.
fn answer_input<R: Read, W: Write>(
    input: &mut R,
    output: &mut Output<'_, W>,
) -> Result<Outcome, WriteFailed>
    ensures same_writer { output.new.writer.ghost_name ≡ output.old.writer.ghost_name }
    ensures answered { IsAnswered (R.remaining input.old) W.contents output.old output.new result }
{
    let mut bytes = [0; reading::INPUT_ROOM];
    match reading::read_all(input, &mut bytes) {
        Ok(len) => answering::answer(&bytes[..len], output),
        Err(refusal) => {
            output.put(refusal.message())?;
            Ok(Outcome::Refused)
        }
    }
}
