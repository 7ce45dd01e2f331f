//! The lines of a text.
ghost use Rattle.std.specs.Prelude.{◌≤◌, ◌<◌, ◌+◌, ◌≡◌, ◌∷◌, ◌==◌, length, position};
ghost use Rattle.bittle_script.specs.Texts.{script_lines, without_return};
ghost use Rattle.bittle_script.specs.declared.reading.TheConstants.{MOST_BYTES};

use crate::reading::MOST_BYTES;

/// A line, and its number, counted from 1.
#[derive(Clone, Copy)]
pub struct Line<'a> {
    /// The number of the line, counted from 1.
    pub number: u32,
    /// The line without its end.
    pub text: &'a [u8],
}

/// An iterator over the lines of a text.
#[derive(Drop)]
pub struct Lines<'a> {
    rest: &'a [u8],
    taken: u32,
    ghost fits: { taken + length rest.now ≤ MOST_BYTES },
}

impl<'a> Lines<'a> {
    ghost use Rattle.std.specs.List.{enumerate_from};
    ghost use Rattle.bittle_script.specs.Lines.{lines_left};

    /// Returns an iterator over the lines of `text`, which may have at most `MOST_BYTES` bytes.
    pub fn new(text: &'a [u8]) -> Self
        requires { length text.now ≤ MOST_BYTES }
        ensures { lines_left result ≡ enumerate_from 1 (script_lines text.now) }
    {
        Lines {
            rest: text,
            taken: 0,
        }
    }
}

impl<'a> Iterator for Lines<'a> {
    ghost use Rattle.std.specs.Prelude.{length};
    ghost use Rattle.std.specs.Iterator.{at_most, YieldsFirstBy};
    ghost use Rattle.bittle_script.specs.Lines.{numbered_line, lines_left};

    type Item = Line<'a>;

    ghost next_gives = { YieldsFirstBy numbered_line lines_left };

    ghost remaining = { λ s. at_most (length s.rest.now) };

    fn next(&mut self) -> Option<Line<'a>> {
        if self.rest.is_empty() {
            return None;
        }
        let (text, rest) = first_line(self.rest);
        self.rest = rest;
        self.taken += 1;
        Some(Line {
            number: self.taken,
            text,
        })
    }
}

#[tactic(auto, using(crate::proofs::FirstLine::first_script_line, crate::proofs::FirstLine::only_script_line))]
/// Returns the first line of `text` without its line end, and the rest of `text` after that line.
/// The text must not be empty.
fn first_line(text: &[u8]) -> (&[u8], &[u8])
    requires { 0 < length text.now }
    ensures lines { script_lines text.now ≡ result.0.now ∷ script_lines result.1.now }
    ensures shorter { length result.1.now < length text.now }
{
    match end_of_line(text) {
        Some(end) => (without_return(&text[..end]), &text[end + 1..]),
        None => (without_return(text), &[]),
    }
}

// Returns the index of the first line feed (byte 10), which ends the first line, or `None` if there
// is no line feed.
fn end_of_line(text: &[u8]) -> Option<usize>
    ensures { result ≡ position (λ b. b == 10) text.now }
{
    text.iter().position(|byte| *byte == b'\n')
}

// Returns the line without the carriage return (byte 13) at its end, if there is one.
fn without_return(line: &[u8]) -> &[u8]
    ensures { result.now ≡ without_return line.now }
{
    line.strip_suffix(b"\r").unwrap_or(line)
}
