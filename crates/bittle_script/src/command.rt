//! The commands of a script, and how a line is read as a command.
ghost use Rattle.std.specs.Prelude.{◌≡◌};
ghost use Rattle.std.specs.Char.{is_ascii_digit};
ghost use Rattle.std.specs.List.{list_all};
ghost use Rattle.bittle_script.specs.Numbers.{number_of};

use std::str::from_utf8;

/// A command of a script. Each command is one line.
#[derive(Clone, Copy)]
pub enum Command {
    /// Sets the bit at an index.
    Set(u32),
    /// Clears the bit at an index.
    Clear(u32),
    /// Tests the bit at an index.
    Test(u32),
    /// Counts the set bits.
    Count,
    /// Lists the set bits.
    Ones,
}

impl Command {
    ghost use Rattle.bittle_script.specs.Commands.{command_of, indexed_command_of};

    /// Returns the command that a line says, or `None` if the line is no command.
    pub fn parse(line: &[u8]) -> Option<Command>
        ensures { result ≡ command_of line.now }
    {
        match line {
            b"count" => Some(Command::Count),
            b"ones" => Some(Command::Ones),
            _ => Command::parse_indexed(line),
        }
    }

    /// Returns the command of a line such as `set 5`: a word, one space and an index. Returns
    /// `None` for any other line.
    fn parse_indexed(line: &[u8]) -> Option<Command>
        ensures { result ≡ indexed_command_of line.now }
    {
        if let Some(digits) = line.strip_prefix(b"set ") {
            Some(Command::Set(parse_number(digits)?))
        } else if let Some(digits) = line.strip_prefix(b"clear ") {
            Some(Command::Clear(parse_number(digits)?))
        } else if let Some(digits) = line.strip_prefix(b"test ") {
            Some(Command::Test(parse_number(digits)?))
        } else {
            None
        }
    }
}

/// Returns the number that one or more digits say. For other text, or if the number does not fit in
/// a `u32`, it returns `None`.
fn parse_number(digits: &[u8]) -> Option<u32>
    ensures { result ≡ number_of digits.now }
{
    if !are_digits(digits) {
        return None;
    }
    let Ok(text) = from_utf8(digits) else {
        return None;
    };
    text.parse().ok()
}

// Returns whether a text has only digits. The integer parser alone would accept a sign too.
fn are_digits(text: &[u8]) -> bool
    ensures { result ≡ list_all is_ascii_digit text.now }
{
    text.iter().all(|byte| byte.is_ascii_digit())
}
