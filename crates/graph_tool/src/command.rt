//! The words of the command line.
//!
//! A command is one word. The words are read from the left by one rule, `command_of` of
//! `specs/Command.antt`, and the first fault is answered.

ghost use Rattle.std.specs.Prelude.{◌≡◌};
ghost use Rattle.graph_tool.specs.Command.{command_of, command_by_name};

use crate::status::UsageCause;

/// What the program is asked to do: to run the rows of its input on a graph of its callers (`Run`), or on
/// the graph of one caller in their order (`Replay`).
#[derive(Debug, Drop, Clone, Copy, PartialEq, Eq)]
pub enum Command {
    Run,
    Replay,
}

/// The command of the words after the program's name. O(length of the first word).
///
/// # Errors
/// `NoCommand` where there is no word, `UnknownCommand` where the first is no command, and
/// `UnknownOption` where another word stands after a command.
pub fn read_command(words: &[String]) -> Result<Command, UsageCause>
    ensures { result ≡ command_of words.now }
{
    match words {
        [] => Err(UsageCause::NoCommand),
        [word] => command_named(word.as_str()),
        [word, _, ..] => match command_named(word.as_str()) {
            Ok(_) => Err(UsageCause::UnknownOption),
            Err(cause) => Err(cause),
        },
    }
}

// The command of its name.
fn command_named(name: &str) -> Result<Command, UsageCause>
    ensures { result ≡ command_by_name name.now }
{
    if name == "run" {
        Ok(Command::Run)
    } else if name == "replay" {
        Ok(Command::Replay)
    } else {
        Err(UsageCause::UnknownCommand)
    }
}
