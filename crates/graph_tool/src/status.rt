//! How a run ends: the status, the number that the process ends with, and the line on standard error.

ghost use Rattle.std.specs.Prelude.{◌≡◌, ◌≢◌};
ghost use Rattle.std.specs.IoError.{error_kind};
ghost use Rattle.graph_tool.specs.Status.{line_of, exit_number, usage_of, cause_of};

use op_text::RowCause;
use std::io::ErrorKind;
use std::{fmt, io};

/// What is wrong with the words of the command line, or that the input is too long.
#[derive(Debug, Drop, Clone, Copy, PartialEq, Eq)]
pub enum UsageCause {
    /// There is no word.
    NoCommand,
    /// The first word is no command, or an argument is no text.
    UnknownCommand,
    /// A word stands after the command.
    UnknownOption,
    /// The input has more than 8,388,608 bytes.
    InputTooLong,
}

/// How a run ends. `Done`: all was written. `Usage`: the words are not a command, or the input is longer
/// than 8,388,608 bytes. `BadRow`: the first bad record, counted from 1, with its cause. `ReadFault` and
/// `WriteFault`: the source or the sink failed. `Memory`: memory ran out before anything was written.
#[derive(Debug, Drop, Clone, Copy, PartialEq, Eq)]
pub enum Status {
    Done,
    Usage(UsageCause),
    BadRow { row: u32, cause: RowCause },
    ReadFault,
    WriteFault,
    Memory,
}

impl Status {
    /// How a run ends whose arguments can't be had: `Memory` where memory ran out, and else an argument is no text,
    /// which is an unknown command. O(1).
    pub fn of_arguments(fault: &io::Error) -> Status
        ensures memory { error_kind fault.now ≡ ErrorKind.OutOfMemory → result ≡ Status.Memory }
        ensures no_text { error_kind fault.now ≢ ErrorKind.OutOfMemory
            → result ≡ Status.Usage UsageCause.UnknownCommand }
    {
        if fault.kind() == ErrorKind::OutOfMemory {
            Status::Memory
        } else {
            Status::Usage(UsageCause::UnknownCommand)
        }
    }

    /// The number that the process ends with: 0 Done, 2 Usage, 3 BadRow, 4 ReadFault, 5 WriteFault,
    /// 6 Memory. O(1).
    pub fn number(&self) -> u8
        ensures { result ≡ exit_number self.now }
    {
        match self {
            Status::Done => 0,
            Status::Usage(_) => 2,
            Status::BadRow { row: _, cause: _ } => 3,
            Status::ReadFault => 4,
            Status::WriteFault => 5,
            Status::Memory => 6,
        }
    }
}

/// The text of a cause of Usage. O(1).
pub fn usage_text(cause: UsageCause) -> &'static str
    ensures { result.now ≡ usage_of cause }
{
    match cause {
        UsageCause::NoCommand => "no command",
        UsageCause::UnknownCommand => "unknown command",
        UsageCause::UnknownOption => "unknown option",
        UsageCause::InputTooLong => "input too long",
    }
}

/// The text of a cause of BadRow. O(1).
pub fn row_text(cause: RowCause) -> &'static str
    ensures { result.now ≡ cause_of cause }
{
    match cause {
        RowCause::FieldCount => "field count",
        RowCause::BadCaller => "bad caller",
        RowCause::UnknownOp => "unknown operation",
        RowCause::BadNumber => "bad number",
        RowCause::MissingField => "missing field",
        RowCause::ExtraField => "extra field",
        RowCause::ZeroWeight => "zero weight",
        RowCause::TooManyRows => "too many rows",
    }
}

impl fmt::Display for Status {
    ghost output = { line_of };

    fn fmt<W: fmt::Write>(&self, f: &mut fmt::Formatter<W>) -> fmt::Result {
        match self {
            Status::Done => Ok(()),
            Status::Usage(cause) => {
                let text = usage_text(*cause);
                write!(f, "graph_tool: usage: {text}")
            }
            Status::BadRow { row, cause } => {
                let text = row_text(*cause);
                write!(f, "graph_tool: row {row}: {text}")
            }
            Status::ReadFault => f.write_str("graph_tool: read fault"),
            Status::WriteFault => f.write_str("graph_tool: write fault"),
            Status::Memory => f.write_str("graph_tool: out of memory"),
        }
    }
}
