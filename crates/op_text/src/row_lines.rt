//! The lines of rows.
//!
//! A row is written as it is read: five fields with commas between them, without quotes, and what a call hasn't is an
//! empty field. The line is `row_line` of `specs/RowText.antt`; `written_rows_are_read` says that reading gives the
//! rows again.

ghost use Rattle.std.specs.Prelude.{ℕ, ◌≡◌, ◌≤◌, ◌∷◌, [], List, All, OnOk, OnErr, length};
ghost use Rattle.std.specs.List.{join_with_byte};
ghost use Rattle.csv.specs.Writing.{comma};
ghost use Rattle.graph_kinds.specs.Stream.{Rose, Puts, PutsSome};
ghost use Rattle.graph_kinds.specs.declared.call.Row.{Row};
ghost use Rattle.op_text.specs.Gives.{Gives};
ghost use Rattle.op_text.specs.Rows.{most_rows, operation, rows};
ghost use Rattle.op_text.specs.RowText.{IsRowFor, kind_of, number_field, number_fields, row_line, row_text};

use crate::number::give_number;
use crate::write::{WriteFailed, give_text};
use graph_kinds::{Call, Row, Sink};

/// Gives the sink the line of a row. O(digits), takes no memory.
///
/// # Errors
/// `WriteFailed` only where the sink's count of faults rose; what the sink took is a prefix of the line.
pub fn write_row<K: Sink>(sink: &mut K, row: &Row) -> Result<(), WriteFailed>
    ensures ok { OnOk result (Puts (K.taken sink.old) (K.taken sink.new) (row_line row.now)) }
    ensures prefix { OnErr result (PutsSome (K.taken sink.old) (K.taken sink.new) (row_line row.now)) }
    ensures rose { OnErr result (Rose (K.faults sink.old) (K.faults sink.new)) }
    ensures faults { K.faults sink.old ≤ K.faults sink.new }
{
    give_row(sink, row)
}

/// `write_row` with its contract in one record. O(digits).
fn give_row<K: Sink>(sink: &mut K, row: &Row) -> Result<(), WriteFailed>
    ensures { Gives K.taken K.faults sink.old sink.new (row_line row.now) result }
{
    give_number(sink, row.caller as u64)?;
    give_call(sink, row.call)?;
    give_text(sink, b"\n")
}

/// The fields of a call, each after a comma.
fn give_call<K: Sink>(sink: &mut K, call: Call) -> Result<(), WriteFailed>
    ensures { Gives K.taken K.faults sink.old sink.new
        (comma ∷ join_with_byte comma ((operation (kind_of call)).name ∷ number_fields call)) result }
{
    match call {
        Call::AddVertex { key } => give_fields(sink, b"add-vertex", key, None, None),
        Call::RemoveVertex { key } => give_fields(sink, b"remove-vertex", key, None, None),
        Call::HasVertex { key } => give_fields(sink, b"has-vertex", key, None, None),
        Call::AddEdge { from, to, weight } => give_fields(
            sink,
            b"add-edge",
            from,
            Some(to),
            Some(weight),
        ),
        Call::RemoveEdge { from, to } => give_fields(sink, b"remove-edge", from, Some(to), None),
        Call::HasEdge { from, to } => give_fields(sink, b"has-edge", from, Some(to), None),
        Call::Reach { from, to } => give_fields(sink, b"reach", from, Some(to), None),
        Call::Levels { from } => give_fields(sink, b"levels", from, None, None),
        Call::Cheapest { from, to } => give_fields(sink, b"cheapest", from, Some(to), None),
    }
}

/// The name of an operation and its three fields, each after a comma.
fn give_fields<K: Sink>(
    sink: &mut K,
    name: &[u8],
    first: u32,
    second: Option<u32>,
    weight: Option<u32>,
) -> Result<(), WriteFailed>
    ensures { Gives K.taken K.faults sink.old sink.new
        (comma ∷ join_with_byte comma
        (name.now ∷ number_field (Some first) ∷ number_field second ∷ number_field weight ∷ [])) result }
{
    give_text(sink, b",")?;
    give_text(sink, name)?;
    give_field(sink, Some(first))?;
    give_field(sink, second)?;
    give_field(sink, weight)
}

/// The field of a number, which is empty where there is none, after a comma.
fn give_field<K: Sink>(sink: &mut K, number: Option<u32>) -> Result<(), WriteFailed>
    ensures { Gives K.taken K.faults sink.old sink.new (comma ∷ number_field number) result }
{
    give_text(sink, b",")?;
    match number {
        Some(number) => give_number(sink, number as u64),
        None => Ok(()),
    }
}

/// Rows that are written for so many callers are read again: the rows of their lines are these rows. O(1): it does
/// nothing.
pub fn written_rows_are_read()
    ensures { (callers : ℕ) (asked : List Row) → All (IsRowFor callers) asked → length asked ≤ most_rows
        → rows callers (row_text asked) ≡ Ok asked }
{}

#[cfg(test)]
mod tests;
