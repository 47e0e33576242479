//! The top call: from the words and the bytes of the input to the bytes of the output.
//!
//! The order is words, reading, rows, running, writing. Memory may take the place of any answer up to
//! running, and never comes once writing began. What is written is `Asks` of `specs/Run.antt`.

ghost use Rattle.std.specs.Prelude.{◌≡◌, ◌+◌, ◌<◌, ◌≤◌, ◌⊎◌, ℕ, List, true, false, Ok, Err, All, IfOk, IfErr, IfSome};
ghost use Rattle.std.specs.Prelude.{OnOk, OnErr, Some, length, vec_len};
ghost use Rattle.graph_kinds.specs.Answer.{IsWellMade};
ghost use Rattle.graph_kinds.specs.Stream.{Rose, Puts, PutsSome, TakesMany, TakesMore};
ghost use Rattle.graph_kinds.specs.declared.call.Row.{Row};
ghost use Rattle.graph_kinds.specs.declared.answer.Answer.{Answer};
ghost use Rattle.op_text.specs.Rows.{rows};
ghost use Rattle.op_text.specs.Text.{IsWritable, text};
ghost use Rattle.graph_tool.specs.Command.{command_of};
ghost use Rattle.graph_tool.specs.Input.{TakesAtMost, most_bytes};
ghost use Rattle.graph_tool.specs.Run.{Asks, IsAccepted, IsRefused, RunsAlone, Writes, callers, replayed};
ghost use Rattle.graph_tool.specs.Status.{IfDone, IfUsage, IfBadRow, IfReadFault, IfWriteFault, UnlessMemory};
ghost use Rattle.graph_tool.specs.Status.{UnlessWriting};
ghost use Rattle.graph_tool.specs.declared.command.Command.{Command};
ghost use Rattle.graph_tool.specs.declared.status.UsageCause.{UsageCause};
ghost use Rattle.op_text.specs.declared.rows.RowCause.{RowCause};

use crate::command::{Command, read_command};
use crate::gate::Gate;
use crate::input::{InputFault, read_input};
use crate::on_callers::{CALLERS, are_of_vertices, run_on_callers};
use crate::output::write_results;
use crate::status::{Status, UsageCause};
use graph_kinds::{Answer, Memory, Row, Sink, Source};
use op_text::{RowsFault, read_rows};
use plain_graph::{PlainGraph, replay};
use std::alloc::Global;
use std::thread::Threads;

/// Runs the words on the source and writes to the sink. `run` and `replay` read the source to its end and
/// write one line per row, in input order, and then the lines of the final graph. `replay` answers the rows in input
/// order on the graph of one caller. `run` does so too if a row isn't of vertices; if all are, each caller's rows run
/// on a thread of its own, on a graph of 65,536 nodes that 16 callers share, and each caller enters the gate before
/// each of its rows.
///
/// On the graph of one caller O(n log n) for n rows that add, remove and look up, beside O(log n) for each edge of a
/// vertex that is removed, and O((vertices + edges) log vertices) of the part that is reached for each row of `reach`,
/// `levels` or `cheapest`. On the shared graph each row walks one of 1,024 lists of vertices.
///
/// # Errors
/// `Usage` exactly where the words are no command, with the first fault from the left and the source unread, or
/// with `InputTooLong` where 8,388,609 bytes were taken and the end wasn't answered; `BadRow` exactly where the
/// input was read to its end and has a bad record; `ReadFault` and `WriteFault` only where the count of faults of
/// the source or the sink rose; `Memory` where memory ran out, before anything was written.
pub fn graph_main<R: Threads + Sync, S: Source, K: Sink, G: Gate>(
    rt: &R,
    alloc: Global,
    words: &[String],
    source: &mut S,
    sink: &mut K,
    gate: &G,
) -> Status
    ensures done { IfDone result (IfSome (S.rest source.old) (λ bytes. (written : List ℕ)
        × Asks words.now bytes written × Puts (K.taken sink.old) (K.taken sink.new) written)) }
    ensures in_order { IfDone result (IfSome (S.rest source.old) (λ bytes. (command : Command) (asked : List Row)
        → command_of words.now ≡ Ok command → rows callers bytes ≡ Ok asked → RunsAlone command asked
        → Puts (K.taken sink.old) (K.taken sink.new) (replayed asked))) }
    ensures end { IfDone result (S.ended source.new ≡ true) }
    ensures usage { IfUsage result (λ cause. (cause ≡ UsageCause.InputTooLong) ⊎ (command_of words.now ≡ Err cause)) }
    ensures refused { (cause : UsageCause) → command_of words.now ≡ Err cause → result ≡ Status.Usage cause }
    ensures unread { (cause : UsageCause) → command_of words.now ≡ Err cause → source.new ≡ source.old }
    ensures too_long { result ≡ Status.Usage UsageCause.InputTooLong → IsAccepted words.now
        × TakesMany (S.rest source.old) (S.rest source.new) (most_bytes + 1) × (S.ended source.new ≡ false) }
    ensures too_long_only { IsAccepted words.now → IfSome (S.rest source.old) (λ bytes.
        TakesMore (Some bytes) (S.rest source.new) most_bytes
        → UnlessMemory result (result ≡ Status.Usage UsageCause.InputTooLong)) }
    ensures too_long_input { IsAccepted words.now → IfSome (S.rest source.old) (λ bytes. most_bytes < length bytes
        → (Rose (S.faults source.old) (S.faults source.new) → ⊥)
        → UnlessMemory result (result ≡ Status.Usage UsageCause.InputTooLong)) }
    ensures bad_row { IfBadRow result (λ row cause. IsAccepted words.now × (S.ended source.new ≡ true)
        × IfSome (S.rest source.old) (λ bytes. rows callers bytes ≡ Err (row, cause))) }
    ensures bad_row_only { (row : ℕ) (cause : RowCause) → IsAccepted words.now → S.ended source.new ≡ true
        → IfSome (S.rest source.old) (λ bytes. rows callers bytes ≡ Err (row, cause)
        → UnlessMemory result (result ≡ Status.BadRow row cause)) }
    ensures read_fault { IfReadFault result (IsAccepted words.now × Rose (S.faults source.old) (S.faults source.new)) }
    ensures write_fault { IfWriteFault result (IsAccepted words.now × Rose (K.faults sink.old) (K.faults sink.new)) }
    ensures prefix { IfWriteFault result (IfSome (S.rest source.old) (λ bytes. (written : List ℕ)
        × Asks words.now bytes written × PutsSome (K.taken sink.old) (K.taken sink.new) written)) }
    ensures unwritten { UnlessWriting result (K.taken sink.new ≡ K.taken sink.old) }
    ensures untouched { UnlessWriting result (sink.new ≡ sink.old) }
    ensures reads { S.faults source.old ≤ S.faults source.new }
    ensures faults { K.faults sink.old ≤ K.faults sink.new }
    ensures complete { (asked : List Row) → IsAccepted words.now
        → IfSome (S.rest source.old) (λ bytes. length bytes ≤ most_bytes → rows callers bytes ≡ Ok asked
        → (Rose (S.faults source.old) (S.faults source.new) → ⊥) → (Rose (K.faults sink.old) (K.faults sink.new) → ⊥)
        → UnlessMemory result (result ≡ Status.Done)) }
{
    let command = match read_command(words) {
        Ok(command) => command,
        Err(cause) => return Status::Usage(cause),
    };
    let asked = match rows_of(alloc, source) {
        Ok(asked) => asked,
        Err(status) => return status,
    };
    let (answers, graph) = match answer_rows(rt, alloc, command, asked.as_slice(), gate) {
        Ok(answered) => answered,
        Err(_) => return Status::Memory,
    };
    match write_results(sink, answers.as_slice(), &graph) {
        Ok(()) => Status::Done,
        Err(_) => Status::WriteFault,
    }
}

// The answers of the rows, and the graph that they leave.
fn answer_rows<R: Threads + Sync, G: Gate>(
    rt: &R,
    alloc: Global,
    command: Command,
    rows: &[Row],
    gate: &G,
) -> Result<(Vec<Answer>, PlainGraph), Memory>
    requires well_made { All (λ (r : Row). IsWellMade r.call) rows.now }
    requires callers { All (λ (r : Row). r.caller < callers) rows.now }
    requires few { length rows.now ≤ 65536 }
    ensures writes { IfOk result (λ r. Writes command rows.now (text r.0.items r.1)) }
    ensures alone { IfOk result (λ r. RunsAlone command rows.now → text r.0.items r.1 ≡ replayed rows.now) }
    ensures written { IfOk result (λ r. All (λ (a : Answer). IsWritable a.outcome a.keys a.ends) r.0.items) }
{
    if command == Command::Run && are_of_vertices(rows) {
        return run_on_callers(rt, alloc, rows, gate);
    }
    replay(alloc, rows)
}

// The rows of the whole input.
fn rows_of<S: Source>(alloc: Global, source: &mut S) -> Result<Vec<Row>, Status>
    ensures ok { IfOk result (λ v. IfSome (S.rest source.old) (λ bytes. rows callers bytes ≡ Ok v.items)) }
    ensures well_made { IfOk result (λ v. All (λ (r : Row). IsWellMade r.call) v.items) }
    ensures callers { IfOk result (λ v. All (λ (r : Row). r.caller < callers) v.items) }
    ensures few { IfOk result (λ v. vec_len v ≤ 65536) }
    ensures end { OnOk result (S.ended source.new ≡ true) }
    ensures fits { OnOk result (TakesAtMost (S.rest source.old) (S.rest source.new) most_bytes) }
    ensures short { OnOk result (IfSome (S.rest source.old) (λ bytes. length bytes ≤ most_bytes)) }
    ensures reads { S.faults source.old ≤ S.faults source.new }
    ensures err { IfErr result (IsRefused (S.rest source.old) (S.rest source.new) (S.ended source.new)
        (S.faults source.old) (S.faults source.new)) }
{
    let bytes = match read_input(alloc, source) {
        Ok(bytes) => bytes,
        Err(InputFault::TooLong) => return Err(Status::Usage(UsageCause::InputTooLong)),
        Err(InputFault::Failed) => return Err(Status::ReadFault),
        Err(InputFault::Memory) => return Err(Status::Memory),
    };
    match read_rows(alloc, bytes.as_slice(), CALLERS) {
        Ok(asked) => Ok(asked),
        Err(RowsFault::Bad { row, cause }) => Err(Status::BadRow { row, cause }),
        Err(RowsFault::Memory) => Err(Status::Memory),
    }
}
