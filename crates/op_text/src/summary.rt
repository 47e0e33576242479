//! The summary of a run: seven lines of counts, of which the last says whether a vertex was lost.
//!
//! The text is `summary_by` of `specs/Summary.antt`.

ghost use Rattle.std.specs.Prelude.{◌≡◌, ◌≤◌, ◌+◌, List, OnOk, OnErr, IsSome, codes, length};
ghost use Rattle.graph_kinds.specs.Graph.{Graph, key_count};
ghost use Rattle.graph_kinds.specs.History.{Every, Item, IsInterleaving, IsLegal};
ghost use Rattle.graph_kinds.specs.Stream.{Rose, Puts, PutsSome};
ghost use Rattle.graph_kinds.specs.declared.answer.Answer.{Answer};
ghost use Rattle.graph_kinds.specs.declared.call.Row.{Row};
ghost use Rattle.op_text.specs.Gives.{Gives};
ghost use Rattle.op_text.specs.Rows.{most_rows};
ghost use Rattle.op_text.specs.Summary.{adds_key, removes_key, vertices_added, vertices_removed, count_line};
ghost use Rattle.op_text.specs.Summary.{conserved_line, items_adding, items_removing, summary_by, summary_lines};

use crate::number::give_number;
use crate::write::{WriteFailed, give_text};
use graph_kinds::{Answer, Call, Outcome, Row, Sink};

/// Gives the sink the summary of rows for so many callers, with their answers and the numbers of vertices and edges at
/// the end. O(rows), takes no memory.
///
/// # Errors
/// `WriteFailed` only where the sink's count of faults rose; what the sink took is a prefix of the summary.
pub fn write_summary<K: Sink>(
    sink: &mut K,
    rows: &[Row],
    callers: u32,
    answers: &[Answer],
    vertices: u32,
    edges: u32,
) -> Result<(), WriteFailed>
    requires few { length rows.now ≤ most_rows }
    requires one_each { length answers.now ≡ length rows.now }
    ensures ok { OnOk result (Puts (K.taken sink.old) (K.taken sink.new)
        (summary_by rows.now callers answers.now vertices edges)) }
    ensures prefix { OnErr result (PutsSome (K.taken sink.old) (K.taken sink.new)
        (summary_by rows.now callers answers.now vertices edges)) }
    ensures rose { OnErr result (Rose (K.faults sink.old) (K.faults sink.new)) }
    ensures faults { K.faults sink.old ≤ K.faults sink.new }
{
    give_summary(sink, rows, callers, answers, vertices, edges)
}

/// `write_summary` with its contract in one record. O(rows).
fn give_summary<K: Sink>(
    sink: &mut K,
    rows: &[Row],
    callers: u32,
    answers: &[Answer],
    vertices: u32,
    edges: u32,
) -> Result<(), WriteFailed>
    requires few { length rows.now ≤ most_rows }
    requires one_each { length answers.now ≡ length rows.now }
    ensures { Gives K.taken K.faults sink.old sink.new
        (summary_by rows.now callers answers.now vertices edges) result }
{
    let added = count_added(rows, answers);
    let removed = count_removed(rows, answers);
    give_lines(
        sink,
        rows.len() as u64,
        callers,
        added,
        removed,
        vertices,
        edges,
    )
}

/// The seven lines of these counts.
fn give_lines<K: Sink>(
    sink: &mut K,
    rows: u64,
    callers: u32,
    added: u64,
    removed: u64,
    vertices: u32,
    edges: u32,
) -> Result<(), WriteFailed>
    requires { removed ≤ most_rows }
    ensures { Gives K.taken K.faults sink.old sink.new
        (summary_lines rows callers added removed vertices edges) result }
{
    give_count(sink, b"rows", rows)?;
    give_count(sink, b"callers", callers as u64)?;
    give_count(sink, b"added", added)?;
    give_count(sink, b"removed", removed)?;
    give_count(sink, b"vertices", vertices as u64)?;
    give_count(sink, b"edges", edges as u64)?;
    give_conserved(sink, added, removed, vertices)
}

/// The line of a count.
fn give_count<K: Sink>(sink: &mut K, name: &[u8], count: u64) -> Result<(), WriteFailed>
    ensures { Gives K.taken K.faults sink.old sink.new (count_line name.now count) result }
{
    give_text(sink, name)?;
    give_text(sink, b" ")?;
    give_number(sink, count)?;
    give_text(sink, b"\n")
}

/// The last line, which says whether a vertex was lost.
fn give_conserved<K: Sink>(
    sink: &mut K,
    added: u64,
    removed: u64,
    vertices: u32,
) -> Result<(), WriteFailed>
    requires { removed ≤ most_rows }
    ensures { Gives K.taken K.faults sink.old sink.new (conserved_line added removed vertices) result }
{
    if added == removed + vertices as u64 {
        give_text(sink, b"conserved yes\n")
    } else {
        give_text(sink, b"conserved no\n")
    }
}

/// Whether a call with this outcome added a vertex.
fn is_vertex_added(call: Call, outcome: Outcome) -> bool
    ensures { result ≡ adds_key call outcome }
{
    match (call, outcome) {
        (Call::AddVertex { key: _ }, Outcome::Added) => true,
        _ => false,
    }
}

/// Whether a call with this outcome removed a vertex.
fn is_vertex_removed(call: Call, outcome: Outcome) -> bool
    ensures { result ≡ removes_key call outcome }
{
    match (call, outcome) {
        (Call::RemoveVertex { key: _ }, Outcome::Removed(_)) => true,
        _ => false,
    }
}

/// How many of the rows added a vertex.
fn count_added(rows: &[Row], answers: &[Answer]) -> u64
    requires { length answers.now ≡ length rows.now }
    ensures { result ≡ vertices_added rows.now answers.now }
{
    let mut count: u64 = 0;
    for (i, row) in rows.iter().enumerate() {
        if is_vertex_added(row.call, answers[i].outcome) {
            count += 1;
        }
    }
    count
}

/// How many of the rows removed a vertex.
fn count_removed(rows: &[Row], answers: &[Answer]) -> u64
    requires { length answers.now ≡ length rows.now }
    ensures { result ≡ vertices_removed rows.now answers.now }
{
    let mut count: u64 = 0;
    for (i, row) in rows.iter().enumerate() {
        if is_vertex_removed(row.call, answers[i].outcome) {
            count += 1;
        }
    }
    count
}

/// The law of conservation: in a legal history whose items are all answered, as many vertices were added as were
/// removed and are in the graph at the end. So it is with the answers to rows of which a legal history is an
/// interleaving, and their summary says so. O(1): it does nothing.
pub fn vertices_are_conserved()
    ensures history { (h : List Item) (g : Graph) → Every (λ (i : Item). IsSome i.reply) h → IsLegal h g
        → items_adding h ≡ items_removing h + key_count g }
    ensures rows { (asked : List Row) (replies : List Answer) (h : List Item) (g : Graph)
        → IsInterleaving asked replies h → IsLegal h g
        → vertices_added asked replies ≡ vertices_removed asked replies + key_count g }
    ensures line { (asked : List Row) (replies : List Answer) (h : List Item) (g : Graph)
        → IsInterleaving asked replies h → IsLegal h g
        → conserved_line (vertices_added asked replies) (vertices_removed asked replies) (key_count g)
        ≡ codes "conserved yes\n" }
{}

#[cfg(test)]
mod tests;
