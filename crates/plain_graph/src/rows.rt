//! Rows performed in their order on the empty graph.
//!
//! A row adds at most one vertex or edge, so the rows so far leave room for the next (`IsReplay` of the proofs).

ghost use Rattle.std.specs.Prelude.{◌≡◌, ◌≤◌, ◌^◌, length, All, IfOk};
ghost use Rattle.graph_kinds.specs.declared.call.Row.{Row as RowValue};
ghost use Rattle.graph_kinds.specs.Graph.{empty_graph};
ghost use Rattle.graph_kinds.specs.History.{calls_of};
ghost use Rattle.graph_kinds.specs.Answer.{IsWellMade, answers, after_all};
ghost use Rattle.plain_graph.specs.Calls.{CostIsBelow};

use crate::graph::PlainGraph;
use graph_kinds::{Answer, Memory, Row};
use std::alloc::Global;

/// The answers to the rows in their order, from the empty graph, and the graph after the last. Costs are below 2^48.
/// O(n log n) for n rows that add, remove and look up: a removal of a vertex takes out no edge that wasn't added. To
/// it comes O(part · log V) for each row that asks for a path or for levels.
///
/// # Errors
/// `Memory` where there is no room for the graph, the answers or the search of a path.
pub fn replay(alloc: Global, rows: &[Row]) -> Result<(Vec<Answer>, PlainGraph), Memory>
    requires few { length rows.now ≤ 65536 }
    requires well_made { All (λ row. IsWellMade row.call) rows.now }
    ensures answers { IfOk result (λ r. r.0.items ≡ answers empty_graph (calls_of rows.now)) }
    ensures bounded { IfOk result (λ r. All (λ a. CostIsBelow (2 ^ 48) a.outcome) r.0.items) }
    ensures graph { IfOk result (λ r. r.1 ≡ after_all empty_graph (calls_of rows.now)) }
{
    let mut graph = PlainGraph::new(alloc);
    let mut answers = Vec::new(alloc);
    for row in rows {
        let answer = graph.perform(&row.call)?;
        if answers.push(answer).is_err() {
            return Err(Memory);
        }
    }
    Ok((answers, graph))
}
