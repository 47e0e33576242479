//! How a shared graph ends.

ghost use Rattle.std.specs.Prelude.{IfErr, IfOk};
ghost use Rattle.graph_kinds.specs.History.{Every};
ghost use Rattle.graph_table.specs.Tokens.{IsOf, TokenValue};
ghost use Rattle.shared_graph.specs.Callers.{CallerValue, HoldsEach, IsCallerOf, IsEnded};
ghost use Rattle.shared_graph.specs.Closing.{IsClosedAs, IsHandedBack};
ghost use Rattle.shared_graph.specs.Joining.{AreClosedBy, IsJoined};

use crate::caller::Caller;
use crate::graph::SharedGraph;
use graph_kinds::Memory;
use graph_table::{GraphTable, Token};
use plain_graph::PlainGraph;
use std::alloc::Global;

/// A refusal of memory: the graph wasn't closed, and stands as it was, with its callers.
#[derive(Drop)]
pub struct CloseMemory {
    pub graph: SharedGraph,
    pub callers: Vec<Caller>,
}

impl SharedGraph {
    /// Closes the graph and gives the plain graph of its whole journal, which is the longest of the callers' fronts:
    /// the books of all callers are right and framed in it, each event that changes the graph has just one own entry,
    /// and the history of all books is legal and ends in the graph that is given. The callers are all of this graph's,
    /// each once; a note that no caller met hinders nothing. O(callers + buckets + nodes · log nodes).
    ///
    /// # Errors
    /// `CloseMemory` if there's no room for the plain graph, before any caller has ended: the graph and its callers
    /// come back, in the same order, as they were but for what the callers have seen.
    pub fn close(self, alloc: Global, callers: Vec<Caller>) -> Result<PlainGraph, CloseMemory>
        requires each { HoldsEach self callers.items }
        ensures closed { IfOk result (IsClosedAs self callers.items) }
        ensures refused { IfErr result (IsHandedBack self callers.items) }
    {
        let mut callers = callers;
        match self.gather_and_read(alloc, callers.as_mut_slice()) {
            Ok(graph) => {
                self.finish(callers);
                Ok(graph)
            }
            Err(Memory) => Err(CloseMemory {
                graph: self,
                callers,
            }),
        }
    }

    /// Ends the graph: the tokens of all its callers are joined to one, whose front is the whole journal.
    fn finish(self, callers: Vec<Caller>)
        requires each { HoldsEach self callers.items }
        ensures ended { (t : TokenValue) × (AreClosedBy self callers.items t
            × IsEnded self callers.items t.view.front) }
    {
        let SharedGraph { table } = self;
        let mut callers = callers;
        let Some(last) = callers.pop() else {
            return;
        };
        let mut token = last.into_token();
        join_all(&table, &mut token, callers);
        table.close(token);
    }
}

// Joins the tokens of callers to one: what was joined to it before is joined still.
fn join_all(table: &GraphTable, token: &mut Token, callers: Vec<Caller>)
    requires table { IsOf table.now token.old }
    requires callers { Every (IsCallerOf table.now) callers.items }
    ensures table { IsOf table.now token.new }
    ensures joined { Every (IsJoined token.new.view) callers.items }
    ensures still { (c : CallerValue) → IsJoined token.old.view c → IsJoined token.new.view c }
{
    for caller in callers {
        let other = caller.into_token();
        table.join_token(token, other);
    }
}
