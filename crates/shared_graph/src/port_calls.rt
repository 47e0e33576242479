//! What a port over a shared graph does.

ghost use Rattle.std.specs.Prelude.{◌≡◌, ◌↔◌, ◌+◌, ◌<◌, ◌≤◌, []};
ghost use Rattle.graph_kinds.specs.Port.{GainsEntry};
ghost use Rattle.shared_graph.specs.Callers.{IsCallerOf, answer_of, seen_by, uses_left};
ghost use Rattle.shared_graph.specs.Performing.{HasPerformed, IsVertexCall};
ghost use Rattle.shared_graph.specs.Ports.{caller_in, graph_in};

use crate::caller::Caller;
use crate::graph::SharedGraph;
use crate::port::GraphPort;
use graph_kinds::{Call, CallerPort, Outcome};

impl<'a> GraphPort<'a> {
    /// The port of this caller, in O(1).
    pub fn new(graph: &'a SharedGraph, caller: Caller) -> GraphPort<'a>
        requires caller { IsCallerOf graph.now caller }
        ensures graph { graph_in result ≡ graph.now }
        ensures caller { caller_in result ≡ caller }
    {
        GraphPort { graph, caller }
    }

    /// The caller, in O(1): it's one of the graph still.
    pub fn into_caller(self) -> Caller
        ensures caller { result ≡ caller_in self.entry }
        ensures belongs { IsCallerOf (graph_in self.entry) result }
    {
        let GraphPort { graph: _, caller } = self;
        caller
    }
}

impl CallerPort for GraphPort<'_> {
    ghost use Rattle.graph_table.specs.Tokens.{TableValue};

    ghost Origin = { TableValue };

    ghost origin = { λ p. graph_in p };

    ghost serves = { IsVertexCall };

    ghost number = { λ p. (caller_in p).hand.token.view.number };

    ghost front = { λ p. seen_by (caller_in p) };

    ghost book = { λ p. (caller_in p).hand.token.view.book };

    ghost left = { λ p. uses_left (caller_in p) };

    ghost kept_keys = { λ p. (caller_in p).keys };

    ghost kept_ends = { λ p. (caller_in p).ends };

    // The clauses of the trait, and then that of the caller's call: the answer is right and the history legal.
    fn perform(&mut self, call: &Call, tries: u32) -> Outcome
        requires call { IsVertexCall call.now }
        requires some { 0 < tries }
        ensures number { (caller_in self.new).hand.token.view.number ≡ (caller_in self.old).hand.token.view.number }
        ensures origin { graph_in self.new ≡ graph_in self.old }
        ensures worn { result ≡ Outcome.Worn ↔ (uses_left (caller_in self.old) ≡ 0) }
        ensures worn_keys { result ≡ Outcome.Worn
            → ((caller_in self.new).keys ≡ []) × ((caller_in self.new).ends ≡ []) }
        ensures stays { uses_left (caller_in self.old) ≡ 0
            → (seen_by (caller_in self.new) ≡ seen_by (caller_in self.old))
            × (((caller_in self.new).hand.token.view.book ≡ (caller_in self.old).hand.token.view.book)
            × (uses_left (caller_in self.new) ≡ 0)) }
        ensures falls { 0 < uses_left (caller_in self.old)
            → uses_left (caller_in self.new) + 1 ≡ uses_left (caller_in self.old) }
        ensures grows { seen_by (caller_in self.old) ≤ seen_by (caller_in self.new) }
        ensures entry { 0 < uses_left (caller_in self.old)
            → GainsEntry (caller_in self.old).hand.token.view.book (caller_in self.new).hand.token.view.book call.now
            tries (answer_of result (caller_in self.new)) (seen_by (caller_in self.old))
            (seen_by (caller_in self.new)) }
        ensures answers { HasPerformed call.now tries result (caller_in self.old) (caller_in self.new) }
    {
        let _hand = &self.caller.hand;
        self.graph.perform(&mut self.caller, call, tries)
    }

    fn keys(&self) -> &[u32] {
        self.graph.keys(&self.caller)
    }

    fn ends(&self) -> &[u32] {
        self.graph.ends(&self.caller)
    }

    fn number(&self) -> u32 {
        self.caller.number()
    }
}
