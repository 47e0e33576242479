//! A port whose caller enters a gate before each of its rows.

use crate::gate::Gate;
use graph_kinds::{Call, CallerPort, Outcome};
use shared_graph::{GraphPort, SharedGraph};

// A port over a graph, and the gate that its caller enters before each call.
#[derive(Drop)]
pub(crate) struct GatedPort<'a, G> {
    pub(crate) port: GraphPort<'a>,
    pub(crate) graph: &'a SharedGraph,
    pub(crate) gate: &'a G,
}

impl<G: Gate> CallerPort for GatedPort<'_, G> {
    ghost Origin = { ⟦<GraphPort<'static> as CallerPort>⟧.Origin };

    ghost origin = { λ p. ⟦<GraphPort<'static> as CallerPort>⟧.origin p.port };

    ghost serves = { ⟦<GraphPort<'static> as CallerPort>⟧.serves };

    ghost number = { λ p. ⟦<GraphPort<'static> as CallerPort>⟧.number p.port };

    ghost front = { λ p. ⟦<GraphPort<'static> as CallerPort>⟧.front p.port };

    ghost book = { λ p. ⟦<GraphPort<'static> as CallerPort>⟧.book p.port };

    ghost left = { λ p. ⟦<GraphPort<'static> as CallerPort>⟧.left p.port };

    ghost kept_keys = { λ p. ⟦<GraphPort<'static> as CallerPort>⟧.kept_keys p.port };

    ghost kept_ends = { λ p. ⟦<GraphPort<'static> as CallerPort>⟧.kept_ends p.port };

    fn perform(&mut self, call: &Call, tries: u32) -> Outcome {
        self.gate.enter(self.graph, self.port.number());
        self.port.perform(call, tries)
    }

    fn keys(&self) -> &[u32] {
        self.port.keys()
    }

    fn ends(&self) -> &[u32] {
        self.port.ends()
    }

    fn number(&self) -> u32 {
        self.port.number()
    }
}
