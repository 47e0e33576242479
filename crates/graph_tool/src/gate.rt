//! What a caller enters before each of its rows.

use shared_graph::SharedGraph;

/// What a caller enters before each of its rows. The program's is always open; another one can see that callers run
/// side by side, and on which graph.
pub trait Gate: Sync {
    /// A caller of this number enters, on the thread that then asks its row of this graph.
    fn enter(&self, graph: &SharedGraph, caller: u32);
}

/// A gate at which nothing happens.
#[derive(Clone, Copy, Debug, Drop)]
pub struct OpenGate;

impl Gate for OpenGate {
    fn enter(&self, graph: &SharedGraph, caller: u32) {
        let _ = graph;
        let _ = caller;
    }
}
