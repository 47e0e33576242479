//! A caller with its graph, as a port.

ghost use Rattle.shared_graph.specs.Callers.{IsCallerOf};

use crate::caller::Caller;
use crate::graph::SharedGraph;

/// A caller with its graph: what answers its calls. The caller is one of the graph.
#[derive(Drop)]
pub struct GraphPort<'a> {
    pub(crate) graph: &'a SharedGraph,
    pub(crate) caller: Caller,
    ghost belongs: { IsCallerOf graph.now caller },
}
