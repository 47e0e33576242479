//! The text of a graph: the line of its keys, and a line for each edge.
//!
//! The maps have keys and edges in the order of the text, so each is written as it is met. Numbers and lines of edges
//! are spelled by `op_text`; what each piece comes to is its `Gives`.

ghost use Rattle.std.specs.Prelude.{ℕ, ◌≤◌, ◌++◌, OnOk, OnErr, codes, flat_map};
ghost use Rattle.std.specs.BTreeMap.{keys};
ghost use Rattle.graph_kinds.specs.Stream.{Rose, Puts, PutsSome};
ghost use Rattle.op_text.specs.Gives.{Gives};
ghost use Rattle.op_text.specs.Text.{line, spaced, edge_line, graph_text};
ghost use Rattle.plain_graph.specs.Kept.{pairs_from, pairs_in};

use crate::graph::PlainGraph;
use crate::maps::{Edges, Vertices};
use graph_kinds::Sink;
use op_text::{WriteFailed, give_edge_line, give_spaced, write_text};

impl PlainGraph {
    /// Gives the sink the text of the graph: the line `vertices` with each key by rising key, and then a line
    /// `edge a b w` for each edge by rising a and then rising b. O(V + E), takes no memory.
    ///
    /// # Errors
    /// `WriteFailed` only where the sink's count of faults rose; what the sink took is a prefix of the text.
    pub fn write_graph<K: Sink>(&self, sink: &mut K) -> Result<(), WriteFailed>
        ensures ok { OnOk result (Puts (K.taken sink.old) (K.taken sink.new) (graph_text self.now)) }
        ensures prefix { OnErr result (PutsSome (K.taken sink.old) (K.taken sink.new) (graph_text self.now)) }
        ensures rose { OnErr result (Rose (K.faults sink.old) (K.faults sink.new)) }
        ensures faults { K.faults sink.old ≤ K.faults sink.new }
    {
        give_graph(sink, self.vertices())
    }
}

/// The lines of the maps.
fn give_graph<K: Sink>(sink: &mut K, vertices: &Vertices) -> Result<(), WriteFailed>
    ensures { Gives K.taken K.faults sink.old sink.new
        (line (codes "vertices" ++ spaced (keys vertices.now)) ++ flat_map edge_line (pairs_in vertices.now)) result }
{
    give_keys(sink, vertices)?;
    give_edges(sink, vertices)
}

/// The line of the keys.
fn give_keys<K: Sink>(sink: &mut K, vertices: &Vertices) -> Result<(), WriteFailed>
    ensures { Gives K.taken K.faults sink.old sink.new (line (codes "vertices" ++ spaced (keys vertices.now))) result }
{
    give_text(sink, b"vertices")?;
    give_all_spaced(sink, vertices)?;
    give_text(sink, b"\n")
}

/// Each key after a space.
fn give_all_spaced<K: Sink>(sink: &mut K, vertices: &Vertices) -> Result<(), WriteFailed>
    ensures { Gives K.taken K.faults sink.old sink.new (spaced (keys vertices.now)) result }
{
    for key in vertices.keys() {
        give_spaced(sink, *key as u64)?;
    }
    Ok(())
}

/// The lines of all edges.
fn give_edges<K: Sink>(sink: &mut K, vertices: &Vertices) -> Result<(), WriteFailed>
    ensures { Gives K.taken K.faults sink.old sink.new (flat_map edge_line (pairs_in vertices.now)) result }
{
    for (from, edges) in vertices {
        give_edges_from(sink, *from, edges)?;
    }
    Ok(())
}

/// The lines of the edges out of a vertex.
fn give_edges_from<K: Sink>(sink: &mut K, from: u32, edges: &Edges) -> Result<(), WriteFailed>
    ensures { Gives K.taken K.faults sink.old sink.new (flat_map edge_line (pairs_from (from, edges.now))) result }
{
    for (to, weight) in edges {
        give_edge_line(sink, from, *to, *weight)?;
    }
    Ok(())
}

/// The text, with its contract in one record.
fn give_text<K: Sink>(sink: &mut K, text: &[u8]) -> Result<(), WriteFailed>
    ensures { Gives K.taken K.faults sink.old sink.new text.now result }
{
    write_text(sink, text)
}
