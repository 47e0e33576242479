//! The line of an edge in the text of a graph.

ghost use Rattle.op_text.specs.Gives.{Gives};
ghost use Rattle.op_text.specs.Text.{edge_line};

use crate::write::{WriteFailed, give_spaced, give_text};
use graph_kinds::Sink;

/// Gives the sink the line of an edge, `edge a b w`. O(digits), takes no memory.
///
/// # Errors
/// `WriteFailed` only where the sink's count of faults rose; what the sink took is a prefix of the line.
pub fn give_edge_line<K: Sink>(
    sink: &mut K,
    from: u32,
    to: u32,
    weight: u32,
) -> Result<(), WriteFailed>
    ensures { Gives K.taken K.faults sink.old sink.new (edge_line ((from, to), weight)) result }
{
    give_text(sink, b"edge")?;
    give_spaced(sink, from as u64)?;
    give_spaced(sink, to as u64)?;
    give_spaced(sink, weight as u64)?;
    give_text(sink, b"\n")
}
