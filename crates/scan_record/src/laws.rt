//! Laws of the graph of a scan: each is a function that does nothing, and its contract is the law.
//!
//! A search over the rows of a complete scan (`IsComplete` of `specs/Scan.antt`) is by them a search over its
//! graph.

ghost use Rattle.std.specs.Prelude.{◌≡◌, ℕ, ◌-◌, ◌<◌, ◌≤◌, ◌==◌, Some, None, length};
ghost use Rattle.std.specs.List.{list_any};
ghost use Rattle.graph_kinds.specs.declared.call.Call.TheVariants.{AddVertex, AddEdge};
ghost use Rattle.graph_kinds.specs.Answer.{change};
ghost use Rattle.packed_link.specs.declared.link.Life.{Life};
ghost use Rattle.scan_record.specs.declared.rows.EdgeRow.{EdgeRow};
ghost use Rattle.graph_kinds.specs.Graph.{IsGraph, empty_graph, has, neighbours, weight_of};
ghost use Rattle.scan_record.specs.Scan.{ScanValue, IsScan, IsComplete, row_at, edges_of, empty_scan, with_vertex};
ghost use Rattle.scan_record.specs.Scan.{with_started, with_edge};
ghost use Rattle.scan_record.specs.ScanGraph.{graph_of_scan, target_keys, weight_to};

use graph_kinds::neighbours_rise;

/// A key of the graph of a scan is the key of a vertex row. Where the scan is complete, the pairs from the
/// key of a row are its edges that have a target, and its out-neighbours are their keys in order.
pub fn scan_graph_looked_up()
    ensures keys { (s : ScanValue) (key : ℕ)
        → has (graph_of_scan s) key ≡ list_any (λ row. row.key == key) s.rows }
    ensures weights { (s : ScanValue) (k key : ℕ) → IsScan s → IsComplete s → k < length s.rows
        → weight_of (graph_of_scan s) (row_at s k).key key ≡ weight_to key (edges_of s (row_at s k)) }
    ensures neighbours { (s : ScanValue) (k : ℕ) → IsScan s → IsComplete s → k < length s.rows
        → neighbours (graph_of_scan s) (row_at s k).key ≡ target_keys (edges_of s (row_at s k)) }
{
    neighbours_rise();
}

/// What each push does to the graph of a scan: a vertex row brings its key, a start nothing, an edge with a
/// target its pair, where that isn't there yet, and an edge without one nothing. An empty scan has the empty
/// graph.
pub fn pushes_extend_the_graph()
    ensures empty { (nodes : ℕ) → graph_of_scan (empty_scan nodes) ≡ empty_graph }
    ensures vertex { (s : ScanValue) (life : Life) (key : ℕ) → IsScan s
        → graph_of_scan (with_vertex s life key) ≡ change (graph_of_scan s) (AddVertex key) }
    ensures started { (s : ScanValue) (k counter head : ℕ) → IsScan s → k < length s.rows → s.next ≤ k
        → graph_of_scan (with_started s k counter head) ≡ graph_of_scan s }
    ensures edge { (s : ScanValue) (edge : EdgeRow) (t : ℕ) → IsScan s → 0 < s.next → edge.target ≡ Some t
        → t < length s.rows
        → weight_of (graph_of_scan s) (row_at s (s.next - 1)).key (row_at s t).key ≡ None
        → graph_of_scan (with_edge s edge) ≡ change (graph_of_scan s)
        (AddEdge (row_at s (s.next - 1)).key (row_at s t).key edge.weight) }
    ensures edge_without_target { (s : ScanValue) (edge : EdgeRow) → IsScan s → 0 < s.next
        → edge.target ≡ None → graph_of_scan (with_edge s edge) ≡ graph_of_scan s }
{}

/// The graph of a complete scan is a graph: both ends of each pair are keys, and its weight is at least 1.
pub fn complete_scans_are_graphs()
    ensures { (s : ScanValue) → IsScan s → IsComplete s → IsGraph (graph_of_scan s) }
{}
