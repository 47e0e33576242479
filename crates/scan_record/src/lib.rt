//! A region of fixed storage for one collected part of a graph: its rows, an answer and work room.
#![tactic(auto)]

mod back;
mod laws;
mod room;
mod rows;
mod scan;

pub use back::write_back;
pub use laws::{complete_scans_are_graphs, pushes_extend_the_graph, scan_graph_looked_up};
pub use rows::{EdgeRow, VertexRow};
pub use scan::Scan;
