//! The lists of edges: one sorted chain for each vertex, behind its second word.
//!
//! A walk goes from unmarked word to unmarked word, a marked edge is unlinked by whoever comes by, and an edge is
//! linked by one exchange on the unmarked word before it (Harris 2001, Michael 2002). Before an edge is marked or
//! replaced, the counter of its source is raised. The caller that unlinked a vertex marks its second word, so that no
//! edge is linked there any more, and then the link of each edge in turn, also of those that were marked before; each
//! is handed over to it. Behind a frozen word nothing is linked, so the list has an end.
#![tactic(auto)]

mod changes;
mod edge;
mod freezing;
mod laws;
mod marking;
mod position;
mod replacing;
mod walks;

pub use changes::{EdgeLinked, EdgeUnlinked, link, unlink};
pub use edge::Edge;
pub use freezing::{Frozen, freeze_head, freeze_next};
pub use laws::{
    edge_positions_go_on, edge_positions_stand_apart, edges_are_handed_over_once, edges_tell_pairs,
    found_edges_go_on, frozen_words_stay_over_stretches,
};
pub use marking::{EdgeMarked, Raised, mark, raise};
pub use position::EdgePosition;
pub use replacing::{EdgeReplaced, replace};
pub use walks::{EdgeFound, EdgeSighting, EdgeStepped, Started, start, step, walk};
