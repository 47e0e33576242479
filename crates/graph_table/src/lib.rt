//! The shared table: one call for each kind of step on its words.
//!
//! Callers share one table of words and change one word at a time. Each call is one step of `atomic_table`: it owes
//! that its event is allowed wherever the step wins, and it tells its token where the event stands in the journal
//! (`specs/Table.antt`). Between any two steps the words are those of the machine after a kept journal, and the front
//! of each token is a prefix of it: that is the rule of the one table (`Ruled` of core_rule).
#![tactic(auto)]

mod answers;
mod closed_lists;
mod edges;
mod free_nodes;
mod held;
mod laws;
mod opening;
mod passes;
mod rule;
mod table;
#[cfg(test)]
mod tests;
mod tokens;
mod vertices;

pub use answers::{Field, LinkTried, Popped, PushTried, Tried, UnlinkTried};
pub use graph_kinds::Memory;
pub use held::{Fresh, Ripe, Spent};
pub use laws::an_edge_is_linked_as_it_was_filled;
pub use table::{GraphTable, Token};
