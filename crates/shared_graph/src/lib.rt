//! One graph that callers share, each on a thread of its own.
//!
//! Contracts see a caller as its hand, with the keys and level ends of its last answer; and the graph as its table.
//! What a caller has seen of the journal is its front.
#![tactic(auto)]

mod caller;
mod closing;
mod gathering;
mod graph;
mod hands;
mod laws;
mod opening;
mod port;
mod port_calls;
mod reading;

pub use caller::Caller;
pub use closing::CloseMemory;
pub use graph::{Note, SharedGraph};
pub use graph_updates::Settled;
pub use laws::callers_by_number_are_all;
pub use port::GraphPort;

#[cfg(test)]
mod tests;
