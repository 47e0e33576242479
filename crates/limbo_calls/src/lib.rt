//! Proved callers of node_arena and epoch_limbo, and the tests of both: a vertex is added, removed, retired and given
//! back while another caller has a pass.
//!
//! They show that the conditions of the calls can be met. Nothing stands on this crate.
#![tactic(auto)]

mod adding;
mod burying;
mod moving;
#[cfg(test)]
mod tests;

pub use adding::{add_first, close, open, take_edge};
pub use burying::{bury_first, close_list, find_first, unlink_first};
pub use moving::{move_on, take_ripe};
