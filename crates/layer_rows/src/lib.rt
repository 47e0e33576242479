//! Worked rows over the layers above the shared table: vertices and edges are added, and a removed vertex's list is
//! frozen edge by edge.
//!
//! Each function meets the conditions of the next one, so they show that the conditions of the layers' calls can be
//! met. Nothing stands on this crate.
#![tactic(auto)]

mod edges;
mod epochs;
mod passes;
mod removing;
#[cfg(test)]
mod tests;
mod vertices;

pub use edges::{add_edge, prepend_edge, see_front};
pub use epochs::{leave, move_on, take_ripe};
pub use passes::{begin_pass, end_pass, renew};
pub use removing::{bury_alone, remove};
pub use vertices::{add_vertex, begin, look_for};
