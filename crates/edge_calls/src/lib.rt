//! Proved callers of edge_list: one try each to add an edge, to remove it, and to change its weight.
//!
//! They show that the conditions of these calls can be met, each by what the calls before it told. Nothing stands on
//! this crate.
#![tactic(auto)]

mod calls;

pub use calls::{add, change, remove};
