//! Proved callers of vertex_list: vertices are added to a bucket, found, marked, unlinked and stepped through.
//!
//! They show that the conditions of these calls can be met, also those of a link behind a node that was filled in
//! between. Nothing stands on this crate.
#![tactic(auto)]

mod calls;
#[cfg(test)]
mod tests;

pub use calls::{add, first, forward, look_again, open, pass_by, prepare, remove, seek};
