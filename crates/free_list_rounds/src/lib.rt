//! Two callers on threads of their own take nodes from the free list and give them back.
//!
//! A node that was taken comes back only after it was linked, marked, unlinked and buried, and after two moves of the
//! epoch. So a round of a caller does all of that once, on a key of its own. Nothing stands on this crate.
#![tactic(auto)]

mod growing;
mod resting;
mod rounds;
#[cfg(test)]
mod tests;
mod worker;

pub use growing::{build, clear};
pub use resting::settle;
pub use rounds::{rest, round, run, run_both, run_until};
pub use worker::{Worker, enter};
