//! Worked rows over hands: what one hand does, what two do on one thread and on two, and what comes back of the nodes.
//!
//! Each function meets the conditions of the calls on hands, so they show that these can be met. Nothing stands on this
//! crate.
#![tactic(auto)]

mod lent;
mod pairs;
#[cfg(test)]
mod tests;
mod turns;

pub use lent::{enter, link_prepared, look, mark_or_answer, prepare};
pub use pairs::{pair, split};
pub use turns::{Turns, count_there, take_both, take_turns};
