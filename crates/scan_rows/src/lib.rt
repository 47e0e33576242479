//! Worked rows over the scan of the shared table: a part is recorded and verified, beside callers that mark and replace
//! its edges.
//!
//! Each function meets the conditions of the next one, so they show that the conditions of `collect` and `verify` can
//! be met. Nothing stands on this crate.
#![tactic(auto)]

mod changing;
mod looking;
#[cfg(test)]
mod tests;

pub use changing::{change_edge, join_in, mark_edge};
pub use looking::{check, find_root, look_at, record};
