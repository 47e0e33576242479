//! Runs the rows of all callers, each caller's on a thread of its own.
#![tactic(auto)]

mod drive;
mod lane;
mod run;
#[cfg(test)]
mod tests;

pub use lane::Lane;
pub use run::run_callers;
