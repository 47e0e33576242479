//! Breadth-first answers on a scan: its levels, and the path by parents from row 0 to a key.
#![tactic(auto)]

mod all_levels;
mod goal;
mod laws;
mod queue;
mod search;
mod shortest;

pub use all_levels::levels;
pub use laws::reach_is_fixed_once_met;
pub use shortest::reach;

#[cfg(test)]
mod tests;
