//! Cheapest paths on a scan: the least cost from row 0 to a key, and the path of that cost by the least keys.
#![tactic(auto)]

mod heap;
mod laws;
mod path;
mod search;

pub use laws::cheapest_is_fixed_once_settled;
pub use path::cheapest;

#[cfg(test)]
mod tests;
