//! Free nodes: a caller takes one for its next life, fills it, and gives a ripe one back.
//!
//! The free list is a stack whose word carries a tag that counts its changes (Treiber 1986). A node that is taken is in
//! a new life, one above that which it ended last, and no open pass may hold the old one: the rule of the table allows
//! the step for no other node (`core_kept::nodes_are_given_again_safely`).
#![tactic(auto)]

mod filling;
mod giving;
mod holding;
mod taking;

pub use filling::{fill_edge, fill_vertex};
pub use giving::{Given, give_back};
pub use holding::ripe_nodes_stay;
pub use taking::{Taken, take};
