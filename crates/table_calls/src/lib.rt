//! Proved callers of the shared table: short sequences of calls, each of which meets the conditions of the next.
//!
//! They show that the conditions of the table's calls can be met. Nothing stands on this crate.
#![tactic(auto)]

mod calls;
mod closing;
mod cut_edges;
mod edges;
#[cfg(test)]
mod every_kind;
mod giving;
#[cfg(test)]
mod tests;
mod vertices;

pub use calls::{
    check_callers, close_pass, enter, fill_last, open_pass, see_free, split_off, store_key, take,
};
pub use closing::{close_list, freeze_first};
pub use cut_edges::{cut_in, prepare_replace, replace_in, see_cut};
pub use edges::{
    Edge, fill_edge, find_edge, link_edge_in, mark_in, prepare_edge, raise_first, raise_for,
};
pub use giving::{move_on, retire, store_ripe};
pub use vertices::{
    Dead, Gap, find_first, link_in, mark_first, prepare_behind, prepare_first, see_dead,
    see_dead_first, see_end, unlink_in,
};
