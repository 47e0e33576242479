//! What one caller does to the shared graph, call by call.
//!
//! A hand holds what a caller has between its calls. A call begins by opening a pass, walks and helps, and ends by
//! closing the pass, giving back what is ripe, and its reply.
#![tactic(auto)]

mod adding;
mod burying;
mod calls;
mod edge_adding;
mod edge_linking;
mod edge_locating;
mod edge_looking;
mod edge_removing;
mod ending;
mod hand;
mod laws;
mod locating;
mod opening;
mod pair_calls;
mod pairs;
mod removing;
mod replying;
#[cfg(test)]
mod tests;

pub use burying::bury;
pub use calls::{add_vertex, has_vertex, remove_vertex};
pub use edge_locating::{EdgeSought, seek_edge};
pub use ending::{Begun, Settled, begin, finish, settle};
pub use hand::Hand;
pub use laws::{
    a_split_leaves_a_hand, hands_in_order_have_a_legal_history,
    hands_in_order_leave_no_edge_of_a_spent_vertex,
};
pub use locating::{Located, Sought, locate, seek};
pub use opening::{HandCause, HandRefused};
pub use pair_calls::{add_edge, has_edge, remove_edge};
