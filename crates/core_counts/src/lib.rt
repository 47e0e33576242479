//! Laws of counts over kept journals: how often each life goes through each of its stages, what follows for sums, how
//! many nodes the graph has, and how a caller gets spent nodes.
//!
//! The crate has definitions and laws over plain values, and no code that runs.
#![tactic(auto)]

mod nodes;
mod spending;
mod sweeping;
mod totals;

pub use nodes::{all_nodes_are_of_the_graph, an_empty_list_has_no_free_node, the_graph_is_counted};
pub use spending::{
    a_caller_knows_what_it_got, a_caller_without_events_has_nothing, nodes_become_spent,
};
pub use sweeping::{
    a_full_table_is_all_graph, clean_edges_stay, clean_vertices_stay, full_is_exact_for_one_caller,
};
pub use totals::{
    counted_events_are_few, each_life_goes_one_way, fewer_of_each_life_are_fewer, raises_are_done,
    raises_stay_apart, sums_over_books, sums_over_callers,
};
