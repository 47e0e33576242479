//! Chains and lists over kept journals: what stands on the chain of each bucket and on the list of each vertex, what an
//! event of each kind does to them and to the graph, and what a walk meets.
//!
//! A chain is said as core_chain says it, over the words of the table (`specs/Chains.antt`). Keys rise along a chain,
//! and two neighbours have one key only where they are edges, the first is marked, and the second replaced it. The
//! crate has definitions and laws, and no code.
#![tactic(auto)]

mod buckets;
mod changed;
mod effects;
mod frozen;
mod graph;
mod lists;
mod marks;
mod own;
mod raises;
mod replacements;
mod reuse;
mod uncounted;
mod walks;

pub use buckets::{
    a_link_tells_whether_a_vertex_is_present, a_present_vertex_is_on_its_chain,
    buckets_hold_their_vertices, one_present_vertex_has_a_key,
};
pub use changed::a_changed_word_was_changed_by_another;
pub use effects::{each_kind_has_its_effect, kept_journals_are_regular};
pub use frozen::{a_freezing_leaves_the_graph, a_frozen_path_meets_the_list};
pub use graph::{a_kept_journal_has_a_graph, a_pair_is_the_one_edge_between_two_lives};
pub use lists::{
    a_present_edge_is_on_its_list, closed_lists_stay, frozen_parts_are_handed_over,
    linked_edges_are_at_their_source, lists_hold_their_edges, one_edge_has_a_pair,
};
pub use marks::marks_take_away_what_they_mark;
pub use own::{
    a_caller_fills_one_node, a_new_number_has_nothing, each_event_changes_its_node,
    each_event_keeps_the_rest,
};
pub use raises::{few_edges_are_linked, marked_edges_were_linked_at_a_lower_counter};
pub use replacements::a_marked_link_tells_whether_its_edge_was_replaced;
pub use reuse::{spent_nodes_become_ripe, what_is_met_keeps_its_words};
pub use uncounted::{own_unlinks_take_away_no_more, uncounted_events_change_no_list};
pub use walks::{a_walk_meets_what_its_pass_may_hold, spent_nodes_lead_no_further_back};
