//! Worked journals: that no condition and no law of the core is empty, and what each of them comes to by hand.
//!
//! Nothing stands on this crate. Its definitions are journals written out event by event, with their words, graphs and
//! histories; its laws are computed.
#![tactic(auto)]

mod journals;
mod laws_alike;
mod laws_bounds;
mod laws_counts;
mod laws_graph;
mod laws_kept;
mod laws_lists;
mod laws_moments;
mod laws_others;
mod laws_tokens;
mod laws_views;
mod lifts;
mod replacements;
mod walks;

pub use journals::{
    a_node_has_two_lives, a_vertex_is_added, an_overtaken_edge_is_linked,
    nodes_are_linked_beside_others, wrong_events_are_refused,
};
pub use laws_alike::{
    worked_conditions_are_alike, worked_facts_are_alike, worked_stretches_add_up,
};
pub use laws_bounds::{
    worked_events_are_below_their_bounds, worked_raises_are_few, worked_replacements_are_counted,
    worked_replacements_leave_the_rest,
};
pub use laws_counts::{
    worked_events_are_few, worked_graphs_are_counted, worked_lives_go_one_way,
    worked_nodes_become_spent, worked_tables_are_swept,
};
pub use laws_graph::{
    worked_books_stay_true, worked_calls_are_overtaken, worked_events_change_the_graph,
};
pub use laws_kept::{worked_own_facts_stay, worked_words_tell_the_state};
pub use laws_lists::{
    worked_lists_are_closed, worked_met_nodes_keep_their_words, worked_replaced_edges_are_told,
};
pub use laws_moments::{
    a_worked_edge_comes_and_goes, a_worked_vertex_goes, worked_changes_are_counted,
    worked_lists_stay,
};
pub use laws_others::{worked_unlinks_take_away_no_more, worked_words_are_changed_by_another};
pub use laws_tokens::{
    worked_own_things_stay, worked_tables_keep_the_rule, worked_views_go_on, worked_words_are_shown,
};
pub use laws_views::{
    laws_of_moments_meet_a_worked_journal, laws_of_removal_meet_a_worked_journal,
    laws_of_stretches_meet_a_worked_journal, laws_of_words_meet_a_worked_journal,
};
pub use lifts::{
    a_token_may_lag_behind, a_token_may_make_each_step, a_token_may_step_beside_others,
};
pub use replacements::{an_edge_is_replaced, wrong_replacements_are_refused};
pub use walks::a_walk_goes_on_from_a_spent_vertex;
