//! The rule of the one table: its words are those of a kept journal, and each token's view fits that journal.
//!
//! What a token knows by its front is a condition a kind (`specs/Fronts.antt`); a lift makes its step allowed wherever
//! the step wins, so the step owes no more (`specs/Owes.antt`) and tells its token where it stands in the journal
//! (`specs/Plays.antt`). The layers above cite the laws of views first. The crate has definitions and laws, and no
//! code.
#![tactic(auto)]

mod lifts;
mod lists;
mod raises;
mod retired;
mod rule;
mod stretches;
mod view;
mod views;
mod words;

pub use lifts::{
    steps_on_closed_lists_are_allowed, steps_on_edges_are_allowed, steps_on_free_nodes_are_allowed,
    steps_on_passes_are_allowed, steps_on_vertices_are_allowed,
};
pub use lists::{a_closed_list_is_a_list, frozen_words_stay};
pub use raises::a_raise_is_for_edges_linked_before;
pub use retired::{a_limbo_has_room, an_edge_behind_a_frozen_word_stays, retired_nodes_stay};
pub use rule::{
    a_draw_keeps_the_rule, a_last_token_knows_the_journal, a_new_table_meets_the_rule,
    a_reply_keeps_the_rule, a_token_of_all_callers_knows_the_journal,
    splits_and_joins_keep_the_rule, steps_keep_the_rule,
};
pub use stretches::{
    a_view_goes_on_between, conditions_of_a_front_are_alike, facts_of_a_front_are_alike,
    loaded_numbers_are_low, own_events_add_up, own_spent_nodes_are_a_measure,
};
pub use view::View;
pub use views::{
    a_later_view_has_met_it, a_passed_key_is_absent, a_step_keeps_what_is_the_tokens_own,
    a_view_goes_on, a_word_leads_to_what_is_met, the_words_of_a_met_node_tell_its_life,
};
pub use words::{own_words_stay_by_kind, second_words_tell};
