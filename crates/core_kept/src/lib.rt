//! Kept journals: which event may come next in the journal of the shared table, and what holds of its words, nodes and
//! passes after each.
//!
//! A journal is kept where each of its events was allowed after those before it (`IsKept` of `specs/Kept.antt`), by the
//! condition of its kind. Each fact is a law of kept journals, proved by one induction. What needs the order of chains
//! stands in the crate above, core_lists. The crate has definitions and laws, and no code.
#![tactic(auto)]

mod graph;
mod journals;
mod made;
mod moments;
mod own;
mod reuse;
mod words;

pub use graph::{edges_have_ends, links_are_new};
pub use journals::kept_journals_grow;
pub use made::own_events_between_are_counted;
pub use moments::{
    a_marked_edge_was_linked, a_pass_is_one_stretch, the_word_of_a_bucket_is_unmarked,
};
pub use own::{callers_have_numbers, own_events_are_counted, own_facts_stay};
pub use reuse::{
    each_node_has_one_standing, nodes_are_given_again_safely, ripe_nodes_are_not_met,
    spent_nodes_stay_with_their_caller,
};
pub use words::{
    announcements_tell_passes, counters_count_raises, events_are_of_past_lives, first_words_count,
    free_list_is_exact, links_tell_states, lives_are_linked_once, marked_words_stay,
    no_number_wraps, nodes_keep_their_words, nodes_tell_their_lives, passes_are_near_the_epoch,
    ripe_nodes_ended_before_passes,
};
