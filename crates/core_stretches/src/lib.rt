//! Stretches of a token's steps: what it made from one of its views to a later one, and what that leaves.
//!
//! A call of the layers above says all that it did by one list, that of its token's own events (`Makes` of
//! `specs/Makes.antt`). The laws here tell from the list what the call kept: the pass, the graph, the words of fresh
//! nodes, the spent and retired ones, and how often it did what. A walk goes along a list from loaded word to loaded
//! word: the laws of walks serve the lists of buckets and those of sources alike. The crate has definitions and laws,
//! and no code.
#![tactic(auto)]

mod holdings;
mod stretches;
mod walks;

pub use holdings::{fresh_nodes_stay, nodes_that_were_got_are_known, spent_nodes_stay};
pub use stretches::{own_events_follow_one_another, own_events_tell};
pub use walks::{
    a_key_that_a_loaded_word_passes_was_absent, loaded_words_go_on, loaded_words_lead_on,
};
