//! Laws of marked sorted chains, as plain data: what a chain is, the steps that change one word of it, and what
//! a walk along it may conclude.
//!
//! A chain is said by a fact about gaps, place by place (`IsChain` of `specs/Chain.antt`), and not by a list;
//! that it is what one meets from its head by following the links is the law of `met`. Nothing here runs: each
//! function is a law, and its contract is what it says.
#![tactic(auto)]

mod met;
mod steps;
mod table;
mod walk;
mod worked;

pub use met::{a_chain_is_what_is_met, an_empty_head_is_a_chain};
pub use steps::{
    a_frozen_chain_rests, each_step_keeps_the_chain, freezing_keeps_the_chain,
    inserting_keeps_the_chain, marking_keeps_the_chain, replacing_keeps_the_chain,
    unlinking_keeps_the_chain, what_is_untouched_stays_a_chain,
};
pub use table::{one_write_is_one_step, other_chains_stay};
pub use walk::{
    a_key_that_is_passed_is_absent, nodes_behind_have_greater_keys, one_word_leads_to_a_node,
    the_rest_behind_a_word_is_a_chain,
};
pub use worked::{a_worked_chain, no_chains};
