//! Laws of epochs, passes and the free list, as plain data: what an announcement tells, how far the epoch may run ahead
//! of an open pass, when a node may be given back, and why a node that is taken is the one that was seen.
//!
//! A moment is a `Clock` with the ends of lives beside it, or a `Pool` of free nodes; a step is a fact of two moments.
//! Nothing here runs: each function is a law, and its contract is what it says.
#![tactic(auto)]

mod ends;
mod free;
mod passes;
mod worked;

pub use ends::{
    a_ripe_node_ended_before_passes, each_run_is_safe, ends_are_in_the_past,
    ends_stand_beside_passes,
};
pub use free::{a_first_node_is_free, an_unchanged_word_keeps_its_link, the_free_list_is_exact};
pub use passes::{
    a_checked_caller_is_clear, each_step_keeps_the_announcements, passes_stay_near,
    the_epoch_only_rises,
};
pub use worked::{a_worked_free_list, a_worked_run, an_unchecked_move_is_unsafe};
