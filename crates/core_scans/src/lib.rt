//! The laws of a scan: what a part of the graph that was recorded word by word was at one moment.
#![tactic(auto)]

mod collect;
mod queries;
mod same;
mod verify;
mod worked;

pub use collect::{
    collect_goes_on, collect_may_push, pushes_keep_lives, pushes_keep_rows,
    what_is_collected_is_inside,
};
pub use queries::{queries_are_answered_on_the_part, what_is_alive_later_was_present};
pub use same::{a_quiet_token_only_looks, same_means_one_moment, what_is_held_is_the_part};
pub use verify::{a_row_has_its_places, verify_goes_on, what_differs_was_changed};
pub use worked::{
    a_replaced_edge_is_passed_over, a_toggled_edge_differs, an_early_counter_tells_nothing,
};
