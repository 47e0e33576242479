//! The journal of all events of the shared table, and what it means: words, lives, the graph, one history of
//! all callers.
//!
//! An event is one won step on one word. Definitions over the list of all events say what the table holds
//! (`specs/Machine.antt`, `specs/State.antt`), which graph that is (`specs/GraphOf.antt`), and which history
//! its callers' books give (`specs/History.antt`). The crate has definitions and laws, and no code.
#![tactic(auto)]

mod book;
mod changes;
mod event;
mod foreign;
mod history;
mod lives;
mod overtaken;
mod passing;
mod words;
mod worked;

pub use book::Book;
pub use changes::{kinds_change_the_graph, rows_are_regular, the_graph_is_of_lives};
pub use event::{Event, Kind};
pub use foreign::foreign_events_add_up;
pub use history::{
    a_call_extends_its_book, books_of_fronts_stay, closed_history_interleaves,
    closed_history_is_answered, history_is_in_order, history_is_legal, history_keeps_orders,
};
pub use lives::{
    fronts_are_journals, links_are_found, marks_and_links_stay, prefixes_chain, reuse_goes_on,
};
pub use overtaken::overtaking_has_two_cases;
pub use passing::{
    a_mark_has_its_first_event, own_changes_are_counted, passing_events_are_counted,
    some_event_is_first,
};
pub use words::{events_change_the_state, events_write_their_words};
pub use worked::{
    a_closed_list_is_handed_over, a_late_edge_is_legal, a_second_life_is_safe,
    an_overtaken_edge_is_legal, eight_events_write_these_words,
};
