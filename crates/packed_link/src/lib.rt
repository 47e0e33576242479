//! The words of the shared table: a link packed into one word, and the place of each word.
//!
//! A link names one life of a node, by its index and its tag, beside one mark; what is packed reads back
//! (`specs/Link.antt`). The layout gives each word a place of its own (`specs/Layout.antt`).
#![tactic(auto)]

mod layout;
mod link;

pub use layout::{Layout, places_differ};
pub use link::{Life, Link, marking_sets_one_bit, none_names_no_node, packed_links_differ};
