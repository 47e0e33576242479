//! What the steps of the table answer.
//!
//! A step that expects a word wins where it finds that word, and then it made its event. Else it lost, made none, and
//! answers the word that it found. A step that takes a node hands it back where it lost.

use crate::held::{Fresh, Ripe, Spent};
use packed_link::Life;

/// What became of an exchange.
#[derive(Debug, Drop, Clone, Copy)]
pub enum Tried {
    /// The word was the one expected, and is the new one.
    Won,
    /// Another word was found: this one.
    Lost(u64),
}

/// What became of taking a node.
#[derive(Debug, Drop)]
pub enum Popped {
    /// The node was taken.
    Won(Fresh),
    /// The free list's word was another one: this one.
    Lost(u64),
}

/// What became of linking a node.
#[derive(Debug, Drop)]
pub enum LinkTried {
    /// The node is linked, in this life.
    Won(Life),
    /// Another word was found; the node is as fresh as before.
    Lost(Fresh, u64),
}

/// What became of unlinking a node.
#[derive(Debug, Drop)]
pub enum UnlinkTried {
    /// The node is unlinked, and spent with the token that did it.
    Won(Spent),
    /// Another word was found: this one.
    Lost(u64),
}

/// What became of giving a node back.
#[derive(Debug, Drop)]
pub enum PushTried {
    /// The node is the first of the free list.
    Won,
    /// The free list's word was another one; the node is as ripe as before.
    Lost(Ripe, u64),
}

/// One of the four words of a node.
#[derive(Debug, Drop, Clone, Copy)]
pub enum Field {
    /// The key.
    Key,
    /// The link to the next node.
    Link,
    /// A vertex's link to its first edge, or an edge's target.
    Second,
    /// A vertex's counter of edge changes, or an edge's weight.
    Third,
}
