//! An edge, as its words tell it.

use packed_link::Life;

/// An edge, as a walk finds it. Its source is that of the list. While it's linked no word of it changes but its link.
#[derive(Clone, Copy, Debug, PartialEq, Eq)]
pub struct Edge {
    /// Its own life.
    pub life: Life,
    /// The key of its target.
    pub key: u32,
    /// The life of its target.
    pub target: Life,
    /// Its weight, at least 1.
    pub weight: u32,
}
