//! The two kinds of row of a scan: what was seen of a vertex, and what was seen of an edge.
//!
//! A row keeps the words that were read, so that a later pass can tell whether they still stand.

use packed_link::Life;

/// A vertex as it was seen. `counter` and `head` are its words when its edges were started; its edges stand
/// at `count` places from `first` on. The four are 0 until then.
#[derive(Clone, Copy, Debug, PartialEq, Eq)]
pub struct VertexRow {
    pub life: Life,
    pub key: u32,
    pub counter: u64,
    pub head: u64,
    pub first: u32,
    pub count: u32,
}

/// An edge as it was seen: its life, its link word, the key that it leads to, its weight, and the number of
/// the vertex row that it leads to, where it leads to one.
#[derive(Clone, Copy, Debug, PartialEq, Eq)]
pub struct EdgeRow {
    pub life: Life,
    pub link: u64,
    pub key: u32,
    pub weight: u32,
    pub target: Option<u32>,
}
