//! One won step on one word of the shared table. No code makes a value of it: it is seen by contracts.

use packed_link::Life;

/// What a won step does. Loads, lost exchanges, and marks on words that were marked before are no events. The kinds are
/// the steps of lists with marks (Harris 2001, Michael 2002), of epochs (Fraser 2004) and of a free list (Treiber
/// 1986).
pub enum Kind {
    /// A caller draws its number.
    DrawNumber,
    /// A caller takes the first free node, for a new life.
    PopFree,
    /// A caller stores to a word of the node that it took.
    StorePrivate,
    /// A vertex is linked into the chain of its bucket.
    LinkVertex,
    /// A vertex is marked: it is removed.
    MarkVertex,
    /// A marked vertex is taken off its chain.
    UnlinkVertex,
    /// An edge is linked into the list of its source.
    LinkEdge,
    /// The counter of a vertex is raised before an edge of it is marked.
    Raise,
    /// An edge is marked: it is removed.
    MarkEdge,
    /// A marked edge is taken off its list.
    UnlinkEdge,
    /// An edge is marked, and the edge that replaces it is linked behind it.
    ReplaceEdge,
    /// A caller opens a pass and announces the epoch that it loaded.
    Announce,
    /// A caller closes its pass.
    Withdraw,
    /// The epoch is moved on by one.
    MoveEpoch,
    /// The list of an unlinked vertex is closed at its head.
    FreezeHead,
    /// An edge on a closed list is marked.
    FreezeEdge,
    /// A spent node's link is stored for the free list.
    StoreFree,
    /// A spent node is given back to the free list.
    PushFree,
}

/// A won step: the number of its caller, the place and the new content of its word, and the life that it is
/// about. A link event also holds the key, and for an edge its source and target lives and its weight; where the edge
/// replaces another, also that one's life.
pub struct Event {
    pub caller: u32,
    pub kind: Kind,
    pub place: u32,
    pub word: u64,
    pub life: Life,
    pub key: u32,
    pub source: Life,
    pub target: Life,
    pub weight: u32,
    pub old: Life,
}
