//! What a call is answered, without the keys that some answers carry.

/// The outcome of a call. Weights are 1 to 4,294,967,295 and stand as 0 for a vertex; a cost is a sum of
/// weights and stays below 2^48.
///
/// The last four come from a shared graph alone: `Overtaken`, where the call won its exchange on an edge
/// and one of the edge's vertices was removed before the call ended; `Full`, where no node is free and
/// the add would add; `Again`, where the call lost as many tries as it was given; `Worn`, where the
/// caller has used up its uses.
#[derive(Debug, Drop, Clone, Copy, PartialEq, Eq)]
pub enum Outcome {
    /// The vertex or the edge was added.
    Added,
    /// The vertex to be added is there, or the edge, with this weight.
    Present(u32),
    /// The edge is there with another weight, this one, and got the new one.
    Changed(u32),
    /// The vertex was removed, or the edge, which had this weight.
    Removed(u32),
    /// There is no such vertex to be removed.
    Absent,
    /// There is such a vertex.
    Yes,
    /// There is no such vertex.
    No,
    /// There is such an edge, with this weight.
    Edge(u32),
    /// A key that the call names is no vertex.
    NoVertex,
    /// There is no such edge, between two vertices.
    NoEdge,
    /// A path leads there: the answer has its keys.
    Path,
    /// A cheapest path leads there at this cost: the answer has its keys.
    Cost(u64),
    /// No path leads there.
    NoPath,
    /// There are so many levels: the answer has their keys and ends.
    Levels(u32),
    /// The call won on an edge, and a vertex of that edge was removed meanwhile.
    Overtaken,
    /// The call would add, and no node is free.
    Full,
    /// The call lost all tries that it was given.
    Again,
    /// The caller has used up its uses.
    Worn,
}
