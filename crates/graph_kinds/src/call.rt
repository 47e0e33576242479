//! The nine calls on a graph, and the row that asks for one of them.
//!
//! What a call answers and changes stands in `specs/Answer.antt`: `answer` and `after`.

/// A call on a graph. Keys are u32 numbers; a weight is at least 1 (`IsWellMade` in `specs/Answer.antt`).
#[derive(Debug, Drop, Clone, Copy, PartialEq, Eq)]
pub enum Call {
    /// Makes the key a vertex.
    AddVertex { key: u32 },
    /// Takes the vertex out, with each edge from it or to it.
    RemoveVertex { key: u32 },
    /// Asks whether the key is a vertex.
    HasVertex { key: u32 },
    /// Puts an edge of this weight where there is none, or gives the one that is there this weight.
    AddEdge { from: u32, to: u32, weight: u32 },
    /// Takes the edge out.
    RemoveEdge { from: u32, to: u32 },
    /// Asks for the edge and its weight.
    HasEdge { from: u32, to: u32 },
    /// Asks for a path of fewest edges.
    Reach { from: u32, to: u32 },
    /// Asks for the breadth-first levels from a vertex.
    Levels { from: u32 },
    /// Asks for a path of the least cost.
    Cheapest { from: u32, to: u32 },
}

/// A call, and the number of the caller that is to make it.
#[derive(Debug, Drop, Clone, Copy, PartialEq, Eq)]
pub struct Row {
    pub caller: u32,
    pub call: Call,
}

#[cfg(test)]
mod tests {
    use super::*;

    // What may be handed to another thread, and read by several at once.
    fn crosses_threads<T: Send + Sync>(value: T) -> T {
        value
    }

    #[test]
    fn a_row_is_send_and_sync(rt: HostRuntime) {
        let row = Row {
            caller: 3,
            call: Call::AddVertex { key: 7 },
        };
        assert_eq!(rt; crosses_threads(row), row);
    }
}
