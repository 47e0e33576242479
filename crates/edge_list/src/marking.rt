//! Marks: the counter of an edge's source is raised, and then the edge is marked.
//!
//! A scan that reads the counter of a vertex before and after its edges, and finds it the same, missed no mark. So the
//! counter is raised first. One raise is for each edge that was linked before it: an edge is marked or replaced, as
//! often as it's tried in one pass, after one raise.

ghost use Rattle.std.specs.Prelude.{◌≡◌, ◌<◌, List, true};
ghost use Rattle.core_journal.specs.Event.{raises};
ghost use Rattle.core_journal.specs.declared.event.Event.{Event};
ghost use Rattle.core_kept.specs.Counts.{made, most_raises};
ghost use Rattle.graph_table.specs.Tokens.{IsOf};
ghost use Rattle.edge_list.specs.EdgeMarks.{IsRaisedEdge, IsRaising, MatchEdgeMarked};
ghost use Rattle.edge_list.specs.EdgePositions.{IsSeenEdge};

use crate::edge::Edge;
use graph_table::{GraphTable, Token};
use packed_link::{Life, Link};
use std::marker::Model;

/// An edge for which the counter of its source was raised.
#[derive(Drop)]
pub struct Raised {
    pub(crate) source: Life,
    pub(crate) edge: Edge,
}

impl Model for Raised {
    ghost use Rattle.edge_list.specs.EdgeMarks.{RaisedValue};

    ghost Value = { RaisedValue };

    ghost view = { λ r. record { source = r.source; edge = r.edge } };
}

impl Raised {
    /// The edge's life, in O(1).
    pub fn life(&self) -> Life
        ensures life { result ≡ self.now.edge.life }
    {
        self.edge.life
    }
}

/// What became of marking an edge: this call marked it, the mark was there before, or another edge had replaced it.
#[derive(Clone, Copy, Debug, PartialEq, Eq)]
pub enum EdgeMarked {
    Won,
    Was,
    Replaced,
}

/// Raises the counter of a source for an edge of it that was found unmarked in this pass, in O(1): one step. The token
/// has made fewer than 2^38 raises.
pub fn raise(table: &GraphTable, token: &mut Token, from: Life, edge: &Edge) -> Raised
    requires table { IsOf table.now token.old }
    requires number { token.old.view.numbered ≡ true }
    requires seen { (moment : List Event) × IsSeenEdge token.old.view from edge.now moment }
    requires limit { made raises token.old.view.number token.old.view.front < most_raises }
    ensures table { IsOf table.now token.new }
    ensures raised { IsRaising from edge.now token.old.view token.new.view result }
{
    table.raise(token, from);
    Raised {
        source: from,
        edge: *edge,
    }
}

/// Marks an edge for which this pass raised the counter of its source, which takes its pair from the graph if both its
/// ends are in it, in O(1): one step, and at most one load if the mark was there. `Was` comes exactly if the mark was
/// set before and no edge replaced this one, and `Replaced` exactly if it was set before by a replacement: then the
/// link leads to an edge of the same key.
pub fn mark(table: &GraphTable, token: &mut Token, raised: &Raised) -> EdgeMarked
    requires table { IsOf table.now token.old }
    requires number { token.old.view.numbered ≡ true }
    requires raised { IsRaisedEdge token.old.view raised.now }
    ensures table { IsOf table.now token.new }
    ensures marked { MatchEdgeMarked result raised.now token.old.view token.new.view }
{
    let edge = raised.edge;
    let found = Link(table.mark_edge(token, edge.life));
    if !found.marked() {
        return EdgeMarked::Won;
    }
    let next = found.index();
    if next == 16_777_215 {
        return EdgeMarked::Was;
    }
    let layout = table.layout();
    let behind = table.load(token, layout.key_at(next));
    if behind == u64::from(edge.key) {
        EdgeMarked::Replaced
    } else {
        EdgeMarked::Was
    }
}
