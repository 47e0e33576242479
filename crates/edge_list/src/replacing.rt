//! Replacements: an edge gives way to one of another weight.
//!
//! One exchange on the edge's link marks it and leads to the new edge, so at each moment the pair has one of the two
//! weights.

ghost use Rattle.std.specs.Prelude.{◌≡◌, ◌≢◌, ◌≤◌, true};
ghost use Rattle.core_stretches.specs.Holdings.{IsHeldFresh};
ghost use Rattle.graph_table.specs.Tokens.{IsOf};
ghost use Rattle.edge_list.specs.EdgeMarks.{IsRaisedEdge, MatchEdgeReplaced};

use crate::marking::Raised;
use graph_table::{Fresh, GraphTable, LinkTried, Token};
use node_arena::fill_edge;
use packed_link::{Life, Link};

/// What became of replacing an edge: the new one is linked, or the edge's link was found marked, or another caller
/// changed it, and the node is handed back.
#[derive(Drop)]
pub enum EdgeReplaced {
    Done(Life),
    Lost(Fresh),
}

/// Replaces an edge by one of another weight, after this pass raised the counter of its source for it, in O(1): it
/// loads the edge's link, fills the node with four stores, and makes one exchange, which marks the edge and links the
/// new one behind it. The weight is at least 1. `Lost` comes only if the link that this call loaded is marked, or
/// another caller changed it after that.
pub fn replace(
    table: &GraphTable,
    token: &mut Token,
    raised: &Raised,
    fresh: Fresh,
    weight: u32,
) -> EdgeReplaced
    requires table { IsOf table.now token.old }
    requires number { token.old.view.numbered ≡ true }
    requires raised { IsRaisedEdge token.old.view raised.now }
    requires fresh { IsHeldFresh token.old.view fresh }
    requires weight { 1 ≤ weight }
    requires other { raised.now.edge.weight ≢ weight }
    ensures table { IsOf table.now token.new }
    ensures replaced { MatchEdgeReplaced result raised.now weight fresh token.old.view token.new.view }
{
    let edge = raised.edge;
    let layout = table.layout();
    let seen = Link(table.load(token, layout.link_at(edge.life.index)));
    if seen.marked() {
        return EdgeReplaced::Lost(fresh);
    }
    fill_edge(table, token, &fresh, edge.key, seen, edge.target, weight);
    match table.replace_edge(token, seen, edge.life, fresh) {
        LinkTried::Won(life) => EdgeReplaced::Done(life),
        LinkTried::Lost(fresh, _) => EdgeReplaced::Lost(fresh),
    }
}
