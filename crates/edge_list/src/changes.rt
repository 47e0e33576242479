//! Changes of a source's list: an edge is linked or unlinked.

ghost use Rattle.std.specs.Prelude.{◌≡◌, ℕ, true};
ghost use Rattle.packed_link.specs.declared.link.Life.{Life};
ghost use Rattle.graph_table.specs.Tokens.{IsOf};
ghost use Rattle.edge_list.specs.EdgeChanges.{MatchEdgeLinked, MatchEdgeUnlinked};
ghost use Rattle.edge_list.specs.EdgePositions.{IsAnyEdgePosition, IsFilledForGap, IsGapOfEdge, LeadsToDeadEdge};

use crate::position::EdgePosition;
use graph_table::{Fresh, GraphTable, LinkTried, Spent, Token, UnlinkTried};
use packed_link::{Life, Link};
use std::snapshot::Snapshot;

/// What became of unlinking a marked edge: it's spent with the token, and the walk goes on from the word that was
/// written; or another caller changed the word before it.
#[derive(Drop)]
pub enum EdgeUnlinked {
    Done(Spent, EdgePosition),
    Lost,
}

/// What became of linking an edge: it's linked, or another caller changed the word before it, and the node is handed
/// back.
#[derive(Drop)]
pub enum EdgeLinked {
    Done(Life),
    Lost(Fresh),
}

/// Unlinks the marked edge to which a position leads, in O(1): one exchange on the word before it, and no load, for the
/// position keeps the edge's link. After `Done` the position has the word that the exchange wrote, and its moment is
/// that of the exchange; the edge stands on no list, so it may be retired. `Lost` comes only if another caller
/// changed the word since the position's load.
pub fn unlink(table: &GraphTable, token: &mut Token, position: EdgePosition) -> EdgeUnlinked
    requires table { IsOf table.now token.old }
    requires number { token.old.view.numbered ≡ true }
    requires position { IsAnyEdgePosition token.old.view position }
    requires dead { LeadsToDeadEdge token.old.view position }
    ensures table { IsOf table.now token.new }
    ensures unlinked { MatchEdgeUnlinked result position token.old.view token.new.view }
{
    let EdgePosition {
        source,
        key,
        place,
        word,
        link,
        moment: _,
    } = position;
    let seen = Link(word);
    let index = seen.index();
    let link = Link(link);
    let dead = Life {
        index,
        tag: link.tag(),
    };
    let next = link.index();
    match table.unlink_edge(token, place, seen, dead, next) {
        UnlinkTried::Won(spent) => {
            let moment = Snapshot::of(&*token);
            let word = Link::pack(next, false, seen.tag()).0;
            EdgeUnlinked::Done(
                spent,
                EdgePosition {
                    source,
                    key,
                    place,
                    word,
                    link: 0,
                    moment,
                },
            )
        }
        UnlinkTried::Lost(_) => EdgeUnlinked::Lost,
    }
}

/// Links an edge that was filled for a position at which its key is missing, in O(1): one exchange. Its target was met
/// in this pass and has the position's key. `Lost` comes only if another caller changed the word since the
/// position's load.
pub fn link(
    table: &GraphTable,
    token: &mut Token,
    position: EdgePosition,
    fresh: Fresh,
) -> EdgeLinked
    requires table { IsOf table.now token.old }
    requires number { token.old.view.numbered ≡ true }
    requires gap { IsGapOfEdge token.old.view position }
    requires filled { (target : Life) × (weight : ℕ) × IsFilledForGap token.old.view position target weight fresh }
    ensures table { IsOf table.now token.new }
    ensures linked { (target : Life) (weight : ℕ) → IsFilledForGap token.old.view position target weight fresh
        → MatchEdgeLinked result position target weight fresh token.old.view token.new.view }
{
    let EdgePosition {
        source: _,
        key: _,
        place,
        word,
        link: _,
        moment: _,
    } = position;
    match table.link_edge(token, place, Link(word), fresh) {
        LinkTried::Won(life) => EdgeLinked::Done(life),
        LinkTried::Lost(fresh, _) => EdgeLinked::Lost(fresh),
    }
}
