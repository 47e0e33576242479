//! Changes of a bucket's list: a vertex is linked, marked or unlinked.

ghost use Rattle.std.specs.Prelude.{◌≡◌, true};
ghost use Rattle.packed_link.specs.Link.{index_of};
ghost use Rattle.core_rule.specs.Fronts.{MetVertex};
ghost use Rattle.core_stretches.specs.Holdings.{IsFilledAsVertex};
ghost use Rattle.graph_table.specs.Tokens.{IsOf};
ghost use Rattle.vertex_list.specs.Changes.{MatchLinked, MatchMarked, MatchUnlinked};
ghost use Rattle.vertex_list.specs.Positions.{IsAnyPosition, IsGap, LeadsToDead};

use crate::position::Position;
use graph_table::{Fresh, GraphTable, LinkTried, Spent, Token, UnlinkTried};
use packed_link::{Life, Link};
use std::snapshot::Snapshot;

/// What became of unlinking a marked vertex: it's spent with the token, and the walk goes on from the word that was
/// written; or another caller changed the word before it.
#[derive(Drop)]
pub enum Unlinked {
    Done(Spent, Position),
    Lost,
}

/// What became of linking a vertex: it's linked, or another caller changed the word before it, and the node is handed
/// back.
#[derive(Drop)]
pub enum Linked {
    Done(Life),
    Lost(Fresh),
}

/// What became of marking a vertex: this call marked it, or the mark was there before.
#[derive(Clone, Copy, Debug, PartialEq, Eq)]
pub enum Marked {
    Won,
    Was,
}

/// Unlinks the marked vertex to which a position leads, in O(1): one exchange on the word before it, and no load, for
/// the position keeps the vertex's link. After `Done` the position has the word that the exchange wrote, and its moment
/// is that of the exchange. `Lost` comes only where another caller changed the word since the position's load.
pub fn unlink(table: &GraphTable, token: &mut Token, position: Position) -> Unlinked
    requires table { IsOf table.now token.old }
    requires number { token.old.view.numbered ≡ true }
    requires position { IsAnyPosition token.old.view position }
    requires dead { LeadsToDead token.old.view position }
    ensures table { IsOf table.now token.new }
    ensures unlinked { MatchUnlinked result position token.old.view token.new.view }
{
    let Position {
        key,
        place,
        word,
        link,
        moment: _,
    } = position;
    let seen = Link(word);
    let index = seen.index();
    let link = Link(link);
    let dead = Life {
        index,
        tag: link.tag(),
    };
    let next = link.index();
    match table.unlink_vertex(token, place, seen, dead, next) {
        UnlinkTried::Won(spent) => {
            let moment = Snapshot::of(&*token);
            let word = Link::pack(next, false, seen.tag()).0;
            Unlinked::Done(
                spent,
                Position {
                    key,
                    place,
                    word,
                    link: 0,
                    moment,
                },
            )
        }
        UnlinkTried::Lost(_) => Unlinked::Lost,
    }
}

/// Links a vertex that was filled for a position at which its key is missing, in O(1): one exchange. `Lost` comes only
/// where another caller changed the word since the position's load.
pub fn link(table: &GraphTable, token: &mut Token, position: Position, fresh: Fresh) -> Linked
    requires table { IsOf table.now token.old }
    requires number { token.old.view.numbered ≡ true }
    requires gap { IsGap token.old.view position }
    requires filled { IsFilledAsVertex token.old.view position.key (index_of position.word) fresh }
    ensures table { IsOf table.now token.new }
    ensures linked { MatchLinked result position fresh token.old.view token.new.view }
{
    let Position {
        key: _,
        place,
        word,
        link: _,
        moment: _,
    } = position;
    match table.link_vertex(token, place, Link(word), fresh) {
        LinkTried::Won(life) => Linked::Done(life),
        LinkTried::Lost(fresh, _) => Linked::Lost(fresh),
    }
}

/// Marks a vertex that this pass met, which removes it from the graph, in O(1): one step. `Was` comes exactly where the
/// mark was set before.
pub fn mark(table: &GraphTable, token: &mut Token, life: Life) -> Marked
    requires table { IsOf table.now token.old }
    requires number { token.old.view.numbered ≡ true }
    requires vertex { MetVertex token.old.view life }
    ensures table { IsOf table.now token.new }
    ensures marked { MatchMarked result life token.old.view token.new.view }
{
    let found = Link(table.mark_vertex(token, life));
    if found.marked() {
        Marked::Was
    } else {
        Marked::Won
    }
}
