//! The steps on edges.
//!
//! The edges of a vertex are a sorted chain behind its second word. The vertex counts the changes of its edges: its
//! counter is raised before an edge is marked or replaced, so that a scan which finds the counter unchanged missed no
//! such change.

ghost use Rattle.std.specs.Prelude.{◌≡◌, true};
ghost use Rattle.packed_link.specs.Layout.{link_at, third_at};
ghost use Rattle.packed_link.specs.declared.link.Life.{Life};
ghost use Rattle.core_rule.specs.Fronts.{MayMarkEdge, MayRaise, MayUnlinkEdge};
ghost use Rattle.core_rule.specs.OwnEvents.{mark_edge_event, raise_event, unlink_edge_event};
ghost use Rattle.core_rule.specs.Plays.{Won};
ghost use Rattle.graph_table.specs.Tokens.{IsOf};
ghost use Rattle.graph_table.specs.Table.{MatchLink, MatchMark, MatchUnlink};
ghost use Rattle.graph_table.specs.Filled.{MayLinkFilledEdge, MayReplaceByFilled, filled_edge_event, replaced_event};

use crate::answers::{LinkTried, UnlinkTried};
use crate::held::{Fresh, Spent};
use crate::table::{GraphTable, Token};
use packed_link::{Life, Link};
use std::marker::Brand;

impl GraphTable {
    /// Links a filled edge behind the word at a place, where that is still `seen`, in O(1): the second word of its
    /// source, or the link of an edge of it that this pass met. `Lost` comes where another word is there, with the
    /// node.
    pub fn link_edge(&self, token: &mut Token, place: u32, seen: Link, fresh: Fresh) -> LinkTried
        requires table { IsOf self.now token.old }
        requires number { token.old.view.numbered ≡ true }
        requires may { MayLinkFilledEdge token.old.view place seen.0 fresh }
        ensures tried { MatchLink result token.old.view place seen.0 fresh
            (filled_edge_event token.old.view place seen.0 fresh) token.new.view }
        ensures table { IsOf self.now token.new }
    {
        let life = fresh.life;
        let expected = seen.0;
        let new = Link::pack(life.index, false, seen.tag()).0;
        let found = self.exchange::<Brand>(token, place, expected, new, life, life, 0);
        if found == expected {
            LinkTried::Won(life)
        } else {
            LinkTried::Lost(fresh, found)
        }
    }

    /// Raises the counter of a vertex by one, of which this pass met an edge that wasn't marked, in O(1). Answers the
    /// counter as it was. The step is an event whatever it finds.
    pub fn raise(&self, token: &mut Token, from: Life) -> u64
        requires table { IsOf self.now token.old }
        requires number { token.old.view.numbered ≡ true }
        requires may { MayRaise token.old.view from }
        ensures raised { Won token.old.view (third_at self.now.sizes from.index) result
            (raise_event token.old.view from result) token.new.view }
        ensures table { IsOf self.now token.new }
    {
        let place = self.layout.third_at(from.index);
        self.add_one::<Brand>(token, place, from)
    }

    /// Marks the link of an edge that this pass met, in O(1), after the token raised the counter of its source in this
    /// pass. Answers the word as it was: the step made an event exactly where that has no mark.
    pub fn mark_edge(&self, token: &mut Token, life: Life) -> u64
        requires table { IsOf self.now token.old }
        requires number { token.old.view.numbered ≡ true }
        requires may { (source : Life) × MayMarkEdge token.old.view source life }
        ensures marked { MatchMark token.old.view (link_at self.now.sizes life.index) result
            (mark_edge_event token.old.view life result) token.new.view }
        ensures table { IsOf self.now token.new }
    {
        let place = self.layout.link_at(life.index);
        self.set_mark::<Brand>(token, place, life)
    }

    /// Replaces an edge by a filled one of the same key and target and another weight, where its link is still `seen`,
    /// in O(1): one exchange marks the old edge and links the new one behind it. The token raised the counter of the
    /// source in this pass. `Lost` comes where the link is another word, with the node.
    pub fn replace_edge(&self, token: &mut Token, seen: Link, old: Life, fresh: Fresh) -> LinkTried
        requires table { IsOf self.now token.old }
        requires number { token.old.view.numbered ≡ true }
        requires may { MayReplaceByFilled token.old.view seen.0 old fresh }
        ensures tried { MatchLink result token.old.view (link_at self.now.sizes old.index) seen.0 fresh
            (replaced_event token.old.view seen.0 old fresh) token.new.view }
        ensures table { IsOf self.now token.new }
    {
        let place = self.layout.link_at(old.index);
        let life = fresh.life;
        let expected = seen.0;
        let new = Link::pack(life.index, true, seen.tag()).0;
        let found = self.exchange::<Brand>(token, place, expected, new, life, old, 0);
        if found == expected {
            LinkTried::Won(life)
        } else {
            LinkTried::Lost(fresh, found)
        }
    }

    /// Unlinks a marked edge from the word at a place, where that is still `seen`, in O(1): from then on that leads to
    /// `next`, where the link of the edge leads. `Lost` comes where another word is there.
    pub fn unlink_edge(
        &self,
        token: &mut Token,
        place: u32,
        seen: Link,
        dead: Life,
        next: u32,
    ) -> UnlinkTried
        requires table { IsOf self.now token.old }
        requires number { token.old.view.numbered ≡ true }
        requires may { (source : Life) × MayUnlinkEdge token.old.view place seen.0 next source dead }
        ensures tried { MatchUnlink result token.old.view place seen.0 dead
            (unlink_edge_event token.old.view place seen.0 next dead) token.new.view }
        ensures table { IsOf self.now token.new }
    {
        let expected = seen.0;
        let new = Link::pack(next, false, seen.tag()).0;
        let found = self.exchange::<Brand>(token, place, expected, new, dead, dead, next as u64);
        if found == expected {
            UnlinkTried::Won(Spent { life: dead })
        } else {
            UnlinkTried::Lost(found)
        }
    }
}
