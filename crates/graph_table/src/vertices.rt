//! The steps on vertices.
//!
//! Each bucket is a sorted chain of vertices. A vertex is removed by a mark on its own link, so that nothing is linked
//! behind it any more, and then unlinked by whoever comes by (Harris 2001, Michael 2002).

ghost use Rattle.std.specs.Prelude.{◌≡◌, true};
ghost use Rattle.packed_link.specs.Layout.{link_at};
ghost use Rattle.core_rule.specs.Fronts.{MayMarkVertex, MayUnlinkVertex};
ghost use Rattle.core_rule.specs.OwnEvents.{mark_vertex_event, unlink_vertex_event};
ghost use Rattle.graph_table.specs.Tokens.{IsOf};
ghost use Rattle.graph_table.specs.Table.{MatchLink, MatchMark, MatchUnlink};
ghost use Rattle.graph_table.specs.Filled.{MayLinkFilledVertex, filled_vertex_event};

use crate::answers::{LinkTried, UnlinkTried};
use crate::held::{Fresh, Spent};
use crate::table::{GraphTable, Token};
use packed_link::{Life, Link};
use std::marker::Brand;

impl GraphTable {
    /// Links a filled vertex behind the word at a place, where that is still `seen`, in O(1): its bucket's word, or the
    /// link of a vertex that this pass met. `Lost` comes where another word is there, with the node.
    pub fn link_vertex(&self, token: &mut Token, place: u32, seen: Link, fresh: Fresh) -> LinkTried
        requires table { IsOf self.now token.old }
        requires number { token.old.view.numbered ≡ true }
        requires may { MayLinkFilledVertex token.old.view place seen.0 fresh }
        ensures tried { MatchLink result token.old.view place seen.0 fresh
            (filled_vertex_event token.old.view place seen.0 fresh) token.new.view }
        ensures table { IsOf self.now token.new }
    {
        let life = fresh.life;
        let expected = seen.0;
        let new = Link::pack(life.index, false, seen.tag()).0;
        let found = self.exchange::<Brand>(token, place, expected, new, life, life, 0);
        if found == expected {
            LinkTried::Won(life)
        } else {
            LinkTried::Lost(fresh, found)
        }
    }

    /// Marks the link of a vertex that this pass met, in O(1). Answers its word as it was: the step made an event
    /// exactly where that has no mark.
    pub fn mark_vertex(&self, token: &mut Token, life: Life) -> u64
        requires table { IsOf self.now token.old }
        requires number { token.old.view.numbered ≡ true }
        requires may { MayMarkVertex token.old.view life }
        ensures marked { MatchMark token.old.view (link_at self.now.sizes life.index) result
            (mark_vertex_event token.old.view life result) token.new.view }
        ensures table { IsOf self.now token.new }
    {
        let place = self.layout.link_at(life.index);
        self.set_mark::<Brand>(token, place, life)
    }

    /// Unlinks a marked vertex from the word at a place, where that is still `seen`, in O(1): from then on that leads
    /// to `next`, where the link of the vertex leads. `Lost` comes where another word is there.
    pub fn unlink_vertex(
        &self,
        token: &mut Token,
        place: u32,
        seen: Link,
        dead: Life,
        next: u32,
    ) -> UnlinkTried
        requires table { IsOf self.now token.old }
        requires number { token.old.view.numbered ≡ true }
        requires may { MayUnlinkVertex token.old.view place seen.0 next dead }
        ensures tried { MatchUnlink result token.old.view place seen.0 dead
            (unlink_vertex_event token.old.view place seen.0 next dead) token.new.view }
        ensures table { IsOf self.now token.new }
    {
        let expected = seen.0;
        let new = Link::pack(next, false, seen.tag()).0;
        let found = self.exchange::<Brand>(token, place, expected, new, dead, dead, next as u64);
        if found == expected {
            UnlinkTried::Won(Spent { life: dead })
        } else {
            UnlinkTried::Lost(found)
        }
    }
}
