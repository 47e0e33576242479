//! The steps that close the list of an unlinked vertex.
//!
//! The caller that unlinked a vertex marks its second word, and then the link of each edge to which a marked word of
//! the list leads, until the end: from then on no edge is linked there or unlinked, and the nodes of its edges are
//! the caller's to give back.

ghost use Rattle.std.specs.Prelude.{◌≡◌, ℕ, true};
ghost use Rattle.packed_link.specs.Layout.{link_at, second_at};
ghost use Rattle.packed_link.specs.declared.link.Life.{Life};
ghost use Rattle.core_rule.specs.Fronts.{MayFreezeEdge, MayFreezeHead};
ghost use Rattle.core_rule.specs.OwnEvents.{freeze_edge_event, freeze_head_event};
ghost use Rattle.graph_table.specs.Tokens.{IsOf};
ghost use Rattle.graph_table.specs.Table.{MatchMark};

use crate::held::Spent;
use crate::table::{GraphTable, Token};
use packed_link::Life;
use std::marker::Brand;

impl GraphTable {
    /// Closes the list of a vertex that the token unlinked at its head, by a mark on its second word, in O(1). Answers
    /// the word as it was: the step made an event exactly where that has no mark.
    pub fn freeze_head(&self, token: &mut Token, from: &Spent) -> u64
        requires table { IsOf self.now token.old }
        requires number { token.old.view.numbered ≡ true }
        requires may { MayFreezeHead token.old.view from.now }
        ensures marked { MatchMark token.old.view (second_at self.now.sizes from.now.index) result
            (freeze_head_event token.old.view from.now result) token.new.view }
        ensures table { IsOf self.now token.new }
    {
        let place = self.layout.second_at(from.life.index);
        let life = from.life;
        self.set_mark::<Brand>(token, place, life)
    }

    /// Marks the link of an edge to which a frozen word of a closed list of the token's leads, in O(1), and hands its
    /// node over. Answers the word as it was: the step made an event exactly where that has no mark. Where it has one,
    /// the edge was marked before, and is spent with the token all the same.
    pub fn freeze_edge(&self, token: &mut Token, life: Life) -> (u64, Spent)
        requires table { IsOf self.now token.old }
        requires number { token.old.view.numbered ≡ true }
        requires may { (source : Life) × (place : ℕ) × MayFreezeEdge token.old.view source place life }
        ensures marked { MatchMark token.old.view (link_at self.now.sizes life.index) result.0
            (freeze_edge_event token.old.view life result.0) token.new.view }
        ensures node { result.1 ≡ life }
        ensures table { IsOf self.now token.new }
    {
        let place = self.layout.link_at(life.index);
        let found = self.set_mark::<Brand>(token, place, life);
        (found, Spent { life })
    }
}
