//! The steps on free, fresh and ripe nodes.
//!
//! The free list is a stack of nodes (Treiber 1986). Its word carries the index of the first free node and a tag that
//! counts its changes, so a word that was seen is there again only where the list hasn't changed.

ghost use Rattle.std.specs.Prelude.{◌≡◌, ◌<◌, true};
ghost use Rattle.packed_link.specs.Layout.{free_at};
ghost use Rattle.core_rule.specs.Fronts.{MayPopFree, MayPushFree, MayStoreFree, MayStorePrivate};
ghost use Rattle.core_rule.specs.OwnEvents.{pop_event, push_event, store_event, store_free_event};
ghost use Rattle.core_rule.specs.Plays.{Stored};
ghost use Rattle.graph_table.specs.Tokens.{IsOf};
ghost use Rattle.graph_table.specs.Table.{MatchPopped, MatchPush, field_of};

use crate::answers::{Field, Popped, PushTried};
use crate::held::{Fresh, Ripe};
use crate::table::{GraphTable, Token};
use packed_link::{Life, Link};
use std::marker::Brand;

impl GraphTable {
    /// Takes the first free node for its next life, where the word of the free list is still `seen`, in O(1). `Lost`
    /// comes where it's another one. The token loaded `seen` and then `next`, the link of the node to which it leads,
    /// and holds no fresh node.
    pub fn pop_free(&self, token: &mut Token, seen: Link, next: Link) -> Popped
        requires table { IsOf self.now token.old }
        requires number { token.old.view.numbered ≡ true }
        requires may { MayPopFree token.old.view seen.0 next.0 }
        ensures popped { MatchPopped result token.old.view (free_at self.now.sizes) seen.0
            (pop_event token.old.view seen.0 next.0) token.new.view }
        ensures table { IsOf self.now token.new }
    {
        let place = self.layout.free_at();
        let life = Life {
            index: seen.index(),
            tag: next.tag() + 1,
        };
        let expected = seen.0;
        let behind = next.0;
        // The tag counts this change, so that no later word of the free list is an earlier one again.
        let new = Link::pack(next.index(), false, seen.tag() + 1).0;
        let found = self.exchange::<Brand>(token, place, expected, new, life, life, behind);
        if found == expected {
            Popped::Won(Fresh { life })
        } else {
            Popped::Lost(found)
        }
    }

    /// Stores a word of a node that is fresh with the token, in O(1). A link has its life's tag and no mark.
    pub fn store_private(&self, token: &mut Token, fresh: &Fresh, field: Field, word: u64)
        requires table { IsOf self.now token.old }
        requires number { token.old.view.numbered ≡ true }
        requires may { MayStorePrivate token.old.view fresh.now (field_of field) word }
        ensures stored { Stored token.old.view (store_event token.old.view fresh.now (field_of field) word)
            token.new.view }
        ensures table { IsOf self.now token.new }
    {
        let number = number_of(field);
        let place = self.layout.key_at(fresh.life.index) + number;
        let life = fresh.life;
        self.put::<Brand>(token, place, word, life, number as u64);
    }

    /// Stores the link of a ripe node for the free list, in O(1): it leads to the node `next`, or to none where that is
    /// 16,777,215. The lists that may lead to the node are frozen to their ends.
    pub fn store_free(&self, token: &mut Token, ripe: &Ripe, next: u32)
        requires table { IsOf self.now token.old }
        requires number { token.old.view.numbered ≡ true }
        requires may { MayStoreFree token.old.view next ripe.now.life }
        ensures stored { Stored token.old.view (store_free_event token.old.view next ripe.now.life) token.new.view }
        ensures table { IsOf self.now token.new }
    {
        let place = self.layout.link_at(ripe.life.index);
        let word = Link::pack(next, true, ripe.life.tag).0;
        let life = ripe.life;
        self.put::<Brand>(token, place, word, life, next as u64);
    }

    /// Gives a ripe node back, where the word of the free list is still `seen`, in O(1). `Lost` comes where it's
    /// another one, with the node. The token loaded `seen`, and stored the node's link with where `seen` leads.
    pub fn push_free(&self, token: &mut Token, seen: Link, ripe: Ripe) -> PushTried
        requires table { IsOf self.now token.old }
        requires number { token.old.view.numbered ≡ true }
        requires may { MayPushFree token.old.view seen.0 ripe.life }
        ensures tried { MatchPush result token.old.view (free_at self.now.sizes) seen.0 ripe
            (push_event token.old.view seen.0 ripe.life) token.new.view }
        ensures table { IsOf self.now token.new }
    {
        let place = self.layout.free_at();
        let expected = seen.0;
        let life = ripe.life;
        let new = Link::pack(life.index, false, seen.tag() + 1).0;
        let found = self.exchange::<Brand>(token, place, expected, new, life, life, 0);
        if found == expected {
            PushTried::Won
        } else {
            PushTried::Lost(ripe, found)
        }
    }
}

/// Which word of a node the field is.
fn number_of(field: Field) -> u32
    ensures number { result ≡ field_of field }
    ensures four { result < 4 }
{
    match field {
        Field::Key => 0,
        Field::Link => 1,
        Field::Second => 2,
        Field::Third => 3,
    }
}
