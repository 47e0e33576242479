//! A ripe node is given back.

ghost use Rattle.std.specs.Prelude.{◌≡◌, true};
ghost use Rattle.core_stretches.specs.Holdings.{IsGivable};
ghost use Rattle.graph_table.specs.Tokens.{IsOf};
ghost use Rattle.node_arena.specs.Giving.{MatchGiven};

use graph_table::{GraphTable, PushTried, Ripe, Token};
use packed_link::Link;

/// What became of giving a node back: it's free, or another caller changed the free list after this call had loaded its
/// word, and the node is handed back.
#[derive(Drop)]
pub enum Given {
    Done,
    Lost(Ripe),
}

/// Gives a ripe node back, in O(1): a load, a store to the node's link, so that it leads to where the free list does,
/// and an exchange. `Lost` comes only where another caller changed the list's word since this call loaded it; the node
/// is ripe as before, and its link is stored once more when it's given back again. The lists that may lead to the node
/// are frozen to their ends.
pub fn give_back(table: &GraphTable, token: &mut Token, ripe: Ripe) -> Given
    requires table { IsOf table.now token.old }
    requires number { token.old.view.numbered ≡ true }
    requires ripe { IsGivable token.old.view ripe.life }
    ensures table { IsOf table.now token.new }
    ensures given { MatchGiven result ripe token.old.view token.new.view }
{
    let layout = table.layout();
    let seen = Link(table.load(token, layout.free_at()));
    let next = seen.index();
    table.store_free(token, &ripe, next);
    match table.push_free(token, seen, ripe) {
        PushTried::Won => Given::Done,
        PushTried::Lost(ripe, _) => Given::Lost(ripe),
    }
}
