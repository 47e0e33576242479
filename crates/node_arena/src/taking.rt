//! A node is taken from the free list.

ghost use Rattle.std.specs.Prelude.{◌≡◌, ◌<◌, true};
ghost use Rattle.core_journal.specs.Event.{pops};
ghost use Rattle.core_kept.specs.Counts.{made, most_pops};
ghost use Rattle.core_rule.specs.Stretches.{HasNoFresh};
ghost use Rattle.graph_table.specs.Tokens.{IsOf};
ghost use Rattle.node_arena.specs.Taking.{MatchTaken};

use graph_table::{Fresh, GraphTable, Popped, Token};
use packed_link::Link;

// The index that leads to no node.
const NOWHERE: u32 = 16_777_215;

/// What became of taking a node: it's fresh with the token, the free list was empty, or another caller changed the list
/// after this call had loaded its word.
#[derive(Drop)]
pub enum Taken {
    Node(Fresh),
    Empty,
    Lost,
}

/// Takes the first free node for its next life, in O(1): two loads and an exchange. `Empty` comes exactly where this
/// call's load found the free list empty, and `Lost` only where another caller changed the list's word since then. The
/// token holds no fresh node, and has taken fewer than 2^32.
pub fn take(table: &GraphTable, token: &mut Token) -> Taken
    requires table { IsOf table.now token.old }
    requires number { token.old.view.numbered ≡ true }
    requires none { HasNoFresh token.old.view }
    requires limit { made pops token.old.view.number token.old.view.front < most_pops }
    ensures table { IsOf table.now token.new }
    ensures taken { MatchTaken result token.old.view token.new.view }
{
    let layout = table.layout();
    let seen = Link(table.load(token, layout.free_at()));
    let index = seen.index();
    if index == NOWHERE {
        return Taken::Empty;
    }
    let next = Link(table.load(token, layout.link_at(index)));
    match table.pop_free(token, seen, next) {
        Popped::Won(fresh) => Taken::Node(fresh),
        Popped::Lost(_) => Taken::Lost,
    }
}
