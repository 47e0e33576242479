//! The list of an unlinked vertex is frozen, edge by edge, to its end.

ghost use Rattle.std.specs.Prelude.{◌≡◌, true};
ghost use Rattle.core_stretches.specs.Holdings.{IsUnlinkedVertex};
ghost use Rattle.edge_list.specs.Freezing.{IsHeadClosed, IsFreezing, MatchFrozen};
ghost use Rattle.graph_table.specs.Tokens.{IsOf};

use graph_table::{GraphTable, Spent, Token};
use packed_link::{Life, Link};
use std::marker::Model;

/// The list of an unlinked vertex under freezing: the vertex, the place of the last word of its list that was frozen,
/// and where that word leads.
#[derive(Drop)]
pub struct Frozen {
    from: Life,
    place: u32,
    next: u32,
}

impl Model for Frozen {
    ghost use Rattle.edge_list.specs.Freezing.{FrozenValue};

    ghost Value = { FrozenValue };

    ghost view = { λ f. record { from = f.from; place = f.place; next = f.next } };
}

/// Closes the list of a vertex that the token unlinked at its head, in O(1): one step. The list is the token's own to
/// freeze then.
pub fn freeze_head(table: &GraphTable, token: &mut Token, from: &Spent) -> Frozen
    requires table { IsOf table.now token.old }
    requires number { token.old.view.numbered ≡ true }
    requires vertex { IsUnlinkedVertex token.old.view from.now }
    ensures table { IsOf table.now token.new }
    ensures closed { IsHeadClosed from.now token.old.view token.new.view result }
{
    let life = from.life();
    let layout = table.layout();
    let place = layout.second_at(life.index);
    let word = Link(table.freeze_head(token, from));
    let next = word.index();
    Frozen {
        from: life,
        place,
        next,
    }
}

/// Freezes the next edge of the list and hands it over, in O(1): one load and one step. `None` comes exactly at the end
/// of the list, which is frozen to its end then; nothing is loaded there.
pub fn freeze_next(table: &GraphTable, token: &mut Token, frozen: &mut Frozen) -> Option<Spent>
    requires table { IsOf table.now token.old }
    requires number { token.old.view.numbered ≡ true }
    requires frozen { IsFreezing token.old.view frozen.old }
    ensures table { IsOf table.now token.new }
    ensures frozen { MatchFrozen result frozen.old token.old.view token.new.view frozen.new }
{
    let layout = table.layout();
    let index = frozen.next;
    if index == 16_777_215 {
        return None;
    }
    let link = Link(table.load(token, layout.link_at(index)));
    let life = Life {
        index,
        tag: link.tag(),
    };
    let (word, spent) = table.freeze_edge(token, life);
    frozen.place = layout.link_at(index);
    frozen.next = Link(word).index();
    Some(spent)
}
