//! A vertex is removed: it's located and marked, and one more walk unlinks it.

ghost use Rattle.std.specs.Prelude.{◌<◌};
ghost use Rattle.core_rule.specs.Stretches.{HasPass};
ghost use Rattle.graph_updates.specs.Hands.{IsHandOf, HasItsNodes};
ghost use Rattle.graph_updates.specs.Removing.{MatchRemoving};

use crate::hand::Hand;
use crate::locating::{Located, find, locate};
use graph_table::{GraphTable, Token};
use packed_link::Life;
use std::snapshot::Snapshot;
use vertex_list::{Marked, Position, mark};

/// What removing a vertex came to: this call marked it, and the token's moment right after that; another caller had
/// marked the life that was found; no vertex has the key; or no try is left.
#[derive(Drop)]
pub enum Removing {
    Marked(Snapshot<Token>),
    WasMarked(Life),
    Gone(Position),
    Again,
}

/// Marks the vertex of a key. Where this call marked it, one more walk helps, up to the first unlink that is lost.
pub(crate) fn remove(table: &GraphTable, hand: &mut Hand, key: u32, tries: u32) -> Removing
    requires hand { IsHandOf table.now hand.old }
    requires pass { HasPass hand.old.token.view }
    requires nodes { HasItsNodes hand.old }
    requires some { 0 < tries }
    ensures hand { IsHandOf table.now hand.new }
    ensures pass { HasPass hand.new.token.view }
    ensures nodes { HasItsNodes hand.new }
    ensures removed { MatchRemoving result key tries hand.old hand.new }
{
    let mut lost = 0u32;
    match locate(table, hand, key, &mut lost, tries) {
        Located::Here(seen) => match mark(table, &mut hand.token, seen.life) {
            Marked::Won => {
                let moment = Snapshot::of(&hand.token);
                find(table, hand, key);
                Removing::Marked(moment)
            }
            Marked::Was => Removing::WasMarked(seen.life),
        },
        Located::Gone(gap) => Removing::Gone(gap),
        Located::Again => Removing::Again,
    }
}
