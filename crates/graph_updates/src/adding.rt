//! A vertex is added: walks that help, and a node that is linked where the key is missing.

ghost use Rattle.std.specs.Prelude.{◌≡◌, ◌+◌, ◌<◌, ◌≤◌, true, Some};
ghost use Rattle.core_journal.specs.Event.{pops};
ghost use Rattle.core_kept.specs.Counts.{made, most_pops};
ghost use Rattle.core_rule.specs.Stretches.{HasPass};
ghost use Rattle.core_stretches.specs.Holdings.{IsHeldFresh};
ghost use Rattle.graph_table.specs.Tokens.{IsOf};
ghost use Rattle.graph_updates.specs.Adding.{MatchAddTried, MatchAdding, MatchNode, MatchPlacing, MatchPlacingAt};
ghost use Rattle.graph_updates.specs.Hands.{HoldsNoOther, HoldsSpare, IsHandOf, HasItsNodes};
ghost use Rattle.graph_updates.specs.Parts.{may_take};
ghost use Rattle.vertex_list.specs.Positions.{IsGap};

use crate::hand::Hand;
use crate::locating::{Sought, find};
use graph_table::{Fresh, GraphTable, Token};
use node_arena::{Taken, fill_vertex, take};
use std::snapshot::Snapshot;
use vertex_list::{Linked, Position, Sighting, link};

/// What became of placing a node: it's linked, and the token's moment right after that; no node was free; or another
/// caller changed the free list or the word before the gap, and the node is handed back, if there's one.
#[derive(Drop)]
pub enum Placing {
    Linked(Snapshot<Token>),
    Full(Position),
    Lost(Option<Fresh>),
}

/// What one try to add a vertex came to: it's linked, its key is there, no node was free, or the try was lost.
#[derive(Drop)]
pub enum AddTried {
    Linked(Snapshot<Token>),
    There(Sighting),
    Full(Position),
    Lost,
}

/// What adding a vertex came to: it's linked, its key is there, no node was free, or no try is left.
#[derive(Drop)]
pub enum Adding {
    Linked(Snapshot<Token>),
    There(Sighting),
    Full(Position),
    Again,
}

/// The spare node, or else one that this call takes.
pub(crate) fn node_for(table: &GraphTable, token: &mut Token, spare: Option<Fresh>) -> Taken
    requires table { IsOf table.now token.old }
    requires number { token.old.view.numbered ≡ true }
    requires spare { HoldsSpare spare token.old.view }
    requires none { HoldsNoOther spare token.old.view }
    requires limit { made pops token.old.view.number token.old.view.front + may_take spare ≤ most_pops }
    ensures table { IsOf table.now token.new }
    ensures node { MatchNode result spare token.old.view token.new.view }
{
    match spare {
        Some(fresh) => Taken::Node(fresh),
        None => take(table, token),
    }
}

/// Fills a node and links it where the key is missing.
fn link_in(table: &GraphTable, token: &mut Token, key: u32, gap: Position, fresh: Fresh) -> Placing
    requires table { IsOf table.now token.old }
    requires number { token.old.view.numbered ≡ true }
    requires fresh { IsHeldFresh token.old.view fresh }
    requires key { gap.key ≡ key }
    requires gap { IsGap token.old.view gap }
    ensures table { IsOf table.now token.new }
    ensures placed { MatchPlacing result (Some fresh) gap token.old.view token.new.view }
{
    fill_vertex(table, token, &fresh, key, gap.word());
    match link(table, token, gap, fresh) {
        Linked::Done(_) => Placing::Linked(Snapshot::of(&*token)),
        Linked::Lost(fresh) => Placing::Lost(Some(fresh)),
    }
}

/// Links a vertex of the key at a position at which the key is missing: with the spare node, or one that is taken.
pub fn place(
    table: &GraphTable,
    token: &mut Token,
    spare: Option<Fresh>,
    key: u32,
    gap: Position,
) -> Placing
    requires table { IsOf table.now token.old }
    requires number { token.old.view.numbered ≡ true }
    requires spare { HoldsSpare spare token.old.view }
    requires none { HoldsNoOther spare token.old.view }
    requires limit { made pops token.old.view.number token.old.view.front + may_take spare ≤ most_pops }
    requires key { gap.key ≡ key }
    requires gap { IsGap token.old.view gap }
    ensures table { IsOf table.now token.new }
    ensures placed { MatchPlacing result spare gap token.old.view token.new.view }
{
    match node_for(table, token, spare) {
        Taken::Node(fresh) => link_in(table, token, key, gap, fresh),
        Taken::Empty => Placing::Full(gap),
        Taken::Lost => Placing::Lost(None),
    }
}

/// The same for a hand, which keeps a node that wasn't linked as its spare one.
fn place_at(table: &GraphTable, hand: &mut Hand, key: u32, gap: Position) -> AddTried
    requires hand { IsHandOf table.now hand.old }
    requires pass { HasPass hand.old.token.view }
    requires nodes { HasItsNodes hand.old }
    requires limit { made pops hand.old.token.view.number hand.old.token.view.front + may_take hand.old.spare
        ≤ most_pops }
    requires key { gap.key ≡ key }
    requires gap { IsGap hand.old.token.view gap }
    ensures hand { IsHandOf table.now hand.new }
    ensures pass { HasPass hand.new.token.view }
    ensures nodes { HasItsNodes hand.new }
    ensures placed { MatchPlacingAt result gap hand.old hand.new }
{
    let spare = hand.spare.take();
    match place(table, &mut hand.token, spare, key, gap) {
        Placing::Linked(moment) => AddTried::Linked(moment),
        Placing::Full(gap) => AddTried::Full(gap),
        Placing::Lost(spare) => {
            hand.spare = spare;
            AddTried::Lost
        }
    }
}

/// One try to add a vertex.
fn try_add(table: &GraphTable, hand: &mut Hand, key: u32) -> AddTried
    requires hand { IsHandOf table.now hand.old }
    requires pass { HasPass hand.old.token.view }
    requires nodes { HasItsNodes hand.old }
    requires limit { made pops hand.old.token.view.number hand.old.token.view.front + may_take hand.old.spare
        ≤ most_pops }
    ensures hand { IsHandOf table.now hand.new }
    ensures pass { HasPass hand.new.token.view }
    ensures tried { MatchAddTried result key hand.old hand.new }
{
    match find(table, hand, key) {
        Sought::Here(seen) => AddTried::There(seen),
        Sought::Gone(gap) => place_at(table, hand, key, gap),
        Sought::Lost => AddTried::Lost,
    }
}

/// Adds a vertex, by as many tries as may be lost. At most one node is taken, and none where the hand has a spare one.
pub(crate) fn add(table: &GraphTable, hand: &mut Hand, key: u32, tries: u32) -> Adding
    requires hand { IsHandOf table.now hand.old }
    requires pass { HasPass hand.old.token.view }
    requires nodes { HasItsNodes hand.old }
    requires limit { made pops hand.old.token.view.number hand.old.token.view.front + may_take hand.old.spare
        ≤ most_pops }
    requires some { 0 < tries }
    ensures hand { IsHandOf table.now hand.new }
    ensures pass { HasPass hand.new.token.view }
    ensures nodes { HasItsNodes hand.new }
    ensures added { MatchAdding result key tries hand.old hand.new }
{
    let mut lost = 0u32;
    loop {
        match try_add(table, hand, key) {
            AddTried::Linked(moment) => return Adding::Linked(moment),
            AddTried::There(seen) => return Adding::There(seen),
            AddTried::Full(gap) => return Adding::Full(gap),
            AddTried::Lost => {
                lost += 1;
                if lost == tries {
                    return Adding::Again;
                }
            }
        }
    }
}
