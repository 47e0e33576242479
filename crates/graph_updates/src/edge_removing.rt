//! An edge is removed: it's found and marked, and one more walk unlinks it.

ghost use Rattle.std.specs.Prelude.{◌≡◌, ◌-◌, ◌<◌, ◌≤◌, ℕ, None, Some};
ghost use Rattle.core_journal.specs.Life.{key_of};
ghost use Rattle.core_journal.specs.Prefix.{IsPrefix};
ghost use Rattle.core_rule.specs.Fronts.{MetVertex};
ghost use Rattle.core_rule.specs.Stretches.{HasPass};
ghost use Rattle.core_rule.specs.Views.{GoesOn};
ghost use Rattle.edge_list.specs.EdgePositions.{IsSeenEdge};
ghost use Rattle.graph_updates.specs.EdgeRaises.{HasRaised, RaisesKept};
ghost use Rattle.graph_updates.specs.EdgeRemoving.{IsPairSeen, MatchEdgeRemoveTried, MatchEdgeRemoving};
ghost use Rattle.graph_updates.specs.EdgeRemoving.{MatchMarkedOnce, MatchPairMarked, RaisesSince};
ghost use Rattle.graph_updates.specs.Hands.{HandValue, HasItsNodes, IsHandOf};
ghost use Rattle.graph_updates.specs.Pairs.{AreEnds};
ghost use Rattle.graph_updates.specs.Parts.{Fell, HasHelped};
ghost use Rattle.graph_updates.specs.declared.edge_removing.EdgeRemoveTried.TheVariants.{Lost};

use crate::edge_locating::find_edge;
use crate::edge_looking::lack_with;
use crate::hand::Hand;
use crate::pairs::{
    Ends, EndsAlive, EndsLocated, Lack, PairFound, check_ends, find_pair, locate_ends,
};
use edge_list::{EdgeMarked, EdgeSighting, mark, raise};
use graph_table::{GraphTable, Token};
use packed_link::Life;
use std::snapshot::Snapshot;

/// What one try to remove an edge came to: this call marked it, with its weight and the token's moment right after
/// that; it did, and one of the ends is over; what the pair lacks; a lost try; or no try is left.
#[derive(Drop)]
pub enum EdgeRemoveTried {
    Marked(u32, Snapshot<Token>),
    Overtaken(Ends, Snapshot<Token>),
    Lacks(Lack),
    Lost,
    Again,
}

/// What removing an edge came to: the same, but for a lost try.
#[derive(Drop)]
pub enum EdgeRemoving {
    Marked(u32, Snapshot<Token>),
    Overtaken(Ends, Snapshot<Token>),
    Lacks(Lack),
    Again,
}

/// Raises the counter of a source for an edge of it that was found unmarked, and then marks the edge.
fn mark_once(table: &GraphTable, hand: &mut Hand, from: Life, seen: &EdgeSighting) -> EdgeMarked
    requires hand { IsHandOf table.now hand.old }
    requires pass { HasPass hand.old.token.view }
    requires nodes { HasItsNodes hand.old }
    requires raised { HasRaised None hand.old.token.view }
    requires seen { IsSeenEdge hand.old.token.view from seen.now.edge seen.now.moment.value.view.front }
    ensures hand { IsHandOf table.now hand.new }
    ensures pass { HasPass hand.new.token.view }
    ensures nodes { HasItsNodes hand.new }
    ensures goes { GoesOn hand.old.token.view hand.new.token.view }
    ensures raised { RaisesSince from seen.now.moment.value.view.front hand.old.token.view hand.new.token.view }
    ensures marked { MatchMarkedOnce result from seen.now hand.old hand.new }
{
    let raised = raise(table, &mut hand.token, from, &seen.edge);
    mark(table, &mut hand.token, &raised)
}

/// Marks the edge of a pair, which was found, after its source's counter was raised for it. If this call marked it, the
/// links of both ends are loaded, and then one more walk helps, up to the first unlink that is lost.
fn mark_pair(
    table: &GraphTable,
    hand: &mut Hand,
    ends: Ends,
    seen: &EdgeSighting,
) -> EdgeRemoveTried
    requires hand { IsHandOf table.now hand.old }
    requires pass { HasPass hand.old.token.view }
    requires nodes { HasItsNodes hand.old }
    requires raised { HasRaised None hand.old.token.view }
    requires from { MetVertex hand.old.token.view ends.from }
    requires to { MetVertex hand.old.token.view ends.to }
    requires seen { IsSeenEdge hand.old.token.view ends.from seen.now.edge seen.now.moment.value.view.front }
    ensures hand { IsHandOf table.now hand.new }
    ensures pass { HasPass hand.new.token.view }
    ensures grows { IsPrefix hand.old.token.view.front hand.new.token.view.front }
    ensures raised { RaisesSince ends.from seen.now.moment.value.view.front hand.old.token.view hand.new.token.view }
    ensures marked { (old : HandValue) (a b : ℕ) → (found : IsPairSeen a b ends seen.now old hand.old)
        → MatchPairMarked result a b found.mid old hand.new }
{
    match mark_once(table, hand, ends.from, seen) {
        EdgeMarked::Won => {
            let moment = Snapshot::of(&hand.token);
            let alive = check_ends(table, hand, ends);
            find_edge(table, hand, ends.from, seen.edge.key);
            match alive {
                EndsAlive::Both => EdgeRemoveTried::Marked(seen.edge.weight, moment),
                EndsAlive::Over(_) => EdgeRemoveTried::Overtaken(ends, moment),
            }
        }
        EdgeMarked::Was => {
            let lack = Lack::Marked(seen.edge.life);
            EdgeRemoveTried::Lacks(lack_with(table, hand, ends, lack))
        }
        EdgeMarked::Replaced => EdgeRemoveTried::Lost,
    }
}

/// Walks the list of a located source once for the edge of a pair, and marks it.
fn remove_at(table: &GraphTable, hand: &mut Hand, ends: Ends, to: u32) -> EdgeRemoveTried
    requires hand { IsHandOf table.now hand.old }
    requires pass { HasPass hand.old.token.view }
    requires nodes { HasItsNodes hand.old }
    requires raised { HasRaised None hand.old.token.view }
    requires from { MetVertex hand.old.token.view ends.from }
    requires to { MetVertex hand.old.token.view ends.to }
    requires key { key_of hand.old.token.view.front ends.to ≡ Some to }
    ensures hand { IsHandOf table.now hand.new }
    ensures pass { HasPass hand.new.token.view }
    ensures grows { IsPrefix hand.old.token.view.front hand.new.token.view.front }
    ensures raised { RaisesSince ends.from hand.old.token.view.front hand.old.token.view hand.new.token.view }
    ensures removed { (old : HandValue) (a : ℕ) → HasItsNodes old → HasHelped old hand.old
        → AreEnds a to old.token.view hand.old.token.view ends
        → MatchPairMarked result a to hand.old.token.view old hand.new }
{
    match find_pair(table, hand, ends, to) {
        PairFound::Edge(seen) => mark_pair(table, hand, ends, &seen),
        PairFound::Stale(seen) => {
            EdgeRemoveTried::Lacks(lack_with(table, hand, ends, Lack::Stale(seen)))
        }
        PairFound::Gone(gap) => {
            EdgeRemoveTried::Lacks(lack_with(table, hand, ends, Lack::Edge(gap)))
        }
        PairFound::Over(life) => EdgeRemoveTried::Lacks(Lack::Vertex(life)),
        PairFound::Lost => EdgeRemoveTried::Lost,
    }
}

/// One try to remove an edge.
fn try_remove(
    table: &GraphTable,
    hand: &mut Hand,
    from: u32,
    to: u32,
    lost: &mut u32,
    tries: u32,
) -> EdgeRemoveTried
    requires hand { IsHandOf table.now hand.old }
    requires pass { HasPass hand.old.token.view }
    requires nodes { HasItsNodes hand.old }
    requires raised { HasRaised None hand.old.token.view }
    requires left { lost.old < tries }
    ensures hand { IsHandOf table.now hand.new }
    ensures pass { HasPass hand.new.token.view }
    ensures lost { lost.old ≤ lost.new }
    ensures fell { Fell (lost.new - lost.old) hand.old.token.view.number hand.old.token.view.front
        hand.new.token.view.front }
    ensures raised { RaisesKept None None hand.old.token.view hand.new.token.view }
    ensures more { result ≡ Lost → lost.old < lost.new }
    ensures tried { MatchEdgeRemoveTried result from to lost.new tries hand.old hand.new }
{
    let ends = match locate_ends(table, hand, from, to, lost, tries) {
        EndsLocated::Both(ends) => ends,
        EndsLocated::Gone(gap) => return EdgeRemoveTried::Lacks(Lack::Key(gap)),
        EndsLocated::Again => return EdgeRemoveTried::Again,
    };
    let tried = remove_at(table, hand, ends, to);
    if let EdgeRemoveTried::Lost = tried {
        *lost += 1;
        if *lost == tries {
            return EdgeRemoveTried::Again;
        }
    }
    tried
}

/// Removes an edge, by as many tries as may be lost.
pub(crate) fn remove_pair(
    table: &GraphTable,
    hand: &mut Hand,
    from: u32,
    to: u32,
    tries: u32,
) -> EdgeRemoving
    requires hand { IsHandOf table.now hand.old }
    requires pass { HasPass hand.old.token.view }
    requires nodes { HasItsNodes hand.old }
    requires raised { HasRaised None hand.old.token.view }
    requires some { 0 < tries }
    ensures hand { IsHandOf table.now hand.new }
    ensures pass { HasPass hand.new.token.view }
    ensures nodes { HasItsNodes hand.new }
    ensures raised { RaisesKept None None hand.old.token.view hand.new.token.view }
    ensures removed { MatchEdgeRemoving result from to tries hand.old hand.new }
{
    let mut lost = 0u32;
    loop {
        match try_remove(table, hand, from, to, &mut lost, tries) {
            EdgeRemoveTried::Marked(weight, moment) => return EdgeRemoving::Marked(weight, moment),
            EdgeRemoveTried::Overtaken(ends, moment) => {
                return EdgeRemoving::Overtaken(ends, moment);
            }
            EdgeRemoveTried::Lacks(lack) => return EdgeRemoving::Lacks(lack),
            EdgeRemoveTried::Again => return EdgeRemoving::Again,
            EdgeRemoveTried::Lost => {}
        }
    }
}
