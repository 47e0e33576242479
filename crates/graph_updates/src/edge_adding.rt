//! An edge is added, or replaced by one of another weight: walks that help, a node that is filled, and an exchange.

ghost use Rattle.std.specs.Prelude.{◌≡◌, ◌≢◌, ◌+◌, ◌-◌, ◌<◌, ◌≤◌, ℕ, [], None, Option, Some, true};
ghost use Rattle.graph_kinds.specs.declared.outcome.Outcome.TheVariants.{Added, Changed};
ghost use Rattle.core_journal.specs.Life.{key_of, vertex_marked};
ghost use Rattle.core_journal.specs.Event.{pops, raises};
ghost use Rattle.core_kept.specs.Counts.{made, most_pops, most_raises};
ghost use Rattle.core_rule.specs.Fronts.{MetVertex};
ghost use Rattle.core_rule.specs.Stretches.{HasPass};
ghost use Rattle.core_rule.specs.Views.{GoesOn};
ghost use Rattle.core_rule.specs.declared.view.View.{View};
ghost use Rattle.core_stretches.specs.Holdings.{IsHeldFresh};
ghost use Rattle.core_stretches.specs.Makes.{Makes};
ghost use Rattle.core_stretches.specs.Moments.{HoldsBetween};
ghost use Rattle.edge_list.specs.EdgeMarks.{RaisedValue};
ghost use Rattle.edge_list.specs.EdgePositions.{IsGapOfEdge, IsSeenEdge, IsUnmarkedEdge};
ghost use Rattle.edge_list.specs.declared.marking.EdgeMarked.{EdgeMarked};
ghost use Rattle.graph_table.specs.Tokens.{IsOf};
ghost use Rattle.graph_updates.specs.EdgeAdding.{IsUnraised, MatchAddTurn, MatchAddTurns, MatchConcluded};
ghost use Rattle.graph_updates.specs.EdgeAdding.{MatchEdgeAddTried, MatchEdgeAdding, MatchPlaced, MatchStaleMarked};
ghost use Rattle.graph_updates.specs.EdgeAdding.{tried_of};
ghost use Rattle.graph_updates.specs.EdgeChanging.{MatchNodeReady, MatchReplacedOnce, holding};
ghost use Rattle.graph_updates.specs.EdgeLocating.{WasEdgeHere};
ghost use Rattle.graph_updates.specs.EdgeRaises.{HasRaised, HasRaisedSome, IsLastRaised, IsRaisedOn, IsRaisedOnce};
ghost use Rattle.graph_updates.specs.EdgeRaises.{RaisesFor, RaisesKept};
ghost use Rattle.graph_updates.specs.EdgeRemoving.{GoesOnBare};
ghost use Rattle.graph_updates.specs.Hands.{HandValue, HasItsNodes, IsHandOf};
ghost use Rattle.graph_updates.specs.Parts.{Fell, HasHelped, may_take};
ghost use Rattle.graph_updates.specs.declared.edge_adding.AddTurn.TheVariants as turn;
ghost use Rattle.graph_updates.specs.declared.edge_adding.EdgeAddTried.TheVariants.{Lost};

use crate::adding::node_for;
use crate::edge_linking::link_pair;
use crate::edge_locating::find_edge;
use crate::hand::Hand;
use crate::pairs::{
    Ends, EndsAlive, EndsLocated, Lack, PairFound, check_ends, ends_alive, find_pair, locate_ends,
};
use edge_list::{
    Edge, EdgeLinked, EdgeMarked, EdgePosition, EdgeReplaced, EdgeSighting, Raised, link, mark,
    raise, replace,
};
use graph_kinds::Outcome;
use graph_table::{Fresh, GraphTable, Token};
use node_arena::{Taken, fill_edge};
use packed_link::Life;
use std::snapshot::Snapshot;

/// What one walk of the source's list came to: this call linked an edge or replaced one, with what it answers and the
/// token's moment right after that; it did, and one of the ends is over; the edge is there with the weight; what the
/// pair lacks; no node was free where the edge is missing, or where it has another weight; an edge to an earlier life
/// of
/// the target's key was to be marked; or a lost try.
#[derive(Drop)]
pub enum AddTurn {
    Done(Outcome, Snapshot<Token>),
    Overtaken(Ends, Snapshot<Token>),
    Present(EdgeSighting),
    Lacks(Lack),
    FullAtGap(EdgePosition),
    FullAtEdge(EdgeSighting),
    Stale(EdgeMarked),
    Lost,
}

/// What one try to add an edge came to: the same, but for an edge that was to be marked; or no try is left.
#[derive(Drop)]
pub enum EdgeAddTried {
    Done(Outcome, Snapshot<Token>),
    Overtaken(Ends, Snapshot<Token>),
    Present(EdgeSighting),
    Lacks(Lack),
    FullAtGap(EdgePosition),
    FullAtEdge(EdgeSighting),
    Lost,
    Again,
}

/// What adding an edge came to: the same, but for a lost try.
#[derive(Drop)]
pub enum EdgeAdding {
    Done(Outcome, Snapshot<Token>),
    Overtaken(Ends, Snapshot<Token>),
    Present(EdgeSighting),
    Lacks(Lack),
    FullAtGap(EdgePosition),
    FullAtEdge(EdgeSighting),
    Again,
}

/// Raises the counter of a source for an edge of it that was found unmarked, unless this call raised for it last.
fn raise_once(
    table: &GraphTable,
    token: &mut Token,
    from: Life,
    seen: &EdgeSighting,
    last: Option<Raised>,
) -> Raised
    requires table { IsOf table.now token.old }
    requires number { token.old.view.numbered ≡ true }
    requires seen { IsSeenEdge token.old.view from seen.now.edge seen.now.moment.value.view.front }
    requires last { IsLastRaised from seen.now.edge.key token.old.view last }
    requires limit { made raises token.old.view.number token.old.view.front < most_raises }
    ensures table { IsOf table.now token.new }
    ensures raised { IsRaisedOnce from seen.now.edge last token.old.view token.new.view result }
{
    match last {
        Some(last) if last.life() == seen.edge.life => last,
        _ => raise(table, token, from, &seen.edge),
    }
}

/// After this call's exchange: both ends alive, or the call is overtaken.
pub(crate) fn conclude(
    table: &GraphTable,
    token: &mut Token,
    ends: Ends,
    outcome: Outcome,
) -> AddTurn
    requires table { IsOf table.now token.old }
    requires number { token.old.view.numbered ≡ true }
    requires from { MetVertex token.old.view ends.from }
    requires to { MetVertex token.old.view ends.to }
    ensures table { IsOf table.now token.new }
    ensures makes { Makes token.old.view [] token.new.view }
    ensures concluded { MatchConcluded result outcome ends token.old token.new }
{
    let moment = Snapshot::of(&*token);
    match ends_alive(table, token, ends) {
        EndsAlive::Both => AddTurn::Done(outcome, moment),
        EndsAlive::Over(_) => AddTurn::Overtaken(ends, moment),
    }
}

/// The spare node of a hand, or else one that this call takes. The hand has no spare one after that.
pub(crate) fn ready_node(table: &GraphTable, hand: &mut Hand) -> Taken
    requires hand { IsHandOf table.now hand.old }
    requires nodes { HasItsNodes hand.old }
    requires limit { made pops hand.old.token.view.number hand.old.token.view.front + may_take hand.old.spare
        ≤ most_pops }
    ensures hand { IsHandOf table.now hand.new }
    ensures ready { MatchNodeReady result hand.old hand.new }
{
    let spare = hand.spare.take();
    node_for(table, &mut hand.token, spare)
}

/// Replaces an edge by a node, after its source's counter was raised for it. A node that isn't linked is the hand's
/// spare one again.
fn replace_once(
    table: &GraphTable,
    hand: &mut Hand,
    from: Life,
    seen: &EdgeSighting,
    fresh: Fresh,
    weight: u32,
    raised: &mut Option<Raised>,
) -> bool
    requires hand { IsHandOf table.now hand.old }
    requires pass { HasPass hand.old.token.view }
    requires spare { hand.old.spare ≡ None }
    requires fresh { IsHeldFresh hand.old.token.view fresh }
    requires nodes { HasItsNodes (holding hand.old fresh) }
    requires weight { 1 ≤ weight }
    requires other { seen.now.edge.weight ≢ weight }
    requires seen { IsSeenEdge hand.old.token.view from seen.now.edge seen.now.moment.value.view.front }
    requires last { IsLastRaised from seen.now.edge.key hand.old.token.view raised.old }
    requires raised { HasRaisedSome from raised.old hand.old.token.view }
    ensures hand { IsHandOf table.now hand.new }
    ensures pass { HasPass hand.new.token.view }
    ensures stays { GoesOn hand.old.token.view hand.new.token.view }
    ensures last { IsLastRaised from seen.now.edge.key hand.new.token.view raised.new }
    ensures raised { (u : View) → IsUnraised u hand.old.token.view → HoldsBetween u.front hand.old.token.view.front
        (IsUnmarkedEdge from seen.now.edge) seen.now.moment.value.view.front
        → RaisesFor from seen.now.edge.key raised.old raised.new u hand.new.token.view }
    ensures replaced { MatchReplacedOnce result from seen.now weight (holding hand.old fresh) hand.new }
{
    let last = raise_once(table, &mut hand.token, from, seen, raised.take());
    let replaced = replace(table, &mut hand.token, &last, fresh, weight);
    *raised = Some(last);
    match replaced {
        EdgeReplaced::Done(_) => true,
        EdgeReplaced::Lost(fresh) => {
            hand.spare = Some(fresh);
            false
        }
    }
}

/// After this call's exchange on a hand: both ends alive, or the call is overtaken; and one more walk, which helps.
fn conclude_at(
    table: &GraphTable,
    hand: &mut Hand,
    ends: Ends,
    key: u32,
    outcome: Outcome,
) -> AddTurn
    requires hand { IsHandOf table.now hand.old }
    requires pass { HasPass hand.old.token.view }
    requires from { MetVertex hand.old.token.view ends.from }
    requires to { MetVertex hand.old.token.view ends.to }
    ensures hand { IsHandOf table.now hand.new }
    ensures helped { HasHelped hand.old hand.new }
    ensures concluded { MatchConcluded result outcome ends hand.old.token hand.new.token }
{
    let turn = conclude(table, &mut hand.token, ends, outcome);
    find_edge(table, hand, ends.from, key);
    turn
}

/// Replaces an edge by one of another weight, after its source's counter was raised for it. If this call replaced it,
/// one more walk helps, up to the first unlink that is lost.
fn change_pair(
    table: &GraphTable,
    hand: &mut Hand,
    ends: Ends,
    weight: u32,
    seen: EdgeSighting,
    raised: &mut Option<Raised>,
) -> AddTurn
    requires hand { IsHandOf table.now hand.old }
    requires pass { HasPass hand.old.token.view }
    requires nodes { HasItsNodes hand.old }
    requires limit { made pops hand.old.token.view.number hand.old.token.view.front + may_take hand.old.spare
        ≤ most_pops }
    requires weight { 1 ≤ weight }
    requires other { seen.edge.weight ≢ weight }
    requires from { MetVertex hand.old.token.view ends.from }
    requires to { MetVertex hand.old.token.view ends.to }
    requires seen { IsSeenEdge hand.old.token.view ends.from seen.edge seen.moment.value.view.front }
    requires target { seen.edge.target ≡ ends.to }
    requires last { IsLastRaised ends.from seen.edge.key hand.old.token.view raised.old }
    requires raised { HasRaisedSome ends.from raised.old hand.old.token.view }
    ensures hand { IsHandOf table.now hand.new }
    ensures pass { HasPass hand.new.token.view }
    ensures last { IsLastRaised ends.from seen.edge.key hand.new.token.view raised.new }
    ensures raised { (old : HandValue) → HasHelped old hand.old
        → WasEdgeHere ends.from seen.edge.key old.token.view hand.old.token.view seen
        → RaisesFor ends.from seen.edge.key raised.old raised.new old.token.view hand.new.token.view }
    ensures placed { (a : ℕ) → key_of hand.old.token.view.front ends.from ≡ Some a
        → MatchPlaced result (Changed seen.edge.weight) (turn.FullAtEdge seen) ends a seen.edge.key weight
        seen.moment.value.view.front hand.old hand.new }
{
    let fresh = match ready_node(table, hand) {
        Taken::Node(fresh) => fresh,
        Taken::Empty => {
            return match check_ends(table, hand, ends) {
                EndsAlive::Both => AddTurn::FullAtEdge(seen),
                EndsAlive::Over(life) => AddTurn::Lacks(Lack::Vertex(life)),
            };
        }
        Taken::Lost => return AddTurn::Lost,
    };
    let edge = seen.edge;
    if !replace_once(table, hand, ends.from, &seen, fresh, weight, raised) {
        return AddTurn::Lost;
    }
    conclude_at(table, hand, ends, edge.key, Outcome::Changed(edge.weight))
}

/// Marks an edge to an earlier life of its key, after its source's counter was raised for it.
fn mark_stale(
    table: &GraphTable,
    hand: &mut Hand,
    from: Life,
    seen: &EdgeSighting,
    raised: &mut Option<Raised>,
) -> EdgeMarked
    requires hand { IsHandOf table.now hand.old }
    requires pass { HasPass hand.old.token.view }
    requires nodes { HasItsNodes hand.old }
    requires seen { IsSeenEdge hand.old.token.view from seen.now.edge seen.now.moment.value.view.front }
    requires over { vertex_marked hand.old.token.view.front seen.now.edge.target ≡ true }
    requires last { IsLastRaised from seen.now.edge.key hand.old.token.view raised.old }
    requires raised { HasRaisedSome from raised.old hand.old.token.view }
    ensures hand { IsHandOf table.now hand.new }
    ensures pass { HasPass hand.new.token.view }
    ensures goes { GoesOnBare hand.old hand.new }
    ensures stays { GoesOn hand.old.token.view hand.new.token.view }
    ensures last { IsLastRaised from seen.now.edge.key hand.new.token.view raised.new }
    ensures raised { (old : HandValue) → HasHelped old hand.old
        → WasEdgeHere from seen.now.edge.key old.token.view hand.old.token.view seen.now
        → RaisesFor from seen.now.edge.key raised.old raised.new old.token.view hand.new.token.view }
    ensures marked { MatchStaleMarked result from seen.now.edge.key seen.now.moment.value.view.front
        hand.new.token.view }
{
    let last = raise_once(table, &mut hand.token, from, seen, raised.take());
    let marked = mark(table, &mut hand.token, &last);
    *raised = Some(last);
    marked
}

/// One walk of the source's list, and what follows from it.
fn turn(
    table: &GraphTable,
    hand: &mut Hand,
    ends: Ends,
    to: u32,
    weight: u32,
    raised: &mut Option<Raised>,
) -> AddTurn
    requires hand { IsHandOf table.now hand.old }
    requires pass { HasPass hand.old.token.view }
    requires nodes { HasItsNodes hand.old }
    requires limit { made pops hand.old.token.view.number hand.old.token.view.front + may_take hand.old.spare
        ≤ most_pops }
    requires weight { 1 ≤ weight }
    requires from { MetVertex hand.old.token.view ends.from }
    requires to { MetVertex hand.old.token.view ends.to }
    requires key { key_of hand.old.token.view.front ends.to ≡ Some to }
    requires last { IsLastRaised ends.from to hand.old.token.view raised.old }
    requires raised { HasRaisedSome ends.from raised.old hand.old.token.view }
    ensures hand { IsHandOf table.now hand.new }
    ensures pass { HasPass hand.new.token.view }
    ensures last { IsLastRaised ends.from to hand.new.token.view raised.new }
    ensures raised { RaisesFor ends.from to raised.old raised.new hand.old.token.view hand.new.token.view }
    ensures stays { (m : EdgeMarked) → result ≡ turn.Stale m
        → GoesOn hand.old.token.view hand.new.token.view }
    ensures turned { (a : ℕ) → key_of hand.old.token.view.front ends.from ≡ Some a
        → MatchAddTurn result ends a to weight hand.old hand.new }
{
    match find_pair(table, hand, ends, to) {
        PairFound::Edge(seen) => {
            if seen.edge.weight != weight {
                return change_pair(table, hand, ends, weight, seen, raised);
            }
            match check_ends(table, hand, ends) {
                EndsAlive::Both => AddTurn::Present(seen),
                EndsAlive::Over(life) => AddTurn::Lacks(Lack::Vertex(life)),
            }
        }
        PairFound::Stale(seen) => AddTurn::Stale(mark_stale(table, hand, ends.from, &seen, raised)),
        PairFound::Gone(gap) => link_pair(table, hand, ends, to, weight, gap),
        PairFound::Over(life) => AddTurn::Lacks(Lack::Vertex(life)),
        PairFound::Lost => AddTurn::Lost,
    }
}

/// The walks of one try. After an edge to an earlier life of the target's key was marked by this call the list is
/// walked
/// anew; if the mark was there before, or another such edge stands there by then, the try is lost: another caller
/// changed
/// the list.
fn turns(
    table: &GraphTable,
    hand: &mut Hand,
    ends: Ends,
    to: u32,
    weight: u32,
    raised: &mut Option<Raised>,
) -> AddTurn
    requires hand { IsHandOf table.now hand.old }
    requires pass { HasPass hand.old.token.view }
    requires nodes { HasItsNodes hand.old }
    requires limit { made pops hand.old.token.view.number hand.old.token.view.front + may_take hand.old.spare
        ≤ most_pops }
    requires weight { 1 ≤ weight }
    requires from { MetVertex hand.old.token.view ends.from }
    requires to { MetVertex hand.old.token.view ends.to }
    requires key { key_of hand.old.token.view.front ends.to ≡ Some to }
    requires last { IsLastRaised ends.from to hand.old.token.view raised.old }
    requires raised { HasRaisedSome ends.from raised.old hand.old.token.view }
    ensures hand { IsHandOf table.now hand.new }
    ensures pass { HasPass hand.new.token.view }
    ensures last { IsLastRaised ends.from to hand.new.token.view raised.new }
    ensures raised { RaisesFor ends.from to raised.old raised.new hand.old.token.view hand.new.token.view }
    ensures turned { (a : ℕ) → key_of hand.old.token.view.front ends.from ≡ Some a
        → MatchAddTurns result ends a to weight hand.old hand.new }
{
    match turn(table, hand, ends, to, weight, raised) {
        AddTurn::Stale(marked) => match marked {
            EdgeMarked::Won => turn(table, hand, ends, to, weight, raised),
            EdgeMarked::Was | EdgeMarked::Replaced => AddTurn::Lost,
        },
        first => first,
    }
}

/// What the walks of a try came to, as the try's own end: one that ends at an edge to be marked is lost.
fn as_tried(turn: AddTurn) -> EdgeAddTried
    ensures { result ≡ tried_of turn }
{
    match turn {
        AddTurn::Done(outcome, moment) => EdgeAddTried::Done(outcome, moment),
        AddTurn::Overtaken(ends, moment) => EdgeAddTried::Overtaken(ends, moment),
        AddTurn::Present(seen) => EdgeAddTried::Present(seen),
        AddTurn::Lacks(lack) => EdgeAddTried::Lacks(lack),
        AddTurn::FullAtGap(gap) => EdgeAddTried::FullAtGap(gap),
        AddTurn::FullAtEdge(seen) => EdgeAddTried::FullAtEdge(seen),
        AddTurn::Stale(_) => EdgeAddTried::Lost,
        AddTurn::Lost => EdgeAddTried::Lost,
    }
}

/// One try to add an edge.
fn try_add_pair(
    table: &GraphTable,
    hand: &mut Hand,
    pair: (u32, u32),
    weight: u32,
    raised: &mut Option<Raised>,
    lost: &mut u32,
    tries: u32,
) -> EdgeAddTried
    requires hand { IsHandOf table.now hand.old }
    requires pass { HasPass hand.old.token.view }
    requires nodes { HasItsNodes hand.old }
    requires limit { made pops hand.old.token.view.number hand.old.token.view.front + may_take hand.old.spare
        ≤ most_pops }
    requires weight { 1 ≤ weight }
    requires last { IsRaisedOn pair.0 pair.1 hand.old.token.view raised.old }
    requires raised { HasRaised raised.old hand.old.token.view }
    requires left { lost.old < tries }
    ensures hand { IsHandOf table.now hand.new }
    ensures pass { HasPass hand.new.token.view }
    ensures last { IsRaisedOn pair.0 pair.1 hand.new.token.view raised.new }
    ensures raised { RaisesKept raised.old raised.new hand.old.token.view hand.new.token.view }
    ensures lost { lost.old ≤ lost.new }
    ensures fell { Fell (lost.new - lost.old) hand.old.token.view.number hand.old.token.view.front
        hand.new.token.view.front }
    ensures more { result ≡ Lost → lost.old < lost.new }
    ensures tried { MatchEdgeAddTried result pair.0 pair.1 weight lost.new tries hand.old hand.new }
{
    let (from, to) = pair;
    let ends = match locate_ends(table, hand, from, to, lost, tries) {
        EndsLocated::Both(ends) => ends,
        EndsLocated::Gone(gap) => return EdgeAddTried::Lacks(Lack::Key(gap)),
        EndsLocated::Again => return EdgeAddTried::Again,
    };
    let tried = as_tried(turns(table, hand, ends, to, weight, raised));
    if let EdgeAddTried::Lost = tried {
        *lost += 1;
        if *lost == tries {
            return EdgeAddTried::Again;
        }
    }
    tried
}

/// Adds an edge, by as many tries as may be lost. At most one node is taken, and none where the hand has a spare one.
pub(crate) fn add_pair(
    table: &GraphTable,
    hand: &mut Hand,
    pair: (u32, u32),
    weight: u32,
    tries: u32,
) -> EdgeAdding
    requires hand { IsHandOf table.now hand.old }
    requires pass { HasPass hand.old.token.view }
    requires nodes { HasItsNodes hand.old }
    requires limit { made pops hand.old.token.view.number hand.old.token.view.front + may_take hand.old.spare
        ≤ most_pops }
    requires weight { 1 ≤ weight }
    requires raised { HasRaised None hand.old.token.view }
    requires some { 0 < tries }
    ensures hand { IsHandOf table.now hand.new }
    ensures pass { HasPass hand.new.token.view }
    ensures nodes { HasItsNodes hand.new }
    ensures raised { (last : Option RaisedValue) × RaisesKept None last hand.old.token.view hand.new.token.view }
    ensures added { MatchEdgeAdding result pair.0 pair.1 weight tries hand.old hand.new }
{
    let mut lost = 0u32;
    let mut raised = None;
    loop {
        match try_add_pair(table, hand, pair, weight, &mut raised, &mut lost, tries) {
            EdgeAddTried::Done(outcome, moment) => return EdgeAdding::Done(outcome, moment),
            EdgeAddTried::Overtaken(ends, moment) => return EdgeAdding::Overtaken(ends, moment),
            EdgeAddTried::Present(seen) => return EdgeAdding::Present(seen),
            EdgeAddTried::Lacks(lack) => return EdgeAdding::Lacks(lack),
            EdgeAddTried::FullAtGap(gap) => return EdgeAdding::FullAtGap(gap),
            EdgeAddTried::FullAtEdge(seen) => return EdgeAdding::FullAtEdge(seen),
            EdgeAddTried::Again => return EdgeAdding::Again,
            EdgeAddTried::Lost => {}
        }
    }
}
