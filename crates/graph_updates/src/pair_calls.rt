//! The calls on edges, from entry to reply.

ghost use Rattle.std.specs.Prelude.{◌<◌, ◌≤◌};
ghost use Rattle.graph_kinds.specs.Answer.{plain};
ghost use Rattle.graph_kinds.specs.declared.call.Call.TheVariants.{AddEdge, HasEdge, RemoveEdge};
ghost use Rattle.core_stretches.specs.Holdings.{HasNoPass};
ghost use Rattle.graph_updates.specs.Calls.{Answers};
ghost use Rattle.graph_updates.specs.Hands.{IsHandOf, IsInOrder};

use crate::edge_adding::{EdgeAdding, add_pair};
use crate::edge_looking::{EdgeLooked, look_up};
use crate::edge_removing::{EdgeRemoving, remove_pair};
use crate::ending::{Begun, begin, finish};
use crate::hand::Hand;
use crate::replying::{
    Entered, reply, reply_again, reply_full, reply_lacking, reply_overtaken, reply_to_change,
};
use graph_kinds::{Call, Outcome};
use graph_table::GraphTable;

/// Whether the graph has a pair of keys: `Edge` with its weight; `NoVertex` if it lacks one of the keys, or `NoEdge`
/// if it has both and no pair of them, as the graph was at a moment of this call, which may be right after the mark
/// of a vertex that this call found. O(vertices of the two buckets before the keys + edges of the source before the
/// key), and what helping costs. `Again` if as many tries were lost as were given, each of which met a foreign event
/// of its own; `Worn` exactly if the hand has had 4,294,967,296 uses, and then nothing is done. The hand is in order
/// and has no open pass.
pub fn has_edge(table: &GraphTable, hand: &mut Hand, from: u32, to: u32, tries: u32) -> Outcome
    requires hand { IsHandOf table.now hand.old }
    requires closed { HasNoPass hand.old.token.view }
    requires order { IsInOrder hand.old }
    requires some { 0 < tries }
    ensures hand { IsHandOf table.now hand.new }
    ensures closed { HasNoPass hand.new.token.view }
    ensures order { IsInOrder hand.new }
    ensures answers { Answers (HasEdge from to) tries (plain result) hand.old hand.new }
{
    let entered = Entered::by(&*hand);
    if let Begun::Worn = begin(table, hand) {
        return Outcome::Worn;
    }
    let looked = look_up(table, hand, from, to, tries);
    finish(table, hand);
    let call = Call::HasEdge { from, to };
    match looked {
        EdgeLooked::Edge(seen) => {
            let outcome = Outcome::Edge(seen.edge.weight);
            reply(table, hand, &entered, &call, tries, outcome, &seen.moment)
        }
        EdgeLooked::Lacks(lack) => reply_lacking(table, hand, &entered, &call, tries, lack),
        EdgeLooked::Again => reply_again(table, hand, &entered, &call, tries),
    }
}

/// Adds an edge, or gives it another weight: `Added` if both keys are there without a pair; `Changed` with the weight
/// that the pair had, if that differs; `Present` with the weight if it's the same, and then nothing changes. `NoVertex`
/// comes as for `has_edge`. `Full` if no node was free at a moment of this call and it would take one at a moment: then
/// the graph is as it was, as far as this call goes. `Overtaken` if it linked or replaced the edge and one of the
/// ends is
/// over by then: if an end was marked first, the entry stands at that mark, and the graph is as it was, as far as this
/// call goes; else it stands at this call's exchange, which changed the pair. At most one node is taken, and none if
/// the
/// hand has a spare one. An edge to an earlier life of the target's key is marked on the way, and the list is walked
/// anew; the second time in one try that counts as a lost try, since another caller linked the edge meanwhile. Before
/// it
/// replaces or marks an edge it raises the counter of its source, once for each edge. `Again` and `Worn` come as for
/// `has_edge`, and leave the graph as it was. O(vertices of the two buckets before the keys + edges of the source
/// before
/// the key), and what helping costs. The weight is at least 1.
pub fn add_edge(
    table: &GraphTable,
    hand: &mut Hand,
    from: u32,
    to: u32,
    weight: u32,
    tries: u32,
) -> Outcome
    requires hand { IsHandOf table.now hand.old }
    requires closed { HasNoPass hand.old.token.view }
    requires order { IsInOrder hand.old }
    requires weight { 1 ≤ weight }
    requires some { 0 < tries }
    ensures hand { IsHandOf table.now hand.new }
    ensures closed { HasNoPass hand.new.token.view }
    ensures order { IsInOrder hand.new }
    ensures answers { Answers (AddEdge from to weight) tries (plain result) hand.old hand.new }
{
    let entered = Entered::by(&*hand);
    if let Begun::Worn = begin(table, hand) {
        return Outcome::Worn;
    }
    let added = add_pair(table, hand, (from, to), weight, tries);
    finish(table, hand);
    let call = Call::AddEdge { from, to, weight };
    match added {
        EdgeAdding::Done(outcome, moment) => {
            reply_to_change(table, hand, &entered, &call, tries, outcome, &moment)
        }
        EdgeAdding::Overtaken(ends, moment) => {
            reply_overtaken(table, hand, &entered, &call, tries, ends, &moment)
        }
        EdgeAdding::Present(seen) => {
            let outcome = Outcome::Present(weight);
            reply(table, hand, &entered, &call, tries, outcome, &seen.moment)
        }
        EdgeAdding::Lacks(lack) => reply_lacking(table, hand, &entered, &call, tries, lack),
        EdgeAdding::FullAtGap(gap) => {
            let place = gap.moment();
            reply_full(table, hand, &entered, &call, tries, place)
        }
        EdgeAdding::FullAtEdge(seen) => {
            reply_full(table, hand, &entered, &call, tries, &seen.moment)
        }
        EdgeAdding::Again => reply_again(table, hand, &entered, &call, tries),
    }
}

/// Removes an edge: `Removed` with its weight; `NoVertex` or `NoEdge` as for `has_edge`, and `NoEdge` also right
/// after another caller's mark of the edge. Before it marks the edge it raises the counter of its source; after that
/// it loads the links of both ends, and one more walk unlinks the edge. `Overtaken` if it marked the edge and one of
/// the ends is over by then: if an end was marked first, the entry stands at that mark, and the graph is as it was,
/// as far as this call goes; else it stands at this call's mark, which removed the pair. An edge that another caller
/// replaced meanwhile is a lost try. `Again` and `Worn` come as for `has_edge`, and leave the graph as it was.
/// O(vertices of the two buckets before the keys + edges of the source before the key), and what helping costs.
pub fn remove_edge(table: &GraphTable, hand: &mut Hand, from: u32, to: u32, tries: u32) -> Outcome
    requires hand { IsHandOf table.now hand.old }
    requires closed { HasNoPass hand.old.token.view }
    requires order { IsInOrder hand.old }
    requires some { 0 < tries }
    ensures hand { IsHandOf table.now hand.new }
    ensures closed { HasNoPass hand.new.token.view }
    ensures order { IsInOrder hand.new }
    ensures answers { Answers (RemoveEdge from to) tries (plain result) hand.old hand.new }
{
    let entered = Entered::by(&*hand);
    if let Begun::Worn = begin(table, hand) {
        return Outcome::Worn;
    }
    let removed = remove_pair(table, hand, from, to, tries);
    finish(table, hand);
    let call = Call::RemoveEdge { from, to };
    match removed {
        EdgeRemoving::Marked(weight, moment) => {
            let outcome = Outcome::Removed(weight);
            reply_to_change(table, hand, &entered, &call, tries, outcome, &moment)
        }
        EdgeRemoving::Overtaken(ends, moment) => {
            reply_overtaken(table, hand, &entered, &call, tries, ends, &moment)
        }
        EdgeRemoving::Lacks(lack) => reply_lacking(table, hand, &entered, &call, tries, lack),
        EdgeRemoving::Again => reply_again(table, hand, &entered, &call, tries),
    }
}
