//! The three calls on vertices, from entry to reply.

ghost use Rattle.std.specs.Prelude.{◌<◌};
ghost use Rattle.graph_kinds.specs.Answer.{plain};
ghost use Rattle.graph_kinds.specs.declared.call.Call.TheVariants.{AddVertex, HasVertex, RemoveVertex};
ghost use Rattle.core_stretches.specs.Holdings.{HasNoPass};
ghost use Rattle.graph_updates.specs.Calls.{Answers};
ghost use Rattle.graph_updates.specs.Hands.{IsHandOf, IsInOrder};

use crate::adding::{Adding, add};
use crate::ending::{Begun, begin, finish};
use crate::hand::Hand;
use crate::locating::{Located, locate};
use crate::removing::{Removing, remove};
use crate::replying::{Entered, reply, reply_after_mark, reply_again, reply_full, reply_to_change};
use graph_kinds::{Call, Outcome};
use graph_table::GraphTable;

/// Whether a vertex has the key: `Yes` or `No`, as the graph was at a moment of this call. O(vertices of the bucket
/// before the key), and what helping costs. `Again` where as many tries were lost as were given, each of which met a
/// foreign event of its own; `Worn` exactly where the hand has had 4,294,967,296 uses, and then nothing is done. The
/// hand is in order and has no open pass.
pub fn has_vertex(table: &GraphTable, hand: &mut Hand, key: u32, tries: u32) -> Outcome
    requires hand { IsHandOf table.now hand.old }
    requires closed { HasNoPass hand.old.token.view }
    requires order { IsInOrder hand.old }
    requires some { 0 < tries }
    ensures hand { IsHandOf table.now hand.new }
    ensures closed { HasNoPass hand.new.token.view }
    ensures order { IsInOrder hand.new }
    ensures answers { Answers (HasVertex key) tries (plain result) hand.old hand.new }
{
    let entered = Entered::by(&*hand);
    if let Begun::Worn = begin(table, hand) {
        return Outcome::Worn;
    }
    let mut lost = 0u32;
    let located = locate(table, hand, key, &mut lost, tries);
    finish(table, hand);
    let call = Call::HasVertex { key };
    match located {
        Located::Here(seen) => reply(
            table,
            hand,
            &entered,
            &call,
            tries,
            Outcome::Yes,
            &seen.moment,
        ),
        Located::Gone(gap) => reply(
            table,
            hand,
            &entered,
            &call,
            tries,
            Outcome::No,
            gap.moment(),
        ),
        Located::Again => reply_again(table, hand, &entered, &call, tries),
    }
}

/// Adds a vertex: `Added`, or `Present(0)` where it was there at a moment of this call. It takes a node where the hand
/// has no spare one. `Full` where the key was missing at a moment and no node was free at another one; `Again` and
/// `Worn` come as for `has_vertex`. After these three the graph is as it was, as far as this call goes. O(vertices of
/// the bucket before the key), and what helping costs.
pub fn add_vertex(table: &GraphTable, hand: &mut Hand, key: u32, tries: u32) -> Outcome
    requires hand { IsHandOf table.now hand.old }
    requires closed { HasNoPass hand.old.token.view }
    requires order { IsInOrder hand.old }
    requires some { 0 < tries }
    ensures hand { IsHandOf table.now hand.new }
    ensures closed { HasNoPass hand.new.token.view }
    ensures order { IsInOrder hand.new }
    ensures answers { Answers (AddVertex key) tries (plain result) hand.old hand.new }
{
    let entered = Entered::by(&*hand);
    if let Begun::Worn = begin(table, hand) {
        return Outcome::Worn;
    }
    let added = add(table, hand, key, tries);
    finish(table, hand);
    let call = Call::AddVertex { key };
    match added {
        Adding::Linked(moment) => {
            reply_to_change(table, hand, &entered, &call, tries, Outcome::Added, &moment)
        }
        Adding::There(seen) => {
            reply(
                table,
                hand,
                &entered,
                &call,
                tries,
                Outcome::Present(0),
                &seen.moment,
            )
        }
        Adding::Full(gap) => reply_full(table, hand, &entered, &call, tries, gap.moment()),
        Adding::Again => reply_again(table, hand, &entered, &call, tries),
    }
}

/// Removes a vertex with its edges and the edges to it: `Removed(0)`, or `Absent` where it was missing at a moment of
/// this call, also right after another caller's removal of it. After `Removed` one more walk unlinks the vertex, and
/// what this call unlinks it buries: its list is frozen, its edges are retired, and then the vertex. `Again` and `Worn`
/// come as for `has_vertex`, and leave the graph as it was. O(vertices of the bucket before the key + edges of the
/// vertices that it unlinks + callers).
pub fn remove_vertex(table: &GraphTable, hand: &mut Hand, key: u32, tries: u32) -> Outcome
    requires hand { IsHandOf table.now hand.old }
    requires closed { HasNoPass hand.old.token.view }
    requires order { IsInOrder hand.old }
    requires some { 0 < tries }
    ensures hand { IsHandOf table.now hand.new }
    ensures closed { HasNoPass hand.new.token.view }
    ensures order { IsInOrder hand.new }
    ensures answers { Answers (RemoveVertex key) tries (plain result) hand.old hand.new }
{
    let entered = Entered::by(&*hand);
    if let Begun::Worn = begin(table, hand) {
        return Outcome::Worn;
    }
    let removed = remove(table, hand, key, tries);
    finish(table, hand);
    let call = Call::RemoveVertex { key };
    match removed {
        Removing::Marked(moment) => {
            reply_to_change(
                table,
                hand,
                &entered,
                &call,
                tries,
                Outcome::Removed(0),
                &moment,
            )
        }
        Removing::WasMarked(life) => {
            reply_after_mark(table, hand, &entered, &call, tries, Outcome::Absent, life)
        }
        Removing::Gone(gap) => {
            reply(
                table,
                hand,
                &entered,
                &call,
                tries,
                Outcome::Absent,
                gap.moment(),
            )
        }
        Removing::Again => reply_again(table, hand, &entered, &call, tries),
    }
}
