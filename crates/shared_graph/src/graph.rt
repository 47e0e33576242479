//! The graph, and what callers do with it.

ghost use Rattle.std.specs.Prelude.{◌≡◌, ◌<◌};
ghost use Rattle.graph_kinds.specs.declared.call.Call.TheVariants.{AddVertex, HasVertex, RemoveVertex};
ghost use Rattle.core_journal.specs.Prefix.{IsPrefix};
ghost use Rattle.graph_table.specs.Tokens.{IsOf};
ghost use Rattle.graph_updates.specs.Ending.{MatchSettled};
ghost use Rattle.packed_link.specs.Layout.{IsLayout};
ghost use Rattle.shared_graph.specs.Callers.{IsCallerOf, LooksOn, front_of};
ghost use Rattle.shared_graph.specs.Performing.{HasPerformed, IsVertexCall};

use crate::caller::Caller;
use crate::hands::{copy_front, meet_front};
use graph_kinds::{Call, Outcome};
use graph_table::{GraphTable, Token};
use graph_updates::{Settled, add_vertex, has_vertex, remove_vertex, settle};
use packed_link::Layout;
use std::marker::Model;

/// A graph that callers share. Each call goes through a shared reference, so callers may be on threads of their own;
/// none waits for another.
#[derive(Drop)]
pub struct SharedGraph {
    pub(crate) table: GraphTable,
}

impl Model for SharedGraph {
    ghost use Rattle.graph_table.specs.Tokens.{TableValue};

    ghost Value = { TableValue };

    ghost view = { λ g. g.table };
}

/// What a caller had seen when it took the note.
#[derive(Drop)]
pub struct Note {
    pub(crate) token: Token,
}

impl Model for Note {
    ghost use Rattle.graph_table.specs.Tokens.{TokenValue};

    ghost Value = { TokenValue };

    ghost view = { λ n. n.token };
}

impl SharedGraph {
    /// The sizes of the graph, in O(1).
    pub fn layout(&self) -> Layout
        ensures sizes { result ≡ self.now.sizes }
        ensures limits { IsLayout result }
    {
        self.table.layout()
    }

    /// Adds a vertex: `Added`, or `Present(0)` if it was there at a moment of this call. It takes a node if the caller
    /// has no spare one. `Full` if the key was missing at a moment and no node was free at another one; `Again` if as
    /// many tries were lost as were given, each to a foreign event of its own; `Worn` exactly if the caller has had
    /// 4,294,967,296 uses. After these three the graph is as it was, as far as this call goes. O(vertices of the bucket
    /// before the key), and what helping costs.
    pub fn add_vertex(&self, caller: &mut Caller, key: u32, tries: u32) -> Outcome
        requires caller { IsCallerOf self.now caller.old }
        requires some { 0 < tries }
        ensures caller { IsCallerOf self.now caller.new }
        ensures answers { HasPerformed (AddVertex key) tries result caller.old caller.new }
    {
        add_vertex(&self.table, &mut caller.hand, key, tries)
    }

    /// Removes a vertex with its edges and the edges to it: `Removed(0)`, or `Absent` if it was missing at a moment of
    /// this call, also right after another caller's removal of it. `Again` and `Worn` come as for `add_vertex`.
    /// O(vertices of the bucket before the key + edges of the vertices that it unlinks + callers).
    pub fn remove_vertex(&self, caller: &mut Caller, key: u32, tries: u32) -> Outcome
        requires caller { IsCallerOf self.now caller.old }
        requires some { 0 < tries }
        ensures caller { IsCallerOf self.now caller.new }
        ensures answers { HasPerformed (RemoveVertex key) tries result caller.old caller.new }
    {
        remove_vertex(&self.table, &mut caller.hand, key, tries)
    }

    /// Whether a vertex has the key: `Yes` or `No`, as the graph was at a moment of this call. `Again` and `Worn` come
    /// as for `add_vertex`. O(vertices of the bucket before the key), and what helping costs.
    pub fn has_vertex(&self, caller: &mut Caller, key: u32, tries: u32) -> Outcome
        requires caller { IsCallerOf self.now caller.old }
        requires some { 0 < tries }
        ensures caller { IsCallerOf self.now caller.new }
        ensures answers { HasPerformed (HasVertex key) tries result caller.old caller.new }
    {
        has_vertex(&self.table, &mut caller.hand, key, tries)
    }

    /// Makes a call on vertices, as the function of its name does.
    pub(crate) fn perform(&self, caller: &mut Caller, call: &Call, tries: u32) -> Outcome
        requires caller { IsCallerOf self.now caller.old }
        requires some { 0 < tries }
        requires call { IsVertexCall call.now }
        ensures caller { IsCallerOf self.now caller.new }
        ensures answers { HasPerformed call.now tries result caller.old caller.new }
    {
        match *call {
            Call::AddVertex { key } => self.add_vertex(caller, key, tries),
            Call::RemoveVertex { key } => self.remove_vertex(caller, key, tries),
            Call::HasVertex { key } => self.has_vertex(caller, key, tries),
            _ => unreachable!(),
        }
    }

    /// Moves the epoch on twice, each time if that can be, and then gives back the nodes that this caller spent and
    /// that are ripe: O(callers + nodes given back). `Done` tells an epoch that was loaded after the moves; no node
    /// that the caller holds is ripe at it, and it holds none if no other caller's pass lagged. `Again` if as many
    /// give-backs were lost as tries were given, each to a foreign event; `Worn` exactly if the caller has had
    /// 4,294,967,296 uses. It counts one use and leaves the graph.
    pub fn settle(&self, caller: &mut Caller, tries: u32) -> Settled
        requires caller { IsCallerOf self.now caller.old }
        requires some { 0 < tries }
        ensures caller { IsCallerOf self.now caller.new }
        ensures settled { MatchSettled result tries caller.old.hand caller.new.hand }
        ensures keys { caller.new.keys ≡ caller.old.keys }
        ensures ends { caller.new.ends ≡ caller.old.ends }
    {
        settle(&self.table, &mut caller.hand, tries)
    }

    /// The keys of the caller's last answer, in O(1): none for an answer other than Path, Cost and Levels.
    pub fn keys<'c>(&self, caller: &'c Caller) -> &'c [u32]
        ensures keys { result.now ≡ caller.now.keys }
    {
        let _hand = &caller.hand;
        &[]
    }

    /// Where each level of the caller's last answer ends, in O(1), as numbers of keys: none for an answer other than
    /// Levels.
    pub fn ends<'c>(&self, caller: &'c Caller) -> &'c [u32]
        ensures ends { result.now ≡ caller.now.ends }
    {
        let _hand = &caller.hand;
        &[]
    }

    /// Copies what the caller has seen, in O(1), for another caller to meet.
    pub fn note(&self, caller: &mut Caller) -> Note
        requires caller { IsCallerOf self.now caller.old }
        ensures caller { IsCallerOf self.now caller.new }
        ensures looks { LooksOn caller.old caller.new }
        ensures note { IsOf self.now result }
        ensures seen { result.view.front ≡ front_of caller.old }
    {
        Note {
            token: copy_front(&self.table, &mut caller.hand),
        }
    }

    /// Meets a note, in O(1): what was seen when it was taken, the caller has seen too from now on.
    pub fn meet(&self, caller: &mut Caller, note: Note)
        requires caller { IsCallerOf self.now caller.old }
        requires note { IsOf self.now note }
        ensures caller { IsCallerOf self.now caller.new }
        ensures looks { LooksOn caller.old caller.new }
        ensures met { IsPrefix note.view.front (front_of caller.new) }
    {
        let Note { token } = note;
        meet_front(&self.table, &mut caller.hand, token);
    }
}
