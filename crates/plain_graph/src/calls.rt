//! The calls on a plain graph.
//!
//! Each call is answered by look-ups on the graph before it, and then makes its change: the definitions are `answer`
//! and `after` of `graph_kinds`.

ghost use Rattle.std.specs.Prelude.{◌≡◌, ◌+◌, ◌≤◌, ◌<◌, ◌^◌, ◌&&◌, cond, IfOk, OnOk, OnErr};
ghost use Rattle.graph_kinds.specs.Graph.{has, key_count, pair_count, IsGraph};
ghost use Rattle.graph_kinds.specs.Answer.{IsWellMade, plain, answer, after};
ghost use Rattle.plain_graph.specs.Calls.{CostIsBelow, IsAdd, outcome_of_put};
ghost use Rattle.scan_record.specs.Asked.{answer_in_region};

use crate::graph::PlainGraph;
use graph_kinds::{Answer, Call, Keys, Memory, Outcome, parts_are_answered_alike};
use scan_record::Scan;
use std::alloc::Global;

// An answer without keys.
fn bare(alloc: Global, outcome: Outcome) -> Answer
    ensures { result ≡ plain outcome }
{
    Answer {
        outcome,
        keys: Keys::new(alloc),
        ends: Keys::new(alloc),
    }
}

// The outcome of an edge's add, by the other weight that it had before.
fn put_in_place_of(before: Option<u32>) -> Outcome
    ensures { result ≡ outcome_of_put before }
{
    match before {
        Some(weight) => Outcome::Changed(weight),
        None => Outcome::Added,
    }
}

// The answer that stands in the answer region of a scan, copied.
fn copied(alloc: Global, outcome: Outcome, scan: &Scan) -> Result<Answer, Memory>
    ensures { IfOk result (λ a. a ≡ answer_in_region outcome scan.now) }
{
    Ok(Answer {
        outcome,
        keys: Keys::copy(alloc, scan.keys())?,
        ends: Keys::copy(alloc, scan.ends())?,
    })
}

impl PlainGraph {
    /// Answers a call, and makes its change. O(log V); `RemoveVertex` costs O((1 + degree) log V), in-edges
    /// counted. `Reach`, `Levels` and `Cheapest` cost O(part · log V) for the vertices and edges that are reached. A
    /// cost that is answered is below 2^48.
    ///
    /// # Errors
    /// `Memory` where there is no room for a new vertex or edge, or for the search of a path; the graph is
    /// unchanged then.
    pub fn perform(&mut self, call: &Call) -> Result<Answer, Memory>
        requires well_made { IsWellMade call.now }
        requires room { IsAdd call.now → key_count self.old + pair_count self.old < 65536 }
        ensures answer { IfOk result (λ a. a ≡ answer self.old call.now) }
        ensures bounded { IfOk result (λ a. CostIsBelow (2 ^ 48) a.outcome) }
        ensures change { OnOk result (self.new ≡ after self.old call.now) }
        ensures stays { OnErr result (self.new ≡ self.old) }
        ensures sound { IsGraph self.new }
    {
        let alloc = self.allocator();
        match *call {
            Call::AddVertex { key } => Ok(bare(alloc, self.add_vertex(key)?)),
            Call::RemoveVertex { key } => Ok(bare(alloc, self.remove_vertex(key))),
            Call::HasVertex { key } => Ok(bare(alloc, self.has_vertex(key))),
            Call::AddEdge { from, to, weight } => Ok(bare(alloc, self.add_edge(from, to, weight)?)),
            Call::RemoveEdge { from, to } => Ok(bare(alloc, self.remove_edge(from, to))),
            Call::HasEdge { from, to } => Ok(bare(alloc, self.has_edge(from, to))),
            Call::Reach { from, to } => self.reach(from, to),
            Call::Levels { from } => self.levels(from),
            Call::Cheapest { from, to } => self.cheapest(from, to),
        }
    }

    /// Whether both keys are vertices.
    fn has_both(&self, from: u32, to: u32) -> bool
        ensures { result ≡ (has self.now from && has self.now to) }
    {
        self.has(from) && self.has(to)
    }

    /// Makes the key a vertex where it is none.
    fn add_vertex(&mut self, key: u32) -> Result<Outcome, Memory>
        requires { key_count self.old + pair_count self.old < 65536 }
        ensures answer { IfOk result (λ o. plain o ≡ answer self.old (Call.AddVertex key)) }
        ensures change { OnOk result (self.new ≡ after self.old (Call.AddVertex key)) }
        ensures stays { OnErr result (self.new ≡ self.old) }
    {
        let fresh = self.enter_vertex(key)?;
        if fresh {
            Ok(Outcome::Added)
        } else {
            Ok(Outcome::Present(0))
        }
    }

    /// Takes the vertex out with its edges, where it is there.
    fn remove_vertex(&mut self, key: u32) -> Outcome
        ensures answer { plain result ≡ answer self.old (Call.RemoveVertex key) }
        ensures change { self.new ≡ after self.old (Call.RemoveVertex key) }
    {
        if self.cut_vertex(key) {
            Outcome::Removed(0)
        } else {
            Outcome::Absent
        }
    }

    /// Whether the key is a vertex, as an answer.
    fn has_vertex(&self, key: u32) -> Outcome
        ensures answer { plain result ≡ answer self.now (Call.HasVertex key) }
        ensures change { self.now ≡ after self.now (Call.HasVertex key) }
    {
        if self.has(key) {
            Outcome::Yes
        } else {
            Outcome::No
        }
    }

    /// Puts the edge where both ends are there, in place of one with another weight.
    fn add_edge(&mut self, from: u32, to: u32, weight: u32) -> Result<Outcome, Memory>
        requires weighed { 1 ≤ weight }
        requires room { key_count self.old + pair_count self.old < 65536 }
        ensures answer { IfOk result (λ o. plain o ≡ answer self.old (Call.AddEdge from to weight)) }
        ensures change { OnOk result (self.new ≡ after self.old (Call.AddEdge from to weight)) }
        ensures stays { OnErr result (self.new ≡ self.old) }
    {
        if !self.has(to) {
            return Ok(Outcome::NoVertex);
        }
        let Some(before) = self.enter_edge(from, to, weight)? else {
            return Ok(Outcome::NoVertex);
        };
        if before == Some(weight) {
            return Ok(Outcome::Present(weight));
        }
        Ok(put_in_place_of(before))
    }

    /// Takes the edge out where it is there; where its source has none to the target, looks whether that is there.
    fn remove_edge(&mut self, from: u32, to: u32) -> Outcome
        ensures answer { plain result ≡ answer self.old (Call.RemoveEdge from to) }
        ensures change { self.new ≡ after self.old (Call.RemoveEdge from to) }
    {
        self.allocator();
        let Some(before) = self.cut_edge(from, to) else {
            return Outcome::NoVertex;
        };
        match before {
            Some(weight) => Outcome::Removed(weight),
            None => self.without_edge(to),
        }
    }

    /// The weight of the edge, as an answer; where its source has none to the target, looks whether that is there.
    fn has_edge(&self, from: u32, to: u32) -> Outcome
        ensures answer { plain result ≡ answer self.now (Call.HasEdge from to) }
        ensures change { self.now ≡ after self.now (Call.HasEdge from to) }
    {
        self.allocator();
        let Some(held) = self.weight_from(from, to) else {
            return Outcome::NoVertex;
        };
        match held {
            Some(weight) => Outcome::Edge(weight),
            None => self.without_edge(to),
        }
    }

    /// What is answered of a vertex and a key to which no edge leads from it.
    fn without_edge(&self, to: u32) -> Outcome
        ensures { result ≡ cond (has self.now to) Outcome.NoEdge Outcome.NoVertex }
    {
        if self.has(to) {
            Outcome::NoEdge
        } else {
            Outcome::NoVertex
        }
    }

    /// The path by parents, through a scan of the part that is reached.
    fn reach(&mut self, from: u32, to: u32) -> Result<Answer, Memory>
        ensures answer { IfOk result (λ a. a ≡ answer self.old (Call.Reach from to)) }
        ensures change { OnOk result (self.new ≡ after self.old (Call.Reach from to)) }
        ensures stays { self.new ≡ self.old }
        ensures sound { IsGraph self.old }
    {
        let alloc = self.allocator();
        if !self.has_both(from, to) {
            return Ok(bare(alloc, Outcome::NoVertex));
        }
        parts_are_answered_alike();
        let mut scan = self.scan_from(from)?;
        let outcome = path_levels::reach(&mut scan, to);
        let answer = copied(alloc, outcome, &scan);
        self.keep_scan(scan);
        answer
    }

    /// The levels, through a scan of the part that is reached.
    fn levels(&mut self, from: u32) -> Result<Answer, Memory>
        ensures answer { IfOk result (λ a. a ≡ answer self.old (Call.Levels from)) }
        ensures change { OnOk result (self.new ≡ after self.old (Call.Levels from)) }
        ensures stays { self.new ≡ self.old }
        ensures sound { IsGraph self.old }
    {
        let alloc = self.allocator();
        if !self.has(from) {
            return Ok(bare(alloc, Outcome::NoVertex));
        }
        parts_are_answered_alike();
        let mut scan = self.scan_from(from)?;
        let outcome = path_levels::levels(&mut scan);
        let answer = copied(alloc, outcome, &scan);
        self.keep_scan(scan);
        answer
    }

    /// The cheapest path by least keys, through a scan of the part that is reached.
    fn cheapest(&mut self, from: u32, to: u32) -> Result<Answer, Memory>
        ensures answer { IfOk result (λ a. a ≡ answer self.old (Call.Cheapest from to)) }
        ensures bounded { IfOk result (λ a. CostIsBelow (2 ^ 48) a.outcome) }
        ensures change { OnOk result (self.new ≡ after self.old (Call.Cheapest from to)) }
        ensures stays { self.new ≡ self.old }
        ensures sound { IsGraph self.old }
    {
        let alloc = self.allocator();
        if !self.has_both(from, to) {
            return Ok(bare(alloc, Outcome::NoVertex));
        }
        parts_are_answered_alike();
        let mut scan = self.scan_from(from)?;
        let outcome = path_costs::cheapest(&mut scan, to);
        let answer = copied(alloc, outcome, &scan);
        self.keep_scan(scan);
        answer
    }
}
