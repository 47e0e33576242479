//! The graph of one caller, in ordered maps.
//!
//! A map has each vertex by its key with the map of its out-edges. Beside it stand the count of the edges and an
//! index, which has the edges that lead to each vertex. Contracts see the graph that the map holds (`graph_in_maps`);
//! what map, count and index keep is `IsIndexedGraph`, both of `specs/Kept.antt`. The scan of the last path and the
//! numbers of its rows are kept for the next one, and are no part of the graph.

ghost use Rattle.std.specs.Prelude.{◌≡◌, ℕ, ◌+◌, ◌≤◌, ◌<◌, ◌==◌, [], true, cond, not, IfOk, OnOk, OnErr};
ghost use Rattle.std.specs.Prelude.{Some, None, IsSome, IfSome, IfNone};
ghost use Rattle.std.specs.BTreeMap.{keys};
ghost use Rattle.std.specs.FinMap as finite_map;
ghost use Rattle.plain_graph.specs.Kept.{pairs_in};
ghost use Rattle.graph_kinds.specs.Graph.{empty_graph, sorted_keys, has, weight_of, key_count, pair_count, IsGraph};
ghost use Rattle.graph_kinds.specs.Part.{part};
ghost use Rattle.graph_kinds.specs.Answer.{change};
ghost use Rattle.scan_record.specs.Scan.{IsComplete, row_at};
ghost use Rattle.scan_record.specs.ScanGraph.{graph_of_scan};

use crate::numbers::Numbers;
use crate::{index, maps, parts};
use graph_kinds::{Call, Memory};
use scan_record::Scan;
use std::alloc::Global;
use std::collections::BTreeMap;
use std::marker::Model;

/// A graph of one caller. It holds at most 65,536 vertices and edges.
#[derive(Drop)]
pub struct PlainGraph {
    alloc: Global,
    vertices: BTreeMap<u32, BTreeMap<u32, u32>>,
    sources: BTreeMap<u32, BTreeMap<u32, u32>>,
    edges: u32,
    scan: Option<Scan>,
    numbers: Numbers,
}

impl Model for PlainGraph {
    ghost use Rattle.graph_kinds.specs.Graph.{Graph, graph_code};

    ghost Value = { Graph };

    ghost coded = { graph_code };

    ghost use Rattle.plain_graph.specs.Kept.{graph_in_maps, IsIndexedGraph};

    ghost view = { λ g. graph_in_maps g.vertices };

    ghost invariant = { λ g. IsIndexedGraph g.vertices g.sources g.edges };
}

impl PlainGraph {
    /// The empty graph. O(1), takes no memory.
    pub fn new(alloc: Global) -> Self
        ensures { result ≡ empty_graph }
    {
        PlainGraph {
            alloc,
            vertices: BTreeMap::new(alloc),
            sources: BTreeMap::new(alloc),
            edges: 0,
            scan: None,
            numbers: Numbers::new(alloc),
        }
    }

    /// The allocator that the graph takes its memory from. O(1).
    pub(crate) fn allocator(&self) -> Global
        ensures sound { IsGraph self.now }
    {
        self.alloc
    }

    /// The maps, for the text of the graph. O(1).
    pub(crate) fn vertices(&self) -> &BTreeMap<u32, BTreeMap<u32, u32>>
        ensures keys { keys result.now ≡ sorted_keys self.now }
        ensures pairs { pairs_in result.now ≡ finite_map.entries self.now.pairs }
    {
        &self.vertices
    }

    /// How many vertices there are. O(1).
    pub fn vertex_count(&self) -> u32
        ensures count { result ≡ key_count self.now }
        ensures sound { IsGraph self.now }
        ensures few { key_count self.now + pair_count self.now ≤ 65536 }
    {
        self.vertices.len() as u32
    }

    /// How many edges there are. O(1).
    pub fn edge_count(&self) -> u32
        ensures { result ≡ pair_count self.now }
    {
        self.edges
    }

    /// Whether a vertex has the key. O(log V).
    pub fn has(&self, key: u32) -> bool
        ensures { result ≡ has self.now key }
    {
        self.vertices.contains_key(&key)
    }

    /// The weight of the edge between two keys, if there is one. O(log V).
    pub fn weight(&self, from: u32, to: u32) -> Option<u32>
        ensures { result ≡ weight_of self.now from to }
    {
        match self.vertices.get(&from) {
            Some(edges) => edges.get(&to).copied(),
            None => None,
        }
    }

    /// The weight of the edge between two keys, if there is one; `None` where the source is no vertex. O(log V).
    pub(crate) fn weight_from(&self, from: u32, to: u32) -> Option<Option<u32>>
        ensures { result ≡ cond (has self.now from) (Some (weight_of self.now from to)) None }
    {
        maps::weight_from(&self.vertices, from, to)
    }

    /// Makes the key a vertex; one that is there keeps its edges. O(log V).
    ///
    /// # Errors
    /// `Memory` where there is no room for it; the graph is unchanged then.
    pub fn put_vertex(&mut self, key: u32) -> Result<(), Memory>
        requires { key_count self.old + pair_count self.old < 65536 }
        ensures ok { OnOk result (self.new ≡ change self.old (Call.AddVertex key)) }
        ensures err { OnErr result (self.new ≡ self.old) }
    {
        self.enter_vertex(key)?;
        Ok(())
    }

    /// Makes the key a vertex where it is none, and tells whether it was none. O(log V), by one look-up.
    ///
    /// # Errors
    /// `Memory` where there is no room for it; the graph is unchanged then.
    pub(crate) fn enter_vertex(&mut self, key: u32) -> Result<bool, Memory>
        requires { key_count self.old + pair_count self.old < 65536 }
        ensures ok { OnOk result (self.new ≡ change self.old (Call.AddVertex key)) }
        ensures err { OnErr result (self.new ≡ self.old) }
        ensures fresh { IfOk result (λ fresh. fresh ≡ not (has self.old key)) }
    {
        maps::enter_vertex(&mut self.vertices, self.alloc, key)
    }

    /// Puts the edge between two vertices, or gives the one that is there its new weight. O(log V).
    ///
    /// # Errors
    /// `Memory` where there is no room for it; the graph is unchanged then.
    pub fn put_edge(&mut self, from: u32, to: u32, weight: u32) -> Result<(), Memory>
        requires from_key { has self.old from ≡ true }
        requires to_key { has self.old to ≡ true }
        requires weighed { 1 ≤ weight }
        requires room { key_count self.old + pair_count self.old < 65536 }
        ensures ok { OnOk result (self.new ≡ change self.old (Call.AddEdge from to weight)) }
        ensures err { OnErr result (self.new ≡ self.old) }
    {
        self.enter_edge(from, to, weight)?;
        Ok(())
    }

    /// Puts the edge to a vertex, or gives the one that is there its new weight, and answers the weight before; `None`
    /// where the source is no vertex. O(log V).
    ///
    /// # Errors
    /// `Memory` where there is no room for it; the graph is unchanged then.
    pub(crate) fn enter_edge(
        &mut self,
        from: u32,
        to: u32,
        weight: u32,
    ) -> Result<Option<Option<u32>>, Memory>
        requires to_key { has self.old to ≡ true }
        requires weighed { 1 ≤ weight }
        requires room { key_count self.old + pair_count self.old < 65536 }
        ensures ok { OnOk result
            (self.new ≡ cond (has self.old from) (change self.old (Call.AddEdge from to weight)) self.old) }
        ensures err { OnErr result (self.new ≡ self.old) }
        ensures before { IfOk result (λ w. w ≡ cond (has self.old from) (Some (weight_of self.old from to)) None) }
    {
        let (vertices, sources) = (&mut self.vertices, &mut self.sources);
        match index::insert_edge(vertices, sources, self.alloc, from, to, weight)? {
            Some(before) => {
                if before.is_none() {
                    self.edges += 1;
                }
                Ok(Some(before))
            }
            None => Ok(None),
        }
    }

    /// Takes out a vertex with its edges and the edges to it, and tells whether it was there. O((1 + degree) log V),
    /// in-edges counted, and O(log V) by one look-up where it isn't there.
    pub(crate) fn cut_vertex(&mut self, key: u32) -> bool
        ensures cut { self.new ≡ change self.old (Call.RemoveVertex key) }
        ensures was { result ≡ has self.old key }
        ensures sound { IsGraph self.old }
    {
        let Some(outward) = index::remove_vertex(&mut self.vertices, &mut self.sources, key) else {
            return false;
        };
        let inward = index::remove_edges_to(&mut self.vertices, &mut self.sources, key);
        self.edges -= (outward + inward) as u32;
        self.numbers.forget(key);
        true
    }

    /// Takes out the edge between two keys, if there is one, and answers its weight; `None` where the source is no
    /// vertex. O(log V).
    pub(crate) fn cut_edge(&mut self, from: u32, to: u32) -> Option<Option<u32>>
        ensures cut { self.new ≡ change self.old (Call.RemoveEdge from to) }
        ensures was { result ≡ cond (has self.old from) (Some (weight_of self.old from to)) None }
    {
        match index::remove_edge(&mut self.vertices, &mut self.sources, from, to) {
            Some(Some(weight)) => {
                self.edges -= 1;
                Some(Some(weight))
            }
            Some(None) => Some(None),
            None => None,
        }
    }

    /// A scan that holds the part that is reached from a root, with the root's row first and no answer yet.
    /// O(part · log V).
    ///
    /// # Errors
    /// `Memory` where there is no room for it.
    pub(crate) fn scan_from(&mut self, root: u32) -> Result<Scan, Memory>
        requires { has self.old root ≡ true }
        ensures complete { IfOk result (λ s. IsComplete s) }
        ensures graph { IfOk result (λ s. graph_of_scan s ≡ part self.old root) }
        ensures root { IfOk result (λ s. (row_at s 0).key ≡ root) }
        ensures no_keys { IfOk result (λ s. s.keys ≡ []) }
        ensures no_ends { IfOk result (λ s. s.ends ≡ []) }
        ensures same { self.new ≡ self.old }
        ensures sound { IsGraph self.old }
    {
        let kept = self.scan.take();
        parts::scan_of_part(self.alloc, kept, &mut self.numbers, &self.vertices, root)
    }

    /// Keeps a scan for the next path. O(1).
    pub(crate) fn keep_scan(&mut self, scan: Scan)
        ensures { self.new ≡ self.old }
    {
        self.scan = Some(scan);
    }
}
