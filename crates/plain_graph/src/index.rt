//! The maps of a plain graph with their index: beside the out-edges of each vertex, the edges that lead to it.
//!
//! The index is a second map of the same form, with each edge the other way round (`IsMirror` of
//! `specs/Kept.antt`). So the sources of a vertex are found without a look at any other vertex. A vertex comes into the
//! index with the first edge that leads to it. All functions leave the maps mirrored; what they leave is said by
//! look-ups in the first map, and how many edges a removal takes out by the graph that it holds.

ghost use Rattle.std.specs.Prelude.{◌≡◌, ℕ, ◌+◌, ◌==◌, ◌&&◌, ◌||◌, true, false, cond, IfOk, OnOk, OnErr};
ghost use Rattle.std.specs.Prelude.{Some, None, IfSome, is_some};
ghost use Rattle.graph_kinds.specs.Graph.{pair_count};
ghost use Rattle.plain_graph.specs.Kept.{Rises, IsMirror, holds, weight_held, graph_in_maps};

use crate::maps::{self, Vertices};
use graph_kinds::Memory;
use std::alloc::Global;

/// Puts an edge between two vertices, or its new weight, and answers the weight before; `None` where the source isn't
/// there. O(log V).
///
/// # Errors
/// `Memory` where there is no room for it; all look-ups are as before then.
pub fn insert_edge(
    vertices: &mut Vertices,
    sources: &mut Vertices,
    alloc: Global,
    from: u32,
    to: u32,
    weight: u32,
) -> Result<Option<Option<u32>>, Memory>
    requires rises { Rises vertices.old }
    requires mirror { IsMirror vertices.old sources.old }
    ensures rises { Rises vertices.new }
    ensures mirror { IsMirror vertices.new sources.new }
    ensures keys { (q : ℕ) → holds vertices.new q ≡ holds vertices.old q }
    ensures weights { OnOk result ((a b : ℕ) → weight_held vertices.new a b
        ≡ cond (holds vertices.old from && ((from == a) && (to == b))) (Some weight) (weight_held vertices.old a b)) }
    ensures before { IfOk result
        (λ w. w ≡ cond (holds vertices.old from) (Some (weight_held vertices.old from to)) None) }
    ensures stays { OnErr result ((a b : ℕ) → weight_held vertices.new a b ≡ weight_held vertices.old a b) }
{
    maps::insert_edge_anywhere(sources, alloc, to, from, weight)?;
    match maps::insert_edge(vertices, from, to, weight) {
        Ok(Some(before)) => Ok(Some(before)),
        Ok(None) => {
            maps::remove_edge(sources, to, from);
            Ok(None)
        }
        Err(refusal) => {
            maps::remove_edge(sources, to, from);
            Err(refusal)
        }
    }
}

/// Takes out an edge, if there is one, and answers its weight; `None` where the source isn't there. O(log V).
pub fn remove_edge(
    vertices: &mut Vertices,
    sources: &mut Vertices,
    from: u32,
    to: u32,
) -> Option<Option<u32>>
    requires rises { Rises vertices.old }
    requires mirror { IsMirror vertices.old sources.old }
    ensures rises { Rises vertices.new }
    ensures mirror { IsMirror vertices.new sources.new }
    ensures keys { (q : ℕ) → holds vertices.new q ≡ holds vertices.old q }
    ensures weights { (a b : ℕ)
        → weight_held vertices.new a b ≡ cond ((from == a) && (to == b)) None (weight_held vertices.old a b) }
    ensures before { result ≡ cond (holds vertices.old from) (Some (weight_held vertices.old from to)) None }
{
    match maps::remove_edge(vertices, from, to) {
        Some(Some(weight)) => {
            maps::remove_edge(sources, to, from);
            Some(Some(weight))
        }
        Some(None) => Some(None),
        None => None,
    }
}

/// Takes out a vertex with the edges that lead from it, and answers how many they were; `None` where it isn't there.
/// O((1 + d) log V) for d edges.
pub fn remove_vertex(vertices: &mut Vertices, sources: &mut Vertices, key: u32) -> Option<usize>
    requires rises { Rises vertices.old }
    requires mirror { IsMirror vertices.old sources.old }
    ensures rises { Rises vertices.new }
    ensures mirror { IsMirror vertices.new sources.new }
    ensures keys { (q : ℕ) → holds vertices.new q ≡ cond (key == q) false (holds vertices.old q) }
    ensures weights { (a b : ℕ)
        → weight_held vertices.new a b ≡ cond (key == a) None (weight_held vertices.old a b) }
    ensures count { IfSome result (λ count.
        pair_count (graph_in_maps vertices.new) + count ≡ pair_count (graph_in_maps vertices.old)) }
    ensures was { is_some result ≡ holds vertices.old key }
{
    match maps::remove_vertex(vertices, key) {
        Some(targets) => {
            maps::remove_edges(sources, &targets, key);
            Some(targets.len())
        }
        None => None,
    }
}

/// Takes out the edges that lead to a key, and answers how many they were. O((1 + d) log V) for d edges.
pub fn remove_edges_to(vertices: &mut Vertices, sources: &mut Vertices, key: u32) -> usize
    requires rises { Rises vertices.old }
    requires mirror { IsMirror vertices.old sources.old }
    ensures rises { Rises vertices.new }
    ensures mirror { IsMirror vertices.new sources.new }
    ensures keys { (q : ℕ) → holds vertices.new q ≡ holds vertices.old q }
    ensures weights { (a b : ℕ)
        → weight_held vertices.new a b ≡ cond (key == b) None (weight_held vertices.old a b) }
    ensures count { pair_count (graph_in_maps vertices.new) + result ≡ pair_count (graph_in_maps vertices.old) }
{
    match maps::remove_vertex(sources, key) {
        Some(named) => maps::remove_edges(vertices, &named, key),
        None => 0,
    }
}
