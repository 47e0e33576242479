//! A map of vertices: of each the map of its edges, which has the weight of each by the key of its other end.
//!
//! A plain graph has two of them, which `index` keeps alike. What the functions leave is said by look-ups (`holds`
//! and `weight_held` of `specs/Kept.antt`), and how many edges a removal takes out by the graph that the maps hold; all
//! of them keep `Rises`.

ghost use Rattle.std.specs.Prelude.{◌≡◌, ℕ, ◌+◌, ◌≤◌, ◌==◌, ◌&&◌, true, false, cond, not, IfOk, OnOk, OnErr};
ghost use Rattle.std.specs.Prelude.{Some, None, IsSome, IfSome, IfNone};
ghost use Rattle.graph_kinds.specs.Graph.{pair_count};
ghost use Rattle.plain_graph.specs.Kept.{Rises, holds, weight_held, edges_out, graph_in_maps};
ghost use Rattle.std.specs.Ordering.{nat_cmp};
ghost use Rattle.std.specs.BTreeMap.{get};

use graph_kinds::Memory;
use std::alloc::Global;
use std::collections::BTreeMap;
use std::collections::btree_map::Entry;

/// The edges out of a vertex: the weight of each by the key of its target.
pub type Edges = BTreeMap<u32, u32>;

/// The vertices by their keys, each with its edges.
pub type Vertices = BTreeMap<u32, BTreeMap<u32, u32>>;

/// Puts a vertex without edges at a key that has none, and tells whether it had none. O(log V), by one look-up.
///
/// # Errors
/// `Memory` where there is no room for it; all look-ups are as before then.
pub fn enter_vertex(vertices: &mut Vertices, alloc: Global, key: u32) -> Result<bool, Memory>
    requires { Rises vertices.old }
    ensures rises { Rises vertices.new }
    ensures there { OnOk result (holds vertices.new key ≡ true) }
    ensures others { (q : ℕ) → (key == q) ≡ false → holds vertices.new q ≡ holds vertices.old q }
    ensures weights { (a b : ℕ) → weight_held vertices.new a b ≡ weight_held vertices.old a b }
    ensures stays { OnErr result (holds vertices.new key ≡ holds vertices.old key) }
    ensures fresh { IfOk result (λ fresh. fresh ≡ not (holds vertices.old key)) }
{
    match vertices.entry(key) {
        Ok(Entry::Vacant(place)) => {
            place.insert(BTreeMap::new(alloc));
            Ok(true)
        }
        Ok(Entry::Occupied(place)) => {
            place.into_mut();
            Ok(false)
        }
        Err(_) => Err(Memory),
    }
}

/// Puts an edge out of a vertex, or its new weight, and answers the weight before; `None` where the vertex isn't there.
/// O(log V).
///
/// # Errors
/// `Memory` where there is no room for it; all look-ups are as before then.
pub fn insert_edge(
    vertices: &mut Vertices,
    from: u32,
    to: u32,
    weight: u32,
) -> Result<Option<Option<u32>>, Memory>
    requires rises { Rises vertices.old }
    ensures rises { Rises vertices.new }
    ensures keys { (q : ℕ) → holds vertices.new q ≡ holds vertices.old q }
    ensures weights { OnOk result ((a b : ℕ) → weight_held vertices.new a b
        ≡ cond (holds vertices.old from && ((from == a) && (to == b))) (Some weight) (weight_held vertices.old a b)) }
    ensures before { IfOk result
        (λ w. w ≡ cond (holds vertices.old from) (Some (weight_held vertices.old from to)) None) }
    ensures absent { OnErr result (weight_held vertices.old from to ≡ None) }
    ensures stays { OnErr result ((a b : ℕ) → weight_held vertices.new a b ≡ weight_held vertices.old a b) }
{
    match vertices.get_mut(&from) {
        Some(edges) => match edges.insert(to, weight) {
            Ok(before) => Ok(Some(before)),
            Err(_) => Err(Memory),
        },
        None => Ok(None),
    }
}

/// Puts an edge out of a vertex, or its new weight, and answers the weight before; where the vertex isn't there, it's
/// put without edges before. O(log V).
///
/// # Errors
/// `Memory` where there is no room for it; the weights are as before then.
pub fn insert_edge_anywhere(
    vertices: &mut Vertices,
    alloc: Global,
    from: u32,
    to: u32,
    weight: u32,
) -> Result<Option<u32>, Memory>
    requires rises { Rises vertices.old }
    ensures rises { Rises vertices.new }
    ensures weights { OnOk result ((a b : ℕ)
        → weight_held vertices.new a b ≡ cond ((from == a) && (to == b)) (Some weight) (weight_held vertices.old a b)) }
    ensures stays { OnErr result ((a b : ℕ) → weight_held vertices.new a b ≡ weight_held vertices.old a b) }
{
    let Ok(place) = vertices.entry(from) else {
        return Err(Memory);
    };
    let edges = place.or_insert(BTreeMap::new(alloc));
    match edges.insert(to, weight) {
        Ok(before) => Ok(before),
        Err(_) => Err(Memory),
    }
}

/// The weight of an edge, if there is one; `None` where its source isn't there. O(log V).
pub fn weight_from(vertices: &Vertices, from: u32, to: u32) -> Option<Option<u32>>
    ensures { result ≡ cond (holds vertices.now from) (Some (weight_held vertices.now from to)) None }
{
    match vertices.get(&from) {
        Some(edges) => Some(edges.get(&to).copied()),
        None => None,
    }
}

/// Takes out an edge, if there is one, and answers its weight; `None` where its source isn't there. O(log V).
pub fn remove_edge(vertices: &mut Vertices, from: u32, to: u32) -> Option<Option<u32>>
    requires { Rises vertices.old }
    ensures rises { Rises vertices.new }
    ensures keys { (q : ℕ) → holds vertices.new q ≡ holds vertices.old q }
    ensures weights { (a b : ℕ)
        → weight_held vertices.new a b ≡ cond ((from == a) && (to == b)) None (weight_held vertices.old a b) }
    ensures before { result ≡ cond (holds vertices.old from) (Some (weight_held vertices.old from to)) None }
{
    match vertices.get_mut(&from) {
        Some(edges) => Some(edges.remove(&to)),
        None => None,
    }
}

/// Takes out the edges that lead to a key from the vertices that are named, which are all from which one leads there,
/// and tells how many they were. O(n log V) for n names.
pub fn remove_edges(vertices: &mut Vertices, named: &Edges, key: u32) -> usize
    requires rises { Rises vertices.old }
    requires all { (a : ℕ) → IsSome (weight_held vertices.old a key) → IsSome (get nat_cmp named.now a) }
    ensures rises { Rises vertices.new }
    ensures keys { (q : ℕ) → holds vertices.new q ≡ holds vertices.old q }
    ensures weights { (a b : ℕ)
        → weight_held vertices.new a b ≡ cond (key == b) None (weight_held vertices.old a b) }
    ensures count { pair_count (graph_in_maps vertices.new) + result ≡ pair_count (graph_in_maps vertices.old) }
{
    named.len();
    let mut count = 0;
    for (from, _) in named {
        count += remove_counted(vertices, *from, key);
    }
    count
}

/// Takes out an edge, if there is one, and tells how many it took out, one or none. O(log V).
fn remove_counted(vertices: &mut Vertices, from: u32, to: u32) -> usize
    requires { Rises vertices.old }
    ensures rises { Rises vertices.new }
    ensures keys { (q : ℕ) → holds vertices.new q ≡ holds vertices.old q }
    ensures weights { (a b : ℕ)
        → weight_held vertices.new a b ≡ cond ((from == a) && (to == b)) None (weight_held vertices.old a b) }
    ensures one { result ≤ 1 }
    ensures count { pair_count (graph_in_maps vertices.new) + result ≡ pair_count (graph_in_maps vertices.old) }
{
    match remove_edge(vertices, from, to) {
        Some(Some(_)) => 1,
        Some(None) => 0,
        None => 0,
    }
}

/// Takes out a vertex, and answers the edges out of it; `None` where it isn't there. O(log V).
pub fn remove_vertex(vertices: &mut Vertices, key: u32) -> Option<Edges>
    requires { Rises vertices.old }
    ensures rises { Rises vertices.new }
    ensures keys { (q : ℕ) → holds vertices.new q ≡ cond (key == q) false (holds vertices.old q) }
    ensures weights { (a b : ℕ)
        → weight_held vertices.new a b ≡ cond (key == a) None (weight_held vertices.old a b) }
    ensures was { result ≡ get nat_cmp vertices.old key }
    ensures count { pair_count (graph_in_maps vertices.new) + edges_out result
        ≡ pair_count (graph_in_maps vertices.old) }
{
    vertices.remove(&key)
}
