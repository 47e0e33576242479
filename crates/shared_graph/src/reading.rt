//! Reading: the graph that stands in the table, by loads alone.
//!
//! The chain of each bucket is walked for the vertices, and then the list of each of them for its edges. What is marked
//! is left out, and so is an edge whose target is gone. Each node that is visited is counted, and no more are visited
//! than the table has, so a reading ends whatever others do meanwhile. If nobody made an event, all words are of one
//! journal, and the graph is that of the journal; so its contracts are of the form "if the front is still that of the
//! beginning" (`ToldAtRest` of `specs/Reading.antt`).

ghost use Rattle.std.specs.Prelude.{◌≡◌, ◌<◌, ◌≤◌, ◌+◌, ◌++◌, [], true, length, IfOk, OnOk};
ghost use Rattle.packed_link.specs.Layout.{link_at, word_count};
ghost use Rattle.graph_kinds.specs.Graph.{key_count, pair_count};
ghost use Rattle.graph_kinds.specs.History.{Every};
ghost use Rattle.core_journal.specs.GraphOf.{graph_of};
ghost use Rattle.core_journal.specs.Machine.{word_at};
ghost use Rattle.core_journal.specs.State.{state};
ghost use Rattle.core_kept.specs.Nodes.{IsLinkedVertex};
ghost use Rattle.core_stretches.specs.Makes.{Makes};
ghost use Rattle.graph_table.specs.Tokens.{IsOf};
ghost use Rattle.shared_graph.specs.Reading.{IfRoom, IsOfTable, IsReading, ToldAtRest};
ghost use Rattle.shared_graph.specs.Reading.{all_read_edges, all_read_vertices, bucket_vertices, chain_nodes};
ghost use Rattle.shared_graph.specs.Reading.{edge_read, edges_of_vertex, list_nodes, low_half, names_present};
ghost use Rattle.shared_graph.specs.Reading.{vertex_read, with_fitting_edge, with_fitting_edges, with_vertices};

use graph_kinds::Memory;
use graph_table::{GraphTable, Token};
use packed_link::Link;
use plain_graph::PlainGraph;
use std::alloc::Global;
use std::snapshot::Snapshot;

/// A vertex that was read: its node and its key.
#[derive(Clone, Copy)]
pub struct ReadVertex {
    pub index: u32,
    pub key: u32,
}

/// An edge that was read: the keys of its source and its target, and its weight.
#[derive(Clone, Copy)]
pub struct ReadEdge {
    pub from: u32,
    pub to: u32,
    pub weight: u32,
}

/// Reads the graph that stands in the table, by loads: O(buckets + nodes · log nodes). It makes no event. If the front
/// is at the end what it was at the beginning, so that nobody else made one, the graph is that of the front; else it's
/// any graph. `Memory` where there is no room for it.
pub(crate) fn read(
    table: &GraphTable,
    alloc: Global,
    token: &mut Token,
) -> Result<PlainGraph, Memory>
    requires table { IsOf table.now token.old }
    requires number { token.old.view.numbered ≡ true }
    ensures table { IsOf table.now token.new }
    ensures looks { Makes token.old.view [] token.new.view }
    ensures last { token.new.view.last ≡ token.old.view.last }
    ensures graph { IfOk result
        (λ g. token.new.view.front ≡ token.old.view.front → g ≡ graph_of token.old.view.front) }
{
    let nodes = table.layout().nodes();
    let begun = Snapshot::of(&*token);
    let mut vertices = Vec::new(alloc);
    let left = read_vertices(table, token, &begun, nodes, &mut vertices)?;
    let mut edges = Vec::new(alloc);
    read_edges(table, token, &begun, &vertices, left, &mut edges)?;
    let mut graph = PlainGraph::new(alloc);
    put_vertices(&mut graph, &vertices)?;
    put_edges(&mut graph, &edges)?;
    Ok(graph)
}

/// Reads the vertices on the chains of all buckets, and tells how many nodes may be visited still: O(buckets + nodes).
///
/// # Errors
/// `Memory` where there is no room for them.
fn read_vertices(
    table: &GraphTable,
    token: &mut Token,
    begun: &Snapshot<Token>,
    left: u32,
    vertices: &mut Vec<ReadVertex>,
) -> Result<u32, Memory>
    requires reading { IsReading table.now begun.now.value token.old }
    requires none { vertices.old.items ≡ [] }
    ensures reading { IsReading table.now begun.now.value token.new }
    ensures of_table { Every (IsOfTable table.now.sizes) vertices.new.items }
    ensures room { IfOk result (λ rest. length vertices.new.items + rest ≤ left) }
    ensures told { IfOk result (λ rest. ToldAtRest begun.now.value token.old token.new
        (λ journal. IfRoom (chain_nodes table.now.sizes journal) left rest
        (vertices.new.items ≡ all_read_vertices table.now.sizes journal))) }
{
    let buckets = table.layout().buckets();
    let mut rest = left;
    for bucket in 0..buckets {
        rest = read_bucket(table, token, begun, bucket, rest, vertices)?;
    }
    Ok(rest)
}

/// Reads the vertices on the chain of a bucket, and tells how many nodes may be visited still: O(nodes visited).
///
/// # Errors
/// `Memory` where there is no room for them.
fn read_bucket(
    table: &GraphTable,
    token: &mut Token,
    begun: &Snapshot<Token>,
    bucket: u32,
    left: u32,
    vertices: &mut Vec<ReadVertex>,
) -> Result<u32, Memory>
    requires reading { IsReading table.now begun.now.value token.old }
    requires bucket { bucket < table.now.sizes.buckets }
    requires of_table { Every (IsOfTable table.now.sizes) vertices.old.items }
    ensures reading { IsReading table.now begun.now.value token.new }
    ensures of_table { Every (IsOfTable table.now.sizes) vertices.new.items }
    ensures room { IfOk result (λ rest. length vertices.new.items + rest ≤ length vertices.old.items + left) }
    ensures told { IfOk result (λ rest. ToldAtRest begun.now.value token.old token.new
        (λ journal. IfRoom ((state table.now.sizes journal).bucket bucket) left rest
        (vertices.new.items ≡ vertices.old.items ++ bucket_vertices table.now.sizes journal bucket))) }
{
    let layout = table.layout();
    let mut word = look(table, token, begun, layout.bucket_at(bucket));
    let mut rest = left;
    while rest > 0 {
        let index = Link(word).index();
        if index >= layout.nodes() {
            return Ok(rest);
        }
        word = read_vertex(table, token, begun, index, vertices)?;
        rest -= 1;
    }
    Ok(rest)
}

/// Reads the vertex at a node, if its link is unmarked, and answers the link: O(1).
///
/// # Errors
/// `Memory` where there is no room for it.
fn read_vertex(
    table: &GraphTable,
    token: &mut Token,
    begun: &Snapshot<Token>,
    index: u32,
    vertices: &mut Vec<ReadVertex>,
) -> Result<u64, Memory>
    requires reading { IsReading table.now begun.now.value token.old }
    requires index { index < table.now.sizes.nodes }
    requires of_table { Every (IsOfTable table.now.sizes) vertices.old.items }
    ensures reading { IsReading table.now begun.now.value token.new }
    ensures of_table { Every (IsOfTable table.now.sizes) vertices.new.items }
    ensures room { length vertices.new.items ≤ length vertices.old.items + 1 }
    ensures told { IfOk result (λ link. ToldAtRest begun.now.value token.old token.new
        (λ journal. (link ≡ word_at table.now.sizes journal (link_at table.now.sizes index))
        × (vertices.new.items ≡ vertices.old.items ++ vertex_read table.now.sizes journal index))) }
{
    let layout = table.layout();
    let link = look(table, token, begun, layout.link_at(index));
    if Link(link).marked() {
        return Ok(link);
    }
    let key = low_half(look(table, token, begun, layout.key_at(index)));
    match vertices.push(ReadVertex { index, key }) {
        Ok(()) => Ok(link),
        Err(_) => Err(Memory),
    }
}

/// Reads the edges on the lists of vertices: O(vertices + nodes visited).
///
/// # Errors
/// `Memory` where there is no room for them.
fn read_edges(
    table: &GraphTable,
    token: &mut Token,
    begun: &Snapshot<Token>,
    vertices: &[ReadVertex],
    left: u32,
    edges: &mut Vec<ReadEdge>,
) -> Result<(), Memory>
    requires reading { IsReading table.now begun.now.value token.old }
    requires of_table { Every (IsOfTable table.now.sizes) vertices.now }
    requires none { edges.old.items ≡ [] }
    ensures reading { IsReading table.now begun.now.value token.new }
    ensures room { OnOk result (length edges.new.items ≤ left) }
    ensures told { OnOk result (ToldAtRest begun.now.value token.old token.new
        (λ journal. vertices.now ≡ all_read_vertices table.now.sizes journal
        → length (list_nodes table.now.sizes journal vertices.now) ≤ left
        → edges.new.items ≡ all_read_edges table.now.sizes journal)) }
{
    let mut rest = left;
    for vertex in vertices {
        rest = read_list(table, token, begun, vertex, rest, edges)?;
    }
    Ok(())
}

/// Reads the edges on the list of a vertex, and tells how many nodes may be visited still: O(nodes visited).
///
/// # Errors
/// `Memory` where there is no room for them.
fn read_list(
    table: &GraphTable,
    token: &mut Token,
    begun: &Snapshot<Token>,
    vertex: &ReadVertex,
    left: u32,
    edges: &mut Vec<ReadEdge>,
) -> Result<u32, Memory>
    requires reading { IsReading table.now begun.now.value token.old }
    requires vertex { IsOfTable table.now.sizes vertex.now }
    ensures reading { IsReading table.now begun.now.value token.new }
    ensures room { IfOk result (λ rest. length edges.new.items + rest ≤ length edges.old.items + left) }
    ensures told { IfOk result (λ rest. ToldAtRest begun.now.value token.old token.new
        (λ journal. IsLinkedVertex table.now.sizes journal vertex.now.index
        → IfRoom ((state table.now.sizes journal).edges vertex.now.index) left rest
        (edges.new.items ≡ edges.old.items ++ edges_of_vertex table.now.sizes journal vertex.now))) }
{
    let layout = table.layout();
    let mut word = look(table, token, begun, layout.second_at(vertex.index));
    let mut rest = left;
    while rest > 0 {
        let index = Link(word).index();
        if index >= layout.nodes() {
            return Ok(rest);
        }
        word = read_edge(table, token, begun, vertex.key, index, edges)?;
        rest -= 1;
    }
    Ok(rest)
}

/// Reads the edge at a node, if its link is unmarked and its target is present, and answers the link: O(1).
///
/// # Errors
/// `Memory` where there is no room for it.
fn read_edge(
    table: &GraphTable,
    token: &mut Token,
    begun: &Snapshot<Token>,
    from: u32,
    index: u32,
    edges: &mut Vec<ReadEdge>,
) -> Result<u64, Memory>
    requires reading { IsReading table.now begun.now.value token.old }
    requires index { index < table.now.sizes.nodes }
    ensures reading { IsReading table.now begun.now.value token.new }
    ensures room { length edges.new.items ≤ length edges.old.items + 1 }
    ensures told { IfOk result (λ link. ToldAtRest begun.now.value token.old token.new
        (λ journal. (link ≡ word_at table.now.sizes journal (link_at table.now.sizes index))
        × (edges.new.items ≡ edges.old.items ++ edge_read table.now.sizes journal from index))) }
{
    let layout = table.layout();
    let link = look(table, token, begun, layout.link_at(index));
    if Link(link).marked() {
        return Ok(link);
    }
    let target = look(table, token, begun, layout.second_at(index));
    if !is_present(table, token, begun, target) {
        return Ok(link);
    }
    let to = low_half(look(table, token, begun, layout.key_at(index)));
    let weight = low_half(look(table, token, begun, layout.third_at(index)));
    match edges.push(ReadEdge { from, to, weight }) {
        Ok(()) => Ok(link),
        Err(_) => Err(Memory),
    }
}

/// Whether the life that a word names is present, by the link of its node: O(1).
fn is_present(table: &GraphTable, token: &mut Token, begun: &Snapshot<Token>, word: u64) -> bool
    requires reading { IsReading table.now begun.now.value token.old }
    ensures reading { IsReading table.now begun.now.value token.new }
    ensures told { ToldAtRest begun.now.value token.old token.new
        (λ journal. result ≡ names_present table.now.sizes journal word) }
{
    let layout = table.layout();
    let life = Link(word);
    let index = life.index();
    if index >= layout.nodes() {
        return false;
    }
    let link = Link(look(table, token, begun, layout.link_at(index)));
    link.tag() == life.tag() && !link.marked()
}

/// Loads a word in a reading: O(1).
fn look(table: &GraphTable, token: &mut Token, begun: &Snapshot<Token>, place: u32) -> u64
    requires reading { IsReading table.now begun.now.value token.old }
    requires place { place < word_count table.now.sizes }
    ensures reading { IsReading table.now begun.now.value token.new }
    ensures told { ToldAtRest begun.now.value token.old token.new
        (λ journal. result ≡ word_at table.now.sizes journal place) }
{
    let _begun = begun;
    table.load(token, place)
}

/// The lower half of a word.
fn low_half(word: u64) -> u32
    ensures { result ≡ low_half word }
{
    (word % 4_294_967_296) as u32
}

/// Puts vertices into a graph: O(n log n) for n of them.
///
/// # Errors
/// `Memory` where there is no room for them.
fn put_vertices(graph: &mut PlainGraph, vertices: &[ReadVertex]) -> Result<(), Memory>
    requires room { key_count graph.old + pair_count graph.old + length vertices.now ≤ 65536 }
    ensures put { OnOk result (graph.new ≡ with_vertices graph.old vertices.now) }
    ensures room { OnOk result
        (key_count graph.new + pair_count graph.new ≤ key_count graph.old + pair_count graph.old + length
        vertices.now) }
{
    for vertex in vertices {
        graph.put_vertex(vertex.key)?;
    }
    Ok(())
}

/// Puts those of the edges into a graph that fit, whose ends are keys and whose weight is at least 1: O(n log n) for n
/// of them.
///
/// # Errors
/// `Memory` where there is no room for them.
fn put_edges(graph: &mut PlainGraph, edges: &[ReadEdge]) -> Result<(), Memory>
    requires room { key_count graph.old + pair_count graph.old + length edges.now ≤ 65536 }
    ensures put { OnOk result (graph.new ≡ with_fitting_edges graph.old edges.now) }
{
    for edge in edges {
        put_fitting(graph, edge)?;
    }
    Ok(())
}

/// Puts an edge into a graph if it fits: O(log n).
///
/// # Errors
/// `Memory` where there is no room for it.
fn put_fitting(graph: &mut PlainGraph, edge: &ReadEdge) -> Result<(), Memory>
    requires room { key_count graph.old + pair_count graph.old < 65536 }
    ensures put { OnOk result (graph.new ≡ with_fitting_edge graph.old edge.now) }
{
    if !graph.has(edge.from) {
        return Ok(());
    }
    if !graph.has(edge.to) {
        return Ok(());
    }
    if edge.weight == 0 {
        return Ok(());
    }
    graph.put_edge(edge.from, edge.to, edge.weight)
}
