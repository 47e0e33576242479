//! Tables of calls with what each is answered, the texts of graphs, scans of a graph, and writes that fail.

ghost use Rattle.std.specs.Prelude.{◌+◌, ◌<◌, All, IsTrue};
ghost use Rattle.graph_kinds.specs.Graph.{key_count, pair_count};
ghost use Rattle.graph_kinds.specs.Answer.{IsWellMade};
ghost use Rattle.graph_kinds.specs.declared.call.Row.{Row as RowValue};

use crate::{PlainGraph, replay};
use graph_kinds::{Call, MemSink, Outcome, Row};
use scan_record::Scan;
use std::process::Abort;
use std::test::Fail;

// What `replay` asks of a call.
fn is_fit(call: &Call) -> bool
    ensures well_made { IsTrue result → IsWellMade call.now }
{
    match *call {
        Call::AddEdge { weight, .. } => weight >= 1,
        _ => true,
    }
}

fn are_fit(rows: &[Row]) -> bool
    ensures well_made { IsTrue result → All (λ row. IsWellMade row.call) rows.now }
{
    rows.iter().all(|row| is_fit(&row.call))
}

fn add_vertex(key: u32) -> Call {
    Call::AddVertex { key }
}

fn remove_vertex(key: u32) -> Call {
    Call::RemoveVertex { key }
}

fn has_vertex(key: u32) -> Call {
    Call::HasVertex { key }
}

fn add_edge(from: u32, to: u32, weight: u32) -> Call {
    Call::AddEdge { from, to, weight }
}

fn remove_edge(from: u32, to: u32) -> Call {
    Call::RemoveEdge { from, to }
}

fn has_edge(from: u32, to: u32) -> Call {
    Call::HasEdge { from, to }
}

// Compares the text of the graph, given in pieces of 3 bytes.
fn assert_text<R: Abort + AllocGlobal>(rt: &R, graph: &PlainGraph, text: &str) -> Result<(), Fail> {
    let mut sink = MemSink::new(rt.alloc(), 100, 3, Vec::new(rt.alloc()))?;
    graph.write_graph(&mut sink)?;
    assert_eq!(rt; sink.bytes(), text.as_bytes());
    Ok(())
}

// Replays the calls, and compares each outcome with the one beside it.
fn replayed<R: Abort + AllocGlobal>(rt: &R, table: &[(Call, Outcome)]) -> Result<PlainGraph, Fail> {
    let mut rows = Vec::new(rt.alloc());
    for (call, _) in table {
        rows.push(Row {
            caller: 0,
            call: *call,
        })?;
    }
    assert!(rt; rows.len() <= 65_536 && are_fit(&rows));
    let (answers, graph) = replay(rt.alloc(), &rows)?;
    assert_eq!(rt; answers.len(), table.len());
    for (answer, (call, outcome)) in answers.iter().zip(table) {
        assert_eq!(rt; answer.outcome, *outcome, "at {call:?}");
        assert!(rt; answer.keys.as_slice().is_empty() && answer.ends.as_slice().is_empty());
    }
    Ok(graph)
}

#[test]
fn vertices_come_and_go(rt: HostRuntime) -> Result<(), Fail> {
    let graph = replayed(
        &rt,
        &[
            (add_vertex(5), Outcome::Added),
            (add_vertex(5), Outcome::Present(0)),
            (has_vertex(5), Outcome::Yes),
            (remove_vertex(5), Outcome::Removed(0)),
            (remove_vertex(5), Outcome::Absent),
            (has_vertex(5), Outcome::No),
        ],
    )?;
    assert_eq!(rt; (graph.vertex_count(), graph.edge_count()), (0, 0));
    assert_text(&rt, &graph, "vertices\n")
}

#[test]
fn edges_ask_for_both_ends(rt: HostRuntime) -> Result<(), Fail> {
    let graph = replayed(
        &rt,
        &[
            (add_edge(1, 2, 5), Outcome::NoVertex),
            (add_vertex(2), Outcome::Added),
            (add_edge(1, 2, 5), Outcome::NoVertex),
            (add_edge(2, 1, 5), Outcome::NoVertex),
            (remove_edge(2, 1), Outcome::NoVertex),
            (has_edge(1, 2), Outcome::NoVertex),
        ],
    )?;
    assert_eq!(rt; (graph.vertex_count(), graph.edge_count()), (1, 0));
    assert!(rt; graph.has(2) && !graph.has(1));
    assert_text(&rt, &graph, "vertices 2\n")
}

#[test]
fn a_vertex_that_comes_back_has_no_edges(rt: HostRuntime) -> Result<(), Fail> {
    let graph = replayed(
        &rt,
        &[
            (add_vertex(1), Outcome::Added),
            (add_vertex(2), Outcome::Added),
            (add_vertex(3), Outcome::Added),
            (add_edge(1, 2, 5), Outcome::Added),
            (add_edge(2, 3, 6), Outcome::Added),
            (remove_vertex(2), Outcome::Removed(0)),
            (add_vertex(2), Outcome::Added),
            (has_edge(1, 2), Outcome::NoEdge),
            (has_edge(2, 3), Outcome::NoEdge),
            (add_edge(1, 2, 8), Outcome::Added),
            (has_edge(1, 2), Outcome::Edge(8)),
            (add_edge(1, 2, 9), Outcome::Changed(8)),
            (add_edge(1, 2, 9), Outcome::Present(9)),
            (remove_edge(1, 2), Outcome::Removed(9)),
            (remove_edge(1, 2), Outcome::NoEdge),
        ],
    )?;
    assert_eq!(rt; (graph.vertex_count(), graph.edge_count()), (3, 0));
    assert_text(&rt, &graph, "vertices 1 2 3\n")
}

#[test]
fn an_edge_gets_another_weight(rt: HostRuntime) -> Result<(), Fail> {
    let graph = replayed(
        &rt,
        &[
            (add_vertex(1), Outcome::Added),
            (add_vertex(2), Outcome::Added),
            (add_edge(1, 2, 5), Outcome::Added),
            (add_edge(1, 2, 6), Outcome::Changed(5)),
            (add_edge(1, 2, 6), Outcome::Present(6)),
            (has_edge(1, 2), Outcome::Edge(6)),
            (add_edge(2, 2, 3), Outcome::Added),
            (add_edge(2, 2, 4_294_967_295), Outcome::Changed(3)),
            (add_edge(2, 2, 3), Outcome::Changed(4_294_967_295)),
        ],
    )?;
    assert_eq!(rt; (graph.vertex_count(), graph.edge_count()), (2, 2));
    assert_text(&rt, &graph, "vertices 1 2\nedge 1 2 6\nedge 2 2 3\n")
}

// What the two `put` calls ask of the graph.
fn has_room(graph: &PlainGraph) -> bool
    ensures { IsTrue result → key_count graph.now + pair_count graph.now < 65536 }
{
    graph.vertex_count() + graph.edge_count() < 65_536
}

#[test]
fn a_graph_is_built_without_calls(rt: HostRuntime) -> Result<(), Fail> {
    let mut graph = PlainGraph::new(rt.alloc());
    for key in [9, 7] {
        assert!(rt; has_room(&graph));
        graph.put_vertex(key)?;
    }
    for (from, to, weight) in [(7, 7, 3), (7, 9, 4), (7, 7, 5)] {
        assert!(rt; has_room(&graph) && graph.has(from) && graph.has(to) && weight >= 1);
        graph.put_edge(from, to, weight)?;
    }
    assert_eq!(rt; (graph.vertex_count(), graph.edge_count()), (2, 2));
    let weights = [
        graph.weight(7, 7),
        graph.weight(7, 9),
        graph.weight(9, 7),
        graph.weight(1, 7),
    ];
    assert_eq!(rt; weights, [Some(5), Some(4), None, None]);
    assert_text(&rt, &graph, "vertices 7 9\nedge 7 7 5\nedge 7 9 4\n")
}

#[test]
fn a_failed_write_leaves_a_first_part(rt: HostRuntime) -> Result<(), Fail> {
    let mut graph = PlainGraph::new(rt.alloc());
    assert!(rt; has_room(&graph));
    graph.put_vertex(12)?;
    for (failing, text) in [(1, ""), (3, "vertices "), (5, "vertices 12\n")] {
        let mut sink = MemSink::new(rt.alloc(), 100, 9, vec![in rt.alloc(); failing]?)?;
        assert_eq!(rt; graph.write_graph(&mut sink).is_ok(), failing > 4);
        assert_eq!(rt; sink.bytes(), text.as_bytes());
    }
    Ok(())
}

// Compares each row's key, first edge and count of edges, and each edge's key, target and weight.
fn assert_scan<R: Abort>(rt: &R, scan: &Scan, rows: &[(u32, u32, u32)], edges: &[(u32, u32, u32)]) {
    assert_eq!(rt;
        (scan.vertices() as usize, scan.edges() as usize),
        (rows.len(), edges.len())
    );
    for (row, told) in rows.iter().enumerate() {
        let vertex = scan.vertex(row as u32);
        assert_eq!(rt; (vertex.key, vertex.first, vertex.count), *told);
    }
    for (place, told) in edges.iter().enumerate() {
        let edge = scan.edge(place as u32);
        assert_eq!(rt;
            (edge.key, edge.target, edge.weight),
            (told.0, Some(told.1), told.2)
        );
    }
}

#[test]
fn a_scan_has_what_its_root_reaches(rt: HostRuntime) -> Result<(), Fail> {
    let mut graph = replayed(
        &rt,
        &[
            (add_vertex(30), Outcome::Added),
            (add_vertex(10), Outcome::Added),
            (add_vertex(20), Outcome::Added),
            (add_edge(20, 30, 7), Outcome::Added),
            (add_edge(20, 10, 5), Outcome::Added),
            (add_edge(30, 20, 1), Outcome::Added),
            (add_edge(20, 20, 2), Outcome::Added),
        ],
    )?;
    let table: [(u32, &[(u32, u32, u32)], &[(u32, u32, u32)]); 3] = [
        (10, &[(10, 0, 0)], &[]),
        (
            20,
            &[(20, 0, 3), (10, 3, 0), (30, 3, 1)],
            &[(10, 1, 5), (20, 0, 2), (30, 2, 7), (20, 0, 1)],
        ),
        (
            30,
            &[(30, 0, 1), (20, 1, 3), (10, 4, 0)],
            &[(20, 1, 1), (10, 2, 5), (20, 1, 2), (30, 0, 7)],
        ),
    ];
    for (root, rows, edges) in &table {
        assert!(rt; graph.has(*root));
        let scan = graph.scan_from(*root)?;
        assert_scan(&rt, &scan, rows, edges);
        graph.keep_scan(scan);
    }
    Ok(())
}

#[test]
fn paths_and_levels_come_with_their_keys(rt: HostRuntime) -> Result<(), Fail> {
    let mut rows = Vec::new(rt.alloc());
    for key in 1..6 {
        rows.push(Row {
            caller: 0,
            call: add_vertex(key),
        })?;
    }
    for (from, to, weight) in [(1, 2, 8), (1, 3, 4), (2, 4, 2), (3, 4, 5), (4, 1, 1)] {
        rows.push(Row {
            caller: 0,
            call: add_edge(from, to, weight),
        })?;
    }
    let asked: [(Call, Outcome, &[u32], &[u32]); 11] = [
        (
            Call::Levels { from: 1 },
            Outcome::Levels(3),
            &[1, 2, 3, 4],
            &[1, 3, 4],
        ),
        (Call::Levels { from: 5 }, Outcome::Levels(1), &[5], &[1]),
        (Call::Levels { from: 9 }, Outcome::NoVertex, &[], &[]),
        (
            Call::Reach { from: 1, to: 4 },
            Outcome::Path,
            &[1, 2, 4],
            &[],
        ),
        (Call::Reach { from: 4, to: 4 }, Outcome::Path, &[4], &[]),
        (Call::Reach { from: 5, to: 1 }, Outcome::NoPath, &[], &[]),
        (Call::Reach { from: 1, to: 9 }, Outcome::NoVertex, &[], &[]),
        (
            Call::Cheapest { from: 1, to: 4 },
            Outcome::Cost(9),
            &[1, 3, 4],
            &[],
        ),
        (
            Call::Cheapest { from: 4, to: 4 },
            Outcome::Cost(0),
            &[4],
            &[],
        ),
        (Call::Cheapest { from: 4, to: 5 }, Outcome::NoPath, &[], &[]),
        (
            Call::Cheapest { from: 9, to: 1 },
            Outcome::NoVertex,
            &[],
            &[],
        ),
    ];
    for (call, _, _, _) in &asked {
        rows.push(Row {
            caller: 0,
            call: *call,
        })?;
    }
    assert!(rt; rows.len() <= 65_536 && are_fit(&rows));
    let (answers, graph) = replay(rt.alloc(), &rows)?;
    assert_eq!(rt; answers.len(), rows.len());
    for (answer, (call, outcome, keys, ends)) in answers.iter().skip(10).zip(&asked) {
        assert_eq!(rt; answer.outcome, *outcome, "at {call:?}");
        assert_eq!(rt; answer.keys.as_slice(), *keys, "at {call:?}");
        assert_eq!(rt; answer.ends.as_slice(), *ends, "at {call:?}");
    }
    assert_text(
        &rt,
        &graph,
        "vertices 1 2 3 4 5\nedge 1 2 8\nedge 1 3 4\nedge 2 4 2\nedge 3 4 5\nedge 4 1 1\n",
    )
}
