//! Parts that are recorded and verified, of a graph of four vertices that one token builds.
//!
//! Vertex 1 leads to 1, 2 and 3 with the weights 9, 8 and 7, vertex 2 to 3 with 5, vertex 3 to 1 with 4, and vertex 4,
//! which nothing leads to, to 1 with 6.

ghost use Rattle.std.specs.Prelude.{◌≡◌};
ghost use Rattle.graph_table.specs.Tokens.{IsOf};
ghost use Rattle.layer_rows.specs.Rows.{IsAtWork, taken_by};

use crate::{change_edge, check, join_in, look_at, mark_edge, record};
use graph_table::{GraphTable, Token};
use layer_rows::{add_edge, add_vertex, begin, remove};
use packed_link::Layout;
use scan_record::Scan;
use std::process::Abort;
use table_calls::{enter, split_off};
use tree_scan::Verdict;

/// The four vertices and their edges, each put in front of those of its vertex.
fn build(rt: &impl Abort, table: &GraphTable, token: &mut Token)
    requires table { IsOf table.now token.old }
    requires work { IsAtWork token.old.view }
    requires none { taken_by token.old.view ≡ 0 }
    ensures table { IsOf table.now token.new }
    ensures work { IsAtWork token.new.view }
{
    let _one = add_vertex(table, token, 1).expect(rt, "vertex 1");
    let _two = add_vertex(table, token, 2).expect(rt, "vertex 2");
    let _three = add_vertex(table, token, 3).expect(rt, "vertex 3");
    let _four = add_vertex(table, token, 4).expect(rt, "vertex 4");
    let _one_three = add_edge(table, token, 1, 3, 7).expect(rt, "edge from 1 to 3");
    let _one_two = add_edge(table, token, 1, 2, 8).expect(rt, "edge from 1 to 2");
    let _one_one = add_edge(table, token, 1, 1, 9).expect(rt, "edge from 1 to 1");
    let _two_three = add_edge(table, token, 2, 3, 5).expect(rt, "edge from 2 to 3");
    let _three_one = add_edge(table, token, 3, 1, 4).expect(rt, "edge from 3 to 1");
    let _four_one = add_edge(table, token, 4, 1, 6).expect(rt, "edge from 4 to 1");
}

/// The scan has rows of these keys, and edges of these keys, weights and targets.
fn expect_rows(rt: &impl Abort, scan: &Scan, keys: &[u32], edges: &[(u32, u32, Option<u32>)]) {
    let mut row = 0;
    for key in keys {
        assert!(rt; row < scan.vertices());
        assert_eq!(rt; scan.vertex(row).key, *key);
        row += 1;
    }
    assert_eq!(rt; scan.vertices(), row);
    let mut place = 0;
    for expected in edges {
        assert!(rt; place < scan.edges());
        let edge = scan.edge(place);
        assert_eq!(rt; (edge.key, edge.weight, edge.target), *expected);
        place += 1;
    }
    assert_eq!(rt; scan.edges(), place);
}

#[test]
fn the_part_of_a_root_is_recorded_and_found_the_same(rt: HostRuntime) {
    let (table, mut token) = GraphTable::new(rt.alloc(), Layout::new(1, 16, 1)).expect(
        &rt, "memory",
    );
    begin(&table, &mut token);
    build(&rt, &table, &mut token);
    let mut scan = Scan::new(rt.alloc(), 16).expect(&rt, "memory");
    assert_eq!(rt; look_at(&table, &mut token, 5, &mut scan), None);
    assert_eq!(rt;
        look_at(&table, &mut token, 1, &mut scan),
        Some(Verdict::Same)
    );
    expect_rows(
        &rt,
        &scan,
        &[1, 2, 3],
        &[
            (1, 9, Some(0)),
            (2, 8, Some(1)),
            (3, 7, Some(2)),
            (3, 5, Some(2)),
            (1, 4, Some(0)),
        ],
    );
}

#[test]
fn an_edge_to_a_removed_vertex_has_no_target(rt: HostRuntime) {
    let (table, mut token) = GraphTable::new(rt.alloc(), Layout::new(1, 16, 1)).expect(
        &rt, "memory",
    );
    begin(&table, &mut token);
    build(&rt, &table, &mut token);
    let _spent = remove(&table, &mut token, 3).expect(&rt, "removed");
    let mut scan = Scan::new(rt.alloc(), 16).expect(&rt, "memory");
    assert_eq!(rt;
        look_at(&table, &mut token, 1, &mut scan),
        Some(Verdict::Same)
    );
    expect_rows(
        &rt,
        &scan,
        &[1, 2],
        &[(1, 9, Some(0)), (2, 8, Some(1)), (3, 7, None), (3, 5, None)],
    );
}

#[test]
fn a_replaced_edge_differs_and_is_passed_over_then(rt: HostRuntime) {
    let (table, mut one) = GraphTable::new(rt.alloc(), Layout::new(3, 16, 1)).expect(&rt, "memory");
    enter(&table, &mut one);
    let mut two = split_off(&table, &mut one);
    join_in(&table, &mut one);
    enter(&table, &mut two);
    let mut three = split_off(&table, &mut two);
    join_in(&table, &mut two);
    begin(&table, &mut three);
    build(&rt, &table, &mut three);
    let mut scan = Scan::new(rt.alloc(), 16).expect(&rt, "memory");
    record(&table, &mut three, 1, &mut scan).expect(&rt, "vertex 1");
    change_edge(&table, &mut two, 1, 3, 2).expect(&rt, "edge from 1 to 3");
    assert_eq!(rt; check(&table, &mut three, &scan), Verdict::Differs(0));
    // The marked edge from 1 to 2 stays on the list, and so does the old one from 1 to 3.
    mark_edge(&table, &mut one, 1, 2).expect(&rt, "edge from 1 to 2");
    assert_eq!(rt;
        look_at(&table, &mut three, 1, &mut scan),
        Some(Verdict::Same)
    );
    expect_rows(
        &rt,
        &scan,
        &[1, 3],
        &[
            (1, 9, Some(0)),
            (2, 8, None),
            (3, 2, Some(1)),
            (1, 4, Some(0)),
        ],
    );
}
