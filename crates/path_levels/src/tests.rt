//! Levels and paths on graphs that were worked out by hand.

ghost use Rattle.std.specs.Prelude.{◌≡◌, ◌≢◌, ℕ, ◌+◌, ◌<◌, ◌≤◌, [], All, IfOk, Some, length};
ghost use Rattle.scan_record.specs.Scan.{IsComplete, row_at, edge_at, last_edges};

use crate::{levels, reach};
use graph_kinds::{Memory, Outcome};
use packed_link::Life;
use scan_record::{EdgeRow, Scan};
use std::process::Abort;
use std::test::Fail;

const NODES: u32 = 16;

const LIFE: Life = Life { index: 0, tag: 1 };

/// A row for each key.
fn push_rows(scan: &mut Scan, keys: &[u32])
    requires few { length keys.now ≤ 16 }
    requires nodes { scan.old.nodes ≡ 16 }
    requires no_rows { scan.old.rows ≡ [] }
    ensures nodes { scan.new.nodes ≡ 16 }
    ensures started { scan.new.started ≡ scan.old.started }
    ensures next { scan.new.next ≡ scan.old.next }
{
    for index in 0..keys.len() as u32 {
        scan.push_vertex(Life { index, tag: 1 }, keys[index as usize]);
    }
}

/// The edges from a row, each given as the numbers of two rows.
fn push_edges(rt: &impl Abort, scan: &mut Scan, row: u32, edges: &[(u32, u32)])
    requires nodes { scan.old.nodes ≡ 16 }
    requires row { row < length scan.old.rows }
    requires next { scan.old.next ≡ row }
    ensures nodes { scan.new.nodes ≡ 16 }
    ensures rows { length scan.new.rows ≡ length scan.old.rows }
    ensures started { scan.new.started ≡ scan.old.started + 1 }
    ensures next { scan.new.next ≡ row + 1 }
{
    scan.start_edges(row, 0, 0);
    let mut least = 0;
    for (from, to) in edges {
        if *from == row {
            assert!(rt; *to < scan.vertices() && scan.edges() < NODES);
            let key = scan.vertex(*to).key;
            assert!(rt; key >= least && key < u32::MAX);
            scan.push_edge(EdgeRow {
                life: LIFE,
                link: 0,
                key,
                weight: 1,
                target: Some(*to),
            });
            least = key + 1;
        }
    }
}

/// Stops where two rows have one key.
fn expect_keys_differ(rt: &impl Abort, scan: &Scan)
    ensures { (j k : ℕ) → j < k → k < length scan.now.rows → (row_at scan.now j).key ≢ (row_at scan.now k).key }
{
    for row in 0..scan.vertices() {
        for other in 0..row {
            assert!(rt; scan.vertex(other).key != scan.vertex(row).key);
        }
    }
}

/// Stops where an edge's key isn't that of its target.
fn expect_target_keys(rt: &impl Abort, scan: &Scan)
    ensures { (p t : ℕ) → p < length scan.now.edges → (edge_at scan.now p).target ≡ Some t
        → (row_at scan.now t).key ≡ (edge_at scan.now p).key }
{
    for place in 0..scan.edges() {
        let edge = scan.edge(place);
        if let Some(target) = edge.target {
            assert!(rt; target < scan.vertices());
            assert!(rt; scan.vertex(target).key == edge.key);
        }
    }
}

/// The scan of a graph: a row for each key, and its edges, each given as the numbers of two rows.
fn scan_of(
    rt: &(impl AllocGlobal + Abort),
    keys: &[u32],
    edges: &[(u32, u32)],
) -> Result<Scan, Memory>
    ensures { IfOk result IsComplete }
{
    let mut scan = Scan::new(rt.alloc(), NODES)?;
    assert!(rt; keys.len() <= NODES as usize);
    push_rows(&mut scan, keys);
    assert!(rt; scan.vertices() > 0);
    for row in 0..scan.vertices() {
        push_edges(rt, &mut scan, row, edges);
    }
    expect_keys_differ(rt, &scan);
    expect_target_keys(rt, &scan);
    Ok(scan)
}

/// 1 leads to 10 over 2 and 9, or over 3 and 4.
const TWO_WAYS: (&[u32], &[(u32, u32)]) = (
    &[1, 2, 3, 4, 9, 10],
    &[(0, 1), (0, 2), (1, 4), (2, 3), (3, 5), (4, 5)],
);

/// 1 leads to 2 by one edge, or over 3.
const DETOUR: (&[u32], &[(u32, u32)]) = (&[1, 2, 3], &[(0, 1), (0, 2), (2, 1)]);

/// A circle from 1 over 2 and 4, and an edge from 1 to 3, which leads nowhere.
const DEAD_END: (&[u32], &[(u32, u32)]) = (&[1, 2, 3, 4], &[(0, 1), (0, 2), (1, 3), (3, 0)]);

/// The same, with the row of 3 first.
const FROM_THREE: (&[u32], &[(u32, u32)]) = (&[3, 1, 2, 4], &[(1, 2), (1, 0), (2, 3), (3, 1)]);

/// 7 with an edge to itself.
const SELF_EDGE: (&[u32], &[(u32, u32)]) = (&[7], &[(0, 0)]);

#[test]
fn levels_are_listed_in_order(rt: HostRuntime) -> Result<(), Fail> {
    let table: [((&[u32], &[(u32, u32)]), &[u32], &[u32]); 5] = [
        (TWO_WAYS, &[1, 2, 3, 9, 4, 10], &[1, 3, 5, 6]),
        (DETOUR, &[1, 2, 3], &[1, 3]),
        (DEAD_END, &[1, 2, 3, 4], &[1, 3, 4]),
        (FROM_THREE, &[3], &[1]),
        (SELF_EDGE, &[7], &[1]),
    ];
    for ((keys, edges), listed, ends) in table {
        let mut scan = scan_of(&rt, keys, edges)?;
        assert_eq!(rt; levels(&mut scan), Outcome::Levels(ends.len() as u32));
        assert_eq!(rt; (scan.keys(), scan.ends()), (listed, ends));
    }
    Ok(())
}

#[test]
fn paths_go_by_first_parents(rt: HostRuntime) -> Result<(), Fail> {
    let table: [((&[u32], &[(u32, u32)]), u32, Outcome, &[u32]); 10] = [
        (TWO_WAYS, 10, Outcome::Path, &[1, 2, 9, 10]),
        (TWO_WAYS, 4, Outcome::Path, &[1, 3, 4]),
        (TWO_WAYS, 1, Outcome::Path, &[1]),
        (TWO_WAYS, 5, Outcome::NoPath, &[]),
        (DETOUR, 2, Outcome::Path, &[1, 2]),
        (DEAD_END, 4, Outcome::Path, &[1, 2, 4]),
        (DEAD_END, 9, Outcome::NoPath, &[]),
        (FROM_THREE, 1, Outcome::NoPath, &[]),
        (FROM_THREE, 3, Outcome::Path, &[3]),
        (SELF_EDGE, 7, Outcome::Path, &[7]),
    ];
    for ((keys, edges), goal, outcome, path) in table {
        let mut scan = scan_of(&rt, keys, edges)?;
        // What an earlier call left in the work room and the answer region changes nothing.
        let _ = levels(&mut scan);
        assert_eq!(rt; reach(&mut scan, goal), outcome);
        assert_eq!(rt; scan.keys(), path);
        assert!(rt; scan.ends().is_empty());
    }
    Ok(())
}
