//! Cheapest paths on graphs that were worked out by hand.

ghost use Rattle.std.specs.Prelude.{◌≡◌, ◌≢◌, ℕ, ◌+◌, ◌<◌, ◌≤◌, [], IfOk, Some, length};
ghost use Rattle.scan_record.specs.Scan.{IsComplete, row_at, edge_at};

use crate::cheapest;
use graph_kinds::{Memory, Outcome};
use packed_link::Life;
use scan_record::{EdgeRow, Scan};
use std::process::Abort;
use std::test::Fail;

const NODES: u32 = 16;

const LIFE: Life = Life { index: 0, tag: 1 };

/// A row for each key.
fn push_rows(scan: &mut Scan, keys: &[u32])
    requires few { length keys.now ≤ 16 }
    requires nodes { scan.old.nodes ≡ 16 }
    requires no_rows { scan.old.rows ≡ [] }
    ensures nodes { scan.new.nodes ≡ 16 }
    ensures started { scan.new.started ≡ scan.old.started }
    ensures next { scan.new.next ≡ scan.old.next }
{
    for index in 0..keys.len() as u32 {
        scan.push_vertex(Life { index, tag: 1 }, keys[index as usize]);
    }
}

/// The edges from a row, each given as the numbers of two rows and a weight.
fn push_edges(rt: &impl Abort, scan: &mut Scan, row: u32, edges: &[(u32, u32, u32)])
    requires nodes { scan.old.nodes ≡ 16 }
    requires row { row < length scan.old.rows }
    requires next { scan.old.next ≡ row }
    ensures nodes { scan.new.nodes ≡ 16 }
    ensures rows { length scan.new.rows ≡ length scan.old.rows }
    ensures started { scan.new.started ≡ scan.old.started + 1 }
    ensures next { scan.new.next ≡ row + 1 }
{
    scan.start_edges(row, 0, 0);
    let mut least = 0;
    for (from, to, weight) in edges {
        if *from == row {
            assert!(rt; *to < scan.vertices() && scan.edges() < NODES);
            let key = scan.vertex(*to).key;
            assert!(rt; key >= least && key < u32::MAX && *weight > 0);
            scan.push_edge(EdgeRow {
                life: LIFE,
                link: 0,
                key,
                weight: *weight,
                target: Some(*to),
            });
            least = key + 1;
        }
    }
}

/// Stops where two rows have one key.
fn expect_keys_differ(rt: &impl Abort, scan: &Scan)
    ensures { (j k : ℕ) → j < k → k < length scan.now.rows → (row_at scan.now j).key ≢ (row_at scan.now k).key }
{
    for row in 0..scan.vertices() {
        for other in 0..row {
            assert!(rt; scan.vertex(other).key != scan.vertex(row).key);
        }
    }
}

/// Stops where an edge's key isn't that of its target.
fn expect_target_keys(rt: &impl Abort, scan: &Scan)
    ensures { (p t : ℕ) → p < length scan.now.edges → (edge_at scan.now p).target ≡ Some t
        → (row_at scan.now t).key ≡ (edge_at scan.now p).key }
{
    for place in 0..scan.edges() {
        let edge = scan.edge(place);
        if let Some(target) = edge.target {
            assert!(rt; target < scan.vertices());
            assert!(rt; scan.vertex(target).key == edge.key);
        }
    }
}

/// The scan of a graph: a row for each key, and its edges, each given as the numbers of two rows and a weight.
fn scan_of(
    rt: &(impl AllocGlobal + Abort),
    keys: &[u32],
    edges: &[(u32, u32, u32)],
) -> Result<Scan, Memory>
    ensures { IfOk result IsComplete }
{
    let mut scan = Scan::new(rt.alloc(), NODES)?;
    assert!(rt; keys.len() <= NODES as usize);
    push_rows(&mut scan, keys);
    assert!(rt; scan.vertices() > 0);
    for row in 0..scan.vertices() {
        push_edges(rt, &mut scan, row, edges);
    }
    expect_keys_differ(rt, &scan);
    expect_target_keys(rt, &scan);
    Ok(scan)
}

/// 1 leads to 2 by a pair of weight 10, or over 3 by pairs of 1 and 2.
const DETOUR: (&[u32], &[(u32, u32, u32)]) = (&[1, 2, 3], &[(0, 1, 10), (0, 2, 1), (2, 1, 2)]);

/// 1 leads to 4 over 2 by 2 and 1, and over 3 by 1 and 2.
const TIE: (&[u32], &[(u32, u32, u32)]) = (
    &[1, 2, 3, 4],
    &[(0, 1, 2), (0, 2, 1), (1, 3, 1), (2, 3, 2)],
);

/// 10 leads to 20 over 3, 5 and 4, each way of cost 8, and 3 and 5 are reached over 7 as cheaply as by one pair; the
/// pair from 10 that costs most is listed first, and its row is settled last.
const THREE_WAYS: (&[u32], &[(u32, u32, u32)]) = (
    &[10, 3, 5, 4, 7, 20],
    &[
        (0, 1, 6),
        (0, 3, 5),
        (0, 2, 4),
        (0, 4, 2),
        (1, 5, 2),
        (2, 5, 4),
        (3, 5, 3),
        (4, 1, 4),
        (4, 2, 2),
    ],
);

/// 1 leads to 4 over 2 and 3, with the greatest weights.
const GREATEST: (&[u32], &[(u32, u32, u32)]) = (
    &[1, 2, 3, 4],
    &[(0, 1, u32::MAX), (1, 2, u32::MAX), (2, 3, u32::MAX)],
);

/// A circle over 6, 2 and 9 with a pair back to 6 from each, and 4, from which 6 is reached and which isn't reached.
const CIRCLE: (&[u32], &[(u32, u32, u32)]) = (
    &[6, 2, 9, 4],
    &[(0, 1, 3), (1, 0, 1), (1, 2, 5), (2, 0, 1), (3, 0, 1)],
);

#[test]
fn paths_are_cheapest_and_go_by_least_keys(rt: HostRuntime) -> Result<(), Fail> {
    let table: [((&[u32], &[(u32, u32, u32)]), u32, Outcome, &[u32]); 13] = [
        (DETOUR, 2, Outcome::Cost(3), &[1, 3, 2]),
        (DETOUR, 3, Outcome::Cost(1), &[1, 3]),
        (DETOUR, 1, Outcome::Cost(0), &[1]),
        (DETOUR, 7, Outcome::NoPath, &[]),
        (TIE, 4, Outcome::Cost(3), &[1, 2, 4]),
        (THREE_WAYS, 20, Outcome::Cost(8), &[10, 7, 3, 20]),
        (THREE_WAYS, 5, Outcome::Cost(4), &[10, 7, 5]),
        (THREE_WAYS, 4, Outcome::Cost(5), &[10, 4]),
        (GREATEST, 4, Outcome::Cost(12_884_901_885), &[1, 2, 3, 4]),
        (CIRCLE, 9, Outcome::Cost(8), &[6, 2, 9]),
        (CIRCLE, 4, Outcome::NoPath, &[]),
        (CIRCLE, 6, Outcome::Cost(0), &[6]),
        (CIRCLE, 0, Outcome::NoPath, &[]),
    ];
    for ((keys, edges), goal, outcome, path) in table {
        let mut scan = scan_of(&rt, keys, edges)?;
        // What earlier calls left in the work room and the answer region changes nothing.
        let _ = cheapest(&mut scan, 0);
        let _ = cheapest(&mut scan, goal);
        assert_eq!(rt; cheapest(&mut scan, goal), outcome);
        assert_eq!(rt; scan.keys(), path);
        assert!(rt; scan.ends().is_empty());
    }
    Ok(())
}
