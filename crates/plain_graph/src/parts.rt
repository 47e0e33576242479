//! A scan that holds the part of the graph that is reached from a key, for the calls that ask for a path.
//!
//! The root has row 0, and each key to which an edge leads from a row has the next row when it is first met, so the
//! rows come breadth first and the part is collected and nothing else. The number of a key's row is found by
//! `numbers`. What stands at the end is `IsCollected` of `specs/Collecting.antt`.

ghost use Rattle.std.specs.Prelude.{◌≡◌, ◌≢◌, ℕ, ◌+◌, ◌<◌, ◌≤◌, [], true, length, IfOk, OnOk, IfSome, IfNone};
ghost use Rattle.graph_kinds.specs.Graph.{IsGraph};
ghost use Rattle.graph_kinds.specs.Part.{part};
ghost use Rattle.scan_record.specs.Scan.{IsScan, IsComplete, row_at, empty_scan};
ghost use Rattle.scan_record.specs.ScanGraph.{graph_of_scan};
ghost use Rattle.plain_graph.specs.Kept.{Rises, graph_in_maps, holds};
ghost use Rattle.plain_graph.specs.Collecting.{IsNumbering, HasRowLives, MeetsKey, IsCollected, with_key};

use crate::maps::Vertices;
use crate::numbers::Numbers;
use graph_kinds::{Memory, parts_are_answered_alike};
use packed_link::Life;
use scan_record::{EdgeRow, Scan, complete_scans_are_graphs, scan_graph_looked_up};
use std::alloc::Global;

/// For how many rows and edges the first scan has room.
const FIRST_ROOM: u32 = 1_024;

/// The most rows and edges that a scan has room for.
const MOST_ROOM: u32 = 65_536;

/// A scan with the part that is reached from a root: row 0 is the root's, and there is no answer yet. It is the kept
/// scan, where there is one with room for the part. O(part · log V).
///
/// # Errors
/// `Memory` where there is no room for it.
pub fn scan_of_part(
    alloc: Global,
    kept: Option<Scan>,
    numbers: &mut Numbers,
    vertices: &Vertices,
    root: u32,
) -> Result<Scan, Memory>
    requires rises { Rises vertices.now }
    requires sound { IsGraph (graph_in_maps vertices.now) }
    requires held { holds vertices.now root ≡ true }
    ensures complete { IfOk result (λ s. IsComplete s) }
    ensures graph { IfOk result (λ s. graph_of_scan s ≡ part (graph_in_maps vertices.now) root) }
    ensures root { IfOk result (λ s. (row_at s 0).key ≡ root) }
    ensures no_keys { IfOk result (λ s. s.keys ≡ []) }
    ensures no_ends { IfOk result (λ s. s.ends ≡ []) }
{
    scan_graph_looked_up();
    complete_scans_are_graphs();
    parts_are_answered_alike();
    let mut scan = match kept {
        Some(scan) => scan,
        None => Scan::new(alloc, FIRST_ROOM)?,
    };
    let mut room = scan.nodes();
    while !collect(alloc, &mut scan, numbers, vertices, root)? {
        if room == MOST_ROOM {
            return Err(Memory);
        }
        room = (2 * room).max(FIRST_ROOM).min(MOST_ROOM);
        scan = Scan::new(alloc, room)?;
    }
    is_valid(&scan);
    Ok(scan)
}

/// A law of scans: each is within its limits.
fn is_valid(scan: &Scan)
    ensures { IsScan scan.now }
{
    scan.vertices();
}

/// Clears a scan and collects the part that is reached from a root, and tells whether there is room for it.
/// O(part · log V), and what the scan held.
fn collect(
    alloc: Global,
    scan: &mut Scan,
    numbers: &mut Numbers,
    vertices: &Vertices,
    root: u32,
) -> Result<bool, Memory>
    requires rises { Rises vertices.now }
    requires sound { IsGraph (graph_in_maps vertices.now) }
    requires held { holds vertices.now root ≡ true }
    ensures collected { IfOk result (λ whole. whole ≡ true
        → IsCollected vertices.now numbers.new scan.new (length scan.new.rows) (length scan.new.rows)) }
    ensures root { IfOk result (λ whole. whole ≡ true → (row_at scan.new 0).key ≡ root) }
{
    numbers.prepare(alloc)?;
    scan.clear();
    if scan.nodes() == 0 {
        return Ok(false);
    }
    push_key(scan, numbers, root)?;
    let mut row = 0;
    while row < scan.vertices() {
        if !push_row(scan, numbers, vertices, row)? {
            return Ok(false);
        }
        row += 1;
    }
    Ok(true)
}

/// Pushes the next row, with a key that has none, and notes its number, which it gives. O(log V).
///
/// # Errors
/// `Memory` where there is no room to note it.
fn push_key(scan: &mut Scan, numbers: &mut Numbers, key: u32) -> Result<u32, Memory>
    requires room { length scan.old.rows < scan.old.nodes }
    requires numbering { IsNumbering numbers.old scan.old }
    requires indexed { HasRowLives scan.old }
    requires absent { (k : ℕ) → k < length scan.old.rows → (row_at scan.old k).key ≢ key }
    ensures number { IfOk result (λ row. row ≡ length scan.old.rows) }
    ensures pushed { OnOk result (scan.new ≡ with_key scan.old key) }
    ensures numbering { OnOk result (IsNumbering numbers.new scan.new) }
    ensures indexed { OnOk result (HasRowLives scan.new) }
{
    let row = scan.vertices();
    numbers.note(scan, key)?;
    scan.push_vertex(Life { index: row, tag: 1 }, key);
    Ok(row)
}

/// The number of the row of a key, which is pushed where the key has none yet; none where there is no room for it.
/// O(log V).
///
/// # Errors
/// `Memory` where there is no room to note it.
fn meet(scan: &mut Scan, numbers: &mut Numbers, key: u32) -> Result<Option<u32>, Memory>
    requires numbering { IsNumbering numbers.old scan.old }
    requires indexed { HasRowLives scan.old }
    ensures row { IfOk result (λ found. IfSome found (λ row.
        (row < length scan.new.rows) × ((row_at scan.new row).key ≡ key))) }
    ensures meets { OnOk result (MeetsKey scan.old scan.new key) }
    ensures numbering { OnOk result (IsNumbering numbers.new scan.new) }
    ensures indexed { OnOk result (HasRowLives scan.new) }
{
    if let Some(row) = numbers.row_of(scan, key) {
        return Ok(Some(row));
    }
    if scan.vertices() == scan.nodes() {
        return Ok(None);
    }
    let row = push_key(scan, numbers, key)?;
    Ok(Some(row))
}

/// Pushes the edges of the next row and the rows of the keys that are met first, and tells whether there is room for
/// them. O((1 + d) log V) for d edges.
///
/// # Errors
/// `Memory` where there is no room to note a row.
fn push_row(
    scan: &mut Scan,
    numbers: &mut Numbers,
    vertices: &Vertices,
    row: u32,
) -> Result<bool, Memory>
    requires row { row < length scan.old.rows }
    requires collected { IsCollected vertices.now numbers.old scan.old row row }
    requires rises { Rises vertices.now }
    requires sound { IsGraph (graph_in_maps vertices.now) }
    ensures collected { IfOk result (λ whole. whole ≡ true
        → IsCollected vertices.now numbers.new scan.new (row + 1) (row + 1)) }
    ensures root { IfOk result (λ whole. whole ≡ true → (row_at scan.new 0).key ≡ (row_at scan.old 0).key) }
{
    let key = scan.vertex(row).key;
    scan.start_edges(row, 0, 0);
    let Some(edges) = vertices.get(&key) else {
        return Ok(true);
    };
    for (to, weight) in edges {
        let Some(target) = meet(scan, numbers, *to)? else {
            return Ok(false);
        };
        if scan.edges() == scan.nodes() {
            return Ok(false);
        }
        scan.push_edge(EdgeRow {
            life: Life { index: 0, tag: 0 },
            link: 0,
            key: *to,
            weight: *weight,
            target: Some(target),
        });
    }
    Ok(true)
}
