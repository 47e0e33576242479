//! The queue of a search in breadth (Moore 1959), in the work room of a scan.
//!
//! The answer's keys are the queue's keys, so that the queue is the answer of `levels` as it grows. A row's
//! number stands in slot 0 at its place, the place of its parent in slot 1, and slot 2 has a mark at each
//! row that was met: `IsQueue` of `specs/Search.antt`.

ghost use Rattle.std.specs.Prelude.{◌≡◌, ℕ, ◌+◌, ◌<◌, ◌≤◌, true, false, [], ◌∷◌, length, drop, slice_index};
ghost use Rattle.std.specs.Prelude.{IfSome, IfNone};
ghost use Rattle.graph_kinds.specs.Graph.{neighbours};
ghost use Rattle.graph_kinds.specs.Levels.{stands_in};
ghost use Rattle.scan_record.specs.Asked.{root_of};
ghost use Rattle.scan_record.specs.Scan.{IsScan, IsComplete, row_at};
ghost use Rattle.scan_record.specs.ScanGraph.{graph_of_scan};
ghost use Rattle.path_levels.specs.Queue.{with_met, with_all, leads};
ghost use Rattle.path_levels.specs.Search.{with_row, KeepsRowsAndCosts, IsQueue};

use scan_record::Scan;

/// The slot that has the row of a place.
pub const ROW: u32 = 0;
/// The slot that has the parent's place of a place.
pub const PARENT: u32 = 1;
/// The slot that has the mark of a row.
pub const MARK: u32 = 2;

/// How many keys the queue has. O(1).
pub fn queue_len(scan: &Scan) -> u32
    requires { length scan.now.keys ≤ length scan.now.rows }
    ensures count { result ≡ length scan.now.keys }
    ensures valid { IsScan scan.now }
{
    prove!(scan.keys().len() <= scan.vertices() as usize);
    scan.keys().len() as u32
}

/// The place of a key in the queue, from a place on. O(keys from there on).
pub fn place_of(scan: &Scan, from: u32, key: u32) -> Option<u32>
    requires few { length scan.now.keys ≤ length scan.now.rows }
    requires from { from ≤ length scan.now.keys }
    ensures place { IfSome result (λ place. (place < length scan.now.keys) × (slice_index scan.now.keys place ≡ key)) }
    ensures none { IfNone result (stands_in (drop from scan.now.keys) key ≡ false) }
{
    for place in from..queue_len(scan) {
        if scan.keys()[place as usize] == key {
            return Some(place);
        }
    }
    None
}

/// Takes the mark from each row, in O(rows).
fn unmark(scan: &mut Scan)
    ensures unmarked { (k : ℕ) → k < length scan.old.rows → slice_index scan.new.slot_two k ≡ 0 }
    ensures kept { KeepsRowsAndCosts scan.old scan.new }
    ensures keys { scan.new.keys ≡ scan.old.keys }
    ensures ends { scan.new.ends ≡ scan.old.ends }
{
    for row in 0..scan.vertices() {
        scan.set_work(row, MARK, 0);
    }
}

/// Puts a row at the end of the queue, with its parent's place.
fn put(scan: &mut Scan, row: u32, parent: u32)
    requires row { row < length scan.old.rows }
    requires room { length scan.old.keys < length scan.old.rows }
    ensures put { scan.new ≡ with_row scan.old row parent }
    ensures valid { IsScan scan.old }
{
    let place = queue_len(scan);
    scan.set_work(place, ROW, row);
    scan.set_work(place, PARENT, parent);
    scan.set_work(row, MARK, 1);
    scan.put_key(scan.vertex(row).key);
}

/// Begins a queue that has row 0, in O(rows) and what the answer held.
pub fn begin(scan: &mut Scan)
    requires { IsComplete scan.old }
    ensures queue { IsQueue scan.new 0 }
    ensures keys { scan.new.keys ≡ root_of scan.old ∷ [] }
    ensures ends { scan.new.ends ≡ [] }
    ensures kept { KeepsRowsAndCosts scan.old scan.new }
{
    scan.clear_answer();
    unmark(scan);
    put(scan, 0, 0);
}

/// Puts a row at the end of the queue where it was not met, by an edge from the key at the parent's place. O(1).
fn meet(scan: &mut Scan, row: u32, parent: u32)
    requires complete { IsComplete scan.old }
    requires queue { IsQueue scan.old parent }
    requires row { row < length scan.old.rows }
    requires parent { parent < length scan.old.keys }
    requires edge { leads (graph_of_scan scan.old) (row_at scan.old row).key (slice_index scan.old.keys parent) ≡ true }
    ensures keys { scan.new.keys ≡ with_met scan.old.keys (row_at scan.old row).key }
    ensures queue { IsQueue scan.new parent }
    ensures ends { scan.new.ends ≡ scan.old.ends }
    ensures kept { KeepsRowsAndCosts scan.old scan.new }
{
    if scan.work(row, MARK) == 0 {
        put(scan, row, parent);
    }
}

/// Meets the out-neighbours of the key at a place, by rising key, in O(edges of its row).
pub fn expand(scan: &mut Scan, place: u32)
    requires complete { IsComplete scan.old }
    requires queue { IsQueue scan.old place }
    requires place { place < length scan.old.keys }
    ensures keys { scan.new.keys
        ≡ with_all scan.old.keys (neighbours (graph_of_scan scan.old) (slice_index scan.old.keys place)) }
    ensures queue { IsQueue scan.new (place + 1) }
    ensures ends { scan.new.ends ≡ scan.old.ends }
    ensures kept { KeepsRowsAndCosts scan.old scan.new }
{
    let row = scan.vertex(scan.work(place, ROW));
    prove!(scan.edges() >= row.first + row.count);
    for edge in row.first..row.first + row.count {
        if let Some(target) = scan.edge(edge).target {
            meet(scan, target, place);
        }
    }
}
