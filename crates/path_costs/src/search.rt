//! A search by cost from row 0 (Dijkstra 1959).
//!
//! Rows are settled by rising cost, and each pair of a settled row is followed to the row that it leads to. A row
//! that waits has the least cost of the ways over settled rows, and as its parent the least key of those that such
//! a way comes over; so the cheapest row that waits is settled next. `IsSearchBut` of `specs/Search.antt`.

ghost use Rattle.std.specs.Prelude.{◌≡◌, ◌≢◌, ℕ, ◌<◌, None, length, slice_index, IfSome, IfNone};
ghost use Rattle.graph_kinds.specs.Graph.{IsGraph};
ghost use Rattle.graph_kinds.specs.Path.{least_cost};
ghost use Rattle.scan_record.specs.Asked.{root_of, KeepsRows};
ghost use Rattle.scan_record.specs.Scan.{IsComplete};
ghost use Rattle.scan_record.specs.ScanGraph.{graph_of_scan};
ghost use Rattle.path_costs.specs.Heap.{state_of, settled_count, IsHeap};
ghost use Rattle.path_costs.specs.Search.{key_of_row, HasPair, IsSearch, IsOpen, FollowsPair, IsSettledTree};

use crate::heap::{NOT_MET, SETTLED, STATE, enter, lower, take};
use scan_record::Scan;

/// The slot that has the row before a row on its way.
pub const PARENT: u32 = 2;

/// Forgets which rows were met, in O(rows).
fn forget(scan: &mut Scan)
    ensures not_met { (r : ℕ) → r < length scan.old.rows → slice_index scan.new.slot_one r ≡ NOT_MET }
    ensures kept { KeepsRows scan.old scan.new }
{
    for row in 0..scan.vertices() {
        scan.set_work(row, STATE, NOT_MET);
    }
}

/// Begins a search: row 0 waits at no cost. O(rows).
fn begin(scan: &mut Scan)
    requires { IsComplete scan.old }
    ensures heap { IsHeap scan.new 1 }
    ensures search { IsSearch scan.new }
    ensures unsettled { (r : ℕ) → r < length scan.new.rows → state_of scan.new r ≢ SETTLED }
    ensures kept { KeepsRows scan.old scan.new }
{
    forget(scan);
    prove!(scan.vertices() > 0);
    enter(scan, 0, 0, 0);
}

/// Follows a pair from the row settled last, and gives the number of places in the heap, in O(log rows).
fn follow(scan: &mut Scan, places: u32, from: u32, row: u32, weight: u32) -> u32
    requires heap { IsHeap scan.old places }
    requires open { IsOpen scan.old from }
    requires row { row < length scan.old.rows }
    requires pair { HasPair scan.old from row weight }
    ensures heap { IsHeap scan.new result }
    ensures follows { FollowsPair scan.old scan.new from row weight }
{
    prove!(row < scan.vertices());
    let cost = scan.cost(from) + weight as u64;
    if scan.work(row, STATE) == NOT_MET {
        scan.set_work(row, PARENT, from);
        enter(scan, places, row, cost);
        return places + 1;
    }
    let known = scan.cost(row);
    if known < cost {
        return places;
    }
    if cost < known {
        scan.set_work(row, PARENT, from);
        lower(scan, places, row, cost);
        return places;
    }
    if scan.vertex(from).key < scan.vertex(scan.work(row, PARENT)).key {
        scan.set_work(row, PARENT, from);
    }
    places
}

/// Follows the pairs of the row settled last, and gives the number of places in the heap, in O(edges of the row ·
/// log rows).
fn expand(scan: &mut Scan, places: u32, from: u32) -> u32
    requires complete { IsComplete scan.old }
    requires heap { IsHeap scan.old places }
    requires open { IsOpen scan.old from }
    ensures heap { IsHeap scan.new result }
    ensures search { IsSearch scan.new }
    ensures settled { settled_count scan.new ≡ settled_count scan.old }
    ensures only { (r : ℕ) → state_of scan.new r ≡ SETTLED → state_of scan.old r ≡ SETTLED }
    ensures kept { KeepsRows scan.old scan.new }
{
    let row = scan.vertex(from);
    prove!(scan.edges() >= row.first + row.count);
    let mut waiting = places;
    for place in row.first..row.first + row.count {
        let edge = scan.edge(place);
        if let Some(target) = edge.target {
            waiting = follow(scan, waiting, from, target, edge.weight);
        }
    }
    waiting
}

/// Settles rows by rising cost until the row of the goal is settled, which it gives, or none waits, in
/// O((rows + edges) · log rows).
pub fn search(scan: &mut Scan, goal: u32) -> Option<u32>
    requires { IsComplete scan.old }
    ensures found { IfSome result (λ row. (row < length scan.old.rows) × (key_of_row scan.old row ≡ goal)
        × (state_of scan.new row ≡ SETTLED) × IsSettledTree scan.new) }
    ensures none { IfNone result (least_cost (graph_of_scan scan.old) (root_of scan.old) goal ≡ None) }
    ensures graph { IsGraph (graph_of_scan scan.old) }
    ensures kept { KeepsRows scan.old scan.new }
{
    begin(scan);
    let mut waiting = 1;
    while waiting > 0 {
        let row = take(scan, waiting);
        prove!(row < scan.vertices());
        if scan.vertex(row).key == goal {
            return Some(row);
        }
        waiting = expand(scan, waiting - 1, row);
    }
    prove!(scan.vertices() > 0);
    None
}
