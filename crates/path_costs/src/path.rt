//! The cheapest path from row 0: back from the goal by parents, then written from the root on.

ghost use Rattle.std.specs.Prelude.{◌≡◌, ℕ, ◌<◌, ◌≤◌, ◌^◌, ◌↔◌, List, length, reverse, take};
ghost use Rattle.graph_kinds.specs.Answer.{by_cost};
ghost use Rattle.graph_kinds.specs.Path.{IsPath, cost_of, IsLeastCost, least_cost, cheapest_path, GoesByLeastKeys};
ghost use Rattle.scan_record.specs.Asked.{root_of, answer_in_region, KeepsRows};
ghost use Rattle.scan_record.specs.Scan.{IsComplete};
ghost use Rattle.scan_record.specs.ScanGraph.{graph_of_scan};
ghost use Rattle.path_costs.specs.Heap.{state_of};
ghost use Rattle.path_costs.specs.Search.{key_of_row, IsSettledTree};

use crate::heap::{ROW, SETTLED};
use crate::search::{PARENT, search};
use graph_kinds::Outcome;
use scan_record::{Scan, write_back};

/// Gathers the keys from a settled row back to row 0 in the slot of the heap, which is no longer needed, and gives
/// their number.
fn gather(scan: &mut Scan, row: u32) -> u32
    requires tree { IsSettledTree scan.old }
    requires row { row < length scan.old.rows }
    requires settled { state_of scan.old row ≡ SETTLED }
    ensures count { result ≤ length scan.old.rows }
    ensures path { IsPath (graph_of_scan scan.old) (root_of scan.old) (key_of_row scan.old row)
        (reverse (take result scan.new.slot_zero)) }
    ensures keys { GoesByLeastKeys (graph_of_scan scan.old) (root_of scan.old)
        (reverse (take result scan.new.slot_zero)) }
    ensures kept { KeepsRows scan.old scan.new }
{
    prove!(row < scan.vertices());
    let mut at = row;
    let mut count = 0;
    while at > 0 {
        scan.set_work(count, ROW, scan.vertex(at).key);
        count += 1;
        at = scan.work(at, PARENT);
    }
    scan.set_work(count, ROW, scan.vertex(0).key);
    count + 1
}

/// The cheapest path from row 0 to the goal: `Cost` with the least cost, a sum of weights below 2^48, and the
/// keys of the path in the answer region, or `NoPath` with none, where no path leads there or the goal is no key.
/// Of paths that cost as much it is the one on which each key comes behind the least key that it can. Takes no
/// memory, in O((rows + edges) · log rows) and what the answer held (Dijkstra 1959, with a binary heap with places,
/// Williams 1964).
pub fn cheapest(scan: &mut Scan, goal: u32) -> Outcome
    requires { IsComplete scan.old }
    ensures answer { answer_in_region result scan.new
        ≡ by_cost (least_cost (graph_of_scan scan.old) (root_of scan.old) goal)
        (cheapest_path (graph_of_scan scan.old) (root_of scan.old) goal) }

    // What the rules of least costs and of the way back come to:
    ensures cost { (c : ℕ) → result ≡ Outcome.Cost c → IsLeastCost (graph_of_scan scan.old) (root_of scan.old) goal c }
    ensures bounded { (c : ℕ) → result ≡ Outcome.Cost c → c < 2 ^ 48 }
    ensures path { (c : ℕ) → result ≡ Outcome.Cost c
        → IsPath (graph_of_scan scan.old) (root_of scan.old) goal scan.new.keys
        × (cost_of (graph_of_scan scan.old) scan.new.keys ≡ c) }
    ensures cheapest { (c : ℕ) → result ≡ Outcome.Cost c → (p : List ℕ)
        → IsPath (graph_of_scan scan.old) (root_of scan.old) goal p → c ≤ cost_of (graph_of_scan scan.old) p }
    ensures least_keys { (c : ℕ) → result ≡ Outcome.Cost c
        → GoesByLeastKeys (graph_of_scan scan.old) (root_of scan.old) scan.new.keys }
    ensures no_path { (result ≡ Outcome.NoPath)
        ↔ ((p : List ℕ) → ¬ (IsPath (graph_of_scan scan.old) (root_of scan.old) goal p)) }

    ensures kept { KeepsRows scan.old scan.new }
    ensures graph { graph_of_scan scan.new ≡ graph_of_scan scan.old }
    ensures complete { IsComplete scan.new }
{
    match search(scan, goal) {
        Some(row) => {
            let cost = scan.cost(row);
            let count = gather(scan, row);
            write_back(scan, ROW, count);
            Outcome::Cost(cost)
        }
        None => {
            scan.clear_answer();
            Outcome::NoPath
        }
    }
}
