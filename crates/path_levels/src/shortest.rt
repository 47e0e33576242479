//! A path of fewest edges from row 0: back from the goal by parents, then written from the root on.

ghost use Rattle.std.specs.Prelude.{◌≡◌, ℕ, ◌+◌, ◌<◌, ◌≤◌, ◌↔◌, List, [], length, slice_index};
ghost use Rattle.std.specs.Prelude.{reverse, take};
ghost use Rattle.graph_kinds.specs.Answer.{by_path};
ghost use Rattle.graph_kinds.specs.Levels.{reach_path};
ghost use Rattle.graph_kinds.specs.Path.{IsPath};
ghost use Rattle.scan_record.specs.Asked.{root_of, answer_in_region};
ghost use Rattle.scan_record.specs.Scan.{IsComplete};
ghost use Rattle.scan_record.specs.ScanGraph.{graph_of_scan};
ghost use Rattle.path_levels.specs.Queue.{trail};
ghost use Rattle.path_levels.specs.Search.{KeepsRowsAndCosts};

use crate::goal::search_to;
use crate::queue::{MARK, PARENT, queue_len};
use graph_kinds::Outcome;
use scan_record::{Scan, write_back};

/// Gathers the keys from a place back to the first one in the slot of the marks, and gives their number.
fn gather(scan: &mut Scan, goal: u32) -> u32
    requires goal { goal < length scan.old.keys }
    requires few { length scan.old.keys ≤ length scan.old.rows }
    requires parents { (p : ℕ) → 0 < p → p < length scan.old.keys → slice_index scan.old.slot_one p < p }
    ensures count { result ≤ length scan.old.rows }
    ensures gathered { reverse (take result scan.new.slot_two) ≡ trail scan.old.keys scan.old.slot_one goal goal }
    ensures kept { KeepsRowsAndCosts scan.old scan.new }
{
    prove!(goal < queue_len(scan));
    let mut at = goal;
    let mut count = 0;
    while at > 0 {
        scan.set_work(count, MARK, scan.keys()[at as usize]);
        count += 1;
        at = scan.work(at, PARENT);
    }
    scan.set_work(count, MARK, scan.keys()[0]);
    count + 1
}

/// The path by parents from row 0 to the goal: `Path` with its keys in the answer region, or `NoPath` with
/// none, where no path leads there or the goal is no key. The search ends with the level that has the goal. Takes no
/// memory, in O(rows + edges) and what the answer held (Moore 1959).
pub fn reach(scan: &mut Scan, goal: u32) -> Outcome
    requires { IsComplete scan.old }
    ensures answer { answer_in_region result scan.new
        ≡ by_path (reach_path (graph_of_scan scan.old) (root_of scan.old) goal) }

    // What the rule of parents comes to: a path than which none is shorter, and none only where there is none.
    ensures path { result ≡ Outcome.Path → IsPath (graph_of_scan scan.old) (root_of scan.old) goal scan.new.keys }
    ensures shortest { result ≡ Outcome.Path → (p : List ℕ) → IsPath (graph_of_scan scan.old) (root_of scan.old) goal p
        → length scan.new.keys ≤ length p }
    ensures no_path { (result ≡ Outcome.NoPath)
        ↔ ((p : List ℕ) → ¬ (IsPath (graph_of_scan scan.old) (root_of scan.old) goal p)) }

    ensures kept { KeepsRowsAndCosts scan.old scan.new }
    ensures graph { graph_of_scan scan.new ≡ graph_of_scan scan.old }
    ensures complete { IsComplete scan.new }
{
    match search_to(scan, goal) {
        Some(place) => {
            let count = gather(scan, place);
            write_back(scan, MARK, count);
            Outcome::Path
        }
        None => {
            scan.clear_answer();
            Outcome::NoPath
        }
    }
}
