//! A search in breadth that ends with the level in which its goal is met.
//!
//! A key that was met keeps its parent, and what is met later changes no way back: the law is
//! `reach_is_fixed_once_met`. So no row is expanded behind the level that has the goal.

ghost use Rattle.std.specs.Prelude.{◌≡◌, ◌<◌, ◌≤◌, false, length, slice_index, IfSome, IfNone};
ghost use Rattle.std.specs.List.{concat};
ghost use Rattle.graph_kinds.specs.Graph.{IsGraph};
ghost use Rattle.graph_kinds.specs.Levels.{stands_in, levels_of};
ghost use Rattle.scan_record.specs.Asked.{root_of};
ghost use Rattle.scan_record.specs.Scan.{IsComplete};
ghost use Rattle.scan_record.specs.ScanGraph.{graph_of_scan};
ghost use Rattle.path_levels.specs.Queue.{IsFront, IsTree};
ghost use Rattle.path_levels.specs.Search.{KeepsRowsAndCosts};

use crate::queue::{begin, place_of, queue_len};
use crate::search::expand_level;
use scan_record::Scan;

/// Lists levels from row 0 until the goal is met, and gives its place; or all levels, where it isn't. Each key has the
/// place of its parent. O(rows + edges) and what the answer held.
pub fn search_to(scan: &mut Scan, goal: u32) -> Option<u32>
    requires { IsComplete scan.old }
    ensures place { IfSome result (λ place.
        (place < length scan.new.keys) × (slice_index scan.new.keys place ≡ goal)) }
    ensures none { IfNone result (stands_in scan.new.keys goal ≡ false) }
    ensures all { IfNone result (scan.new.keys ≡ concat (levels_of (graph_of_scan scan.old) (root_of scan.old))) }
    ensures front { IsFront scan.new.keys (concat (levels_of (graph_of_scan scan.old) (root_of scan.old))) }
    ensures parents { IsTree (graph_of_scan scan.old) scan.new.keys scan.new.slot_one }
    ensures few { length scan.new.keys ≤ length scan.old.rows }
    ensures graph { IsGraph (graph_of_scan scan.old) }
    ensures kept { KeepsRowsAndCosts scan.old scan.new }
{
    begin(scan);
    let mut from = 0;
    let mut end = queue_len(scan);
    while from < end {
        if let Some(place) = place_of(scan, from, goal) {
            return Some(place);
        }
        scan.put_end(end);
        expand_level(scan, from);
        from = end;
        end = queue_len(scan);
    }
    place_of(scan, 0, goal)
}
