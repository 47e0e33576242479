//! A search in breadth from row 0, level by level.
//!
//! Once the rows up to a level's end are expanded, the queue has the levels up to there and all of the next
//! one: the keys met from a level, each once, are the level behind it.

ghost use Rattle.std.specs.Prelude.{◌≡◌, ◌≤◌, length, drop, flat_map};
ghost use Rattle.std.specs.List.{concat};
ghost use Rattle.graph_kinds.specs.Graph.{IsGraph, neighbours};
ghost use Rattle.graph_kinds.specs.Levels.{levels_of, level_ends};
ghost use Rattle.scan_record.specs.Asked.{root_of};
ghost use Rattle.scan_record.specs.Scan.{IsComplete};
ghost use Rattle.scan_record.specs.ScanGraph.{graph_of_scan};
ghost use Rattle.path_levels.specs.Queue.{with_all, IsTree};
ghost use Rattle.path_levels.specs.Search.{KeepsRowsAndCosts, IsQueue};

use crate::queue::{begin, expand, queue_len};
use scan_record::Scan;

/// Expands the rows of the queue from a place on, as many as there are, in O(their edges).
pub fn expand_level(scan: &mut Scan, from: u32)
    requires complete { IsComplete scan.old }
    requires queue { IsQueue scan.old from }
    requires from { from ≤ length scan.old.keys }
    ensures keys { scan.new.keys
        ≡ with_all scan.old.keys (flat_map (neighbours (graph_of_scan scan.old)) (drop from scan.old.keys)) }
    ensures queue { IsQueue scan.new (length scan.old.keys) }
    ensures ends { scan.new.ends ≡ scan.old.ends }
    ensures kept { KeepsRowsAndCosts scan.old scan.new }
{
    let end = queue_len(scan);
    for place in from..end {
        expand(scan, place);
    }
}

/// Lists all levels from row 0, with the place of each key's parent, in O(rows + edges) and what the answer held.
pub fn search(scan: &mut Scan)
    requires { IsComplete scan.old }
    ensures keys { scan.new.keys ≡ concat (levels_of (graph_of_scan scan.old) (root_of scan.old)) }
    ensures ends { scan.new.ends ≡ level_ends 0 (levels_of (graph_of_scan scan.old) (root_of scan.old)) }
    ensures parents { IsTree (graph_of_scan scan.old) scan.new.keys scan.new.slot_one }
    ensures few { length scan.new.keys ≤ length scan.old.rows }
    ensures few_levels { length scan.new.ends ≤ length scan.old.rows }
    ensures graph { IsGraph (graph_of_scan scan.old) }
    ensures kept { KeepsRowsAndCosts scan.old scan.new }
{
    begin(scan);
    let mut from = 0;
    let mut end = queue_len(scan);
    while from < end {
        scan.put_end(end);
        expand_level(scan, from);
        from = end;
        end = queue_len(scan);
    }
}
