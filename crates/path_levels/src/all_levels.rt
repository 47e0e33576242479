//! The levels of a scan: the search's queue with its level ends.

ghost use Rattle.std.specs.Prelude.{◌≡◌};
ghost use Rattle.graph_kinds.specs.Answer.{by_levels};
ghost use Rattle.graph_kinds.specs.Levels.{levels_of};
ghost use Rattle.scan_record.specs.Asked.{root_of, answer_in_region};
ghost use Rattle.scan_record.specs.Scan.{IsComplete};
ghost use Rattle.scan_record.specs.ScanGraph.{graph_of_scan};
ghost use Rattle.path_levels.specs.Search.{KeepsRowsAndCosts};

use crate::search::search;
use graph_kinds::Outcome;
use scan_record::Scan;

/// The levels from row 0, `Levels(n)` of n levels: the answer region gets their keys in order, and for each
/// level the number of keys up to its end. Takes no memory, in O(rows + edges) and what the answer held (Moore
/// 1959).
pub fn levels(scan: &mut Scan) -> Outcome
    requires { IsComplete scan.old }
    ensures answer { answer_in_region result scan.new
        ≡ by_levels (levels_of (graph_of_scan scan.old) (root_of scan.old)) }
    ensures kept { KeepsRowsAndCosts scan.old scan.new }
    ensures graph { graph_of_scan scan.new ≡ graph_of_scan scan.old }
    ensures complete { IsComplete scan.new }
{
    search(scan);
    prove!(scan.ends().len() <= scan.vertices() as usize);
    Outcome::Levels(scan.ends().len() as u32)
}
