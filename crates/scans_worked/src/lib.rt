//! The worked queries of core_scans stand on a kept journal, so its laws speak of them: none is said of nothing.
#![tactic(auto)]

ghost use Rattle.std.specs.Prelude.{◌≡◌, Some};
ghost use Rattle.graph_kinds.specs.Graph.{weight_of};
ghost use Rattle.graph_kinds.specs.Part.{part};
ghost use Rattle.scan_record.specs.ScanGraph.{graph_of_scan};
ghost use Rattle.core_journal.specs.Foreign.{IsForeign};
ghost use Rattle.core_journal.specs.GraphOf.{graph_of};
ghost use Rattle.core_journal.specs.Worked.{small};
ghost use Rattle.core_kept.specs.Kept.{IsKept};
ghost use Rattle.core_scans.specs.Held.{IsHeldAt};
ghost use Rattle.core_scans.specs.Seen.{OnlyLooks};
ghost use Rattle.core_scans.specs.Worked.{moment, scan_after, scan_between};

/// The worked journal of queries is kept, and caller 1 only looks from where it finds its root on.
pub fn worked_queries_are_on_a_kept_journal()
    ensures kept { IsKept small (moment 44) }
    ensures before { OnlyLooks small 1 (moment 27) (moment 37) }
    ensures between { OnlyLooks small 1 (moment 37) (moment 38) }
    ensures after { OnlyLooks small 1 (moment 44) (moment 44) }
{}

/// What the laws of core_scans say of its three scans: the first differs by a foreign event, and of the two that were
/// found the same all words stood there at once. The one that passes a replaced edge over is the part of the graph from
/// vertex 1, with the new weight.
pub fn laws_speak_of_worked_queries()
    ensures differs { IsForeign (moment 37) 1 27 37 }
    ensures between { IsHeldAt small (moment 37) scan_between }
    ensures after { IsHeldAt small (moment 44) scan_after }
    ensures part { graph_of_scan scan_after ≡ part (graph_of (moment 44)) 1 }
    ensures weight { weight_of (graph_of_scan scan_after) 1 2 ≡ Some 7 }
{}
