//! The laws of the two passes over a recorded part: what collect recorded and verify found again stood there at once.
//!
//! That two reads which see the same give a snapshot is an idea of Afek et al. (1993). Here a word may change between
//! its two reads and be the same again. But the counter of a vertex is raised before an edge of it is marked or
//! replaced: an edge that was linked and taken away between two reads of the list shows in the counter, which is loaded
//! around them, first before the list and then after it.

ghost use Rattle.std.specs.Prelude.{◌≡◌, ℕ, ◌≤◌, true, List, length};
ghost use Rattle.graph_kinds.specs.Graph.{has};
ghost use Rattle.graph_kinds.specs.Part.{part};
ghost use Rattle.packed_link.specs.Layout.{IsLayout, Sizes};
ghost use Rattle.core_journal.specs.declared.event.Event.{Event};
ghost use Rattle.core_journal.specs.GraphOf.{graph_of};
ghost use Rattle.core_journal.specs.Prefix.{IsPrefix};
ghost use Rattle.core_journal.specs.Reuse.{pass_in};
ghost use Rattle.core_rule.specs.Plays.{IsSound};
ghost use Rattle.core_rule.specs.declared.view.View.{View};
ghost use Rattle.scan_record.specs.Asked.{root_of};
ghost use Rattle.scan_record.specs.Scan.{IsComplete, IsScan, ScanValue};
ghost use Rattle.scan_record.specs.ScanGraph.{graph_of_scan};
ghost use Rattle.core_scans.specs.Held.{IsHeldAt};
ghost use Rattle.core_scans.specs.Seen.{HasCollected, IsSame, OnlyLooks};

/// If verify found the same words that collect recorded, and the caller only looked since the root was found, all of
/// them stood in the table at once at the end of collect. So the scan is complete, and its graph is the part of the
/// graph at the end of collect that is reached from its root, which is a key of that graph.
pub fn same_means_one_moment()
    ensures held { (sizes : Sizes) → IsLayout sizes → (caller : ℕ) (start end now : List Event) (s : ScanValue)
        → OnlyLooks sizes caller start now → IsPrefix end now → HasCollected sizes caller start end s
        → IsSame sizes end now s → IsHeldAt sizes end s }
    ensures complete { (sizes : Sizes) → IsLayout sizes → (caller : ℕ) (start end now : List Event) (s : ScanValue)
        → OnlyLooks sizes caller start now → IsPrefix end now → IsScan s → HasCollected sizes caller start end s
        → IsSame sizes end now s → IsComplete s }
    ensures root { (sizes : Sizes) → IsLayout sizes → (caller : ℕ) (start end now : List Event) (s : ScanValue)
        → OnlyLooks sizes caller start now → IsPrefix end now → IsScan s → HasCollected sizes caller start end s
        → IsSame sizes end now s → has (graph_of end) (root_of s) ≡ true }
    ensures part { (sizes : Sizes) → IsLayout sizes → (caller : ℕ) (start end now : List Event) (s : ScanValue)
        → OnlyLooks sizes caller start now → IsPrefix end now → IsScan s → HasCollected sizes caller start end s
        → IsSame sizes end now s → graph_of_scan s ≡ part (graph_of end) (root_of s) }
{}

/// A token only looks, by its view, from a front on that has all of its events and in which its pass is open; and up to
/// each front of what it has seen.
pub fn a_quiet_token_only_looks()
    ensures view { (v : View) → IsSound v → v.numbered ≡ true → (start : List Event) → v.last ≤ length start
        → (pass_in v.sizes start v.number).is_open ≡ true → OnlyLooks v.sizes v.number start v.front }
    ensures until { (sizes : Sizes) (caller : ℕ) (start front now : List Event) → OnlyLooks sizes caller start now
        → IsPrefix front now → OnlyLooks sizes caller start front }
{}

/// A collected scan whose words all stand in the table at the end of collect is complete, and its graph is the part of
/// the graph at that moment that is reached from its root, which is a key of that graph.
pub fn what_is_held_is_the_part()
    ensures complete { (sizes : Sizes) → IsLayout sizes → (caller : ℕ) (start end : List Event) (s : ScanValue)
        → OnlyLooks sizes caller start end → IsScan s → HasCollected sizes caller start end s → IsHeldAt sizes end s
        → IsComplete s }
    ensures root { (sizes : Sizes) → IsLayout sizes → (caller : ℕ) (start end : List Event) (s : ScanValue)
        → OnlyLooks sizes caller start end → IsScan s → HasCollected sizes caller start end s → IsHeldAt sizes end s
        → has (graph_of end) (root_of s) ≡ true }
    ensures part { (sizes : Sizes) → IsLayout sizes → (caller : ℕ) (start end : List Event) (s : ScanValue)
        → OnlyLooks sizes caller start end → IsScan s → HasCollected sizes caller start end s → IsHeldAt sizes end s
        → graph_of_scan s ≡ part (graph_of end) (root_of s) }
{}
