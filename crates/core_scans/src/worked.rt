//! Worked queries beside another caller (`specs/Worked.antt`), as worked out by hand.

ghost use Rattle.std.specs.Prelude.{◌≡◌};
ghost use Rattle.packed_link.specs.Link.{nowhere, pack};
ghost use Rattle.packed_link.specs.Layout.{link_at, second_at, third_at};
ghost use Rattle.scan_record.specs.Scan.{row_at};
ghost use Rattle.core_journal.specs.Machine.{word_at};
ghost use Rattle.core_journal.specs.Worked.{small};
ghost use Rattle.core_scans.specs.Differing.{DiffersNow};
ghost use Rattle.core_scans.specs.Held.{IsHeldAt};
ghost use Rattle.core_scans.specs.Seen.{HasCollected, IsSame};
ghost use Rattle.core_scans.specs.Worked.{moment, scan_before, scan_after, scan_between};

/// Caller 1 has collected two vertices and an edge from 1 to 2 when caller 0 adds an edge from 1 to itself and removes
/// it. Verify finds the head and the link as they were, and another counter: row 0 differs. A second collect has the
/// new counter, and verify finds it the same.
pub fn a_toggled_edge_differs()
    ensures collected { HasCollected small 1 (moment 27) (moment 27) scan_before }
    ensures head { word_at small (moment 37) (second_at small 0) ≡ pack 2 0 1 }
    ensures link { word_at small (moment 37) (link_at small 2) ≡ pack nowhere 0 1 }
    ensures differs { DiffersNow small scan_before (moment 37) (row_at scan_before 0) }
    ensures again { HasCollected small 1 (moment 37) (moment 37) scan_between }
    ensures same { IsSame small (moment 37) (moment 38) scan_between }
{}

/// Why verify loads the counter after the list. While the edge from 1 to itself is there the counter is as it was
/// recorded, and later the head and the link are too; but at that moment another edge stood at the head. It was marked
/// and unlinked after the counter was loaded: after the list, the counter is another.
pub fn an_early_counter_tells_nothing()
    ensures collected { HasCollected small 1 (moment 27) (moment 34) scan_before }
    ensures early { word_at small (moment 34) (third_at small 0) ≡ 0 }
    ensures head { word_at small (moment 37) (second_at small 0) ≡ pack 2 0 1 }
    ensures link { word_at small (moment 37) (link_at small 2) ≡ pack nowhere 0 1 }
    ensures not_held { IsHeldAt small (moment 34) scan_before → ⊥ }
    ensures late { word_at small (moment 37) (third_at small 0) ≡ 1 }
{}

/// The edge from 1 to 2 is replaced, and its node stands on the list still: collect passes it over and records the edge
/// to which it leads, with the new weight.
pub fn a_replaced_edge_is_passed_over()
    ensures collected { HasCollected small 1 (moment 44) (moment 44) scan_after }
    ensures same { IsSame small (moment 44) (moment 44) scan_after }
{}
