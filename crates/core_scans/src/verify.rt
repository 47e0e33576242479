//! The laws of verify: what it carries from load to load, until each row was found the same.

ghost use Rattle.std.specs.Prelude.{◌≡◌, ◌≢◌, ℕ, ◌+◌, ◌<◌, ◌≤◌, List, Some, length, slice_get};
ghost use Rattle.packed_link.specs.Link.{mark_of, tag_of};
ghost use Rattle.packed_link.specs.Layout.{IsLayout, Sizes, link_at, second_at, third_at};
ghost use Rattle.core_journal.specs.declared.event.Event.{Event};
ghost use Rattle.core_journal.specs.Machine.{word_at};
ghost use Rattle.core_journal.specs.Prefix.{IsPrefix};
ghost use Rattle.scan_record.specs.declared.rows.EdgeRow.{EdgeRow};
ghost use Rattle.scan_record.specs.declared.rows.VertexRow.{VertexRow};
ghost use Rattle.scan_record.specs.Scan.{IsScan, ScanValue, edge_at, edges_of, row_at};
ghost use Rattle.core_journal.specs.Foreign.{IsForeign};
ghost use Rattle.core_lists.specs.Changed.{IsChangedByAnother};
ghost use Rattle.core_scans.specs.Differing.{DiffersNow, IsVertexOver};
ghost use Rattle.core_scans.specs.Seen.{IsRowSeen, OnlyLooks};
ghost use Rattle.core_scans.specs.Walking.{AreRowsSame, IsRowAgain, IsRowCounted};

/// Verify from a row's head to its end. A load leaves what it carries (`again_later`, `counted_later`, `same_later`).
/// The head is found again (`head`), then the link of each edge (`link`), after all of them the counter (`counter`),
/// and after that the vertex is alive (`row`).
pub fn verify_goes_on()
    ensures again_later { (sizes : Sizes) (s : ScanValue) (end now later : List Event) → IsPrefix now later
        → (row : VertexRow) (found : ℕ) → IsRowAgain sizes s end now row found
        → IsRowAgain sizes s end later row found }
    ensures counted_later { (sizes : Sizes) (s : ScanValue) (end now later : List Event) → IsPrefix now later
        → (row : VertexRow) → IsRowCounted sizes s end now row → IsRowCounted sizes s end later row }
    ensures same_later { (sizes : Sizes) (s : ScanValue) (end now later : List Event) → IsPrefix now later
        → (k : ℕ) → AreRowsSame sizes end now s k → AreRowsSame sizes end later s k }
    ensures head { (sizes : Sizes) (s : ScanValue) (end now : List Event) (row : VertexRow) → IsPrefix end now
        → word_at sizes now (second_at sizes row.life.index) ≡ row.head → IsRowAgain sizes s end now row 0 }
    ensures link { (sizes : Sizes) (s : ScanValue) (end now : List Event) (row : VertexRow) (found : ℕ) (e : EdgeRow)
        → IsRowAgain sizes s end now row found → slice_get (edges_of s row) found ≡ Some e
        → word_at sizes now (link_at sizes e.life.index) ≡ e.link → IsRowAgain sizes s end now row (found + 1) }
    ensures counter { (sizes : Sizes) (s : ScanValue) (end now : List Event) (row : VertexRow) (found : ℕ)
        → IsRowAgain sizes s end now row found → length (edges_of s row) ≤ found
        → word_at sizes now (third_at sizes row.life.index) ≡ row.counter → IsRowCounted sizes s end now row }
    ensures row { (sizes : Sizes) (s : ScanValue) (end now : List Event) (k : ℕ) → AreRowsSame sizes end now s k
        → IsRowCounted sizes s end now (row_at s k)
        → tag_of (word_at sizes now (link_at sizes (row_at s k).life.index)) ≡ (row_at s k).life.tag
        → mark_of (word_at sizes now (link_at sizes (row_at s k).life.index)) ≡ 0
        → AreRowsSame sizes end now s (k + 1) }
{}

/// What verify finds that isn't as it was recorded, another caller changed since the root was found, by an event of a
/// counted kind at that word: a head, a counter, the link of an edge, or the link of a vertex that is over. So a row
/// differs only by a foreign event (`foreign`).
pub fn what_differs_was_changed()
    ensures head { (sizes : Sizes) → IsLayout sizes → (caller : ℕ) (start end now : List Event) (s : ScanValue)
        → OnlyLooks sizes caller start now → IsPrefix end now
        → (row : VertexRow) → IsRowSeen sizes caller s start end row
        → word_at sizes now (second_at sizes row.life.index) ≢ row.head
        → IsChangedByAnother start now caller (second_at sizes row.life.index) }
    ensures counter { (sizes : Sizes) → IsLayout sizes → (caller : ℕ) (start end now : List Event) (s : ScanValue)
        → OnlyLooks sizes caller start now → IsPrefix end now
        → (row : VertexRow) → IsRowSeen sizes caller s start end row
        → word_at sizes now (third_at sizes row.life.index) ≢ row.counter
        → IsChangedByAnother start now caller (third_at sizes row.life.index) }
    ensures link { (sizes : Sizes) → IsLayout sizes → (caller : ℕ) (start end now : List Event) (s : ScanValue)
        → OnlyLooks sizes caller start now → IsPrefix end now
        → (row : VertexRow) → IsRowSeen sizes caller s start end row
        → (place : ℕ) (e : EdgeRow) → slice_get (edges_of s row) place ≡ Some e
        → word_at sizes now (link_at sizes e.life.index) ≢ e.link
        → IsChangedByAnother start now caller (link_at sizes e.life.index) }
    ensures over { (sizes : Sizes) → IsLayout sizes → (caller : ℕ) (start end now : List Event) (s : ScanValue)
        → OnlyLooks sizes caller start now → IsPrefix end now
        → (row : VertexRow) → IsRowSeen sizes caller s start end row
        → IsVertexOver sizes now row → IsChangedByAnother start now caller (link_at sizes row.life.index) }
    ensures foreign { (sizes : Sizes) → IsLayout sizes → (caller : ℕ) (start end now : List Event) (s : ScanValue)
        → OnlyLooks sizes caller start now → IsPrefix end now
        → (row : VertexRow) → IsRowSeen sizes caller s start end row
        → DiffersNow sizes s now row → IsForeign now caller (length start) (length now) }
{}

/// The edges of a row are those at its places, as many as it counts.
pub fn a_row_has_its_places()
    ensures count { (s : ScanValue) (k : ℕ) → IsScan s → k < length s.rows
        → length (edges_of s (row_at s k)) ≡ (row_at s k).count }
    ensures place { (s : ScanValue) (k n : ℕ) → IsScan s → k < length s.rows → n < (row_at s k).count
        → slice_get (edges_of s (row_at s k)) n ≡ Some (edge_at s ((row_at s k).first + n)) }
{}
