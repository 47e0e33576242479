//! The laws of collect: what it carries from load to load, until its premises of the law of the two passes stand.
//!
//! Between two rows it carries `IsBetween` of `specs/Walking.antt`, within a row `IsWithin` with the word at which it
//! stands, and beside both that rows are reached (`AreRowsReached`). Each law is of one load or one push.

ghost use Rattle.std.specs.Prelude.{◌≡◌, ◌≢◌, ℕ, ◌+◌, ◌<◌, ◌≤◌, true, List, Some, None, length};
ghost use Rattle.packed_link.specs.Link.{index_of, mark_of, nowhere, tag_of};
ghost use Rattle.packed_link.specs.Layout.{IsLayout, Sizes, link_at, second_at, third_at};
ghost use Rattle.packed_link.specs.declared.link.Life.{Life};
ghost use Rattle.core_journal.specs.declared.event.Event.{Event};
ghost use Rattle.core_journal.specs.GraphOf.{present_key};
ghost use Rattle.core_journal.specs.Prefix.{IsPrefix};
ghost use Rattle.core_journal.specs.Life.{key_of, link_of};
ghost use Rattle.core_journal.specs.Machine.{word_at};
ghost use Rattle.core_journal.specs.Reuse.{pass_in};
ghost use Rattle.core_rule.specs.Fronts.{MetEdge, MetVertex, key_in};
ghost use Rattle.core_kept.specs.Kept.{IsKept};
ghost use Rattle.core_rule.specs.Views.{GoesOn};
ghost use Rattle.core_rule.specs.declared.view.View.{View};
ghost use Rattle.scan_record.specs.Asked.{root_of};
ghost use Rattle.scan_record.specs.declared.rows.EdgeRow.{EdgeRow};
ghost use Rattle.scan_record.specs.Scan.{IsScan, ScanValue, empty_scan, row_at, with_edge, with_started, with_vertex};
ghost use Rattle.core_scans.specs.Seen.{HasCollected, IsInside, IsTargetSeen, OnlyLooks};
ghost use Rattle.core_scans.specs.Walking.{AreRowsMet, AreRowsReached, IsBetween, IsEdgeLoaded, IsFoundReplaced};
ghost use Rattle.core_scans.specs.Walking.{IsLonger, IsMore, IsWithin, last_row};

/// Collect from its start to its end. It starts with a vertex that was met as row 0 (`first`); a load leaves what it
/// carries (`between_later`, `within_later`). A row is started with its counter, loaded first, and its head (`row`).
/// The word of an edge is loaded, and after that the key of the node to which it leads if it's marked, or else what its
/// target is. An edge that was found replaced is passed over (`passed`); any other is pushed, to the scan as it was or
/// with one more row (`edge`). When a word leads to none the row is whole (`row_done`), and when all rows were started
/// collect is at its end (`done`).
pub fn collect_goes_on()
    ensures first { (v : View) (start : List Event) (nodes : ℕ) (root : Life) (key : ℕ) → IsPrefix start v.front
        → present_key start root ≡ Some key → MetVertex v root → key_in v root.index ≡ key
        → IsBetween v start (with_vertex (empty_scan nodes) root key) }
    ensures between_later { (v w : View) → IsLayout v.sizes → GoesOn v w → (start : List Event) (s : ScanValue)
        → IsBetween v start s → IsBetween w start s }
    ensures within_later { (v w : View) → IsLayout v.sizes → GoesOn v w → (start : List Event) (s : ScanValue)
        → (at steps : ℕ) → IsWithin v start s at steps → IsWithin w start s at steps }
    ensures row { (v a b : View) → IsLayout v.sizes → (start : List Event) (s : ScanValue) → IsScan s
        → IsBetween v start s → s.next < length s.rows → GoesOn v a → GoesOn a b → (counter head : ℕ)
        → word_at v.sizes a.front (third_at v.sizes (row_at s s.next).life.index) ≡ counter
        → word_at v.sizes b.front (second_at v.sizes (row_at s s.next).life.index) ≡ head
        → IsWithin b start (with_started s s.next counter head) head 0 }
    ensures edge { (v w : View) → IsLayout v.sizes → (start : List Event) (s t : ScanValue) → IsScan t
        → (at steps : ℕ) (e : EdgeRow) → IsWithin v start s at steps → index_of at ≢ nowhere → IsEdgeLoaded v at e
        → GoesOn v w → IsLonger s t → IsKept v.sizes v.front → AreRowsMet w start t
        → (IsFoundReplaced w e.key e.link → ⊥)
        → ((link : Event) → link_of v.front e.life ≡ Some link → IsTargetSeen t w.front e link.target)
        → IsWithin w start (with_edge t e) e.link (steps + 1) }
    ensures passed { (v w : View) → IsLayout v.sizes → (start : List Event) (s : ScanValue) (at steps link : ℕ)
        → IsWithin v start s at steps → index_of at ≢ nowhere
        → word_at v.sizes v.front (link_at v.sizes (index_of at)) ≡ link → GoesOn v w → IsKept v.sizes v.front
        → IsFoundReplaced w (key_in v (index_of at)) link → IsWithin w start s link (steps + 1) }
    ensures row_done { (v : View) (start : List Event) (s : ScanValue) (at steps : ℕ) → IsWithin v start s at steps
        → index_of at ≡ nowhere → IsBetween v start s }
    ensures done { (v : View) (start : List Event) (s : ScanValue) → IsBetween v start s
        → AreRowsReached s (length s.rows) → s.next ≡ length s.rows
        → HasCollected v.sizes v.number start v.front s }
{}

/// What collect may do at a word of a list: the edge to which it leads was met (`edge`), so core_rule's laws tell its
/// target. A target whose link shows its life and no mark was met (`alive`). If no row has its life, none has its index
/// (`absent`), and there is room for its row (`row_room`), as there is for the edge (`edge_room`). A row's walk meets
/// each node once, so it has fewer steps than the table has nodes (`steps`).
pub fn collect_may_push()
    ensures edge { (v : View) → IsLayout v.sizes → IsKept v.sizes v.front → (start : List Event) (s : ScanValue)
        → (at steps : ℕ) (x : Life) → IsWithin v start s at steps → index_of at ≢ nowhere → x.index ≡ index_of at
        → tag_of (word_at v.sizes v.front (link_at v.sizes x.index)) ≡ x.tag → MetEdge v (last_row s).life x }
    ensures alive { (v : View) → IsLayout v.sizes → IsKept v.sizes v.front
        → (pass_in v.sizes v.front v.number).is_open ≡ true → (x : Life) (k : ℕ) → key_of v.front x ≡ Some k
        → tag_of (word_at v.sizes v.front (link_at v.sizes x.index)) ≡ x.tag
        → mark_of (word_at v.sizes v.front (link_at v.sizes x.index)) ≡ 0
        → MetVertex v x × (key_in v x.index ≡ k) × (present_key v.front x ≡ Some k) }
    ensures absent { (v : View) (start : List Event) (s : ScanValue) (x : Life) → AreRowsMet v start s → MetVertex v x
        → ((k : ℕ) → k < length s.rows → (row_at s k).life ≢ x)
        → (k : ℕ) → k < length s.rows → (row_at s k).life.index ≢ x.index }
    ensures row_room { (v : View) (start : List Event) (s : ScanValue) (x : Life) → IsScan s → AreRowsMet v start s
        → MetVertex v x
        → ((k : ℕ) → k < length s.rows → (row_at s k).life.index ≢ x.index) → length s.rows < v.sizes.nodes }
    ensures edge_room { (v : View) → IsLayout v.sizes → (start : List Event) (s : ScanValue)
        → OnlyLooks v.sizes v.number start v.front → IsScan s → (at steps : ℕ) → IsWithin v start s at steps
        → index_of at ≢ nowhere → length s.edges < v.sizes.nodes }
    ensures steps { (v : View) → IsLayout v.sizes → (start : List Event) (s : ScanValue)
        → OnlyLooks v.sizes v.number start v.front → (at steps : ℕ) → IsWithin v start s at steps
        → index_of at ≢ nowhere → steps < v.sizes.nodes }
{}

/// What pushes to the scan leave: it's the same or longer (`same`, `longer`), each row's vertex was met (`met`), and
/// each row is reached, also the new one after the edge is pushed that leads to it (`vertex`, `started`, `edge`,
/// `new`).
pub fn pushes_keep_rows()
    ensures same { (s : ScanValue) → IsLonger s s }
    ensures longer { (s : ScanValue) (life : Life) (key : ℕ) → IsLonger s (with_vertex s life key) }
    ensures met { (v : View) (start : List Event) (s : ScanValue) (x : Life) (key : ℕ) → IsPrefix start v.front
        → AreRowsMet v start s → MetVertex v x → key_in v x.index ≡ key → present_key v.front x ≡ Some key
        → AreRowsMet v start (with_vertex s x key) }
    ensures vertex { (s : ScanValue) (life : Life) (key n : ℕ) → n ≤ length s.rows → AreRowsReached s n
        → AreRowsReached (with_vertex s life key) n }
    ensures started { (s : ScanValue) → IsScan s → (n counter head m : ℕ) → s.next ≤ n → n < length s.rows
        → AreRowsReached s m → AreRowsReached (with_started s n counter head) m }
    ensures edge { (s : ScanValue) → IsScan s → (e : EdgeRow) → 0 < s.next → (n : ℕ) → n ≤ length s.rows
        → AreRowsReached s n → AreRowsReached (with_edge s e) n }
    ensures new { (s : ScanValue) → IsScan s → (e : EdgeRow) → 0 < s.next → (n : ℕ) → n < length s.rows → s.next ≤ n
        → e.target ≡ Some n → AreRowsReached s n → AreRowsReached (with_edge s e) (n + 1) }
{}

/// The nodes of all rows and edges that were collected are in the table.
pub fn what_is_collected_is_inside()
    ensures { (sizes : Sizes) (caller : ℕ) (start end : List Event) (s : ScanValue) → IsKept sizes end → IsScan s
        → HasCollected sizes caller start end s → IsInside sizes s }
{}

/// A push leaves each row its life (`vertex`, `started`, `edge`, `chain`). So where row 0 was pushed for the root, its
/// key is the root's at the end of collect (`root`).
pub fn pushes_keep_lives()
    ensures vertex { (s : ScanValue) (life : Life) (key : ℕ) → IsMore s (with_vertex s life key) }
    ensures started { (s : ScanValue) → IsScan s → (n counter head : ℕ) → IsMore s (with_started s n counter head) }
    ensures edge { (s : ScanValue) → IsScan s → (e : EdgeRow) → IsMore s (with_edge s e) }
    ensures chain { (r s t : ScanValue) → IsMore r s → IsMore s t → IsMore r t }
    ensures root { (sizes : Sizes) (caller : ℕ) (start end : List Event) (s : ScanValue) (root : Life) (key : ℕ)
        → HasCollected sizes caller start end s → present_key start root ≡ Some key → (row_at s 0).life ≡ root
        → root_of s ≡ key }
{}
