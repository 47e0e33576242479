//! The laws of counters: how the counter of a vertex stood when an edge of it was linked, against later.
//!
//! A caller raises the counter of an edge's source before it marks or replaces the edge. So whoever saw the counter
//! before the edge was linked, and sees it again after the edge was marked, sees another number.

ghost use Rattle.std.specs.Prelude.{All, AllPairs, ◌^◌};
ghost use Rattle.std.specs.Prelude.{◌≡◌, ◌≢◌, ℕ, ◌≤◌, false, List, Some, length, slice_get, take};
ghost use Rattle.std.specs.Prelude.{true};
ghost use Rattle.packed_link.specs.Layout.{IsLayout, Sizes, third_at};
ghost use Rattle.packed_link.specs.declared.link.Life.{Life};
ghost use Rattle.core_journal.specs.declared.event.Event.{Event};
ghost use Rattle.core_journal.specs.Event.{cut_life, cuts_edge, links_edge, pops};
ghost use Rattle.core_journal.specs.Life.{edge_linked, link_of, vertex_marked};
ghost use Rattle.core_journal.specs.Machine.{word_at};
ghost use Rattle.core_journal.specs.Prefix.{IsPrefix};
ghost use Rattle.core_journal.specs.State.{Fresh};
ghost use Rattle.core_kept.specs.Counts.{all_made, made};
ghost use Rattle.core_kept.specs.Edges.{IsRaisedFor};
ghost use Rattle.core_journal.specs.Reuse.{pass_in};
ghost use Rattle.core_kept.specs.Kept.{IsKept};
ghost use Rattle.core_kept.specs.Nodes.{node_in};
ghost use Rattle.core_lists.specs.Raised.{IsLinkedLower};

/// Each edge that is marked, by its replacement too, while its source isn't was linked at a lower counter of the
/// source. So was each edge for which a caller raised that counter in its open pass (`raised`), and the source's node
/// isn't stored for the free list then (`unstored`). A counter never falls while its node isn't taken again.
pub fn marked_edges_were_linked_at_a_lower_counter()
    ensures marked { (sizes : Sizes) → IsLayout sizes → (journal : List Event) → IsKept sizes journal
        → (p : ℕ) (e link : Event) → slice_get journal p ≡ Some e → cuts_edge e.kind ≡ true
        → link_of (take p journal) (cut_life e) ≡ Some link → vertex_marked (take p journal) link.source ≡ false
        → IsLinkedLower sizes journal p link }
    ensures raised { (sizes : Sizes) → IsLayout sizes → (journal : List Event) → IsKept sizes journal
        → (caller : ℕ) (x : Life) (link : Event) → link_of journal x ≡ Some link
        → (pass_in sizes journal caller).is_open ≡ true → IsRaisedFor sizes journal caller x link.source
        → IsLinkedLower sizes journal (length journal) link }
    ensures unstored { (sizes : Sizes) → IsLayout sizes → (journal : List Event) → IsKept sizes journal
        → (caller : ℕ) (x : Life) (link : Event) → link_of journal x ≡ Some link
        → (pass_in sizes journal caller).is_open ≡ true → IsRaisedFor sizes journal caller x link.source
        → (node_in sizes journal link.source.index).stored ≡ false }
    ensures rises { (sizes : Sizes) → IsLayout sizes → (x : ℕ) (front journal : List Event) → IsPrefix front journal
        → IsKept sizes journal → (node_in sizes front x).mode ≢ Fresh
        → (node_in sizes journal x).tag ≡ (node_in sizes front x).tag
        → word_at sizes front (third_at sizes x) ≤ word_at sizes journal (third_at sizes x) }
{}

/// Few edges are ever linked: a caller links at most as many as it took nodes, and lives that differ and were all
/// linked as edges are at most the events that link edges (`links`), and at most 2^36.
pub fn few_edges_are_linked()
    ensures caller { (sizes : Sizes) (journal : List Event) → IsKept sizes journal → (caller : ℕ)
        → made links_edge caller journal ≤ made pops caller journal }
    ensures all { (sizes : Sizes) → IsLayout sizes → (journal : List Event) → IsKept sizes journal → (xs : List Life)
        → AllPairs ◌≢◌ xs → All (λ (x : Life). edge_linked journal x ≡ true) xs → length xs ≤ 2 ^ 36 }
    ensures links { (journal : List Event) (xs : List Life) → AllPairs ◌≢◌ xs
        → All (λ (x : Life). edge_linked journal x ≡ true) xs → length xs ≤ all_made links_edge journal }
{}
