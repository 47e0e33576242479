//! The laws of what is linked: its ends were there before it, and its life is new.
//!
//! These are the premises of core_journal's table of changes (its `specs/Changes.antt`) that need no chain.

ghost use Rattle.std.specs.Prelude.{◌≡◌, ◌≢◌, ℕ, true, List, Some, None, slice_get, take};
ghost use Rattle.core_journal.specs.Event.{links_edge};
ghost use Rattle.core_journal.specs.Life.{key_of};
ghost use Rattle.packed_link.specs.Layout.{IsLayout, Sizes};
ghost use Rattle.core_journal.specs.Changes.{IsFrozenEdge, IsNewEdge, IsNewVertex, IsReplacing};
ghost use Rattle.core_journal.specs.declared.event.Event.{Event};
ghost use Rattle.core_journal.specs.declared.event.Kind.TheVariants.{FreezeEdge, LinkEdge, LinkVertex, ReplaceEdge};
ghost use Rattle.core_kept.specs.Edges.{IsLinkEdge, IsReplaceEdge};
ghost use Rattle.core_kept.specs.Facts.{EdgeEnds};
ghost use Rattle.core_kept.specs.Freezing.{IsFreezeEdge};
ghost use Rattle.core_kept.specs.Kept.{IsKept};
ghost use Rattle.core_kept.specs.Vertices.{IsLinkVertex};

/// The source and the target of each edge were linked as vertices, the target with the edge's key, and both before the
/// edge was.
pub fn edges_have_ends()
    ensures keys { (sizes : Sizes) → IsLayout sizes → (journal : List Event) → IsKept sizes journal → EdgeEnds journal }
    ensures before { (sizes : Sizes) → IsLayout sizes → (journal : List Event) → IsKept sizes journal
        → (k : ℕ) (link : Event) → slice_get journal k ≡ Some link → links_edge link.kind ≡ true
        → (key_of (take k journal) link.source ≢ None) × (key_of (take k journal) link.target ≡ Some link.key) }
{}

/// A vertex or an edge that is linked next is new, also an edge that replaces another, and the source of an edge that
/// is frozen next is marked.
pub fn links_are_new()
    ensures vertex { (sizes : Sizes) → IsLayout sizes → (past : List Event) (e : Event) → IsKept sizes past
        → e.kind ≡ LinkVertex → IsLinkVertex sizes past e → IsNewVertex past e }
    ensures edge { (sizes : Sizes) → IsLayout sizes → (past : List Event) (e : Event) → IsKept sizes past
        → e.kind ≡ LinkEdge → IsLinkEdge sizes past e → IsNewEdge past e }
    ensures replacing { (sizes : Sizes) → IsLayout sizes → (past : List Event) (e : Event) → IsKept sizes past
        → e.kind ≡ ReplaceEdge → IsReplaceEdge sizes past e → IsReplacing past e }
    ensures frozen { (sizes : Sizes) → IsLayout sizes → (past : List Event) (e : Event) → IsKept sizes past
        → e.kind ≡ FreezeEdge → IsFreezeEdge sizes past e → IsFrozenEdge past e }
{}
