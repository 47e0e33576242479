//! The laws of positions, of edges that were found and what they tell of the graph, and of a list under freezing.

ghost use Rattle.std.specs.Prelude.{◌≡◌, ◌≢◌, ◌+◌, ◌<◌, ℕ, Bool, true, Contains, List, None, Some};
ghost use Rattle.graph_kinds.specs.Graph.{weight_of};
ghost use Rattle.graph_kinds.specs.History.{Every};
ghost use Rattle.packed_link.specs.Layout.{IsLayout, Sizes, free_at, key_at, link_at, second_at, third_at};
ghost use Rattle.packed_link.specs.Link.{index_of, nowhere};
ghost use Rattle.packed_link.specs.declared.link.Life.{Life};
ghost use Rattle.core_chain.specs.Chain.{Head};
ghost use Rattle.core_journal.specs.declared.event.Event.{Event};
ghost use Rattle.core_journal.specs.GraphOf.{graph_of, present_key};
ghost use Rattle.core_journal.specs.Life.{edge_marked};
ghost use Rattle.core_journal.specs.Machine.{word_at};
ghost use Rattle.core_journal.specs.Prefix.{IsPrefix};
ghost use Rattle.core_journal.specs.State.{state};
ghost use Rattle.core_kept.specs.Kept.{IsKept};
ghost use Rattle.core_kept.specs.Nodes.{is_frozen, is_listed};
ghost use Rattle.core_lists.specs.Chains.{KeepsList};
ghost use Rattle.core_lists.specs.Changed.{IsChangedByAnother};
ghost use Rattle.core_lists.specs.FrozenPaths.{FrozenPath};
ghost use Rattle.core_lists.specs.Replacements.{IsReplacedBy};
ghost use Rattle.core_rule.specs.Fronts.{LeadsToEdge, LeadsToVertex, MetEdge, MetVertex};
ghost use Rattle.core_rule.specs.Stretches.{GivesNone};
ghost use Rattle.core_rule.specs.declared.view.View.{View};
ghost use Rattle.core_stretches.specs.Holdings.{IsHeldFresh, IsUnlinkedVertex};
ghost use Rattle.core_stretches.specs.Makes.{Makes, StaysInPass};
ghost use Rattle.core_stretches.specs.Moments.{LacksEdge};
ghost use Rattle.edge_list.specs.EdgeMarks.{IsRaisedEdge, RaisedValue};
ghost use Rattle.edge_list.specs.EdgePairs.{IsPairGone};
ghost use Rattle.edge_list.specs.EdgePositions.{EdgePositionValue, IsEdgePosition, IsGapOfEdge, IsSeenEdge};
ghost use Rattle.edge_list.specs.EdgePositions.{IsUnmarkedEdge, LeadsToDeadEdge};
ghost use Rattle.edge_list.specs.Freezing.{KeepsFrozen};
ghost use Rattle.edge_list.specs.declared.edge.Edge.{Edge};

/// A vertex that the token unlinked keeps its list, and the frozen words of the list stay as they are, where the token
/// stores no link for the free list and gives no node back. So a path along frozen words grows edge by edge, while the
/// edges that were handed over are retired.
pub fn frozen_words_stay_over_stretches()
    ensures vertex { (v w : View) (own : List Event) → IsLayout v.sizes → (x : Life) → Every GivesNone own
        → Makes v own w → IsUnlinkedVertex v x → IsUnlinkedVertex w x }
    ensures words { (v w : View) (own : List Event) → IsLayout v.sizes → (x : Life) → Every GivesNone own
        → Makes v own w → KeepsFrozen x v w }
{}

/// Along a path of frozen words each edge is handed over once: where the last word of the path leads to an edge, that
/// is none of those before it (`new`); an edge stands on one list (`one`); and where the last word leads to none, all
/// edges of the frozen part were handed over (`all`). So a limbo takes each of them once, and lacks none at the end.
pub fn edges_are_handed_over_once()
    ensures new { (sizes : Sizes) → IsLayout sizes → (journal : List Event) → IsKept sizes journal → (x : ℕ)
        → KeepsList sizes journal x → (ys : List ℕ) (place y : ℕ) → FrozenPath sizes journal x Head ys place
        → index_of (word_at sizes journal place) ≡ y → y ≢ nowhere → Every (λ u. u ≢ y) ys }
    ensures one { (sizes : Sizes) → IsLayout sizes → (journal : List Event) → IsKept sizes journal → (x w y : ℕ)
        → is_listed (state sizes journal) x y ≡ true → is_listed (state sizes journal) w y ≡ true → w ≡ x }
    ensures all { (sizes : Sizes) → IsLayout sizes → (journal : List Event) → IsKept sizes journal → (x : ℕ)
        → KeepsList sizes journal x → (ys : List ℕ) (place : ℕ) → FrozenPath sizes journal x Head ys place
        → index_of (word_at sizes journal place) ≡ nowhere → (y : ℕ) → is_frozen (state sizes journal) x y ≡ true
        → Contains ys y }
{}

/// A position on a source's list stays one if each event that its token made since then stays in the pass and stands
/// at another place. If the key was missing behind it, it's missing there still, and if it led to a marked edge, it
/// does so still. The source of a position was met, and its place is a word that leads to edges of it.
pub fn edge_positions_go_on()
    ensures position { (passed : Bool) (v w : View) (own : List Event) (p : EdgePositionValue) → Every StaysInPass own
        → Every (λ e. e.place ≢ p.place) own → Makes v own w → IsEdgePosition passed v p → IsEdgePosition passed w p }
    ensures gap { (v w : View) (own : List Event) (p : EdgePositionValue) → IsLayout v.sizes → Every StaysInPass own
        → Every (λ e. e.place ≢ p.place) own → Makes v own w → IsGapOfEdge v p → IsGapOfEdge w p }
    ensures dead { (v w : View) (own : List Event) (p : EdgePositionValue) → IsLayout v.sizes → Every StaysInPass own
        → Makes v own w → LeadsToDeadEdge v p → LeadsToDeadEdge w p }
    ensures source { (passed : Bool) (v : View) (p : EdgePositionValue) → IsLayout v.sizes → IsEdgePosition passed v p
        → MetVertex v p.source }
    ensures leads { (passed : Bool) (v : View) (p : EdgePositionValue) → IsLayout v.sizes → IsEdgePosition passed v p
        → LeadsToEdge v p.source p.place }
{}

/// The place of a position on a source's list is no word of a fresh node, so filling one leaves the position; nor that
/// of the free list, so taking a node does; nor a third word, so raising a counter does; nor one that leads to
/// vertices, so changing a bucket's list does; nor the second word of another vertex or the link of an edge of another
/// source, so changing or freezing another list does.
pub fn edge_positions_stand_apart()
    ensures fresh { (passed : Bool) (v : View) (p : EdgePositionValue) (x : Life) (field : ℕ) → IsLayout v.sizes
        → field < 4 → IsHeldFresh v x → IsEdgePosition passed v p → key_at v.sizes x.index + field ≢ p.place }
    ensures free { (passed : Bool) (v : View) (p : EdgePositionValue) → IsLayout v.sizes → IsEdgePosition passed v p
        → free_at v.sizes ≢ p.place }
    ensures third { (passed : Bool) (v : View) (p : EdgePositionValue) (x : ℕ) → IsLayout v.sizes
        → IsEdgePosition passed v p → third_at v.sizes x ≢ p.place }
    ensures vertex { (passed : Bool) (v : View) (p : EdgePositionValue) (place : ℕ) → IsLayout v.sizes
        → IsEdgePosition passed v p → LeadsToVertex v place → place ≢ p.place }
    ensures head { (passed : Bool) (v : View) (p : EdgePositionValue) (x : ℕ) → IsLayout v.sizes
        → IsEdgePosition passed v p → x ≢ p.source.index → second_at v.sizes x ≢ p.place }
    ensures edge { (passed : Bool) (v : View) (p : EdgePositionValue) (source x : Life) → IsLayout v.sizes
        → IsEdgePosition passed v p → MetEdge v source x → source ≢ p.source → link_at v.sizes x.index ≢ p.place }
{}

/// An edge that was found is one that was found in each later view of the pass, if the token made no event at its link
/// since. If it's marked by then, another caller marked or replaced it after it was found. An edge for which the
/// counter of its source was raised is one in each later view of the pass, whatever its token made: so later tries mark
/// or replace it with no further raise. One life is one edge.
pub fn found_edges_go_on()
    ensures seen { (v w : View) (own : List Event) (source : Life) (edge : Edge) (moment : List Event)
        → IsLayout v.sizes → Every StaysInPass own → Every (λ e. e.place ≢ link_at v.sizes edge.life.index) own
        → Makes v own w → IsSeenEdge v source edge moment → IsSeenEdge w source edge moment }
    ensures changed { (v : View) (source : Life) (edge : Edge) (moment : List Event) → IsLayout v.sizes
        → IsKept v.sizes v.front → IsSeenEdge v source edge moment → edge_marked v.front edge.life ≡ true
        → IsChangedByAnother moment v.front v.number (link_at v.sizes edge.life.index) }
    ensures raised { (v w : View) (own : List Event) (r : RaisedValue) → IsLayout v.sizes → Every StaysInPass own
        → Makes v own w → IsRaisedEdge v r → IsRaisedEdge w r }
    ensures same { (v : View) (r : RaisedValue) (source : Life) (edge : Edge) (moment : List Event)
        → IsRaisedEdge v r → IsSeenEdge v source edge moment → edge.life ≡ r.edge.life
        → (source ≡ r.source) × (edge ≡ r.edge) }
{}

/// What edges tell of the graph at a moment, between two lives of which the source is present there. The pair of an
/// unmarked edge has its weight, if the target is present too (`has`). There's no such pair if no edge of the source
/// with the key is unmarked (`lacks`), nor if the one that is leads to another life of the key than the present one
/// (`stale`); nor right after the mark of an edge that no event replaced (`gone`). So has-edge, add-edge and
/// remove-edge read their answers off what walks and marks tell.
pub fn edges_tell_pairs()
    ensures has { (sizes : Sizes) → IsLayout sizes → (journal : List Event) → IsKept sizes journal
        → (source : Life) (edge : Edge) (a b : ℕ) → IsUnmarkedEdge source edge journal
        → present_key journal source ≡ Some a → present_key journal edge.target ≡ Some b
        → weight_of (graph_of journal) a b ≡ Some edge.weight }
    ensures lacks { (sizes : Sizes) → IsLayout sizes → (journal : List Event) → IsKept sizes journal
        → (source : Life) (a key : ℕ) → LacksEdge source key journal → present_key journal source ≡ Some a
        → weight_of (graph_of journal) a key ≡ None }
    ensures stale { (sizes : Sizes) → IsLayout sizes → (journal : List Event) → IsKept sizes journal
        → (source target : Life) (edge : Edge) (a : ℕ) → IsUnmarkedEdge source edge journal
        → present_key journal source ≡ Some a → present_key journal target ≡ Some edge.key → edge.target ≢ target
        → weight_of (graph_of journal) a edge.key ≡ None }
    ensures gone { (sizes : Sizes) → IsLayout sizes → (journal : List Event) → IsKept sizes journal
        → (moment : List Event) (source : Life) (edge : Edge) → IsPrefix moment journal
        → IsUnmarkedEdge source edge moment → edge_marked journal edge.life ≡ true
        → ((new : Life) → IsReplacedBy journal edge.life new → ⊥) → IsPairGone source edge moment journal }
{}
