//! What a sweep may conclude: what it went through stays clean while no other caller acts, and where a swept table has
//! no free node, each node is of the graph or with another caller.

ghost use Rattle.std.specs.Prelude.{◌≡◌, ◌≢◌, ℕ, ◌+◌, ◌<◌, true, false, List, [], ◌∷◌, ◌++◌};
ghost use Rattle.packed_link.specs.Layout.{IsLayout, Sizes};
ghost use Rattle.graph_kinds.specs.Graph.{key_count, pair_count};
ghost use Rattle.core_journal.specs.declared.event.Event.{Event};
ghost use Rattle.core_journal.specs.declared.event.Kind.TheVariants.{MarkEdge, MarkVertex};
ghost use Rattle.core_journal.specs.Event.{cut_life, cuts_edge, links_edge, marks_vertex, replaces};
ghost use Rattle.core_journal.specs.GraphOf.{graph_of};
ghost use Rattle.core_journal.specs.Right.{NoneFree};
ghost use Rattle.core_journal.specs.State.{Linked, state};
ghost use Rattle.core_kept.specs.Counts.{made};
ghost use Rattle.core_kept.specs.Kept.{IsKept};
ghost use Rattle.core_kept.specs.Nodes.{IsFreshWith, IsSpentWith, node_in};
ghost use Rattle.core_counts.specs.Spending.{acts};
ghost use Rattle.core_counts.specs.Swept.{IsCleanEdge, IsCleanVertex, IsOfGraphOr, IsSwept};

/// A vertex that isn't a linked marked one becomes such only by its own mark. So the buckets that a sweep has gone
/// through stay clean while no other caller acts.
pub fn clean_vertices_stay()
    ensures { (sizes : Sizes) → IsLayout sizes → (past : List Event) (e : Event) → IsKept sizes (past ++ e ∷ [])
        → (x : ℕ) → (e.kind ≡ MarkVertex → e.life.index ≢ x) → IsCleanVertex (node_in sizes past x)
        → IsCleanVertex (node_in sizes (past ++ e ∷ []) x) }
{}

/// A linked node that isn't marked stays as it is but for its own mark. An edge that is linked from a linked vertex,
/// isn't marked and has its target stays so, or its source isn't linked any more, but for the marks of it and of its
/// target, and its replacement; and no other edge becomes one that isn't so but for its link. So the lists that a sweep
/// has gone through stay clean while no other caller acts.
pub fn clean_edges_stay()
    ensures linked { (sizes : Sizes) → IsLayout sizes → (past : List Event) (e : Event) → IsKept sizes (past ++ e ∷ [])
        → (x : ℕ) → (node_in sizes past x).mode ≡ Linked → (node_in sizes past x).marked ≡ false
        → (marks_vertex e.kind ≡ true → e.life.index ≢ x) → (cuts_edge e.kind ≡ true → (cut_life e).index ≢ x)
        → node_in sizes (past ++ e ∷ []) x ≡ node_in sizes past x }
    ensures edge { (sizes : Sizes) → IsLayout sizes → (past : List Event) (e : Event) → IsKept sizes (past ++ e ∷ [])
        → (y : ℕ) → (e.kind ≡ MarkEdge → e.life.index ≢ y) → (replaces e.kind ≡ true → e.old.index ≢ y)
        → (links_edge e.kind ≡ true → e.life.index ≢ y)
        → (e.kind ≡ MarkVertex → e.life.index ≢ (node_in sizes past y).target.index)
        → IsCleanEdge (state sizes past) y → IsCleanEdge (state sizes (past ++ e ∷ [])) y }
{}

/// Where the free list leads to none and a caller holds no node, and no marked node and no edge without its target is
/// left on the lists, each node is a key or a pair of the graph or is with another caller. So where no other caller
/// made an event but its draw, the keys and pairs are as many as the nodes. For the answer Full of one caller.
pub fn a_full_table_is_all_graph()
    ensures each { (sizes : Sizes) → IsLayout sizes → (journal : List Event) → IsKept sizes journal → (caller : ℕ)
        → NoneFree sizes journal → ((x : ℕ) → IsFreshWith sizes journal caller x → ⊥)
        → ((x : ℕ) → IsSpentWith sizes journal caller x → ⊥) → IsSwept sizes journal
        → (x : ℕ) → x < sizes.nodes → IsOfGraphOr sizes journal caller x }
    ensures alone { (sizes : Sizes) → IsLayout sizes → (journal : List Event) → IsKept sizes journal → (caller : ℕ)
        → NoneFree sizes journal → ((x : ℕ) → IsFreshWith sizes journal caller x → ⊥)
        → ((x : ℕ) → IsSpentWith sizes journal caller x → ⊥) → IsSwept sizes journal
        → ((i : ℕ) → i ≢ caller → made acts i journal ≡ 0)
        → key_count (graph_of journal) + pair_count (graph_of journal) ≡ sizes.nodes }
{}

/// Full is exact for one caller: where the graph at the place of a reply is the one at the load that found the free
/// list empty, as where no counted event fell between, and the caller has swept and holds no node by then, and no other
/// caller made an event but its draw, the keys and pairs at the place are as many as the nodes; and where they are,
/// such a load finds the list empty.
pub fn full_is_exact_for_one_caller()
    ensures full { (sizes : Sizes) → IsLayout sizes → (front later : List Event) → IsKept sizes later
        → graph_of later ≡ graph_of front → (caller : ℕ)
        → NoneFree sizes later → ((x : ℕ) → IsFreshWith sizes later caller x → ⊥)
        → ((x : ℕ) → IsSpentWith sizes later caller x → ⊥) → IsSwept sizes later
        → ((i : ℕ) → i ≢ caller → made acts i later ≡ 0)
        → key_count (graph_of front) + pair_count (graph_of front) ≡ sizes.nodes }
    ensures none { (sizes : Sizes) → IsLayout sizes → (front later : List Event) → IsKept sizes later
        → graph_of later ≡ graph_of front
        → key_count (graph_of front) + pair_count (graph_of front) ≡ sizes.nodes → NoneFree sizes later }
{}
