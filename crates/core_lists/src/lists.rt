//! The laws of the lists of edges: after each kept journal each list holds the edges of its vertex's life.
//!
//! A vertex has a list while it is linked or spent and its list isn't frozen to its end (`HasList` of
//! `specs/Chains.antt`). An edge joins the list of its source with its link, or behind the edge that it replaces, and
//! leaves it when it's unlinked; marked, or handed over with the frozen part, it's on it in between. Keys rise along a
//! list, and two neighbours have one key only where the first is marked and was replaced by the second; so it has one
//! unmarked edge a key.

ghost use Rattle.std.specs.Prelude.{◌≡◌, ◌≢◌, ◌⊎◌, ◌↔◌, ℕ, ◌<◌, false, true, List, Some};
ghost use Rattle.graph_kinds.specs.Graph.{weight_of};
ghost use Rattle.packed_link.specs.Link.{mark_of};
ghost use Rattle.packed_link.specs.Layout.{IsLayout, Sizes, key_at, second_at};
ghost use Rattle.packed_link.specs.declared.link.Life.{Life};
ghost use Rattle.core_journal.specs.declared.event.Event.{Event};
ghost use Rattle.core_journal.specs.GraphOf.{graph_of, present_pair};
ghost use Rattle.core_journal.specs.Life.{edge_marked, link_of};
ghost use Rattle.core_journal.specs.Machine.{word_at};
ghost use Rattle.core_journal.specs.Prefix.{IsPrefix};
ghost use Rattle.core_journal.specs.State.{Fresh, Linked, Spent, state};
ghost use Rattle.core_lists.specs.Chains.{EdgeLists, FrozenParts, HasList, IsAtSource, IsEdgeOf, IsInList, IsOlder};
ghost use Rattle.core_lists.specs.Chains.{KeepsList, Sources, life_in};
ghost use Rattle.core_kept.specs.Kept.{IsKept};
ghost use Rattle.core_kept.specs.Nodes.{IsFrozenToEnd, IsLinkedEdge, IsLinkedVertex, IsUsed};
ghost use Rattle.core_kept.specs.Nodes.{is_frozen, is_listed, node_in};

/// From the second word of each vertex that has a list, link after link, one meets the edges of its list, each once, by
/// rising keys: two neighbours have one key only where the first is marked. They are the lives that were linked as
/// edges of the vertex's life, and not unlinked. Each linked vertex has a list, and so has each vertex that is linked
/// or spent and whose second word is unmarked. What stands on any list, also one that is frozen to its end, was linked
/// so and not unlinked; it's an edge node whose source is the vertex, and stands on no other list. The key word of an
/// edge on a list is the key with which it was linked (`key`), and the edges of a linked vertex are linked
/// (`listed_linked`): so a collect reads keys from words.
pub fn lists_hold_their_edges()
    ensures lists { (sizes : Sizes) → IsLayout sizes → (journal : List Event) → IsKept sizes journal
        → EdgeLists sizes journal }
    ensures lives { (sizes : Sizes) → IsLayout sizes → (journal : List Event) → IsKept sizes journal
        → (x : ℕ) → HasList sizes journal x → (l : Life)
        → IsInList sizes journal x l ↔ IsEdgeOf journal (life_in sizes journal x) l }
    ensures linked { (sizes : Sizes) → IsLayout sizes → (journal : List Event) → IsKept sizes journal
        → (x : ℕ) → x < sizes.nodes → IsLinkedVertex sizes journal x → HasList sizes journal x }
    ensures on { (sizes : Sizes) → IsLayout sizes → (journal : List Event) → IsKept sizes journal
        → (x y : ℕ) → is_listed (state sizes journal) x y ≡ true
        → IsEdgeOf journal (life_in sizes journal x) (life_in sizes journal y) }
    ensures node { (sizes : Sizes) → IsLayout sizes → (journal : List Event) → IsKept sizes journal
        → (x y : ℕ) → is_listed (state sizes journal) x y ≡ true
        → (y < sizes.nodes) × ((node_in sizes journal y).vertex ≡ false)
        × ((node_in sizes journal y).source ≡ life_in sizes journal x) }
    ensures one { (sizes : Sizes) → IsLayout sizes → (journal : List Event) → IsKept sizes journal
        → (w x y : ℕ) → is_listed (state sizes journal) w y ≡ true → is_listed (state sizes journal) x y ≡ true
        → w ≡ x }
    ensures unclosed { (sizes : Sizes) → IsLayout sizes → (journal : List Event) → IsKept sizes journal
        → (x : ℕ) → x < sizes.nodes → IsUsed (node_in sizes journal x).mode → (node_in sizes journal x).vertex ≡ true
        → mark_of (word_at sizes journal (second_at sizes x)) ≡ 0 → HasList sizes journal x }
    ensures key { (sizes : Sizes) → IsLayout sizes → (journal : List Event) → IsKept sizes journal
        → (x y : ℕ) → KeepsList sizes journal x → is_listed (state sizes journal) x y ≡ true
        → (link : Event) → link_of journal (life_in sizes journal y) ≡ Some link
        → word_at sizes journal (key_at sizes y) ≡ link.key }
    ensures listed_linked { (sizes : Sizes) → IsLayout sizes → (journal : List Event) → IsKept sizes journal
        → (x y : ℕ) → x < sizes.nodes → IsLinkedVertex sizes journal x → is_listed (state sizes journal) x y ≡ true
        → (node_in sizes journal y).mode ≡ Linked }
{}

/// The frozen part of a list holds exactly its edges that were handed over, and the others are linked. A frozen word
/// leads to none, or to an edge of the list. Each edge of a frozen part that isn't given back is spent, by the caller
/// who spent the vertex. A frozen part is one of a closed list, and its edges stand on that list (`listed`).
pub fn frozen_parts_are_handed_over()
    ensures parts { (sizes : Sizes) → IsLayout sizes → (journal : List Event) → IsKept sizes journal
        → FrozenParts sizes journal }
    ensures who { (sizes : Sizes) → IsLayout sizes → (journal : List Event) → IsKept sizes journal
        → (x y : ℕ) → IsUsed (node_in sizes journal x).mode → (node_in sizes journal x).vertex ≡ true
        → is_frozen (state sizes journal) x y ≡ true → IsUsed (node_in sizes journal y).mode
        → (node_in sizes journal y).mode ≡ Spent × ((node_in sizes journal y).who ≡ (node_in sizes journal x).who) }
    ensures listed { (sizes : Sizes) (journal : List Event) (x y : ℕ) → is_frozen (state sizes journal) x y ≡ true
        → (is_listed (state sizes journal) x y ≡ true) × ((state sizes journal).frozen x ≡ true) }
{}

/// While a vertex is in its life, a closed head stays closed, a list that is frozen to its end stays so, and an edge
/// of the frozen part stays in it until it's given back. No list takes up an edge that isn't fresh; so where each list
/// on which an edge stood was frozen to its end, each is on which it stands.
pub fn closed_lists_stay()
    ensures head { (sizes : Sizes) → IsLayout sizes → (x : ℕ) (front journal : List Event) → IsPrefix front journal
        → IsKept sizes journal → (node_in sizes journal x).tag ≡ (node_in sizes front x).tag
        → (state sizes front).frozen x ≡ true → (state sizes journal).frozen x ≡ true }
    ensures end { (sizes : Sizes) → IsLayout sizes → (x : ℕ) (front journal : List Event) → IsPrefix front journal
        → IsKept sizes journal → (node_in sizes journal x).tag ≡ (node_in sizes front x).tag
        → IsFrozenToEnd sizes front x → IsFrozenToEnd sizes journal x }
    ensures part { (sizes : Sizes) → IsLayout sizes → (x y : ℕ) (front journal : List Event) → IsPrefix front journal
        → IsKept sizes journal → (node_in sizes journal x).tag ≡ (node_in sizes front x).tag
        → (node_in sizes journal y).tag ≡ (node_in sizes front y).tag → is_frozen (state sizes front) x y ≡ true
        → IsUsed (node_in sizes journal y).mode → is_frozen (state sizes journal) x y ≡ true }
    ensures old { (sizes : Sizes) → IsLayout sizes → (y : ℕ) (front journal : List Event) → IsPrefix front journal
        → IsKept sizes journal → (node_in sizes front y).mode ≢ Fresh
        → (node_in sizes journal y).tag ≡ (node_in sizes front y).tag
        → (x : ℕ) → is_listed (state sizes journal) x y ≡ true
        → (is_listed (state sizes front) x y ≡ true) × ((node_in sizes journal x).tag ≡ (node_in sizes front x).tag) }
    ensures ends { (sizes : Sizes) → IsLayout sizes → (y : ℕ) (front journal : List Event) → IsPrefix front journal
        → IsKept sizes journal → (node_in sizes front y).mode ≢ Fresh
        → (node_in sizes journal y).tag ≡ (node_in sizes front y).tag
        → ((x : ℕ) → x < sizes.nodes → is_listed (state sizes front) x y ≡ true → IsFrozenToEnd sizes front x)
        → (x : ℕ) → x < sizes.nodes → is_listed (state sizes journal) x y ≡ true → IsFrozenToEnd sizes journal x }
{}

/// Each linked edge stands on the list of its source, which is in the life that was the edge's source, and is linked,
/// or spent and not frozen to its end. A vertex whose list isn't frozen to its end isn't stored for the free list.
pub fn linked_edges_are_at_their_source()
    ensures { (sizes : Sizes) → IsLayout sizes → (journal : List Event) → IsKept sizes journal → Sources sizes journal }
{}

/// An edge that was linked and not marked is its node's life, is linked, and stands on the list of its source.
pub fn a_present_edge_is_on_its_list()
    ensures life { (sizes : Sizes) → IsLayout sizes → (journal : List Event) → IsKept sizes journal
        → (x : Life) (link : Event) → link_of journal x ≡ Some link → edge_marked journal x ≡ false
        → x.tag ≡ (node_in sizes journal x.index).tag }
    ensures linked { (sizes : Sizes) → IsLayout sizes → (journal : List Event) → IsKept sizes journal
        → (x : Life) (link : Event) → link_of journal x ≡ Some link → edge_marked journal x ≡ false
        → IsLinkedEdge sizes journal x.index }
    ensures at { (sizes : Sizes) → IsLayout sizes → (journal : List Event) → IsKept sizes journal
        → (x : Life) (link : Event) → link_of journal x ≡ Some link → edge_marked journal x ≡ false
        → IsAtSource sizes journal x.index }
{}

/// No two edges that aren't marked have one pair of source and key. Of two edges of one source and one key of which
/// neither was unlinked, where the source has a list, or one of them isn't marked, the one that was linked first is
/// marked. So one present edge has a pair of keys (`pair`), and the graph has the pair with its weight (`weight`).
pub fn one_edge_has_a_pair()
    ensures listed { (sizes : Sizes) → IsLayout sizes → (journal : List Event) → IsKept sizes journal
        → (source : ℕ) → HasList sizes journal source → (x y : Life)
        (a : IsEdgeOf journal (life_in sizes journal source) x) (b : IsEdgeOf journal (life_in sizes journal source) y)
        → a.link.key ≡ b.link.key → (x ≡ y) ⊎ IsOlder sizes journal x y ⊎ IsOlder sizes journal y x }
    ensures unmarked { (sizes : Sizes) → IsLayout sizes → (journal : List Event) → IsKept sizes journal
        → (source x y : Life) (a : IsEdgeOf journal source x) (b : IsEdgeOf journal source y)
        → a.link.key ≡ b.link.key → edge_marked journal x ≡ false → (x ≡ y) ⊎ IsOlder sizes journal y x }
    ensures present { (sizes : Sizes) → IsLayout sizes → (journal : List Event) → IsKept sizes journal
        → (x y : Life) (a b : Event) → link_of journal x ≡ Some a → link_of journal y ≡ Some b
        → a.source ≡ b.source → a.key ≡ b.key → edge_marked journal x ≡ false → edge_marked journal y ≡ false
        → x ≡ y }
    ensures pair { (sizes : Sizes) → IsLayout sizes → (journal : List Event) → IsKept sizes journal
        → (x y : Life) (a b v w : ℕ) → present_pair journal x ≡ Some ((a, b), v)
        → present_pair journal y ≡ Some ((a, b), w) → x ≡ y }
    ensures weight { (sizes : Sizes) → IsLayout sizes → (journal : List Event) → IsKept sizes journal
        → (x : Life) (a b w : ℕ) → present_pair journal x ≡ Some ((a, b), w)
        → weight_of (graph_of journal) a b ≡ Some w }
{}
