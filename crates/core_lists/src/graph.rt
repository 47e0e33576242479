//! The laws of the graph of a kept journal: that it is one, and which edge a pair is.
//!
//! They hold of each moment, since a front of a kept journal is one.

ghost use Rattle.std.specs.Prelude.{◌≡◌, ◌≢◌, ℕ, ◌≤◌, false, true, List, None, Some};
ghost use Rattle.graph_kinds.specs.Graph.{IsGraph, weight_of};
ghost use Rattle.packed_link.specs.Layout.{IsLayout, Sizes};
ghost use Rattle.packed_link.specs.declared.link.Life.{Life};
ghost use Rattle.core_journal.specs.declared.event.Event.{Event};
ghost use Rattle.core_journal.specs.GraphOf.{graph_of, present_key};
ghost use Rattle.core_journal.specs.Life.{edge_marked, link_of};
ghost use Rattle.core_kept.specs.Kept.{IsKept};

/// The graph of a kept journal is a graph: both ends of each pair are keys, and its weight is at least 1; so is the
/// weight of each edge that was linked and not marked (`weight`). For the calls that answer on it, and for the queries
/// on a part of it.
pub fn a_kept_journal_has_a_graph()
    ensures graph { (sizes : Sizes) → IsLayout sizes → (journal : List Event) → IsKept sizes journal
        → IsGraph (graph_of journal) }
    ensures weight { (sizes : Sizes) → IsLayout sizes → (journal : List Event) → IsKept sizes journal
        → (x : Life) (link : Event) → link_of journal x ≡ Some link → edge_marked journal x ≡ false
        → 1 ≤ link.weight }
{}

/// The pair of two present vertices, for the silent entries of the calls on edges. Its weight is that of the unmarked
/// edge from the one life to the other. There is no such pair where no unmarked edge of the source life has the key of
/// the target, nor where the one that has it leads to another life of that key.
pub fn a_pair_is_the_one_edge_between_two_lives()
    ensures weight { (sizes : Sizes) → IsLayout sizes → (journal : List Event) → IsKept sizes journal
        → (x : Life) (link : Event) (a b : ℕ) → link_of journal x ≡ Some link → edge_marked journal x ≡ false
        → present_key journal link.source ≡ Some a → present_key journal link.target ≡ Some b
        → weight_of (graph_of journal) a b ≡ Some link.weight }
    ensures none { (sizes : Sizes) → IsLayout sizes → (journal : List Event) → IsKept sizes journal
        → (source : Life) (a b : ℕ) → present_key journal source ≡ Some a
        → ((x : Life) (link : Event) → link_of journal x ≡ Some link → link.source ≡ source → link.key ≡ b
        → edge_marked journal x ≡ true)
        → weight_of (graph_of journal) a b ≡ None }
    ensures other { (sizes : Sizes) → IsLayout sizes → (journal : List Event) → IsKept sizes journal
        → (source target x : Life) (link : Event) (a b : ℕ) → present_key journal source ≡ Some a
        → present_key journal target ≡ Some b → link_of journal x ≡ Some link → edge_marked journal x ≡ false
        → link.source ≡ source → link.key ≡ b → link.target ≢ target
        → weight_of (graph_of journal) a b ≡ None }
{}
