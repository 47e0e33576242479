//! How many keys and pairs the graph of a kept journal has, against its nodes.

ghost use Rattle.std.specs.Prelude.{◌≡◌, ◌≢◌, ℕ, ◌+◌, ◌<◌, ◌≤◌, List};
ghost use Rattle.packed_link.specs.Layout.{IsLayout, Sizes};
ghost use Rattle.graph_kinds.specs.Graph.{key_count, pair_count};
ghost use Rattle.core_journal.specs.declared.event.Event.{Event};
ghost use Rattle.core_journal.specs.GraphOf.{graph_of};
ghost use Rattle.core_journal.specs.Right.{NoneFree};
ghost use Rattle.core_journal.specs.State.{Free, state};
ghost use Rattle.core_kept.specs.Counts.{count_below};
ghost use Rattle.core_kept.specs.Kept.{IsKept};
ghost use Rattle.core_kept.specs.Nodes.{node_in};
ghost use Rattle.core_counts.specs.Nodes.{IsAllGraph, is_key, is_pair};

/// The keys of the graph are as many as the linked vertices that aren't marked, and the pairs as many as the linked
/// edges that aren't marked and whose source and target are such vertices. For the answer Full, which stands for a
/// graph that takes up the table.
pub fn the_graph_is_counted()
    ensures keys { (sizes : Sizes) → IsLayout sizes → (journal : List Event) → IsKept sizes journal
        → key_count (graph_of journal) ≡ count_below (λ (x : ℕ). is_key ((state sizes journal).node x)) sizes.nodes }
    ensures pairs { (sizes : Sizes) → IsLayout sizes → (journal : List Event) → IsKept sizes journal
        → pair_count (graph_of journal)
        ≡ count_below (λ (x : ℕ). is_pair (state sizes journal) ((state sizes journal).node x)) sizes.nodes }
{}

/// The free list leads to none exactly where no node is free. For the load that finds the free list empty.
pub fn an_empty_list_has_no_free_node()
    ensures none { (sizes : Sizes) → IsLayout sizes → (journal : List Event) → IsKept sizes journal
        → NoneFree sizes journal → (x : ℕ) → x < sizes.nodes → (node_in sizes journal x).mode ≢ Free }
    ensures empty { (sizes : Sizes) → IsLayout sizes → (journal : List Event) → IsKept sizes journal
        → ((x : ℕ) → x < sizes.nodes → (node_in sizes journal x).mode ≢ Free) → NoneFree sizes journal }
{}

/// The keys and pairs of the graph are no more than the nodes, and they are as many exactly where no node is free,
/// fresh or spent, no linked node is marked, and each linked edge has both ends. For the answer Full, and for the claim
/// that a graph within its limits isn't answered so.
pub fn all_nodes_are_of_the_graph()
    ensures few { (sizes : Sizes) → IsLayout sizes → (journal : List Event) → IsKept sizes journal
        → key_count (graph_of journal) + pair_count (graph_of journal) ≤ sizes.nodes }
    ensures all { (sizes : Sizes) → IsLayout sizes → (journal : List Event) → IsKept sizes journal
        → IsAllGraph sizes journal → key_count (graph_of journal) + pair_count (graph_of journal) ≡ sizes.nodes }
    ensures only { (sizes : Sizes) → IsLayout sizes → (journal : List Event) → IsKept sizes journal
        → key_count (graph_of journal) + pair_count (graph_of journal) ≡ sizes.nodes → IsAllGraph sizes journal }
{}
