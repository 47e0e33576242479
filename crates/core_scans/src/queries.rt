//! The laws of queries: what is answered on a scan that is a part of a graph is the answer on that graph.

ghost use Rattle.std.specs.Prelude.{◌≡◌, ℕ, true, List, Some};
ghost use Rattle.graph_kinds.specs.Answer.{answer, by_cost, by_levels, by_path};
ghost use Rattle.graph_kinds.specs.declared.call.Call.TheVariants.{Cheapest, Levels, Reach};
ghost use Rattle.graph_kinds.specs.Graph.{Graph, IsGraph, has};
ghost use Rattle.graph_kinds.specs.Levels.{levels_of, reach_path};
ghost use Rattle.graph_kinds.specs.Part.{part};
ghost use Rattle.graph_kinds.specs.Path.{cheapest_path, least_cost};
ghost use Rattle.packed_link.specs.Link.{mark_of, tag_of};
ghost use Rattle.packed_link.specs.Layout.{IsLayout, Sizes, link_at};
ghost use Rattle.packed_link.specs.declared.link.Life.{Life};
ghost use Rattle.core_journal.specs.declared.event.Event.{Event};
ghost use Rattle.core_journal.specs.GraphOf.{graph_of, present_key};
ghost use Rattle.core_journal.specs.Life.{key_of};
ghost use Rattle.core_journal.specs.Machine.{word_at};
ghost use Rattle.core_journal.specs.Prefix.{IsPrefix};
ghost use Rattle.core_kept.specs.Kept.{IsKept};

/// On the part of a graph that is reached from a key, the levels from it are those of the graph, and so are a path and
/// a cheapest path to a goal that is a key of the graph.
pub fn queries_are_answered_on_the_part()
    ensures levels { (g h : Graph) (a : ℕ) → IsGraph g → has g a ≡ true → h ≡ part g a
        → answer g (Levels a) ≡ by_levels (levels_of h a) }
    ensures reach { (g h : Graph) (a : ℕ) → IsGraph g → has g a ≡ true → h ≡ part g a
        → (b : ℕ) → has g b ≡ true → answer g (Reach a b) ≡ by_path (reach_path h a b) }
    ensures cheapest { (g h : Graph) (a : ℕ) → IsGraph g → has g a ≡ true → h ≡ part g a
        → (b : ℕ) → has g b ≡ true → answer g (Cheapest a b) ≡ by_cost (least_cost h a b) (cheapest_path h a b) }
{}

/// A vertex that was linked by a moment and is alive later was present at that moment, and a key of the graph: so is a
/// goal that was found before collect and is alive after verify, at the end of collect.
pub fn what_is_alive_later_was_present()
    ensures { (sizes : Sizes) → IsLayout sizes → (front last : List Event) → IsPrefix front last → IsKept sizes last
        → (x : Life) (k : ℕ) → key_of front x ≡ Some k
        → tag_of (word_at sizes last (link_at sizes x.index)) ≡ x.tag
        → mark_of (word_at sizes last (link_at sizes x.index)) ≡ 0
        → (present_key front x ≡ Some k) × (has (graph_of front) k ≡ true) }
{}
