//! The law that callers by their numbers are all callers.

ghost use Rattle.std.specs.Prelude.{◌≡◌, ◌<◌, ℕ, List, length, slice_index_or};
ghost use Rattle.graph_table.specs.Tokens.{TableValue};
ghost use Rattle.shared_graph.specs.Callers.{CallerValue, HoldsEach};
ghost use Rattle.shared_graph.specs.Gathering.{AreCallersOf};

/// As many callers of a graph as it has, numbered from 0 in order, are all its callers, each once.
pub fn callers_by_number_are_all()
    ensures { (g : TableValue) (cs : List CallerValue) → length cs ≡ g.sizes.callers → AreCallersOf g cs
        → ((i : ℕ) (d : CallerValue) → i < length cs → (slice_index_or cs i d).hand.token.view.number ≡ i)
        → HoldsEach g cs }
{}
