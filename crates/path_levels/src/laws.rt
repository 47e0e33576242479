//! Laws of a search in breadth: each is a function that does nothing, and its contract is the law.

ghost use Rattle.std.specs.Prelude.{◌≡◌, ℕ, ◌<◌, ◌++◌, List, Some, true, length, slice_index};
ghost use Rattle.std.specs.List.{concat};
ghost use Rattle.graph_kinds.specs.Graph.{Graph, has};
ghost use Rattle.graph_kinds.specs.Levels.{levels_of, reach_path};
ghost use Rattle.path_levels.specs.Queue.{IsTree, trail};

/// A search for a key may end where the key is met. Where the keys that were met are the first ones of all levels in
/// their order, and each has its parent, the way back by parents from one of them is the path of reach to it, whatever
/// keys come later.
pub fn reach_is_fixed_once_met()
    ensures { (g : Graph) (a p : ℕ) (met later parents : List ℕ) → has g a ≡ true
        → met ++ later ≡ concat (levels_of g a) → IsTree g met parents → p < length met
        → reach_path g a (slice_index met p) ≡ Some (trail met parents p p) }
{}
