//! Laws on levels, least costs and paths: each is a function that does nothing, and its contract is the law.
//!
//! The rules of `specs/Levels.antt` and `specs/Path.antt` fix an order and ties. The laws say what they come to:
//! distances, and paths than which none is shorter or cheaper.

ghost use Rattle.std.specs.Prelude.{◌≡◌, ◌≢◌, ℕ, ◌<◌, ◌≤◌, ◌↔◌, true, List, [], ◌∷◌, length, AllPairs};
ghost use Rattle.std.specs.Prelude.{Some, None, is_some};
ghost use Rattle.std.specs.List.{concat};
ghost use Rattle.std.specs.List.Sorted.{IsStrictlyIncreasing};
ghost use Rattle.graph_kinds.specs.Graph.{Graph, IsGraph, has, weight_of, neighbours};
ghost use Rattle.graph_kinds.specs.Path.{IsPath, IsDistance, cost_of, IsLeastCost, least_cost};
ghost use Rattle.graph_kinds.specs.Path.{cheapest_path, GoesByLeastKeys};
ghost use Rattle.graph_kinds.specs.Levels.{stands_in, levels_of, level_at, reach_path, GoesByParents};
ghost use Rattle.graph_kinds.specs.Part.{IsPart, part};
ghost use Rattle.graph_kinds.specs.Worked.{two_ways, detour, tie, dead_end};

/// The out-neighbours of x are the keys to which a pair leads from x, by rising key.
pub fn neighbours_rise()
    ensures pairs { (g : Graph) (x y : ℕ) → stands_in (neighbours g x) y ≡ is_some (weight_of g x y) }
    ensures rising { (g : Graph) (x : ℕ) → IsStrictlyIncreasing (neighbours g x) }
{}

/// A path runs over keys of the graph.
pub fn paths_run_over_keys()
    ensures { (g : Graph) (a b : ℕ) (p : List ℕ) → IsGraph g
        → IsPath g a b p → (x : ℕ) → stands_in p x ≡ true → has g x ≡ true }
{}

/// Level i holds exactly the keys at distance i. The levels hold each key to which a path leads, and hold it
/// once; no level is empty, and level 0 is the key that they start from.
pub fn levels_are_distances()
    ensures level { (g : Graph) (a x i : ℕ) → IsGraph g → has g a ≡ true
        → ((stands_in (level_at (levels_of g a) i) x ≡ true) ↔ IsDistance g a x i) }
    ensures within { (g : Graph) (a x i : ℕ) → IsGraph g → has g a ≡ true
        → IsDistance g a x i → i < length (levels_of g a) }
    ensures all { (g : Graph) (a x : ℕ) → IsGraph g → has g a ≡ true
        → ((stands_in (concat (levels_of g a)) x ≡ true) ↔ ((p : List ℕ) × IsPath g a x p)) }
    ensures once { (g : Graph) (a : ℕ) → AllPairs (λ x y. x ≢ y) (concat (levels_of g a)) }
    ensures filled { (g : Graph) (a i : ℕ) → i < length (levels_of g a) → level_at (levels_of g a) i ≢ [] }
    ensures start { (g : Graph) (a : ℕ) → has g a ≡ true → level_at (levels_of g a) 0 ≡ a ∷ [] }
{}

/// From a key, the path of reach is a path, none has fewer pairs, it goes by parents, and no other path is so;
/// there is none exactly where no path leads there.
pub fn reach_is_shortest()
    ensures path { (g : Graph) (a b : ℕ) (p : List ℕ) → IsGraph g → has g a ≡ true
        → reach_path g a b ≡ Some p → IsPath g a b p }
    ensures shortest { (g : Graph) (a b : ℕ) (p : List ℕ) → IsGraph g → has g a ≡ true
        → reach_path g a b ≡ Some p → (q : List ℕ) → IsPath g a b q → length p ≤ length q }
    ensures parents { (g : Graph) (a b : ℕ) (p : List ℕ) → IsGraph g → has g a ≡ true
        → reach_path g a b ≡ Some p → GoesByParents g (levels_of g a) p }
    ensures only { (g : Graph) (a b : ℕ) (p : List ℕ) → IsGraph g → has g a ≡ true
        → IsPath g a b p → ((q : List ℕ) → IsPath g a b q → length p ≤ length q)
        → GoesByParents g (levels_of g a) p → reach_path g a b ≡ Some p }
    ensures none { (g : Graph) (a b : ℕ) → IsGraph g → has g a ≡ true
        → ((reach_path g a b ≡ None) ↔ ((p : List ℕ) → ¬ (IsPath g a b p))) }
    ensures itself { (g : Graph) (a : ℕ) → IsGraph g → has g a ≡ true → reach_path g a a ≡ Some (a ∷ []) }
{}

/// From a key, the least cost is the least cost of all paths, and there is none exactly where no path leads there.
pub fn least_costs_are_least()
    ensures least { (g : Graph) (a b c : ℕ) → IsGraph g → has g a ≡ true
        → ((least_cost g a b ≡ Some c) ↔ IsLeastCost g a b c) }
    ensures none { (g : Graph) (a b : ℕ) → IsGraph g → has g a ≡ true
        → ((least_cost g a b ≡ None) ↔ ((p : List ℕ) → ¬ (IsPath g a b p))) }
    ensures itself { (g : Graph) (a : ℕ) → IsGraph g → has g a ≡ true → least_cost g a a ≡ Some 0 }
{}

/// From a key, the path found backwards is a path, it costs the least cost, and each of its keys but the first
/// comes behind the least key over which a cheapest way leads to it; no other path goes so.
pub fn cheapest_is_a_path()
    ensures path { (g : Graph) (a b c : ℕ) → IsGraph g → has g a ≡ true
        → least_cost g a b ≡ Some c → IsPath g a b (cheapest_path g a b) }
    ensures cost { (g : Graph) (a b c : ℕ) → IsGraph g → has g a ≡ true
        → least_cost g a b ≡ Some c → cost_of g (cheapest_path g a b) ≡ c }
    ensures keys { (g : Graph) (a b c : ℕ) → IsGraph g → has g a ≡ true
        → least_cost g a b ≡ Some c → GoesByLeastKeys g a (cheapest_path g a b) }
    ensures only { (g : Graph) (a b : ℕ) (p : List ℕ) → IsGraph g → has g a ≡ true
        → IsPath g a b p → GoesByLeastKeys g a p → p ≡ cheapest_path g a b }
    ensures itself { (g : Graph) (a : ℕ) → cheapest_path g a a ≡ a ∷ [] }
{}

/// The part of a graph that is reached from a key is a graph, and no other graph has just those keys and pairs.
/// From that key it has the levels, the paths and the costs of the whole graph.
pub fn parts_are_answered_alike()
    ensures part { (g : Graph) (a : ℕ) → IsGraph g → has g a ≡ true → IsPart g a (part g a) }
    ensures only { (g h : Graph) (a : ℕ) → IsGraph g → has g a ≡ true → IsPart g a h → h ≡ part g a }
    ensures graph { (g : Graph) (a : ℕ) → IsGraph g → has g a ≡ true → IsGraph (part g a) }
    ensures levels { (g : Graph) (a : ℕ) → IsGraph g → has g a ≡ true
        → levels_of (part g a) a ≡ levels_of g a }
    ensures reach { (g : Graph) (a b : ℕ) → IsGraph g → has g a ≡ true
        → reach_path (part g a) a b ≡ reach_path g a b }
    ensures cost { (g : Graph) (a b : ℕ) → IsGraph g → has g a ≡ true
        → least_cost (part g a) a b ≡ least_cost g a b }
    ensures cheapest { (g : Graph) (a b c : ℕ) → IsGraph g → has g a ≡ true
        → least_cost g a b ≡ Some c → cheapest_path (part g a) a b ≡ cheapest_path g a b }
{}

/// The answers on four small graphs, as worked out by hand.
pub fn worked_graphs_are_answered()
    ensures levels { levels_of two_ways 1 ≡ (1 ∷ []) ∷ (2 ∷ 3 ∷ []) ∷ (9 ∷ 4 ∷ []) ∷ (10 ∷ []) ∷ [] }
    ensures first_parent { reach_path two_ways 1 10 ≡ Some (1 ∷ 2 ∷ 9 ∷ 10 ∷ []) }
    ensures fewest_pairs { reach_path detour 1 2 ≡ Some (1 ∷ 2 ∷ []) }
    ensures detour_cost { least_cost detour 1 2 ≡ Some 3 }
    ensures detour_path { cheapest_path detour 1 2 ≡ 1 ∷ 3 ∷ 2 ∷ [] }
    ensures tie_cost { least_cost tie 1 4 ≡ Some 3 }
    ensures tie_path { cheapest_path tie 1 4 ≡ 1 ∷ 2 ∷ 4 ∷ [] }
    ensures circle { levels_of dead_end 1 ≡ (1 ∷ []) ∷ (2 ∷ 3 ∷ []) ∷ (4 ∷ []) ∷ [] }
    ensures no_path { reach_path dead_end 3 1 ≡ None }
    ensures no_cost { least_cost dead_end 3 1 ≡ None }
{}
