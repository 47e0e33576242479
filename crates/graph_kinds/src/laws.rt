//! Laws on the definitions: each is a function that does nothing, and its contract is the law.

ghost use Rattle.std.specs.Prelude.{◌≡◌, ℕ, ◌+◌, ◌≤◌, List, ◌∷◌, ◌++◌, Some, None};
ghost use Rattle.std.specs.Prelude.{true, false};
ghost use Rattle.std.specs.List.Sorted.{IsStrictlyIncreasing};
ghost use Rattle.graph_kinds.specs.Graph.{Graph, IsGraph, empty_graph, has, weight_of, key_count, pair_count};
ghost use Rattle.graph_kinds.specs.Graph.{sorted_keys};
ghost use Rattle.graph_kinds.specs.Levels.{stands_in};
ghost use Rattle.graph_kinds.specs.Answer.{IsWellMade, answer, alters, needs_node, grows, after, after_all, answers};
ghost use Rattle.graph_kinds.specs.History.{IsInterleaving, IsLegal, answered, calls_of, Item, Every, Overtakes};
ghost use Rattle.graph_kinds.specs.declared.answer.Answer.{Answer};
ghost use Rattle.graph_kinds.specs.declared.outcome.Outcome.{Outcome};
ghost use Rattle.graph_kinds.specs.declared.call.Call.{Call};
ghost use Rattle.graph_kinds.specs.declared.call.Row.{Row};

/// Two graphs with the same keys and the same weights are one graph, and so are two that answer alike.
pub fn graphs_are_extensional()
    ensures same { (g h : Graph) → ((k : ℕ) → has g k ≡ has h k)
        → ((a b : ℕ) → weight_of g a b ≡ weight_of h a b) → g ≡ h }
    ensures alike { (g h : Graph) → IsGraph g → IsGraph h
        → ((c : Call) → answer g c ≡ answer h c) → g ≡ h }
{}

/// The empty graph is a graph, and so is what a well-made call leaves of one.
pub fn calls_keep_graphs()
    ensures empty { IsGraph empty_graph }
    ensures after { (g : Graph) (c : Call) → IsWellMade c → IsGraph g → IsGraph (after g c) }
{}

/// A call that does not alter the graph leaves it, and one that does adds at most one key or pair; a call
/// that adds one alters it.
pub fn calls_add_at_most_one()
    ensures stays { (g : Graph) (c : Call) → alters g c ≡ false → after g c ≡ g }
    ensures empty { key_count empty_graph + pair_count empty_graph ≡ 0 }
    ensures one { (g : Graph) (c : Call) → grows g c ≡ true
        → key_count (after g c) + pair_count (after g c) ≡ key_count g + pair_count g + 1 }
    ensures none { (g : Graph) (c : Call) → grows g c ≡ false
        → key_count (after g c) + pair_count (after g c) ≤ key_count g + pair_count g }
    ensures adds { (g : Graph) (c : Call) → needs_node g c ≡ true → alters g c ≡ true }
{}

/// Rows that are answered one after the other, in their order and from the empty graph on, are an
/// interleaving of themselves whose history is legal and ends in the graph after the last call.
pub fn replays_are_legal()
    ensures interleaving { (rows : List Row) → let replies = answers empty_graph (calls_of rows) in
        IsInterleaving rows replies (answered rows replies) }
    ensures legal { (rows : List Row) → let replies = answers empty_graph (calls_of rows) in
        IsLegal (answered rows replies) (after_all empty_graph (calls_of rows)) }
{}

/// The sorted keys of a graph rise strictly, and are exactly its keys.
pub fn sorted_keys_are_the_keys()
    ensures rising { (g : Graph) → IsStrictlyIncreasing (sorted_keys g) }
    ensures exact { (g : Graph) (k : ℕ) → stands_in (sorted_keys g) k ≡ has g k }
{}

/// A history in which an item is answered Overtaken isn't legal where no later item overtakes it, nor where one does
/// so only behind the next item of its caller.
pub fn overtaken_items_need_a_removal()
    ensures without { (before later : List Item) (i : Item) (r : Answer) (last : Graph) → i.reply ≡ Some r
        → r.outcome ≡ Outcome.Overtaken → Every (λ j. ¬ (Overtakes j i)) later
        → ¬ (IsLegal (before ++ i ∷ later) last) }
    ensures in_time { (before between beyond : List Item) (i next : Item) (r : Answer) (last : Graph)
        → i.reply ≡ Some r → r.outcome ≡ Outcome.Overtaken → next.caller ≡ i.caller
        → Every (λ j. ¬ (Overtakes j i)) between
        → ¬ (IsLegal (before ++ i ∷ (between ++ next ∷ beyond)) last) }
{}
