//! The laws of retiring: what a token knows of the nodes that it hands over and retires while it freezes a list.

ghost use Rattle.std.specs.Prelude.{◌≡◌, ◌≢◌, ℕ, ◌+◌, ◌≤◌, true, List, Option, length};
ghost use Rattle.graph_kinds.specs.History.{Every};
ghost use Rattle.packed_link.specs.Layout.{IsLayout};
ghost use Rattle.packed_link.specs.declared.link.Life.{Life};
ghost use Rattle.core_journal.specs.declared.event.Event.{Event};
ghost use Rattle.core_journal.specs.declared.event.Kind.TheVariants.{PushFree};
ghost use Rattle.core_journal.specs.State.{state};
ghost use Rattle.core_kept.specs.Kept.{IsKept};
ghost use Rattle.core_kept.specs.Nodes.{IsSpentWith, IsUsed, is_listed, node_in};
ghost use Rattle.core_rule.specs.Fronts.{MayFreezeEdge};
ghost use Rattle.core_rule.specs.Owes.{Reaches};
ghost use Rattle.core_rule.specs.Retired.{AreApart, IsRetired};
ghost use Rattle.core_rule.specs.Views.{Spares, Steps};
ghost use Rattle.core_rule.specs.declared.view.View.{View};

/// The edge to which a frozen word of a token's own list leads is in its life still in each journal that the token may
/// meet, linked or spent, and stands on the list: so the life that is handed over is known, also where another
/// caller's mark was there before.
pub fn an_edge_behind_a_frozen_word_stays()
    ensures { (v : View) → IsLayout v.sizes → (source : Life) (place : ℕ) (x : Life) → MayFreezeEdge v source place x
        → (journal : List Event) → Reaches v journal → ((node_in v.sizes journal x.index).tag ≡ x.tag)
        × IsUsed (node_in v.sizes journal x.index).mode
        × (is_listed (state v.sizes journal) source.index x.index ≡ true) }
{}

/// A retired node is one behind each step of its token that doesn't give it back: it's spent in its life, stamped, and
/// the lists that may lead to it are frozen to their ends, all but the one that is being frozen. So a limbo goes on
/// through walks and through the freezing of a list whose edges are in it already.
pub fn retired_nodes_stay()
    ensures { (v w : View) (own : Option Event) → IsLayout v.sizes → Steps v own w → (but : Option ℕ) (x : Life)
        (stamp : ℕ) → Spares (λ (e : Event). e.kind ≡ PushFree → e.life.index ≢ x.index) own → IsRetired but v x stamp
        → IsRetired but w x stamp }
{}

/// A list of nodes that are spent with a token, each of which stands there once, has at most as many as the table has
/// nodes; where one more node is spent with the token that isn't in it, there's room for that one. So a limbo with room
/// for all nodes takes whatever its token spends.
pub fn a_limbo_has_room()
    ensures nodes { (v : View) → IsKept v.sizes v.front → (xs : List ℕ) → AreApart xs
        → Every (λ x. IsSpentWith v.sizes v.front v.number x) xs → length xs ≤ v.sizes.nodes }
    ensures one_more { (v : View) → IsKept v.sizes v.front → (xs : List ℕ) → AreApart xs
        → Every (λ x. IsSpentWith v.sizes v.front v.number x) xs
        → (x : ℕ) → IsSpentWith v.sizes v.front v.number x → Every (λ y. y ≢ x) xs → length xs + 1 ≤ v.sizes.nodes }
{}
