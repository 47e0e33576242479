//! The laws of limbos: from empty on, over all that the token makes, and while a list is being frozen.

ghost use Rattle.std.specs.Prelude.{◌≢◌, ◌<◌, ◌≤◌, ℕ, List, [], length, Option, None, Some};
ghost use Rattle.graph_kinds.specs.History.{Every};
ghost use Rattle.packed_link.specs.Layout.{IsLayout};
ghost use Rattle.packed_link.specs.declared.link.Life.{Life};
ghost use Rattle.core_journal.specs.declared.event.Event.{Event};
ghost use Rattle.core_journal.specs.declared.event.Kind.TheVariants.{PushFree};
ghost use Rattle.core_kept.specs.Kept.{IsKept};
ghost use Rattle.core_kept.specs.Nodes.{IsFrozenToEnd};
ghost use Rattle.core_rule.specs.declared.view.View.{View};
ghost use Rattle.core_stretches.specs.Holdings.{IsHeldSpent};
ghost use Rattle.core_rule.specs.Stretches.{GivesOther};
ghost use Rattle.core_stretches.specs.Makes.{Makes};
ghost use Rattle.epoch_limbo.specs.Limbos.{IsLimboOf, IsOut, index_in};
ghost use Rattle.graph_table.specs.Tokens.{RipeValue};

/// An empty limbo is of every token. A limbo of a token is so over all that the token makes, where no own event gives
/// back one of its nodes: so each call that gives no node back, or none of the limbo, may be made between two calls of
/// the limbo.
pub fn limbos_stay()
    ensures empty { (but : Option ℕ) (v : View) → IsLimboOf but v [] }
    ensures apart { (but : Option ℕ) (v w : View) (own : List Event) → IsLayout v.sizes → Makes v own w
        → (nodes : List RipeValue) → Every (λ r. Every (GivesOther (index_in r)) own) nodes
        → IsLimboOf but v nodes → IsLimboOf but w nodes }
    ensures by_kind { (but : Option ℕ) (v w : View) (own : List Event) → IsLayout v.sizes → Makes v own w
        → (nodes : List RipeValue) → Every (λ e. e.kind ≢ PushFree) own → IsLimboOf but v nodes
        → IsLimboOf but w nodes }
{}

/// A limbo of a token is one while a list is being frozen, and what was a limbo but for that list is one without it as
/// soon as the list is frozen to its end. So a call that freezes a list may retire its edges one by one.
pub fn a_limbo_outlasts_a_freeze()
    ensures begins { (but : Option ℕ) (v : View) (nodes : List RipeValue) → IsLimboOf None v nodes
        → IsLimboOf but v nodes }
    ensures ends { (x : ℕ) (v : View) (nodes : List RipeValue) → IsFrozenToEnd v.sizes v.front x
        → IsLimboOf (Some x) v nodes → IsLimboOf None v nodes }
{}

/// A limbo of a token has at most as many nodes as the table; and where one more node is spent with the token that
/// isn't in it, it has fewer. So a limbo with room for all nodes takes whatever its token spends.
pub fn a_limbo_has_room_for_one_more()
    ensures fits { (but : Option ℕ) (v : View) (nodes : List RipeValue) → IsKept v.sizes v.front → IsLimboOf but v nodes
        → length nodes ≤ v.sizes.nodes }
    ensures room { (but : Option ℕ) (v : View) (nodes : List RipeValue) (x : Life) → IsKept v.sizes v.front
        → IsLimboOf but v nodes → IsHeldSpent v x → IsOut x.index nodes → length nodes < v.sizes.nodes }
{}
