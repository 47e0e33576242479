//! The laws of what a token holds: over a stretch it stays with the token, but for what the own events are about.

ghost use Rattle.std.specs.Prelude.{◌≡◌, ◌≢◌, ℕ, true, false, List, ◌∷◌, [], Option};
ghost use Rattle.graph_kinds.specs.History.{Every};
ghost use Rattle.packed_link.specs.Layout.{IsLayout};
ghost use Rattle.packed_link.specs.declared.link.Life.{Life};
ghost use Rattle.core_journal.specs.declared.event.Kind.TheVariants.{PopFree};
ghost use Rattle.core_journal.specs.declared.event.Event.{Event};
ghost use Rattle.core_journal.specs.Event.{unlinks};
ghost use Rattle.core_kept.specs.Facts.{IsHeld};
ghost use Rattle.core_counts.specs.Spending.{GetsNone};
ghost use Rattle.core_rule.specs.Retired.{IsRetired};
ghost use Rattle.core_rule.specs.Stretches.{HasNoFresh, is_of_fresh, GivesOther};
ghost use Rattle.core_rule.specs.declared.view.View.{View};
ghost use Rattle.core_stretches.specs.Holdings.{HasGotOnly, IsHeldFresh, IsHeldSpent};
ghost use Rattle.core_stretches.specs.Makes.{Makes};

/// A token that holds no fresh node holds none where it took none. A fresh node stays with all of its words where no
/// own event is about it, or none is of a kind that fills or links a fresh node.
pub fn fresh_nodes_stay()
    ensures none { (v w : View) (own : List Event) → IsLayout v.sizes → Every (λ e. e.kind ≢ PopFree) own
        → Makes v own w → HasNoFresh v → HasNoFresh w }
    ensures fresh { (v w : View) (own : List Event) → IsLayout v.sizes → (x : Life)
        → Every (λ e. x.index ≢ e.life.index) own → Makes v own w → IsHeldFresh v x
        → IsHeldFresh w x × IsHeld v.sizes v.front w.front x.index }
    ensures by_kind { (v w : View) (own : List Event) → IsLayout v.sizes → (x : Life)
        → Every (λ e. is_of_fresh e.kind ≡ false) own → Makes v own w → IsHeldFresh v x
        → IsHeldFresh w x × IsHeld v.sizes v.front w.front x.index }
{}

/// A spent node stays with its token, and a retired one stays retired, where no own event gives it back.
pub fn spent_nodes_stay()
    ensures spent { (v w : View) (own : List Event) → IsLayout v.sizes → (x : Life) → Every (GivesOther x.index) own
        → Makes v own w → IsHeldSpent v x → IsHeldSpent w x }
    ensures retired { (v w : View) (own : List Event) → IsLayout v.sizes → (but : Option ℕ) (x : Life) (stamp : ℕ)
        → Every (GivesOther x.index) own → Makes v own w → IsRetired but v x stamp → IsRetired but w x stamp }
{}

/// The nodes that a token got since a front are the same where each own event gets it none, and one more behind its
/// own unlink. While a list is being frozen, its frozen part counts as got.
pub fn nodes_that_were_got_are_known()
    ensures none { (v w : View) (own : List Event) → IsLayout v.sizes → (from : List Event) (but : Option ℕ)
        (got : List ℕ) → Every (GetsNone but) own → Makes v own w → HasGotOnly from v but got
        → HasGotOnly from w but got }
    ensures unlink { (v w : View) (e : Event) → IsLayout v.sizes → (from : List Event) (but : Option ℕ) (got : List ℕ)
        → unlinks e.kind ≡ true → Makes v (e ∷ []) w → HasGotOnly from v but got
        → HasGotOnly from w but (e.life.index ∷ got) }
{}
