//! How a caller gets spent nodes: by its own unlinks, and with the frozen parts of the lists of vertices that it spent.
//!
//! A mark hands an edge over to the caller who spent its source, so others' events give a caller nodes too, but only
//! where it holds a vertex whose list is closed and not frozen to its end. A caller freezes one list at a time; so but
//! for that list (`but`) it knows all that it holds. Since the laws hold for each front and each list of nodes that
//! were got, they chain from step to step.

ghost use Rattle.std.specs.Prelude.{◌≡◌, ◌≢◌, ◌⊎◌, ℕ, ◌≤◌, true, false, List, [], ◌∷◌, ◌++◌, length, Option};
ghost use Rattle.std.specs.Prelude.{Some, None};
ghost use Rattle.graph_kinds.specs.Levels.{stands_in};
ghost use Rattle.packed_link.specs.Layout.{IsLayout, Sizes};
ghost use Rattle.core_journal.specs.declared.event.Event.{Event};
ghost use Rattle.core_journal.specs.Event.{unlinks};
ghost use Rattle.core_journal.specs.Prefix.{IsPrefix};
ghost use Rattle.core_journal.specs.Reuse.{pass_in};
ghost use Rattle.core_journal.specs.State.{state};
ghost use Rattle.core_kept.specs.Counts.{made};
ghost use Rattle.core_kept.specs.Freezing.{IsSpentVertex};
ghost use Rattle.core_kept.specs.Kept.{IsKept, IsQuiet};
ghost use Rattle.core_kept.specs.Nodes.{IsFreshWith, IsFrozenToEnd, IsSpentWith, is_frozen, node_in};
ghost use Rattle.core_counts.specs.Spending.{AreFinished, GetsNone, GotOnly, IsHandedOver, IsHolder, IsOwnUnlink};
ghost use Rattle.core_counts.specs.Spending.{acts};

/// A node becomes spent with a caller where the caller unlinks it, or where it's an edge that comes onto the frozen
/// part of the list of a vertex that the caller spent. So where all lists of vertices that it spent are frozen to their
/// ends, no other node becomes spent with it while others act, and those lists stay so. For what a hand holds between
/// calls.
pub fn nodes_become_spent()
    ensures event { (sizes : Sizes) → IsLayout sizes → (past : List Event) (e : Event) → IsKept sizes (past ++ e ∷ [])
        → (caller y : ℕ) → IsSpentWith sizes (past ++ e ∷ []) caller y
        → (IsSpentWith sizes past caller y ⊎ IsOwnUnlink e caller y) ⊎ IsHandedOver sizes past e caller y }
    ensures settled { (sizes : Sizes) → IsLayout sizes → (caller last : ℕ) (front journal : List Event)
        → IsPrefix front journal → IsKept sizes journal → IsQuiet journal caller last → last ≤ length front
        → ((x : ℕ) → IsSpentVertex sizes front caller x → IsFrozenToEnd sizes front x)
        → (y : ℕ) → IsSpentWith sizes journal caller y
        → IsSpentWith sizes front caller y × ((node_in sizes journal y).tag ≡ (node_in sizes front y).tag) }
    ensures ends { (sizes : Sizes) → IsLayout sizes → (caller last : ℕ) (front journal : List Event)
        → IsPrefix front journal → IsKept sizes journal → IsQuiet journal caller last → last ≤ length front
        → ((x : ℕ) → IsSpentVertex sizes front caller x → IsFrozenToEnd sizes front x)
        → (x : ℕ) → IsSpentVertex sizes journal caller x → IsFrozenToEnd sizes journal x }
{}

/// What a caller got since a front, in the form that steps keep: nothing at the front itself; no more while others act
/// and behind an event of its own that unlinks nothing and closes no other list; one node more behind its own unlink. A
/// list that is to be frozen becomes the one that is (`begins`), and where it's frozen to its end and the nodes of its
/// part are among those that the caller got, it's one like the others (`done`). For each step of a call that removes.
pub fn a_caller_knows_what_it_got()
    ensures itself { (sizes : Sizes) (front : List Event) (caller : ℕ) (but : Option ℕ)
        → AreFinished sizes front caller but → IsHolder sizes front caller but
        → GotOnly sizes front front caller but [] }
    ensures others { (sizes : Sizes) → IsLayout sizes → (caller last : ℕ) (but : Option ℕ) (front journal : List Event)
        → IsPrefix front journal → IsKept sizes journal → IsQuiet journal caller last → last ≤ length front
        → (from : List Event) (got : List ℕ) → GotOnly sizes from front caller but got
        → GotOnly sizes from journal caller but got }
    ensures own { (sizes : Sizes) → IsLayout sizes → (past : List Event) (e : Event) → IsKept sizes (past ++ e ∷ [])
        → (but : Option ℕ) → GetsNone but e
        → (from : List Event) (got : List ℕ) → GotOnly sizes from past e.caller but got
        → GotOnly sizes from (past ++ e ∷ []) e.caller but got }
    ensures unlink { (sizes : Sizes) → IsLayout sizes → (past : List Event) (e : Event) → IsKept sizes (past ++ e ∷ [])
        → (but : Option ℕ) → unlinks e.kind ≡ true
        → (from : List Event) (got : List ℕ) → GotOnly sizes from past e.caller but got
        → GotOnly sizes from (past ++ e ∷ []) e.caller but (e.life.index ∷ got) }
    ensures begins { (sizes : Sizes) (from journal : List Event) (caller x : ℕ) (got : List ℕ)
        → GotOnly sizes from journal caller None got → IsSpentVertex sizes journal caller x
        → GotOnly sizes from journal caller (Some x) got }
    ensures done { (sizes : Sizes) (from journal : List Event) (caller x : ℕ) (got : List ℕ)
        → GotOnly sizes from journal caller (Some x) got → IsFrozenToEnd sizes journal x
        → ((y : ℕ) → is_frozen (state sizes journal) x y ≡ true → stands_in got y ≡ true)
        → GotOnly sizes from journal caller None got }
    ensures more { (sizes : Sizes) (from journal : List Event) (caller y : ℕ) (but : Option ℕ) (got : List ℕ)
        → GotOnly sizes from journal caller but got → GotOnly sizes from journal caller but (y ∷ got) }
{}

/// A caller that made no event but its draw has no open pass, no fresh node and no spent one. For a hand that is made
/// anew, and for callers that never acted.
pub fn a_caller_without_events_has_nothing()
    ensures pass { (sizes : Sizes) → IsLayout sizes → (journal : List Event) → IsKept sizes journal → (caller : ℕ)
        → made acts caller journal ≡ 0 → (pass_in sizes journal caller).is_open ≡ false }
    ensures fresh { (sizes : Sizes) → IsLayout sizes → (journal : List Event) → IsKept sizes journal → (caller : ℕ)
        → made acts caller journal ≡ 0 → (x : ℕ) → IsFreshWith sizes journal caller x → ⊥ }
    ensures spent { (sizes : Sizes) → IsLayout sizes → (journal : List Event) → IsKept sizes journal → (caller : ℕ)
        → made acts caller journal ≡ 0 → (x : ℕ) → IsSpentWith sizes journal caller x → ⊥ }
{}
