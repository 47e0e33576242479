//! The laws of what is a caller's own: it stays as the caller's front has it while only others make events.
//!
//! No token knows the journal behind its front, but all of its own events are in it (`IsQuiet` of `specs/Kept.antt`).

ghost use Rattle.std.specs.Prelude.{◌≡◌, ◌≢◌, ℕ, ◌+◌, ◌<◌, ◌≤◌, Bool, true, false, List, [], ◌∷◌, ◌++◌, Some, length};
ghost use Rattle.std.specs.Prelude.{slice_get};
ghost use Rattle.packed_link.specs.Layout.{IsLayout, Sizes};
ghost use Rattle.core_journal.specs.declared.event.Event.{Event};
ghost use Rattle.core_journal.specs.declared.event.Kind.{Kind};
ghost use Rattle.core_journal.specs.Prefix.{IsPrefix};
ghost use Rattle.core_journal.specs.Reuse.{pass_in};
ghost use Rattle.core_journal.specs.State.{state};
ghost use Rattle.core_kept.specs.Counts.{made};
ghost use Rattle.core_kept.specs.Facts.{IsHeld};
ghost use Rattle.core_kept.specs.Kept.{IsKept, IsQuiet};
ghost use Rattle.core_kept.specs.Nodes.{IsFreshWith};

/// From a front with all events of a caller on: its pass stays, a node that is fresh with it stays so with all of its
/// words, and it holds no fresh node where it held none.
pub fn own_facts_stay()
    ensures pass { (sizes : Sizes) (caller last : ℕ) (front journal : List Event) → IsPrefix front journal
        → IsKept sizes journal → IsQuiet journal caller last → last ≤ length front
        → pass_in sizes journal caller ≡ pass_in sizes front caller }
    ensures fresh { (sizes : Sizes) → IsLayout sizes → (caller last x : ℕ) → x < sizes.nodes
        → (front journal : List Event) → IsPrefix front journal → IsKept sizes journal → IsQuiet journal caller last
        → last ≤ length front → IsFreshWith sizes front caller x → IsHeld sizes front journal x }
    ensures none_fresh { (sizes : Sizes) (caller last : ℕ) (front journal : List Event) → IsPrefix front journal
        → IsKept sizes journal → IsQuiet journal caller last → last ≤ length front
        → ((x : ℕ) → x < sizes.nodes → IsFreshWith sizes front caller x → ⊥)
        → (x : ℕ) → x < sizes.nodes → IsFreshWith sizes journal caller x → ⊥ }
{}

/// A front with all events of a caller has all of them that are counted. One more event of the caller is counted where
/// it's of such a kind, and no event of another kind or caller is.
pub fn own_events_are_counted()
    ensures quiet { (test : Kind → Bool) (caller last : ℕ) (front journal : List Event) → IsPrefix front journal
        → last ≤ length front → IsQuiet journal caller last → made test caller journal ≡ made test caller front }
    ensures one { (test : Kind → Bool) (past : List Event) (e : Event) → test e.kind ≡ true
        → made test e.caller (past ++ e ∷ []) ≡ made test e.caller past + 1 }
    ensures other_kind { (test : Kind → Bool) (caller : ℕ) (past : List Event) (e : Event) → test e.kind ≡ false
        → made test caller (past ++ e ∷ []) ≡ made test caller past }
    ensures other_caller { (test : Kind → Bool) (caller : ℕ) (past : List Event) (e : Event) → e.caller ≢ caller
        → made test caller (past ++ e ∷ []) ≡ made test caller past }
    ensures opening { (test : Kind → Bool) (caller : ℕ) → made test caller [] ≡ 0 }
{}

/// The caller of each event of a kept journal has drawn its number.
pub fn callers_have_numbers()
    ensures { (sizes : Sizes) (journal : List Event) → IsKept sizes journal
        → (k : ℕ) (e : Event) → slice_get journal k ≡ Some e → e.caller < (state sizes journal).drawn }
{}
