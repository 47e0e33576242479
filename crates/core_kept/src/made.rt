//! The law of how many events of some kinds a caller made, from a front to a longer journal.

ghost use Rattle.std.specs.Prelude.{◌≡◌, ℕ, ◌+◌, ◌≤◌, Bool, true, false, List, Some, length, slice_get};
ghost use Rattle.core_journal.specs.declared.event.Event.{Event};
ghost use Rattle.core_journal.specs.declared.event.Kind.{Kind};
ghost use Rattle.core_journal.specs.Prefix.{IsPrefix};
ghost use Rattle.core_kept.specs.Counts.{made};

/// The number of events of some kinds that a caller made never falls. Where a longer journal has as many, the caller
/// made none in between; where it has one more, it made only one. With the kinds that mark an edge, for a late entry of
/// a call on an edge: the event of its call is the one that it knows.
pub fn own_events_between_are_counted()
    ensures grows { (test : Kind → Bool) (caller : ℕ) (front journal : List Event) → IsPrefix front journal
        → made test caller front ≤ made test caller journal }
    ensures none { (test : Kind → Bool) (caller : ℕ) (front journal : List Event) → IsPrefix front journal
        → made test caller journal ≡ made test caller front
        → (p : ℕ) (e : Event) → length front ≤ p → slice_get journal p ≡ Some e → e.caller ≡ caller
        → test e.kind ≡ false }
    ensures only { (test : Kind → Bool) (caller : ℕ) (front journal : List Event) → IsPrefix front journal
        → made test caller journal ≡ made test caller front + 1
        → (p q : ℕ) (d e : Event) → length front ≤ p → slice_get journal p ≡ Some d → d.caller ≡ caller
        → test d.kind ≡ true → length front ≤ q → slice_get journal q ≡ Some e → e.caller ≡ caller
        → test e.kind ≡ true → q ≡ p }
{}
