//! The laws of events that pass a test: each is counted, and one of them is the first.
//!
//! With them a call knows that it made no change of the graph but the one of its entry, and finds the moment at which
//! something was done first, by whichever caller.

ghost use Rattle.std.specs.Prelude.{◌≡◌, ◌≢◌, ◌⊎◌, ℕ, ◌+◌, ◌<◌, ◌≤◌, Bool, true, false, List, [], ◌∷◌, ◌++◌, Some};
ghost use Rattle.std.specs.Prelude.{length, slice_get, take};
ghost use Rattle.packed_link.specs.declared.link.Life.{Life};
ghost use Rattle.core_journal.specs.declared.event.Event.{Event};
ghost use Rattle.core_journal.specs.GraphOf.{changes};
ghost use Rattle.core_journal.specs.Life.{edge_marked, vertex_marked};
ghost use Rattle.core_journal.specs.Marks.{IsCutOf, IsMarkOf};
ghost use Rattle.core_journal.specs.Passing.{IsFirst, changes_made, passing};
ghost use Rattle.core_journal.specs.Prefix.{IsPrefix};

/// The number of events that pass a test, each behind those before it: it rises by one at each of them, and never else.
/// Where a longer journal has as many, no event in between passes; where it has one more, only one does.
pub fn passing_events_are_counted()
    ensures opening { (test : List Event → Event → Bool) → passing test [] ≡ 0 }
    ensures one { (test : List Event → Event → Bool) (past : List Event) (e : Event) → test past e ≡ true
        → passing test (past ++ e ∷ []) ≡ passing test past + 1 }
    ensures other { (test : List Event → Event → Bool) (past : List Event) (e : Event) → test past e ≡ false
        → passing test (past ++ e ∷ []) ≡ passing test past }
    ensures grows { (test : List Event → Event → Bool) (front journal : List Event) → IsPrefix front journal
        → passing test front ≤ passing test journal }
    ensures some { (test : List Event → Event → Bool) (front journal : List Event) → IsPrefix front journal
        → (p : ℕ) (e : Event) → length front ≤ p → slice_get journal p ≡ Some e → test (take p journal) e ≡ true
        → passing test front < passing test journal }
    ensures none { (test : List Event → Event → Bool) (front journal : List Event) → IsPrefix front journal
        → passing test journal ≡ passing test front
        → (p : ℕ) (e : Event) → length front ≤ p → slice_get journal p ≡ Some e → test (take p journal) e ≡ false }
    ensures only { (test : List Event → Event → Bool) (front journal : List Event) → IsPrefix front journal
        → passing test journal ≡ passing test front + 1
        → (p q : ℕ) (d e : Event) → length front ≤ p → slice_get journal p ≡ Some d → test (take p journal) d ≡ true
        → length front ≤ q → slice_get journal q ≡ Some e → test (take q journal) e ≡ true → q ≡ p }
{}

/// The number of a caller's events that changed the graph, for the covering of its book: a call that made none more has
/// a silent or late entry, and a call that made one more, which it knows, has no other to answer for.
pub fn own_changes_are_counted()
    ensures opening { (caller : ℕ) → changes_made caller [] ≡ 0 }
    ensures one { (caller : ℕ) (past : List Event) (e : Event) → e.caller ≡ caller → changes past e ≡ true
        → changes_made caller (past ++ e ∷ []) ≡ changes_made caller past + 1 }
    ensures other { (caller : ℕ) (past : List Event) (e : Event) → (e.caller ≢ caller) ⊎ (changes past e ≡ false)
        → changes_made caller (past ++ e ∷ []) ≡ changes_made caller past }
    ensures none { (caller : ℕ) (front journal : List Event) → IsPrefix front journal
        → changes_made caller journal ≡ changes_made caller front
        → (p : ℕ) (e : Event) → length front ≤ p → slice_get journal p ≡ Some e → e.caller ≡ caller
        → changes (take p journal) e ≡ false }
    ensures only { (caller : ℕ) (front journal : List Event) → IsPrefix front journal
        → changes_made caller journal ≡ changes_made caller front + 1
        → (p q : ℕ) (d e : Event) → length front ≤ p → slice_get journal p ≡ Some d → d.caller ≡ caller
        → changes (take p journal) d ≡ true
        → length front ≤ q → slice_get journal q ≡ Some e → e.caller ≡ caller → changes (take q journal) e ≡ true
        → q ≡ p }
{}

/// The least number from a given one on at which an event passes a test, behind those before it: there is one up to
/// each such number, and only one. So there is a first event that marks a life, for entries whose place is another
/// caller's mark.
pub fn some_event_is_first()
    ensures found { (test : List Event → Event → Bool) (journal : List Event) (start p : ℕ) (e : Event) → start ≤ p
        → slice_get journal p ≡ Some e → test (take p journal) e ≡ true
        → (m : ℕ) × (m ≤ p) × IsFirst test journal start m }
    ensures one { (test : List Event → Event → Bool) (journal : List Event) (start m n : ℕ)
        → IsFirst test journal start m → IsFirst test journal start n → m ≡ n }
{}

/// Where a life is marked that wasn't marked at a front, one event behind the front is the first to mark it, by
/// whichever caller: a vertex, or an edge by its removal, its replacement or the freezing of its list. For a call that
/// finds a mark which isn't its own.
pub fn a_mark_has_its_first_event()
    ensures vertex { (front journal : List Event) → IsPrefix front journal → (x : Life)
        → vertex_marked front x ≡ false → vertex_marked journal x ≡ true
        → (m : ℕ) × (length front ≤ m) × IsMarkOf journal x m }
    ensures edge { (front journal : List Event) → IsPrefix front journal → (x : Life)
        → edge_marked front x ≡ false → edge_marked journal x ≡ true
        → (m : ℕ) × (length front ≤ m) × IsCutOf journal x m }
{}
