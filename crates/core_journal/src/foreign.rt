//! The laws of foreign events: they add up from stretch to stretch of a journal.
//!
//! A call that loses a try tells one foreign event since the load that it trusted; so the tries that it lost are at
//! most the foreign events in its length, and that is what its answer Again says.

ghost use Rattle.std.specs.Prelude.{◌≡◌, ◌≢◌, ℕ, ◌+◌, ◌<◌, ◌≤◌, true, List, Some, length, slice_get};
ghost use Rattle.core_journal.specs.declared.event.Event.{Event};
ghost use Rattle.core_journal.specs.Event.{counted};
ghost use Rattle.core_journal.specs.Foreign.{IsForeign, foreign};
ghost use Rattle.core_journal.specs.Prefix.{IsPrefix};

/// The foreign events of two stretches that adjoin are those of both, and up to the length of a front a longer journal
/// has as many. An event of a counted kind by another caller is one of them, and where there is one, such an event
/// stands there.
pub fn foreign_events_add_up()
    ensures adds { (journal : List Event) (caller a b d : ℕ) → a ≤ b → b ≤ d
        → foreign journal caller a d ≡ foreign journal caller a b + foreign journal caller b d }
    ensures same { (front journal : List Event) → IsPrefix front journal → (caller start end : ℕ)
        → end ≤ length front → foreign journal caller start end ≡ foreign front caller start end }
    ensures one { (journal : List Event) (caller start end p : ℕ) (e : Event) → start ≤ p → p < end
        → slice_get journal p ≡ Some e → counted e.kind ≡ true → e.caller ≢ caller
        → 1 ≤ foreign journal caller start end }
    ensures found { (journal : List Event) (caller start end : ℕ) → 1 ≤ foreign journal caller start end
        → IsForeign journal caller start end }
{}
