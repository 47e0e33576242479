//! The laws of words and states: what stands after one more event.
//!
//! All that is used of `machine` and `state` (`specs/Machine.antt`, `specs/State.antt`) are these laws.

ghost use Rattle.std.specs.Prelude.{◌≡◌, ◌≢◌, ℕ, ◌<◌, List, [], ◌∷◌, ◌++◌, length};
ghost use Rattle.packed_link.specs.Layout.{Sizes, Place, IsPlace, place_of, word_count};
ghost use Rattle.core_journal.specs.declared.event.Event.{Event};
ghost use Rattle.core_journal.specs.Machine.{machine, opening_word, word_at};
ghost use Rattle.core_journal.specs.State.{state, state_by, opening};

/// The words of the table: each has its opening word at first, an event writes the word at its place, and keeps
/// any other.
pub fn events_write_their_words()
    ensures opening { (sizes : Sizes) (p : Place) → IsPlace sizes p
        → word_at sizes [] (place_of sizes p) ≡ opening_word sizes p }
    ensures written { (sizes : Sizes) (journal : List Event) (e : Event) → e.place < word_count sizes
        → word_at sizes (journal ++ e ∷ []) e.place ≡ e.word }
    ensures kept { (sizes : Sizes) (journal : List Event) (e : Event) (place : ℕ) → place ≢ e.place
        → word_at sizes (journal ++ e ∷ []) place ≡ word_at sizes journal place }
    ensures count { (sizes : Sizes) (journal : List Event)
        → length (machine sizes journal) ≡ word_count sizes }
{}

/// The state: the opening state at first, and one more event changes it as its kind says; its count is the
/// number of events.
pub fn events_change_the_state()
    ensures opening { (sizes : Sizes) → state sizes [] ≡ opening sizes }
    ensures next { (sizes : Sizes) (journal : List Event) (e : Event)
        → state sizes (journal ++ e ∷ []) ≡ state_by e.kind sizes e (state sizes journal) }
    ensures count { (sizes : Sizes) (journal : List Event)
        → (state sizes journal).count ≡ length journal }
{}
