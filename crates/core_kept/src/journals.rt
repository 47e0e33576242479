//! The laws of kept journals themselves: their fronts, and one more event.
//!
//! A fact that each allowed event keeps holds of all kept journals (`IsKept` of `specs/Kept.antt`), and one that each
//! event of another caller keeps goes on from a front with all events of its caller: `proofs/Induction.antt` has these
//! for all facts at once.

ghost use Rattle.std.specs.Prelude.{◌≡◌, ℕ, List, [], ◌∷◌, ◌++◌, Some, slice_get, take};
ghost use Rattle.packed_link.specs.Layout.{Sizes};
ghost use Rattle.core_journal.specs.declared.event.Event.{Event};
ghost use Rattle.core_journal.specs.Prefix.{IsPrefix};
ghost use Rattle.core_kept.specs.Kept.{Allowed, IsKept};

/// The empty journal is kept, one more allowed event keeps it so, and a front of a kept journal is kept, also one that
/// is given by its length. Each event of a kept journal, and so the last one, was allowed after those before it.
pub fn kept_journals_grow()
    ensures opening { (sizes : Sizes) → IsKept sizes [] }
    ensures next { (sizes : Sizes) (journal : List Event) (e : Event) → IsKept sizes journal → Allowed sizes journal e
        → IsKept sizes (journal ++ e ∷ []) }
    ensures front { (sizes : Sizes) (front journal : List Event) → IsPrefix front journal → IsKept sizes journal
        → IsKept sizes front }
    ensures taken { (sizes : Sizes) (journal : List Event) (n : ℕ) → IsKept sizes journal
        → IsKept sizes (take n journal) }
    ensures each { (sizes : Sizes) (journal : List Event) → IsKept sizes journal → (p : ℕ) (e : Event)
        → slice_get journal p ≡ Some e → Allowed sizes (take p journal) e }
    ensures last { (sizes : Sizes) (past : List Event) (e : Event) → IsKept sizes (past ++ e ∷ [])
        → IsKept sizes past × Allowed sizes past e }
{}
