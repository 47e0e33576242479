//! The laws of words that changed: who changed them.

ghost use Rattle.std.specs.Prelude.{◌≡◌, ◌≢◌, ℕ, ◌+◌, ◌<◌, ◌≤◌, true, List, length};
ghost use Rattle.packed_link.specs.Layout.{IsLayout, Sizes, bucket_at, free_at, key_at};
ghost use Rattle.core_journal.specs.declared.event.Event.{Event};
ghost use Rattle.core_journal.specs.Foreign.{foreign};
ghost use Rattle.core_journal.specs.Machine.{word_at};
ghost use Rattle.core_journal.specs.Prefix.{IsPrefix};
ghost use Rattle.core_journal.specs.Reuse.{pass_in};
ghost use Rattle.core_kept.specs.Facts.{HasMet};
ghost use Rattle.core_kept.specs.Kept.{IsKept};
ghost use Rattle.core_lists.specs.Changed.{HasNoneAt, IsChangedByAnother};

/// A word that a pass may exchange, and that isn't as it was at a front though the caller made no event at it since,
/// was changed by an event of a counted kind that another caller made: so a try that is lost is lost to a foreign event
/// (`counts`). Such words are that of the free list, those of the buckets, and in one pass the four words of a node
/// that the pass had met at the front. What an open pass has met at a front it has met at each moment up to the last
/// one at which it is the same (`met`).
pub fn a_changed_word_was_changed_by_another()
    ensures free { (sizes : Sizes) (front journal : List Event) → IsPrefix front journal → IsKept sizes journal
        → (caller : ℕ) → HasNoneAt front journal caller (free_at sizes)
        → word_at sizes journal (free_at sizes) ≢ word_at sizes front (free_at sizes)
        → IsChangedByAnother front journal caller (free_at sizes) }
    ensures bucket { (sizes : Sizes) (front journal : List Event) → IsPrefix front journal → IsKept sizes journal
        → (caller j : ℕ) → j < sizes.buckets → HasNoneAt front journal caller (bucket_at sizes j)
        → word_at sizes journal (bucket_at sizes j) ≢ word_at sizes front (bucket_at sizes j)
        → IsChangedByAnother front journal caller (bucket_at sizes j) }
    ensures node { (sizes : Sizes) → IsLayout sizes → (front journal : List Event) → IsPrefix front journal
        → IsKept sizes journal → (caller : ℕ) → (pass_in sizes front caller).is_open ≡ true
        → pass_in sizes journal caller ≡ pass_in sizes front caller
        → (x field : ℕ) → field < 4 → HasMet sizes front caller x
        → HasNoneAt front journal caller (key_at sizes x + field)
        → word_at sizes journal (key_at sizes x + field) ≢ word_at sizes front (key_at sizes x + field)
        → IsChangedByAnother front journal caller (key_at sizes x + field) }
    ensures counts { (front journal : List Event) (caller place : ℕ)
        → IsChangedByAnother front journal caller place
        → 1 ≤ foreign journal caller (length front) (length journal) }
    ensures met { (sizes : Sizes) → IsLayout sizes → (front middle journal : List Event) → IsPrefix front middle
        → IsPrefix middle journal → IsKept sizes journal → (caller : ℕ)
        → (pass_in sizes front caller).is_open ≡ true
        → pass_in sizes journal caller ≡ pass_in sizes front caller
        → (x : ℕ) → HasMet sizes front caller x → HasMet sizes middle caller x }
{}
