//! The laws of moments: what holds at each moment of a pass, or at any moment at all.

ghost use Rattle.std.specs.Prelude.{◌≡◌, ℕ, ◌<◌, true, List, [], ◌∷◌, ◌++◌, Some};
ghost use Rattle.packed_link.specs.Link.{mark_of};
ghost use Rattle.packed_link.specs.Layout.{IsLayout, Sizes, bucket_at};
ghost use Rattle.core_journal.specs.declared.event.Event.{Event};
ghost use Rattle.core_journal.specs.Event.{cut_life, cuts_edge};
ghost use Rattle.core_journal.specs.Life.{link_of};
ghost use Rattle.core_journal.specs.Machine.{word_at};
ghost use Rattle.core_journal.specs.Prefix.{IsPrefix};
ghost use Rattle.core_journal.specs.Reuse.{pass_in};
ghost use Rattle.core_kept.specs.Kept.{IsKept};

/// Where an open pass is the same at two moments, it's the same at each moment between them: a caller that closed it
/// opens another one. So what a walk has met is met at each moment of the walk.
pub fn a_pass_is_one_stretch()
    ensures { (sizes : Sizes) (caller : ℕ) (first middle last : List Event) → IsKept sizes last
        → IsPrefix first middle → IsPrefix middle last → (pass_in sizes first caller).is_open ≡ true
        → pass_in sizes last caller ≡ pass_in sizes first caller
        → pass_in sizes middle caller ≡ pass_in sizes first caller }
{}

/// The word of a bucket is never marked, so a walk may begin there.
pub fn the_word_of_a_bucket_is_unmarked()
    ensures { (sizes : Sizes) → IsLayout sizes → (journal : List Event) → IsKept sizes journal
        → (j : ℕ) → j < sizes.buckets → mark_of (word_at sizes journal (bucket_at sizes j)) ≡ 0 }
{}

/// An edge that an event marks, its own or the one that it replaces, was linked before: so the mark of an edge that
/// another caller made is that of a pair which was there.
pub fn a_marked_edge_was_linked()
    ensures { (sizes : Sizes) → IsLayout sizes → (past : List Event) (e : Event) → IsKept sizes (past ++ e ∷ [])
        → cuts_edge e.kind ≡ true → (link : Event) × (link_of past (cut_life e) ≡ Some link) }
{}
