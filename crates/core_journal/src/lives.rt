//! The laws of prefixes and lives: what a front shows stays true.

ghost use Rattle.std.specs.Prelude.{◌≡◌, ℕ, ◌≤◌, List, ◌∷◌, [], ◌++◌, Option, Some, true, false, length, slice_get};
ghost use Rattle.std.specs.Prelude.{take};
ghost use Rattle.std.specs.Prelude.{is_some};
ghost use Rattle.packed_link.specs.Layout.{Sizes};
ghost use Rattle.packed_link.specs.declared.link.Life.{Life};
ghost use Rattle.core_journal.specs.declared.event.Event.{Event};
ghost use Rattle.core_journal.specs.Prefix.{IsPrefix};
ghost use Rattle.core_journal.specs.Life.{vertex_linked, vertex_marked, edge_linked, edge_marked};
ghost use Rattle.core_journal.specs.Life.{unlinked, head_frozen, key_of, link_of};
ghost use Rattle.core_journal.specs.GraphOf.{IsRegular};
ghost use Rattle.core_journal.specs.Reuse.{IsOver, ReusesSafely};
ghost use Rattle.core_journal.specs.declared.event.Kind.TheVariants.{PopFree};

/// Prefixes: a journal is one of itself, a prefix of a prefix is one, one more event leaves one, and so does
/// each length.
pub fn prefixes_chain()
    ensures same { (journal : List Event) → IsPrefix journal journal }
    ensures longer { (short middle long : List Event) → IsPrefix short middle → IsPrefix middle long
        → IsPrefix short long }
    ensures next { (journal : List Event) (e : Event) → IsPrefix journal (journal ++ e ∷ []) }
    ensures taken { (journal : List Event) (n : ℕ) → IsPrefix (take n journal) journal }
    ensures shorter { (front journal : List Event) → IsPrefix front journal → length front ≤ length journal }
{}

/// A front of a regular journal is regular, and a front of one that reuses safely reuses safely.
pub fn fronts_are_journals()
    ensures regular { (front journal : List Event) → IsPrefix front journal → IsRegular journal → IsRegular front }
    ensures reuse { (sizes : Sizes) (front journal : List Event) → IsPrefix front journal
        → ReusesSafely sizes journal → ReusesSafely sizes front }
{}

/// Safe reuse goes on with one more event, where a node is taken only if each life for which it was taken
/// before is over.
pub fn reuse_goes_on()
    ensures opening { (sizes : Sizes) → ReusesSafely sizes [] }
    ensures next { (sizes : Sizes) (past : List Event) (e : Event) → ReusesSafely sizes past
        → (e.kind ≡ PopFree → (k : ℕ) (earlier : Event) → slice_get past k ≡ Some earlier
        → earlier.kind ≡ PopFree → earlier.life.index ≡ e.life.index → IsOver sizes past earlier.life)
        → ReusesSafely sizes (past ++ e ∷ []) }
{}

/// Links, marks and unlinks stay, with the key and the edge that were linked. So what isn't linked, marked or unlinked
/// in a journal wasn't so in a front of it: a walk that meets an unmarked edge knows it unmarked at each moment
/// before.
pub fn marks_and_links_stay()
    ensures vertex_linked { (front journal : List Event) (x : Life) → IsPrefix front journal
        → vertex_linked front x ≡ true → vertex_linked journal x ≡ true }
    ensures vertex_marked { (front journal : List Event) (x : Life) → IsPrefix front journal
        → vertex_marked front x ≡ true → vertex_marked journal x ≡ true }
    ensures edge_linked { (front journal : List Event) (x : Life) → IsPrefix front journal
        → edge_linked front x ≡ true → edge_linked journal x ≡ true }
    ensures edge_marked { (front journal : List Event) (x : Life) → IsPrefix front journal
        → edge_marked front x ≡ true → edge_marked journal x ≡ true }
    ensures unlinked { (front journal : List Event) (x : Life) → IsPrefix front journal
        → unlinked front x ≡ true → unlinked journal x ≡ true }
    ensures frozen { (front journal : List Event) (x : Life) → IsPrefix front journal
        → head_frozen front x ≡ true → head_frozen journal x ≡ true }
    ensures key { (front journal : List Event) (x : Life) (key : ℕ) → IsPrefix front journal
        → key_of front x ≡ Some key → key_of journal x ≡ Some key }
    ensures edge { (front journal : List Event) (x : Life) (link : Event) → IsPrefix front journal
        → link_of front x ≡ Some link → link_of journal x ≡ Some link }
    ensures vertex_not_linked { (front journal : List Event) (x : Life) → IsPrefix front journal
        → vertex_linked journal x ≡ false → vertex_linked front x ≡ false }
    ensures vertex_not_marked { (front journal : List Event) (x : Life) → IsPrefix front journal
        → vertex_marked journal x ≡ false → vertex_marked front x ≡ false }
    ensures edge_not_linked { (front journal : List Event) (x : Life) → IsPrefix front journal
        → edge_linked journal x ≡ false → edge_linked front x ≡ false }
    ensures edge_not_marked { (front journal : List Event) (x : Life) → IsPrefix front journal
        → edge_marked journal x ≡ false → edge_marked front x ≡ false }
    ensures not_unlinked { (front journal : List Event) (x : Life) → IsPrefix front journal
        → unlinked journal x ≡ false → unlinked front x ≡ false }
    ensures not_frozen { (front journal : List Event) (x : Life) → IsPrefix front journal
        → head_frozen journal x ≡ false → head_frozen front x ≡ false }
{}

/// A vertex life is linked where it has a key, and an edge life where it has a link.
pub fn links_are_found()
    ensures vertex { (journal : List Event) (x : Life) → vertex_linked journal x ≡ is_some (key_of journal x) }
    ensures edge { (journal : List Event) (x : Life) → edge_linked journal x ≡ is_some (link_of journal x) }
{}
