//! The law of what the first mark of a life does to the graph.

ghost use Rattle.std.specs.Prelude.{◌≡◌, ℕ, List, Some, take};
ghost use Rattle.packed_link.specs.Layout.{IsLayout, Sizes};
ghost use Rattle.packed_link.specs.declared.link.Life.{Life};
ghost use Rattle.core_journal.specs.declared.event.Event.{Event};
ghost use Rattle.core_journal.specs.GraphOf.{present_key};
ghost use Rattle.core_journal.specs.Life.{key_of, link_of};
ghost use Rattle.core_journal.specs.Marks.{IsCutOf, IsMarkOf};
ghost use Rattle.core_kept.specs.Kept.{IsKept};
ghost use Rattle.core_lists.specs.MarkEffects.{IsKeyGone, IsPairCut};

/// Right before the first mark of a vertex life the graph has its key, and right after it no longer. Right before the
/// first mark of an edge life whose ends are present, the graph has its pair with its weight, and the event is no
/// freezing: it marks the edge, and right after it the pair is gone, or it replaces the edge, and right after it the
/// pair has the event's weight, which is another one. So a call that finds a vertex or an edge marked by another caller
/// has a moment in its length at which the graph gives its answer.
pub fn marks_take_away_what_they_mark()
    ensures vertex { (sizes : Sizes) → IsLayout sizes → (journal : List Event) → IsKept sizes journal
        → (x : Life) (m key : ℕ) → IsMarkOf journal x m → key_of journal x ≡ Some key → IsKeyGone journal m key }
    ensures edge { (sizes : Sizes) → IsLayout sizes → (journal : List Event) → IsKept sizes journal
        → (x : Life) (m : ℕ) (link : Event) (a b : ℕ) (c : IsCutOf journal x m) → link_of journal x ≡ Some link
        → present_key (take m journal) link.source ≡ Some a → present_key (take m journal) link.target ≡ Some b
        → IsPairCut journal link c.event m a b }
{}
