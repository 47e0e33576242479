//! The law of the two cases in which a call on an edge is overtaken.

ghost use Rattle.std.specs.Prelude.{◌≡◌, ◌⊎◌, ℕ, ◌<◌, ◌≤◌, true, List, take};
ghost use Rattle.packed_link.specs.declared.link.Life.{Life};
ghost use Rattle.core_journal.specs.declared.event.Event.{Event};
ghost use Rattle.core_journal.specs.Life.{vertex_marked};
ghost use Rattle.core_journal.specs.Overtaken.{IsFirstMark, IsLiving};

/// A caller finds a vertex life linked and unmarked at one moment, another at a second moment (the two may be
/// one life), and makes an event at a moment that is neither before the first nor before the second. Where the
/// journal marks at least one of the two lives, some event is the first to do so. If it comes at the caller's
/// event or later, both lives are linked and unmarked at the caller's event: its entry is its own. If it comes
/// before, it comes at the first or at the second moment or later, so within the call: its entry is late.
pub fn overtaking_has_two_cases()
    ensures found { (journal : List Event) (u v : Life)
        → (vertex_marked journal u ≡ true) ⊎ (vertex_marked journal v ≡ true)
        → (m : ℕ) × IsFirstMark journal u v m }
    ensures own { (journal : List Event) (u v : Life) (p r q m : ℕ) → IsLiving (take p journal) u
        → IsLiving (take r journal) v → p ≤ q → r ≤ q → IsFirstMark journal u v m → q ≤ m
        → IsLiving (take q journal) u × IsLiving (take q journal) v }
    ensures late { (journal : List Event) (u v : Life) (p r q m : ℕ) → IsLiving (take p journal) u
        → IsLiving (take r journal) v → p ≤ q → r ≤ q → IsFirstMark journal u v m → m < q
        → (p ≤ m) ⊎ (r ≤ m) }
{}
