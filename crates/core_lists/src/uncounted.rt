//! The laws of stretches without counted events: chains, lists and graph stay.

ghost use Rattle.std.specs.Prelude.{◌≡◌, ℕ, ◌≤◌, List, ◌++◌, length};
ghost use Rattle.packed_link.specs.Layout.{IsLayout, Sizes};
ghost use Rattle.core_journal.specs.declared.event.Event.{Event};
ghost use Rattle.core_journal.specs.Foreign.{foreign};
ghost use Rattle.core_journal.specs.Prefix.{IsPrefix};
ghost use Rattle.core_kept.specs.Kept.{IsKept, IsQuiet};
ghost use Rattle.core_lists.specs.Chains.{HasList};
ghost use Rattle.core_lists.specs.Uncounted.{AreUncounted, AreUncountedOrUnlinks, StaysButUnlinked, StaysUncounted};

/// Where only uncounted events were made since a front, nodes, free list, chains, lists and graph are the same. So it
/// is for a caller that made no event and that no foreign event met (`quiet`): what a sweep or a scan saw at the front
/// holds still.
pub fn uncounted_events_change_no_list()
    ensures stays { (sizes : Sizes) → IsLayout sizes → (front journal : List Event) (p : IsPrefix front journal)
        → IsKept sizes journal → AreUncounted p.rest → StaysUncounted sizes front journal }
    ensures quiet { (front journal : List Event) (p : IsPrefix front journal) (caller last : ℕ)
        → IsQuiet journal caller last → last ≤ length front
        → foreign journal caller (length front) (length journal) ≡ 0 → AreUncounted p.rest }
{}

/// Where beside uncounted events only unlinks of one caller were made since a front, all is as it was less what the
/// caller unlinked: those nodes were linked and marked, are spent with it, and stand on no chain and no list. Each
/// other node is as it was and where it was, and so are the free list and the graph. So what a sweep saw before its own
/// unlinks holds of what it left. A list is one still (`lists`).
pub fn own_unlinks_take_away_no_more()
    ensures stays { (sizes : Sizes) → IsLayout sizes → (front rest : List Event) → IsKept sizes (front ++ rest)
        → (caller : ℕ) → AreUncountedOrUnlinks caller rest → StaysButUnlinked sizes front rest caller }
    ensures lists { (sizes : Sizes) (front rest : List Event) (caller x : ℕ)
        → StaysButUnlinked sizes front rest caller → HasList sizes front x → HasList sizes (front ++ rest) x }
{}
