//! The laws of moments on worked journals: each has a step that meets its premises.

ghost use Rattle.std.specs.Prelude.{◌≡◌, ℕ, ◌+◌, ◌≤◌, true, false, None, Some, drop, length, slice_get, take};
ghost use Rattle.graph_kinds.specs.Graph.{IsGraph, weight_of};
ghost use Rattle.packed_link.specs.Layout.{key_at};
ghost use Rattle.core_journal.specs.declared.event.Event.{Event};
ghost use Rattle.core_journal.specs.Event.{cuts_edge, marks_vertex};
ghost use Rattle.core_journal.specs.Foreign.{IsForeign, foreign};
ghost use Rattle.core_journal.specs.GraphOf.{changes, graph_of};
ghost use Rattle.core_journal.specs.Marks.{IsCutOf, IsMarkOf};
ghost use Rattle.core_journal.specs.Passing.{IsFirst, changes_made};
ghost use Rattle.core_journal.specs.TwoCallers.{callers_journal};
ghost use Rattle.core_journal.specs.Worked.{first_life, small, worked_journal};
ghost use Rattle.core_kept.specs.Kept.{IsKept};
ghost use Rattle.core_lists.specs.Changed.{IsChangedByAnother};
ghost use Rattle.core_lists.specs.MarkEffects.{IsKeyGone, IsPairCut};
ghost use Rattle.core_lists.specs.Uncounted.{StaysButUnlinked, StaysUncounted};
ghost use Rattle.core_worked.specs.Replacing.{replaces_by, replacing_journal};
ghost use Rattle.core_worked.specs.TargetAnew.{target_anew};
ghost use Rattle.core_worked.specs.TwoLives.{links_new, marks_first, two_lives};

/// In the journal with two lives an edge of weight 5 is added and removed: its pair is in the graph with that weight,
/// and gone right after its mark. The mark is the one that its caller made in between. In the journal in which that
/// edge is replaced, the pair has the new weight right after its mark. In the one in which its target is removed and added
/// anew, the pair isn't there, though the edge is unmarked (`a_pair_is_the_one_edge_between_two_lives#other`).
pub fn a_worked_edge_comes_and_goes()
    ensures graph { IsGraph (graph_of two_lives) }
    ensures there { weight_of (graph_of (take 26 two_lives)) 1 2 ≡ Some 5 }
    ensures none { weight_of (graph_of (take 31 two_lives)) 1 2 ≡ None }
    ensures anew { IsKept small target_anew }
    ensures other { weight_of (graph_of target_anew) 1 2 ≡ None }
    ensures first { (m : ℕ) × (length (take 26 two_lives) ≤ m) × IsCutOf two_lives (first_life 2) m }
    ensures cut { IsPairCut two_lives (links_new 2 5) marks_first 28 1 2 }
    ensures replaced { IsPairCut replacing_journal (links_new 2 5) (replaces_by 2 3 6) 33 1 2 }
    ensures own { (q : ℕ) (e : Event) → length (take 28 two_lives) ≤ q → slice_get (take 31 two_lives) q ≡ Some e
        → e.caller ≡ 0 → cuts_edge e.kind ≡ true → q ≡ 28 }
{}

/// In the journal of two callers at once, caller 1 marks a vertex while a call of caller 0 runs: its key is gone right
/// after that, and its link isn't what it was, by a foreign event. Two more of them follow.
pub fn a_worked_vertex_goes()
    ensures mark { (m : ℕ) × (length (take 20 callers_journal) ≤ m) × IsMarkOf callers_journal (first_life 1) m }
    ensures gone { IsKeyGone callers_journal 22 2 }
    ensures first { (m : ℕ) × (m ≤ 22) × IsFirst (λ past e. marks_vertex e.kind) callers_journal 20 m }
    ensures changed { IsChangedByAnother (take 22 callers_journal) (take 23 callers_journal) 0 (key_at small 1 + 1) }
    ensures foreign { foreign callers_journal 0 20 28 ≡ 3 }
    ensures some { IsForeign callers_journal 0 20 24 }
{}

/// In the journal with two lives chains, lists and graph stay while the epoch is moved on twice; and while an edge is
/// unlinked and the pass is closed, all but that edge stays.
pub fn worked_lists_stay()
    ensures uncounted { StaysUncounted small (take 45 two_lives) (take 47 two_lives) }
    ensures unlinked { StaysButUnlinked small (take 29 two_lives) (drop 29 (take 31 two_lives)) 0 }
{}

/// In the short worked journal of core_journal the first event of caller 0 changes the graph, and up to there no other
/// of its events does. The last event, which changes it too, is another caller's: the count is as it was before.
pub fn worked_changes_are_counted()
    ensures one { changes_made 0 (take 1 worked_journal) ≡ 1 }
    ensures only { (p : ℕ) (e : Event) → slice_get (take 1 worked_journal) p ≡ Some e → e.caller ≡ 0
        → changes (take p (take 1 worked_journal)) e ≡ true → p ≡ 0 }
    ensures same { changes_made 0 worked_journal ≡ changes_made 0 (take 3 worked_journal) }
    ensures none { (p : ℕ) (e : Event) → length (take 3 worked_journal) ≤ p → slice_get worked_journal p ≡ Some e
        → e.caller ≡ 0 → changes (take p worked_journal) e ≡ false }
{}
