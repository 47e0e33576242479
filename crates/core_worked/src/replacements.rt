//! Edges that are replaced, on a worked journal, and replacements that are refused.

ghost use Rattle.std.specs.Prelude.{◌≡◌, Contains, [], ◌∷◌, map, take};
ghost use Rattle.graph_kinds.specs.History.{Every, IsInterleaving, IsLegal};
ghost use Rattle.core_journal.specs.declared.event.Event.{Event};
ghost use Rattle.core_journal.specs.declared.event.Kind.{Kind};
ghost use Rattle.core_journal.specs.GraphOf.{IsRegular, graph_of};
ghost use Rattle.core_journal.specs.History.{IsClosed, history};
ghost use Rattle.core_journal.specs.Machine.{machine};
ghost use Rattle.core_journal.specs.Reuse.{ReusesSafely};
ghost use Rattle.core_journal.specs.Right.{CallersApart, IsBookOf};
ghost use Rattle.core_journal.specs.State.{state};
ghost use Rattle.core_journal.specs.Worked.{small};
ghost use Rattle.core_kept.specs.Kept.{IsKept};
ghost use Rattle.core_worked.specs.Refused.{IsRefusedBehind};
ghost use Rattle.core_worked.specs.Replacing.{added_anew, frozen_behind, marked_meanwhile};
ghost use Rattle.core_worked.specs.Replacing.{not_raised_for, other_target};
ghost use Rattle.core_worked.specs.Replacing.{removed_then, replaced_anew, replaced_once, replaced_twice, replaces_by};
ghost use Rattle.core_worked.specs.Replacing.{replaces_target, replacing_journal, replacing_books, replacing_history};
ghost use Rattle.core_worked.specs.Replacing.{replacing_replies, replacing_rows, replacing_words, same_weight};
ghost use Rattle.core_kept.specs.Standings.{OnChain, OnFreeList, SpentBy, StandsAs};
ghost use Rattle.core_worked.specs.TwoLives.{key_two, two_keys};

/// A worked journal of 78 events, in which each of the eighteen kinds stands, is kept. An edge is replaced, and the new
/// one too: the pair has the new weight each time, and three edges of one key stand on the list. The last one is
/// removed, the pair is added anew and replaced again. Then its source is removed: the replaced edge is handed over as
/// the list is closed at its head, and the last one as it's frozen. At the end the first node is free again. The words,
/// the graphs, the books and their history are as worked out by hand; the history is an interleaving of the rows of the
/// calls, answered so, and it's legal.
pub fn an_edge_is_replaced()
    ensures kept { IsKept small replacing_journal }
    ensures each_kind { (k : Kind) → Contains (map (λ (e : Event). e.kind) replacing_journal) k }
    ensures once { graph_of replaced_once ≡ two_keys (((1, 2), 6) ∷ []) }
    ensures twice { graph_of replaced_twice ≡ two_keys (((1, 2), 7) ∷ []) }
    ensures removed { graph_of removed_then ≡ two_keys [] }
    ensures added_anew { graph_of added_anew ≡ two_keys (((1, 2), 8) ∷ []) }
    ensures replaced_anew { graph_of replaced_anew ≡ two_keys (((1, 2), 9) ∷ []) }
    ensures gone { graph_of replacing_journal ≡ key_two }
    ensures list { (state small replaced_twice).edges 0 ≡ 2 ∷ 3 ∷ 4 ∷ [] }
    ensures marked { StandsAs small replaced_twice 3 OnChain }
    ensures handed { StandsAs small (take 72 replacing_journal) 5 (SpentBy 0) }
    ensures frozen { StandsAs small frozen_behind 6 (SpentBy 0) }
    ensures list_then { (state small replacing_journal).edges 0 ≡ 5 ∷ 6 ∷ [] }
    ensures freed { StandsAs small replacing_journal 2 OnFreeList }
    ensures free_list { (state small replacing_journal).free ≡ 2 ∷ 7 ∷ [] }
    ensures words { machine small replacing_journal ≡ replacing_words }
    ensures reuse { ReusesSafely small replacing_journal }
    ensures regular { IsRegular replacing_journal }
    ensures apart { CallersApart replacing_books }
    ensures books { Every (IsBookOf small replacing_journal) replacing_books }
    ensures closed { IsClosed replacing_journal replacing_books }
    ensures history { history replacing_journal replacing_books ≡ replacing_history }
    ensures interleaves { IsInterleaving replacing_rows replacing_replies (history replacing_journal replacing_books) }
    ensures legal { IsLegal replacing_history key_two }
{}

/// An edge isn't replaced where the counter of its source wasn't raised for it in this pass, by one of its own weight,
/// by one to another target, or where its link was marked since it was seen.
pub fn wrong_replacements_are_refused()
    ensures unraised { IsRefusedBehind small not_raised_for (replaces_by 2 3 6) }
    ensures same_weight { IsRefusedBehind small same_weight (replaces_by 2 3 5) }
    ensures other_target { IsRefusedBehind small other_target replaces_target }
    ensures marked { IsRefusedBehind small marked_meanwhile (replaces_by 2 3 6) }
{}
