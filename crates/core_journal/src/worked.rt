//! The definitions computed on worked journals, whose values were found by hand.
//!
//! `specs/FirstVertex.antt` has the first eight events of a table, `specs/Worked.antt` an edge that is
//! overtaken before its call ends, and `specs/TwoCallers.antt` one that is linked too late, with all words of the
//! table.

ghost use Rattle.std.specs.Prelude.{◌≡◌, [], ◌∷◌};
ghost use Rattle.graph_kinds.specs.History.{Every, IsLegal};
ghost use Rattle.core_journal.specs.ClosedList.{closing, closed_list};
ghost use Rattle.core_journal.specs.FirstVertex.{tiny, eight_events, key_seven, words_before, words_after};
ghost use Rattle.core_journal.specs.GraphOf.{graph_of, IsRegular};
ghost use Rattle.core_journal.specs.History.{history, IsClosed};
ghost use Rattle.core_journal.specs.Machine.{opening_words, machine};
ghost use Rattle.core_journal.specs.Reuse.{EndsAt, ReusesSafely};
ghost use Rattle.core_journal.specs.Right.{IsBookOf, CallersApart, RightLate};
ghost use Rattle.core_journal.specs.SecondLife.{second_life, words_again};
ghost use Rattle.core_journal.specs.State.{state, Linked, Spent};
ghost use Rattle.core_journal.specs.TwoCallers.{callers_journal, callers_books, callers_history, callers_words};
ghost use Rattle.core_journal.specs.TwoCallers.{late_entry};
ghost use Rattle.core_journal.specs.Worked.{first_life, small, worked_journal, worked_books, worked_history, one_key};

/// The words of a small table before and after its first eight events, which add the vertex of key 7, and what
/// they mean.
pub fn eight_events_write_these_words()
    ensures before { opening_words tiny ≡ words_before }
    ensures after { machine tiny eight_events ≡ words_after }
    ensures free { (state tiny eight_events).free ≡ 1 ∷ [] }
    ensures bucket { (state tiny eight_events).bucket 0 ≡ 0 ∷ [] }
    ensures node { ((state tiny eight_events).node 0).mode ≡ Linked }
    ensures pass { ((state tiny eight_events).pass 0).since ≡ 1 }
    ensures graph { graph_of eight_events ≡ key_seven }
{}

/// A node is given back and taken for a second life, which is safe: its first life is over, and the pass that
/// is open was announced after the end.
pub fn a_second_life_is_safe()
    ensures words { machine tiny second_life ≡ words_again }
    ensures node { ((state tiny second_life).node 0).tag ≡ 2 }
    ensures ended { ((state tiny second_life).node 0).ended ≡ 12 }
    ensures pass { ((state tiny second_life).pass 0).since ≡ 18 }
    ensures reuse { ReusesSafely tiny second_life }
{}

/// The edges of a removed vertex are handed over once its list is frozen up to them: the second edge, which
/// another caller marked, stays linked until the first is frozen, and is then spent by the caller who unlinked
/// the vertex. Its life ended before that.
pub fn a_closed_list_is_handed_over()
    ensures edges { (state small closed_list).edges 0 ≡ 3 ∷ 4 ∷ [] }
    ensures bucket { (state small closed_list).bucket 0 ≡ 1 ∷ 2 ∷ [] }
    ensures before { ((state small closing).node 4).mode ≡ Linked }
    ensures spent { ((state small closed_list).node 4).mode ≡ Spent }
    ensures who { ((state small closed_list).node 4).who ≡ 1 }
    ensures ended { ((state small closed_list).node 4).ended ≡ 11 }
    ensures ends { EndsAt closed_list (first_life 4) 9 }
{}

/// An edge is linked, and its target is removed before the call ends: the journal is regular, its books are
/// true, their history is as worked out by hand and legal, and the graph has the one key 1.
pub fn an_overtaken_edge_is_legal()
    ensures regular { IsRegular worked_journal }
    ensures apart { CallersApart worked_books }
    ensures books { Every (IsBookOf small worked_journal) worked_books }
    ensures closed { IsClosed worked_journal worked_books }
    ensures graph { graph_of worked_journal ≡ one_key }
    ensures history { history worked_journal worked_books ≡ worked_history }
    ensures legal { IsLegal worked_history one_key }
{}

/// Two callers, from the opening on: an edge is linked to a vertex that is already removed. The words, the lists
/// and the graph are as worked out by hand, the books are true, one of them by a late entry, and their history
/// is legal.
pub fn a_late_edge_is_legal()
    ensures words { machine small callers_journal ≡ callers_words }
    ensures free { (state small callers_journal).free ≡ 3 ∷ 4 ∷ 5 ∷ 6 ∷ 7 ∷ [] }
    ensures bucket { (state small callers_journal).bucket 0 ≡ 0 ∷ [] }
    ensures edges { (state small callers_journal).edges 0 ≡ 2 ∷ [] }
    ensures regular { IsRegular callers_journal }
    ensures reuse { ReusesSafely small callers_journal }
    ensures apart { CallersApart callers_books }
    ensures late { RightLate callers_journal 0 late_entry }
    ensures books { Every (IsBookOf small callers_journal) callers_books }
    ensures closed { IsClosed callers_journal callers_books }
    ensures graph { graph_of callers_journal ≡ one_key }
    ensures history { history callers_journal callers_books ≡ callers_history }
    ensures legal { IsLegal callers_history one_key }
{}
