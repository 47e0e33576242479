//! The laws of the graph of a journal, and of calls that are overtaken, at events of the worked journals.

ghost use Rattle.std.specs.Prelude.{◌≡◌, ℕ, ◌+◌, ◌≤◌, ◌++◌, ◌∷◌, [], take};
ghost use Rattle.graph_kinds.specs.Answer.{change};
ghost use Rattle.graph_kinds.specs.declared.call.Call.TheVariants.{AddEdge, AddVertex, RemoveEdge, RemoveVertex};
ghost use Rattle.core_journal.specs.Foreign.{foreign};
ghost use Rattle.core_journal.specs.GraphOf.{IsRegularEvent, graph_of};
ghost use Rattle.core_journal.specs.Overtaken.{IsFirstMark, IsLiving};
ghost use Rattle.core_journal.specs.Right.{IsBookOf};
ghost use Rattle.core_journal.specs.TwoCallers.{callers_journal};
ghost use Rattle.core_journal.specs.Worked.{first_life, small};
ghost use Rattle.core_worked.specs.Counted.{asks_for_two};
ghost use Rattle.core_worked.specs.Replacing.{hidden_meanwhile, replaces_by, replacing_journal};
ghost use Rattle.core_worked.specs.TwoLives.{freezes_second, links_new, marks_a_vertex, marks_first, two_lives};

/// What events of each row of the table of changes do to the graph (`kinds_change_the_graph`): a vertex is linked and
/// marked; an edge is linked, marked and replaced, linked to a vertex that is marked, replaced where its target was
/// marked since, and frozen; and a vertex is unlinked. Five of them are regular (`rows_are_regular`).
pub fn worked_events_change_the_graph()
    ensures link_vertex { graph_of (take 17 two_lives) ≡ change (graph_of (take 16 two_lives)) (AddVertex 2) }
    ensures mark_vertex { graph_of (take 41 two_lives) ≡ change (graph_of (take 40 two_lives)) (RemoveVertex 1) }
    ensures link_edge { graph_of (take 25 two_lives) ≡ change (graph_of (take 24 two_lives)) (AddEdge 1 2 5) }
    ensures link_none { graph_of (take 30 callers_journal) ≡ graph_of (take 29 callers_journal) }
    ensures mark_edge { graph_of (take 29 two_lives) ≡ change (graph_of (take 28 two_lives)) (RemoveEdge 1 2) }
    ensures mark_none { graph_of (take 44 two_lives) ≡ graph_of (take 43 two_lives) }
    ensures replace_edge { graph_of (take 34 replacing_journal)
        ≡ change (graph_of (take 33 replacing_journal)) (AddEdge 1 2 6) }
    ensures replace_none { graph_of (hidden_meanwhile ++ replaces_by 2 3 6 ∷ []) ≡ graph_of hidden_meanwhile }
    ensures freeze_edge { graph_of (take 43 two_lives ++ freezes_second ∷ []) ≡ graph_of (take 43 two_lives) }
    ensures others { graph_of (take 42 two_lives) ≡ graph_of (take 41 two_lives) }
    ensures regular_vertex { IsRegularEvent (take 40 two_lives) marks_a_vertex }
    ensures regular_edge { IsRegularEvent (take 28 two_lives) marks_first }
    ensures regular_replacing { IsRegularEvent (take 33 replacing_journal) (replaces_by 2 3 6) }
    ensures regular_hidden { IsRegularEvent hidden_meanwhile (replaces_by 2 3 6) }
    ensures regular_freezing { IsRegularEvent (take 43 two_lives) freezes_second }
{}

/// In the journal of two callers at once caller 0 finds both vertices living before event 18, and links an edge to the
/// second at event 29. Caller 1 marks that vertex: one event is the first mark of either
/// (`overtaking_has_two_cases#found`), event 22, which comes before that link and within the call, so the call is late;
/// at event 20, before it, both were living (`#own`). Two foreign events fall between events 20 and 25, in that front
/// as in the whole journal (`foreign_events_add_up#same`), and at least one (`#one`).
pub fn worked_calls_are_overtaken()
    ensures found { (m : ℕ) × IsFirstMark callers_journal (first_life 0) (first_life 1) m }
    ensures first { IsFirstMark callers_journal (first_life 0) (first_life 1) 22 }
    ensures own { IsLiving (take 20 callers_journal) (first_life 0)
        × IsLiving (take 20 callers_journal) (first_life 1) }
    ensures same { foreign callers_journal 0 20 25 ≡ foreign (take 25 callers_journal) 0 20 25 }
    ensures one { 1 ≤ foreign callers_journal 0 20 25 }
{}

/// Caller 1 makes no change in the journal with two lives: its book, which is empty behind event 44, is true there, and
/// is so still behind its two moves of the epoch (`books_of_fronts_stay`). Where it asked for vertex 2 meanwhile, and
/// was answered by what was there at event 45, the longer book is true (`a_call_extends_its_book`).
pub fn worked_books_stay_true()
    ensures front { IsBookOf small (take 45 two_lives) (record { caller = 1; entries = [] }) }
    ensures stays { IsBookOf small (take 47 two_lives) (record { caller = 1; entries = [] }) }
    ensures extends { IsBookOf small (take 47 two_lives) (record { caller = 1; entries = asks_for_two ∷ [] }) }
{}
