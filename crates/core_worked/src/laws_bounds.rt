//! The laws of counts at edges that are replaced and at raises that are given up: each has a step here that meets its
//! premises. The counts themselves are worked out by hand.

ghost use Rattle.std.specs.Prelude.{◌≡◌, ℕ, ◌+◌, ◌^◌, ◌<◌, ◌≤◌, [], ◌∷◌, take};
ghost use Rattle.graph_kinds.specs.Graph.{key_count, pair_count};
ghost use Rattle.core_journal.specs.Event.{
  counted,
  cuts_edge,
  links_edge,
  links_vertex,
  pops,
  raises,
  replaces,
  unlinks_edge,
};
ghost use Rattle.core_journal.specs.Foreign.{foreign};
ghost use Rattle.core_journal.specs.GraphOf.{graph_of};
ghost use Rattle.core_journal.specs.Right.{IsAgain};
ghost use Rattle.core_journal.specs.TwoCallers.{callers_journal};
ghost use Rattle.core_journal.specs.Worked.{first_life, small};
ghost use Rattle.core_kept.specs.Counts.{about, all_made, made};
ghost use Rattle.core_kept.specs.Nodes.{node_in};
ghost use Rattle.core_counts.specs.Nodes.{IsAllGraph};
ghost use Rattle.core_counts.specs.Spending.{IsHandedOver};
ghost use Rattle.core_counts.specs.Totals.{GoesOneWay, RaisesApart, RaisesOnce, cuts, total};
ghost use Rattle.core_worked.specs.Counted.{given_up, one_node, one_vertex};
ghost use Rattle.core_worked.specs.Replacing.{replaced_anew, replacing_journal, same_weight};
ghost use Rattle.core_worked.specs.TwoLives.{closes_head, two_lives};

/// In the journal with two lives caller 0 raised at most once for each edge: so it is behind its first event, which is
/// no raise (`raises_stay_apart#other_kind`), behind its raise, event 27, for the edge of node 2 (`#raise`), and while
/// caller 1 moves the epoch on (`#others`). In the journal with replacements it raises four times, for the edges of
/// nodes 2, 3, 4 and 5, of which three are replaced and one is removed: each is over by the next raise
/// (`raises_are_done#raise`, `#done`), so there are no more raises than the five edges that were linked (`#links`).
/// Where it gives the edge up for which it raised, one raise is counted as given up (`#lost`, `#few`).
pub fn worked_raises_are_few()
    ensures other_kind { RaisesApart (take 1 two_lives) 0 0 }
    ensures raise { RaisesApart (take 28 two_lives) 0 0 }
    ensures others { RaisesApart (take 47 two_lives) 0 0 }
    ensures held { RaisesOnce (take 26 replacing_journal) (take 33 replacing_journal) 0 0 (first_life 2 ∷ []) }
    ensures done { RaisesOnce replacing_journal replacing_journal 0 0 [] }
    ensures four { made raises 0 replacing_journal ≡ 4 }
    ensures links { made raises 0 replacing_journal ≤ all_made links_edge replacing_journal + 0 }
    ensures lost { RaisesOnce same_weight same_weight 0 1 [] }
    ensures few { made raises 0 same_weight ≤ 2 ^ 36 + 1 }
{}

/// In the journal with replacements seven nodes are taken, two vertices and five edges are linked, three of which
/// replace another, and all five edges are marked: one by its removal, three by their replacements, and one by the
/// freezing of the list. An edge that is replaced goes one way (`each_life_goes_one_way`); three edges are unlinked, no
/// more than are marked (`fewer_of_each_life_are_fewer#cut`), and as many are marked as linked (`#cuts`).
pub fn worked_replacements_are_counted()
    ensures one_way { GoesOneWay replacing_journal (first_life 2) }
    ensures replaced { cuts (first_life 2) replacing_journal ≡ 1 }
    ensures linked { about links_edge (first_life 3) replacing_journal ≡ 1 }
    ensures taken { (all_made pops replacing_journal ≡ 7) × (all_made links_vertex replacing_journal ≡ 2) }
    ensures edges { (all_made links_edge replacing_journal ≡ 5) × (all_made replaces replacing_journal ≡ 3) }
    ensures marked { (all_made cuts_edge replacing_journal ≡ 5) × (all_made unlinks_edge replacing_journal ≡ 3) }
    ensures cut { all_made unlinks_edge replacing_journal ≤ all_made cuts_edge replacing_journal }
    ensures cuts { all_made cuts_edge replacing_journal ≤ all_made links_edge replacing_journal }
{}

/// The same journal has 27 counted events, and 3 of them replace an edge. By the kinds there are at most 47 of both
/// (`counted_events_are_few#by_kinds`), by the takes at most 52 (`#by_links`) and 70 (`#by_takes`). The raises of each
/// caller are no more than its counted events, and so in all (`sums_over_callers#most`). In the journal of two callers
/// at once three foreign events fall into a stretch of caller 0, of nine counted ones (`#foreign`); so a call with
/// three tries that is given up has no more tries than these (`#again`).
pub fn worked_events_are_below_their_bounds()
    ensures counts { (all_made counted replacing_journal ≡ 27) × (all_made counted callers_journal ≡ 9) }
    ensures by_kinds { all_made counted replacing_journal + all_made replaces replacing_journal ≤ 47 }
    ensures by_links { all_made counted replacing_journal ≤ 52 }
    ensures by_takes { all_made counted replacing_journal ≤ 70 }
    ensures most { total (λ (i : ℕ). made raises i replacing_journal) 2
        ≤ total (λ (i : ℕ). made counted i replacing_journal) 2 }
    ensures foreign { foreign callers_journal 0 20 28 ≤ all_made counted callers_journal }
    ensures gives_up { IsAgain callers_journal 0 given_up }
    ensures again { given_up.tries ≤ all_made counted callers_journal }
{}

/// Behind the third replacement the graph has two keys and one pair, in a table of eight nodes
/// (`all_nodes_are_of_the_graph#few`, `the_graph_is_counted`). A table with one node and one key is all graph
/// (`#only`). While an edge is replaced, the vertex of its target stays as it is (`clean_edges_stay#linked`). The edge
/// that was replaced last stands first on its list, marked: it's handed over when that is closed
/// (`nodes_become_spent#event`).
pub fn worked_replacements_leave_the_rest()
    ensures counted { (key_count (graph_of replaced_anew) ≡ 2) × (pair_count (graph_of replaced_anew) ≡ 1) }
    ensures few { key_count (graph_of replaced_anew) + pair_count (graph_of replaced_anew) ≤ 8 }
    ensures one_key { key_count (graph_of one_vertex) + pair_count (graph_of one_vertex) ≡ 1 }
    ensures only { IsAllGraph one_node one_vertex }
    ensures stays { node_in small (take 34 replacing_journal) 1 ≡ node_in small (take 33 replacing_journal) 1 }
    ensures handed { IsHandedOver small (take 71 replacing_journal) (closes_head 5) 0 5 }
{}
