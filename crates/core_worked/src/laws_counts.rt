//! The laws of counts at worked journals: each has a step here that meets its premises.

ghost use Rattle.std.specs.Prelude.{◌≡◌, ◌≢◌, ℕ, ◌+◌, ◌-◌, ◌*◌, ◌<◌, ◌≤◌, false, None, [], ◌∷◌, take};
ghost use Rattle.std.specs.List.{sum_by};
ghost use Rattle.graph_kinds.specs.Graph.{key_count, pair_count};
ghost use Rattle.core_journal.specs.Event.{pushes};
ghost use Rattle.core_journal.specs.declared.book.Book.{Book};
ghost use Rattle.core_journal.specs.Event.{counted, cuts_edge, freezes_head, links, links_edge, links_vertex, pops};
ghost use Rattle.core_journal.specs.Event.{raises};
ghost use Rattle.core_journal.specs.GraphOf.{graph_of};
ghost use Rattle.core_journal.specs.Reuse.{pass_in};
ghost use Rattle.core_journal.specs.Right.{NoneFree};
ghost use Rattle.core_journal.specs.State.{Free, state};
ghost use Rattle.core_journal.specs.Worked.{first_life, small};
ghost use Rattle.core_kept.specs.Counts.{about, all_made, made};
ghost use Rattle.core_kept.specs.Freezing.{IsSpentVertex};
ghost use Rattle.core_kept.specs.Kept.{IsKept};
ghost use Rattle.core_kept.specs.Nodes.{IsFreshWith, IsFrozenToEnd, IsSpentWith, node_in};
ghost use Rattle.core_counts.specs.Nodes.{IsAllGraph};
ghost use Rattle.core_counts.specs.Spending.{GotOnly, IsHandedOver, acts};
ghost use Rattle.core_counts.specs.Swept.{IsCleanEdge, IsCleanVertex, IsOfGraphOr, IsSwept};
ghost use Rattle.core_counts.specs.Totals.{GoesOneWay, RaisesApart, RaisesOnce, cuts, total};
ghost use Rattle.core_worked.specs.Counted.{one_node, one_vertex, two_books};
ghost use Rattle.core_worked.specs.TwoLives.{freezes_second, two_lives, with_an_edge};

/// In the journal with two lives the first life of node 0, a vertex, goes through all its stages, and so do the lives
/// of its edges, one of which is removed, and one marked by the freezing of its list. So there are no more links than
/// takes, no more marks of edges than links, and no more unlinks of edges than marks.
pub fn worked_lives_go_one_way()
    ensures vertex { GoesOneWay two_lives (first_life 0) }
    ensures edge { GoesOneWay two_lives (first_life 2) }
    ensures closed { about freezes_head (first_life 0) two_lives ≡ 1 }
    ensures back { about pushes (first_life 0) two_lives ≡ 1 }
    ensures cut { cuts (first_life 2) two_lives ≡ 1 }
    ensures frozen { cuts (first_life 3) two_lives ≡ 1 }
    ensures linked { all_made links two_lives ≤ all_made pops two_lives }
    ensures marked { all_made cuts_edge two_lives ≤ all_made links_edge two_lives }
{}

/// In the same journal caller 0 raises once, for an edge that it then marks (`raised`, `over`). So its counted events
/// are at most six for each of five nodes taken, and one for each of two callers and of three nodes taken for no
/// vertex; they are those of both callers, and at most those of both books.
pub fn worked_events_are_few()
    ensures raised { RaisesOnce (take 27 two_lives) (take 28 two_lives) 0 0 (first_life 2 ∷ []) }
    ensures over { RaisesOnce two_lives two_lives 0 0 [] }
    ensures apart { RaisesApart two_lives 0 0 }
    ensures few { all_made counted two_lives ≤ 6 * all_made pops two_lives
        + 2 * (all_made pops two_lives - all_made links_vertex two_lives) + 0 }
    ensures takes { (all_made pops two_lives ≡ 5) × (all_made links_vertex two_lives ≡ 2) }
    ensures sum { all_made counted two_lives ≡ total (λ (i : ℕ). made counted i two_lives) 2 }
    ensures books { all_made counted two_lives
        ≤ sum_by (λ (b : Book). made counted b.caller two_lives) two_books }
{}

/// The graph with an edge has as many keys and pairs as nodes are such. A table with one node, which is linked as a
/// vertex, is all graph: its free list is empty, and no node is free.
pub fn worked_graphs_are_counted()
    ensures counted { (key_count (graph_of with_an_edge) ≡ 2) × (pair_count (graph_of with_an_edge) ≡ 1) }
    ensures kept { IsKept one_node one_vertex }
    ensures empty { NoneFree one_node one_vertex }
    ensures none { (x : ℕ) → x < 1 → (node_in one_node one_vertex x).mode ≢ Free }
    ensures all { IsAllGraph one_node one_vertex }
    ensures full { key_count (graph_of one_vertex) + pair_count (graph_of one_vertex) ≡ 1 }
{}

/// In the journal with two lives the edge of node 3 is handed over to caller 0, which removed its source, by the
/// freezing of the list. Since before its unlink caller 0 got the vertex and that edge, and no other node, also while
/// caller 1 moves the epoch on; the list is frozen to its end then, and the caller has what it had. Caller 1, which has
/// only drawn its number until then, has no pass and no node.
pub fn worked_nodes_become_spent()
    ensures handed { IsHandedOver small (take 43 two_lives) freezes_second 0 3 }
    ensures got { GotOnly small (take 41 two_lives) (take 47 two_lives) 0 None (3 ∷ 0 ∷ []) }
    ensures settled { (y : ℕ) → IsSpentWith small (take 47 two_lives) 0 y
        → IsSpentWith small (take 45 two_lives) 0 y }
    ensures ends { (x : ℕ) → IsSpentVertex small (take 47 two_lives) 0 x → IsFrozenToEnd small (take 47 two_lives) x }
    ensures idle { (made acts 1 (take 45 two_lives) ≡ 0)
        × ((pass_in small (take 45 two_lives) 1).is_open ≡ false) }
    ensures fresh { (x : ℕ) → IsFreshWith small (take 45 two_lives) 1 x → ⊥ }
    ensures spent { (x : ℕ) → IsSpentWith small (take 45 two_lives) 1 x → ⊥ }
{}

/// While caller 1 moves the epoch on, the unmarked vertex of node 1 stays as it is, and clean; and so does the first
/// edge while its pass is closed. The table with one node holds nothing that a sweep would take off, and no caller has
/// more than its vertex; so it's all graph, and its free list is empty.
pub fn worked_tables_are_swept()
    ensures vertex { IsCleanVertex (node_in small (take 46 two_lives) 1) }
    ensures linked { node_in small (take 46 two_lives) 1 ≡ node_in small (take 45 two_lives) 1 }
    ensures edge { IsCleanEdge (state small (take 26 two_lives)) 2 }
    ensures swept { IsSwept one_node one_vertex }
    ensures each { (x : ℕ) → x < 1 → IsOfGraphOr one_node one_vertex 0 x }
    ensures full { key_count (graph_of (take 8 one_vertex)) + pair_count (graph_of (take 8 one_vertex)) ≡ 1 }
    ensures none { NoneFree one_node one_vertex }
{}
