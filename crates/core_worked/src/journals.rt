//! Worked journals that are kept, and events that are refused behind them.

ghost use Rattle.std.specs.Prelude.{◌≡◌, ◌≢◌, ℕ, [], ◌∷◌, Contains, map};
ghost use Rattle.graph_kinds.specs.History.{Every};
ghost use Rattle.packed_link.specs.Layout.{IsLayout};
ghost use Rattle.core_journal.specs.declared.event.Event.{Event};
ghost use Rattle.core_journal.specs.declared.event.Kind.{Kind};
ghost use Rattle.core_journal.specs.declared.event.Kind.TheVariants.{ReplaceEdge};
ghost use Rattle.core_journal.specs.GraphOf.{graph_of};
ghost use Rattle.core_journal.specs.FirstVertex.{eight_events, tiny};
ghost use Rattle.core_journal.specs.Machine.{machine};
ghost use Rattle.core_journal.specs.Reuse.{ReusesSafely};
ghost use Rattle.core_journal.specs.State.{state};
ghost use Rattle.core_journal.specs.TwoCallers.{callers_journal, takes};
ghost use Rattle.core_journal.specs.Worked.{small};
ghost use Rattle.core_worked.specs.Beside.{beside_others};
ghost use Rattle.core_kept.specs.Kept.{IsKept};
ghost use Rattle.core_kept.specs.Nodes.{node_in};
ghost use Rattle.core_worked.specs.Refused.{IsRefusedBehind, closed, early, edgeless, event_of};
ghost use Rattle.core_worked.specs.Refused.{holding, inside, lagging};
ghost use Rattle.core_worked.specs.Refused.{made_in_a_pass, moves_own, outside, unclosed, unraised};
ghost use Rattle.core_worked.specs.Refused.{raises_again, unmet, unmet_list, unmet_source, unmet_target};
ghost use Rattle.core_kept.specs.Standings.{FreshWith, OnChain, OnFreeList, SpentBy, StandsAs};
ghost use Rattle.core_worked.specs.TwoLives.{two_lives, with_an_edge, without_edge, with_other, without_source};
ghost use Rattle.core_worked.specs.TwoLives.{key_two, links_new, lives_words, marks_first, moves_epoch, raises_source};
ghost use Rattle.core_worked.specs.TwoLives.{stores_link, two_keys};

/// The worked journal of eight events, in which one caller adds a vertex to a new table, is kept.
pub fn a_vertex_is_added()
    ensures { IsKept tiny eight_events }
{}

/// A worked journal of 53 events, in which each of the eighteen kinds stands but the replacing of an edge, is kept. An
/// edge is added, removed, added again with another node, and gone with its source: then its node is spent by the
/// caller who removed that source. At the end one node is in its second life, one is linked, one is spent and one is
/// free again, and the reuse was safe.
pub fn a_node_has_two_lives()
    ensures sizes { IsLayout small }
    ensures kept { IsKept small two_lives }
    ensures each_kind { (k : Kind) → k ≢ ReplaceEdge → Contains (map (λ (e : Event). e.kind) two_lives) k }
    ensures added { graph_of with_an_edge ≡ two_keys (((1, 2), 5) ∷ []) }
    ensures removed { graph_of without_edge ≡ two_keys [] }
    ensures added_again { graph_of with_other ≡ two_keys (((1, 2), 6) ∷ []) }
    ensures gone { graph_of two_lives ≡ key_two }
    ensures handed { StandsAs small without_source 3 (SpentBy 0) }
    ensures fresh { StandsAs small two_lives 0 (FreshWith 0) }
    ensures linked { StandsAs small two_lives 1 OnChain }
    ensures spent { StandsAs small two_lives 2 (SpentBy 0) }
    ensures freed { StandsAs small two_lives 3 OnFreeList }
    ensures second { (node_in small two_lives 0).tag ≡ 2 }
    ensures free_list { (state small two_lives).free ≡ 3 ∷ 4 ∷ 5 ∷ 6 ∷ 7 ∷ [] }
    ensures words { machine small two_lives ≡ lives_words }
    ensures reuse { ReusesSafely small two_lives }
{}

/// The worked journal of two callers at once is kept: one links an edge to a vertex that the other removes meanwhile.
pub fn an_overtaken_edge_is_linked()
    ensures { IsKept small callers_journal }
{}

/// A worked journal is kept in which nodes are linked in front of others and behind others, an edge is unlinked behind
/// another one, and a list of two edges is closed edge by edge.
pub fn nodes_are_linked_beside_others()
    ensures { IsKept small beside_others }
{}

/// Events that are refused behind kept journals, each for one part of its condition. A second node is taken while one
/// is held; a vertex or an edge is linked, marked or unlinked, or a counter raised, outside a pass; the epoch is moved
/// on by a caller with a pass; a counter is raised where there is no edge; an edge is marked without a raise; an edge
/// is linked into a closed list; a counter is raised, and an edge is linked from a vertex, to a vertex, and unlinked
/// from its list, where that vertex was removed before the pass began; the epoch is moved on past an open pass; a node
/// is stored for the free list one epoch too early; and so is one whose list isn't closed.
pub fn wrong_events_are_refused()
    ensures greedy { IsRefusedBehind small holding (takes 0 1 2) }
    ensures outside { Every (λ (n : ℕ). IsRefusedBehind small (outside n) (event_of n)) made_in_a_pass }
    ensures inside { IsRefusedBehind small inside moves_own }
    ensures edgeless { IsRefusedBehind small edgeless raises_source }
    ensures unraised { IsRefusedBehind small unraised marks_first }
    ensures late { IsRefusedBehind small closed (links_new 3 6) }
    ensures unmet { IsRefusedBehind small unmet raises_again }
    ensures unmet_source { IsRefusedBehind small unmet_source (links_new 3 6) }
    ensures unmet_target { IsRefusedBehind small unmet_target (links_new 2 5) }
    ensures unmet_list { IsRefusedBehind small unmet_list (event_of 29) }
    ensures hurried { IsRefusedBehind small lagging (moves_epoch 2) }
    ensures early { IsRefusedBehind small early (stores_link 3 4) }
    ensures unclosed { IsRefusedBehind small unclosed (stores_link 0 4) }
{}
