//! The laws of chains and lists at the worked journals: edges that were replaced, closed lists, and what an open pass
//! has met.

ghost use Rattle.std.specs.Prelude.{◌≡◌, ◌≢◌, ℕ, ◌+◌, ◌<◌, ◌^◌, ◌≤◌, Some, [], ◌∷◌, ◌++◌, false, length, take, true};
ghost use Rattle.packed_link.specs.Link.{index_of, mark_of, pack};
ghost use Rattle.packed_link.specs.Layout.{key_at, link_at, second_at, third_at};
ghost use Rattle.packed_link.specs.declared.link.Life.{Life};
ghost use Rattle.core_journal.specs.Event.{links_edge, pops};
ghost use Rattle.core_journal.specs.GraphOf.{present_key};
ghost use Rattle.core_journal.specs.Life.{vertex_marked};
ghost use Rattle.core_journal.specs.Machine.{word_at};
ghost use Rattle.core_journal.specs.State.{Spent, state};
ghost use Rattle.core_journal.specs.Worked.{first_life, small};
ghost use Rattle.core_kept.specs.Counts.{all_made, made};
ghost use Rattle.core_kept.specs.Facts.{HasMet};
ghost use Rattle.core_kept.specs.Nodes.{IsFrozenToEnd, IsLinkedEdge, IsRipe, IsStamped, is_frozen, is_listed, node_in};
ghost use Rattle.core_lists.specs.Chains.{IsEdgeOf, IsInBucket, IsOlder};
ghost use Rattle.core_lists.specs.Raised.{IsLinkedLower};
ghost use Rattle.core_lists.specs.Replacements.{IsReplacedBy, LeadsToItsKey};
ghost use Rattle.core_worked.specs.Replacing.{replacing_journal};
ghost use Rattle.core_worked.specs.TwoLives.{links_new, moves_epoch, two_lives};

/// In the journal with replacements event 33 replaced the edge of node 2 by that of node 3: its link is marked and
/// leads to that node, of the same key (`a_marked_link_tells_whether_its_edge_was_replaced#same_key`, `#word`), which
/// tells that it was replaced by it (`#told`). Of the two edges the replaced one is the older
/// (`one_edge_has_a_pair#unmarked`). It was linked at a lower counter of its source than that of its replacement
/// (`marked_edges_were_linked_at_a_lower_counter#marked`), as of the raise before it (`#raised`), whose source isn't
/// stored (`#unstored`); and that counter never falls (`#rises`). Five edges are linked with seven nodes taken
/// (`few_edges_are_linked#caller`); two of them are two (`#links`, `#all`).
pub fn worked_replaced_edges_are_told()
    ensures same_key { LeadsToItsKey small (take 35 replacing_journal) 2 }
    ensures told { IsReplacedBy (take 35 replacing_journal) (first_life 2) (first_life 3) }
    ensures word { (index_of (word_at small (take 35 replacing_journal) (link_at small 2)) ≡ 3)
        × (mark_of (word_at small (take 35 replacing_journal) (link_at small 2)) ≡ 1) }
    ensures older { IsOlder small (take 35 replacing_journal) (first_life 2) (first_life 3) }
    ensures lower { IsLinkedLower small replacing_journal 33 (links_new 2 5) }
    ensures raised { IsLinkedLower small (take 33 replacing_journal) 33 (links_new 2 5) }
    ensures unstored { (node_in small (take 33 replacing_journal) 0).stored ≡ false }
    ensures rises { word_at small (take 26 replacing_journal) (third_at small 0)
        ≤ word_at small (take 35 replacing_journal) (third_at small 0) }
    ensures caller { made links_edge 0 replacing_journal ≤ made pops 0 replacing_journal }
    ensures all { length {A = Life} (first_life 2 ∷ first_life 3 ∷ []) ≤ 2 ^ 36 }
    ensures links { length {A = Life} (first_life 2 ∷ first_life 3 ∷ []) ≤ all_made links_edge replacing_journal }
{}

/// In the journal with two lives the list of node 0 is closed at its head, stays so while its edge is frozen (`head` of
/// `closed_lists_stay`), is then frozen to its end, and stays so while caller 1 moves the epoch on (`end`); its edge,
/// node 3, stays in the frozen part (`part`), stood on that list before (`old`), and stands on no list that isn't
/// frozen to its end (`ends`). It is spent by the caller who spent the vertex (`frozen_parts_are_handed_over#who`).
/// Before that the edge is linked (`a_present_edge_is_on_its_list`), the vertex is on the chain of its bucket
/// (`a_present_vertex_is_on_its_chain`), and its link tells that it's present, and later that it isn't
/// (`a_link_tells_whether_a_vertex_is_present`).
pub fn worked_lists_are_closed()
    ensures head { (state small (take 44 two_lives)).frozen 0 ≡ true }
    ensures end { IsFrozenToEnd small (take 47 two_lives) 0 }
    ensures part { is_frozen (state small (take 47 two_lives)) 0 3 ≡ true }
    ensures old { is_listed (state small (take 38 two_lives)) 0 3 ≡ true }
    ensures ends { (x : ℕ) → x < 8 → is_listed (state small (take 47 two_lives)) x 3 ≡ true
        → IsFrozenToEnd small (take 47 two_lives) x }
    ensures who { ((node_in small (take 44 two_lives) 3).mode ≡ Spent)
        × ((node_in small (take 44 two_lives) 3).who ≡ 0) }
    ensures on_chain { IsInBucket small (take 40 two_lives) 0 (first_life 0) }
    ensures present { present_key (take 40 two_lives) (first_life 0) ≡ Some 1 }
    ensures removed { vertex_marked (take 42 two_lives) (first_life 0) ≡ true }
    ensures edge_linked { IsLinkedEdge small (take 38 two_lives) 3 }
    ensures edge_of { IsEdgeOf (take 38 two_lives) (first_life 0) (first_life 3) }
{}

/// While the source of its edge is removed in the pass of events 39 to 44, caller 0 has met node 3, also once that is
/// spent, in the same life, with its key, target, weight and source, and not stored (`what_is_met_keeps_its_words`);
/// the marked link of node 0 stays (`#link`). Node 2, spent in epoch 0, has the stamp 0, keeps it while caller 1 moves
/// the epoch on, is ripe in epoch 2, and stays both while node 3 is stored for the free list
/// (`spent_nodes_become_ripe#stamp`, `#stamp_beyond`, `#ripens`, `#stamp_behind`, `#ripe_behind`), and stays ripe while
/// caller 1 moves the epoch on once more (`#ripe_beyond`).
pub fn worked_met_nodes_keep_their_words()
    ensures met { HasMet small (take 44 two_lives) 0 3 }
    ensures life { (node_in small (take 44 two_lives) 3).tag ≡ 1 }
    ensures key { word_at small (take 44 two_lives) (key_at small 3) ≡ 2 }
    ensures target { word_at small (take 44 two_lives) (second_at small 3) ≡ pack 1 0 1 }
    ensures weight { word_at small (take 44 two_lives) (third_at small 3) ≡ 6 }
    ensures source { (node_in small (take 44 two_lives) 3).source ≡ first_life 0 }
    ensures unstored { (node_in small (take 44 two_lives) 3).stored ≡ false }
    ensures link { word_at small (take 44 two_lives) (link_at small 0) ≡ pack 1 1 1 }
    ensures stamp { IsStamped small (take 45 two_lives) 0 2 0 }
    ensures beyond { IsStamped small (take 47 two_lives) 0 2 0 }
    ensures ripens { IsRipe small (take 47 two_lives) 0 2 }
    ensures stamp_behind { IsStamped small (take 48 two_lives) 0 2 0 }
    ensures ripe_beyond { IsRipe small (take 47 two_lives ++ moves_epoch 3 ∷ []) 0 2 }
    ensures ripe_behind { IsRipe small (take 48 two_lives) 0 2 }
{}
