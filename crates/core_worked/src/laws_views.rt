//! The laws of views and moments at steps of the worked journal with all kinds of events: their premises are met
//! there.

ghost use Rattle.std.specs.Prelude.{◌≡◌, ℕ, ◌+◌, ◌^◌, ◌<◌, ◌≤◌, false, true, [], ◌∷◌, None, Some, length, take};
ghost use Rattle.packed_link.specs.Link.{mark_of, pack, tag_of};
ghost use Rattle.packed_link.specs.Layout.{bucket_at, epoch_at, free_at, key_at, link_at, number_at, second_at};
ghost use Rattle.core_journal.specs.declared.event.Event.{Event};
ghost use Rattle.core_journal.specs.GraphOf.{changes};
ghost use Rattle.core_journal.specs.Life.{link_of, vertex_marked};
ghost use Rattle.core_journal.specs.Machine.{word_at};
ghost use Rattle.core_journal.specs.Reuse.{pass_in};
ghost use Rattle.core_journal.specs.State.{Linked, state};
ghost use Rattle.core_journal.specs.Worked.{first_life, small};
ghost use Rattle.core_kept.specs.Facts.{IsHeld, IsKeptSpent};
ghost use Rattle.core_kept.specs.Nodes.{is_listed, node_in};
ghost use Rattle.core_rule.specs.Fronts.{MayUnlinkVertex, MetVertex};
ghost use Rattle.core_rule.specs.Plays.{Looked};
ghost use Rattle.core_rule.specs.Retired.{IsRetired};
ghost use Rattle.core_rule.specs.Rule.{Ruled};
ghost use Rattle.core_rule.specs.Stretches.{Elsewhere, IsHeldBut, IsTargetShown, Own, spent_since};
ghost use Rattle.core_rule.specs.Views.{GoesOn, moved_on};
ghost use Rattle.core_worked.specs.KnownSteps.{view_at};
ghost use Rattle.core_worked.specs.LawSteps.{closing_table, view_behind, view_drawing};
ghost use Rattle.core_worked.specs.TwoLives.{freezes_second, two_lives};

/// Laws of moments: the vertex of node 0 is unmarked before event 40, and so before event 30 (core_journal's
/// `marks_and_links_stay`); the pass that begins with event 39 is one between its events (`a_pass_is_one_stretch`);
/// the word of the bucket is unmarked (`the_word_of_a_bucket_is_unmarked`); the edge that event 28 marks was linked
/// (`a_marked_edge_was_linked`); the edge of node 3 stands on the list of node 0 with its key, and is linked
/// (`lists_hold_their_edges`).
pub fn laws_of_moments_meet_a_worked_journal()
    ensures unmarked { vertex_marked (take 30 two_lives) (first_life 0) ≡ false }
    ensures pass { pass_in small (take 42 two_lives) 0 ≡ pass_in small (take 40 two_lives) 0 }
    ensures bucket { mark_of (word_at small two_lives (bucket_at small 0)) ≡ 0 }
    ensures cut { (link : Event) × (link_of (take 28 two_lives) (first_life 2) ≡ Some link) }
    ensures key { word_at small (take 38 two_lives) (key_at small 3) ≡ 2 }
    ensures listed_linked { (node_in small (take 38 two_lives) 3).mode ≡ Linked }
{}

/// Laws of views. The unlink of event 41 is the one own event from the view before it to the one behind it, and
/// elsewhere than at the link of node 1 (`own_events_add_up`); the pass goes on to a moment between
/// (`a_view_goes_on_between`); what was met and what may be unlinked is so of the view with the right to draw
/// (`facts_of_a_front_are_alike`, `conditions_of_a_front_are_alike`); the numbers that were loaded are low
/// (`loaded_numbers_are_low`); and one more node is spent (`own_spent_nodes_are_a_measure`).
pub fn laws_of_stretches_meet_a_worked_journal()
    ensures own { Own (Elsewhere (link_at small 1)) (view_at 0 41) (view_behind 41) }
    ensures between { GoesOn (view_at 0 41) (moved_on (view_at 0 41) (take 42 two_lives) 41) }
    ensures met { MetVertex (view_drawing 41) (first_life 0) }
    ensures may { MayUnlinkVertex (view_drawing 41) (bucket_at small 0) (pack 0 0 0) 1 (first_life 0) }
    ensures tag { tag_of (word_at small (take 48 two_lives) (free_at small)) ≤ 2 ^ 37 }
    ensures epoch { word_at small (take 46 two_lives) (epoch_at small) ≤ 2 ^ 38 }
    ensures life { (first_life 0).tag < 2 ^ 39 }
    ensures spent { spent_since (view_at 0 41) + 1 ≤ spent_since (view_behind 41) }
{}

/// Laws of words: behind the store to the link of the fresh node 3 its other words stay, a load leaves them all, and
/// the freezing of event 43 leaves the key and the link of the spent node 2 (`own_words_stay_by_kind`); the closed
/// head of node 0 tells that the vertex is marked, the second word of node 3 tells its target, and is the same when
/// the edge is handed over (`second_words_tell`).
pub fn laws_of_words_meet_a_worked_journal()
    ensures stored { IsHeldBut small (take 34 two_lives) (take 35 two_lives) 3 (link_at small 3) }
    ensures fresh { IsHeld small (take 34 two_lives) (take 34 two_lives) 3 }
    ensures spent { IsKeptSpent small (take 43 two_lives) (take 44 two_lives) 2 }
    ensures head { vertex_marked (take 43 two_lives) (first_life 0) ≡ true }
    ensures target { IsTargetShown (view_at 0 41) (first_life 3) }
    ensures later { word_at small (take 44 two_lives) (second_at small 3)
        ≡ word_at small (take 41 two_lives) (second_at small 3) }
{}

/// Laws of freezing and of the end: the path over the one edge meets the list of node 0
/// (`a_frozen_path_meets_the_list`); the freezing leaves the graph (`a_freezing_leaves_the_graph`); the edge behind
/// the closed head stays on the list (`an_edge_behind_a_frozen_word_stays`); the retired node 3 is one behind the
/// store of its link (`retired_nodes_stay`); and there's room for one more beside the spent nodes 2 and 3
/// (`a_limbo_has_room`). A token with the right to draw finds its count in the word of numbers (`Looked`). A table
/// whose last token answers for both callers meets the rule, though no token may draw, and its journal is that
/// token's front (`a_token_of_all_callers_knows_the_journal`).
pub fn laws_of_removal_meet_a_worked_journal()
    ensures path { (state small (take 44 two_lives)).edges 0 ≡ 3 ∷ [] }
    ensures leaves { changes (take 43 two_lives) freezes_second ≡ false }
    ensures behind { is_listed (state small (take 43 two_lives)) 0 3 ≡ true }
    ensures retired { IsRetired None (view_behind 47) (first_life 3) 2 }
    ensures room { length {A = ℕ} (2 ∷ 3 ∷ []) + 1 ≤ small.nodes }
    ensures count { Looked (view_drawing 52) (number_at small) 2 (view_drawing 52) }
    ensures ruled { Ruled small closing_table }
    ensures closing { (rule : Ruled small closing_table) → rule.journal ≡ two_lives }
{}
