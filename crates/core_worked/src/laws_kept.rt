//! The laws of kept journals at the worked ones: what is a caller's own, what is linked, and what the words tell.

ghost use Rattle.std.specs.Prelude.{◌≡◌, ◌≢◌, ℕ, ◌+◌, ◌<◌, ◌≤◌, None, Some, take};
ghost use Rattle.packed_link.specs.Link.{mark_of, pack, tag_of};
ghost use Rattle.packed_link.specs.Layout.{epoch_at, link_at, second_at};
ghost use Rattle.core_epoch.specs.Clock.{IsClear};
ghost use Rattle.core_journal.specs.Changes.{IsFrozenEdge, IsNewEdge, IsNewVertex, IsReplacing};
ghost use Rattle.core_journal.specs.Event.{pops};
ghost use Rattle.core_journal.specs.Life.{key_of};
ghost use Rattle.core_journal.specs.Machine.{word_at};
ghost use Rattle.core_journal.specs.Reuse.{pass_in};
ghost use Rattle.core_journal.specs.State.{Free, Linked, state};
ghost use Rattle.core_journal.specs.TwoCallers.{callers_journal};
ghost use Rattle.core_journal.specs.Worked.{first_life, small};
ghost use Rattle.core_kept.specs.Counts.{made};
ghost use Rattle.core_kept.specs.Facts.{HasMet, IsHeld, IsKeptSpent};
ghost use Rattle.core_kept.specs.Moments.{clock_in};
ghost use Rattle.core_kept.specs.Nodes.{IsFreshWith, node_in};
ghost use Rattle.core_worked.specs.Refused.{event_of};
ghost use Rattle.core_worked.specs.Replacing.{replaces_by, replacing_journal};
ghost use Rattle.core_worked.specs.TwoLives.{freezes_second, links_new, two_lives};

/// What is a caller's own stays while others act. In the journal of two callers at once caller 1 marks a vertex, event
/// 22, while caller 0 has a pass and fills node 2 (`own_facts_stay#pass`, `#fresh`). In the journal with two lives
/// caller 1 moves the epoch on twice: caller 0 holds no fresh node then (`#none_fresh`), has taken four
/// (`own_events_are_counted`), and its spent node 3 stays (`spent_nodes_stay_with_their_caller`). Caller 1 has drawn
/// its number, as its event 45 shows (`callers_have_numbers`). At the end the spent node 2 is ripe: the open pass of
/// caller 0 hasn't met it (`ripe_nodes_are_not_met`), since it began behind its end
/// (`ripe_nodes_ended_before_passes#ripe`); and caller 1, whose announcement is 0, is clear of epoch 0
/// (`passes_are_near_the_epoch#checked`).
pub fn worked_own_facts_stay()
    ensures pass { pass_in small (take 23 callers_journal) 0 ≡ pass_in small (take 22 callers_journal) 0 }
    ensures fresh { IsHeld small (take 22 callers_journal) (take 23 callers_journal) 2 }
    ensures none_fresh { (x : ℕ) → x < 8 → IsFreshWith small (take 47 two_lives) 0 x → ⊥ }
    ensures four { made pops 0 (take 47 two_lives) ≡ 4 }
    ensures spent { IsKeptSpent small (take 45 two_lives) (take 47 two_lives) 3 }
    ensures drawn { 1 < (state small two_lives).drawn }
    ensures not_met { HasMet small two_lives 0 2 → ⊥ }
    ensures ended { (node_in small two_lives 2).ended ≤ (pass_in small two_lives 0).since }
    ensures clear { IsClear (word_at small (take 2 two_lives) (epoch_at small)) 1 (clock_in small (take 45 two_lives)) }
{}

/// What is linked, and what words tell. The ends of the edge of event 24 were linked before it
/// (`edges_have_ends#before`); a vertex, an edge and one that replaces another are new, and the source of an edge that
/// is frozen is marked (`links_are_new`). The node that event 52 takes was free, with its first life behind it
/// (`free_list_is_exact#free`, `#next_life`), and its link is the one that was seen since the free list's word is the
/// same (`#again`). Node 3, whose link is unmarked, is linked, and the link of the spent node 0 has its life and its
/// mark (`links_tell_states#linked`, `#life`); that link stays once it's marked, and so does a closed head
/// (`marked_words_stay`). The epoch only rises (`first_words_count#epoch_rises`).
pub fn worked_words_tell_the_state()
    ensures ends { (key_of (take 24 two_lives) (first_life 0) ≢ None)
        × (key_of (take 24 two_lives) (first_life 1) ≡ Some 2) }
    ensures new_vertex { IsNewVertex (take 16 two_lives) (event_of 16) }
    ensures new_edge { IsNewEdge (take 24 two_lives) (links_new 2 5) }
    ensures replacing { IsReplacing (take 33 replacing_journal) (replaces_by 2 3 6) }
    ensures frozen { IsFrozenEdge (take 43 two_lives) freezes_second }
    ensures free { (node_in small (take 52 two_lives) 0).mode ≡ Free }
    ensures next_life { (node_in small (take 52 two_lives) 0).tag + 1 ≡ 2 }
    ensures again { word_at small (take 52 two_lives) (link_at small 0) ≡ pack 3 1 1 }
    ensures linked { (node_in small (take 38 two_lives) 3).mode ≡ Linked }
    ensures life { (tag_of (word_at small (take 44 two_lives) (link_at small 0)) ≡ 1)
        × (mark_of (word_at small (take 44 two_lives) (link_at small 0)) ≡ 1) }
    ensures link { word_at small (take 44 two_lives) (link_at small 0) ≡ pack 1 1 1 }
    ensures head { word_at small (take 47 two_lives) (second_at small 0) ≡ pack 3 1 1 }
    ensures rises { word_at small (take 45 two_lives) (epoch_at small)
        ≤ word_at small (take 47 two_lives) (epoch_at small) }
{}
