//! The laws of what other callers change, and of what they and own unlinks leave: each has a step here that meets its
//! premises.

ghost use Rattle.std.specs.Prelude.{◌≡◌, ℕ, ◌+◌, ◌≤◌, false, true, [], ◌∷◌, drop, length, take};
ghost use Rattle.packed_link.specs.Layout.{bucket_at, free_at};
ghost use Rattle.core_journal.specs.Foreign.{foreign};
ghost use Rattle.core_journal.specs.TwoCallers.{callers_journal};
ghost use Rattle.core_journal.specs.Worked.{small};
ghost use Rattle.core_kept.specs.Facts.{HasMet};
ghost use Rattle.core_kept.specs.Nodes.{is_listed};
ghost use Rattle.core_journal.specs.State.{state};
ghost use Rattle.core_lists.specs.Chains.{HasList};
ghost use Rattle.core_lists.specs.Changed.{IsChangedByAnother};
ghost use Rattle.core_lists.specs.Uncounted.{AreUncounted, StaysButUnlinked, unlinked_by};
ghost use Rattle.core_worked.specs.Replacing.{replacing_journal};
ghost use Rattle.core_worked.specs.TwoLives.{two_lives};

/// What caller 1 sees change in the journal with two lives, in which it makes no event between its draw and event 45
/// (`a_changed_word_was_changed_by_another`): the word of the free list, as caller 0 takes node 3 (`free`), and the
/// word of the bucket, as caller 0 links its first vertex and later unlinks it (`bucket`, `bucket_again`); each is a
/// foreign event (`counts`). In the journal of two callers at once caller 0 has met node 1 before caller 1 marks it,
/// and has met it between that mark and the unlink (`met`).
pub fn worked_words_are_changed_by_another()
    ensures free { IsChangedByAnother (take 31 two_lives) (take 33 two_lives) 1 (free_at small) }
    ensures bucket { IsChangedByAnother (take 8 two_lives) (take 9 two_lives) 1 (bucket_at small 0) }
    ensures bucket_again { IsChangedByAnother (take 40 two_lives) (take 42 two_lives) 1 (bucket_at small 0) }
    ensures counts { 1 ≤ foreign (take 33 two_lives) 1 31 33 }
    ensures met { HasMet small (take 23 callers_journal) 0 1 }
{}

/// What stays. While caller 1 moves the epoch on twice, no foreign event meets caller 0, and so only uncounted ones
/// were made (`uncounted_events_change_no_list#quiet`). While caller 1 unlinks its vertex and caller 0 fills its node,
/// all but that vertex stays (`own_unlinks_take_away_no_more#stays`); and so does all but three edges while caller 0
/// unlinks an edge, with the two that it had replaced, from the front of their list: the list is empty then, and is one
/// still (`#lists`).
pub fn worked_unlinks_take_away_no_more()
    ensures quiet { AreUncounted (drop 45 (take 47 two_lives)) }
    ensures vertex { StaysButUnlinked small (take 24 callers_journal) (drop 24 (take 26 callers_journal)) 1 }
    ensures edges { StaysButUnlinked small (take 47 replacing_journal) (drop 47 (take 51 replacing_journal)) 0 }
    ensures three { (state small (take 47 replacing_journal)).edges 0 ≡ 2 ∷ 3 ∷ 4 ∷ [] }
    ensures none { (state small (take 51 replacing_journal)).edges 0 ≡ [] }
    ensures taken { unlinked_by (drop 47 (take 51 replacing_journal)) 3 ≡ true }
    ensures off { is_listed (state small (take 51 replacing_journal)) 0 3 ≡ false }
    ensures list { HasList small (take 51 replacing_journal) 0 }
{}
