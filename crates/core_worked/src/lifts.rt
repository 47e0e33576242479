//! Steps of tokens on the worked journals: each condition over a front is met, and each step makes an event of a
//! journal.

ghost use Rattle.packed_link.specs.Link.{pack, nowhere};
ghost use Rattle.packed_link.specs.Layout.{bucket_at, link_at, second_at};
ghost use Rattle.core_journal.specs.TwoCallers.{callers_journal};
ghost use Rattle.core_journal.specs.Worked.{small, first_life};
ghost use Rattle.core_rule.specs.Fronts.{MayAnnounce, MayFreezeEdge, MayFreezeHead, MayLinkEdge, MayLinkVertex};
ghost use Rattle.core_rule.specs.Fronts.{MayMarkEdge, MayMarkVertex, MayReplaceEdge};
ghost use Rattle.core_rule.specs.Fronts.{MayMoveEpoch, MayPopFree, MayPushFree, MayRaise, MayStoreFree};
ghost use Rattle.core_rule.specs.Fronts.{MayStorePrivate};
ghost use Rattle.core_rule.specs.Fronts.{MayUnlinkEdge, MayUnlinkVertex, MayWithdraw};
ghost use Rattle.core_worked.specs.Beside.{beside_others};
ghost use Rattle.core_worked.specs.KnownSteps.{MakesNext, view_among, view_at, view_beside, view_replacing};
ghost use Rattle.core_rule.specs.OwnEvents.{announce_event, freeze_edge_event, freeze_head_event, link_edge_event};
ghost use Rattle.core_rule.specs.OwnEvents.{link_vertex_event, store_free_event};
ghost use Rattle.core_rule.specs.OwnEvents.{mark_edge_event, mark_vertex_event, move_event, pop_event, push_event};
ghost use Rattle.core_rule.specs.OwnEvents.{raise_event, replace_event, store_event, unlink_edge_event};
ghost use Rattle.core_rule.specs.OwnEvents.{unlink_vertex_event};
ghost use Rattle.core_rule.specs.OwnEvents.{withdraw_event};
ghost use Rattle.core_worked.specs.Replacing.{replacing_journal};
ghost use Rattle.core_worked.specs.TwoLives.{two_lives};

/// None of these conditions is empty: for each there is an event of a worked journal (`two_lives` of
/// `specs/TwoLives.antt`, and `replacing_journal` of `specs/Replacing.antt` where an edge is replaced) before which a
/// token met it by its front, and the token's step makes just that event of the word that it finds. The front is the
/// whole journal before the event, but where the epoch is moved: caller 1 looked at it and at the announcements, then
/// caller 0 made 43 events, and behind these caller 1 moves the epoch on.
pub fn a_token_may_make_each_step()
    ensures pop { MayPopFree (view_at 0 52) (pack 0 0 6) (pack 3 1 1)
        × MakesNext two_lives (view_at 0 52) 52 (pack 0 0 6) (pop_event (view_at 0 52) (pack 0 0 6) (pack 3 1 1)) }
    ensures store { MayStorePrivate (view_at 0 34) (first_life 3) 1 (pack nowhere 0 1)
        × MakesNext two_lives (view_at 0 34) 34 (pack 4 1 0)
        (store_event (view_at 0 34) (first_life 3) 1 (pack nowhere 0 1)) }
    ensures link_vertex { MayLinkVertex (view_at 0 16) (link_at small 0) (pack nowhere 0 1) 2 (first_life 1)
        × MakesNext two_lives (view_at 0 16) 16 (pack nowhere 0 1)
        (link_vertex_event (view_at 0 16) (link_at small 0) (pack nowhere 0 1) 2 (first_life 1)) }
    ensures mark_vertex { MayMarkVertex (view_at 0 40) (first_life 0)
        × MakesNext two_lives (view_at 0 40) 40 (pack 1 0 1)
        (mark_vertex_event (view_at 0 40) (first_life 0) (pack 1 0 1)) }
    ensures unlink_vertex { MayUnlinkVertex (view_at 0 41) (bucket_at small 0) (pack 0 0 0) 1 (first_life 0)
        × MakesNext two_lives (view_at 0 41) 41 (pack 0 0 0)
        (unlink_vertex_event (view_at 0 41) (bucket_at small 0) (pack 0 0 0) 1 (first_life 0)) }
    ensures link_edge { MayLinkEdge (view_at 0 37) (second_at small 0) (pack nowhere 0 1) 2 (first_life 0)
        (first_life 1) 6 (first_life 3)
        × MakesNext two_lives (view_at 0 37) 37 (pack nowhere 0 1)
        (link_edge_event (view_at 0 37) (second_at small 0) (pack nowhere 0 1) 2 (first_life 0) (first_life 1) 6
        (first_life 3)) }
    ensures raise { MayRaise (view_at 0 27) (first_life 0)
        × MakesNext two_lives (view_at 0 27) 27 0 (raise_event (view_at 0 27) (first_life 0) 0) }
    ensures mark_edge { MayMarkEdge (view_at 0 28) (first_life 0) (first_life 2)
        × MakesNext two_lives (view_at 0 28) 28 (pack nowhere 0 1)
        (mark_edge_event (view_at 0 28) (first_life 2) (pack nowhere 0 1)) }
    ensures replace_edge { MayReplaceEdge (view_replacing 0 33) (pack nowhere 0 1) 2 (first_life 0) (first_life 1) 6
        (first_life 2) (first_life 3)
        × MakesNext replacing_journal (view_replacing 0 33) 33 (pack nowhere 0 1)
        (replace_event (view_replacing 0 33) (pack nowhere 0 1) 2 (first_life 0) (first_life 1) 6 (first_life 2)
        (first_life 3)) }
    ensures unlink_edge { MayUnlinkEdge (view_at 0 29) (second_at small 0) (pack 2 0 1) nowhere (first_life 0)
        (first_life 2)
        × MakesNext two_lives (view_at 0 29) 29 (pack 2 0 1)
        (unlink_edge_event (view_at 0 29) (second_at small 0) (pack 2 0 1) nowhere (first_life 2)) }
    ensures announce { MayAnnounce (view_at 0 51) 2
        × MakesNext two_lives (view_at 0 51) 51 0 (announce_event (view_at 0 51) 2) }
    ensures withdraw { MayWithdraw (view_at 0 44)
        × MakesNext two_lives (view_at 0 44) 44 1 (withdraw_event (view_at 0 44)) }
    ensures move_on { MayMoveEpoch (view_at 1 2) 0
        × MakesNext two_lives (view_at 1 2) 45 0 (move_event (view_at 1 2) 0) }
    ensures freeze_head { MayFreezeHead (view_at 0 42) (first_life 0)
        × MakesNext two_lives (view_at 0 42) 42 (pack 3 0 1)
        (freeze_head_event (view_at 0 42) (first_life 0) (pack 3 0 1)) }
    ensures freeze_edge { MayFreezeEdge (view_at 0 43) (first_life 0) (second_at small 0) (first_life 3)
        × MakesNext two_lives (view_at 0 43) 43 (pack nowhere 0 1)
        (freeze_edge_event (view_at 0 43) (first_life 3) (pack nowhere 0 1)) }
    ensures store_edge { MayStoreFree (view_at 0 47) 4 (first_life 3)
        × MakesNext two_lives (view_at 0 47) 47 (pack nowhere 1 1) (store_free_event (view_at 0 47) 4 (first_life 3)) }
    ensures store_vertex { MayStoreFree (view_at 0 49) 3 (first_life 0)
        × MakesNext two_lives (view_at 0 49) 49 (pack 1 1 1) (store_free_event (view_at 0 49) 3 (first_life 0)) }
    ensures push { MayPushFree (view_at 0 50) (pack 3 0 5) (first_life 0)
        × MakesNext two_lives (view_at 0 50) 50 (pack 3 0 5) (push_event (view_at 0 50) (pack 3 0 5) (first_life 0)) }
{}

/// A front may lag behind the journal: on the worked journal of two callers at once (`callers_journal` of core_journal)
/// events of the other caller stand between the front and each of these steps. Caller 1 marks a vertex, unlinks it from
/// the link of another one, and closes its list; caller 0 links an edge to it, which is spent by then, and which its
/// pass has met.
pub fn a_token_may_lag_behind()
    ensures mark_vertex { MayMarkVertex (view_among 1 20) (first_life 1)
        × MakesNext callers_journal (view_among 1 20) 22 (pack nowhere 0 1)
        (mark_vertex_event (view_among 1 20) (first_life 1) (pack nowhere 0 1)) }
    ensures unlink_vertex { MayUnlinkVertex (view_among 1 23) (link_at small 0) (pack 1 0 1) nowhere (first_life 1)
        × MakesNext callers_journal (view_among 1 23) 24 (pack 1 0 1)
        (unlink_vertex_event (view_among 1 23) (link_at small 0) (pack 1 0 1) nowhere (first_life 1)) }
    ensures freeze_head { MayFreezeHead (view_among 1 25) (first_life 1)
        × MakesNext callers_journal (view_among 1 25) 26 (pack nowhere 0 1)
        (freeze_head_event (view_among 1 25) (first_life 1) (pack nowhere 0 1)) }
    ensures link_edge { MayLinkEdge (view_among 0 28) (second_at small 0) (pack nowhere 0 1) 2 (first_life 0)
        (first_life 1) 5 (first_life 2)
        × MakesNext callers_journal (view_among 0 28) 29 (pack nowhere 0 1)
        (link_edge_event (view_among 0 28) (second_at small 0) (pack nowhere 0 1) 2 (first_life 0) (first_life 1) 5
        (first_life 2)) }
{}

/// Steps in front of others and behind others (`specs/Beside.antt`): a vertex and an edge are linked where the word
/// leads to one of a greater key, an edge is linked and one unlinked at the link of one of a smaller key, and an edge
/// is frozen behind a frozen one.
pub fn a_token_may_step_beside_others()
    ensures vertex_before { MayLinkVertex (view_beside 0 32) (bucket_at small 0) (pack 0 0 0) 0 (first_life 3)
        × MakesNext beside_others (view_beside 0 32) 32 (pack 0 0 0)
        (link_vertex_event (view_beside 0 32) (bucket_at small 0) (pack 0 0 0) 0 (first_life 3)) }
    ensures edge_before { MayLinkEdge (view_beside 0 40) (second_at small 0) (pack 2 0 1) 0 (first_life 0)
        (first_life 3) 7 (first_life 4)
        × MakesNext beside_others (view_beside 0 40) 40 (pack 2 0 1)
        (link_edge_event (view_beside 0 40) (second_at small 0) (pack 2 0 1) 0 (first_life 0) (first_life 3) 7
        (first_life 4)) }
    ensures unlink_behind { MayUnlinkEdge (view_beside 0 45) (link_at small 4) (pack 2 0 1) nowhere (first_life 0)
        (first_life 2)
        × MakesNext beside_others (view_beside 0 45) 45 (pack 2 0 1)
        (unlink_edge_event (view_beside 0 45) (link_at small 4) (pack 2 0 1) nowhere (first_life 2)) }
    ensures edge_behind { MayLinkEdge (view_beside 0 53) (link_at small 4) (pack nowhere 0 1) 2 (first_life 0)
        (first_life 1) 6 (first_life 5)
        × MakesNext beside_others (view_beside 0 53) 53 (pack nowhere 0 1)
        (link_edge_event (view_beside 0 53) (link_at small 4) (pack nowhere 0 1) 2 (first_life 0) (first_life 1) 6
        (first_life 5)) }
    ensures freeze_behind { MayFreezeEdge (view_beside 0 60) (first_life 0) (link_at small 4) (first_life 5)
        × MakesNext beside_others (view_beside 0 60) 60 (pack nowhere 0 1)
        (freeze_edge_event (view_beside 0 60) (first_life 5) (pack nowhere 0 1)) }
{}
