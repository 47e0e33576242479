//! The laws of views that show the same, and of stretches, at steps of the worked journals: each clause has one here
//! that meets its premises.

ghost use Rattle.std.specs.Prelude.{◌≡◌, ℕ, ◌+◌, ◌<◌, ◌≤◌, None, [], ◌∷◌, length, take};
ghost use Rattle.packed_link.specs.Link.{nowhere, pack};
ghost use Rattle.packed_link.specs.Layout.{bucket_at, link_at, second_at};
ghost use Rattle.core_journal.specs.Worked.{first_life, small};
ghost use Rattle.core_rule.specs.Fronts.{
  IsBeforeEdge,
  IsBeforeVertex,
  IsEdgeAbove,
  IsEdgeBelow,
  IsEdgeLink,
  IsLifeAt,
  IsVertexAbove,
  IsVertexBelow,
  IsVertexLink,
  LeadsToEdge,
  LeadsToVertex,
  MayAnnounce,
  MayFreezeEdge,
  MayFreezeHead,
  MayLinkEdge,
  MayLinkVertex,
  MayMarkEdge,
  MayMarkVertex,
  MayMoveEpoch,
  MayPopFree,
  MayPushFree,
  MayRaise,
  MayReplaceEdge,
  MayStoreFree,
  MayStorePrivate,
  MayUnlinkEdge,
  MayWithdraw,
  MetEdge,
};
ghost use Rattle.core_rule.specs.Retired.{IsRetired};
ghost use Rattle.core_rule.specs.Stretches.{Elsewhere, HasNoFresh, HasPass, IsTargetShown, Leaves, Own, spent_since};
ghost use Rattle.core_rule.specs.Views.{GoesOn, moved_on};
ghost use Rattle.core_worked.specs.KnownSteps.{view_among, view_at, view_beside, view_replacing};
ghost use Rattle.core_worked.specs.LawSteps.{drawing_too, view_behind, view_drawing};
ghost use Rattle.core_worked.specs.TwoLives.{two_lives};

/// What a token must know for each step of the worked journals, it knows too where it has the right to draw beside it
/// (`conditions_of_a_front_are_alike`; that of unlinking a vertex stands in `laws_of_stretches_meet_a_worked_journal`).
pub fn worked_conditions_are_alike()
    ensures pop { MayPopFree (view_drawing 52) (pack 0 0 6) (pack 3 1 1) }
    ensures store { MayStorePrivate (view_drawing 34) (first_life 3) 1 (pack nowhere 0 1) }
    ensures link_vertex { MayLinkVertex (view_drawing 16) (link_at small 0) (pack nowhere 0 1) 2 (first_life 1) }
    ensures mark_vertex { MayMarkVertex (view_drawing 40) (first_life 0) }
    ensures link_edge { MayLinkEdge (view_drawing 37) (second_at small 0) (pack nowhere 0 1) 2 (first_life 0)
        (first_life 1) 6 (first_life 3) }
    ensures raise { MayRaise (view_drawing 27) (first_life 0) }
    ensures mark_edge { MayMarkEdge (view_drawing 28) (first_life 0) (first_life 2) }
    ensures replace_edge { MayReplaceEdge (drawing_too (view_replacing 0 33)) (pack nowhere 0 1) 2 (first_life 0)
        (first_life 1) 6 (first_life 2) (first_life 3) }
    ensures unlink_edge { MayUnlinkEdge (view_drawing 29) (second_at small 0) (pack 2 0 1) nowhere (first_life 0)
        (first_life 2) }
    ensures announce { MayAnnounce (view_drawing 51) 2 }
    ensures withdraw { MayWithdraw (view_drawing 44) }
    ensures move_on { MayMoveEpoch (drawing_too (view_at 1 2)) 0 }
    ensures freeze_head { MayFreezeHead (view_drawing 42) (first_life 0) }
    ensures freeze_edge { MayFreezeEdge (view_drawing 43) (first_life 0) (second_at small 0) (first_life 3) }
    ensures store_free { MayStoreFree (view_drawing 47) 4 (first_life 3) }
    ensures push { MayPushFree (view_drawing 50) (pack 3 0 5) (first_life 0) }
{}

/// What a token knows of lives, of what it met and of what it retired, in the same form (`facts_of_a_front_are_alike`):
/// of fresh, linked and spent nodes; of words in front of which, behind which and at which it may step; of no fresh
/// node, of the target of an edge, of a retired node, and of how many nodes it spent.
pub fn worked_facts_are_alike()
    ensures life_at { IsLifeAt (view_drawing 34) (first_life 3) }
    ensures met_edge { MetEdge (view_drawing 28) (first_life 0) (first_life 2) }
    ensures vertex_below { IsVertexBelow (view_drawing 16) 2 (link_at small 0) (first_life 0) }
    ensures before_vertex { IsBeforeVertex (view_drawing 16) 2 (link_at small 0) }
    ensures vertex_above { IsVertexAbove (drawing_too (view_beside 0 32)) 0 0 }
    ensures vertex_link { IsVertexLink (drawing_too (view_among 1 23)) (link_at small 0) (first_life 0) }
    ensures leads_to_vertex { LeadsToVertex (view_drawing 41) (bucket_at small 0) }
    ensures edge_below { IsEdgeBelow (drawing_too (view_beside 0 53)) (first_life 0) 2 (link_at small 4)
        (first_life 4) }
    ensures before_edge { IsBeforeEdge (view_drawing 37) (first_life 0) 2 (second_at small 0) }
    ensures edge_above { IsEdgeAbove (drawing_too (view_beside 0 40)) (first_life 0) 0 2 }
    ensures edge_link { IsEdgeLink (drawing_too (view_beside 0 45)) (first_life 0) (link_at small 4) (first_life 4) }
    ensures leads_to_edge { LeadsToEdge (view_drawing 29) (first_life 0) (second_at small 0) }
    ensures has_no_fresh { HasNoFresh (view_drawing 52) }
    ensures target_shown { IsTargetShown (view_drawing 41) (first_life 3) }
    ensures retired { IsRetired None (view_drawing 47) (first_life 3) 2 }
    ensures spent_since { spent_since (view_drawing 42) ≡ spent_since (view_at 0 42) }
{}

/// Stretches of the pass that removes the vertex of node 0 (`own_events_add_up`): from its mark on the unlink, the
/// closing of the list and the freezing of its edge all leave the graph (`leaves`), and stand elsewhere than at the
/// link of node 1 (`elsewhere`); from a view to itself and by a load there is no own event (`same`, `look`). The pass
/// is open still behind them, and goes on from the moment behind the unlink (`a_view_goes_on_between#opened`,
/// `#between`). Two nodes are spent by then, none before (`own_spent_nodes_are_a_measure#no_fewer`, `#bound`,
/// `a_limbo_has_room#nodes`).
pub fn worked_stretches_add_up()
    ensures leaves { Own Leaves (view_at 0 41) (view_behind 43) }
    ensures elsewhere { Own (Elsewhere (link_at small 1)) (view_at 0 41) (view_behind 43) }
    ensures same { Own Leaves (view_at 0 40) (view_at 0 40) }
    ensures look { Own Leaves (view_at 1 2) (moved_on (view_at 1 2) (take 45 two_lives) 2) }
    ensures goes { GoesOn (view_at 0 41) (view_at 0 41) }
    ensures opened { HasPass (view_behind 43) }
    ensures from_between { GoesOn (moved_on (view_at 0 41) (take 42 two_lives) 41) (view_behind 43) }
    ensures spent { (spent_since (view_at 0 41) ≡ 0) × (spent_since (view_behind 43) ≡ 2) }
    ensures no_fewer { spent_since (view_at 0 41) ≤ spent_since (view_behind 43) }
    ensures bound { spent_since (view_behind 43) ≤ 8 }
    ensures room { length {A = ℕ} (2 ∷ 3 ∷ []) ≤ 8 }
{}
