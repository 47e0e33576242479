//! The laws of stretches: what a token did between two of its views, what holds at each moment between them, and views
//! that show the same.

ghost use Rattle.std.specs.Prelude.{◌≡◌, ℕ, ◌+◌, ◌<◌, ◌≤◌, ◌^◌, Bool, true, List, Option, Some, None};
ghost use Rattle.packed_link.specs.Link.{tag_of};
ghost use Rattle.packed_link.specs.Layout.{IsLayout, epoch_at, free_at};
ghost use Rattle.packed_link.specs.declared.link.Life.{Life};
ghost use Rattle.core_journal.specs.declared.event.Event.{Event};
ghost use Rattle.core_journal.specs.Machine.{word_at};
ghost use Rattle.core_journal.specs.Prefix.{IsPrefix};
ghost use Rattle.core_kept.specs.Kept.{IsKept};
ghost use Rattle.core_rule.specs.Fronts.{IsBeforeEdge, IsBeforeVertex, IsEdgeAbove, IsEdgeBelow, IsEdgeLink};
ghost use Rattle.core_rule.specs.Fronts.{IsLifeAt, IsVertexAbove, IsVertexBelow, IsVertexLink, LeadsToEdge};
ghost use Rattle.core_rule.specs.Fronts.{LeadsToVertex, MayAnnounce, MayFreezeEdge, MayFreezeHead, MayLinkEdge};
ghost use Rattle.core_rule.specs.Fronts.{MayLinkVertex, MayMarkEdge, MayMarkVertex, MayMoveEpoch, MayPopFree};
ghost use Rattle.core_rule.specs.Fronts.{MayPushFree, MayRaise, MayReplaceEdge, MayStoreFree, MayStorePrivate};
ghost use Rattle.core_rule.specs.Fronts.{MayUnlinkEdge, MayUnlinkVertex, MayWithdraw, MetEdge, MetVertex};
ghost use Rattle.core_rule.specs.Stretches.{Elsewhere, HasNoFresh, HasPass, IsAlike, Leaves, Own};
ghost use Rattle.core_rule.specs.Retired.{IsRetired};
ghost use Rattle.core_rule.specs.Stretches.{IsTargetShown, spent_since};
ghost use Rattle.core_journal.specs.Event.{unlinks};
ghost use Rattle.core_rule.specs.Views.{GoesOn, Steps, moved_on};
ghost use Rattle.core_rule.specs.declared.view.View.{View};

/// The own events of a token between two of its views (`Own`): from a view to itself and by a load there are none, a
/// step makes its own, and one stretch goes on behind another. With "leaves the graph" this says that a call changed
/// nothing but what it tells, with "stands elsewhere" that a word which changed was changed by another caller. The law
/// is said of tests, and its lemmas of any fact.
pub fn own_events_add_up()
    ensures same { (test : List Event → Event → Bool) (v : View) → Own (λ past e. test past e ≡ true) v v }
    ensures look { (test : List Event → Event → Bool) (v w : View) → Steps v None w
        → Own (λ past e. test past e ≡ true) v w }
    ensures step { (test : List Event → Event → Bool) (v w : View) (e : Event) (t : Steps v (Some e) w)
        → test t.grown e ≡ true → Own (λ past e. test past e ≡ true) v w }
    ensures chain { (test : List Event → Event → Bool) (u v w : View) → v.number ≡ u.number
        → IsPrefix v.front w.front → Own (λ past e. test past e ≡ true) u v
        → Own (λ past e. test past e ≡ true) v w → Own (λ past e. test past e ≡ true) u w }
    ensures leaves { (u v w : View) → v.number ≡ u.number → IsPrefix v.front w.front → Own Leaves u v → Own Leaves v w
        → Own Leaves u w }
    ensures elsewhere { (place : ℕ) (u v w : View) → v.number ≡ u.number → IsPrefix v.front w.front
        → Own (Elsewhere place) u v → Own (Elsewhere place) v w → Own (Elsewhere place) u w }
{}

/// A view goes on to itself; the pass of a view that goes on stays open; and it goes on to each moment between it and
/// a later view of the same open pass, and from there to that one. So whatever holds of a later view of a pass holds
/// at each moment of a walk.
pub fn a_view_goes_on_between()
    ensures same { (v : View) → IsKept v.sizes v.front → GoesOn v v }
    ensures opened { (v w : View) → GoesOn v w → HasPass v → HasPass w }
    ensures between { (v w : View) → GoesOn v w → HasPass v → (middle : List Event) → IsPrefix v.front middle
        → IsPrefix middle w.front
        → GoesOn v (moved_on v middle v.last) × GoesOn (moved_on v middle v.last) w }
{}

/// What a token knows of lives, of what its pass has met and of what it retired doesn't read its book, its last event,
/// the numbers that were joined and the right to draw: behind a reply, a split or a join it's known still.
pub fn facts_of_a_front_are_alike()
    ensures life_at { (v w : View) → IsAlike v w → (x : Life) → IsLifeAt v x → IsLifeAt w x }
    ensures met_vertex { (v w : View) → IsAlike v w → (x : Life) → MetVertex v x → MetVertex w x }
    ensures met_edge { (v w : View) → IsAlike v w → (source x : Life) → MetEdge v source x → MetEdge w source x }
    ensures vertex_below { (v w : View) → IsAlike v w → (key place : ℕ) (x : Life) → IsVertexBelow v key place x
        → IsVertexBelow w key place x }
    ensures before_vertex { (v w : View) → IsAlike v w → (key place : ℕ) → IsBeforeVertex v key place
        → IsBeforeVertex w key place }
    ensures vertex_above { (v w : View) → IsAlike v w → (key index : ℕ) → IsVertexAbove v key index
        → IsVertexAbove w key index }
    ensures vertex_link { (v w : View) → IsAlike v w → (place : ℕ) (x : Life) → IsVertexLink v place x
        → IsVertexLink w place x }
    ensures leads_to_vertex { (v w : View) → IsAlike v w
        → (place : ℕ) → LeadsToVertex v place → LeadsToVertex w place }
    ensures edge_below { (v w : View) → IsAlike v w
        → (source : Life) (key place : ℕ) (x : Life) → IsEdgeBelow v source key place x
        → IsEdgeBelow w source key place x }
    ensures before_edge { (v w : View) → IsAlike v w
        → (source : Life) (key place : ℕ) → IsBeforeEdge v source key place
        → IsBeforeEdge w source key place }
    ensures edge_above { (v w : View) → IsAlike v w → (source : Life) (key index : ℕ) → IsEdgeAbove v source key index
        → IsEdgeAbove w source key index }
    ensures edge_link { (v w : View) → IsAlike v w
        → (source : Life) (place : ℕ) (x : Life) → IsEdgeLink v source place x
        → IsEdgeLink w source place x }
    ensures leads_to_edge { (v w : View) → IsAlike v w → (source : Life) (place : ℕ) → LeadsToEdge v source place
        → LeadsToEdge w source place }
    ensures has_no_fresh { (v w : View) → IsAlike v w → HasNoFresh v → HasNoFresh w }
    ensures target_shown { (v w : View) → IsAlike v w → (x : Life) → IsTargetShown v x → IsTargetShown w x }
    ensures retired { (v w : View) → IsAlike v w → (but : Option ℕ) (x : Life) (stamp : ℕ) → IsRetired but v x stamp
        → IsRetired but w x stamp }
    ensures spent_since { (v w : View) → IsAlike v w → spent_since w ≡ spent_since v }
{}

/// Nor does what it must know for a step of a kind.
pub fn conditions_of_a_front_are_alike()
    ensures may_pop_free { (v w : View) → IsAlike v w → (seen next : ℕ) → MayPopFree v seen next
        → MayPopFree w seen next }
    ensures may_store_private { (v w : View) → IsAlike v w
        → (x : Life) (field word : ℕ) → MayStorePrivate v x field word
        → MayStorePrivate w x field word }
    ensures may_link_vertex { (v w : View) → IsAlike v w
        → (place seen key : ℕ) (x : Life) → MayLinkVertex v place seen key x
        → MayLinkVertex w place seen key x }
    ensures may_mark_vertex { (v w : View) → IsAlike v w → (x : Life) → MayMarkVertex v x → MayMarkVertex w x }
    ensures may_unlink_vertex { (v w : View) → IsAlike v w
        → (place seen next : ℕ) (x : Life) → MayUnlinkVertex v place seen next x
        → MayUnlinkVertex w place seen next x }
    ensures may_link_edge { (v w : View) → IsAlike v w
        → (place seen key : ℕ) (source target : Life) (weight : ℕ) (x : Life)
        → MayLinkEdge v place seen key source target weight x
        → MayLinkEdge w place seen key source target weight x }
    ensures may_raise { (v w : View) → IsAlike v w → (x : Life) → MayRaise v x → MayRaise w x }
    ensures may_mark_edge { (v w : View) → IsAlike v w → (source x : Life) → MayMarkEdge v source x
        → MayMarkEdge w source x }
    ensures may_replace_edge { (v w : View) → IsAlike v w
        → (seen key : ℕ) (source target : Life) (weight : ℕ) (old x : Life)
        → MayReplaceEdge v seen key source target weight old x
        → MayReplaceEdge w seen key source target weight old x }
    ensures may_unlink_edge { (v w : View) → IsAlike v w
        → (place seen next : ℕ) (source x : Life) → MayUnlinkEdge v place seen next source x
        → MayUnlinkEdge w place seen next source x }
    ensures may_announce { (v w : View) → IsAlike v w → (epoch : ℕ) → MayAnnounce v epoch → MayAnnounce w epoch }
    ensures may_withdraw { (v w : View) → IsAlike v w → MayWithdraw v → MayWithdraw w }
    ensures may_move_epoch { (v w : View) → IsAlike v w → (seen : ℕ) → MayMoveEpoch v seen → MayMoveEpoch w seen }
    ensures may_freeze_head { (v w : View) → IsAlike v w → (x : Life) → MayFreezeHead v x → MayFreezeHead w x }
    ensures may_freeze_edge { (v w : View) → IsAlike v w
        → (source : Life) (place : ℕ) (x : Life) → MayFreezeEdge v source place x
        → MayFreezeEdge w source place x }
    ensures may_store_free { (v w : View) → IsAlike v w → (next : ℕ) (x : Life) → MayStoreFree v next x
        → MayStoreFree w next x }
    ensures may_push_free { (v w : View) → IsAlike v w → (seen : ℕ) (x : Life) → MayPushFree v seen x
        → MayPushFree w seen x }
{}

/// The numbers that a token loads are far from their limits, so that what a call makes of them fits: the tag of a word
/// of the free list, the epoch, and the tag of a life.
pub fn loaded_numbers_are_low()
    ensures free_tag { (v : View) → IsLayout v.sizes → IsKept v.sizes v.front → (first : List Event)
        → IsPrefix first v.front → (seen : ℕ) → word_at v.sizes first (free_at v.sizes) ≡ seen
        → tag_of seen ≤ 2 ^ 37 }
    ensures epoch { (v : View) → IsLayout v.sizes → IsKept v.sizes v.front → (loaded : List Event)
        → IsPrefix loaded v.front → (seen : ℕ) → word_at v.sizes loaded (epoch_at v.sizes) ≡ seen → seen ≤ 2 ^ 38 }
    ensures life { (v : View) → IsLayout v.sizes → IsKept v.sizes v.front → (x : Life) → IsLifeAt v x
        → x.tag < 2 ^ 39 }
{}

/// A measure for walks that help, which needs no keys: the nodes that a token has spent since its pass began are never
/// fewer while the pass is open, one more at each of its own unlinks, and at most all nodes. So a walk that unlinks
/// what it finds marked ends, also where keys are equal.
pub fn own_spent_nodes_are_a_measure()
    ensures no_fewer { (v w : View) → IsLayout v.sizes → GoesOn v w → HasPass v → spent_since v ≤ spent_since w }
    ensures unlink { (v w : View) (e : Event) → IsLayout v.sizes → Steps v (Some e) w → e.caller ≡ v.number
        → unlinks e.kind ≡ true → HasPass v → spent_since v + 1 ≤ spent_since w }
    ensures bound { (v : View) → spent_since v ≤ v.sizes.nodes }
{}
