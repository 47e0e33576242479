//! The laws of a token's view: how it goes on by the token's steps, and what a word that it loaded shows.
//!
//! A step tells a token its new view (`specs/Plays.antt`). These laws say what of the old view holds of the new one,
//! and where the words lead that a view with an open pass shows (`specs/Views.antt`), in the form in which the
//! conditions of the next step ask for it (`specs/Fronts.antt`).

ghost use Rattle.std.specs.Prelude.{◌≡◌, ◌≢◌, ℕ, ◌<◌, Bool, true, false, [], ◌∷◌, ◌++◌, Option, Some, None};
ghost use Rattle.packed_link.specs.Link.{index_of, mark_of, nowhere, tag_of};
ghost use Rattle.packed_link.specs.Layout.{IsLayout, bucket_at, link_at, second_at};
ghost use Rattle.packed_link.specs.declared.link.Life.{Life};
ghost use Rattle.core_journal.specs.Event.{raises};
ghost use Rattle.core_journal.specs.declared.event.Event.{Event};
ghost use Rattle.core_journal.specs.declared.event.Kind.{Kind};
ghost use Rattle.core_journal.specs.declared.event.Kind.TheVariants.{Announce, PopFree, PushFree, StoreFree, Withdraw};
ghost use Rattle.core_journal.specs.GraphOf.{present_key};
ghost use Rattle.core_journal.specs.Life.{edge_marked, key_of, link_of, vertex_marked};
ghost use Rattle.core_journal.specs.Machine.{word_at};
ghost use Rattle.core_journal.specs.Prefix.{IsPrefix};
ghost use Rattle.core_journal.specs.Reuse.{pass_in};
ghost use Rattle.core_journal.specs.State.{state};
ghost use Rattle.core_lists.specs.Chains.{KeepsList};
ghost use Rattle.core_kept.specs.Counts.{made, most_raises};
ghost use Rattle.core_kept.specs.Edges.{IsRaisedFor};
ghost use Rattle.core_kept.specs.Facts.{HasMet, IsHeld, IsKeptSpent};
ghost use Rattle.core_kept.specs.Freezing.{IsFrozenWord, IsSpentVertex};
ghost use Rattle.core_rule.specs.Fronts.{IsBeforeEdge, IsBeforeVertex, IsEdgeAbove, IsEdgeBelow, IsLifeAt};
ghost use Rattle.core_rule.specs.Fronts.{IsVertexAbove, IsVertexBelow, LeadsToEdge, LeadsToVertex};
ghost use Rattle.core_rule.specs.Fronts.{MayRaise, MetEdge, MetVertex, key_in};
ghost use Rattle.core_kept.specs.Kept.{IsKept};
ghost use Rattle.core_kept.specs.Nodes.{IsFreshWith, IsFrozenToEnd, IsLinkedEdge, IsLinkedVertex, IsRipe, is_listed};
ghost use Rattle.core_kept.specs.Nodes.{IsSpentWith, IsStamped, node_in};
ghost use Rattle.core_rule.specs.Plays.{IsSound, Looked, Met, Replied, Stored, Won};
ghost use Rattle.graph_kinds.specs.declared.entry.Entry.{Entry};
ghost use Rattle.core_rule.specs.Views.{GoesOn, IsEdgeBehind, IsEdgeIn, IsEdgeShown, IsVertexBehind, IsVertexIn};
ghost use Rattle.core_rule.specs.Views.{Spares, Steps};
ghost use Rattle.core_lists.specs.Walks.{LeadsTo};
ghost use Rattle.core_rule.specs.declared.view.View.{View};

/// A load, a won step and a store are steps: others made events, and behind these the token made its own event or
/// none. A load that ends a call is one but for the entry that it adds to the book (`reply`), and one behind a join
/// but for the other's front, which is part of its own from then on (`meet`). The new view is of the same table and
/// number, and its front goes on from the old one and is kept (`view`), with the token's event as its last (`last`).
/// Where that is no announcement and no withdrawal, the new view is a later one in the same pass, and so it's after
/// several steps.
pub fn a_view_goes_on()
    ensures look { (v : View) (place found : ℕ) (w : View) → v.numbered ≡ true → IsSound v → Looked v place found w
        → Steps v None w }
    ensures win { (v : View) (place found : ℕ) (e : Event) (w : View) → v.numbered ≡ true → IsSound v
        → Won v place found e w → Steps v (Some e) w }
    ensures store { (v : View) (e : Event) (w : View) → v.numbered ≡ true → IsSound v → Stored v e w
        → Steps v (Some e) w }
    ensures reply { (v : View) (entry : Entry) (w : View) → v.numbered ≡ true → IsSound v → Replied v entry w
        → Steps v None (record w { book = v.book }) }
    ensures meet { (v w : View) → v.numbered ≡ true → IsSound v → Met v w → Steps v None (record w { met = v.met }) }
    ensures view { (v w : View) (own : Option Event) → Steps v own w → (w.sizes ≡ v.sizes) × (w.number ≡ v.number)
        × (w.numbered ≡ v.numbered) × IsKept w.sizes w.front × IsPrefix v.front w.front }
    ensures last { (v w : View) (e : Event) → (t : Steps v (Some e) w)
        → (w.front ≡ t.grown ++ e ∷ []) × IsKept v.sizes (t.grown ++ e ∷ []) }
    ensures pass { (v w : View) (own : Option Event) → Steps v own w
        → Spares (λ (e : Event). (e.kind ≢ Announce) × (e.kind ≢ Withdraw)) own → GoesOn v w }
    ensures chain { (u v w : View) → GoesOn u v → GoesOn v w → GoesOn u w }
{}

/// What is a token's own by its view is so by the next one, where the step's event, if it made one, spares it. A fresh
/// node that the event isn't about keeps its words, and no other is taken by it; a spent node stays spent in its life,
/// a vertex or an edge as it was, stamped and ripe, where it isn't given back, and keeps its key and its link where
/// the event isn't about it; the list of a spent vertex stays one, with its frozen words, where nothing is stored for
/// the free list or given back; lists that are frozen to their end stay so; and an event that isn't counted leaves the
/// counts.
pub fn a_step_keeps_what_is_the_tokens_own()
    ensures fresh { (v w : View) (own : Option Event) → IsLayout v.sizes → Steps v own w → (x : ℕ) → x < v.sizes.nodes
        → Spares (λ (e : Event). x ≢ e.life.index) own → IsFreshWith v.sizes v.front v.number x
        → IsFreshWith w.sizes w.front w.number x × IsHeld v.sizes v.front w.front x }
    ensures none_fresh { (v w : View) (own : Option Event) → Steps v own w
        → Spares (λ (e : Event). e.kind ≢ PopFree) own
        → ((x : ℕ) → x < v.sizes.nodes → IsFreshWith v.sizes v.front v.number x → ⊥)
        → (x : ℕ) → x < w.sizes.nodes → IsFreshWith w.sizes w.front w.number x → ⊥ }
    ensures spent { (v w : View) (own : Option Event) → IsLayout v.sizes → Steps v own w → (x : Life)
        → Spares (λ (e : Event). e.kind ≡ PushFree → e.life.index ≢ x.index) own → IsLifeAt v x
        → IsSpentWith v.sizes v.front v.number x.index
        → IsSpentWith w.sizes w.front w.number x.index × IsLifeAt w x
        × ((node_in w.sizes w.front x.index).vertex ≡ (node_in v.sizes v.front x.index).vertex) }
    ensures spent_words { (v w : View) (own : Option Event) → IsLayout v.sizes → Steps v own w → (x : ℕ)
        → x < v.sizes.nodes → Spares (λ (e : Event). x ≢ e.life.index) own → IsSpentWith v.sizes v.front v.number x
        → IsKeptSpent v.sizes v.front w.front x }
    ensures stamp { (v w : View) (own : Option Event) → IsLayout v.sizes → Steps v own w → (x stamp : ℕ)
        → Spares (λ (e : Event). e.kind ≡ PushFree → e.life.index ≢ x) own
        → IsStamped v.sizes v.front v.number x stamp → IsStamped w.sizes w.front w.number x stamp }
    ensures ripe { (v w : View) (own : Option Event) → IsLayout v.sizes → Steps v own w → (x : ℕ)
        → Spares (λ (e : Event). e.kind ≡ PushFree → e.life.index ≢ x) own
        → IsRipe v.sizes v.front v.number x → IsRipe w.sizes w.front w.number x }
    ensures list { (v w : View) (own : Option Event) → IsLayout v.sizes → Steps v own w → (x : ℕ)
        → Spares (λ (e : Event). (e.kind ≢ StoreFree) × (e.kind ≢ PushFree)) own
        → IsSpentVertex v.sizes v.front v.number x → KeepsList v.sizes v.front x
        → IsSpentVertex w.sizes w.front w.number x × KeepsList w.sizes w.front x }
    ensures frozen_word { (v w : View) (own : Option Event) → IsLayout v.sizes → Steps v own w → (x place : ℕ)
        → Spares (λ (e : Event). (e.kind ≢ StoreFree) × (e.kind ≢ PushFree)) own
        → IsSpentVertex v.sizes v.front v.number x → KeepsList v.sizes v.front x → IsFrozenWord v.sizes v.front x place
        → IsFrozenWord w.sizes w.front x place
        × (word_at w.sizes w.front place ≡ word_at v.sizes v.front place) }
    ensures finished { (v w : View) (own : Option Event) → IsLayout v.sizes → Steps v own w → (x : ℕ)
        → x < v.sizes.nodes → Spares (λ (e : Event). e.kind ≡ PushFree → e.life.index ≢ x) own
        → IsSpentWith v.sizes v.front v.number x → IsFrozenToEnd v.sizes v.front x
        → IsFrozenToEnd w.sizes w.front x }
    ensures lists_finished { (v w : View) (own : Option Event) → IsLayout v.sizes → Steps v own w → (x : ℕ)
        → x < v.sizes.nodes → Spares (λ (e : Event). e.kind ≡ PushFree → e.life.index ≢ x) own
        → IsSpentWith v.sizes v.front v.number x → ((y : ℕ) → y < v.sizes.nodes
        → is_listed (state v.sizes v.front) y x ≡ true → IsFrozenToEnd v.sizes v.front y)
        → (y : ℕ) → y < w.sizes.nodes → is_listed (state w.sizes w.front) y x ≡ true → IsFrozenToEnd w.sizes w.front y }
    ensures counts { (v w : View) (own : Option Event) → Steps v own w → (test : Kind → Bool)
        → Spares (λ (e : Event). test e.kind ≡ false) own
        → made test w.number w.front ≡ made test v.number v.front }
{}

/// What a view's pass has met, a later view of this pass has met: the same lives, with their keys, and their links
/// once they're marked. So the words before and behind which a vertex or an edge may stand are such words still, and
/// what was raised in the pass or may be raised is so still.
pub fn a_later_view_has_met_it()
    ensures vertex { (v w : View) → IsLayout v.sizes → GoesOn v w → (x : Life) → MetVertex v x → MetVertex w x }
    ensures edge { (v w : View) → IsLayout v.sizes → GoesOn v w → (source x : Life) → MetEdge v source x
        → MetEdge w source x }
    ensures key { (v w : View) → IsLayout v.sizes → GoesOn v w → (x : ℕ) → x < v.sizes.nodes
        → HasMet v.sizes v.front v.number x → key_in w x ≡ key_in v x }
    ensures dead { (v w : View) → IsLayout v.sizes → GoesOn v w → (x : ℕ) → x < v.sizes.nodes
        → HasMet v.sizes v.front v.number x → mark_of (word_at v.sizes v.front (link_at v.sizes x)) ≡ 1
        → word_at w.sizes w.front (link_at w.sizes x) ≡ word_at v.sizes v.front (link_at v.sizes x) }
    ensures vertex_below { (v w : View) → IsLayout v.sizes → GoesOn v w → (key place : ℕ) (x : Life)
        → IsVertexBelow v key place x → IsVertexBelow w key place x }
    ensures vertex_above { (v w : View) → IsLayout v.sizes → GoesOn v w → (key index : ℕ)
        → IsVertexAbove v key index → IsVertexAbove w key index }
    ensures edge_below { (v w : View) → IsLayout v.sizes → GoesOn v w → (source : Life) (key place : ℕ) (x : Life)
        → IsEdgeBelow v source key place x → IsEdgeBelow w source key place x }
    ensures edge_above { (v w : View) → IsLayout v.sizes → GoesOn v w → (source : Life) (key index : ℕ)
        → IsEdgeAbove v source key index → IsEdgeAbove w source key index }
    ensures before_vertex { (v w : View) → IsLayout v.sizes → GoesOn v w → (key place : ℕ)
        → IsBeforeVertex v key place → IsBeforeVertex w key place }
    ensures before_edge { (v w : View) → IsLayout v.sizes → GoesOn v w → (source : Life) (key place : ℕ)
        → IsBeforeEdge v source key place → IsBeforeEdge w source key place }
    ensures leads_to_vertex { (v w : View) → IsLayout v.sizes → GoesOn v w → (place : ℕ)
        → LeadsToVertex v place → LeadsToVertex w place }
    ensures leads_to_edge { (v w : View) → IsLayout v.sizes → GoesOn v w → (source : Life) (place : ℕ)
        → LeadsToEdge v source place → LeadsToEdge w source place }
    ensures may_raise { (v w : View) → IsLayout v.sizes → GoesOn v w → (x : Life) → MayRaise v x
        → made raises w.number w.front < most_raises → MayRaise w x }
    ensures raised { (v w : View) → IsLayout v.sizes → GoesOn v w → (edge source : Life)
        → IsRaisedFor v.sizes v.front v.number edge source → IsRaisedFor w.sizes w.front w.number edge source }
{}

/// Where the words lead that a view in an open pass shows: the word of a bucket to none or to a vertex of it, the link
/// of a vertex or an edge that was met to none or to one behind it, and the second word of a vertex to none or to an
/// edge of it.
pub fn a_word_leads_to_what_is_met()
    ensures bucket { (v : View) → IsLayout v.sizes → IsKept v.sizes v.front
        → (pass_in v.sizes v.front v.number).is_open ≡ true → (j : ℕ) → j < v.sizes.buckets
        → LeadsTo (word_at v.sizes v.front (bucket_at v.sizes j)) (IsVertexIn v j) }
    ensures vertex { (v : View) → IsLayout v.sizes → IsKept v.sizes v.front → (x : Life) → MetVertex v x
        → LeadsTo (word_at v.sizes v.front (link_at v.sizes x.index)) (IsVertexBehind v x) }
    ensures edge { (v : View) → IsLayout v.sizes → IsKept v.sizes v.front → (source x : Life) → MetEdge v source x
        → LeadsTo (word_at v.sizes v.front (link_at v.sizes x.index)) (IsEdgeBehind v source x) }
    ensures list { (v : View) → IsLayout v.sizes → IsKept v.sizes v.front → (x : Life) → MetVertex v x
        → LeadsTo (word_at v.sizes v.front (second_at v.sizes x.index)) (IsEdgeIn v x) }
{}

/// What the words of a node show that was met: its link has the tag of its life, and so has a vertex's second word;
/// the key, of an edge also its source, target and weight, are those with which it was linked. Where its link is
/// unmarked it's linked and not marked, so a vertex is present, and the counter of an edge's source may be raised;
/// where it's marked, it's marked.
pub fn the_words_of_a_met_node_tell_its_life()
    ensures life { (v : View) → IsLayout v.sizes → IsKept v.sizes v.front → (x : Life) → IsLifeAt v x
        → HasMet v.sizes v.front v.number x.index → tag_of (word_at v.sizes v.front (link_at v.sizes x.index)) ≡ x.tag }
    ensures second { (v : View) → IsLayout v.sizes → IsKept v.sizes v.front → (x : Life) → MetVertex v x
        → tag_of (word_at v.sizes v.front (second_at v.sizes x.index)) ≡ x.tag }
    ensures key { (v : View) → IsLayout v.sizes → IsKept v.sizes v.front → (x : Life) → MetVertex v x
        → key_of v.front x ≡ Some (key_in v x.index) }
    ensures present { (v : View) → IsLayout v.sizes → IsKept v.sizes v.front → (x : Life) → MetVertex v x
        → mark_of (word_at v.sizes v.front (link_at v.sizes x.index)) ≡ 0
        → IsLinkedVertex v.sizes v.front x.index × (present_key v.front x ≡ Some (key_in v x.index)) }
    ensures removed { (v : View) → IsLayout v.sizes → IsKept v.sizes v.front → (x : Life) → MetVertex v x
        → mark_of (word_at v.sizes v.front (link_at v.sizes x.index)) ≡ 1
        → (vertex_marked v.front x ≡ true) × (present_key v.front x ≡ None) }
    ensures edge { (v : View) → IsLayout v.sizes → IsKept v.sizes v.front → (source x : Life) → MetEdge v source x
        → IsEdgeShown v source x }
    ensures unmarked { (v : View) → IsLayout v.sizes → IsKept v.sizes v.front → (source x : Life) → MetEdge v source x
        → mark_of (word_at v.sizes v.front (link_at v.sizes x.index)) ≡ 0
        → IsLinkedEdge v.sizes v.front x.index × (edge_marked v.front x ≡ false) }
    ensures marked { (v : View) → IsLayout v.sizes → IsKept v.sizes v.front → (source x : Life) → MetEdge v source x
        → mark_of (word_at v.sizes v.front (link_at v.sizes x.index)) ≡ 1 → edge_marked v.front x ≡ true }
    ensures may_raise { (v : View) → IsLayout v.sizes → IsKept v.sizes v.front → (source x : Life) → MetEdge v source x
        → MetVertex v source → mark_of (word_at v.sizes v.front (link_at v.sizes x.index)) ≡ 0
        → made raises v.number v.front < most_raises → MayRaise v source }
{}

/// A key that an unmarked word leads past is absent at that moment. Where the word is that of the key's bucket, or the
/// link of a vertex of a smaller key in this bucket, and leads to none or to a vertex of a greater key, no present
/// vertex has the key; where it's the second word of a source, or the link of an edge of it with a smaller key, and
/// leads to none or to an edge of it with a greater key, no edge of the source that isn't marked has the key.
pub fn a_passed_key_is_absent()
    ensures vertex { (v : View) → IsLayout v.sizes → IsKept v.sizes v.front → (key place : ℕ)
        → IsBeforeVertex v key place
        → mark_of (word_at v.sizes v.front place) ≡ 0 → (index_of (word_at v.sizes v.front place) ≢ nowhere
        → IsVertexAbove v key (index_of (word_at v.sizes v.front place)))
        → (x : Life) → present_key v.front x ≡ Some key → ⊥ }
    ensures edge { (v : View) → IsLayout v.sizes → IsKept v.sizes v.front → (source : Life) (key place : ℕ)
        → IsBeforeEdge v source key place → mark_of (word_at v.sizes v.front place) ≡ 0
        → (index_of (word_at v.sizes v.front place) ≢ nowhere
        → IsEdgeAbove v source key (index_of (word_at v.sizes v.front place)))
        → (x : Life) (link : Event) → link_of v.front x ≡ Some link → edge_marked v.front x ≡ false
        → link.source ≡ source → link.key ≡ key → ⊥ }
{}
