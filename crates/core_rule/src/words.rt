//! The laws of words that are a token's own or that it has met: which stay behind its own events, and what they tell.

ghost use Rattle.std.specs.Prelude.{◌≡◌, ℕ, ◌<◌, false, true, Option, Some};
ghost use Rattle.packed_link.specs.Link.{mark_of};
ghost use Rattle.packed_link.specs.Layout.{IsLayout, link_at, second_at, third_at};
ghost use Rattle.packed_link.specs.declared.link.Life.{Life};
ghost use Rattle.core_journal.specs.declared.event.Event.{Event};
ghost use Rattle.core_journal.specs.declared.event.Kind.TheVariants.{StorePrivate};
ghost use Rattle.core_journal.specs.Life.{vertex_marked};
ghost use Rattle.core_journal.specs.Machine.{word_at};
ghost use Rattle.core_kept.specs.Facts.{IsHeld, IsKeptSpent};
ghost use Rattle.core_kept.specs.Kept.{IsKept};
ghost use Rattle.core_kept.specs.Nodes.{IsFreshWith, IsSpentWith};
ghost use Rattle.core_rule.specs.Fronts.{MetEdge, MetVertex};
ghost use Rattle.core_rule.specs.Stretches.{IsHeldBut, IsTargetShown, is_of_fresh, is_of_spent};
ghost use Rattle.core_rule.specs.Views.{GoesOn, Spares, Steps};
ghost use Rattle.core_rule.specs.declared.view.View.{View};

/// A token's fresh node keeps its words behind each own event of a kind that fills and links none, and its spent nodes
/// keep their key and link behind each that closes no list and gives none back: so no call shows that the node that it
/// changes isn't the fresh one, or a spent one. Behind a store to one word of a fresh node that word is what was
/// stored, and the others are what they were.
pub fn own_words_stay_by_kind()
    ensures fresh { (v w : View) (own : Option Event) → IsLayout v.sizes → Steps v own w → (x : ℕ) → x < v.sizes.nodes
        → Spares (λ (e : Event). is_of_fresh e.kind ≡ false) own → IsFreshWith v.sizes v.front v.number x
        → IsFreshWith w.sizes w.front w.number x × IsHeld v.sizes v.front w.front x }
    ensures spent { (v w : View) (own : Option Event) → IsLayout v.sizes → Steps v own w → (x : ℕ) → x < v.sizes.nodes
        → Spares (λ (e : Event). is_of_spent e.kind ≡ false) own → IsSpentWith v.sizes v.front v.number x
        → IsSpentWith w.sizes w.front w.number x × IsKeptSpent v.sizes v.front w.front x }
    ensures stored { (v w : View) (e : Event) → IsLayout v.sizes → Steps v (Some e) w → e.kind ≡ StorePrivate
        → (x : ℕ) → x < v.sizes.nodes → IsFreshWith v.sizes v.front v.number x
        → IsFreshWith w.sizes w.front w.number x × (word_at w.sizes w.front e.place ≡ e.word)
        × IsHeldBut v.sizes v.front w.front x e.place }
{}

/// What a second word tells that was loaded of a node that was met: where that of a vertex is marked, its list is
/// closed, so the vertex is marked; that of an edge has the life to which the edge was linked, of a node of the table,
/// and its tag fits. So a collect may follow it. The target and the weight of an edge that was met are the same in
/// each later view of the pass, so they may be loaded in any order.
pub fn second_words_tell()
    ensures head { (v : View) → IsLayout v.sizes → IsKept v.sizes v.front → (x : Life) → MetVertex v x
        → mark_of (word_at v.sizes v.front (second_at v.sizes x.index)) ≡ 1
        → (mark_of (word_at v.sizes v.front (link_at v.sizes x.index)) ≡ 1) × (vertex_marked v.front x ≡ true) }
    ensures target { (v : View) → IsLayout v.sizes → IsKept v.sizes v.front → (source x : Life) → MetEdge v source x
        → IsTargetShown v x }
    ensures later { (v w : View) → IsLayout v.sizes → GoesOn v w → (source x : Life) → MetEdge v source x
        → (word_at w.sizes w.front (second_at w.sizes x.index) ≡ word_at v.sizes v.front (second_at v.sizes x.index))
        × (word_at w.sizes w.front (third_at w.sizes x.index) ≡ word_at v.sizes v.front (third_at v.sizes x.index)) }
{}
