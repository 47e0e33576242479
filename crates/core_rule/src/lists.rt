//! The laws of closed lists, for the token that freezes one: the list is one still, and its frozen words stay.

ghost use Rattle.std.specs.Prelude.{◌≡◌, ◌≢◌, ◌⊎◌, ◌↔◌, ℕ, ◌≤◌, false, true, List, [], ◌∷◌, ◌++◌, length};
ghost use Rattle.packed_link.specs.Link.{index_of, mark_of, nowhere};
ghost use Rattle.packed_link.specs.Layout.{IsLayout, Sizes, link_at, second_at};
ghost use Rattle.packed_link.specs.declared.link.Life.{Life};
ghost use Rattle.core_chain.specs.Met.{IsMet};
ghost use Rattle.core_journal.specs.declared.event.Event.{Event};
ghost use Rattle.core_journal.specs.Machine.{word_at};
ghost use Rattle.core_journal.specs.Prefix.{IsPrefix};
ghost use Rattle.core_journal.specs.State.{state};
ghost use Rattle.core_lists.specs.Chains.{HasList, IsEdgeOf, IsInList};
ghost use Rattle.core_lists.specs.Chains.{KeepsList};
ghost use Rattle.core_lists.specs.Chains.{edge_chain, life_in};
ghost use Rattle.core_kept.specs.Freezing.{IsFrozenWord, IsSpentVertex};
ghost use Rattle.core_kept.specs.Kept.{IsKept, IsQuiet};
ghost use Rattle.core_journal.specs.declared.event.Kind.TheVariants.{FreezeEdge, FreezeHead, PushFree, StoreFree};
ghost use Rattle.core_kept.specs.Nodes.{IsFrozenToEnd, IsSpentWith};
ghost use Rattle.core_kept.specs.Nodes.{is_frozen, is_listed, node_in};

/// A list that is frozen to its end is one still while no edge of its vertex's life that wasn't unlinked is stored for
/// the free list: one meets its edges from the second word of the vertex, they are all edges of the vertex's life that
/// weren't unlinked, and a frozen word leads to none or to one of them. Where it leads to none, the list is frozen to
/// its end; where it leads to a marked edge, that edge is of the frozen part. Each list that isn't frozen to its end is
/// such a list. That of a vertex which a caller spent stays one while others act, and behind each event of anyone that
/// neither stores the link of an edge of it for the free list nor gives the vertex back.
pub fn a_closed_list_is_a_list()
    ensures list { (sizes : Sizes) → IsLayout sizes → (journal : List Event) → IsKept sizes journal
        → (x : ℕ) → HasList sizes journal x → KeepsList sizes journal x }
    ensures met { (sizes : Sizes) → IsLayout sizes → (journal : List Event) → IsKept sizes journal
        → (x : ℕ) → KeepsList sizes journal x → IsMet (edge_chain sizes journal x) ((state sizes journal).edges x) }
    ensures lives { (sizes : Sizes) → IsLayout sizes → (journal : List Event) → IsKept sizes journal
        → (x : ℕ) → KeepsList sizes journal x → (l : Life)
        → IsInList sizes journal x l ↔ IsEdgeOf journal (life_in sizes journal x) l }
    ensures leads { (sizes : Sizes) → IsLayout sizes → (journal : List Event) → IsKept sizes journal
        → (x place : ℕ) → KeepsList sizes journal x → IsFrozenWord sizes journal x place
        → (index_of (word_at sizes journal place) ≡ nowhere)
        ⊎ (is_listed (state sizes journal) x (index_of (word_at sizes journal place)) ≡ true) }
    ensures own { (sizes : Sizes) → IsLayout sizes → (past : List Event) (e : Event) (caller x : ℕ)
        → IsKept sizes (past ++ e ∷ []) → (e.kind ≡ StoreFree → is_listed (state sizes past) x e.life.index ≡ false)
        → (e.kind ≡ PushFree → e.life.index ≢ x) → IsSpentVertex sizes past caller x → KeepsList sizes past x
        → IsSpentVertex sizes (past ++ e ∷ []) caller x × KeepsList sizes (past ++ e ∷ []) x
        × ((node_in sizes (past ++ e ∷ []) x).tag ≡ (node_in sizes past x).tag) }
    ensures next { (sizes : Sizes) → IsLayout sizes → (journal : List Event) → IsKept sizes journal
        → (x place y : ℕ) → KeepsList sizes journal x → IsFrozenWord sizes journal x place
        → index_of (word_at sizes journal place) ≡ y → y ≢ nowhere → (node_in sizes journal y).marked ≡ true
        → is_frozen (state sizes journal) x y ≡ true }
    ensures end { (sizes : Sizes) → IsLayout sizes → (journal : List Event) → IsKept sizes journal
        → (x place : ℕ) → KeepsList sizes journal x → IsFrozenWord sizes journal x place
        → index_of (word_at sizes journal place) ≡ nowhere → IsFrozenToEnd sizes journal x }
    ensures stays { (sizes : Sizes) → IsLayout sizes → (caller last x : ℕ) (front journal : List Event)
        → IsPrefix front journal → IsKept sizes journal → IsQuiet journal caller last → last ≤ length front
        → IsSpentVertex sizes front caller x → KeepsList sizes front x
        → IsSpentVertex sizes journal caller x × KeepsList sizes journal x
        × ((node_in sizes journal x).tag ≡ (node_in sizes front x).tag) }
{}

/// A frozen word of a list stays as it is, and frozen, while the list is one: where the vertex is spent with a caller,
/// while others act, and behind each event of anyone that neither stores the link of an edge of the list for the free
/// list nor gives the vertex back. The second word of a vertex whose list is closed is such a word, and so is the link
/// of an edge that was frozen: that edge is spent with the caller.
pub fn frozen_words_stay()
    ensures others { (sizes : Sizes) → IsLayout sizes → (caller last x place : ℕ) (front journal : List Event)
        → IsPrefix front journal → IsKept sizes journal → IsQuiet journal caller last → last ≤ length front
        → IsSpentVertex sizes front caller x → KeepsList sizes front x → IsFrozenWord sizes front x place
        → IsFrozenWord sizes journal x place × (word_at sizes journal place ≡ word_at sizes front place) }
    ensures own { (sizes : Sizes) → IsLayout sizes → (past : List Event) (e : Event) (caller x place : ℕ)
        → IsKept sizes (past ++ e ∷ []) → (e.kind ≡ StoreFree → is_listed (state sizes past) x e.life.index ≡ false)
        → (e.kind ≡ PushFree → e.life.index ≢ x) → IsSpentVertex sizes past caller x → KeepsList sizes past x
        → IsFrozenWord sizes past x place → IsFrozenWord sizes (past ++ e ∷ []) x place
        × (word_at sizes (past ++ e ∷ []) place ≡ word_at sizes past place) }
    ensures marked { (sizes : Sizes) → IsLayout sizes → (journal : List Event) → IsKept sizes journal
        → (x place : ℕ) → KeepsList sizes journal x → IsFrozenWord sizes journal x place
        → mark_of (word_at sizes journal place) ≡ 1 }
    ensures head { (sizes : Sizes) (past : List Event) (e : Event) → IsKept sizes (past ++ e ∷ [])
        → e.kind ≡ FreezeHead → IsSpentVertex sizes (past ++ e ∷ []) e.caller e.life.index
        × IsFrozenWord sizes (past ++ e ∷ []) e.life.index (second_at sizes e.life.index) }
    ensures edge { (sizes : Sizes) → IsLayout sizes → (past : List Event) (e : Event) (x place : ℕ)
        → IsKept sizes (past ++ e ∷ []) → e.kind ≡ FreezeEdge → IsSpentVertex sizes past e.caller x
        → KeepsList sizes past x → IsFrozenWord sizes past x place
        → index_of (word_at sizes past place) ≡ e.life.index → IsSpentWith sizes (past ++ e ∷ []) e.caller e.life.index
        × IsFrozenWord sizes (past ++ e ∷ []) x (link_at sizes e.life.index) }
    ensures found { (sizes : Sizes) → IsLayout sizes → (journal : List Event) → IsKept sizes journal
        → (caller x place y : ℕ) → IsSpentVertex sizes journal caller x → KeepsList sizes journal x
        → IsFrozenWord sizes journal x place → index_of (word_at sizes journal place) ≡ y → y ≢ nowhere
        → mark_of (word_at sizes journal (link_at sizes y)) ≡ 1 → IsSpentWith sizes journal caller y
        × IsFrozenWord sizes journal x (link_at sizes y) }
{}
