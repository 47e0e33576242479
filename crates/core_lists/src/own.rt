//! The laws of one event: what it does to its node, and what it leaves as it was.

ghost use Rattle.std.specs.Prelude.{◌≡◌, ◌≢◌, ℕ, ◌+◌, ◌<◌, Bool, true, false, List, [], ◌∷◌, ◌++◌, length};
ghost use Rattle.packed_link.specs.Layout.{IsLayout, Sizes};
ghost use Rattle.core_journal.specs.declared.event.Event.{Event};
ghost use Rattle.core_journal.specs.declared.event.Kind.{Kind};
ghost use Rattle.core_journal.specs.declared.event.Kind.TheVariants.{Announce, DrawNumber, LinkEdge, LinkVertex};
ghost use Rattle.core_journal.specs.declared.event.Kind.TheVariants.{PopFree, PushFree, ReplaceEdge, StoreFree};
ghost use Rattle.core_journal.specs.declared.event.Kind.TheVariants.{StorePrivate};
ghost use Rattle.core_journal.specs.declared.event.Kind.TheVariants.{UnlinkEdge, UnlinkVertex, Withdraw};
ghost use Rattle.core_journal.specs.Machine.{word_at};
ghost use Rattle.core_journal.specs.Reuse.{pass_in};
ghost use Rattle.core_journal.specs.State.{state};
ghost use Rattle.core_lists.specs.Chains.{HasList};
ghost use Rattle.core_kept.specs.Counts.{made};
ghost use Rattle.core_kept.specs.Facts.{IsHeld, IsKeptSpent};
ghost use Rattle.core_kept.specs.Freezing.{IsSpentVertex};
ghost use Rattle.core_kept.specs.Kept.{IsKept, IsQuiet};
ghost use Rattle.core_kept.specs.Nodes.{IsFreshWith, IsLinkedEdge, IsLinkedVertex, IsSpentWith, node_in, is_listed};

/// What an event leaves as it was: a node that it isn't about and that is fresh with a caller, with all its words, or
/// spent with a caller, with its key and its link; that a node is spent with a caller, in its life, but where it's
/// given back; each pass, but where one is announced or withdrawn; and that a caller holds no fresh node, but where one
/// is taken.
pub fn each_event_keeps_the_rest()
    ensures fresh { (sizes : Sizes) → IsLayout sizes → (past : List Event) (e : Event) → IsKept sizes (past ++ e ∷ [])
        → (caller x : ℕ) → x < sizes.nodes → x ≢ e.life.index → IsFreshWith sizes past caller x
        → IsHeld sizes past (past ++ e ∷ []) x }
    ensures spent { (sizes : Sizes) → IsLayout sizes → (past : List Event) (e : Event) → IsKept sizes (past ++ e ∷ [])
        → (caller x : ℕ) → x < sizes.nodes → x ≢ e.life.index → IsSpentWith sizes past caller x
        → IsKeptSpent sizes past (past ++ e ∷ []) x }
    ensures spent_still { (sizes : Sizes) → IsLayout sizes → (past : List Event) (e : Event)
        → IsKept sizes (past ++ e ∷ []) → (caller x : ℕ) → (e.kind ≡ PushFree → e.life.index ≢ x)
        → IsSpentWith sizes past caller x → IsSpentWith sizes (past ++ e ∷ []) caller x
        × ((node_in sizes (past ++ e ∷ []) x).tag ≡ (node_in sizes past x).tag)
        × ((node_in sizes (past ++ e ∷ []) x).vertex ≡ (node_in sizes past x).vertex) }
    ensures pass { (sizes : Sizes) (past : List Event) (e : Event) → IsKept sizes (past ++ e ∷ [])
        → e.kind ≢ Announce → e.kind ≢ Withdraw → (caller : ℕ)
        → pass_in sizes (past ++ e ∷ []) caller ≡ pass_in sizes past caller }
    ensures none_fresh { (sizes : Sizes) (past : List Event) (e : Event) → IsKept sizes (past ++ e ∷ [])
        → e.kind ≢ PopFree → (caller : ℕ) → ((x : ℕ) → x < sizes.nodes → IsFreshWith sizes past caller x → ⊥)
        → (x : ℕ) → x < sizes.nodes → IsFreshWith sizes (past ++ e ∷ []) caller x → ⊥ }
{}

/// What an event does, by its kind: it writes its word, and its life is that of its node; a node that is taken is fresh
/// with the caller, one that is filled stays as it is, and one that is linked, in the place of another or not, is a
/// linked vertex, or a linked edge of its source, and was the caller's only fresh node; an edge that is replaced is
/// marked; a node that is unlinked is spent with the caller, a vertex then
/// has a list, an edge stands on no list, and one whose link is stored for the free list stays spent with it; a pass
/// that is announced began there, and one that is withdrawn is closed.
pub fn each_event_changes_its_node()
    ensures written { (sizes : Sizes) (past : List Event) (e : Event) → IsKept sizes (past ++ e ∷ [])
        → word_at sizes (past ++ e ∷ []) e.place ≡ e.word }
    ensures life { (sizes : Sizes) → IsLayout sizes → (past : List Event) (e : Event) → IsKept sizes (past ++ e ∷ [])
        → e.life.index < sizes.nodes → e.life.tag ≡ (node_in sizes (past ++ e ∷ []) e.life.index).tag }
    ensures taken { (sizes : Sizes) (past : List Event) (e : Event) → IsKept sizes (past ++ e ∷ []) → e.kind ≡ PopFree
        → (e.life.index < sizes.nodes) × IsFreshWith sizes (past ++ e ∷ []) e.caller e.life.index }
    ensures filled { (sizes : Sizes) (past : List Event) (e : Event) → IsKept sizes (past ++ e ∷ [])
        → e.kind ≡ StorePrivate → (x : ℕ) → node_in sizes (past ++ e ∷ []) x ≡ node_in sizes past x }
    ensures vertex { (sizes : Sizes) (past : List Event) (e : Event) → IsKept sizes (past ++ e ∷ [])
        → e.kind ≡ LinkVertex → IsLinkedVertex sizes (past ++ e ∷ []) e.life.index
        × ((x : ℕ) → x < sizes.nodes → IsFreshWith sizes (past ++ e ∷ []) e.caller x → ⊥) }
    ensures edge { (sizes : Sizes) (past : List Event) (e : Event) → IsKept sizes (past ++ e ∷ [])
        → e.kind ≡ LinkEdge → IsLinkedEdge sizes (past ++ e ∷ []) e.life.index
        × ((node_in sizes (past ++ e ∷ []) e.life.index).source ≡ e.source)
        × ((x : ℕ) → x < sizes.nodes → IsFreshWith sizes (past ++ e ∷ []) e.caller x → ⊥) }
    ensures replaced { (sizes : Sizes) → IsLayout sizes → (past : List Event) (e : Event)
        → IsKept sizes (past ++ e ∷ []) → e.kind ≡ ReplaceEdge → IsLinkedEdge sizes (past ++ e ∷ []) e.life.index
        × ((node_in sizes (past ++ e ∷ []) e.life.index).source ≡ e.source)
        × ((node_in sizes (past ++ e ∷ []) e.old.index).marked ≡ true)
        × ((x : ℕ) → x < sizes.nodes → IsFreshWith sizes (past ++ e ∷ []) e.caller x → ⊥) }
    ensures vertex_spent { (sizes : Sizes) → IsLayout sizes → (past : List Event) (e : Event)
        → IsKept sizes (past ++ e ∷ [])
        → e.kind ≡ UnlinkVertex → IsSpentVertex sizes (past ++ e ∷ []) e.caller e.life.index
        × HasList sizes (past ++ e ∷ []) e.life.index }
    ensures edge_spent { (sizes : Sizes) (past : List Event) (e : Event) → IsKept sizes (past ++ e ∷ [])
        → e.kind ≡ UnlinkEdge → IsSpentWith sizes (past ++ e ∷ []) e.caller e.life.index
        × ((x : ℕ) → is_listed (state sizes (past ++ e ∷ [])) x e.life.index ≡ false) }
    ensures stored { (sizes : Sizes) (past : List Event) (e : Event) → IsKept sizes (past ++ e ∷ [])
        → e.kind ≡ StoreFree → IsSpentWith sizes (past ++ e ∷ []) e.caller e.life.index
        × ((node_in sizes (past ++ e ∷ []) e.life.index).stored ≡ true) }
    ensures announced { (sizes : Sizes) (past : List Event) (e : Event) → IsKept sizes (past ++ e ∷ [])
        → e.kind ≡ Announce → ((pass_in sizes (past ++ e ∷ []) e.caller).is_open ≡ true)
        × ((pass_in sizes (past ++ e ∷ []) e.caller).since ≡ length past) }
    ensures withdrawn { (sizes : Sizes) (past : List Event) (e : Event) → IsKept sizes (past ++ e ∷ [])
        → e.kind ≡ Withdraw → (pass_in sizes (past ++ e ∷ []) e.caller).is_open ≡ false }
{}

/// A caller holds at most one fresh node.
pub fn a_caller_fills_one_node()
    ensures { (sizes : Sizes) (journal : List Event) → IsKept sizes journal → (caller x y : ℕ)
        → IsFreshWith sizes journal caller x → IsFreshWith sizes journal caller y → x ≡ y }
{}

/// A caller whose number was drawn last has no open pass, no fresh node and no spent one, and made no event but that
/// draw.
pub fn a_new_number_has_nothing()
    ensures pass { (sizes : Sizes) (past : List Event) (e : Event) → IsKept sizes (past ++ e ∷ []) → e.kind ≡ DrawNumber
        → (pass_in sizes (past ++ e ∷ []) e.caller).is_open ≡ false }
    ensures fresh { (sizes : Sizes) (past : List Event) (e : Event) → IsKept sizes (past ++ e ∷ [])
        → e.kind ≡ DrawNumber
        → (x : ℕ) → IsFreshWith sizes (past ++ e ∷ []) e.caller x → ⊥ }
    ensures spent { (sizes : Sizes) (past : List Event) (e : Event) → IsKept sizes (past ++ e ∷ [])
        → e.kind ≡ DrawNumber
        → (x : ℕ) → IsSpentWith sizes (past ++ e ∷ []) e.caller x → ⊥ }
    ensures made { (sizes : Sizes) (past : List Event) (e : Event) → IsKept sizes (past ++ e ∷ []) → e.kind ≡ DrawNumber
        → (test : Kind → Bool) → test DrawNumber ≡ false → made test e.caller (past ++ e ∷ []) ≡ 0 }
    ensures quiet { (sizes : Sizes) (past : List Event) (e : Event) → IsKept sizes (past ++ e ∷ [])
        → e.kind ≡ DrawNumber
        → IsQuiet past e.caller 0 }
{}
