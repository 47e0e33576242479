//! The laws of freezing: along the frozen words of a closed list one meets all its edges, and the graph stays.

ghost use Rattle.std.specs.Prelude.{◌≡◌, ◌≢◌, ℕ, false, List, [], ◌∷◌, ◌++◌};
ghost use Rattle.packed_link.specs.Link.{index_of, nowhere};
ghost use Rattle.packed_link.specs.Layout.{IsLayout, Sizes, link_at, second_at};
ghost use Rattle.core_chain.specs.Chain.{Head};
ghost use Rattle.core_journal.specs.declared.event.Event.{Event};
ghost use Rattle.core_journal.specs.declared.event.Kind.TheVariants.{FreezeEdge};
ghost use Rattle.core_journal.specs.GraphOf.{changes};
ghost use Rattle.core_journal.specs.Machine.{word_at};
ghost use Rattle.core_journal.specs.State.{state};
ghost use Rattle.core_kept.specs.Freezing.{IsFrozenWord};
ghost use Rattle.core_kept.specs.Kept.{IsKept};
ghost use Rattle.core_lists.specs.Chains.{KeepsList};
ghost use Rattle.core_lists.specs.FrozenPaths.{FrozenPath};

/// A path along the frozen words of a list begins at the vertex's second word (`head`) and goes on where its last word
/// is frozen and leads to an edge (`more`). Where its last word leads to none, its edges are all those of the list, in
/// their order (`all`): so who handed them over one by one has handed over the whole list.
pub fn a_frozen_path_meets_the_list()
    ensures head { (sizes : Sizes) (journal : List Event) (x : ℕ)
        → FrozenPath sizes journal x Head [] (second_at sizes x) }
    ensures more { (sizes : Sizes) (journal : List Event) (x : ℕ) (ys : List ℕ) (place y : ℕ)
        → FrozenPath sizes journal x Head ys place → IsFrozenWord sizes journal x place
        → index_of (word_at sizes journal place) ≡ y → y ≢ nowhere
        → FrozenPath sizes journal x Head (ys ++ y ∷ []) (link_at sizes y) }
    ensures all { (sizes : Sizes) → IsLayout sizes → (journal : List Event) → IsKept sizes journal → (x : ℕ)
        → KeepsList sizes journal x → (ys : List ℕ) (place : ℕ) → FrozenPath sizes journal x Head ys place
        → index_of (word_at sizes journal place) ≡ nowhere → (state sizes journal).edges x ≡ ys }
{}

/// The freezing of an edge leaves the graph as it is, since its source is marked by then: a call that helps to remove
/// a vertex changes nothing by it.
pub fn a_freezing_leaves_the_graph()
    ensures { (sizes : Sizes) → IsLayout sizes → (past : List Event) (e : Event) → IsKept sizes (past ++ e ∷ [])
        → e.kind ≡ FreezeEdge → changes past e ≡ false }
{}
