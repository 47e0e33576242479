//! The law of a raise: it is for each edge that was linked before it.

ghost use Rattle.std.specs.Prelude.{◌≡◌, List, [], ◌∷◌, ◌++◌, Some};
ghost use Rattle.packed_link.specs.Layout.{Sizes};
ghost use Rattle.packed_link.specs.declared.link.Life.{Life};
ghost use Rattle.core_journal.specs.declared.event.Event.{Event};
ghost use Rattle.core_journal.specs.declared.event.Kind.TheVariants.{Raise};
ghost use Rattle.core_journal.specs.Life.{link_of};
ghost use Rattle.core_kept.specs.Edges.{IsRaisedFor};
ghost use Rattle.core_kept.specs.Kept.{IsKept};

/// A raise is for each edge that was linked before it: its caller raised the counter of its vertex in its pass, when
/// the edge was linked.
pub fn a_raise_is_for_edges_linked_before()
    ensures { (sizes : Sizes) (past : List Event) (e : Event) → IsKept sizes (past ++ e ∷ []) → e.kind ≡ Raise
        → (edge : Life) (link : Event) → link_of past edge ≡ Some link
        → IsRaisedFor sizes (past ++ e ∷ []) e.caller edge e.life }
{}
