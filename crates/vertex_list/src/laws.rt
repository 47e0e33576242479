//! The law of positions: they go on while their token does other things in its pass.

ghost use Rattle.std.specs.Prelude.{◌≡◌, ◌≢◌, ℕ, ◌+◌, ◌<◌, Bool, List};
ghost use Rattle.graph_kinds.specs.History.{Every};
ghost use Rattle.packed_link.specs.Layout.{IsLayout, key_at};
ghost use Rattle.packed_link.specs.declared.link.Life.{Life};
ghost use Rattle.core_journal.specs.declared.event.Event.{Event};
ghost use Rattle.core_rule.specs.Fronts.{LeadsToVertex};
ghost use Rattle.core_rule.specs.declared.view.View.{View};
ghost use Rattle.core_stretches.specs.Holdings.{IsHeldFresh};
ghost use Rattle.core_stretches.specs.Makes.{Makes, StaysInPass};
ghost use Rattle.vertex_list.specs.Positions.{IsGap, IsPosition, LeadsToDead, PositionValue};

/// A position stays one where each event that its token made since then stays in the pass and stands at another place,
/// as where the token freezes the list of a vertex that it unlinked and retires its edges. The key is missing behind
/// it still where it was, and the vertex to which it leads is marked still where it was. The place of a position is
/// that of a bucket or the link of a vertex that was met. No word of a fresh node is one, so filling the node leaves
/// the position, and so do taking a node and steps on edges.
pub fn positions_go_on()
    ensures position { (passed : Bool) (v w : View) (own : List Event) (p : PositionValue) → Every StaysInPass own
        → Every (λ e. e.place ≢ p.place) own → Makes v own w → IsPosition passed v p → IsPosition passed w p }
    ensures gap { (v w : View) (own : List Event) (p : PositionValue) → IsLayout v.sizes → Every StaysInPass own
        → Every (λ e. e.place ≢ p.place) own → Makes v own w → IsGap v p → IsGap w p }
    ensures dead { (v w : View) (own : List Event) (p : PositionValue) → IsLayout v.sizes → Every StaysInPass own
        → Makes v own w → LeadsToDead v p → LeadsToDead w p }
    ensures leads { (passed : Bool) (v : View) (p : PositionValue) → IsLayout v.sizes → IsPosition passed v p
        → LeadsToVertex v p.place }
    ensures apart { (passed : Bool) (v : View) (p : PositionValue) (x : Life) (field : ℕ) → IsLayout v.sizes
        → field < 4 → IsHeldFresh v x → IsPosition passed v p → key_at v.sizes x.index + field ≢ p.place }
{}
