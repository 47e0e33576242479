//! The law of ripe nodes: one that may be given back may be so until it is.

ghost use Rattle.std.specs.Prelude.{List};
ghost use Rattle.graph_kinds.specs.History.{Every};
ghost use Rattle.packed_link.specs.Layout.{IsLayout};
ghost use Rattle.packed_link.specs.declared.link.Life.{Life};
ghost use Rattle.core_journal.specs.declared.event.Event.{Event};
ghost use Rattle.core_rule.specs.declared.view.View.{View};
ghost use Rattle.core_stretches.specs.Holdings.{IsGivable};
ghost use Rattle.core_rule.specs.Stretches.{GivesOther};
ghost use Rattle.core_stretches.specs.Makes.{Makes};

/// A node that may be given back may be so over all that its token makes, where each own event gives back another node
/// or none. So a caller may hold ripe nodes over other calls, and over each `Lost` of giving one back.
pub fn ripe_nodes_stay()
    ensures givable { (v w : View) (own : List Event) → IsLayout v.sizes → (x : Life) → Every (GivesOther x.index) own
        → Makes v own w → IsGivable v x → IsGivable w x }
{}
