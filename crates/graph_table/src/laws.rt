//! A law for the layers that fill nodes: the event that links an edge is that of the words with which it was filled.

ghost use Rattle.std.specs.Prelude.{◌≡◌, ℕ, ◌<◌, ◌^◌};
ghost use Rattle.packed_link.specs.Layout.{IsLayout};
ghost use Rattle.packed_link.specs.declared.link.Life.{Life};
ghost use Rattle.core_rule.specs.Fronts.{MayLinkEdge, MayReplaceEdge};
ghost use Rattle.core_rule.specs.OwnEvents.{link_edge_event, replace_event};
ghost use Rattle.core_rule.specs.declared.view.View.{View};
ghost use Rattle.graph_table.specs.Filled.{MayLinkFilledEdge, MayReplaceByFilled, filled_edge_event, replaced_event};

/// Where an edge may be linked or replaced with a key, source, target and weight, these are the ones that the node's
/// words and the place name: so what `link_edge` and `replace_edge` ask for is what a caller shows for its own values.
pub fn an_edge_is_linked_as_it_was_filled()
    ensures link { (v : View) → IsLayout v.sizes
        → (place seen key : ℕ) (source target : Life) (weight : ℕ) (x : Life)
        → MayLinkEdge v place seen key source target weight x → MayLinkFilledEdge v place seen x
        × (filled_edge_event v place seen x ≡ link_edge_event v place seen key source target weight x) }
    ensures replace { (v : View) (seen key : ℕ) (source target : Life) (weight : ℕ) (old x : Life)
        → target.index < 2 ^ 24 → MayReplaceEdge v seen key source target weight old x → MayReplaceByFilled v seen old x
        × (replaced_event v seen old x ≡ replace_event v seen key source target weight old x) }
{}
