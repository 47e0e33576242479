//! The laws of reuse: when a node is given again, and in which state each node is.

ghost use Rattle.std.specs.Prelude.{◌≡◌, ℕ, ◌<◌, ◌≤◌, Contains, List, length};
ghost use Rattle.packed_link.specs.Layout.{Sizes, IsLayout};
ghost use Rattle.core_journal.specs.declared.event.Event.{Event};
ghost use Rattle.core_journal.specs.Prefix.{IsPrefix};
ghost use Rattle.core_journal.specs.Reuse.{ReusesSafely};
ghost use Rattle.core_journal.specs.State.{Free, state};
ghost use Rattle.core_kept.specs.Facts.{HasMet, IsKeptSpent};
ghost use Rattle.core_kept.specs.Kept.{IsKept, IsQuiet};
ghost use Rattle.core_kept.specs.Nodes.{IsRipe, IsSpentWith, node_in};
ghost use Rattle.core_kept.specs.Standings.{Standing, StandsAs};

/// No node is given again while an older pass is open: whenever a node is taken, each life for which it was taken
/// before has ended, and each pass that is open then was announced after that end.
pub fn nodes_are_given_again_safely()
    ensures { (sizes : Sizes) → IsLayout sizes → (journal : List Event) → IsKept sizes journal
        → ReusesSafely sizes journal }
{}

/// Each node is on the free list, fresh with one caller, linked, or spent by one caller, and in one of these states
/// only. Its link word is as that state says, and no node but the free ones is on the free list.
pub fn each_node_has_one_standing()
    ensures some { (sizes : Sizes) → IsLayout sizes → (journal : List Event) → IsKept sizes journal
        → (x : ℕ) → x < sizes.nodes → (standing : Standing) × StandsAs sizes journal x standing }
    ensures one { (sizes : Sizes) (journal : List Event) (x : ℕ) (a b : Standing)
        → StandsAs sizes journal x a → StandsAs sizes journal x b → a ≡ b }
    ensures listed { (sizes : Sizes) → IsLayout sizes → (journal : List Event) → IsKept sizes journal
        → (x : ℕ) → Contains (state sizes journal).free x → (node_in sizes journal x).mode ≡ Free }
{}

/// A node that a caller has spent stays with it while only others make events: from a front with all events of the
/// caller on it's the same node, in its life and with its end, and its key, its link and whether its list is closed
/// stay.
pub fn spent_nodes_stay_with_their_caller()
    ensures { (sizes : Sizes) → IsLayout sizes → (caller last x : ℕ) → x < sizes.nodes
        → (front journal : List Event) → IsPrefix front journal → IsKept sizes journal → IsQuiet journal caller last
        → last ≤ length front → IsSpentWith sizes front caller x → IsKeptSpent sizes front journal x }
{}

/// A node that is ripe for anyone is met in no open pass.
pub fn ripe_nodes_are_not_met()
    ensures { (sizes : Sizes) → IsLayout sizes → (journal : List Event) → IsKept sizes journal
        → (caller i x : ℕ) → IsRipe sizes journal caller x → HasMet sizes journal i x → ⊥ }
{}
