//! The laws of effects: what an event of each kind does to the chains of the table and to the graph.
//!
//! Each event changes at most one word of one chain: of the buckets' chains, and of the lists that aren't frozen to
//! their end (`HasList`). Those that link and mark change the graph as the call which they carry out; all others leave
//! it (core_journal's table of changes, whose premises hold of kept journals).

ghost use Rattle.std.specs.Prelude.{List};
ghost use Rattle.packed_link.specs.Layout.{IsLayout, Sizes};
ghost use Rattle.core_journal.specs.declared.event.Event.{Event};
ghost use Rattle.core_journal.specs.GraphOf.{IsRegular};
ghost use Rattle.core_lists.specs.Effects.{EffectAs};
ghost use Rattle.core_kept.specs.Kept.{Allowed, IsKept};

/// Each kind has its effect: the step of the chain at whose word the event is, the chains of all other buckets and all
/// other lists that aren't frozen to their end untouched, and the graph after the call that it carries out, or as it
/// was.
pub fn each_kind_has_its_effect()
    ensures effect { (sizes : Sizes) → IsLayout sizes → (past : List Event) (e : Event) → IsKept sizes past
        → Allowed sizes past e → EffectAs e.kind sizes past e }
{}

/// A kept journal is regular: each mark of a vertex changes the graph, and each event that changes it carries out its
/// call.
pub fn kept_journals_are_regular()
    ensures regular { (sizes : Sizes) → IsLayout sizes → (journal : List Event) → IsKept sizes journal
        → IsRegular journal }
{}
