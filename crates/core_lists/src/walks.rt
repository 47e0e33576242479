//! The laws of walks: what a walk from word to word meets, through marked and unlinked nodes too.
//!
//! A walk loads a word, goes to the node to which it leads, loads a word of that node, and so on. Until it's stored for
//! the free list, a spent node keeps its link, which led to a linked node or to one that was spent with it. So each
//! word that a walk in an open pass loads leads to none or to a node that this pass has met (`HasMet`), along one
//! bucket or one list, by rising keys: two nodes one behind the other have one key only where they are edges and the
//! first is marked.

ghost use Rattle.std.specs.Prelude.{◌≡◌, ℕ, ◌<◌, true, List};
ghost use Rattle.graph_kinds.specs.History.{Every};
ghost use Rattle.packed_link.specs.Layout.{IsLayout, Sizes, bucket_at, link_at, second_at};
ghost use Rattle.core_journal.specs.declared.event.Event.{Event};
ghost use Rattle.core_journal.specs.Machine.{word_at};
ghost use Rattle.core_journal.specs.Reuse.{pass_in};
ghost use Rattle.core_journal.specs.State.{Linked};
ghost use Rattle.core_kept.specs.Facts.{HasMet};
ghost use Rattle.core_kept.specs.Kept.{IsKept};
ghost use Rattle.core_kept.specs.Nodes.{node_in};
ghost use Rattle.core_lists.specs.Walks.{IsMetBehind, IsMetFirst, IsMetIn, IsWalk, LeadsTo, Load, SpentLinks, StaysMet};

/// The link of a spent node that isn't stored for the free list leads to none, to a linked node, or to one whose last
/// end isn't before its own; and so does the second word of a spent vertex.
pub fn spent_nodes_lead_no_further_back()
    ensures { (sizes : Sizes) → IsLayout sizes → (journal : List Event) → IsKept sizes journal
        → SpentLinks sizes journal }
{}

/// What a walk in an open pass meets, that pass has met. The word of a bucket leads to none or to a vertex of this
/// bucket. The link of a node that was met, marked or not, leads to none or to a node of its bucket or its source with
/// no smaller key, and with a greater one where it's a vertex or the link is unmarked. The second word of a vertex that
/// was met, closed or not, leads to none or to an edge of its life. Each linked node is met. So each load of a walk led
/// to none or to a node that the pass had met then, and has met still, in the same life (`walk`): also where nodes of
/// it were marked, unlinked, or had their lists frozen in between.
pub fn a_walk_meets_what_its_pass_may_hold()
    ensures head { (sizes : Sizes) → IsLayout sizes → (journal : List Event) → IsKept sizes journal
        → (caller : ℕ) → (pass_in sizes journal caller).is_open ≡ true → (j : ℕ) → j < sizes.buckets
        → LeadsTo (word_at sizes journal (bucket_at sizes j)) (IsMetFirst sizes journal caller j) }
    ensures link { (sizes : Sizes) → IsLayout sizes → (journal : List Event) → IsKept sizes journal
        → (caller x : ℕ) → x < sizes.nodes → HasMet sizes journal caller x
        → LeadsTo (word_at sizes journal (link_at sizes x)) (IsMetBehind sizes journal caller x) }
    ensures list { (sizes : Sizes) → IsLayout sizes → (journal : List Event) → IsKept sizes journal
        → (caller x : ℕ) → x < sizes.nodes → HasMet sizes journal caller x → (node_in sizes journal x).vertex ≡ true
        → LeadsTo (word_at sizes journal (second_at sizes x)) (IsMetIn sizes journal caller x) }
    ensures linked { (sizes : Sizes) (journal : List Event) (caller x : ℕ)
        → (pass_in sizes journal caller).is_open ≡ true → (node_in sizes journal x).mode ≡ Linked
        → HasMet sizes journal caller x }
    ensures walk { (sizes : Sizes) → IsLayout sizes → (journal : List Event) → IsKept sizes journal
        → (caller : ℕ) (loads : List Load) → IsWalk sizes journal caller loads
        → Every (λ (l : Load). LeadsTo (word_at sizes l.moment l.place)
        (StaysMet sizes l.moment journal caller)) loads }
{}
