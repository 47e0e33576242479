//! The laws of what lasts: how a spent node becomes ripe, and that what an open pass has met keeps its words.

ghost use Rattle.std.specs.Prelude.{◌≡◌, ◌≢◌, ℕ, ◌+◌, ◌<◌, ◌≤◌, false, List, [], ◌∷◌, ◌++◌, length};
ghost use Rattle.packed_link.specs.Layout.{Sizes, IsLayout, epoch_at, key_at, link_at, second_at, third_at};
ghost use Rattle.packed_link.specs.Link.{mark_of};
ghost use Rattle.core_journal.specs.declared.event.Event.{Event};
ghost use Rattle.core_journal.specs.declared.event.Kind.TheVariants.{PushFree};
ghost use Rattle.core_journal.specs.Prefix.{IsPrefix};
ghost use Rattle.core_journal.specs.Machine.{word_at};
ghost use Rattle.core_kept.specs.Facts.{HasMet, IsSamePass};
ghost use Rattle.core_kept.specs.Kept.{IsKept, IsQuiet};
ghost use Rattle.core_kept.specs.Nodes.{IsRipe, IsSpentWith, IsStamped, node_in};

/// How a spent node becomes ripe. A node that is spent with a caller at a moment has each stamp that is at least the
/// epoch then (`stamp`), and one with a stamp is ripe once an epoch of stamp + 2 was shown (`ripens`). Stamps and
/// ripeness stay while others act (`stamp_beyond`, `ripe_beyond`), and behind each event but that which gives the node
/// back (`stamp_behind`, `ripe_behind`).
pub fn spent_nodes_become_ripe()
    ensures stamp { (sizes : Sizes) (journal : List Event) (caller x stamp : ℕ) → IsSpentWith sizes journal caller x
        → word_at sizes journal (epoch_at sizes) ≤ stamp → IsStamped sizes journal caller x stamp }
    ensures ripens { (sizes : Sizes) (shown journal : List Event) → IsPrefix shown journal → (caller x stamp : ℕ)
        → IsStamped sizes journal caller x stamp → stamp + 2 ≤ word_at sizes shown (epoch_at sizes)
        → IsRipe sizes journal caller x }
    ensures stamp_beyond { (sizes : Sizes) → IsLayout sizes → (caller last x stamp : ℕ) (front journal : List Event)
        → IsPrefix front journal → IsKept sizes journal → IsQuiet journal caller last → last ≤ length front
        → IsStamped sizes front caller x stamp → IsStamped sizes journal caller x stamp }
    ensures stamp_behind { (sizes : Sizes) → IsLayout sizes → (past : List Event) (e : Event)
        → IsKept sizes (past ++ e ∷ []) → (caller x stamp : ℕ) → (e.kind ≡ PushFree → e.life.index ≢ x)
        → IsStamped sizes past caller x stamp → IsStamped sizes (past ++ e ∷ []) caller x stamp }
    ensures ripe_beyond { (sizes : Sizes) → IsLayout sizes → (caller last x : ℕ) (front journal : List Event)
        → IsPrefix front journal → IsKept sizes journal → IsQuiet journal caller last → last ≤ length front
        → IsRipe sizes front caller x → IsRipe sizes journal caller x }
    ensures ripe_behind { (sizes : Sizes) → IsLayout sizes → (past : List Event) (e : Event)
        → IsKept sizes (past ++ e ∷ []) → (caller x : ℕ) → (e.kind ≡ PushFree → e.life.index ≢ x)
        → IsRipe sizes past caller x → IsRipe sizes (past ++ e ∷ []) caller x }
{}

/// What an open pass has met it has met still while the pass is open: the node is in the same life, a vertex or an edge
/// as it was, with the same key, and an edge with the same source, target and weight. It isn't stored for the free
/// list, and its link stays once it's marked.
pub fn what_is_met_keeps_its_words()
    ensures met { (sizes : Sizes) → IsLayout sizes → (front journal : List Event) → IsKept sizes journal
        → (caller x : ℕ) → IsSamePass sizes front journal caller → HasMet sizes front caller x
        → HasMet sizes journal caller x }
    ensures life { (sizes : Sizes) → IsLayout sizes → (front journal : List Event) → IsKept sizes journal
        → (caller x : ℕ) → IsSamePass sizes front journal caller → HasMet sizes front caller x
        → (node_in sizes journal x).tag ≡ (node_in sizes front x).tag }
    ensures kind { (sizes : Sizes) → IsLayout sizes → (front journal : List Event) → IsKept sizes journal
        → (caller x : ℕ) → IsSamePass sizes front journal caller → HasMet sizes front caller x
        → (node_in sizes journal x).vertex ≡ (node_in sizes front x).vertex }
    ensures key { (sizes : Sizes) → IsLayout sizes → (front journal : List Event) → IsKept sizes journal
        → (caller x : ℕ) → x < sizes.nodes → IsSamePass sizes front journal caller → HasMet sizes front caller x
        → word_at sizes journal (key_at sizes x) ≡ word_at sizes front (key_at sizes x) }
    ensures target { (sizes : Sizes) → IsLayout sizes → (front journal : List Event) → IsKept sizes journal
        → (caller x : ℕ) → x < sizes.nodes → IsSamePass sizes front journal caller → HasMet sizes front caller x
        → (node_in sizes front x).vertex ≡ false
        → word_at sizes journal (second_at sizes x) ≡ word_at sizes front (second_at sizes x) }
    ensures weight { (sizes : Sizes) → IsLayout sizes → (front journal : List Event) → IsKept sizes journal
        → (caller x : ℕ) → x < sizes.nodes → IsSamePass sizes front journal caller → HasMet sizes front caller x
        → (node_in sizes front x).vertex ≡ false
        → word_at sizes journal (third_at sizes x) ≡ word_at sizes front (third_at sizes x) }
    ensures unstored { (sizes : Sizes) → IsLayout sizes → (journal : List Event) → IsKept sizes journal
        → (caller x : ℕ) → x < sizes.nodes → HasMet sizes journal caller x → (node_in sizes journal x).stored ≡ false }
    ensures link { (sizes : Sizes) → IsLayout sizes → (front journal : List Event) → IsKept sizes journal
        → (caller x : ℕ) → x < sizes.nodes → IsSamePass sizes front journal caller → HasMet sizes front caller x
        → mark_of (word_at sizes front (link_at sizes x)) ≡ 1
        → word_at sizes journal (link_at sizes x) ≡ word_at sizes front (link_at sizes x) }
    ensures source { (sizes : Sizes) → IsLayout sizes → (front journal : List Event) → IsKept sizes journal
        → (caller x : ℕ) → IsSamePass sizes front journal caller → HasMet sizes front caller x
        → (node_in sizes journal x).source ≡ (node_in sizes front x).source }
{}
