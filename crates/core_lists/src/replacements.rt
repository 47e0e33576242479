//! The laws of edges that were replaced: what a marked link tells of it.
//!
//! An edge is replaced by one write to its link, which marks it and leads to the new edge. A marked link doesn't change
//! while one may come to its node: the node stands on a list that isn't frozen to its end, or an open pass has met it
//! (`IsInReach` of `specs/Replacements.antt`). So whoever comes to a marked edge reads off its link whether it was
//! replaced: then the link leads to a node of its key, and else to none or to one of a greater key.

ghost use Rattle.std.specs.Prelude.{◌≡◌, ◌≢◌, ℕ, ◌<◌, false, List};
ghost use Rattle.packed_link.specs.Link.{index_of, mark_of, nowhere};
ghost use Rattle.packed_link.specs.Layout.{IsLayout, Sizes, key_at, link_at};
ghost use Rattle.packed_link.specs.declared.link.Life.{Life};
ghost use Rattle.core_journal.specs.declared.event.Event.{Event};
ghost use Rattle.core_journal.specs.Machine.{word_at};
ghost use Rattle.core_lists.specs.Chains.{life_in};
ghost use Rattle.core_kept.specs.Kept.{IsKept};
ghost use Rattle.core_kept.specs.Nodes.{IsLinkedEdge, node_in};
ghost use Rattle.core_lists.specs.Replacements.{IsInReach, IsReplacedBy, LeadsToItsKey};

/// Where the link of an edge to which one may come is marked and leads to a node of the edge's key, an event of the
/// journal replaced the edge by the life of that node (`told`); and a link that leads to a node of its own node's key
/// is marked (`same_key`). So two neighbours on a list have one key only where the first is marked and was replaced by
/// the second. Where an event replaced an edge to which one may come, its link is so, and leads to the life that
/// replaced it (`leads`); so any other link tells that none did. Until it's stored for the free list, the link of an
/// edge that was replaced is marked and leads to the node that replaced it (`word`). One may come to each linked edge
/// (`linked`), and from a node to which one may come to that to which its link leads (`next`).
pub fn a_marked_link_tells_whether_its_edge_was_replaced()
    ensures told { (sizes : Sizes) → IsLayout sizes → (journal : List Event) → IsKept sizes journal → (x : Life)
        → x.index < sizes.nodes → x.tag ≡ (node_in sizes journal x.index).tag
        → (node_in sizes journal x.index).vertex ≡ false → IsInReach sizes journal x.index
        → LeadsToItsKey sizes journal x.index
        → IsReplacedBy journal x (life_in sizes journal (index_of (word_at sizes journal (link_at sizes x.index)))) }
    ensures same_key { (sizes : Sizes) → IsLayout sizes → (journal : List Event) → IsKept sizes journal → (x : ℕ)
        → x < sizes.nodes → IsInReach sizes journal x → index_of (word_at sizes journal (link_at sizes x)) ≢ nowhere
        → word_at sizes journal (key_at sizes (index_of (word_at sizes journal (link_at sizes x))))
        ≡ word_at sizes journal (key_at sizes x) → LeadsToItsKey sizes journal x }
    ensures leads { (sizes : Sizes) → IsLayout sizes → (journal : List Event) → IsKept sizes journal → (x new : Life)
        → x.tag ≡ (node_in sizes journal x.index).tag → IsInReach sizes journal x.index → IsReplacedBy journal x new
        → LeadsToItsKey sizes journal x.index
        × (new ≡ life_in sizes journal (index_of (word_at sizes journal (link_at sizes x.index)))) }
    ensures word { (sizes : Sizes) → IsLayout sizes → (journal : List Event) → IsKept sizes journal → (x new : Life)
        → x.tag ≡ (node_in sizes journal x.index).tag → (node_in sizes journal x.index).stored ≡ false
        → IsReplacedBy journal x new → (index_of (word_at sizes journal (link_at sizes x.index)) ≡ new.index)
        × (mark_of (word_at sizes journal (link_at sizes x.index)) ≡ 1) }
    ensures linked { (sizes : Sizes) → IsLayout sizes → (journal : List Event) → IsKept sizes journal → (x : ℕ)
        → x < sizes.nodes → IsLinkedEdge sizes journal x → IsInReach sizes journal x }
    ensures next { (sizes : Sizes) → IsLayout sizes → (journal : List Event) → IsKept sizes journal → (x : ℕ)
        → x < sizes.nodes → IsInReach sizes journal x → index_of (word_at sizes journal (link_at sizes x)) ≢ nowhere
        → (index_of (word_at sizes journal (link_at sizes x)) < sizes.nodes)
        × IsInReach sizes journal (index_of (word_at sizes journal (link_at sizes x))) }
{}
