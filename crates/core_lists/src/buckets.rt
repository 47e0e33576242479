//! The laws of buckets: what stands on the chain of each bucket after each kept journal.
//!
//! A vertex joins the chain of its key's bucket with its link, and leaves it when it's unlinked; marked or not, it's on
//! it in between. Since keys rise strictly along a chain, no two present vertices have one key.

ghost use Rattle.std.specs.Prelude.{◌≡◌, ◌≢◌, ◌⊎◌, ◌↔◌, ℕ, ◌%◌, ◌<◌, List, Some, true};
ghost use Rattle.packed_link.specs.Link.{mark_of, tag_of};
ghost use Rattle.packed_link.specs.Layout.{IsLayout, Sizes, link_at};
ghost use Rattle.packed_link.specs.declared.link.Life.{Life};
ghost use Rattle.core_journal.specs.declared.event.Event.{Event};
ghost use Rattle.core_journal.specs.GraphOf.{present_key};
ghost use Rattle.core_journal.specs.Life.{key_of, link_of, vertex_marked};
ghost use Rattle.core_journal.specs.Machine.{word_at};
ghost use Rattle.core_lists.specs.Chains.{BucketChains, IsInBucket, IsVertexOf};
ghost use Rattle.core_kept.specs.Kept.{IsKept};
ghost use Rattle.core_kept.specs.Nodes.{IsLinkedVertex};

/// From the word of each bucket, link after link, one meets exactly its linked vertices, each once, by strictly rising
/// keys. They are the lives that were linked as vertices with a key of the bucket, and not unlinked.
pub fn buckets_hold_their_vertices()
    ensures chains { (sizes : Sizes) → IsLayout sizes → (journal : List Event) → IsKept sizes journal
        → BucketChains sizes journal }
    ensures lives { (sizes : Sizes) → IsLayout sizes → (journal : List Event) → IsKept sizes journal
        → (j : ℕ) (x : Life) → IsInBucket sizes journal j x ↔ IsVertexOf sizes journal j x }
{}

/// A vertex that was linked with a key and not marked is on the chain of the bucket of this key, and is linked.
pub fn a_present_vertex_is_on_its_chain()
    ensures bucket { (sizes : Sizes) → IsLayout sizes → (journal : List Event) → IsKept sizes journal
        → (x : Life) (k : ℕ) → present_key journal x ≡ Some k → IsInBucket sizes journal (k % sizes.buckets) x }
    ensures linked { (sizes : Sizes) → IsLayout sizes → (journal : List Event) → IsKept sizes journal
        → (x : Life) (k : ℕ) → present_key journal x ≡ Some k → IsLinkedVertex sizes journal x.index }
{}

/// No two vertices that were linked and not marked have one key.
pub fn one_present_vertex_has_a_key()
    ensures { (sizes : Sizes) → IsLayout sizes → (journal : List Event) → IsKept sizes journal
        → (x y : Life) (k : ℕ) → present_key journal x ≡ Some k → present_key journal y ≡ Some k → x ≡ y }
{}

/// The link of a vertex that was linked tells whether it's present: it is where the link has the tag of its life and no
/// mark, and it's marked where the link is marked or of another life. So it does for a vertex that no pass has met, as
/// an edge's target. A life that was linked, as a vertex or as an edge, is of a node of the table.
pub fn a_link_tells_whether_a_vertex_is_present()
    ensures present { (sizes : Sizes) → IsLayout sizes → (journal : List Event) → IsKept sizes journal
        → (x : Life) (k : ℕ) → key_of journal x ≡ Some k
        → tag_of (word_at sizes journal (link_at sizes x.index)) ≡ x.tag
        → mark_of (word_at sizes journal (link_at sizes x.index)) ≡ 0 → present_key journal x ≡ Some k }
    ensures removed { (sizes : Sizes) → IsLayout sizes → (journal : List Event) → IsKept sizes journal
        → (x : Life) (k : ℕ) → key_of journal x ≡ Some k
        → (tag_of (word_at sizes journal (link_at sizes x.index)) ≢ x.tag)
        ⊎ (mark_of (word_at sizes journal (link_at sizes x.index)) ≡ 1) → vertex_marked journal x ≡ true }
    ensures vertex_there { (sizes : Sizes) (journal : List Event) → IsKept sizes journal → (x : Life) (k : ℕ)
        → key_of journal x ≡ Some k → x.index < sizes.nodes }
    ensures edge_there { (sizes : Sizes) (journal : List Event) → IsKept sizes journal → (x : Life) (link : Event)
        → link_of journal x ≡ Some link → x.index < sizes.nodes }
{}
