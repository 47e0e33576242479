//! The laws of the words beside the state: what the words of the table are after each kept journal.
//!
//! The state after a journal (core_journal's `state`) has no words, and the words have no states; each record of
//! `specs/Facts.antt` ties some of them together. They are proved by one induction each. What core_epoch has laws of,
//! passes, ends of lives and the free list, is said here of the state in its form (`specs/Moments.antt`,
//! `specs/Free.antt`).

ghost use Rattle.std.specs.Prelude.{◌≡◌, ◌≢◌, ◌⊎◌, ℕ, ◌+◌, ◌<◌, ◌≤◌, true, false, List};
ghost use Rattle.packed_link.specs.Link.{index_of, mark_bit, mark_of, nowhere, tag_of};
ghost use Rattle.packed_link.specs.Layout.{Sizes, IsLayout, epoch_at, free_at, link_at, second_at};
ghost use Rattle.core_epoch.specs.Clock.{Announcements, IsClear, IsNear};
ghost use Rattle.core_epoch.specs.Ends.{Ended, Ordered};
ghost use Rattle.core_epoch.specs.Free.{FreeList};
ghost use Rattle.core_journal.specs.declared.event.Event.{Event};
ghost use Rattle.core_journal.specs.Prefix.{IsPrefix};
ghost use Rattle.core_journal.specs.Machine.{word_at};
ghost use Rattle.core_journal.specs.State.{Free, Fresh, Linked, state};
ghost use Rattle.core_journal.specs.Reuse.{pass_in};
ghost use Rattle.core_kept.specs.Nodes.{IsRipe, IsUsed, node_in};
ghost use Rattle.core_kept.specs.FreeNodes.{IsPopFree};
ghost use Rattle.core_kept.specs.Kept.{IsKept};
ghost use Rattle.core_kept.specs.Facts.{Bounds, Contents, Counters, LinkWords, LinkedOnce, Lives, Named, FirstWords};
ghost use Rattle.core_kept.specs.Free.{pool_in};
ghost use Rattle.core_kept.specs.Moments.{clock_in, ends_in};
ghost use Rattle.core_kept.specs.Passes.{IsChecked};

/// The first words are the number of caller numbers drawn, at most one a caller, and the epoch, which only rises.
pub fn first_words_count()
    ensures numbers { (sizes : Sizes) (journal : List Event) → IsKept sizes journal
        → FirstWords sizes (state sizes journal) (word_at sizes journal) }
    ensures epoch_rises { (sizes : Sizes) (front journal : List Event) → IsPrefix front journal → IsKept sizes journal
        → word_at sizes front (epoch_at sizes) ≤ word_at sizes journal (epoch_at sizes) }
{}

/// A caller's announcement is 0 outside its pass, and in it one above an epoch that is no later than the pass's birth.
pub fn announcements_tell_passes()
    ensures { (sizes : Sizes) (journal : List Event) → IsKept sizes journal
        → Announcements sizes.callers (clock_in sizes journal) }
{}

/// The free list holds exactly the free nodes, each once, and its word's tag counts its changes. So a node that is
/// taken was free, and begins its next life; and where the word of the list is again one that was seen before its
/// node's link was, that link is still the same. The word leads to none or to a node of the table (`first`).
pub fn free_list_is_exact()
    ensures list { (sizes : Sizes) → IsLayout sizes → (journal : List Event) → IsKept sizes journal
        → FreeList sizes.nodes (pool_in sizes journal) }
    ensures first { (sizes : Sizes) → IsLayout sizes → (journal : List Event) → IsKept sizes journal
        → (index_of (word_at sizes journal (free_at sizes)) ≡ nowhere)
        ⊎ (index_of (word_at sizes journal (free_at sizes)) < sizes.nodes) }
    ensures free { (sizes : Sizes) → IsLayout sizes → (past : List Event) (e : Event) → IsKept sizes past
        → IsPopFree sizes past e → (node_in sizes past e.life.index).mode ≡ Free }
    ensures next_life { (sizes : Sizes) → IsLayout sizes → (past : List Event) (e : Event) → IsKept sizes past
        → IsPopFree sizes past e → e.life.tag ≡ (node_in sizes past e.life.index).tag + 1 }
    ensures again { (sizes : Sizes) → IsLayout sizes → (seen next : ℕ) → index_of seen < sizes.nodes
        → (first second journal : List Event) → IsPrefix first second → IsPrefix second journal
        → IsKept sizes journal → word_at sizes first (free_at sizes) ≡ seen
        → word_at sizes second (link_at sizes (index_of seen)) ≡ next → word_at sizes journal (free_at sizes) ≡ seen
        → word_at sizes journal (link_at sizes (index_of seen)) ≡ next }
{}

/// The link word of each node is as its state says; so a node that was linked in its life, and whose link is unmarked,
/// is linked still, and the link of a node that's linked or spent has the tag of its life and is marked where the node
/// is.
pub fn links_tell_states()
    ensures words { (sizes : Sizes) → IsLayout sizes → (journal : List Event) → IsKept sizes journal
        → LinkWords sizes (state sizes journal) (word_at sizes journal) }
    ensures linked { (sizes : Sizes) → IsLayout sizes → (journal : List Event) → IsKept sizes journal
        → (x : ℕ) → x < sizes.nodes
        → (node_in sizes journal x).mode ≢ Free → (node_in sizes journal x).mode ≢ Fresh
        → mark_of (word_at sizes journal (link_at sizes x)) ≡ 0 → (node_in sizes journal x).mode ≡ Linked }
    ensures life { (sizes : Sizes) → IsLayout sizes → (journal : List Event) → IsKept sizes journal
        → (x : ℕ) → x < sizes.nodes → IsUsed (node_in sizes journal x).mode
        → (tag_of (word_at sizes journal (link_at sizes x)) ≡ (node_in sizes journal x).tag)
        × (mark_of (word_at sizes journal (link_at sizes x)) ≡ mark_bit (node_in sizes journal x).marked) }
{}

/// While a node is linked or spent, its other words are those with which it was linked: its key; of a vertex the life
/// of its list, marked where it's closed; of an edge its target and its weight.
pub fn nodes_keep_their_words()
    ensures { (sizes : Sizes) → IsLayout sizes → (journal : List Event) → IsKept sizes journal
        → Contents sizes (state sizes journal) (word_at sizes journal) }
{}

/// No event is about a later life of a node than the one that it's in.
pub fn events_are_of_past_lives()
    ensures { (sizes : Sizes) → IsLayout sizes → (journal : List Event) → IsKept sizes journal
        → Lives journal (state sizes journal) }
{}

/// The third word of a vertex is the number of raises of its life.
pub fn counters_count_raises()
    ensures { (sizes : Sizes) → IsLayout sizes → (journal : List Event) → IsKept sizes journal
        → Counters sizes journal (state sizes journal) (word_at sizes journal) }
{}

/// Each life is linked at most once.
pub fn lives_are_linked_once()
    ensures { (sizes : Sizes) → IsLayout sizes → (journal : List Event) → IsKept sizes journal
        → LinkedOnce journal (state sizes journal) }
{}

/// A marked link of a life changes no more until it's stored for the free list, and a marked second word, a list that
/// is closed at its head, no more until the node is taken again.
pub fn marked_words_stay()
    ensures link { (sizes : Sizes) → IsLayout sizes → (x : ℕ) (front journal : List Event) → IsPrefix front journal
        → IsKept sizes journal → (node_in sizes front x).mode ≢ Fresh
        → mark_of (word_at sizes front (link_at sizes x)) ≡ 1
        → (node_in sizes journal x).tag ≡ (node_in sizes front x).tag → (node_in sizes journal x).stored ≡ false
        → word_at sizes journal (link_at sizes x) ≡ word_at sizes front (link_at sizes x) }
    ensures head { (sizes : Sizes) → IsLayout sizes → (x : ℕ) (front journal : List Event) → IsPrefix front journal
        → IsKept sizes journal → (node_in sizes front x).mode ≢ Fresh
        → mark_of (word_at sizes front (second_at sizes x)) ≡ 1
        → (node_in sizes journal x).tag ≡ (node_in sizes front x).tag
        → word_at sizes journal (second_at sizes x) ≡ word_at sizes front (second_at sizes x) }
{}

/// No number of the table wraps, since each caller takes nodes, raises counters and moves the epoch only so often.
pub fn no_number_wraps()
    ensures { (sizes : Sizes) → IsLayout sizes → (journal : List Event) → IsKept sizes journal
        → Bounds sizes (state sizes journal) (word_at sizes journal) }
{}

/// What a node says of its life is what the events of the journal say: the key with which it was linked, or the edge,
/// and whether it's marked. A fresh node's life was neither linked nor marked.
pub fn nodes_tell_their_lives()
    ensures { (sizes : Sizes) → IsLayout sizes → (journal : List Event) → IsKept sizes journal
        → Named sizes journal (state sizes journal) }
{}

/// An open pass began at most one epoch ago. A caller that was checked after an epoch was seen has no pass that began
/// before that epoch, whatever began in between.
pub fn passes_are_near_the_epoch()
    ensures near { (sizes : Sizes) (journal : List Event) → IsKept sizes journal → IsNear (clock_in sizes journal) }
    ensures checked { (sizes : Sizes) (from past : List Event) (caller : ℕ) → caller < sizes.callers
        → IsKept sizes past → IsChecked sizes from past (word_at sizes from (epoch_at sizes)) caller
        → IsClear (word_at sizes from (epoch_at sizes)) caller (clock_in sizes past) }
{}

/// No life ended in the future; a life that ended after an open pass began ended in the epoch of its birth or later;
/// and a ripe node was spent before each open pass began, so no open pass can have met it.
pub fn ripe_nodes_ended_before_passes()
    ensures ended { (sizes : Sizes) (journal : List Event) → IsKept sizes journal
        → Ended (clock_in sizes journal) (ends_in sizes journal) }
    ensures ordered { (sizes : Sizes) → IsLayout sizes → (journal : List Event) → IsKept sizes journal
        → Ordered (clock_in sizes journal) (ends_in sizes journal) }
    ensures ripe { (sizes : Sizes) → IsLayout sizes → (journal : List Event) → IsKept sizes journal
        → (caller x i : ℕ) → IsRipe sizes journal caller x → (pass_in sizes journal i).is_open ≡ true
        → (node_in sizes journal x).ended ≤ (pass_in sizes journal i).since }
{}
