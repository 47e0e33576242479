//! The laws of a token's steps: what a token knows by its front makes its step allowed in each journal that it may
//! meet.
//!
//! There is one condition a kind, over the token's front (`specs/Fronts.antt`), and one event (`specs/OwnEvents.antt`).
//! Where the word is as the step wants it, the event is allowed in each journal that goes on from the front without an
//! event of the token's own (`Reaches` of `specs/Owes.antt`). That is all that a step owes by `Owes` beside the word
//! that it writes. "In this pass" is one word: what an open pass has met (`HasMet`) stays met, so these speak of no
//! load. Where a load matters all the same, the condition has the earlier moment: for taking a node, announcing a pass
//! and moving the epoch, for raising a counter, marking and replacing an edge, and for the two kinds that need a ripe
//! node. The draw of a number is `a_draw_keeps_the_rule`, since it changes what its token is.

ghost use Rattle.std.specs.Prelude.{◌≡◌, ℕ, List};
ghost use Rattle.packed_link.specs.Link.{mark_of};
ghost use Rattle.packed_link.specs.Layout.{IsLayout, epoch_at, free_at, link_at, second_at, third_at};
ghost use Rattle.packed_link.specs.declared.link.Life.{Life};
ghost use Rattle.core_journal.specs.declared.event.Event.{Event};
ghost use Rattle.core_journal.specs.declared.event.Kind.TheVariants.{Announce, LinkEdge, LinkVertex, MarkEdge};
ghost use Rattle.core_journal.specs.declared.event.Kind.TheVariants.{MarkVertex};
ghost use Rattle.core_journal.specs.declared.event.Kind.TheVariants.{FreezeEdge, FreezeHead, MoveEpoch, PopFree};
ghost use Rattle.core_journal.specs.declared.event.Kind.TheVariants.{PushFree};
ghost use Rattle.core_journal.specs.declared.event.Kind.TheVariants.{Raise, ReplaceEdge, StoreFree, StorePrivate};
ghost use Rattle.core_journal.specs.declared.event.Kind.TheVariants.{UnlinkEdge};
ghost use Rattle.core_journal.specs.declared.event.Kind.TheVariants.{UnlinkVertex, Withdraw};
ghost use Rattle.core_journal.specs.Machine.{word_at};
ghost use Rattle.core_kept.specs.Nodes.{IsSpentWith};
ghost use Rattle.core_rule.specs.declared.view.View.{View};
ghost use Rattle.core_rule.specs.Fronts.{MayAnnounce, MayFreezeEdge, MayFreezeHead, MayLinkEdge, MayLinkVertex};
ghost use Rattle.core_rule.specs.Fronts.{MayMarkEdge, MayMarkVertex, MayReplaceEdge};
ghost use Rattle.core_rule.specs.Fronts.{MayMoveEpoch, MayPopFree, MayPushFree, MayRaise, MayStoreFree};
ghost use Rattle.core_rule.specs.Fronts.{MayStorePrivate};
ghost use Rattle.core_rule.specs.Fronts.{MayUnlinkEdge, MayUnlinkVertex, MayWithdraw};
ghost use Rattle.core_kept.specs.Kept.{AllowedAs};
ghost use Rattle.core_rule.specs.OwnEvents.{announce_event, freeze_edge_event, freeze_head_event, link_edge_event};
ghost use Rattle.core_rule.specs.OwnEvents.{link_vertex_event, store_free_event};
ghost use Rattle.core_rule.specs.OwnEvents.{mark_edge_event, mark_vertex_event, move_event, pop_event, push_event};
ghost use Rattle.core_rule.specs.OwnEvents.{raise_event, replace_event, store_event, unlink_edge_event};
ghost use Rattle.core_rule.specs.OwnEvents.{unlink_vertex_event};
ghost use Rattle.core_rule.specs.OwnEvents.{withdraw_event};
ghost use Rattle.core_rule.specs.Owes.{Reaches};

/// A node is taken where the word of the free list is the one seen; a word of a fresh node is stored; the link of a
/// ripe node is stored for the free list; and such a node is given back where the word of the free list is the one
/// seen.
pub fn steps_on_free_nodes_are_allowed()
    ensures pop { (v : View) → IsLayout v.sizes → (seen next : ℕ) → MayPopFree v seen next → (journal : List Event)
        → Reaches v journal → word_at v.sizes journal (free_at v.sizes) ≡ seen
        → AllowedAs PopFree v.sizes journal (pop_event v seen next) }
    ensures store { (v : View) → IsLayout v.sizes → (x : Life) (field word : ℕ) → MayStorePrivate v x field word
        → (journal : List Event) → Reaches v journal
        → AllowedAs StorePrivate v.sizes journal (store_event v x field word) }
    ensures store_link { (v : View) → IsLayout v.sizes → (next : ℕ) (x : Life) → MayStoreFree v next x
        → (journal : List Event)
        → Reaches v journal → AllowedAs StoreFree v.sizes journal (store_free_event v next x) }
    ensures push { (v : View) → IsLayout v.sizes → (seen : ℕ) (x : Life) → MayPushFree v seen x → (journal : List Event)
        → Reaches v journal → word_at v.sizes journal (free_at v.sizes) ≡ seen
        → AllowedAs PushFree v.sizes journal (push_event v seen x) }
{}

/// A pass is announced and withdrawn, and the epoch is moved on where it's the one seen.
pub fn steps_on_passes_are_allowed()
    ensures announce { (v : View) (epoch : ℕ) → MayAnnounce v epoch → (journal : List Event) → Reaches v journal
        → AllowedAs Announce v.sizes journal (announce_event v epoch) }
    ensures withdraw { (v : View) → MayWithdraw v → (journal : List Event) → Reaches v journal
        → AllowedAs Withdraw v.sizes journal (withdraw_event v) }
    ensures move_on { (v : View) (seen : ℕ) → MayMoveEpoch v seen → (journal : List Event) → Reaches v journal
        → word_at v.sizes journal (epoch_at v.sizes) ≡ seen → AllowedAs MoveEpoch v.sizes journal (move_event v seen) }
{}

/// A vertex is linked and unlinked where the word before it is the one seen, and marked where its link is unmarked.
pub fn steps_on_vertices_are_allowed()
    ensures link { (v : View) → IsLayout v.sizes → (place seen key : ℕ) (x : Life) → MayLinkVertex v place seen key x
        → (journal : List Event) → Reaches v journal → word_at v.sizes journal place ≡ seen
        → AllowedAs LinkVertex v.sizes journal (link_vertex_event v place seen key x) }
    ensures mark { (v : View) → IsLayout v.sizes → (x : Life) → MayMarkVertex v x → (journal : List Event)
        → Reaches v journal
        → mark_of (word_at v.sizes journal (link_at v.sizes x.index)) ≡ 0
        → AllowedAs MarkVertex v.sizes journal
        (mark_vertex_event v x (word_at v.sizes journal (link_at v.sizes x.index))) }
    ensures unlink { (v : View) → IsLayout v.sizes → (place seen next : ℕ) (x : Life)
        → MayUnlinkVertex v place seen next x
        → (journal : List Event) → Reaches v journal → word_at v.sizes journal place ≡ seen
        → AllowedAs UnlinkVertex v.sizes journal (unlink_vertex_event v place seen next x) }
{}

/// An edge is linked and unlinked where the word before it is the one seen, marked where its link is unmarked, and
/// replaced where its link is the word seen; the counter of a vertex is raised, whatever it is.
pub fn steps_on_edges_are_allowed()
    ensures link { (v : View) → IsLayout v.sizes → (place seen key : ℕ) (source target : Life) (weight : ℕ) (x : Life)
        → MayLinkEdge v place seen key source target weight x → (journal : List Event) → Reaches v journal
        → word_at v.sizes journal place ≡ seen
        → AllowedAs LinkEdge v.sizes journal (link_edge_event v place seen key source target weight x) }
    ensures raise { (v : View) → IsLayout v.sizes → (x : Life) → MayRaise v x → (journal : List Event)
        → Reaches v journal
        → AllowedAs Raise v.sizes journal (raise_event v x (word_at v.sizes journal (third_at v.sizes x.index))) }
    ensures mark { (v : View) → IsLayout v.sizes → (source x : Life) → MayMarkEdge v source x → (journal : List Event)
        → Reaches v journal → mark_of (word_at v.sizes journal (link_at v.sizes x.index)) ≡ 0
        → AllowedAs MarkEdge v.sizes journal (mark_edge_event v x (word_at v.sizes journal (link_at v.sizes x.index))) }
    ensures replace { (v : View) → IsLayout v.sizes → (seen key : ℕ) (source target : Life) (weight : ℕ) (old x : Life)
        → MayReplaceEdge v seen key source target weight old x → (journal : List Event) → Reaches v journal
        → word_at v.sizes journal (link_at v.sizes old.index) ≡ seen
        → AllowedAs ReplaceEdge v.sizes journal (replace_event v seen key source target weight old x) }
    ensures unlink { (v : View) → IsLayout v.sizes → (place seen next : ℕ) (source x : Life)
        → MayUnlinkEdge v place seen next source x → (journal : List Event) → Reaches v journal
        → word_at v.sizes journal place ≡ seen
        → AllowedAs UnlinkEdge v.sizes journal (unlink_edge_event v place seen next x) }
{}

/// A list is closed at its head where the vertex's second word is unmarked, and an edge to which a frozen word of it
/// leads is frozen where its link is unmarked. Where it's marked, that edge is spent with the token's caller (`found`).
pub fn steps_on_closed_lists_are_allowed()
    ensures head { (v : View) → IsLayout v.sizes → (x : Life) → MayFreezeHead v x → (journal : List Event)
        → Reaches v journal
        → mark_of (word_at v.sizes journal (second_at v.sizes x.index)) ≡ 0
        → AllowedAs FreezeHead v.sizes journal
        (freeze_head_event v x (word_at v.sizes journal (second_at v.sizes x.index))) }
    ensures edge { (v : View) → IsLayout v.sizes → (source : Life) (place : ℕ) (x : Life)
        → MayFreezeEdge v source place x
        → (journal : List Event) → Reaches v journal → mark_of (word_at v.sizes journal (link_at v.sizes x.index)) ≡ 0
        → AllowedAs FreezeEdge v.sizes journal
        (freeze_edge_event v x (word_at v.sizes journal (link_at v.sizes x.index))) }
    ensures found { (v : View) → IsLayout v.sizes → (source : Life) (place : ℕ) (x : Life)
        → MayFreezeEdge v source place x
        → (journal : List Event) → Reaches v journal → mark_of (word_at v.sizes journal (link_at v.sizes x.index)) ≡ 1
        → IsSpentWith v.sizes journal v.number x.index }
{}
