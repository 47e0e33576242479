//! The table of changes: what each kind of event does to the graph, and that each row is regular.
//!
//! The premises of the rows (`specs/Changes.antt`) speak of lives alone. A key is there by a present vertex
//! life, a pair by a present edge life; no list is walked.

ghost use Rattle.std.specs.Prelude.{◌≡◌, ◌≢◌, ℕ, List, [], ◌∷◌, ◌++◌, ◌↔◌, true, false, Some, None};
ghost use Rattle.graph_kinds.specs.Graph.{has, weight_of};
ghost use Rattle.graph_kinds.specs.Answer.{change};
ghost use Rattle.graph_kinds.specs.declared.call.Call.TheVariants.{AddVertex, RemoveVertex, AddEdge, RemoveEdge};
ghost use Rattle.packed_link.specs.declared.link.Life.{Life};
ghost use Rattle.core_journal.specs.declared.event.Event.{Event};
ghost use Rattle.core_journal.specs.Event.{marks_edge};
ghost use Rattle.core_journal.specs.GraphOf.{graph_of, present_key, present_pair, pair_between};
ghost use Rattle.core_journal.specs.GraphOf.{IsRegular, IsRegularEvent};
ghost use Rattle.core_journal.specs.Changes.{is_idle, IsNewVertex, IsRemovedVertex};
ghost use Rattle.core_journal.specs.Changes.{IsNewEdge, IsRemovedEdge, IsReplacing, IsReplacedEdge, IsFrozenEdge};

/// The keys of the graph are those of the present vertex lives. A weight is that of a present edge life of the
/// pair, each present edge life has its pair, and both ends of a pair are keys.
pub fn the_graph_is_of_lives()
    ensures keys { (journal : List Event) (key : ℕ)
        → (has (graph_of journal) key ≡ true) ↔ ((x : Life) × (present_key journal x ≡ Some key)) }
    ensures weights { (journal : List Event) (a b w : ℕ) → weight_of (graph_of journal) a b ≡ Some w
        → (x : Life) × (present_pair journal x ≡ Some ((a, b), w)) }
    ensures pairs { (journal : List Event) (x : Life) (a b w : ℕ) → present_pair journal x ≡ Some ((a, b), w)
        → (v : ℕ) × (weight_of (graph_of journal) a b ≡ Some v) }
    ensures only { (journal : List Event) (x : Life) (a b w : ℕ) → present_pair journal x ≡ Some ((a, b), w)
        → ((y : Life) (v : ℕ) → present_pair journal y ≡ Some ((a, b), v) → y ≡ x)
        → weight_of (graph_of journal) a b ≡ Some w }
    ensures ends { (journal : List Event) (a b w : ℕ) → weight_of (graph_of journal) a b ≡ Some w
        → (has (graph_of journal) a ≡ true) × (has (graph_of journal) b ≡ true) }
{}

/// The table of changes. A vertex that is linked adds its key, without pairs; a vertex that is marked takes
/// away its key and all pairs of it; an edge that is linked adds its pair where both ends are present, and else
/// nothing; an edge that is marked takes away its pair where it is there, and else nothing; an edge is frozen,
/// and all other events are made, without a change.
pub fn kinds_change_the_graph()
    ensures link_vertex { (past : List Event) (e : Event) → IsNewVertex past e
        → graph_of (past ++ e ∷ []) ≡ change (graph_of past) (AddVertex e.key) }
    ensures mark_vertex { (past : List Event) (e : Event) (key : ℕ) → IsRemovedVertex past e key
        → graph_of (past ++ e ∷ []) ≡ change (graph_of past) (RemoveVertex key) }
    ensures link_edge { (past : List Event) (e : Event) (a b : ℕ) → IsNewEdge past e
        → present_key past e.source ≡ Some a → present_key past e.target ≡ Some b
        → graph_of (past ++ e ∷ []) ≡ change (graph_of past) (AddEdge a b e.weight) }
    ensures link_none { (past : List Event) (e : Event) → IsNewEdge past e → pair_between past e ≡ None
        → graph_of (past ++ e ∷ []) ≡ graph_of past }
    ensures mark_edge { (past : List Event) (e : Event) (a b : ℕ) → IsRemovedEdge past e a b
        → graph_of (past ++ e ∷ []) ≡ change (graph_of past) (RemoveEdge a b) }
    ensures mark_none { (past : List Event) (e : Event) → marks_edge e.kind ≡ true
        → present_pair past e.life ≡ None → graph_of (past ++ e ∷ []) ≡ graph_of past }
    ensures replace_edge { (past : List Event) (e : Event) (a b : ℕ) → IsReplacedEdge past e a b
        → graph_of (past ++ e ∷ []) ≡ change (graph_of past) (AddEdge a b e.weight) }
    ensures replace_none { (past : List Event) (e : Event) → IsReplacing past e
        → present_pair past e.old ≡ None → pair_between past e ≡ None → graph_of (past ++ e ∷ []) ≡ graph_of past }
    ensures freeze_edge { (past : List Event) (e : Event) → IsFrozenEdge past e
        → graph_of (past ++ e ∷ []) ≡ graph_of past }
    ensures others { (past : List Event) (e : Event) → is_idle e.kind ≡ true
        → graph_of (past ++ e ∷ []) ≡ graph_of past }
{}

/// Each row of the table is regular, where a vertex is linked whose key isn't there and an edge whose pair
/// isn't there; and a regular journal with one more regular event is regular.
pub fn rows_are_regular()
    ensures link_vertex { (past : List Event) (e : Event) → IsNewVertex past e
        → has (graph_of past) e.key ≡ false → IsRegularEvent past e }
    ensures mark_vertex { (past : List Event) (e : Event) (key : ℕ) → IsRemovedVertex past e key
        → IsRegularEvent past e }
    ensures link_edge { (past : List Event) (e : Event) (a b : ℕ) → IsNewEdge past e
        → present_key past e.source ≡ Some a → present_key past e.target ≡ Some b
        → weight_of (graph_of past) a b ≡ None → IsRegularEvent past e }
    ensures link_none { (past : List Event) (e : Event) → IsNewEdge past e → pair_between past e ≡ None
        → IsRegularEvent past e }
    ensures mark_edge { (past : List Event) (e : Event) (a b : ℕ) → IsRemovedEdge past e a b
        → IsRegularEvent past e }
    ensures mark_none { (past : List Event) (e : Event) → marks_edge e.kind ≡ true
        → present_pair past e.life ≡ None → IsRegularEvent past e }
    ensures replace_edge { (past : List Event) (e : Event) (a b : ℕ) (r : IsReplacedEdge past e a b)
        → ((x : Life) (w : ℕ) → present_pair past x ≡ Some ((a, b), w) → x ≡ e.old) → r.weight ≢ e.weight
        → IsRegularEvent past e }
    ensures replace_none { (past : List Event) (e : Event) → IsReplacing past e
        → present_pair past e.old ≡ None → pair_between past e ≡ None → IsRegularEvent past e }
    ensures others { (past : List Event) (e : Event) → is_idle e.kind ≡ true → IsRegularEvent past e }
    ensures next { (past : List Event) (e : Event) → IsRegular past → IsRegularEvent past e
        → IsRegular (past ++ e ∷ []) }
{}
