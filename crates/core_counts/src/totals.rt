//! How many events of the kinds there are, against those that they need.
//!
//! A life goes one way, so in a journal no stage of lives has more events than the stage before it; and a caller raises
//! a counter once for each edge life, and again only where it gave an edge up that isn't over. From these two the
//! events by which others lose tries are few: the laws below say how many, against the nodes that were taken.

ghost use Rattle.std.specs.Prelude.{◌≡◌, ◌≢◌, ℕ, ◌+◌, ◌-◌, ◌*◌, ◌^◌, ◌<◌, ◌≤◌, ◌==◌, Bool, true, false, All, AllPairs};
ghost use Rattle.std.specs.Prelude.{List, [], ◌∷◌, ◌++◌, length};
ghost use Rattle.std.specs.List.{list_any, sum_by};
ghost use Rattle.graph_kinds.specs.History.{Every};
ghost use Rattle.graph_kinds.specs.declared.entry.Entry.{Entry};
ghost use Rattle.packed_link.specs.Layout.{IsLayout, Sizes};
ghost use Rattle.packed_link.specs.declared.link.Life.{Life};
ghost use Rattle.core_journal.specs.declared.book.Book.{Book};
ghost use Rattle.core_journal.specs.declared.event.Event.{Event};
ghost use Rattle.core_journal.specs.declared.event.Kind.{Kind};
ghost use Rattle.core_journal.specs.Event.{counted, cuts_edge, links_edge, links_vertex, pops, raises, replaces};
ghost use Rattle.core_journal.specs.Foreign.{foreign};
ghost use Rattle.core_journal.specs.Life.{edge_linked};
ghost use Rattle.core_journal.specs.Prefix.{IsPrefix};
ghost use Rattle.core_journal.specs.Right.{IsAgain};
ghost use Rattle.core_journal.specs.State.{state};
ghost use Rattle.core_kept.specs.Counts.{about, all_made, made};
ghost use Rattle.core_kept.specs.Kept.{IsKept, IsQuiet};
ghost use Rattle.core_counts.specs.Totals.{GoesOneWay, IsNotOver, IsEdgeOver, RaisesApart, RaisesOnce, cuts, total};

/// Each life goes through each stage at most once, and only after the one that it needs. For the bound below.
pub fn each_life_goes_one_way()
    ensures { (sizes : Sizes) → IsLayout sizes → (journal : List Event) → IsKept sizes journal → (x : Life)
        → GoesOneWay journal x }
{}

/// Where each life has at most as many events of some kinds as of others, there are at most as many in all; the marks
/// of edges are counted by the lives that they mark (`cuts`). For the bound below, and for sums of what calls did.
pub fn fewer_of_each_life_are_fewer()
    ensures about { (test other : Kind → Bool) (journal : List Event)
        → ((x : Life) → about test x journal ≤ about other x journal)
        → all_made test journal ≤ all_made other journal }
    ensures cuts { (other : Kind → Bool) (journal : List Event)
        → ((x : Life) → cuts x journal ≤ about other x journal)
        → all_made cuts_edge journal ≤ all_made other journal }
    ensures cut { (test : Kind → Bool) (journal : List Event)
        → ((x : Life) → about test x journal ≤ cuts x journal)
        → all_made test journal ≤ all_made cuts_edge journal }
{}

/// The events of some kinds are the sum of those of each caller; so where each caller makes at most so many, there are
/// at most the sum of these. For the end of a run, which adds up what its callers made.
pub fn sums_over_callers()
    ensures sum { (sizes : Sizes) (journal : List Event) → IsKept sizes journal → (test : Kind → Bool) (callers : ℕ)
        → (state sizes journal).drawn ≤ callers
        → all_made test journal ≡ total (λ (i : ℕ). made test i journal) callers }
    ensures most { (f g : ℕ → ℕ) (callers : ℕ) → ((i : ℕ) → i < callers → f i ≤ g i)
        → total f callers ≤ total g callers }
{}

/// Where each caller that has a number has a book, the events of some kinds are at most the sum of what each book's
/// caller made at most. For the end of a run, whose callers hand up their books.
pub fn sums_over_books()
    ensures { (sizes : Sizes) (journal : List Event) → IsKept sizes journal → (test : Kind → Bool) (books : List Book)
        (most : Book → ℕ)
        → ((i : ℕ) → i < (state sizes journal).drawn → list_any (λ (b : Book). i == b.caller) books ≡ true)
        → Every (λ (b : Book). made test b.caller journal ≤ most b) books
        → all_made test journal ≤ sum_by most books }
{}

/// That a caller raised at most once for each edge is its own: it holds at opening, stays while others act and behind
/// each event of its own that is no raise, and behind a raise where the edge wasn't raised for before.
pub fn raises_stay_apart()
    ensures opening { (caller : ℕ) → RaisesApart [] caller 0 }
    ensures others { (caller again last : ℕ) (front journal : List Event) → IsPrefix front journal
        → last ≤ length front → IsQuiet journal caller last → RaisesApart front caller again
        → RaisesApart journal caller again }
    ensures other_kind { (caller again : ℕ) (past : List Event) (e : Event) → raises e.kind ≡ false
        → RaisesApart past caller again → RaisesApart (past ++ e ∷ []) caller again }
    ensures raise { (caller again : ℕ) (past : List Event) (e : Event) → (x : Life) → edge_linked past x ≡ true
        → (a : RaisesApart past caller again) → All (λ (y : Life). x ≢ y) a.edges
        → RaisesApart (past ++ e ∷ []) caller again }
{}

/// The same as a call keeps it. At its start all edges are over for which the caller raised before. So an edge that
/// wasn't over then, and for which the call didn't raise yet, is new; and where all edges are over for which the call
/// raised, but for at most one, the next call may start, and that one is counted as given up (`lost`). So the raises of
/// a caller are at most the edges that were linked, and those that it gave up, one a call. For each call that raises.
pub fn raises_are_done()
    ensures opening { (caller : ℕ) → RaisesOnce [] [] caller 0 [] }
    ensures stays { (caller again : ℕ) (held : List Life) (start front journal : List Event) → IsPrefix front journal
        → made raises caller journal ≡ made raises caller front → RaisesOnce start front caller again held
        → RaisesOnce start journal caller again held }
    ensures raise { (caller again : ℕ) (held : List Life) (start past : List Event) (e : Event) (x : Life)
        → IsPrefix start past → IsNotOver start past x → All (λ (y : Life). x ≢ y) held
        → RaisesOnce start past caller again held → RaisesOnce start (past ++ e ∷ []) caller again (x ∷ held) }
    ensures done { (caller again : ℕ) (held : List Life) (start journal : List Event) → IsPrefix start journal
        → All (IsEdgeOver journal) held → RaisesOnce start journal caller again held
        → RaisesOnce journal journal caller again [] }
    ensures lost { (caller again : ℕ) (x : Life) (held : List Life) (start journal : List Event)
        → IsPrefix start journal → All (IsEdgeOver journal) held → RaisesOnce start journal caller again (x ∷ held)
        → RaisesOnce journal journal caller (again + 1) [] }
    ensures links { (caller again : ℕ) (held : List Life) (start journal : List Event)
        → RaisesOnce start journal caller again held
        → made raises caller journal ≤ all_made links_edge journal + again }
    ensures few { (sizes : Sizes) → IsLayout sizes → (start journal : List Event) → IsKept sizes journal
        → (caller again : ℕ) (held : List Life) → RaisesOnce start journal caller again held
        → made raises caller journal ≤ 2 ^ 36 + again }
    ensures apart { (caller again : ℕ) (held : List Life) (start journal : List Event)
        → RaisesOnce start journal caller again held → RaisesApart journal caller again }
{}

/// The events of counted kinds, where each caller raises at most once for each edge and so often again, are at most two
/// for each node taken, four for each vertex linked, and for each edge linked three and one for each caller, and the
/// raises made again; and fewer by one for each edge that replaced another, which is linked and marks by one event. So
/// they are at most six for each node taken, one for each caller and node taken for no vertex, and the raises made
/// again (`by_links`); and where at most so many nodes were taken and raises made again, they are at most that number
/// times eight more than the callers (`by_takes`). A call's foreign events are such events, and so each of its lost
/// tries stands for one. For the claim that tries above this bound exclude that a call gives up.
pub fn counted_events_are_few()
    ensures by_kinds { (sizes : Sizes) → IsLayout sizes → (journal : List Event) → IsKept sizes journal
        → (callers : ℕ) → (state sizes journal).drawn ≤ callers
        → (again : ℕ → ℕ) → ((i : ℕ) → i < callers → RaisesApart journal i (again i))
        → all_made counted journal + all_made replaces journal ≤ 2 * all_made pops journal
        + 4 * all_made links_vertex journal + (3 + callers) * all_made links_edge journal + total again callers }
    ensures by_links { (sizes : Sizes) → IsLayout sizes → (journal : List Event) → IsKept sizes journal
        → (callers : ℕ) → (state sizes journal).drawn ≤ callers
        → (again : ℕ → ℕ) → ((i : ℕ) → i < callers → RaisesApart journal i (again i))
        → all_made counted journal ≤ 6 * all_made pops journal
        + callers * (all_made pops journal - all_made links_vertex journal) + total again callers }
    ensures by_takes { (sizes : Sizes) → IsLayout sizes → (journal : List Event) → IsKept sizes journal
        → (callers uses : ℕ) → (state sizes journal).drawn ≤ callers → (again : ℕ → ℕ)
        → ((i : ℕ) → i < (state sizes journal).drawn → RaisesApart journal i (again i))
        → all_made pops journal ≤ uses → total again (state sizes journal).drawn ≤ uses
        → all_made counted journal ≤ (callers + 8) * uses }
    ensures foreign { (journal : List Event) (caller start end : ℕ)
        → foreign journal caller start end ≤ all_made counted journal }
    ensures again { (journal : List Event) (caller : ℕ) (e : Entry) → IsAgain journal caller e
        → e.tries ≤ all_made counted journal }
{}
