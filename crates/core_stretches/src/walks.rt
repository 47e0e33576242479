//! The laws of walks: what the words tell that a token loads on its way along a list, on that of a bucket and on that
//! of a source.

ghost use Rattle.std.specs.Prelude.{◌≡◌, ◌≢◌, ℕ, ◌%◌, ◌<◌, List, [], ◌∷◌};
ghost use Rattle.graph_kinds.specs.History.{Every};
ghost use Rattle.packed_link.specs.Layout.{IsLayout, link_at};
ghost use Rattle.packed_link.specs.Link.{index_of, mark_of, nowhere};
ghost use Rattle.packed_link.specs.declared.link.Life.{Life};
ghost use Rattle.core_journal.specs.declared.event.Event.{Event};
ghost use Rattle.core_journal.specs.Machine.{word_at};
ghost use Rattle.core_lists.specs.Changed.{IsChangedByAnother};
ghost use Rattle.core_rule.specs.Stretches.{HasPass};
ghost use Rattle.core_kept.specs.Kept.{IsKept};
ghost use Rattle.core_rule.specs.Fronts.{MetVertex};
ghost use Rattle.core_rule.specs.Views.{IsEdgeIn, IsVertexIn};
ghost use Rattle.core_rule.specs.declared.view.View.{View};
ghost use Rattle.core_stretches.specs.LoadedWords.{IsEdgeWord, IsLoadedNode, IsVertexWord, LeadsPast};
ghost use Rattle.core_stretches.specs.Makes.{Makes, StaysInPass};
ghost use Rattle.core_stretches.specs.Moments.{Lacks, LacksEdge};

/// A loaded word goes on with its token where each own event stays in the pass and stands at another place. Where
/// another word stands there by now, another caller changed it.
pub fn loaded_words_go_on()
    ensures vertex { (key place seen : ℕ) (moment : List Event) (v w : View) (own : List Event) → Every StaysInPass own
        → Every (λ e. e.place ≢ place) own → Makes v own w → IsVertexWord key place seen moment v
        → IsVertexWord key place seen moment w }
    ensures edge { (source : Life) (key place seen : ℕ) (moment : List Event) (v w : View) (own : List Event)
        → Every StaysInPass own → Every (λ e. e.place ≢ place) own → Makes v own w
        → IsEdgeWord source key place seen moment v → IsEdgeWord source key place seen moment w }
    ensures vertex_changed { (key place seen : ℕ) (moment : List Event) (v : View) → IsLayout v.sizes
        → IsVertexWord key place seen moment v → word_at v.sizes v.front place ≢ seen
        → IsChangedByAnother moment v.front v.number place }
    ensures edge_changed { (source : Life) (key place seen : ℕ) (moment : List Event) (v : View) → IsLayout v.sizes
        → IsEdgeWord source key place seen moment v → word_at v.sizes v.front place ≢ seen
        → IsChangedByAnother moment v.front v.number place }
{}

/// A loaded word leads to none or to a node of its list that was met. The unmarked link of a node with a smaller key is
/// the next word of the walk.
pub fn loaded_words_lead_on()
    ensures vertex { (key place seen : ℕ) (moment : List Event) (v : View) → IsLayout v.sizes
        → IsVertexWord key place seen moment v → index_of seen ≢ nowhere
        → IsVertexIn v (key % v.sizes.buckets) (index_of seen) }
    ensures edge { (source : Life) (key place seen : ℕ) (moment : List Event) (v : View) → IsLayout v.sizes
        → IsEdgeWord source key place seen moment v → index_of seen ≢ nowhere → IsEdgeIn v source (index_of seen) }
    ensures vertex_next { (key : ℕ) (v : View) (x found link : ℕ) → IsKept v.sizes v.front → HasPass v
        → IsLoadedNode (λ u i. IsVertexIn u (key % u.sizes.buckets) i) x found link v → found < key → mark_of link ≡ 0
        → IsVertexWord key (link_at v.sizes x) link v.front v }
    ensures edge_next { (source : Life) (key : ℕ) (v : View) (x found link : ℕ) → IsKept v.sizes v.front → HasPass v
        → IsLoadedNode (λ u i. MetVertex u source × IsEdgeIn u source i) x found link v → found < key
        → mark_of link ≡ 0 → IsEdgeWord source key (link_at v.sizes x) link v.front v }
{}

/// Where a loaded word leads past a key, the key was absent when the word was loaded.
pub fn a_key_that_a_loaded_word_passes_was_absent()
    ensures vertex { (key place seen : ℕ) (moment : List Event) (v : View) → IsLayout v.sizes
        → IsVertexWord key place seen moment v → LeadsPast v key seen → Lacks key moment }
    ensures edge { (source : Life) (key place seen : ℕ) (moment : List Event) (v : View) → IsLayout v.sizes
        → IsEdgeWord source key place seen moment v → LeadsPast v key seen → LacksEdge source key moment }
{}
