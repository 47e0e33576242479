//! The laws of stretches: how they follow one another, and what they tell of the later view.

ghost use Rattle.std.specs.Prelude.{◌≡◌, ◌≢◌, ℕ, ◌+◌, Bool, true, List, [], ◌∷◌, ◌++◌};
ghost use Rattle.graph_kinds.specs.History.{Every};
ghost use Rattle.packed_link.specs.Layout.{IsLayout};
ghost use Rattle.core_journal.specs.declared.event.Kind.{Kind};
ghost use Rattle.core_journal.specs.declared.event.Event.{Event};
ghost use Rattle.core_journal.specs.Prefix.{IsPrefix};
ghost use Rattle.core_kept.specs.Counts.{made};
ghost use Rattle.core_kept.specs.Kept.{IsKept};
ghost use Rattle.core_rule.specs.Plays.{IsSound, Looked, Stored, Won};
ghost use Rattle.core_rule.specs.Stretches.{Elsewhere, Leaves, Own};
ghost use Rattle.core_rule.specs.Views.{GoesOn};
ghost use Rattle.core_rule.specs.declared.view.View.{View};
ghost use Rattle.core_stretches.specs.Makes.{IsGraphless, IsLater, Makes, StaysInPass, of_kinds};

/// From a view to itself, and by a load, a token made nothing; a step that won and a store made their event; and one
/// stretch goes on behind another, with the events of both. So the contract of a call, and of a call of calls, is one
/// list.
pub fn own_events_follow_one_another()
    ensures same { (v : View) → v.numbered ≡ true → IsSound v → Makes v [] v }
    ensures look { (v w : View) (place found : ℕ) → v.numbered ≡ true → IsSound v → Looked v place found w
        → Makes v [] w }
    ensures won { (v w : View) (place found : ℕ) (e : Event) → v.numbered ≡ true → IsSound v → e.caller ≡ v.number
        → Won v place found e w → Makes v (e ∷ []) w }
    ensures stored { (v w : View) (e : Event) → v.numbered ≡ true → IsSound v → e.caller ≡ v.number → Stored v e w
        → Makes v (e ∷ []) w }
    ensures chain { (u v w : View) (first second : List Event) → Makes u first v → Makes v second w
        → Makes u (first ++ second) w }
{}

/// What the list of own events tells of the later view: it's of the same table and caller and has seen more; its pass
/// is the same where no event opened or closed one; what holds of each event of the list holds of each own event
/// between the two fronts; the graph is left where each event leaves it by its kind; and the counts of the caller's
/// events rise by those of the list, of takes, raises and moves among them.
pub fn own_events_tell()
    ensures later { (v w : View) (own : List Event) → Makes v own w → IsLater v w }
    ensures goes { (v w : View) (own : List Event) → Every StaysInPass own → Makes v own w → GoesOn v w }
    ensures each { (test : Event → Bool) (v w : View) (own : List Event) → Every (λ e. test e ≡ true) own
        → Makes v own w → Own (λ _ e. test e ≡ true) v w }
    ensures elsewhere { (place : ℕ) (v w : View) (own : List Event) → Every (λ e. e.place ≢ place) own
        → Makes v own w → Own (Elsewhere place) v w }
    ensures leaves { (v w : View) (own : List Event) → IsLayout v.sizes → Every IsGraphless own → Makes v own w
        → Own Leaves v w }
    ensures counts { (test : Kind → Bool) (v w : View) (own : List Event) → Makes v own w
        → made test w.number w.front ≡ made test v.number v.front + of_kinds test own }
{}
