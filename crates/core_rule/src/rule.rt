//! The laws of the one table: each step keeps its rule.
//!
//! The rule says that the words are those of a kept journal, and that the view of each token fits it (`Ruled` of
//! `specs/Rule.antt`). All facts of the table are laws of kept journals, so a step owes no more than that its event is
//! allowed (`Owes` of `specs/Owes.antt`), and learns where it stands in the journal (`specs/Plays.antt`).

ghost use Rattle.std.specs.Prelude.{◌≡◌, ℕ, ◌+◌, ◌%◌, ◌^◌, ◌<◌, Bool, true, false, []};
ghost use mathlib.Core.Option.{none, some};
ghost use lib.ListN.{get_elem?};
ghost use Rattle.atomic_table.specs.Table.{Allows, Joins, Splits, State, opening, step};
ghost use Rattle.graph_kinds.specs.History.{Every};
ghost use Rattle.graph_kinds.specs.declared.entry.Entry.{Entry};
ghost use Rattle.packed_link.specs.Layout.{IsLayout, Sizes};
ghost use Rattle.core_journal.specs.declared.event.Event.{Event};
ghost use Rattle.core_journal.specs.Machine.{opening_words, word_at};
ghost use Rattle.core_rule.specs.declared.view.View.{View};
ghost use Rattle.core_rule.specs.Owes.{Owes, OwesStore};
ghost use Rattle.core_kept.specs.Kept.{IsQuiet};
ghost use Rattle.core_rule.specs.Plays.{IsSound, both_fronts, drawing, looking, meeting, newcomer, replying};
ghost use Rattle.core_rule.specs.Plays.{stays, storing};
ghost use Rattle.core_rule.specs.Plays.{turning};
ghost use Rattle.core_rule.specs.Rule.{AnswersForAll, AnswersForCallers, Ruled};
ghost use Rattle.core_rule.specs.Rule.{accounts, first_view, spent_view};

/// A new table with its opening words and its first token meets the rule.
pub fn a_new_table_meets_the_rule()
    ensures { (sizes : Sizes) → Ruled sizes (opening (opening_words sizes) [] (first_view sizes)) }
{}

/// A load keeps the rule. A step that changes one word does where it owes what `Owes` says, and a store where it owes
/// what `OwesStore` says.
pub fn steps_keep_the_rule()
    ensures load { (slots seat place : ℕ) (v : View)
        → Allows (Ruled v.sizes) slots seat (v, []) place (λ x. x) (looking (step slots place 0 0 none) (v, [])) }
    ensures change { (slots seat place first second : ℕ) (v : View) (f : ℕ → ℕ) (wins : ℕ → Bool) (event : ℕ → Event)
        → v.numbered ≡ true → Owes v place f wins event
        → Allows (Ruled v.sizes) slots seat (v, []) place f
        (turning wins event (step slots place first second none) (v, [])) }
    ensures store { (slots seat place word second : ℕ) (v : View) (event : ℕ → Event)
        → v.numbered ≡ true → OwesStore v place word (event word)
        → Allows (Ruled v.sizes) slots seat (v, []) place (λ _. word)
        (λ _. storing event (step slots place word second none) (v, []) word) }
{}

/// A token with the right to draw and no number draws the next one, where fewer are drawn than there are callers.
pub fn a_draw_keeps_the_rule()
    ensures { (slots seat first second : ℕ) (v : View) → IsLayout v.sizes
        → v.draws ≡ true → v.numbered ≡ false → v.drawn < v.sizes.callers
        → Allows (Ruled v.sizes) slots seat (v, []) 1 (λ x. (x + 1) % 2 ^ 64)
        (drawing (step slots 1 first second none) (v, [])) }
{}

/// A load that adds an entry to a book keeps the rule.
pub fn a_reply_keeps_the_rule()
    ensures { (slots seat place : ℕ) (v : View) (entry : Entry)
        → Allows (Ruled v.sizes) slots seat (v, []) place (λ x. x)
        (replying entry (step slots place 0 0 none) (v, [])) }
{}

/// A token may be split in two and joined to another; the load after a join tells that both fronts begin one journal.
pub fn splits_and_joins_keep_the_rule()
    ensures split { (sizes : Sizes) (seat : ℕ) (v : View) → Splits (Ruled sizes) seat v (stays v) (newcomer v) }
    ensures join { (sizes : Sizes) (seat other : ℕ) (v w : View) → v.met ≡ [] → w.met ≡ []
        → Joins (Ruled sizes) seat v other w (both_fronts v w) spent_view }
    ensures meet { (slots seat place : ℕ) (v : View)
        → Allows (Ruled v.sizes) slots seat (v, []) place (λ x. x) (meeting (step slots place 0 0 none) (v, [])) }
{}

/// Where a token answers for each number that was drawn, its front is the whole journal, and the words are those of
/// it.
pub fn a_last_token_knows_the_journal()
    ensures journal { (sizes : Sizes) (s : State (Unit {0}) View) (rule : Ruled sizes s) (seat : ℕ) (v : View)
        → get_elem? s.views seat ≡ some v → v.met ≡ [] → AnswersForAll v → rule.journal ≡ v.front }
    ensures word { (sizes : Sizes) (s : State (Unit {0}) View) → Ruled sizes s → (seat place word : ℕ) (v : View)
        → get_elem? s.views seat ≡ some v → v.met ≡ [] → AnswersForAll v → get_elem? s.words place ≡ some word
        → word ≡ word_at sizes v.front place }
{}

/// Where a token answers for each number below that of callers, its front is the whole journal, whoever has the right
/// to draw: a token that was split off takes that right with it, so the end of a table can't rest on it. Each account
/// of a token, its own and those that were joined to it, is quiet in its front: no event of that number stands there
/// from the account's length on. So after the last join all events of all callers are known.
pub fn a_token_of_all_callers_knows_the_journal()
    ensures journal { (sizes : Sizes) (s : State (Unit {0}) View) (rule : Ruled sizes s) (seat : ℕ) (v : View)
        → get_elem? s.views seat ≡ some v → v.met ≡ [] → v.sizes ≡ sizes → AnswersForCallers v
        → rule.journal ≡ v.front }
    ensures word { (sizes : Sizes) (s : State (Unit {0}) View) → Ruled sizes s → (seat place word : ℕ) (v : View)
        → get_elem? s.views seat ≡ some v → v.met ≡ [] → v.sizes ≡ sizes → AnswersForCallers v
        → get_elem? s.words place ≡ some word → word ≡ word_at sizes v.front place }
    ensures quiet { (v : View) → IsSound v → Every (λ (a : ℕ × ℕ). IsQuiet v.front a.0 a.1) (accounts v) }
{}
