//! The laws of a token's view, of what is its own, and of the one table, at steps of the worked journals.

ghost use Rattle.std.specs.Prelude.{◌≡◌, ℕ, ◌+◌, ◌%◌, ◌^◌, ◌==◌, cond, None, Some, [], ◌∷◌, false, take, true};
ghost use mathlib.Core.Option.{none};
ghost use Rattle.atomic_table.specs.Table.{Allows, opening, step};
ghost use Rattle.graph_kinds.specs.History.{Every};
ghost use Rattle.packed_link.specs.Link.{mark_of, pack, tag_of};
ghost use Rattle.packed_link.specs.Layout.{announce_at, bucket_at, free_at, link_at, second_at};
ghost use Rattle.packed_link.specs.declared.link.Life.{Life};
ghost use Rattle.core_journal.specs.declared.event.Event.{Event};
ghost use Rattle.core_journal.specs.Event.{raises};
ghost use Rattle.core_journal.specs.GraphOf.{present_key};
ghost use Rattle.core_journal.specs.Life.{edge_marked, key_of, link_of, vertex_marked};
ghost use Rattle.core_journal.specs.Machine.{opening_words, word_at};
ghost use Rattle.core_journal.specs.State.{state};
ghost use Rattle.core_journal.specs.Worked.{first_life, small};
ghost use Rattle.core_kept.specs.Counts.{made};
ghost use Rattle.core_kept.specs.Edges.{IsRaisedFor};
ghost use Rattle.core_kept.specs.Facts.{IsKeptSpent};
ghost use Rattle.core_kept.specs.Freezing.{IsFrozenWord};
ghost use Rattle.core_kept.specs.Kept.{IsQuiet};
ghost use Rattle.core_kept.specs.Nodes.{IsFrozenToEnd, IsRipe, IsSpentWith, is_frozen};
ghost use Rattle.core_lists.specs.Chains.{KeepsList};
ghost use Rattle.core_rule.specs.Fronts.{IsVertexBelow, LeadsToVertex, MayRaise, MetEdge, MetVertex};
ghost use Rattle.core_rule.specs.OwnEvents.{withdraw_event};
ghost use Rattle.core_rule.specs.Plays.{drawing, storing, turning};
ghost use Rattle.core_rule.specs.Rule.{Ruled, accounts, first_view};
ghost use Rattle.core_rule.specs.Views.{
  GoesOn,
  IsEdgeBehind,
  IsEdgeIn,
  IsEdgeShown,
  IsVertexBehind,
  IsVertexIn,
  Steps,
};
ghost use Rattle.core_worked.specs.KnownSteps.{view_at, view_beside};
ghost use Rattle.core_worked.specs.LawSteps.{closing_table, closing_view, last_table};
ghost use Rattle.core_worked.specs.LawSteps.{view_behind, view_drawing, view_joined};
ghost use Rattle.core_worked.specs.Refused.{event_of};
ghost use Rattle.core_worked.specs.TwoLives.{two_lives};

/// A load that finds the count of numbers and the won unlink of event 41 are steps of caller 0 (`a_view_goes_on#look`,
/// `#win`), and so are the store of event 34, a load that replies behind the pass, and one behind a join (`#store`,
/// `#reply`, `#meet`); by the unlink its pass goes on (`#pass`), and by the two behind it further (`#chain`). What it
/// met before, a later view has met (`a_later_view_has_met_it`): the vertex of node 0 and the edge of node 3, spent by
/// then, its key, the marked link, the link in front of key 2 and what it leads to, and that it raised for the edge of
/// node 2, whose source may be raised again.
pub fn worked_views_go_on()
    ensures look { Steps (view_drawing 52) None (view_drawing 52) }
    ensures win { Steps (view_at 0 41) (Some (event_of 41)) (view_behind 41) }
    ensures store { Steps (view_at 0 34) (Some (event_of 34)) (view_behind 34) }
    ensures reply { Steps (view_at 0 45) None (view_at 0 45) }
    ensures meet { Steps view_joined None view_joined }
    ensures pass { GoesOn (view_at 0 41) (view_behind 41) }
    ensures chain { GoesOn (view_at 0 41) (view_behind 43) }
    ensures vertex { MetVertex (view_behind 43) (first_life 0) }
    ensures edge { MetEdge (view_behind 43) (first_life 0) (first_life 3) }
    ensures dead { word_at small (take 44 two_lives) (link_at small 0) ≡ pack 1 1 1 }
    ensures below { IsVertexBelow (view_behind 43) 2 (link_at small 0) (first_life 0) }
    ensures leads { LeadsToVertex (view_behind 43) (bucket_at small 0) }
    ensures raised { IsRaisedFor small (take 29 two_lives) 0 (first_life 2) (first_life 0) }
{}

/// Where the words lead that caller 0 loads in its pass (`a_word_leads_to_what_is_met`): that of the bucket to node 0,
/// whose link leads to node 1 and whose second word to node 3; in the journal with nodes beside others the link of the
/// edge of node 4 to that of node 5. What these words tell (`the_words_of_a_met_node_tell_its_life`): the life, the
/// key, that a vertex is present and later removed, the edge, that it's unmarked and later marked, and that its source
/// may be raised. Key 3 is passed on the chain and on the list (`a_passed_key_is_absent`).
pub fn worked_words_are_shown()
    ensures bucket { IsVertexIn (view_at 0 40) 0 0 }
    ensures vertex { IsVertexBehind (view_at 0 40) (first_life 0) 1 }
    ensures list { IsEdgeIn (view_at 0 40) (first_life 0) 3 }
    ensures edge { IsEdgeBehind (view_beside 0 56) (first_life 0) (first_life 4) 5 }
    ensures life { tag_of (word_at small (take 40 two_lives) (link_at small 0)) ≡ 1 }
    ensures second { tag_of (word_at small (take 40 two_lives) (second_at small 0)) ≡ 1 }
    ensures key { key_of (take 40 two_lives) (first_life 0) ≡ Some 1 }
    ensures present { present_key (take 40 two_lives) (first_life 0) ≡ Some 1 }
    ensures removed { (vertex_marked (take 41 two_lives) (first_life 0) ≡ true)
        × (present_key (take 41 two_lives) (first_life 0) ≡ None) }
    ensures shown { IsEdgeShown (view_at 0 41) (first_life 0) (first_life 3) }
    ensures unmarked { edge_marked (take 41 two_lives) (first_life 3) ≡ false }
    ensures marked { edge_marked (take 44 two_lives) (first_life 3) ≡ true }
    ensures may_raise { MayRaise (view_at 0 27) (first_life 0) }
    ensures no_vertex { (x : Life) → present_key (take 40 two_lives) x ≡ Some 3 → ⊥ }
    ensures no_edge { (x : Life) (link : Event) → link_of (take 40 two_lives) x ≡ Some link
        → edge_marked (take 40 two_lives) x ≡ false → link.source ≡ first_life 0 → link.key ≡ 3 → ⊥ }
{}

/// What is the token's own (`a_step_keeps_what_is_the_tokens_own`): behind the freezing of its edge, event 43, the list
/// of node 0 is one still, with its frozen head, and no raise was added; behind the store of node 3's link, event 47,
/// node 2 keeps its words and is ripe, and the list of node 0 is frozen to its end. A closed list
/// (`a_closed_list_is_a_list#next`, `#end`) has node 3 in its frozen part, and ends there; its frozen words are marked
/// (`frozen_words_stay#marked`), as the head that event 42 closed (`#head`) and the link that event 43 froze (`#edge`),
/// whose node is spent with the caller (`#found`); and the head stays so while caller 1 moves the epoch on (`#others`).
/// The raise of event 27 is for the edge of node 2, which was linked before (`a_raise_is_for_edges_linked_before`).
pub fn worked_own_things_stay()
    ensures list { KeepsList small (take 44 two_lives) 0 }
    ensures frozen_word { IsFrozenWord small (take 44 two_lives) 0 (second_at small 0) }
    ensures counts { made raises 0 (take 44 two_lives) ≡ 1 }
    ensures spent { IsSpentWith small (take 48 two_lives) 0 2 }
    ensures words { IsKeptSpent small (take 47 two_lives) (take 48 two_lives) 2 }
    ensures ripe { IsRipe small (take 48 two_lives) 0 2 }
    ensures others { IsFrozenWord small (take 47 two_lives) 0 (second_at small 0) }
    ensures finished { IsFrozenToEnd small (take 48 two_lives) 0 }
    ensures next { is_frozen (state small (take 44 two_lives)) 0 3 ≡ true }
    ensures end { IsFrozenToEnd small (take 44 two_lives) 0 }
    ensures marked { mark_of (word_at small (take 44 two_lives) (second_at small 0)) ≡ 1 }
    ensures head { IsFrozenWord small (take 43 two_lives) 0 (second_at small 0) }
    ensures edge { IsFrozenWord small (take 44 two_lives) 0 (link_at small 3) }
    ensures found { IsSpentWith small (take 44 two_lives) 0 3 }
    ensures raised { IsRaisedFor small (take 28 two_lives) 0 (first_life 2) (first_life 0) }
{}

/// The rule of the table. A new one meets it (`a_new_table_meets_the_rule`), whose first token may draw a number
/// (`a_draw_keeps_the_rule`); a token that closes its pass, event 44, stores its announcement, and one that unlinks a
/// vertex, event 41, exchanges the word of the bucket (`steps_keep_the_rule#store`, `#change`). A table whose last
/// token drew both numbers and answers for them meets it, its journal is that token's front
/// (`a_last_token_knows_the_journal#journal`), and its words are those behind it (`#word`); each account of a token
/// that answers for all callers is quiet in its front, and the words are those behind it
/// (`a_token_of_all_callers_knows_the_journal#quiet`, `#word`).
pub fn worked_tables_keep_the_rule()
    ensures new { Ruled small (opening (opening_words small) [] (first_view small)) }
    ensures draw { Allows (Ruled small) 0 0 (first_view small, []) 1 (λ x. (x + 1) % 2 ^ 64)
        (drawing (step 0 1 0 0 none) (first_view small, [])) }
    ensures store { Allows (Ruled small) 0 0 (view_at 0 44, []) (announce_at small 0) (λ _. 0)
        (λ _. storing (λ _. withdraw_event (view_at 0 44)) (step 0 (announce_at small 0) 0 0 none) (view_at 0 44, [])
        0) }
    ensures change { Allows (Ruled small) 0 0 (view_at 0 41, []) (bucket_at small 0)
        (λ x. cond (x == pack 0 0 0) (pack 1 0 0) x)
        (turning (λ x. x == pack 0 0 0) (λ _. event_of 41) (step 0 (bucket_at small 0) 0 0 none) (view_at 0 41, [])) }
    ensures closed_word { Ruled small closing_table → word_at small two_lives (free_at small) ≡ pack 3 0 7 }
    ensures last { Ruled small last_table }
    ensures journal { (rule : Ruled small last_table) → rule.journal ≡ two_lives }
    ensures word { Ruled small last_table → word_at small two_lives (free_at small) ≡ pack 3 0 7 }
    ensures quiet { Every (λ (a : ℕ × ℕ). IsQuiet two_lives a.0 a.1) (accounts closing_view) }
{}
