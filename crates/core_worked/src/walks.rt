//! A walk of the worked journal, load by load.

ghost use Rattle.std.specs.Prelude.{◌≡◌, true, [], ◌∷◌, map, take};
ghost use Rattle.packed_link.specs.Link.{nowhere};
ghost use Rattle.core_journal.specs.State.{Spent, state};
ghost use Rattle.core_journal.specs.Worked.{small};
ghost use Rattle.core_kept.specs.Nodes.{node_in};
ghost use Rattle.core_worked.specs.TwoLives.{two_lives, walk_in_a_frozen_list};
ghost use Rattle.core_lists.specs.Walks.{IsWalk};
ghost use Rattle.core_lists.specs.Walks.{led_to};

/// A walk of the worked journal with all kinds of events (`walk_in_a_frozen_list` of `specs/TwoLives.antt`): it comes
/// to a vertex, which is then marked and unlinked, and whose list is frozen. From the vertex, spent by then, it goes on
/// along the bucket and into the list, to the edge that was handed over.
pub fn a_walk_goes_on_from_a_spent_vertex()
    ensures walk { IsWalk small (take 44 two_lives) 0 walk_in_a_frozen_list }
    ensures spent { ((node_in small (take 44 two_lives) 0).mode ≡ Spent)
        × ((node_in small (take 44 two_lives) 3).mode ≡ Spent) × ((state small (take 44 two_lives)).frozen 0 ≡ true) }
    ensures nodes { map (led_to small) walk_in_a_frozen_list ≡ nowhere ∷ 3 ∷ 1 ∷ 0 ∷ [] }
{}
