//! The laws of hands: what those in order tell, and that one outlasts a split of its token.

ghost use Rattle.std.specs.Prelude.{◌≡◌, [], ◌∷◌};
ghost use Rattle.graph_kinds.specs.History.{IsLegal};
ghost use Rattle.core_journal.specs.GraphOf.{graph_of};
ghost use Rattle.core_journal.specs.History.{history};
ghost use Rattle.core_rule.specs.Plays.{stays};
ghost use Rattle.core_stretches.specs.Holdings.{HasNoPass};
ghost use Rattle.graph_table.specs.Tokens.{IsOf, TableValue, TokenValue};
ghost use Rattle.graph_updates.specs.Hands.{HandValue, HasNoEdgeOfSpent, IsHandOf, IsInOrder, book_of};

/// The history of the front and the book of a hand that is in order is legal, and ends in the graph of the front.
pub fn hands_in_order_have_a_legal_history()
    ensures { (g : TableValue) (h : HandValue) → IsHandOf g h → IsInOrder h
        → IsLegal (history h.token.view.front (book_of h.token.view ∷ [])) (graph_of h.token.view.front) }
{}

/// Outside a call, no edge is linked whose source life a hand in order has spent: the list of each vertex that it spent
/// and hasn't given back is frozen to its end.
pub fn hands_in_order_leave_no_edge_of_a_spent_vertex()
    ensures { (g : TableValue) (h : HandValue) → IsHandOf g h → IsInOrder h → HasNoEdgeOfSpent h.token.view }
{}

/// A hand whose token is split in two is as it was, but for the right to draw: it's one of the table, and in order if
/// it was. So the token of the next hand is split off the one before it.
pub fn a_split_leaves_a_hand()
    ensures hand { (g : TableValue) (h : HandValue) (t : TokenValue) → IsOf g t → t.view ≡ stays h.token.view
        → IsHandOf g h → IsHandOf g (record h { token = t }) }
    ensures closed { (h : HandValue) (t : TokenValue) → t.view ≡ stays h.token.view → HasNoPass h.token.view
        → HasNoPass t.view }
    ensures order { (g : TableValue) (h : HandValue) (t : TokenValue) → t.view ≡ stays h.token.view → IsHandOf g h
        → IsInOrder h → IsInOrder (record h { token = t }) }
{}
