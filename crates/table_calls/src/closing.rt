//! The list of an unlinked vertex is closed at its head, and its first edge is frozen.

ghost use Rattle.std.specs.Prelude.{◌≡◌, true, IfSome, IsNone};
ghost use Rattle.packed_link.specs.Layout.{second_at};
ghost use Rattle.core_rule.specs.OwnEvents.{freeze_head_event};
ghost use Rattle.graph_table.specs.Tokens.{IsOf};
ghost use Rattle.graph_table.specs.Table.{MatchMark};
ghost use Rattle.table_calls.specs.Closing.{FreezesFirst, IsClosedList};
ghost use Rattle.table_calls.specs.Edges.{IsEmptyList};
ghost use Rattle.table_calls.specs.Resting.{IsResting, uses_of};
ghost use Rattle.core_stretches.specs.Holdings.{IsUnlinkedVertex};

use graph_table::{GraphTable, Spent, Token};
use packed_link::{Life, Link};

/// Closes the list of a vertex that the token unlinked, and answers the second word that was found.
pub fn close_list(table: &GraphTable, token: &mut Token, from: &Spent) -> u64
    requires table { IsOf table.now token.old }
    requires resting { IsResting true token.old.view }
    requires unlinked { IsUnlinkedVertex token.old.view from.now }
    ensures table { IsOf table.now token.new }
    ensures resting { IsResting true token.new.view }
    ensures marked { MatchMark token.old.view (second_at table.now.sizes from.now.index) result
        (freeze_head_event token.old.view from.now result) token.new.view }
    ensures unlinked { IsUnlinkedVertex token.new.view from.now }
    ensures closed { IsClosedList token.new.view from.now }
    ensures uses { uses_of token.new.view ≡ uses_of token.old.view }
{
    table.freeze_head(token, from)
}

/// Marks the link of the first edge of a closed list, and answers the link that was found, with the node. `None` comes
/// where the list has no edge.
pub fn freeze_first(table: &GraphTable, token: &mut Token, from: Life) -> Option<(u64, Spent)>
    requires table { IsOf table.now token.old }
    requires resting { IsResting true token.old.view }
    requires closed { IsClosedList token.old.view from }
    ensures table { IsOf table.now token.new }
    ensures resting { IsResting true token.new.view }
    ensures closed { IsClosedList token.new.view from }
    ensures freezes { IfSome result (λ both. FreezesFirst token.old.view from both.0 both.1 token.new.view) }
    ensures none { IsNone result → IsEmptyList token.new.view from }
    ensures uses { uses_of token.new.view ≡ uses_of token.old.view }
{
    let layout = table.layout();
    let place = layout.second_at(from.index);
    let seen = Link(table.load(token, place));
    let index = seen.index();
    if index == 16_777_215 {
        return None;
    }
    let link = Link(table.load(token, layout.link_at(index)));
    let tag = link.tag();
    let (found, spent) = table.freeze_edge(token, Life { index, tag });
    Some((found, spent))
}
