//! A vertex that was unlinked is buried: its list is closed and frozen to its end, and its nodes go into limbo.

ghost use Rattle.std.specs.Prelude.{◌≡◌, true};
ghost use Rattle.graph_table.specs.Tokens.{IsOf};
ghost use Rattle.graph_updates.specs.Burying.{IsBuried, IsToBury};

use edge_list::{freeze_head, freeze_next};
use epoch_limbo::Limbo;
use graph_table::{GraphTable, Spent, Token};

/// Closes the list of a vertex that the token unlinked, freezes it edge by edge, retires each edge as it's handed over,
/// and then the vertex: O(1 + edges), two loads and a step for each edge. Where every other node that the token spent
/// is in the limbo, every one is then. The limbo has room for all nodes. The graph is left as it is.
pub fn bury(table: &GraphTable, token: &mut Token, limbo: &mut Limbo, spent: Spent)
    requires table { IsOf table.now token.old }
    requires number { token.old.view.numbered ≡ true }
    requires vertex { IsToBury limbo.old token.old.view spent }
    ensures table { IsOf table.now token.new }
    ensures buried { IsBuried limbo.old limbo.new token.old.view token.new.view spent }
{
    let mut frozen = freeze_head(table, token, &spent);
    while let Some(edge) = freeze_next(table, token, &mut frozen) {
        limbo.retire(table, token, edge);
    }
    limbo.retire(table, token, spent);
}
