//! A vertex is removed and buried.

ghost use Rattle.std.specs.Prelude.{◌≡◌, ◌≤◌, [], true, IfSome, IsNone};
ghost use Rattle.graph_table.specs.Tokens.{IsOf};
ghost use Rattle.graph_updates.specs.Burying.{IsBuried};
ghost use Rattle.layer_rows.specs.Causes.{IsNoneRemoved};
ghost use Rattle.layer_rows.specs.Rows.{IsAtWork, HasUnlinkedOne, IsWaiting};

use crate::vertices::look_for;
use epoch_limbo::Limbo;
use graph_table::{GraphTable, Spent, Token};
use graph_updates::bury;
use vertex_list::{Found, Marked, Unlinked, mark, unlink};

/// Walks to the vertex of a key and marks it, walks to the key once more, and unlinks the marked vertex to which that
/// walk came. `None` comes only where the first walk came to no vertex of the key, the mark was there before, the
/// second walk came to no marked vertex, or another caller changed the word before that one.
pub fn remove(table: &GraphTable, token: &mut Token, key: u32) -> Option<Spent>
    requires table { IsOf table.now token.old }
    requires work { IsAtWork token.old.view }
    ensures table { IsOf table.now token.new }
    ensures removed { IfSome result (λ spent. HasUnlinkedOne token.new.view spent) }
    ensures none { IsNone result → IsNoneRemoved key token.old.view token.new.view }
{
    let Found::Here(seen) = look_for(table, token, key) else {
        return None;
    };
    let Marked::Won = mark(table, token, seen.life) else {
        return None;
    };
    let Found::Dead(position) = look_for(table, token, key) else {
        return None;
    };
    match unlink(table, token, position) {
        Unlinked::Done(spent, _behind) => Some(spent),
        Unlinked::Lost => None,
    }
}

/// Buries the only node that the token spent, into an empty limbo with room for all nodes.
pub fn bury_alone(table: &GraphTable, token: &mut Token, limbo: &mut Limbo, spent: Spent)
    requires table { IsOf table.now token.old }
    requires removed { HasUnlinkedOne token.old.view spent }
    requires empty { limbo.old.nodes ≡ [] }
    requires room { table.now.sizes.nodes ≤ limbo.old.room }
    ensures table { IsOf table.now token.new }
    ensures buried { IsBuried limbo.old limbo.new token.old.view token.new.view spent }
    ensures waiting { IsWaiting true 0 token.new.view limbo.new.nodes }
{
    bury(table, token, limbo, spent);
}
