//! Another caller marks an edge or replaces it, and leaves it on its list.

ghost use Rattle.std.specs.Prelude.{◌≡◌, ◌≤◌, true, false};
ghost use Rattle.graph_table.specs.Tokens.{IsOf};
ghost use Rattle.table_calls.specs.Resting.{IsResting, uses_of};

use crate::looking::find_root;
use edge_calls::{change, remove};
use graph_table::{GraphTable, Token};
use layer_rows::begin_pass;

/// Opens the pass of a token that has its number, and took no node and raised no counter.
pub fn join_in(table: &GraphTable, token: &mut Token)
    requires table { IsOf table.now token.old }
    requires resting { IsResting false token.old.view }
    requires uses { uses_of token.old.view ≡ 0 }
    ensures table { IsOf table.now token.new }
    ensures resting { IsResting true token.new.view }
    ensures uses { uses_of token.new.view ≡ 0 }
{
    begin_pass(table, token);
}

/// Marks the edge from one key to another, if walks come to both ends.
pub fn mark_edge(table: &GraphTable, token: &mut Token, from: u32, to: u32) -> Option<()>
    requires table { IsOf table.now token.old }
    requires resting { IsResting true token.old.view }
    requires uses { uses_of token.old.view ≡ 0 }
    ensures table { IsOf table.now token.new }
{
    let source = find_root(table, token, from)?;
    remove(table, token, source, to)?;
    Some(())
}

/// Replaces the edge from one key to another by one of this weight, if walks come to both ends and a node is taken.
pub fn change_edge(
    table: &GraphTable,
    token: &mut Token,
    from: u32,
    to: u32,
    weight: u32,
) -> Option<()>
    requires table { IsOf table.now token.old }
    requires resting { IsResting true token.old.view }
    requires uses { uses_of token.old.view ≡ 0 }
    requires weight { 1 ≤ weight }
    ensures table { IsOf table.now token.new }
{
    let source = find_root(table, token, from)?;
    change(table, token, source, to, weight)?;
    Some(())
}
