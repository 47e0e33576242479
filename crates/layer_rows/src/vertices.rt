//! A token begins, looks for vertices, and adds them.

ghost use Rattle.std.specs.Prelude.{◌≡◌, ◌<◌, true, false, IfSome, IsNone};
ghost use Rattle.core_kept.specs.Counts.{most_pops};
ghost use Rattle.core_rule.specs.Stretches.{HasPass};
ghost use Rattle.graph_table.specs.Tokens.{IsOf};
ghost use Rattle.layer_rows.specs.Causes.{IsNoVertexAdded};
ghost use Rattle.layer_rows.specs.Rows.{IsAtWork, IsVertexAdded, taken_by};
ghost use Rattle.vertex_calls.specs.Causes.{IsWalked};

use crate::passes::begin_pass;
use graph_table::{GraphTable, Token};
use node_arena::{Taken, fill_vertex, take};
use packed_link::Life;
use table_calls::enter;
use vertex_list::{Found, Linked, link, start, walk};

/// The token draws its number and opens its pass.
pub fn begin(table: &GraphTable, token: &mut Token)
    requires table { IsOf table.now token.old }
    requires right { token.old.view.draws ≡ true }
    requires none { token.old.view.numbered ≡ false }
    requires left { token.old.view.drawn < token.old.view.sizes.callers }
    ensures table { IsOf table.now token.new }
    ensures work { IsAtWork token.new.view }
    ensures taken { taken_by token.new.view ≡ 0 }
{
    enter(table, token);
    begin_pass(table, token);
}

/// Walks to a key from the word of its bucket.
pub fn look_for(table: &GraphTable, token: &mut Token, key: u32) -> Found
    requires table { IsOf table.now token.old }
    requires number { token.old.view.numbered ≡ true }
    requires pass { HasPass token.old.view }
    ensures table { IsOf table.now token.new }
    ensures walked { IsWalked key result token.old.view token.new.view }
{
    let position = start(table, token, key);
    walk(table, token, position)
}

/// Takes a node, walks to the position at which the key is missing, and links the node there as a vertex. `None` comes
/// only where no node was taken, the walk came to a vertex of the key or to a marked one, or another caller changed the
/// word.
pub fn add_vertex(table: &GraphTable, token: &mut Token, key: u32) -> Option<Life>
    requires table { IsOf table.now token.old }
    requires work { IsAtWork token.old.view }
    requires few { taken_by token.old.view < most_pops }
    ensures table { IsOf table.now token.new }
    ensures added { IfSome result (λ life. IsVertexAdded key token.old.view token.new.view life) }
    ensures none { IsNone result → IsNoVertexAdded key token.old.view token.new.view }
{
    let Taken::Node(fresh) = take(table, token) else {
        return None;
    };
    let Found::Gone(position) = look_for(table, token, key) else {
        return None;
    };
    fill_vertex(table, token, &fresh, key, position.word());
    match link(table, token, position, fresh) {
        Linked::Done(life) => Some(life),
        Linked::Lost(_) => None,
    }
}
