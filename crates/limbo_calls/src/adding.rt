//! A pass is opened and closed, and a vertex is added as the first of the only bucket.

ghost use Rattle.std.specs.Prelude.{◌≡◌, ℕ, ◌<◌, ◌≤◌, ◌+◌, ◌∷◌, [], true, false, IfSome, IsNone};
ghost use Rattle.packed_link.specs.Link.{nowhere};
ghost use Rattle.core_rule.specs.OwnEvents.{announce_event, withdraw_event};
ghost use Rattle.core_stretches.specs.Holdings.{IsFilledAsEdge};
ghost use Rattle.core_stretches.specs.Makes.{Makes};
ghost use Rattle.graph_table.specs.Tokens.{IsOf};
ghost use Rattle.limbo_calls.specs.Causes.{IsNoneAdded, LinksOne};
ghost use Rattle.limbo_calls.specs.Steady.{IsSteady};
ghost use Rattle.node_arena.specs.Taking.{TookNone};

use epoch_limbo::{close_pass, open_pass};
use graph_table::{Fresh, GraphTable, LinkTried, Token};
use node_arena::{Taken, fill_edge, fill_vertex, take};
use packed_link::{Life, Link};

/// Opens the pass of the token's caller.
pub fn open(table: &GraphTable, token: &mut Token, _steps: u32)
    requires table { IsOf table.now token.old }
    requires steady { IsSteady false _steps token.old.view }
    ensures table { IsOf table.now token.new }
    ensures steady { IsSteady true _steps token.new.view }
    ensures makes { (epoch : ℕ) × Makes token.old.view (announce_event token.old.view epoch ∷ []) token.new.view }
{
    open_pass(table, token);
}

/// Closes the pass of the token's caller.
pub fn close(table: &GraphTable, token: &mut Token, _steps: u32)
    requires table { IsOf table.now token.old }
    requires steady { IsSteady true _steps token.old.view }
    ensures table { IsOf table.now token.new }
    ensures steady { IsSteady false _steps token.new.view }
    ensures makes { Makes token.old.view (withdraw_event token.old.view ∷ []) token.new.view }
{
    close_pass(table, token);
}

/// Takes a node, fills it as a vertex of this key, and links it in a pass as the first of the only bucket, where that
/// is empty. It answers no only where no node was taken, the bucket has a vertex, or another caller changed its word.
pub fn add_first(table: &GraphTable, token: &mut Token, key: u32, _steps: u32) -> bool
    requires table { IsOf table.now token.old }
    requires steady { IsSteady false _steps token.old.view }
    requires one { table.now.sizes.buckets ≡ 1 }
    requires few { _steps < 1000 }
    ensures table { IsOf table.now token.new }
    ensures steady { result ≡ true → IsSteady false (_steps + 1) token.new.view }
    ensures links { result ≡ true → LinksOne token.old.view token.new.view }
    ensures none { result ≡ false → IsNoneAdded token.old.view token.new.view }
{
    let layout = table.layout();
    let Taken::Node(fresh) = take(table, token) else {
        return false;
    };
    let none = Link(16_777_215);
    fill_vertex(table, token, &fresh, key, none);
    open_pass(table, token);
    let place = layout.bucket_at(0);
    let seen = Link(table.load(token, place));
    if seen.index() != 16_777_215 {
        return false;
    }
    let LinkTried::Won(_) = table.link_vertex(token, place, seen, fresh) else {
        return false;
    };
    close_pass(table, token);
    true
}

/// Takes a node and fills it as an edge. `None` comes only where no node was taken.
pub fn take_edge(
    table: &GraphTable,
    token: &mut Token,
    key: u32,
    target: Life,
    weight: u32,
    _steps: u32,
) -> Option<Fresh>
    requires table { IsOf table.now token.old }
    requires steady { IsSteady false _steps token.old.view }
    requires few { _steps < 1000 }
    requires target { target.index < table.now.sizes.nodes }
    requires tag { target.tag < 1000 }
    requires weight { 1 ≤ weight }
    ensures table { IsOf table.now token.new }
    ensures filled { IfSome result (λ fresh. IsFilledAsEdge token.new.view key nowhere target weight fresh) }
    ensures none { IsNone result → TookNone token.old.view token.new.view }
{
    let Taken::Node(fresh) = take(table, token) else {
        return None;
    };
    let none = Link(16_777_215);
    fill_edge(table, token, &fresh, key, none, target, weight);
    Some(fresh)
}
