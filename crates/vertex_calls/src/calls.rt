//! A pass is opened; in it a vertex is prepared for its bucket, found, marked and unlinked, and its list stepped
//! through.

ghost use Rattle.std.specs.Prelude.{◌≡◌, ◌<◌, ◌+◌, ◌⊎◌, true, false, IfSome, IsNone};
ghost use Rattle.core_rule.specs.Fronts.{MetVertex};
ghost use Rattle.graph_table.specs.Tokens.{IsOf};
ghost use Rattle.table_calls.specs.Resting.{IsResting, uses_of};
ghost use Rattle.vertex_list.specs.Changes.{IsLost, MatchLinked, MatchMarked};
ghost use Rattle.vertex_list.specs.Positions.{IsAnyPosition, IsPosition, LeadsToDead};
ghost use Rattle.vertex_list.specs.Walks.{MatchFound, MatchStepped};
ghost use Rattle.vertex_calls.specs.Causes.{CameToNoGap, IsWalked, CameToNoNode};
ghost use Rattle.vertex_calls.specs.Ready.{IsInPass, IsPrepared, IsReady, is_done};

use epoch_limbo::open_pass;
use graph_table::{Fresh, GraphTable, Token};
use node_arena::{Taken, fill_vertex, take};
use packed_link::Life;
use vertex_list::{
    Found, Linked, Marked, Position, Stepped, Unlinked, link, mark, start, step, unlink, walk,
};

/// Opens the pass of the token's caller.
pub fn open(table: &GraphTable, token: &mut Token)
    requires table { IsOf table.now token.old }
    requires resting { IsResting false token.old.view }
    requires uses { uses_of token.old.view ≡ 0 }
    ensures table { IsOf table.now token.new }
    ensures ready { IsReady 0 token.new.view }
{
    open_pass(table, token);
}

/// The position at the word of the key's bucket.
pub fn first(table: &GraphTable, token: &mut Token, key: u32, _taken: u32) -> Position
    requires table { IsOf table.now token.old }
    requires ready { IsReady _taken token.old.view }
    ensures table { IsOf table.now token.new }
    ensures ready { IsReady _taken token.new.view }
    ensures key { result.key ≡ key }
    ensures position { IsPosition false token.new.view result }
{
    start(table, token, key)
}

/// Walks from a position to its key.
pub fn seek(table: &GraphTable, token: &mut Token, position: Position, _taken: u32) -> Found
    requires table { IsOf table.now token.old }
    requires ready { IsReady _taken token.old.view }
    requires position { IsPosition false token.old.view position }
    ensures table { IsOf table.now token.new }
    ensures ready { IsReady _taken token.new.view }
    ensures found { MatchFound result position token.new.view }
{
    walk(table, token, position)
}

/// Goes on by one vertex.
pub fn forward(table: &GraphTable, token: &mut Token, position: Position, _taken: u32) -> Stepped
    requires table { IsOf table.now token.old }
    requires ready { IsReady _taken token.old.view }
    requires position { IsAnyPosition token.old.view position }
    ensures table { IsOf table.now token.new }
    ensures ready { IsReady _taken token.new.view }
    ensures stepped { MatchStepped result position token.old.view token.new.view }
{
    step(table, token, position)
}

/// Marks a vertex.
pub fn remove(table: &GraphTable, token: &mut Token, life: Life, _taken: u32) -> Marked
    requires table { IsOf table.now token.old }
    requires ready { IsReady _taken token.old.view }
    requires vertex { MetVertex token.old.view life }
    ensures table { IsOf table.now token.new }
    ensures ready { IsReady _taken token.new.view }
    ensures vertex { MetVertex token.new.view life }
    ensures marked { MatchMarked result life token.old.view token.new.view }
{
    mark(table, token, life)
}

/// Unlinks the marked vertex to which a position leads: the position goes on. `None` comes only where another caller
/// changed the word since the position's load.
pub fn pass_by(
    table: &GraphTable,
    token: &mut Token,
    position: Position,
    _taken: u32,
) -> Option<Position>
    requires table { IsOf table.now token.old }
    requires ready { IsReady _taken token.old.view }
    requires position { IsPosition false token.old.view position }
    requires dead { LeadsToDead token.old.view position }
    ensures table { IsOf table.now token.new }
    ensures ready { IsReady _taken token.new.view }
    ensures position { IfSome result (λ next. IsPosition false token.new.view next) }
    ensures key { IfSome result (λ next. next.key ≡ position.key) }
    ensures none { IsNone result → IsLost position token.old.view token.new.view }
{
    match unlink(table, token, position) {
        Unlinked::Done(_, next) => Some(next),
        Unlinked::Lost => None,
    }
}

/// Takes a node and fills it as a vertex for the position at which its key is missing. `None` comes only where the walk
/// came to no such position, or no node was taken behind it.
pub fn prepare(
    table: &GraphTable,
    token: &mut Token,
    key: u32,
    _taken: u32,
) -> Option<(Position, Fresh)>
    requires table { IsOf table.now token.old }
    requires ready { IsReady _taken token.old.view }
    requires few { _taken < 1000 }
    ensures table { IsOf table.now token.new }
    ensures prepared { IfSome result (λ both. IsPrepared (_taken + 1) token.new.view both.0 both.1) }
    ensures key { IfSome result (λ both. both.0.key ≡ key) }
    ensures none { IsNone result
        → CameToNoGap key token.old.view token.new.view ⊎ CameToNoNode token.old.view token.new.view }
{
    let position = start(table, token, key);
    let Found::Gone(position) = walk(table, token, position) else {
        return None;
    };
    let Taken::Node(fresh) = take(table, token) else {
        return None;
    };
    let next = position.word();
    fill_vertex(table, token, &fresh, key, next);
    Some((position, fresh))
}

/// Links a vertex that was prepared.
pub fn add(
    table: &GraphTable,
    token: &mut Token,
    position: Position,
    fresh: Fresh,
    _taken: u32,
) -> Linked
    requires table { IsOf table.now token.old }
    requires prepared { IsPrepared _taken token.old.view position fresh }
    ensures table { IsOf table.now token.new }
    ensures pass { IsInPass token.new.view }
    ensures ready { is_done result ≡ true → IsReady _taken token.new.view }
    ensures linked { MatchLinked result position fresh token.old.view token.new.view }
{
    link(table, token, position, fresh)
}

/// Walks to a key from the word of its bucket, also while a node is held that wasn't linked.
pub fn look_again(table: &GraphTable, token: &mut Token, key: u32) -> Found
    requires table { IsOf table.now token.old }
    requires pass { IsInPass token.old.view }
    ensures table { IsOf table.now token.new }
    ensures pass { IsInPass token.new.view }
    ensures walked { IsWalked key result token.old.view token.new.view }
{
    let position = start(table, token, key);
    walk(table, token, position)
}
