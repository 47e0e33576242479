//! The first vertex of the only bucket is found, unlinked and retired.

ghost use Rattle.std.specs.Prelude.{◌≡◌, ◌<◌, [], true, false, IfSome, IsNone, None};
ghost use Rattle.core_stretches.specs.Holdings.{IsRetirable, IsUnlinkedVertex};
ghost use Rattle.core_stretches.specs.Makes.{Makes};
ghost use Rattle.graph_table.specs.Tokens.{IsOf};
ghost use Rattle.limbo_calls.specs.Causes.{IsNoneBuried, IsNoneClosed, IsNoneUnlinked};
ghost use Rattle.limbo_calls.specs.Steady.{HoldsOneNode, LeadsToMet, IsSteady};
ghost use Rattle.table_calls.specs.Vertices.{IsEmptyBucket};

use crate::adding::{close, open};
use epoch_limbo::Limbo;
use graph_table::{GraphTable, Spent, Token, UnlinkTried};
use packed_link::{Life, Link};

/// The word of the only bucket, and the vertex to which it leads. `None` comes only where it leads to none.
pub fn find_first(table: &GraphTable, token: &mut Token, _steps: u32) -> Option<(Link, Life)>
    requires table { IsOf table.now token.old }
    requires steady { IsSteady true _steps token.old.view }
    requires one { table.now.sizes.buckets ≡ 1 }
    ensures table { IsOf table.now token.new }
    ensures steady { IsSteady true _steps token.new.view }
    ensures makes { Makes token.old.view [] token.new.view }
    ensures first { IfSome result (λ found. LeadsToMet token.new.view found.0.0 found.1) }
    ensures none { IsNone result → IsEmptyBucket token.new.view 0 }
{
    let layout = table.layout();
    let seen = Link(table.load(token, layout.bucket_at(0)));
    let index = seen.index();
    if index == 16_777_215 {
        return None;
    }
    let link = Link(table.load(token, layout.link_at(index)));
    let tag = link.tag();
    Some((seen, Life { index, tag }))
}

/// Marks the first vertex and unlinks it. `None` comes only where it had its mark before, has none behind the own mark,
/// or another caller changed the bucket's word.
pub fn unlink_first(
    table: &GraphTable,
    token: &mut Token,
    seen: Link,
    life: Life,
    _steps: u32,
) -> Option<Spent>
    requires table { IsOf table.now token.old }
    requires steady { IsSteady true _steps token.old.view }
    requires one { table.now.sizes.buckets ≡ 1 }
    requires first { LeadsToMet token.old.view seen.0 life }
    ensures table { IsOf table.now token.new }
    ensures steady { IfSome result (λ _. IsSteady true _steps token.new.view) }
    ensures unlinked { IfSome result (λ spent. IsUnlinkedVertex token.new.view spent) }
    ensures none { IsNone result → IsNoneUnlinked seen.0 life token.old.view token.new.view }
{
    let layout = table.layout();
    let found = Link(table.mark_vertex(token, life));
    if found.marked() {
        return None;
    }
    let index = life.index;
    let dead = Link(table.load(token, layout.link_at(index)));
    if !dead.marked() {
        return None;
    }
    let place = layout.bucket_at(0);
    let next = dead.index();
    match table.unlink_vertex(token, place, seen, life, next) {
        UnlinkTried::Won(spent) => Some(spent),
        UnlinkTried::Lost(_) => None,
    }
}

/// Closes the list of an unlinked vertex that has no edge. It answers no only where it had been closed, or has an edge.
pub fn close_list(table: &GraphTable, token: &mut Token, spent: &Spent, _steps: u32) -> bool
    requires table { IsOf table.now token.old }
    requires steady { IsSteady true _steps token.old.view }
    requires unlinked { IsUnlinkedVertex token.old.view spent.now }
    ensures table { IsOf table.now token.new }
    ensures steady { result ≡ true → IsSteady true _steps token.new.view }
    ensures closed { result ≡ true → IsRetirable None token.new.view spent.now }
    ensures none { result ≡ false → IsNoneClosed spent.now token.old.view token.new.view }
{
    let layout = table.layout();
    let found = Link(table.freeze_head(token, spent));
    if found.marked() {
        return false;
    }
    let life = spent.life();
    let index = life.index;
    let head = Link(table.load(token, layout.second_at(index)));
    head.index() == 16_777_215
}

/// In a pass, unlinks the first vertex and retires it into an empty limbo. It answers no only where there was none, or
/// one of the calls by which it's unlinked and its list closed answers none.
pub fn bury_first(table: &GraphTable, token: &mut Token, limbo: &mut Limbo, _steps: u32) -> bool
    requires table { IsOf table.now token.old }
    requires steady { IsSteady false _steps token.old.view }
    requires one { table.now.sizes.buckets ≡ 1 }
    requires empty { limbo.old.nodes ≡ [] }
    requires room { 0 < limbo.old.room }
    ensures table { IsOf table.now token.new }
    ensures buried { result ≡ true → HoldsOneNode _steps token.new.view limbo.new }
    ensures none { result ≡ false → IsNoneBuried token.old.view token.new.view }
{
    open(table, token, _steps);
    let Some((seen, life)) = find_first(table, token, _steps) else {
        return false;
    };
    let Some(spent) = unlink_first(table, token, seen, life, _steps) else {
        return false;
    };
    if !close_list(table, token, &spent, _steps) {
        return false;
    }
    limbo.retire(table, token, spent);
    close(table, token, _steps);
    true
}
