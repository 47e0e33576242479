//! An edge is added, removed or changed by one try.

ghost use Rattle.std.specs.Prelude.{◌≡◌, ◌<◌, ◌≤◌, ◌≢◌, true, IfSome};
ghost use Rattle.core_journal.specs.Event.{pops, raises};
ghost use Rattle.core_kept.specs.Counts.{made, most_pops, most_raises};
ghost use Rattle.core_rule.specs.Fronts.{MetVertex, key_in};
ghost use Rattle.core_rule.specs.Stretches.{HasNoFresh};
ghost use Rattle.graph_table.specs.Tokens.{IsOf};
ghost use Rattle.edge_calls.specs.Tries.{IsAdding, IsChanging, IsRemoving};

use edge_list::{
    EdgeFound, EdgeLinked, EdgeMarked, EdgeReplaced, Started, link, mark, raise, replace, start,
    walk,
};
use graph_table::{GraphTable, Token};
use node_arena::{Taken, fill_edge, take};
use packed_link::Life;

/// Marks the edge of this key, if a walk comes to it.
pub fn remove(table: &GraphTable, token: &mut Token, from: Life, key: u32) -> Option<EdgeMarked>
    requires table { IsOf table.now token.old }
    requires number { token.old.view.numbered ≡ true }
    requires from { MetVertex token.old.view from }
    requires limit { made raises token.old.view.number token.old.view.front < most_raises }
    ensures table { IsOf table.now token.new }
    ensures removed { IfSome result (λ m. IsRemoving m from key token.old.view token.new.view) }
{
    let Started::At(position) = start(table, token, from, key) else {
        return None;
    };
    let EdgeFound::Here(sighting) = walk(table, token, position) else {
        return None;
    };
    let edge = sighting.edge;
    let raised = raise(table, token, from, &edge);
    Some(mark(table, token, &raised))
}

/// Links an edge to this target, if a walk finds that its key is missing and a node is taken.
pub fn add(
    table: &GraphTable,
    token: &mut Token,
    from: Life,
    to: Life,
    key: u32,
    weight: u32,
) -> Option<EdgeLinked>
    requires table { IsOf table.now token.old }
    requires number { token.old.view.numbered ≡ true }
    requires from { MetVertex token.old.view from }
    requires to { MetVertex token.old.view to }
    requires key { key_in token.old.view to.index ≡ key }
    requires weight { 1 ≤ weight }
    requires none { HasNoFresh token.old.view }
    requires limit { made pops token.old.view.number token.old.view.front < most_pops }
    ensures table { IsOf table.now token.new }
    ensures added { IfSome result (λ l. IsAdding l from to key weight token.old.view token.new.view) }
{
    let Started::At(position) = start(table, token, from, key) else {
        return None;
    };
    let EdgeFound::Gone(position) = walk(table, token, position) else {
        return None;
    };
    let Taken::Node(fresh) = take(table, token) else {
        return None;
    };
    let next = position.word();
    fill_edge(table, token, &fresh, key, next, to, weight);
    Some(link(table, token, position, fresh))
}

/// Replaces the edge of this key by one of this weight, if a walk comes to it, its weight is another one, and a node is
/// taken.
pub fn change(
    table: &GraphTable,
    token: &mut Token,
    from: Life,
    key: u32,
    weight: u32,
) -> Option<EdgeReplaced>
    requires table { IsOf table.now token.old }
    requires number { token.old.view.numbered ≡ true }
    requires from { MetVertex token.old.view from }
    requires weight { 1 ≤ weight }
    requires none { HasNoFresh token.old.view }
    requires limit { made pops token.old.view.number token.old.view.front < most_pops }
    requires raises { made raises token.old.view.number token.old.view.front < most_raises }
    ensures table { IsOf table.now token.new }
    ensures changed { IfSome result (λ r. IsChanging r from key weight token.old.view token.new.view) }
{
    let Started::At(position) = start(table, token, from, key) else {
        return None;
    };
    let EdgeFound::Here(sighting) = walk(table, token, position) else {
        return None;
    };
    let edge = sighting.edge;
    if edge.weight == weight {
        return None;
    }
    let Taken::Node(fresh) = take(table, token) else {
        return None;
    };
    let raised = raise(table, token, from, &edge);
    Some(replace(table, token, &raised, fresh, weight))
}
