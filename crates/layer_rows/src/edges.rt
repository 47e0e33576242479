//! Edges are put in front of the list of a vertex.

ghost use Rattle.std.specs.Prelude.{◌≡◌, ◌≢◌, ◌<◌, ◌≤◌, ◌^◌, [], true, IfSome, IsNone};
ghost use Rattle.packed_link.specs.Link.{index_of, mark_of, nowhere};
ghost use Rattle.core_kept.specs.Counts.{most_pops};
ghost use Rattle.core_rule.specs.Fronts.{IsEdgeAbove, MetVertex, key_in};
ghost use Rattle.core_stretches.specs.Makes.{Makes};
ghost use Rattle.graph_table.specs.Tokens.{IsOf};
ghost use Rattle.layer_rows.specs.Causes.{IsNoEdgeAdded};
ghost use Rattle.layer_rows.specs.Rows.{IsAtWork, IsBuilding, IsEdgeAdded, IsNoFront, IsPrepended, taken_by};

use crate::vertices::look_for;
use graph_table::{Fresh, GraphTable, LinkTried, Token};
use node_arena::{Taken, fill_edge, take};
use packed_link::{Life, Link};
use table_calls::{Gap, link_edge_in};
use vertex_list::Found;

/// Loads the second word of a vertex that was met: that word, where it's unmarked and leads to none or to an edge of a
/// greater key. `None` comes exactly where it's marked, or the key of that edge isn't greater.
pub fn see_front(table: &GraphTable, token: &mut Token, source: Life, key: u64) -> Option<Link>
    requires table { IsOf table.now token.old }
    requires number { token.old.view.numbered ≡ true }
    requires source { MetVertex token.old.view source }
    ensures table { IsOf table.now token.new }
    ensures makes { Makes token.old.view [] token.new.view }
    ensures unmarked { IfSome result (λ seen. mark_of seen.0 ≡ 0) }
    ensures behind { IfSome result (λ seen. index_of seen.0 ≢ nowhere
        → IsEdgeAbove token.new.view source key (index_of seen.0)) }
    ensures none { IsNone result → IsNoFront source key token.old.view token.new.view }
{
    let layout = table.layout();
    let seen = Link(table.load(token, layout.second_at(source.index)));
    if seen.marked() {
        return None;
    }
    let index = seen.index();
    if index == 16_777_215 {
        return Some(seen);
    }
    let found = table.load(token, layout.key_at(index));
    if found <= key {
        return None;
    }
    Some(seen)
}

/// Fills a fresh node as an edge that leads to a target, with the target's key, and links it in front of the source's
/// list. `None` comes exactly where `see_front` answers none for that key.
pub fn prepend_edge(
    table: &GraphTable,
    token: &mut Token,
    fresh: Fresh,
    source: Life,
    target: Life,
    weight: u32,
) -> Option<LinkTried>
    requires table { IsOf table.now token.old }
    requires building { IsBuilding token.old.view fresh }
    requires source { MetVertex token.old.view source }
    requires target { MetVertex token.old.view target }
    requires some { 1 ≤ weight }
    ensures table { IsOf table.now token.new }
    ensures tried { IfSome result (λ r. IsPrepended r source target weight fresh token.old.view token.new.view) }
    ensures none { IsNone result
        → IsNoFront source (key_in token.new.view target.index) token.old.view token.new.view }
{
    let layout = table.layout();
    let key = table.load(token, layout.key_at(target.index));
    let Some(seen) = see_front(table, token, source, key) else {
        return None;
    };
    fill_edge(table, token, &fresh, key as u32, seen, target, weight);
    let place = layout.second_at(source.index);
    Some(link_edge_in(table, token, Gap { place, seen }, fresh))
}

/// Takes a node, walks to the vertices of two keys, and links the node as an edge from one to the other, in front of
/// the list. `None` comes only where no node was taken, a walk came to no vertex of its key, the list is closed or has
/// an edge of that key or a smaller one, or another caller changed its word.
pub fn add_edge(
    table: &GraphTable,
    token: &mut Token,
    from: u32,
    to: u32,
    weight: u32,
) -> Option<Life>
    requires table { IsOf table.now token.old }
    requires work { IsAtWork token.old.view }
    requires few { taken_by token.old.view < most_pops }
    requires some { 1 ≤ weight }
    ensures table { IsOf table.now token.new }
    ensures added { IfSome result (λ life. IsEdgeAdded from to weight token.old.view token.new.view life) }
    ensures none { IsNone result → IsNoEdgeAdded from to weight token.old.view token.new.view }
{
    let Taken::Node(fresh) = take(table, token) else {
        return None;
    };
    let Found::Here(source) = look_for(table, token, from) else {
        return None;
    };
    let Found::Here(target) = look_for(table, token, to) else {
        return None;
    };
    match prepend_edge(table, token, fresh, source.life, target.life, weight) {
        Some(LinkTried::Won(life)) => Some(life),
        Some(LinkTried::Lost(..)) => None,
        None => None,
    }
}
