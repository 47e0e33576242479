//! Edges are filled, linked, marked, replaced and unlinked: those of the first vertex of a bucket.
//!
//! The first edge leads from that vertex to itself, so that its target is met too.

ghost use Rattle.std.specs.Prelude.{◌≡◌, ◌<◌, ◌≤◌, ◌+◌, ◌^◌, true, IfSome, IsNone};
ghost use Rattle.packed_link.specs.Link.{mark_of};
ghost use Rattle.packed_link.specs.Layout.{link_at};
ghost use Rattle.packed_link.specs.declared.link.Life.{Life};
ghost use Rattle.core_kept.specs.Counts.{most_raises};
ghost use Rattle.core_kept.specs.Edges.{IsFilledEdge};
ghost use Rattle.core_rule.specs.Fronts.{MayMarkEdge, MetVertex, MetEdge};
ghost use Rattle.core_rule.specs.OwnEvents.{mark_edge_event};
ghost use Rattle.core_rule.specs.Stretches.{HasPass};
ghost use Rattle.core_rule.specs.Views.{GoesOn};
ghost use Rattle.graph_table.specs.Filled.{MayLinkFilledEdge, filled_edge_event};
ghost use Rattle.graph_table.specs.Tokens.{IsOf};
ghost use Rattle.graph_table.specs.Table.{MatchLink, MatchMark};
ghost use Rattle.table_calls.specs.Edges.{IsEmptyList, IsNoEdge, IsNoRoom, RaisesFor};
ghost use Rattle.table_calls.specs.Loads.{HasLoaded};
ghost use Rattle.table_calls.specs.Resting.{IsHolding, IsResting, uses_of};
ghost use Rattle.table_calls.specs.Vertices.{MatchHeld, word_in};

use crate::vertices::{Gap, find_first, see_end};
use graph_table::{Field, Fresh, GraphTable, LinkTried, Token};
use packed_link::{Life, Link};

/// An edge, its source and its link as it was seen.
#[derive(Debug, Drop, Clone, Copy)]
pub struct Edge {
    /// The source.
    pub source: Life,
    /// The edge.
    pub life: Life,
    /// Its link.
    pub seen: Link,
}

/// Fills a fresh node as an edge of this key, target and weight that leads to `next`.
pub fn fill_edge(
    table: &GraphTable,
    token: &mut Token,
    fresh: &Fresh,
    key: u64,
    next: u32,
    target: Life,
    weight: u32,
)
    requires table { IsOf table.now token.old }
    requires holding { IsHolding token.old.view fresh.now }
    requires key { key < 2 ^ 32 }
    requires next { next < 2 ^ 24 }
    requires index { target.index < 2 ^ 24 }
    requires tag { target.tag < 2 ^ 39 }
    requires some { 1 ≤ weight }
    ensures table { IsOf table.now token.new }
    ensures holding { IsHolding token.new.view fresh.now }
    ensures filled { IsFilledEdge token.new.view.sizes token.new.view.front fresh.now.index key next target weight }
    ensures goes { GoesOn token.old.view token.new.view }
    ensures uses { uses_of token.new.view ≡ uses_of token.old.view }
{
    let life = fresh.life();
    let link = Link::pack(next, false, life.tag).0;
    let to = Link::pack(target.index, false, target.tag).0;
    let amount = u64::from(weight);
    table.store_private(token, fresh, Field::Key, key);
    table.store_private(token, fresh, Field::Link, link);
    table.store_private(token, fresh, Field::Second, to);
    table.store_private(token, fresh, Field::Third, amount);
}

/// Fills a node as the only edge of the first vertex of a bucket, which leads to that vertex. `None` comes where the
/// bucket has no vertex, or that one has an edge.
pub fn prepare_edge(
    table: &GraphTable,
    token: &mut Token,
    fresh: &Fresh,
    bucket: u32,
    weight: u32,
) -> Option<Gap>
    requires table { IsOf table.now token.old }
    requires holding { IsHolding token.old.view fresh.now }
    requires bucket { bucket < table.now.sizes.buckets }
    requires some { 1 ≤ weight }
    ensures table { IsOf table.now token.new }
    ensures holding { IsHolding token.new.view fresh.now }
    ensures may { IfSome result (λ gap. MayLinkFilledEdge token.new.view gap.place gap.seen.0 fresh.now) }
    ensures none { IsNone result → IsNoRoom token.new.view bucket }
    ensures uses { uses_of token.new.view ≡ uses_of token.old.view }
{
    let layout = table.layout();
    let Some(first) = find_first(table, token, bucket) else {
        return None;
    };
    let key = table.load(token, layout.key_at(first.index));
    let place = layout.second_at(first.index);
    let Some(seen) = see_end(table, token, place) else {
        return None;
    };
    fill_edge(table, token, fresh, key, 16_777_215, first, weight);
    Some(Gap { place, seen })
}

/// Links an edge that was filled for a gap. `Lost` comes where another word is there, with the node.
pub fn link_edge_in(table: &GraphTable, token: &mut Token, gap: Gap, fresh: Fresh) -> LinkTried
    requires table { IsOf table.now token.old }
    requires holding { IsHolding token.old.view fresh }
    requires may { MayLinkFilledEdge token.old.view gap.place gap.seen.0 fresh }
    ensures table { IsOf table.now token.new }
    ensures tried { MatchLink result token.old.view gap.place gap.seen.0 fresh
        (filled_edge_event token.old.view gap.place gap.seen.0 fresh) token.new.view }
    ensures held { MatchHeld result token.new.view }
    ensures uses { uses_of token.new.view ≡ uses_of token.old.view }
{
    table.link_edge(token, gap.place, gap.seen, fresh)
}

/// Loads the second word of a vertex that was met, and the link of the edge to which it leads: that edge. `None` comes
/// where it leads to none.
pub fn find_edge(table: &GraphTable, token: &mut Token, source: Life) -> Option<Edge>
    requires table { IsOf table.now token.old }
    requires number { token.old.view.numbered ≡ true }
    requires met { MetVertex token.old.view source }
    ensures table { IsOf table.now token.new }
    ensures loaded { HasLoaded token.old.view token.new.view }
    ensures source { IfSome result (λ edge. edge.source ≡ source) }
    ensures edge { IfSome result (λ edge. MetEdge token.new.view source edge.life) }
    ensures link { IfSome result (λ edge.
        edge.seen.0 ≡ word_in token.new.view (link_at token.new.view.sizes edge.life.index)) }
    ensures none { IsNone result → IsEmptyList token.new.view source }
{
    let layout = table.layout();
    let place = layout.second_at(source.index);
    let head = Link(table.load(token, place));
    let index = head.index();
    if index == 16_777_215 {
        return None;
    }
    let seen = Link(table.load(token, layout.link_at(index)));
    let tag = seen.tag();
    let life = Life { index, tag };
    Some(Edge { source, life, seen })
}

/// Raises the counter of the first vertex of a bucket for its first edge, which isn't marked. `None` comes where there
/// is no such edge. A fresh node that the token holds is held still.
pub fn raise_for(table: &GraphTable, token: &mut Token, bucket: u32) -> Option<Edge>
    requires table { IsOf table.now token.old }
    requires number { token.old.view.numbered ≡ true }
    requires pass { HasPass token.old.view }
    requires bucket { bucket < table.now.sizes.buckets }
    requires few { uses_of token.old.view < most_raises }
    ensures table { IsOf table.now token.new }
    ensures resting { IsResting true token.old.view → IsResting true token.new.view }
    ensures holding { (x : Life) → IsHolding token.old.view x → IsHolding token.new.view x }
    ensures may { IfSome result (λ edge. MayMarkEdge token.new.view edge.source edge.life) }
    ensures live { IfSome result (λ edge. mark_of edge.seen.0 ≡ 0) }
    ensures raises { IfSome result (λ edge.
        RaisesFor token.old.view bucket edge.source edge.life edge.seen.0 token.new.view) }
    ensures none { IsNone result → IsNoEdge token.new.view bucket }
    ensures uses { uses_of token.new.view ≤ uses_of token.old.view + 1 }
{
    let Some(source) = find_first(table, token, bucket) else {
        return None;
    };
    let Some(edge) = find_edge(table, token, source) else {
        return None;
    };
    let seen = edge.seen;
    if seen.marked() {
        return None;
    }
    table.raise(token, source);
    Some(edge)
}

/// Raises the counter of the first vertex of a bucket for its first edge, which isn't marked. `None` comes where there
/// is no such edge.
pub fn raise_first(table: &GraphTable, token: &mut Token, bucket: u32) -> Option<Edge>
    requires table { IsOf table.now token.old }
    requires resting { IsResting true token.old.view }
    requires bucket { bucket < table.now.sizes.buckets }
    requires few { uses_of token.old.view < most_raises }
    ensures table { IsOf table.now token.new }
    ensures resting { IsResting true token.new.view }
    ensures may { IfSome result (λ edge. MayMarkEdge token.new.view edge.source edge.life) }
    ensures raises { IfSome result (λ edge.
        RaisesFor token.old.view bucket edge.source edge.life edge.seen.0 token.new.view) }
    ensures none { IsNone result → IsNoEdge token.new.view bucket }
    ensures uses { uses_of token.new.view ≤ uses_of token.old.view + 1 }
{
    raise_for(table, token, bucket)
}

/// Marks an edge for which the token raised the counter, and answers the link that was found.
pub fn mark_in(table: &GraphTable, token: &mut Token, edge: Edge) -> u64
    requires table { IsOf table.now token.old }
    requires resting { IsResting true token.old.view }
    requires may { MayMarkEdge token.old.view edge.source edge.life }
    ensures table { IsOf table.now token.new }
    ensures resting { IsResting true token.new.view }
    ensures marked { MatchMark token.old.view (link_at table.now.sizes edge.life.index) result
        (mark_edge_event token.old.view edge.life result) token.new.view }
    ensures uses { uses_of token.new.view ≡ uses_of token.old.view }
{
    let life = edge.life;
    table.mark_edge(token, life)
}
