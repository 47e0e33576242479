//! Edges are replaced and unlinked: the first one of the first vertex of a bucket.

ghost use Rattle.std.specs.Prelude.{◌≡◌, ◌<◌, ◌≤◌, ◌+◌, ◌⊎◌, true, IfSome, IsNone};
ghost use Rattle.packed_link.specs.Layout.{link_at, second_at};
ghost use Rattle.packed_link.specs.declared.link.Life.{Life};
ghost use Rattle.core_kept.specs.Counts.{most_raises};
ghost use Rattle.core_rule.specs.Fronts.{MayUnlinkEdge};
ghost use Rattle.core_rule.specs.OwnEvents.{unlink_edge_event};
ghost use Rattle.graph_table.specs.Filled.{MayReplaceByFilled, replaced_event};
ghost use Rattle.graph_table.specs.Tokens.{IsOf};
ghost use Rattle.graph_table.specs.Table.{MatchLink, MatchUnlink};
ghost use Rattle.table_calls.specs.Edges.{IsNoEdge, IsSameWeight, MatchCut};
ghost use Rattle.table_calls.specs.Resting.{IsHolding, IsResting, uses_of};
ghost use Rattle.table_calls.specs.Vertices.{IsEmptyBucket, IsFound, IsNoneDead, MatchHeld};

use crate::edges::{Edge, fill_edge, raise_for};
use crate::vertices::{Dead, find_first};
use graph_table::{Fresh, GraphTable, LinkTried, Token, UnlinkTried};
use packed_link::{Life, Link};

/// Raises the counter for the first edge of the first vertex of a bucket, and fills a node as that edge with another
/// weight. `None` comes where there's no such edge that is unmarked, or it has this weight.
pub fn prepare_replace(
    table: &GraphTable,
    token: &mut Token,
    fresh: &Fresh,
    bucket: u32,
    weight: u32,
) -> Option<Edge>
    requires table { IsOf table.now token.old }
    requires holding { IsHolding token.old.view fresh.now }
    requires bucket { bucket < table.now.sizes.buckets }
    requires some { 1 ≤ weight }
    requires few { uses_of token.old.view < most_raises }
    ensures table { IsOf table.now token.new }
    ensures holding { IsHolding token.new.view fresh.now }
    ensures may { IfSome result (λ edge. MayReplaceByFilled token.new.view edge.seen.0 edge.life fresh.now) }
    ensures none { IsNone result → IsNoEdge token.new.view bucket ⊎ IsSameWeight token.new.view weight }
    ensures uses { uses_of token.new.view ≤ uses_of token.old.view + 1 }
{
    let layout = table.layout();
    let Some(edge) = raise_for(table, token, bucket) else {
        return None;
    };
    let old = edge.life.index;
    let key = table.load(token, layout.key_at(old));
    let head = Link(table.load(token, layout.second_at(old)));
    let amount = table.load(token, layout.third_at(old));
    if amount == u64::from(weight) {
        return None;
    }
    let index = head.index();
    let tag = head.tag();
    let seen = edge.seen;
    let next = seen.index();
    fill_edge(table, token, fresh, key, next, Life { index, tag }, weight);
    Some(edge)
}

/// Replaces an edge by the one that was filled for it. `Lost` comes where its link is another word, with the node.
pub fn replace_in(table: &GraphTable, token: &mut Token, edge: Edge, fresh: Fresh) -> LinkTried
    requires table { IsOf table.now token.old }
    requires holding { IsHolding token.old.view fresh }
    requires may { MayReplaceByFilled token.old.view edge.seen.0 edge.life fresh }
    ensures table { IsOf table.now token.new }
    ensures tried { MatchLink result token.old.view (link_at table.now.sizes edge.life.index) edge.seen.0 fresh
        (replaced_event token.old.view edge.seen.0 edge.life fresh) token.new.view }
    ensures held { MatchHeld result token.new.view }
    ensures uses { uses_of token.new.view ≡ uses_of token.old.view }
{
    table.replace_edge(token, edge.seen, edge.life, fresh)
}

/// Loads the second word of the first vertex of a bucket, and the link of the edge to which it leads: that one, where
/// it's marked and the word isn't. `None` comes where it isn't so.
pub fn see_cut(table: &GraphTable, token: &mut Token, bucket: u32) -> Option<Dead>
    requires table { IsOf table.now token.old }
    requires resting { IsResting true token.old.view }
    requires bucket { bucket < table.now.sizes.buckets }
    ensures table { IsOf table.now token.new }
    ensures resting { IsResting true token.new.view }
    ensures may { IfSome result (λ dead. (source : Life)
        × MayUnlinkEdge token.new.view dead.place dead.seen.0 dead.next source dead.life) }
    ensures none { IsNone result → IsEmptyBucket token.new.view bucket ⊎ ((x : Life) × IsFound token.new.view bucket x
        × IsNoneDead token.old.view (second_at token.new.view.sizes x.index) token.new.view) }
    ensures uses { uses_of token.new.view ≡ uses_of token.old.view }
{
    let layout = table.layout();
    let Some(source) = find_first(table, token, bucket) else {
        return None;
    };
    let place = layout.second_at(source.index);
    let seen = Link(table.load(token, place));
    let index = seen.index();
    if index == 16_777_215 {
        return None;
    }
    if seen.marked() {
        return None;
    }
    let link = Link(table.load(token, layout.link_at(index)));
    if !link.marked() {
        return None;
    }
    let tag = link.tag();
    let life = Life { index, tag };
    let next = link.index();
    Some(Dead {
        place,
        seen,
        life,
        next,
    })
}

/// Unlinks an edge that was seen dead. `Lost` comes where another word is there.
pub fn cut_in(table: &GraphTable, token: &mut Token, dead: Dead) -> UnlinkTried
    requires table { IsOf table.now token.old }
    requires resting { IsResting true token.old.view }
    requires may { (source : Life)
        × MayUnlinkEdge token.old.view dead.place dead.seen.0 dead.next source dead.life }
    ensures table { IsOf table.now token.new }
    ensures resting { IsResting true token.new.view }
    ensures tried { MatchUnlink result token.old.view dead.place dead.seen.0 dead.life
        (unlink_edge_event token.old.view dead.place dead.seen.0 dead.next dead.life) token.new.view }
    ensures spent { MatchCut result token.new.view }
    ensures uses { uses_of token.new.view ≡ uses_of token.old.view }
{
    table.unlink_edge(token, dead.place, dead.seen, dead.life, dead.next)
}
