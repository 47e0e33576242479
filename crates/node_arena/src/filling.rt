//! A fresh node is filled as a vertex or as an edge.

ghost use Rattle.std.specs.Prelude.{◌≡◌, ◌<◌, ◌≤◌, ◌^◌, true};
ghost use Rattle.packed_link.specs.Link.{index_of};
ghost use Rattle.core_stretches.specs.Holdings.{IsFilledAsEdge, IsFilledAsVertex, IsHeldFresh};
ghost use Rattle.core_stretches.specs.Makes.{Makes};
ghost use Rattle.graph_table.specs.Tokens.{IsOf};
ghost use Rattle.node_arena.specs.Filling.{edge_stores, vertex_stores};

use graph_table::{Field, Fresh, GraphTable, Token};
use packed_link::{Life, Link};

/// Fills a fresh node as a vertex of this key, with where `next` leads as the next vertex, in O(1): four stores. It has
/// no edge, and its counter is 0.
pub fn fill_vertex(table: &GraphTable, token: &mut Token, fresh: &Fresh, key: u32, next: Link)
    requires table { IsOf table.now token.old }
    requires number { token.old.view.numbered ≡ true }
    requires fresh { IsHeldFresh token.old.view fresh.now }
    ensures table { IsOf table.now token.new }
    ensures makes { Makes token.old.view (vertex_stores token.old.view fresh.now key (index_of next.0)) token.new.view }
    ensures filled { IsFilledAsVertex token.new.view key (index_of next.0) fresh.now }
{
    let life = fresh.life();
    let link = Link::pack(next.index(), false, life.tag).0;
    let none = Link::pack(16_777_215, false, life.tag).0;
    table.store_private(token, fresh, Field::Key, u64::from(key));
    table.store_private(token, fresh, Field::Link, link);
    table.store_private(token, fresh, Field::Second, none);
    table.store_private(token, fresh, Field::Third, 0);
}

/// Fills a fresh node as an edge to a target of this key, with this weight and with where `next` leads as the next
/// edge, in O(1): four stores. The weight is at least 1, and the target is a life of a node of the table.
pub fn fill_edge(
    table: &GraphTable,
    token: &mut Token,
    fresh: &Fresh,
    key: u32,
    next: Link,
    target: Life,
    weight: u32,
)
    requires table { IsOf table.now token.old }
    requires number { token.old.view.numbered ≡ true }
    requires fresh { IsHeldFresh token.old.view fresh.now }
    requires target { target.index < table.now.sizes.nodes }
    requires tag { target.tag < 2 ^ 39 }
    requires weight { 1 ≤ weight }
    ensures table { IsOf table.now token.new }
    ensures makes { Makes token.old.view
        (edge_stores token.old.view fresh.now key (index_of next.0) target weight) token.new.view }
    ensures filled { IsFilledAsEdge token.new.view key (index_of next.0) target weight fresh.now }
{
    let life = fresh.life();
    let link = Link::pack(next.index(), false, life.tag).0;
    let second = Link::pack(target.index, false, target.tag).0;
    table.store_private(token, fresh, Field::Key, u64::from(key));
    table.store_private(token, fresh, Field::Link, link);
    table.store_private(token, fresh, Field::Second, second);
    table.store_private(token, fresh, Field::Third, u64::from(weight));
}
