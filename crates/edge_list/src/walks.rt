//! Walks of a source's list: to a key, and edge by edge through all.
//!
//! Two neighbours may have one key, but only if the first is marked and was replaced by the second. A walk takes no
//! marked edge, so keys rise along the words that it goes by.

ghost use Rattle.std.specs.Prelude.{◌≡◌, [], true, false};
ghost use Rattle.core_kept.specs.Facts.{IsLinkOf};
ghost use Rattle.core_rule.specs.Fronts.{MetEdge, MetVertex, key_in};
ghost use Rattle.core_stretches.specs.Makes.{Makes};
ghost use Rattle.graph_table.specs.Tokens.{IsOf};
ghost use Rattle.edge_list.specs.EdgePositions.{IsAnyEdgePosition, IsEdgePosition};
ghost use Rattle.edge_list.specs.EdgeWalks.{MatchEdgeFound, MatchEdgeStepped, MatchStarted};

use crate::edge::Edge;
use crate::position::EdgePosition;
use graph_table::{GraphTable, Token};
use packed_link::{Life, Link};
use std::snapshot::Snapshot;

/// Where a walk of a source's list starts: at the position at its second word; or the list is closed, since the source
/// was unlinked.
#[derive(Drop)]
pub enum Started {
    At(EdgePosition),
    Frozen,
}

/// An edge that was found, and the token at a moment at which it was linked and unmarked.
#[derive(Drop)]
pub struct EdgeSighting {
    /// The edge.
    pub edge: Edge,
    /// The token when the edge's link was loaded.
    pub moment: Snapshot<Token>,
}

/// Where a walk ended: at the edge of its key, at a position where the key is missing, or at a position that leads to a
/// marked edge.
#[derive(Drop)]
pub enum EdgeFound {
    Here(EdgeSighting),
    Gone(EdgePosition),
    Dead(EdgePosition),
}

/// Where one step through a list came: to an edge, with the position behind it; to the end; or to a marked edge, with
/// the position before it.
#[derive(Drop)]
pub enum EdgeStepped {
    At(Edge, EdgePosition),
    End,
    Dead(EdgePosition),
}

/// The position for a key at the second word of a vertex that this pass met, in O(1): one load. `Frozen` comes exactly
/// if that word is marked; then the vertex is marked.
pub fn start(table: &GraphTable, token: &mut Token, from: Life, key: u32) -> Started
    requires table { IsOf table.now token.old }
    requires number { token.old.view.numbered ≡ true }
    requires from { MetVertex token.old.view from }
    ensures table { IsOf table.now token.new }
    ensures makes { Makes token.old.view [] token.new.view }
    ensures started { MatchStarted result from key token.new.view }
{
    let layout = table.layout();
    let place = layout.second_at(from.index);
    let word = table.load(token, place);
    if Link(word).marked() {
        return Started::Frozen;
    }
    let moment = Snapshot::of(&*token);
    Started::At(EdgePosition {
        source: from,
        key,
        place,
        word,
        link: 0,
        moment,
    })
}

/// Goes from a position to its key, with two loads for each edge that it comes to, and two more at the edge that it
/// finds. `Here`: when the edge's link was loaded, it was linked with this key and unmarked. `Gone`: when the word of
/// the position that is handed back was loaded, no edge of the source with this key was linked and unmarked. `Dead`:
/// the word of that position was loaded unmarked and leads to an edge whose link, loaded after it, is marked. It ends,
/// since keys rise along the unmarked links.
pub fn walk(table: &GraphTable, token: &mut Token, position: EdgePosition) -> EdgeFound
    requires table { IsOf table.now token.old }
    requires number { token.old.view.numbered ≡ true }
    requires position { IsEdgePosition false token.old.view position }
    ensures table { IsOf table.now token.new }
    ensures makes { Makes token.old.view [] token.new.view }
    ensures found { MatchEdgeFound result position token.new.view }
{
    let layout = table.layout();
    let mut position = position;
    loop {
        let next = position.word().index();
        if next == 16_777_215 {
            return EdgeFound::Gone(position);
        }
        let found = table.load(token, layout.key_at(next));
        let link = table.load(token, layout.link_at(next));
        if Link(link).marked() {
            let position = EdgePosition { link, ..position };
            return EdgeFound::Dead(position);
        }
        let key = position.key;
        if found > u64::from(key) {
            return EdgeFound::Gone(position);
        }
        let moment = Snapshot::of(&*token);
        if found == u64::from(key) {
            let life = Life {
                index: next,
                tag: Link(link).tag(),
            };
            let edge = edge_at(table, token, position.source, life, key);
            return EdgeFound::Here(EdgeSighting { edge, moment });
        }
        let place = layout.link_at(next);
        position = EdgePosition {
            place,
            word: link,
            moment,
            ..position
        };
    }
}

/// Goes on by one edge, in O(1): four loads. `At`: when the link of the edge to which the position's word leads was
/// loaded, the edge was linked and unmarked; the position that is handed back stands behind it and has its key. From a
/// position that a step handed back, the key is greater. `End` comes exactly if the word leads to no edge. `Dead`:
/// the link of the edge is marked, and the position is handed back, which stands where it did and keeps that link.
pub fn step(table: &GraphTable, token: &mut Token, position: EdgePosition) -> EdgeStepped
    requires table { IsOf table.now token.old }
    requires number { token.old.view.numbered ≡ true }
    requires position { IsAnyEdgePosition token.old.view position }
    ensures table { IsOf table.now token.new }
    ensures makes { Makes token.old.view [] token.new.view }
    ensures stepped { MatchEdgeStepped result position token.old.view token.new.view }
{
    let layout = table.layout();
    let next = position.word().index();
    if next == 16_777_215 {
        return EdgeStepped::End;
    }
    let key = table.load(token, layout.key_at(next)) as u32;
    let link = Link(table.load(token, layout.link_at(next)));
    if link.marked() {
        let position = EdgePosition {
            link: link.0,
            ..position
        };
        return EdgeStepped::Dead(position);
    }
    let life = Life {
        index: next,
        tag: link.tag(),
    };
    let moment = Snapshot::of(&*token);
    let source = position.source;
    let edge = edge_at(table, token, source, life, key);
    EdgeStepped::At(
        edge,
        EdgePosition {
            source,
            key,
            place: layout.link_at(next),
            word: link.0,
            link: 0,
            moment,
        },
    )
}

/// An edge of a source that this pass met, in O(1): two loads, of its target and of its weight.
fn edge_at(table: &GraphTable, token: &mut Token, source: Life, life: Life, key: u32) -> Edge
    requires table { IsOf table.now token.old }
    requires number { token.old.view.numbered ≡ true }
    requires edge { MetEdge token.old.view source life }
    requires key { key_in token.old.view life.index ≡ key }
    ensures table { IsOf table.now token.new }
    ensures makes { Makes token.old.view [] token.new.view }
    ensures life { result.life ≡ life }
    ensures key { result.key ≡ key }
    ensures linked { IsLinkOf token.old.view.front result.life source result.target result.key result.weight }
{
    let _ = source;
    let layout = table.layout();
    let target = Link(table.load(token, layout.second_at(life.index)));
    let weight = table.load(token, layout.third_at(life.index)) as u32;
    Edge {
        life,
        key,
        target: Life {
            index: target.index(),
            tag: target.tag(),
        },
        weight,
    }
}
