//! Walks of a bucket's list: to a key, and vertex by vertex through all.

ghost use Rattle.std.specs.Prelude.{◌≡◌, ◌%◌, [], true, false};
ghost use Rattle.packed_link.specs.Layout.{bucket_at};
ghost use Rattle.core_rule.specs.Stretches.{HasPass};
ghost use Rattle.core_stretches.specs.Makes.{Makes};
ghost use Rattle.graph_table.specs.Tokens.{IsOf};
ghost use Rattle.vertex_list.specs.Positions.{IsAnyPosition, IsPosition};
ghost use Rattle.vertex_list.specs.Walks.{MatchFound, MatchStepped};

use crate::position::Position;
use graph_table::{GraphTable, Token};
use packed_link::{Life, Link};
use std::snapshot::Snapshot;

/// A vertex that was found, and the token at a moment at which it was linked and unmarked.
#[derive(Drop)]
pub struct Sighting {
    pub life: Life,
    pub moment: Snapshot<Token>,
}

/// Where a walk ended: at the vertex of its key, at a position where the key is missing, or at a position that leads to
/// a marked vertex.
#[derive(Drop)]
pub enum Found {
    Here(Sighting),
    Gone(Position),
    Dead(Position),
}

/// Where one step through a list came: to a vertex, with the position behind it; to the end; or to a marked vertex,
/// with the position before it.
#[derive(Drop)]
pub enum Stepped {
    At(Life, Position),
    End,
    Dead(Position),
}

/// The position at the word of the key's bucket, in O(1): one load. The pass is open.
pub fn start(table: &GraphTable, token: &mut Token, key: u32) -> Position
    requires table { IsOf table.now token.old }
    requires number { token.old.view.numbered ≡ true }
    requires pass { HasPass token.old.view }
    ensures table { IsOf table.now token.new }
    ensures makes { Makes token.old.view [] token.new.view }
    ensures key { result.key ≡ key }
    ensures place { result.place ≡ bucket_at table.now.sizes (key % table.now.sizes.buckets) }
    ensures moment { result.moment ≡ token.new.view.front }
    ensures position { IsPosition false token.new.view result }
{
    let layout = table.layout();
    let place = layout.bucket_at(key % layout.buckets());
    let word = table.load(token, place);
    let moment = Snapshot::of(&*token);
    Position {
        key,
        place,
        word,
        link: 0,
        moment,
    }
}

/// Goes from a position to its key, with two loads for each vertex that it comes to. `Here`: when the vertex's link was
/// loaded, it was linked with this key and unmarked. `Gone`: when the word of the position that is handed back was
/// loaded, no vertex of this key was linked and unmarked. `Dead`: the word of that position was loaded unmarked and
/// leads to a vertex whose link, loaded after it, is marked. It ends, since keys rise along the list.
pub fn walk(table: &GraphTable, token: &mut Token, position: Position) -> Found
    requires table { IsOf table.now token.old }
    requires number { token.old.view.numbered ≡ true }
    requires position { IsPosition false token.old.view position }
    ensures table { IsOf table.now token.new }
    ensures makes { Makes token.old.view [] token.new.view }
    ensures found { MatchFound result position token.new.view }
{
    let layout = table.layout();
    let Position {
        key,
        mut place,
        mut word,
        link: _,
        mut moment,
    } = position;
    loop {
        let next = Link(word).index();
        if next == 16_777_215 {
            return Found::Gone(Position {
                key,
                place,
                word,
                link: 0,
                moment,
            });
        }
        let found = table.load(token, layout.key_at(next));
        let link = table.load(token, layout.link_at(next));
        if Link(link).marked() {
            return Found::Dead(Position {
                key,
                place,
                word,
                link,
                moment,
            });
        }
        if found > u64::from(key) {
            return Found::Gone(Position {
                key,
                place,
                word,
                link: 0,
                moment,
            });
        }
        let here = Snapshot::of(&*token);
        if found == u64::from(key) {
            return Found::Here(Sighting {
                life: Life {
                    index: next,
                    tag: Link(link).tag(),
                },
                moment: here,
            });
        }
        place = layout.link_at(next);
        word = link;
        moment = here;
    }
}

/// Goes on by one vertex, in O(1): two loads. `At`: when the link of the vertex to which the position's word leads was
/// loaded, the vertex was linked and unmarked; the position that is handed back stands behind it and has its key. From
/// a position that a step handed back, the key is greater. `End` comes exactly where the word leads to no vertex.
/// `Dead`: the link of the vertex is marked, and the position is handed back, which stands where it did and keeps that
/// link.
pub fn step(table: &GraphTable, token: &mut Token, position: Position) -> Stepped
    requires table { IsOf table.now token.old }
    requires number { token.old.view.numbered ≡ true }
    requires position { IsAnyPosition token.old.view position }
    ensures table { IsOf table.now token.new }
    ensures makes { Makes token.old.view [] token.new.view }
    ensures stepped { MatchStepped result position token.old.view token.new.view }
{
    let layout = table.layout();
    let next = position.word().index();
    if next == 16_777_215 {
        return Stepped::End;
    }
    let key = table.load(token, layout.key_at(next)) as u32;
    let link = Link(table.load(token, layout.link_at(next)));
    if link.marked() {
        let position = Position {
            link: link.0,
            ..position
        };
        return Stepped::Dead(position);
    }
    let life = Life {
        index: next,
        tag: link.tag(),
    };
    let moment = Snapshot::of(&*token);
    Stepped::At(
        life,
        Position {
            key,
            place: layout.link_at(next),
            word: link.0,
            link: 0,
            moment,
        },
    )
}
