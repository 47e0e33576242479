//! Every kind of step on one thread, with two tokens: each once won, and each that can lose once lost.
//!
//! The table has two callers, eight nodes and one bucket, whose word stands at place 6. The four words of node i stand
//! from place 7 + 4i on. A link has its index in bits 0 to 23, its mark in bit 24 and its tag from bit 25 on.

ghost use Rattle.std.specs.Prelude.{◌≡◌, ◌<◌, ◌≤◌, ◌+◌, true};
ghost use Rattle.graph_table.specs.Tokens.{IsOf};
ghost use Rattle.table_calls.specs.Edges.{IsDone};
ghost use Rattle.table_calls.specs.Resting.{IsHolding, IsResting, uses_of};

use crate::{
    check_callers, close_list, close_pass, cut_in, enter, freeze_first, link_edge_in, link_in,
    mark_first, mark_in, move_on, open_pass, prepare_behind, prepare_edge, prepare_first,
    prepare_replace, raise_first, replace_in, retire, see_cut, see_dead_first, see_free, split_off,
    store_ripe, take, unlink_in,
};
use graph_table::{Fresh, GraphTable, LinkTried, PushTried, Spent, Token, Tried, UnlinkTried};
use packed_link::Layout;
use std::process::Abort;

/// No node.
const NONE: u64 = 16_777_215;
/// The mark.
const MARK: u64 = 1 << 24;
/// The first tag.
const FIRST: u64 = 1 << 25;

/// A node is taken.
fn taken(rt: &impl Abort, table: &GraphTable, token: &mut Token) -> Fresh
    requires table { IsOf table.now token.old }
    requires resting { IsResting true token.old.view }
    requires few { uses_of token.old.view < 1000 }
    ensures table { IsOf table.now token.new }
    ensures holding { IsHolding token.new.view result }
    ensures uses { uses_of token.new.view ≤ uses_of token.old.view + 1 }
{
    let (seen, next) = see_free(table, token).expect(rt, "free");
    take(table, token, seen, next).expect(rt, "taken")
}

/// Vertex 5 is linked once, and vertex 7 behind it.
fn vertices_are_linked(rt: &impl Abort, table: &GraphTable, one: &mut Token, two: &mut Token)
    requires first { IsOf table.now one.old }
    requires second { IsOf table.now two.old }
    requires bucket { table.now.sizes.buckets ≡ 1 }
    requires one_rests { IsResting true one.old.view }
    requires two_rests { IsResting true two.old.view }
    requires one_few { uses_of one.old.view < 100 }
    requires two_few { uses_of two.old.view < 100 }
    ensures first { IsOf table.now one.new }
    ensures second { IsOf table.now two.new }
    ensures one_rests { IsResting true one.new.view }
    ensures two_rests { IsResting true two.new.view }
    ensures one_few { uses_of one.new.view ≤ uses_of one.old.view + 5 }
    ensures two_few { uses_of two.new.view ≤ uses_of two.old.view + 5 }
{
    let (seen, next) = see_free(table, one).expect(rt, "free");
    let (seen_too, next_too) = see_free(table, two).expect(rt, "free");
    let five = take(table, one, seen, next).expect(rt, "taken");
    let None = take(table, two, seen_too, next_too) else {
        panic!(rt; "taken twice")
    };
    assert_eq!(rt; [five.life().index as u64, five.life().tag], [0, 1]);
    let seven = taken(rt, table, two);
    let gap = prepare_first(table, one, &five, 5).expect(rt, "empty");
    let gap_too = prepare_first(table, two, &seven, 7).expect(rt, "empty");
    let LinkTried::Won(_) = link_in(table, one, gap, five) else {
        panic!(rt; "lost")
    };
    let LinkTried::Lost(seven, found) = link_in(table, two, gap_too, seven) else {
        panic!(rt; "won")
    };
    assert_eq!(rt; found, 0);
    let gap = prepare_behind(table, two, &seven, 7).expect(rt, "behind");
    assert_eq!(rt; [gap.place as u64, gap.seen.0], [8, NONE + FIRST]);
    let LinkTried::Won(_) = link_in(table, two, gap, seven) else {
        panic!(rt; "lost")
    };
}

/// Vertex 5 gets an edge, and is marked and unlinked.
fn a_vertex_is_unlinked(rt: &impl Abort, table: &GraphTable, one: &mut Token, two: &mut Token)
    requires first { IsOf table.now one.old }
    requires second { IsOf table.now two.old }
    requires bucket { table.now.sizes.buckets ≡ 1 }
    requires one_rests { IsResting true one.old.view }
    requires two_rests { IsResting true two.old.view }
    requires one_few { uses_of one.old.view < 100 }
    requires two_few { uses_of two.old.view < 100 }
    ensures first { IsOf table.now one.new }
    ensures second { IsOf table.now two.new }
    ensures one_rests { IsResting true one.new.view }
    ensures two_rests { IsResting true two.new.view }
    ensures one_few { uses_of one.new.view ≤ uses_of one.old.view + 5 }
    ensures two_few { uses_of two.new.view ≤ uses_of two.old.view + 5 }
{
    let edge = taken(rt, table, one);
    let gap = prepare_edge(table, one, &edge, 0, 2).expect(rt, "no edge");
    assert_eq!(rt; [gap.place as u64, gap.seen.0], [9, NONE + FIRST]);
    let LinkTried::Won(_) = link_edge_in(table, one, gap, edge) else {
        panic!(rt; "lost")
    };
    let found = mark_first(table, one, 0).expect(rt, "vertex");
    let found_too = mark_first(table, two, 0).expect(rt, "vertex");
    assert_eq!(rt; [found, found_too], [1 + FIRST, 1 + FIRST + MARK]);
    let dead = see_dead_first(table, one, 0).expect(rt, "dead");
    let dead_too = see_dead_first(table, two, 0).expect(rt, "dead");
    let UnlinkTried::Won(five) = unlink_in(table, one, dead) else {
        panic!(rt; "lost")
    };
    let UnlinkTried::Lost(found) = unlink_in(table, two, dead_too) else {
        panic!(rt; "won")
    };
    assert_eq!(rt; found, 1);
    let found = close_list(table, one, &five);
    let found_too = close_list(table, one, &five);
    assert_eq!(rt; [found, found_too], [2 + FIRST, 2 + FIRST + MARK]);
    let life = five.life();
    let (found, _) = freeze_first(table, one, life).expect(rt, "edge");
    let (found_too, _) = freeze_first(table, one, life).expect(rt, "edge");
    assert_eq!(rt; [found, found_too], [NONE + FIRST, NONE + FIRST + MARK]);
}

/// Vertex 7 gets an edge, which is replaced twice.
fn edges_are_replaced(rt: &impl Abort, table: &GraphTable, one: &mut Token, two: &mut Token)
    requires first { IsOf table.now one.old }
    requires second { IsOf table.now two.old }
    requires bucket { table.now.sizes.buckets ≡ 1 }
    requires one_rests { IsResting true one.old.view }
    requires two_rests { IsResting true two.old.view }
    requires one_few { uses_of one.old.view < 100 }
    requires two_few { uses_of two.old.view < 100 }
    ensures first { IsOf table.now one.new }
    ensures second { IsOf table.now two.new }
    ensures one_rests { IsResting true one.new.view }
    ensures two_rests { IsResting true two.new.view }
    ensures one_few { uses_of one.new.view ≤ uses_of one.old.view + 5 }
    ensures two_few { uses_of two.new.view ≤ uses_of two.old.view + 5 }
{
    let edge = taken(rt, table, one);
    let other = taken(rt, table, two);
    let gap = prepare_edge(table, one, &edge, 0, 3).expect(rt, "no edge");
    let gap_too = prepare_edge(table, two, &other, 0, 4).expect(rt, "no edge");
    let LinkTried::Won(_) = link_edge_in(table, one, gap, edge) else {
        panic!(rt; "lost")
    };
    let LinkTried::Lost(other, found) = link_edge_in(table, two, gap_too, other) else {
        panic!(rt; "won")
    };
    assert_eq!(rt; found, 3 + FIRST);
    let edge = taken(rt, table, one);
    let old = prepare_replace(table, one, &edge, 0, 6).expect(rt, "edge");
    let old_too = prepare_replace(table, two, &other, 0, 9).expect(rt, "edge");
    let LinkTried::Won(_) = replace_in(table, one, old, edge) else {
        panic!(rt; "lost")
    };
    let LinkTried::Lost(other, found) = replace_in(table, two, old_too, other) else {
        panic!(rt; "won")
    };
    assert_eq!(rt; found, 5 + FIRST + MARK);
    let dead = see_cut(table, one, 0).expect(rt, "dead");
    let UnlinkTried::Won(_) = cut_in(table, one, dead) else {
        panic!(rt; "lost")
    };
    let old = prepare_replace(table, two, &other, 0, 9).expect(rt, "edge");
    let LinkTried::Won(_) = replace_in(table, two, old, other) else {
        panic!(rt; "lost")
    };
}

/// The first edge of vertex 7 is unlinked once, and the next one is marked.
fn edges_are_unlinked(rt: &impl Abort, table: &GraphTable, one: &mut Token, two: &mut Token)
    requires first { IsOf table.now one.old }
    requires second { IsOf table.now two.old }
    requires bucket { table.now.sizes.buckets ≡ 1 }
    requires one_rests { IsResting true one.old.view }
    requires two_rests { IsResting true two.old.view }
    requires one_few { uses_of one.old.view < 100 }
    requires two_few { uses_of two.old.view < 100 }
    ensures first { IsOf table.now one.new }
    ensures second { IsOf table.now two.new }
    ensures one_rests { IsResting true one.new.view }
    ensures two_rests { IsResting true two.new.view }
    ensures one_few { uses_of one.new.view ≤ uses_of one.old.view + 5 }
    ensures two_few { uses_of two.new.view ≤ uses_of two.old.view + 5 }
{
    let dead = see_cut(table, one, 0).expect(rt, "dead");
    let dead_too = see_cut(table, two, 0).expect(rt, "dead");
    let UnlinkTried::Won(_) = cut_in(table, one, dead) else {
        panic!(rt; "lost")
    };
    let UnlinkTried::Lost(found) = cut_in(table, two, dead_too) else {
        panic!(rt; "won")
    };
    assert_eq!(rt; found, 4 + FIRST);
    let edge = raise_first(table, one, 0).expect(rt, "edge");
    let edge_too = raise_first(table, two, 0).expect(rt, "edge");
    let found = mark_in(table, one, edge);
    let found_too = mark_in(table, two, edge_too);
    assert_eq!(rt; [found, found_too], [NONE + FIRST, NONE + FIRST + MARK]);
}

/// The token links an edge and marks it.
fn an_edge_is_marked(rt: &impl Abort, table: &GraphTable, token: &mut Token)
    requires table { IsOf table.now token.old }
    requires bucket { table.now.sizes.buckets ≡ 1 }
    requires resting { IsResting true token.old.view }
    requires few { uses_of token.old.view < 100 }
    ensures table { IsOf table.now token.new }
    ensures resting { IsResting true token.new.view }
    ensures uses { uses_of token.new.view ≤ uses_of token.old.view + 5 }
{
    let edge = taken(rt, table, token);
    let gap = prepare_edge(table, token, &edge, 0, 1).expect(rt, "no edge");
    let LinkTried::Won(_) = link_edge_in(table, token, gap, edge) else {
        panic!(rt; "lost")
    };
    let edge = raise_first(table, token, 0).expect(rt, "edge");
    let found = mark_in(table, token, edge);
    assert_eq!(rt; found, NONE + FIRST);
}

/// The marked first edge of vertex 7 is unlinked by the token.
fn cut(rt: &impl Abort, table: &GraphTable, token: &mut Token) -> Spent
    requires table { IsOf table.now token.old }
    requires bucket { table.now.sizes.buckets ≡ 1 }
    requires resting { IsResting true token.old.view }
    ensures table { IsOf table.now token.new }
    ensures resting { IsResting true token.new.view }
    ensures done { IsDone token.new.view result }
    ensures uses { uses_of token.new.view ≡ uses_of token.old.view }
{
    let dead = see_cut(table, token, 0).expect(rt, "dead");
    let UnlinkTried::Won(spent) = cut_in(table, token, dead) else {
        panic!(rt; "lost")
    };
    spent
}

/// The epoch is moved on twice, and two nodes are stored for the free list, of which one is given back.
fn nodes_are_given_back(
    rt: &impl Abort,
    table: &GraphTable,
    one: &mut Token,
    two: &mut Token,
    spent: Spent,
    spent_too: Spent,
)
    requires first { IsOf table.now one.old }
    requires second { IsOf table.now two.old }
    requires one_rests { IsResting true one.old.view }
    requires two_rests { IsResting true two.old.view }
    requires one_few { uses_of one.old.view < 100 }
    requires two_few { uses_of two.old.view < 100 }
    requires done { IsDone one.old.view spent }
    requires done_too { IsDone two.old.view spent_too }
    ensures first { IsOf table.now one.new }
    ensures second { IsOf table.now two.new }
{
    let ripe = retire(table, one, spent);
    let ripe_too = retire(table, two, spent_too);
    close_pass(table, one);
    close_pass(table, two);
    let epoch = check_callers(table, one).expect(rt, "clear");
    let epoch_too = check_callers(table, two).expect(rt, "clear");
    let Tried::Won = move_on(table, one, epoch) else {
        panic!(rt; "lost")
    };
    let Tried::Lost(found) = move_on(table, two, epoch_too) else {
        panic!(rt; "won")
    };
    assert_eq!(rt; [epoch, epoch_too, found], [0, 0, 1]);
    let epoch = check_callers(table, one).expect(rt, "clear");
    let Tried::Won = move_on(table, one, epoch) else {
        panic!(rt; "lost")
    };
    let seen = store_ripe(table, one, &ripe).expect(rt, "ripe");
    let seen_too = store_ripe(table, two, &ripe_too).expect(rt, "ripe");
    assert_eq!(rt; [seen.0, seen_too.0], [7 + (7 << 25), 7 + (7 << 25)]);
    let PushTried::Won = table.push_free(one, seen, ripe) else {
        panic!(rt; "lost")
    };
    let PushTried::Lost(_, found) = table.push_free(two, seen_too, ripe_too) else {
        panic!(rt; "won")
    };
    assert_eq!(rt; found, 6 + (8 << 25));
}

#[test]
fn every_kind_is_won_and_each_that_can_lose_is_lost(rt: HostRuntime) {
    let (table, mut one) = GraphTable::new(rt.alloc(), Layout::new(2, 8, 1)).expect(&rt, "memory");
    assert_eq!(rt; enter(&table, &mut one), 0);
    let mut two = split_off(&table, &mut one);
    assert_eq!(rt; enter(&table, &mut two), 1);
    open_pass(&table, &mut one);
    open_pass(&table, &mut two);
    vertices_are_linked(&rt, &table, &mut one, &mut two);
    a_vertex_is_unlinked(&rt, &table, &mut one, &mut two);
    edges_are_replaced(&rt, &table, &mut one, &mut two);
    edges_are_unlinked(&rt, &table, &mut one, &mut two);
    let spent_too = cut(&rt, &table, &mut two);
    an_edge_is_marked(&rt, &table, &mut one);
    let spent = cut(&rt, &table, &mut one);
    nodes_are_given_back(&rt, &table, &mut one, &mut two, spent, spent_too);
    // The epoch and the free list; the bucket leads to vertex 7, whose list is empty and whose counter was raised.
    assert_eq!(rt;
        [table.load(&mut one, 2), table.load(&mut one, 3)],
        [2, 6 + (8 << 25)]
    );
    assert_eq!(rt; [table.load(&mut one, 6), table.load(&mut one, 11)], [1, 7]);
    assert_eq!(rt;
        [table.load(&mut one, 13), table.load(&mut one, 14)],
        [NONE + FIRST, 6]
    );
}
