//! A vertex with three edges is removed, and its list is frozen edge by edge; and a vertex that was buried is ripe two
//! epochs on.
//!
//! In the first two tests the table has one caller, 16 nodes and one bucket. Vertices 1, 2 and 3 are nodes 0, 1 and 2;
//! the edges from vertex 1 to vertices 3, 2 and 1 are nodes 3, 4 and 5, each in front of those before it.

ghost use Rattle.std.specs.Prelude.{◌≡◌, true, false};
ghost use Rattle.graph_table.specs.Tokens.{IsOf};
ghost use Rattle.layer_rows.specs.Rows.{IsAtWork, HasUnlinkedOne, taken_by};

use crate::{
    add_edge, add_vertex, begin, begin_pass, bury_alone, end_pass, leave, move_on, remove, renew,
    take_ripe,
};
use edge_list::{freeze_head, freeze_next};
use epoch_limbo::{Advanced, Limbo};
use graph_table::{GraphTable, Spent, Token};
use packed_link::Layout;
use std::process::Abort;
use table_calls::{enter, split_off};

/// Vertex 1 gets its three edges and is removed.
fn removed(rt: &impl Abort, table: &GraphTable, token: &mut Token) -> Spent
    requires table { IsOf table.now token.old }
    requires work { IsAtWork token.old.view }
    requires none { taken_by token.old.view ≡ 0 }
    ensures table { IsOf table.now token.new }
    ensures removed { HasUnlinkedOne token.new.view result }
{
    let one = add_vertex(table, token, 1).expect(rt, "vertex 1");
    let two = add_vertex(table, token, 2).expect(rt, "vertex 2");
    let three = add_vertex(table, token, 3).expect(rt, "vertex 3");
    assert_eq!(rt; [one.index, two.index, three.index], [0, 1, 2]);
    let to_three = add_edge(table, token, 1, 3, 7).expect(rt, "edge to 3");
    let to_two = add_edge(table, token, 1, 2, 8).expect(rt, "edge to 2");
    let to_one = add_edge(table, token, 1, 1, 9).expect(rt, "edge to 1");
    assert_eq!(rt; [to_three.index, to_two.index, to_one.index], [3, 4, 5]);
    let spent = remove(table, token, 1).expect(rt, "removed");
    assert_eq!(rt; spent.life().index, 0);
    spent
}

#[test]
fn the_edges_of_a_removed_vertex_are_handed_over_in_the_order_of_their_keys(rt: HostRuntime) {
    let (table, mut token) = GraphTable::new(rt.alloc(), Layout::new(1, 16, 1)).expect(
        &rt, "memory",
    );
    begin(&table, &mut token);
    let spent = removed(&rt, &table, &mut token);
    let mut frozen = freeze_head(&table, &mut token, &spent);
    let first = freeze_next(&table, &mut token, &mut frozen).expect(&rt, "first");
    let second = freeze_next(&table, &mut token, &mut frozen).expect(&rt, "second");
    let third = freeze_next(&table, &mut token, &mut frozen).expect(&rt, "third");
    assert_eq!(rt;
        [first.life().index, second.life().index, third.life().index],
        [5, 4, 3]
    );
    let None = freeze_next(&table, &mut token, &mut frozen) else {
        panic!(rt; "fourth")
    };
    // The key words of nodes 5, 4 and 3: four words for each node, behind six.
    assert_eq!(rt;
        [
            table.load(&mut token, 26),
            table.load(&mut token, 22),
            table.load(&mut token, 18)
        ],
        [1, 2, 3]
    );
}

#[test]
fn a_removed_vertex_is_buried_behind_its_edges(rt: HostRuntime) {
    let (table, mut token) = GraphTable::new(rt.alloc(), Layout::new(1, 16, 1)).expect(
        &rt, "memory",
    );
    begin(&table, &mut token);
    let spent = removed(&rt, &table, &mut token);
    let mut limbo = Limbo::new(rt.alloc(), 16).expect(&rt, "memory");
    bury_alone(&table, &mut token, &mut limbo, spent);
    assert_eq!(rt; limbo.len(), 4);
}

#[test]
fn a_node_is_ripe_two_epochs_on_once_no_pass_can_hold_it(rt: HostRuntime) {
    let (table, mut one) = GraphTable::new(rt.alloc(), Layout::new(2, 2, 1)).expect(&rt, "memory");
    assert_eq!(rt; enter(&table, &mut one), 0);
    let mut two = split_off(&table, &mut one);
    // Caller 0 opens its pass in epoch 0. In passes of its own caller 1 adds a vertex, and removes and buries it.
    begin_pass(&table, &mut one);
    begin(&table, &mut two);
    let life = add_vertex(&table, &mut two, 5).expect(&rt, "vertex 5");
    renew(&table, &mut two);
    let spent = remove(&table, &mut two, 5).expect(&rt, "removed");
    assert!(rt; spent.life() == life);
    let mut limbo = Limbo::new(rt.alloc(), 2).expect(&rt, "memory");
    bury_alone(&table, &mut two, &mut limbo, spent);
    leave(&table, &mut two, &limbo, 0);
    assert_eq!(rt; move_on(&table, &mut two, &limbo, 0), Advanced::Moved);
    // The pass of epoch 0 holds the epoch, so the node isn't ripe.
    assert_eq!(rt; move_on(&table, &mut two, &limbo, 1), Advanced::Held(0));
    let None = take_ripe(&table, &mut two, &mut limbo, 2) else {
        panic!(rt; "ripe at epoch 1")
    };
    assert_eq!(rt; limbo.len(), 1);
    end_pass(&table, &mut one);
    assert_eq!(rt; move_on(&table, &mut two, &limbo, 2), Advanced::Moved);
    let ripe = take_ripe(&table, &mut two, &mut limbo, 3).expect(&rt, "ripe at epoch 2");
    assert_eq!(rt; ripe.stamp(), 0);
    assert!(rt; ripe.life() == life);
    assert_eq!(rt; limbo.len(), 0);
}
