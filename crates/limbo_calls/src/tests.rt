//! Both crates on one thread, with two or three tokens.

use crate::{add_first, bury_first, close, move_on, open, take_edge, take_ripe};
use epoch_limbo::{Advanced, Limbo};
use graph_table::GraphTable;
use node_arena::{Given, Taken, give_back, take};
use packed_link::{Layout, Life};
use table_calls::{enter, split_off};

#[test]
fn a_node_is_given_back_once_no_pass_can_hold_it(rt: HostRuntime) {
    let layout = Layout::new(2, 2, 1);
    let (table, mut a) = GraphTable::new(rt.alloc(), layout).expect(&rt, "memory");
    assert_eq!(rt; enter(&table, &mut a), 0);
    let mut b = split_off(&table, &mut a);
    assert_eq!(rt; enter(&table, &mut b), 1);
    let mut limbo = Limbo::new(rt.alloc(), 2).expect(&rt, "memory");
    open(&table, &mut a, 0);
    if !add_first(&table, &mut b, 5, 0) {
        panic!(rt; "not added");
    }
    if !bury_first(&table, &mut b, &mut limbo, 1) {
        panic!(rt; "not buried");
    }
    assert_eq!(rt; limbo.len(), 1);
    assert_eq!(rt; limbo.stamp_at(0), 0);
    assert_eq!(rt; move_on(&table, &mut b, &limbo, 1), Advanced::Moved);
    // Caller 0 has announced epoch 0.
    assert_eq!(rt; move_on(&table, &mut b, &limbo, 2), Advanced::Held(0));
    let None = take_ripe(&table, &mut b, &mut limbo, 3) else {
        panic!(rt; "ripe at epoch 1")
    };
    close(&table, &mut a, 0);
    assert_eq!(rt; move_on(&table, &mut b, &limbo, 3), Advanced::Moved);
    let ripe = take_ripe(&table, &mut b, &mut limbo, 4).expect(&rt, "ripe at epoch 2");
    assert_eq!(rt; ripe.stamp(), 0);
    assert_eq!(rt; limbo.len(), 0);
    let Given::Done = give_back(&table, &mut b, ripe) else {
        panic!(rt; "not given back")
    };
    // The free list begins with node 0 again, after two changes.
    assert_eq!(rt; table.load(&mut b, 3), 2 << 25);
}

#[test]
fn each_node_is_taken_once(rt: HostRuntime) {
    let layout = Layout::new(3, 2, 1);
    let (table, mut a) = GraphTable::new(rt.alloc(), layout).expect(&rt, "memory");
    assert_eq!(rt; enter(&table, &mut a), 0);
    let mut b = split_off(&table, &mut a);
    assert_eq!(rt; enter(&table, &mut b), 1);
    let mut c = split_off(&table, &mut b);
    assert_eq!(rt; enter(&table, &mut c), 2);
    let Taken::Node(first) = take(&table, &mut a) else {
        panic!(rt; "no first node")
    };
    assert_eq!(rt; [first.life().index as u64, first.life().tag], [0, 1]);
    // The edge of node 1 leads to node 0 in its first life.
    let target = Life { index: 0, tag: 1 };
    let second = take_edge(&table, &mut b, 5, target, 7, 0).expect(&rt, "no second node");
    assert_eq!(rt; [second.life().index as u64, second.life().tag], [1, 1]);
    let Taken::Empty = take(&table, &mut c) else {
        panic!(rt; "a third node")
    };
    // The words of node 1 stand behind those of three callers, one bucket and node 0.
    assert_eq!(rt; table.load(&mut c, 12), 5);
    assert_eq!(rt; table.load(&mut c, 13), (1 << 25) + 16_777_215);
    assert_eq!(rt; table.load(&mut c, 14), 1 << 25);
    assert_eq!(rt; table.load(&mut c, 15), 7);
}
