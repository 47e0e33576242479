//! The calls on one thread, with two tokens: each exchange once won and once lost.

use crate::{check_callers, close_pass, enter, open_pass, see_free, split_off, store_key, take};
use graph_table::{GraphTable, Popped, Tried};
use packed_link::Layout;

#[test]
fn a_pass_is_opened_and_the_epoch_is_moved(rt: HostRuntime) {
    let (table, mut one) = GraphTable::new(rt.alloc(), Layout::new(2, 3, 1)).expect(&rt, "memory");
    assert_eq!(rt; enter(&table, &mut one), 0);
    let mut two = split_off(&table, &mut one);
    assert_eq!(rt; enter(&table, &mut two), 1);
    open_pass(&table, &mut one);
    // The announcement of caller 0 is one above the epoch.
    assert_eq!(rt; table.load(&mut two, 4), 1);
    close_pass(&table, &mut one);
    let first = check_callers(&table, &mut one).expect(&rt, "clear");
    let Tried::Won = table.move_epoch(&mut one, first) else {
        panic!(rt; "lost")
    };
    assert_eq!(rt; table.load(&mut one, 2), 1);
}

#[test]
fn an_epoch_that_moved_is_told(rt: HostRuntime) {
    let (table, mut one) = GraphTable::new(rt.alloc(), Layout::new(2, 3, 1)).expect(&rt, "memory");
    assert_eq!(rt; enter(&table, &mut one), 0);
    let mut two = split_off(&table, &mut one);
    assert_eq!(rt; enter(&table, &mut two), 1);
    let first = check_callers(&table, &mut one).expect(&rt, "clear");
    let second = check_callers(&table, &mut two).expect(&rt, "clear");
    assert_eq!(rt; [first, second], [0, 0]);
    let Tried::Won = table.move_epoch(&mut one, first) else {
        panic!(rt; "lost")
    };
    let Tried::Lost(found) = table.move_epoch(&mut two, second) else {
        panic!(rt; "won")
    };
    assert_eq!(rt; found, 1);
}

#[test]
fn a_node_is_taken_once(rt: HostRuntime) {
    let (table, mut one) = GraphTable::new(rt.alloc(), Layout::new(2, 3, 1)).expect(&rt, "memory");
    assert_eq!(rt; enter(&table, &mut one), 0);
    let mut two = split_off(&table, &mut one);
    assert_eq!(rt; enter(&table, &mut two), 1);
    open_pass(&table, &mut one);
    open_pass(&table, &mut two);
    let (seen, next) = see_free(&table, &mut one).expect(&rt, "free");
    let (seen_too, next_too) = see_free(&table, &mut two).expect(&rt, "free");
    let fresh = take(&table, &mut one, seen, next).expect(&rt, "taken");
    assert_eq!(rt; [fresh.life().index as u64, fresh.life().tag], [0, 1]);
    store_key(&table, &mut one, &fresh, 5);
    // Node 1 is the first free one, after one change of the list.
    let Popped::Lost(found) = table.pop_free(&mut two, seen_too, next_too) else {
        panic!(rt; "won")
    };
    assert_eq!(rt; found, 1 + (1 << 25));
    // The key of node 0 stands behind the words of two callers and one bucket.
    assert_eq!(rt; table.load(&mut two, 7), 5);
}
