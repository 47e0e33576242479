//! Sequences of calls on one thread: each meets the conditions of the next.

use crate::{Fresh, GraphTable, Ripe, Spent, Token};
use graph_kinds::{Call, Class, Outcome};
use packed_link::Layout;
use std::snapshot::Snapshot;

fn is_send<T: Send>() {}

fn is_sync<T: Sync>() {}

#[test]
fn tables_tokens_and_nodes_may_go_to_other_threads() {
    is_send::<GraphTable>();
    is_sync::<GraphTable>();
    is_send::<Token>();
    is_send::<Fresh>();
    is_send::<Spent>();
    is_send::<Ripe>();
}

#[test]
fn tokens_are_drawn_split_and_joined(rt: HostRuntime) {
    let (table, mut one) = GraphTable::new(rt.alloc(), Layout::new(2, 3, 1)).expect(&rt, "memory");
    assert_eq!(rt; table.layout().words(), 19);
    assert_eq!(rt; table.draw_number(&mut one), 0);
    let mut two = table.split_token(&mut one);
    assert_eq!(rt; table.draw_number(&mut two), 1);
    assert_eq!(rt; [one.number(), two.number()], [0, 1]);
    let start = Snapshot::of(&one);
    assert_eq!(rt; table.load(&mut one, 1), 2);
    table.reply(
        &mut one,
        &Call::HasVertex { key: 7 },
        1,
        Outcome::No,
        &[],
        &[],
        Class::Silent,
        &start,
        &start,
    );
    table.join_token(&mut one, two);
    table.close(one);
}
