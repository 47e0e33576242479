//! The calls on one thread: keys that share a bucket, and a link that is lost.

use crate::{add, first, forward, look_again, open, pass_by, prepare, remove, seek};
use graph_table::GraphTable;
use packed_link::Layout;
use table_calls::{enter, split_off};
use vertex_list::{Found, Linked, Marked, Stepped};

#[test]
fn keys_that_share_a_bucket_are_found_and_unlinked(rt: HostRuntime) {
    let (table, mut one) = GraphTable::new(rt.alloc(), Layout::new(2, 4, 1024)).expect(
        &rt, "memory",
    );
    assert_eq!(rt; enter(&table, &mut one), 0);
    open(&table, &mut one);
    let (position, fresh) = prepare(&table, &mut one, 1029, 0).expect(&rt, "node");
    let Linked::Done(other) = add(&table, &mut one, position, fresh, 1) else {
        panic!(rt; "lost")
    };
    let (position, fresh) = prepare(&table, &mut one, 5, 1).expect(&rt, "node");
    let Linked::Done(five) = add(&table, &mut one, position, fresh, 2) else {
        panic!(rt; "lost")
    };
    // Each is found, in its own life, and a step comes to one after the other.
    let position = first(&table, &mut one, 5, 2);
    let Stepped::At(seen, position) = forward(&table, &mut one, position, 2) else {
        panic!(rt; "no vertex")
    };
    assert!(rt; seen == five);
    let Stepped::At(seen, position) = forward(&table, &mut one, position, 2) else {
        panic!(rt; "no vertex")
    };
    assert!(rt; seen == other);
    assert!(rt; matches!(forward(&table, &mut one, position, 2), Stepped::End));
    let position = first(&table, &mut one, 5, 2);
    let Found::Here(sighting) = seek(&table, &mut one, position, 2) else {
        panic!(rt; "not there")
    };
    let life = sighting.life;
    assert!(rt; life == five);
    // It's marked once; a walk behind it comes to the mark, and goes on when the vertex is unlinked.
    assert!(rt; remove(&table, &mut one, life, 2) == Marked::Won);
    assert!(rt; remove(&table, &mut one, life, 2) == Marked::Was);
    let position = first(&table, &mut one, 1029, 2);
    let Found::Dead(position) = seek(&table, &mut one, position, 2) else {
        panic!(rt; "no mark")
    };
    let position = pass_by(&table, &mut one, position, 2).expect(&rt, "unlinked");
    let Found::Here(sighting) = seek(&table, &mut one, position, 2) else {
        panic!(rt; "not there")
    };
    assert!(rt; sighting.life == other);
    let position = first(&table, &mut one, 5, 2);
    assert!(rt; matches!(seek(&table, &mut one, position, 2), Found::Gone(_)));
}

#[test]
fn a_key_is_found_where_another_of_its_bucket_was_removed(rt: HostRuntime) {
    let (table, mut one) = GraphTable::new(rt.alloc(), Layout::new(1, 2, 1024)).expect(
        &rt, "memory",
    );
    assert_eq!(rt; enter(&table, &mut one), 0);
    open(&table, &mut one);
    let (position, fresh) = prepare(&table, &mut one, 1029, 0).expect(&rt, "node");
    let Linked::Done(other) = add(&table, &mut one, position, fresh, 1) else {
        panic!(rt; "lost")
    };
    let (position, fresh) = prepare(&table, &mut one, 5, 1).expect(&rt, "node");
    let Linked::Done(five) = add(&table, &mut one, position, fresh, 2) else {
        panic!(rt; "lost")
    };
    let position = first(&table, &mut one, 1029, 2);
    let Found::Here(sighting) = seek(&table, &mut one, position, 2) else {
        panic!(rt; "not there")
    };
    assert!(rt; sighting.life == other);
    assert!(rt; remove(&table, &mut one, sighting.life, 2) == Marked::Won);
    // A step behind key 5 comes to the mark, and so does a walk.
    let position = first(&table, &mut one, 5, 2);
    let Stepped::At(_, position) = forward(&table, &mut one, position, 2) else {
        panic!(rt; "no vertex")
    };
    assert!(rt; matches!(forward(&table, &mut one, position, 2), Stepped::Dead(_)));
    let position = first(&table, &mut one, 1029, 2);
    let Found::Dead(position) = seek(&table, &mut one, position, 2) else {
        panic!(rt; "no mark")
    };
    let position = pass_by(&table, &mut one, position, 2).expect(&rt, "unlinked");
    assert!(rt; matches!(seek(&table, &mut one, position, 2), Found::Gone(_)));
    let position = first(&table, &mut one, 5, 2);
    let Found::Here(sighting) = seek(&table, &mut one, position, 2) else {
        panic!(rt; "not there")
    };
    assert!(rt; sighting.life == five);
    // Key 6 has a bucket of its own, and no vertex.
    let position = first(&table, &mut one, 6, 2);
    assert!(rt; matches!(seek(&table, &mut one, position, 2), Found::Gone(_)));
}

#[test]
fn a_link_that_is_lost_hands_its_node_back(rt: HostRuntime) {
    let (table, mut one) = GraphTable::new(rt.alloc(), Layout::new(2, 2, 1)).expect(&rt, "memory");
    assert_eq!(rt; enter(&table, &mut one), 0);
    let mut two = split_off(&table, &mut one);
    assert_eq!(rt; enter(&table, &mut two), 1);
    open(&table, &mut one);
    open(&table, &mut two);
    // Both find the key missing, and each fills a node for it.
    let (position, fresh) = prepare(&table, &mut one, 5, 0).expect(&rt, "node");
    let (position_too, fresh_too) = prepare(&table, &mut two, 5, 0).expect(&rt, "node");
    let life = fresh.life();
    let Linked::Done(other) = add(&table, &mut two, position_too, fresh_too, 1) else {
        panic!(rt; "lost")
    };
    let Linked::Lost(fresh) = add(&table, &mut one, position, fresh, 1) else {
        panic!(rt; "linked")
    };
    assert!(rt; fresh.life() == life);
    let Found::Here(sighting) = look_again(&table, &mut one, 5) else {
        panic!(rt; "not there")
    };
    assert!(rt; sighting.life == other);
    assert!(rt; other != life);
}

#[test]
fn an_unlink_that_is_lost_is_told(rt: HostRuntime) {
    let (table, mut one) = GraphTable::new(rt.alloc(), Layout::new(2, 2, 1)).expect(&rt, "memory");
    assert_eq!(rt; enter(&table, &mut one), 0);
    let mut two = split_off(&table, &mut one);
    assert_eq!(rt; enter(&table, &mut two), 1);
    open(&table, &mut one);
    open(&table, &mut two);
    let (position, fresh) = prepare(&table, &mut one, 5, 0).expect(&rt, "node");
    let Linked::Done(five) = add(&table, &mut one, position, fresh, 1) else {
        panic!(rt; "lost")
    };
    let position = first(&table, &mut two, 5, 0);
    let Found::Here(sighting) = seek(&table, &mut two, position, 0) else {
        panic!(rt; "not there")
    };
    assert!(rt; sighting.life == five);
    assert!(rt; remove(&table, &mut two, sighting.life, 0) == Marked::Won);
    // Both come to the mark, and one of them unlinks the vertex.
    let position = first(&table, &mut one, 5, 1);
    let Found::Dead(position) = seek(&table, &mut one, position, 1) else {
        panic!(rt; "no mark")
    };
    let position_too = first(&table, &mut two, 5, 0);
    let Found::Dead(position_too) = seek(&table, &mut two, position_too, 0) else {
        panic!(rt; "no mark")
    };
    assert!(rt; pass_by(&table, &mut two, position_too, 0).is_some());
    assert!(rt; pass_by(&table, &mut one, position, 1).is_none());
}
