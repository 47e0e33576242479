//! The rows on one thread, and two hands on two.

use crate::{
    Turns, count_there, enter, link_prepared, look, mark_or_answer, pair, prepare, take_both,
    take_turns,
};
use graph_kinds::Outcome;
use graph_table::GraphTable;
use graph_updates::{
    Begun, Hand, HandCause, Settled, add_edge, add_vertex, begin, finish, has_edge, has_vertex,
    remove_edge, remove_vertex, settle,
};
use packed_link::Layout;
use vertex_list::{Found, Linked};

#[test]
fn one_hand_answers_as_the_graph_of_one_caller(rt: HostRuntime) {
    let (table, token) = GraphTable::new(rt.alloc(), Layout::new(1, 8, 1)).expect(&rt, "memory");
    let Ok(mut hand) = Hand::new(rt.alloc(), &table, token) else {
        panic!(rt; "a hand")
    };
    assert_eq!(rt; add_vertex(&table, &mut hand, 5, 1), Outcome::Added);
    assert_eq!(rt; add_vertex(&table, &mut hand, 5, 1), Outcome::Present(0));
    assert_eq!(rt; has_vertex(&table, &mut hand, 5, 1), Outcome::Yes);
    assert_eq!(rt; remove_vertex(&table, &mut hand, 5, 1), Outcome::Removed(0));
    assert_eq!(rt; remove_vertex(&table, &mut hand, 5, 1), Outcome::Absent);
    assert_eq!(rt; has_vertex(&table, &mut hand, 5, 1), Outcome::No);
    assert_eq!(rt; hand.uses(), 6);
    assert!(rt; !hand.has_spare());
}

#[test]
fn a_pair_is_looked_up_by_both_its_keys(rt: HostRuntime) {
    let (table, token) = GraphTable::new(rt.alloc(), Layout::new(1, 8, 1)).expect(&rt, "memory");
    let Ok(mut hand) = Hand::new(rt.alloc(), &table, token) else {
        panic!(rt; "a hand")
    };
    assert_eq!(rt; has_edge(&table, &mut hand, 5, 6, 1), Outcome::NoVertex);
    assert_eq!(rt; remove_edge(&table, &mut hand, 5, 6, 1), Outcome::NoVertex);
    assert_eq!(rt; add_vertex(&table, &mut hand, 5, 1), Outcome::Added);
    assert_eq!(rt; has_edge(&table, &mut hand, 5, 6, 1), Outcome::NoVertex);
    assert_eq!(rt; has_edge(&table, &mut hand, 6, 5, 1), Outcome::NoVertex);
    assert_eq!(rt; has_edge(&table, &mut hand, 5, 5, 1), Outcome::NoEdge);
    assert_eq!(rt; add_vertex(&table, &mut hand, 6, 1), Outcome::Added);
    assert_eq!(rt; has_edge(&table, &mut hand, 5, 6, 1), Outcome::NoEdge);
    assert_eq!(rt; has_edge(&table, &mut hand, 6, 5, 1), Outcome::NoEdge);
    assert_eq!(rt; remove_edge(&table, &mut hand, 6, 5, 1), Outcome::NoEdge);
    assert_eq!(rt; remove_edge(&table, &mut hand, 5, 5, 1), Outcome::NoEdge);
    assert_eq!(rt; remove_vertex(&table, &mut hand, 5, 1), Outcome::Removed(0));
    assert_eq!(rt; has_edge(&table, &mut hand, 5, 6, 1), Outcome::NoVertex);
    assert_eq!(rt; hand.uses(), 13);
}

#[test]
fn an_edge_is_added_changed_and_removed(rt: HostRuntime) {
    let (table, token) = GraphTable::new(rt.alloc(), Layout::new(1, 8, 1)).expect(&rt, "memory");
    let Ok(mut hand) = Hand::new(rt.alloc(), &table, token) else {
        panic!(rt; "a hand")
    };
    assert_eq!(rt; add_edge(&table, &mut hand, 1, 2, 5, 1), Outcome::NoVertex);
    assert_eq!(rt; add_vertex(&table, &mut hand, 2, 1), Outcome::Added);
    assert_eq!(rt; add_edge(&table, &mut hand, 1, 2, 5, 1), Outcome::NoVertex);
    assert_eq!(rt; add_edge(&table, &mut hand, 2, 1, 5, 1), Outcome::NoVertex);
    assert_eq!(rt; add_vertex(&table, &mut hand, 1, 1), Outcome::Added);
    assert_eq!(rt; add_edge(&table, &mut hand, 1, 2, 5, 1), Outcome::Added);
    assert_eq!(rt; has_edge(&table, &mut hand, 1, 2, 1), Outcome::Edge(5));
    assert_eq!(rt; has_edge(&table, &mut hand, 2, 1, 1), Outcome::NoEdge);
    assert_eq!(rt;
        add_edge(&table, &mut hand, 1, 2, 5, 1),
        Outcome::Present(5)
    );
    assert_eq!(rt;
        add_edge(&table, &mut hand, 1, 2, 6, 1),
        Outcome::Changed(5)
    );
    assert_eq!(rt; has_edge(&table, &mut hand, 1, 2, 1), Outcome::Edge(6));
    assert_eq!(rt;
        add_edge(&table, &mut hand, 1, 1, 4294967295, 1),
        Outcome::Added
    );
    assert_eq!(rt;
        has_edge(&table, &mut hand, 1, 1, 1),
        Outcome::Edge(4294967295)
    );
    assert_eq!(rt;
        remove_edge(&table, &mut hand, 1, 2, 1),
        Outcome::Removed(6)
    );
    assert_eq!(rt; remove_edge(&table, &mut hand, 1, 2, 1), Outcome::NoEdge);
    assert_eq!(rt; has_edge(&table, &mut hand, 1, 2, 1), Outcome::NoEdge);
    assert_eq!(rt; add_edge(&table, &mut hand, 1, 2, 7, 1), Outcome::Added);
    assert_eq!(rt; has_edge(&table, &mut hand, 1, 2, 1), Outcome::Edge(7));
}

// Rows 6 and 7: an edge to a removed vertex is no edge to its key's next life, and gives way to one.
#[test]
fn an_edge_to_an_earlier_life_of_its_key_gives_way(rt: HostRuntime) {
    let (table, token) = GraphTable::new(rt.alloc(), Layout::new(1, 16, 1)).expect(&rt, "memory");
    let Ok(mut hand) = Hand::new(rt.alloc(), &table, token) else {
        panic!(rt; "a hand")
    };
    assert_eq!(rt; add_vertex(&table, &mut hand, 1, 1), Outcome::Added);
    assert_eq!(rt; add_vertex(&table, &mut hand, 2, 1), Outcome::Added);
    assert_eq!(rt; add_vertex(&table, &mut hand, 3, 1), Outcome::Added);
    assert_eq!(rt; add_edge(&table, &mut hand, 1, 2, 5, 1), Outcome::Added);
    assert_eq!(rt; add_edge(&table, &mut hand, 2, 3, 6, 1), Outcome::Added);
    assert_eq!(rt; remove_vertex(&table, &mut hand, 2, 1), Outcome::Removed(0));
    assert_eq!(rt; has_edge(&table, &mut hand, 1, 2, 1), Outcome::NoVertex);
    assert_eq!(rt; add_vertex(&table, &mut hand, 2, 1), Outcome::Added);
    assert_eq!(rt; has_edge(&table, &mut hand, 1, 2, 1), Outcome::NoEdge);
    assert_eq!(rt; has_edge(&table, &mut hand, 2, 3, 1), Outcome::NoEdge);
    assert_eq!(rt; add_edge(&table, &mut hand, 1, 2, 8, 1), Outcome::Added);
    assert_eq!(rt; has_edge(&table, &mut hand, 1, 2, 1), Outcome::Edge(8));
    assert_eq!(rt;
        add_edge(&table, &mut hand, 1, 2, 9, 1),
        Outcome::Changed(8)
    );
    assert_eq!(rt;
        remove_edge(&table, &mut hand, 1, 2, 1),
        Outcome::Removed(9)
    );
    assert_eq!(rt; remove_edge(&table, &mut hand, 1, 2, 1), Outcome::NoEdge);
}

#[test]
fn a_full_table_answers_full_where_an_edge_needs_a_node(rt: HostRuntime) {
    let (table, token) = GraphTable::new(rt.alloc(), Layout::new(1, 3, 1)).expect(&rt, "memory");
    let Ok(mut hand) = Hand::new(rt.alloc(), &table, token) else {
        panic!(rt; "a hand")
    };
    assert_eq!(rt; add_vertex(&table, &mut hand, 1, 1), Outcome::Added);
    assert_eq!(rt; add_vertex(&table, &mut hand, 2, 1), Outcome::Added);
    assert_eq!(rt; add_edge(&table, &mut hand, 1, 2, 5, 1), Outcome::Added);
    assert_eq!(rt; add_edge(&table, &mut hand, 1, 2, 6, 1), Outcome::Full);
    assert_eq!(rt;
        add_edge(&table, &mut hand, 1, 2, 5, 1),
        Outcome::Present(5)
    );
    assert_eq!(rt; add_edge(&table, &mut hand, 2, 1, 5, 1), Outcome::Full);
    assert_eq!(rt; add_edge(&table, &mut hand, 2, 3, 5, 1), Outcome::NoVertex);
    assert_eq!(rt; has_edge(&table, &mut hand, 1, 2, 1), Outcome::Edge(5));
}

// Two nodes more than vertices and edges are enough to change a weight again and again.
#[test]
fn a_replaced_edge_gives_its_node_back(rt: HostRuntime) {
    let (table, token) = GraphTable::new(rt.alloc(), Layout::new(1, 5, 1)).expect(&rt, "memory");
    let Ok(mut hand) = Hand::new(rt.alloc(), &table, token) else {
        panic!(rt; "a hand")
    };
    assert_eq!(rt; add_vertex(&table, &mut hand, 1, 1), Outcome::Added);
    assert_eq!(rt; add_vertex(&table, &mut hand, 2, 1), Outcome::Added);
    assert_eq!(rt; add_edge(&table, &mut hand, 1, 2, 5, 1), Outcome::Added);
    assert_eq!(rt;
        add_edge(&table, &mut hand, 1, 2, 6, 1),
        Outcome::Changed(5)
    );
    assert_eq!(rt;
        add_edge(&table, &mut hand, 1, 2, 5, 1),
        Outcome::Changed(6)
    );
    assert_eq!(rt;
        add_edge(&table, &mut hand, 1, 2, 6, 1),
        Outcome::Changed(5)
    );
    assert_eq!(rt;
        add_edge(&table, &mut hand, 1, 2, 5, 1),
        Outcome::Changed(6)
    );
    assert_eq!(rt;
        add_edge(&table, &mut hand, 1, 2, 6, 1),
        Outcome::Changed(5)
    );
    assert_eq!(rt; has_edge(&table, &mut hand, 1, 2, 1), Outcome::Edge(6));
}

#[test]
fn a_pass_holds_the_limbo_of_another_caller_back(rt: HostRuntime) {
    let (table, token) = GraphTable::new(rt.alloc(), Layout::new(2, 2, 1)).expect(&rt, "memory");
    let Ok((mut one, mut two, mut watcher)) = pair(rt.alloc(), &table, token) else {
        panic!(rt; "two hands")
    };
    assert_eq!(rt; [one.number(), two.number()], [0, 1]);
    let epoch_at = table.layout().epoch_at();
    assert!(rt; matches!(begin(&table, &mut one), Begun::Done));
    assert_eq!(rt; add_vertex(&table, &mut two, 5, 1), Outcome::Added);
    assert_eq!(rt; remove_vertex(&table, &mut two, 5, 1), Outcome::Removed(0));
    // The removal ended by moving the epoch on, though the other's pass is of epoch 0; that pass holds it at 1.
    assert_eq!(rt; table.load(&mut watcher, epoch_at), 1);
    assert!(rt; settle(&table, &mut two, 1) == Settled::Done(1));
    assert_eq!(rt; two.limbo_len(), 1);
    finish(&table, &mut one);
    assert!(rt; settle(&table, &mut two, 1) == Settled::Done(3));
    assert_eq!(rt; two.limbo_len(), 0);
}

#[test]
fn a_removed_vertex_gives_its_node_back_again_and_again(rt: HostRuntime) {
    let (table, token) = GraphTable::new(rt.alloc(), Layout::new(1, 2, 1)).expect(&rt, "memory");
    let Ok(hand) = Hand::new(rt.alloc(), &table, token) else {
        panic!(rt; "a hand")
    };
    let turns = Turns {
        hand,
        added: 0,
        removed: 0,
        refused: 0,
    };
    // Each add takes a node and each removal gives an older one back: two nodes are enough.
    let turns = take_turns(&table, turns, 2000, 1);
    assert_eq!(rt;
        [turns.added, turns.removed, turns.refused],
        [1000, 1000, 0]
    );
}

#[test]
fn what_two_hands_added_and_did_not_remove_is_there(rt: HostRuntime) {
    // Nodes enough for each add, since a pass of the other caller may hold the limbo back for long.
    let (table, token) = GraphTable::new(rt.alloc(), Layout::new(2, 2048, 2)).expect(&rt, "memory");
    let Ok((one, two, _watcher)) = pair(rt.alloc(), &table, token) else {
        panic!(rt; "two hands")
    };
    let one = Turns {
        hand: one,
        added: 0,
        removed: 0,
        refused: 0,
    };
    let two = Turns {
        hand: two,
        added: 0,
        removed: 0,
        refused: 0,
    };
    let (one, two) = take_both(&rt, &table, one, two, 2000, 4_000_000_000);
    assert_eq!(rt; [one.refused, two.refused], [0, 0]);
    let added = u64::from(one.added) + u64::from(two.added);
    let removed = u64::from(one.removed) + u64::from(two.removed);
    let mut hand = one.hand;
    let zero = count_there(&table, &mut hand, 0);
    let one_more = count_there(&table, &mut hand, 1);
    let two_more = count_there(&table, &mut hand, 2);
    let three_more = count_there(&table, &mut hand, 3);
    let four_more = count_there(&table, &mut hand, 4);
    let there = zero + one_more + two_more + three_more + four_more;
    assert_eq!(rt; removed + there, added);
    // Both fronts are joined.
    let mut token = hand.into_token();
    table.join_token(&mut token, two.hand.into_token());
}

#[test]
fn one_of_two_links_of_a_key_is_lost(rt: HostRuntime) {
    let (table, token) = GraphTable::new(rt.alloc(), Layout::new(2, 2, 1)).expect(&rt, "memory");
    let Ok((mut one, mut two, left)) = pair(rt.alloc(), &table, token) else {
        panic!(rt; "two hands")
    };
    enter(&table, &mut one).expect(&rt, "a use");
    enter(&table, &mut two).expect(&rt, "a use");
    // Both find the key missing and fill a node for it; the first link is done.
    let (gap, fresh) = prepare(&table, one.token(), 5).expect(&rt, "node");
    let (gap_too, fresh_too) = prepare(&table, two.token(), 5).expect(&rt, "node");
    let Linked::Done(life) = link_prepared(&table, two.token(), 5, gap_too, fresh_too) else {
        panic!(rt; "lost")
    };
    let Linked::Lost(_fresh) = link_prepared(&table, one.token(), 5, gap, fresh) else {
        panic!(rt; "linked twice")
    };
    let Found::Here(seen) = look(&table, one.token(), 5) else {
        panic!(rt; "not there")
    };
    assert!(rt; seen.life == life);
    // All numbers are drawn.
    let Err(refusal) = Hand::new(rt.alloc(), &table, left) else {
        panic!(rt; "a third hand")
    };
    assert!(rt; refusal.cause == HandCause::NoNumber);
    // Of two marks of one life the second is answered behind the first.
    assert!(rt; !mark_or_answer(&table, one.token(), 5, seen.life));
    assert!(rt; mark_or_answer(&table, one.token(), 5, seen.life));
}
