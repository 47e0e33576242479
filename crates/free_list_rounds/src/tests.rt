//! Rounds of one caller, and of two on threads of their own: at the end all nodes are there.

ghost use Rattle.graph_table.specs.Tokens.{IsOf};

use crate::{enter, rest, run, run_both, run_until};
use epoch_limbo::Limbo;
use graph_table::{GraphTable, Token};
use packed_link::{Layout, Link};

// How many nodes each of two callers takes and gives back on its thread.
const GOAL: u32 = 1000;

// The rounds after which it stops anyway.
const LIMIT: u32 = 1 << 26;

/// The nodes of the free list as bits, from loads while no other caller changes it, and where the last one leads.
fn free_nodes(table: &GraphTable, token: &mut Token) -> (u64, u32)
    requires table { IsOf table.now token.old }
    ensures table { IsOf table.now token.new }
{
    let layout = table.layout();
    let nodes = layout.nodes();
    let mut seen = 0u64;
    let mut index = Link(table.load(token, layout.free_at())).index();
    for _ in 0..nodes {
        if index < nodes {
            seen |= 1u64 << (index % 64);
            index = Link(table.load(token, layout.link_at(index))).index();
        }
    }
    (seen, index)
}

/// How often the free list changed.
fn changes(table: &GraphTable, token: &mut Token) -> u64
    requires table { IsOf table.now token.old }
    ensures table { IsOf table.now token.new }
{
    let layout = table.layout();
    Link(table.load(token, layout.free_at())).tag()
}

#[test]
fn one_caller_takes_and_gives_back(rt: HostRuntime) {
    let (table, token) = GraphTable::new(rt.alloc(), Layout::new(2, 8, 2)).expect(&rt, "memory");
    let limbo = Limbo::new(rt.alloc(), 8).expect(&rt, "memory");
    let (caller, mut watcher) = enter(&table, token, limbo);
    // In each round a node is taken, and from the second one on that of the round before is given back.
    let caller = run(&table, caller, 0, 1000);
    assert_eq!(rt; (caller.taken(), caller.given()), (1000, 999));
    assert_eq!(rt; changes(&table, &mut watcher), 1999);
    assert_eq!(rt; caller.held(), 1);
    assert_eq!(rt; free_nodes(&table, &mut watcher).0.count_ones(), 7);
    let caller = rest(&table, caller);
    assert_eq!(rt; (caller.taken(), caller.given()), (1000, 1000));
    assert_eq!(rt; changes(&table, &mut watcher), 2000);
    assert_eq!(rt; caller.held(), 0);
    assert_eq!(rt; free_nodes(&table, &mut watcher), (255, Link::NONE.index()));
}

#[test]
fn a_caller_stops_at_its_goal_or_at_the_limit(rt: HostRuntime) {
    let (table, token) = GraphTable::new(rt.alloc(), Layout::new(2, 8, 2)).expect(&rt, "memory");
    let limbo = Limbo::new(rt.alloc(), 8).expect(&rt, "memory");
    let (caller, _watcher) = enter(&table, token, limbo);
    // The third node comes back in the fourth round.
    let caller = run_until(&table, caller, 0, 3, 100);
    assert_eq!(rt; (caller.taken(), caller.given()), (4, 3));
    let caller = run_until(&table, caller, 0, 100, 5);
    assert_eq!(rt; (caller.taken(), caller.given()), (9, 8));
}

#[test]
fn two_callers_on_threads_take_and_give_back(rt: HostRuntime) {
    let (table, token) = GraphTable::new(rt.alloc(), Layout::new(2, 8, 2)).expect(&rt, "memory");
    let limbo = Limbo::new(rt.alloc(), 8).expect(&rt, "memory");
    let (one, token) = enter(&table, token, limbo);
    let limbo = Limbo::new(rt.alloc(), 8).expect(&rt, "memory");
    let (two, mut watcher) = enter(&table, token, limbo);
    // Each caller alone takes ten nodes and gives nine of them back.
    let one = run(&table, one, 0, 10);
    let two = run(&table, two, 1, 10);
    assert_eq!(rt; [one.taken(), two.taken()], [10, 10]);
    assert_eq!(rt; [one.given(), two.given()], [9, 9]);
    let (one, two) = run_both(&rt, &table, one, two, GOAL, LIMIT);
    // Each took 1,000 nodes more and gave 1,000 more back; the free list changed so often, and never else.
    assert!(rt; one.taken() >= 10 + GOAL && one.given() >= 9 + u64::from(GOAL));
    assert!(rt; two.taken() >= 10 + GOAL && two.given() >= 9 + u64::from(GOAL));
    let taken = u64::from(one.taken()) + u64::from(two.taken());
    let given = one.given().saturating_add(two.given());
    assert_eq!(rt; changes(&table, &mut watcher), taken.saturating_add(given));
    // Whatever the schedule was, no vertex is linked after a round, so each node is free or held.
    let free = u64::from(free_nodes(&table, &mut watcher).0.count_ones());
    assert_eq!(rt; free + one.held() + two.held(), 8);
    // Two moves of the epoch later all are ripe.
    let one = rest(&table, one);
    let one = rest(&table, one);
    let two = rest(&table, two);
    assert_eq!(rt; [one.held(), two.held()], [0, 0]);
    assert_eq!(rt; free_nodes(&table, &mut watcher), (255, Link::NONE.index()));
}
