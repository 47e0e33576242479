//! Rounds of a caller, one after another.

ghost use Rattle.std.specs.Prelude.{◌≡◌, ◌<◌, ◌≤◌, ◌+◌, ◌^◌, true, false};
ghost use Rattle.free_list_rounds.specs.Rounds.{HasTurnedOver, IsBetweenRounds};
ghost use Rattle.graph_table.specs.Tokens.{IsOf};

use crate::growing::{build, clear};
use crate::resting::settle;
use crate::worker::Worker;
use epoch_limbo::{close_pass, open_pass};
use graph_table::GraphTable;
use std::thread;
use std::thread::Threads;

/// One round: in a pass, takes a node, links it as a vertex of this key, removes and buries it; after the pass, moves
/// the epoch on and gives back what is ripe. Where another caller comes between, the rest is left to a later round.
pub fn round(table: &GraphTable, caller: Worker, key: u32) -> Worker
    requires table { IsOf table.now caller.token }
    requires between { IsBetweenRounds caller }
    requires left { caller.rounds + 1 < 2 ^ 32 }
    ensures table { IsOf table.now result.token }
    ensures between { IsBetweenRounds result }
    ensures rounds { result.rounds ≡ caller.rounds + 1 }
{
    let Worker {
        mut token,
        mut limbo,
        spare,
        rounds,
        taken,
        given,
    } = caller;
    open_pass(table, &mut token);
    let (spare, took) = build(table, &mut token, spare, key);
    clear(table, &mut token, &mut limbo, key);
    close_pass(table, &mut token);
    let gave = settle(table, &mut token, &mut limbo);
    Worker {
        token,
        limbo,
        spare,
        rounds: rounds + 1,
        taken: taken + took,
        given: given + u64::from(gave),
    }
}

/// Moves the epoch on, where that can be, and gives ripe nodes back, in O(callers + nodes in limbo); it counts as a
/// round, in which no node is taken.
pub fn rest(table: &GraphTable, caller: Worker) -> Worker
    requires table { IsOf table.now caller.token }
    requires between { IsBetweenRounds caller }
    requires left { caller.rounds + 1 < 2 ^ 32 }
    ensures table { IsOf table.now result.token }
    ensures between { IsBetweenRounds result }
    ensures rounds { result.rounds ≡ caller.rounds + 1 }
{
    let Worker {
        mut token,
        mut limbo,
        spare,
        rounds,
        taken,
        given,
    } = caller;
    let gave = settle(table, &mut token, &mut limbo);
    Worker {
        token,
        limbo,
        spare,
        rounds: rounds + 1,
        taken,
        given: given + u64::from(gave),
    }
}

/// So many rounds.
pub fn run(table: &GraphTable, caller: Worker, key: u32, rounds: u32) -> Worker
    requires table { IsOf table.now caller.token }
    requires between { IsBetweenRounds caller }
    requires left { caller.rounds + rounds < 2 ^ 32 }
    ensures table { IsOf table.now result.token }
    ensures between { IsBetweenRounds result }
    ensures rounds { result.rounds ≡ caller.rounds + rounds }
{
    let mut caller = caller;
    let mut left = rounds;
    while left > 0 {
        caller = round(table, caller, key);
        left -= 1;
    }
    caller
}

/// Rounds until the caller has taken so many nodes more, and given back so many more, or has made all the rounds of a
/// limit.
pub fn run_until(table: &GraphTable, caller: Worker, key: u32, goal: u32, limit: u32) -> Worker
    requires table { IsOf table.now caller.token }
    requires between { IsBetweenRounds caller }
    requires left { caller.rounds + limit < 2 ^ 32 }
    ensures table { IsOf table.now result.token }
    ensures between { IsBetweenRounds result }
    ensures turned_over { HasTurnedOver goal limit caller result }
{
    let taken = u64::from(caller.taken) + u64::from(goal);
    let given = caller.given + u64::from(goal);
    let mut caller = caller;
    for _ in 0..limit {
        if caller.has_turned_over(taken, given) {
            return caller;
        }
        caller = round(table, caller, key);
    }
    caller
}

/// Rounds of two callers, on threads of their own, on the keys 0 and 1: each goes on until it has taken so many nodes
/// more, and given back so many more, or has made all the rounds of a limit.
pub fn run_both<R: Threads + Sync>(
    rt: &R,
    table: &GraphTable,
    one: Worker,
    two: Worker,
    goal: u32,
    limit: u32,
) -> (Worker, Worker)
    requires table { IsOf table.now one.token }
    requires between { IsBetweenRounds one }
    requires left { one.rounds + limit < 2 ^ 32 }
    requires other { IsOf table.now two.token }
    requires other_between { IsBetweenRounds two }
    requires other_left { two.rounds + limit < 2 ^ 32 }
    ensures table { IsOf table.now result.0.token }
    ensures between { IsBetweenRounds result.0 }
    ensures turned_over { HasTurnedOver goal limit one result.0 }
    ensures other { IsOf table.now result.1.token }
    ensures other_between { IsBetweenRounds result.1 }
    ensures other_turned_over { HasTurnedOver goal limit two result.1 }
{
    thread::join(
        rt,
        move || run_until(table, one, 0, goal, limit),
        move || run_until(table, two, 1, goal, limit),
    )
}
