//! A caller adds and removes vertices by turns, on its own thread or beside another.

ghost use Rattle.std.specs.Prelude.{◌<◌, ◌≤◌, ◌+◌, ◌^◌};
ghost use Rattle.core_stretches.specs.Holdings.{HasNoPass};
ghost use Rattle.graph_updates.specs.Hands.{IsHandOf, IsInOrder};
ghost use Rattle.hand_rows.specs.Turns.{HasTaken};

use graph_kinds::Outcome;
use graph_table::GraphTable;
use graph_updates::{Hand, add_vertex, has_vertex, remove_vertex};
use std::thread;
use std::thread::Threads;

/// A hand after its turns, with how many vertices it added and removed, and how many calls were answered otherwise than
/// by what the graph gives.
#[derive(Drop)]
pub struct Turns {
    pub hand: Hand,
    pub added: u32,
    pub removed: u32,
    pub refused: u32,
}

/// One turn on one of five keys: the key is added if the turn is even, and else removed.
fn take_turn(table: &GraphTable, turns: Turns, turn: u32, tries: u32) -> Turns
    requires taken { HasTaken table.now turn turns }
    requires some { 0 < tries }
    requires few { turn + 1 < 2 ^ 32 }
    ensures taken { HasTaken table.now (turn + 1) result }
{
    let Turns {
        mut hand,
        added,
        removed,
        refused,
    } = turns;
    let key = turn / 2 % 5;
    let outcome = if turn % 2 == 0 {
        add_vertex(table, &mut hand, key, tries)
    } else {
        remove_vertex(table, &mut hand, key, tries)
    };
    let (a, r, f) = match outcome {
        Outcome::Added => (1, 0, 0),
        Outcome::Removed(_) => (0, 1, 0),
        Outcome::Full => (0, 0, 1),
        Outcome::Again => (0, 0, 1),
        Outcome::Worn => (0, 0, 1),
        _ => (0, 0, 0),
    };
    Turns {
        hand,
        added: added + a,
        removed: removed + r,
        refused: refused + f,
    }
}

/// So many turns.
pub fn take_turns(table: &GraphTable, turns: Turns, count: u32, tries: u32) -> Turns
    requires taken { HasTaken table.now 0 turns }
    requires some { 0 < tries }
    requires few { count + 1 < 2 ^ 32 }
    ensures taken { HasTaken table.now count result }
{
    let mut turns = turns;
    let mut turn = 0u32;
    while turn < count {
        turns = take_turn(table, turns, turn, tries);
        turn += 1;
    }
    turns
}

/// So many turns of two hands, on threads of their own.
pub fn take_both<R: Threads + Sync>(
    rt: &R,
    table: &GraphTable,
    one: Turns,
    two: Turns,
    count: u32,
    tries: u32,
) -> (Turns, Turns)
    requires one { HasTaken table.now 0 one }
    requires two { HasTaken table.now 0 two }
    requires some { 0 < tries }
    requires few { count + 1 < 2 ^ 32 }
    ensures one { HasTaken table.now count result.0 }
    ensures two { HasTaken table.now count result.1 }
{
    thread::join(
        rt,
        move || take_turns(table, one, count, tries),
        move || take_turns(table, two, count, tries),
    )
}

/// One if a vertex has the key, as a look-up tells with one try, and else none.
pub fn count_there(table: &GraphTable, hand: &mut Hand, key: u32) -> u64
    requires hand { IsHandOf table.now hand.old }
    requires closed { HasNoPass hand.old.token.view }
    requires order { IsInOrder hand.old }
    ensures hand { IsHandOf table.now hand.new }
    ensures closed { HasNoPass hand.new.token.view }
    ensures order { IsInOrder hand.new }
    ensures one { result ≤ 1 }
{
    match has_vertex(table, hand, key, 1) {
        Outcome::Yes => 1,
        _ => 0,
    }
}
