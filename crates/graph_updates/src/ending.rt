//! A call begins and ends: its pass is opened and closed, and what is ripe is given back.

ghost use Rattle.std.specs.Prelude.{◌≡◌, ◌+◌, ◌<◌, true, false};
ghost use Rattle.core_journal.specs.Event.{moves};
ghost use Rattle.core_kept.specs.Counts.{made, most_moves};
ghost use Rattle.core_rule.specs.Retired.{IsShown};
ghost use Rattle.core_rule.specs.Stretches.{HasPass};
ghost use Rattle.core_stretches.specs.Holdings.{HasNoPass};
ghost use Rattle.graph_table.specs.Tokens.{IsOf};
ghost use Rattle.graph_updates.specs.Ending.{HasGiven, HasMovedTwice, HasTidied, IsFinished};
ghost use Rattle.graph_updates.specs.Ending.{MatchBegun, MatchGift, MatchSettled};
ghost use Rattle.graph_updates.specs.Hands.{IsHandOf, IsInOrder, IsRoomyLimbo};

use crate::hand::Hand;
use epoch_limbo::{Limbo, advance, close_pass, open_pass};
use graph_table::{GraphTable, Token};
use node_arena::{Given, give_back};

// How many uses a hand has.
const USES: u64 = 4_294_967_296;

/// What became of beginning a call: the pass is open, or the hand has had all its uses.
#[derive(Clone, Copy, Debug, Drop, PartialEq, Eq)]
pub enum Begun {
    Done,
    Worn,
}

/// What became of settling: no node of the limbo is ripe at this epoch, no try was left, or the hand has had all its
/// uses.
#[derive(Clone, Copy, Debug, Drop, PartialEq, Eq)]
pub enum Settled {
    Done(u64),
    Again,
    Worn,
}

/// Counts one use and opens the pass, in O(1): a load and a store. `Worn` comes exactly where the hand has had
/// 4,294,967,296 uses; nothing is done then. The hand has no open pass.
pub fn begin(table: &GraphTable, hand: &mut Hand) -> Begun
    requires hand { IsHandOf table.now hand.old }
    requires closed { HasNoPass hand.old.token.view }
    ensures hand { IsHandOf table.now hand.new }
    ensures order { IsInOrder hand.old → IsInOrder hand.new }
    ensures begun { MatchBegun result hand.old hand.new }
{
    if hand.uses == USES {
        return Begun::Worn;
    }
    hand.uses += 1;
    hand.retired = false;
    open_pass(table, &mut hand.token);
    Begun::Done
}

/// What became of giving the oldest node back: it's free, none is ripe, or another caller changed the free list and the
/// node is the oldest still.
#[derive(Clone, Copy, Debug, Drop, PartialEq, Eq)]
pub enum Gift {
    Given,
    NoneRipe,
    Lost,
}

/// Gives the oldest node of the limbo back, where it's ripe at this epoch, which the token's front has shown: O(1).
pub fn give_one(table: &GraphTable, token: &mut Token, limbo: &mut Limbo, epoch: u64) -> Gift
    requires table { IsOf table.now token.old }
    requires number { token.old.view.numbered ≡ true }
    requires limbo { IsRoomyLimbo limbo.old token.old.view }
    requires shown { IsShown token.old.view epoch }
    ensures table { IsOf table.now token.new }
    ensures given { MatchGift result epoch limbo.old limbo.new token.old.view token.new.view }
{
    let Some(ripe) = limbo.ripe(token, epoch) else {
        return Gift::NoneRipe;
    };
    match give_back(table, token, ripe) {
        Given::Done => Gift::Given,
        Given::Lost(ripe) => {
            limbo.put_back(ripe);
            Gift::Lost
        }
    }
}

/// Loads the epoch and gives back each node that is ripe at it, until none is or a give-back is lost: O(nodes given
/// back). Answers that epoch, and whether none is ripe at it.
pub fn give_ripe(table: &GraphTable, token: &mut Token, limbo: &mut Limbo) -> (u64, bool)
    requires table { IsOf table.now token.old }
    requires number { token.old.view.numbered ≡ true }
    requires limbo { IsRoomyLimbo limbo.old token.old.view }
    ensures table { IsOf table.now token.new }
    ensures given { HasGiven result.0 result.1 limbo.old limbo.new token.old.view token.new.view }
{
    let layout = table.layout();
    let epoch = table.load(token, layout.epoch_at());
    loop {
        match give_one(table, token, limbo, epoch) {
            Gift::Given => {}
            Gift::NoneRipe => return (epoch, true),
            Gift::Lost => return (epoch, false),
        }
    }
}

/// Moves the epoch on once, if that can be, and then gives back each node that is ripe at an epoch loaded after that,
/// until none is or a give-back is lost: O(callers + nodes given back). The caller has no open pass, and has moved the
/// epoch fewer than 2^34 times.
#[tactic(auto, using(crate::proofs::EndingTells::advanced_limbo, crate::proofs::EndingTells::advanced_number))]
fn tidy(table: &GraphTable, token: &mut Token, limbo: &mut Limbo)
    requires table { IsOf table.now token.old }
    requires number { token.old.view.numbered ≡ true }
    requires there { token.old.view.number < token.old.view.sizes.callers }
    requires closed { HasNoPass token.old.view }
    requires limit { made moves token.old.view.number token.old.view.front < most_moves }
    requires limbo { IsRoomyLimbo limbo.old token.old.view }
    ensures table { IsOf table.now token.new }
    ensures tidied { HasTidied limbo.old limbo.new token.old.view token.new.view }
{
    advance(table, token);
    give_ripe(table, token, limbo);
}

/// Closes the pass. If the hand retired a node since it began, the epoch is then moved on once, if that can be, and
/// nodes are given back, the oldest first, until none is ripe at an epoch loaded after that or a give-back is lost,
/// which takes a foreign event; else nothing more is done. O(1), and O(callers + nodes given back) if it retired. The
/// pass is open, and the token has moved the epoch fewer than 2^34 times.
pub fn finish(table: &GraphTable, hand: &mut Hand)
    requires hand { IsHandOf table.now hand.old }
    requires pass { HasPass hand.old.token.view }
    requires limit { made moves hand.old.token.view.number hand.old.token.view.front < most_moves }
    ensures hand { IsHandOf table.now hand.new }
    ensures order { IsInOrder hand.old → IsInOrder hand.new }
    ensures finished { IsFinished hand.old hand.new }
{
    close_pass(table, &mut hand.token);
    if hand.retired {
        hand.retired = false;
        tidy(table, &mut hand.token, &mut hand.limbo);
    }
}

/// Moves the epoch on twice, each time if that can be: O(callers). The caller has no open pass, and has moved the epoch
/// fewer than 2^34 - 1 times.
fn advance_twice(table: &GraphTable, token: &mut Token)
    requires table { IsOf table.now token.old }
    requires number { token.old.view.numbered ≡ true }
    requires there { token.old.view.number < token.old.view.sizes.callers }
    requires closed { HasNoPass token.old.view }
    requires limit { made moves token.old.view.number token.old.view.front + 1 < most_moves }
    ensures table { IsOf table.now token.new }
    ensures twice { HasMovedTwice token.old.view token.new.view }
{
    let _first = advance(table, token);
    let _second = advance(table, token);
}

/// Moves the epoch on twice, each time if that can be, and then gives back ripe nodes, the oldest first, and does
/// nothing else: O(callers + nodes given back). `Done` tells an epoch that was loaded after the moves; no node of the
/// limbo is ripe at it, and the limbo is empty if no other caller's pass lagged. A lost give-back is a lost try, and
/// starts giving back anew; `Again` comes only if as many tries were lost as were given, each with a foreign event of
/// its own after the moves. `Worn` comes exactly if the hand has had 4,294,967,296 uses; nothing is done then. It
/// counts one use. The hand is in order and has no open pass.
pub fn settle(table: &GraphTable, hand: &mut Hand, tries: u32) -> Settled
    requires hand { IsHandOf table.now hand.old }
    requires closed { HasNoPass hand.old.token.view }
    requires order { IsInOrder hand.old }
    requires some { 0 < tries }
    ensures hand { IsHandOf table.now hand.new }
    ensures order { IsInOrder hand.new }
    ensures closed { HasNoPass hand.new.token.view }
    ensures settled { MatchSettled result tries hand.old hand.new }
{
    if hand.uses == USES {
        return Settled::Worn;
    }
    hand.uses += 1;
    advance_twice(table, &mut hand.token);
    let mut lost = 0u32;
    loop {
        let (epoch, none_ripe) = give_ripe(table, &mut hand.token, &mut hand.limbo);
        if none_ripe {
            return Settled::Done(epoch);
        }
        lost += 1;
        if lost == tries {
            return Settled::Again;
        }
    }
}
