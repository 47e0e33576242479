//! The second part of a round, without a pass: the epoch is moved on, and ripe nodes are given back.

ghost use Rattle.std.specs.Prelude.{◌≡◌, ◌<◌, ◌≤◌, ◌+◌, cond, true, false, length};
ghost use Rattle.core_journal.specs.Event.{moves};
ghost use Rattle.core_kept.specs.Counts.{made, most_moves};
ghost use Rattle.core_rule.specs.Retired.{IsShown};
ghost use Rattle.core_stretches.specs.Holdings.{HasNoPass};
ghost use Rattle.free_list_rounds.specs.Rounds.{CountsGo, LimboHoldsAll, SparesGo, WorkGoes};
ghost use Rattle.graph_table.specs.Tokens.{IsOf};

use epoch_limbo::{Limbo, advance};
use graph_table::{GraphTable, Token};
use node_arena::{Given, give_back};

/// Gives the oldest node of the limbo back, where it's ripe. Answers whether it did; where another caller changed the
/// free list, the node is put back.
fn give_one(table: &GraphTable, token: &mut Token, limbo: &mut Limbo, epoch: u64) -> bool
    requires table { IsOf table.now token.old }
    requires number { token.old.view.numbered ≡ true }
    requires closed { HasNoPass token.old.view }
    requires work { LimboHoldsAll limbo.old token.old.view }
    requires shown { IsShown token.old.view epoch }
    ensures table { IsOf table.now token.new }
    ensures number { token.new.view.numbered ≡ true }
    ensures closed { HasNoPass token.new.view }
    ensures work { LimboHoldsAll limbo.new token.new.view }
    ensures shown { IsShown token.new.view epoch }
    ensures spare { SparesGo token.old.view token.new.view }
    ensures counts { CountsGo 0 (cond result 1 0) 0 token.old.view token.new.view }
{
    let Some(ripe) = limbo.ripe(token, epoch) else {
        return false;
    };
    match give_back(table, token, ripe) {
        Given::Done => true,
        Given::Lost(ripe) => {
            limbo.put_back(ripe);
            false
        }
    }
}

/// Gives ripe nodes of the limbo back, until none is left or another caller changed the free list. Answers how many it
/// gave back.
fn give_ripe(table: &GraphTable, token: &mut Token, limbo: &mut Limbo) -> u32
    requires table { IsOf table.now token.old }
    requires number { token.old.view.numbered ≡ true }
    requires closed { HasNoPass token.old.view }
    requires work { LimboHoldsAll limbo.old token.old.view }
    ensures table { IsOf table.now token.new }
    ensures number { token.new.view.numbered ≡ true }
    ensures closed { HasNoPass token.new.view }
    ensures work { LimboHoldsAll limbo.new token.new.view }
    ensures spare { SparesGo token.old.view token.new.view }
    ensures counts { CountsGo 0 result 0 token.old.view token.new.view }
{
    let layout = table.layout();
    let epoch = table.load(token, layout.epoch_at());
    let most = limbo.len();
    for given in 0..most {
        if !give_one(table, token, limbo, epoch) {
            return given;
        }
    }
    most
}

/// Moves the epoch on, where that can be, and gives ripe nodes back, in O(callers + nodes in limbo). The caller has no
/// open pass, and has moved the epoch fewer than 2^34 times. Answers how many nodes it gave back.
pub fn settle(table: &GraphTable, token: &mut Token, limbo: &mut Limbo) -> u32
    requires table { IsOf table.now token.old }
    requires number { token.old.view.numbered ≡ true }
    requires closed { HasNoPass token.old.view }
    requires work { LimboHoldsAll limbo.old token.old.view }
    requires limit { made moves token.old.view.number token.old.view.front < most_moves }
    ensures table { IsOf table.now token.new }
    ensures number { token.new.view.numbered ≡ true }
    ensures closed { HasNoPass token.new.view }
    ensures work { LimboHoldsAll limbo.new token.new.view }
    ensures spare { SparesGo token.old.view token.new.view }
    ensures counts { CountsGo 0 result 1 token.old.view token.new.view }
{
    advance(table, token);
    give_ripe(table, token, limbo)
}
