//! A spent node is retired, the epoch is moved on, and the node is stored for the free list.

ghost use Rattle.std.specs.Prelude.{◌≡◌, ◌≤◌, ◌+◌, true, false, None, IfSome, IsNone};
ghost use Rattle.packed_link.specs.Layout.{epoch_at};
ghost use Rattle.core_rule.specs.Fronts.{MayMoveEpoch, MayPushFree};
ghost use Rattle.core_rule.specs.OwnEvents.{move_event};
ghost use Rattle.core_rule.specs.Retired.{IsRetired};
ghost use Rattle.graph_table.specs.Tokens.{IsOf};
ghost use Rattle.graph_table.specs.Table.{MatchTried};
ghost use Rattle.table_calls.specs.Closing.{IsEarly, KeepsRetired};
ghost use Rattle.table_calls.specs.Edges.{IsDone};
ghost use Rattle.table_calls.specs.Resting.{IsResting, uses_of};

use graph_table::{GraphTable, Ripe, Spent, Token, Tried};
use packed_link::Link;

/// Stamps a spent node with the epoch, which is loaded.
pub fn retire(table: &GraphTable, token: &mut Token, spent: Spent) -> Ripe
    requires table { IsOf table.now token.old }
    requires resting { IsResting true token.old.view }
    requires done { IsDone token.old.view spent }
    ensures table { IsOf table.now token.new }
    ensures resting { IsResting true token.new.view }
    ensures life { result.life ≡ spent }
    ensures retired { IsRetired None token.new.view result.life result.stamp }
    ensures uses { uses_of token.new.view ≡ uses_of token.old.view }
{
    let layout = table.layout();
    let epoch = table.load(token, layout.epoch_at());
    spent.ripen(epoch)
}

/// Moves the epoch on, where it's still the one seen.
pub fn move_on(table: &GraphTable, token: &mut Token, seen: u64) -> Tried
    requires table { IsOf table.now token.old }
    requires resting { IsResting false token.old.view }
    requires may { MayMoveEpoch token.old.view seen }
    ensures table { IsOf table.now token.new }
    ensures resting { IsResting false token.new.view }
    ensures tried { MatchTried result token.old.view (epoch_at table.now.sizes) seen
        (move_event token.old.view seen) token.new.view }
    ensures keeps { KeepsRetired token.old.view token.new.view }
    ensures uses { uses_of token.new.view ≤ uses_of token.old.view + 1 }
{
    table.move_epoch(token, seen)
}

/// Loads the epoch and the word of the free list, and stores a retired node's link for it: that word. `None` comes
/// where the epoch isn't two above the stamp.
pub fn store_ripe(table: &GraphTable, token: &mut Token, ripe: &Ripe) -> Option<Link>
    requires table { IsOf table.now token.old }
    requires resting { IsResting false token.old.view }
    requires retired { IsRetired None token.old.view ripe.now.life ripe.now.stamp }
    ensures table { IsOf table.now token.new }
    ensures resting { IsResting false token.new.view }
    ensures may { IfSome result (λ seen. MayPushFree token.new.view seen.0 ripe.now.life) }
    ensures none { IsNone result → IsEarly token.new.view ripe.now.stamp }
    ensures uses { uses_of token.new.view ≡ uses_of token.old.view }
{
    let layout = table.layout();
    let epoch = table.load(token, layout.epoch_at());
    let stamp = ripe.stamp();
    if epoch < 2 || epoch - 2 < stamp {
        return None;
    }
    let seen = Link(table.load(token, layout.free_at()));
    let next = seen.index();
    table.store_free(token, ripe, next);
    Some(seen)
}
