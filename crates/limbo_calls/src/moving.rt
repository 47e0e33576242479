//! The epoch is moved on, and the ripe nodes of a limbo are taken out.

ghost use Rattle.std.specs.Prelude.{◌≡◌, ◌<◌, ◌≤◌, ◌+◌, false, length, IfSome, IsNone, None};
ghost use Rattle.core_stretches.specs.Holdings.{IsGivable};
ghost use Rattle.epoch_limbo.specs.Advances.{MatchAdvanced};
ghost use Rattle.epoch_limbo.specs.Limbos.{IsLimboOf};
ghost use Rattle.graph_table.specs.Tokens.{IsOf};
ghost use Rattle.limbo_calls.specs.Causes.{IsNoneRipeNow};
ghost use Rattle.limbo_calls.specs.Steady.{IsSteady};

use epoch_limbo::{Advanced, Limbo, advance};
use graph_table::{GraphTable, Ripe, Token};

/// Moves the epoch on by one. A limbo of the token is one still.
pub fn move_on(table: &GraphTable, token: &mut Token, limbo: &Limbo, _steps: u32) -> Advanced
    requires table { IsOf table.now token.old }
    requires steady { IsSteady false _steps token.old.view }
    requires limbo { IsLimboOf None token.old.view limbo.now.nodes }
    requires few { _steps < 1000 }
    ensures table { IsOf table.now token.new }
    ensures advanced { MatchAdvanced result token.old.view token.new.view }
    ensures steady { IsSteady false (_steps + 1) token.new.view }
    ensures limbo { IsLimboOf None token.new.view limbo.now.nodes }
{
    advance(table, token)
}

/// Loads the epoch and takes out the oldest node, where it's ripe then; and puts it back once, and takes it out again.
/// `None` comes only where no node of the limbo is ripe by that epoch.
pub fn take_ripe(
    table: &GraphTable,
    token: &mut Token,
    limbo: &mut Limbo,
    _steps: u32,
) -> Option<Ripe>
    requires table { IsOf table.now token.old }
    requires steady { IsSteady false _steps token.old.view }
    requires limbo { IsLimboOf None token.old.view limbo.old.nodes }
    requires room { length limbo.old.nodes ≤ limbo.old.room }
    ensures table { IsOf table.now token.new }
    ensures steady { IsSteady false _steps token.new.view }
    ensures limbo { IsLimboOf None token.new.view limbo.new.nodes }
    ensures room { length limbo.new.nodes ≤ limbo.new.room }
    ensures ripe { IfSome result (λ r. IsGivable token.new.view r.life) }
    ensures none { IsNone result → IsNoneRipeNow limbo.old limbo.new token.new.view }
{
    let layout = table.layout();
    let epoch = table.load(token, layout.epoch_at());
    match limbo.ripe(token, epoch) {
        Some(first) => {
            limbo.put_back(first);
            limbo.ripe(token, epoch)
        }
        None => None,
    }
}
