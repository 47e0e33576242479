//! A pass is opened and closed by a token that rests.

ghost use Rattle.std.specs.Prelude.{◌≡◌, ◌∷◌, ℕ, [], true, false};
ghost use Rattle.core_rule.specs.OwnEvents.{announce_event, withdraw_event};
ghost use Rattle.core_stretches.specs.Makes.{Makes};
ghost use Rattle.graph_table.specs.Tokens.{IsOf};
ghost use Rattle.layer_rows.specs.Rows.{IsAtWork, IsIdle, IsRenewed, taken_by};
ghost use Rattle.table_calls.specs.Resting.{IsResting};

use epoch_limbo::{close_pass, open_pass};
use graph_table::{GraphTable, Token};

/// Opens the pass of the token's caller.
pub fn begin_pass(table: &GraphTable, token: &mut Token)
    requires table { IsOf table.now token.old }
    requires resting { IsResting false token.old.view }
    ensures table { IsOf table.now token.new }
    ensures makes { (epoch : ℕ) × Makes token.old.view (announce_event token.old.view epoch ∷ []) token.new.view }
    ensures resting { IsResting true token.new.view }
    ensures idle { IsIdle token.old.view token.new.view }
{
    open_pass(table, token);
}

/// Closes the pass of the token's caller.
pub fn end_pass(table: &GraphTable, token: &mut Token)
    requires table { IsOf table.now token.old }
    requires resting { IsResting true token.old.view }
    ensures table { IsOf table.now token.new }
    ensures makes { Makes token.old.view (withdraw_event token.old.view ∷ []) token.new.view }
    ensures resting { IsResting false token.new.view }
    ensures idle { IsIdle token.old.view token.new.view }
{
    close_pass(table, token);
}

/// Closes the pass of a token at work, and opens the next one.
pub fn renew(table: &GraphTable, token: &mut Token)
    requires table { IsOf table.now token.old }
    requires work { IsAtWork token.old.view }
    ensures table { IsOf table.now token.new }
    ensures makes { IsRenewed token.old.view token.new.view }
    ensures work { IsAtWork token.new.view }
    ensures taken { taken_by token.new.view ≡ taken_by token.old.view }
{
    end_pass(table, token);
    begin_pass(table, token);
}
