//! A token waits until a node that it buried is ripe: it closes its pass, moves the epoch on, and asks its limbo.

ghost use Rattle.std.specs.Prelude.{◌≡◌, ◌<◌, ◌+◌, true, false};
ghost use Rattle.epoch_limbo.specs.Advances.{MatchAdvanced};
ghost use Rattle.graph_table.specs.Tokens.{IsOf};
ghost use Rattle.layer_rows.specs.Rows.{IsAskedFor, IsWaiting};

use epoch_limbo::{Advanced, Limbo, advance, close_pass};
use graph_table::{GraphTable, Ripe, Token};

/// Closes the pass in which the token buried its nodes. Its limbo is its own still.
pub fn leave(table: &GraphTable, token: &mut Token, limbo: &Limbo, _moves: u32)
    requires table { IsOf table.now token.old }
    requires waiting { IsWaiting true _moves token.old.view limbo.now.nodes }
    ensures table { IsOf table.now token.new }
    ensures waiting { IsWaiting false _moves token.new.view limbo.now.nodes }
{
    close_pass(table, token);
}

/// Moves the epoch on by one, where no announcement holds it. The limbo is the token's own still.
pub fn move_on(table: &GraphTable, token: &mut Token, limbo: &Limbo, _moves: u32) -> Advanced
    requires table { IsOf table.now token.old }
    requires waiting { IsWaiting false _moves token.old.view limbo.now.nodes }
    requires few { _moves < 1000 }
    ensures table { IsOf table.now token.new }
    ensures waiting { IsWaiting false (_moves + 1) token.new.view limbo.now.nodes }
    ensures advanced { MatchAdvanced result token.old.view token.new.view }
{
    advance(table, token)
}

/// Loads the epoch, and takes the oldest node out of the limbo where it's ripe then.
pub fn take_ripe(
    table: &GraphTable,
    token: &mut Token,
    limbo: &mut Limbo,
    _moves: u32,
) -> Option<Ripe>
    requires table { IsOf table.now token.old }
    requires waiting { IsWaiting false _moves token.old.view limbo.old.nodes }
    ensures table { IsOf table.now token.new }
    ensures waiting { IsWaiting false _moves token.new.view limbo.new.nodes }
    ensures asked { IsAskedFor result limbo.old limbo.new token.old.view token.new.view }
{
    let layout = table.layout();
    let epoch = table.load(token, layout.epoch_at());
    limbo.ripe(token, epoch)
}
