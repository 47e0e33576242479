//! A pass is opened and closed.

ghost use Rattle.std.specs.Prelude.{◌≡◌, ◌<◌, ◌∷◌, [], true};
ghost use Rattle.core_rule.specs.OwnEvents.{withdraw_event};
ghost use Rattle.core_rule.specs.Stretches.{HasPass};
ghost use Rattle.core_stretches.specs.Holdings.{HasNoPass};
ghost use Rattle.core_stretches.specs.Makes.{Makes};
ghost use Rattle.epoch_limbo.specs.Passes.{IsOpened};
ghost use Rattle.graph_table.specs.Tokens.{IsOf};

use graph_table::{GraphTable, Token};

/// Opens the pass of the token's caller, in O(1): a load of the epoch and a store. It's never refused.
pub fn open_pass(table: &GraphTable, token: &mut Token)
    requires table { IsOf table.now token.old }
    requires number { token.old.view.numbered ≡ true }
    requires there { token.old.view.number < token.old.view.sizes.callers }
    requires closed { HasNoPass token.old.view }
    ensures table { IsOf table.now token.new }
    ensures opened { IsOpened token.old.view token.new.view }
{
    let layout = table.layout();
    let epoch = table.load(token, layout.epoch_at());
    table.announce(token, epoch);
}

/// Closes the open pass of the token's caller, in O(1): one store. It's never refused.
pub fn close_pass(table: &GraphTable, token: &mut Token)
    requires table { IsOf table.now token.old }
    requires number { token.old.view.numbered ≡ true }
    requires there { token.old.view.number < token.old.view.sizes.callers }
    requires open { HasPass token.old.view }
    ensures table { IsOf table.now token.new }
    ensures makes { Makes token.old.view (withdraw_event token.old.view ∷ []) token.new.view }
    ensures closed { HasNoPass token.new.view }
{
    table.withdraw(token);
}
