//! The epoch is moved on.

ghost use Rattle.std.specs.Prelude.{◌≡◌, ◌<◌, true};
ghost use Rattle.core_journal.specs.Event.{moves};
ghost use Rattle.core_kept.specs.Counts.{made, most_moves};
ghost use Rattle.core_stretches.specs.Holdings.{HasNoPass};
ghost use Rattle.epoch_limbo.specs.Advances.{MatchAdvanced};
ghost use Rattle.graph_table.specs.Tokens.{IsOf};

use graph_table::{GraphTable, Token, Tried};
use std::snapshot::Snapshot;

/// What became of moving the epoch on: this call moved it by one; the announcement of this caller was older than the
/// epoch that the call had loaded; or the epoch had moved since the call loaded it.
#[derive(Clone, Copy, Debug, PartialEq, Eq)]
pub enum Advanced {
    Moved,
    Held(u32),
    Lost,
}

/// Moves the epoch on by one, in O(callers): a load of the epoch, one of each announcement in the order of callers,
/// and an exchange. `Held` tells the first caller whose announcement showed an epoch below the one loaded; no
/// exchange is made then. `Lost` comes where the epoch had moved. The token's caller has no open pass, and has moved
/// the epoch fewer than 2^34 times.
pub fn advance(table: &GraphTable, token: &mut Token) -> Advanced
    requires table { IsOf table.now token.old }
    requires number { token.old.view.numbered ≡ true }
    requires there { token.old.view.number < token.old.view.sizes.callers }
    requires closed { HasNoPass token.old.view }
    requires limit { made moves token.old.view.number token.old.view.front < most_moves }
    ensures table { IsOf table.now token.new }
    ensures advanced { MatchAdvanced result token.old.view token.new.view }
{
    let layout = table.layout();
    let epoch = table.load(token, layout.epoch_at());
    let first = Snapshot::of(&*token);
    let callers = layout.callers();
    let mut caller = 0u32;
    while caller < callers {
        let word = table.load(token, layout.announce_at(caller));
        if word != 0 && word <= epoch {
            return Advanced::Held(caller);
        }
        caller += 1;
    }
    match table.move_epoch(token, epoch) {
        Tried::Won => Advanced::Moved,
        Tried::Lost(_) => Advanced::Lost,
    }
}
