//! The steps on passes and on the epoch.
//!
//! A caller announces an epoch that it loaded before it walks, and withdraws the announcement after that, so that a
//! node is given again only where no open pass may hold it (Fraser 2004).

ghost use Rattle.std.specs.Prelude.{◌≡◌, true};
ghost use Rattle.packed_link.specs.Layout.{epoch_at};
ghost use Rattle.core_rule.specs.Fronts.{MayAnnounce, MayMoveEpoch, MayWithdraw};
ghost use Rattle.core_rule.specs.OwnEvents.{announce_event, move_event, withdraw_event};
ghost use Rattle.core_rule.specs.Plays.{Stored};
ghost use Rattle.graph_table.specs.Tokens.{IsOf};
ghost use Rattle.graph_table.specs.Table.{MatchTried};

use crate::answers::Tried;
use crate::table::{GraphTable, Token};
use packed_link::Life;
use std::marker::Brand;

impl GraphTable {
    /// Opens the pass of the token's caller by announcing an epoch that the token loaded, in O(1). The announcement is
    /// one above the epoch, since 0 is none.
    pub fn announce(&self, token: &mut Token, epoch: u64)
        requires table { IsOf self.now token.old }
        requires number { token.old.view.numbered ≡ true }
        requires may { MayAnnounce token.old.view epoch }
        ensures stored { Stored token.old.view (announce_event token.old.view epoch) token.new.view }
        ensures table { IsOf self.now token.new }
    {
        let place = self.layout.announce_at(token.number());
        let none = Life { index: 0, tag: 0 };
        self.put::<Brand>(token, place, epoch + 1, none, epoch);
    }

    /// Ends the open pass of the token's caller by withdrawing its announcement, in O(1).
    pub fn withdraw(&self, token: &mut Token)
        requires table { IsOf self.now token.old }
        requires number { token.old.view.numbered ≡ true }
        requires may { MayWithdraw token.old.view }
        ensures stored { Stored token.old.view (withdraw_event token.old.view) token.new.view }
        ensures table { IsOf self.now token.new }
    {
        let place = self.layout.announce_at(token.number());
        let none = Life { index: 0, tag: 0 };
        self.put::<Brand>(token, place, 0, none, 0);
    }

    /// Moves the epoch on by one, where it's still `seen`, in O(1). `Lost` comes where it's another one. The token has
    /// no open pass, and after it loaded `seen` it found each announcement 0 or above `seen`.
    pub fn move_epoch(&self, token: &mut Token, seen: u64) -> Tried
        requires table { IsOf self.now token.old }
        requires number { token.old.view.numbered ≡ true }
        requires may { MayMoveEpoch token.old.view seen }
        ensures tried { MatchTried result token.old.view (epoch_at self.now.sizes) seen
            (move_event token.old.view seen) token.new.view }
        ensures table { IsOf self.now token.new }
    {
        let place = self.layout.epoch_at();
        let none = Life { index: 0, tag: 0 };
        let found = self.exchange::<Brand>(token, place, seen, seen + 1, none, none, 0);
        if found == seen {
            Tried::Won
        } else {
            Tried::Lost(found)
        }
    }
}
