//! A hand: what one caller holds between its calls.

ghost use Rattle.std.specs.Prelude.{◌≡◌, is_some, length};
ghost use Rattle.std.specs.Borrow.{sem};
ghost use Rattle.graph_updates.specs.Lending.{LendsToken};

use epoch_limbo::Limbo;
use graph_table::{Fresh, Token};
use std::marker::Model;

/// A caller's token, the nodes that it spent and has not given back, the node that it took and didn't link yet, and how
/// many uses it has had.
#[derive(Drop)]
pub struct Hand {
    pub(crate) token: Token,
    pub(crate) limbo: Limbo,
    pub(crate) spare: Option<Fresh>,
    pub(crate) uses: u64,
    pub(crate) retired: bool,
}

impl Model for Hand {
    ghost use Rattle.std.specs.Prelude.{◌≤◌, ◌^◌};
    ghost use Rattle.graph_updates.specs.Hands.{HandValue};

    ghost Value = { HandValue };

    ghost view = { λ h. record {
      token = h.token;
      limbo = h.limbo;
      spare = h.spare;
      uses = h.uses;
      retired = h.retired;
    } };

    ghost invariant = { λ h. h.uses ≤ 2 ^ 32 };
}

impl Hand {
    /// The number of its caller, in O(1).
    pub fn number(&self) -> u32
        ensures number { result ≡ self.now.token.view.number }
    {
        self.token.number()
    }

    /// How many uses it has had, in O(1).
    pub fn uses(&self) -> u64
        ensures uses { result ≡ self.now.uses }
    {
        self.uses
    }

    /// How many nodes it has spent and not given back, in O(1).
    pub fn limbo_len(&self) -> u32
        ensures length { result ≡ length self.now.limbo.nodes }
    {
        self.limbo.len()
    }

    /// Whether it holds a node that it took and didn't link, in O(1).
    pub fn has_spare(&self) -> bool
        ensures spare { result ≡ is_some self.now.spare }
    {
        self.spare.is_some()
    }

    /// Lends the token for calls of the layers below, in O(1). Whoever steps with it may break the order of the hand,
    /// which each call of this crate keeps.
    pub fn token(&mut self) -> &mut Token
        ensures* writes_back { sem 𝓛 (LendsToken self.entry result) }
        ensures lent { result.now ≡ self.old.token }
    {
        &mut self.token
    }

    /// Gives the token up, in O(1); the nodes that the hand holds are its caller's still.
    pub fn into_token(self) -> Token
        ensures token { result ≡ self.token }
    {
        self.token
    }
}
