//! A caller of a shared graph.

ghost use Rattle.std.specs.Prelude.{◌≡◌};
ghost use Rattle.shared_graph.specs.Callers.{IsBetweenCalls};

use graph_table::Token;
use graph_updates::Hand;
use std::marker::Model;

/// One caller of a graph: a hand that is in order and has no open pass.
#[derive(Drop)]
pub struct Caller {
    pub(crate) hand: Hand,
}

impl Model for Caller {
    ghost use Rattle.std.specs.Prelude.{[]};
    ghost use Rattle.shared_graph.specs.Callers.{CallerValue, IsBetweenCalls};

    ghost Value = { CallerValue };

    ghost view = { λ c. record { hand = c.hand; keys = []; ends = [] } };

    ghost invariant = { λ c. IsBetweenCalls c.hand };
}

impl Caller {
    /// The caller's number, in O(1).
    pub fn number(&self) -> u32
        ensures number { result ≡ self.now.hand.token.view.number }
    {
        self.hand.number()
    }

    /// How many uses the caller has had, in O(1).
    pub fn uses(&self) -> u64
        ensures uses { result ≡ self.now.hand.uses }
    {
        self.hand.uses()
    }

    // Outside its calls a caller is between two calls: for contracts alone.
    pub(crate) fn rests(&self)
        ensures { IsBetweenCalls self.now.hand }
    {
        let _hand = &self.hand;
    }

    /// Gives the caller's token up, in O(1): the caller was between two calls.
    pub(crate) fn into_token(self) -> Token
        ensures token { result ≡ self.hand.token }
        ensures between { IsBetweenCalls self.hand }
    {
        let Caller { hand } = self;
        hand.into_token()
    }
}
