//! A hand is made: its token draws its number.

ghost use Rattle.std.specs.Prelude.{◌≡◌, [], true, false, IfOk, IfErr};
ghost use Rattle.core_stretches.specs.Holdings.{HasNoPass};
ghost use Rattle.graph_table.specs.Tokens.{IsOf};
ghost use Rattle.graph_updates.specs.Hands.{IsHandOf, IsInOrder};
ghost use Rattle.graph_updates.specs.Opening.{IsNew, IsTokenRefused};

use crate::hand::Hand;
use epoch_limbo::Limbo;
use graph_table::{GraphTable, Token};
use std::alloc::Global;

/// Why a hand wasn't made: there's no memory for its limbo, or all numbers of callers are drawn.
#[derive(Clone, Copy, Debug, Drop, PartialEq, Eq)]
pub enum HandCause {
    Memory,
    NoNumber,
}

/// A refusal, with the token that was handed in.
#[derive(Drop)]
pub struct HandRefused {
    pub token: Token,
    pub cause: HandCause,
}

impl Hand {
    /// A hand of a token that has the right to draw and no number, in O(1): it takes the memory of its limbo, which has
    /// room for all nodes, then loads how many numbers are drawn, and draws the next one. Its token has the right to
    /// draw still. The token's book is empty.
    ///
    /// # Errors
    /// `Memory` where there's no room for the limbo, and `NoNumber` exactly where this call found as many numbers drawn
    /// as there are callers. The token comes back with what it has seen, and has made no event.
    pub fn new(alloc: Global, table: &GraphTable, token: Token) -> Result<Hand, HandRefused>
        requires table { IsOf table.now token }
        requires right { token.view.draws ≡ true }
        requires none { token.view.numbered ≡ false }
        requires empty { token.view.book ≡ [] }
        ensures hand { IfOk result (λ hand. IsHandOf table.now hand) }
        ensures closed { IfOk result (λ hand. HasNoPass hand.token.view) }
        ensures order { IfOk result (λ hand. IsInOrder hand) }
        ensures new { IfOk result (λ hand. IsNew token.view hand) }
        ensures refused { IfErr result (λ refusal. IsTokenRefused table.now token.view refusal) }
    {
        let layout = table.layout();
        let mut token = token;
        let Ok(limbo) = Limbo::new(alloc, layout.nodes()) else {
            return Err(HandRefused {
                token,
                cause: HandCause::Memory,
            });
        };
        let drawn = table.load(&mut token, layout.number_at());
        if drawn == u64::from(layout.callers()) {
            return Err(HandRefused {
                token,
                cause: HandCause::NoNumber,
            });
        }
        table.draw_number(&mut token);
        Ok(Hand {
            token,
            limbo,
            spare: None,
            uses: 0,
            retired: false,
        })
    }
}
