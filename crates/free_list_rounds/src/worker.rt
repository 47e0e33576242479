//! A caller at work, between two of its rounds.

ghost use Rattle.std.specs.Prelude.{◌≡◌, ◌+◌, ◌<◌, ◌≤◌, ◌^◌, ◌↔◌, [], true, false, IsTrue};
ghost use Rattle.free_list_rounds.specs.Rounds.{IsBetweenRounds};
ghost use Rattle.graph_table.specs.Tokens.{IsOf};

use epoch_limbo::Limbo;
use graph_table::{Fresh, GraphTable, Token};
use std::marker::Model;

/// A caller at work: its token, the nodes that it spent, the node that it took and didn't link yet, how many rounds it
/// has made, and how many nodes it has taken from the free list and given back.
#[derive(Drop)]
pub struct Worker {
    pub(crate) token: Token,
    pub(crate) limbo: Limbo,
    pub(crate) spare: Option<Fresh>,
    pub(crate) rounds: u32,
    pub(crate) taken: u32,
    pub(crate) given: u64,
}

impl Model for Worker {
    ghost use Rattle.free_list_rounds.specs.Rounds.{WorkerValue};

    ghost Value = { WorkerValue };

    ghost view = { λ c. record {
      token = c.token;
      limbo = c.limbo;
      spare = c.spare;
      rounds = c.rounds;
      taken = c.taken;
      given = c.given;
    } };
}

impl Worker {
    /// How many nodes it holds: those in limbo and the spare one, in O(1).
    pub fn held(&self) -> u64
        ensures limit { result ≤ 2 ^ 32 }
    {
        let spare = match &self.spare {
            Some(_) => 1,
            None => 0,
        };
        u64::from(self.limbo.len()) + spare
    }

    /// How many nodes it has taken from the free list, in O(1).
    pub fn taken(&self) -> u32
        ensures taken { result ≡ self.now.taken }
    {
        self.taken
    }

    /// How many nodes it has given back, in O(1).
    pub fn given(&self) -> u64
        ensures given { result ≡ self.now.given }
    {
        self.given
    }

    /// Whether it has taken so many nodes, and given back so many.
    pub(crate) fn has_turned_over(&self, taken: u64, given: u64) -> bool
        ensures reached { IsTrue result ↔ (taken ≤ self.now.taken) × (given ≤ self.now.given) }
    {
        taken <= u64::from(self.taken) && given <= self.given
    }
}

/// A token draws its number and becomes a caller that has made no round; another token is split off it, with the right
/// to draw the next number. The limbo is empty and has room for all nodes.
pub fn enter(table: &GraphTable, token: Token, limbo: Limbo) -> (Worker, Token)
    requires table { IsOf table.now token }
    requires right { token.view.draws ≡ true }
    requires none { token.view.numbered ≡ false }
    requires left { token.view.drawn < token.view.sizes.callers }
    requires empty { limbo.nodes ≡ [] }
    requires room { table.now.sizes.nodes ≤ limbo.room }
    ensures table { IsOf table.now result.0.token }
    ensures between { IsBetweenRounds result.0 }
    ensures rounds { result.0.rounds ≡ 0 }
    ensures taken { result.0.taken ≡ 0 }
    ensures given { result.0.given ≡ 0 }
    ensures other { IsOf table.now result.1 }
    ensures right { result.1.view.draws ≡ true }
    ensures none { result.1.view.numbered ≡ false }
    ensures drawn { result.1.view.drawn ≡ token.view.drawn + 1 }
{
    let mut token = token;
    table.draw_number(&mut token);
    let other = table.split_token(&mut token);
    let caller = Worker {
        token,
        limbo,
        spare: None,
        rounds: 0,
        taken: 0,
        given: 0,
    };
    (caller, other)
}
