//! The limbo: the spent nodes of one caller, the oldest first.

ghost use Rattle.std.specs.Prelude.{◌≡◌, ◌<◌, ◌≤◌, [], true, length, None};
ghost use Rattle.std.specs.Result.{IfOk};
ghost use Rattle.core_stretches.specs.Makes.{Makes};
ghost use Rattle.epoch_limbo.specs.Limbos.{IsLimboOf, IsPutBack, IsRetiredInto, IsStampAt, MatchRipe};
ghost use Rattle.core_rule.specs.Retired.{IsShown};
ghost use Rattle.graph_table.specs.Tokens.{IsOf};

use graph_kinds::Memory;
use graph_table::{GraphTable, Ripe, Spent, Token};
use std::alloc::Global;
use std::collections::VecDeque;
use std::marker::Model;

// A node is ripe for the free list this many epochs behind its stamp.
const RIPE: u64 = 2;

/// Spent nodes with their stamps, in a queue of fixed room, the oldest first.
#[derive(Drop)]
pub struct Limbo {
    nodes: VecDeque<Ripe, Global>,
    room: u32,
}

impl Model for Limbo {
    ghost use Rattle.std.specs.Prelude.{◌<◌, ◌≤◌, ◌^◌, length};
    ghost use Rattle.std.specs.VecDeque.{deque_capacity};
    ghost use Rattle.epoch_limbo.specs.Limbos.{LimboValue};

    ghost Value = { LimboValue };

    ghost view = { λ l. record { nodes = l.nodes.items; room = l.room } };

    ghost invariant = { λ l. (length l.nodes.items ≤ l.room) × (l.room ≤ deque_capacity l.nodes) × (l.room < 2 ^ 32) };
}

impl Limbo {
    /// An empty limbo with room for so many nodes, which is the only memory that it takes: O(1), for no room is touched
    /// before it's used. `Memory` is for want of it.
    pub fn new(alloc: Global, nodes: u32) -> Result<Limbo, Memory>
        ensures made { IfOk result (λ limbo. limbo ≡ record { nodes = []; room = nodes }) }
    {
        match VecDeque::with_capacity(alloc, nodes as usize) {
            Ok(queue) => Ok(Limbo {
                nodes: queue,
                room: nodes,
            }),
            Err(_) => Err(Memory),
        }
    }

    /// Keeps a spent node behind the others, with the epoch that this call loads as its stamp, in O(1). There's room.
    /// Where the limbo was of the token and the node isn't in it, and the lists that may lead to the node are frozen to
    /// their ends, all but that which is being frozen, the limbo is of the token.
    pub fn retire(&mut self, table: &GraphTable, token: &mut Token, spent: Spent)
        requires table { IsOf table.now token.old }
        requires number { token.old.view.numbered ≡ true }
        requires room { length self.old.nodes < self.old.room }
        ensures table { IsOf table.now token.new }
        ensures makes { Makes token.old.view [] token.new.view }
        ensures retired { IsRetiredInto self.old self.new token.old.view token.new.view spent }
    {
        let layout = table.layout();
        let epoch = table.load(token, layout.epoch_at());
        self.nodes.push_back_reserved(spent.ripen(epoch));
    }

    /// Takes out the oldest node, where its stamp and two are at most this epoch, in O(1): it's ripe then, and may be
    /// given back. `None` comes exactly where no node of the limbo has such a stamp. The token's front has shown this
    /// epoch, and the limbo is of the token.
    pub fn ripe(&mut self, token: &Token, epoch: u64) -> Option<Ripe>
        requires shown { IsShown token.now.view epoch }
        requires limbo { IsLimboOf None token.now.view self.old.nodes }
        ensures ripe { MatchRipe result self.old self.new token.now.view epoch }
    {
        let Some(first) = self.nodes.get(0) else {
            return None;
        };
        let age = epoch.saturating_sub(first.stamp());
        if age < RIPE {
            return None;
        }
        self.nodes.pop_front()
    }

    /// Makes a node the oldest again, in O(1). There's room. Where the limbo was of a token, the node isn't in it and
    /// has no later stamp than the oldest, and is retired for that token, the limbo is of the token.
    pub fn put_back(&mut self, ripe: Ripe)
        requires room { length self.old.nodes < self.old.room }
        ensures back { IsPutBack self.old self.new ripe }
    {
        self.nodes.push_front_reserved(ripe);
    }

    /// How many nodes there are, in O(1).
    pub fn len(&self) -> u32
        ensures length { result ≡ length self.now.nodes }
    {
        self.nodes.len() as u32
    }

    /// The stamp at a place, in O(1). Where the limbo is of a token, stamps rise with the place.
    pub fn stamp_at(&self, place: u32) -> u64
        requires there { place < length self.now.nodes }
        ensures stamp { IsStampAt self.now.nodes place result }
    {
        self.nodes[place as usize].stamp()
    }
}
