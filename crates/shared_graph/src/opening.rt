//! How a shared graph starts.

ghost use Rattle.std.specs.Prelude.{◌≡◌, ◌<◌, ◌≤◌, ◌+◌, ℕ, IfOk, slice_index_or, vec_len};
ghost use Rattle.shared_graph.specs.Callers.{CallerValue, IsHired};
ghost use Rattle.shared_graph.specs.Hiring.{IsToDraw};

use crate::caller::Caller;
use crate::graph::SharedGraph;
use crate::hands::copy_front;
use graph_kinds::Memory;
use graph_table::{GraphTable, Token};
use graph_updates::{Hand, HandCause};
use packed_link::Layout;
use std::alloc::Global;

impl SharedGraph {
    /// An empty graph and its callers, numbered from 0 in order: O(nodes + buckets + callers · nodes). There are at
    /// most 16 callers, 65,536 nodes and 65,536 buckets, and at least one of each.
    ///
    /// # Errors
    /// `Memory`.
    pub fn start(
        alloc: Global,
        callers: u32,
        nodes: u32,
        buckets: u32,
    ) -> Result<(SharedGraph, Vec<Caller>), Memory>
        requires some_callers { 1 ≤ callers }
        requires few_callers { callers ≤ 16 }
        requires some_nodes { 1 ≤ nodes }
        requires few_nodes { nodes ≤ 65536 }
        requires some_buckets { 1 ≤ buckets }
        requires few_buckets { buckets ≤ 65536 }
        ensures sizes { IfOk result
            (λ r. r.0.sizes ≡ record { callers = callers; nodes = nodes; buckets = buckets }) }
        ensures length { IfOk result (λ r. vec_len r.1 ≡ callers) }
        ensures callers { IfOk result (λ r. (i : ℕ) (d : CallerValue) → i < callers
            → IsHired r.0 i (slice_index_or r.1.items i d)) }
    {
        let (table, token) = GraphTable::new(alloc, Layout::new(callers, nodes, buckets))?;
        let graph = SharedGraph { table };
        let hired = graph.hire_all(alloc, token, callers)?;
        Ok((graph, hired))
    }

    /// So many callers, numbered from 0 in order. The token may draw numbers, and no number is drawn.
    fn hire_all(&self, alloc: Global, token: Token, callers: u32) -> Result<Vec<Caller>, Memory>
        requires next { IsToDraw self.now 0 token }
        requires room { callers ≤ self.now.sizes.callers }
        ensures length { IfOk result (λ hired. vec_len hired ≡ callers) }
        ensures callers { IfOk result (λ hired. (i : ℕ) (d : CallerValue) → i < callers
            → IsHired self.now i (slice_index_or hired.items i d)) }
    {
        let mut hired = Vec::new(alloc);
        let mut token = token;
        for _ in 0..callers {
            let (caller, next) = self.hire(alloc, token)?;
            token = next;
            if hired.push(caller).is_err() {
                return Err(Memory);
            }
        }
        Ok(hired)
    }

    /// The caller of the next number, and a token that may draw the one after it.
    fn hire(&self, alloc: Global, token: Token) -> Result<(Caller, Token), Memory>
        requires next { IsToDraw self.now token.view.drawn token }
        requires room { token.view.drawn < self.now.sizes.callers }
        ensures caller { IfOk result (λ r. IsHired self.now token.view.drawn r.0) }
        ensures next { IfOk result (λ r. IsToDraw self.now (token.view.drawn + 1) r.1) }
    {
        match Hand::new(alloc, &self.table, token) {
            Ok(hand) => {
                let mut hand = hand;
                let next = copy_front(&self.table, &mut hand);
                Ok((Caller { hand }, next))
            }
            Err(refused) => match refused.cause {
                HandCause::Memory => Err(Memory),
                HandCause::NoNumber => unreachable!(),
            },
        }
    }
}
