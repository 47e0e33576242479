//! What a hand does between its calls: it looks at the table and makes no event.

ghost use Rattle.std.specs.Prelude.{◌≡◌, IfOk};
ghost use Rattle.core_journal.specs.GraphOf.{graph_of};
ghost use Rattle.core_journal.specs.Prefix.{IsPrefix};
ghost use Rattle.core_rule.specs.Plays.{newcomer};
ghost use Rattle.core_stretches.specs.Holdings.{HasNoPass};
ghost use Rattle.graph_table.specs.Tokens.{IsOf};
ghost use Rattle.graph_updates.specs.Hands.{IsHandOf, IsInOrder};
ghost use Rattle.shared_graph.specs.Looking.{HandLooksOn};

use crate::reading::read;
use graph_kinds::Memory;
use graph_table::{GraphTable, Token};
use graph_updates::Hand;
use plain_graph::PlainGraph;
use std::alloc::Global;

/// Copies what the hand has seen, in O(1): a new token with its front.
pub(crate) fn copy_front(table: &GraphTable, hand: &mut Hand) -> Token
    requires hand { IsHandOf table.now hand.old }
    requires closed { HasNoPass hand.old.token.view }
    requires order { IsInOrder hand.old }
    ensures hand { IsHandOf table.now hand.new }
    ensures closed { HasNoPass hand.new.token.view }
    ensures order { IsInOrder hand.new }
    ensures looks { HandLooksOn hand.old hand.new }
    ensures token { IsOf table.now result }
    ensures view { result.view ≡ newcomer hand.old.token.view }
{
    table.split_token(hand.token())
}

/// Meets what another token has seen, in O(1): its front begins the hand's new one.
pub(crate) fn meet_front(table: &GraphTable, hand: &mut Hand, other: Token)
    requires hand { IsHandOf table.now hand.old }
    requires closed { HasNoPass hand.old.token.view }
    requires order { IsInOrder hand.old }
    requires other { IsOf table.now other }
    ensures hand { IsHandOf table.now hand.new }
    ensures closed { HasNoPass hand.new.token.view }
    ensures order { IsInOrder hand.new }
    ensures looks { HandLooksOn hand.old hand.new }
    ensures met { IsPrefix other.view.front hand.new.token.view.front }
{
    table.join_token(hand.token(), other);
}

/// Reads the graph that stands in the table, by loads of the hand's token.
pub(crate) fn read_front(
    table: &GraphTable,
    alloc: Global,
    hand: &mut Hand,
) -> Result<PlainGraph, Memory>
    requires hand { IsHandOf table.now hand.old }
    requires closed { HasNoPass hand.old.token.view }
    requires order { IsInOrder hand.old }
    ensures hand { IsHandOf table.now hand.new }
    ensures closed { HasNoPass hand.new.token.view }
    ensures order { IsInOrder hand.new }
    ensures looks { HandLooksOn hand.old hand.new }
    ensures graph { IfOk result (λ g. hand.new.token.view.front ≡ hand.old.token.view.front
        → g ≡ graph_of hand.old.token.view.front) }
{
    read(table, alloc, hand.token())
}
