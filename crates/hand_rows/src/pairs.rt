//! Two hands on one table: the second is made of a token that is split off the first one's.

ghost use Rattle.std.specs.Prelude.{◌≡◌, [], true, false, None, IfOk};
ghost use Rattle.core_stretches.specs.Holdings.{HasNoPass};
ghost use Rattle.graph_table.specs.Tokens.{IsOf};
ghost use Rattle.graph_updates.specs.Hands.{IsHandOf, IsInOrder};

use graph_table::{GraphTable, Token};
use graph_updates::{Hand, HandRefused};
use std::alloc::Global;

/// Splits a token off that of a hand, with the right to draw if the hand's token had it; the hand is in order still.
pub fn split(table: &GraphTable, hand: &mut Hand) -> Token
    requires hand { IsHandOf table.now hand.old }
    requires closed { HasNoPass hand.old.token.view }
    requires order { IsInOrder hand.old }
    ensures hand { IsHandOf table.now hand.new }
    ensures closed { HasNoPass hand.new.token.view }
    ensures order { IsInOrder hand.new }
    ensures spare { hand.new.spare ≡ hand.old.spare }
    ensures token { IsOf table.now result }
    ensures right { result.view.draws ≡ hand.old.token.view.draws }
    ensures none { result.view.numbered ≡ false }
    ensures empty { result.view.book ≡ [] }
{
    table.split_token(hand.token())
}

/// Two hands, of which the second may be refused, and the token that was split off the second one's, with the right to
/// draw.
pub fn pair(
    alloc: Global,
    table: &GraphTable,
    token: Token,
) -> Result<(Hand, Hand, Token), HandRefused>
    requires table { IsOf table.now token }
    requires right { token.view.draws ≡ true }
    requires none { token.view.numbered ≡ false }
    requires empty { token.view.book ≡ [] }
    ensures one { IfOk result (λ all. IsHandOf table.now all.0) }
    ensures one_closed { IfOk result (λ all. HasNoPass all.0.token.view) }
    ensures one_order { IfOk result (λ all. IsInOrder all.0) }
    ensures one_bare { IfOk result (λ all. all.0.spare ≡ None) }
    ensures two { IfOk result (λ all. IsHandOf table.now all.1) }
    ensures two_closed { IfOk result (λ all. HasNoPass all.1.token.view) }
    ensures two_order { IfOk result (λ all. IsInOrder all.1) }
    ensures two_bare { IfOk result (λ all. all.1.spare ≡ None) }
    ensures left { IfOk result (λ all. IsOf table.now all.2) }
    ensures right { IfOk result (λ all. all.2.view.draws ≡ true) }
    ensures none { IfOk result (λ all. all.2.view.numbered ≡ false) }
    ensures empty { IfOk result (λ all. all.2.view.book ≡ []) }
{
    let mut one = Hand::new(alloc, table, token)?;
    let token = split(table, &mut one);
    let mut two = Hand::new(alloc, table, token)?;
    let left = split(table, &mut two);
    Ok((one, two, left))
}
