//! A hand that has had all its uses answers Worn and does nothing.

ghost use Rattle.std.specs.Prelude.{◌≡◌, ◌^◌};
ghost use Rattle.core_stretches.specs.Holdings.{HasNoPass};
ghost use Rattle.graph_updates.specs.Hands.{IsHandOf, IsInOrder};

use crate::{Begun, Hand, Settled, add_vertex, begin, has_vertex, remove_vertex, settle};
use graph_kinds::Outcome;
use graph_table::GraphTable;
use packed_link::Layout;

/// The hand, as if it had had all its uses.
fn worn(table: &GraphTable, hand: Hand) -> Hand
    requires hand { IsHandOf table.now hand }
    requires closed { HasNoPass hand.token.view }
    requires order { IsInOrder hand }
    ensures hand { IsHandOf table.now result }
    ensures closed { HasNoPass result.token.view }
    ensures order { IsInOrder result }
    ensures uses { result.uses ≡ 2 ^ 32 }
{
    table.layout();
    let Hand {
        token,
        limbo,
        spare,
        uses: _,
        retired,
    } = hand;
    Hand {
        token,
        limbo,
        spare,
        uses: 4_294_967_296,
        retired,
    }
}

#[test]
fn a_hand_that_has_had_all_its_uses_is_worn(rt: HostRuntime) {
    let (table, token) = GraphTable::new(rt.alloc(), Layout::new(1, 2, 1)).expect(&rt, "memory");
    let Ok(hand) = Hand::new(rt.alloc(), &table, token) else {
        panic!(rt; "a hand")
    };
    let mut hand = worn(&table, hand);
    assert_eq!(rt; add_vertex(&table, &mut hand, 5, 1), Outcome::Worn);
    assert_eq!(rt; remove_vertex(&table, &mut hand, 5, 1), Outcome::Worn);
    assert_eq!(rt; has_vertex(&table, &mut hand, 5, 1), Outcome::Worn);
    assert!(rt; settle(&table, &mut hand, 1) == Settled::Worn);
    assert!(rt; begin(&table, &mut hand) == Begun::Worn);
    assert_eq!(rt; hand.uses(), 4_294_967_296);
}
