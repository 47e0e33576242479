//! Steps with the token that a hand lends: a node is prepared for a key, and linked or not; and a vertex that was
//! marked before is answered behind its first mark.

ghost use Rattle.std.specs.Prelude.{◌≡◌, ◌<◌, ◌^◌, false, IfSome, IsNone, None};
ghost use Rattle.core_journal.specs.Event.{pops};
ghost use Rattle.core_kept.specs.Counts.{made, most_pops};
ghost use Rattle.core_rule.specs.Fronts.{MetVertex};
ghost use Rattle.core_rule.specs.Stretches.{HasNoFresh};
ghost use Rattle.core_stretches.specs.Holdings.{HasNoPass};
ghost use Rattle.graph_table.specs.Tokens.{IsOf};
ghost use Rattle.graph_updates.specs.Hands.{IsHandOf, IsInOrder};
ghost use Rattle.hand_rows.specs.Lent.{IsLentOpen, IsFilledFor, MatchLooked};

use graph_kinds::{Call, Outcome};
use graph_table::{Fresh, GraphTable, Token};
use graph_updates::{Begun, Hand, begin};
use node_arena::{Taken, fill_vertex, take};
use packed_link::Life;
use std::snapshot::Snapshot;
use vertex_list::{Found, Linked, Marked, Position, link, mark, start, walk};

/// Begins a use of a hand that holds no spare node: its token is at work, holds no fresh node and may take one. `None`
/// comes exactly where the hand has had all its uses.
pub fn enter(table: &GraphTable, hand: &mut Hand) -> Option<()>
    requires hand { IsHandOf table.now hand.old }
    requires closed { HasNoPass hand.old.token.view }
    requires order { IsInOrder hand.old }
    requires bare { hand.old.spare ≡ None }
    ensures work { IfSome result (λ _. IsLentOpen table.now hand.new.token) }
    ensures none { IfSome result (λ _. HasNoFresh hand.new.token.view) }
    ensures limit { IfSome result
        (λ _. made pops hand.new.token.view.number hand.new.token.view.front < most_pops) }
    ensures worn { IsNone result → hand.old.uses ≡ 2 ^ 32 }
{
    match begin(table, hand) {
        Begun::Done => Some(()),
        Begun::Worn => None,
    }
}

/// Walks to a key, takes a node and fills it for the position at which the key is missing. `None` comes where the key
/// isn't missing, or no node was taken.
pub fn prepare(table: &GraphTable, token: &mut Token, key: u32) -> Option<(Position, Fresh)>
    requires work { IsLentOpen table.now token.old }
    requires none { HasNoFresh token.old.view }
    requires limit { made pops token.old.view.number token.old.view.front < most_pops }
    ensures work { IsLentOpen table.now token.new }
    ensures prepared { IfSome result (λ both. IsFilledFor key token.new.view both.0 both.1) }
{
    let first = start(table, token, key);
    let Found::Gone(gap) = walk(table, token, first) else {
        return None;
    };
    let Taken::Node(fresh) = take(table, token) else {
        return None;
    };
    fill_vertex(table, token, &fresh, key, gap.word());
    Some((gap, fresh))
}

/// Links a node that was prepared.
pub fn link_prepared(
    table: &GraphTable,
    token: &mut Token,
    key: u32,
    gap: Position,
    fresh: Fresh,
) -> Linked
    requires work { IsLentOpen table.now token.old }
    requires prepared { IsFilledFor key token.old.view gap fresh }
    ensures work { IsLentOpen table.now token.new }
{
    table.layout();
    let _key = key;
    link(table, token, gap, fresh)
}

/// Walks to a key: a vertex that's found was met.
pub fn look(table: &GraphTable, token: &mut Token, key: u32) -> Found
    requires work { IsLentOpen table.now token.old }
    ensures work { IsLentOpen table.now token.new }
    ensures looked { MatchLooked result token.new.view }
{
    let first = start(table, token, key);
    walk(table, token, first)
}

/// Marks a vertex that was met, and tells whether the mark was there before; if it was, the removal is answered Absent,
/// right behind the first mark.
pub fn mark_or_answer(table: &GraphTable, token: &mut Token, key: u32, life: Life) -> bool
    requires work { IsLentOpen table.now token.old }
    requires vertex { MetVertex token.old.view life }
    ensures table { IsOf table.now token.new }
    ensures work { result ≡ false → IsLentOpen table.now token.new }
    ensures vertex { result ≡ false → MetVertex token.new.view life }
{
    let begun = Snapshot::of(&*token);
    let call = Call::RemoveVertex { key };
    match mark(table, token, life) {
        Marked::Won => false,
        Marked::Was => {
            table.reply_after_mark(token, &call, 1, Outcome::Absent, &begun, life);
            true
        }
    }
}
