//! A key is located: walks that help, and are made anew where a try is lost.

ghost use Rattle.std.specs.Prelude.{◌≡◌, ◌<◌, ◌≤◌, ◌-◌, true};
ghost use Rattle.core_rule.specs.Stretches.{HasPass};
ghost use Rattle.graph_table.specs.Tokens.{IsOf};
ghost use Rattle.graph_updates.specs.Hands.{IsHandOf, IsInOrder, IsRoomyLimbo};
ghost use Rattle.graph_updates.specs.Parts.{Fell, HasHelped, Helps};
ghost use Rattle.graph_updates.specs.Locating.{MatchLocated, MatchSought};

use crate::burying::bury;
use crate::hand::Hand;
use epoch_limbo::Limbo;
use graph_table::{GraphTable, Token};
use vertex_list::{Found, Position, Sighting, Unlinked, start, unlink, walk};

/// What one walk that helps came to: the vertex of its key, a position at which the key is missing, or a lost unlink.
#[derive(Drop)]
pub enum Sought {
    Here(Sighting),
    Gone(Position),
    Lost,
}

/// Where a key is: at a vertex, with a moment at which it was there; missing, with the position that shows it; or not
/// found out with the tries that were given.
#[derive(Drop)]
pub enum Located {
    Here(Sighting),
    Gone(Position),
    Again,
}

/// Walks to a key from the word of its bucket. A marked vertex on the way is unlinked and buried, and the walk goes on
/// from the word before it. `Lost` comes only where another caller changed the word before a marked vertex since this
/// call loaded it. It ends, since each vertex that it unlinks is one more spent in this pass.
pub fn seek(table: &GraphTable, token: &mut Token, limbo: &mut Limbo, key: u32) -> Sought
    requires table { IsOf table.now token.old }
    requires number { token.old.view.numbered ≡ true }
    requires pass { HasPass token.old.view }
    requires limbo { IsRoomyLimbo limbo.old token.old.view }
    ensures table { IsOf table.now token.new }
    ensures helped { Helps limbo.old limbo.new token.old.view token.new.view }
    ensures sought { MatchSought result key token.old.view token.new.view }
{
    let mut position = start(table, token, key);
    loop {
        match walk(table, token, position) {
            Found::Here(seen) => return Sought::Here(seen),
            Found::Gone(gap) => return Sought::Gone(gap),
            Found::Dead(before) => match unlink(table, token, before) {
                Unlinked::Done(spent, behind) => {
                    bury(table, token, limbo, spent);
                    position = behind;
                }
                Unlinked::Lost => return Sought::Lost,
            },
        }
    }
}

/// The same for a hand, which remembers whether it retired a node.
pub(crate) fn find(table: &GraphTable, hand: &mut Hand, key: u32) -> Sought
    requires hand { IsHandOf table.now hand.old }
    requires pass { HasPass hand.old.token.view }
    ensures hand { IsHandOf table.now hand.new }
    ensures helped { HasHelped hand.old hand.new }
    ensures sought { MatchSought result key hand.old.token.view hand.new.token.view }
{
    let held = hand.limbo.len();
    let sought = seek(table, &mut hand.token, &mut hand.limbo, key);
    if held < hand.limbo.len() {
        hand.retired = true;
    }
    sought
}

/// Finds out where a key is, by walks that help: O(vertices before it), and more for each marked vertex on the way and
/// for its edges. Each lost try adds one to `lost` and starts the walk anew; each met a foreign event of its own.
/// `Here`: at a moment of this call the vertex was there. `Gone`: at the moment of the position that is handed back no
/// vertex of the key was. `Again` comes exactly where `lost` reaches `tries`. The pass is open, and `lost` below
/// `tries`.
pub fn locate(table: &GraphTable, hand: &mut Hand, key: u32, lost: &mut u32, tries: u32) -> Located
    requires hand { IsHandOf table.now hand.old }
    requires pass { HasPass hand.old.token.view }
    requires left { lost.old < tries }
    ensures hand { IsHandOf table.now hand.new }
    ensures order { IsInOrder hand.old → IsInOrder hand.new }
    ensures helped { HasHelped hand.old hand.new }
    ensures lost { lost.old ≤ lost.new }
    ensures fell { Fell (lost.new - lost.old) hand.old.token.view.number hand.old.token.view.front
        hand.new.token.view.front }
    ensures located { MatchLocated result key lost.new tries hand.old.token.view hand.new.token.view }
{
    loop {
        match find(table, hand, key) {
            Sought::Here(seen) => return Located::Here(seen),
            Sought::Gone(gap) => return Located::Gone(gap),
            Sought::Lost => {
                *lost += 1;
                if *lost == tries {
                    return Located::Again;
                }
            }
        }
    }
}
