//! The edge of a source and a key is found: walks of the source's list that help.

ghost use Rattle.std.specs.Prelude.{◌≡◌, true};
ghost use Rattle.core_rule.specs.Fronts.{MetVertex};
ghost use Rattle.core_rule.specs.Stretches.{HasPass};
ghost use Rattle.graph_table.specs.Tokens.{IsOf};
ghost use Rattle.graph_updates.specs.EdgeLocating.{MatchEdgeSought};
ghost use Rattle.graph_updates.specs.Hands.{IsHandOf, IsRoomyLimbo};
ghost use Rattle.graph_updates.specs.Parts.{HasHelped, Helps};

use crate::hand::Hand;
use edge_list::{
    EdgeFound, EdgePosition, EdgeSighting, EdgeUnlinked, Started, start, unlink, walk,
};
use epoch_limbo::Limbo;
use graph_table::{GraphTable, Token};
use packed_link::Life;

/// What one walk of a source's list that helps came to: the list is closed, since the source was unlinked; the edge of
/// the key; a position at which the key is missing; or a lost unlink.
#[derive(Drop)]
pub enum EdgeSought {
    Frozen,
    Here(EdgeSighting),
    Gone(EdgePosition),
    Lost,
}

/// Walks the list of a vertex that this pass met to a key, from its second word: O(edges before the key). A marked edge
/// on the way is unlinked and put into the limbo, and the walk goes on from the word before it. `Frozen` comes only
/// if the second word was loaded marked; then the vertex is marked. `Lost` comes only if another caller changed the
/// word
/// before a marked edge since this call loaded it. It ends, since each edge that it unlinks is one more node spent in
/// this pass.
pub fn seek_edge(
    table: &GraphTable,
    token: &mut Token,
    limbo: &mut Limbo,
    from: Life,
    key: u32,
) -> EdgeSought
    requires table { IsOf table.now token.old }
    requires number { token.old.view.numbered ≡ true }
    requires pass { HasPass token.old.view }
    requires limbo { IsRoomyLimbo limbo.old token.old.view }
    requires from { MetVertex token.old.view from }
    ensures table { IsOf table.now token.new }
    ensures helped { Helps limbo.old limbo.new token.old.view token.new.view }
    ensures sought { MatchEdgeSought result from key token.old.view token.new.view }
{
    let mut position = match start(table, token, from, key) {
        Started::At(position) => position,
        Started::Frozen => return EdgeSought::Frozen,
    };
    loop {
        match walk(table, token, position) {
            EdgeFound::Here(seen) => return EdgeSought::Here(seen),
            EdgeFound::Gone(gap) => return EdgeSought::Gone(gap),
            EdgeFound::Dead(before) => match unlink(table, token, before) {
                EdgeUnlinked::Done(spent, behind) => {
                    limbo.retire(table, token, spent);
                    position = behind;
                }
                EdgeUnlinked::Lost => return EdgeSought::Lost,
            },
        }
    }
}

/// The same for a hand, which remembers whether it retired a node.
pub(crate) fn find_edge(table: &GraphTable, hand: &mut Hand, from: Life, key: u32) -> EdgeSought
    requires hand { IsHandOf table.now hand.old }
    requires pass { HasPass hand.old.token.view }
    requires from { MetVertex hand.old.token.view from }
    ensures hand { IsHandOf table.now hand.new }
    ensures helped { HasHelped hand.old hand.new }
    ensures sought { MatchEdgeSought result from key hand.old.token.view hand.new.token.view }
{
    let held = hand.limbo.len();
    let sought = seek_edge(table, &mut hand.token, &mut hand.limbo, from, key);
    if held < hand.limbo.len() {
        hand.retired = true;
    }
    sought
}
