//! An edge is linked where its key is missing: a node is made ready and filled, and one exchange links it.

ghost use Rattle.std.specs.Prelude.{◌≡◌, ◌+◌, ◌≤◌, ℕ, None, Some, true};
ghost use Rattle.graph_kinds.specs.declared.outcome.Outcome.TheVariants.{Added};
ghost use Rattle.core_journal.specs.Life.{key_of};
ghost use Rattle.core_journal.specs.Event.{pops};
ghost use Rattle.core_kept.specs.Counts.{made, most_pops};
ghost use Rattle.core_rule.specs.Fronts.{MetVertex};
ghost use Rattle.core_rule.specs.Stretches.{HasPass};
ghost use Rattle.core_stretches.specs.Holdings.{IsHeldFresh};
ghost use Rattle.edge_list.specs.EdgePositions.{IsGapOfEdge};
ghost use Rattle.graph_table.specs.Tokens.{IsOf};
ghost use Rattle.graph_updates.specs.EdgeAdding.{IsUnraised, MatchPlaced};
ghost use Rattle.graph_updates.specs.EdgeChanging.{holding};
ghost use Rattle.graph_updates.specs.EdgeLinking.{MatchEdgePut};
ghost use Rattle.graph_updates.specs.Hands.{HasItsNodes, IsHandOf};
ghost use Rattle.graph_updates.specs.Parts.{may_take};
ghost use Rattle.graph_updates.specs.declared.edge_adding.AddTurn.TheVariants as turn;

use crate::edge_adding::{AddTurn, conclude, ready_node};
use crate::hand::Hand;
use crate::pairs::{Ends, EndsAlive, Lack, check_ends};
use edge_list::{EdgeLinked, EdgePosition, link};
use graph_kinds::Outcome;
use graph_table::{Fresh, GraphTable, Token};
use node_arena::{Taken, fill_edge};
use packed_link::Life;

/// Fills a node as an edge and links it where its key is missing.
fn put_edge(
    table: &GraphTable,
    token: &mut Token,
    target: Life,
    to: u32,
    weight: u32,
    gap: EdgePosition,
    fresh: Fresh,
) -> EdgeLinked
    requires table { IsOf table.now token.old }
    requires number { token.old.view.numbered ≡ true }
    requires fresh { IsHeldFresh token.old.view fresh }
    requires weight { 1 ≤ weight }
    requires target { MetVertex token.old.view target }
    requires to { key_of token.old.view.front target ≡ Some to }
    requires key { gap.key ≡ to }
    requires gap { IsGapOfEdge token.old.view gap }
    ensures table { IsOf table.now token.new }
    ensures put { MatchEdgePut result gap target weight fresh token.old.view token.new.view }
{
    fill_edge(table, token, &fresh, to, gap.word(), target, weight);
    link(table, token, gap, fresh)
}

/// The same for a hand that has no spare node, and then what the call came to: if the node wasn't linked, it's the
/// hand's spare one.
fn put_pair(
    table: &GraphTable,
    hand: &mut Hand,
    ends: Ends,
    to: u32,
    weight: u32,
    gap: EdgePosition,
    fresh: Fresh,
) -> AddTurn
    requires hand { IsHandOf table.now (holding hand.old fresh) }
    requires bare { hand.old.spare ≡ None }
    requires pass { HasPass hand.old.token.view }
    requires nodes { HasItsNodes (holding hand.old fresh) }
    requires weight { 1 ≤ weight }
    requires from { MetVertex hand.old.token.view ends.from }
    requires to { MetVertex hand.old.token.view ends.to }
    requires key { key_of hand.old.token.view.front ends.to ≡ Some to }
    requires source { gap.source ≡ ends.from }
    requires gap_key { gap.key ≡ to }
    requires gap { IsGapOfEdge hand.old.token.view gap }
    ensures hand { IsHandOf table.now hand.new }
    ensures pass { HasPass hand.new.token.view }
    ensures unraised { IsUnraised hand.old.token.view hand.new.token.view }
    ensures placed { (a : ℕ) → key_of hand.old.token.view.front ends.from ≡ Some a
        → MatchPlaced result Added (turn.FullAtGap gap) ends a to weight gap.moment (holding hand.old fresh) hand.new }
{
    match put_edge(table, &mut hand.token, ends.to, to, weight, gap, fresh) {
        EdgeLinked::Done(_) => conclude(table, &mut hand.token, ends, Outcome::Added),
        EdgeLinked::Lost(fresh) => {
            hand.spare = Some(fresh);
            AddTurn::Lost
        }
    }
}

/// Links an edge where its key is missing: with the spare node, or one that is taken.
pub(crate) fn link_pair(
    table: &GraphTable,
    hand: &mut Hand,
    ends: Ends,
    to: u32,
    weight: u32,
    gap: EdgePosition,
) -> AddTurn
    requires hand { IsHandOf table.now hand.old }
    requires pass { HasPass hand.old.token.view }
    requires nodes { HasItsNodes hand.old }
    requires limit { made pops hand.old.token.view.number hand.old.token.view.front + may_take hand.old.spare
        ≤ most_pops }
    requires weight { 1 ≤ weight }
    requires from { MetVertex hand.old.token.view ends.from }
    requires to { MetVertex hand.old.token.view ends.to }
    requires key { key_of hand.old.token.view.front ends.to ≡ Some to }
    requires source { gap.source ≡ ends.from }
    requires gap_key { gap.key ≡ to }
    requires gap { IsGapOfEdge hand.old.token.view gap }
    ensures hand { IsHandOf table.now hand.new }
    ensures pass { HasPass hand.new.token.view }
    ensures unraised { IsUnraised hand.old.token.view hand.new.token.view }
    ensures placed { (a : ℕ) → key_of hand.old.token.view.front ends.from ≡ Some a
        → MatchPlaced result Added (turn.FullAtGap gap) ends a to weight gap.moment hand.old hand.new }
{
    match ready_node(table, hand) {
        Taken::Node(fresh) => put_pair(table, hand, ends, to, weight, gap, fresh),
        Taken::Empty => match check_ends(table, hand, ends) {
            EndsAlive::Both => AddTurn::FullAtGap(gap),
            EndsAlive::Over(life) => AddTurn::Lacks(Lack::Vertex(life)),
        },
        Taken::Lost => AddTurn::Lost,
    }
}
