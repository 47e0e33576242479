//! An edge is looked up: its ends are located, and one walk of the source's list finds it.

ghost use Rattle.std.specs.Prelude.{◌≡◌, ◌-◌, ◌<◌, ◌≤◌, ℕ, Some};
ghost use Rattle.core_journal.specs.Life.{key_of};
ghost use Rattle.core_rule.specs.Fronts.{MetVertex};
ghost use Rattle.core_rule.specs.Stretches.{HasPass};
ghost use Rattle.core_rule.specs.declared.view.View.{View};
ghost use Rattle.graph_updates.specs.EdgeLooking.{LacksWith, MatchEdgeLooked, MatchLookTried, MatchLookedAt};
ghost use Rattle.graph_updates.specs.Hands.{HasItsNodes, IsHandOf};
ghost use Rattle.graph_updates.specs.Pairs.{AreEnds};
ghost use Rattle.graph_updates.specs.Parts.{Fell, HasHelped};
ghost use Rattle.graph_updates.specs.declared.edge_looking.LookTried.TheVariants.{Lost};

use crate::hand::Hand;
use crate::pairs::{
    Ends, EndsAlive, EndsLocated, Lack, PairFound, check_ends, find_pair, locate_ends,
};
use edge_list::EdgeSighting;
use graph_table::GraphTable;

/// What one try to look an edge up came to: the edge, what the pair lacks, a lost try, or no try is left.
#[derive(Drop)]
pub enum LookTried {
    Edge(EdgeSighting),
    Lacks(Lack),
    Lost,
    Again,
}

/// What looking an edge up came to: the edge, what the pair lacks, or no try is left.
#[derive(Drop)]
pub enum EdgeLooked {
    Edge(EdgeSighting),
    Lacks(Lack),
    Again,
}

/// What the pair lacks if its edge was found missing: the edge, if both ends are alive after that, and else a vertex.
pub(crate) fn lack_with(table: &GraphTable, hand: &mut Hand, ends: Ends, lack: Lack) -> Lack
    requires hand { IsHandOf table.now hand.old }
    requires from { MetVertex hand.old.token.view ends.from }
    requires to { MetVertex hand.old.token.view ends.to }
    ensures hand { IsHandOf table.now hand.new }
    ensures helped { HasHelped hand.old hand.new }
    ensures lack { LacksWith result lack ends hand.old.token.view hand.new.token.view }
{
    match check_ends(table, hand, ends) {
        EndsAlive::Both => lack,
        EndsAlive::Over(life) => Lack::Vertex(life),
    }
}

/// Walks the list of a located source once for the edge of a pair: the edge, what the pair lacks, or a lost try.
fn look_at(table: &GraphTable, hand: &mut Hand, ends: Ends, to: u32) -> LookTried
    requires hand { IsHandOf table.now hand.old }
    requires pass { HasPass hand.old.token.view }
    requires from { MetVertex hand.old.token.view ends.from }
    requires to { MetVertex hand.old.token.view ends.to }
    requires key { key_of hand.old.token.view.front ends.to ≡ Some to }
    ensures hand { IsHandOf table.now hand.new }
    ensures helped { HasHelped hand.old hand.new }
    ensures looked { (v : View) (a : ℕ) → AreEnds a to v hand.old.token.view ends
        → MatchLookedAt result a to v hand.old.token.view hand.new.token.view }
{
    match find_pair(table, hand, ends, to) {
        PairFound::Edge(seen) => match check_ends(table, hand, ends) {
            EndsAlive::Both => LookTried::Edge(seen),
            EndsAlive::Over(life) => LookTried::Lacks(Lack::Vertex(life)),
        },
        PairFound::Stale(seen) => {
            LookTried::Lacks(lack_with(table, hand, ends, Lack::Stale(seen)))
        }
        PairFound::Gone(gap) => LookTried::Lacks(lack_with(table, hand, ends, Lack::Edge(gap))),
        PairFound::Over(life) => LookTried::Lacks(Lack::Vertex(life)),
        PairFound::Lost => LookTried::Lost,
    }
}

/// One try to look an edge up.
fn try_look(
    table: &GraphTable,
    hand: &mut Hand,
    from: u32,
    to: u32,
    lost: &mut u32,
    tries: u32,
) -> LookTried
    requires hand { IsHandOf table.now hand.old }
    requires pass { HasPass hand.old.token.view }
    requires nodes { HasItsNodes hand.old }
    requires left { lost.old < tries }
    ensures hand { IsHandOf table.now hand.new }
    ensures pass { HasPass hand.new.token.view }
    ensures lost { lost.old ≤ lost.new }
    ensures fell { Fell (lost.new - lost.old) hand.old.token.view.number hand.old.token.view.front
        hand.new.token.view.front }
    ensures more { result ≡ Lost → lost.old < lost.new }
    ensures tried { MatchLookTried result from to lost.new tries hand.old hand.new }
{
    let ends = match locate_ends(table, hand, from, to, lost, tries) {
        EndsLocated::Both(ends) => ends,
        EndsLocated::Gone(gap) => return LookTried::Lacks(Lack::Key(gap)),
        EndsLocated::Again => return LookTried::Again,
    };
    let tried = look_at(table, hand, ends, to);
    if let LookTried::Lost = tried {
        *lost += 1;
        if *lost == tries {
            return LookTried::Again;
        }
    }
    tried
}

/// Looks an edge up, by as many tries as may be lost.
pub(crate) fn look_up(
    table: &GraphTable,
    hand: &mut Hand,
    from: u32,
    to: u32,
    tries: u32,
) -> EdgeLooked
    requires hand { IsHandOf table.now hand.old }
    requires pass { HasPass hand.old.token.view }
    requires nodes { HasItsNodes hand.old }
    requires some { 0 < tries }
    ensures hand { IsHandOf table.now hand.new }
    ensures pass { HasPass hand.new.token.view }
    ensures nodes { HasItsNodes hand.new }
    ensures looked { MatchEdgeLooked result from to tries hand.old hand.new }
{
    let mut lost = 0u32;
    loop {
        match try_look(table, hand, from, to, &mut lost, tries) {
            LookTried::Edge(seen) => return EdgeLooked::Edge(seen),
            LookTried::Lacks(lack) => return EdgeLooked::Lacks(lack),
            LookTried::Again => return EdgeLooked::Again,
            LookTried::Lost => {}
        }
    }
}
