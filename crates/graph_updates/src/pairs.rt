//! The two ends of a pair are located, and its edge is found: walks that help.

ghost use Rattle.std.specs.Prelude.{◌≡◌, ◌<◌, ◌≤◌, ◌-◌, ℕ, [], true, Some, not};
ghost use Rattle.core_journal.specs.Life.{key_of, vertex_marked};
ghost use Rattle.core_rule.specs.Fronts.{MetVertex};
ghost use Rattle.core_rule.specs.Stretches.{HasPass};
ghost use Rattle.core_stretches.specs.Makes.{Makes};
ghost use Rattle.graph_table.specs.Tokens.{IsOf};
ghost use Rattle.graph_updates.specs.Hands.{IsHandOf};
ghost use Rattle.graph_updates.specs.Pairs.{MatchEndsAlive, MatchEndsLocated, MatchPairFound};
ghost use Rattle.graph_updates.specs.Parts.{Fell, HasHelped};

use crate::edge_locating::{EdgeSought, find_edge};
use crate::hand::Hand;
use crate::locating::{Located, locate};
use edge_list::{EdgePosition, EdgeSighting};
use graph_table::{GraphTable, Token};
use packed_link::{Life, Link};
use vertex_list::Position;

/// The lives of the two keys of a pair. If the keys are one, so are the lives.
#[derive(Clone, Copy, Debug, PartialEq, Eq)]
pub struct Ends {
    pub from: Life,
    pub to: Life,
}

/// Where the ends of a pair are: at two vertices; one of the keys is missing, with the position that shows it; or not
/// found out with the tries that were given.
#[derive(Drop)]
pub enum EndsLocated {
    Both(Ends),
    Gone(Position),
    Again,
}

/// Whether the vertices of a pair are alive, or which of them is over.
#[derive(Clone, Copy, Debug, PartialEq, Eq)]
pub enum EndsAlive {
    Both,
    Over(Life),
}

/// What one walk for the edge of a pair came to: the edge to the located target; an edge to an earlier life of the
/// target's key; a position at which the key is missing; a vertex of the pair that is over; or a lost unlink.
#[derive(Drop)]
pub enum PairFound {
    Edge(EdgeSighting),
    Stale(EdgeSighting),
    Gone(EdgePosition),
    Over(Life),
    Lost,
}

/// What a pair lacks, with what shows it: a key, by a position of its list or by the mark of its vertex; or the edge,
/// by
/// a position of the source's list, by an edge to an earlier life of the target's key, or by the mark of the edge.
#[derive(Drop)]
pub enum Lack {
    Key(Position),
    Vertex(Life),
    Edge(EdgePosition),
    Stale(EdgeSighting),
    Marked(Life),
}

/// Whether a vertex life that was linked is alive: its link word shows its tag and no mark. O(1), one load.
pub fn is_alive(table: &GraphTable, token: &mut Token, life: Life) -> bool
    requires table { IsOf table.now token.old }
    requires number { token.old.view.numbered ≡ true }
    requires linked { (key : ℕ) × (key_of token.old.view.front life ≡ Some key) }
    ensures table { IsOf table.now token.new }
    ensures makes { Makes token.old.view [] token.new.view }
    ensures alive { result ≡ not (vertex_marked token.new.view.front life) }
{
    let layout = table.layout();
    let link = Link(table.load(token, layout.link_at(life.index)));
    if link.marked() {
        return false;
    }
    let tag = link.tag();
    tag == life.tag
}

/// Whether both ends of a pair are alive: O(1), a load of the link of each. `Both`: at the start of this call neither
/// was marked.
pub fn ends_alive(table: &GraphTable, token: &mut Token, ends: Ends) -> EndsAlive
    requires table { IsOf table.now token.old }
    requires number { token.old.view.numbered ≡ true }
    requires from { MetVertex token.old.view ends.from }
    requires to { MetVertex token.old.view ends.to }
    ensures table { IsOf table.now token.new }
    ensures makes { Makes token.old.view [] token.new.view }
    ensures alive { MatchEndsAlive result ends token.old.view token.new.view }
{
    let from = is_alive(table, token, ends.from);
    let to = is_alive(table, token, ends.to);
    if !from {
        return EndsAlive::Over(ends.from);
    }
    if !to {
        return EndsAlive::Over(ends.to);
    }
    EndsAlive::Both
}

/// The same for a hand, which does nothing else.
pub(crate) fn check_ends(table: &GraphTable, hand: &mut Hand, ends: Ends) -> EndsAlive
    requires hand { IsHandOf table.now hand.old }
    requires from { MetVertex hand.old.token.view ends.from }
    requires to { MetVertex hand.old.token.view ends.to }
    ensures hand { IsHandOf table.now hand.new }
    ensures helped { HasHelped hand.old hand.new }
    ensures alive { MatchEndsAlive result ends hand.old.token.view hand.new.token.view }
{
    ends_alive(table, &mut hand.token, ends)
}

/// Locates the two keys of a pair, the first one first, by walks that help; one walk if the keys are one. A lost try
/// starts only its key's walk anew. Each lost try adds one to `lost`, and met a foreign event of its own. `Again` comes
/// exactly if `lost` reaches `tries`. The pass is open, and `lost` below `tries`.
pub(crate) fn locate_ends(
    table: &GraphTable,
    hand: &mut Hand,
    from: u32,
    to: u32,
    lost: &mut u32,
    tries: u32,
) -> EndsLocated
    requires hand { IsHandOf table.now hand.old }
    requires pass { HasPass hand.old.token.view }
    requires left { lost.old < tries }
    ensures hand { IsHandOf table.now hand.new }
    ensures helped { HasHelped hand.old hand.new }
    ensures lost { lost.old ≤ lost.new }
    ensures fell { Fell (lost.new - lost.old) hand.old.token.view.number hand.old.token.view.front
        hand.new.token.view.front }
    ensures located { MatchEndsLocated result from to lost.new tries hand.old.token.view hand.new.token.view }
{
    let first = match locate(table, hand, from, lost, tries) {
        Located::Here(seen) => seen.life,
        Located::Gone(gap) => return EndsLocated::Gone(gap),
        Located::Again => return EndsLocated::Again,
    };
    if from == to {
        return EndsLocated::Both(Ends {
            from: first,
            to: first,
        });
    }
    match locate(table, hand, to, lost, tries) {
        Located::Here(seen) => EndsLocated::Both(Ends {
            from: first,
            to: seen.life,
        }),
        Located::Gone(gap) => EndsLocated::Gone(gap),
        Located::Again => EndsLocated::Again,
    }
}

/// Walks the source's list for the edge of a pair whose ends were located. An edge to another life of the target's key
/// has that life's link loaded: if it's alive, the located target is over. `Over` comes too if the list is closed,
/// since
/// then the source is over.
pub(crate) fn find_pair(table: &GraphTable, hand: &mut Hand, ends: Ends, to: u32) -> PairFound
    requires hand { IsHandOf table.now hand.old }
    requires pass { HasPass hand.old.token.view }
    requires from { MetVertex hand.old.token.view ends.from }
    requires to { MetVertex hand.old.token.view ends.to }
    requires key { key_of hand.old.token.view.front ends.to ≡ Some to }
    ensures hand { IsHandOf table.now hand.new }
    ensures helped { HasHelped hand.old hand.new }
    ensures found { MatchPairFound result ends to hand.old.token.view hand.new.token.view }
{
    let seen = match find_edge(table, hand, ends.from, to) {
        EdgeSought::Here(seen) => seen,
        EdgeSought::Gone(gap) => return PairFound::Gone(gap),
        EdgeSought::Frozen => return PairFound::Over(ends.from),
        EdgeSought::Lost => return PairFound::Lost,
    };
    if seen.edge.target == ends.to {
        return PairFound::Edge(seen);
    }
    if is_alive(table, &mut hand.token, seen.edge.target) {
        return PairFound::Over(ends.to);
    }
    PairFound::Stale(seen)
}
