//! The first part of a round, in an open pass: a vertex is linked, marked, unlinked and buried.

ghost use Rattle.std.specs.Prelude.{◌≡◌, ◌<◌, ◌≤◌, ◌+◌, true};
ghost use Rattle.core_journal.specs.Event.{pops};
ghost use Rattle.core_kept.specs.Counts.{made, most_pops};
ghost use Rattle.core_rule.specs.Stretches.{HasPass};
ghost use Rattle.core_stretches.specs.Holdings.{IsHeldFresh};
ghost use Rattle.free_list_rounds.specs.Rounds.{CountsGo, HoldsSpareOrNone, LimboHoldsAll, MatchToBury};
ghost use Rattle.free_list_rounds.specs.Rounds.{SparesGo, WorkGoes};
ghost use Rattle.graph_table.specs.Tokens.{IsOf};

use epoch_limbo::Limbo;
use graph_table::{Fresh, GraphTable, Spent, Token};
use graph_updates::bury;
use node_arena::{Taken, fill_vertex, take};
use vertex_list::{Found, Linked, Unlinked, link, mark, start, unlink, walk};

/// The spare node, or else one that this call takes; none where the free list was empty or another caller changed it.
/// Answers also how many nodes it took.
fn supply(table: &GraphTable, token: &mut Token, spare: Option<Fresh>) -> (Option<Fresh>, u32)
    requires table { IsOf table.now token.old }
    requires number { token.old.view.numbered ≡ true }
    requires pass { HasPass token.old.view }
    requires spare { HoldsSpareOrNone spare token.old.view }
    requires limit { made pops token.old.view.number token.old.view.front < most_pops }
    ensures table { IsOf table.now token.new }
    ensures number { token.new.view.numbered ≡ true }
    ensures pass { HasPass token.new.view }
    ensures spare { HoldsSpareOrNone result.0 token.new.view }
    ensures work { WorkGoes token.old.view token.new.view }
    ensures counts { CountsGo result.1 0 0 token.old.view token.new.view }
    ensures few { result.1 ≤ 1 }
{
    match spare {
        Some(fresh) => (Some(fresh), 0),
        None => match take(table, token) {
            Taken::Node(fresh) => (Some(fresh), 1),
            Taken::Empty => (None, 0),
            Taken::Lost => (None, 0),
        },
    }
}

/// Links a vertex of this key, where there's none; the node is handed back where it isn't linked.
fn grow(table: &GraphTable, token: &mut Token, key: u32, fresh: Fresh) -> Option<Fresh>
    requires table { IsOf table.now token.old }
    requires number { token.old.view.numbered ≡ true }
    requires pass { HasPass token.old.view }
    requires fresh { IsHeldFresh token.old.view fresh }
    ensures table { IsOf table.now token.new }
    ensures number { token.new.view.numbered ≡ true }
    ensures pass { HasPass token.new.view }
    ensures spare { HoldsSpareOrNone result token.new.view }
    ensures work { WorkGoes token.old.view token.new.view }
    ensures counts { CountsGo 0 0 0 token.old.view token.new.view }
{
    let first = start(table, token, key);
    let Found::Gone(gap) = walk(table, token, first) else {
        return Some(fresh);
    };
    fill_vertex(table, token, &fresh, key, gap.word());
    match link(table, token, gap, fresh) {
        Linked::Done(_) => None,
        Linked::Lost(fresh) => Some(fresh),
    }
}

/// Takes a node, where the caller has no spare one, and links it as a vertex of this key, in an open pass: O(1 + the
/// vertices before it). The node that isn't linked is handed back as the spare one. Answers also how many nodes it
/// took.
pub fn build(
    table: &GraphTable,
    token: &mut Token,
    spare: Option<Fresh>,
    key: u32,
) -> (Option<Fresh>, u32)
    requires table { IsOf table.now token.old }
    requires number { token.old.view.numbered ≡ true }
    requires pass { HasPass token.old.view }
    requires spare { HoldsSpareOrNone spare token.old.view }
    requires limit { made pops token.old.view.number token.old.view.front < most_pops }
    ensures table { IsOf table.now token.new }
    ensures number { token.new.view.numbered ≡ true }
    ensures pass { HasPass token.new.view }
    ensures spare { HoldsSpareOrNone result.0 token.new.view }
    ensures work { WorkGoes token.old.view token.new.view }
    ensures counts { CountsGo result.1 0 0 token.old.view token.new.view }
    ensures few { result.1 ≤ 1 }
{
    let (spare, taken) = supply(table, token, spare);
    match spare {
        Some(fresh) => (grow(table, token, key, fresh), taken),
        None => (None, taken),
    }
}

/// Marks the vertex of this key, where it's there.
fn mark_found(table: &GraphTable, token: &mut Token, key: u32)
    requires table { IsOf table.now token.old }
    requires number { token.old.view.numbered ≡ true }
    requires pass { HasPass token.old.view }
    ensures table { IsOf table.now token.new }
    ensures number { token.new.view.numbered ≡ true }
    ensures pass { HasPass token.new.view }
    ensures spare { SparesGo token.old.view token.new.view }
    ensures work { WorkGoes token.old.view token.new.view }
    ensures counts { CountsGo 0 0 0 token.old.view token.new.view }
{
    let first = start(table, token, key);
    if let Found::Here(sighting) = walk(table, token, first) {
        mark(table, token, sighting.life);
    }
}

/// Unlinks the marked vertex that a walk to this key meets, where it meets one.
fn cut(table: &GraphTable, token: &mut Token, key: u32) -> Option<Spent>
    requires table { IsOf table.now token.old }
    requires number { token.old.view.numbered ≡ true }
    requires pass { HasPass token.old.view }
    ensures table { IsOf table.now token.new }
    ensures number { token.new.view.numbered ≡ true }
    ensures pass { HasPass token.new.view }
    ensures spare { SparesGo token.old.view token.new.view }
    ensures cut { MatchToBury result token.old.view token.new.view }
    ensures counts { CountsGo 0 0 0 token.old.view token.new.view }
{
    let first = start(table, token, key);
    let Found::Dead(before) = walk(table, token, first) else {
        return None;
    };
    match unlink(table, token, before) {
        Unlinked::Done(spent, _after) => Some(spent),
        Unlinked::Lost => None,
    }
}

/// Removes the vertex of this key, where it's there, and buries the marked vertex that it unlinks then, in an open
/// pass: O(1 + the vertices before it + its edges).
pub fn clear(table: &GraphTable, token: &mut Token, limbo: &mut Limbo, key: u32)
    requires table { IsOf table.now token.old }
    requires number { token.old.view.numbered ≡ true }
    requires pass { HasPass token.old.view }
    requires work { LimboHoldsAll limbo.old token.old.view }
    ensures table { IsOf table.now token.new }
    ensures number { token.new.view.numbered ≡ true }
    ensures pass { HasPass token.new.view }
    ensures spare { SparesGo token.old.view token.new.view }
    ensures work { LimboHoldsAll limbo.new token.new.view }
    ensures counts { CountsGo 0 0 0 token.old.view token.new.view }
{
    mark_found(table, token, key);
    if let Some(spent) = cut(table, token, key) {
        bury(table, token, limbo, spent);
    }
}
