//! A part of the graph is recorded and verified by a token in its open pass.

ghost use Rattle.std.specs.Prelude.{◌≡◌, ◌≤◌, [], true, IfSome, IsNone};
ghost use Rattle.core_rule.specs.Stretches.{HasPass};
ghost use Rattle.core_stretches.specs.Makes.{Makes};
ghost use Rattle.graph_table.specs.Tokens.{IsOf};
ghost use Rattle.scan_rows.specs.Looks.{IsFilledHere, IsFoundSince, IsNotThere, IsRecorded, IsToldOf};

use graph_table::{GraphTable, Token};
use layer_rows::look_for;
use packed_link::Life;
use scan_record::Scan;
use tree_scan::{Verdict, collect, verify};
use vertex_list::Found;

/// Walks to a key. `None` comes only where the walk comes to no vertex of it.
pub fn find_root(table: &GraphTable, token: &mut Token, key: u32) -> Option<Life>
    requires table { IsOf table.now token.old }
    requires number { token.old.view.numbered ≡ true }
    requires pass { HasPass token.old.view }
    ensures table { IsOf table.now token.new }
    ensures makes { Makes token.old.view [] token.new.view }
    ensures found { IfSome result (λ root. IsFoundSince key token.old.view token.new.view root) }
    ensures none { IsNone result → IsNotThere key token.old.view token.new.view }
{
    match look_for(table, token, key) {
        Found::Here(sighting) => Some(sighting.life),
        Found::Gone(_) => None,
        Found::Dead(_) => None,
    }
}

/// Records the part that is reached from a key.
pub fn record(table: &GraphTable, token: &mut Token, key: u32, scan: &mut Scan) -> Option<()>
    requires table { IsOf table.now token.old }
    requires number { token.old.view.numbered ≡ true }
    requires pass { HasPass token.old.view }
    requires room { table.now.sizes.nodes ≤ scan.old.nodes }
    ensures table { IsOf table.now token.new }
    ensures makes { Makes token.old.view [] token.new.view }
    ensures room { scan.new.nodes ≡ scan.old.nodes }
    ensures pass { HasPass token.new.view }
    ensures recorded { IfSome result (λ _. IsRecorded key token.old.view token.new.view scan.new) }
    ensures none { IsNone result → IsNotThere key token.old.view token.new.view }
{
    let root = find_root(table, token, key)?;
    collect(table, token, root, scan);
    Some(())
}

/// Verifies a part that was recorded in this pass.
pub fn check(table: &GraphTable, token: &mut Token, scan: &Scan) -> Verdict
    requires table { IsOf table.now token.old }
    requires number { token.old.view.numbered ≡ true }
    requires pass { HasPass token.old.view }
    requires filled { IsFilledHere token.old.view scan.now }
    ensures table { IsOf table.now token.new }
    ensures makes { Makes token.old.view [] token.new.view }
    ensures pass { HasPass token.new.view }
{
    verify(table, token, scan)
}

/// Records the part that is reached from a key, and verifies it.
pub fn look_at(table: &GraphTable, token: &mut Token, key: u32, scan: &mut Scan) -> Option<Verdict>
    requires table { IsOf table.now token.old }
    requires number { token.old.view.numbered ≡ true }
    requires pass { HasPass token.old.view }
    requires room { table.now.sizes.nodes ≤ scan.old.nodes }
    ensures table { IsOf table.now token.new }
    ensures makes { Makes token.old.view [] token.new.view }
    ensures room { scan.new.nodes ≡ scan.old.nodes }
    ensures pass { HasPass token.new.view }
    ensures told { IfSome result (λ verdict. IsToldOf key verdict token.old.view token.new.view scan.new) }
    ensures none { IsNone result → IsNotThere key token.old.view token.new.view }
{
    record(table, token, key, scan)?;
    Some(verify(table, token, scan))
}
