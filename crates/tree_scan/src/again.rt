//! Verify: the words that a scan recorded are loaded again.
//!
//! The counter of each vertex is loaded after its list, as collect loaded it before: so an edge that was linked and
//! taken away between the two shows in it (`core_scans`).

ghost use Rattle.std.specs.Prelude.{◌≡◌, ◌<◌, [], true, length, List};
ghost use Rattle.core_journal.specs.declared.event.Event.{Event};
ghost use Rattle.core_scans.specs.Seen.{IsInside};
ghost use Rattle.core_stretches.specs.Makes.{Makes};
ghost use Rattle.graph_table.specs.Tokens.{IsOf};
ghost use Rattle.tree_scan.specs.Verdicts.{IsFilledScan, MatchLinksAgain, MatchRowAgain, MatchVerdict};

use graph_table::{GraphTable, Token};
use packed_link::Link;
use scan_record::Scan;

/// What verify found: all rows as they were recorded, or the number of the first that isn't.
#[derive(Clone, Copy, Debug, PartialEq, Eq)]
pub enum Verdict {
    Same,
    Differs(u32),
}

/// Loads what a scan recorded again, row by row: the head, the link of each recorded edge, the counter, and the link of
/// the vertex. The scan was filled by this token's last collect in this pass, and the token made no event since the
/// root was found. `Same`: at the end of collect the graph of the scan was the part of the graph that is reached from
/// its root, the root was in the graph, and the scan is complete. `Differs`: that row isn't as it was recorded, and
/// another caller changed the table since the root was found. Takes no memory, in three loads a row and one an edge.
pub fn verify(table: &GraphTable, token: &mut Token, scan: &Scan) -> Verdict
    requires table { IsOf table.now token.old }
    requires number { token.old.view.numbered ≡ true }
    requires filled { (start : List Event) × (end : List Event) × IsFilledScan token.old.view start end scan.now }
    ensures table { IsOf table.now token.new }
    ensures makes { Makes token.old.view [] token.new.view }
    ensures verdict { (start end : List Event) → IsFilledScan token.old.view start end scan.now
        → MatchVerdict result token.new.view start end scan.now }
{
    let rows = scan.vertices();
    let mut row = 0;
    while row < rows {
        if !is_row_same(table, token, scan, row) {
            return Verdict::Differs(row);
        }
        row += 1;
    }
    Verdict::Same
}

/// Whether a row is as it was recorded: its head, the links of its edges, its counter, and its vertex alive.
fn is_row_same(table: &GraphTable, token: &mut Token, scan: &Scan, row: u32) -> bool
    requires table { IsOf table.now token.old }
    requires number { token.old.view.numbered ≡ true }
    requires inside { IsInside table.now.sizes scan.now }
    requires row { row < length scan.now.rows }
    ensures table { IsOf table.now token.new }
    ensures makes { Makes token.old.view [] token.new.view }
    ensures again { MatchRowAgain result table.now.sizes token.old.view.front token.new.view.front scan.now row }
{
    let layout = table.layout();
    let vertex = scan.vertex(row);
    let index = vertex.life.index;
    let head = table.load(token, layout.second_at(index));
    if head != vertex.head {
        return false;
    }
    if !are_links_same(table, token, scan, row) {
        return false;
    }
    let counter = table.load(token, layout.third_at(index));
    if counter != vertex.counter {
        return false;
    }
    let link = Link(table.load(token, layout.link_at(index)));
    if link.marked() {
        return false;
    }
    let tag = link.tag();
    if tag != vertex.life.tag {
        return false;
    }
    true
}

/// Whether the link of each edge of a row is the recorded one.
fn are_links_same(table: &GraphTable, token: &mut Token, scan: &Scan, row: u32) -> bool
    requires table { IsOf table.now token.old }
    requires number { token.old.view.numbered ≡ true }
    requires inside { IsInside table.now.sizes scan.now }
    requires row { row < length scan.now.rows }
    ensures table { IsOf table.now token.new }
    ensures makes { Makes token.old.view [] token.new.view }
    ensures again { MatchLinksAgain result table.now.sizes token.old.view.front token.new.view.front scan.now row }
{
    let layout = table.layout();
    let edges = scan.edges();
    let vertex = scan.vertex(row);
    let first = vertex.first;
    let count = vertex.count;
    let mut place = 0;
    while place < count {
        prove!(first + place < edges);
        let edge = scan.edge(first + place);
        let link = table.load(token, layout.link_at(edge.life.index));
        if link != edge.link {
            return false;
        }
        place += 1;
    }
    true
}
