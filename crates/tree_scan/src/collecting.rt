//! Collect: the part of the graph that is reached from a root is recorded on a scan.
//!
//! Row by row the counter of a vertex is loaded first, then its head, and then its list is walked through marked edges
//! too. So an edge that is linked and taken away while the list is walked shows in the counter, which verify loads last
//! (`core_scans`).

ghost use Rattle.std.specs.Prelude.{◌≡◌, ◌≢◌, ℕ, ◌+◌, ◌<◌, ◌≤◌, [], true, List, Some, length};
ghost use Rattle.packed_link.specs.Link.{index_of, mark_of, nowhere};
ghost use Rattle.core_journal.specs.Life.{key_of};
ghost use Rattle.core_journal.specs.declared.event.Event.{Event};
ghost use Rattle.core_scans.specs.Walking.{AreRowsMet, IsMore};
ghost use Rattle.core_stretches.specs.Makes.{Makes};
ghost use Rattle.graph_table.specs.Tokens.{IsOf};
ghost use Rattle.tree_scan.specs.Collects.{IsAtEdge, IsAtRow, IsCollectedFrom, IsEdgeTold, IsGrown, IsInRow};
ghost use Rattle.tree_scan.specs.Collects.{IsRootFound, IsTargetRow, LeadsInside, LeadsToMet, MatchAim, MatchReplaced};

use graph_table::{GraphTable, Token};
use packed_link::{Life, Link};
use scan_record::{EdgeRow, Scan};

/// An edge whose words were loaded: its row, still without the row of its target, and its target.
#[derive(Clone, Copy)]
pub(crate) struct LoadedEdge {
    pub(crate) row: EdgeRow,
    pub(crate) target: Life,
}

/// What becomes of an edge that was loaded: it's passed over, since it was replaced, or recorded with the row of its
/// target, where it has one.
#[derive(Clone, Copy)]
pub(crate) enum Aim {
    Replaced,
    Target(Option<u32>),
}

/// Records the part of the graph that is reached from a root on a scan. This pass met the root, which was present when
/// it was found, and the token made no event since. Row by row the counter is loaded, then the head, and then the list
/// is walked, through marked edges too. Each edge is recorded with the link that was loaded, unless it was replaced. An
/// edge whose link was loaded unmarked leads to the row of its target, which is added where it isn't there, if that
/// vertex is alive. Takes no memory, in O(vertices + edges) of what it records.
pub fn collect(table: &GraphTable, token: &mut Token, root: Life, scan: &mut Scan)
    requires table { IsOf table.now token.old }
    requires number { token.old.view.numbered ≡ true }
    requires room { table.now.sizes.nodes ≤ scan.old.nodes }
    requires found { (start : List Event) × (key : ℕ) × IsRootFound token.old.view start root key }
    ensures table { IsOf table.now token.new }
    ensures makes { Makes token.old.view [] token.new.view }
    ensures room { scan.new.nodes ≡ scan.old.nodes }
    ensures filled { (start : List Event) (key : ℕ) → IsRootFound token.old.view start root key
        → IsCollectedFrom token.new.view start root key scan.new }
{
    let layout = table.layout();
    let key = table.load(token, layout.key_at(root.index)) as u32;
    scan.clear();
    scan.push_vertex(root, key);
    let mut row = 0;
    while row < scan.vertices() {
        collect_row(table, token, scan, row);
        row += 1;
    }
}

/// Records the edges of a row: its counter is loaded, then its head, and then its list.
fn collect_row(table: &GraphTable, token: &mut Token, scan: &mut Scan, row: u32)
    requires table { IsOf table.now token.old }
    requires number { token.old.view.numbered ≡ true }
    requires row { row ≡ scan.old.next }
    requires inside { row < length scan.old.rows }
    requires stands { (start : List Event) × IsAtRow token.old.view start scan.old }
    ensures table { IsOf table.now token.new }
    ensures makes { Makes token.old.view [] token.new.view }
    ensures more { IsMore scan.old scan.new }
    ensures room { scan.new.nodes ≡ scan.old.nodes }
    ensures next { scan.new.next ≡ scan.old.next + 1 }
    ensures stands { (start : List Event) → IsAtRow token.old.view start scan.old
        → IsAtRow token.new.view start scan.new }
{
    let layout = table.layout();
    let rows = scan.vertices();
    prove!(row < rows);
    let index = scan.vertex(row).life.index;
    prove!(index < layout.nodes());
    let counter = table.load(token, layout.third_at(index));
    let head = table.load(token, layout.second_at(index));
    scan.start_edges(row, counter, head);
    collect_list(table, token, scan, head);
}

/// Records the edges to which a row's head leads, through marked ones too. It ends, since a walk meets each node once.
fn collect_list(table: &GraphTable, token: &mut Token, scan: &mut Scan, head: u64)
    requires table { IsOf table.now token.old }
    requires number { token.old.view.numbered ≡ true }
    requires stands { (start : List Event) × IsAtEdge token.old.view start scan.old head 0 }
    ensures table { IsOf table.now token.new }
    ensures makes { Makes token.old.view [] token.new.view }
    ensures grown { IsGrown scan.old scan.new }
    ensures stands { (start : List Event) → IsAtEdge token.old.view start scan.old head 0
        → IsAtRow token.new.view start scan.new }
{
    let mut at = head;
    let mut steps = 0u32;
    while Link(at).index() != 16_777_215 {
        at = collect_edge(table, token, scan, at);
        steps += 1;
    }
}

/// Records the edge to which a word leads, or passes over it if it was replaced, and gives its link.
fn collect_edge(table: &GraphTable, token: &mut Token, scan: &mut Scan, at: u64) -> u64
    requires table { IsOf table.now token.old }
    requires number { token.old.view.numbered ≡ true }
    requires some { index_of at ≢ nowhere }
    requires stands { (start : List Event) × (steps : ℕ) × IsAtEdge token.old.view start scan.old at steps }
    ensures table { IsOf table.now token.new }
    ensures makes { Makes token.old.view [] token.new.view }
    ensures grown { IsGrown scan.old scan.new }
    ensures stands { (start : List Event) (steps : ℕ) → IsAtEdge token.old.view start scan.old at steps
        → IsAtEdge token.new.view start scan.new result (steps + 1) }
{
    prove!(scan.edges() <= scan.nodes());
    let edge = load_edge(table, token, at);
    let link = edge.row.link;
    match aim_of(table, token, scan, edge) {
        Aim::Replaced => {}
        Aim::Target(target) => {
            prove!(scan.edges() < scan.nodes());
            scan.push_edge(EdgeRow { target, ..edge.row });
        }
    }
    link
}

/// What becomes of an edge that was loaded. The link of its target is loaded only if its own is unmarked.
fn aim_of(table: &GraphTable, token: &mut Token, scan: &mut Scan, edge: LoadedEdge) -> Aim
    requires table { IsOf table.now token.old }
    requires number { token.old.view.numbered ≡ true }
    requires stands { IsInRow token.old.view scan.old }
    requires edge { (at : ℕ) × IsEdgeTold token.old.view at edge }
    ensures table { IsOf table.now token.new }
    ensures makes { Makes token.old.view [] token.new.view }
    ensures aim { MatchAim result token.new.view scan.old scan.new edge }
    ensures met { (start : List Event) (at steps : ℕ) → IsAtEdge token.old.view start scan.old at steps
        → AreRowsMet token.new.view start scan.new }
{
    let link = Link(edge.row.link);
    if !link.marked() {
        return Aim::Target(target_row(table, token, scan, edge.target, edge.row.key));
    }
    if leads_to_its_key(table, token, link, edge.row.key) {
        return Aim::Replaced;
    }
    Aim::Target(None)
}

/// Whether a marked link leads to a node of the edge's own key: then the edge was replaced.
fn leads_to_its_key(table: &GraphTable, token: &mut Token, link: Link, key: u32) -> bool
    requires table { IsOf table.now token.old }
    requires number { token.old.view.numbered ≡ true }
    requires marked { mark_of link.0 ≡ 1 }
    requires inside { LeadsInside table.now.sizes link.0 }
    ensures table { IsOf table.now token.new }
    ensures makes { Makes token.old.view [] token.new.view }
    ensures replaced { MatchReplaced result token.new.view key link.0 }
{
    let layout = table.layout();
    let index = link.index();
    if index == 16_777_215 {
        return false;
    }
    prove!(index < layout.nodes());
    table.load(token, layout.key_at(index)) == u64::from(key)
}

/// The row of a target, which is added where it isn't there; none where that life is over.
fn target_row(
    table: &GraphTable,
    token: &mut Token,
    scan: &mut Scan,
    target: Life,
    key: u32,
) -> Option<u32>
    requires table { IsOf table.now token.old }
    requires number { token.old.view.numbered ≡ true }
    requires stands { IsInRow token.old.view scan.old }
    requires linked { key_of token.old.view.front target ≡ Some key }
    ensures table { IsOf table.now token.new }
    ensures makes { Makes token.old.view [] token.new.view }
    ensures target { IsTargetRow token.new.view scan.old scan.new target key result }
    ensures met { (start : List Event) (at steps : ℕ) → IsAtEdge token.old.view start scan.old at steps
        → AreRowsMet token.new.view start scan.new }
{
    let layout = table.layout();
    prove!(target.index < layout.nodes());
    let link = Link(table.load(token, layout.link_at(target.index)));
    if link.marked() {
        return None;
    }
    if link.tag() != target.tag {
        return None;
    }
    let rows = scan.vertices();
    match scan.row_of(target) {
        Some(row) => Some(row),
        None => {
            prove!(rows < scan.nodes());
            Some(scan.push_vertex(target, key))
        }
    }
}

/// The edge to which a word leads, in four loads, of which that of its link is the last.
fn load_edge(table: &GraphTable, token: &mut Token, at: u64) -> LoadedEdge
    requires table { IsOf table.now token.old }
    requires number { token.old.view.numbered ≡ true }
    requires edge { LeadsToMet token.old.view at }
    ensures table { IsOf table.now token.new }
    ensures makes { Makes token.old.view [] token.new.view }
    ensures told { IsEdgeTold token.new.view at result }
{
    let layout = table.layout();
    let index = Link(at).index();
    prove!(index < layout.nodes());
    let key = table.load(token, layout.key_at(index)) as u32;
    let target = Link(table.load(token, layout.second_at(index)));
    let weight = table.load(token, layout.third_at(index)) as u32;
    let link = table.load(token, layout.link_at(index));
    LoadedEdge {
        row: EdgeRow {
            life: Life {
                index,
                tag: Link(link).tag(),
            },
            link,
            key,
            weight,
            target: None,
        },
        target: Life {
            index: target.index(),
            tag: target.tag(),
        },
    }
}
