//! A scan: rows of vertices and edges in fixed storage, with an answer region and work room.
//!
//! A node's row is found by a table of row numbers at node indices. An entry of it may be stale: it counts
//! only where the row that it names has the life that is looked for, so a scan is cleared without a touch of
//! the table (Briggs and Torczon 1993). `IsScan` of `specs/Scan.antt` is what every scan keeps.

ghost use Rattle.std.specs.Prelude.{◌≡◌, ◌≢◌, ℕ, ◌+◌, ◌<◌, ◌≤◌, [], ◌∷◌, ◌++◌, All, IfOk, IfSome, IfNone};
ghost use Rattle.std.specs.Prelude.{length, slice_index, slice_set};
ghost use Rattle.std.specs.Option.{ForSome};

use crate::room::put;
use crate::rows::{EdgeRow, VertexRow};
use graph_kinds::Memory;
use packed_link::Life;
use std::alloc::{AllocError, Global};
use std::marker::Model;

/// One collected part of a graph. Vertex rows and edge places are numbered from 0 in the order of their
/// pushes. After `new` no call takes memory.
#[derive(Drop)]
pub struct Scan {
    nodes: u32,
    started: u32,
    next: u32,
    numbers: Vec<u32>,
    rows: Vec<VertexRow>,
    edges: Vec<EdgeRow>,
    keys: Vec<u32>,
    ends: Vec<u32>,
    costs: Vec<u64>,
    slot_zero: Vec<u32>,
    slot_one: Vec<u32>,
    slot_two: Vec<u32>,
}

impl Model for Scan {
    ghost use Rattle.scan_record.specs.Scan.{ScanValue};

    ghost Value = { ScanValue };

    ghost use Rattle.scan_record.specs.Storage.{scan_of, IsStored};

    ghost view = { scan_of };

    ghost invariant = { IsStored };
}

impl Scan {
    ghost use Rattle.scan_record.specs.Scan.{IsScan, empty_scan, row_at, edge_at, edges_of, last_edges};
    ghost use Rattle.scan_record.specs.Scan.{with_vertex, with_started, with_edge, slot_of, with_slot};

    /// An empty scan with room for `nodes` vertex rows and as many edge rows, keys and level ends, in
    /// O(nodes).
    ///
    /// # Errors
    /// `Memory` where there is no memory for them.
    pub fn new(alloc: Global, nodes: u32) -> Result<Scan, Memory>
        requires { nodes ≤ 65536 }
        ensures { IfOk result (λ scan. scan ≡ empty_scan nodes) }
    {
        match Scan::with_room(alloc, nodes) {
            Ok(scan) => Ok(scan),
            Err(_) => Err(Memory),
        }
    }

    // An empty scan, with the allocator's own error.
    fn with_room(alloc: Global, nodes: u32) -> Result<Scan, AllocError>
        requires { nodes ≤ 65536 }
        ensures { IfOk result (λ scan. scan ≡ empty_scan nodes) }
    {
        let room = nodes as usize;
        Ok(Scan {
            nodes,
            started: 0,
            next: 0,
            numbers: vec![in alloc; 0; room]?,
            rows: Vec::with_capacity(alloc, room)?,
            edges: Vec::with_capacity(alloc, room)?,
            keys: Vec::with_capacity(alloc, room)?,
            ends: Vec::with_capacity(alloc, room)?,
            costs: Vec::with_capacity(alloc, room)?,
            slot_zero: Vec::with_capacity(alloc, room)?,
            slot_one: Vec::with_capacity(alloc, room)?,
            slot_two: Vec::with_capacity(alloc, room)?,
        })
    }

    /// Leaves no rows and no answer, in O(what the scan holds).
    pub fn clear(&mut self)
        ensures { self.new ≡ empty_scan self.old.nodes }
    {
        self.clear_answer();
        self.started = 0;
        self.next = 0;
        self.rows.clear();
        self.edges.clear();
        self.costs.clear();
        self.slot_zero.clear();
        self.slot_one.clear();
        self.slot_two.clear();
    }

    /// For how many vertex rows there is room, and for as many edge rows, keys and level ends. O(1).
    pub fn nodes(&self) -> u32
        ensures count { result ≡ self.now.nodes }
        ensures few { self.now.nodes ≤ 65536 }
    {
        self.nodes
    }

    /// How many vertex rows there are. O(1).
    pub fn vertices(&self) -> u32
        ensures count { result ≡ length self.now.rows }
        ensures valid { IsScan self.now }
    {
        self.rows.len() as u32
    }

    /// How many edge rows there are. O(1).
    pub fn edges(&self) -> u32
        ensures count { result ≡ length self.now.edges }
        ensures valid { IsScan self.now }
    {
        self.edges.len() as u32
    }

    /// Adds a vertex row, whose cost and work numbers are 0, and gives its number. O(1).
    pub fn push_vertex(&mut self, life: Life, key: u32) -> u32
        requires room { length self.old.rows < self.old.nodes }
        requires index { life.index < self.old.nodes }
        requires absent { (k : ℕ) → k < length self.old.rows → (row_at self.old k).life.index ≢ life.index }
        ensures number { result ≡ length self.old.rows }
        ensures pushed { self.new ≡ with_vertex self.old life key }
    {
        let row = self.rows.len() as u32;
        self.numbers[life.index as usize] = row;
        put(
            &mut self.rows,
            VertexRow {
                life,
                key,
                counter: 0,
                head: 0,
                first: 0,
                count: 0,
            },
        );
        put(&mut self.costs, 0);
        put(&mut self.slot_zero, 0);
        put(&mut self.slot_one, 0);
        put(&mut self.slot_two, 0);
        row
    }

    /// Starts the edges of a row, with the words counter and head as they were read. Rows are started in
    /// rising order, each once. O(1).
    pub fn start_edges(&mut self, row: u32, counter: u64, head: u64)
        requires row { row < length self.old.rows }
        requires rising { self.old.next ≤ row }
        ensures started { self.new ≡ with_started self.old row counter head }
        ensures no_edges { last_edges self.new ≡ [] }
    {
        let first = self.edges.len() as u32;
        let start = &mut self.rows[row as usize];
        start.counter = counter;
        start.head = head;
        start.first = first;
        start.count = 0;
        self.started += 1;
        self.next = row + 1;
    }

    /// Adds an edge to the row started last. O(1).
    pub fn push_edge(&mut self, edge: EdgeRow)
        requires room { length self.old.edges < self.old.nodes }
        requires started { 0 < self.old.next }
        requires weighed { 1 ≤ edge.weight }
        requires target { ForSome edge.target (λ row. row < length self.old.rows) }
        requires rising { All (λ e. e.key < edge.key) (last_edges self.old) }
        ensures pushed { self.new ≡ with_edge self.old edge }
        ensures last { last_edges self.new ≡ last_edges self.old ++ edge ∷ [] }
    {
        put(&mut self.edges, edge);
        let last = &mut self.rows[self.next as usize - 1];
        last.count += 1;
    }

    /// The number of the row of a life, by one look into the table; none where no row has this life. O(1).
    pub fn row_of(&self, life: Life) -> Option<u32>
        ensures row { IfSome result (λ row. (row < length self.now.rows) × ((row_at self.now row).life ≡ life)) }
        ensures none { IfNone result ((k : ℕ) → k < length self.now.rows → (row_at self.now k).life ≢ life) }
    {
        let row = *self.numbers.get(life.index as usize)?;
        let found = self.rows.get(row as usize)?;
        if found.life == life { Some(row) } else { None }
    }

    /// The vertex row of a number, as it stands. O(1).
    pub fn vertex(&self, row: u32) -> VertexRow
        requires { row < length self.now.rows }
        ensures { result ≡ row_at self.now row }
    {
        self.rows[row as usize]
    }

    /// The edge row at a place. O(1).
    pub fn edge(&self, place: u32) -> EdgeRow
        requires { place < length self.now.edges }
        ensures { result ≡ edge_at self.now place }
    {
        self.edges[place as usize]
    }

    /// The keys of the answer region. O(1).
    pub fn keys(&self) -> &[u32]
        ensures { result.now ≡ self.now.keys }
    {
        self.keys.as_slice()
    }

    /// The level ends of the answer region. O(1).
    pub fn ends(&self) -> &[u32]
        ensures { result.now ≡ self.now.ends }
    {
        self.ends.as_slice()
    }

    /// Empties the answer region, in O(what it holds).
    pub fn clear_answer(&mut self)
        ensures { self.new ≡ record self.old { keys = []; ends = [] } }
    {
        self.keys.clear();
        self.ends.clear();
    }

    /// Adds a key at the end of the answer's keys. O(1).
    pub fn put_key(&mut self, key: u32)
        requires { length self.old.keys < self.old.nodes }
        ensures { self.new ≡ record self.old { keys = self.old.keys ++ key ∷ [] } }
    {
        put(&mut self.keys, key);
    }

    /// Adds a level end at the end of the answer's level ends. O(1).
    pub fn put_end(&mut self, end: u32)
        requires { length self.old.ends < self.old.nodes }
        ensures { self.new ≡ record self.old { ends = self.old.ends ++ end ∷ [] } }
    {
        put(&mut self.ends, end);
    }

    /// The cost in a row's work room. O(1).
    pub fn cost(&self, row: u32) -> u64
        requires { row < length self.now.rows }
        ensures { result ≡ slice_index self.now.costs row }
    {
        self.costs[row as usize]
    }

    /// Writes the cost in a row's work room. O(1).
    pub fn set_cost(&mut self, row: u32, cost: u64)
        requires { row < length self.old.rows }
        ensures { self.new ≡ record self.old { costs = slice_set self.old.costs row cost } }
    {
        self.costs[row as usize] = cost;
    }

    /// The number in a slot of a row's work room. O(1).
    pub fn work(&self, row: u32, slot: u32) -> u32
        requires row { row < length self.now.rows }
        requires slot { slot < 3 }
        ensures { result ≡ slice_index (slot_of self.now slot) row }
    {
        match slot {
            0 => self.slot_zero[row as usize],
            1 => self.slot_one[row as usize],
            _ => self.slot_two[row as usize],
        }
    }

    /// Writes the number in a slot of a row's work room. O(1).
    pub fn set_work(&mut self, row: u32, slot: u32, value: u32)
        requires row { row < length self.old.rows }
        requires slot { slot < 3 }
        ensures { self.new ≡ with_slot self.old slot (slice_set (slot_of self.old slot) row value) }
    {
        match slot {
            0 => self.slot_zero[row as usize] = value,
            1 => self.slot_one[row as usize] = value,
            _ => self.slot_two[row as usize] = value,
        }
    }
}

#[cfg(test)]
mod tests {
    use super::*;
    use std::test::Fail;

    const FIRST: Life = Life { index: 3, tag: 1 };

    const SECOND: Life = Life { index: 1, tag: 2 };

    // 7 with an edge to 9 and one whose target is gone, and 9 with none.
    fn worked(alloc: Global) -> Result<Scan, Memory> {
        let mut scan = Scan::new(alloc, 5)?;
        scan.push_vertex(FIRST, 7);
        scan.push_vertex(SECOND, 9);
        scan.start_edges(0, 11, 21);
        scan.push_edge(EdgeRow {
            life: FIRST,
            link: 32,
            key: 9,
            weight: 5,
            target: Some(1),
        });
        scan.push_edge(EdgeRow {
            life: SECOND,
            link: 34,
            key: 12,
            weight: 3,
            target: None,
        });
        scan.start_edges(1, 12, 22);
        Ok(scan)
    }

    #[test]
    fn a_worked_scan_is_read_back(rt: HostRuntime) -> Result<(), Fail> {
        let scan = worked(rt.alloc())?;
        let rows = [
            VertexRow {
                life: FIRST,
                key: 7,
                counter: 11,
                head: 21,
                first: 0,
                count: 2,
            },
            VertexRow {
                life: SECOND,
                key: 9,
                counter: 12,
                head: 22,
                first: 2,
                count: 0,
            },
        ];
        let edges = [(32, 9, 5, Some(1)), (34, 12, 3, None)];
        assert_eq!(rt; (scan.vertices(), scan.edges()), (2, 2));
        for (row, expected) in (0..2).zip(rows) {
            assert!(rt; row < scan.vertices());
            assert_eq!(rt; scan.vertex(row), expected);
        }
        for (place, expected) in (0..2).zip(edges) {
            assert!(rt; place < scan.edges());
            let edge = scan.edge(place);
            assert_eq!(rt; (edge.link, edge.key, edge.weight, edge.target), expected);
        }
        for (index, tag, row) in [
            (3, 1, Some(0)),
            (3, 2, None),
            (1, 2, Some(1)),
            (0, 1, None),
            (9, 1, None),
        ] {
            assert_eq!(rt; scan.row_of(Life { index, tag }), row);
        }
        Ok(())
    }

    #[test]
    fn a_cleared_scan_forgets_its_rows_and_answer(rt: HostRuntime) -> Result<(), Fail> {
        let mut scan = Scan::new(rt.alloc(), 5)?;
        scan.push_vertex(FIRST, 7);
        scan.set_cost(0, 1 << 40);
        scan.set_work(0, 0, 5);
        scan.set_work(0, 1, 6);
        scan.set_work(0, 2, 7);
        assert_eq!(rt;
            (
                scan.cost(0),
                scan.work(0, 0),
                scan.work(0, 1),
                scan.work(0, 2)
            ),
            (1 << 40, 5, 6, 7)
        );
        scan.put_key(7);
        scan.put_end(1);
        assert_eq!(rt;
            (scan.keys(), scan.ends()),
            ([7].as_slice(), [1].as_slice())
        );
        scan.clear();
        assert!(rt; scan.keys().is_empty() && scan.ends().is_empty());
        assert_eq!(rt; (scan.vertices(), scan.row_of(FIRST)), (0, None));
        assert_eq!(rt; scan.push_vertex(SECOND, 9), 0);
        assert_eq!(rt; (scan.row_of(FIRST), scan.row_of(SECOND)), (None, Some(0)));
        Ok(())
    }
}
