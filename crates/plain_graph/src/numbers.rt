//! The numbers of the rows of a scan, by their keys.
//!
//! Each key has a bucket, by its lowest bits, and a bucket has the number of the row that came first into it, so a
//! look mostly needs no search. Rows that came later stand in an ordered map. Both are kept from scan to scan and never
//! cleared: a number counts only where the row that it names is of this bucket, or has this key (as in Briggs and
//! Torczon 1993). `IsNumbering` of `specs/Collecting.antt`.

ghost use Rattle.std.specs.Prelude.{◌≡◌, ◌≢◌, ℕ, ◌<◌, ◌%◌, ◌↔◌, length, slice_index, OnOk, IfSome, IfNone, IsTrue};
ghost use Rattle.scan_record.specs.Scan.{row_at};
ghost use Rattle.plain_graph.specs.Collecting.{IsNumbering, IsOfBucket, with_key};

use graph_kinds::Memory;
use packed_link::Life;
use scan_record::Scan;
use std::alloc::Global;
use std::collections::BTreeMap;

/// How many buckets there are.
const BUCKETS: u32 = 65_536;

/// The number of the row of each key, where it is still right.
#[derive(Drop)]
pub struct Numbers {
    firsts: Vec<u32>,
    others: BTreeMap<u32, u32>,
}

impl Numbers {
    /// No numbers. O(1), takes no memory.
    pub fn new(alloc: Global) -> Self {
        Numbers {
            firsts: Vec::new(alloc),
            others: BTreeMap::new(alloc),
        }
    }

    /// Makes the buckets where there are none yet, in O(65,536) the first time and O(1) from then on.
    ///
    /// # Errors
    /// `Memory` where there is no room for them.
    pub fn prepare(&mut self, alloc: Global) -> Result<(), Memory>
        ensures { OnOk result (length self.new.firsts.items ≡ 65536) }
    {
        if self.firsts.len() == BUCKETS as usize {
            return Ok(());
        }
        match vec![in alloc; 0; BUCKETS as usize] {
            Ok(firsts) => {
                self.firsts = firsts;
                Ok(())
            }
            Err(_) => Err(Memory),
        }
    }

    /// Forgets the number of a key that isn't the first of its bucket. O(log V).
    pub fn forget(&mut self, key: u32) {
        self.others.remove(&key);
    }

    /// The number of the row that has a key, if there is one. O(1), and O(log V) where another key came first into
    /// its bucket.
    pub fn row_of(&self, scan: &Scan, key: u32) -> Option<u32>
        requires { IsNumbering self.now scan.now }
        ensures row { IfSome result (λ row. (row < length scan.now.rows) × ((row_at scan.now row).key ≡ key)) }
        ensures none { IfNone result ((k : ℕ) → k < length scan.now.rows → (row_at scan.now k).key ≢ key) }
    {
        let first = self.firsts[(key % BUCKETS) as usize];
        if first >= scan.vertices() {
            return None;
        }
        let held = scan.vertex(first).key;
        if held == key {
            return Some(first);
        }
        if held % BUCKETS != key % BUCKETS {
            return None;
        }
        self.other_row_of(scan, key)
    }

    /// The number of the row that has a key and isn't the first of its bucket, if there is one. O(log V).
    fn other_row_of(&self, scan: &Scan, key: u32) -> Option<u32>
        requires numbering { IsNumbering self.now scan.now }
        requires later { slice_index self.now.firsts.items (key % 65536) < length scan.now.rows
            → (row_at scan.now (slice_index self.now.firsts.items (key % 65536))).key ≢ key }
        ensures row { IfSome result (λ row. (row < length scan.now.rows) × ((row_at scan.now row).key ≡ key)) }
        ensures none { IfNone result ((k : ℕ) → k < length scan.now.rows → (row_at scan.now k).key ≢ key) }
    {
        let row = *self.others.get(&key)?;
        if row < scan.vertices() && scan.vertex(row).key == key {
            Some(row)
        } else {
            None
        }
    }

    /// Whether a row of the scan has come first into a bucket. O(1).
    fn is_taken(&self, scan: &Scan, bucket: u32) -> bool
        requires wide { length self.now.firsts.items ≡ 65536 }
        requires bucket { bucket < 65536 }
        ensures { IsTrue result ↔ IsOfBucket scan.now bucket (slice_index self.now.firsts.items bucket) }
    {
        let first = self.firsts[bucket as usize];
        first < scan.vertices() && scan.vertex(first).key % BUCKETS == bucket
    }

    /// Notes the number of the next row of a scan, which is to have a key that has none. O(1), and O(log V) where
    /// another key came first into its bucket.
    ///
    /// # Errors
    /// `Memory` where there is no room to note it.
    pub fn note(&mut self, scan: &Scan, key: u32) -> Result<(), Memory>
        requires numbering { IsNumbering self.old scan.now }
        requires absent { (k : ℕ) → k < length scan.now.rows → (row_at scan.now k).key ≢ key }
        ensures { OnOk result (IsNumbering self.new (with_key scan.now key)) }
    {
        let row = scan.vertices();
        if self.is_taken(scan, key % BUCKETS) {
            return match self.others.insert(key, row) {
                Ok(_) => Ok(()),
                Err(_) => Err(Memory),
            };
        }
        self.firsts[(key % BUCKETS) as usize] = row;
        Ok(())
    }
}
