//! The heap of the rows that wait, in the work room of a scan: a binary heap by cost, with the place of each
//! row (Williams 1964).
//!
//! Slot 0 has the row of a place. Slot 1 has the state of a row, and for a row that waits its place: `IsHeap` of
//! `specs/Heap.antt`. A caller of the heap sees the rows that wait, `states_of`, and their costs.

ghost use Rattle.std.specs.Prelude.{◌≡◌, ◌≢◌, ℕ, ◌+◌, ◌-◌, ◌*◌, ◌<◌, ◌≤◌, length, slice_index, slice_set};
ghost use Rattle.scan_record.specs.Scan.{IsScan};
ghost use Rattle.path_costs.specs.Heap.{states_of, state_of, cost_at, IsBelow, IsPlaced, IsHeap, IsHeapBut};

use scan_record::Scan;

/// The slot that has the row of a place in the heap.
pub const ROW: u32 = 0;
/// The slot that has the state of a row, with its place in the heap.
pub const STATE: u32 = 1;

/// The state of a row that was not met.
pub const NOT_MET: u32 = 0;
/// The state of a row that was taken from the heap.
pub const SETTLED: u32 = 1;
/// The state of the row at place 0 of the heap. At each other place it is as much more as the place.
pub const WAITING: u32 = 2;

/// The cost of the row at a place. O(1).
fn place_cost(scan: &Scan, places: u32, place: u32) -> u64
    requires placed { IsPlaced scan.now places }
    requires place { place < places }
    ensures { result ≡ cost_at scan.now place }
{
    prove!(place < places && places <= scan.vertices());
    scan.cost(scan.work(place, ROW))
}

/// Writes a row at a place, and the place at the row. O(1).
fn put(scan: &mut Scan, place: u32, row: u32)
    requires place { place < length scan.old.rows }
    requires row { row < length scan.old.rows }
    ensures valid { IsScan scan.old }
    ensures put { scan.new ≡ record scan.old {
      slot_zero = slice_set scan.old.slot_zero place row;
      slot_one = slice_set scan.old.slot_one row (place + 2);
    } }
{
    prove!(place < scan.vertices());
    scan.set_work(place, ROW, row);
    scan.set_work(row, STATE, place + WAITING);
}

/// Swaps the rows at two places. O(1).
fn swap(scan: &mut Scan, places: u32, first: u32, second: u32)
    requires placed { IsPlaced scan.old places }
    requires first { first < places }
    requires second { second < places }
    ensures placed { IsPlaced scan.new places }
    ensures at_first { slice_index scan.new.slot_zero first ≡ slice_index scan.old.slot_zero second }
    ensures at_second { slice_index scan.new.slot_zero second ≡ slice_index scan.old.slot_zero first }
    ensures others { (p : ℕ) → p ≢ first → p ≢ second
        → slice_index scan.new.slot_zero p ≡ slice_index scan.old.slot_zero p }
    ensures states { states_of scan.new ≡ states_of scan.old }
    ensures rest { scan.new ≡ record scan.old { slot_zero = scan.new.slot_zero; slot_one = scan.new.slot_one } }
{
    prove!(first < places && second < places && places <= scan.vertices());
    let up = scan.work(first, ROW);
    let down = scan.work(second, ROW);
    put(scan, first, down);
    put(scan, second, up);
}

/// Moves the row at a place up to where none above costs more, in O(log places).
fn rise(scan: &mut Scan, places: u32, place: u32)
    requires heap { IsHeapBut scan.old places place }
    requires place { place < places }
    requires below { (p : ℕ) → p < places → IsBelow place p → cost_at scan.old place ≤ cost_at scan.old p }
    ensures heap { IsHeap scan.new places }
    ensures states { states_of scan.new ≡ states_of scan.old }
    ensures rest { scan.new ≡ record scan.old { slot_zero = scan.new.slot_zero; slot_one = scan.new.slot_one } }
{
    let mut at = place;
    while at > 0 {
        let up = (at - 1) / 2;
        if place_cost(scan, places, up) <= place_cost(scan, places, at) {
            return;
        }
        swap(scan, places, up, at);
        at = up;
    }
}

/// The cheaper of the places right below one, which has one below it. O(1).
fn cheaper_below(scan: &Scan, places: u32, place: u32) -> u32
    requires placed { IsPlaced scan.now places }
    requires below { 2 * place + 1 < places }
    ensures place { (result < places) × IsBelow place result }
    ensures least { (p : ℕ) → p < places → IsBelow place p → cost_at scan.now result ≤ cost_at scan.now p }
{
    prove!(places <= scan.vertices());
    let left = 2 * place + 1;
    if left + 1 < places && place_cost(scan, places, left + 1) < place_cost(scan, places, left) {
        left + 1
    } else {
        left
    }
}

/// Moves the row at place 0 down to where none below costs less, in O(log places).
fn sink(scan: &mut Scan, places: u32)
    requires { IsHeapBut scan.old places 0 }
    ensures heap { IsHeap scan.new places }
    ensures states { states_of scan.new ≡ states_of scan.old }
    ensures rest { scan.new ≡ record scan.old { slot_zero = scan.new.slot_zero; slot_one = scan.new.slot_one } }
{
    prove!(places <= scan.vertices());
    let mut at = 0;
    while 2 * at + 1 < places {
        let down = cheaper_below(scan, places, at);
        if place_cost(scan, places, at) <= place_cost(scan, places, down) {
            return;
        }
        swap(scan, places, at, down);
        at = down;
    }
}

/// Takes a row out of the heap than which none there costs less, and settles it, in O(log places).
pub fn take(scan: &mut Scan, places: u32) -> u32
    requires heap { IsHeap scan.old places }
    requires some { 0 < places }
    ensures row { result < length scan.old.rows }
    ensures waited { state_of scan.old result ≡ WAITING }
    ensures least { (r : ℕ) → r < length scan.old.rows → state_of scan.old r ≡ WAITING
        → slice_index scan.old.costs result ≤ slice_index scan.old.costs r }
    ensures states { states_of scan.new ≡ slice_set (states_of scan.old) result SETTLED }
    ensures heap { IsHeap scan.new (places - 1) }
    ensures rest { scan.new ≡ record scan.old { slot_zero = scan.new.slot_zero; slot_one = scan.new.slot_one } }
{
    prove!(places <= scan.vertices());
    let row = scan.work(0, ROW);
    swap(scan, places, 0, places - 1);
    prove!(row < scan.vertices());
    scan.set_work(row, STATE, SETTLED);
    sink(scan, places - 1);
    row
}

/// Puts a row that was not met into the heap, with a cost, in O(log places).
pub fn enter(scan: &mut Scan, places: u32, row: u32, cost: u64)
    requires heap { IsHeap scan.old places }
    requires row { row < length scan.old.rows }
    requires new { state_of scan.old row ≡ NOT_MET }
    ensures few { places < length scan.old.rows }
    ensures states { states_of scan.new ≡ slice_set (states_of scan.old) row WAITING }
    ensures heap { IsHeap scan.new (places + 1) }
    ensures rest { scan.new ≡ record scan.old {
      costs = slice_set scan.old.costs row cost;
      slot_zero = scan.new.slot_zero;
      slot_one = scan.new.slot_one;
    } }
{
    prove!(places < scan.vertices());
    scan.set_cost(row, cost);
    put(scan, places, row);
    rise(scan, places + 1, places);
}

/// Gives a row in the heap a lower cost, in O(log places).
pub fn lower(scan: &mut Scan, places: u32, row: u32, cost: u64)
    requires heap { IsHeap scan.old places }
    requires row { row < length scan.old.rows }
    requires waits { state_of scan.old row ≡ WAITING }
    requires lower { cost ≤ slice_index scan.old.costs row }
    ensures states { states_of scan.new ≡ states_of scan.old }
    ensures heap { IsHeap scan.new places }
    ensures rest { scan.new ≡ record scan.old {
      costs = slice_set scan.old.costs row cost;
      slot_zero = scan.new.slot_zero;
      slot_one = scan.new.slot_one;
    } }
{
    prove!(row < scan.vertices());
    scan.set_cost(row, cost);
    let place = scan.work(row, STATE) - WAITING;
    rise(scan, places, place);
}
