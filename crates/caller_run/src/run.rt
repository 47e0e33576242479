//! The run of all rows.

ghost use Rattle.std.specs.Prelude.{◌≡◌, ℕ, ◌<◌, [], All, IfOk, OnOk, false, length, slice_index_or, vec_len};
ghost use Rattle.graph_kinds.specs.History.{calls_of};
ghost use Rattle.caller_run.specs.Asked.{HasAnsweredAll, HasAnsweredSome, rows_of_caller, answers_to_caller};
ghost use Rattle.caller_run.specs.Lanes.{HasTakenTurn, port_of};
ghost use Rattle.caller_run.specs.declared.lane.Lane.{Lane};

use crate::drive::take_turn;
use crate::lane::Lane;
use graph_kinds::{Answer, CallerPort, Memory, Row};
use std::alloc::Global;
use std::thread;
use std::thread::Threads;

// No lane has a call.
fn clear<P>(lanes: &mut [Lane<P>])
    ensures ports { (i : ℕ) (d : Lane P) → i < length lanes.old →
        (slice_index_or lanes.new i d).port ≡ (slice_index_or lanes.old i d).port }
    ensures calls { (i : ℕ) (d : Lane P) → i < length lanes.old → (slice_index_or lanes.new i d).calls.items ≡ [] }
{
    for i in 0..lanes.len() {
        lanes[i].calls.clear();
    }
}

// Gives each row's call to the lane of its caller, in the order of the rows.
fn deal<P>(rows: &[Row], lanes: &mut [Lane<P>]) -> Result<(), Memory>
    requires callers { All (λ r. r.caller < length lanes.old) rows.now }
    ensures ports { (i : ℕ) (d : Lane P) → i < length lanes.old →
        (slice_index_or lanes.new i d).port ≡ (slice_index_or lanes.old i d).port }
    ensures calls { OnOk result ((i : ℕ) (d : Lane P) → i < length lanes.old →
        (slice_index_or lanes.new i d).calls.items ≡ calls_of (rows_of_caller i rows.now)) }
{
    clear(lanes);
    for row in rows {
        lanes[row.caller as usize].add(row.call)?;
    }
    Ok(())
}

// Each lane takes its turn, on a thread of its own.
fn drive_all<R: Threads + Sync, P: CallerPort + Send>(
    rt: &R,
    alloc: Global,
    lanes: &mut [Lane<P>],
    tries: u32,
)
    requires calls { All (λ (l : Lane P). All (λ c. P.serves c) l.calls.items) lanes.old }
    requires some { 0 < tries }
    ensures number { (i : ℕ) (d : Lane P) → i < length lanes.old →
        P.number (slice_index_or lanes.new i d).port ≡ P.number (slice_index_or lanes.old i d).port }
    ensures origin { (i : ℕ) (d : Lane P) → i < length lanes.old →
        P.origin (slice_index_or lanes.new i d).port ≡ P.origin (slice_index_or lanes.old i d).port }
    ensures turns { (i : ℕ) (d : Lane P) → i < length lanes.old →
        HasTakenTurn P.book P.left P.front (slice_index_or lanes.old i d) (slice_index_or lanes.new i d) tries }
{
    let threads = lanes.len().max(1);
    thread::for_each_mut(
        rt,
        lanes,
        threads,
        &|_, lane: &mut Lane<P>| take_turn(alloc, tries, lane),
    );
}

// Whether memory ran out in a lane.
fn any_short<P>(lanes: &[Lane<P>]) -> bool
    ensures none { result ≡ false → (i : ℕ) (d : Lane P) → i < length lanes.now →
        (slice_index_or lanes.now i d).short ≡ false }
{
    for lane in lanes {
        if lane.short {
            return true;
        }
    }
    false
}

// The answers that the lanes keep, in the order of the rows.
fn merge<P>(alloc: Global, rows: &[Row], lanes: &mut [Lane<P>]) -> Result<Vec<Answer>, Memory>
    requires callers { All (λ r. r.caller < length lanes.old) rows.now }
    requires kept { (i : ℕ) (d : Lane P) → i < length lanes.old →
        length (slice_index_or lanes.old i d).kept.items ≡ length (calls_of (rows_of_caller i rows.now)) }
    ensures ports { (i : ℕ) (d : Lane P) → i < length lanes.old →
        (slice_index_or lanes.new i d).port ≡ (slice_index_or lanes.old i d).port }
    ensures one_each { IfOk result (λ v. vec_len v ≡ length rows.now) }
    ensures parts { IfOk result (λ v. (i : ℕ) (d : Lane P) → i < length lanes.old →
        answers_to_caller i rows.now v.items ≡ (slice_index_or lanes.old i d).kept.items) }
{
    let mut all = Vec::new(alloc);
    for row in rows {
        let answer = lanes[row.caller as usize].next_answer();
        if all.push(answer).is_err() {
            return Err(Memory);
        }
    }
    Ok(all)
}

/// Runs the rows, each on the port of its caller, with a thread for each port. A port keeps its number and what it is
/// a port of.
///
/// `Ok` has one answer for each row, in the order of the rows. The book of each port has grown by those of its rows'
/// calls that aren't answered Worn, in the order of the rows, each with its answer and this number of tries. If a port
/// has `n` uses left, its first `n` rows aren't answered Worn, and each later one is, without keys. O(rows + lanes),
/// beside what the ports do and the keys of their answers.
///
/// # Errors
/// `Memory` if there is no room for the calls, the answers or their keys. Then the book of each port has grown by the
/// calls of some of its rows, from the first on, each with this number of tries.
pub fn run_callers<R: Threads + Sync, P: CallerPort + Send>(
    rt: &R,
    alloc: Global,
    rows: &[Row],
    lanes: &mut [Lane<P>],
    tries: u32,
) -> Result<Vec<Answer>, Memory>
    requires some { 0 < tries }
    requires calls { All (λ r. P.serves r.call) rows.now }
    requires callers { All (λ r. r.caller < length lanes.old) rows.now }
    requires numbers { (i : ℕ) (d : Lane P) → i < length lanes.old →
        P.number (port_of (slice_index_or lanes.old i d)) ≡ i }
    ensures number { (i : ℕ) (d : Lane P) → i < length lanes.old →
        P.number (port_of (slice_index_or lanes.new i d)) ≡ i }
    ensures origin { (i : ℕ) (d : Lane P) → i < length lanes.old →
        P.origin (port_of (slice_index_or lanes.new i d)) ≡ P.origin (port_of (slice_index_or lanes.old i d)) }
    ensures one_each { IfOk result (λ v. vec_len v ≡ length rows.now) }
    ensures books { IfOk result (λ v. (i : ℕ) (d : Lane P) → i < length lanes.old →
        HasAnsweredAll P.book P.left P.front (port_of (slice_index_or lanes.old i d))
        (port_of (slice_index_or lanes.new i d)) tries (calls_of (rows_of_caller i rows.now))
        (answers_to_caller i rows.now v.items)) }
    ensures some { (i : ℕ) (d : Lane P) → i < length lanes.old →
        HasAnsweredSome P.book P.left P.front (port_of (slice_index_or lanes.old i d))
        (port_of (slice_index_or lanes.new i d)) tries (calls_of (rows_of_caller i rows.now)) }
{
    deal(rows, lanes)?;
    drive_all(rt, alloc, lanes, tries);
    if any_short(lanes) {
        return Err(Memory);
    }
    merge(alloc, rows, lanes)
}
