//! Rows on a shared graph, those of each caller on a thread of their own.

ghost use Rattle.std.specs.Prelude.{◌≡◌, ◌<◌, ◌≤◌, ℕ, All, IfOk, length, slice_index_or, true, false, vec_len};
ghost use Rattle.caller_run.specs.declared.lane.Lane.{Lane};
ghost use Rattle.graph_kinds.specs.declared.answer.Answer.{Answer};
ghost use Rattle.op_text.specs.Text.{IsWritable, text};
ghost use Rattle.shared_graph.specs.Callers.{CallerValue, IsCallerOf};
ghost use Rattle.shared_graph.specs.Gathering.{AreCallersOf};
ghost use Rattle.shared_graph.specs.Performing.{IsVertexCall};
ghost use Rattle.graph_tool.specs.OnCallers.{AreNumbered, HaveAnswered, caller_of, graph_of_lane};
ghost use Rattle.graph_tool.specs.Run.{AreOfVertices, IsRun, callers};
ghost use Rattle.graph_tool.specs.declared.gated.GatedPort.{GatedPort};

use crate::gate::Gate;
use crate::gated::GatedPort;
use caller_run::{Lane, run_callers};
use graph_kinds::{Answer, Call, Memory, Row};
use plain_graph::PlainGraph;
use shared_graph::{Caller, GraphPort, SharedGraph};
use std::alloc::Global;
use std::thread::Threads;

// How many callers rows may name, and share the graph on which rows run.
pub(crate) const CALLERS: u32 = 16;

// The nodes and the buckets of that graph.
const NODES: u32 = 65_536;

const BUCKETS: u32 = 1_024;

// Whether a call is on vertices.
fn is_on_vertices(call: &Call) -> bool
    ensures yes { result ≡ true → IsVertexCall call.now }
    ensures no { result ≡ false → IsVertexCall call.now → ⊥ }
{
    match call {
        Call::AddVertex { .. } | Call::RemoveVertex { .. } | Call::HasVertex { .. } => true,
        _ => false,
    }
}

// Whether all rows are of vertices.
pub(crate) fn are_of_vertices(rows: &[Row]) -> bool
    ensures yes { result ≡ true → AreOfVertices rows.now }
    ensures no { result ≡ false → AreOfVertices rows.now → ⊥ }
{
    for row in rows {
        if !is_on_vertices(&row.call) {
            return false;
        }
    }
    true
}

// The lane of a caller.
fn lane_of<'a, G: Gate>(
    alloc: Global,
    graph: &'a SharedGraph,
    caller: Caller,
    gate: &'a G,
) -> Lane<GatedPort<'a, G>>
    requires { IsCallerOf graph.now caller }
    ensures caller { caller_of result ≡ caller }
    ensures graph { graph_of_lane result ≡ graph.now }
{
    let port = GatedPort {
        port: GraphPort::new(graph, caller),
        graph,
        gate,
    };
    Lane::new(alloc, port)
}

// A lane for each caller, in order.
fn lanes_of<'a, G: Gate>(
    alloc: Global,
    graph: &'a SharedGraph,
    callers: Vec<Caller>,
    gate: &'a G,
) -> Result<Vec<Lane<GatedPort<'a, G>>>, Memory>
    requires { AreCallersOf graph.now callers.items }
    ensures len { IfOk result (λ v. vec_len v ≡ vec_len callers) }
    ensures callers { IfOk result (λ v. (i : ℕ) (d : Lane (GatedPort G)) (e : CallerValue)
        → i < length callers.items → caller_of (slice_index_or v.items i d) ≡ slice_index_or callers.items i e) }
    ensures graph { IfOk result (λ v. (i : ℕ) (d : Lane (GatedPort G)) → i < length callers.items
        → graph_of_lane (slice_index_or v.items i d) ≡ graph.now) }
{
    let mut lanes = Vec::new(alloc);
    for caller in callers {
        if lanes.push(lane_of(alloc, graph, caller, gate)).is_err() {
            return Err(Memory);
        }
    }
    Ok(lanes)
}

// The callers of the lanes, in order.
fn callers_of<G: Gate>(
    alloc: Global,
    lanes: Vec<Lane<GatedPort<'_, G>>>,
) -> Result<Vec<Caller>, Memory>
    ensures len { IfOk result (λ v. vec_len v ≡ vec_len lanes.entry) }
    ensures callers { IfOk result (λ v. (i : ℕ) (d : CallerValue) (e : Lane (GatedPort G))
        → i < length lanes.entry.items
        → slice_index_or v.items i d ≡ caller_of (slice_index_or lanes.entry.items i e)) }
    ensures home { IfOk result (λ v. (i : ℕ) (d : CallerValue) (e : Lane (GatedPort G))
        → i < length lanes.entry.items
        → IsCallerOf (graph_of_lane (slice_index_or lanes.entry.items i e)) (slice_index_or v.items i d)) }
{
    let mut callers = Vec::new(alloc);
    for lane in lanes {
        let GatedPort {
            port,
            graph: _,
            gate: _,
        } = lane.into_port();
        if callers.push(port.into_caller()).is_err() {
            return Err(Memory);
        }
    }
    Ok(callers)
}

/// Asks the rows of the callers, each of that of its number: the answers in the order of the rows, and the callers in
/// their order. O(rows + callers), beside what the calls cost.
///
/// # Errors
/// `Memory`.
pub fn ask_callers<'a, R: Threads + Sync, G: Gate>(
    rt: &R,
    alloc: Global,
    graph: &'a SharedGraph,
    callers: Vec<Caller>,
    gate: &'a G,
    rows: &[Row],
    tries: u32,
) -> Result<(Vec<Answer>, Vec<Caller>), Memory>
    requires tries { 0 < tries }
    requires rows { AreOfVertices rows.now }
    requires callers { All (λ r. r.caller < vec_len callers) rows.now }
    requires home { AreCallersOf graph.now callers.items }
    requires numbers { AreNumbered callers.items }
    ensures len { IfOk result (λ r. vec_len r.1 ≡ vec_len callers) }
    ensures home { IfOk result (λ r. AreCallersOf graph.now r.1.items) }
    ensures numbers { IfOk result (λ r. AreNumbered r.1.items) }
    ensures one_each { IfOk result (λ r. vec_len r.0 ≡ length rows.now) }
    ensures answered { IfOk result (λ r. HaveAnswered callers.items r.1.items tries rows.now r.0.items) }
{
    let mut lanes = lanes_of(alloc, graph, callers, gate)?;
    let answers = run_callers(rt, alloc, rows, lanes.as_mut_slice(), tries)?;
    let callers = callers_of(alloc, lanes)?;
    Ok((answers, callers))
}

/// The answers of the rows on a new graph that 16 callers share, and the graph that they leave. For n rows each call
/// has 24 n + 1 tries.
///
/// # Errors
/// `Memory`.
pub fn run_on_callers<R: Threads + Sync, G: Gate>(
    rt: &R,
    alloc: Global,
    rows: &[Row],
    gate: &G,
) -> Result<(Vec<Answer>, PlainGraph), Memory>
    requires rows { AreOfVertices rows.now }
    requires callers { All (λ r. r.caller < callers) rows.now }
    requires few { length rows.now ≤ 65536 }
    ensures run { IfOk result (λ r. IsRun rows.now (text r.0.items r.1)) }
    ensures written { IfOk result (λ r. All (λ (a : Answer). IsWritable a.outcome a.keys a.ends) r.0.items) }
{
    let (graph, callers) = SharedGraph::start(alloc, CALLERS, NODES, BUCKETS)?;
    let tries = (CALLERS + 8) * rows.len() as u32 + 1;
    let (answers, callers) = ask_callers(rt, alloc, &graph, callers, gate, rows, tries)?;
    match graph.close(alloc, callers) {
        Ok(plain) => Ok((answers, plain)),
        Err(_) => Err(Memory),
    }
}
