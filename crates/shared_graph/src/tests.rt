//! The rows of callers on one thread, and what may go to other threads.

ghost use Rattle.std.specs.Prelude.{◌≡◌};
ghost use Rattle.shared_graph.specs.Callers.{IsCallerOf};

use crate::{Caller, GraphPort, SharedGraph};
use graph_kinds::{Call, CallerPort, Memory, Outcome};
use plain_graph::PlainGraph;
use std::alloc::Global;

fn may_be_shared<T: Send + Sync>(_value: &T) {}

fn may_be_sent<T: Send>(_value: &T) {}

#[test]
fn a_caller_that_meets_a_note_finds_what_was_added(rt: HostRuntime) {
    let (graph, mut callers) = SharedGraph::start(rt.alloc(), 2, 8, 1).expect(&rt, "memory");
    assert_eq!(rt; graph.add_vertex(&mut callers[0], 1, 1), Outcome::Added);
    let note = graph.note(&mut callers[0]);
    may_be_sent(&note);
    graph.meet(&mut callers[1], note);
    assert_eq!(rt; graph.has_vertex(&mut callers[1], 1, 1), Outcome::Yes);
    assert_eq!(rt;
        graph.remove_vertex(&mut callers[1], 1, 1),
        Outcome::Removed(0)
    );
    assert_eq!(rt; callers[1].number(), 1);
    assert_eq!(rt; callers[1].uses(), 2);
    assert_eq!(rt; graph.keys(&callers[1]).len(), 0);
    assert_eq!(rt; graph.ends(&callers[1]).len(), 0);
    assert_eq!(rt; graph.layout().buckets(), 1);
}

#[test]
fn a_port_answers_its_caller(rt: HostRuntime) {
    let (graph, mut callers) = SharedGraph::start(rt.alloc(), 1, 8, 1).expect(&rt, "memory");
    may_be_shared(&graph);
    let Some(caller) = callers.pop() else {
        return;
    };
    may_be_sent(&caller);
    let mut port = GraphPort::new(&graph, caller);
    may_be_sent(&port);
    assert_eq!(rt;
        port.perform(&Call::AddVertex { key: 1 }, 1),
        Outcome::Added
    );
    assert_eq!(rt; port.perform(&Call::HasVertex { key: 1 }, 1), Outcome::Yes);
    assert_eq!(rt; port.number(), 0);
    assert_eq!(rt; port.into_caller().uses(), 2);
}

// Closes a graph of two callers.
fn close_both(
    alloc: Global,
    graph: SharedGraph,
    first: Caller,
    second: Caller,
) -> Result<PlainGraph, Memory>
    requires callers { graph.sizes.callers ≡ 2 }
    requires first { IsCallerOf graph first }
    requires second { IsCallerOf graph second }
    requires zero { first.hand.token.view.number ≡ 0 }
    requires one { second.hand.token.view.number ≡ 1 }
{
    let mut callers = Vec::new(alloc);
    if callers.push(first).is_err() || callers.push(second).is_err() {
        return Err(Memory);
    }
    match graph.close(alloc, callers) {
        Ok(plain) => Ok(plain),
        Err(_) => Err(Memory),
    }
}

#[test]
fn a_closed_graph_has_what_its_callers_left(rt: HostRuntime) {
    let alloc = rt.alloc();
    let (graph, mut callers) = SharedGraph::start(alloc, 2, 8, 1).expect(&rt, "memory");
    let Some(mut second) = callers.pop() else {
        return;
    };
    let Some(mut first) = callers.pop() else {
        return;
    };
    assert_eq!(rt; graph.add_vertex(&mut first, 1, 1), Outcome::Added);
    assert_eq!(rt; graph.add_vertex(&mut first, 7, 1), Outcome::Added);
    let note = graph.note(&mut first);
    graph.meet(&mut second, note);
    assert_eq!(rt; graph.has_vertex(&mut second, 1, 1), Outcome::Yes);
    assert_eq!(rt; graph.remove_vertex(&mut second, 7, 1), Outcome::Removed(0));
    assert_eq!(rt; first.number(), 0);
    assert_eq!(rt; second.number(), 1);
    let plain = close_both(alloc, graph, first, second).expect(&rt, "memory");
    assert!(rt; plain.has(1));
    assert!(rt; !plain.has(7));
    assert_eq!(rt; plain.vertex_count(), 1);
    assert_eq!(rt; plain.edge_count(), 0);
}
