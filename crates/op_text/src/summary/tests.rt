//! The summary of four rows, and that of rows with a removed edge, where no vertex is lost and where one is.

use super::*;
use crate::make_rows;
use graph_kinds::{Keys, MemSink};
use std::alloc::Global;
use std::test::Fail;

fn plain(alloc: Global, outcome: Outcome) -> Answer {
    Answer {
        outcome,
        keys: Keys::new(alloc),
        ends: Keys::new(alloc),
    }
}

// The rows of the number 1 for two callers: two vertices are added, and none is removed.
#[test]
fn four_rows_are_summed_up(rt: HostRuntime) -> Result<(), Fail> {
    let rows = make_rows(rt.alloc(), 1, 4, 2)?;
    let answers = [
        plain(rt.alloc(), Outcome::No),
        plain(rt.alloc(), Outcome::Added),
        plain(rt.alloc(), Outcome::NoVertex),
        plain(rt.alloc(), Outcome::Added),
    ];
    let mut sink = MemSink::new(rt.alloc(), 200, 7, Vec::new(rt.alloc()))?;
    write_summary(&mut sink, &rows, 2, &answers, 2, 0)?;
    let text = b"rows 4\ncallers 2\nadded 2\nremoved 0\nvertices 2\nedges 0\nconserved yes\n";
    assert_eq!(rt; sink.bytes(), text.as_slice());
    vertices_are_conserved();
    Ok(())
}

// Two vertices and an edge are added, and the edge and a vertex removed: one vertex is left.
#[test]
fn a_lost_vertex_is_told(rt: HostRuntime) -> Result<(), Fail> {
    let rows = [
        Row {
            caller: 0,
            call: Call::AddVertex { key: 1 },
        },
        Row {
            caller: 0,
            call: Call::AddVertex { key: 2 },
        },
        Row {
            caller: 0,
            call: Call::AddEdge {
                from: 1,
                to: 2,
                weight: 7,
            },
        },
        Row {
            caller: 0,
            call: Call::RemoveEdge { from: 1, to: 2 },
        },
        Row {
            caller: 0,
            call: Call::RemoveVertex { key: 1 },
        },
    ];
    let answers = [
        plain(rt.alloc(), Outcome::Added),
        plain(rt.alloc(), Outcome::Added),
        plain(rt.alloc(), Outcome::Added),
        plain(rt.alloc(), Outcome::Removed(7)),
        plain(rt.alloc(), Outcome::Removed(0)),
    ];
    let mut sink = MemSink::new(rt.alloc(), 200, 7, Vec::new(rt.alloc()))?;
    write_summary(&mut sink, &rows, 1, &answers, 1, 0)?;
    let kept = b"rows 5\ncallers 1\nadded 2\nremoved 1\nvertices 1\nedges 0\nconserved yes\n";
    assert_eq!(rt; sink.bytes(), kept.as_slice());
    let mut sink = MemSink::new(rt.alloc(), 200, 7, Vec::new(rt.alloc()))?;
    write_summary(&mut sink, &rows, 1, &answers, 0, 0)?;
    let lost = b"rows 5\ncallers 1\nadded 2\nremoved 1\nvertices 0\nedges 0\nconserved no\n";
    assert_eq!(rt; sink.bytes(), lost.as_slice());
    Ok(())
}
