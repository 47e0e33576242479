//! The rows of the number 1, and the keys of sixteen callers.

use super::*;
use crate::{read_rows, write_row};
use graph_kinds::MemSink;
use std::test::Fail;

// Four rows for two callers, and their lines.
#[test]
fn rows_of_the_number_one(rt: HostRuntime) -> Result<(), Fail> {
    let rows = make_rows(rt.alloc(), 1, 4, 2)?;
    let wanted = [
        Row {
            caller: 0,
            call: Call::HasVertex { key: 30 },
        },
        Row {
            caller: 1,
            call: Call::AddVertex { key: 1_011 },
        },
        Row {
            caller: 0,
            call: Call::RemoveEdge { from: 27, to: 15 },
        },
        Row {
            caller: 1,
            call: Call::AddVertex { key: 1_027 },
        },
    ];
    assert_eq!(rt; rows.as_slice(), wanted.as_slice());
    let mut sink = MemSink::new(rt.alloc(), 100, 7, Vec::new(rt.alloc()))?;
    for row in &rows {
        write_row(&mut sink, row)?;
    }
    let lines =
        b"0,has-vertex,30,,\n1,add-vertex,1011,,\n0,remove-edge,27,15,\n1,add-vertex,1027,,\n";
    assert_eq!(rt; sink.bytes(), lines.as_slice());
    let again = read_rows(rt.alloc(), sink.bytes(), 2)?;
    assert_eq!(rt; again.as_slice(), wanted.as_slice());
    first_rows_are_known();
    Ok(())
}

// The first key that a call names.
fn first_key(call: &Call) -> u32 {
    match call {
        Call::AddVertex { key } | Call::RemoveVertex { key } | Call::HasVertex { key } => *key,
        Call::Levels { from } => *from,
        Call::AddEdge {
            from,
            to: _,
            weight: _,
        } => *from,
        Call::RemoveEdge { from, to: _ }
        | Call::HasEdge { from, to: _ }
        | Call::Reach { from, to: _ }
        | Call::Cheapest { from, to: _ } => *from,
    }
}

// The last key that a call names.
fn last_key(call: &Call) -> u32 {
    match call {
        Call::AddVertex { key } | Call::RemoveVertex { key } | Call::HasVertex { key } => *key,
        Call::Levels { from } => *from,
        Call::AddEdge {
            from: _,
            to,
            weight: _,
        } => *to,
        Call::RemoveEdge { from: _, to }
        | Call::HasEdge { from: _, to }
        | Call::Reach { from: _, to }
        | Call::Cheapest { from: _, to } => *to,
    }
}

// Sixteen callers take turns, and each names keys of its own.
#[test]
fn sixteen_callers_have_keys_of_their_own(rt: HostRuntime) -> Result<(), Fail> {
    let rows = make_rows(rt.alloc(), 2_147_483_647, 800, 16)?;
    assert_eq!(rt; rows.len(), 800);
    for (i, row) in rows.iter().enumerate() {
        let keys = [first_key(&row.call), last_key(&row.call)];
        assert_eq!(rt; row.caller as usize, i % 16);
        for key in &keys {
            assert_eq!(rt; *key / 1_000, row.caller);
            assert_eq!(rt; *key % 1_000 < 32, true);
        }
    }
    made_rows_keep_apart();
    Ok(())
}

// No rows take no draw.
#[test]
fn no_rows_are_made(rt: HostRuntime) -> Result<(), Fail> {
    assert_eq!(rt; make_rows(rt.alloc(), 0, 0, 1)?.len(), 0);
    Ok(())
}
