//! The line of each kind of row, and rows that are written and read again.

use super::*;
use crate::read_rows;
use graph_kinds::MemSink;
use std::test::Fail;

// A row of each kind of call, with its line.
#[test]
fn each_kind_has_its_line(rt: HostRuntime) -> Result<(), Fail> {
    let cases = [
        (0, Call::AddVertex { key: 0 }, "0,add-vertex,0,,\n"),
        (1, Call::RemoveVertex { key: 7 }, "1,remove-vertex,7,,\n"),
        (
            15,
            Call::HasVertex { key: 4_294_967_295 },
            "15,has-vertex,4294967295,,\n",
        ),
        (
            2,
            Call::AddEdge {
                from: 1,
                to: 20,
                weight: 300,
            },
            "2,add-edge,1,20,300\n",
        ),
        (
            3,
            Call::RemoveEdge { from: 4, to: 5 },
            "3,remove-edge,4,5,\n",
        ),
        (4, Call::HasEdge { from: 6, to: 7 }, "4,has-edge,6,7,\n"),
        (5, Call::Reach { from: 8, to: 9 }, "5,reach,8,9,\n"),
        (6, Call::Levels { from: 10 }, "6,levels,10,,\n"),
        (
            7,
            Call::Cheapest { from: 11, to: 12 },
            "7,cheapest,11,12,\n",
        ),
    ];
    for (caller, call, line) in &cases {
        let row = Row {
            caller: *caller,
            call: *call,
        };
        let mut sink = MemSink::new(rt.alloc(), 100, 7, Vec::new(rt.alloc()))?;
        write_row(&mut sink, &row)?;
        assert_eq!(rt; sink.bytes(), line.as_bytes());
        let again = read_rows(rt.alloc(), sink.bytes(), 16)?;
        assert_eq!(rt; again.as_slice(), [row].as_slice());
    }
    written_rows_are_read();
    Ok(())
}

#[test]
fn a_failed_write_ends_the_row(rt: HostRuntime) -> Result<(), Fail> {
    let failing = vec![in rt.alloc(); 4]?;
    let mut sink = MemSink::new(rt.alloc(), 100, 1, failing)?;
    let row = Row {
        caller: 0,
        call: Call::AddVertex { key: 5 },
    };
    assert_eq!(rt; write_row(&mut sink, &row), Err(WriteFailed));
    assert_eq!(rt; sink.bytes(), b"0,a".as_slice());
    Ok(())
}
