//! Records with one fault or two, records that are rows, and the most rows.

use crate::{RowCause, RowsFault, numbers_are_decimal, read_rows};
use graph_kinds::{Call, Row};
use std::alloc::Global;
use std::test::Fail;

// The fault of an input for 16 callers, if it has one.
fn fault_of(alloc: Global, input: &[u8]) -> Option<RowsFault> {
    match read_rows(alloc, input, 16) {
        Ok(_) => None,
        Err(fault) => Some(fault),
    }
}

// Each cause once, and then two faults in one record or in two records.
#[test]
fn causes_come_in_their_order(rt: HostRuntime) {
    let cases = [
        (b"0,add-vertex,1,".as_slice(), 1, RowCause::FieldCount),
        (b"0,add-vertex,1,,,\n".as_slice(), 1, RowCause::FieldCount),
        (b"16,add-vertex,1,,\n".as_slice(), 1, RowCause::BadCaller),
        (b"01,add-vertex,1,,\n".as_slice(), 1, RowCause::BadCaller),
        (b",add-vertex,1,,\n".as_slice(), 1, RowCause::BadCaller),
        (b"0,fly,1,,\n".as_slice(), 1, RowCause::UnknownOp),
        (b"0,Add-vertex,1,,\n".as_slice(), 1, RowCause::UnknownOp),
        (b"0,add-vertex,,,\n".as_slice(), 1, RowCause::MissingField),
        (b"0,cheapest,1,,\n".as_slice(), 1, RowCause::MissingField),
        (b"0,cheapest,1,2,3\n".as_slice(), 1, RowCause::ExtraField),
        (b"0,cheapest-path,1,2,\n".as_slice(), 1, RowCause::UnknownOp),
        (b"0,reach,1,,\n".as_slice(), 1, RowCause::MissingField),
        (b"0,reach,1,2,3\n".as_slice(), 1, RowCause::ExtraField),
        (b"0,levels,1,2,\n".as_slice(), 1, RowCause::ExtraField),
        (b"0,has-edge,1,,\n".as_slice(), 1, RowCause::MissingField),
        (b"0,add-edge,1,2,\n".as_slice(), 1, RowCause::MissingField),
        (b"0,add-vertex,1,2,\n".as_slice(), 1, RowCause::ExtraField),
        (b"0,has-edge,1,2,3\n".as_slice(), 1, RowCause::ExtraField),
        (b"0,add-vertex,01,,\n".as_slice(), 1, RowCause::BadNumber),
        (b"0,add-vertex,+1,,\n".as_slice(), 1, RowCause::BadNumber),
        (b"0,add-vertex, 1,,\n".as_slice(), 1, RowCause::BadNumber),
        (
            b"0,add-vertex,4294967296,,\n".as_slice(),
            1,
            RowCause::BadNumber,
        ),
        (b"0,add-edge,1,2,00\n".as_slice(), 1, RowCause::BadNumber),
        (b"0,add-edge,1,1,0\n".as_slice(), 1, RowCause::ZeroWeight),
        (b"16,fly,x,x\n".as_slice(), 1, RowCause::FieldCount),
        (b"16,fly,x,x,x\n".as_slice(), 1, RowCause::BadCaller),
        (b"0,fly,,x,x\n".as_slice(), 1, RowCause::UnknownOp),
        (b"0,add-vertex,,2,\n".as_slice(), 1, RowCause::MissingField),
        (b"0,add-vertex,x,2,\n".as_slice(), 1, RowCause::ExtraField),
        (b"0,add-edge,x,2,0\n".as_slice(), 1, RowCause::BadNumber),
        (
            b"0,add-vertex,1,,\n0,add-vertex,2\n".as_slice(),
            2,
            RowCause::FieldCount,
        ),
        (
            b"0,add-vertex,1,,\n0,add-vertex,2,,,\n".as_slice(),
            2,
            RowCause::FieldCount,
        ),
        (
            b"0,add-vertex,1,,\n0,fly,1,,\n0,x\n".as_slice(),
            2,
            RowCause::UnknownOp,
        ),
        (
            b"\n0,add-vertex,1,,\r\n\r\n0,add-edge,1,2,0".as_slice(),
            2,
            RowCause::ZeroWeight,
        ),
    ];
    for (input, row, cause) in &cases {
        let wanted = RowsFault::Bad {
            row: *row,
            cause: *cause,
        };
        assert_eq!(rt; fault_of(rt.alloc(), input), Some(wanted), "at {input:?}");
    }
}

// Each operation, in quotes too, with line ends of both kinds, an empty line and a byte order mark.
#[test]
fn records_are_rows(rt: HostRuntime) -> Result<(), Fail> {
    let input =
        b"\xEF\xBB\xBF0,add-vertex,0,,\r\n\"1\",remove-vertex,\"7\",,\n\n15,has-vertex,4294967295,,\n\
        2,add-edge,1,2,3\n3,remove-edge,4,5,\n4,has-edge,6,7,\n5,reach,8,9,\n6,levels,10,,\n7,cheapest,11,12,";
    let wanted = [
        Row {
            caller: 0,
            call: Call::AddVertex { key: 0 },
        },
        Row {
            caller: 1,
            call: Call::RemoveVertex { key: 7 },
        },
        Row {
            caller: 15,
            call: Call::HasVertex { key: 4_294_967_295 },
        },
        Row {
            caller: 2,
            call: Call::AddEdge {
                from: 1,
                to: 2,
                weight: 3,
            },
        },
        Row {
            caller: 3,
            call: Call::RemoveEdge { from: 4, to: 5 },
        },
        Row {
            caller: 4,
            call: Call::HasEdge { from: 6, to: 7 },
        },
        Row {
            caller: 5,
            call: Call::Reach { from: 8, to: 9 },
        },
        Row {
            caller: 6,
            call: Call::Levels { from: 10 },
        },
        Row {
            caller: 7,
            call: Call::Cheapest { from: 11, to: 12 },
        },
    ];
    let rows = read_rows(rt.alloc(), input, 16)?;
    assert_eq!(rt; rows.as_slice(), wanted.as_slice());
    assert_eq!(rt; read_rows(rt.alloc(), b"", 16)?.len(), 0);
    numbers_are_decimal();
    Ok(())
}

// The record of number 65,537 is bad, whatever it is.
#[test]
fn rows_are_at_most_65536(rt: HostRuntime) -> Result<(), Fail> {
    let mut input = Vec::new(rt.alloc());
    for _ in 0..65_536 {
        input.extend_from_slice(b"0,has-vertex,1,,\n")?;
    }
    assert_eq!(rt; read_rows(rt.alloc(), input.as_slice(), 16)?.len(), 65_536);
    input.extend_from_slice(b"x")?;
    let wanted = RowsFault::Bad {
        row: 65_537,
        cause: RowCause::TooManyRows,
    };
    assert_eq!(rt; fault_of(rt.alloc(), input.as_slice()), Some(wanted));
    Ok(())
}
