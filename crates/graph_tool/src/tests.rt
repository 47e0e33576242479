//! The worked rows: each input with the lines that must be written for it, and each way in which a run ends
//! otherwise.

ghost use Rattle.std.specs.Prelude.{◌≡◌, ◌≤◌, ◌<◌, true, List, Ok, length};
ghost use Rattle.graph_kinds.specs.InMemory.{bytes_left, read_faults, write_faults};
ghost use Rattle.graph_kinds.specs.declared.call.Row.{Row};
ghost use Rattle.op_text.specs.Rows.{rows};
ghost use Rattle.graph_tool.specs.Input.{most_bytes};
ghost use Rattle.graph_tool.specs.Run.{IsAccepted, callers};
ghost use Rattle.graph_tool.specs.Status.{UnlessMemory};

use crate::gate::{Gate, OpenGate};
use crate::graph_main::graph_main;
use crate::in_pieces::graph_main_in_pieces;
use crate::status::{Status, UsageCause};
use crate::streams::{ReadSource, WriteSink};
use graph_kinds::{MemSink, MemSource, ReadAnswer, Sink, Source, WriteAnswer};
use op_text::{Pieces, RowCause};
use std::alloc::Global;
use std::io;
use std::test::Fail;
use std::thread::Threads;

const ROOM: u32 = 65_536;

// The words of a command line.
fn words_of<R: AllocGlobal>(rt: &R, words: &[&str]) -> Result<Vec<String>, Fail> {
    let mut all = Vec::new(rt.alloc());
    for word in words {
        all.push(String::from_str(rt.alloc(), word)?)?;
    }
    Ok(all)
}

// How a run of the words on an input ends, and what it has written.
fn run_on<R: Threads + Sync + AllocGlobal>(
    rt: &R,
    words: &[&str],
    input: &[u8],
) -> Result<(Status, MemSink), Fail> {
    let alloc = rt.alloc();
    let words = words_of(rt, words)?;
    let mut source = MemSource::new(input.to_vec(alloc)?, ROOM, Vec::new(alloc));
    let mut sink = MemSink::new(alloc, ROOM, ROOM, Vec::new(alloc))?;
    let status = graph_main(
        rt,
        alloc,
        words.as_slice(),
        &mut source,
        &mut sink,
        &OpenGate,
    );
    Ok((status, sink))
}

// How a run in memory ends, and whether no call failed: then, by the clauses alone, it ended Done where words and
// input are good, or memory ran out.
fn run_counted<R: Threads + Sync>(
    rt: &R,
    alloc: Global,
    words: &[String],
    source: &mut MemSource,
    sink: &mut MemSink,
) -> (Status, bool)
    requires no_read { read_faults source.old ≡ 0 }
    requires no_write { write_faults sink.old ≡ 0 }
    ensures { (asked : List Row) → IsAccepted words.now → length (bytes_left source.old) ≤ most_bytes
        → rows callers (bytes_left source.old) ≡ Ok asked → result.1 ≡ true
        → UnlessMemory result.0 (result.0 ≡ Status.Done) }
{
    let status = graph_main(rt, alloc, words, source, sink, &OpenGate);
    let faultless = source.faults() == 0 && sink.faults() == 0;
    (status, faultless)
}

const VERTEX_ROWS: &[u8] =
    b"0,add-vertex,5,,\n0,add-vertex,5,,\n0,has-vertex,5,,\n0,remove-vertex,5,,\n\
    0,remove-vertex,5,,\n0,has-vertex,5,,\n";

const VERTEX_ROWS_TEXT: &[u8] = b"added\npresent\nyes\nremoved\nabsent\nno\nvertices\n";

#[test]
fn worked_rows_give_their_lines(rt: HostRuntime) -> Result<(), Fail> {
    let rows = [
        (b"".as_slice(), b"vertices\n".as_slice()),
        (VERTEX_ROWS, VERTEX_ROWS_TEXT),
        (
            b"0,add-edge,1,2,5\n0,add-vertex,2,,\n0,add-edge,1,2,5\n0,add-edge,2,1,5\n".as_slice(),
            b"no vertex\nadded\nno vertex\nno vertex\nvertices 2\n".as_slice(),
        ),
        (
            b"0,add-vertex,1,,\n0,add-vertex,2,,\n0,add-vertex,3,,\n0,add-edge,1,2,5\n\
            0,add-edge,2,3,6\n0,remove-vertex,2,,\n0,add-vertex,2,,\n0,has-edge,1,2,\n\
            0,has-edge,2,3,\n"
                .as_slice(),
            b"added\nadded\nadded\nadded\nadded\nremoved\nadded\nno edge\nno edge\nvertices 1 2 3\n".as_slice(),
        ),
        (
            b"0,add-vertex,1,,\n0,add-vertex,2,,\n0,add-vertex,3,,\n0,add-edge,1,2,5\n\
            0,add-edge,2,3,6\n0,remove-vertex,2,,\n0,add-vertex,2,,\n0,has-edge,1,2,\n\
            0,has-edge,2,3,\n0,add-edge,1,2,8\n0,has-edge,1,2,\n0,add-edge,1,2,9\n\
            0,remove-edge,1,2,\n0,remove-edge,1,2,\n"
                .as_slice(),
            b"added\nadded\nadded\nadded\nadded\nremoved\nadded\nno edge\nno edge\nadded\nedge 8\n\
            changed 8\nremoved 9\nno edge\nvertices 1 2 3\n"
                .as_slice(),
        ),
        (
            b"0,add-vertex,1,,\n0,add-vertex,2,,\n0,add-edge,1,2,5\n0,add-edge,1,2,6\n\
            0,add-edge,1,2,6\n0,has-edge,1,2,\n0,cheapest,1,2,\n"
                .as_slice(),
            b"added\nadded\nadded\nchanged 5\npresent 6\nedge 6\ncost 6 path 1 2\n\
            vertices 1 2\nedge 1 2 6\n"
                .as_slice(),
        ),
        (
            b"3,add-vertex,9,,\n1,add-vertex,10,,\n0,add-edge,9,10,4294967295\n2,add-edge,9,9,1\n\
            0,add-edge,10,9,7\n"
                .as_slice(),
            b"added\nadded\nadded\nadded\nadded\nvertices 9 10\nedge 9 9 1\nedge 9 10 4294967295\n\
            edge 10 9 7\n"
                .as_slice(),
        ),
        (
            b"\xEF\xBB\xBF\"15\",add-vertex,\"7\",,\r\n\r\n15,has-vertex,7,,".as_slice(),
            b"added\nyes\nvertices 7\n".as_slice(),
        ),
        (
            b"0,add-vertex,4294967295,,\n0,add-vertex,0,,\n0,add-edge,0,4294967295,1\n0,levels,0,,\n".as_slice(),
            b"added\nadded\nadded\nlevels 0 | 4294967295\nvertices 0 4294967295\n\
            edge 0 4294967295 1\n"
                .as_slice(),
        ),
        (
            b"0,add-vertex,7,,\n0,add-edge,7,7,3\n0,reach,7,7,\n0,cheapest,7,7,\n0,levels,7,,\n".as_slice(),
            b"added\nadded\npath 7\ncost 0 path 7\nlevels 7\nvertices 7\nedge 7 7 3\n".as_slice(),
        ),
        (
            b"0,add-vertex,1,,\n1,add-vertex,2,,\n2,add-vertex,3,,\n3,add-vertex,4,,\n\
            4,add-vertex,9,,\n5,add-vertex,10,,\n0,add-edge,1,2,1\n0,add-edge,1,3,1\n\
            0,add-edge,2,9,1\n0,add-edge,3,4,1\n0,add-edge,9,10,1\n0,add-edge,4,10,1\n\
            0,levels,1,,\n0,reach,1,10,\n"
                .as_slice(),
            b"added\nadded\nadded\nadded\nadded\nadded\nadded\nadded\nadded\nadded\nadded\nadded\n\
            levels 1 | 2 3 | 9 4 | 10\npath 1 2 9 10\nvertices 1 2 3 4 9 10\nedge 1 2 1\n\
            edge 1 3 1\nedge 2 9 1\nedge 3 4 1\nedge 4 10 1\nedge 9 10 1\n"
                .as_slice(),
        ),
        (
            b"0,add-vertex,1,,\n0,add-vertex,2,,\n0,add-vertex,3,,\n0,add-vertex,4,,\n\
            0,add-edge,1,2,1\n0,add-edge,1,3,1\n0,add-edge,2,4,1\n0,add-edge,4,1,1\n\
            0,levels,1,,\n0,reach,3,1,\n0,cheapest,3,1,\n0,reach,1,9,\n0,cheapest,9,1,\n"
                .as_slice(),
            b"added\nadded\nadded\nadded\nadded\nadded\nadded\nadded\nlevels 1 | 2 3 | 4\n\
            no path\nno path\nno vertex\nno vertex\nvertices 1 2 3 4\nedge 1 2 1\nedge 1 3 1\n\
            edge 2 4 1\nedge 4 1 1\n"
                .as_slice(),
        ),
        (
            b"0,add-vertex,1,,\n0,add-vertex,2,,\n0,add-vertex,3,,\n0,add-edge,1,2,10\n\
            0,add-edge,1,3,1\n0,add-edge,3,2,2\n0,reach,1,2,\n0,cheapest,1,2,\n"
                .as_slice(),
            b"added\nadded\nadded\nadded\nadded\nadded\npath 1 2\ncost 3 path 1 3 2\n\
            vertices 1 2 3\nedge 1 2 10\nedge 1 3 1\nedge 3 2 2\n"
                .as_slice(),
        ),
        (
            b"0,add-vertex,1,,\n0,add-vertex,2,,\n0,add-vertex,3,,\n0,add-vertex,4,,\n\
            0,add-edge,1,2,2\n0,add-edge,1,3,1\n0,add-edge,2,4,1\n0,add-edge,3,4,2\n\
            0,cheapest,1,4,\n"
                .as_slice(),
            b"added\nadded\nadded\nadded\nadded\nadded\nadded\nadded\ncost 3 path 1 2 4\n\
            vertices 1 2 3 4\nedge 1 2 2\nedge 1 3 1\nedge 2 4 1\nedge 3 4 2\n"
                .as_slice(),
        ),
        (
            b"0,add-vertex,1,,\n0,add-vertex,2,,\n0,add-vertex,3,,\n0,add-vertex,4,,\n\
            0,add-edge,1,2,4294967295\n0,add-edge,2,3,4294967295\n0,add-edge,3,4,4294967295\n\
            0,cheapest,1,4,\n"
                .as_slice(),
            b"added\nadded\nadded\nadded\nadded\nadded\nadded\ncost 12884901885 path 1 2 3 4\n\
            vertices 1 2 3 4\nedge 1 2 4294967295\nedge 2 3 4294967295\nedge 3 4 4294967295\n"
                .as_slice(),
        ),
    ];
    for (input, text) in &rows {
        for command in ["run", "replay"] {
            let (status, sink) = run_on(&rt, &[command], input)?;
            assert_eq!(rt; status, Status::Done, "{command} on {input:?}");
            assert_eq!(rt; sink.bytes(), *text, "{command} on {input:?}");
        }
    }
    Ok(())
}

// The operation of step t on a chain of ten vertices whose first key is `first`: ten vertices, nine edges there
// and nine back, nine cheapest paths, a path, the levels, and a removal.
fn chain_row<R: AllocGlobal>(rt: &R, first: u32, t: u32) -> Result<String, Fail>
    requires first { first ≤ 300 }
    requires step { t < 40 }
{
    let alloc = rt.alloc();
    if t < 10 {
        return Ok(format!(in alloc; "add-vertex,{},,", first + t)?);
    }
    if t < 19 {
        let (from, weight) = (first + t - 10, t);
        return Ok(format!(in alloc; "add-edge,{},{},{}", from, from + 1, weight)?);
    }
    if t < 28 {
        let (to, weight) = (first + t - 19, t - 9);
        return Ok(format!(in alloc; "add-edge,{},{},{}", to + 1, to, weight)?);
    }
    if t < 37 {
        return Ok(format!(in alloc; "cheapest,{},{},", first, first + t - 27)?);
    }
    if t == 37 {
        return Ok(format!(in alloc; "reach,{},{},", first, first + 9)?);
    }
    if t == 38 {
        return Ok(format!(in alloc; "levels,{},,", first + 9)?);
    }
    Ok(format!(in alloc; "remove-vertex,{},,", first + 5)?)
}

// The line that is answered at step t: the first m edges of a chain cost 10 + 11 + .. in all.
fn chain_line<R: AllocGlobal>(rt: &R, first: u32, t: u32) -> Result<String, Fail>
    requires first { first ≤ 300 }
    requires step { t < 40 }
{
    let alloc = rt.alloc();
    let mut line = String::new(alloc);
    if t < 28 {
        line.push_str("added")?;
    } else if t < 37 {
        let m = t - 27;
        line = format!(in alloc; "cost {} path", 10 * m + m * (m - 1) / 2)?;
        for i in 0..10u32 {
            if i <= m {
                line.push_str(format!(in alloc; " {}", first + i)?.as_str())?;
            }
        }
    } else if t == 37 {
        line.push_str("path")?;
        for i in 0..10u32 {
            line.push_str(format!(in alloc; " {}", first + i)?.as_str())?;
        }
    } else if t == 38 {
        line = format!(in alloc; "levels {}", first + 9)?;
        for i in 1..10u32 {
            line.push_str(format!(in alloc; " | {}", first + 9 - i)?.as_str())?;
        }
    } else {
        line.push_str("removed")?;
    }
    Ok(line)
}

// The edges of what is left of a chain: those between neighbours, but for the removed key.
fn chain_edges<R: AllocGlobal>(rt: &R, first: u32) -> Result<String, Fail>
    requires { first ≤ 300 }
{
    let alloc = rt.alloc();
    let mut lines = String::new(alloc);
    for i in 0..10u32 {
        if i == 5 {
            continue;
        }
        let key = first + i;
        if i > 0 && i != 6 {
            let line = format!(in alloc; "edge {} {} {}\n", key, key - 1, 9 + i)?;
            lines.push_str(line.as_str())?;
        }
        if i < 9 && i != 4 {
            let line = format!(in alloc; "edge {} {} {}\n", key, key + 1, 10 + i)?;
            lines.push_str(line.as_str())?;
        }
    }
    Ok(lines)
}

// Four callers take turns, each on a chain of its own.
#[test]
fn four_callers_ask_for_their_chains(rt: HostRuntime) -> Result<(), Fail> {
    let alloc = rt.alloc();
    let mut input = String::new(alloc);
    let mut text = String::new(alloc);
    for t in 0..40u32 {
        for caller in 0..4u32 {
            let row = chain_row(&rt, 100 * caller, t)?;
            input.push_str(format!(in alloc; "{caller},{row}\n")?.as_str())?;
            text.push_str(chain_line(&rt, 100 * caller, t)?.as_str())?;
            text.push_str("\n")?;
        }
    }
    text.push_str("vertices")?;
    for caller in 0..4u32 {
        for i in 0..10u32 {
            if i != 5 {
                text.push_str(format!(in alloc; " {}", 100 * caller + i)?.as_str())?;
            }
        }
    }
    text.push_str("\n")?;
    for caller in 0..4u32 {
        text.push_str(chain_edges(&rt, 100 * caller)?.as_str())?;
    }
    assert_eq!(rt;
        text.as_bytes().iter().filter(|b| **b == b'\n').count(),
        217
    );
    for command in ["run", "replay"] {
        let (status, sink) = run_on(&rt, &[command], input.as_bytes())?;
        assert_eq!(rt; status, Status::Done);
        assert_eq!(rt; sink.bytes(), text.as_bytes());
    }
    Ok(())
}

// A part of 300 keys in which each key leads to the next by 2 and to the one behind that by 3, and a key outside it.
#[test]
fn a_goal_outside_a_large_part_has_no_path(rt: HostRuntime) -> Result<(), Fail> {
    let alloc = rt.alloc();
    let mut input = String::new(alloc);
    let mut text = String::new(alloc);
    for key in 0..301u32 {
        input.push_str(format!(in alloc; "0,add-vertex,{key},,\n")?.as_str())?;
        text.push_str("added\n")?;
    }
    for key in 0..300u32 {
        for (step, weight) in [(1u32, 2u32), (2, 3)] {
            let to = (key + step) % 300;
            input.push_str(format!(in alloc; "0,add-edge,{key},{to},{weight}\n")?.as_str())?;
            text.push_str("added\n")?;
        }
    }
    input.push_str("0,cheapest,0,300,\n0,cheapest,0,299,\n")?;
    text.push_str("no path\ncost 449 path 0")?;
    for place in 0..150u32 {
        text.push_str(format!(in alloc; " {}", 2 * place + 1)?.as_str())?;
    }
    text.push_str("\nvertices 0 1")?;
    for command in ["run", "replay"] {
        let (status, sink) = run_on(&rt, &[command], input.as_bytes())?;
        assert_eq!(rt; status, Status::Done);
        assert!(rt; sink.bytes().starts_with(text.as_bytes()));
    }
    Ok(())
}

#[test]
fn faulty_words_are_refused(rt: HostRuntime) -> Result<(), Fail> {
    let cases = [
        ([].as_slice(), UsageCause::NoCommand),
        (["help"].as_slice(), UsageCause::UnknownCommand),
        (["Run"].as_slice(), UsageCause::UnknownCommand),
        (["help", "run"].as_slice(), UsageCause::UnknownCommand),
        (["run", "now"].as_slice(), UsageCause::UnknownOption),
        (
            ["replay", "--callers", "2"].as_slice(),
            UsageCause::UnknownOption,
        ),
    ];
    for (words, cause) in &cases {
        let (status, sink) = run_on(&rt, words, VERTEX_ROWS)?;
        assert_eq!(rt; status, Status::Usage(*cause), "{words:?}");
        assert_eq!(rt; sink.bytes(), b"".as_slice());
    }
    Ok(())
}

#[test]
fn bad_records_are_refused(rt: HostRuntime) -> Result<(), Fail> {
    let cases = [
        (
            b"0,add-vertex,1,,\n0,add-edge,1,1,0\n".as_slice(),
            2,
            RowCause::ZeroWeight,
        ),
        (b"16,add-vertex,1,,\n".as_slice(), 1, RowCause::BadCaller),
        (b"0,add-vertex,1,".as_slice(), 1, RowCause::FieldCount),
        (b"0,add-vertex,1,,,\n".as_slice(), 1, RowCause::FieldCount),
        (b"0,add-vertex,5".as_slice(), 1, RowCause::FieldCount),
        (b"x,nop,,,".as_slice(), 1, RowCause::BadCaller),
        (b" 0,add-vertex,1,,".as_slice(), 1, RowCause::BadCaller),
        (b"0,Add-vertex,1,,".as_slice(), 1, RowCause::UnknownOp),
        (b"0,cheapest,1,,".as_slice(), 1, RowCause::MissingField),
        (b"0,add-edge,,1,0".as_slice(), 1, RowCause::MissingField),
        (b"0,add-vertex,x,1,".as_slice(), 1, RowCause::ExtraField),
        (b"0,add-vertex,05,,".as_slice(), 1, RowCause::BadNumber),
        (
            b"0,add-vertex,4294967296,,".as_slice(),
            1,
            RowCause::BadNumber,
        ),
        (b"0,add-edge,1,1,0".as_slice(), 1, RowCause::ZeroWeight),
    ];
    for (input, row, cause) in &cases {
        for command in ["run", "replay"] {
            let (status, sink) = run_on(&rt, &[command], input)?;
            let bad = Status::BadRow {
                row: *row,
                cause: *cause,
            };
            assert_eq!(rt; status, bad, "{command} on {input:?}");
            assert_eq!(rt; sink.bytes(), b"".as_slice());
        }
    }
    Ok(())
}

#[test]
fn the_record_behind_the_last_is_refused(rt: HostRuntime) -> Result<(), Fail> {
    let mut input = Vec::new(rt.alloc());
    for _ in 0..65_537 {
        input.extend_from_slice(b"0,has-vertex,1,,\n")?;
    }
    for command in ["run", "replay"] {
        let (status, sink) = run_on(&rt, &[command], input.as_slice())?;
        let bad = Status::BadRow {
            row: 65_537,
            cause: RowCause::TooManyRows,
        };
        assert_eq!(rt; status, bad);
        assert_eq!(rt; sink.bytes(), b"".as_slice());
    }
    Ok(())
}

#[test]
fn an_input_is_too_long_from_one_byte_past_the_limit(rt: HostRuntime) -> Result<(), Fail> {
    let alloc = rt.alloc();
    let mut input = vec![in alloc; b'0'; 8_388_608]?;
    let (status, _) = run_on(&rt, &["run"], input.as_slice())?;
    let bad = Status::BadRow {
        row: 1,
        cause: RowCause::FieldCount,
    };
    assert_eq!(rt; status, bad);
    input.push(b'0')?;
    let (status, sink) = run_on(&rt, &["run"], input.as_slice())?;
    assert_eq!(rt; status, Status::Usage(UsageCause::InputTooLong));
    assert_eq!(rt; sink.bytes(), b"".as_slice());
    Ok(())
}

#[test]
fn a_run_in_which_no_call_fails_is_done(rt: HostRuntime) -> Result<(), Fail> {
    let alloc = rt.alloc();
    let words = words_of(&rt, &["run"])?;
    for (failing, ended) in [(9, (Status::Done, true)), (1, (Status::ReadFault, false))] {
        let mut source = MemSource::new(VERTEX_ROWS.to_vec(alloc)?, ROOM, [failing].to_vec(alloc)?);
        let mut sink = MemSink::new(alloc, ROOM, ROOM, Vec::new(alloc))?;
        assert_eq!(rt;
            run_counted(&rt, alloc, words.as_slice(), &mut source, &mut sink),
            ended
        );
    }
    Ok(())
}

// Each read and each write fails in turn.
#[test]
fn failing_streams_end_the_run(rt: HostRuntime) -> Result<(), Fail> {
    let alloc = rt.alloc();
    let words = words_of(&rt, &["run"])?;
    for failing in 1..29u32 {
        let mut source = MemSource::new(VERTEX_ROWS.to_vec(alloc)?, 4, [failing].to_vec(alloc)?);
        let mut sink = MemSink::new(alloc, ROOM, ROOM, Vec::new(alloc))?;
        let status = graph_main(
            &rt,
            alloc,
            words.as_slice(),
            &mut source,
            &mut sink,
            &OpenGate,
        );
        assert_eq!(rt; status, Status::ReadFault, "at read {failing}");
        assert_eq!(rt; sink.bytes(), b"".as_slice());
    }
    for failing in 1..46u32 {
        let mut source = MemSource::new(VERTEX_ROWS.to_vec(alloc)?, ROOM, Vec::new(alloc));
        let mut sink = MemSink::new(alloc, ROOM, 1, [failing].to_vec(alloc)?)?;
        let status = graph_main(
            &rt,
            alloc,
            words.as_slice(),
            &mut source,
            &mut sink,
            &OpenGate,
        );
        assert_eq!(rt; status, Status::WriteFault, "at write {failing}");
        assert!(rt;
            VERTEX_ROWS_TEXT.starts_with(sink.bytes()),
            "at write {failing}"
        );
        assert_eq!(rt; sink.bytes().len() as u32 + 1, failing);
    }
    Ok(())
}

// The sink behind has all once the last piece was handed on, and the run isn't Done where it can't be.
#[test]
fn the_last_piece_is_handed_on(rt: HostRuntime) -> Result<(), Fail> {
    let alloc = rt.alloc();
    let words = words_of(&rt, &["run"])?;
    for (failing, status, written) in [
        (2, Status::Done, VERTEX_ROWS_TEXT),
        (1, Status::WriteFault, b"".as_slice()),
    ] {
        let mut source = MemSource::new(VERTEX_ROWS.to_vec(alloc)?, ROOM, Vec::new(alloc));
        let behind = MemSink::new(alloc, ROOM, ROOM, [failing].to_vec(alloc)?)?;
        let mut sink = Pieces::new(alloc, behind)?;
        let ended = graph_main_in_pieces(
            &rt,
            alloc,
            words.as_slice(),
            &mut source,
            &mut sink,
            &OpenGate,
        );
        assert_eq!(rt; ended, status, "where write {failing} fails");
        assert_eq!(rt; sink.into_sink().bytes(), written);
    }
    Ok(())
}

#[test]
fn the_third_write_and_the_second_read_fail(rt: HostRuntime) -> Result<(), Fail> {
    let alloc = rt.alloc();
    let words = words_of(&rt, &["run"])?;
    let mut source = MemSource::new(VERTEX_ROWS.to_vec(alloc)?, ROOM, Vec::new(alloc));
    let mut sink = MemSink::new(alloc, ROOM, 1, [3].to_vec(alloc)?)?;
    let status = graph_main(
        &rt,
        alloc,
        words.as_slice(),
        &mut source,
        &mut sink,
        &OpenGate,
    );
    assert_eq!(rt; (status.number(), sink.bytes()), (5, b"ad".as_slice()));
    let mut source = MemSource::new(VERTEX_ROWS.to_vec(alloc)?, 16, [2].to_vec(alloc)?);
    let mut sink = MemSink::new(alloc, ROOM, ROOM, Vec::new(alloc))?;
    let status = graph_main(
        &rt,
        alloc,
        words.as_slice(),
        &mut source,
        &mut sink,
        &OpenGate,
    );
    assert_eq!(rt; (status.number(), sink.bytes()), (4, b"".as_slice()));
    Ok(())
}

#[test]
fn a_status_has_its_line(rt: HostRuntime) -> Result<(), Fail> {
    let lines = [
        (Status::Done, ""),
        (
            Status::Usage(UsageCause::NoCommand),
            "graph_tool: usage: no command",
        ),
        (
            Status::Usage(UsageCause::InputTooLong),
            "graph_tool: usage: input too long",
        ),
        (
            Status::BadRow {
                row: 2,
                cause: RowCause::ZeroWeight,
            },
            "graph_tool: row 2: zero weight",
        ),
        (Status::ReadFault, "graph_tool: read fault"),
        (Status::WriteFault, "graph_tool: write fault"),
        (Status::Memory, "graph_tool: out of memory"),
    ];
    for (status, line) in &lines {
        assert_eq!(rt; status.to_string(rt.alloc())?.as_str(), *line);
    }
    Ok(())
}

#[test]
fn a_reader_is_a_source(rt: HostRuntime) {
    let mut source = ReadSource::new(b"abc".as_slice());
    let mut into = [0; 2];
    assert_eq!(rt; source.read(&mut into), ReadAnswer::Got(2));
    assert_eq!(rt; into, *b"ab");
    assert_eq!(rt; source.read(&mut into), ReadAnswer::Got(1));
    assert_eq!(rt; source.read(&mut into), ReadAnswer::End);
    assert_eq!(rt; source.read(&mut into), ReadAnswer::End);
}

// A reader of two bytes that is interrupted so often before each read, and fails in the end or has none left.
#[derive(Drop)]
struct Halting {
    interruptions: u32,
    left: u32,
    read: bool,
    fails: bool,
}

impl io::Read for Halting {
    fn read(&mut self, buf: &mut [u8]) -> io::Result<usize> {
        if self.left > 0 {
            self.left -= 1;
            return Err(io::Error::from(io::ErrorKind::Interrupted));
        }
        self.left = self.interruptions;
        if self.read || buf.len() < 2 {
            return if self.fails {
                Err(io::Error::from(io::ErrorKind::Other))
            } else {
                Ok(0)
            };
        }
        self.read = true;
        buf[0] = b'a';
        buf[1] = b'b';
        Ok(2)
    }
}

// A read that is interrupted is made again, up to 1,024 times; one that fails is a fault, and no end.
#[test]
fn an_interrupted_read_is_made_again(rt: HostRuntime) {
    for (interruptions, fails, answers) in [
        (0, false, [ReadAnswer::Got(2), ReadAnswer::End]),
        (1, false, [ReadAnswer::Got(2), ReadAnswer::End]),
        (1023, false, [ReadAnswer::Got(2), ReadAnswer::End]),
        (1024, false, [ReadAnswer::Failed, ReadAnswer::Got(2)]),
        (0, true, [ReadAnswer::Got(2), ReadAnswer::Failed]),
        (1, true, [ReadAnswer::Got(2), ReadAnswer::Failed]),
    ] {
        let mut source = ReadSource::new(Halting {
            interruptions,
            left: interruptions,
            read: false,
            fails,
        });
        for answer in answers {
            assert_eq!(rt;
                source.read(&mut [0; 4]),
                answer,
                "interrupted {interruptions} times"
            );
        }
    }
}

// A writer that is interrupted so often before each write, and then takes two bytes or fails.
#[derive(Drop)]
struct Stalling {
    interruptions: u32,
    left: u32,
    fails: bool,
}

impl io::Write for Stalling {
    fn write(&mut self, buf: &[u8]) -> io::Result<usize> {
        if self.left > 0 {
            self.left -= 1;
            return Err(io::Error::from(io::ErrorKind::Interrupted));
        }
        self.left = self.interruptions;
        if self.fails || buf.len() < 2 {
            return Err(io::Error::from(io::ErrorKind::Other));
        }
        Ok(2)
    }

    fn flush(&mut self) -> io::Result<()> {
        Ok(())
    }
}

// So is a write.
#[test]
fn an_interrupted_write_is_made_again(rt: HostRuntime) {
    for (interruptions, fails, answers) in [
        (0, false, [WriteAnswer::Took(2), WriteAnswer::Took(2)]),
        (1, false, [WriteAnswer::Took(2), WriteAnswer::Took(2)]),
        (1023, false, [WriteAnswer::Took(2), WriteAnswer::Took(2)]),
        (1024, false, [WriteAnswer::Failed, WriteAnswer::Took(2)]),
        (0, true, [WriteAnswer::Failed, WriteAnswer::Failed]),
        (1, true, [WriteAnswer::Failed, WriteAnswer::Failed]),
    ] {
        let mut sink = WriteSink::new(Stalling {
            interruptions,
            left: interruptions,
            fails,
        });
        for answer in answers {
            assert_eq!(rt;
                sink.write(b"abc"),
                answer,
                "interrupted {interruptions} times"
            );
        }
    }
}

// Arguments that can't be had are no text, but for want of memory.
#[test]
fn want_of_memory_for_the_arguments_is_memory(rt: HostRuntime) {
    for (kind, status) in [
        (io::ErrorKind::OutOfMemory, Status::Memory),
        (
            io::ErrorKind::InvalidData,
            Status::Usage(UsageCause::UnknownCommand),
        ),
    ] {
        assert_eq!(rt; Status::of_arguments(&io::Error::from(kind)), status);
    }
}

// A writer that takes two bytes once, and nothing afterwards.
#[derive(Drop)]
struct Shut {
    taken: bool,
}

impl io::Write for Shut {
    fn write(&mut self, buf: &[u8]) -> io::Result<usize> {
        if self.taken || buf.len() < 2 {
            return Ok(0);
        }
        self.taken = true;
        Ok(2)
    }

    fn flush(&mut self) -> io::Result<()> {
        Ok(())
    }
}

#[test]
fn a_write_that_takes_nothing_failed(rt: HostRuntime) {
    let mut sink = WriteSink::new(Shut { taken: false });
    assert_eq!(rt; sink.write(b"abc"), WriteAnswer::Took(2));
    assert_eq!(rt; sink.write(b"c"), WriteAnswer::Failed);
}
