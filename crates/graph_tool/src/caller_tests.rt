//! Rows that run on threads: that callers run side by side on the program's graph, and what they leave together.

ghost use Rattle.std.specs.Prelude.{◌≡◌};

use crate::gate::{Gate, OpenGate};
use crate::graph_main::graph_main;
use crate::status::Status;
use graph_kinds::{MemSink, MemSource};
use shared_graph::SharedGraph;
use std::fmt::Write;
use std::sync::atomic::{AtomicBool, AtomicU32, Ordering};
use std::test::Fail;
use std::thread::Threads;

// How often a caller looks at the other's flag.
const TURNS: u32 = 16_777_216;

const ROOM: u32 = 65_536;

// How a run of these bytes ends at a gate, and what it has written.
fn run_at<R: Threads + Sync + AllocGlobal, G: Gate>(
    rt: &R,
    input: &[u8],
    gate: &G,
) -> Result<(Status, MemSink), Fail> {
    let alloc = rt.alloc();
    let mut words = Vec::new(alloc);
    words.push(String::from_str(alloc, "run")?)?;
    let mut source = MemSource::new(input.to_vec(alloc)?, ROOM, Vec::new(alloc));
    let mut sink = MemSink::new(alloc, ROOM, ROOM, Vec::new(alloc))?;
    let status = graph_main(rt, alloc, words.as_slice(), &mut source, &mut sink, gate);
    Ok((status, sink))
}

// What one caller raises, whether it saw the other's, and on how many buckets.
#[derive(Drop)]
struct Flag {
    up: AtomicBool,
    saw: AtomicBool,
    buckets: AtomicU32,
}

impl Flag {
    fn new() -> Self {
        Flag {
            up: AtomicBool::new(false),
            saw: AtomicBool::new(false),
            buckets: AtomicU32::new(0),
        }
    }

    // Raises this flag and looks for the other.
    fn meet(&self, other: &Flag, buckets: u32) {
        self.buckets.store(buckets, Ordering::SeqCst);
        self.up.store(true, Ordering::SeqCst);
        self.saw.store(sees(&other.up), Ordering::SeqCst);
    }
}

// Whether the flag is up before so many looks at it are over.
fn sees(flag: &AtomicBool) -> bool {
    for _ in 0..TURNS {
        if flag.load(Ordering::SeqCst) {
            return true;
        }
    }
    false
}

// A gate at which two callers wait for each other.
#[derive(Drop)]
struct Meeting {
    zero: Flag,
    one: Flag,
}

impl Gate for Meeting {
    fn enter(&self, graph: &SharedGraph, caller: u32) {
        let buckets = graph.layout().buckets();
        if caller == 0 {
            self.zero.meet(&self.one, buckets);
        } else {
            self.one.meet(&self.zero, buckets);
        }
    }
}

#[test]
fn gate_of_the_program(rt: HostRuntime) -> Result<(), Fail> {
    let gate = Meeting {
        zero: Flag::new(),
        one: Flag::new(),
    };
    let (status, sink) = run_at(&rt, b"0,add-vertex,1,,\n1,add-vertex,2,,\n", &gate)?;
    for (number, flag) in [(0, &gate.zero), (1, &gate.one)] {
        assert!(rt;
            flag.saw.load(Ordering::SeqCst),
            "{number} did not see the other"
        );
        assert_eq!(rt; flag.buckets.load(Ordering::SeqCst), 1024);
    }
    assert_eq!(rt; status, Status::Done);
    assert_eq!(rt; sink.bytes(), b"added\nadded\nvertices 1 2\n".as_slice());
    Ok(())
}

// A gate that counts how often each of three callers entered.
#[derive(Drop)]
struct Counting {
    entered: [AtomicU32; 3],
}

impl Gate for Counting {
    fn enter(&self, _graph: &SharedGraph, caller: u32) {
        if let Some(entered) = self.entered.get(caller as usize) {
            entered.fetch_add(1, Ordering::SeqCst);
        }
    }
}

// Rows of vertices enter the gate, each once and as its caller; if any row is another, none does.
#[test]
fn each_row_of_vertices_enters_as_its_caller(rt: HostRuntime) -> Result<(), Fail> {
    for (input, entered) in [
        (
            b"2,add-vertex,1,,\n0,has-vertex,2,,\n2,has-vertex,1,,\n2,remove-vertex,1,,\n".as_slice(),
            [1, 0, 3],
        ),
        (
            b"2,add-vertex,1,,\n0,add-edge,1,1,4\n2,has-vertex,1,,\n".as_slice(),
            [0, 0, 0],
        ),
    ] {
        let gate = Counting {
            entered: [AtomicU32::new(0), AtomicU32::new(0), AtomicU32::new(0)],
        };
        let (status, _) = run_at(&rt, input, &gate)?;
        assert_eq!(rt; status, Status::Done);
        for (count, wanted) in gate.entered.iter().zip(entered.iter()) {
            assert_eq!(rt; count.load(Ordering::SeqCst), *wanted);
        }
    }
    Ok(())
}

// How many lines of a text are this one.
fn count_of(text: &[u8], line: &[u8]) -> usize {
    text.split(|b| *b == b'\n').filter(|l| *l == line).count()
}

// Four callers each add one key and remove it a thousand times, in turn: what is left is what was added and not
// removed, and each row has its answer.
#[test]
fn four_callers_add_and_remove_one_key(rt: HostRuntime) -> Result<(), Fail> {
    let alloc = rt.alloc();
    let mut input = String::new(alloc);
    for _ in 0..1000 {
        for caller in 0..4 {
            write!(
                input,
                "{caller},add-vertex,7,,\n{caller},remove-vertex,7,,\n"
            )?;
        }
    }
    let (status, sink) = run_at(&rt, input.as_bytes(), &OpenGate)?;
    assert_eq!(rt; status, Status::Done);
    let text = sink.bytes();
    let [added, present, removed, absent] = [
        b"added".as_slice(),
        b"present",
        b"removed",
        b"absent",
    ].map(|line| count_of(text, line));
    assert_eq!(rt; added.checked_add(present), Some(4000));
    assert_eq!(rt; removed.checked_add(absent), Some(4000));
    let left = count_of(text, b"vertices 7");
    assert_eq!(rt; left.checked_add(count_of(text, b"vertices")), Some(1));
    assert_eq!(rt; removed.checked_add(left), Some(added));
    Ok(())
}

#[test]
fn a_vertex_is_added_and_removed_a_thousand_times(rt: HostRuntime) -> Result<(), Fail> {
    let alloc = rt.alloc();
    let mut input = String::new(alloc);
    let mut text = String::new(alloc);
    for _ in 0..1000 {
        write!(input, "0,add-vertex,1,,\n0,remove-vertex,1,,\n")?;
        write!(text, "added\nremoved\n")?;
    }
    write!(text, "vertices\n")?;
    let (status, sink) = run_at(&rt, input.as_bytes(), &OpenGate)?;
    assert_eq!(rt; (status, sink.bytes()), (Status::Done, text.as_bytes()));
    Ok(())
}
