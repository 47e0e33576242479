//! The program: it reads rows from standard input, runs them on a graph, and writes one line per row and
//! the final graph to standard output.
#![tactic(auto)]

mod command;
mod gate;
mod gated;
mod graph_main;
mod in_pieces;
mod input;
mod on_callers;
mod output;
mod status;
mod streams;

use crate::gate::OpenGate;
use crate::in_pieces::graph_main_in_pieces;
use crate::status::Status;
use crate::streams::{ReadSource, WriteSink};
use op_text::Pieces;
use std::process::ExitCode;
use std::rt::Env;
use std::thread::Threads;
use std::{env, io};

fn main(rt: HostRuntime) -> ExitCode {
    let status = run(&rt);
    let number = status.number();
    if number != 0 {
        let _ = eprintln!(rt; "{status}");
    }
    ExitCode::from(number)
}

// Output goes in pieces of 65,536 bytes.
fn run<R: Env + Input + Print + AllocGlobal + Threads + Sync>(rt: &R) -> Status {
    let alloc = rt.alloc();
    let args = match env::args(rt) {
        Ok(args) => args,
        Err(fault) => return Status::of_arguments(&fault),
    };
    let words = match args.skip(1).collect::<Vec<String>>(alloc) {
        Ok(words) => words,
        Err(_) => return Status::Memory,
    };
    let mut source = ReadSource::new(rt.reader());
    let mut sink = match Pieces::new(alloc, WriteSink::new(io::writer(rt))) {
        Ok(sink) => sink,
        Err(_) => return Status::Memory,
    };
    graph_main_in_pieces(
        rt,
        alloc,
        words.as_slice(),
        &mut source,
        &mut sink,
        &OpenGate,
    )
}

#[cfg(test)]
mod caller_tests;
#[cfg(test)]
mod tests;
