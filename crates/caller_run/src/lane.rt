//! A port with what is kept for it while it is driven.

ghost use Rattle.std.specs.Prelude.{◌≡◌, ◌∷◌, ◌++◌, ◌<◌, [], length, OnOk};
ghost use Rattle.caller_run.specs.Lanes.{port_of};

use graph_kinds::{Answer, Call, Memory};
use std::alloc::Global;
use std::collections::VecDeque;

/// A port, with the calls that it is asked in a run and the answers that are kept for it until the run hands them out.
#[derive(Drop)]
pub struct Lane<P> {
    pub(crate) port: P,
    pub(crate) calls: Vec<Call>,
    pub(crate) kept: VecDeque<Answer>,
    pub(crate) short: bool,
}

impl<P> Lane<P> {
    /// The lane of a port, with no calls and no answers. O(1), takes no memory.
    pub fn new(alloc: Global, port: P) -> Self
        ensures port { port_of result ≡ port }
    {
        Lane {
            port,
            calls: Vec::new(alloc),
            kept: VecDeque::new(alloc),
            short: false,
        }
    }

    /// The port. O(1), beside letting go of what the lane kept.
    pub fn into_port(self) -> P
        ensures port { result ≡ port_of self }
    {
        let Lane { port, .. } = self;
        port
    }

    // A call more.
    pub(crate) fn add(&mut self, call: Call) -> Result<(), Memory>
        ensures port { self.new.port ≡ self.old.port }
        ensures calls { OnOk result (self.new.calls.items ≡ self.old.calls.items ++ call ∷ []) }
    {
        match self.calls.push(call) {
            Ok(()) => Ok(()),
            Err(_) => Err(Memory),
        }
    }

    // The first of the answers that it still keeps.
    pub(crate) fn next_answer(&mut self) -> Answer
        requires { 0 < length self.old.kept.items }
        ensures port { self.new.port ≡ self.old.port }
        ensures kept { self.old.kept.items ≡ result ∷ self.new.kept.items }
    {
        self.kept.pop_front().unwrap()
    }
}
