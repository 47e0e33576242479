//! Ports that wait for each other, ports that answer from a list, and lanes that go to other threads.

ghost use Rattle.std.specs.Prelude.{◌≡◌, ◌≤◌, IfOk, vec_len};

use crate::{Lane, run_callers};
use graph_kinds::{Call, CallerPort, Outcome, Row};
use std::alloc::{AllocError, Global};
use std::sync::atomic::{AtomicBool, Ordering};

// How often a port looks at the other's flag.
const TURNS: u32 = 16_777_216;

// Whether the flag is up before so many looks at it are over.
fn sees(flag: &AtomicBool) -> bool {
    for _ in 0..TURNS {
        if flag.load(Ordering::SeqCst) {
            return true;
        }
    }
    false
}

// A port with no use left. In each call it raises its flag and waits for the other's.
#[derive(Drop)]
struct Waiter<'a> {
    number: u32,
    mine: &'a AtomicBool,
    other: &'a AtomicBool,
    saw: bool,
}

impl CallerPort for Waiter<'_> {
    ghost use Rattle.std.specs.Prelude.{ℕ, List, [], ⊤};
    ghost use Rattle.graph_kinds.specs.declared.entry.Entry.{Entry};

    ghost Origin = { ℕ };

    ghost origin = { λ _. 0 };

    ghost serves = { λ _. ⊤ };

    ghost number = { λ p. p.number };

    ghost front = { λ _. 0 };

    ghost book = { λ _. [] };

    ghost left = { λ _. 0 };

    ghost kept_keys = { λ _. [] };

    ghost kept_ends = { λ _. [] };

    fn perform(&mut self, _call: &Call, _tries: u32) -> Outcome {
        self.mine.store(true, Ordering::SeqCst);
        self.saw = sees(self.other);
        Outcome::Worn
    }

    fn keys(&self) -> &[u32] {
        &[]
    }

    fn ends(&self) -> &[u32] {
        &[]
    }

    fn number(&self) -> u32 {
        self.number
    }
}

#[test]
fn gate_of_two_ports(rt: HostRuntime) {
    let alloc = rt.alloc();
    let (first, second) = (AtomicBool::new(false), AtomicBool::new(false));
    let zero = Waiter {
        number: 0,
        mine: &first,
        other: &second,
        saw: false,
    };
    let one = Waiter {
        number: 1,
        mine: &second,
        other: &first,
        saw: false,
    };
    let mut lanes = [Lane::new(alloc, zero), Lane::new(alloc, one)];
    let rows = [
        Row {
            caller: 0,
            call: Call::HasVertex { key: 1 },
        },
        Row {
            caller: 1,
            call: Call::HasVertex { key: 2 },
        },
    ];
    let answers = run_callers(&rt, alloc, &rows, &mut lanes, 1).expect(&rt, "memory");
    assert_eq!(rt; answers.len(), 2);
    for answer in answers.iter() {
        assert_eq!(rt; answer.outcome, Outcome::Worn);
    }
    for lane in lanes.into_iter() {
        let port = lane.into_port();
        assert!(rt; port.saw, "{} did not see the other", port.number);
    }
}

// What a port was asked in one of its uses, and what it answers there.
#[derive(Drop, Clone, Copy)]
struct Use {
    call: Call,
    tries: u32,
    says: u32,
}

// A port with a use for each number that it says. Each of its answers but Worn has the same keys and ends.
#[derive(Drop)]
struct Teller {
    number: u32,
    uses: Vec<Use>,
    used: usize,
    keys: Vec<u32>,
    ends: Vec<u32>,
    worn: bool,
    ghost in_range: { used ≤ vec_len uses },
}

impl CallerPort for Teller {
    ghost use Rattle.std.specs.Prelude.{ℕ, ◌-◌, List, [], ⊤, cond, map, take, vec_len};
    ghost use Rattle.graph_kinds.specs.declared.entry.Class.TheVariants.{Silent};
    ghost use Rattle.graph_kinds.specs.declared.entry.Entry.{Entry};
    ghost use Rattle.graph_kinds.specs.declared.outcome.Outcome.TheVariants.{Present};
    ghost use Rattle.caller_run.specs.declared.tests.Use.{Use};

    ghost Origin = { ℕ };

    ghost origin = { λ _. 0 };

    ghost serves = { λ _. ⊤ };

    ghost number = { λ p. p.number };

    ghost front = { λ _. 0 };

    ghost book = { λ p. map (λ (u : Use). record {
      call = u.call;
      tries = u.tries;
      answer = record { outcome = Present u.says; keys = p.keys.items; ends = p.ends.items };
      class = Silent;
      place = 0;
      start = 0;
      end = 0;
    }) (take p.used p.uses.items) };

    ghost left = { λ p. vec_len p.uses - p.used };

    ghost kept_keys = { λ p. cond p.worn [] p.keys.items };

    ghost kept_ends = { λ p. cond p.worn [] p.ends.items };

    fn perform(&mut self, call: &Call, tries: u32) -> Outcome {
        if self.used < self.uses.len() {
            let says = self.uses[self.used].says;
            self.uses[self.used] = Use {
                call: *call,
                tries,
                says,
            };
            self.used += 1;
            self.worn = false;
            Outcome::Present(says)
        } else {
            self.worn = true;
            Outcome::Worn
        }
    }

    fn keys(&self) -> &[u32] {
        if self.worn {
            return &[];
        }
        self.keys.as_slice()
    }

    fn ends(&self) -> &[u32] {
        if self.worn {
            return &[];
        }
        self.ends.as_slice()
    }

    fn number(&self) -> u32 {
        self.number
    }
}

impl Teller {
    // A port of this number that says these numbers.
    fn new(
        alloc: Global,
        number: u32,
        says: &[u32],
        keys: &[u32],
        ends: &[u32],
    ) -> Result<Self, AllocError>
        ensures number { IfOk result (λ t. t.number ≡ number) }
    {
        let mut uses = Vec::new(alloc);
        for &says in says {
            uses.push(Use {
                call: Call::Levels { from: 0 },
                tries: 0,
                says,
            })?;
        }
        Ok(Teller {
            number,
            uses,
            used: 0,
            keys: keys.to_vec(alloc)?,
            ends: ends.to_vec(alloc)?,
            worn: false,
        })
    }
}

// The row of a caller that asks for a vertex.
fn row_of(caller: u32, key: u32) -> Row
    ensures caller { result.caller ≡ caller }
{
    Row {
        caller,
        call: Call::HasVertex { key },
    }
}

#[test]
fn answers_come_in_the_order_of_the_rows(rt: HostRuntime) {
    let alloc = rt.alloc();
    let zero = Teller::new(alloc, 0, &[10, 11, 12], &[7, 8, 9], &[1, 3]).expect(&rt, "memory");
    let one = Teller::new(alloc, 1, &[20], &[], &[5]).expect(&rt, "memory");
    let two = Teller::new(alloc, 2, &[30], &[], &[]).expect(&rt, "memory");
    let mut lanes = [
        Lane::new(alloc, zero),
        Lane::new(alloc, one),
        Lane::new(alloc, two),
    ];
    let rows = [
        row_of(1, 100),
        row_of(0, 101),
        row_of(0, 102),
        row_of(1, 103),
        row_of(0, 104),
    ];
    let answers = run_callers(&rt, alloc, &rows, &mut lanes, 6).expect(&rt, "memory");
    let expected = [
        (Outcome::Present(20), 0, 1),
        (Outcome::Present(10), 3, 2),
        (Outcome::Present(11), 3, 2),
        (Outcome::Worn, 0, 0),
        (Outcome::Present(12), 3, 2),
    ];
    assert_eq!(rt; answers.len(), expected.len());
    for (answer, wanted) in answers.iter().zip(expected.iter()) {
        let found = (
            answer.outcome,
            answer.keys.as_slice().len(),
            answer.ends.as_slice().len(),
        );
        assert_eq!(rt; found, *wanted);
    }
    let used = [3, 1, 0];
    for (lane, used) in lanes.into_iter().zip(used.into_iter()) {
        let port = lane.into_port();
        assert_eq!(rt; port.used, used);
        for made in port.uses.iter().take(used) {
            assert_eq!(rt; made.tries, 6);
        }
    }
}

fn is_send<T: Send>() {}

fn lane_is_send<P: Send>() {
    is_send::<Lane<P>>();
}

#[test]
fn lanes_of_ports_that_may_go_to_other_threads_may_too() {
    lane_is_send::<Teller>();
    lane_is_send::<Waiter<'static>>();
}
