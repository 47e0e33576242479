//! Where bytes are written to.
//!
//! A sink may tell the bytes that it has taken, or keep them to itself as standard output does; it
//! always counts its faults. `specs/Stream.antt` has the words.

ghost use Rattle.std.specs.Prelude.{◌≡◌, ℕ, ◌<◌, ◌≤◌, List, [], Option, length, take};
ghost use Rattle.graph_kinds.specs.Stream.{Rose, Puts, IfTook, IfWriteFailed};

/// What a write answers: so many bytes were taken from the front, or the write failed.
#[derive(Debug, Drop, Clone, Copy, PartialEq, Eq)]
pub enum WriteAnswer {
    Took(u32),
    Failed,
}

/// What bytes are written to.
pub trait Sink {
    // The bytes taken so far, where they are told.
    ghost taken: { Self → Option (List ℕ) };

    // How many writes failed; the count ends at 2^64 - 1.
    ghost faults: { Self → ℕ };

    /// Writes some bytes from the front. `Took(n)` has n from 1 to the length. `Failed` takes nothing,
    /// and comes only where the count of faults rose.
    fn write(&mut self, from: &[u8]) -> WriteAnswer
        requires { 0 < length from.now }
        ensures some { IfTook result (λ n. (0 < n) × (n ≤ length from.now)) }
        ensures took { IfTook result (λ n. Puts (taken self.old) (taken self.new) (take n from.now)) }
        ensures failed { IfWriteFailed result (Puts (taken self.old) (taken self.new) []) }
        ensures rose { IfWriteFailed result (Rose (faults self.old) (faults self.new)) }
        ensures faults { faults self.old ≤ faults self.new };
}
