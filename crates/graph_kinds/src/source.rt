//! Where bytes are read from.
//!
//! A source may tell the bytes that it has left, or keep them to itself as standard input does; it
//! always counts its faults. `specs/Stream.antt` has the words.

ghost use Rattle.std.specs.Prelude.{◌≡◌, ℕ, Bool, true, ◌<◌, ◌≤◌, List, [], Option, Some, length, take};
ghost use Rattle.graph_kinds.specs.Stream.{Rose, Takes, IfGot, IfEnd, IfReadFailed};

/// What a read answers: so many bytes stand at the front of the buffer; nothing is left; or the read failed.
#[derive(Debug, Drop, Clone, Copy, PartialEq, Eq)]
pub enum ReadAnswer {
    Got(u32),
    End,
    Failed,
}

/// What bytes are read from.
pub trait Source {
    // The bytes left, where they are told.
    ghost rest: { Self → Option (List ℕ) };

    // Whether a read has answered that nothing is left.
    ghost ended: { Self → Bool };

    // How many reads failed; the count ends at 2^64 - 1.
    ghost faults: { Self → ℕ };

    /// Reads some bytes into the buffer. `Got(n)` has n from 1 to the buffer's length. `End` comes only
    /// where nothing is left, and then for good. `Failed` takes nothing, and comes only where the count
    /// of faults rose.
    fn read(&mut self, into: &mut [u8]) -> ReadAnswer
        requires { 0 < length into.old }
        ensures some { IfGot result (λ n. (0 < n) × (n ≤ length into.old)) }
        ensures got { IfGot result (λ n. Takes (rest self.old) (rest self.new) (take n into.new)) }
        ensures goes_on { IfGot result (λ _. ended self.new ≡ ended self.old) }
        ensures nothing_left { IfEnd result ((bytes : List ℕ) → rest self.old ≡ Some bytes → bytes ≡ []) }
        ensures end { IfEnd result (Takes (rest self.old) (rest self.new) [] × (ended self.new ≡ true)) }
        ensures failed { IfReadFailed result (Takes (rest self.old) (rest self.new) []
            × (ended self.new ≡ ended self.old)) }
        ensures rose { IfReadFailed result (Rose (faults self.old) (faults self.new)) }
        ensures stays { ended self.old ≡ true → result ≡ ReadAnswer.End }
        ensures faults { faults self.old ≤ faults self.new };
}
