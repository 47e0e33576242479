//! What answers the calls of one caller.
//!
//! A port is driven by one thread at a time and waits for nobody. Contracts see its book, a list of what
//! it was asked and answered, and how much of the journal of all events it has seen, its front.

ghost use Rattle.std.specs.Prelude.{◌≡◌, ◌↔◌, ℕ, ◌+◌, ◌<◌, ◌≤◌, List, []};
ghost use Rattle.graph_kinds.specs.declared.answer.Answer.{Answer};
ghost use Rattle.graph_kinds.specs.declared.call.Call.{Call};
ghost use Rattle.graph_kinds.specs.declared.entry.Entry.{Entry};
ghost use Rattle.graph_kinds.specs.Port.{GainsEntry};

use crate::call::Call;
use crate::outcome::Outcome;

/// What answers the calls of one caller.
pub trait CallerPort {
    // What it is a port of.
    ghost Origin: { Type 0 };

    ghost origin: { Self → Origin };

    // The calls that it answers.
    ghost serves: { Call → Type 0 };

    // The number of its caller.
    ghost number: { Self → ℕ };

    // The length of its caller's front.
    ghost front: { Self → ℕ };

    // The calls that were answered, in order.
    ghost book: { Self → List Entry };

    // How many uses its caller has left.
    ghost left: { Self → ℕ };

    // The keys of the last answer, and where each of its levels ends.
    ghost kept_keys: { Self → List ℕ };

    ghost kept_ends: { Self → List ℕ };

    /// Answers a call, with so many tries to win its step. `Worn` comes exactly where no use is left, and then
    /// front and book stay. Else one use is gone, and the book has one entry more, at its end, with this call,
    /// its tries and this answer; it starts at the old length of the front and ends at the new one.
    fn perform(&mut self, call: &Call, tries: u32) -> Outcome
        requires call { serves call.now }
        requires some { 0 < tries }
        ensures number { number self.new ≡ number self.old }
        ensures origin { origin self.new ≡ origin self.old }
        ensures worn { result ≡ Outcome.Worn ↔ (left self.old ≡ 0) }
        ensures worn_keys { result ≡ Outcome.Worn → (kept_keys self.new ≡ []) × (kept_ends self.new ≡ []) }
        ensures stays { left self.old ≡ 0 → (front self.new ≡ front self.old)
            × ((book self.new ≡ book self.old) × (left self.new ≡ 0)) }
        ensures falls { 0 < left self.old → left self.new + 1 ≡ left self.old }
        ensures grows { front self.old ≤ front self.new }
        ensures entry { 0 < left self.old → GainsEntry (book self.old) (book self.new) call.now tries
            (record { outcome = result; keys = kept_keys self.new; ends = kept_ends self.new })
            (front self.old) (front self.new) };

    /// The keys of the last answer, in O(1); there are none for an answer other than Path, Cost and Levels.
    fn keys(&self) -> &[u32]
        ensures keys { result.now ≡ kept_keys self.now };

    /// Where each level of the last answer ends, in O(1), as numbers of keys; there are none for an answer other
    /// than Levels.
    fn ends(&self) -> &[u32]
        ensures ends { result.now ≡ kept_ends self.now };

    /// The number of its caller, in O(1).
    fn number(&self) -> u32
        ensures number { result ≡ number self.now };
}
