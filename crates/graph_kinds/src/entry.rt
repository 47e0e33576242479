//! One call of a caller as it stands in that caller's book. No code makes a value of it: it is seen by contracts.

use crate::answer::Answer;
use crate::call::Call;

/// How an entry stands beside the events of its place: it changed nothing and stands before the event
/// there (`Silent`), it was overtaken by that event of another caller (`Late`), or that event is its
/// own (`Own`).
#[derive(Debug, Drop, Clone, Copy, PartialEq, Eq)]
pub enum Class {
    Silent,
    Late,
    Own,
}

/// A call with its answer, and where it stands in the journal of all events: it was entered when the
/// journal that its caller had seen had the length `start`, took effect at `place`, and was answered
/// at the length `end`. `tries` is how often it might try to win its step.
pub struct Entry {
    pub call: Call,
    pub tries: u64,
    pub answer: Answer,
    pub class: Class,
    pub place: u64,
    pub start: u64,
    pub end: u64,
}
