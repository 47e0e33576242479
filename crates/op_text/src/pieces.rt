//! A sink that hands on what it is given in large pieces.
//!
//! Lines are short and a write to the outside is dear: what is given is held until 65,536 bytes stand
//! together. What was given is always what the sink behind has taken and then what is held (`given` of
//! `specs/Pieces.antt`); only `flush` makes sure that nothing is held any more.

ghost use Rattle.std.specs.Prelude.{◌≡◌, ◌<◌, ◌≤◌, [], IfOk, OnOk, OnErr, vec_len, vec_capacity};

use crate::write::{WriteFailed, put_front};
use graph_kinds::{Memory, Sink, WriteAnswer};
use std::alloc::Global;

/// The bytes of a piece.
const PIECE: usize = 65_536;

/// A sink over another, which is given its bytes in pieces of 65,536.
#[derive(Drop)]
pub struct Pieces<K> {
    sink: K,
    bytes: Vec<u8>,
    from: usize,
    ghost room: { 65536 ≤ vec_capacity bytes },
    ghost fits: { vec_len bytes ≤ 65536 },
    ghost inside: { from ≤ vec_len bytes },
}

impl<K: Sink> Pieces<K> {
    ghost use Rattle.graph_kinds.specs.Stream.{Rose, PutsSome};
    ghost use Rattle.op_text.specs.Pieces.{inner, held, given};

    /// Nothing held, over this sink. Takes its room of 65,536 bytes at once, and no memory afterwards. O(1).
    ///
    /// # Errors
    /// `Memory` where there is no memory for the room.
    pub fn new(alloc: Global, sink: K) -> Result<Self, Memory>
    where
        K: Drop,
        ensures sink { IfOk result (λ p. inner p ≡ sink) }
        ensures given { IfOk result (λ p. given K.taken p ≡ K.taken sink) }
    {
        match Vec::with_capacity(alloc, PIECE) {
            Ok(bytes) => Ok(Pieces {
                sink,
                bytes,
                from: 0,
            }),
            Err(_) => Err(Memory),
        }
    }

    /// Hands on all that is held. O(bytes held).
    ///
    /// # Errors
    /// `WriteFailed` only where the count of faults of the sink behind rose; what it did not take is held.
    pub fn flush(&mut self) -> Result<(), WriteFailed>
        ensures all { OnOk result (K.taken (inner self.new) ≡ given K.taken self.old) }
        ensures none { OnOk result (held self.new ≡ []) }
        ensures some { OnErr result (PutsSome (K.taken (inner self.old)) (K.taken (inner self.new)) (held self.old)) }
        ensures rose { OnErr result (Rose (K.faults (inner self.old)) (K.faults (inner self.new))) }
        ensures faults { K.faults (inner self.old) ≤ K.faults (inner self.new) }
        ensures given { given K.taken self.new ≡ given K.taken self.old }
    {
        self.hand_on()
    }

    /// Hands on all that is held, as `flush` and a full piece do. O(bytes held).
    fn hand_on(&mut self) -> Result<(), WriteFailed>
        ensures all { OnOk result (K.taken (inner self.new) ≡ given K.taken self.old) }
        ensures none { OnOk result (vec_len self.new.bytes ≡ 0) }
        ensures some { OnErr result (PutsSome (K.taken (inner self.old)) (K.taken (inner self.new)) (held self.old)) }
        ensures rose { OnErr result (Rose (K.faults (inner self.old)) (K.faults (inner self.new))) }
        ensures faults { K.faults (inner self.old) ≤ K.faults (inner self.new) }
        ensures given { given K.taken self.new ≡ given K.taken self.old }
    {
        let handed = put_front(&mut self.sink, &self.bytes[self.from..]);
        self.from += handed;
        if self.from < self.bytes.len() {
            return Err(WriteFailed);
        }
        self.from = 0;
        self.bytes.clear();
        Ok(())
    }

    /// Hands on a full piece, so that there is room for more.
    fn make_room(&mut self) -> Result<(), WriteFailed>
        ensures room { OnOk result (vec_len self.new.bytes < 65536) }
        ensures rose { OnErr result (Rose (K.faults (inner self.old)) (K.faults (inner self.new))) }
        ensures faults { K.faults (inner self.old) ≤ K.faults (inner self.new) }
        ensures given { given K.taken self.new ≡ given K.taken self.old }
    {
        if self.bytes.len() == PIECE {
            return self.hand_on();
        }
        Ok(())
    }

    /// The sink behind; what is held is lost, so flush first. O(1).
    pub fn into_sink(self) -> K
        ensures { result ≡ inner self }
    {
        let Pieces {
            sink,
            bytes: _,
            from: _,
        } = self;
        sink
    }
}

impl<K: Sink> Sink for Pieces<K> {
    ghost use Rattle.op_text.specs.Pieces.{inner, given};

    ghost taken = { given K.taken };

    ghost faults = { λ p. K.faults (inner p) };

    fn write(&mut self, from: &[u8]) -> WriteAnswer {
        if self.make_room().is_err() {
            return WriteAnswer::Failed;
        }
        let n = from.len().min(PIECE - self.bytes.len());
        match self.bytes.extend_from_slice(&from[..n]) {
            Ok(()) => WriteAnswer::Took(n as u32),
            Err(_) => unreachable!(),
        }
    }
}

#[cfg(test)]
mod tests;
