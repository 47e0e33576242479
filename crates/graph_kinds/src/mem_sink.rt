//! A sink into memory, whose writes can be made small and made to fail: for tests and for the top call's rows.

ghost use Rattle.std.specs.Prelude.{◌≡◌, ◌+◌, ◌≤◌, ◌<◌, ◌⊎◌, true, [], Some, IfOk, vec_len, vec_capacity, length};
ghost use Rattle.std.specs.Prelude.{take, min};
ghost use Rattle.graph_kinds.specs.Stream.{Rose, Puts, IfTook, IfWriteFailed};

use crate::answer::Memory;
use crate::sink::{Sink, WriteAnswer};
use std::alloc::Global;

/// Bytes that are written to memory.
#[derive(Drop)]
pub struct MemSink {
    bytes: Vec<u8>,
    room: u32,
    piece: u32,
    failing: Vec<u32>,
    writes: u32,
    faults: u64,
    ghost some: { 0 < piece },
    ghost fits: { vec_len bytes ≤ room },
    ghost enough: { room ≤ vec_capacity bytes },
}

impl MemSink {
    ghost use Rattle.graph_kinds.specs.InMemory.{sink_setup, writes, room_left};

    /// A sink with room for `room` bytes, which it takes at once, and at most `piece` of them a write.
    /// The writes whose numbers, counted from 1, stand in `failing` fail, and so does each write once
    /// the room is used up. A write costs O(bytes of the piece + length of `failing`).
    ///
    /// # Errors
    /// `Memory` where there is no memory for the room.
    pub fn new(alloc: Global, room: u32, piece: u32, failing: Vec<u32>) -> Result<Self, Memory>
        requires { 0 < piece }
        ensures setup { IfOk result (λ k. sink_setup k ≡ record { piece = piece; failing = failing.items }) }
        ensures none_yet { IfOk result (λ k. writes k ≡ 0) }
        ensures room { IfOk result (λ k. room_left k ≡ room) }
        ensures taken { IfOk result (λ k. ⟦<MemSink as Sink>⟧.taken k ≡ Some []) }
        ensures faults { IfOk result (λ k. ⟦<MemSink as Sink>⟧.faults k ≡ 0) }
    {
        match Vec::with_capacity(alloc, room as usize) {
            Ok(bytes) => Ok(MemSink {
                bytes,
                room,
                piece,
                failing,
                writes: 0,
                faults: 0,
            }),
            Err(_) => Err(Memory),
        }
    }

    /// What was taken, in order. O(1).
    pub fn bytes(&self) -> &[u8]
        ensures { Some result.now ≡ ⟦<MemSink as Sink>⟧.taken self.now }
    {
        self.bytes.as_slice()
    }

    /// How many writes failed. O(1).
    pub fn faults(&self) -> u64
        ensures { result ≡ ⟦<MemSink as Sink>⟧.faults self.now }
    {
        self.faults
    }
}

impl Sink for MemSink {
    ghost use Rattle.graph_kinds.specs.InMemory.{sink_setup, writes, write_faults, bytes_taken, room_left};
    ghost use Rattle.graph_kinds.specs.InMemory.{next_call, fails_next};

    ghost taken = { λ s. Some (bytes_taken s) };

    ghost faults = { write_faults };

    // The clauses of the trait, and then what is said of this sink alone: a write fails exactly where its number is
    // listed or no room is left, and one that took bytes took as many as a piece, the text and the room allow. So
    // with an empty list none fails while there is room, and the count of faults stays. It never wants for memory.
    fn write(&mut self, from: &[u8]) -> WriteAnswer
        requires { 0 < length from.now }
        ensures some { IfTook result (λ n. (0 < n) × (n ≤ length from.now)) }
        ensures took { IfTook result (λ n. Puts (Some (bytes_taken self.old)) (Some (bytes_taken self.new))
            (take n from.now)) }
        ensures failed { IfWriteFailed result (Puts (Some (bytes_taken self.old)) (Some (bytes_taken self.new)) []) }
        ensures rose { IfWriteFailed result (Rose (write_faults self.old) (write_faults self.new)) }
        ensures faults { write_faults self.old ≤ write_faults self.new }
        ensures piece { IfTook result (λ n. n ≡ min (min (room_left self.old) (length from.now))
            (sink_setup self.old).piece) }
        ensures listed { IfWriteFailed result ((room_left self.old ≡ 0)
            ⊎ (fails_next (sink_setup self.old) (writes self.old) ≡ true)) }
        ensures full { room_left self.old ≡ 0 → result ≡ WriteAnswer.Failed }
        ensures fails { fails_next (sink_setup self.old) (writes self.old) ≡ true → result ≡ WriteAnswer.Failed }
        ensures counted { writes self.new ≡ next_call (writes self.old) }
        ensures never { (sink_setup self.old).failing ≡ [] → 0 < room_left self.old
            → write_faults self.new ≡ write_faults self.old }
        ensures setup { sink_setup self.new ≡ sink_setup self.old }
        ensures room { IfTook result (λ n. room_left self.new + n ≡ room_left self.old) }
    {
        self.writes = self.writes.saturating_add(1);
        let left = self.room as usize - self.bytes.len();
        if left == 0 || self.failing.contains(&self.writes) {
            self.faults = self.faults.saturating_add(1);
            return WriteAnswer::Failed;
        }
        let n = left.min(from.len()).min(self.piece as usize);
        match self.bytes.extend_from_slice(&from[..n]) {
            Ok(()) => WriteAnswer::Took(n as u32),
            // The room was taken at the start.
            Err(_) => unreachable!(),
        }
    }
}

#[cfg(test)]
mod tests {
    use super::*;
    use std::test::Fail;

    #[test]
    fn writes_go_in_pieces_and_fail_where_listed_or_full(rt: HostRuntime) -> Result<(), Fail> {
        let alloc = rt.alloc();
        let mut sink = MemSink::new(alloc, 5, 2, [3].to_vec(alloc)?)?;
        let answers = [
            (b"abc".as_slice(), WriteAnswer::Took(2)),
            (b"c".as_slice(), WriteAnswer::Took(1)),
            (b"de".as_slice(), WriteAnswer::Failed),
            (b"de".as_slice(), WriteAnswer::Took(2)),
            (b"f".as_slice(), WriteAnswer::Failed),
        ];
        for (from, answer) in answers {
            assert_eq!(rt; sink.write(from), answer);
        }
        assert_eq!(rt; sink.bytes(), b"abcde".as_slice());
        assert_eq!(rt; sink.faults(), 2);
        Ok(())
    }
}
