//! A source over bytes in memory, whose reads can be made small and made to fail: for tests and for the top call's
//! rows.

ghost use Rattle.std.specs.Prelude.{◌≡◌, ◌≤◌, ◌<◌, true, false, [], Some, List, ℕ, vec_len, length, take, min};
ghost use Rattle.graph_kinds.specs.Stream.{Rose, Takes, IfGot, IfEnd, IfReadFailed};

use crate::source::{ReadAnswer, Source};

/// Bytes that are read from memory.
#[derive(Drop)]
pub struct MemSource {
    bytes: Vec<u8>,
    at: usize,
    piece: u32,
    failing: Vec<u32>,
    reads: u32,
    faults: u64,
    ended: bool,
    ghost in_range: { at ≤ vec_len bytes },
    ghost some: { 0 < piece },
    ghost at_end: { ended ≡ true → at ≡ vec_len bytes },
}

impl MemSource {
    ghost use Rattle.graph_kinds.specs.InMemory.{source_setup, reads};

    /// A source of these bytes, at most `piece` of them a read. The reads whose numbers, counted from
    /// 1, stand in `failing` fail, but for reads after one that answered `End`; with an empty list it
    /// never fails. A read costs O(bytes of the piece + length of `failing`).
    pub fn new(bytes: Vec<u8>, piece: u32, failing: Vec<u32>) -> Self
        requires { 0 < piece }
        ensures setup { source_setup result ≡ record { piece = piece; failing = failing.items } }
        ensures none_yet { reads result ≡ 0 }
        ensures rest { ⟦<MemSource as Source>⟧.rest result ≡ Some bytes.items }
        ensures ended { ⟦<MemSource as Source>⟧.ended result ≡ false }
        ensures faults { ⟦<MemSource as Source>⟧.faults result ≡ 0 }
    {
        MemSource {
            bytes,
            at: 0,
            piece,
            failing,
            reads: 0,
            faults: 0,
            ended: false,
        }
    }

    /// How many reads failed. O(1).
    pub fn faults(&self) -> u64
        ensures { result ≡ ⟦<MemSource as Source>⟧.faults self.now }
    {
        self.faults
    }
}

impl Source for MemSource {
    ghost use Rattle.graph_kinds.specs.InMemory.{source_setup, reads, read_faults, has_ended, bytes_left};
    ghost use Rattle.graph_kinds.specs.InMemory.{next_call, fails_next};

    ghost rest = { λ s. Some (bytes_left s) };

    ghost ended = { has_ended };

    ghost faults = { read_faults };

    // The clauses of the trait, and then what is said of this source alone: until its end was told, a read fails
    // exactly where its number is listed, and a read that got bytes got as many as a piece, the buffer and what is
    // left allow. So with an empty list none fails, and the count of faults stays.
    fn read(&mut self, into: &mut [u8]) -> ReadAnswer
        requires { 0 < length into.old }
        ensures some { IfGot result (λ n. (0 < n) × (n ≤ length into.old)) }
        ensures got { IfGot result (λ n. Takes (Some (bytes_left self.old)) (Some (bytes_left self.new))
            (take n into.new)) }
        ensures goes_on { IfGot result (λ _. has_ended self.new ≡ has_ended self.old) }
        ensures nothing_left { IfEnd result ((bytes : List ℕ) → Some (bytes_left self.old) ≡ Some bytes
            → bytes ≡ []) }
        ensures end { IfEnd result (Takes (Some (bytes_left self.old)) (Some (bytes_left self.new)) []
            × (has_ended self.new ≡ true)) }
        ensures failed { IfReadFailed result (Takes (Some (bytes_left self.old)) (Some (bytes_left self.new)) []
            × (has_ended self.new ≡ has_ended self.old)) }
        ensures rose { IfReadFailed result (Rose (read_faults self.old) (read_faults self.new)) }
        ensures stays { has_ended self.old ≡ true → result ≡ ReadAnswer.End }
        ensures faults { read_faults self.old ≤ read_faults self.new }
        ensures piece { IfGot result (λ n. n ≡ min (min (length (bytes_left self.old)) (length into.old))
            (source_setup self.old).piece) }
        ensures listed { IfReadFailed result (fails_next (source_setup self.old) (reads self.old) ≡ true) }
        ensures fails { has_ended self.old ≡ false → fails_next (source_setup self.old) (reads self.old) ≡ true
            → result ≡ ReadAnswer.Failed }
        ensures counted { has_ended self.old ≡ false → reads self.new ≡ next_call (reads self.old) }
        ensures never { (source_setup self.old).failing ≡ [] → read_faults self.new ≡ read_faults self.old }
        ensures setup { source_setup self.new ≡ source_setup self.old }
    {
        if self.ended {
            return ReadAnswer::End;
        }
        self.reads = self.reads.saturating_add(1);
        if self.failing.contains(&self.reads) {
            self.faults = self.faults.saturating_add(1);
            return ReadAnswer::Failed;
        }
        let left = self.bytes.len() - self.at;
        if left == 0 {
            self.ended = true;
            return ReadAnswer::End;
        }
        let n = left.min(into.len()).min(self.piece as usize);
        into[..n].copy_from_slice(&self.bytes[self.at..self.at + n]);
        self.at += n;
        ReadAnswer::Got(n as u32)
    }
}

#[cfg(test)]
mod tests {
    use super::*;
    use std::test::Fail;

    #[test]
    fn reads_come_in_pieces_and_fail_where_listed(rt: HostRuntime) -> Result<(), Fail> {
        let alloc = rt.alloc();
        let failing = [2, 5].to_vec(alloc)?;
        let mut source = MemSource::new(b"abcde".to_vec(alloc)?, 2, failing);
        let answers = [
            (ReadAnswer::Got(2), b"ab".as_slice()),
            (ReadAnswer::Failed, b"".as_slice()),
            (ReadAnswer::Got(2), b"cd".as_slice()),
            (ReadAnswer::Got(1), b"e".as_slice()),
            (ReadAnswer::Failed, b"".as_slice()),
            (ReadAnswer::End, b"".as_slice()),
            (ReadAnswer::End, b"".as_slice()),
        ];
        for (answer, bytes) in answers {
            let mut into = [0; 4];
            assert_eq!(rt; source.read(&mut into), answer);
            assert!(rt; into.starts_with(bytes));
        }
        assert_eq!(rt; source.faults(), 2);
        Ok(())
    }
}
