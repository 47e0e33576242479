//! Standard input and output, or any reader and writer, as a source and a sink.
//!
//! They are the trusted edge: what the system gives and takes is told to nobody, so as a source and a sink they
//! tell no bytes, and keep the promises of `Source` and `Sink` on counts and ends. Of a reader or a writer whose
//! bytes the library does tell, each call says what became of them.

ghost use Rattle.std.specs.Prelude.{◌≡◌, true, false, None, List, [], ℕ, IfSome, IfNone, ◌≤◌, ◌<◌, length, take};
ghost use Rattle.std.specs.Io.KnownBytes.{Appends, Consumes, IsAtEnd, Keeps};
ghost use Rattle.graph_kinds.specs.Stream.{Rose, IfGot, IfEnd, IfReadFailed, IfTook, IfWriteFailed};

use graph_kinds::{ReadAnswer, Sink, Source, WriteAnswer};
use std::io;

// The most bytes of one call.
const MOST: usize = 65_536;

// The most turns of a read or a write that is interrupted.
const TURNS: u32 = 1024;

/// A reader as a source. It counts the reads that failed, and keeps whether one has answered `End`.
#[derive(Drop)]
pub struct ReadSource<R> {
    reader: R,
    faults: u64,
    ended: bool,
}

impl<R: io::Read> ReadSource<R> {
    /// A source of what the reader gives; no read has failed yet, and none has answered `End`. O(1).
    pub fn new(reader: R) -> Self
        ensures ended { ⟦<ReadSource<R> as Source>⟧.ended result ≡ false }
        ensures faults { ⟦<ReadSource<R> as Source>⟧.faults result ≡ 0 }
    {
        ReadSource {
            reader,
            faults: 0,
            ended: false,
        }
    }
}

impl<R: io::Read> Source for ReadSource<R> {
    ghost use Rattle.graph_tool.specs.Streams.{reader_of, reader_faults, reader_ended};

    ghost rest = { λ _. None };

    ghost ended = { reader_ended };

    ghost faults = { reader_faults };

    // The clauses of the trait, and then what becomes of a reader's bytes where the library tells them: those that
    // were got came from it, a first End means that none was left, and after a fault all are there still. So
    // neither a read that was interrupted nor one that failed is taken for the end.
    fn read(&mut self, into: &mut [u8]) -> ReadAnswer
        requires { 0 < length into.old }
        ensures some { IfGot result (λ n. (0 < n) × (n ≤ length into.old)) }
        ensures goes_on { IfGot result (λ _. reader_ended self.new ≡ reader_ended self.old) }
        ensures end { IfEnd result (reader_ended self.new ≡ true) }
        ensures failed { IfReadFailed result (reader_ended self.new ≡ reader_ended self.old) }
        ensures rose { IfReadFailed result (Rose (reader_faults self.old) (reader_faults self.new)) }
        ensures stays { reader_ended self.old ≡ true → result ≡ ReadAnswer.End }
        ensures faults { reader_faults self.old ≤ reader_faults self.new }
        ensures known { IfGot result (λ n. Consumes (R.remaining (reader_of self.old))
            (R.remaining (reader_of self.new)) (take n into.new)) }
        ensures known_end { IfEnd result (reader_ended self.old ≡ false → IsAtEnd (R.remaining (reader_of self.new))) }
        ensures known_failed { IfReadFailed result (Keeps (R.remaining (reader_of self.old))
            (R.remaining (reader_of self.new))) }
    {
        if self.ended {
            return ReadAnswer::End;
        }
        let most = into.len().min(MOST);
        match read_some(&mut self.reader, &mut into[..most]) {
            Some(0) => {
                self.ended = true;
                ReadAnswer::End
            }
            Some(n) => ReadAnswer::Got(n as u32),
            None => {
                self.faults = self.faults.saturating_add(1);
                ReadAnswer::Failed
            }
        }
    }
}

// One read, made again where it was interrupted. None where it failed.
fn read_some<R: io::Read>(reader: &mut R, into: &mut [u8]) -> Option<usize>
    ensures within { IfSome result (λ n. n ≤ length into.old) }
    ensures known { IfSome result (λ n. Consumes (R.remaining reader.old) (R.remaining reader.new) (take n into.new)) }
    ensures known_end { IfSome result (λ n. n ≡ 0 → 0 < length into.old → IsAtEnd (R.remaining reader.new)) }
    ensures known_failed { IfNone result (Keeps (R.remaining reader.old) (R.remaining reader.new)) }
{
    for _ in 0..TURNS {
        match reader.read(into) {
            Ok(n) => return Some(n),
            Err(e) => {
                if e.kind() != io::ErrorKind::Interrupted {
                    return None;
                }
            }
        }
    }
    None
}

/// A writer as a sink. It counts the writes that failed; one that takes nothing has failed.
#[derive(Drop)]
pub struct WriteSink<W> {
    writer: W,
    faults: u64,
}

impl<W: io::Write> WriteSink<W> {
    /// A sink of what the writer takes; no write has failed yet. O(1).
    pub fn new(writer: W) -> Self
        ensures { ⟦<WriteSink<W> as Sink>⟧.faults result ≡ 0 }
    {
        WriteSink { writer, faults: 0 }
    }
}

impl<W: io::Write> Sink for WriteSink<W> {
    ghost use Rattle.graph_tool.specs.Streams.{writer_of, writer_faults};

    ghost taken = { λ _. None };

    ghost faults = { writer_faults };

    // The clauses of the trait, and then what a writer has where the library tells its bytes: those that were taken
    // came behind, and after a fault it has what it had.
    fn write(&mut self, from: &[u8]) -> WriteAnswer
        requires { 0 < length from.now }
        ensures some { IfTook result (λ n. (0 < n) × (n ≤ length from.now)) }
        ensures rose { IfWriteFailed result (Rose (writer_faults self.old) (writer_faults self.new)) }
        ensures faults { writer_faults self.old ≤ writer_faults self.new }
        ensures known { IfTook result (λ n. Appends (W.contents (writer_of self.old)) (W.contents (writer_of self.new))
            (take n from.now)) }
        ensures known_failed { IfWriteFailed result (Keeps (W.contents (writer_of self.old))
            (W.contents (writer_of self.new))) }
    {
        let most = from.len().min(MOST);
        match write_some(&mut self.writer, &from[..most]) {
            Some(n) => WriteAnswer::Took(n as u32),
            None => {
                self.faults = self.faults.saturating_add(1);
                WriteAnswer::Failed
            }
        }
    }
}

// One write, made again where it was interrupted. None where it failed or took nothing.
fn write_some<W: io::Write>(writer: &mut W, from: &[u8]) -> Option<usize>
    ensures some { IfSome result (λ n. 0 < n) }
    ensures within { IfSome result (λ n. n ≤ length from.now) }
    ensures known { IfSome result (λ n. Appends (W.contents writer.old) (W.contents writer.new) (take n from.now)) }
    ensures known_failed { IfNone result (Keeps (W.contents writer.old) (W.contents writer.new)) }
{
    for _ in 0..TURNS {
        match writer.write(from) {
            Ok(0) => return None,
            Ok(n) => return Some(n),
            Err(e) => {
                if e.kind() != io::ErrorKind::Interrupted {
                    return None;
                }
            }
        }
    }
    None
}
