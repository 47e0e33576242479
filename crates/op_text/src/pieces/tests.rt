//! Lines through pieces: on time, in full, and none lost where a write fails.

ghost use Rattle.std.specs.Prelude.{IfOk, codes};
ghost use Rattle.graph_kinds.specs.Stream.{Puts};

use super::*;
use crate::write::write_outcome;
use graph_kinds::{MemSink, Outcome};
use std::test::Fail;

// What a caller knows of the sink behind once the pieces are gone.
fn with_two_lines<K: Sink + Drop>(alloc: Global, sink: K) -> Result<K, Fail>
    ensures { IfOk result (λ k. Puts (K.taken sink) (K.taken k) (codes "yes\nno vertex\n")) }
{
    let mut pieces = Pieces::new(alloc, sink)?;
    write_outcome(&mut pieces, Outcome::Yes, &[], &[])?;
    write_outcome(&mut pieces, Outcome::NoVertex, &[], &[])?;
    pieces.flush()?;
    Ok(pieces.into_sink())
}

#[test]
fn lines_come_through_pieces(rt: HostRuntime) -> Result<(), Fail> {
    let sink = MemSink::new(rt.alloc(), 100, 4, Vec::new(rt.alloc()))?;
    let sink = with_two_lines(rt.alloc(), sink)?;
    assert_eq!(rt; sink.bytes(), b"yes\nno vertex\n".as_slice());
    Ok(())
}

#[test]
fn what_a_failed_flush_left_is_held(rt: HostRuntime) -> Result<(), Fail> {
    let failing = vec![in rt.alloc(); 2]?;
    let mut pieces = Pieces::new(rt.alloc(), MemSink::new(rt.alloc(), 100, 3, failing)?)?;
    write_outcome(&mut pieces, Outcome::Absent, &[], &[])?;
    assert_eq!(rt; pieces.flush(), Err(WriteFailed));
    assert_eq!(rt; pieces.flush(), Ok(()));
    assert_eq!(rt; pieces.into_sink().bytes(), b"absent\n".as_slice());
    Ok(())
}

#[test]
fn a_full_piece_is_handed_on(rt: HostRuntime) -> Result<(), Fail> {
    let sink = MemSink::new(rt.alloc(), 100_000, 100_000, Vec::new(rt.alloc()))?;
    let mut pieces = Pieces::new(rt.alloc(), sink)?;
    for _ in 0..7000 {
        crate::write::write_text(&mut pieces, b"0123456789")?;
    }
    assert_eq!(rt; pieces.into_sink().bytes().len(), 65_536);
    Ok(())
}
