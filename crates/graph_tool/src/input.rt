//! The whole input, read in pieces up to a limit.
//!
//! A source of unknown length is read until it answers that nothing is left, or until one byte more than
//! the limit has come: that byte alone tells that the input is too long. The loop keeps what was taken
//! so far as the bytes at hand (`Takes` of graph_kinds).

ghost use Rattle.std.specs.Prelude.{◌≡◌, ◌+◌, ◌≤◌, ◌<◌, true, false, IfOk, OnOk, IfSome, length};
ghost use Rattle.graph_kinds.specs.Stream.{Rose, Takes, TakesMany};
ghost use Rattle.graph_tool.specs.Input.{IfFailed, IfTooLong, TakesAtMost, most_bytes};

use graph_kinds::{ReadAnswer, Source};
use std::alloc::Global;

/// The most bytes of one input.
pub const MOST_BYTES: usize = 8_388_608;

// The most bytes of one read.
const PIECE: usize = 65_536;

/// Why an input was not read: more bytes came than the limit, a read failed, or memory ran out.
#[derive(Debug, Drop, Clone, Copy, PartialEq, Eq)]
pub enum InputFault {
    TooLong,
    Failed,
    Memory,
}

/// All bytes of the source, read to its end. A read asks for at most 65,536 bytes, and in the last piece
/// for no more than one byte past the limit. O(bytes).
///
/// # Errors
/// `TooLong` exactly where 8,388,609 bytes were taken; `Failed` only where the source's count of faults
/// rose; `Memory` where there is no room for the bytes.
pub fn read_input<S: Source>(alloc: Global, source: &mut S) -> Result<Vec<u8>, InputFault>
    ensures end { OnOk result (S.ended source.new ≡ true) }
    ensures bytes { IfOk result (λ v. Takes (S.rest source.old) (S.rest source.new) v.items) }
    ensures all { IfOk result (λ v. IfSome (S.rest source.old) (λ bytes. v.items ≡ bytes)) }
    ensures fits { OnOk result (TakesAtMost (S.rest source.old) (S.rest source.new) most_bytes) }
    ensures short { OnOk result (IfSome (S.rest source.old) (λ bytes. length bytes ≤ most_bytes)) }
    ensures too_long { IfTooLong result (TakesMany (S.rest source.old) (S.rest source.new) (most_bytes + 1)) }
    ensures more { IfTooLong result (S.ended source.new ≡ false) }
    ensures rose { IfFailed result (Rose (S.faults source.old) (S.faults source.new)) }
    ensures within { IfFailed result (TakesAtMost (S.rest source.old) (S.rest source.new) most_bytes) }
    ensures open_still { IfFailed result (S.ended source.new ≡ false) }
    ensures faults { S.faults source.old ≤ S.faults source.new }
{
    let mut all = Vec::new(alloc);
    let mut piece = [0; PIECE];
    while all.len() <= MOST_BYTES {
        let room = PIECE.min(MOST_BYTES + 1 - all.len());
        match source.read(&mut piece[..room]) {
            ReadAnswer::Got(n) => {
                if all.extend_from_slice(&piece[..n as usize]).is_err() {
                    return Err(InputFault::Memory);
                }
            }
            ReadAnswer::End => return Ok(all),
            ReadAnswer::Failed => return Err(InputFault::Failed),
        }
    }
    Err(InputFault::TooLong)
}
