//! The top call over a sink that hands on in pieces, so that the sink behind has all in the end.

ghost use Rattle.std.specs.Prelude.{◌≡◌, ◌+◌, ◌<◌, ◌≤◌, ◌⊎◌, ℕ, List, true, false, Ok, Err, IfSome, Some, length};
ghost use Rattle.graph_kinds.specs.Stream.{Puts, PutsSome, Rose, TakesMany, TakesMore};
ghost use Rattle.graph_kinds.specs.declared.call.Row.{Row};
ghost use Rattle.op_text.specs.Pieces.{IsFirstPart, given, inner};
ghost use Rattle.op_text.specs.Rows.{rows};
ghost use Rattle.op_text.specs.declared.rows.RowCause.{RowCause};
ghost use Rattle.graph_tool.specs.Command.{command_of};
ghost use Rattle.graph_tool.specs.Input.{most_bytes};
ghost use Rattle.graph_tool.specs.Run.{Asks, IsAccepted, RunsAlone, callers, replayed};
ghost use Rattle.graph_tool.specs.Status.{IfDone, IfUsage, IfBadRow, IfReadFault, IfWriteFault, UnlessMemory};
ghost use Rattle.graph_tool.specs.Status.{UnlessWriting};
ghost use Rattle.graph_tool.specs.declared.command.Command.{Command};
ghost use Rattle.graph_tool.specs.declared.status.UsageCause.{UsageCause};

use crate::gate::Gate;
use crate::graph_main::graph_main;
use crate::status::{Status, UsageCause};
use graph_kinds::{Sink, Source};
use op_text::Pieces;
use std::alloc::Global;
use std::thread::Threads;

/// `graph_main` on a sink that hands on in pieces, and behind a run that is Done the last piece: then the sink
/// behind was given the whole text. After `WriteFault` it has a first part of what it had, what was held, and the
/// text; after any other refusal it is as it was. Costs what `graph_main` costs.
///
/// # Errors
/// Those of `graph_main`, exactly where they come there; and `WriteFault` where the last piece can't be handed
/// on, only where the count of faults of the sink behind rose.
pub fn graph_main_in_pieces<R: Threads + Sync, S: Source, K: Sink, G: Gate>(
    rt: &R,
    alloc: Global,
    words: &[String],
    source: &mut S,
    sink: &mut Pieces<K>,
    gate: &G,
) -> Status
    ensures done { IfDone result (IfSome (S.rest source.old) (λ bytes. (written : List ℕ)
        × Asks words.now bytes written × Puts (given K.taken sink.old) (K.taken (inner sink.new)) written)) }
    ensures in_order { IfDone result (IfSome (S.rest source.old) (λ bytes. (command : Command) (asked : List Row)
        → command_of words.now ≡ Ok command → rows callers bytes ≡ Ok asked → RunsAlone command asked
        → Puts (given K.taken sink.old) (K.taken (inner sink.new)) (replayed asked))) }
    ensures end { IfDone result (S.ended source.new ≡ true) }
    ensures usage { IfUsage result (λ cause. (cause ≡ UsageCause.InputTooLong) ⊎ (command_of words.now ≡ Err cause)) }
    ensures refused { (cause : UsageCause) → command_of words.now ≡ Err cause → result ≡ Status.Usage cause }
    ensures unread { (cause : UsageCause) → command_of words.now ≡ Err cause → source.new ≡ source.old }
    ensures too_long { result ≡ Status.Usage UsageCause.InputTooLong → IsAccepted words.now
        × TakesMany (S.rest source.old) (S.rest source.new) (most_bytes + 1) × (S.ended source.new ≡ false) }
    ensures too_long_only { IsAccepted words.now → IfSome (S.rest source.old) (λ bytes.
        TakesMore (Some bytes) (S.rest source.new) most_bytes
        → UnlessMemory result (result ≡ Status.Usage UsageCause.InputTooLong)) }
    ensures too_long_input { IsAccepted words.now → IfSome (S.rest source.old) (λ bytes. most_bytes < length bytes
        → (Rose (S.faults source.old) (S.faults source.new) → ⊥)
        → UnlessMemory result (result ≡ Status.Usage UsageCause.InputTooLong)) }
    ensures bad_row { IfBadRow result (λ row cause. IsAccepted words.now × (S.ended source.new ≡ true)
        × IfSome (S.rest source.old) (λ bytes. rows callers bytes ≡ Err (row, cause))) }
    ensures bad_row_only { (row : ℕ) (cause : RowCause) → IsAccepted words.now → S.ended source.new ≡ true
        → IfSome (S.rest source.old) (λ bytes. rows callers bytes ≡ Err (row, cause)
        → UnlessMemory result (result ≡ Status.BadRow row cause)) }
    ensures read_fault { IfReadFault result (IsAccepted words.now × Rose (S.faults source.old) (S.faults source.new)) }
    ensures write_fault { IfWriteFault result (IsAccepted words.now
        × Rose (K.faults (inner sink.old)) (K.faults (inner sink.new))) }
    ensures prefix { IfWriteFault result (IfSome (S.rest source.old) (λ bytes. (written : List ℕ)
        × Asks words.now bytes written × PutsSome (given K.taken sink.old) (given K.taken sink.new) written)) }
    ensures prefix_behind { IfWriteFault result (IfSome (S.rest source.old) (λ bytes. (written : List ℕ)
        × Asks words.now bytes written × IsFirstPart (given K.taken sink.old) (K.taken (inner sink.new)) written)) }
    ensures unwritten { UnlessWriting result (given K.taken sink.new ≡ given K.taken sink.old) }
    ensures untouched { UnlessWriting result (inner sink.new ≡ inner sink.old) }
    ensures reads { S.faults source.old ≤ S.faults source.new }
    ensures faults { K.faults (inner sink.old) ≤ K.faults (inner sink.new) }
    ensures complete { (asked : List Row) → IsAccepted words.now
        → IfSome (S.rest source.old) (λ bytes. length bytes ≤ most_bytes → rows callers bytes ≡ Ok asked
        → (Rose (S.faults source.old) (S.faults source.new) → ⊥)
        → (Rose (K.faults (inner sink.old)) (K.faults (inner sink.new)) → ⊥)
        → UnlessMemory result (result ≡ Status.Done)) }
{
    match graph_main(rt, alloc, words, source, sink, gate) {
        Status::Done => match sink.flush() {
            Ok(()) => Status::Done,
            Err(_) => Status::WriteFault,
        },
        status => status,
    }
}
