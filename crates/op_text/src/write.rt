//! The texts of answers.
//!
//! A line is written piece by piece, each through `write_text`, and the first piece that fails ends it:
//! what the sink took is then a prefix of the line. `Gives` of `specs/Gives.antt` is what each piece comes to.

ghost use Rattle.std.specs.Prelude.{ℕ, ◌<◌, ◌≤◌, [], ◌∷◌, ◌++◌, if◌then◌else◌, OnOk, OnErr, codes, length, take};
ghost use Rattle.std.specs.Fmt.{decimal};
ghost use Rattle.graph_kinds.specs.Stream.{Rose, Puts, PutsSome};
ghost use Rattle.op_text.specs.Gives.{Gives};
ghost use Rattle.op_text.specs.Text.{AreEnds, IsWritable, outcome_text, line, spaced, barred, levels_by, with_weight};

use crate::number::give_number;
use graph_kinds::{Outcome, Sink, WriteAnswer};

/// A write failed.
#[derive(Debug, Drop, Clone, Copy, PartialEq, Eq)]
pub struct WriteFailed;

/// Gives the sink all bytes of the text. O(bytes), in as many writes as the sink makes of them; an empty
/// text makes no write.
///
/// # Errors
/// `WriteFailed` only where the sink's count of faults rose; what the sink took is a prefix of the text.
pub fn write_text<K: Sink>(sink: &mut K, text: &[u8]) -> Result<(), WriteFailed>
    ensures ok { OnOk result (Puts (K.taken sink.old) (K.taken sink.new) text.now) }
    ensures prefix { OnErr result (PutsSome (K.taken sink.old) (K.taken sink.new) text.now) }
    ensures rose { OnErr result (Rose (K.faults sink.old) (K.faults sink.new)) }
    ensures faults { K.faults sink.old ≤ K.faults sink.new }
{
    give_text(sink, text)
}

/// Gives the sink the line of an outcome with its keys and level ends. O(keys + ends), takes no memory.
///
/// # Errors
/// `WriteFailed` only where the sink's count of faults rose; what the sink took is a prefix of the line.
pub fn write_outcome<K: Sink>(
    sink: &mut K,
    outcome: Outcome,
    keys: &[u32],
    ends: &[u32],
) -> Result<(), WriteFailed>
    requires { IsWritable outcome keys.now ends.now }
    ensures ok { OnOk result (Puts (K.taken sink.old) (K.taken sink.new)
        (line (outcome_text outcome keys.now ends.now))) }
    ensures prefix { OnErr result (PutsSome (K.taken sink.old) (K.taken sink.new)
        (line (outcome_text outcome keys.now ends.now))) }
    ensures rose { OnErr result (Rose (K.faults sink.old) (K.faults sink.new)) }
    ensures faults { K.faults sink.old ≤ K.faults sink.new }
{
    give_outcome(sink, outcome, keys, ends)?;
    give_text(sink, b"\n")
}

/// The line without its line feed.
fn give_outcome<K: Sink>(
    sink: &mut K,
    outcome: Outcome,
    keys: &[u32],
    ends: &[u32],
) -> Result<(), WriteFailed>
    requires { IsWritable outcome keys.now ends.now }
    ensures { Gives K.taken K.faults sink.old sink.new (outcome_text outcome keys.now ends.now) result }
{
    match outcome {
        Outcome::Added => give_text(sink, b"added"),
        Outcome::Present(weight) => give_weighted(sink, b"present", weight),
        Outcome::Changed(weight) => give_numbered(sink, b"changed ", weight),
        Outcome::Removed(weight) => give_weighted(sink, b"removed", weight),
        Outcome::Absent => give_text(sink, b"absent"),
        Outcome::Yes => give_text(sink, b"yes"),
        Outcome::No => give_text(sink, b"no"),
        Outcome::Edge(weight) => give_numbered(sink, b"edge ", weight),
        Outcome::NoVertex => give_text(sink, b"no vertex"),
        Outcome::NoEdge => give_text(sink, b"no edge"),
        Outcome::Path => give_path(sink, keys),
        Outcome::Cost(cost) => give_cost(sink, cost, keys),
        Outcome::NoPath => give_text(sink, b"no path"),
        Outcome::Levels(_) => give_levels(sink, keys, ends),
        Outcome::Overtaken => give_text(sink, b"overtaken"),
        Outcome::Full => give_text(sink, b"full"),
        Outcome::Again => give_text(sink, b"again"),
        Outcome::Worn => give_text(sink, b"worn"),
    }
}

/// Gives the sink bytes from the front of the text until all are taken or a write fails, and tells how many
/// were taken.
pub(crate) fn put_front<K: Sink>(sink: &mut K, text: &[u8]) -> usize
    ensures within { result ≤ length text.now }
    ensures put { Puts (K.taken sink.old) (K.taken sink.new) (take result text.now) }
    ensures rose { result < length text.now → Rose (K.faults sink.old) (K.faults sink.new) }
    ensures later { K.faults sink.old ≤ K.faults sink.new }
{
    let mut done = 0;
    while done < text.len() {
        match sink.write(&text[done..]) {
            WriteAnswer::Took(n) => done += n as usize,
            WriteAnswer::Failed => return done,
        }
    }
    done
}

/// `write_text` with its contract in one record, for the functions that write a line piece by piece. O(bytes).
pub(crate) fn give_text<K: Sink>(sink: &mut K, text: &[u8]) -> Result<(), WriteFailed>
    ensures { Gives K.taken K.faults sink.old sink.new text.now result }
{
    if put_front(sink, text) < text.len() {
        return Err(WriteFailed);
    }
    Ok(())
}

/// Gives the sink a number after a space. O(digits), takes no memory.
///
/// # Errors
/// `WriteFailed` only where the sink's count of faults rose; what the sink took is a prefix of the text.
pub fn give_spaced<K: Sink>(sink: &mut K, number: u64) -> Result<(), WriteFailed>
    ensures { Gives K.taken K.faults sink.old sink.new (32 ∷ decimal number) result }
{
    give_text(sink, b" ")?;
    give_number(sink, number)
}

/// Each number after a space.
fn give_all_spaced<K: Sink>(sink: &mut K, numbers: &[u32]) -> Result<(), WriteFailed>
    ensures { Gives K.taken K.faults sink.old sink.new (spaced numbers.now) result }
{
    for number in numbers {
        give_spaced(sink, *number as u64)?;
    }
    Ok(())
}

/// The word, and the weight after it where it isn't 0.
fn give_weighted<K: Sink>(sink: &mut K, word: &[u8], weight: u32) -> Result<(), WriteFailed>
    ensures { Gives K.taken K.faults sink.old sink.new (with_weight word.now weight) result }
{
    if weight == 0 {
        return give_text(sink, word);
    }
    give_text(sink, word)?;
    give_spaced(sink, weight as u64)
}

/// The word, which ends with a space, and the weight after it.
fn give_numbered<K: Sink>(sink: &mut K, word: &[u8], weight: u32) -> Result<(), WriteFailed>
    ensures { Gives K.taken K.faults sink.old sink.new (word.now ++ decimal weight) result }
{
    give_text(sink, word)?;
    give_number(sink, weight as u64)
}

/// The answer with a path's keys.
fn give_path<K: Sink>(sink: &mut K, keys: &[u32]) -> Result<(), WriteFailed>
    ensures { Gives K.taken K.faults sink.old sink.new (codes "path" ++ spaced keys.now) result }
{
    give_text(sink, b"path")?;
    give_all_spaced(sink, keys)
}

/// The answer with a cost and the keys of its path.
fn give_cost<K: Sink>(sink: &mut K, cost: u64, keys: &[u32]) -> Result<(), WriteFailed>
    ensures { Gives K.taken K.faults sink.old sink.new
        (codes "cost " ++ (decimal cost ++ (codes " path" ++ spaced keys.now))) result }
{
    give_text(sink, b"cost ")?;
    give_number(sink, cost)?;
    give_text(sink, b" ")?;
    give_path(sink, keys)
}

/// The answer with the keys of each level.
fn give_levels<K: Sink>(sink: &mut K, keys: &[u32], ends: &[u32]) -> Result<(), WriteFailed>
    requires { (n : ℕ) × AreEnds n keys.now ends.now }
    ensures { Gives K.taken K.faults sink.old sink.new
        (codes "levels" ++ barred (levels_by 0 keys.now ends.now)) result }
{
    give_text(sink, b"levels")?;
    give_barred(sink, keys, ends)
}

/// The keys of each level, with a bar between levels.
fn give_barred<K: Sink>(sink: &mut K, keys: &[u32], ends: &[u32]) -> Result<(), WriteFailed>
    requires { (n : ℕ) × AreEnds n keys.now ends.now }
    ensures { Gives K.taken K.faults sink.old sink.new (barred (levels_by 0 keys.now ends.now)) result }
{
    let mut from = 0;
    for (i, end) in ends.iter().enumerate() {
        let end = *end as usize;
        give_level(sink, &keys[from..end], i + 1 == ends.len())?;
        from = end;
    }
    Ok(())
}

/// The keys of one level, and a bar where it isn't the last.
fn give_level<K: Sink>(sink: &mut K, level: &[u32], last: bool) -> Result<(), WriteFailed>
    ensures { Gives K.taken K.faults sink.old sink.new (spaced level.now ++ (if last then [] else codes " |")) result }
{
    give_all_spaced(sink, level)?;
    if last {
        return Ok(());
    }
    give_text(sink, b" |")
}

#[cfg(test)]
mod tests;
