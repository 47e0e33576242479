//! One lane: its port answers the lane's calls, one after the other.

ghost use Rattle.std.specs.Prelude.{◌≡◌, ℕ, ◌<◌, [], ◌∷◌, ◌++◌, All, IfOk, OnOk, OnErr, MatchResult};
ghost use Rattle.std.specs.Result.{IsOk};
ghost use Rattle.graph_kinds.specs.declared.answer.Answer.{Answer};
ghost use Rattle.caller_run.specs.Asked.{HasAnsweredAll, HasAnsweredSome};
ghost use Rattle.caller_run.specs.Lanes.{HasAnsweredOne, HasTakenTurn};

use crate::lane::Lane;
use graph_kinds::{Answer, Call, CallerPort, Keys, Memory};
use std::alloc::Global;
use std::collections::VecDeque;

// A copy of keys; that of none takes no memory.
fn copy_of(alloc: Global, keys: &[u32]) -> Result<Keys, Memory>
    ensures copy { IfOk result (λ copy. copy ≡ keys.now) }
    ensures free { keys.now ≡ [] → IsOk result }
{
    if keys.is_empty() {
        return Ok(Keys::new(alloc));
    }
    Keys::copy(alloc, keys)
}

// The port answers a call, and the answer is copied.
fn ask<P: CallerPort>(
    alloc: Global,
    port: &mut P,
    call: &Call,
    tries: u32,
) -> Result<Answer, Memory>
    requires call { P.serves call.now }
    requires some { 0 < tries }
    ensures number { P.number port.new ≡ P.number port.old }
    ensures origin { P.origin port.new ≡ P.origin port.old }
    ensures one { MatchResult result
        (λ a. HasAnsweredOne P.book P.left P.front port.old port.new call.now tries a)
        (λ _. (a : Answer) × HasAnsweredOne P.book P.left P.front port.old port.new call.now tries a) }
{
    let outcome = port.perform(call, tries);
    let keys = copy_of(alloc, port.keys())?;
    let ends = copy_of(alloc, port.ends())?;
    Ok(Answer {
        outcome,
        keys,
        ends,
    })
}

// The port answers a call, and the answer is kept behind those that are.
fn keep<P: CallerPort>(
    alloc: Global,
    port: &mut P,
    call: &Call,
    tries: u32,
    kept: &mut VecDeque<Answer>,
) -> Result<(), Memory>
    requires call { P.serves call.now }
    requires some { 0 < tries }
    ensures number { P.number port.new ≡ P.number port.old }
    ensures origin { P.origin port.new ≡ P.origin port.old }
    ensures one { OnOk result ((a : Answer)
        × HasAnsweredOne P.book P.left P.front port.old port.new call.now tries a
        × (kept.new.items ≡ kept.old.items ++ a ∷ [])) }
    ensures short { OnErr result ((a : Answer)
        × HasAnsweredOne P.book P.left P.front port.old port.new call.now tries a) }
{
    let answer = ask(alloc, port, call, tries)?;
    match kept.push_back(answer) {
        Ok(()) => Ok(()),
        Err(_) => Err(Memory),
    }
}

// The port answers the calls, in order, as long as there is memory for the answers.
fn drive<P: CallerPort>(
    alloc: Global,
    port: &mut P,
    calls: &[Call],
    tries: u32,
    kept: &mut VecDeque<Answer>,
) -> Result<(), Memory>
    requires calls { All (λ c. P.serves c) calls.now }
    requires some { 0 < tries }
    requires empty { kept.old.items ≡ [] }
    ensures number { P.number port.new ≡ P.number port.old }
    ensures origin { P.origin port.new ≡ P.origin port.old }
    ensures some { HasAnsweredSome P.book P.left P.front port.old port.new tries calls.now }
    ensures all { OnOk result
        (HasAnsweredAll P.book P.left P.front port.old port.new tries calls.now kept.new.items) }
{
    for call in calls {
        keep(alloc, port, call, tries, kept)?;
    }
    Ok(())
}

// What the thread of one lane does.
pub(crate) fn take_turn<P: CallerPort>(alloc: Global, tries: u32, lane: &mut Lane<P>)
    requires calls { All (λ c. P.serves c) lane.old.calls.items }
    requires some { 0 < tries }
    ensures number { P.number lane.new.port ≡ P.number lane.old.port }
    ensures origin { P.origin lane.new.port ≡ P.origin lane.old.port }
    ensures turn { HasTakenTurn P.book P.left P.front lane.old lane.new tries }
{
    lane.kept.clear();
    let driven = drive(
        alloc,
        &mut lane.port,
        lane.calls.as_slice(),
        tries,
        &mut lane.kept,
    );
    lane.short = driven.is_err();
}
