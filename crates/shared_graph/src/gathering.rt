//! The callers of a graph meet before it ends.

ghost use Rattle.std.specs.Prelude.{◌≡◌, ◌≢◌, ◌<◌, ℕ, IfOk, length, slice_index_or};
ghost use Rattle.core_journal.specs.GraphOf.{graph_of};
ghost use Rattle.shared_graph.specs.Callers.{CallerValue, IsBetweenCalls, IsCallerOf, LooksOn, front_of};
ghost use Rattle.shared_graph.specs.Closing.{IsReadBetween};
ghost use Rattle.shared_graph.specs.Gathering.{AreBetweenCalls, AreCallersOf, FirstHasMet, LookOnEach};

use crate::caller::Caller;
use crate::graph::SharedGraph;
use crate::hands::read_front;
use graph_kinds::Memory;
use plain_graph::PlainGraph;
use std::alloc::Global;

impl SharedGraph {
    /// The first caller meets what each has seen, in O(callers).
    pub fn gather(&self, callers: &mut [Caller])
        requires some { 0 < length callers.old }
        requires callers { AreCallersOf self.now callers.old }
        ensures callers { AreCallersOf self.now callers.new }
        ensures between { AreBetweenCalls callers.old }
        ensures looks { LookOnEach callers.old callers.new }
        ensures met { (i : ℕ) → i < length callers.old → FirstHasMet callers.old callers.new i }
    {
        for number in 0..callers.len() {
            self.gather_one(callers, number);
        }
    }

    // The first caller meets what one has seen.
    fn gather_one(&self, callers: &mut [Caller], number: usize)
        requires there { number < length callers.old }
        requires callers { AreCallersOf self.now callers.old }
        ensures callers { AreCallersOf self.now callers.new }
        ensures between { (d : CallerValue) → IsBetweenCalls (slice_index_or callers.old number d).hand }
        ensures looks { LookOnEach callers.old callers.new }
        ensures met { FirstHasMet callers.old callers.new number }
        ensures others { (i : ℕ) (d : CallerValue) → 0 < i → i ≢ number
            → slice_index_or callers.new i d ≡ slice_index_or callers.old i d }
    {
        callers[number].rests();
        let note = self.note(&mut callers[number]);
        self.meet(&mut callers[0], note);
    }

    /// Reads the graph that stands in the table, by loads of the caller's token.
    fn read_by(&self, alloc: Global, caller: &mut Caller) -> Result<PlainGraph, Memory>
        requires caller { IsCallerOf self.now caller.old }
        ensures caller { IsCallerOf self.now caller.new }
        ensures looks { LooksOn caller.old caller.new }
        ensures graph { IfOk result
            (λ g. front_of caller.new ≡ front_of caller.old → g ≡ graph_of (front_of caller.old)) }
    {
        read_front(&self.table, alloc, &mut caller.hand)
    }

    /// The first caller meets what each has seen, and then reads the graph that stands in the table.
    pub(crate) fn gather_and_read(
        &self,
        alloc: Global,
        callers: &mut [Caller],
    ) -> Result<PlainGraph, Memory>
        requires some { 0 < length callers.old }
        requires callers { AreCallersOf self.now callers.old }
        ensures callers { AreCallersOf self.now callers.new }
        ensures between { AreBetweenCalls callers.old }
        ensures looks { LookOnEach callers.old callers.new }
        ensures graph { IfOk result (IsReadBetween callers.old callers.new) }
    {
        self.gather(callers);
        self.read_by(alloc, &mut callers[0])
    }
}
