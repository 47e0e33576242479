//! The law of what a graph by itself answers.

ghost use Rattle.std.specs.Prelude.{◌≢◌};
ghost use Rattle.graph_kinds.specs.Graph.{Graph};
ghost use Rattle.graph_kinds.specs.Answer.{answer};
ghost use Rattle.graph_kinds.specs.declared.call.Call.{Call};
ghost use Rattle.graph_kinds.specs.declared.outcome.Outcome.TheVariants.{Again, Full, Overtaken, Worn};

/// What a graph answers is never one of the four outcomes that come from a shared table alone. So an entry with one of
/// these is no answer of a graph, and an entry that answers as the graph does has none of them.
pub fn a_graph_answers_nothing_of_the_table()
    ensures overtaken { (g : Graph) (c : Call) → (answer g c).outcome ≢ Overtaken }
    ensures full { (g : Graph) (c : Call) → (answer g c).outcome ≢ Full }
    ensures again { (g : Graph) (c : Call) → (answer g c).outcome ≢ Again }
    ensures worn { (g : Graph) (c : Call) → (answer g c).outcome ≢ Worn }
{}
