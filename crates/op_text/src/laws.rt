//! A law on texts: what a graph answers can be written.

ghost use Rattle.graph_kinds.specs.Answer.{answer};
ghost use Rattle.graph_kinds.specs.Graph.{Graph};
ghost use Rattle.graph_kinds.specs.declared.call.Call.{Call};
ghost use Rattle.op_text.specs.Text.{IsWritable};

/// What a call answers on a graph has a line: levels end where their numbers say.
pub fn answers_are_shown()
    ensures { (g : Graph) (c : Call) → let a = answer g c in IsWritable a.outcome a.keys a.ends }
{}
