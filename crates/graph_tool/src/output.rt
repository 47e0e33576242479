//! The lines of the answers and of the final graph.

ghost use Rattle.std.specs.Prelude.{All};
ghost use Rattle.graph_kinds.specs.declared.answer.Answer.{Answer};
ghost use Rattle.op_text.specs.Gives.{Gives};
ghost use Rattle.op_text.specs.Text.{IsWritable, answer_line, answer_lines, text};

use graph_kinds::{Answer, Sink};
use op_text::{WriteFailed, write_outcome};
use plain_graph::PlainGraph;

// Gives the sink the text of the answers and of the graph.
pub(crate) fn write_results<K: Sink>(
    sink: &mut K,
    answers: &[Answer],
    graph: &PlainGraph,
) -> Result<(), WriteFailed>
    requires { All (λ (a : Answer). IsWritable a.outcome a.keys a.ends) answers.now }
    ensures { Gives K.taken K.faults sink.old sink.new (text answers.now graph.now) result }
{
    write_answers(sink, answers)?;
    graph.write_graph(sink)
}

// Gives the sink the line of each answer.
fn write_answers<K: Sink>(sink: &mut K, answers: &[Answer]) -> Result<(), WriteFailed>
    requires { All (λ (a : Answer). IsWritable a.outcome a.keys a.ends) answers.now }
    ensures { Gives K.taken K.faults sink.old sink.new (answer_lines answers.now) result }
{
    for answer in answers {
        write_answer(sink, answer)?;
    }
    Ok(())
}

// Gives the sink the line of the answer.
fn write_answer<K: Sink>(sink: &mut K, answer: &Answer) -> Result<(), WriteFailed>
    requires { IsWritable answer.now.outcome answer.now.keys answer.now.ends }
    ensures { Gives K.taken K.faults sink.old sink.new (answer_line answer.now) result }
{
    write_outcome(
        sink,
        answer.outcome,
        answer.keys.as_slice(),
        answer.ends.as_slice(),
    )
}
