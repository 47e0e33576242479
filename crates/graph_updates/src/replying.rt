//! A call is answered: its entry is added to the book, with the place at which it's right.

ghost use Rattle.std.specs.Prelude.{◌≡◌};
ghost use Rattle.graph_kinds.specs.Answer.{plain};
ghost use Rattle.graph_kinds.specs.declared.outcome.Outcome.TheVariants.{Again, Full, Overtaken};
ghost use Rattle.core_stretches.specs.Holdings.{HasNoPass};
ghost use Rattle.graph_updates.specs.Calls.{HasAnswered};
ghost use Rattle.graph_updates.specs.Hands.{IsHandOf, IsInOrder};
ghost use Rattle.graph_updates.specs.Pairs.{lack_outcome};
ghost use Rattle.graph_updates.specs.Replying.{HasEnded, IsDueAgain, IsDueAt, IsDueAtEdgeMark, IsDueAtMark};
ghost use Rattle.graph_updates.specs.Replying.{IsDueByChange, IsDueForFull, IsDueLacking, IsDueOvertaken};

use crate::hand::Hand;
use crate::pairs::{Ends, Lack};
use graph_kinds::{Call, Class, Outcome};
use graph_table::{GraphTable, Token};
use packed_link::Life;
use std::marker::Model;
use std::snapshot::Snapshot;

/// The hand as it was when a call was entered. It has no bytes.
#[derive(Drop)]
pub(crate) struct Entered {
    hand: Snapshot<Hand>,
    token: Snapshot<Token>,
}

impl Model for Entered {
    ghost use Rattle.std.specs.Prelude.{◌≡◌};
    ghost use Rattle.graph_updates.specs.Hands.{HandValue};

    ghost Value = { HandValue };

    ghost view = { λ e. e.hand.value };

    ghost invariant = { λ e. e.token.value ≡ e.hand.value.token };
}

impl Entered {
    /// The hand as it is.
    pub(crate) fn by(hand: &Hand) -> Entered
        ensures { result ≡ hand.now }
    {
        Entered {
            hand: Snapshot::of(hand),
            token: Snapshot::of(&hand.token),
        }
    }
}

/// Answers a call that left the graph as it is, at a moment at which the graph gives this answer.
pub(crate) fn reply(
    table: &GraphTable,
    hand: &mut Hand,
    entered: &Entered,
    call: &Call,
    tries: u32,
    outcome: Outcome,
    place: &Snapshot<Token>,
) -> Outcome
    requires hand { IsHandOf table.now hand.old }
    requires order { IsInOrder entered.now }
    requires ended { HasEnded entered.now hand.old }
    requires due { IsDueAt call.now outcome entered.now.token.view hand.old.token.view place.now.value.view.front }
    ensures hand { IsHandOf table.now hand.new }
    ensures order { IsInOrder hand.new }
    ensures closed { HasNoPass hand.new.token.view }
    ensures outcome { result ≡ outcome }
    ensures answered { HasAnswered call.now tries (plain outcome) entered.now hand.new }
{
    let token = &mut hand.token;
    let start = &entered.token;
    table.reply(
        token,
        call,
        tries,
        outcome,
        &[],
        &[],
        Class::Silent,
        start,
        place,
    );
    outcome
}

/// Answers a call that changed the graph, right after its own event.
pub(crate) fn reply_to_change(
    table: &GraphTable,
    hand: &mut Hand,
    entered: &Entered,
    call: &Call,
    tries: u32,
    outcome: Outcome,
    place: &Snapshot<Token>,
) -> Outcome
    requires hand { IsHandOf table.now hand.old }
    requires order { IsInOrder entered.now }
    requires ended { HasEnded entered.now hand.old }
    requires due { IsDueByChange call.now outcome entered.now.token.view hand.old.token.view
        place.now.value.view.front }
    ensures hand { IsHandOf table.now hand.new }
    ensures order { IsInOrder hand.new }
    ensures closed { HasNoPass hand.new.token.view }
    ensures outcome { result ≡ outcome }
    ensures answered { HasAnswered call.now tries (plain outcome) entered.now hand.new }
{
    let token = &mut hand.token;
    let start = &entered.token;
    table.reply(
        token,
        call,
        tries,
        outcome,
        &[],
        &[],
        Class::Own,
        start,
        place,
    );
    outcome
}

/// Answers Full, at a moment at which the call would take a node.
pub(crate) fn reply_full(
    table: &GraphTable,
    hand: &mut Hand,
    entered: &Entered,
    call: &Call,
    tries: u32,
    place: &Snapshot<Token>,
) -> Outcome
    requires hand { IsHandOf table.now hand.old }
    requires order { IsInOrder entered.now }
    requires ended { HasEnded entered.now hand.old }
    requires due { IsDueForFull call.now entered.now.token.view hand.old.token.view place.now.value.view.front }
    ensures hand { IsHandOf table.now hand.new }
    ensures order { IsInOrder hand.new }
    ensures closed { HasNoPass hand.new.token.view }
    ensures outcome { result ≡ Full }
    ensures answered { HasAnswered call.now tries (plain Full) entered.now hand.new }
{
    let token = &mut hand.token;
    let start = &entered.token;
    table.reply(
        token,
        call,
        tries,
        Outcome::Full,
        &[],
        &[],
        Class::Silent,
        start,
        place,
    );
    Outcome::Full
}

/// Answers Again, at the end.
pub(crate) fn reply_again(
    table: &GraphTable,
    hand: &mut Hand,
    entered: &Entered,
    call: &Call,
    tries: u32,
) -> Outcome
    requires hand { IsHandOf table.now hand.old }
    requires order { IsInOrder entered.now }
    requires ended { HasEnded entered.now hand.old }
    requires due { IsDueAgain tries entered.now.token.view hand.old.token.view }
    ensures hand { IsHandOf table.now hand.new }
    ensures order { IsInOrder hand.new }
    ensures closed { HasNoPass hand.new.token.view }
    ensures outcome { result ≡ Again }
    ensures answered { HasAnswered call.now tries (plain Again) entered.now hand.new }
{
    let token = &mut hand.token;
    let start = &entered.token;
    table.reply(
        token,
        call,
        tries,
        Outcome::Again,
        &[],
        &[],
        Class::Silent,
        start,
        start,
    );
    Outcome::Again
}

/// Answers a call that left the graph, right after the first mark of a vertex life that it found.
pub(crate) fn reply_after_mark(
    table: &GraphTable,
    hand: &mut Hand,
    entered: &Entered,
    call: &Call,
    tries: u32,
    outcome: Outcome,
    life: Life,
) -> Outcome
    requires hand { IsHandOf table.now hand.old }
    requires order { IsInOrder entered.now }
    requires ended { HasEnded entered.now hand.old }
    requires due { IsDueAtMark call.now outcome entered.now.token.view hand.old.token.view life }
    ensures hand { IsHandOf table.now hand.new }
    ensures order { IsInOrder hand.new }
    ensures closed { HasNoPass hand.new.token.view }
    ensures outcome { result ≡ outcome }
    ensures answered { HasAnswered call.now tries (plain outcome) entered.now hand.new }
{
    let token = &mut hand.token;
    let start = &entered.token;
    table.reply_after_mark(token, call, tries, outcome, start, life);
    outcome
}

/// Answers a call that left the graph, right after the first mark of an edge life that it found.
pub(crate) fn reply_after_edge_mark(
    table: &GraphTable,
    hand: &mut Hand,
    entered: &Entered,
    call: &Call,
    tries: u32,
    outcome: Outcome,
    edge: Life,
) -> Outcome
    requires hand { IsHandOf table.now hand.old }
    requires order { IsInOrder entered.now }
    requires ended { HasEnded entered.now hand.old }
    requires due { IsDueAtEdgeMark call.now outcome entered.now.token.view hand.old.token.view edge }
    ensures hand { IsHandOf table.now hand.new }
    ensures order { IsInOrder hand.new }
    ensures closed { HasNoPass hand.new.token.view }
    ensures outcome { result ≡ outcome }
    ensures answered { HasAnswered call.now tries (plain outcome) entered.now hand.new }
{
    let token = &mut hand.token;
    let start = &entered.token;
    table.reply_after_edge_mark(token, call, tries, outcome, start, edge);
    outcome
}

/// Answers a call on a pair that left the graph, by what the pair lacked: NoVertex or NoEdge.
pub(crate) fn reply_lacking(
    table: &GraphTable,
    hand: &mut Hand,
    entered: &Entered,
    call: &Call,
    tries: u32,
    lack: Lack,
) -> Outcome
    requires hand { IsHandOf table.now hand.old }
    requires order { IsInOrder entered.now }
    requires ended { HasEnded entered.now hand.old }
    requires due { IsDueLacking call.now entered.now.token.view hand.old.token.view lack }
    ensures hand { IsHandOf table.now hand.new }
    ensures order { IsInOrder hand.new }
    ensures closed { HasNoPass hand.new.token.view }
    ensures outcome { result ≡ lack_outcome lack }
    ensures answered { HasAnswered call.now tries (plain (lack_outcome lack)) entered.now hand.new }
{
    match lack {
        Lack::Key(gap) => {
            let place = gap.moment();
            reply(table, hand, entered, call, tries, Outcome::NoVertex, place)
        }
        Lack::Vertex(life) => {
            reply_after_mark(table, hand, entered, call, tries, Outcome::NoVertex, life)
        }
        Lack::Edge(gap) => {
            let place = gap.moment();
            reply(table, hand, entered, call, tries, Outcome::NoEdge, place)
        }
        Lack::Stale(seen) => {
            let place = &seen.moment;
            reply(table, hand, entered, call, tries, Outcome::NoEdge, place)
        }
        Lack::Marked(edge) => {
            reply_after_edge_mark(table, hand, entered, call, tries, Outcome::NoEdge, edge)
        }
    }
}

/// Answers Overtaken to a call that won its exchange on an edge, one of whose ends is over by now: at the exchange,
/// or at
/// the mark of an end if that came first.
pub(crate) fn reply_overtaken(
    table: &GraphTable,
    hand: &mut Hand,
    entered: &Entered,
    call: &Call,
    tries: u32,
    ends: Ends,
    exchange: &Snapshot<Token>,
) -> Outcome
    requires hand { IsHandOf table.now hand.old }
    requires order { IsInOrder entered.now }
    requires ended { HasEnded entered.now hand.old }
    requires due { IsDueOvertaken call.now entered.now.token.view hand.old.token.view exchange.now.value.view.front
        ends }
    ensures hand { IsHandOf table.now hand.new }
    ensures order { IsInOrder hand.new }
    ensures closed { HasNoPass hand.new.token.view }
    ensures outcome { result ≡ Overtaken }
    ensures answered { HasAnswered call.now tries (plain Overtaken) entered.now hand.new }
{
    let token = &mut hand.token;
    let start = &entered.token;
    table.reply_overtaken(token, call, tries, start, exchange, ends.from, ends.to);
    Outcome::Overtaken
}
