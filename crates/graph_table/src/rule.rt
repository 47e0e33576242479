//! The rule of the table in the form in which `atomic_table` asks for it, and what each step tells.

ghost use Rattle.std.specs.Prelude.{ℕ, Bool};
ghost use Rattle.core_journal.specs.declared.event.Event.{Event};
ghost use Rattle.graph_kinds.specs.declared.entry.Entry.{Entry};

use atomic_table::{Join, Play, Split, TableRule};
use core_rule::View;
use packed_link::Layout;
use std::marker::{Brand, PhantomData};

/// The rule of the one table.
pub struct Law;

impl TableRule<(), View, Layout> for Law {
    ghost use Rattle.core_rule.specs.Rule.{Ruled, first_view};

    ghost holds = { Ruled };

    ghost first = { first_view };
}

/// A load.
pub struct Look;

impl Play<(), View> for Look {
    ghost use Rattle.core_rule.specs.Plays.{looking};

    ghost then = { looking };
}

/// The draw of a number.
pub struct Drawing;

impl Play<(), View> for Drawing {
    ghost use Rattle.core_rule.specs.Plays.{drawing};

    ghost then = { drawing };
}

/// The load after a join.
pub struct Meeting;

impl Play<(), View> for Meeting {
    ghost use Rattle.core_rule.specs.Plays.{meeting};

    ghost then = { meeting };
}

/// A step's event, by the word that it finds, and where the step wins. Each call picks both_fronts.
pub trait Deed {
    ghost wins: { ℕ → Bool };

    ghost event: { ℕ → Event };
}

impl Deed for Brand {
    ghost use Rattle.std.specs.Prelude.{true};
    ghost use Rattle.core_journal.specs.Event.{blank};

    ghost wins = { λ _. true };

    ghost event = { λ _. blank };
}

/// An exchange, a mark or an add.
pub struct Turning<D> {
    deed: PhantomData<D>,
}

impl<D: Deed> Play<(), View> for Turning<D> {
    ghost use Rattle.core_rule.specs.Plays.{turning};

    ghost then = { turning D.wins D.event };
}

/// A store.
pub struct Store<D> {
    deed: PhantomData<D>,
}

impl<D: Deed> Play<(), View> for Store<D> {
    ghost use Rattle.core_rule.specs.Plays.{storing};

    ghost then = { storing D.event };
}

/// What a reply adds to the book. Each call picks it.
pub trait Said {
    ghost entry: { Entry };
}

impl Said for Brand {
    ghost use Rattle.std.specs.Prelude.{[]};
    ghost use Rattle.graph_kinds.specs.declared.call.Call.TheVariants.{HasVertex};
    ghost use Rattle.graph_kinds.specs.declared.entry.Class.TheVariants.{Silent};
    ghost use Rattle.graph_kinds.specs.declared.outcome.Outcome.TheVariants.{No};
    ghost use Rattle.graph_kinds.specs.Answer.{plain};

    ghost entry = { record {
      call = HasVertex 0;
      tries = 0;
      answer = plain No;
      class = Silent;
      place = 0;
      start = 0;
      end = 0;
    } };
}

/// A load that ends a call.
pub struct Replying<E> {
    said: PhantomData<E>,
}

impl<E: Said> Play<(), View> for Replying<E> {
    ghost use Rattle.core_rule.specs.Plays.{replying};

    ghost then = { replying E.entry };
}

/// How a token's view is cut in two.
pub struct Cut;

impl Split<View> for Cut {
    ghost use Rattle.core_rule.specs.Plays.{newcomer, stays};

    ghost left = { stays };

    ghost right = { newcomer };
}

/// How two views are joined.
pub struct Glue;

impl Join<View> for Glue {
    ghost use Rattle.core_rule.specs.Rule.{spent_view};
    ghost use Rattle.core_rule.specs.Plays.{both_fronts};

    ghost both = { both_fronts };

    ghost spent = { spent_view };
}
