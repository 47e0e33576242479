//! What one token knows of the journal. No code makes a value of it: it is seen by contracts.

ghost use Rattle.std.specs.Prelude.{ℕ, Bool, List};
ghost use Rattle.std.specs.Borrow.{ftrue};
ghost use Rattle.graph_kinds.specs.declared.entry.Entry.{Entry};
ghost use Rattle.packed_link.specs.Layout.{Sizes};
ghost use Rattle.core_journal.specs.declared.event.Event.{Event};

use std::marker::Model;

/// A token's view: the sizes of its table, its front of the journal, the entries of its book, its number once it drew
/// one, with the length of the journal up to its last event, the numbers of tokens that were joined to it, each with
/// such a length, and whether it may draw numbers, with how many are drawn. After a join it holds the other's front
/// until it looks again.
pub struct View {
    pub ghost sizes: { Sizes },
    pub ghost front: { List Event },
    pub ghost met: { List Event },
    pub ghost book: { List Entry },
    pub ghost numbered: { Bool },
    pub ghost number: { ℕ },
    pub ghost last: { ℕ },
    pub ghost others: { List (ℕ × ℕ) },
    pub ghost draws: { Bool },
    pub ghost drawn: { ℕ },
}

impl Model for View {
    ghost also_owns = { λ _. ftrue };
}
