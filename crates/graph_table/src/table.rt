//! The table, the token of a caller that steps on it, and the steps that all calls are made of.
//!
//! Contracts see a token as its table and its view, what it knows of the journal. At run time it has its number alone.

ghost use Rattle.std.specs.Prelude.{◌≡◌, ◌<◌, ◌==◌, ◌+◌, ◌%◌, ◌^◌, bit_or, true};
ghost use prog.Atomic.{either};
ghost use Rattle.packed_link.specs.Layout.{IsLayout, word_count};
ghost use Rattle.core_rule.specs.Owes.{Owes, OwesStore};
ghost use Rattle.core_rule.specs.Plays.{Looked, Stored};
ghost use Rattle.graph_table.specs.Tokens.{IsOf};
ghost use Rattle.graph_table.specs.Table.{Turned};

use crate::rule::{Deed, Law, Look, Store, Turning};
use atomic_table::{Seat, Table};
use core_rule::View;
use packed_link::{Layout, Life, Link};
use std::alloc::Global;
use std::marker::Model;

/// The words that all callers share. Each call is one atomic step on one word, through a shared reference.
#[derive(Drop)]
pub struct GraphTable {
    pub(crate) table: Table<(), View, Layout, Law, Global>,
    pub(crate) layout: Layout,
}

impl Model for GraphTable {
    ghost use Rattle.std.specs.Prelude.{◌≡◌};
    ghost use Rattle.packed_link.specs.Layout.{word_count};
    ghost use Rattle.graph_table.specs.Tokens.{TableValue};

    ghost Value = { TableValue };

    ghost view = { λ g. record { table = g.table.shared.table_id; sizes = g.layout } };

    ghost invariant = { λ g. (g.table.shared.key ≡ g.layout)
        × (g.table.shared.table_id.words ≡ word_count g.layout) × (g.table.shared.table_id.slots ≡ 0) };
}

/// What one caller steps with: contracts see what it knows of the journal.
#[derive(Drop)]
pub struct Token {
    pub(crate) number: u32,
    pub(crate) seat: Seat<(), View>,
}

impl Model for Token {
    ghost use Rattle.std.specs.Prelude.{◌≡◌, []};
    ghost use Rattle.graph_table.specs.Tokens.{TokenValue};

    ghost Value = { TokenValue };

    ghost view = { λ t. record { table = t.seat.table_id; view = t.seat.me.0 } };

    ghost invariant = { λ t. (t.seat.me.1 ≡ []) × (t.seat.me.0.number ≡ t.number) };
}

impl Token {
    /// The number that the token drew, or 0 where it drew none, in O(1).
    pub fn number(&self) -> u32
        ensures number { result ≡ self.now.view.number }
    {
        self.number
    }
}

impl GraphTable {
    /// The sizes of the table, in O(1).
    pub fn layout(&self) -> Layout
        ensures sizes { result ≡ self.now.sizes }
        ensures limits { IsLayout result }
    {
        let _callers = self.layout.callers();
        self.layout
    }

    /// Loads the word at a place, in O(1): it's the one that stands there after the events of the token's new front.
    pub fn load(&self, token: &mut Token, place: u32) -> u64
        requires table { IsOf self.now token.old }
        requires place { place < word_count self.now.sizes }
        ensures looked { Looked token.old.view place result token.new.view }
        ensures table { IsOf self.now token.new }
    {
        self.table
            .shared
            .load::<Look>(&mut token.seat, place as usize)
    }

    /// An exchange of a word for another, where it's the one expected. Answers the word found. The life and the last
    /// number are for the event alone.
    pub(crate) fn exchange<D: Deed>(
        &self,
        token: &mut Token,
        place: u32,
        seen: u64,
        new: u64,
        _life: Life,
        _old: Life,
        _next: u64,
    ) -> u64
        requires table { IsOf self.now token.old }
        requires place { place < word_count self.now.sizes }
        requires number { token.old.view.numbered ≡ true }
        requires owes { Owes token.old.view place (λ n. either (n == seen) new n) D.wins D.event }
        ensures turned { Turned D.wins D.event token.old.view place result token.new.view }
        ensures table { IsOf self.now token.new }
    {
        self.table
            .shared
            .compare_exchange::<Turning<D>>(&mut token.seat, place as usize, seen, new)
    }

    /// Bits are set in a word. Answers the word found.
    pub(crate) fn set_bits<D: Deed>(
        &self,
        token: &mut Token,
        place: u32,
        bits: u64,
        _life: Life,
    ) -> u64
        requires table { IsOf self.now token.old }
        requires place { place < word_count self.now.sizes }
        requires number { token.old.view.numbered ≡ true }
        requires owes { Owes token.old.view place (λ n. bit_or n bits) D.wins D.event }
        ensures turned { Turned D.wins D.event token.old.view place result token.new.view }
        ensures table { IsOf self.now token.new }
    {
        self.table
            .shared
            .fetch_or::<Turning<D>>(&mut token.seat, place as usize, bits)
    }

    /// The mark is set in a word. Answers the word found.
    pub(crate) fn set_mark<D: Deed>(&self, token: &mut Token, place: u32, life: Life) -> u64
        requires table { IsOf self.now token.old }
        requires place { place < word_count self.now.sizes }
        requires number { token.old.view.numbered ≡ true }
        requires owes { Owes token.old.view place (λ n. bit_or n Link.MARK) D.wins D.event }
        ensures turned { Turned D.wins D.event token.old.view place result token.new.view }
        ensures table { IsOf self.now token.new }
    {
        let bits = Link::MARK;
        self.set_bits::<D>(token, place, bits, life)
    }

    /// One is added to a word. Answers the word found.
    pub(crate) fn add_one<D: Deed>(&self, token: &mut Token, place: u32, _life: Life) -> u64
        requires table { IsOf self.now token.old }
        requires place { place < word_count self.now.sizes }
        requires number { token.old.view.numbered ≡ true }
        requires owes { Owes token.old.view place (λ n. (n + 1) % 2 ^ 64) D.wins D.event }
        ensures turned { Turned D.wins D.event token.old.view place result token.new.view }
        ensures table { IsOf self.now token.new }
    {
        self.table
            .shared
            .fetch_add::<Turning<D>>(&mut token.seat, place as usize, 1)
    }

    /// A word is stored.
    pub(crate) fn put<D: Deed>(
        &self,
        token: &mut Token,
        place: u32,
        new: u64,
        _life: Life,
        _next: u64,
    )
        requires table { IsOf self.now token.old }
        requires place { place < word_count self.now.sizes }
        requires number { token.old.view.numbered ≡ true }
        requires owes { OwesStore token.old.view place new (D.event new) }
        ensures stored { Stored token.old.view (D.event new) token.new.view }
        ensures table { IsOf self.now token.new }
    {
        self.table
            .shared
            .store::<Store<D>>(&mut token.seat, place as usize, new);
    }
}
