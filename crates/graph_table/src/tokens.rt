//! Tokens: how one draws its number, is split and joined, adds an entry to its book, and ends the table.

ghost use Rattle.std.specs.Prelude.{◌≡◌, ◌≢◌, ◌⊎◌, ◌+◌, ◌<◌, ◌≤◌, true, false, length};
ghost use Rattle.graph_kinds.specs.declared.entry.Class.TheVariants.{Silent};
ghost use Rattle.graph_kinds.specs.declared.outcome.Outcome.TheVariants.{Again};
ghost use Rattle.graph_kinds.specs.Answer.{plain};
ghost use Rattle.core_journal.specs.Life.{edge_marked, vertex_marked};
ghost use Rattle.core_rule.specs.Plays.{Drew, Met, Replied, both_fronts, newcomer, stays};
ghost use Rattle.core_rule.specs.Rule.{AnswersForCallers};
ghost use Rattle.graph_table.specs.Tokens.{IsOf};
ghost use Rattle.graph_table.specs.Table.{IsWhole, before_edge_mark, before_mark, entry_of, overtaken_entry, place_in};

use crate::rule::{Cut, Drawing, Glue, Meeting, Replying, Said};
use crate::table::{GraphTable, Token};
use graph_kinds::{Call, Class, Outcome};
use packed_link::Life;
use std::marker::Brand;
use std::snapshot::Snapshot;

impl GraphTable {
    /// Draws the next number, which is the token's from then on, in O(1). The token has the right to draw and no
    /// number, and fewer numbers are drawn than there are callers.
    pub fn draw_number(&self, token: &mut Token) -> u32
        requires table { IsOf self.now token.old }
        requires right { token.old.view.draws ≡ true }
        requires none { token.old.view.numbered ≡ false }
        requires left { token.old.view.drawn < token.old.view.sizes.callers }
        ensures drew { Drew token.old.view result token.new.view }
        ensures table { IsOf self.now token.new }
    {
        let _callers = self.layout.callers();
        let number = self
            .table
            .shared
            .fetch_add::<Drawing>(&mut token.seat, 1, 1) as u32;
        token.number = number;
        number
    }

    /// The load of `reply`.
    fn tell<E: Said>(
        &self,
        token: &mut Token,
        _call: &Call,
        _tries: u32,
        _outcome: Outcome,
        _keys: &[u32],
        _ends: &[u32],
        _class: Class,
        _start: &Snapshot<Token>,
        _place: &Snapshot<Token>,
    )
        requires table { IsOf self.now token.old }
        ensures replied { Replied token.old.view E.entry token.new.view }
        ensures table { IsOf self.now token.new }
    {
        self.table.shared.load::<Replying<E>>(&mut token.seat, 0);
    }

    /// Adds an entry with these values to the end of the token's book, in O(1), by one load; it makes no event. The
    /// entry ends at the length of the token's new front, and starts where the token stood at `start`. It stands where
    /// the token stood at `place`, at the last event there where the class is `Own`; an entry that is answered Again
    /// stands at its end. Neither is longer than the token's front. The two and the class are for contracts alone.
    pub fn reply(
        &self,
        token: &mut Token,
        call: &Call,
        tries: u32,
        outcome: Outcome,
        keys: &[u32],
        ends: &[u32],
        class: Class,
        start: &Snapshot<Token>,
        place: &Snapshot<Token>,
    )
        requires table { IsOf self.now token.old }
        requires start { length start.now.value.view.front ≤ length token.old.view.front }
        requires place { outcome ≢ Again → length place.now.value.view.front ≤ length token.old.view.front }
        ensures replied { Replied token.old.view
            (entry_of call.now tries (record { outcome = outcome; keys = keys.now; ends = ends.now }) class
            (length start.now.value.view.front) (place_in class place.now.value.view.front)) token.new.view }
        ensures table { IsOf self.now token.new }
    {
        self.tell::<Brand>(token, call, tries, outcome, keys, ends, class, start, place);
    }

    /// The load of `reply_after_mark`.
    fn tell_after_mark<E: Said>(
        &self,
        token: &mut Token,
        _call: &Call,
        _tries: u32,
        _outcome: Outcome,
        _start: &Snapshot<Token>,
        _life: Life,
    )
        requires table { IsOf self.now token.old }
        ensures replied { Replied token.old.view E.entry token.new.view }
        ensures table { IsOf self.now token.new }
    {
        self.table.shared.load::<Replying<E>>(&mut token.seat, 0);
    }

    /// Adds a silent entry without keys whose place is right after another caller's event: the first mark of a vertex
    /// life that stands in the token's front. In O(1), by one load; it makes no event. The entry starts where the token
    /// stood at `start`, and ends at the length of the new front. Start and life are for contracts alone. For the
    /// caller
    /// that finds a vertex marked, not by itself: no moment of its own lies there.
    pub fn reply_after_mark(
        &self,
        token: &mut Token,
        call: &Call,
        tries: u32,
        outcome: Outcome,
        start: &Snapshot<Token>,
        life: Life,
    )
        requires table { IsOf self.now token.old }
        requires start { length start.now.value.view.front ≤ length token.old.view.front }
        requires marked { vertex_marked token.old.view.front life ≡ true }
        ensures replied { Replied token.old.view
            (entry_of call.now tries (plain outcome) Silent (length start.now.value.view.front)
            (before_mark life token.old.view.front + 1)) token.new.view }
        ensures table { IsOf self.now token.new }
    {
        self.tell_after_mark::<Brand>(token, call, tries, outcome, start, life);
    }

    /// The load of `reply_after_edge_mark`.
    fn tell_after_edge_mark<E: Said>(
        &self,
        token: &mut Token,
        _call: &Call,
        _tries: u32,
        _outcome: Outcome,
        _start: &Snapshot<Token>,
        _edge: Life,
    )
        requires table { IsOf self.now token.old }
        ensures replied { Replied token.old.view E.entry token.new.view }
        ensures table { IsOf self.now token.new }
    {
        self.table.shared.load::<Replying<E>>(&mut token.seat, 0);
    }

    /// The same with the first mark of an edge life, by its removal, its replacement or the freezing of its list. For
    /// the caller that finds an edge marked which it was to mark.
    pub fn reply_after_edge_mark(
        &self,
        token: &mut Token,
        call: &Call,
        tries: u32,
        outcome: Outcome,
        start: &Snapshot<Token>,
        edge: Life,
    )
        requires table { IsOf self.now token.old }
        requires start { length start.now.value.view.front ≤ length token.old.view.front }
        requires marked { edge_marked token.old.view.front edge ≡ true }
        ensures replied { Replied token.old.view
            (entry_of call.now tries (plain outcome) Silent (length start.now.value.view.front)
            (before_edge_mark edge token.old.view.front + 1)) token.new.view }
        ensures table { IsOf self.now token.new }
    {
        self.tell_after_edge_mark::<Brand>(token, call, tries, outcome, start, edge);
    }

    /// The load of `reply_overtaken`.
    fn tell_overtaken<E: Said>(
        &self,
        token: &mut Token,
        _call: &Call,
        _tries: u32,
        _start: &Snapshot<Token>,
        _exchange: &Snapshot<Token>,
        _source: Life,
        _target: Life,
    )
        requires table { IsOf self.now token.old }
        ensures replied { Replied token.old.view E.entry token.new.view }
        ensures table { IsOf self.now token.new }
    {
        self.table.shared.load::<Replying<E>>(&mut token.seat, 0);
    }

    /// Adds an entry that is answered Overtaken, in O(1), by one load; it makes no event. The call made its exchange on
    /// an edge between two vertex lives as the last event of the front at `exchange`, and by now one of the two is
    /// marked. Where neither was marked before the exchange, the entry is an own one and stands at the exchange; else
    /// it's a late one and stands at the first mark of either. It starts where the token stood at `start`, and ends at
    /// the length of the new front. All but the call and its tries are for contracts alone: a caller that finds a
    /// vertex
    /// marked can't tell which came first.
    pub fn reply_overtaken(
        &self,
        token: &mut Token,
        call: &Call,
        tries: u32,
        start: &Snapshot<Token>,
        exchange: &Snapshot<Token>,
        source: Life,
        target: Life,
    )
        requires table { IsOf self.now token.old }
        requires start { length start.now.value.view.front ≤ length token.old.view.front }
        requires exchange { length exchange.now.value.view.front ≤ length token.old.view.front }
        requires marked { (vertex_marked token.old.view.front source ≡ true)
            ⊎ (vertex_marked token.old.view.front target ≡ true) }
        ensures replied { Replied token.old.view
            (overtaken_entry call.now tries (length start.now.value.view.front) exchange.now.value.view.front source
            target token.old.view.front) token.new.view }
        ensures table { IsOf self.now token.new }
    {
        self.tell_overtaken::<Brand>(token, call, tries, start, exchange, source, target);
    }

    /// A new token with the same front, an empty book and no number, in O(1). It has the right to draw where the other
    /// had it, which keeps its number and its book.
    pub fn split_token(&self, token: &mut Token) -> Token
        requires table { IsOf self.now token.old }
        ensures kept { token.new.view ≡ stays token.old.view }
        ensures given { result.view ≡ newcomer token.old.view }
        ensures new { IsOf self.now result }
        ensures table { IsOf self.now token.new }
    {
        let seat = self.table.shared.split_seat::<Cut>(&mut token.seat);
        Token { number: 0, seat }
    }

    /// Joins another token to a token, in O(1): both old fronts begin the new one, and the token accounts for the
    /// numbers of both, and has the right to draw where either had it. It keeps its number and its book.
    pub fn join_token(&self, token: &mut Token, other: Token)
        requires table { IsOf self.now token.old }
        requires other { IsOf self.now other }
        ensures joined { Met (both_fronts token.old.view other.view) token.new.view }
        ensures table { IsOf self.now token.new }
    {
        self.unite(token, other);
        self.meet(token);
    }

    /// The token holds the other's front too, until it looks again.
    fn unite(&self, token: &mut Token, other: Token)
        requires table { IsOf self.now token.old }
        requires other { IsOf self.now other }
        ensures united { token.new.view ≡ both_fronts token.old.view other.view }
        ensures table { token.new.table ≡ self.now.table }
    {
        let Token { number: _, seat } = other;
        self.table.shared.join_seat::<Glue>(&mut token.seat, seat);
    }

    /// The look after that: a load, by which the token's own front has the other one as its beginning.
    fn meet(&self, token: &mut Token)
        requires table { token.old.table ≡ self.now.table }
        requires sizes { token.old.view.sizes ≡ self.now.sizes }
        ensures met { Met token.old.view token.new.view }
        ensures table { token.new.table ≡ self.now.table }
    {
        self.table.shared.load::<Meeting>(&mut token.seat, 0);
    }

    /// Ends the table and frees its words, in O(1). The token accounts for each number below that of callers, so its
    /// front is the whole journal: no event of a number stands in it behind the last that the token accounts for.
    pub fn close(self, token: Token)
        requires table { IsOf self token }
        requires all { AnswersForCallers token.view }
        ensures whole { IsWhole token.view }
    {
        let GraphTable { table, layout: _ } = self;
        let Token { number: _, seat } = token;
        let closed = table.close_with(seat);
        closed.free();
    }
}
