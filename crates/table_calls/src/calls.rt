//! A number is drawn, a pass opened and closed, the callers are checked, and a node is taken and filled.

ghost use Rattle.std.specs.Prelude.{◌≡◌, ◌<◌, ◌≤◌, ◌+◌, ◌⊎◌, ◌↔◌, true, false, IfSome, IsNone, IsTrue};
ghost use Rattle.packed_link.specs.Link.{nowhere};
ghost use Rattle.packed_link.specs.Layout.{key_at};
ghost use Rattle.core_journal.specs.Machine.{word_at};
ghost use Rattle.core_kept.specs.Counts.{most_pops, most_moves};
ghost use Rattle.core_kept.specs.Vertices.{IsFilledVertex};
ghost use Rattle.core_rule.specs.Fronts.{MayMoveEpoch, MayPopFree};
ghost use Rattle.core_rule.specs.OwnEvents.{store_event};
ghost use Rattle.core_rule.specs.Plays.{Drew, Stored, newcomer};
ghost use Rattle.core_rule.specs.Views.{GoesOn};
ghost use Rattle.graph_table.specs.Tokens.{IsOf};
ghost use Rattle.table_calls.specs.Causes.{IsEmptyFree, IsHeldBack, MatchTake};
ghost use Rattle.table_calls.specs.Closing.{KeepsRetired};
ghost use Rattle.table_calls.specs.Resting.{IsHolding, IsResting, uses_of};

use graph_table::{Field, Fresh, GraphTable, Popped, Token};
use packed_link::Link;

/// The token draws its number.
pub fn enter(table: &GraphTable, token: &mut Token) -> u32
    requires table { IsOf table.now token.old }
    requires right { token.old.view.draws ≡ true }
    requires none { token.old.view.numbered ≡ false }
    requires left { token.old.view.drawn < token.old.view.sizes.callers }
    ensures table { IsOf table.now token.new }
    ensures drew { Drew token.old.view result token.new.view }
    ensures resting { IsResting false token.new.view }
    ensures uses { uses_of token.new.view ≡ 0 }
{
    table.draw_number(token)
}

/// A new token, which has the right to draw where the other had it.
pub fn split_off(table: &GraphTable, token: &mut Token) -> Token
    requires table { IsOf table.now token.old }
    requires resting { IsResting false token.old.view }
    ensures table { IsOf table.now token.new }
    ensures resting { IsResting false token.new.view }
    ensures uses { uses_of token.new.view ≡ uses_of token.old.view }
    ensures given { result.view ≡ newcomer token.old.view }
    ensures other { IsOf table.now result }
{
    table.split_token(token)
}

/// The token's caller opens its pass.
pub fn open_pass(table: &GraphTable, token: &mut Token)
    requires table { IsOf table.now token.old }
    requires resting { IsResting false token.old.view }
    ensures table { IsOf table.now token.new }
    ensures resting { IsResting true token.new.view }
    ensures uses { uses_of token.new.view ≡ uses_of token.old.view }
{
    let layout = table.layout();
    let epoch = table.load(token, layout.epoch_at());
    table.announce(token, epoch);
}

/// The token's caller closes its pass.
pub fn close_pass(table: &GraphTable, token: &mut Token)
    requires table { IsOf table.now token.old }
    requires resting { IsResting true token.old.view }
    ensures table { IsOf table.now token.new }
    ensures resting { IsResting false token.new.view }
    ensures keeps { KeepsRetired token.old.view token.new.view }
    ensures uses { uses_of token.new.view ≡ uses_of token.old.view }
{
    table.withdraw(token);
}

/// Loads the epoch, and after that the announcement of each caller: the epoch where it may be moved on. `None` comes
/// where an announcement is of that epoch or of an earlier one.
pub fn check_callers(table: &GraphTable, token: &mut Token) -> Option<u64>
    requires table { IsOf table.now token.old }
    requires resting { IsResting false token.old.view }
    requires few { uses_of token.old.view < most_moves }
    ensures table { IsOf table.now token.new }
    ensures may { IfSome result (λ seen. MayMoveEpoch token.new.view seen) }
    ensures held { IsNone result → IsHeldBack token.old.view token.new.view }
    ensures keeps { KeepsRetired token.old.view token.new.view }
    ensures resting { IsResting false token.new.view }
    ensures uses { uses_of token.new.view ≡ uses_of token.old.view }
{
    let layout = table.layout();
    let seen = table.load(token, layout.epoch_at());
    let callers = layout.callers();
    let mut checked = 0u32;
    while checked < callers {
        let word = table.load(token, layout.announce_at(checked));
        if !is_clear(word, seen) {
            return None;
        }
        checked += 1;
    }
    Some(seen)
}

/// Whether an announcement lets the epoch move on from the one seen: it's none, or of a later one.
fn is_clear(word: u64, seen: u64) -> bool
    ensures clear { IsTrue result ↔ ((word ≡ 0) ⊎ (seen + 1 ≤ word)) }
{
    word == 0 || word > seen
}

/// Loads the word of the free list and the link of the node to which it leads: both where there is one. `None` comes
/// where the list is empty.
pub fn see_free(table: &GraphTable, token: &mut Token) -> Option<(Link, Link)>
    requires table { IsOf table.now token.old }
    requires resting { IsResting true token.old.view }
    requires few { uses_of token.old.view < most_pops }
    ensures table { IsOf table.now token.new }
    ensures may { IfSome result (λ both. MayPopFree token.new.view both.0.0 both.1.0) }
    ensures empty { IsNone result → IsEmptyFree token.new.view }
    ensures resting { IsResting true token.new.view }
    ensures uses { uses_of token.new.view ≡ uses_of token.old.view }
{
    let layout = table.layout();
    let seen = Link(table.load(token, layout.free_at()));
    if seen.index() >= layout.nodes() {
        return None;
    }
    let next = Link(table.load(token, layout.link_at(seen.index())));
    Some((seen, next))
}

/// Takes a node that was seen, where the free list hasn't changed since. `None` comes where it has.
pub fn take(table: &GraphTable, token: &mut Token, seen: Link, next: Link) -> Option<Fresh>
    requires table { IsOf table.now token.old }
    requires resting { IsResting true token.old.view }
    requires may { MayPopFree token.old.view seen.0 next.0 }
    ensures table { IsOf table.now token.new }
    ensures taken { MatchTake result token.old.view seen.0 next.0 token.new.view }
    ensures holding { IfSome result (λ fresh. IsHolding token.new.view fresh) }
    ensures resting { IsNone result → IsResting true token.new.view }
    ensures uses { uses_of token.new.view ≤ uses_of token.old.view + 1 }
{
    match table.pop_free(token, seen, next) {
        Popped::Won(fresh) => Some(fresh),
        Popped::Lost(_) => None,
    }
}

/// Fills a fresh node as a vertex of this key that leads to none.
pub fn fill_last(table: &GraphTable, token: &mut Token, fresh: &Fresh, key: u32)
    requires table { IsOf table.now token.old }
    requires holding { IsHolding token.old.view fresh.now }
    ensures table { IsOf table.now token.new }
    ensures holding { IsHolding token.new.view fresh.now }
    ensures filled { IsFilledVertex token.new.view.sizes token.new.view.front fresh.now.index key nowhere }
    ensures goes { GoesOn token.old.view token.new.view }
    ensures uses { uses_of token.new.view ≡ uses_of token.old.view }
{
    let life = fresh.life();
    let none = Link::pack(16_777_215, false, life.tag).0;
    table.store_private(token, fresh, Field::Key, u64::from(key));
    table.store_private(token, fresh, Field::Link, none);
    table.store_private(token, fresh, Field::Second, none);
    table.store_private(token, fresh, Field::Third, 0);
}

/// Stores the key of a fresh node.
pub fn store_key(table: &GraphTable, token: &mut Token, fresh: &Fresh, key: u64)
    requires table { IsOf table.now token.old }
    requires holding { IsHolding token.old.view fresh.now }
    ensures table { IsOf table.now token.new }
    ensures holding { IsHolding token.new.view fresh.now }
    ensures stored { Stored token.old.view (store_event token.old.view fresh.now 0 key) token.new.view }
    ensures key { word_at token.new.view.sizes token.new.view.front
        (key_at token.new.view.sizes fresh.now.index) ≡ key }
    ensures uses { uses_of token.new.view ≡ uses_of token.old.view }
{
    table.store_private(token, fresh, Field::Key, key);
}
