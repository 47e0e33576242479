//! The laws of the history: what callers' books say of the journal is one legal history of all calls.
//!
//! `specs/Right.antt` says when a book is true of a journal (`IsBookOf`), `specs/History.antt` which history
//! books give. That one history explains all answers follows Herlihy and Wing (1990).

ghost use Rattle.std.specs.Prelude.{◌≡◌, ℕ, ◌≤◌, List, [], ◌∷◌, ◌++◌, true, false, Some};
ghost use Rattle.std.specs.Prelude.{map, length, take, slice_get};
ghost use Rattle.graph_kinds.specs.History.{Every, IsLegal, IsInterleaving, answered, items_of};
ghost use Rattle.graph_kinds.specs.declared.answer.Answer.{Answer};
ghost use Rattle.graph_kinds.specs.declared.call.Call.{Call};
ghost use Rattle.graph_kinds.specs.declared.call.Row.{Row};
ghost use Rattle.graph_kinds.specs.declared.entry.Class.TheVariants.{Own};
ghost use Rattle.graph_kinds.specs.declared.entry.Entry.{Entry};
ghost use Rattle.packed_link.specs.Layout.{Sizes};
ghost use Rattle.core_journal.specs.declared.book.Book.{Book};
ghost use Rattle.core_journal.specs.declared.event.Event.{Event};
ghost use Rattle.core_journal.specs.GraphOf.{graph_of, changes, IsRegular};
ghost use Rattle.core_journal.specs.History.{Turn, entries_at, history, item, running, turns};
ghost use Rattle.core_journal.specs.History.{HasBook, IsClosed, IsAnswered};
ghost use Rattle.core_journal.specs.Order.{Placed, placed_from, InOrder, CallersRise, IsPlacedAt};
ghost use Rattle.core_journal.specs.Right.{IsBookOf, CallersApart, InFrame, Right, StandsAt};

/// The history of a regular journal and of true books of its callers is legal and ends in the graph of the
/// journal; so is that of one caller's book and its front.
pub fn history_is_legal()
    ensures all { (sizes : Sizes) (journal : List Event) (books : List Book) → IsRegular journal
        → CallersApart books → Every (IsBookOf sizes journal) books
        → IsLegal (history journal books) (graph_of journal) }
    ensures one { (sizes : Sizes) (front : List Event) (book : Book) → IsRegular front
        → IsBookOf sizes front book → IsLegal (history front (book ∷ [])) (graph_of front) }
{}

/// The items of each caller with a book are the entries of its book, in the order of the book, and no others.
pub fn history_keeps_orders()
    ensures { (sizes : Sizes) (journal : List Event) (books : List Book) → IsRegular journal
        → CallersApart books → Every (IsBookOf sizes journal) books
        → Every (λ (b : Book). items_of b.caller (history journal books) ≡ map (item b.caller) b.entries) books }
{}

/// Where each event that changes the graph is of a caller with a book, each item of the history has an answer:
/// the history is an interleaving of the books.
pub fn closed_history_is_answered()
    ensures { (sizes : Sizes) (journal : List Event) (books : List Book) → IsRegular journal
        → CallersApart books → Every (IsBookOf sizes journal) books → IsClosed journal books
        → Every IsAnswered (history journal books) }
{}

/// So it is an interleaving of rows of these callers that were answered as the books say.
pub fn closed_history_interleaves()
    ensures { (sizes : Sizes) (journal : List Event) (books : List Book) (rows : List Row) (replies : List Answer)
        → IsRegular journal → CallersApart books → Every (IsBookOf sizes journal) books → IsClosed journal books
        → length replies ≡ length rows → Every (λ (r : Row). HasBook r.caller books) rows
        → Every (λ (b : Book). map (item b.caller) b.entries ≡ items_of b.caller (answered rows replies)) books
        → IsInterleaving rows replies (history journal books) }
{}

/// A history stands by place, then silent before late before own, then by caller. Each item is that of an
/// entry, at the entry's place and in its class, or that of an event that changes the graph where no own entry
/// stands; and each such event has its item.
pub fn history_is_in_order()
    ensures items { (journal : List Event) (books : List Book)
        → map (λ (x : Placed). x.item) (placed_from 0 (turns journal) books) ≡ history journal books }
    ensures order { (journal : List Event) (books : List Book) → CallersRise books
        → InOrder (placed_from 0 (turns journal) books) }
    ensures stands { (journal : List Event) (books : List Book)
        → Every (IsPlacedAt (turns journal) books) (placed_from 0 (turns journal) books) }
    ensures running { (journal : List Event) (books : List Book) (p : ℕ) (t : Turn) (c : Call)
        → slice_get (turns journal) p ≡ Some t → t.call ≡ Some c → entries_at Own p books ≡ []
        → (n : ℕ) × (slice_get (placed_from 0 (turns journal) books) n
        ≡ Some (record { place = p; class = Own; item = running t.caller c })) }
{}

/// A book that is true of a front is true of each longer journal in which its caller changes the graph no more.
pub fn books_of_fronts_stay()
    ensures { (sizes : Sizes) (front rest : List Event) (book : Book) → IsBookOf sizes front book
        → ((p : ℕ) (e : Event) → length front ≤ p → slice_get (front ++ rest) p ≡ Some e
        → e.caller ≡ book.caller → changes (take p (front ++ rest)) e ≡ false)
        → IsBookOf sizes (front ++ rest) book }
{}

/// What one call owes: its entry starts at the end of the old front, is framed and right in the new front, and
/// an event of its caller in between that changes the graph stands only at its place, as its own. Then the
/// longer book is true of the new front.
pub fn a_call_extends_its_book()
    ensures { (sizes : Sizes) (front rest : List Event) (book : Book) (e : Entry) → IsBookOf sizes front book
        → InFrame (length (front ++ rest)) (length front) e → Right sizes (front ++ rest) book.caller e
        → ((p : ℕ) (event : Event) → length front ≤ p → slice_get (front ++ rest) p ≡ Some event
        → event.caller ≡ book.caller → changes (take p (front ++ rest)) event ≡ true → StandsAt Own p e)
        → IsBookOf sizes (front ++ rest) (record book { entries = book.entries ++ e ∷ [] }) }
{}
