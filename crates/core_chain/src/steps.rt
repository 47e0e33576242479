//! The steps that change one word of a chain, and what each of them keeps.
//!
//! Nodes are inserted behind an unmarked word, marked, and then unlinked from an unmarked predecessor (Harris
//! 2001, Michael 2002). A chain that is to end is frozen: its head is marked, and then one node after another.
//! Each law says that `IsChain` of `specs/Chain.antt` holds after the step, which nodes are on the chain then,
//! and that a mark, the link of a marked word and a frozen part stay (`Keeps` of `specs/Steps.antt`).
ghost use Rattle.std.specs.Prelude.{◌≡◌, ◌≢◌, ℕ};
ghost use Rattle.packed_link.specs.Link.{nowhere};
ghost use Rattle.core_chain.specs.Chain.{Chain, ChainWord, Head, IsChain, IsOn, Next};
ghost use Rattle.core_chain.specs.Steps.{Freezes, Inserts, IsFrozenTo, Keeps, Replaces, SetsMark, Step, Unlinks};
ghost use Rattle.core_chain.specs.Steps.{Untouched};

/// The law of inserting: a node joins the chain between its neighbours, and every node that was on it is on it.
pub fn inserting_keeps_the_chain()
    ensures chain { (old new : Chain) (at : ChainWord) (node : ℕ)
        → IsChain old → Inserts old new at node → IsChain new }
    ensures nodes { (old new : Chain) (at : ChainWord) (node : ℕ) → IsChain old → Inserts old new at node
        → (p : ChainWord) → IsOn old p → IsOn new p }
    ensures keeps { (old new : Chain) (at : ChainWord) (node : ℕ)
        → IsChain old → Inserts old new at node → Keeps old new }
{}

/// The law of replacing: a node joins the chain behind the unmarked one of its key, which gets its mark, and every node
/// that was on the chain is on it.
pub fn replacing_keeps_the_chain()
    ensures chain { (old new : Chain) (node fresh : ℕ)
        → IsChain old → Replaces old new node fresh → IsChain new }
    ensures nodes { (old new : Chain) (node fresh : ℕ) → IsChain old → Replaces old new node fresh
        → (p : ChainWord) → IsOn old p → IsOn new p }
    ensures keeps { (old new : Chain) (node fresh : ℕ) → IsChain old → Replaces old new node fresh → Keeps old new }
{}

/// The law of marking: a node that is marked, or a head, is still on the chain, and so is every other.
pub fn marking_keeps_the_chain()
    ensures chain { (old new : Chain) (at : ChainWord) → IsChain old → SetsMark old new at → IsChain new }
    ensures nodes { (old new : Chain) (at : ChainWord) → IsChain old → SetsMark old new at
        → (p : ChainWord) → IsOn old p → IsOn new p }
    ensures keeps { (old new : Chain) (at : ChainWord) → IsChain old → SetsMark old new at → Keeps old new }
{}

/// The law of unlinking: every node that was on the chain is on it but for the one that is unlinked, whose own
/// link still leads to a node on the chain or to none.
pub fn unlinking_keeps_the_chain()
    ensures chain { (old new : Chain) (at : ChainWord) (node : ℕ)
        → IsChain old → Unlinks old new at node → IsChain new }
    ensures nodes { (old new : Chain) (at : ChainWord) (node : ℕ) → IsChain old → Unlinks old new at node
        → (p : ChainWord) → IsOn old p → p ≢ Next node → IsOn new p }
    ensures keeps { (old new : Chain) (at : ChainWord) (node : ℕ)
        → IsChain old → Unlinks old new at node → Keeps old new }
    ensures onward { (old new : Chain) (at : ChainWord) (node : ℕ) → IsChain old → Unlinks old new at node
        → new.next (Next node) ≢ nowhere → IsOn new (Next (new.next (Next node))) }
{}

/// The law of freezing: a marked head is a frozen part, and a mark on the node to which a frozen part leads makes
/// the part longer by that node. The chain stays one, and what else marking keeps, freezing keeps too.
pub fn freezing_keeps_the_chain()
    ensures head { (old new : Chain) → SetsMark old new Head → IsFrozenTo new Head }
    ensures node { (old new : Chain) (end : ChainWord) (node : ℕ)
        → IsChain old → Freezes old new end node → IsFrozenTo new (Next node) }
    ensures chain { (old new : Chain) (end : ChainWord) (node : ℕ)
        → IsChain old → Freezes old new end node → IsChain new }
{}

/// The law of all steps together: a chain stays a chain, and nothing that is kept is taken back.
pub fn each_step_keeps_the_chain()
    ensures chain { (old new : Chain) → IsChain old → Step old new → IsChain new }
    ensures keeps { (old new : Chain) → IsChain old → Step old new → Keeps old new }
{}

/// The law of a frozen chain: where the frozen part leads to none, each word of the chain is marked, and no step
/// changes it.
pub fn a_frozen_chain_rests()
    ensures marked { (chain : Chain) (end p : ChainWord) → IsChain chain → IsFrozenTo chain end
        → chain.next end ≡ nowhere → IsOn chain p → chain.mark p ≡ 1 }
    ensures untouched { (old new : Chain) (end : ChainWord) → IsChain old → IsFrozenTo old end
        → old.next end ≡ nowhere → Step old new → Untouched old new }
{}

/// The law of other changes: a chain of which no word, key or node changes stays a chain, and frozen as far as it
/// was.
pub fn what_is_untouched_stays_a_chain()
    ensures chain { (old new : Chain) → IsChain old → Untouched old new → IsChain new }
    ensures frozen { (old new : Chain) (end : ChainWord)
        → IsChain old → Untouched old new → IsFrozenTo old end → IsFrozenTo new end }
{}
