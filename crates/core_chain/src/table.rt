//! Chains over the words of one table: one write is one step of one chain, and leaves every other as it is.
//!
//! A chain stands in a table of packed links where its head and the links of its nodes have their places
//! (`chain_in` of `specs/Table.antt`). Several chains stand in one table where their places are disjoint.
ghost use Rattle.std.specs.Prelude.{◌≡◌, ℕ, ◌<◌, ◌^◌, Bool};
ghost use Rattle.packed_link.specs.Link.{index_of, pack, with_mark};
ghost use Rattle.core_chain.specs.Chain.{ChainWord, Next};
ghost use Rattle.core_chain.specs.Steps.{CanInsert, CanUnlink, Inserts, Joins, Departs, CanReplace, Replaces, SetsMark};
ghost use Rattle.core_chain.specs.Steps.{Unlinks};
ghost use Rattle.core_chain.specs.Steps.{Untouched};
ghost use Rattle.core_chain.specs.Table.{KeepsSince, Places, StandsAlone, StandsElsewhere, WritesWord, chain_in};

/// The law of one write at a word of a chain: an unmarked link to a node that may be inserted inserts it, a marked link
/// to one that may replace the word's node replaces that, a mark that is set marks the word, and an unmarked link to
/// the successor of a node that may be unlinked unlinks it.
pub fn one_write_is_one_step()
    ensures insert { (old new : ℕ → ℕ) (places : Places) (on on_then : ℕ → Bool) (since since_then : ℕ → ℕ)
        (at : ChainWord) (node tag : ℕ)
        → KeepsSince on since since_then → StandsAlone places at → node < 2 ^ 24
        → CanInsert (chain_in old places on since) at node
        → WritesWord old new (places.word_at at) (pack node 0 tag) → Joins on on_then node
        → Inserts (chain_in old places on since) (chain_in new places on_then since_then) at node }
    ensures replace { (old new : ℕ → ℕ) (places : Places) (on on_then : ℕ → Bool) (since since_then : ℕ → ℕ)
        (node fresh tag : ℕ) → KeepsSince on since since_then → StandsAlone places (Next node) → fresh < 2 ^ 24
        → CanReplace (chain_in old places on since) node fresh → since node < since_then fresh
        → WritesWord old new (places.word_at (Next node)) (pack fresh 1 tag) → Joins on on_then fresh
        → Replaces (chain_in old places on since) (chain_in new places on_then since_then) node fresh }
    ensures mark { (old new : ℕ → ℕ) (places : Places) (on on_then : ℕ → Bool) (since since_then : ℕ → ℕ)
        (at : ChainWord)
        → KeepsSince on since since_then → StandsAlone places at
        → WritesWord old new (places.word_at at) (with_mark (old (places.word_at at)))
        → ((x : ℕ) → on_then x ≡ on x)
        → SetsMark (chain_in old places on since) (chain_in new places on_then since_then) at }
    ensures unlink { (old new : ℕ → ℕ) (places : Places) (on on_then : ℕ → Bool) (since since_then : ℕ → ℕ)
        (at : ChainWord) (node tag : ℕ)
        → KeepsSince on since since_then → StandsAlone places at → CanUnlink (chain_in old places on since) at node
        → WritesWord old new (places.word_at at) (pack (index_of (old (places.word_at (Next node)))) 0 tag)
        → Departs on on_then node
        → Unlinks (chain_in old places on since) (chain_in new places on_then since_then) at node }
{}

/// The law of several chains in one table: a write leaves untouched each chain that has no word and no key at its
/// place.
pub fn other_chains_stay()
    ensures { (old new : ℕ → ℕ) (places : Places) (on on_then : ℕ → Bool) (since since_then : ℕ → ℕ) (place word : ℕ)
        → KeepsSince on since since_then → StandsElsewhere (chain_in old places on since) places place
        → WritesWord old new place word
        → ((x : ℕ) → on_then x ≡ on x)
        → Untouched (chain_in old places on since) (chain_in new places on_then since_then) }
{}
