//! What a walk along a chain may conclude of the chain at that moment.
//!
//! A walk that stands at a word with a smaller key, which leads to a greater key or to none, knows that the key
//! between is absent: keys rise, so nothing stands in the gap (Harris 2001).
ghost use Rattle.std.specs.Prelude.{◌≡◌, ◌≢◌, ◌↔◌, ℕ, ◌<◌, Contains, List};
ghost use Rattle.packed_link.specs.Link.{nowhere};
ghost use Rattle.core_chain.specs.Chain.{Chain, ChainWord, IsChain, IsOn, Next, Precedes};
ghost use Rattle.core_chain.specs.Met.{MeetsFrom};
ghost use Rattle.core_chain.specs.Walk.{StandsBelow, Passes, rest_behind};

/// The law of absence: where a word leads past a key, no node of the key is on the chain.
pub fn a_key_that_is_passed_is_absent()
    ensures { (chain : Chain) (at : ChainWord) (key x : ℕ)
        → IsChain chain → Passes chain at key → IsOn chain (Next x) → chain.key x ≢ key }
{}

/// The law of what stands behind a word: following the links from it, one meets exactly the nodes on the chain
/// that stand behind it, and those are the nodes that have a greater key where the word is unmarked. And one unmarked
/// node has a key.
pub fn nodes_behind_have_greater_keys()
    ensures behind { (chain : Chain) (p : ChainWord) (nodes : List ℕ) (x : ℕ)
        → IsChain chain → IsOn chain p → MeetsFrom chain p nodes
        → Contains nodes x ↔ (IsOn chain (Next x) × Precedes chain p (Next x)) }
    ensures greater { (chain : Chain) (p : ChainWord) (nodes : List ℕ) (x : ℕ)
        → IsChain chain → IsOn chain p → chain.mark p ≡ 0 → MeetsFrom chain p nodes
        → Contains nodes x ↔ (IsOn chain (Next x) × StandsBelow chain p (chain.key x)) }
    ensures once { (chain : Chain) (x y : ℕ) → IsChain chain → IsOn chain (Next x) → IsOn chain (Next y)
        → chain.mark (Next x) ≡ 0 → chain.mark (Next y) ≡ 0 → chain.key x ≡ chain.key y → x ≡ y }
{}

/// The law of predecessors: exactly one word of a chain leads to each node on it.
pub fn one_word_leads_to_a_node()
    ensures at_most_one { (chain : Chain) (p q : ChainWord) → IsChain chain → IsOn chain p → IsOn chain q
        → chain.next p ≢ nowhere → chain.next p ≡ chain.next q → p ≡ q }
    ensures some { (chain : Chain) (size x : ℕ) → IsChain chain → ((y : ℕ) → IsOn chain (Next y) → y < size)
        → IsOn chain (Next x) → (p : ChainWord) × IsOn chain p × (chain.next p ≡ x) }
{}

/// The law of the rest: what stands behind a word of a chain is a chain again, with that word as its head.
pub fn the_rest_behind_a_word_is_a_chain()
    ensures { (chain : Chain) (p : ChainWord) → IsChain chain → IsOn chain p → IsChain (rest_behind chain p) }
{}
