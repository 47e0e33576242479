//! What a chain means: the nodes on it are those that one meets from the head by following the links.
//!
//! `IsChain` of `specs/Chain.antt` is the form that steps keep, and `IsMet` of `specs/Met.antt` is what a reader
//! has in mind. They say the same of a chain with finitely many nodes.
ghost use Rattle.std.specs.Prelude.{◌≡◌, ℕ, ◌<◌, false, List};
ghost use Rattle.packed_link.specs.Link.{nowhere};
ghost use Rattle.core_chain.specs.Chain.{Chain, ChainWord, Head, IsChain, IsOn, Next};
ghost use Rattle.core_chain.specs.Met.{IsMet, MeetsFrom};

/// The law of a chain's meaning. Where the nodes on a chain are below some number, they are exactly those that
/// one meets from its head by following the links, each once, in rising order; two neighbours have one
/// key only where the first is marked; and what is met so is a chain.
pub fn a_chain_is_what_is_met()
    ensures met { (chain : Chain) (size : ℕ) → IsChain chain → ((x : ℕ) → IsOn chain (Next x) → x < size)
        → (nodes : List ℕ) × IsMet chain nodes }
    ensures whole { (chain : Chain) (nodes : List ℕ) → IsChain chain → MeetsFrom chain Head nodes → IsMet chain nodes }
    ensures one { (chain : Chain) (p : ChainWord) (nodes others : List ℕ)
        → MeetsFrom chain p nodes → MeetsFrom chain p others → nodes ≡ others }
    ensures back { (chain : Chain) (nodes : List ℕ) → IsMet chain nodes → IsChain chain }
{}

/// The law of opening: a head that leads to none is a chain with no node on it.
pub fn an_empty_head_is_a_chain()
    ensures { (chain : Chain) → chain.next Head ≡ nowhere → ((x : ℕ) → chain.on x ≡ false) → IsChain chain }
{}
