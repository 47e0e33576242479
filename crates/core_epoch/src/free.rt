//! The free list: taking the first node and giving one back, each by one change of one word (Treiber 1986).
//!
//! The tag of that word counts its changes. So where the word is again the one that was seen, nothing was taken or
//! given back in between.
ghost use Rattle.std.specs.Prelude.{◌≡◌, ℕ, ◌<◌, ◌≤◌, List, true};
ghost use Rattle.packed_link.specs.Link.{index_of, nowhere};
ghost use Rattle.core_epoch.specs.Run.{IsRunOf, last_of};
ghost use Rattle.core_epoch.specs.Free.{Change, FreeList, GivesBack, IsNewPool, IsUnchanged, LeavesFree, Pool};
ghost use Rattle.core_epoch.specs.Free.{TakesFirst};

/// The law of the free list: it leads through exactly the free nodes, each once, its word is unmarked, and its tag
/// counts its changes. This holds where all nodes are free and each leads to the next, and each change keeps it.
pub fn the_free_list_is_exact()
    ensures opening { (nodes : ℕ) (pool : Pool) → 1 ≤ nodes → nodes ≤ nowhere
        → IsNewPool nodes pool → FreeList nodes pool }
    ensures take { (nodes : ℕ) (old new : Pool) (x : ℕ) → nodes ≤ nowhere
        → FreeList nodes old → TakesFirst nodes old new x → FreeList nodes new }
    ensures give { (nodes : ℕ) (old new : Pool) (x : ℕ) → nodes ≤ nowhere
        → FreeList nodes old → GivesBack nodes old new x → FreeList nodes new }
    ensures leave { (nodes : ℕ) (old new : Pool) → FreeList nodes old → LeavesFree old new → FreeList nodes new }
{}

/// The law of the first node: a node to which the word of the free list leads is free.
pub fn a_first_node_is_free()
    ensures { (nodes : ℕ) (pool : Pool) (x : ℕ) → nodes ≤ nowhere → FreeList nodes pool
        → x < nodes → index_of pool.first ≡ x → pool.is_free x ≡ true }
{}

/// The law of a word that is seen again: each change keeps that the list has changed since, or that its word and the
/// link of its node are the same. So where the word of the list was seen, then the link of its node was loaded, and the
/// word is the same again, that link is the same too.
pub fn an_unchanged_word_keeps_its_link()
    ensures step { (nodes seen next : ℕ) (old new : Pool) → nodes ≤ nowhere → index_of seen < nodes
        → FreeList nodes old → IsUnchanged seen next old → Change nodes old new → IsUnchanged seen next new }
    ensures again { (nodes seen next : ℕ) (first : Pool) (between later : List Pool) → nodes ≤ nowhere
        → index_of seen < nodes → FreeList nodes first → first.first ≡ seen
        → IsRunOf (Change nodes) first between → (last_of first between).link (index_of seen) ≡ next
        → IsRunOf (Change nodes) (last_of first between) later
        → (last_of (last_of first between) later).first ≡ seen
        → (last_of (last_of first between) later).link (index_of seen) ≡ next }
{}
