//! A list of keys, and the answer to a call: its outcome with the keys and level ends that belong to it.

ghost use Rattle.std.specs.Prelude.{◌≡◌, [], IfOk};

use crate::outcome::Outcome;
use std::alloc::Global;
use std::marker::Model;

/// Memory ran out. It is the one answer that may come at any time, and says nothing of the graph.
#[derive(Debug, Drop, Clone, Copy, PartialEq, Eq)]
pub struct Memory;

/// A list of keys, which contracts see as the list of their numbers.
#[derive(Drop)]
pub struct Keys {
    all: Vec<u32>,
}

impl Model for Keys {
    ghost use Rattle.std.specs.Prelude.{List, ℕ};

    ghost Value = { List ℕ };

    ghost view = { λ k. k.all.items };
}

impl Keys {
    /// No keys. O(1), takes no memory.
    pub fn new(alloc: Global) -> Self
        ensures { result ≡ [] }
    {
        Keys {
            all: Vec::new(alloc),
        }
    }

    /// The keys of a slice, in order. O(n).
    ///
    /// # Errors
    /// `Memory` where there is no room for them.
    pub fn copy(alloc: Global, from: &[u32]) -> Result<Self, Memory>
        ensures { IfOk result (λ keys. keys ≡ from.now) }
    {
        match from.to_vec(alloc) {
            Ok(all) => Ok(Keys { all }),
            Err(_) => Err(Memory),
        }
    }

    /// The keys, in order. O(1).
    pub fn as_slice(&self) -> &[u32]
        ensures { result.now ≡ self.now }
    {
        self.all.as_slice()
    }
}

/// The answer to one call. `keys` is empty for every outcome but `Path`, `Cost` and `Levels`; `ends`
/// holds, for `Levels`, the number of keys up to the end of each level, and is empty else.
#[derive(Drop)]
pub struct Answer {
    pub outcome: Outcome,
    pub keys: Keys,
    pub ends: Keys,
}
