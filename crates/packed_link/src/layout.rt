//! Where each word of the shared table stands.
//!
//! One table holds all that callers share: a meeting word, the number of callers drawn, the epoch, the free
//! list, an announcement for each caller, a head for each bucket, and four words for each node. The sizes keep
//! `IsLayout` of `specs/Layout.antt`, and no two words meet (`places_differ`).
ghost use Rattle.std.specs.Prelude.{◌≡◌, ℕ, ◌<◌, ◌≤◌};
ghost use Rattle.packed_link.specs.Layout.{Sizes, IsLayout, Place, IsPlace, place_of, word_count};
ghost use Rattle.packed_link.specs.Layout.{number_at, epoch_at, free_at, announce_at, bucket_at};
ghost use Rattle.packed_link.specs.Layout.{key_at, link_at, second_at, third_at};

use std::marker::Model;

/// The sizes of one table, within the limits, which fix the place of each word.
#[derive(Clone, Copy, Debug, PartialEq, Eq)]
pub struct Layout {
    callers: u32,
    nodes: u32,
    buckets: u32,
}

impl Model for Layout {
    ghost use Rattle.packed_link.specs.Layout.{Sizes, IsLayout};

    ghost Value = { Sizes };

    ghost view = { λ l. record { callers = l.callers; nodes = l.nodes; buckets = l.buckets } };

    ghost invariant = { λ l. IsLayout (record { callers = l.callers; nodes = l.nodes; buckets = l.buckets }) };

    ghost inverse = { λ sizes. record { callers = sizes.callers; nodes = sizes.nodes; buckets = sizes.buckets } };
}

impl Layout {
    /// The layout of a table for so many callers, nodes and buckets, in O(1).
    pub fn new(callers: u32, nodes: u32, buckets: u32) -> Layout
        requires some_callers { 1 ≤ callers }
        requires few_callers { callers ≤ 16 }
        requires some_nodes { 1 ≤ nodes }
        requires few_nodes { nodes ≤ 65536 }
        requires some_buckets { 1 ≤ buckets }
        requires few_buckets { buckets ≤ 65536 }
        ensures sizes { result ≡ record { callers = callers; nodes = nodes; buckets = buckets } }
        ensures limits { IsLayout result }
    {
        Layout {
            callers,
            nodes,
            buckets,
        }
    }

    /// How many callers the table serves, in O(1).
    pub fn callers(&self) -> u32
        ensures callers { result ≡ self.now.callers }
        ensures limits { IsLayout self.now }
    {
        self.callers
    }

    /// How many nodes the table has, in O(1).
    pub fn nodes(&self) -> u32
        ensures nodes { result ≡ self.now.nodes }
        ensures limits { IsLayout self.now }
    {
        self.nodes
    }

    /// How many buckets of vertices the table has, in O(1).
    pub fn buckets(&self) -> u32
        ensures buckets { result ≡ self.now.buckets }
        ensures limits { IsLayout self.now }
    {
        self.buckets
    }

    /// How many words the table has, in O(1).
    pub fn words(&self) -> u32
        ensures words { result ≡ word_count self.now }
        ensures limits { IsLayout self.now }
    {
        4 + self.callers + self.buckets + 4 * self.nodes
    }

    /// The place of the number of caller numbers drawn, in O(1).
    pub fn number_at(&self) -> u32
        ensures place { result ≡ number_at self.now }
        ensures inside { result < word_count self.now }
    {
        1
    }

    /// The place of the epoch, in O(1).
    pub fn epoch_at(&self) -> u32
        ensures place { result ≡ epoch_at self.now }
        ensures inside { result < word_count self.now }
    {
        2
    }

    /// The place of the link to the first free node, in O(1).
    pub fn free_at(&self) -> u32
        ensures place { result ≡ free_at self.now }
        ensures inside { result < word_count self.now }
    {
        3
    }

    /// The place of a caller's announcement, in O(1).
    pub fn announce_at(&self, caller: u32) -> u32
        requires { caller < self.now.callers }
        ensures place { result ≡ announce_at self.now caller }
        ensures inside { result < word_count self.now }
    {
        // The limit on callers keeps the sum within 32 bits.
        let _ = &self.callers;
        4 + caller
    }

    /// The place of the link to a bucket's first vertex, in O(1).
    pub fn bucket_at(&self, bucket: u32) -> u32
        requires { bucket < self.now.buckets }
        ensures place { result ≡ bucket_at self.now bucket }
        ensures inside { result < word_count self.now }
    {
        4 + self.callers + bucket
    }

    /// The place of a node's key, in O(1).
    pub fn key_at(&self, index: u32) -> u32
        requires { index < self.now.nodes }
        ensures place { result ≡ key_at self.now index }
        ensures inside { result < word_count self.now }
    {
        4 + self.callers + self.buckets + 4 * index
    }

    /// The place of a node's link to the next, in O(1).
    pub fn link_at(&self, index: u32) -> u32
        requires { index < self.now.nodes }
        ensures place { result ≡ link_at self.now index }
        ensures inside { result < word_count self.now }
    {
        4 + self.callers + self.buckets + 4 * index + 1
    }

    /// The place of a node's second word, a vertex's link to its first edge or an edge's target, in O(1).
    pub fn second_at(&self, index: u32) -> u32
        requires { index < self.now.nodes }
        ensures place { result ≡ second_at self.now index }
        ensures inside { result < word_count self.now }
    {
        4 + self.callers + self.buckets + 4 * index + 2
    }

    /// The place of a node's third word, a vertex's counter of edge changes or an edge's weight, in O(1).
    pub fn third_at(&self, index: u32) -> u32
        requires { index < self.now.nodes }
        ensures place { result ≡ third_at self.now index }
        ensures inside { result < word_count self.now }
    {
        4 + self.callers + self.buckets + 4 * index + 3
    }
}

/// The law of the places, for tables of any sizes: no two words meet, each lies within the table, and each
/// place of the table is that of one word.
pub fn places_differ()
    ensures same { (sizes : Sizes) (p q : Place) → IsPlace sizes p → IsPlace sizes q
        → place_of sizes p ≡ place_of sizes q → p ≡ q }
    ensures inside { (sizes : Sizes) (p : Place) → IsPlace sizes p → place_of sizes p < word_count sizes }
    ensures onto { (sizes : Sizes) (i : ℕ) → i < word_count sizes
        → (p : Place) × IsPlace sizes p × (place_of sizes p ≡ i) }
{}

#[cfg(test)]
mod tests {
    use super::*;

    #[test]
    fn words_stand_in_the_order_of_the_table(rt: HostRuntime) {
        let small = Layout::new(2, 5, 3);
        assert_eq!(rt; small.callers(), 2);
        assert_eq!(rt; small.nodes(), 5);
        assert_eq!(rt; small.buckets(), 3);
        assert_eq!(rt; small.words(), 29);
        assert_eq!(rt;
            [small.number_at(), small.epoch_at(), small.free_at()],
            [1, 2, 3]
        );
        assert_eq!(rt; [small.announce_at(0), small.announce_at(1)], [4, 5]);
        assert_eq!(rt;
            [small.bucket_at(0), small.bucket_at(1), small.bucket_at(2)],
            [6, 7, 8]
        );
        for (index, first) in [(0, 9), (1, 13), (2, 17), (3, 21), (4, 25)] {
            assert_eq!(rt; small.key_at(index), first);
            assert_eq!(rt; small.link_at(index), first + 1);
            assert_eq!(rt; small.second_at(index), first + 2);
            assert_eq!(rt; small.third_at(index), first + 3);
        }
        let large = Layout::new(16, 65_536, 65_536);
        assert_eq!(rt; large.words(), 327_700);
        assert_eq!(rt; large.announce_at(15), 19);
        assert_eq!(rt; large.bucket_at(65_535), 65_555);
        assert_eq!(rt; large.key_at(0), 65_556);
        assert_eq!(rt; large.third_at(65_535), 327_699);
    }
}
