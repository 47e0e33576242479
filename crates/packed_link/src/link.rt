//! A link in one word: the index of a node, a mark, and the tag of one of the node's lives.
//!
//! The tag makes a word of an earlier life differ from one of a later life of the same node, and the mark
//! shares the word with the link, so that one exchange tests both (Harris 2001, Michael 2002).
//! `pack`, `index_of`, `mark_of` and `tag_of` of `specs/Link.antt` say which bits are which.
ghost use Rattle.std.specs.Prelude.{◌≡◌, ℕ, ◌<◌, ◌≤◌, ◌^◌, ◌↔◌, IsTrue, bit_or};
ghost use Rattle.packed_link.specs.Layout.{IsLayout, Sizes};
ghost use Rattle.packed_link.specs.Link.{AreParts, index_of, mark_bit, mark_of, nowhere, pack, tag_of, with_mark};

/// A packed link: bits 0 to 23 are the index, bit 24 is the mark, and bits 25 to 63 are the tag.
#[derive(Clone, Copy, Debug, PartialEq, Eq)]
pub struct Link(pub u64);

/// One use of a node: its index, and the tag that counts the node's uses.
#[derive(Clone, Copy, Debug, PartialEq, Eq)]
pub struct Life {
    /// Which node.
    pub index: u32,
    /// Which of its uses, counted from 1.
    pub tag: u64,
}

impl Link {
    /// The link that leads to no node: index 16,777,215, no mark, tag 0.
    pub const NONE: Link = Link(16_777_215);

    /// The mark's bit, to be set by a `fetch_or`.
    pub const MARK: u64 = 1 << 24;

    /// The link of these parts, in O(1).
    pub fn pack(index: u32, mark: bool, tag: u64) -> Link
        requires index_fits { index < 2 ^ 24 }
        requires tag_fits { tag < 2 ^ 39 }
        ensures word { result.0 ≡ pack index (mark_bit mark) tag }
        ensures index { index_of result.0 ≡ index }
        ensures mark { mark_of result.0 ≡ mark_bit mark }
        ensures tag { tag_of result.0 ≡ tag }
    {
        Link(u64::from(index) + (u64::from(mark) << 24) + (tag << 25))
    }

    /// The index, of any word, in O(1).
    pub fn index(self) -> u32
        ensures index { result ≡ index_of self.0 }
        ensures bound { result < 2 ^ 24 }
    {
        (self.0 & 0xff_ffff) as u32
    }

    /// Whether the mark is set, of any word, in O(1).
    pub fn marked(self) -> bool
        ensures { IsTrue result ↔ (mark_of self.0 ≡ 1) }
    {
        (self.0 >> 24) & 1 == 1
    }

    /// The tag, of any word, in O(1).
    pub fn tag(self) -> u64
        ensures tag { result ≡ tag_of self.0 }
        ensures bound { result < 2 ^ 39 }
    {
        self.0 >> 25
    }

    /// The same link with its mark set, in O(1).
    pub fn with_mark(self) -> Link
        ensures word { result.0 ≡ with_mark self.0 }
        ensures marked { mark_of result.0 ≡ 1 }
        ensures index { index_of result.0 ≡ index_of self.0 }
        ensures tag { tag_of result.0 ≡ tag_of self.0 }
        ensures already { mark_of self.0 ≡ 1 → result.0 ≡ self.0 }
    {
        Link(self.0 | Link::MARK)
    }
}

/// The law of packing: a word of 64 bits is its parts, and two packed links are one word only where their
/// parts are the same.
pub fn packed_links_differ()
    ensures apart { (i m t j n u : ℕ) → AreParts i m t → AreParts j n u → pack i m t ≡ pack j n u
        → (i ≡ j) × (m ≡ n) × (t ≡ u) }
    ensures fits { (index mark tag : ℕ) → AreParts index mark tag → pack index mark tag < 2 ^ 64 }
    ensures parts { (word : ℕ) → word < 2 ^ 64 → AreParts (index_of word) (mark_of word) (tag_of word) }
    ensures whole { (word : ℕ) → pack (index_of word) (mark_of word) (tag_of word) ≡ word }
{}

/// The law of `Link::NONE`: it is unmarked, its tag is 0, and no table has a node of its index.
pub fn none_names_no_node()
    ensures index { index_of Link.NONE.0 ≡ nowhere }
    ensures unmarked { mark_of Link.NONE.0 ≡ 0 }
    ensures tag { tag_of Link.NONE.0 ≡ 0 }
    ensures no_node { (sizes : Sizes) → IsLayout sizes → sizes.nodes ≤ nowhere }
{}

/// The law of marking: a `fetch_or` of `Link::MARK` sets the mark of any word, and doing so again changes
/// nothing.
pub fn marking_sets_one_bit()
    ensures fetch_or { (word : ℕ) → bit_or word Link.MARK ≡ with_mark word }
    ensures again { (word : ℕ) → with_mark (with_mark word) ≡ with_mark word }
    ensures packed { (index mark tag : ℕ) → AreParts index mark tag
        → with_mark (pack index mark tag) ≡ pack index 1 tag }
{}

#[cfg(test)]
mod tests {
    use super::*;

    #[test]
    fn parts_stand_at_their_bits(rt: HostRuntime) {
        for (index, mark, tag, word) in [
            (0, false, 0, 0),
            (0, true, 0, 0x100_0000),
            (0, false, 1, 0x200_0000),
            (5, true, 3, 0x700_0005),
            (65_535, false, 1 << 38, 0x8000_0000_0000_ffff),
            (16_777_215, true, (1 << 39) - 1, u64::MAX),
        ] {
            let link = Link::pack(index, mark, tag);
            assert_eq!(rt; link.0, word);
            assert_eq!(rt; Link(word).index(), index);
            assert_eq!(rt; Link(word).marked(), mark);
            assert_eq!(rt; Link(word).tag(), tag);
            assert_eq!(rt; link.with_mark(), Link(word | 0x100_0000));
        }
        assert_eq!(rt; Link::NONE.index(), 16_777_215);
        assert!(rt; !Link::NONE.marked());
        assert_eq!(rt; Link::NONE.tag(), 0);
        assert_eq!(rt; Life { index: 5, tag: 3 }, Life { index: 5, tag: 3 });
    }
}
