//! Positions on the list of a bucket.

ghost use Rattle.std.specs.Prelude.{◌≡◌};

use graph_table::Token;
use packed_link::Link;
use std::marker::Model;
use std::snapshot::Snapshot;

/// A word of a bucket's list that a token loaded: that of the bucket itself, or the link of a vertex. If the vertex to
/// which it leads was found marked, it keeps that vertex's link too, which stays as it is. It's handed on and not
/// copied, for it has the moment of its load, which takes no bytes and can't be made anew.
#[derive(Drop)]
pub struct Position {
    pub(crate) key: u32,
    pub(crate) place: u32,
    pub(crate) word: u64,
    pub(crate) link: u64,
    pub(crate) moment: Snapshot<Token>,
}

impl Model for Position {
    ghost use Rattle.vertex_list.specs.Positions.{PositionValue};

    ghost Value = { PositionValue };

    ghost view = { λ p. record {
      key = p.key;
      place = p.place;
      word = p.word;
      link = p.link;
      moment = p.moment.value.view.front;
    } };
}

impl Position {
    /// The word that was loaded, in O(1).
    pub fn word(&self) -> Link
        ensures word { result.0 ≡ self.now.word }
    {
        Link(self.word)
    }

    /// The token at the moment of that load, in O(1).
    pub fn moment(&self) -> &Snapshot<Token>
        ensures moment { result.now.value.view.front ≡ self.now.moment }
    {
        &self.moment
    }
}
