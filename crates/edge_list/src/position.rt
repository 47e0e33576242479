//! Positions on the list of a source.

ghost use Rattle.std.specs.Prelude.{◌≡◌};

use graph_table::Token;
use packed_link::{Life, Link};
use std::marker::Model;
use std::snapshot::Snapshot;

/// A word of a source's list that a token loaded: the second word of the source, or the link of an edge. If the edge to
/// which it leads was found marked, it keeps that edge's link too, which stays as it is. It's handed on and not copied,
/// for it has the moment of its load, which takes no bytes and can't be made anew.
#[derive(Drop)]
pub struct EdgePosition {
    pub(crate) source: Life,
    pub(crate) key: u32,
    pub(crate) place: u32,
    pub(crate) word: u64,
    pub(crate) link: u64,
    pub(crate) moment: Snapshot<Token>,
}

impl Model for EdgePosition {
    ghost use Rattle.edge_list.specs.EdgePositions.{EdgePositionValue};

    ghost Value = { EdgePositionValue };

    ghost view = { λ p. record {
      source = p.source;
      key = p.key;
      place = p.place;
      word = p.word;
      link = p.link;
      moment = p.moment.value.view.front;
    } };
}

impl EdgePosition {
    /// The word that was loaded, in O(1).
    pub fn word(&self) -> Link
        ensures word { result.0 ≡ self.now.word }
    {
        Link(self.word)
    }

    /// The token at the moment of that load, in O(1).
    pub fn moment(&self) -> &Snapshot<Token>
        ensures moment { result.now.value.view.front ≡ self.now.moment }
    {
        &self.moment
    }
}
