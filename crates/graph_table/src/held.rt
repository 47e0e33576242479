//! The nodes that a token holds: fresh ones, spent ones, and spent ones with a stamp.
//!
//! Contracts see each as the life of its node. The value alone says nothing of the node: that it's fresh or spent
//! with a token is a fact of the token's front, which each call that takes one asks for.

ghost use Rattle.std.specs.Prelude.{◌≡◌};

use packed_link::Life;
use std::marker::Model;

/// A node that was taken and isn't linked yet.
#[derive(Debug, Drop)]
pub struct Fresh {
    pub(crate) life: Life,
}

impl Model for Fresh {
    ghost use Rattle.packed_link.specs.declared.link.Life.{Life};

    ghost Value = { Life };

    ghost view = { λ f. f.life };
}

impl Fresh {
    /// The life for which the node was taken, in O(1).
    pub fn life(&self) -> Life
        ensures life { result ≡ self.now }
    {
        self.life
    }
}

/// A node that was unlinked or frozen.
#[derive(Debug, Drop)]
pub struct Spent {
    pub(crate) life: Life,
}

impl Model for Spent {
    ghost use Rattle.packed_link.specs.declared.link.Life.{Life};

    ghost Value = { Life };

    ghost view = { λ s. s.life };
}

impl Spent {
    /// The life that ended, in O(1).
    pub fn life(&self) -> Life
        ensures life { result ≡ self.now }
    {
        self.life
    }

    /// The same life with this stamp, in O(1).
    pub fn ripen(self, stamp: u64) -> Ripe
        ensures ripe { result ≡ record { life = self; stamp = stamp } }
    {
        Ripe {
            life: self.life,
            stamp,
        }
    }
}

/// A spent node with its stamp: an epoch that was shown after the life ended.
#[derive(Debug, Drop)]
pub struct Ripe {
    pub(crate) life: Life,
    pub(crate) stamp: u64,
}

impl Model for Ripe {
    ghost use Rattle.graph_table.specs.Tokens.{RipeValue};

    ghost Value = { RipeValue };

    ghost view = { λ r. record { life = r.life; stamp = r.stamp } };
}

impl Ripe {
    /// The life that ended, in O(1).
    pub fn life(&self) -> Life
        ensures life { result ≡ self.now.life }
    {
        self.life
    }

    /// The stamp, in O(1).
    pub fn stamp(&self) -> u64
        ensures stamp { result ≡ self.now.stamp }
    {
        self.stamp
    }
}
