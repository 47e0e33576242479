//! The lists of vertices: one sorted chain for each bucket.
//!
//! A walk goes from word to word and takes none that is marked; a marked vertex is unlinked by whoever comes by, and a
//! vertex is linked by one exchange on the unmarked word before it (Harris 2001, Michael 2002). What an answer tells
//! holds at a moment of which the contract says where it lies: the keys before and behind a word that was unmarked then
//! leave no room for another.
#![tactic(auto)]

mod changes;
mod laws;
mod position;
mod walks;

pub use changes::{Linked, Marked, Unlinked, link, mark, unlink};
pub use laws::positions_go_on;
pub use position::Position;
pub use walks::{Found, Sighting, Stepped, start, step, walk};
