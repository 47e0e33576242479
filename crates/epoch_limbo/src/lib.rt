//! Passes, the epoch, and the limbo of spent nodes.
//!
//! A caller announces the epoch before it walks and withdraws the announcement after that; the epoch moves on only
//! where no announcement is older; and a node that was spent in an epoch is given back only after two more moves, when
//! no open pass can hold it (Fraser 2004). The rule that this rests on is core_epoch's.
#![tactic(auto)]

mod advancing;
mod keeping;
mod limbo;
mod passes;

pub use advancing::{Advanced, advance};
pub use graph_kinds::Memory;
pub use keeping::{a_limbo_has_room_for_one_more, a_limbo_outlasts_a_freeze, limbos_stay};
pub use limbo::Limbo;
pub use passes::{close_pass, open_pass};
