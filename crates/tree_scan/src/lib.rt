//! A part of the graph is recorded on a scan, and the record is verified on the table that all callers share.
#![tactic(auto)]

mod again;
mod collecting;

pub use again::{Verdict, verify};
pub use collecting::collect;
