//! The calls of one caller, in their order. No code makes a value of it: it is seen by contracts.

use graph_kinds::Entry;
use std::collections::LinkedList;

/// A caller's number, and an entry for each call that it was answered.
pub struct Book {
    pub caller: u32,
    pub entries: LinkedList<Entry>,
}
