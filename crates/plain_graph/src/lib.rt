//! The graph of one caller: the nine calls in one order, without threads.
#![tactic(auto)]

mod calls;
mod graph;
mod index;
mod maps;
mod numbers;
mod parts;
mod rows;
mod text;

pub use graph::PlainGraph;
pub use rows::replay;

#[cfg(test)]
mod tests;
