//! What every layer shares: calls, answers, sources and sinks, and the definitions of the graph.
#![tactic(auto)]

mod answer;
mod answer_laws;
mod call;
mod entry;
mod laws;
mod mem_sink;
mod mem_source;
mod outcome;
mod path_laws;
mod port;
mod sink;
mod source;

pub use answer::{Answer, Keys, Memory};
pub use answer_laws::a_graph_answers_nothing_of_the_table;
pub use call::{Call, Row};
pub use entry::{Class, Entry};
pub use laws::{
    calls_add_at_most_one, calls_keep_graphs, graphs_are_extensional,
    overtaken_items_need_a_removal, replays_are_legal, sorted_keys_are_the_keys,
};
pub use mem_sink::MemSink;
pub use mem_source::MemSource;
pub use outcome::Outcome;
pub use path_laws::{
    cheapest_is_a_path, least_costs_are_least, levels_are_distances, neighbours_rise,
    parts_are_answered_alike, paths_run_over_keys, reach_is_shortest, worked_graphs_are_answered,
};
pub use port::CallerPort;
pub use sink::{Sink, WriteAnswer};
pub use source::{ReadAnswer, Source};
