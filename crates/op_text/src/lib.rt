//! Rows from bytes, and texts from answers.
#![tactic(auto)]

mod generator;
mod graph_lines;
mod laws;
mod number;
mod pieces;
mod row_lines;
mod rows;
mod summary;
mod write;

pub use generator::{first_rows_are_known, made_rows_keep_apart, make_rows};
pub use graph_lines::give_edge_line;
pub use laws::answers_are_shown;
pub use number::write_number;
pub use pieces::Pieces;
pub use row_lines::{write_row, written_rows_are_read};
pub use rows::{MOST_ROWS, RowCause, RowsFault, numbers_are_decimal, read_rows};
pub use summary::{vertices_are_conserved, write_summary};
pub use write::{WriteFailed, give_spaced, write_outcome, write_text};
