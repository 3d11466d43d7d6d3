//! The cut of a table's rows into pieces: each is written as one record batch of a canonical stream.
//!
//! [`next_piece`] returns the longest front of the rows that are left which is within the limits: at most 4,096 rows, a weight of at most 16,777,216,
//! and in no dictionary more values than its indices can name. It borrows the rows, and weighs each once, except the first of the next piece.
//! [`first_unfit_row`] returns the first row of a table that another schema of its shape does not take. Rows are borrowed only if a dictionary of 8-bit or
//! 16-bit indices is below a list.
//!
//! ```ignore
//! let piece = next_piece(alloc, table.schema(), &table, from)?;
//! from += piece.len();
//! ```
//!
//! [`RowsLeft`] cuts a table that is kept in record batches into the same pieces, as runs of its rows, and [`column_runs`] returns the slots that each column
//! has in them. The end of a piece is found from the weights of spans of rows ([`arrays::row_span_weight`]), unless a bound shows that all rows that it may
//! have are light enough (`bound.rt`). For the bound, the longest entry of a dictionary is found once for all pieces into which a run is cut
//! (`entry_sizes.rt`). Only a dictionary of 8-bit indices, or one of 16-bit indices below a list, can be full within a piece (`filling.rt`). If there is one,
//! and a piece has rows under several dictionaries, the end is the least row over its columns for whose entry a dictionary has no room
//! ([`dictionary_codes::name_slots`]). Rows are borrowed only if there are lists or structs too, or many such dictionaries in one piece.
//!
//! ```ignore
//! let mut left = RowsLeft::new(alloc, parts)?;
//! let piece = left.next_piece(alloc, table.schema())?;
//! let columns = column_runs(alloc, &table.schema().fields, &piece.runs)?;
//! ```
#![tactic(auto)]

mod bound;
mod columns_of_runs;
mod columns_room;
mod entry_sizes;
mod filling;
mod fitting;
mod holding;
mod laws;
mod left;
mod piece;
mod room;
mod row_run;
mod seen;
mod seen_rows;
mod shared;
mod unfit;
mod weigh;

pub use columns_of_runs::column_runs;
pub use laws::{longest_fronts_are_pieces, pieces_are_the_cut};
pub use left::{RowsLeft, RunPiece};
pub use piece::next_piece;
pub use row_run::RowRun;
pub use unfit::first_unfit_row;
