//! The selection of a table by a query.
//!
//! `query` says which columns and rows a query selects; this crate makes them a table of their own, kept in record batches. The rows are
//! runs of slots of the arrays of the columns asked for, which are written as one stream and read again, without making a cell. Or it prints them
//! from these arrays, without making a table. Either takes one part of the table after another ([`SelectionBuilder`], [`LinePrinter`]).
//!
//! ```ignore
//! let found = select(alloc, &table, &query)?;
//! ```
#![tactic(auto)]

mod copying;
mod kept;
mod limit;
mod line_printer;
mod picked;
mod picked_schema;
mod printing;
mod selecting;
mod selection_builder;
mod table_parts;

pub use line_printer::{LinePrinter, push_selected_lines};
pub use selection_builder::{SelectionBuilder, select};
