//! Tables in memory.
//!
//! Contracts see only the schema and the rows of a [`Table`], however it keeps them. A table's rows fit its schema;
//! each row is within the limits of weight and of dictionaries, and all together within that of weight. The first row
//! that is not, or that does not fit, is reported. Values and rows are those of `cells`.
//!
//! ```
//! let row = Row { cells: vec![in alloc; Value::Int(7)]? };
//! let table = Table::new(alloc, schema, vec![in alloc; row]?)?;
//! ```
//!
//! returns a table of one row, if `schema`, which is within the limits, has one column and 7 is one of its values; else
//! `Unfit(0)`.
#![tactic(auto)]

mod accept;
mod batches;
mod content;
mod copying;
mod errors;
mod laws;
mod list_items;
mod rows;
mod starts;
mod table;
mod table_part;
mod weighed_table;

pub use cells::{Row, Value};
pub use columns::{ValueRef, Values, ValuesIter, borrow_value};
pub use copying::copy_row;
pub use errors::TableError;
pub use laws::{accepted_rows_are_a_table, tables_are_joined_and_cut};
pub use list_items::{items, push_all};
pub use rows::Rows;
pub use table::Table;
pub use table_part::{Batch, TablePart};
pub use weighed_table::WeighedTable;
