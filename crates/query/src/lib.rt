//! Queries: which rows and columns of a table they select, and a row as a line of JSON.
//!
//! A [`Query`] has columns, conditions that each row must meet, and a maximum number of rows. Contracts promise exactly which condition a string
//! states; which columns and rows of a table a query selects, or why it is refused; and the line of a row. They see tables, rows and queries as the
//! plain trees of `specs/`, however they are kept.
//!
//! ```
//! let condition = Condition::parse(alloc, "a >= 1")?;
//! let query = Query { columns: Vec::new(alloc), conditions: vec![in alloc; condition]?, limit: Some(10), dates: DateForm::Numbers };
//! let bound = bind_query(alloc, table.schema(), &query)?;
//! let mask = choose_rows(alloc, &table, &bound)?;
//! ```
//!
//! The query selects the first ten rows of `table` whose `a` is at least 1, with all columns; a null is not. The mask has a bit for each row whose `a` is
//! at least 1. `selection::select` makes a table of the selected rows, and `selection::push_selected_lines` prints them. Where rows come one part after
//! another, the query is bound to their schema once ([`bind_query`]), and the rows of each part are chosen on their own ([`choose_rows`]).
#![tactic(auto)]

mod batch_arrays;
mod blocks;
mod bound;
mod bound_query;
mod column_slots;
mod condition;
mod contents_slots;
mod errors;
mod first_bytes;
mod integer_slots;
mod laws;
mod line;
mod literal;
mod null_slots;
mod object_line;
mod operator;
mod order_answers;
mod plain_text;
mod query;
mod refused_place;
mod row_form;
mod selecting;
mod set_lines;
mod set_rows;
mod shown;
mod slot_lines;
mod slot_test;
mod slot_value;
mod validity;

pub use batch_arrays::BatchArrays;
pub use bound_query::BoundQuery;
pub use civil_days::DateForm;
pub use condition::{Condition, Test};
pub use errors::QueryError;
pub use laws::{rows_refuse_no_query, selection_is_a_table};
pub use object_line::{are_named_apart, push_line_in};
pub use operator::Operator;
pub use query::Query;
pub use refused_place::{conditions_are_refused_there, refused_condition};
pub use row_form::{RowForm, RowShape};
pub use selecting::{bind_query, choose_rows};
pub use set_lines::push_set_lines;
pub use set_rows::next_set;
