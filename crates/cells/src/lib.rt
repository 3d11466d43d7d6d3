//! Values and rows: what fits a field, what it weighs, and what a dictionary can hold.
//!
//! A [`Value`] is one cell of a table. Contracts see values as the plain trees of `specs/Cell.antt`. [`fits`] tests whether a
//! value fits a field, and [`weight`] returns its weight; [`accepted_weight`] makes all tests that a table requires of a row.
//!
//! ```
//! let fields = field_texts::parse_fields(alloc, &["a:int8?"])?;
//! let taken = cells::fits(&fields[0], &Value::Int(128));
//! ```
//!
//! `taken` is false: a signed 8-bit integer is at most 127.
#![tactic(auto)]

mod accept;
mod entry;
mod fit;
mod flat;
mod holding;
mod laws;
mod limited;
mod limits;
mod row;
mod value;
mod weigh;

pub use accept::{accepted_weight, dictionaries_fit};
pub use entry::{Entry, entry_of, note};
pub use fit::fits;
pub use holding::entry_limit;
pub use laws::{entries_are_the_distinct_values, one_entry_is_one_value};
pub use limited::{has_limit, has_limits};
pub use limits::{MAX_PIECE_ROWS, MAX_PIECE_WEIGHT, MAX_ROW_WEIGHT, MAX_TABLE_WEIGHT, TOO_HEAVY};
pub use row::Row;
pub use value::Value;
pub use weigh::{add_weights, multiply_weight, row_weight, weight};
