//! Rows of texts: CSV and JSON Lines under a schema.
//!
//! [`csv_rows`] and [`jsonl_rows`], or [`rows_of_text`] for either form, return the rows of a text, or the first refusal with the number of its
//! record. The crate `csv` splits a text into records, and `serde_json` reads the values of its lines; how these become cells is defined in `specs/`
//! and proved exactly, for every text. [`refused_part`] returns the part of a text that is refused. [`are_too_heavy`] returns whether the rows of a text are
//! too heavy for one table, and keeps none of them.
//!
//! ```
//! let fields = field_texts::parse_fields(alloc, &["a:int32?", "s:utf8"])?;
//! let schema = arrow_schema::Schema { fields, pairs: Vec::new(alloc) };
//! let form = text_import::FieldForm { null_text: b"", dates: civil_days::DateForm::Numbers };
//! let rows = text_import::csv_rows(alloc, &schema, b"a,s\n1,x\n,\n", &form)?;
//! ```
//!
//! The rows are 1 and "x", and a null and "": the null text means a null only where nulls are allowed.
#![tactic(auto)]

mod flat;
mod form;
mod jsonl;
mod laws;
mod lines;
mod objects;
mod part;
mod place;
mod records;
mod refusal;
mod rows;
mod texts;
mod value_part;
mod weight;

pub use flat::{spelled_boolean, spelled_integer};
pub use form::{FieldForm, TextForm, rows_of_text};
pub use jsonl::{is_blank, jsonl_rows, split_lines};
pub use laws::{refused_parts_are_causes, rows_of_texts_are_rows};
pub use part::{LinePart, RefusedPart, refused_part};
pub use place::{field_at, field_of_part};
pub use records::{csv_records, csv_rows, numbered_row, read_next, record_field};
pub use refusal::{Refusal, Refused, TextError};
pub use texts::text_of;
pub use value_part::{Reason, ValuePart};
pub use weight::are_too_heavy;
