//! Reads a text into the arrays of record batches, under a schema of columns of any type, with dictionaries or without.
//!
//! [`csv_table`] returns the table of exactly the rows that `text_import::csv_rows` returns for the same text, and their weight, or the same refusal. It
//! makes no value for a cell and no row: each field goes into the buffers of its column as it is read. It returns `None` for some schemas with lists or
//! structs, which `csv_rows` refuses, and if the rows are too heavy for a table.
//!
//! [`jsonl_table`] does the same for JSON Lines, token by token: no tree is made of a line, and the items of a list and the members of a struct go into
//! buffers of their own. It also returns `None` if the text is refused, if an object has a name twice, if two columns, or two fields of a struct, have one
//! name (even if all lines are arrays), or if a dictionary below a list or a struct has indices of fewer than 32 bits.
//!
//! A record batch has at most as many rows as a piece of a stream. If a column has parts or a dictionary, all rows are one record batch. Only if such a
//! column gets more entries than its indices can name, the text is read again, and a record batch ends before each row for which a dictionary might have no
//! room. Each record batch has dictionaries of its own.
//!
//! ```
//! let fields = field_texts::parse_fields(alloc, &["a:int32?", "s:utf8"])?;
//! let schema = arrow_schema::Schema { fields, pairs: Vec::new(alloc) };
//! let form = text_import::FieldForm { null_text: b"", dates: civil_days::DateForm::Numbers };
//! let read = text_columns::csv_table(alloc, &schema, b"a,s\n1,x\n,\n", &form)?;
//! ```
//!
//! gives a table of two rows in one record batch, 1 and "x", and a null and "", with weight 7.
#![tactic(auto)]

mod ascii_texts;
mod batches;
mod builder;
mod bytes;
mod coding;
mod column_values;
mod complete;
mod dates;
mod flat;
mod integers;
mod lexemes;
mod line_reader;
mod lines;
mod members;
mod next;
mod placing;
mod plain;
mod plain_reader;
mod reading;
mod records;
mod short_integers;
mod starting;
mod table;
mod texts;
mod tokens;

pub use table::{csv_table, jsonl_table};
