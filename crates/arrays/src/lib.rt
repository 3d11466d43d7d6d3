//! Reading record batches: the arrays that the nodes and buffers of a batch are (Message.fbs, "RecordBatch").
//!
//! [`read`] answers the arrays of a record batch of any types, as places in the bytes that its body is in, and what its rows weigh; or the fault of the
//! first check that finds something (docs/definitions/arrays.md). [`read_arrays`] makes the checks of the arrays alone: it looks at every array, hidden or not.
//! [`read_dictionary`] answers the array of a dictionary batch in the same way.
//! [`names_no_entry_in`], [`has_bad_text`] and [`has_forbidden_null`] are tests of what is visible: by spans of slots, without memory, and whatever is
//! in hidden slots. Nothing is copied. [`row_span_weight`] weighs rows of a batch by spans too.
//!
//! ```ignore
//! let batch = read(alloc, &schema, before, &raw, body, bytes, &dictionaries, &parts)?;
//! before += batch.weight;
//! ```
#![tactic(auto)]

mod array_checks;
mod batch;
mod batch_arrays;
mod counts;
mod dictionary_batch;
mod dictionary_columns;
mod entry_weights;
mod every;
mod heavy;
mod laws;
mod lengths;
mod limits;
mod masked;
mod null_type;
mod place;
mod raw;
mod rest;
mod runs;
mod schema_dictionaries;
mod sized_slots;
mod varying;
mod visible;
mod weights;

pub use batch::{PlacedBatch, read};
pub use batch_arrays::read_arrays;
pub use dictionary_batch::read_dictionary;
pub use dictionary_columns::DictionaryColumns;
pub use heavy::row_span_weight;
pub use laws::{
    read_dictionaries_are_readable, read_dictionaries_have_bytes, read_rows_are_rows,
    read_texts_are_utf8, schemas_give_dictionary_columns, shared_entries_fit,
};
pub use limits::MAX_SLOTS;
pub use schema_dictionaries::read_dictionary_columns;
pub use visible::{has_bad_text, has_forbidden_null, names_no_entry_in};
