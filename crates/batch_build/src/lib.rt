//! The nodes and buffers of a batch and of its dictionaries (Arrow columnar format, "RecordBatch message" and "DictionaryBatch message"), and the batch of
//! borrowed rows.
//!
//! It has the nodes and buffers of the one array that the cells of each column are written as (`columns`, `specs/Built.antt`), each array before its
//! child arrays. A dictionary column has indices; its dictionary has an entry for each distinct value, and is a batch of its own.
//!
//! [`build`] makes it from borrowed rows. Arrays that are made otherwise are added to a [`BuiltBatch`] by [`push_node`], [`push_validity`], [`push_buffer`],
//! [`push_any_buffer`] and [`push_dictionary`].
//!
//! ```
//! let batch = build(alloc, &schema.fields, &rows)?;
//! ```
//!
//! returns the nodes, buffers and dictionaries of a batch of these rows. Each row must have a cell for each field, which fits it, and there must be no more
//! distinct values than the indices of a dictionary can name.
#![tactic(auto)]

mod batch;
mod boolean_bits;
mod building;
mod coded_cells;
mod content_bytes;
mod dictionary_cells;
mod flat;
mod item_cells;
mod part_cells;
mod valid_bits;
mod value_bytes;
mod widths;

pub use batch::{
    Buffer, BuiltBatch, BuiltBuffer, BuiltDictionary, empty_batch, push_any_buffer, push_buffer,
    push_node, push_validity,
};
pub use building::{build, build_values};
pub use coded_cells::{push_dictionary, values_of};
pub use widths::offset_size;
