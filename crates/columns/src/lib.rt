//! Arrays: the columns of record batches, as places in the bytes of a stream (Arrow columnar format, "Physical Memory Layout").
//!
//! A [`PlacedArray`] keeps the places of its buffers and owns no bytes. Together with the bytes, as an [`ArrayView`], it is one of the plain arrays
//! of `specs/Array.antt`. [`value`] returns the cell at a slot, and [`row`] the cells at the same slot of several arrays. Neither allocates: the
//! items of a list and the parts of a struct are read on demand.
//!
//! A [`SlotRun`] is a run of consecutive slots of an array, or a number of nulls. The cells of a column, from whatever arrays, are a list of runs
//! (`specs/Runs.antt`), with no value for each cell and no copy of their bytes.
//!
//! ```ignore
//! let values = PlacedArray { slots: 2, validity, layout: PlacedLayout::Fixed(numbers) };
//! let view = ArrayView { array: &values, bytes, dictionaries: &[] };
//! let second = value(&field, view, 1);
//! ```
#![tactic(auto)]

mod array;
mod array_checks;
mod borrowed;
mod borrowing;
mod coded_slots;
mod dictionary;
mod entry;
mod laws;
mod numbers;
mod read;
mod slot_runs;
mod span;
mod view;

pub use array::{Dictionary, DictionaryPart, PlacedArray, PlacedLayout};
pub use array_checks::{counts_wrong, has_short_child, is_short, is_unordered};
pub use borrowed::{ValueRef, Values, ValuesIter};
pub use borrowing::borrow_value;
pub use coded_slots::CodedSlots;
pub use dictionary::KnownArrays;
pub use entry::{EntryPlace, entry_count, entry_place, indexed_entry};
pub use laws::{
    built_reads_back, dictionaries_are_written_alone, listed_reads_back, longer_bytes_keep_arrays,
    rows_can_be_built, worked_cases, written_arrays_have_their_shape, written_arrays_pass,
    written_slots_pass,
};
pub use numbers::{
    OffsetWidth, contents_width, date_integer, least_negative, offset_at, push_index, push_offset,
    timestamp_integer,
};
pub use read::{row, value};
pub use slot_runs::SlotRun;
pub use span::{Span, bytes_at};
pub use view::{ArrayView, array_or, known_arrays, no_array};
