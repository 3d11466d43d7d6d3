//! The batch of columns that are given as runs of slots, without a value for each slot (Arrow columnar format, "RecordBatch message" and
//! "DictionaryBatch message").
//!
//! [`build_runs`] makes the same nodes and buffers as `batch_build::build` makes from borrowed rows with the same cells. Buffers that are already as
//! they are written are borrowed, from several runs too if these are long, or copied as bytes; below a null struct or fixed list, a mask says which
//! slots are left. What is known of dictionaries is kept for the next rows (`dictionary_codes::KnownEntries`).
#![tactic(auto)]

mod as_written;
mod by_runs;
mod entry_arrays;
mod flat_runs;
mod item_slots;
mod kept_buffers;
mod long_runs;
mod mask_bits;
mod masked_contents;
mod masked_lists;
mod number_bytes;
mod run_bits;
mod run_contents;
mod run_fixed_items;
mod run_flags;
mod run_indices;
mod run_items;
mod run_offsets;
mod run_parts;
mod run_slots;
mod run_values;
mod slot_masks;
mod slot_offsets;
mod unset_slots;
mod widths;

pub use by_runs::build_runs;
