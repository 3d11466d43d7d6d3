//! The code of each slot of a column with a dictionary: the place of its value among the distinct ones, which is the index that is written for it
//! (Arrow columnar format, "Dictionary-encoded Layout").
//!
//! The slots are given as runs, without a value for each, and may be under a mask (`specs/Masks.antt`). [`codes_of_runs`] gives their indices, and the
//! entries that these name. [`name_slots`] only names entries, and stops at the first slot for whose entry a dictionary has no room. The bytes of an entry
//! are looked up once for each dictionary; after that it is known by its number. [`KnownEntries`] keeps what is known for the next runs.
//! [`is_same_dictionary`] tests whether two dictionaries are equal.
#![tactic(auto)]

mod coded_runs;
mod entry_numbers;
mod known_dictionary;
mod known_entries;
mod masked_codes;
mod named_slots;
mod number_bytes;
mod number_places;
mod run_codes;
mod run_slots;
mod same_dictionary;
mod stamped_numbers;

pub use coded_runs::{RunCodes, codes_of_runs};
pub use known_entries::KnownEntries;
pub use named_slots::name_slots;
pub use number_bytes::put_number;
pub use run_slots::{count_slots, run_len};
pub use same_dictionary::{Compared, is_same_dictionary};
