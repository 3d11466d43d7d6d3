//! The canonical stream of a table of any types: the bytes that a table is written as (`specs/Canonical`), and laws that they are read back.
//!
//! Arrays that are written as a record batch or as a dictionary's entries are read back as the same arrays; the dictionaries of a written schema have
//! ascending ids; and the whole stream, even if its rows come in several lists, means its table ([`canonical_means_its_table`],
//! [`joined_parts_mean_their_table`]; docs/definitions/writing.md). The functions do nothing: their contracts are the laws.
#![tactic(auto)]

mod laws;

pub use laws::{
    canonical_means_its_table, joined_parts_mean_their_table, pieces_can_be_built,
    replaced_dictionaries_are_in_effect, replacing_batches_are_read, worked_cases,
    written_batches_pass, written_entries_are_read, written_ids_count_dictionaries,
    written_rows_are_read,
};
