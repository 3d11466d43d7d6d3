//! The catalogue of a store: its tables, and the texts in which they are stored.
//!
//! `encode` writes the text of a catalogue, and `decode` accepts only such texts: each catalogue has one text, and each text has one catalogue. A
//! catalogue is changed by the names of its tables. All segments of a text have digests, or none has: this is the form of the text, which a reader
//! must know.
//!
//! A long catalogue is stored in pages: `encode_page` writes the text of one table, and `encode_root` a list of where each table's page lies;
//! `decode_page` and `decode_root` accept only such texts. A renamed table keeps its page.
//!
//! ```
//! let mut catalogue = decode(alloc, SegmentForm::Bare, &text)?;
//! catalogue.remove("old");
//! catalogue.put(TableEntry::new(alloc, name, schema, segments, None)?)?;
//! let text = encode(alloc, &catalogue)?;
//! ```
#![tactic(auto)]

mod catalogue;
mod decoding;
mod edits;
mod encoding;
mod entry;
mod laws;
mod limits;
mod names;
mod places;
mod roots;
mod testing;

pub use catalogue::Catalogue;
pub use decoding::{DecodeError, decode, decode_page};
pub use edits::put_runs;
pub use encoding::{encode, encode_page, page_size};
pub use entry::{RootEntry, Segment, SegmentForm, TableEntry};
pub use laws::{
    counts_after_changes, one_page_each, one_root_each, one_text_each, rows_are_few,
    runs_are_named, texts_have_these_sizes,
};
pub use limits::{MAX_NAME_BYTES, MAX_SEGMENT_ROWS, MAX_SEGMENTS, MAX_TABLES};
pub use names::is_name;
pub use roots::{decode_root, encode_root};
