//! Arrow IPC messages: their framing, and the decoding of their metadata.
//!
//! A message is read up to its header without allocation, and refused by the first test that fails. Its header decodes to
//! a tree that borrows its strings, so that hostile metadata cannot make a reader copy more than it was given.
//!
//! ```
//! // The schema of a stream, if its first message is a schema.
//! let (next, taken) = read_message(bytes)?;
//! if let NextMessage::Message(message) = next {
//!     if let Header::Schema(raw) = message.header(alloc)? {
//!         return read_schema(alloc, &raw);
//!     }
//! }
//! ```
#![tactic(auto)]

mod convert;
mod dictionaries;
mod dictionary_type;
mod error;
mod fault;
mod fault_text;
mod fields;
mod header_type;
mod laws;
mod message;
mod next_message;
mod raw_header;
mod read_fields;
mod read_header;
mod read_tables;
mod same;
mod schema_checks;
mod texts;
mod type_checks;
pub mod type_codes;
mod walk_error;

pub use convert::read_schema;
pub use dictionaries::read_dictionary_types;
pub use dictionary_type::DictionaryType;
pub use error::ImportError;
pub use fault::{Fault, TypeName};
pub use header_type::{DICTIONARY_BATCH, HeaderType, RECORD_BATCH, SCHEMA};
pub use laws::{
    checked_schema_is_within_limits, named_codes_stay_supported, next_message_is_framed,
    only_named_codes_matter,
};
pub use message::{Message, NextMessage, V5};
pub use next_message::{CONTINUATION_MARKER, read_message};
pub use raw_header::{
    Encoding, Header, KeyValue, Parameters, RawBatch, RawDictionaryBatch, RawField, RawSchema,
};
pub use texts::is_utf8;
