//! Writes tables of any types (docs/formats/writing.md): a table as one stream, and each of its pieces as a stream.
//!
//! A stream is made piece by piece: the next rows of the table, the arrays of these rows, and then the messages of the arrays. All of it is made
//! before its first byte is written. A definition says what its bytes are (`ipc_canonical`, `specs/Canonical.antt`), and a law what each piece
//! means.
//!
//! ```ignore
//! let stream = encode(alloc, &table)?;
//! let messages = encode_messages(alloc, &table)?;
//! encode_to(alloc, &table, &mut output)?;
//! let pieces = encode_own_pieces(alloc, &table)?;
//! ```
#![tactic(auto)]

mod by_runs;
mod encoder;
mod front;
mod laws;
mod messages;
mod same_encoding;
mod stream;
mod writing;

pub use by_runs::encode_runs;
pub use encoder::{
    EncodedPieces, encode, encode_messages, encode_own_pieces, encode_pieces, encode_pieces_behind,
};
pub use laws::pieces_are_tables;
pub use writing::{WriteError, encode_to};
