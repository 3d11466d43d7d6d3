//! Writing Arrow IPC messages: the one way in which each schema, dictionary batch and record batch is written.
//!
//! A message is appended whole, or not at all if memory is refused. Every schema within the limits can be written. The bytes are definitions
//! (`specs/Trees.antt`, `specs/Written.antt`), and the laws below say that a reader reads back what was written.
//!
//! ```
//! // A stream of one column of 32-bit integers, with the rows 7 and -1.
//! write_schema(alloc, &mut out, &schema)?;
//! let nodes = vec![in alloc; (2, 0)]?;
//! let buffers: [&[u8]; 2] = [&[], &[7, 0, 0, 0, 255, 255, 255, 255]];
//! write_batch(alloc, &mut out, BatchContents { rows: 2, nodes, buffers: &buffers })?;
//! write_end(&mut out)?;
//! ```
#![tactic(auto)]

mod contents;
mod fields;
mod framing;
mod laws;
mod trees;

pub use contents::{BatchContents, BatchShape, MAX_BATCH_BUFFERS, MAX_BATCH_NODES};
pub use framing::{
    encode_schema, write_batch, write_batch_front, write_dictionary, write_dictionary_front,
    write_end, write_padding, write_schema,
};
pub use laws::{
    batch_is_read_again, batch_message_is_read_again, buffers_stand_in_their_body,
    dictionary_is_read_again, dictionary_message_is_read_again, field_is_read_again,
    message_is_read_again, metadata_is_within_its_limit, schema_is_read_again,
    schema_message_is_read_again,
};
