//! Arrow IPC streams of any types: the meaning of a stream of bytes, and the state after each of its messages.
//!
//! A stream is read message by message: a schema, then dictionary batches and record batches, each in the state that the messages before it left.
//! [`add_message`] returns exactly the state after one more message, or its first fault, and [`read_front`] the state at the end of a stream.
//!
//! [`decode`] returns the table that a stream means. Arrays are places in the bytes of the stream: no cell is copied. A [`Decoder`] does the same for
//! a stream that arrives in pieces, and [`place`] locates the first fault of a stream.
//!
//! ```ignore
//! let table = decode(alloc, bytes)?;
//!
//! let mut decoder = Decoder::new(alloc);
//! decoder.feed(alloc, piece)?;
//! let table = decoder.finish(alloc)?;
//! ```
#![tactic(auto)]

mod add;
mod decoder;
mod front;
mod laws;
mod placing;
mod reading;
mod whole;

pub use add::add_message;
pub use decoder::{Decoder, FinishError};
pub use front::Front;
pub use laws::{
    faults_stand_at_their_place, meaning_is_a_table, meaning_is_framed,
    older_streams_keep_their_meaning, settled_faults_stay,
};
pub use placing::place;
pub use reading::read_front;
pub use whole::{decode, decode_weighed};
