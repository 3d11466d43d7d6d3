// Locates the first fault of a stream.
ghost use Rattle.std.specs.Prelude.{◌≡◌, ℕ, List, IfOk};
ghost use Rattle.ipc_message.specs.Header.{supported_codes};
ghost use Rattle.ipc_stream.specs.Place.{place_of};
ghost use Rattle.ipc_stream.specs.inner.Reached.{Rests};

use crate::reading::{Reading, read_on};
use ipc_message::ImportError;
use std::alloc::{AllocError, Global};

// Returns the place of the first fault once the bytes were read as far as they go.
fn place_at_end(reading: &Reading) -> Option<(usize, usize)>
    ensures { (bytes : List ℕ) → Rests bytes reading.now → result ≡ place_of supported_codes bytes }
{
    if reading.held > 0 {
        return Some((reading.number, reading.start));
    }
    match &reading.front {
        None => Some((reading.number, reading.start)),
        Some(_) => None,
    }
}

/// Returns the number of the first faulty message of a stream, counted from 0, and the offset of its first byte, or `None` if the stream means a
/// table. The end of stream counts as a message.
///
/// # Errors
/// `AllocError` if memory was refused.
pub fn place(alloc: Global, bytes: &[u8]) -> Result<Option<(usize, usize)>, AllocError>
    ensures { IfOk result (λ place. place ≡ place_of supported_codes bytes.now) }
{
    match read_on(alloc, None, 0, 0, bytes) {
        Ok(reading) => Ok(place_at_end(&reading)),
        Err(stopped) => match stopped.error {
            ImportError::OutOfMemory => Err(AllocError),
            ImportError::Fault(_) => Ok(Some((stopped.number, stopped.start))),
        },
    }
}
